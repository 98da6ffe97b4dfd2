// Verification of the file.
ghost use Rattle.std.specs.Prelude.{◌≡◌};
ghost use Rattle.transfer.specs.Verify.{completed, unsupported_of, verified_of};

use crate::{FinishState, TransferState, Verdict, Verified};

// The transfer with delivery complete.
fn with_delivery(t: TransferState) -> TransferState
    ensures { result ≡ completed t }
{
    TransferState {
        finish: FinishState {
            complete: true,
            ..t.finish
        },
        ..t
    }
}

// A checksum type that is not supported: fault 11, then true, unless its handler abandons.
fn unsupported(t: TransferState, handler: u8) -> Verified
    ensures { result ≡ unsupported_of handler t }
{
    let fault = crate::declare_fault(t, codes::UNSUPPORTED_CHECKSUM_TYPE, handler);
    let after = fault.state;
    let report = fault.report;
    if handler == codes::ABANDON_TRANSACTION {
        return Verified {
            state: after,
            verdict: Verdict::Ended,
            report,
        };
    }
    Verified {
        state: with_delivery(after),
        verdict: Verdict::Good,
        report,
    }
}

// Verifies the file by a checksum, with the handler of fault 11.
#[tactic(auto, unfolding(crate::specs::Verify::verified_of))]
pub fn checksum_verify(t: TransferState, file: &[u8], checksum: u32, handler: u8) -> Verified
    ensures { result ≡ verified_of handler t file.now checksum }
{
    let good = match t.checksumtype {
        codes::MODULAR => filestore::checksum(file) == checksum,
        codes::NULL_CHECKSUM => true,
        _ => return unsupported(t, handler),
    };
    if good {
        return Verified {
            state: with_delivery(t),
            verdict: Verdict::Good,
            report: None,
        };
    }
    Verified {
        state: t,
        verdict: Verdict::Bad,
        report: None,
    }
}
