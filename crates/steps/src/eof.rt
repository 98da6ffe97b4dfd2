// An EOF without error.
ghost use Rattle.std.specs.Prelude.{◌≡◌};
ghost use Rattle.steps.specs.Eof.{waiting_for, failed_of, eof_verified, eof_handled_of};

use crate::{EofHandled, Faults};
use bodies::eof::EofPdu;
use transfer::{CheckState, Indication, TransactionStep, TransferState, Verdict};

// The transfer waits for what is missing: the checksum is kept, and the count starts.
fn start_check_limit_handling(t: TransferState, checksum: u32) -> TransferState
    ensures { result ≡ waiting_for t checksum }
{
    let check = CheckState { checksum, count: 0 };
    TransferState {
        step: TransactionStep::Waiting,
        check,
        ..t
    }
}

// A sum that failed: fault 5, and the wait where its handler ignores.
fn checksum_failure(
    t: TransferState,
    checksum: u32,
    sizefault: Option<Indication>,
    handler: u8,
) -> EofHandled
    ensures { result ≡ failed_of handler t checksum sizefault }
{
    let fault = transfer::declare_fault(t, codes::FILE_CHECKSUM_FAILURE, handler);
    let after = fault.state;
    let report = fault.report;
    if transfer::ignored(handler) {
        return EofHandled {
            state: start_check_limit_handling(t, checksum),
            sizefault,
            sumfault: report,
        };
    }
    EofHandled {
        state: after,
        sizefault,
        sumfault: report,
    }
}

// Verification at the EOF, and what follows from it.
fn verify_at_eof(
    t: TransferState,
    file: &[u8],
    checksum: u32,
    sizefault: Option<Indication>,
    faults: Faults,
) -> EofHandled
    ensures { result ≡ eof_verified faults t file.now checksum sizefault }
{
    let verified = transfer::checksum_verify(t, file, checksum, faults.unsupported);
    let after = verified.state;
    let report = verified.report;
    let verdict = verified.verdict;
    match verdict {
        Verdict::Good => EofHandled {
            state: transfer::at_step(after, TransactionStep::Completion),
            sizefault,
            sumfault: report,
        },
        Verdict::Bad => checksum_failure(after, checksum, sizefault, faults.checksum),
        Verdict::Ended => EofHandled {
            state: after,
            sizefault,
            sumfault: report,
        },
    }
}

// Handles an EOF whose condition is 0.
pub fn handle_no_error_eof_pdu(
    t: TransferState,
    file: &[u8],
    eof: EofPdu,
    faults: Faults,
) -> EofHandled
    ensures { result ≡ eof_handled_of faults t file.now eof }
{
    if eof.size < t.file.progress {
        let fault = transfer::declare_fault(t, codes::FILE_SIZE_ERROR, faults.filesize);
        let after = fault.state;
        let report = fault.report;
        if transfer::ignored(faults.filesize) {
            return verify_at_eof(t, file, eof.checksum, report, faults);
        }
        return EofHandled {
            state: after,
            sizefault: report,
            sumfault: None,
        };
    }
    verify_at_eof(t, file, eof.checksum, None, faults)
}
