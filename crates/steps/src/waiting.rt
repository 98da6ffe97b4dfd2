// The wait after an EOF whose sum failed.
ghost use Rattle.std.specs.Prelude.{◌≡◌};
ghost use Rattle.steps.specs.Waiting.{limit_of, check_of};

use crate::Faults;
use transfer::{CheckState, Declared, TransactionStep, TransferState, Verdict};

// A sum that failed again: fault 10 at the limit, else one more counted.
fn at_limit(t: TransferState, limit: u32, handler: u8) -> Declared
    ensures { result ≡ limit_of handler limit t }
{
    let count = t.check.count;
    if limit as u64 <= count as u64 + 1 {
        return transfer::declare_fault(t, codes::CHECK_LIMIT_REACHED, handler);
    }
    let check = CheckState {
        count: count + 1,
        ..t.check
    };
    Declared {
        state: TransferState { check, ..t },
        report: None,
    }
}

// One expiry of the check timer.
pub fn check_limit_handling(t: TransferState, file: &[u8], limit: u32, faults: Faults) -> Declared
    ensures { result ≡ check_of faults limit t file.now }
{
    let verified = transfer::checksum_verify(t, file, t.check.checksum, faults.unsupported);
    let after = verified.state;
    let report = verified.report;
    let verdict = verified.verdict;
    match verdict {
        Verdict::Good => Declared {
            state: transfer::at_step(after, TransactionStep::Completion),
            report: report,
        },
        Verdict::Bad => at_limit(after, limit, faults.checklimit),
        Verdict::Ended => Declared {
            state: after,
            report: report,
        },
    }
}
