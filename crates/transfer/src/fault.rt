// Faults and their handlers.
ghost use Rattle.std.specs.Prelude.{◌≡◌};
ghost use Rattle.transfer.specs.Fault.{ignores, cancelled_by, handled, declared_of};

use crate::{Declared, FinishState, Indication, TransactionStep, TransferState};

// Whether a handler ignores: it is neither cancel nor abandon.
pub fn ignored(handler: u8) -> bool
    ensures { result ≡ ignores handler }
{
    handler != codes::NOTICE_OF_CANCELLATION && handler != codes::ABANDON_TRANSACTION
}

// A transfer cancelled with a condition: it goes on to completion.
fn notice_of_cancellation(t: TransferState, condition: u8) -> TransferState
    ensures { result ≡ cancelled_by t condition }
{
    TransferState {
        step: TransactionStep::Completion,
        finish: FinishState {
            condition,
            cancelled: true,
            ..t.finish
        },
        ..t
    }
}

// What the handler makes of the transfer: cancel, abandon, or, by any other, nothing.
#[tactic(auto, unfolding(crate::specs::Fault::handled))]
fn effect(t: TransferState, condition: u8, handler: u8) -> TransferState
    ensures { result ≡ handled handler t condition }
{
    match handler {
        codes::NOTICE_OF_CANCELLATION => notice_of_cancellation(t, condition),
        codes::ABANDON_TRANSACTION => crate::idle_after(t.file.length),
        _ => t,
    }
}

// Declares a fault: its handler's effect, and the report.
pub fn declare_fault(t: TransferState, condition: u8, handler: u8) -> Declared
    ensures { result ≡ declared_of handler t condition }
{
    let report = Indication::Fault(handler, crate::id(t), condition, t.file.progress);
    Declared {
        state: effect(t, condition, handler),
        report: Some(report),
    }
}
