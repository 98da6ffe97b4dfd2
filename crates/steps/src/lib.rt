// The steps of a transfer (the Rust: dest.rs): the EOF, the wait after a sum that failed, completion. Each takes the record, small structs and the
// slices that it needs.
#![tactic(auto)]

mod completion;
mod eof;
mod waiting;

pub use completion::{fsm_busy, transfer_completion};
pub use eof::handle_no_error_eof_pdu;
use finished::EntityId;
use transfer::{Indication, TransferState};
pub use waiting::check_limit_handling;

// The handlers of the faults that a transfer can meet: each cancels, ignores or abandons.
#[derive(Clone, Copy)]
pub struct Faults {
    pub filestore: u8,
    pub checksum: u8,
    pub filesize: u8,
    pub checklimit: u8,
    pub unsupported: u8,
}

// What a call knows of the two entities: the remote one's check limit and discard flag, and the local id.
#[derive(Clone, Copy)]
pub struct Remote {
    pub limit: u32,
    pub discard: bool,
    pub local: EntityId,
}

// What an EOF leaves: the transfer, the report of a size fault, and that of a fault of verification.
#[derive(Clone, Copy)]
pub struct EofHandled {
    pub state: TransferState,
    pub sizefault: Option<Indication>,
    pub sumfault: Option<Indication>,
}

// What completion leaves: the idle record, the Finished indication, and how many bytes were sent.
#[derive(Clone, Copy)]
pub struct Completed {
    pub state: TransferState,
    pub finished: Option<Indication>,
    pub sent: usize,
}

// What the busy steps leave: the transfer, the waiting step's report, the Finished indication, and how many bytes were sent.
#[derive(Clone, Copy)]
pub struct Busy {
    pub state: TransferState,
    pub checked: Option<Indication>,
    pub finished: Option<Indication>,
    pub sent: usize,
}
