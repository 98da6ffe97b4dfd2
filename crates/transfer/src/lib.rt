// A transfer: its record, the segment, faults and verification (the Rust: dest.rs). The names, the table and the store's bytes stay outside:
// each function takes numbers, small structs and the slices that it needs.
#![tactic(auto)]

mod fault;
mod segment;
mod verify;

ghost use Rattle.std.specs.Prelude.{◌≡◌, ◌++◌, Some, codes, decimal};
ghost use Rattle.transfer.specs.Transfer.{id_of, at_step, idle_after, started_of};

pub use fault::{declare_fault, ignored};
use header::CommonPduConfig;
use numbers::Width;
pub use segment::handle_segment;
use std::fmt;
pub use verify::checksum_verify;

// The id of a transfer.
#[derive(Clone, Copy, Debug, PartialEq, Eq)]
pub struct TransactionId {
    pub source: u64,
    pub seqnum: u64,
}

// Its source id and sequence number, a blank between them.
impl fmt::Display for TransactionId {
    ghost output = { λ i. Some (decimal i.source ++ (codes " " ++ decimal i.seqnum)) };

    fn fmt<W: fmt::Write>(&self, f: &mut fmt::Formatter<W>) -> fmt::Result {
        let source = self.source;
        let seqnum = self.seqnum;
        write!(f, "{source} {seqnum}")
    }
}

// What the user is told: Metadata with the file size; a segment with offset and length; EOF;
// Finished with condition, whether delivery is complete and whether the file is retained; a fault with handler, condition and progress.
#[derive(Clone, Copy, Debug, PartialEq, Eq)]
pub enum Indication {
    Metadata(TransactionId, u64),
    Segment(TransactionId, u64, u64),
    Eof(TransactionId),
    Finished(TransactionId, u8, bool, bool),
    Fault(u8, TransactionId, u8, u64),
}

// The steps: no transfer; receiving file data; waiting for what is missing after the EOF; completion.
#[derive(Clone, Copy, Debug, PartialEq, Eq)]
pub enum TransactionStep {
    Idle,
    Receiving,
    Waiting,
    Completion,
}

// The file so far: its length in the store, and the progress that faults report.
#[derive(Clone, Copy, Debug, PartialEq, Eq, Default)]
pub struct FileState {
    pub length: usize,
    pub progress: u64,
}

// What the wait goes by: the EOF's checksum, and the expiries counted.
#[derive(Clone, Copy, Debug, PartialEq, Eq, Default)]
pub struct CheckState {
    pub checksum: u32,
    pub count: u32,
}

// What the Finished indication will say, and whether the transfer is cancelled.
#[derive(Clone, Copy, Debug, PartialEq, Eq, Default)]
pub struct FinishState {
    pub condition: u8,
    pub complete: bool,
    pub retained: bool,
    pub cancelled: bool,
}

// The record of a transfer.
#[derive(Clone, Copy)]
pub struct TransferState {
    pub step: TransactionStep,
    pub conf: CommonPduConfig,
    pub closure: bool,
    pub checksumtype: u8,
    pub file: FileState,
    pub check: CheckState,
    pub finish: FinishState,
}

// A fault, declared: the transfer that its handler leaves, and the report.
#[derive(Clone, Copy)]
pub struct Declared {
    pub state: TransferState,
    pub report: Option<Indication>,
}

// What verification finds: the sum is right, it is not, or the call's work has ended.
#[derive(Clone, Copy, Debug, PartialEq, Eq)]
pub enum Verdict {
    Good,
    Bad,
    Ended,
}

// A verdict, with the transfer and the report of a fault.
#[derive(Clone, Copy)]
pub struct Verified {
    pub state: TransferState,
    pub verdict: Verdict,
    pub report: Option<Indication>,
}

// The id of a transfer.
pub fn id(t: TransferState) -> TransactionId
    ensures { result ≡ id_of t }
{
    TransactionId {
        source: t.conf.source,
        seqnum: t.conf.seqnum,
    }
}

// The transfer in another step.
pub fn at_step(t: TransferState, step: TransactionStep) -> TransferState
    ensures { result ≡ at_step t step }
{
    TransferState { step, ..t }
}

// No transfer; the last file's length is kept.
#[tactic(auto, unfolding(crate::specs::Transfer::idle_after))]
pub fn idle_after(length: usize) -> TransferState
    ensures { result ≡ idle_after length }
{
    TransferState {
        step: TransactionStep::Idle,
        conf: CommonPduConfig {
            unacknowledged: false,
            largefile: false,
            idwidth: Width::One,
            seqwidth: Width::One,
            source: 0,
            seqnum: 0,
            dest: 0,
        },
        closure: false,
        checksumtype: codes::MODULAR,
        file: FileState {
            length,
            progress: 0,
        },
        check: CheckState::default(),
        finish: FinishState::default(),
    }
}

// A transfer that starts.
#[tactic(auto, unfolding(crate::specs::Transfer::started_of))]
pub fn started(conf: CommonPduConfig, closure: bool, checksumtype: u8) -> TransferState
    ensures { result ≡ started_of conf closure checksumtype }
{
    TransferState {
        step: TransactionStep::Receiving,
        conf,
        closure,
        checksumtype,
        file: FileState::default(),
        check: CheckState::default(),
        finish: FinishState {
            condition: codes::NO_ERROR,
            complete: false,
            retained: true,
            cancelled: false,
        },
    }
}
