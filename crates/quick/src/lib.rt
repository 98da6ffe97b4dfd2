// The quick way of a call with a PDU: for a segment that leaves its transfer receiving, and for what is refused beside it, only the numbers that change are handed back, and
// the caller's state is not copied. Any other call is left to `dest::insert`.
#![tactic(auto)]

ghost use Rattle.std.specs.Prelude.{◌≡◌};
ghost use Rattle.inserting.specs.FileData.{taken_seen};
ghost use Rattle.quick.specs.Quick.{quick_seen, taken_quick, quicked, quick_of, with_quick};

use codes::Refusal;
use inserting::Taken;
use packet_info::Target;
use state::State;
use transfer::{FileState, Indication, TransactionStep, TransferState};

// A segment that was taken: the file's length and progress, how many bytes the segment has, and its indication.
#[derive(Clone, Copy)]
pub struct Quick {
    pub file: FileState,
    pub count: usize,
    pub note: Option<Indication>,
}

// After file data in the receiving step: 19 goes the general way.
fn after_file_data(t: TransferState, i: Taken, notify: bool) -> Option<Result<Quick, Refusal>>
    ensures { quick_seen t.file result ≡ taken_quick notify t (taken_seen t.file i) }
{
    let refusal = match i.file {
        Ok(file) => {
            return Some(Ok(Quick {
                file,
                count: i.count,
                note: inserting::segment_recvd_indication(notify, t, i.offset, i.count),
            }));
        }
        Err(refusal) => refusal,
    };
    if refusal != Refusal::DoesNotFit {
        return Some(Err(refusal));
    }
    None
}

// A call with a PDU on the quick way, for an out buffer of that length and any timer flag: a segment that was taken, or the refusal. None is a call that goes the general way:
// nothing has changed.
pub fn insert(s: &State, store: &mut [u8], out: usize, pdu: &[u8]) -> Option<Result<Quick, Refusal>>
    ensures { quicked (quick_seen s.now.transfer.file result) store.new ≡ quick_of s.now store.old out pdu.now }
{
    let t = s.transfer;
    if t.step != TransactionStep::Receiving {
        return None;
    }
    let info = match dest::entered(s, store.len(), out, pdu) {
        Ok(info) => info,
        Err(refusal) => return Some(Err(refusal)),
    };
    match info.target {
        Target::FileData => {}
        Target::Metadata => return None,
        Target::Eof => return None,
    }
    let h = info.header;
    let conf = h.conf;
    let i = inserting::handle_file_data(t, store, h.data_field(pdu), conf, h.segmentmetadata);
    after_file_data(t, i, s.config.segmentrecv)
}

// The state behind a segment that was taken, where it stands: only the file's length and progress change.
pub fn apply(s: &mut State, q: Quick)
    ensures { s.new ≡ with_quick s.old q.file }
{
    s.transfer.file = q.file;
}

// The same of a state that is handed in and back.
pub fn with_quick(s: State, q: Quick) -> State
    ensures { result ≡ with_quick s q.file }
{
    let mut next = s;
    apply(&mut next, q);
    next
}
