// Completion, and the busy steps of a call.
ghost use Rattle.std.specs.Prelude.{◌≡◌};
ghost use Rattle.codes.specs.Refusals.{answered};
ghost use Rattle.steps.specs.Completion.{discards, finish_of, finished_note, sent_bytes, kept_length, ended, completion_of};
ghost use Rattle.steps.specs.Busy.{waited_of, left, ended_of, busy_of};

use crate::{Busy, Completed, Faults, Remote};
use codes::Refusal;
use finished::{EntityId, FinishedPdu};
use transfer::{Declared, Indication, TransactionStep, TransferState};

// Whether the file is discarded: cancelled, incomplete, and the remote entry says so.
#[tactic(auto, unfolding(crate::specs::Completion::discards))]
fn discarded(t: TransferState, discard: bool) -> bool
    ensures { result ≡ discards t discard }
{
    t.finish.cancelled && !t.finish.complete && discard
}

// What the Finished PDU and indication say.
#[tactic(auto, unfolding(crate::specs::Completion::finish_of))]
fn finish(t: TransferState, discard: bool) -> FinishedPdu
    ensures { result ≡ finish_of t discard }
{
    FinishedPdu {
        condition: t.finish.condition,
        complete: t.finish.complete,
        retained: !discarded(t, discard) && t.finish.retained,
    }
}

// The file's length afterwards.
#[tactic(auto, unfolding(crate::specs::Completion::kept_length))]
fn kept_length(t: TransferState, discard: bool) -> usize
    ensures { result ≡ kept_length t discard }
{
    if discarded(t, discard) {
        return 0;
    }
    t.file.length
}

// The Finished indication.
#[tactic(auto, unfolding(crate::specs::Completion::finished_note))]
fn notice_of_completion(t: TransferState, discard: bool) -> Option<Indication>
    ensures { result ≡ finished_note t discard }
{
    let f = finish(t, discard);
    let id = transfer::id(t);
    Some(Indication::Finished(id, f.condition, f.complete, f.retained))
}

// How many bytes were sent.
fn sent_bytes(w: Result<usize, Refusal>) -> usize
    ensures { result ≡ sent_bytes (answered w) }
{
    w.unwrap_or(0)
}

// Completes a transfer: the Finished indication, with closure the Finished PDU, and no transfer any more.
pub fn transfer_completion(
    t: TransferState,
    discard: bool,
    local: EntityId,
    out: &mut [u8],
) -> Completed
    ensures { ended result out.new ≡ completion_of local discard t out.old }
{
    let finished = notice_of_completion(t, discard);
    let state = transfer::idle_after(kept_length(t, discard));
    if !t.closure {
        return Completed {
            state,
            finished,
            sent: 0,
        };
    }
    let conf = t.conf;
    let written = finished::write(out, conf, finish(t, discard), local);
    Completed {
        state,
        finished,
        sent: sent_bytes(written),
    }
}

// The waiting step, where the transfer waits and the timer has expired.
fn waited(t: TransferState, store: &[u8], timer: bool, remote: Remote, faults: Faults) -> Declared
    ensures { result ≡ waited_of faults remote t store.now timer }
{
    let waits = t.step == TransactionStep::Waiting;
    if timer && waits {
        let file = filestore::file(store, t.file.length);
        return crate::check_limit_handling(t, file, remote.limit, faults);
    }
    Declared {
        state: t,
        report: None,
    }
}

// Completion, where the transfer has come to it.
fn completed(d: Declared, out: &mut [u8], remote: Remote) -> Busy
    ensures { left result out.new ≡ ended_of remote d out.old }
{
    let t = d.state;
    let checked = d.report;
    if t.step != TransactionStep::Completion {
        return Busy {
            state: t,
            checked,
            finished: None,
            sent: 0,
        };
    }
    let local = remote.local;
    let done = transfer_completion(t, remote.discard, local, out);
    Busy {
        state: done.state,
        checked,
        finished: done.finished,
        sent: done.sent,
    }
}

// The busy steps of a call.
pub fn fsm_busy(
    t: TransferState,
    store: &[u8],
    out: &mut [u8],
    timer: bool,
    remote: Remote,
    faults: Faults,
) -> Busy
    ensures { left result out.new ≡ busy_of faults remote t store.now out.old timer }
{
    completed(waited(t, store, timer, remote, faults), out, remote)
}
