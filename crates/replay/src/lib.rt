// A recording, replayed: the header, one record after the other, and what is printed for each. All work is on slices; the program `rxt`
// reads and writes.
#![tactic(auto)]

ghost use Rattle.std.specs.Prelude.{◌≡◌, cond, [], ◌++◌, drop, replicate, Ok, Some};
ghost use Rattle.finished.specs.Finished.{out_size};
ghost use Rattle.dest.specs.Call.{outcome, called_seen};
ghost use Rattle.replay.specs.Replay.{onward, step as Replay-step, stepped_seen, after_call, step_of, shown, tally_of, printed, opened_seen, opened_of, output_of};
ghost use Rattle.text.specs.Text.{text_of};
ghost use Rattle.recording.specs.Record.{record_of};
ghost use Rattle.replay.specs.Quick.{quick_done, quick_step_seen, quick_step_of, moved_of, tried};

use codes::Refusal;
use dest::{Called, Indications};
use quick::Quick;
use recording::record::RecordRead;
use recording::tally::Tally;
use recording::{record, settings, tally};
use state::State;
use text::Text;

// A recording that is being replayed: the receiver's state, the number of the last record, the place of the next one, and the tally.
#[derive(Clone, Copy)]
pub struct Replay {
    pub state: State,
    pub number: u64,
    pub offset: u64,
    pub tally: Tally,
}

// What reading the header leaves: the first line, the store's length, how many bytes the header has, and the receiver.
#[derive(Clone, Copy)]
pub struct Opened {
    pub text: Text,
    pub store: usize,
    pub used: usize,
    pub replay: Replay,
}

// What a step leaves: what it prints, the call's indications, how many bytes it took, and the receiver.
#[derive(Clone, Copy)]
pub struct Stepped {
    pub text: Text,
    pub notes: Indications,
    pub used: usize,
    pub replay: Replay,
}

// What a record leaves on the quick way: how many bytes it has, and the segment that was taken, or the refusal.
#[derive(Clone, Copy)]
pub struct QuickStep {
    pub used: usize,
    pub call: Result<Quick, Refusal>,
}

// Reads the header of a recording. Where it is bad the reading ends, with a text before the tally.
pub fn open(s: &[u8]) -> Result<Opened, Text>
    ensures value { opened_seen s.now result ≡ opened_of s.now }
    ensures prints { let o = opened_seen s.now result in output_of s.now ≡ shown o.text ++ cond o.more (printed o.replay (replicate o.store 0) (replicate out_size 0) (drop o.used s.now)) (tally_of o.replay.tally) }
{
    let Some(read) = settings::read(s) else {
        return Err(text::bad_text(0));
    };
    let config = read.config;
    let state = state::fresh(config).unwrap();
    Ok(Opened {
        text: text::mark_text(),
        store: read.store,
        used: read.size,
        replay: Replay {
            state,
            number: 0,
            offset: read.size as u64,
            tally: tally::none(),
        },
    })
}

// A number that grows by k, and stops at 2^64 - 1.
fn advance(n: u64, k: usize) -> u64
    ensures { result ≡ onward n k }
{
    let room = u64::MAX - n;
    if room < k as u64 {
        return u64::MAX;
    }
    n + k as u64
}

// After a call, for a record of `used` bytes with n bytes of file data.
fn after_call(m: Replay, used: usize, n: usize, c: Called, out: &[u8]) -> Stepped
    ensures { stepped_seen m (Ok result) ≡ after_call m used n (outcome (called_seen c) [] out.now) }
{
    let number = advance(m.number, 1);
    let answer = codes::answer_number(c.answer);
    let tally = m.tally;
    Stepped {
        text: text::record_text(number, answer, parts::front(out, c.sent)),
        notes: c.notes,
        used,
        replay: Replay {
            state: c.state,
            number,
            offset: advance(m.offset, used),
            tally: tally::after_call(tally, answer, n),
        },
    }
}

// One record: feeds it to the receiver. The slice holds the rest of the recording, or at least the longest record. Where there is none, or it is bad, the reading ends, with a text
// before the tally.
pub fn step(m: Replay, store: &mut [u8], out: &mut [u8], s: &[u8]) -> Result<Stepped, Text>
    ensures out_after { Replay-step (stepped_seen m result) store.new out.new ≡ step_of m store.old out.old s.now }
    ensures prints { let r = stepped_seen m result in printed m store.old out.old s.now ≡ shown r.text ++ cond r.more (printed r.replay store.new out.new (drop r.used s.now)) (tally_of m.tally) }
{
    let read = record::read(s);
    let state = m.state;
    match read {
        RecordRead::End => Err(text::no_text()),
        RecordRead::Bad => Err(text::bad_text(m.offset)),
        RecordRead::Poll(timer) => {
            let c = dest::poll(state, &store[..], out, timer);
            Ok(after_call(m, 2, 0, c, &out[..]))
        }
        RecordRead::Packet(timer, n) => {
            let end = record::PDU_START + n;
            let pdu = &s[4..end];
            let c = dest::insert(state, store, out, pdu, timer);
            Ok(after_call(m, end, tally::data_bytes(pdu), c, &out[..]))
        }
    }
}

// One record on the quick way, for an out buffer of that length: a segment that leaves its transfer receiving, or what is refused beside it. Any other record is left as it is, for
// `step`.
pub fn quick_step(m: &Replay, store: &mut [u8], out: usize, s: &[u8]) -> Option<QuickStep>
    ensures { tried (quick_step_seen (record_of s.now) m.now.state.transfer.file result) store.new ≡ quick_step_of m.now store.old out s.now }
{
    match record::read(s) {
        RecordRead::End => None,
        RecordRead::Bad => None,
        RecordRead::Poll(_) => None,
        RecordRead::Packet(_, n) => {
            let used = record::PDU_START + n;
            let call = quick::insert(&m.state, store, out, &s[4..used])?;
            Some(QuickStep { used, call })
        }
    }
}

// The recording behind a record that the quick way has done, where it stands: only numbers change.
pub fn move_on(m: &mut Replay, q: QuickStep)
    ensures { m.new ≡ moved_of m.old (quick_done m.old.state.transfer.file q) }
{
    m.number = advance(m.number, 1);
    m.offset = advance(m.offset, q.used);
    match q.call {
        Ok(quick) => {
            quick::apply(&mut m.state, quick);
            m.tally = tally::after_call(m.tally, 0, quick.count);
        }
        Err(refusal) => m.tally = tally::after_call(m.tally, refusal.number(), 0),
    }
}

// The same of a recording that is handed in and back.
pub fn moved(m: Replay, q: QuickStep) -> Replay
    ensures { result ≡ moved_of m (quick_done m.state.transfer.file q) }
{
    let mut next = m;
    move_on(&mut next, q);
    next
}

// The last line.
pub fn close(t: Tally) -> Text
    ensures { result ≡ text_of (tally_of t) }
{
    text::tally_text(t.accepted, t.refused, t.bytes)
}
