// Repeats the last records of a recording, so that one call can be timed (bench/): standard input holds N (4 bytes) and K (1 byte), big-endian, and a recording of at most 262,139 bytes.
// All records but the last K are fed once, then those K, N times. Prints `laps`, N, the last answer, and the file's progress and length; or `bad`.
#![tactic(auto)]

use codes::Refusal;
use dest::Called;
use numbers::Width;
use recording::record;
use recording::record::RecordRead;
use state::State;
use std::io;
use std::io::Write;

// What is fed: the receiver, and the answer to its last call.
#[derive(Drop)]
struct Fed {
    state: State,
    answer: Result<(), Refusal>,
}

// How many bytes the record at the start of s has; 0 where there is none.
fn size(s: &[u8]) -> usize {
    match record::read(s) {
        RecordRead::End => 0,
        RecordRead::Bad => 0,
        RecordRead::Poll(_) => 2,
        RecordRead::Packet(_, n) => parts::past(record::PDU_START, n, s.len()),
    }
}

// How many records there are.
fn total(s: &[u8]) -> usize {
    let mut at: usize = 0;
    for n in 0..s.len() {
        let used = size(parts::rest(s, at));
        if used == 0 {
            return n;
        }
        at = parts::past(at, used, s.len());
    }
    s.len()
}

// Where the record with that index starts.
fn place(s: &[u8], index: usize) -> usize {
    let mut at: usize = 0;
    for _ in 0..index {
        at = parts::past(at, size(parts::rest(s, at)), s.len());
    }
    at
}

// The PDU of the record at the start of s, of n bytes.
fn pdu(s: &[u8], n: usize) -> &[u8] {
    parts::front(parts::rest(s, record::PDU_START), n)
}

// One record on the quick way, where it is one for it: the answer. Any other leaves the state as it is, for the general way.
fn hurried(m: &mut State, store: &mut [u8], out: usize, s: &[u8]) -> Option<Result<(), Refusal>> {
    let RecordRead::Packet(_, n) = record::read(s) else {
        return None;
    };
    let done = quick::insert(m, store, out, pdu(s, n))?;
    if let Ok(q) = done {
        quick::apply(m, q);
    }
    Some(done.map(|_| ()))
}

// What a call leaves.
fn left(c: Called) -> Fed {
    Fed {
        state: c.state,
        answer: c.answer,
    }
}

// One record on the general way.
fn slowly(m: State, store: &mut [u8], out: &mut [u8], s: &[u8]) -> Fed {
    match record::read(s) {
        RecordRead::End | RecordRead::Bad => Fed {
            state: m,
            answer: Ok(()),
        },
        RecordRead::Poll(timer) => left(dest::poll(m, &store[..], out, timer)),
        RecordRead::Packet(timer, n) => left(dest::insert(m, store, out, pdu(s, n), timer)),
    }
}

// Feeds the records before `start` once, and those from there on `count` times. The turns are those of a proved loop, which has to end: no run uses them up.
fn feed(s: &[u8], store: &mut [u8], out: &mut [u8], start: usize, count: u64, first: State) -> Fed {
    let mut now = first;
    let mut answer = Ok(());
    let mut at: usize = 0;
    let mut end = start;
    let mut left = count;
    for _ in 0..u64::MAX {
        if at < end {
            let rest = parts::rest(s, at);
            at = parts::past(at, size(rest), s.len());
            if let Some(done) = hurried(&mut now, store, out.len(), rest) {
                answer = done;
            } else {
                let f = slowly(now, store, out, rest);
                now = f.state;
                answer = f.answer;
            }
        } else if left == 0 {
            break;
        } else {
            left -= 1;
            at = start;
            end = s.len();
        }
    }
    Fed { state: now, answer }
}

// What came of it.
fn report(output: &mut impl Write, laps: u64, f: Fed) -> io::Result<()> {
    let file = f.state.transfer.file;
    let answer = codes::answer_number(f.answer);
    let progress = file.progress;
    let length = file.length;
    writeln!(output, "laps {laps} {answer} {progress} {length}")
}

// Reads the two numbers and the recording, feeds it, and reports.
fn main(rt: HostRuntime) -> io::Result<()> {
    let mut output = rt.stdout();
    let mut space = console::buffer();
    let n = console::read_full(&mut rt.stdin(), &mut space)?;
    let laps = numbers::read(&space, 0, Width::Four);
    let last = numbers::read(&space, 4, Width::One) as usize;
    let s = parts::rest(parts::front(&space, n), 5);
    let Ok(opened) = replay::open(s) else {
        return writeln!(output, "bad");
    };
    let fresh = opened.replay.state;
    let size = opened.store;
    let records = parts::rest(s, opened.used);
    let all = total(records);
    if all < last {
        return writeln!(output, "bad");
    }
    let mut files = [0u8; 65536];
    let mut out = [0u8; 40];
    if size <= 65535 {
        let start = place(records, all - last);
        return report(
            &mut output,
            laps,
            feed(records, &mut files[..size], &mut out, start, laps, fresh),
        );
    }
    Ok(())
}
