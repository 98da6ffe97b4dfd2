// Replays recordings and prints each call in full: what `rxt` prints, then the indications in order and the file. For comparisons with
// other receivers.
//
// Standard input holds recordings one behind the other, each behind its length in 4 bytes (at most 262,144). A recording prints the lines
// of `rxt`, and behind those of each record
//     metadata SOURCE SEQ SIZE · segment SOURCE SEQ OFFSET COUNT · eof SOURCE SEQ
//     finished SOURCE SEQ CONDITION INCOMPLETE STATUS · fault HANDLER SOURCE SEQ CONDITION PROGRESS
//     file BYTES (in hex, after every record)
#![tactic(auto)]

use dest::Indications;
use numbers::Width;
use recording::tally;
use replay::{Replay, Stepped};
use std::io;
use std::io::{Read, Write};
use text::Hex;
use transfer::Indication;

// One indication, where there is one, on a line of its own.
fn note(output: &mut impl Write, n: Option<Indication>) -> io::Result<()> {
    let Some(told) = n else {
        return Ok(());
    };
    match told {
        Indication::Metadata(i, size) => writeln!(output, "metadata {i} {size}"),
        Indication::Segment(i, offset, count) => writeln!(output, "segment {i} {offset} {count}"),
        Indication::Eof(i) => writeln!(output, "eof {i}"),
        Indication::Finished(i, condition, complete, retained) => {
            let incomplete = u8::from(!complete);
            let status = 2 * u8::from(retained);
            writeln!(output, "finished {i} {condition} {incomplete} {status}")
        }
        Indication::Fault(handler, i, condition, progress) => {
            writeln!(output, "fault {handler} {i} {condition} {progress}")
        }
    }
}

// The indications of a call.
fn notes(output: &mut impl Write, n: Indications) -> io::Result<()> {
    for i in [n.first, n.second, n.third, n.fourth, n.fifth] {
        note(output, i)?;
    }
    Ok(())
}

// The file, in hex.
fn file(output: &mut impl Write, bytes: &[u8]) -> io::Result<()> {
    writeln!(output, "file {}", Hex(bytes))
}

// What one record prints.
fn show(output: &mut impl Write, done: Stepped, store: &[u8]) -> io::Result<()> {
    console::print(output, done.text)?;
    notes(output, done.notes)?;
    let length = done.replay.state.transfer.file.length;
    file(output, parts::front(store, length))
}

// The records of a recording. The turns are those of a proved loop, which has to end: no run uses them up.
fn records(output: &mut impl Write, s: &[u8], store: &mut [u8], m: Replay) -> io::Result<()> {
    let mut space = [0u8; 40];
    let out: &mut [u8] = &mut space;
    let mut now = m;
    let mut at: usize = 0;
    for _ in 0..u64::MAX {
        match replay::step(now, store, out, parts::rest(s, at)) {
            Ok(done) => {
                show(output, done, &store[..])?;
                now = done.replay;
                at = parts::past(at, done.used, s.len());
            }
            Err(text) => {
                console::print(output, text)?;
                break;
            }
        }
    }
    console::print(output, replay::close(now.tally))
}

// A recording.
fn run(output: &mut impl Write, s: &[u8]) -> io::Result<()> {
    let opened = match replay::open(s) {
        Ok(opened) => opened,
        Err(text) => {
            console::print(output, text)?;
            return console::print(output, replay::close(tally::none()));
        }
    };
    console::print(output, opened.text)?;
    let m = opened.replay;
    let size = opened.store;
    let mut files = [0u8; 65536];
    if size <= 65535 {
        return records(output, parts::rest(s, opened.used), &mut files[..size], m);
    }
    Ok(())
}

// The next recording, where there is one: whether it was whole.
fn next(input: &mut impl Read, output: &mut impl Write, space: &mut [u8]) -> io::Result<bool> {
    let mut head = [0u8; 4];
    if console::read_full(input, &mut head)? < 4 {
        return Ok(false);
    }
    let n = numbers::read(&head, 0, Width::Four) as usize;
    if space.len() < n {
        return Ok(false);
    }
    if console::read_full(input, &mut space[..n])? < n {
        return Ok(false);
    }
    run(output, parts::front(space, n))?;
    Ok(true)
}

// Each recording of the input.
fn main(rt: HostRuntime) -> io::Result<()> {
    let mut input = rt.stdin();
    let mut output = rt.stdout();
    let mut space = console::buffer();
    let buf: &mut [u8] = &mut space;
    for _ in 0..u64::MAX {
        if !next(&mut input, &mut output, buf)? {
            break;
        }
    }
    Ok(())
}
