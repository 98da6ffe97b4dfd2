// Replays a recording from standard input, of any length, and prints what document 01's section 'The recording program' says. What is printed is collected on a sheet, and written
// where that is full and before more input is waited for: so a line is seen as soon as it is due.
#![tactic(auto)]

ghost use Rattle.std.specs.Prelude.{◌≤◌, length};

use recording::tally;
use replay::Replay;
use std::io;
use std::io::{Read, Write};
use text::Text;

// What of the buffer is to be read: the bytes from `at` up to `have`; and whether the input has ended behind them.
#[derive(Clone, Copy)]
struct Reading {
    at: usize,
    have: usize,
    ended: bool,
}

// The bytes that are to be read.
fn window(buf: &[u8], r: Reading) -> &[u8] {
    parts::rest(parts::front(buf, r.have), r.at)
}

// Moves the bytes from index at on, up to have, to the start of the buffer, and answers how many they are.
fn keep(buf: &mut [u8], at: usize, have: usize) -> usize
    ensures { result ≤ length buf.new }
{
    if buf.len() < have || have < at {
        return 0;
    }
    buf.copy_within(at..have, 0);
    have - at
}

// Reads what has come, once, behind the bytes that are left. The buffer has room for several of the longest records, so where nothing is read the input has ended.
fn read_on(input: &mut impl Read, buf: &mut [u8], r: Reading) -> io::Result<Reading> {
    let n = keep(buf, r.at, r.have);
    let more = input.read(&mut buf[n..])?;
    Ok(Reading {
        at: 0,
        have: n + more,
        ended: more == 0,
    })
}

// What is left behind the bytes of a record.
fn past(r: Reading, used: usize) -> Reading {
    Reading {
        at: parts::past(r.at, used, r.have),
        have: r.have,
        ended: r.ended,
    }
}

// Whether more of the input is wanted before the next record can be told.
fn wants(s: &[u8], ended: bool) -> bool {
    !ended && !recording::record::is_settled(s)
}

// Writes the sheet where a text may not fit on it any more, and answers where the next text goes.
fn turned(output: &mut impl Write, sheet: &[u8], fill: usize) -> io::Result<usize> {
    if fill <= sheet.len() && text::TEXT_SIZE <= sheet.len() - fill {
        return Ok(fill);
    }
    console::word(output, parts::front(sheet, fill))?;
    Ok(0)
}

// Puts a text on the sheet, and answers where the next one goes.
fn lay(sheet: &mut [u8], fill: usize, t: Text) -> usize {
    parts::copy_at(sheet, fill, t.as_bytes());
    parts::past(fill, t.len, sheet.len())
}

// Replays the records, and prints each one's lines and the tally. The turns are those of a proved loop, which has to end: no run uses them up.
fn records(
    input: &mut impl Read,
    output: &mut impl Write,
    buf: &mut [u8],
    store: &mut [u8],
    out: &mut [u8],
    sheet: &mut [u8],
    first: Reading,
    m: Replay,
) -> io::Result<()> {
    let mut reading = first;
    let mut now = m;
    let mut fill: usize = 0;
    for _ in 0..u64::MAX {
        if wants(window(buf, reading), reading.ended) {
            console::word(output, parts::front(sheet, fill))?;
            fill = 0;
            reading = read_on(input, buf, reading)?;
        } else {
            fill = turned(output, sheet, fill)?;
            if let Some(quick) = replay::quick_step(&now, store, out.len(), window(buf, reading)) {
                replay::move_on(&mut now, quick);
                fill = text::lay_record(sheet, fill, now.number, codes::answer_number(quick.call));
                reading = past(reading, quick.used);
            } else {
                match replay::step(now, store, out, window(buf, reading)) {
                    Ok(done) => {
                        fill = lay(sheet, fill, done.text);
                        now = done.replay;
                        reading = past(reading, done.used);
                    }
                    Err(text) => {
                        fill = lay(sheet, fill, text);
                        break;
                    }
                }
            }
        }
    }
    fill = turned(output, sheet, fill)?;
    fill = lay(sheet, fill, replay::close(now.tally));
    console::word(output, parts::front(sheet, fill))
}

// The header: reads on until it is whole, or the input ends.
fn header(input: &mut impl Read, buf: &mut [u8]) -> io::Result<Reading> {
    let mut reading = Reading {
        at: 0,
        have: 0,
        ended: false,
    };
    for _ in 0..4096 {
        if reading.ended || recording::settings::is_whole(window(buf, reading)) {
            break;
        }
        reading = read_on(input, buf, reading)?;
    }
    Ok(reading)
}

// Replays the recording that the input holds.
fn run(input: &mut impl Read, output: &mut impl Write) -> io::Result<()> {
    let mut space = console::buffer();
    let first = header(input, &mut space)?;
    let opened = match replay::open(window(&space, first)) {
        Ok(opened) => opened,
        Err(text) => {
            console::print(output, text)?;
            return console::print(output, replay::close(tally::none()));
        }
    };
    console::print(output, opened.text)?;
    let m = opened.replay;
    let size = opened.store;
    let mut files = [0u8; 65536];
    let mut out = [0u8; 40];
    let mut sheet = [0u8; 65536];
    if size <= 65535 {
        return records(
            input,
            output,
            &mut space,
            &mut files[..size],
            &mut out,
            &mut sheet,
            past(first, opened.used),
            m,
        );
    }
    Ok(())
}

// Replays a recording from standard input.
fn main(rt: HostRuntime) -> io::Result<()> {
    run(&mut rt.stdin(), &mut rt.stdout())
}
