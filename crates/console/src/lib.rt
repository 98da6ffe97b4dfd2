// What the programs share of reading and printing. A read or a write that fails is answered as an error, which ends the program.
#![tactic(auto)]

ghost use Rattle.std.specs.Prelude.{◌≡◌, ◌≤◌, length, replicate, take, IfOk, OnOk};
ghost use Rattle.std.specs.Io.KnownBytes.{Appends};

use std::io;
use std::io::{Read, Write};
use text::Text;

// 262,144 zeros, for a recording or a part of one: room for several of the longest records.
pub fn buffer() -> [u8; 262144]
    ensures value { result ≡ replicate 262144 0 }
    ensures long { 262144 ≡ length result }
{
    [0; 262144]
}

// Reads until the buffer is full or the input ends, and answers how many bytes stand at its start. Where a read fails, the buffer's start holds what came before.
pub fn read_full(input: &mut impl Read, buf: &mut [u8]) -> io::Result<usize>
    ensures within { IfOk result (λ n. n ≤ length buf.new) }
    ensures kept { length buf.new ≡ length buf.old }
{
    let mut done: usize = 0;
    while done < buf.len() {
        let more = input.read(&mut buf[done..])?;
        if more == 0 {
            break;
        }
        done += more;
    }
    Ok(done)
}

// Prints bytes as they are. Where a write fails, some of them may have been written.
pub fn word<W: Write>(output: &mut W, w: &[u8]) -> io::Result<()>
    ensures { OnOk result (Appends (W.contents output.old) (W.contents output.new) w.now) }
{
    output.write_all(w)
}

// Prints a text, with the same error.
pub fn print<W: Write>(output: &mut W, t: Text) -> io::Result<()>
    ensures { OnOk result (Appends (W.contents output.old) (W.contents output.new) (take t.len t.bytes)) }
{
    word(output, t.as_bytes())
}
