// The lines that the recording program prints, each as a text of fixed bytes.
#![tactic(auto)]

ghost use Rattle.std.specs.Prelude.{◌≡◌, ◌<◌, ◌≤◌, ◌-◌, ◌*◌, [], ◌++◌, length, replicate, take, Some};
ghost use Rattle.std.specs.Fmt.{WritesOnOk};
ghost use Rattle.laws.specs.Appending.{Room, Appended};
ghost use Rattle.text.specs.Text.{digit, digits_from, decimal, hex_of, mark_line, record_line, pdu_line, record_text, bad_line, tally_line, text_of, pdu_size, block_size, laid, laid_of};

use parts::Cursor;
use std::fmt;

// The most bytes of a PDU that a text shows: a Finished PDU has no more.
pub const PDU_SIZE: usize = 40;

// The most bytes of a text.
pub const TEXT_SIZE: usize = 128;

// The most decimal digits of a 64-bit number.
const PLACES: usize = 20;

// The most bytes whose hex digits are written in one piece.
const BLOCK_SIZE: usize = 64;

// Text in ASCII: the first `len` bytes are in use, the others are 0.
#[derive(Clone, Copy)]
pub struct Text {
    pub bytes: [u8; 128],
    pub len: usize,
}

impl Text {
    // The bytes in use.
    pub fn as_bytes(&self) -> &[u8]
        ensures { result.now ≡ take self.now.len self.now.bytes }
    {
        parts::front(&self.bytes, self.len)
    }
}

// Bytes that are printed in hex, two digits for each.
#[derive(Clone, Copy)]
pub struct Hex<'a>(pub &'a [u8]);

impl fmt::Display for Hex<'_> {
    ghost output = { λ h. Some (hex_of h.0.now) };

    // 64 bytes at a time, each of these blocks in one piece.
    fn fmt<W: fmt::Write>(&self, f: &mut fmt::Formatter<W>) -> fmt::Result {
        let mut left = self.0;
        while !left.is_empty() {
            let n = left.len().min(BLOCK_SIZE);
            write_block(f, &left[..n])?;
            left = &left[n..];
        }
        Ok(())
    }
}

// Writes the digits of at most 64 bytes.
fn write_block<W: fmt::Write>(f: &mut fmt::Formatter<W>, block: &[u8]) -> fmt::Result
    requires { length block.now ≤ block_size }
    ensures { WritesOnOk W.write_str_gives f.old result (hex_of block.now) f.new }
{
    let digits = hex_digits(block);
    match str::from_utf8(parts::front(&digits, 2 * block.len())) {
        Ok(word) => f.write_str(word),
        Err(_) => Err(fmt::Error),
    }
}

// The digits of at most 64 bytes, and zeros behind them.
fn hex_digits(block: &[u8]) -> [u8; 128]
    requires { length block.now ≤ block_size }
    ensures { result ≡ hex_of block.now ++ replicate (2 * block_size - 2 * length block.now) 0 }
{
    let mut digits = [0u8; 128];
    for k in 0..block.len() {
        digits[2 * k] = digit(block[k] / 16);
        digits[2 * k + 1] = digit(block[k] % 16);
    }
    digits
}

// The digit of a number below 16.
fn digit(d: u8) -> u8
    requires { d < 16 }
    ensures { result ≡ digit d }
{
    match d {
        0..=9 => b'0' + d,
        _ => b'a' + (d - 10),
    }
}

// Puts a number that has at most `places` digits.
fn put_digits(c: &mut Cursor, places: usize, n: u64)
    requires { Room c.old.buffer.now c.old.at (digits_from places n) }
    ensures appended { Appended c.old.buffer.now c.old.at (digits_from places n) c.new.at c.new.buffer.now }
    ensures lent { c.new.buffer.ghost_name ≡ c.old.buffer.ghost_name }
{
    if places == 0 {
        return;
    }
    if n < 10 {
        return c.push(digit(n as u8));
    }
    put_digits(c, places - 1, n / 10);
    c.push(digit((n % 10) as u8));
}

// Puts a number in decimal.
fn put_decimal(c: &mut Cursor, n: u64)
    requires { Room c.old.buffer.now c.old.at (decimal n) }
    ensures appended { Appended c.old.buffer.now c.old.at (decimal n) c.new.at c.new.buffer.now }
    ensures lent { c.new.buffer.ghost_name ≡ c.old.buffer.ghost_name }
{
    put_digits(c, PLACES, n);
}

// Puts bytes in hex.
fn put_hex(c: &mut Cursor, bytes: &[u8])
    requires { Room c.old.buffer.now c.old.at (hex_of bytes.now) }
    ensures appended { Appended c.old.buffer.now c.old.at (hex_of bytes.now) c.new.at c.new.buffer.now }
    ensures lent { c.new.buffer.ghost_name ≡ c.old.buffer.ghost_name }
{
    for &b in bytes {
        c.put(&[digit(b / 16), digit(b % 16)]);
    }
}

// Puts the line of a record.
fn put_record(c: &mut Cursor, number: u64, answer: u8, sent: u64)
    requires { Room c.old.buffer.now c.old.at (record_line number answer sent) }
    ensures appended { Appended c.old.buffer.now c.old.at (record_line number answer sent) c.new.at c.new.buffer.now }
    ensures lent { c.new.buffer.ghost_name ≡ c.old.buffer.ghost_name }
{
    put_decimal(c, number);
    c.push(b' ');
    put_decimal(c, answer as u64);
    c.push(b' ');
    put_decimal(c, sent);
    c.push(b'\n');
}

// Puts the line of a PDU.
fn put_pdu(c: &mut Cursor, pdu: &[u8])
    requires { Room c.old.buffer.now c.old.at (pdu_line pdu.now) }
    ensures appended { Appended c.old.buffer.now c.old.at (pdu_line pdu.now) c.new.at c.new.buffer.now }
    ensures lent { c.new.buffer.ghost_name ≡ c.old.buffer.ghost_name }
{
    c.put(b"pdu ");
    put_hex(c, pdu);
    c.push(b'\n');
}

// No text.
pub fn no_text() -> Text
    ensures { result ≡ text_of [] }
{
    Text {
        bytes: [0; 128],
        len: 0,
    }
}

// The first line of a recording that is read.
pub fn mark_text() -> Text
    ensures { result ≡ text_of mark_line }
{
    let mut bytes = [0u8; 128];
    let mut c = Cursor {
        buffer: &mut bytes,
        at: 0,
    };
    c.put(b"RXT 1\n");
    let len = c.at;
    Text { bytes, len }
}

// What a record prints: its number, its answer and whether a PDU was sent, then the bytes of that PDU (none: it is empty).
pub fn record_text(number: u64, answer: u8, pdu: &[u8]) -> Text
    ensures { result ≡ text_of (record_text number answer (take pdu_size pdu.now)) }
{
    let sent = parts::front(pdu, PDU_SIZE);
    let mut bytes = [0u8; 128];
    let mut c = Cursor {
        buffer: &mut bytes,
        at: 0,
    };
    if sent.len() == 0 {
        put_record(&mut c, number, answer, 0);
        let len = c.at;
        return Text { bytes, len };
    }
    put_record(&mut c, number, answer, 1);
    put_pdu(&mut c, sent);
    let len = c.at;
    Text { bytes, len }
}

// Lays the line of a record that sent no PDU on a sheet, at index at, and answers the index behind it; where less than a text's room is left there, nothing.
pub fn lay_record(sheet: &mut [u8], at: usize, number: u64, answer: u8) -> usize
    ensures { laid result sheet.new ≡ laid_of sheet.old at (record_text number answer []) }
{
    if sheet.len() < at {
        return at;
    }
    if sheet.len() - at < TEXT_SIZE {
        return at;
    }
    let mut c = Cursor { buffer: sheet, at };
    put_record(&mut c, number, answer, 0);
    c.at
}

// The line of a record that is not whole, or of a header (offset 0).
pub fn bad_text(offset: u64) -> Text
    ensures { result ≡ text_of (bad_line offset) }
{
    let mut bytes = [0u8; 128];
    let mut line = Cursor {
        buffer: &mut bytes,
        at: 0,
    };
    line.put(b"bad ");
    put_decimal(&mut line, offset);
    line.push(b'\n');
    let len = line.at;
    Text { bytes, len }
}

// The last line: the tally.
pub fn tally_text(accepted: u32, refused: u32, received: u32) -> Text
    ensures { result ≡ text_of (tally_line accepted refused received) }
{
    let mut bytes = [0u8; 128];
    let mut c = Cursor {
        buffer: &mut bytes,
        at: 0,
    };
    c.put(b"tally ");
    put_decimal(&mut c, accepted as u64);
    c.push(b' ');
    put_decimal(&mut c, refused as u64);
    c.push(b' ');
    put_decimal(&mut c, received as u64);
    c.push(b'\n');
    let len = c.at;
    Text { bytes, len }
}
