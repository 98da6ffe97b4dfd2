// Runs the vectors on standard input, one to a line, and prints one line for each: what the readers, or the writer, make of it.
//
// A line is a kind, bytes in hex (blanks between them mean nothing) and, behind '#', a name that the answer's line repeats:
//     P  local id (8 bytes), PDU       looks at the PDU and reads its body
//     U  text                          checks for UTF-8
//     F  fields (see `finished_line`) writes a Finished PDU
// A line of another kind is passed over.
#![tactic(auto)]

ghost use Rattle.std.specs.Prelude.{◌<◌, IfSome};

use codes::Refusal;
use finished::{EntityId, FinishedPdu};
use header::{CommonPduConfig, PduHeader};
use numbers::Width;
use packet_info::Target;
use std::io;
use std::io::Write;
use text::Hex;

// The byte at an index, 0 past the end.
fn byte(s: &[u8], at: usize) -> u8 {
    s.get(at).copied().unwrap_or(0)
}

// The value of a hex digit; none for any other character.
fn value(c: u8) -> Option<u8>
    ensures { IfSome result (λ v. v < 16) }
{
    match c {
        b'0'..=b'9' => Some(c - b'0'),
        b'A'..=b'F' => Some(c - b'A' + 10),
        b'a'..=b'f' => Some(c - b'a' + 10),
        _ => None,
    }
}

// The bytes that stand in hex in a part of a line, put into out as far as it reaches: how many there are. Two digits make a byte, whatever else stands between them.
fn decode(digits: &[u8], out: &mut [u8]) -> usize {
    let mut count = 0;
    let mut high = None;
    for c in digits {
        let Some(v) = value(*c) else {
            continue;
        };
        let Some(h) = high else {
            high = Some(v);
            continue;
        };
        high = None;
        if count < out.len() {
            out[count] = h << 4 | v;
            count += 1;
        }
    }
    count
}

// A refusal's number.
fn refused(output: &mut impl Write, refusal: Refusal) -> io::Result<()> {
    write!(output, "refused {}", refusal.number())
}

// A header's fields.
fn header_fields(output: &mut impl Write, h: PduHeader) -> io::Result<()> {
    let conf = h.conf;
    let unacknowledged = u8::from(conf.unacknowledged);
    let large = u8::from(conf.largefile);
    let entity = conf.idwidth.bytes();
    let sequence = conf.seqwidth.bytes();
    write!(
        output,
        " unacknowledged={unacknowledged} large={large} widths={entity},{sequence}"
    )?;
    write!(
        output,
        " source={} seq={} dest={}",
        conf.source, conf.seqnum, conf.dest
    )?;
    write!(output, " field={}..{}", h.headerend, h.dataend)
}

// A Metadata body.
fn metadata(output: &mut impl Write, h: PduHeader, field: &[u8]) -> io::Result<()> {
    let m = match bodies::metadata::read(field, h.conf.largefile) {
        Ok(m) => m,
        Err(refusal) => return refused(output, refusal),
    };
    write!(output, "metadata")?;
    header_fields(output, h)?;
    write!(
        output,
        " closure={} type={} size={}",
        u8::from(m.closure),
        m.checksumtype,
        m.size
    )?;
    let from = Hex(bodies::metadata::name(field, m.sourceat));
    let to = Hex(bodies::metadata::name(field, m.destat));
    write!(
        output,
        " from={from} to={to} message={}",
        u8::from(m.message)
    )
}

// A file data body.
fn file_data(output: &mut impl Write, h: PduHeader, field: &[u8]) -> io::Result<()> {
    let f = match bodies::file_data::read(field, h.conf.largefile, h.segmentmetadata) {
        Ok(f) => f,
        Err(refusal) => return refused(output, refusal),
    };
    write!(output, "file-data")?;
    header_fields(output, h)?;
    let segment = Hex(bodies::file_data::segment(field, f.segmentat));
    write!(output, " offset={} segment={segment}", f.offset)
}

// An EOF body.
fn eof(output: &mut impl Write, h: PduHeader, field: &[u8]) -> io::Result<()> {
    let e = match bodies::eof::read(field, h.conf.largefile) {
        Ok(e) => e,
        Err(refusal) => return refused(output, refusal),
    };
    write!(output, "eof")?;
    header_fields(output, h)?;
    write!(output, " checksum={} size={}", e.checksum, e.size)
}

// A PDU behind the local id.
fn pdu_line(output: &mut impl Write, bytes: &[u8]) -> io::Result<()> {
    let local = numbers::read(bytes, 0, Width::Eight);
    let raw = parts::rest(bytes, 8);
    let info = match packet_info::new(raw, local) {
        Ok(info) => info,
        Err(refusal) => return refused(output, refusal),
    };
    let h = info.header;
    let field = h.data_field(raw);
    match info.target {
        Target::FileData => file_data(output, h, field),
        Target::Metadata => metadata(output, h, field),
        Target::Eof => eof(output, h, field),
    }
}

// A text.
fn text_line(output: &mut impl Write, bytes: &[u8]) -> io::Result<()> {
    let Err(e) = utf8::check(bytes) else {
        return write!(output, "utf-8");
    };
    refused(output, Refusal::from(e))?;
    write!(output, " at={}", e.at)
}

// A width given by a byte.
fn width_at(bytes: &[u8], at: usize) -> Width {
    numbers::to_width(byte(bytes, at))
}

// A Finished PDU. Its fields, in bytes: unacknowledged, large file, entity width, sequence width; source, sequence number, destination,
// 8 each; condition, complete, retained; local width, local id (8); the size of the out buffer, which starts with 0xEE in each byte.
fn finished_line(output: &mut impl Write, bytes: &[u8]) -> io::Result<()> {
    let conf = CommonPduConfig {
        unacknowledged: byte(bytes, 0) == 1,
        largefile: byte(bytes, 1) == 1,
        idwidth: width_at(bytes, 2),
        seqwidth: width_at(bytes, 3),
        source: numbers::read(bytes, 4, Width::Eight),
        seqnum: numbers::read(bytes, 12, Width::Eight),
        dest: numbers::read(bytes, 20, Width::Eight),
    };
    let says = FinishedPdu {
        condition: byte(bytes, 28),
        complete: byte(bytes, 29) == 1,
        retained: byte(bytes, 30) == 1,
    };
    let local = EntityId {
        width: width_at(bytes, 31),
        value: numbers::read(bytes, 32, Width::Eight),
    };
    let mut room = [0xEEu8; 255];
    let out = &mut room[..byte(bytes, 40) as usize];
    let written = finished::write(out, conf, says, local);
    write!(output, "out={} ", Hex(out))?;
    match written {
        Ok(n) => write!(output, "bytes={n}"),
        Err(r) => refused(output, r),
    }
}

// One line, without its end.
fn line(output: &mut impl Write, l: &[u8], space: &mut [u8]) -> io::Result<()> {
    let Some((kind, behind)) = l.split_first() else {
        return Ok(());
    };
    let end = behind
        .iter()
        .position(|c| *c == b'#')
        .unwrap_or(behind.len());
    let n = decode(parts::front(behind, end), space);
    let bytes = parts::front(space, n);
    match *kind {
        b'P' => pdu_line(output, bytes)?,
        b'U' => text_line(output, bytes)?,
        b'F' => finished_line(output, bytes)?,
        _ => return Ok(()),
    }
    write!(output, " ")?;
    output.write_all(parts::rest(behind, end))?;
    writeln!(output)
}

// Each line of the input.
fn lines(output: &mut impl Write, s: &[u8], space: &mut [u8]) -> io::Result<()> {
    for l in s.split(|c| *c == b'\n') {
        line(output, l, space)?;
    }
    Ok(())
}

// Reads the vectors from standard input, and prints what they give.
fn main(rt: HostRuntime) -> io::Result<()> {
    let mut input = [0u8; 65536];
    let n = console::read_full(&mut rt.stdin(), &mut input)?;
    let mut space = [0u8; 4096];
    lines(&mut rt.stdout(), &input[..n], &mut space)
}
