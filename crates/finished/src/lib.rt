// The Finished PDU, written to the start of a lent buffer.
#![tactic(auto)]

ghost use Rattle.std.specs.Prelude.{◌≡◌, cond, [], ◌∷◌, ◌+◌, ◌≤◌, length};
ghost use Rattle.codes.specs.Refusals.{answered};
ghost use Rattle.numbers.specs.Numbers.{bytes_of, big_endian};
ghost use Rattle.laws.specs.Appending.{Room, Appended};
ghost use Rattle.finished.specs.Finished.{first_byte, widths_byte, id_bytes, header_bytes, flags_byte, unlocated, location, body_bytes, finished_of, sent};

use codes::Refusal;
use header::CommonPduConfig;
use numbers::Width;
use parts::Cursor;

// The least size of the out buffer.
pub const OUT_SIZE: usize = 40;

// The directive code of a Finished PDU.
const FINISHED_PDU: u8 = 5;

// The type of a fault location: an entity id.
const ENTITY_ID: u8 = 6;

// An entity's id and how wide it is on the link.
#[derive(Clone, Copy)]
pub struct EntityId {
    pub width: Width,
    pub value: u64,
}

// What a Finished PDU says of the transfer: its condition code, whether delivery is complete, whether the file is retained.
#[derive(Clone, Copy)]
pub struct FinishedPdu {
    pub condition: u8,
    pub complete: bool,
    pub retained: bool,
}

// Puts a number's bytes.
fn put_number(c: &mut Cursor, w: Width, value: u64)
    requires { Room c.old.buffer.now c.old.at (big_endian (bytes_of w) value) }
    ensures appended { Appended c.old.buffer.now c.old.at (big_endian (bytes_of w) value) c.new.at c.new.buffer.now }
    ensures lent { c.new.buffer.ghost_name ≡ c.old.buffer.ghost_name }
{
    let at = c.at;
    numbers::write(c.buffer, at, w, value);
    c.at = at + w.bytes();
}

// The header's first byte: version 001, a directive to the sender, no CRC; the mode and the large file flag are the transfer's.
fn first_byte(conf: CommonPduConfig) -> u8
    ensures { result ≡ first_byte conf }
{
    40 + u8::from(conf.unacknowledged) * 4 + u8::from(conf.largefile)
}

// The header's byte 3: each width less 1, and neither segmentation control nor segment metadata.
fn widths_byte(conf: CommonPduConfig) -> u8
    ensures { result ≡ widths_byte conf }
{
    let entity = conf.idwidth.bytes() - 1;
    let sequence = conf.seqwidth.bytes() - 1;
    (entity * 16 + sequence) as u8
}

// Puts source id, sequence number and destination id.
fn put_ids(c: &mut Cursor, conf: CommonPduConfig)
    requires { Room c.old.buffer.now c.old.at (id_bytes conf) }
    ensures appended { Appended c.old.buffer.now c.old.at (id_bytes conf) c.new.at c.new.buffer.now }
    ensures lent { c.new.buffer.ghost_name ≡ c.old.buffer.ghost_name }
{
    put_number(c, conf.idwidth, conf.source);
    put_number(c, conf.seqwidth, conf.seqnum);
    put_number(c, conf.idwidth, conf.dest);
}

// Puts the header, before a data field of n bytes.
fn put_header(c: &mut Cursor, conf: CommonPduConfig, n: u64)
    requires { Room c.old.buffer.now c.old.at (header_bytes conf n) }
    ensures appended { Appended c.old.buffer.now c.old.at (header_bytes conf n) c.new.at c.new.buffer.now }
    ensures lent { c.new.buffer.ghost_name ≡ c.old.buffer.ghost_name }
{
    c.push(first_byte(conf));
    put_number(c, Width::Two, n);
    c.push(widths_byte(conf));
    put_ids(c, conf);
}

// The condition, whether delivery is incomplete, and the file's status, in one byte.
fn flags_byte(f: FinishedPdu) -> u8
    ensures { result ≡ flags_byte f }
{
    f.condition % 16 * 16 + u8::from(!f.complete) * 4 + u8::from(f.retained) * 2
}

// Whether no fault location is given: the condition is 0 or 11.
fn without_location(f: FinishedPdu) -> bool
    ensures { result ≡ unlocated f }
{
    let condition = f.condition % 16;
    condition == codes::NO_ERROR || condition == codes::UNSUPPORTED_CHECKSUM_TYPE
}

// Puts the fault location, where one is given.
fn put_fault_location(c: &mut Cursor, f: FinishedPdu, local: EntityId)
    requires { Room c.old.buffer.now c.old.at (location f local) }
    ensures appended { Appended c.old.buffer.now c.old.at (location f local) c.new.at c.new.buffer.now }
    ensures lent { c.new.buffer.ghost_name ≡ c.old.buffer.ghost_name }
{
    if without_location(f) {
        return;
    }
    c.push(ENTITY_ID);
    c.push(local.width.bytes() as u8);
    put_number(c, local.width, local.value);
}

// Puts the data field.
fn put_body(c: &mut Cursor, f: FinishedPdu, local: EntityId)
    requires { Room c.old.buffer.now c.old.at (body_bytes f local) }
    ensures appended { Appended c.old.buffer.now c.old.at (body_bytes f local) c.new.at c.new.buffer.now }
    ensures lent { c.new.buffer.ghost_name ≡ c.old.buffer.ghost_name }
{
    c.push(FINISHED_PDU);
    c.push(flags_byte(f));
    put_fault_location(c, f, local);
}

// How many bytes the data field has.
fn body_len(f: FinishedPdu, local: EntityId) -> u64
    ensures { result ≡ length (body_bytes f local) }
{
    if without_location(f) {
        return 2;
    }
    4 + local.width.bytes() as u64
}

// Writes a Finished PDU to the start of out; the rest of out stays.
pub fn write(
    out: &mut [u8],
    conf: CommonPduConfig,
    f: FinishedPdu,
    local: EntityId,
) -> Result<usize, Refusal>
    ensures { sent (answered result) out.new ≡ finished_of out.old conf f local }
{
    if out.len() < OUT_SIZE {
        return Err(Refusal::OutTooShort);
    }
    let mut c = Cursor { buffer: out, at: 0 };
    put_header(&mut c, conf, body_len(f, local));
    put_body(&mut c, f, local);
    Ok(c.at)
}
