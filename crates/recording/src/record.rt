// A record of a recording.
ghost use Rattle.std.specs.Prelude.{◌≡◌, ◌<◌};
ghost use Rattle.recording.specs.Record.{pdu_length, record_whole, record_of, record_settled};

use crate::settings::byte;
use numbers::Width;

// What stands where a record is expected: the end, one that is not whole or has another kind or timer, a poll, or a PDU of that many
// bytes; with the timer flag.
#[derive(Clone, Copy)]
pub enum RecordRead {
    End,
    Bad,
    Poll(bool),
    Packet(bool, usize),
}

// The bytes before the PDU of a record.
pub const PDU_START: usize = 4;

// How many bytes the PDU of a record has.
fn pdu_length(s: &[u8]) -> usize
    ensures value { result ≡ pdu_length s.now }
    ensures below { result < 65536 }
{
    numbers::read(s, 2, Width::Two) as usize
}

// Whether a record is whole, with kind and timer 0 or 1.
fn is_whole(s: &[u8]) -> bool
    ensures { result ≡ record_whole s.now }
{
    if s.len() < 2 {
        return false;
    }
    if 1 < byte(s, 0) {
        return false;
    }
    if 1 < byte(s, 1) {
        return false;
    }
    if byte(s, 0) == 0 {
        return true;
    }
    if s.len() < PDU_START {
        return false;
    }
    PDU_START + pdu_length(s) <= s.len()
}

// Reads the record at the start of s.
pub fn read(s: &[u8]) -> RecordRead
    ensures { result ≡ record_of s.now }
{
    if s.len() == 0 {
        return RecordRead::End;
    }
    if !is_whole(s) {
        return RecordRead::Bad;
    }
    let timer = byte(s, 1) == 1;
    if byte(s, 0) == 0 {
        return RecordRead::Poll(timer);
    }
    RecordRead::Packet(timer, pdu_length(s))
}

// Whether the bytes at hand tell what stands at the start of s: a whole record, or a kind or timer above 1.
pub fn is_settled(s: &[u8]) -> bool
    ensures { result ≡ record_settled s.now }
{
    if s.len() == 0 {
        return false;
    }
    if 1 < byte(s, 0) {
        return true;
    }
    if s.len() < 2 {
        return false;
    }
    if 1 < byte(s, 1) {
        return true;
    }
    is_whole(s)
}
