// The PDU header (CCSDS 727.0-B-5, 5.1): its fields, and where the data field lies in the PDU.
#![tactic(auto)]

ghost use Rattle.std.specs.Prelude.{◌≡◌, ◌≤◌, length};
ghost use Rattle.laws.specs.Parts.{stretch};
ghost use Rattle.codes.specs.Refusals.{answered, refusal_of};
ghost use Rattle.header.specs.Header.{header_refusal, header_end, data_end, conf_of, fields_of, header_of};

use codes::Refusal;
use numbers::Width;

// What the PDUs of a transfer have in common, and its Finished PDU repeats.
#[derive(Clone, Copy)]
pub struct CommonPduConfig {
    pub unacknowledged: bool,
    pub largefile: bool,
    pub idwidth: Width,
    pub seqwidth: Width,
    pub source: u64,
    pub seqnum: u64,
    pub dest: u64,
}

// A header: the data field is the PDU's stretch from headerend to dataend.
#[derive(Clone, Copy)]
pub struct PduHeader {
    pub filedata: bool,
    pub segmentmetadata: bool,
    pub conf: CommonPduConfig,
    pub headerend: usize,
    pub dataend: usize,
}

impl PduHeader {
    // The data field, as that stretch of the PDU; it is cut at the PDU's end.
    pub fn data_field<'a>(self, pdu: &'a [u8]) -> &'a [u8]
        ensures { result.now ≡ stretch pdu.now self.headerend self.dataend }
    {
        let end = self.dataend.min(pdu.len());
        let start = self.headerend.min(end);
        &pdu[start..end]
    }
}

// Where the header ends, by the widths in byte 3.
fn header_end(s: &[u8]) -> usize
    requires { 4 ≤ length s.now }
    ensures value { result ≡ header_end s.now }
    ensures small { result ≤ 28 }
{
    let widths = s[3];
    let entity = (widths / 16 % 8 + 1) as usize;
    let sequence = (widths % 8 + 1) as usize;
    4 + entity + sequence + entity
}

// Where the data field ends.
fn data_end(s: &[u8]) -> usize
    requires { 4 ≤ length s.now }
    ensures { result ≡ data_end s.now }
{
    header_end(s) + numbers::read(s, 1, Width::Two) as usize
}

// Whether a refusal meets the header: the first one.
fn first_refusal(s: &[u8]) -> Result<(), Refusal>
    ensures { refusal_of result ≡ header_refusal s.now }
{
    if s.len() < 4 {
        return Err(Refusal::NotWhole);
    }
    let first = s[0];
    if first / 32 != 1 {
        return Err(Refusal::OtherVersion);
    }
    let widths = s[3];
    if !numbers::ok_width(widths / 16 % 8 + 1) {
        return Err(Refusal::OtherWidth);
    }
    if !numbers::ok_width(widths % 8 + 1) {
        return Err(Refusal::OtherWidth);
    }
    if first / 2 % 2 == 1 {
        return Err(Refusal::WithCrc);
    }
    if s.len() < data_end(s) {
        return Err(Refusal::NotWhole);
    }
    Ok(())
}

// The part of a header's fields that a transfer keeps.
fn conf(s: &[u8]) -> CommonPduConfig
    requires { header_refusal s.now ≡ 0 }
    ensures { result ≡ conf_of s.now }
{
    let first = s[0];
    let widths = s[3];
    let entity = widths / 16 % 8 + 1;
    let sequence = widths % 8 + 1;
    let idwidth = numbers::to_width(entity);
    let seqwidth = numbers::to_width(sequence);
    let seq_at = 4 + entity as usize;
    let dest_at = seq_at + sequence as usize;
    CommonPduConfig {
        unacknowledged: first / 4 % 2 == 1,
        largefile: first % 2 == 1,
        idwidth,
        seqwidth,
        source: numbers::read(s, 4, idwidth),
        seqnum: numbers::read(s, seq_at, seqwidth),
        dest: numbers::read(s, dest_at, idwidth),
    }
}

// The fields of a header that no refusal meets.
fn fields(s: &[u8]) -> PduHeader
    requires { header_refusal s.now ≡ 0 }
    ensures { result ≡ fields_of s.now }
{
    let first = s[0];
    let widths = s[3];
    PduHeader {
        filedata: first / 16 % 2 == 1,
        segmentmetadata: widths / 8 % 2 == 1,
        conf: conf(s),
        headerend: header_end(s),
        dataend: data_end(s),
    }
}

// Reads a PDU's header. Bytes after the data field are not read.
pub fn from_bytes(s: &[u8]) -> Result<PduHeader, Refusal>
    ensures { answered result ≡ header_of s.now }
{
    first_refusal(s)?;
    Ok(fields(s))
}
