// Routing: which PDUs are for this receiver, and which body each of those has (CCSDS 727.0-B-5, 4.5).
#![tactic(auto)]

ghost use Rattle.std.specs.Prelude.{◌≡◌, false};
ghost use Rattle.codes.specs.Refusals.{number, answered};
ghost use Rattle.packet_info.specs.Routing.{ack_refusal, route_of, packet_of};

use codes::Refusal;
use header::PduHeader;

// The bodies that the receiver takes.
#[derive(Clone, Copy, Debug, PartialEq, Eq)]
pub enum Target {
    FileData,
    Metadata,
    Eof,
}

// A PDU that is taken: its body's kind, and its header.
#[derive(Clone, Copy)]
pub struct PacketInfo {
    pub target: Target,
    pub header: PduHeader,
}

// Why an ACK is refused: one of EOF is for the sender, one of Finished is not supported.
fn ack_refusal(field: &[u8]) -> Refusal
    ensures { number result ≡ ack_refusal field.now }
{
    if field.len() < 2 {
        return Refusal::UnknownDirective;
    }
    let acked = field[1] / 16;
    match acked {
        4 => Refusal::ForSender,
        5 => Refusal::NotSupported,
        _ => Refusal::UnknownDirective,
    }
}

// Where a directive goes, by its number.
fn directive(field: &[u8]) -> Result<Target, Refusal>
    ensures { answered result ≡ route_of false field.now }
{
    if field.len() == 0 {
        return Err(Refusal::UnknownDirective);
    }
    let number = field[0];
    match number {
        4 => Ok(Target::Eof),
        5 => Err(Refusal::ForSender),
        6 => Err(ack_refusal(field)),
        7 => Ok(Target::Metadata),
        8 => Err(Refusal::ForSender),
        9 => Err(Refusal::NotSupported),
        12 => Err(Refusal::ForSender),
        _ => Err(Refusal::UnknownDirective),
    }
}

// Where a PDU goes, by its type and its data field.
fn routed_to(filedata: bool, field: &[u8]) -> Result<Target, Refusal>
    ensures { answered result ≡ route_of filedata field.now }
{
    if filedata {
        return Ok(Target::FileData);
    }
    directive(field)
}

// Looks at a PDU: its header, its kind, and whether it is for the entity with the local id.
pub fn new(pdu: &[u8], local: u64) -> Result<PacketInfo, Refusal>
    ensures { answered result ≡ packet_of pdu.now local }
{
    let read = header::from_bytes(pdu);
    let Ok(header) = read else {
        return Err(read.unwrap_err());
    };
    let routed = routed_to(header.filedata, header.data_field(pdu));
    let Ok(target) = routed else {
        return Err(routed.unwrap_err());
    };
    if header.conf.dest != local {
        return Err(Refusal::ForAnotherEntity);
    }
    Ok(PacketInfo { target, header })
}
