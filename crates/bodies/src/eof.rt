// The EOF body.
ghost use Rattle.std.specs.Prelude.{◌≡◌};
ghost use Rattle.bodies.specs.Eof.{eof_of};
ghost use Rattle.codes.specs.Refusals.{answered};

use codes::Refusal;
use numbers::Width;

// The fields of an EOF body whose condition is 0: the file's checksum and size.
#[derive(Clone, Copy)]
pub struct EofPdu {
    pub checksum: u32,
    pub size: u64,
}

// Reads an EOF body.
pub fn read(field: &[u8], large: bool) -> Result<EofPdu, Refusal>
    ensures { answered result ≡ eof_of field.now large }
{
    let end = field.len();
    if end < 2 {
        return Err(Refusal::Malformed);
    }
    if field[1] / 16 != codes::NO_ERROR {
        return Err(Refusal::NotSupported);
    }
    let width = crate::size_width(large);
    if end != 6 + width.bytes() {
        return Err(Refusal::Malformed);
    }
    Ok(EofPdu {
        checksum: numbers::read(field, 2, Width::Four) as u32,
        size: numbers::read(field, 6, width),
    })
}
