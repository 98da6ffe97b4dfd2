// The bodies of the PDUs that the receiver takes. Each reader takes the data field as a part of the PDU, and whether the large file
// flag is set.
#![tactic(auto)]

pub mod eof;
pub mod file_data;
pub mod metadata;

ghost use Rattle.std.specs.Prelude.{◌≡◌};
ghost use Rattle.bodies.specs.Size.{size_width};

use numbers::Width;

// The width of a size: 4 bytes, or 8 with large file.
pub fn size_width(large: bool) -> Width
    ensures { result ≡ size_width large }
{
    if large {
        return Width::Eight;
    }
    Width::Four
}
