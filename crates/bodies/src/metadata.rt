// The Metadata body.
ghost use Rattle.std.specs.Prelude.{◌≡◌, ◌≤◌, length};
ghost use Rattle.bodies.specs.Metadata.{name_at, metadata_of};
ghost use Rattle.bodies.specs.Names.{name_read};
ghost use Rattle.codes.specs.Refusals.{answered};

use codes::Refusal;

// The fields of a Metadata body. A name is given by the place of its length byte; `message` says whether a Message to User is among
// the options.
#[derive(Clone, Copy)]
pub struct MetadataPdu {
    pub closure: bool,
    pub checksumtype: u8,
    pub size: u64,
    pub sourceat: usize,
    pub destat: usize,
    pub optionsat: usize,
    pub message: bool,
}

// The name whose length byte stands at a place, as that stretch of the data field (fewer bytes where the field ends before).
pub fn name(field: &[u8], at: usize) -> &[u8]
    ensures result_value { result.now ≡ name_at field.now at }
    ensures short { length result.now ≤ 255 }
{
    let end = field.len();
    if end <= at {
        return &field[end..];
    }
    let start = at + 1;
    let size = field[at] as usize;
    if end - start < size {
        return &field[start..];
    }
    let stop = start + size;
    &field[start..stop]
}

// Where the name at a place ends, if it is whole.
fn name_end(field: &[u8], at: usize) -> Option<usize>
    ensures { result ≡ name_read field.now at }
{
    let end = field.len();
    if end <= at {
        return None;
    }
    let next = at + 1 + field[at] as usize;
    if end < next {
        return None;
    }
    Some(next)
}

// Reads a Metadata body.
pub fn read(field: &[u8], large: bool) -> Result<MetadataPdu, Refusal>
    ensures { answered result ≡ metadata_of field.now large }
{
    let width = crate::size_width(large);
    let source_at = 2 + width.bytes();
    let Some(dest_at) = name_end(field, source_at) else {
        return Err(Refusal::Malformed);
    };
    let Some(options_at) = name_end(field, dest_at) else {
        return Err(Refusal::Malformed);
    };
    let Ok(options) = options::read(field, options_at) else {
        return Err(Refusal::Malformed);
    };
    let flags = field[1];
    Ok(MetadataPdu {
        closure: flags / 64 % 2 == 1,
        checksumtype: flags % 16,
        size: numbers::read(field, 2, width),
        sourceat: source_at,
        destat: dest_at,
        optionsat: options_at,
        message: options.message,
    })
}
