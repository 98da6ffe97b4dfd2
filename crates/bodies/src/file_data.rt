// The file data body.
ghost use Rattle.std.specs.Prelude.{◌≡◌, ◌≤◌};
ghost use Rattle.bodies.specs.FileData.{offset_at, file_data_of, segment_of};
ghost use Rattle.codes.specs.Refusals.{answered};

use codes::Refusal;

// The fields of a file data body: the offset of the segment in the file, and the segment's place in the body.
#[derive(Clone, Copy)]
pub struct FileDataPdu {
    pub offset: u64,
    pub segmentat: usize,
}

// Where the offset stands: behind the segment metadata, where the flag says that there are any.
fn offset_at(field: &[u8], metadata: bool) -> usize
    ensures value { result ≡ offset_at field.now metadata }
    ensures small { result ≤ 64 }
{
    if !metadata {
        return 0;
    }
    if field.len() == 0 {
        return 1;
    }
    1 + (field[0] % 64) as usize
}

// Reads a file data body; `metadata` is the header's segment metadata flag.
pub fn read(field: &[u8], large: bool, metadata: bool) -> Result<FileDataPdu, Refusal>
    ensures { answered result ≡ file_data_of field.now large metadata }
{
    let width = crate::size_width(large);
    let at = offset_at(field, metadata);
    let segment_at = at + width.bytes();
    let cut = field.len() < segment_at;
    if cut {
        return Err(Refusal::Malformed);
    }
    Ok(FileDataPdu {
        offset: numbers::read(field, at, width),
        segmentat: segment_at,
    })
}

// The segment that stands from a place to the end, as that stretch of the data field; past the end it is empty.
pub fn segment(field: &[u8], at: usize) -> &[u8]
    ensures { result.now ≡ segment_of field.now at }
{
    let end = field.len();
    if end < at {
        return &field[end..];
    }
    &field[at..]
}
