// One file in a lent store: the segment write and the modular checksum.
#![tactic(auto)]

ghost use Rattle.std.specs.Prelude.{◌≡◌};
ghost use Rattle.filestore.specs.File.{file_of, segment_fits, stored, stored_of};
ghost use Rattle.filestore.specs.Checksum.{checksum_of};
ghost use Rattle.filestore.specs.Weights.{weight_after};

// The most bytes that a store, and so a file, has.
pub const STORE_LIMIT: usize = 65535;

// What the first byte of a word counts.
const FIRST_WEIGHT: u32 = 16777216;

// Whether a segment of count bytes at that offset fits a store of that size; an empty one fits at any offset.
#[tactic(auto, unfolding(crate::specs::File::segment_fits))]
pub fn segment_fits(size: usize, offset: u64, count: usize) -> bool
    ensures { result ≡ segment_fits size offset count }
{
    count == 0 || (count <= size && offset <= (size - count) as u64)
}

// Writes a segment to its offset in the file of len bytes that the store holds, with zeros in a gap before it, and answers the file's length.
// Where it does not fit, or the file is longer than the store, nothing changes.
pub fn write_segment(store: &mut [u8], len: usize, offset: u64, segment: &[u8]) -> usize
    ensures { stored result store.new ≡ stored_of store.old len offset segment.now }
{
    let n = segment.len();
    if n == 0 {
        return len;
    }
    let size = store.len();
    if size < len {
        return len;
    }
    if !segment_fits(size, offset, n) {
        return len;
    }
    let start = offset as usize;
    let end = start + n;
    let from = len.min(start);
    store[from..start].fill(0);
    store[start..end].copy_from_slice(segment);
    len.max(end)
}

// What the next byte counts, after a byte that counts w.
#[tactic(auto, unfolding(crate::specs::Weights::weight_after))]
fn next_weight(w: u32) -> u32
    ensures { result ≡ weight_after w }
{
    if w == 1 {
        return FIRST_WEIGHT;
    }
    w / 256
}

// The modular checksum of a file.
pub fn checksum(file: &[u8]) -> u32
    ensures { result ≡ checksum_of file.now }
{
    let mut sum: u32 = 0;
    let mut weight: u32 = FIRST_WEIGHT;
    for &b in file {
        sum = sum.wrapping_add(weight * u32::from(b));
        weight = next_weight(weight);
    }
    sum
}

// The file of len bytes that the store holds; the whole store where it holds fewer.
pub fn file(store: &[u8], len: usize) -> &[u8]
    ensures { result.now ≡ file_of store.now len }
{
    parts::front(store, len)
}
