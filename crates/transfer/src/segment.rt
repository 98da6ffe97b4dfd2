// A segment of file data.
ghost use Rattle.std.specs.Prelude.{◌≡◌};
ghost use Rattle.codes.specs.Refusals.{refusal_of};
ghost use Rattle.transfer.specs.Segment.{segment_refusal};
ghost use Rattle.transfer.specs.Put.{put, put_seen, put_of};

use crate::{FileState, TransferState};
use codes::Refusal;

// Whether a segment is refused: 20 where progress would pass 2^64 - 1, 19 where it does not fit a store of that size.
fn segment_refusal(t: TransferState, size: usize, offset: u64, n: usize) -> Result<(), Refusal>
    ensures { refusal_of result ≡ segment_refusal t size offset n }
{
    if u64::MAX - t.file.progress < n as u64 {
        return Err(Refusal::ProgressAtEnd);
    }
    if filestore::segment_fits(size, offset, n) {
        return Ok(());
    }
    Err(Refusal::DoesNotFit)
}

// Puts a segment into the store, unless it is refused, and answers the file's numbers: the hot path carries these alone.
pub fn handle_segment(
    t: TransferState,
    store: &mut [u8],
    offset: u64,
    segment: &[u8],
) -> Result<FileState, Refusal>
    ensures { put (put_seen t.file result) store.new ≡ put_of t store.old offset segment.now }
{
    let n = segment.len();
    segment_refusal(t, store.len(), offset, n)?;
    let length = filestore::write_segment(store, t.file.length, offset, segment);
    let progress = t.file.progress + n as u64;
    Ok(FileState { length, progress })
}
