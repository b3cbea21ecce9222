//! A comparer as a caller writes it.

ghost use Rattle.std.specs.Prelude.{refl};
ghost use Rattle.status_callers.specs.Lengths.{length_answer, length_counts};

use gix_status::index::Entry;
use gix_status::index_as_worktree::Error;
use gix_status::index_as_worktree::traits::{CompareBlobs, ReadData};
use std::alloc::Global;

/// Compares the lengths of a file and its blob, and reports the file's length as the change. The file isn't read.
#[derive(Clone, Copy, Debug)]
pub struct BlobLength;

impl CompareBlobs for BlobLength {
    type Output = u64;

    ghost answer = { λ _ _ n m. length_answer n m.blob };

    ghost counts_after = { λ _ _ _ m k. length_counts m.blob k };

    ghost clone_keeps_answer = { λ _ _ _. refl };

    ghost clone_keeps_counts = { λ _ _ _. refl };

    fn compare_blobs<R: ReadData>(
        &mut self,
        _alloc: Global,
        _entry: &Entry,
        size: u64,
        data: &mut R,
        buffer: &mut Vec<u8>,
    ) -> Result<Option<u64>, Error> {
        let blob = data.read_blob(buffer)?;
        Ok((blob.len() as u64 != size).then_some(size))
    }
}
