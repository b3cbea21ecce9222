//! Comparison of a worktree's file with an entry's blob: the interface, by ids (`HashEq`), by sizes first (`FastEq`), or
//! the one of a name (`Comparer`).

ghost use Rattle.std.specs.Prelude.{◌≡◌, ℕ, List, Option, None, Result, IfSome, OnOk, Some, refl, Ok};
ghost use Rattle.status_index.specs.Entries.{IndexEntry, entry_at};
ghost use Rattle.status_compare.specs.declared.error.Error.{Error as StatusError};
ghost use Rattle.status_compare.specs.Reading.{Readings, IsSpecified, Reading, IsReading};
ghost use Rattle.status_compare.specs.Reads.{HasRead};
ghost use Rattle.status_compare.specs.declared.read_data.Reads.{Reads};
ghost use Rattle.status_base.specs.Lawful.{CloneKeeps};
ghost use Rattle.status_compare.specs.Comparers.{fast_answer, counts_after_fast, size_decides, hash_answer, counts_after_hash};
ghost use Rattle.status_compare.specs.Seen.{IsComparisonSeen, IsIdSeen, IsNewStream};
ghost use Rattle.status_compare.specs.StreamIds.{IsIdOf};
ghost use Rattle.std.proofs.Common.{ap};
ghost use Rattle.status_compare.specs.NamedComparers.{compared_by, counted_by};

use crate::error::Error;
use crate::read_data::ReadData;
use crate::stream::Stream;
use status_base::worktree::ReadBytes;
use status_index::{Entry, HashKind, ObjectId, compute_hash, compute_stream_hash};
use std::alloc::Global;

/// Compares a worktree's file with the blob that an index entry names.
pub trait CompareBlobs: Clone {
    /// The value that reports a change, such as the new id.
    type Output: Drop;

    /// The specified result, by the index entry, the file's length, and the file and blob that can be read.
    ghost answer: { Self → IndexEntry → ℕ → Readings → Result (Option Self.Output) StatusError };

    /// The counts of reads after a successful comparison, by those before it. `None` if the reads aren't modelled.
    ghost counts_after: { Self → IndexEntry → ℕ → Readings → Reads → Option Reads } = { λ _ _ _ _ _. None };

    /// Compares the file with the blob of `entry`, and returns `None` if they are equal. `size` is the file's length by
    /// `lstat`, `data` reads file and blob, and `buffer` may be used for either.
    ///
    /// # Errors
    /// An error of reading the file or the blob, or out of memory.
    fn compare_blobs<R: ReadData>(
        &mut self,
        alloc: Global,
        entry: &Entry,
        size: u64,
        data: &mut R,
        buffer: &mut Vec<u8>,
    ) -> Result<Option<Self::Output>, Error>
        ensures answer { (path : List ℕ) → IfSome (R.readings «data».old) (λ m. IsSpecified (answer self.old (entry_at path entry.now) size m) result) }
        ensures seen { (path : List ℕ) → IsComparisonSeen (R.may_stream «data».old) (R.may_blob «data».old)
            (answer self.old (entry_at path entry.now) size) (counts_after self.old (entry_at path entry.now) size)
            (R.counts «data».old) result (R.counts «data».new) }
        ensures same_answer { answer self.new ≡ answer self.old }
        ensures same_counts { counts_after self.new ≡ counts_after self.old }
        ensures counts { (path : List ℕ) → OnOk result (IfSome (R.readings «data».old) (λ m.
            HasRead (counts_after self.old (entry_at path entry.now) size m (R.counts «data».old)) (R.counts «data».new))) };

    /// A clone returns the same results.
    ghost clone_keeps_answer: { CloneKeeps Self.is_clone answer };

    /// A clone reads as much.
    ghost clone_keeps_counts: { CloneKeeps Self.is_clone counts_after };
}

/// Compares by sizes if they show a change, and otherwise by ids. A change is reported without the new id, since the
/// file may not have been read.
#[derive(Clone, Copy, Debug, Default, PartialEq, Eq)]
pub struct FastEq;

impl CompareBlobs for FastEq {
    type Output = ();

    ghost answer = { λ _ e n m. fast_answer e n m.file };

    ghost counts_after = { λ _ e n m k. Some (counts_after_fast e n m.file k) };

    ghost clone_keeps_answer = { λ _ _ _. refl };

    ghost clone_keeps_counts = { λ _ _ _. refl };

    fn compare_blobs<R: ReadData>(
        &mut self,
        alloc: Global,
        entry: &Entry,
        size: u64,
        data: &mut R,
        buffer: &mut Vec<u8>,
    ) -> Result<Option<()>, Error> {
        if size_decides(entry, size) {
            return Ok(Some(()));
        }
        let change = HashEq.compare_blobs(alloc, entry, size, data, buffer)?;
        Ok(change.map(|_id| ()))
    }
}

// Returns whether the sizes alone show a change. An entry has the low 32 bits of a length. Size 0 marks an entry that
// isn't to be trusted; only for the empty blob it is a length.
fn size_decides(entry: &Entry, size: u64) -> bool
    ensures { (path : List ℕ) → result ≡ size_decides (entry_at path entry.now) size }
{
    u64::from(entry.stat.size) != size % (1 << 32)
        && (entry.id.is_empty_blob() || entry.stat.size != 0)
}

/// Compares by ids: the file is read and hashed, and a change is reported by the id of its new content.
#[derive(Clone, Copy, Debug, Default, PartialEq, Eq)]
pub struct HashEq;

impl CompareBlobs for HashEq {
    type Output = ObjectId;

    ghost answer = { λ _ e _ m. hash_answer e m.file };

    ghost counts_after = { λ _ _ _ m k. Some (counts_after_hash m.file k) };

    ghost clone_keeps_answer = { λ _ _ _. refl };

    ghost clone_keeps_counts = { λ _ _ _. refl };

    fn compare_blobs<R: ReadData>(
        &mut self,
        alloc: Global,
        entry: &Entry,
        _size: u64,
        data: &mut R,
        buffer: &mut Vec<u8>,
    ) -> Result<Option<ObjectId>, Error> {
        let mut stream = data.stream_worktree_file(buffer)?;
        let id = stream_id(alloc, entry.id.kind(), &mut stream)?;
        data.counted(stream.bytes());
        Ok((id != entry.id).then_some(id))
    }
}

// Returns the id of the stream's bytes. If the size is known, exactly that many are read and hashed; otherwise all.
fn stream_id<F: ReadBytes>(
    alloc: Global,
    kind: HashKind,
    stream: &mut Stream<'_, F>,
) -> Result<ObjectId, Error>
    ensures answer { (r : Reading) → IsReading F.left r (Ok stream.old) → IsIdOf kind r stream.new result }
    ensures seen { IsNewStream stream.old → IsIdSeen F.may_give kind stream.old stream.new result }
{
    if let Some(size) = stream.size() {
        return Ok(compute_stream_hash(kind, stream, size)?);
    }
    if let Some(bytes) = stream.as_bytes() {
        return Ok(compute_hash(kind, bytes));
    }
    let mut bytes = Vec::new(alloc);
    stream.read_rest(&mut bytes)?;
    Ok(compute_hash(kind, &bytes))
}

/// How a file is compared with its entry.
#[derive(Clone, Copy, Debug, PartialEq, Eq)]
pub enum Comparer {
    /// By ids alone, as `HashEq` does.
    Hash,
    /// By sizes if these decide, and otherwise by ids, as `FastEq` does.
    Fast,
}

impl CompareBlobs for Comparer {
    type Output = Option<ObjectId>;

    ghost answer = { compared_by };

    ghost counts_after = { counted_by };

    ghost clone_keeps_answer = { λ _ _ same. ap compared_by same };

    ghost clone_keeps_counts = { λ _ _ same. ap counted_by same };

    fn compare_blobs<R: ReadData>(
        &mut self,
        alloc: Global,
        entry: &Entry,
        size: u64,
        data: &mut R,
        buffer: &mut Vec<u8>,
    ) -> Result<Option<Option<ObjectId>>, Error> {
        match self {
            Comparer::Hash => {
                let change = HashEq.compare_blobs(alloc, entry, size, data, buffer)?;
                Ok(change.map(Some))
            }
            Comparer::Fast => {
                let change = FastEq.compare_blobs(alloc, entry, size, data, buffer)?;
                Ok(change.map(|()| None))
            }
        }
    }
}
