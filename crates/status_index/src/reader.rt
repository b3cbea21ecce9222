//! Readers of bytes, and reading to the end.

ghost use Rattle.std.specs.Prelude.{Option, None, Some, ℕ, ◌≡◌, ◌-◌, length, take, OnOk};
ghost use Rattle.status_index.specs.Content.{Content, ReadFits, ReadKeeps, CountsRead, CountsMore};
ghost use Rattle.status_index.specs.Given.{AnyContent, IsAllGiven, IsReadStep, no_bytes};
ghost use Rattle.status_index.specs.ReadAll.{ReadsAll};
ghost use Rattle.status_index.specs.declared.fault.Fault.TheVariants.{Memory};

use crate::fault::Fault;

/// A reader whose faults are a worktree's.
pub trait ReadBytes: Drop {
    /// The content that is left to read: bytes, then the end or a fault. None for a reader that isn't modelled.
    ghost left: { Self → Option Content } = { λ _. None };

    /// How many bytes the reader counted. None for a reader that doesn't count.
    ghost taken: { Self → Option ℕ } = { λ _. None };

    /// Which contents the reader may yet give, whether it is modelled or not.
    ghost may_give: { Self → Content → Type 0 } = { λ _. AnyContent };

    /// Reads bytes into the front of `buffer`, and returns how many. Fewer bytes than `buffer` holds
    /// don't mean the end. 0 means the end if `buffer` isn't empty. A fault leaves the reader's
    /// position unchanged.
    fn read_bytes(&mut self, buffer: &mut [u8]) -> Result<usize, Fault>
        ensures fits { ReadFits result buffer.new }
        ensures bytes { ReadKeeps (left self.old) (left self.new) result buffer.new }
        ensures count { CountsRead (taken self.old) (taken self.new) result }
        ensures seen { IsReadStep (may_give self.old) (may_give self.new) result buffer.new };

    /// A reader may always run out of memory.
    ghost give_may_fail: { (reader : Self) → may_give reader (no_bytes (Some Memory)) };
}

// How many bytes one read returns at most.
pub(crate) const CHUNK_LEN: usize = 4096;

// The same if there are more bytes than `CHUNK_LEN`. It isn't used for fewer, since a chunk is
// filled with zeros before it is read into.
pub(crate) const LARGE_CHUNK_LEN: usize = 1 << 16;

/// Reads to the end, and appends all bytes to `into`.
///
/// # Errors
///
/// Returns the reader's fault, or `Memory` if an allocation fails. No read is retried, and the bytes that were read
/// before stay appended.
pub fn read_all<R: ReadBytes>(reader: &mut R, into: &mut Vec<u8>) -> Result<(), Fault>
    ensures all { ReadsAll (R.left reader.old) (R.left reader.new) into.old.items into.new.items result }
    ensures kept { take (length into.old.items) into.new.items ≡ into.old.items }
    ensures counted { OnOk result (CountsMore (R.taken reader.old) (R.taken reader.new) (length into.new.items - length into.old.items)) }
    ensures seen { IsAllGiven (R.may_give reader.old) into.old.items into.new.items result }
{
    let mut chunk = [0u8; CHUNK_LEN];
    'chunks: loop {
        let taken = reader.read_bytes(&mut chunk)?;
        if taken == 0 {
            return Ok(());
        }
        into.extend_from_slice(&chunk[..taken])?;
    }
}
