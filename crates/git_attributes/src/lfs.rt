//! What git-lfs stores of a file: a pointer to its bytes. Those of a pointer stay.

ghost use Rattle.std.specs.Prelude.{◌≡◌, ◌-◌, ◌++◌, List, ℕ, OnOk, length, take};
ghost use Rattle.git_attributes.specs.Lfs.{pointer, stored_by_lfs, IsHashed};
ghost use Rattle.git_attributes.specs.Reading.{IsOfAll, IsOfGiven};

use crate::pointer::{POINTER_LIMIT, is_pointer};
use sha2::{Digest, Sha256};
use status_index::{Fault, ReadBytes};
use std::alloc::AllocError;

/// How many bytes are read at once.
const CHUNK_LEN: usize = 1 << 16;

/// The digest and the number of a file's bytes, which a pointer has.
#[derive(Clone, Copy, Debug)]
struct Hashed {
    /// Their SHA-256 digest.
    digest: [u8; 32],
    /// How many they are.
    len: u64,
}

/// Appends a pointer.
///
/// # Errors
/// Out of memory.
fn push_pointer(hashed: &Hashed, stored: &mut Vec<u8>) -> Result<(), AllocError>
    ensures { OnOk result (stored.new.items ≡ stored.old.items ++ pointer hashed.now.digest hashed.now.len) }
{
    let digest = hex::encode(*stored.allocator(), hashed.digest)?;
    stored.extend_from_slice(b"version https://git-lfs.github.com/spec/v1\noid sha256:")?;
    stored.extend_from_slice(digest.as_bytes())?;
    stored.extend_from_slice(b"\nsize ")?;
    stored.extend_from_slice(itoa::Buffer::new().format(hashed.len).as_bytes())?;
    stored.extend_from_slice(b"\n")?;
    Ok(())
}

/// Appends bytes while there are fewer than those of the longest pointer and one more.
///
/// # Errors
/// Out of memory.
fn push_front(front: &mut Vec<u8>, bytes: &[u8]) -> Result<(), AllocError>
    ensures { OnOk result (front.new.items ≡ front.old.items ++ take (1024 - length front.old.items) bytes.now) }
{
    let room = POINTER_LIMIT.saturating_sub(front.len());
    front.extend_from_slice(&bytes[..room.min(bytes.len())])
}

/// Reads a file to its end, hashes its bytes in parts, and writes the first 1,024 of them to `front`. It is never inlined, so
/// that the parts take no room in the stack of other calls.
///
/// # Errors
/// The reader's fault, or out of memory.
#[inline(never)]
fn hash_to_end<R: ReadBytes>(reader: &mut R, front: &mut Vec<u8>) -> Result<Hashed, Fault>
    ensures known { IsOfAll (IsHashed front.new.items) (R.left reader.old) result }
    ensures seen { IsOfGiven (IsHashed front.new.items) (R.may_give reader.old) result }
{
    let mut chunk = [0u8; CHUNK_LEN];
    let mut hasher = Sha256::new();
    let mut len = 0u64;
    front.clear();
    'chunks: loop {
        let taken = reader.read_bytes(&mut chunk)?;
        if taken == 0 {
            return Ok(Hashed {
                digest: hasher.finalize(),
                len,
            });
        }
        let Some(more) = len.checked_add(taken as u64) else {
            return Err(Fault::Memory);
        };
        len = more;
        hasher.update(&chunk[..taken]);
        push_front(front, &chunk[..taken])?;
    }
}

/// Replaces a file's first 1,024 bytes by what is stored of the file.
///
/// # Errors
/// Out of memory.
fn make_stored(hashed: &Hashed, stored: &mut Vec<u8>) -> Result<(), AllocError>
    ensures { OnOk result ((bytes : List ℕ) → IsHashed stored.old.items bytes hashed.now → stored.new.items ≡ stored_by_lfs bytes) }
{
    if !is_pointer(stored) {
        stored.clear();
        push_pointer(hashed, stored)?;
    }
    Ok(())
}

/// Reads a file to its end, and writes to `stored` what git-lfs stores of it. A large file is hashed in parts: no more than
/// 1,024 of its bytes and a part of fixed length are in memory.
///
/// # Errors
/// The reader's fault, or out of memory.
pub fn read_for_lfs<R: ReadBytes>(reader: &mut R, stored: &mut Vec<u8>) -> Result<(), Fault>
    ensures known { IsOfAll (λ bytes _. stored.new.items ≡ stored_by_lfs bytes) (R.left reader.old) result }
    ensures seen { IsOfGiven (λ bytes _. stored.new.items ≡ stored_by_lfs bytes) (R.may_give reader.old) result }
{
    let hashed = hash_to_end(reader, stored)?;
    make_stored(&hashed, stored)?;
    Ok(())
}
