//! Blobs by their ids: the interface, and blobs in memory.

ghost use Rattle.std.specs.Prelude.{◌≡◌, Bool, IsTrue, List, ℕ, Result, OnOk, OnErr};
ghost use Rattle.status_index.specs.declared.id.ObjectId.{ObjectId as BlobName};
ghost use Rattle.status_base.specs.declared.worktree.objects.FindError.{FindError as NotFound};
ghost use Rattle.status_base.specs.Lawful.{CloneKeeps};
ghost use Rattle.std.specs.FinMap as ids;

use status_index::ObjectId;
use std::alloc::{AllocError, Global};
use std::collections::BTreeMap;
use std::marker::Model;
use thiserror::Error;

/// Why a blob wasn't found.
#[derive(Clone, Copy, Debug, PartialEq, Eq, Error)]
pub enum FindError {
    /// There is no blob of that id.
    #[error("missing object")]
    Missing,
    /// Out of memory.
    #[error("Out of memory")]
    Memory,
}

/// A collection of blobs, found by their ids. It is either modelled, and then a blob is a function of the id, or not,
/// such as an object database on a disk.
pub trait Find: Clone {
    ghost use Rattle.std.specs.Prelude.{Err, ⊤};
    ghost use Rattle.status_base.specs.FindAnswers.{IsFindAnswer, IsFindSeen};
    ghost use Rattle.status_base.specs.declared.worktree.objects.FindError.TheVariants.{Memory};

    /// Whether the collection is modelled.
    ghost modelled: { Self → Bool };

    /// The specified content of each blob, or why there is none.
    ghost found: { Self → BlobName → Result (List ℕ) NotFound };

    /// Which contents a blob may have, and which errors finding it may have.
    ghost may_find: { Self → BlobName → Result (List ℕ) NotFound → Type 0 } = { λ _ _ _. ⊤ };

    /// Reads a blob into `buffer`, replacing its content.
    ///
    /// # Errors
    /// `Missing` if there is no blob of that id, or out of memory. After an error the content of `buffer` isn't
    /// specified.
    fn find_blob(&self, id: &ObjectId, buffer: &mut Vec<u8>) -> Result<(), FindError>
        ensures answer { IsTrue (modelled self.now) → IsFindAnswer (found self.now id.now) result buffer.new.items }
        ensures seen { IsFindSeen (may_find self.now id.now) result buffer.new.items };

    /// A clone is modelled exactly if its original is.
    ghost clone_keeps_modelled: { CloneKeeps Self.is_clone modelled };

    /// A clone has the same blobs.
    ghost clone_keeps_found: { CloneKeeps Self.is_clone found };

    /// A clone finds nothing that its original may not find.
    ghost clone_finds_within: { (one other : Self) → Self.is_clone one other → (id : BlobName) (found : Result (List ℕ) NotFound)
        → may_find other id found → may_find one id found };

    /// Finding a blob may always run out of memory.
    ghost find_may_fail: { (blobs : Self) (id : BlobName) → may_find blobs id (Err Memory) };
}

/// Blobs in memory, by their ids. Whether an id is its content's digest isn't checked.
#[derive(Drop)]
pub struct MemoryObjects {
    alloc: Global,
    contents: BTreeMap<ObjectId, Vec<u8>>,
}

impl Model for MemoryObjects {
    ghost use Rattle.status_base.specs.Objects.{Contents, contents_code, contents_of};

    ghost Value = { Contents };

    ghost coded = { contents_code };

    ghost view = { λ a. contents_of a.contents.entries };
}

impl MemoryObjects {
    /// Returns a collection without blobs.
    pub fn new(alloc: Global) -> MemoryObjects
        ensures { result ≡ ids.empty }
    {
        MemoryObjects {
            alloc,
            contents: BTreeMap::new(alloc),
        }
    }

    /// Stores a blob, replacing the one with the same id.
    ///
    /// # Errors
    /// Out of memory. The blobs are then unchanged.
    pub fn put(&mut self, id: ObjectId, content: &[u8]) -> Result<(), AllocError>
        ensures ok { OnOk result (self.new ≡ ids.insert self.old id content.now) }
        ensures err { OnErr result (self.new ≡ self.old) }
    {
        let content = Vec::from_slice(self.alloc, content)?;
        match self.contents.insert(id, content) {
            Ok(_replaced) => Ok(()),
            Err(_refused) => Err(AllocError),
        }
    }
}

impl Clone for MemoryObjects {
    ghost use Rattle.std.specs.Prelude.{◌≡◌};

    ghost is_clone = { λ x y. y ≡ x };

    fn clone(&self) -> Result<MemoryObjects, AllocError> {
        Ok(MemoryObjects {
            alloc: self.alloc,
            contents: self.contents.clone()?,
        })
    }
}

impl Find for MemoryObjects {
    ghost use Rattle.std.specs.Prelude.{true, refl};
    ghost use Rattle.std.proofs.Common.{ap};
    ghost use Rattle.status_base.specs.Objects.{found_in};

    ghost modelled = { λ _. true };

    ghost found = { found_in };

    ghost clone_keeps_modelled = { λ _ _ _. refl };

    ghost clone_keeps_found = { λ _ _ same. ap found_in same };

    ghost clone_finds_within = { λ _ _ _ _ _ _. tt };

    ghost find_may_fail = { λ _ _. tt };

    fn find_blob(&self, id: &ObjectId, buffer: &mut Vec<u8>) -> Result<(), FindError> {
        let Some(content) = self.contents.get(id) else {
            return Err(FindError::Missing);
        };
        buffer.clear();
        match buffer.extend_from_slice(content) {
            Ok(()) => Ok(()),
            Err(_error) => Err(FindError::Memory),
        }
    }
}
