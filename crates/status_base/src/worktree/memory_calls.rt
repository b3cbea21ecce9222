//! The calls of the file system on a worktree in memory.

ghost use Rattle.std.specs.Prelude.{◌≡◌, IfOk};
ghost use Rattle.status_base.specs.MemoryTree.{absence, fault_without_node};

use crate::worktree::Worktree;
use crate::worktree::memory::MemoryWorktree;
use crate::worktree::memory_file::MemoryFile;
use crate::worktree::node::bare_directory;
use crate::worktree::planted::{lstat_fault, open_fault, read_link_fault};
use bstr::BStr;
use status_index::{Fault, Metadata, NodeKind};
use std::alloc::AllocError;

impl MemoryWorktree {
    /// Returns the fault of a path with no node at it or below it.
    fn absence(&self, path: &[u8]) -> Fault
        ensures { result ≡ absence self.now path.now }
    {
        if self.has_file_above(path) {
            Fault::NotADirectory
        } else {
            Fault::NotFound
        }
    }

    /// Returns the fault of opening a path, or of reading it as a link, if no node was put there.
    fn without_node(&self, path: &[u8]) -> Result<Fault, AllocError>
        ensures { IfOk result (λ fault. fault ≡ fault_without_node self.now path.now) }
    {
        if self.has_below(path)? {
            return Ok(Fault::Other(0));
        }
        match lstat_fault(self.planted_at(path)) {
            Some(fault) => Ok(fault),
            None => Ok(self.absence(path)),
        }
    }
}

impl Worktree for MemoryWorktree {
    ghost use Rattle.std.specs.Prelude.{true, refl};
    ghost use Rattle.std.proofs.Common.{inr};
    ghost use Rattle.status_index.specs.Answer.{IsAnswer};
    ghost use Rattle.status_base.specs.MemoryTree.{lstat_in, open_in, target_in};
    ghost use Rattle.status_base.specs.Openings.{IsKnownOpening};

    type File = MemoryFile;

    ghost modelled = { λ _. true };

    ghost lstat_of = { lstat_in };

    ghost open_of = { open_in };

    ghost target_of = { target_in };

    ghost may_stat = { λ tree path answer. IsAnswer (lstat_in tree path) answer };

    ghost may_open = { λ tree path. IsKnownOpening (open_in tree path) };

    ghost may_link = { λ tree path answer. IsAnswer (target_in tree path) answer };

    ghost stat_may_fail = { λ _ _. inr refl };

    ghost open_may_fail = { λ _ _. inr refl };

    ghost link_may_fail = { λ _ _. inr refl };

    fn lstat(&self, path: BStr<'_>) -> Result<Metadata, Fault> {
        let path = path.as_bytes();
        if let Some(fault) = lstat_fault(self.planted_at(path)) {
            return Err(fault);
        }
        if let Some(node) = self.node_at(path) {
            return Ok(node.metadata());
        }
        if self.has_below(path)? {
            return Ok(bare_directory());
        }
        Err(self.absence(path))
    }

    fn open(&self, path: BStr<'_>) -> Result<MemoryFile, Fault> {
        let path = path.as_bytes();
        let planted = self.planted_at(path);
        if let Some(fault) = open_fault(planted) {
            return Err(fault);
        }
        let Some(node) = self.node_at(path) else {
            return Err(self.without_node(path)?);
        };
        match node.kind {
            NodeKind::File => Ok(MemoryFile::new(self.alloc, &node.bytes, planted)?),
            _ => Err(Fault::Other(0)),
        }
    }

    fn read_link(&self, path: BStr<'_>, target: &mut Vec<u8>) -> Result<(), Fault> {
        target.clear();
        let path = path.as_bytes();
        if let Some(fault) = read_link_fault(self.planted_at(path)) {
            return Err(fault);
        }
        let Some(node) = self.node_at(path) else {
            return Err(self.without_node(path)?);
        };
        match node.kind {
            NodeKind::Link => Ok(target.extend_from_slice(&node.bytes)?),
            _ => Err(Fault::Other(0)),
        }
    }
}
