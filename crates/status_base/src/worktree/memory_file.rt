//! The open files of a worktree in memory.

ghost use Rattle.std.specs.Prelude.{◌≡◌, [], None, Some, IfOk, MatchOption};
ghost use Rattle.std.specs.Option.{option_map};
ghost use Rattle.status_base.specs.MemoryTree.{planted_or_none, planted_content};

use crate::worktree::planted::{PlantedFaults, first_read_fault};
use status_index::{Fault, ReadBytes};
use std::alloc::{AllocError, Global};
use std::marker::Model;

/// An open file of a worktree in memory: a copy of its bytes, and the fault that replaces their end, if one is
/// planted.
#[derive(Drop)]
pub struct MemoryFile {
    bytes: Vec<u8>,
    position: usize,
    fault: Option<Fault>,
}

impl Model for MemoryFile {
    ghost use Rattle.std.specs.Prelude.{◌≤◌, drop};
    ghost use Rattle.std.specs.Vec.{vec_len};
    ghost use Rattle.status_index.specs.Content.{Content};

    ghost Value = { Content };

    ghost view = { λ a. record { bytes = drop a.position a.bytes.items; fault = a.fault } };

    ghost invariant = { λ a. a.position ≤ vec_len a.bytes };
}

impl MemoryFile {
    /// Returns a file with a copy of these bytes, up to the first read at which a fault is planted.
    pub(crate) fn new(
        alloc: Global,
        bytes: &[u8],
        planted: Option<&PlantedFaults>,
    ) -> Result<MemoryFile, AllocError>
        ensures { IfOk result (λ file. file ≡ planted_content bytes.now (planted_or_none (option_map (λ p. p.now) planted.entry))) }
    {
        let (end, fault) = match first_read_fault(planted) {
            Some((count, fault)) => (count.min(bytes.len() as u64) as usize, Some(fault)),
            None => (bytes.len(), None),
        };
        Ok(MemoryFile {
            bytes: Vec::from_slice(alloc, &bytes[..end])?,
            position: 0,
            fault,
        })
    }

    /// Returns the fault after the bytes, if no bytes are left.
    fn fault_at_end(&self) -> Option<Fault>
        ensures { MatchOption result (self.now.bytes ≡ [] → self.now.fault ≡ None) (λ fault. (self.now.bytes ≡ []) × (self.now.fault ≡ Some fault)) }
    {
        if self.position < self.bytes.len() {
            return None;
        }
        self.fault
    }
}

impl ReadBytes for MemoryFile {
    ghost use Rattle.std.specs.Prelude.{Some};
    ghost use Rattle.status_index.specs.Given.{IsKnownOrCut};
    ghost use Rattle.status_index.proofs.Gifts.{cut_at_once};

    ghost left = { Some };

    ghost may_give = { IsKnownOrCut };

    ghost give_may_fail = { cut_at_once };

    fn read_bytes(&mut self, buffer: &mut [u8]) -> Result<usize, Fault> {
        if let Some(fault) = self.fault_at_end() {
            return Err(fault);
        }
        let rest = &self.bytes[self.position..];
        let count = rest.len().min(buffer.len());
        buffer[..count].copy_from_slice(&rest[..count]);
        self.position += count;
        Ok(count)
    }
}
