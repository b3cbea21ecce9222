//! Stages a path: the entry of the node there is put into the index, or removed if there is none.

ghost use Rattle.std.specs.Prelude.{◌≡◌, IfOk, IfErr, OnOk, OnErr, unwrap_or, IsSome};
ghost use Rattle.bstr.specs.BStr.{bstr_bytes};
ghost use Rattle.status_base.specs.Nodes.{placed_of};
ghost use Rattle.status_index.specs.NodeStat.{stat_of};
ghost use Rattle.status_world.specs.EventAnswers.{IsChanged};
ghost use Rattle.status_world.specs.StampedWorld.{fresh_entry, plain_of, with_staged, zero_stat};
ghost use Rattle.status_world.specs.StagedPaths.{plain_staged};
ghost use Rattle.status_world.specs.declared.world.event.Event.TheVariants as events;
ghost use Rattle.std.specs.Option.{option_map};
ghost use Rattle.std.specs.FinMap as paths;
ghost use Rattle.status_world.specs.PlainWorld.{with_value};

use crate::world::event::Refusal;
use crate::world::state::World;
use bstr::{BStr, BString};
use status_base::worktree::memory::is_bad_path;
use status_base::worktree::{Node, NodeKind};
use status_index::mode::mode_of_node;
use status_index::{Flags, Mode, ObjectId, Stat, compute_hash};
use std::alloc::{AllocError, Global};
use std::collections::BTreeMap;
use std::marker::Model;

/// The file or link that was staged at a path.
#[derive(Debug, Drop)]
pub(crate) struct Staged {
    pub(crate) kind: NodeKind,
    pub(crate) bytes: Vec<u8>,
    pub(crate) executable: bool,
}

/// The file or link that was staged last, for each path that the index has.
#[derive(Drop)]
pub(crate) struct StagedFiles {
    alloc: Global,
    files: BTreeMap<Vec<u8>, Staged>,
}

impl Model for StagedFiles {
    ghost use Rattle.std.specs.FinMap as paths;
    ghost use Rattle.status_base.specs.MemoryTree.{PathMap};
    ghost use Rattle.status_world.specs.PlainWorld.{Plain};
    ghost use Rattle.status_world.specs.StagedPaths.{staged_of, staged_code};

    ghost Value = { PathMap Plain };

    ghost coded = { staged_code };

    ghost view = { λ a. staged_of a.files.entries };
}

impl StagedFiles {
    /// Returns an empty map: nothing was staged.
    pub(crate) fn new(alloc: Global) -> StagedFiles
        ensures { result ≡ paths.empty }
    {
        StagedFiles {
            alloc,
            files: BTreeMap::new(alloc),
        }
    }

    /// Puts `staged` at a path, and returns the value that it replaces.
    ///
    /// # Errors
    /// Returns an error if an allocation fails. The map is then unchanged.
    pub(crate) fn put(
        &mut self,
        path: BStr<'_>,
        staged: Staged,
    ) -> Result<Option<Staged>, AllocError>
        ensures replaced { IfOk result (λ r. option_map plain_staged r ≡ paths.get self.old (bstr_bytes path.entry)) }
        ensures ok { OnOk result (self.new ≡ paths.insert self.old (bstr_bytes path.entry) (plain_staged staged)) }
        ensures unchanged { OnErr result (self.new ≡ self.old) }
    {
        let key = Vec::from_slice(self.alloc, path.as_bytes())?;
        match self.files.insert(key, staged) {
            Ok(replaced) => Ok(replaced),
            Err(_refused) => Err(AllocError),
        }
    }

    /// Undoes a `put` at a path, which replaced `replaced`. Allocates no memory, since the path still has its key.
    pub(crate) fn put_back(&mut self, path: BStr<'_>, replaced: Option<Staged>)
        ensures { IsSome (paths.get self.old (bstr_bytes path.entry)) → self.new ≡ with_value self.old (bstr_bytes path.entry) (option_map plain_staged replaced) }
    {
        match replaced {
            Some(staged) => {
                if let Some(place) = self.files.get_mut(path.as_bytes()) {
                    *place = staged;
                }
            }
            None => self.remove(path),
        }
    }

    /// Removes a path.
    pub(crate) fn remove(&mut self, path: BStr<'_>)
        ensures { self.new ≡ paths.remove self.old (bstr_bytes path.entry) }
    {
        self.files.remove(path.as_bytes());
    }
}

impl World {
    /// Puts the file or link at a path into the index. If there is none, removes the path's entry.
    pub(crate) fn stage(&mut self, path: &BString) -> Result<(), Refusal>
        ensures { IsChanged (events.Stage path.now) self.old result self.new }
    {
        let path = path.as_bstr();
        if is_bad_path(path) {
            return Err(Refusal::BadPath);
        }
        let parts = &self.parts;
        match parts.worktree.node(path) {
            Some(node) if matches!(node.kind, NodeKind::File | NodeKind::Link) => {
                let stat = stat_of(node);
                let mode = mode_of_node(&node.metadata(), parts.executable_bit);
                let id = compute_hash(parts.kind, &node.bytes);
                let staged = staged_of(parts.alloc, node)?;
                self.put_staged(path, stat, id, mode, staged)
            }
            _ => {
                self.parts.index.remove_path(path);
                self.parts.staged.remove(path);
                Ok(())
            }
        }
    }
}

impl World {
    /// Puts an entry into the index, and what was staged into the world: both, or neither on an error.
    fn put_staged(
        &mut self,
        path: BStr<'_>,
        stat: Stat,
        id: ObjectId,
        mode: Mode,
        staged: Staged,
    ) -> Result<(), Refusal>
        ensures ok { OnOk result (self.new ≡ with_staged self.old (fresh_entry (bstr_bytes path.entry) stat id mode) (plain_staged staged)) }
        ensures err { IfErr result (λ r. r ≡ Refusal.Memory) }
        ensures unchanged { OnErr result (self.new ≡ self.old) }
    {
        let parts = &mut self.parts;
        // `staged` is put first, since it can be put back without an allocation if the index refuses the entry.
        let replaced = parts.staged.put(path, staged)?;
        match parts
            .index
            .put_entry(stat, id, Flags::from_stage(0), mode, path)
        {
            Ok(()) => Ok(()),
            Err(_refused) => {
                parts.staged.put_back(path, replaced);
                Err(Refusal::Memory)
            }
        }
    }
}

/// Returns the stat of a node. Its times are known, since an event put the node.
fn stat_of(node: &Node) -> Stat
    ensures { result ≡ unwrap_or (stat_of (placed_of node.now).metadata) zero_stat }
{
    node.metadata().to_stat().unwrap_or_default()
}

/// Returns the value that is staged for a node.
fn staged_of(alloc: Global, node: &Node) -> Result<Staged, AllocError>
    ensures { IfOk result (λ s. plain_staged s ≡ plain_of (placed_of node.now)) }
{
    Ok(Staged {
        kind: node.kind,
        bytes: Vec::from_slice(alloc, &node.bytes)?,
        executable: node.kind == NodeKind::File && node.executable,
    })
}
