//! The decider of entries over a worktree.

ghost use Rattle.std.specs.Prelude.{◌≡◌, false, Option, Some, Result, IsTrue, IfOk};
ghost use Rattle.std.proofs.Props.{props};
ghost use Rattle.bstr.specs.BStr.{bstr_bytes};
ghost use Rattle.status_base.specs.CheckState.{IsClear};
ghost use Rattle.status_base.specs.ListedNodes.{known_node};
ghost use Rattle.status_base.specs.ListingTable.{HasListedSeen};
ghost use Rattle.status_base.specs.Looked.{IsLookedAt, kind_read};
ghost use Rattle.status_base.specs.Sights.{IsOpen};
ghost use Rattle.status_index.specs.Entries.{entry_at};
ghost use Rattle.status_call.specs.EntrySights.{IsContentSeen, IsDirectorySeen, IsLookSeen, IsNodeSeen};
ghost use Rattle.status_call.specs.LookUps.{IfNode, IsNodeMet, Keeps};
ghost use Rattle.status_call.specs.MayReturn.{ReturnsWithin};
ghost use Rattle.status_compare.specs.Reads.{no_reads};
ghost use Rattle.status_call.specs.Status.{directory_case, reads_link};

use crate::index_as_worktree::content::{
    Candidate, compare_node, decision_of, is_trusted, needs_comparison, unread,
};
use crate::index_as_worktree::inputs::{Ask, Inputs, Settings};
use crate::index_as_worktree::lookup::{AtPath, Known, Look, look_up};
use crate::index_as_worktree::step::{Decide, Decided};
use crate::index_as_worktree::submodule::submodule_status;
use crate::index_as_worktree::types::{Change, EntryStatus, Error};
use bitflags::Flags as _;
use bstr::{BStr, BString};
use status_base::fscache::Listings;
use status_base::stack::SymlinkCheck;
use status_base::worktree::{Find, Guard, Lister, Pathspec, SubmoduleStatus, ToGit};
use status_compare::CompareBlobs;
use status_index::{Entry, Flags, Stat, mode};
use std::alloc::{AllocError, Global};

/// Decides entries over a worktree. It keeps its buffers and listings, so an entry whose stat decides takes no memory,
/// unless its directory has to be listed first. For each directory that its check found open, the worktree returned a result
/// that shows this. The names of each directory that it listed are of a listing that the lister may return.
#[derive(Drop)]
pub struct Decider<G: Guard, C, S, O, P, T, L: Lister> {
    alloc: Global,
    inputs: Inputs<G, C, S, O, P, T, L>,
    settings: Settings,
    known: Known,
    buffer: Vec<u8>,
    ghost guard: { G.listed inputs.worktree ≡ settings.fscache },
    ghost clear: { IsTrue (G.modelled inputs.worktree)
        → IsClear (G.lstat_of inputs.worktree) known.check.path },
    ghost opened: { ∥ IsOpen (G.may_stat inputs.worktree) known.check.path ∥₁ },
    ghost listed: { ∥ HasListedSeen (L.may_list inputs.lister) known.listings ∥₁ },
    ghost kept: { Keeps (L.modelled inputs.lister)
        (L.listing inputs.lister) known.listings } by { Prim.hlevel props },
}

impl<
    G: Guard + Copy,
    C: CompareBlobs,
    S: SubmoduleStatus,
    O: Find,
    P: Pathspec,
    T: ToGit,
    L: Lister,
> Decider<G, C, S, O, P, T, L>
where
    C::Output: Drop,
    S::Output: Drop,
{
    ghost use Rattle.status_call.specs.EntryParts.{IsCaseDecided, IsNodeDecided, IsContentDecided, IsLookAt, candidate_entry};

    /// Makes a decider with these settings, which use listings exactly if the worktree's guard allows that.
    pub fn new(
        alloc: Global,
        inputs: Inputs<G, C, S, O, P, T, L>,
        settings: Settings,
    ) -> Decider<G, C, S, O, P, T, L>
        requires guard { G.listed inputs.worktree ≡ settings.fscache }
        ensures query { ⟦<Decider<G, C, S, O, P, T, L> as Decide>⟧.query result
            ≡ ⟦<Inputs<G, C, S, O, P, T, L> as Ask>⟧.query inputs settings }
        ensures inputs { result.inputs ≡ inputs }
        ensures settings { result.settings ≡ settings }
    {
        let root = BString::new(Vec::new(alloc));
        let check = SymlinkCheck::new(alloc, root);
        let listings = Listings::new(alloc);
        Decider {
            alloc,
            inputs,
            settings,
            known: Known { check, listings },
            buffer: Vec::new(alloc),
        }
    }

    /// Returns the node at a path, or that nothing or a directory is there.
    ///
    /// # Errors
    /// A path that isn't normal, a fault other than one of absence, or out of memory.
    fn look(&mut self, path: BStr<'_>) -> Result<Look, Error>
        ensures look { IsTrue (⟦<Decider<G, C, S, O, P, T, L> as Decide>⟧.query self.old).modelled
            → IsLookAt (G.lstat_of self.old.inputs.worktree)
            (known_node self.old.settings.fscache (L.listing self.old.inputs.lister) (bstr_bytes path.entry))
            (bstr_bytes path.entry) result }
        ensures seen { ∥ IsLookSeen (G.may_stat self.old.inputs.worktree)
            (L.may_list self.old.inputs.lister) self.old.settings.fscache (bstr_bytes path.entry) result ∥₁ }
        ensures met { IfOk result (λ look. IfNode look.presence (λ n. ∥ IsNodeMet (G.may_stat self.old.inputs.worktree)
            self.old.settings.fscache (bstr_bytes path.entry) n ∥₁)) }
        ensures inputs { self.new.inputs ≡ self.old.inputs }
        ensures settings { self.new.settings ≡ self.old.settings }
    {
        look_up(
            &self.inputs.worktree,
            &mut self.known,
            self.settings.fscache,
            &self.inputs.lister,
            path,
        )
    }

    /// Decides an entry whose path has a directory: a submodule's entry by the submodule's status.
    ///
    /// # Errors
    /// The submodule's error, or out of memory.
    fn decide_directory(
        &mut self,
        entry: &Entry,
        path: BStr<'_>,
    ) -> Result<Decided<C::Output, S::Output>, Error>
        ensures decided { let e = entry_at (bstr_bytes path.entry) entry.now in
            IsTrue (S.modelled self.old.inputs.submodule)
            → IsCaseDecided e.path (directory_case e (S.status_of self.old.inputs.submodule e)) false (Some no_reads) result }
        ensures seen { let e = entry_at (bstr_bytes path.entry) entry.now in
            IsDirectorySeen (S.may_report self.old.inputs.submodule e) e result }
        ensures within { ReturnsWithin (⟦<Inputs<G, C, S, O, P, T, L> as Ask>⟧.may_return self.new.inputs)
            (⟦<Inputs<G, C, S, O, P, T, L> as Ask>⟧.may_return self.old.inputs) }
        ensures same { ⟦<Decider<G, C, S, O, P, T, L> as Decide>⟧.query self.new
            ≡ ⟦<Decider<G, C, S, O, P, T, L> as Decide>⟧.query self.old }
        ensures kept { (self.new.inputs.worktree ≡ self.old.inputs.worktree)
            × (self.new.settings ≡ self.old.settings) }
    {
        if !entry.mode.is_submodule() {
            return Ok(unread(Some(EntryStatus::Change(Change::Removed)), false));
        }
        let status = submodule_status(self.alloc, &mut self.inputs.submodule, entry, path)?;
        Ok(unread(status, false))
    }

    /// Decides an entry whose path has a node that is no directory.
    ///
    /// # Errors
    /// A time of the node isn't known, or the comparer's error.
    fn decide_node(
        &mut self,
        candidate: &Candidate<'_>,
    ) -> Result<Decided<C::Output, S::Output>, Error>
        requires met { ∥ IsNodeMet (G.may_stat self.old.inputs.worktree) self.old.settings.fscache
            (bstr_bytes candidate.now.path) candidate.now.node ∥₁ }
        ensures decided { IsNodeDecided
            (⟦<Decider<G, C, S, O, P, T, L> as Decide>⟧.query self.old)
            (candidate_entry candidate.now) candidate.now.node result }
        ensures seen { IsNodeSeen (⟦<Inputs<G, C, S, O, P, T, L> as Ask>⟧.may_return self.old.inputs)
            self.old.settings (T.conversion self.old.inputs.filter) (C.answer self.old.inputs.compare) (C.counts_after self.old.inputs.compare)
            (candidate_entry candidate.now) candidate.now.node result }
        ensures within { ReturnsWithin (⟦<Inputs<G, C, S, O, P, T, L> as Ask>⟧.may_return self.new.inputs)
            (⟦<Inputs<G, C, S, O, P, T, L> as Ask>⟧.may_return self.old.inputs) }
        ensures kept { (self.new.inputs.worktree ≡ self.old.inputs.worktree)
            × (self.new.settings ≡ self.old.settings) }
        ensures same { ⟦<Decider<G, C, S, O, P, T, L> as Decide>⟧.query self.new
            ≡ ⟦<Decider<G, C, S, O, P, T, L> as Decide>⟧.query self.old }
    {
        let Candidate { entry, node, .. } = candidate;
        if entry.flags.intersects(Flags::INTENT_TO_ADD) {
            return Ok(unread(Some(EntryStatus::IntentToAdd), false));
        }
        let stat = node.to_stat()?;
        let fs = self.settings.fs;
        match entry
            .mode
            .change_to_match_fs(node, fs.symlink, fs.executable_bit)
        {
            Some(mode::Change::TypeChange { new_mode }) => {
                let change = Change::TypeChange {
                    worktree_mode: new_mode,
                };
                Ok(unread(Some(EntryStatus::Change(change)), false))
            }
            Some(mode::Change::ExecutableBit) => self.decide_content(candidate, stat, true),
            None => self.decide_content(candidate, stat, false),
        }
    }

    /// Decides an entry whose node has the entry's type: by the stats if they settle that it is unchanged, otherwise by
    /// the content.
    ///
    /// # Errors
    /// The comparer's error.
    fn decide_content(
        &mut self,
        candidate: &Candidate<'_>,
        stat: Stat,
        executable_bit_changed: bool,
    ) -> Result<Decided<C::Output, S::Output>, Error>
        requires looked { IsLookedAt (G.may_stat self.old.inputs.worktree) self.old.settings.fscache (bstr_bytes candidate.now.path) candidate.now.node
            (kind_read (reads_link self.old.settings.fs.symlink candidate.now.entry.now.mode candidate.now.node.kind)) }
        ensures decided { IsContentDecided
            (⟦<Decider<G, C, S, O, P, T, L> as Decide>⟧.query self.old)
            (candidate_entry candidate.now) candidate.now.node stat
            executable_bit_changed result }
        ensures seen { IsContentSeen (⟦<Inputs<G, C, S, O, P, T, L> as Ask>⟧.may_return self.old.inputs)
            self.old.settings (T.conversion self.old.inputs.filter) (C.answer self.old.inputs.compare) (C.counts_after self.old.inputs.compare)
            (candidate_entry candidate.now) candidate.now.node stat executable_bit_changed result }
        ensures within { ReturnsWithin (⟦<Inputs<G, C, S, O, P, T, L> as Ask>⟧.may_return self.new.inputs)
            (⟦<Inputs<G, C, S, O, P, T, L> as Ask>⟧.may_return self.old.inputs) }
        ensures kept { (self.new.inputs.worktree ≡ self.old.inputs.worktree)
            × (self.new.settings ≡ self.old.settings) }
        ensures same { ⟦<Decider<G, C, S, O, P, T, L> as Decide>⟧.query self.new
            ≡ ⟦<Decider<G, C, S, O, P, T, L> as Decide>⟧.query self.old }
    {
        let trusted = is_trusted(candidate.entry, &stat, self.settings.stat);
        let racy = stat.is_racy(self.settings.timestamp, self.settings.stat);
        let compares = needs_comparison(executable_bit_changed, trusted, racy);
        if !compares {
            return Ok(unread(None, false));
        }
        let (inputs, buffer) = (&mut self.inputs, &mut self.buffer);
        let comparison = compare_node(self.alloc, inputs, self.settings, buffer, candidate)?;
        Ok(decision_of(comparison, stat, executable_bit_changed, trusted, racy))
    }
}

impl<
    G: Guard + Copy,
    C: CompareBlobs,
    S: SubmoduleStatus,
    O: Find,
    P: Pathspec,
    T: ToGit,
    L: Lister,
> Decide for Decider<G, C, S, O, P, T, L>
where
    C::Output: Drop,
    S::Output: Drop,
{
    ghost use Rattle.status_call.specs.EntrySights.{IsViewAllowed};
    ghost use Rattle.status_call.specs.ViewLaws.{free_view};

    type Content = C::Output;

    type Submodule = S::Output;

    ghost query = { λ d. ⟦<Inputs<G, C, S, O, P, T, L> as Ask>⟧.query d.inputs d.settings };

    ghost allows = { λ d. IsViewAllowed (⟦<Inputs<G, C, S, O, P, T, L> as Ask>⟧.may_return d.inputs) d.settings.fscache };

    fn common_prefix(&self) -> BStr<'_> {
        self.inputs.pathspec.common_prefix()
    }

    fn includes(&self, entry: &Entry, path: BStr<'_>) -> bool {
        let is_submodule = entry.mode.is_submodule();
        self.inputs.pathspec.includes(path, is_submodule)
    }

    fn decide(
        &mut self,
        entry: &Entry,
        path: BStr<'_>,
    ) -> Result<Decided<C::Output, S::Output>, Error> {
        let Look {
            presence,
            lstat_called,
        } = self.look(path)?;
        match presence {
            AtPath::Nothing => Ok(unread(Some(EntryStatus::Change(Change::Removed)), lstat_called)),
            AtPath::Directory => {
                let decided = self.decide_directory(entry, path)?;
                Ok(Decided {
                    lstat_called,
                    ..decided
                })
            }
            AtPath::Node(node) => {
                let decided = self.decide_node(&Candidate { entry, path, node })?;
                Ok(Decided {
                    lstat_called,
                    ..decided
                })
            }
        }
    }

    fn another(&self) -> Result<Decider<G, C, S, O, P, T, L>, AllocError> {
        let inputs = self.inputs.another()?;
        Ok(Decider::new(self.alloc, inputs, self.settings))
    }

    ghost free = { λ d e. free_view (⟦<Inputs<G, C, S, O, P, T, L> as Ask>⟧.may_return d.inputs) d.settings.fscache e (G.stat_may_fail d.inputs.worktree) };
}
