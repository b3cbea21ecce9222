//! One path: the calls that are made for it, and its status by their results.

ghost use Rattle.std.specs.Prelude.{◌≡◌, ℕ, List, Option, Result, IfOk, IfSome};
ghost use Rattle.bstr.specs.BStr.{bstr_bytes};
ghost use Rattle.status_index.specs.Entries.{IndexEntry, entry_at};
ghost use Rattle.status_base.specs.Looked.{IsMet};

use crate::asking::{ask_along, ask_submodule, read_file, read_link};
use crate::explained::Explained;
use crate::recorded::{RecordedSubmodule, RecordedWorktree};
use crate::sight::Sight;
use bstr::BStr;
use git_attributes::CleanFilter;
use git_status::OnlyPath;
use status_base::worktree::{
    GuardedWorktree, MemoryObjects, Metadata, NoLister, NodeKind, SubmoduleStatus, Worktree,
};
use status_call::index_as_worktree::traits::FastEq;
use status_call::index_as_worktree::{
    Context, Error, Options, Outcome, Recorder, index_as_worktree_without_threads,
};
use status_index::{Entry, State};
use std::alloc::{AllocError, Global};

/// An index and a worktree whose paths are explained.
#[derive(Drop)]
pub struct Explainer<'a, 'b, 'files, 'index, W, S> {
    /// The allocator.
    pub alloc: Global,
    /// The index.
    pub index: &'index State,
    /// The worktree.
    pub worktree: GuardedWorktree<'a, W>,
    /// The submodules.
    pub submodules: S,
    /// How line ends are converted.
    pub filter: CleanFilter<'b, 'files, 'index>,
    /// How entries are compared. No listings are used.
    pub options: Options,
}

impl<'a, 'b, 'files, 'index, W: Worktree, S: SubmoduleStatus> Explainer<
    'a,
    'b,
    'files,
    'index,
    W,
    S,
> {
    ghost use Rattle.status_call.specs.Inputs.{settings};
    ghost use Rattle.status_call.specs.RecorderVisits.{visits_of};
    ghost use Rattle.status_call.specs.StatusTheorem.{IsStatusReport};
    ghost use Rattle.git_explain.specs.Allowed.{IsReadFurther, IsSightAllowed};
    ghost use Rattle.git_explain.specs.Explained.{IsStatusBySight, IsWhole, by_sight};

    /// Explains the status of an entry's path. At first no call is made. If that doesn't decide, the directories above the path
    /// and the path are checked by `lstat`. If that doesn't either, the content is read.
    ///
    /// # Errors
    /// Out of memory.
    pub fn explain(
        &mut self,
        entry: &'index Entry,
        path: BStr<'index>,
    ) -> Result<Explained<'index>, AllocError>
        ensures status { IfOk result (IsStatusBySight (settings self.old.options self.old.index.now) self.old.filter self.old.index.now) }
        ensures whole { IfOk result (λ x. IsWhole x.answer) }
        ensures allowed { IfOk result (λ x. let p = bstr_bytes path.entry in IsSightAllowed (W.may_stat self.old.worktree.worktree.now) (W.may_open self.old.worktree.worktree.now p)
            (W.may_link self.old.worktree.worktree.now p) (S.may_report self.old.submodules (entry_at p entry.now)) x.sight) }
        ensures entry { IfOk result (λ x. (x.entry.now ≡ entry.now) × (bstr_bytes x.path ≡ bstr_bytes path.entry)) }
        ensures only { self.new ≡ record self.old { submodules = self.new.submodules } }
        ensures within { (e : IndexEntry) (report : Result (Option S.Output) (List ℕ)) → S.may_report self.new.submodules e report → S.may_report self.old.submodules e report }
    {
        let first = self.by_sight(entry, path, Sight::new(self.alloc))?;
        if !first.is_unasked() {
            return Ok(first);
        }
        let (sight, met) = self.ask(entry, path, first.sight)?;
        let second = self.by_sight(entry, path, sight)?;
        if !second.is_unasked() {
            return Ok(second);
        }
        let sight = self.read(path, met, second.sight)?;
        let third = self.by_sight(entry, path, sight)?;
        third.with_id(self.alloc, &self.filter)
    }

    /// Calls `lstat` for the directories above a path and for the path, and returns the node that was met there. If that is a
    /// directory at a submodule's entry, asks for the submodule's status.
    ///
    /// # Errors
    /// Out of memory.
    fn ask(
        &mut self,
        entry: &'index Entry,
        path: BStr<'index>,
        mut sight: Sight,
    ) -> Result<(Sight, Option<Metadata>), AllocError>
        ensures met { IfOk result (λ x. IfSome x.1 (IsMet (W.may_stat self.old.worktree.worktree.now) self.old.worktree.fscache (bstr_bytes path.entry))) }
        ensures allowed { let p = bstr_bytes path.entry in let may = IsSightAllowed (W.may_stat self.old.worktree.worktree.now) (W.may_open self.old.worktree.worktree.now p)
            (W.may_link self.old.worktree.worktree.now p) (S.may_report self.old.submodules (entry_at p entry.now)) in may sight → IfOk result (λ x. may x.0) }
        ensures only { self.new ≡ record self.old { submodules = self.new.submodules } }
        ensures within { (e : IndexEntry) (report : Result (Option S.Output) (List ℕ)) → S.may_report self.new.submodules e report → S.may_report self.old.submodules e report }
    {
        let met = ask_along(self.alloc, self.worktree, path.as_bytes(), &mut sight.calls)?;
        if !entry.mode.is_submodule() {
            return Ok((sight, met));
        }
        if !is_directory(met) {
            return Ok((sight, met));
        }
        let report = ask_submodule(&mut self.submodules, entry, path)?;
        sight.submodule = Some(report);
        Ok((sight, met))
    }

    /// Reads the link or the file that was met at a path. Nothing else is opened.
    ///
    /// # Errors
    /// Out of memory.
    fn read(
        &self,
        path: BStr<'_>,
        met: Option<Metadata>,
        mut sight: Sight,
    ) -> Result<Sight, AllocError>
        requires { IfSome met (IsMet (W.may_stat self.now.worktree.worktree.now) self.now.worktree.fscache (bstr_bytes path)) }
        ensures { IfOk result (IsReadFurther (W.may_open self.now.worktree.worktree.now (bstr_bytes path.entry)) (W.may_link self.now.worktree.worktree.now (bstr_bytes path.entry)) sight) }
    {
        let Some(node) = met else {
            return Ok(sight);
        };
        match node.kind {
            NodeKind::Link => {
                let target = read_link(self.alloc, self.worktree, path, &node)?;
                sight.link = Some(target);
                Ok(sight)
            }
            NodeKind::File => {
                let file = read_file(self.alloc, self.worktree, path, &node)?;
                sight.file = Some(file);
                Ok(sight)
            }
            NodeKind::Directory | NodeKind::Other => Ok(sight),
        }
    }

    /// Returns the status of a path by its sight.
    ///
    /// # Errors
    /// Out of memory.
    fn by_sight(
        &self,
        entry: &'index Entry,
        path: BStr<'index>,
        sight: Sight,
    ) -> Result<Explained<'index>, AllocError>
        ensures status { IfOk result (IsStatusBySight (settings self.now.options self.now.index.now) self.now.filter self.now.index.now) }
        ensures whole { IfOk result (λ x. IsWhole x.answer) }
        ensures sight { IfOk result (λ x. x.sight ≡ sight) }
        ensures entry { IfOk result (λ x. (x.entry.now ≡ entry.now) × (bstr_bytes x.path ≡ bstr_bytes path.entry)) }
    {
        let mut recorder = Recorder::new(self.alloc);
        let answer = self.status_by(path, &sight, &mut recorder)?;
        Ok(Explained {
            path,
            entry,
            sight,
            recorder,
            answer,
            id: None,
        })
    }

    /// Returns the conversions of files.
    fn filter(&self) -> CleanFilter<'b, 'files, 'index>
        ensures { result ≡ self.now.filter }
    {
        CleanFilter {
            attributes: self.filter.attributes,
            configured: self.filter.configured,
            index: self.filter.index,
            kind: self.filter.kind,
        }
    }

    /// Computes the status of the entries of one path by its sight.
    ///
    /// # Errors
    /// Out of memory.
    fn status_by(
        &self,
        path: BStr<'_>,
        sight: &Sight,
        recorder: &mut Recorder<'index, (), ()>,
    ) -> Result<Result<Outcome, Error>, AllocError>
        ensures whole { IfOk result IsWhole }
        ensures status { IfOk result (λ answer. IsStatusReport (by_sight (settings self.now.options self.now.index.now) self.now.filter (bstr_bytes path.entry) sight.now)
            self.now.index.now (visits_of recorder.old) answer (visits_of recorder.new)) }
    {
        let context = Context {
            pathspec: OnlyPath {
                path: path.as_bytes(),
            },
            filter: self.filter(),
            lister: NoLister,
            should_interrupt: None,
        };
        let options = Options {
            fs: self.options.fs,
            thread_limit: Some(1),
            stat: self.options.stat,
            fscache: false,
            chunk_size: 0,
        };
        let answer = index_as_worktree_without_threads(
            self.alloc,
            self.index,
            &RecordedWorktree { sight },
            recorder,
            FastEq,
            RecordedSubmodule {
                alloc: self.alloc,
                sight,
            },
            MemoryObjects::new(self.alloc),
            context,
            options,
        );
        match answer {
            Err(Error::Memory) => Err(AllocError),
            answer => Ok(answer),
        }
    }
}

/// Returns whether a directory was met.
fn is_directory(met: Option<Metadata>) -> bool {
    matches!(met, Some(node) if node.kind == NodeKind::Directory)
}
