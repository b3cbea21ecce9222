//! The interfaces and settings that a caller passes, and the query that they specify.

ghost use Rattle.std.specs.Prelude.{◌≡◌, IfOk};
ghost use Rattle.status_base.specs.ListedNodes.{known_node};
ghost use Rattle.status_base.specs.Looked.{guarded};
ghost use Rattle.status_call.specs.Inputs.{inputs_of, settings};
ghost use Rattle.status_call.specs.Modelled.{all_modelled, are_modelled};
ghost use Rattle.status_call.specs.MayReturn.{MayReturn, ReturnsWithin};
ghost use Rattle.status_call.specs.Query.{Query};
ghost use Rattle.status_call.specs.declared.index_as_worktree.inputs.Settings.{Settings as StatusSettings};

use crate::index_as_worktree::types::{Capabilities, Context, Options};
use status_base::worktree::{
    Find, Guard, GuardedWorktree, Lister, MemoryObjects, NoFilter, NoLister, NoSubmodules,
    Pathspec, SubmoduleStatus, ToGit, Worktree,
};
use status_compare::CompareBlobs;
use status_index::{Moment, State, stat};
use std::alloc::AllocError;

/// The settings that a status depends on besides the interfaces: a part of the options, and the index's timestamp.
#[derive(Clone, Copy, Debug)]
pub struct Settings {
    /// The time at which the index was written.
    pub timestamp: Moment,
    /// Which parts of stats have to be equal.
    pub stat: stat::Options,
    /// The properties of files that the file system keeps.
    pub fs: Capabilities,
    /// Whether listings of directories are used before `lstat`.
    pub fscache: bool,
}

impl Settings {
    /// Returns the settings of these options and this index.
    pub fn of(options: &Options, index: &State) -> Settings
        ensures { result ≡ settings options.now index.now }
    {
        Settings {
            timestamp: index.timestamp(),
            stat: options.stat,
            fs: options.fs,
            fscache: options.fscache,
        }
    }
}

/// The worktree and the interfaces that a caller passes.
#[derive(Drop)]
pub struct Inputs<G, C, S, O, P, T, L> {
    /// The worktree. Files are opened and links are read only after `lstat`.
    pub worktree: G,
    /// Compares a file with a blob.
    pub compare: C,
    /// Has the status of submodules.
    pub submodule: S,
    /// Has the blobs.
    pub objects: O,
    /// Decides which paths are included.
    pub pathspec: P,
    /// Converts a file to what git would store.
    pub filter: T,
    /// Lists directories, if the settings have `fscache`.
    pub lister: L,
}

impl<'w, W: Worktree, C, S, O, P, T, L> Inputs<GuardedWorktree<'w, W>, C, S, O, P, T, L> {
    /// Returns the inputs that a call gets, with a guard before the worktree.
    pub(crate) fn of(
        worktree: &'w W,
        fscache: bool,
        compare: C,
        submodule: S,
        objects: O,
        context: Context<'_, P, T, L>,
    ) -> Inputs<GuardedWorktree<'w, W>, C, S, O, P, T, L>
        ensures { result ≡ record (inputs_of worktree.entry compare submodule objects context.entry) { worktree = guarded worktree.entry fscache } }
    {
        let Context {
            pathspec,
            filter,
            lister,
            should_interrupt: _,
        } = context;
        Inputs {
            worktree: GuardedWorktree::new(worktree, fscache),
            compare,
            submodule,
            objects,
            pathspec,
            filter,
            lister,
        }
    }
}

/// A worktree, a comparer and a pathspec, with the usual interfaces.
pub type UsualInputs<'w, W, C, P> = Inputs<
    GuardedWorktree<'w, W>,
    C,
    NoSubmodules,
    MemoryObjects,
    P,
    NoFilter,
    NoLister,
>;

/// The inputs of a status, of any types.
pub trait Ask {
    /// The comparer's report of a change.
    type Content;
    /// The submodule's report of a change.
    type Submodule;

    /// All that a status with these settings depends on.
    ghost query: { Self → StatusSettings → Query Self.Content Self.Submodule };

    /// Which results the interfaces may return, whether they are modelled or not.
    ghost may_return: { Self → MayReturn Self.Submodule };

    /// Returns clones of these inputs, for another worker.
    ///
    /// # Errors
    /// Out of memory.
    fn another(&self) -> Result<Self, AllocError>
        ensures { IfOk result (λ other. query other ≡ query self.now) };
}

impl<
    G: Guard + Copy,
    C: CompareBlobs,
    S: SubmoduleStatus,
    O: Find,
    P: Pathspec,
    T: ToGit,
    L: Lister,
> Ask for Inputs<G, C, S, O, P, T, L> {
    type Content = C::Output;

    type Submodule = S::Output;

    ghost query = { λ i settings. record {
      modelled = all_modelled (G.modelled i.worktree) (O.modelled i.objects)
          (S.modelled i.submodule)
          (are_modelled settings.fscache (L.modelled i.lister));
      stat_options = settings.stat;
      symlink = settings.fs.symlink;
      executable_bit = settings.fs.executable_bit;
      timestamp = settings.timestamp;
      lstat = λ _. G.lstat_of i.worktree;
      opened = λ e. G.open_of i.worktree e.path;
      linked = λ e. G.target_of i.worktree e.path;
      cached = λ e. known_node settings.fscache (L.listing i.lister) e.path;
      prefix = P.prefix i.pathspec;
      included = P.included i.pathspec;
      conversion = λ content path. T.conversion i.filter content path;
      blob = λ e. O.found i.objects e.id;
      submodule = S.status_of i.submodule;
      compared = C.answer i.compare;
      counted = C.counts_after i.compare;
    } };

    ghost may_return = { λ i. record {
      stat = G.may_stat i.worktree;
      opened = G.may_open i.worktree;
      linked = G.may_link i.worktree;
      listed = L.may_list i.lister;
      found = O.may_find i.objects;
      reported = S.may_report i.submodule;
    } };

    fn another(&self) -> Result<Inputs<G, C, S, O, P, T, L>, AllocError>
        ensures same { IfOk result (λ other. ⟦<Inputs<G, C, S, O, P, T, L> as Ask>⟧.query other
            ≡ ⟦<Inputs<G, C, S, O, P, T, L> as Ask>⟧.query self.now) }
        ensures within { IfOk result (λ other. ReturnsWithin
            (⟦<Inputs<G, C, S, O, P, T, L> as Ask>⟧.may_return other)
            (⟦<Inputs<G, C, S, O, P, T, L> as Ask>⟧.may_return self.now)) }
        ensures worktree { IfOk result (λ other. other.worktree ≡ self.now.worktree) }
    {
        Ok(Inputs {
            worktree: self.worktree,
            compare: self.compare.clone()?,
            submodule: self.submodule.clone()?,
            objects: self.objects.clone()?,
            pathspec: self.pathspec.clone()?,
            filter: self.filter.clone()?,
            lister: self.lister.clone()?,
        })
    }
}
