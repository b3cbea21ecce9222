//! The question that the command is asked: an index file's kind and time, a worktree, and how they are compared.

ghost use Rattle.std.specs.FinMap as ids;
ghost use Rattle.status_index.specs.States.{index_of};
ghost use Rattle.git_attributes.specs.WorktreeFiles.{AreFilesSeen, AreFilesWith, folders_of};
ghost use Rattle.git_status.specs.Besides.{may_find_both};
ghost use Rattle.git_status.specs.Inputs.{asked_inputs};
ghost use Rattle.git_status.specs.Runs.{Asking};

use crate::beside::FindBeside;
use crate::lines::LineStyle;
use crate::status::Compared;
use git_attributes::{AttributeFiles, Configured};
use status_base::worktree::{
    Find, Lister, MemoryObjects, NoLister, Pathspec, SubmoduleStatus, Worktree,
};
use status_call::index_as_worktree::Options;
use status_call::index_as_worktree::inputs::Ask;
use status_index::{HashKind, Moment};

/// How an index file is read, and how the differences are found and printed.
#[derive(Debug, Drop)]
pub struct Settings {
    /// The kind of the repository's ids.
    pub kind: HashKind,
    /// When the index file was last changed.
    pub timestamp: Moment,
    /// How entries are compared with the worktree, and by how many threads.
    pub options: Options,
    /// The conversions of the repository's configuration.
    pub conversions: Configured,
    /// How lines are printed. With `None` no line is printed, and the first entry that differs ends the comparison of files.
    pub lines: Option<LineStyle>,
    /// Whether lines on standard error name the files with other contents that git converts, and the status doesn't.
    pub notes: bool,
    /// Whether a line on standard error has the counts of the status.
    pub stats: bool,
}

/// The request of a command: a worktree and a commit, which parts of it are compared with an index, and the settings.
#[derive(Drop)]
pub struct Asked<'a, W, S, P, A, B> {
    /// The settings.
    pub settings: Settings,
    /// The worktree.
    pub worktree: &'a W,
    /// The submodules.
    pub submodules: S,
    /// The paths that are compared.
    pub paths: P,
    /// The attribute files that aren't in the worktree, which say how git converts files too.
    pub attributes: A,
    /// Finds staged changes and untracked nodes, next to the status.
    pub beside: &'a B,
}

/// The question of a status, of any types.
pub trait Question {
    /// A submodule's report of a change.
    type Submodule;

    /// How the worktree is compared after line ends are converted, which attribute files may be found, what may be found next to
    /// the status, and the settings.
    ghost asking: { Self → Asking (Unit {0}) Self.Submodule };
}

impl<'a, W: Worktree, S: SubmoduleStatus, P: Pathspec, A: AttributeFiles, B: FindBeside> Question
    for Asked<'a, W, S, P, A, B> {
    type Submodule = S::Output;

    ghost asking = { λ asked. record {
      query = λ filter. ⟦<Compared<'a, 'a, 'a, 'a, W, S, P> as Ask>⟧.query (asked_inputs asked filter);
      may_find = may_find_both (B.may_stage asked.beside.now) (B.may_find asked.beside.now);
      are_files = λ index. AreFilesWith (AreFilesSeen (W.may_stat asked.worktree.now) (W.may_open asked.worktree.now) (folders_of (index_of index))) (A.are_files asked.attributes (index_of index));
      may_return = record {
        stat = W.may_stat asked.worktree.now;
        opened = λ path _. W.may_open asked.worktree.now path;
        linked = λ path _. W.may_link asked.worktree.now path;
        listed = ⟦<NoLister as Lister>⟧.may_list (record {});
        found = ⟦<MemoryObjects as Find>⟧.may_find ids.empty;
        reported = S.may_report asked.submodules;
      };
      settings = asked.settings;
    } };
}
