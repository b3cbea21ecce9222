//! The call that finds the nodes of a worktree that an index doesn't have.

ghost use Rattle.std.specs.Prelude.{◌≡◌, IfOk};
ghost use Rattle.git_ignore.specs.Views.{rules_view};
ghost use Rattle.git_untracked.specs.Untracked.{outer_rules};

use crate::folders::{FolderFault, Folders};
use crate::lines::Lines;
use crate::request::Request;
use crate::selection::Selection;
use crate::walk::{MOST_FOLDERS, Within, walk_folder};
use git_ignore::IgnoreRules;
use status_index::State;
use std::alloc::{AllocError, Global};

/// Finds the nodes of a worktree that an index doesn't have.
pub trait FindUntracked {
    ghost use Rattle.std.specs.Prelude.{IfOk, List};
    ghost use Rattle.status_index.specs.Entries.{IndexEntry};
    ghost use Rattle.status_index.specs.States.{index_of};
    ghost use Rattle.git_untracked.specs.Lines.{Lines as ViewOfLines, lines_view};

    /// Which lines may be found for these entries.
    ghost may_find: { Self → List IndexEntry → ViewOfLines → Type 0 };

    /// Returns the lines of the nodes, each once, in the order of their bytes.
    ///
    /// # Errors
    /// The worktree refuses a question, more than 1,024 of its folders are within each other, or out of memory.
    fn find_untracked(&self, alloc: Global, index: &State) -> Result<Lines, FolderFault>
        ensures { IfOk result (λ lines. may_find self.now (index_of index.now) (lines_view lines)) };
}

/// If untracked nodes aren't wanted, there are no lines.
impl<U: FindUntracked> FindUntracked for Option<U> {
    ghost use Rattle.git_untracked.specs.Untracked.{may_find_wanted};

    ghost may_find = { λ wanted. may_find_wanted U.may_find wanted };

    fn find_untracked(&self, alloc: Global, index: &State) -> Result<Lines, FolderFault> {
        match self {
            Some(untracked) => untracked.find_untracked(alloc, index),
            None => Ok(Lines::new(alloc)),
        }
    }
}

/// The untracked nodes of a worktree, as git finds them.
#[derive(Clone, Copy)]
pub struct Untracked<'a, F, P> {
    /// The worktree.
    pub folders: &'a F,
    /// The selected paths.
    pub paths: P,
    /// The bytes of the ignore files whose rules are for the whole worktree, the weakest one first.
    pub outer: &'a [Vec<u8>],
    /// Whether each file of an untracked folder has a line, and not the folder.
    pub all: bool,
    /// Whether ignored nodes have lines too.
    pub ignored: bool,
}

impl<F: Folders, P: Selection> FindUntracked for Untracked<'_, F, P> {
    ghost use Rattle.git_untracked.specs.Untracked.{outer_rules};
    ghost use Rattle.git_untracked.specs.Walks.{AreUntracked};

    ghost may_find = { λ u es. AreUntracked (record {
      index = es;
      all = u.all;
      ignored = u.ignored;
      selects = P.selects u.paths;
      reaches = P.reaches u.paths;
      leads = P.leads u.paths;
      may_list = F.may_list u.folders.now;
      may_be = F.may_be u.folders.now;
      may_ignore = F.may_ignore u.folders.now;
      may_nest = F.may_nest u.folders.now;
    }) (outer_rules u.outer.now) };

    fn find_untracked(&self, alloc: Global, index: &State) -> Result<Lines, FolderFault> {
        let request = Request {
            alloc,
            folders: self.folders,
            paths: &self.paths,
            index,
            all: self.all,
            ignored: self.ignored,
        };
        let within = Within {
            is_excluded: false,
            is_one_enough: false,
        };
        let mut path = Vec::new(alloc);
        let mut rules = rules_of_all(alloc, self.outer)?;
        let mut lines = Lines::new(alloc);
        walk_folder(
            &request,
            MOST_FOLDERS + 1,
            within,
            &mut path,
            &mut rules,
            &mut lines,
        )?;
        Ok(lines.in_order()?)
    }
}

/// Returns the rules of files that are for the whole worktree.
///
/// # Errors
/// Out of memory.
fn rules_of_all(alloc: Global, files: &[Vec<u8>]) -> Result<IgnoreRules, AllocError>
    ensures { IfOk result (λ rules. rules_view rules ≡ outer_rules files.now) }
{
    let mut rules = IgnoreRules::new(alloc);
    let mut rest = files;
    'files: while let [file, after @ ..] = rest {
        rules.read(alloc, b"", file)?;
        rest = after;
    }
    Ok(rules)
}
