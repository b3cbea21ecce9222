//! The findings next to a status: staged changes, and the nodes of the worktree that the index doesn't have.

ghost use Rattle.std.specs.Prelude.{◌≡◌, ◌++◌, IfErr, IfOk, OnOk, map};
ghost use Rattle.status_index.specs.States.{index_of};
ghost use Rattle.git_staged.specs.Staged.{staged_view};
ghost use Rattle.git_untracked.specs.Lines.{lines_view, paths_of};
ghost use Rattle.git_status.specs.Besides.{beside_view, is_anything, may_find_both, other_row, other_rows};
ghost use Rattle.git_status.specs.Lines.{row_lines};
ghost use Rattle.git_status.specs.Runs.{IsUnfound};

use crate::columns::push_own;
use crate::failure::Failure;
use crate::lines::LineStyle;
use bstr::BStr;
use git_staged::{FindStaged, Staged};
use git_untracked::{FindUntracked, Lines};
use status_index::State;
use std::alloc::{AllocError, Global};
use std::sync::Wait;
use std::thread::{Threads, join};

/// The findings next to a status.
#[derive(Debug, Drop)]
pub struct Beside {
    /// The staged changes, in the order of paths.
    pub staged: Vec<Staged>,
    /// The nodes that the index doesn't have.
    pub others: Lines,
}

/// Finds staged changes and untracked nodes, next to a status. Each part may be found in a thread of its own.
pub trait FindBeside {
    ghost use Rattle.std.specs.Prelude.{IfErr, IfOk, map};
    ghost use Rattle.status_index.specs.States.{index_of};
    ghost use Rattle.git_staged.specs.Staged.{MayStage, staged_view};
    ghost use Rattle.git_untracked.specs.Lines.{lines_view};
    ghost use Rattle.git_untracked.specs.Untracked.{MayFind};
    ghost use Rattle.git_status.specs.Runs.{IsUnfound};

    /// Which staged changes may be found.
    ghost may_stage: { Self → MayStage };

    /// Which nodes that the index doesn't have may be found.
    ghost may_find: { Self → MayFind };

    /// Returns the staged changes of an index, in the order of paths.
    ///
    /// # Errors
    /// The commit's files can't be read, or out of memory.
    fn find_changes(&self, alloc: Global, index: &State) -> Result<Vec<Staged>, Failure>
        ensures found { IfOk result (λ found. may_stage self.now (index_of index.now) (map staged_view found.items)) }
        ensures unfound { IfErr result IsUnfound };

    /// Returns the nodes that an index doesn't have.
    ///
    /// # Errors
    /// A folder of the worktree can't be read, or out of memory.
    fn find_others(&self, alloc: Global, index: &State) -> Result<Lines, Failure>
        ensures found { IfOk result (λ lines. may_find self.now (index_of index.now) (lines_view lines)) }
        ensures unfound { IfErr result IsUnfound };
}

/// A search for staged changes, and one for the nodes that the index doesn't have.
#[derive(Clone, Copy)]
pub struct Searches<'a, H, U> {
    /// Finds the staged changes.
    pub head: &'a H,
    /// Finds the nodes that the index doesn't have.
    pub untracked: &'a U,
}

impl<H: FindStaged, U: FindUntracked> FindBeside for Searches<'_, H, U> {
    ghost may_stage = { λ s. H.may_stage s.head.now };

    ghost may_find = { λ s. U.may_find s.untracked.now };

    fn find_changes(&self, alloc: Global, index: &State) -> Result<Vec<Staged>, Failure> {
        match self.head.find_staged(alloc, index) {
            Ok(staged) => Ok(staged),
            Err(fault) => Err(Failure::of_head(fault)),
        }
    }

    fn find_others(&self, alloc: Global, index: &State) -> Result<Lines, Failure> {
        match self.untracked.find_untracked(alloc, index) {
            Ok(lines) => Ok(lines),
            Err(fault) => Err(Failure::of_folders(fault)),
        }
    }
}

/// Returns the findings next to the status of an index. `alone` is whether no thread may be started.
///
/// # Errors
/// The commit's files or a folder of the worktree can't be read, or out of memory.
pub(crate) fn find_beside<R: AllocGlobal + Threads + Wait, B: FindBeside + Sync>(
    rt: &R,
    beside: &B,
    index: &State,
    alone: bool,
) -> Result<Beside, Failure>
    ensures found { IfOk result (λ found. may_find_both (B.may_stage beside.now) (B.may_find beside.now) (index_of index.now) (beside_view found)) }
    ensures unfound { IfErr result IsUnfound }
{
    if alone {
        return find_in_turn(rt.alloc(), beside, index);
    }
    find_at_once(rt, beside, index)
}

/// Finds the staged changes, and then the nodes that the index doesn't have.
///
/// # Errors
/// Those of `find_beside`.
fn find_in_turn<B: FindBeside>(alloc: Global, beside: &B, index: &State) -> Result<Beside, Failure>
    ensures found { IfOk result (λ found. may_find_both (B.may_stage beside.now) (B.may_find beside.now) (index_of index.now) (beside_view found)) }
    ensures unfound { IfErr result IsUnfound }
{
    let staged = beside.find_changes(alloc, index)?;
    let others = beside.find_others(alloc, index)?;
    Ok(Beside { staged, others })
}

/// Finds the staged changes, and in another thread the nodes that the index doesn't have.
///
/// # Errors
/// Those of `find_beside`.
fn find_at_once<R: AllocGlobal + Threads + Wait, B: FindBeside + Sync>(
    rt: &R,
    beside: &B,
    index: &State,
) -> Result<Beside, Failure>
    ensures found { IfOk result (λ found. may_find_both (B.may_stage beside.now) (B.may_find beside.now) (index_of index.now) (beside_view found)) }
    ensures unfound { IfErr result IsUnfound }
{
    let alloc = rt.alloc();
    let (staged, others) = join(
        rt,
        move || -> Result<Vec<Staged>, Failure>
            ensures found { IfOk result (λ found. B.may_stage beside.entry.now (index_of index.entry.now) (map staged_view found.items)) }
            ensures unfound { IfErr result IsUnfound }
        { beside.find_changes(alloc, index) },
        move || -> Result<Lines, Failure>
            ensures found { IfOk result (λ lines. B.may_find beside.entry.now (index_of index.entry.now) (lines_view lines)) }
            ensures unfound { IfErr result IsUnfound }
        { beside.find_others(alloc, index) },
    );
    let staged = staged?;
    let others = others?;
    Ok(Beside { staged, others })
}

impl Beside {
    /// Returns whether something is staged or a node is untracked.
    pub(crate) fn is_anything(&self) -> bool
        ensures { result ≡ is_anything (beside_view self.now) }
    {
        !self.staged.is_empty() || !self.others.untracked.is_empty()
    }
}

/// Appends the lines of the nodes that an index doesn't have: the untracked ones, and then the ignored ones.
///
/// # Errors
/// Out of memory.
#[tactic(auto, using(crate::proofs::Besides::lines_more))]
pub(crate) fn push_others(
    lines: &mut Vec<u8>,
    style: LineStyle,
    others: &Lines,
) -> Result<(), AllocError>
    ensures { OnOk result (lines.new.items ≡ lines.old.items ++ row_lines style (other_rows (lines_view others.now))) }
{
    push_paths(lines, style, "??", &others.untracked)?;
    push_paths(lines, style, "!!", &others.ignored)
}

/// Appends a line with these letters for each path.
fn push_paths(
    lines: &mut Vec<u8>,
    style: LineStyle,
    letters: &str,
    paths: &[Vec<u8>],
) -> Result<(), AllocError>
    ensures { OnOk result (lines.new.items ≡ lines.old.items ++ row_lines style (map (other_row letters.now) (paths_of paths.now))) }
{
    for path in paths {
        push_own(lines, style, BStr::new(path), letters)?;
    }
    Ok(())
}
