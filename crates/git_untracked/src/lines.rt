//! The lines of the nodes that an index doesn't have.

ghost use Rattle.std.specs.Prelude.{◌≡◌, not, IfOk, OnOk};
ghost use Rattle.std.specs.Cmp.Lexicographic.{slice_cmp};
ghost use Rattle.std.specs.List.{dedup};
ghost use Rattle.std.specs.List.Sorted.{IsPermutation, IsSortedByKey};
ghost use Rattle.std.specs.Ordering.{nat_cmp};
ghost use Rattle.std.specs.Str.{bytes_eq};
ghost use Rattle.git_untracked.specs.Lines.{AreInOrder, IsEnd, IsListOf, Lines as ViewOfLines, and_lines, collapsed, is_none_of, line_of, lines_view, no_lines, own_line, paths_of};

use std::alloc::{AllocError, Global};

/// The nodes that an index doesn't have, by their paths from the worktree's top. The path of a folder ends in a slash: it is
/// that of a nested repository, or replaces those of what is in it.
#[derive(Debug, Drop)]
pub struct Lines {
    /// The untracked ones.
    pub untracked: Vec<Vec<u8>>,
    /// Those that ignore rules exclude.
    pub ignored: Vec<Vec<u8>>,
}

/// The end of lines, before others are added.
#[derive(Clone, Copy)]
pub(crate) struct End {
    untracked: usize,
    ignored: usize,
}

impl Lines {
    /// Returns no lines.
    pub fn new(alloc: Global) -> Lines
        ensures { lines_view result ≡ no_lines }
    {
        Lines {
            untracked: Vec::new(alloc),
            ignored: Vec::new(alloc),
        }
    }

    /// Returns whether there is none.
    pub fn is_empty(&self) -> bool
        ensures { result ≡ is_none_of (lines_view self.now) }
    {
        self.untracked.is_empty() && self.ignored.is_empty()
    }

    /// Returns the end of the lines.
    pub(crate) fn end(&self) -> End
        ensures { IsEnd (lines_view self.now) result }
    {
        End {
            untracked: self.untracked.len(),
            ignored: self.ignored.len(),
        }
    }

    /// Returns whether lines were added after an end.
    pub(crate) fn go_on(&self, end: End) -> bool
        ensures { (before more : ViewOfLines) → lines_view self.now ≡ and_lines before more → IsEnd before end → result ≡ not (is_none_of more) }
    {
        self.untracked.len() > end.untracked || self.ignored.len() > end.ignored
    }

    /// Adds the line of a node.
    ///
    /// # Errors
    /// Out of memory.
    pub(crate) fn add(
        &mut self,
        alloc: Global,
        is_ignored: bool,
        path: &[u8],
    ) -> Result<(), AllocError>
        ensures { OnOk result (lines_view self.new ≡ and_lines (lines_view self.old) (line_of is_ignored path.now)) }
    {
        let path = Vec::from_slice(alloc, path)?;
        if is_ignored {
            self.ignored.push(path)?;
        } else {
            self.untracked.push(path)?;
        }
        Ok(())
    }

    /// Adds the line of a folder, which it has unless an entry has its path.
    ///
    /// # Errors
    /// Out of memory.
    pub(crate) fn add_folder(
        &mut self,
        alloc: Global,
        has_entry: bool,
        folder: &[u8],
        is_ignored: bool,
    ) -> Result<(), AllocError>
        ensures { OnOk result (lines_view self.new ≡ and_lines (lines_view self.old) (own_line has_entry folder.now is_ignored)) }
    {
        if has_entry {
            return Ok(());
        }
        self.add(alloc, is_ignored, folder)
    }

    /// Puts the line of a folder in place of the lines after an end.
    ///
    /// # Errors
    /// Out of memory.
    pub(crate) fn collapse(
        &mut self,
        alloc: Global,
        end: End,
        has_entry: bool,
        folder: &[u8],
    ) -> Result<(), AllocError>
        ensures { (before inner : ViewOfLines) → lines_view self.old ≡ and_lines before inner → IsEnd before end
            → OnOk result (lines_view self.new ≡ and_lines before (collapsed (own_line has_entry folder.now) inner)) }
    {
        if self.untracked.len() > end.untracked {
            self.untracked.truncate(end.untracked);
            self.add_folder(alloc, has_entry, folder, false)
        } else if self.ignored.len() > end.ignored {
            self.ignored.truncate(end.ignored);
            self.add_folder(alloc, has_entry, folder, true)
        } else {
            Ok(())
        }
    }

    /// Returns each line once, in order.
    ///
    /// # Errors
    /// Out of memory.
    pub(crate) fn in_order(self) -> Result<Lines, AllocError>
        ensures { IfOk result (λ lines. IsListOf (lines_view self) (lines_view lines)) }
    {
        Ok(Lines {
            untracked: in_order(self.untracked)?,
            ignored: in_order(self.ignored)?,
        })
    }
}

/// Returns each path once, in the order of their bytes.
///
/// # Errors
/// Out of memory.
fn in_order(mut paths: Vec<Vec<u8>>) -> Result<Vec<Vec<u8>>, AllocError>
    ensures { IfOk result (λ sorted. AreInOrder (paths_of paths.items) (paths_of sorted.items)) }
{
    sort(&mut paths)?;
    remove_repeated(&mut paths);
    Ok(paths)
}

/// Sorts paths by their bytes.
///
/// # Errors
/// Out of memory.
fn sort(paths: &mut Vec<Vec<u8>>) -> Result<(), AllocError>
    ensures bag { IsPermutation paths.old.items paths.new.items }
    ensures order { OnOk result (IsSortedByKey (λ path. path.items) (slice_cmp nat_cmp) paths.new.items) }
{
    paths.sort_by(|one, other| one.as_slice().cmp(other.as_slice()))
}

/// Removes the paths that are those before them.
fn remove_repeated(paths: &mut Vec<Vec<u8>>)
    ensures { paths_of paths.new.items ≡ dedup bytes_eq (paths_of paths.old.items) }
{
    paths.dedup();
}
