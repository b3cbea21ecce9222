//! The search for attribute files, which threads share.

ghost use Rattle.std.specs.Prelude.{◌≡◌, ◌++◌, ⊤, IfOk, List, map, ℕ};
ghost use Rattle.status_index.specs.Entries.{index_entries};
ghost use Rattle.status_index.specs.States.{backing_of, index_of};
ghost use Rattle.status_index.specs.declared.entry.Entry.{Entry as StoredEntry};
ghost use Rattle.git_attributes.specs.Files.{File};
ghost use Rattle.git_attributes.specs.Views.{file_view};
ghost use Rattle.git_attributes.specs.WorktreeFiles.{AreFilesSeen, folders_after, folders_of, last_path};

use crate::files::{AttributeFile, append};
use crate::worktree_files::FolderSearch;
use status_base::worktree::Worktree;
use status_index::Entry;
use std::alloc::AllocError;
use std::sync::Wait;
use std::thread::{Threads, join};

/// Returns the attribute files within a worktree, in the order of their folders' paths. If the search is shared, each of four
/// threads searches for a quarter of the entries. One of them is the caller's own, which takes the part of a thread that can't
/// be started.
///
/// # Errors
/// Out of memory.
pub fn find_attribute_files<R: Sync + Threads + Wait, W: Worktree + Sync>(
    rt: &R,
    search: &FolderSearch<'_, W>,
    shares: bool,
) -> Result<Vec<AttributeFile>, AllocError>
where
    W::File: Send,
    ensures { IfOk result (λ files. AreFilesSeen (W.may_stat search.now.worktree.worktree.now) (W.may_open search.now.worktree.worktree.now)
        (folders_of (index_of search.now.index.now)) (map file_view files.items)) }
{
    if !shares {
        return search.find();
    }
    let top = search.top()?;
    append(top, quarters(rt, search, b"", search.index().entries())?)
}

/// A search of the folders of some entries, for another part of the entries each time.
pub trait FindInPart {
    /// Which files may be found for some entries, after the path before them.
    ghost finds: { Self → List ℕ → List StoredEntry → List File → Type 0 };

    /// The path before the entries that follow some entries.
    ghost last: { Self → List ℕ → List StoredEntry → List ℕ };

    /// The files of two parts in a row are those of both.
    ghost both: { (search : Self) (before : List ℕ) (front back : List StoredEntry) (one other : List File)
        → finds search before front one → finds search (last search before front) back other → finds search before (front ++ back) (one ++ other) };

    /// Returns the files of the folders on the way to the paths of these entries that aren't on the way to the path before them.
    ///
    /// # Errors
    /// Out of memory.
    fn find_in(&self, before: &[u8], part: &[Entry]) -> Result<Vec<AttributeFile>, AllocError>
        ensures { IfOk result (λ files. finds self.now before.now part.now (map file_view files.items)) };

    /// Returns the path of the last of these entries, or the path before them if there is none.
    fn last_path<'s>(&'s self, before: &'s [u8], part: &'s [Entry]) -> &'s [u8]
        ensures { result.now ≡ last self.now before.now part.now };
}

impl<W: Worktree> FindInPart for FolderSearch<'_, W> {
    ghost use Rattle.git_attributes.specs.SharedLaws.{parts_seen};

    ghost finds = { λ search before part. AreFilesSeen (W.may_stat search.worktree.worktree.now) (W.may_open search.worktree.worktree.now)
        (folders_after before (index_entries (backing_of search.index.now) part)) };

    ghost last = { λ search before part. last_path before (index_entries (backing_of search.index.now) part) };

    ghost both = { λ search before front back one other some others. parts_seen (W.may_stat search.worktree.worktree.now) (W.may_open search.worktree.worktree.now)
        (backing_of search.index.now) before front back one other some others };

    fn find_in(&self, before: &[u8], part: &[Entry]) -> Result<Vec<AttributeFile>, AllocError> {
        self.files(before, part)
    }

    fn last_path<'s>(&'s self, before: &'s [u8], part: &'s [Entry]) -> &'s [u8] {
        match part.last() {
            Some(entry) => entry.path_in(self.index().path_backing()).as_bytes(),
            None => before,
        }
    }
}

/// Does what `FindInPart::find_in` does, each half in a thread of its own.
fn halves<R: Threads + Wait, S: FindInPart + Sync>(
    rt: &R,
    search: &S,
    before: &[u8],
    part: &[Entry],
) -> Result<Vec<AttributeFile>, AllocError>
    ensures { IfOk result (λ files. S.finds search.now before.now part.now (map file_view files.items)) }
{
    let (front, back) = part.split_at(part.len() / 2);
    let last = search.last_path(before, front);
    let (one, other) = join(
        rt,
        // A clause of its own brings the bounds of this function into the closure.
        move ||
            requires { ⊤ }
        { search.find_in(before, front) },
        move ||
            requires { ⊤ }
        { search.find_in(last, back) },
    );
    append(one?, other?)
}

/// Does what `halves` does, with two threads for each half.
fn quarters<R: Sync + Threads + Wait, S: FindInPart + Sync>(
    rt: &R,
    search: &S,
    before: &[u8],
    part: &[Entry],
) -> Result<Vec<AttributeFile>, AllocError>
    ensures { IfOk result (λ files. S.finds search.now before.now part.now (map file_view files.items)) }
{
    let (front, back) = part.split_at(part.len() / 2);
    let last = search.last_path(before, front);
    let (one, other) = join(
        rt,
        move ||
            requires { ⊤ }
        { halves(rt, search, before, front) },
        move ||
            requires { ⊤ }
        { halves(rt, search, last, back) },
    );
    append(one?, other?)
}
