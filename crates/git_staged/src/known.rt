//! The folders of an index whose trees are known by their ids, without a tree that is read.

ghost use Rattle.std.specs.Prelude.{◌≡◌, ◌++◌, IfSome, OnOk, map};
ghost use Rattle.std.specs.List.Sorted.{IsPermutation};
ghost use Rattle.status_index.specs.declared.entry.Flags.{Flags as GhostFlags};
ghost use Rattle.status_index.specs.Entries.{index_entry};
ghost use Rattle.status_index.specs.States.{backing_of, index_of};
ghost use Rattle.git_staged.specs.Folders.{FrontOf, IsKnown, copies};

use crate::builder::Folder;
use crate::error::TreeFault;
use crate::files::push_file;
use bitflags::Flags as _;
use status_index::{Entry, Flags, ObjectId, PathStorage, State};
use std::alloc::AllocError;

/// The folders of an index, in the order of their paths.
#[derive(Clone, Copy)]
pub(crate) struct KnownFolders<'a> {
    pub(crate) index: &'a State,
    pub(crate) folders: &'a [Folder],
}

impl<'a> KnownFolders<'a> {
    /// Returns the entries of the folder at a path, if they make the tree of this id. `next` is the number of a folder that
    /// isn't after the path, and is moved to the path. It only saves time.
    pub(crate) fn entries_at(
        self,
        next: &mut usize,
        path: &[u8],
        tree: ObjectId,
    ) -> Option<&'a [Entry]>
        ensures { IfSome result (λ run. (flags : GhostFlags) → flags.0 ≡ 0
            → IsKnown self.entry tree path.now (copies flags (map (index_entry (backing_of self.entry.index.now)) run.now))) }
    {
        *next = self.seek(*next, path);
        let folder = *self.folders.get(*next)?;
        if folder.id != tree || path_of(self.index, folder)? != path {
            return None;
        }
        self.index.entries().get(folder.first..folder.end)
    }

    /// Returns the number of the first folder from a number on whose path isn't less than this one.
    fn seek(self, next: usize, path: &[u8]) -> usize {
        let mut next = next;
        'folders: while let Some(folder) = self.folders.get(next) {
            match path_of(self.index, *folder) {
                Some(other) if other < path => next += 1,
                _ => break,
            }
        }
        next
    }
}

/// Returns the path of a folder of an index, with a slash at the end.
fn path_of(index: &State, folder: Folder) -> Option<&[u8]>
    ensures { IfSome result (λ path. FrontOf (index_of index.now) folder.first folder.path_len path.now) }
{
    let entry = index.entries().get(folder.first)?;
    let path = entry.path_in(index.path_backing()).as_bytes();
    path.get(..folder.path_len)
}

/// Puts folders in the order of their paths.
///
/// # Errors
/// Out of memory.
pub(crate) fn put_in_order(folders: &mut Vec<Folder>) -> Result<(), AllocError>
    ensures { IsPermutation folders.old.items folders.new.items }
{
    folders.sort_by(|a, b| { a.first.cmp(&b.first).then(a.path_len.cmp(&b.path_len)) })
}

/// Adds the files that some entries of an index are. An entry of `git add -N` is none.
///
/// # Errors
/// They aren't after the others in order, their ids are of another kind, or out of memory.
pub(crate) fn add_copies(
    files: &mut State,
    backing: &PathStorage,
    entries: &[Entry],
) -> Result<(), TreeFault>
    ensures { OnOk result ((flags : GhostFlags) × (flags.0 ≡ 0) × (index_of files.new ≡ index_of files.old ++ copies flags (map (index_entry backing.now) entries.now))) }
{
    let plain = Flags::empty();
    for entry in entries {
        if !entry.flags.intersects(Flags::INTENT_TO_ADD) {
            let path = entry.path_in(backing).as_bytes();
            push_file(files, entry.stat, entry.id, plain, entry.mode, path)?;
        }
    }
    Ok(())
}
