//! A tree as an index: the entries that `git read-tree` makes of it.

ghost use Rattle.std.specs.Prelude.{◌≡◌, ◌∷◌, ◌++◌, [], ℕ, List, IfOk, OnOk};
ghost use Rattle.status_index.specs.BlobId.{id_kind};
ghost use Rattle.status_index.specs.Entries.{IndexEntry, entry_of_fields};
ghost use Rattle.status_index.specs.States.{index_of, timestamp_of};
ghost use Rattle.git_staged.specs.Folders.{IsKnown};
ghost use Rattle.git_staged.specs.TreeFiles.{AreFilesOf, HasFiles, IsFile, IsItem, is_folder, nothing_known, tree_mode};

use crate::error::TreeFault;
use crate::known::{KnownFolders, add_copies};
use bitflags::Flags as _;
use bstr::BStr;
use git_objects::{FirstItem, ObjectFault, ObjectKind, ReadObject, TreeItem};
use status_index::{Flags, IndexError, Mode, Moment, ObjectId, Stat, State};
use std::alloc::Global;

/// How many folders may be within each other below the top, as in newer versions of git (`core.maxTreeDepth`).
const MOST_FOLDERS: usize = 2048;

/// The most files and folders of a tree. Its folders may be equal, so that few bytes make many.
const MOST_ITEMS: usize = 1 << 23;

/// How far a tree was read.
#[derive(Clone, Copy)]
struct Progress {
    /// How many items more the tree may have.
    left: usize,
    /// The number of the next of the known folders.
    next: usize,
}

/// Returns the files of a tree as an index: each with its path, mode and id, and without a stat. Modes that git doesn't write
/// any more, such as 100664, are those that it writes today.
///
/// # Errors
/// An object isn't read or isn't a tree, the items of a tree aren't in order, more than 2,048 folders are within each other,
/// there are more than 8,388,608 files and folders, or out of memory.
pub fn read_tree<O: ReadObject>(
    alloc: Global,
    objects: &O,
    tree: ObjectId,
) -> Result<State, TreeFault>
    ensures { IfOk result (λ s. AreFilesOf tree (index_of s)) }
{
    read_folder(alloc, objects, tree, b"")
}

/// Returns the files of a folder as an index. `path` is that of the folder, with a slash at its end, or nothing for the top.
///
/// # Errors
/// Those of `read_tree`.
pub(crate) fn read_folder<O: ReadObject>(
    alloc: Global,
    objects: &O,
    tree: ObjectId,
    path: &[u8],
) -> Result<State, TreeFault>
    ensures { IfOk result (λ s. (depth : ℕ) × HasFiles nothing_known depth tree path.now (index_of s)) }
{
    let nothing = State::new(alloc, Moment::default());
    let known = KnownFolders {
        index: &nothing,
        folders: &[],
    };
    read_beside(alloc, objects, tree, path, known)
}

/// Returns the files of a folder as an index. A folder within it, or the folder itself, isn't read if its files are known.
///
/// # Errors
/// Those of `read_tree`, or the known files have ids of another kind.
pub(crate) fn read_beside<O: ReadObject>(
    alloc: Global,
    objects: &O,
    tree: ObjectId,
    path: &[u8],
    folders: KnownFolders<'_>,
) -> Result<State, TreeFault>
    ensures { IfOk result (λ s. (depth : ℕ) × HasFiles (IsKnown folders.entry) depth tree path.now (index_of s)) }
{
    let mut files = State::new(alloc, Moment::default());
    let mut path = Vec::from_slice(alloc, path)?;
    let mut progress = Progress {
        left: MOST_ITEMS,
        next: 0,
    };
    match add_folder(
        objects,
        folders,
        MOST_FOLDERS + 1,
        tree,
        &mut progress,
        &mut path,
        &mut files,
    ) {
        Ok(()) => Ok(files),
        Err(fault) => Err(fault),
    }
}

/// Adds the files of a folder to others. `path` is that of the folder, with a slash at its end, or nothing for the top.
///
/// # Errors
/// Those of `read_beside`. Then the path is another one.
#[cycle(folders)]
fn add_folder<O: ReadObject>(
    objects: &O,
    folders: KnownFolders<'_>,
    depth: usize,
    tree: ObjectId,
    progress: &mut Progress,
    path: &mut Vec<u8>,
    files: &mut State,
) -> Result<(), TreeFault>
    ensures path { OnOk result (path.new.items ≡ path.old.items) }
    ensures files { OnOk result ((es : List IndexEntry) × (index_of files.new ≡ index_of files.old ++ es) × HasFiles (IsKnown folders.entry) depth tree path.old.items es) }
{
    if depth == 0 {
        return Err(TreeFault::TooDeep);
    }
    if let Some(entries) = folders.entries_at(&mut progress.next, path.as_slice(), tree) {
        return add_copies(files, folders.index.path_backing(), entries);
    }
    let object = match objects.read(tree) {
        Ok(object) => object,
        Err(ObjectFault::Memory) => return Err(TreeFault::Memory),
        Err(fault) => return Err(TreeFault::Object { id: tree, fault }),
    };
    let ObjectKind::Tree = object.kind else {
        return Err(TreeFault::NoTree { id: tree });
    };
    let mut rest = object.bytes.as_slice();
    'items: loop {
        let first = match FirstItem::of_tree(tree.kind(), rest) {
            Ok(Some(first)) => first,
            Ok(None) => return Ok(()),
            Err(fault) => return Err(TreeFault::Object { id: tree, fault }),
        };
        if let Err(fault) = add_item(
            objects,
            folders,
            depth - 1,
            first.item,
            progress,
            path,
            files,
        ) {
            return Err(fault);
        }
        rest = first.rest;
    }
}

/// Adds the files of an item of a folder to others: it is a file, or a folder of files.
///
/// # Errors
/// Those of `read_beside`. Then the path is another one.
#[cycle(folders)]
fn add_item<O: ReadObject>(
    objects: &O,
    folders: KnownFolders<'_>,
    depth: usize,
    item: TreeItem<'_>,
    progress: &mut Progress,
    path: &mut Vec<u8>,
    files: &mut State,
) -> Result<(), TreeFault>
    ensures path { OnOk result (path.new.items ≡ path.old.items) }
    ensures files { OnOk result ((es : List IndexEntry) × (index_of files.new ≡ index_of files.old ++ es) × IsItem (HasFiles (IsKnown folders.entry) depth) path.old.items item.entry es) }
{
    let Some(fewer) = progress.left.checked_sub(1) else {
        return Err(TreeFault::ManyItems);
    };
    progress.left = fewer;
    let len = path.len();
    path.extend_from_slice(item.name)?;
    let mode = tree_mode(item.mode);
    if !is_folder(mode) {
        let added = add_file(files, path.as_slice(), mode, item.id);
        path.truncate(len);
        return added;
    }
    path.extend_from_slice(b"/")?;
    if let Err(fault) = add_folder(objects, folders, depth, item.id, progress, path, files) {
        return Err(fault);
    }
    path.truncate(len);
    Ok(())
}

/// Adds a file without a stat to others.
///
/// # Errors
/// Those of `push_file`.
fn add_file(files: &mut State, path: &[u8], mode: Mode, id: ObjectId) -> Result<(), TreeFault>
    ensures { OnOk result ((e : IndexEntry) × (index_of files.new ≡ index_of files.old ++ e ∷ []) × IsFile path.now mode id e) }
{
    push_file(files, Stat::default(), id, Flags::empty(), mode, path)
}

/// Adds an entry to others. No path is empty: each name of a tree has a byte, and each path of an index.
///
/// # Errors
/// It isn't after the others in order, its id is of another kind, or out of memory.
pub(crate) fn push_file(
    files: &mut State,
    stat: Stat,
    id: ObjectId,
    flags: Flags,
    mode: Mode,
    path: &[u8],
) -> Result<(), TreeFault>
    ensures files { OnOk result (index_of files.new ≡ index_of files.old ++ entry_of_fields path.now stat id flags mode ∷ []) }
    ensures time { timestamp_of files.new ≡ timestamp_of files.old }
{
    match files.push_entry(stat, id, flags, mode, BStr::new(path)) {
        Ok(()) => Ok(()),
        Err(IndexError::Memory) => Err(TreeFault::Memory),
        Err(IndexError::MixedHash { .. }) => Err(TreeFault::MixedHash),
        Err(IndexError::NotAscending { .. } | IndexError::EmptyPath { .. }) => {
            Err(TreeFault::NotAscending)
        }
    }
}

/// Returns whether a mode is of a folder.
pub(crate) fn is_folder(mode: Mode) -> bool
    ensures { result ≡ is_folder mode }
{
    mode.bits() == 0x4000
}

/// Returns the mode that git has for one of a tree: only its type counts, and of a file whether its owner may execute it.
fn tree_mode(bits: u32) -> Mode
    ensures { result ≡ tree_mode bits }
{
    match bits / 0x1000 % 0x10 {
        0x4 => Mode::Dir,
        0x8 if bits / 0x40 % 2 == 0 => Mode::File,
        0x8 => Mode::FileExecutable,
        0xA => Mode::Symlink,
        _ => Mode::Commit,
    }
}
