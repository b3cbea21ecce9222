//! A tree that is made leaf by leaf, in the order of an index.
//!
//! The folders that contain the last leaf are open, since the next leaf may be in them too. The bytes of all open
//! folders are in one buffer: those of a folder follow the start of its own item in its parent. When a folder is
//! closed, its id replaces its bytes, and it is noted which entries made it.

ghost use Rattle.std.specs.Prelude.{◌≡◌, ◌∷◌, ◌+◌, [], List, ℕ, ◌<◌, ◌≤◌, All, length, position, IfOk, MatchOption, OnOk};
ghost use Rattle.status_index.specs.Entries.{IndexEntry};
ghost use Rattle.git_staged.specs.Trees.{Items, and_folder, components, is_slash, no_items};
ghost use Rattle.git_staged.specs.Folders.{IsFolder, IsTreeOf};
ghost use Rattle.git_staged.specs.OpenFolders.{Frame, HasNoLastFolder, IsFirst, IsName, IsStack, IsStaged, Makes, Reaches, Runs};

use crate::item::{id_of_tree, push_item, push_start};
use status_index::{HashKind, Mode, ObjectId};
use std::alloc::{AllocError, Global};

/// A folder of an index: the entries that are in it, and the id of the tree that they make.
#[derive(Clone, Copy)]
pub(crate) struct Folder {
    /// The number of its first entry, which isn't of `git add -N`.
    pub(crate) first: usize,
    /// The number of the first entry after it.
    pub(crate) end: usize,
    /// The length of its path, with a slash at the end.
    pub(crate) path_len: usize,
    /// The id of its tree.
    pub(crate) id: ObjectId,
}

/// The tree that an index makes: its id, and its folders.
#[derive(Drop)]
pub(crate) struct MadeTree {
    pub(crate) id: ObjectId,
    pub(crate) folders: Vec<Folder>,
}

/// The beginning of an open folder.
#[derive(Clone, Copy)]
struct Mark {
    /// The number of its first entry.
    first: usize,
    /// The length of its parent's path.
    path_len: usize,
    /// The position of its own bytes in the buffer.
    start: usize,
}

/// The tree of the leaves that were put so far.
#[derive(Drop)]
pub(crate) struct TreeBuilder {
    /// The bytes of the tree and of its open folders, the outermost first.
    bytes: Vec<u8>,
    /// The path of the innermost open folder. A slash follows each component.
    path: Vec<u8>,
    /// The open folders, the innermost one last.
    marks: Vec<Mark>,
    /// The folders that were closed, in order.
    folders: Vec<Folder>,
}

impl TreeBuilder {
    /// Returns a tree without leaves. Allocates no memory.
    pub(crate) fn new(alloc: Global) -> TreeBuilder
        ensures { (kind : HashKind) (es : List IndexEntry) → Makes kind es 0 result HasNoLastFolder }
    {
        TreeBuilder {
            bytes: Vec::new(alloc),
            path: Vec::new(alloc),
            marks: Vec::new(alloc),
            folders: Vec::new(alloc),
        }
    }

    /// Puts the leaf of the entry of this number after the others, below its path.
    ///
    /// # Errors
    /// Out of memory. Then the tree can't be used any more.
    pub(crate) fn put(
        &mut self,
        kind: HashKind,
        number: usize,
        path: &[u8],
        mode: Mode,
        id: ObjectId,
    ) -> Result<(), AllocError>
        requires { (es : List IndexEntry) × Makes kind es number self.old HasNoLastFolder }
        ensures { (es : List IndexEntry) → Makes kind es number self.old HasNoLastFolder → IsStaged es number path.now mode id
            → OnOk result (Makes kind es (number + 1) self.new HasNoLastFolder) }
    {
        let mut rest = self.close_others(kind, number, path)?;
        'components: while let Some((name, inner)) = split_first(rest) {
            self.open_folder(number, name)?;
            rest = inner;
        }
        push_item(&mut self.bytes, mode, rest, id)
    }

    /// Closes the folders that don't contain this path, before the entry of this number. Returns the path's rest in the
    /// innermost folder that stays open.
    fn close_others<'p>(
        &mut self,
        kind: HashKind,
        number: usize,
        path: &'p [u8],
    ) -> Result<&'p [u8], AllocError>
        requires { (es : List IndexEntry) × Makes kind es number self.old HasNoLastFolder }
        ensures { (es : List IndexEntry) → Makes kind es number self.old HasNoLastFolder → IfOk result (λ rest. Reaches kind es number self.new path.entry.now rest.now) }
    {
        'folders: loop {
            if let Some(rest) = path.strip_prefix(self.path.as_slice()) {
                return Ok(rest);
            }
            self.close(kind, number)?;
        }
    }

    /// Opens a folder in the innermost one, with the entry of this number. The name has no slash.
    fn open_folder(&mut self, number: usize, name: &[u8]) -> Result<(), AllocError>
        ensures stack { (kind : HashKind) (fs : List Frame) (t : Items) → IsStack kind self.old fs t → IsName name.now
            → OnOk result (IsStack kind self.new (record { first = number; before = t; name = name.now } ∷ fs) no_items) }
        ensures folders { self.new.folders.items ≡ self.old.folders.items }
    {
        let path_len = self.path.len();
        push_start(&mut self.bytes, Mode::Dir, name)?;
        self.path.extend_from_slice(name)?;
        self.path.push(b'/')?;
        let start = self.bytes.len();
        self.marks.push(Mark {
            first: number,
            path_len,
            start,
        })?;
        Ok(())
    }

    /// Closes the innermost folder before the entry of this number, if one is open.
    fn close(&mut self, kind: HashKind, number: usize) -> Result<(), AllocError>
        requires { (fs : List Frame) × (t : Items) × IsStack kind self.old fs t }
        ensures closed { (f : Frame) (fs : List Frame) (t : Items) → IsStack kind self.old (f ∷ fs) t → OnOk result (IsStack kind self.new fs (and_folder f.before f.name t)) }
        ensures folders { (es : List IndexEntry) (f : Frame) (fs : List Frame) (t : Items) → IsStack kind self.old (f ∷ fs) t → Runs es number (f ∷ fs) t → number ≤ length es
            → All (IsFolder kind es) self.old.folders.items → OnOk result (All (IsFolder kind es) self.new.folders.items) }
        ensures fewer { 0 < length self.old.marks.items → length self.new.marks.items < length self.old.marks.items }
    {
        let Some(mark) = self.marks.pop() else {
            return Ok(());
        };
        let id = id_of_tree(kind, &self.bytes[mark.start..]);
        self.folders.push(Folder {
            first: mark.first,
            end: number,
            path_len: self.path.len(),
            id,
        })?;
        self.bytes.truncate(mark.start);
        self.path.truncate(mark.path_len);
        self.bytes.extend_from_slice(id.as_bytes())
    }

    /// Closes all folders after the last entry. `len` is the number of entries.
    ///
    /// # Errors
    /// Out of memory.
    pub(crate) fn finish(mut self, kind: HashKind, len: usize) -> Result<MadeTree, AllocError>
        requires { (es : List IndexEntry) × Makes kind es len self HasNoLastFolder }
        ensures { (es : List IndexEntry) → Makes kind es len self HasNoLastFolder → length es ≡ len → IfOk result (IsTreeOf kind es) }
    {
        while !self.marks.is_empty() {
            self.close(kind, len)?;
        }
        let id = id_of_tree(kind, self.bytes.as_slice());
        let TreeBuilder { folders, .. } = self;
        Ok(MadeTree { id, folders })
    }
}

/// Splits a path at its first slash, into its first component and the rest. Returns None if there is no slash.
fn split_first(path: &[u8]) -> Option<(&[u8], &[u8])>
    ensures { MatchOption result (components path.entry.now ≡ path.entry.now ∷ []) (λ parts. IsFirst path.entry.now parts.0.now parts.1.now) }
{
    match first_slash(path) {
        Some(slash) => Some((&path[..slash], &path[slash + 1..])),
        None => None,
    }
}

/// Returns the position of the first slash.
fn first_slash(path: &[u8]) -> Option<usize>
    ensures { result ≡ position is_slash path.now }
{
    path.iter().position(|byte| *byte == b'/')
}
