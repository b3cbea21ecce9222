//! The attribute files within a worktree.

ghost use Rattle.std.specs.Prelude.{false, ◌≡◌, ◌≤◌, [], ◌∷◌, nat_eq, true, IfOk, OnOk, None, length, take, drop, map, option_map};
ghost use Rattle.std.specs.List.{starts_with};
ghost use Rattle.bstr.specs.BStr.{bstr_bytes};
ghost use Rattle.status_index.specs.Entries.{index_entries};
ghost use Rattle.status_index.specs.States.{backing_of, index_of};
ghost use Rattle.status_index.specs.declared.stat.NodeKind.TheVariants.{File};
ghost use Rattle.status_base.specs.CheckAnswers.{IsCheckError};
ghost use Rattle.status_base.specs.Common.{IsCommon};
ghost use Rattle.status_base.specs.LinkCheck.{LinkCheck};
ghost use Rattle.status_base.specs.Looked.{IsLookedAt, guarded};
ghost use Rattle.status_base.specs.Sights.{IsOpen};
ghost use Rattle.git_attributes.specs.Views.{file_view};
ghost use Rattle.git_attributes.specs.WorktreeFiles.{AreFilesSeen, at_fault, file_of, file_path, folders_after, folders_from, folders_of, found, new_folders, nothing, up_to_long};
ghost use Rattle.git_attributes.specs.FolderSteps.{AreAdded, IsFolderAdded, IsIn, IsNextFolder, IsOpenSeen, IsPathSeen, IsReadSeen, IsRefusalOf};

use crate::files::{AttributeFile, append};
use bstr::{BStr, BString};
use git_patterns::text::first_at;
use status_base::stack::{StackError, SymlinkCheck};
use status_base::worktree::{Fault, Guard, GuardedWorktree, Metadata, NodeKind, Worktree};
use status_index::{Entry, State, read_all};
use std::alloc::{AllocError, Global};

/// The name of attribute files within a worktree.
pub(crate) const NAME: &[u8] = b".gitattributes";

/// The length of a path from which on the system refuses it (Linux's `PATH_MAX`).
const PATH_LIMIT: usize = 4096;

/// As git does, an attribute file of so many bytes or more is left out.
pub const ATTRIBUTES_LIMIT: usize = 100 << 20;

/// The node at the path of an attribute file.
#[derive(Drop)]
enum Found {
    /// A file, with these bytes.
    File(Vec<u8>),
    /// No file that can be read.
    NoFile,
    /// Neither a file nor a folder that may have one.
    NoFolder,
}

/// A search for the attribute files within a worktree: of its top, and of each folder on the way to the path of an entry.
///
/// As in git, a file that can't be read counts as none, and so does a link. A folder isn't searched if its path isn't normal
/// or leads through a link, so no file outside is opened.
#[derive(Drop)]
pub struct FolderSearch<'s, W> {
    alloc: Global,
    worktree: GuardedWorktree<'s, W>,
    index: &'s State,
}

impl<'s, W: Worktree> FolderSearch<'s, W> {
    /// Makes a search for an index.
    pub fn new(alloc: Global, worktree: &'s W, index: &'s State) -> FolderSearch<'s, W>
        ensures worktree { result.worktree ≡ guarded worktree.entry false }
        ensures index { result.index.now ≡ index.entry.now }
    {
        FolderSearch {
            alloc,
            worktree: GuardedWorktree::new(worktree, false),
            index,
        }
    }

    /// Returns the index.
    pub(crate) fn index(&self) -> &State
        ensures { result.now ≡ self.now.index.now }
    {
        self.index
    }

    /// Returns the files of the worktree's top and of the folders on the way to the paths of the index, in their order.
    ///
    /// # Errors
    /// Out of memory.
    pub fn find(&self) -> Result<Vec<AttributeFile>, AllocError>
        ensures { IfOk result (λ files. AreFilesSeen (W.may_stat self.now.worktree.worktree.now) (W.may_open self.now.worktree.worktree.now)
            (folders_of (index_of self.now.index.now)) (map file_view files.items)) }
    {
        append(self.top()?, self.files(b"", self.index.entries())?)
    }

    /// Returns the file of the worktree's top, if there is one that can be read.
    pub(crate) fn top(&self) -> Result<Vec<AttributeFile>, AllocError>
        ensures { IfOk result (λ files. AreFilesSeen (W.may_stat self.now.worktree.worktree.now) (W.may_open self.now.worktree.worktree.now) ([] ∷ []) (map file_view files.items)) }
    {
        let mut check = SymlinkCheck::new(self.alloc, BString::new(Vec::new(self.alloc)));
        let mut files = Vec::new(self.alloc);
        self.add_file(b"", &mut check, &mut files)?;
        Ok(files)
    }

    /// Returns the files of the folders on the way to the paths of these entries that aren't on the way to the path before them.
    pub(crate) fn files(
        &self,
        before: &[u8],
        part: &[Entry],
    ) -> Result<Vec<AttributeFile>, AllocError>
        ensures { IfOk result (λ files. AreFilesSeen (W.may_stat self.now.worktree.worktree.now) (W.may_open self.now.worktree.worktree.now)
            (folders_after before.now (index_entries (backing_of self.now.index.now) part.now)) (map file_view files.items)) }
    {
        let mut check = SymlinkCheck::new(self.alloc, BString::new(Vec::new(self.alloc)));
        let mut files = Vec::new(self.alloc);
        let mut before = before;
        let mut folder = folder_of(before);
        let mut rest = part;
        'entries: while let [entry, after @ ..] = rest {
            let path = entry.path_in(self.index.path_backing()).as_bytes();
            if !is_in(folder, path) {
                self.add_new(before, path, &mut check, &mut files)?;
                folder = folder_of(path);
            }
            before = path;
            rest = after;
        }
        Ok(files)
    }

    /// Adds the files of the folders on the way to a path that aren't on the way to the path before it.
    fn add_new(
        &self,
        before: &[u8],
        path: &[u8],
        check: &mut SymlinkCheck,
        files: &mut Vec<AttributeFile>,
    ) -> Result<(), AllocError>
        requires { IsOpen (W.may_stat self.now.worktree.worktree.now) check.old.path }
        ensures opened { IsOpen (W.may_stat self.now.worktree.worktree.now) check.new.path }
        ensures added { OnOk result (AreAdded (W.may_stat self.now.worktree.worktree.now) (W.may_open self.now.worktree.worktree.now) (up_to_long (new_folders before.now path.now)) (map file_view files.old.items) (map file_view files.new.items)) }
    {
        self.add_folders(path, common_front(before, path), check, files)
    }

    /// Adds the files of the folders on the way to a path, from those of more than `from` bytes on. Nothing is checked below a
    /// folder that isn't in the worktree.
    fn add_folders(
        &self,
        path: &[u8],
        from: usize,
        check: &mut SymlinkCheck,
        files: &mut Vec<AttributeFile>,
    ) -> Result<(), AllocError>
        requires within { from ≤ length path.now }
        requires opened { IsOpen (W.may_stat self.now.worktree.worktree.now) check.old.path }
        ensures opened { IsOpen (W.may_stat self.now.worktree.worktree.now) check.new.path }
        ensures added { OnOk result (AreAdded (W.may_stat self.now.worktree.worktree.now) (W.may_open self.now.worktree.worktree.now) (up_to_long (folders_from (take from path.now) (drop from path.now))) (map file_view files.old.items) (map file_view files.new.items)) }
    {
        let mut at = from;
        'folders: while let Some(end) = folder_end(path, at) {
            if !self.add_file(&path[..end], check, files)? {
                return Ok(());
            }
            if end >= PATH_LIMIT {
                return Ok(());
            }
            at = end;
        }
        Ok(())
    }

    /// Adds the file of a folder, if there is one that can be read. Returns whether there may be folders below.
    fn add_file(
        &self,
        folder: &[u8],
        check: &mut SymlinkCheck,
        files: &mut Vec<AttributeFile>,
    ) -> Result<bool, AllocError>
        requires { IsOpen (W.may_stat self.now.worktree.worktree.now) check.old.path }
        ensures opened { IsOpen (W.may_stat self.now.worktree.worktree.now) check.new.path }
        ensures added { IfOk result (λ goes_on. IsFolderAdded (W.may_stat self.now.worktree.worktree.now) (W.may_open self.now.worktree.worktree.now) folder.now goes_on (map file_view files.old.items) (map file_view files.new.items)) }
    {
        let path = self.path_in(folder)?;
        let path = BStr::new(path.as_slice());
        match self.find_at(path, check)? {
            Found::File(bytes) => {
                files.push(new_file(self.alloc, folder, bytes)?)?;
                Ok(true)
            }
            Found::NoFile => Ok(true),
            Found::NoFolder => Ok(false),
        }
    }

    /// Returns the path of a folder's attribute file.
    fn path_in(&self, folder: &[u8]) -> Result<Vec<u8>, AllocError>
        ensures { IfOk result (λ path. path.items ≡ file_path folder.now) }
    {
        let mut path = Vec::from_slice(self.alloc, folder)?;
        path.extend_from_slice(NAME)?;
        Ok(path)
    }

    /// Returns what is at the path of an attribute file.
    fn find_at(&self, path: BStr<'_>, check: &mut SymlinkCheck) -> Result<Found, AllocError>
        requires { IsOpen (W.may_stat self.now.worktree.worktree.now) check.old.path }
        ensures opened { IsOpen (W.may_stat self.now.worktree.worktree.now) check.new.path }
        ensures seen { IfOk result (IsPathSeen (W.may_stat self.now.worktree.worktree.now) (W.may_open self.now.worktree.worktree.now) (bstr_bytes path.entry)) }
    {
        match self.worktree.verify(check, path) {
            Ok(()) => match self.read_file(path)? {
                Some(bytes) => Ok(Found::File(bytes)),
                None => Ok(Found::NoFile),
            },
            Err(error) => found_barred(error),
        }
    }

    /// Returns the bytes of the file at a path. None if there is none that can be read. Links aren't opened, since they may lead
    /// to a device, and neither are files that are too large. A folder has no bytes.
    fn read_file(&self, path: BStr<'_>) -> Result<Option<Vec<u8>>, AllocError>
        requires { IsOpen (W.may_stat self.now.worktree.worktree.now) (bstr_bytes path) }
        ensures { IfOk result (λ read. IsReadSeen (W.may_stat self.now.worktree.worktree.now (bstr_bytes path.entry)) (W.may_open self.now.worktree.worktree.now (bstr_bytes path.entry)) (option_map (λ bytes. bytes.items) read)) }
    {
        match self.worktree.lstat(path) {
            Ok(node) if node.kind == NodeKind::File && node.len < ATTRIBUTES_LIMIT as u64 => {
                read_open(self.alloc, self.worktree, path, &node)
            }
            Ok(node) if node.kind == NodeKind::Directory => Ok(Some(Vec::new(self.alloc))),
            Ok(_) => Ok(None),
            Err(fault) => none_unless_memory(fault),
        }
    }
}

/// Returns the attribute file of a folder, with these bytes.
fn new_file(alloc: Global, folder: &[u8], bytes: Vec<u8>) -> Result<AttributeFile, AllocError>
    ensures { IfOk result (λ file. file_view file ∷ [] ≡ file_of folder.now (found bytes.items)) }
{
    Ok(AttributeFile {
        folder: Vec::from_slice(alloc, folder)?,
        has_macros: folder.is_empty(),
        bytes,
    })
}

/// Returns what is at a path that the link check refuses.
fn found_barred(error: StackError<'_>) -> Result<Found, AllocError>
    ensures { (check : LinkCheck) → IsCheckError check error.entry → IfOk result (IsRefusalOf check) }
{
    match error {
        StackError::Memory | StackError::Fault(Fault::Memory) => Err(AllocError),
        StackError::EmptyPath | StackError::NotNormal { .. } | StackError::ThroughLink { .. } => Ok(
            Found::NoFolder,
        ),
        StackError::Fault(Fault::NotFound | Fault::NotADirectory) => Ok(Found::NoFolder),
        StackError::Fault(_) => Ok(Found::NoFile),
    }
}

/// Opens the file that `lstat` found at a path, with this node, and returns its bytes. None if it can't be read.
fn read_open<W: Worktree>(
    alloc: Global,
    worktree: GuardedWorktree<'_, W>,
    path: BStr<'_>,
    node: &Metadata,
) -> Result<Option<Vec<u8>>, AllocError>
    requires { IsLookedAt (W.may_stat worktree.worktree.now) worktree.fscache (bstr_bytes path) node.now File }
    ensures { IfOk result (λ read. IsOpenSeen (W.may_open worktree.entry.worktree.now (bstr_bytes path.entry)) (option_map (λ bytes. bytes.items) read)) }
{
    let mut file = match worktree.open(path, node) {
        Ok(file) => file,
        Err(fault) => return none_unless_memory(fault),
    };
    let mut bytes = Vec::new(alloc);
    match read_all(&mut file, &mut bytes) {
        Ok(()) => Ok(Some(bytes)),
        Err(fault) => none_unless_memory(fault),
    }
}

/// Returns that no file can be read, unless memory ran out.
fn none_unless_memory(fault: Fault) -> Result<Option<Vec<u8>>, AllocError>
    ensures { IfOk result (λ read. (read ≡ None) × (at_fault fault ≡ nothing)) }
{
    match fault {
        Fault::Memory => Err(AllocError),
        _ => Ok(None),
    }
}

/// Returns the position after the next slash of a path, at the end of a folder's path.
fn folder_end(path: &[u8], at: usize) -> Option<usize>
    requires { at ≤ length path.now }
    ensures { IsNextFolder path.now at result }
{
    match first_at(b'/', &path[at..]) {
        Some(slash) => Some(at + slash + 1),
        None => None,
    }
}

/// Returns whether a path is in a folder itself, and not in one below.
fn is_in(folder: &[u8], path: &[u8]) -> bool
    ensures { result ≡ true → IsIn folder.now path.now }
{
    path.starts_with(folder) && folder_end(path, folder.len()).is_none()
}

/// Returns the folder of a path, with the slash after it.
fn folder_of(path: &[u8]) -> &[u8]
    ensures { starts_with nat_eq path.now result.now ≡ true }
{
    match path.iter().rposition(|byte| *byte == b'/') {
        Some(slash) => &path[..slash + 1],
        None => b"",
    }
}

/// Returns how many bytes two paths have in common at their start.
fn common_front(one: &[u8], other: &[u8]) -> usize
    ensures { IsCommon one.now other.now result }
{
    let shorter = one.len().min(other.len());
    for at in 0..shorter {
        if one[at] != other[at] {
            return at;
        }
    }
    shorter
}
