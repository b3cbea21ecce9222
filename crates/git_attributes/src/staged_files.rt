//! The attribute files that are only in an index.

ghost use Rattle.std.specs.Prelude.{◌≡◌, true, IfOk, IfSome, OnOk, All, map};
ghost use Rattle.std.specs.List.{list_any};
ghost use Rattle.std.specs.List.Sorted.{IsPermutation, IsSortedByKey};
ghost use Rattle.std.specs.Cmp.Lexicographic.{slice_cmp};
ghost use Rattle.std.specs.Ordering.{nat_cmp};
ghost use Rattle.std.specs.Str.{bytes_eq};
ghost use Rattle.status_index.specs.Entries.{index_entry};
ghost use Rattle.status_index.specs.States.{index_of};
ghost use Rattle.git_attributes.specs.StagedFiles.{IsBlobText, is_folder_path, IsStagedFile, IsStagedFrom};
ghost use Rattle.git_attributes.specs.Views.{file_view};
ghost use Rattle.git_attributes.specs.WorktreeFiles.{file_path};

use crate::fault::AttributeFault;
use crate::files::{AttributeFile, AttributeFiles, append};
use crate::worktree_files::{ATTRIBUTES_LIMIT, NAME};
use git_objects::{ObjectFault, ObjectKind, ReadObject};
use git_patterns::text::{before, ends_in_slash, is_word};
use status_index::{Entry, ObjectId, PathStorage, State};
use std::alloc::{AllocError, Global};

/// Attribute files, and those that are only in the index. As in git, such a file counts if the worktree has none of its folder
/// that can be read. Its object is read.
#[derive(Drop)]
pub struct WithStaged<'a, A, O> {
    /// The files outside of the worktree.
    pub others: A,
    /// The objects.
    pub objects: &'a O,
}

impl<A: AttributeFiles, O: ReadObject> AttributeFiles for WithStaged<'_, A, O> {
    ghost use Rattle.git_attributes.specs.StagedFiles.{AreWithStaged};

    ghost are_files = { λ it index. AreWithStaged (A.are_files it.others index) index };

    fn with_others(
        &self,
        alloc: Global,
        index: &State,
        within: Vec<AttributeFile>,
    ) -> Result<Vec<AttributeFile>, AttributeFault> {
        let staged = staged_files(alloc, self.objects, index, &within)?;
        let mut all = append(within, staged)?;
        sort_by_folder(&mut all)?;
        self.others.with_others(alloc, index, all)
    }
}

/// Returns the attribute files of an index in the folders that have none of these.
///
/// # Errors
/// An object can't be read, or out of memory.
fn staged_files<O: ReadObject>(
    alloc: Global,
    objects: &O,
    index: &State,
    inner: &[AttributeFile],
) -> Result<Vec<AttributeFile>, AttributeFault>
    ensures { IfOk result (λ files. All (IsStagedFile (index_of index.now) (map file_view inner.now)) (map file_view files.items)) }
{
    let mut files = Vec::new(alloc);
    for entry in index.entries() {
        if let Some(file) = staged_file(alloc, objects, index.path_backing(), entry, inner)? {
            files.push(file)?;
        }
    }
    Ok(files)
}

/// Returns the attribute file that an entry is, if its folder has none of these. None also if its object isn't there or is no
/// blob, or has too many bytes, as in git.
///
/// # Errors
/// The object can't be read, or out of memory.
fn staged_file<O: ReadObject>(
    alloc: Global,
    objects: &O,
    backing: &PathStorage,
    entry: &Entry,
    inner: &[AttributeFile],
) -> Result<Option<AttributeFile>, AttributeFault>
    ensures { IfOk result (λ found. IfSome found (λ file. IsStagedFrom (index_entry backing.now entry.now) (map file_view inner.now) (file_view file))) }
{
    let path = entry.path_in(backing).as_bytes();
    let Some(folder) = folder_of_file(path) else {
        return Ok(None);
    };
    if !matches!(entry.stage_raw(), 0 | 2) || has_file_of(inner, folder) {
        return Ok(None);
    }
    match blob_text(alloc, objects, entry.id) {
        Ok(Some(bytes)) => Ok(Some(AttributeFile {
            folder: Vec::from_slice(alloc, folder)?,
            has_macros: folder.is_empty(),
            bytes,
        })),
        Ok(None) => Ok(None),
        Err(ObjectFault::Memory) => Err(AttributeFault::Memory),
        Err(fault) => Err(AttributeFault::Object {
            path: Vec::from_slice(alloc, path)?,
            fault,
        }),
    }
}

/// Returns the folder whose attribute file has this path. None if no folder's has.
fn folder_of_file(path: &[u8]) -> Option<&[u8]>
    ensures path { IfSome result (λ folder. path.now ≡ file_path folder.now) }
    ensures folder { IfSome result (λ folder. is_folder_path folder.now ≡ true) }
{
    // Few other paths end so.
    let [.., b'e', b's'] = path else {
        return None;
    };
    match path.strip_suffix(NAME) {
        Some(folder) if is_folder_path(folder) => Some(folder),
        _ => None,
    }
}

/// Returns whether a path is that of a folder: nothing for the worktree's top, or with a slash at its end.
fn is_folder_path(path: &[u8]) -> bool
    ensures { result ≡ is_folder_path path.now }
{
    path.is_empty() || ends_in_slash(path)
}

/// Returns whether one of these files is of a folder.
fn has_file_of(files: &[AttributeFile], folder: &[u8]) -> bool
    ensures { result ≡ list_any (λ file. bytes_eq file.folder folder.now) (map file_view files.now) }
{
    files.iter().any(|file| is_word(&file.folder, folder))
}

/// Returns the text of an attribute file from the blob of an id, as git reads it: up to the first zero byte, and with a byte
/// order mark. None if the object isn't there, is no blob, or has too many bytes.
///
/// # Errors
/// The object can't be read.
fn blob_text<O: ReadObject>(
    alloc: Global,
    objects: &O,
    id: ObjectId,
) -> Result<Option<Vec<u8>>, ObjectFault>
    ensures { IfOk result (λ found. IfSome found (λ bytes. IsBlobText id bytes.items)) }
{
    let object = match objects.read(id) {
        Ok(object) => object,
        Err(ObjectFault::Missing { .. }) => return Ok(None),
        Err(fault) => return Err(fault),
    };
    let ObjectKind::Blob = object.kind else {
        return Ok(None);
    };
    if object.bytes.len() >= ATTRIBUTES_LIMIT {
        return Ok(None);
    }
    let mut text = Vec::from_slice(alloc, b"\n")?;
    text.extend_from_slice(before(0, object.bytes.as_slice()))?;
    Ok(Some(text))
}

/// Sorts files by their folders' paths.
///
/// # Errors
/// Out of memory.
fn sort_by_folder(files: &mut Vec<AttributeFile>) -> Result<(), AllocError>
    ensures bag { IsPermutation files.old.items files.new.items }
    ensures order { OnOk result (IsSortedByKey (λ file. file.folder.items) (slice_cmp nat_cmp) files.new.items) }
{
    files.sort_by(|a, b| a.folder.as_slice().cmp(b.folder.as_slice()))
}
