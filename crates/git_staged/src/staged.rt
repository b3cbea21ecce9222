//! Staged changes: the paths at which an index differs from HEAD's commit.

ghost use Rattle.std.specs.Prelude.{◌≡◌, ◌∷◌, ◌++◌, [], IfOk, OnOk, Some, map};
ghost use Rattle.std.specs.List.{filter, list_any};
ghost use Rattle.std.specs.List.Sorted.{IsPermutation, IsSortedByKey};
ghost use Rattle.std.specs.Cmp.Lexicographic.{slice_cmp};
ghost use Rattle.std.specs.Ordering.{nat_cmp};
ghost use Rattle.status_index.specs.BlobId.{id_kind};
ghost use Rattle.status_index.specs.Entries.{index_entry};
ghost use Rattle.status_index.specs.Mode.{is_submodule};
ghost use Rattle.status_index.specs.declared.entry.PathStorage.{PathStorage};
ghost use Rattle.status_index.specs.States.{index_of};
ghost use Rattle.git_staged.specs.Letters.{change_view};
ghost use Rattle.git_staged.specs.Folders.{IsTreeOf};
ghost use Rattle.git_staged.specs.Staged.{AreHeadFiles, AreStaged, is_selected, is_submodule_by, staged_view};

use crate::builder::MadeTree;
use crate::error::TreeFault;
use crate::files::read_beside;
use crate::known::{KnownFolders, put_in_order};
use crate::letters::{Change, Letter, changed_entries, deleted_files};
use crate::write_tree::tree_of;
use bstr::BStr;
use git_objects::ReadObject;
use status_base::worktree::Pathspec;
use status_index::{Entry, Moment, ObjectId, State};
use std::alloc::{AllocError, Global};

/// A path at which an index differs from HEAD's commit.
#[derive(Debug, Drop)]
pub struct Staged {
    /// The path.
    pub path: Vec<u8>,
    /// How it differs.
    pub letter: Letter,
}

/// Finds the staged changes of an index.
pub trait FindStaged {
    ghost use Rattle.std.specs.Prelude.{IfOk, map};
    ghost use Rattle.status_index.specs.declared.entry.PathStorage.{PathStorage};
    ghost use Rattle.status_index.specs.States.{index_of};
    ghost use Rattle.git_staged.specs.Staged.{MayStage, staged_view};

    /// Which paths and letters may be found.
    ghost may_stage: { Self → MayStage };

    /// Returns the staged changes, in the order of paths.
    ///
    /// # Errors
    /// The commit's files can't be read, or out of memory.
    fn find_staged(&self, alloc: Global, index: &State) -> Result<Vec<Staged>, TreeFault>
        ensures { IfOk result (λ found. may_stage self.now (index_of index.now) (map staged_view found.items)) };
}

/// An index that isn't compared with a commit has no staged changes.
impl<H: FindStaged> FindStaged for Option<H> {
    ghost use Rattle.git_staged.specs.Staged.{may_stage_beside};

    ghost may_stage = { λ head. may_stage_beside H.may_stage head };

    fn find_staged(&self, alloc: Global, index: &State) -> Result<Vec<Staged>, TreeFault> {
        match self {
            Some(head) => head.find_staged(alloc, index),
            None => Ok(Vec::new(alloc)),
        }
    }
}

/// The commit of HEAD, in a store of objects.
#[derive(Clone, Copy)]
pub struct Head<'a, O, P> {
    /// The objects.
    pub objects: &'a O,
    /// The id of the commit's tree. A branch without a commit has none.
    pub tree: Option<ObjectId>,
    /// The paths that are compared.
    pub paths: P,
}

impl<O: ReadObject, P: Pathspec> FindStaged for Head<'_, O, P> {
    ghost use Rattle.git_staged.specs.Staged.{IsStagedBeside};

    ghost may_stage = { λ head index found. IsStagedBeside head.tree (P.included head.paths) index found };

    fn find_staged(&self, alloc: Global, index: &State) -> Result<Vec<Staged>, TreeFault> {
        let Some(tree) = self.tree else {
            let nothing = State::new(alloc, Moment::default());
            return Ok(staged_changes(alloc, &nothing, index, &self.paths)?);
        };
        let made = tree_of(alloc, tree.kind(), index)?;
        if made.id == tree {
            return Ok(Vec::new(alloc));
        }
        let files = files_beside(alloc, self.objects, tree, index, made)?;
        Ok(staged_changes(alloc, &files, index, &self.paths)?)
    }
}

/// Returns the files of HEAD's tree, as an index. `made` is the tree of an index, whose folders aren't read if they are as in
/// HEAD's.
///
/// # Errors
/// Those of `read_beside`.
fn files_beside<O: ReadObject>(
    alloc: Global,
    objects: &O,
    tree: ObjectId,
    index: &State,
    made: MadeTree,
) -> Result<State, TreeFault>
    ensures { IsTreeOf (id_kind tree) (index_of index.now) made → IfOk result (λ files. AreHeadFiles (index_of index.now) (Some tree) (index_of files)) }
{
    let MadeTree { mut folders, .. } = made;
    put_in_order(&mut folders)?;
    let known = KnownFolders {
        index,
        folders: folders.as_slice(),
    };
    read_beside(alloc, objects, tree, b"", known)
}

/// Returns the selected paths at which an index differs from HEAD's files, in order.
///
/// # Errors
/// Out of memory.
fn staged_changes<P: Pathspec>(
    alloc: Global,
    head: &State,
    index: &State,
    paths: &P,
) -> Result<Vec<Staged>, AllocError>
    ensures { IfOk result (λ found. AreStaged (P.included paths.now) (index_of head.now) (index_of index.now) (map staged_view found.items)) }
{
    let changed = changed_entries(alloc, head, index)?;
    let deleted = deleted_files(alloc, head, index)?;
    let mut found = Vec::new(alloc);
    push_selected(alloc, &mut found, head, index, paths, &changed)?;
    push_selected(alloc, &mut found, head, index, paths, &deleted)?;
    sort_by_path(&mut found)?;
    Ok(found)
}

/// Adds the changes whose paths are selected.
///
/// # Errors
/// Out of memory.
fn push_selected<P: Pathspec>(
    alloc: Global,
    found: &mut Vec<Staged>,
    head: &State,
    index: &State,
    paths: &P,
    changes: &[Change<'_>],
) -> Result<(), AllocError>
    ensures { OnOk result (map staged_view found.new.items ≡ map staged_view found.old.items ++ filter (is_selected (P.included paths.now) (index_of head.now) (index_of index.now)) (map change_view changes.now)) }
{
    for change in changes {
        if is_selected(head, index, paths, change) {
            push_staged(alloc, found, change)?;
        }
    }
    Ok(())
}

/// Returns whether the path of a change is selected.
fn is_selected<P: Pathspec>(head: &State, index: &State, paths: &P, change: &Change<'_>) -> bool
    ensures { result ≡ is_selected (P.included paths.now) (index_of head.now) (index_of index.now) (change_view change.now) }
{
    let path = change.path;
    let is_submodule = is_submodule_by(head.entries_at(path), index.entries_at(path));
    paths.includes(path, is_submodule)
}

/// Returns whether a path is a submodule's, by the files of the commit and the entries of the index that are there. Git asks
/// the commit only if the index has none.
fn is_submodule_by(files: &[Entry], entries: &[Entry]) -> bool
    ensures { (one other : PathStorage) → result ≡ is_submodule_by (map (index_entry one) files.now) (map (index_entry other) entries.now) }
{
    if entries.is_empty() {
        any_submodule(files)
    } else {
        any_submodule(entries)
    }
}

/// Returns whether one of these entries is a submodule.
fn any_submodule(entries: &[Entry]) -> bool
    ensures { result ≡ list_any (λ e. is_submodule e.mode) entries.now }
{
    entries.iter().any(|entry| entry.mode.is_submodule())
}

/// Adds a change.
///
/// # Errors
/// Out of memory.
fn push_staged(
    alloc: Global,
    found: &mut Vec<Staged>,
    change: &Change<'_>,
) -> Result<(), AllocError>
    ensures { OnOk result (map staged_view found.new.items ≡ map staged_view found.old.items ++ change_view change.now ∷ []) }
{
    found.push(Staged {
        path: Vec::from_slice(alloc, change.path.as_bytes())?,
        letter: change.letter,
    })?;
    Ok(())
}

/// Sorts by path.
///
/// # Errors
/// Out of memory.
fn sort_by_path(found: &mut Vec<Staged>) -> Result<(), AllocError>
    ensures bag { IsPermutation found.old.items found.new.items }
    ensures order { OnOk result (IsSortedByKey (λ s. s.path.items) (slice_cmp nat_cmp) found.new.items) }
{
    found.sort_by(|a, b| a.path.as_slice().cmp(b.path.as_slice()))
}
