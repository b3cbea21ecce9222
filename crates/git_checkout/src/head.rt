//! HEAD's commit.

use crate::refused::Refused;
use crate::replaced::check_objects;
use git_objects::{
    FirstItem, ObjectFault, ObjectKind, ObjectStore, ReadObject as _, tree_of_commit,
};
use git_repository::{Repository, head_of};
use git_staged::{Head, TreeFault, read_tree};
use git_status::{Failure, Paths};
use status_index::{Moment, ObjectId, State};
use std::alloc::{AllocError, Global};
use std::os::unix::fs::FileExt;
use std::rt::{Env, Files};

/// HEAD's commit: its tree, and the store that has it.
#[derive(Drop)]
pub(crate) struct HeadCommit<'r, R: Files> {
    objects: ObjectStore<'r, R>,
    /// None for a branch without a commit.
    pub(crate) tree: Option<ObjectId>,
}

impl<'r, R: AllocGlobal + Env + Files> HeadCommit<'r, R>
where
    R::File: FileExt,
{
    /// Reads HEAD's commit, and whether its tree is there.
    ///
    /// # Errors
    /// HEAD or its commit can't be read, the environment names another folder of objects, the repository replaces objects, or
    /// out of memory.
    pub(crate) fn read(rt: &'r R, repository: &Repository) -> Result<HeadCommit<'r, R>, Refused> {
        let objects = store_of(rt, repository)?;
        let common_dir = repository.common_dir.as_str();
        let tree = match head_of(rt, repository.git_dir.as_str(), common_dir)? {
            Some(commit) => Some(tree_in(&objects, commit)?),
            None => None,
        };
        Ok(HeadCommit { objects, tree })
    }

    /// Returns the id of the commit's file or folder of this name at the top. None if it has none.
    ///
    /// # Errors
    /// The tree can't be read.
    pub(crate) fn item_at_top(&self, name: &[u8]) -> Result<Option<ObjectId>, Refused> {
        let Some(tree) = self.tree else {
            return Ok(None);
        };
        let object = self.objects.read(tree)?;
        let mut rest = object.bytes.as_slice();
        // Each item has bytes.
        for _ in 0..object.bytes.len() {
            let Some(first) = FirstItem::of_tree(tree.kind(), rest)? else {
                return Ok(None);
            };
            if first.item.name == name {
                return Ok(Some(first.item.id));
            }
            rest = first.rest;
        }
        Ok(None)
    }

    /// Returns the commit's files, as an index. A branch without a commit has none.
    ///
    /// # Errors
    /// They can't be read, or out of memory.
    pub(crate) fn files(&self, alloc: Global) -> Result<State, Refused> {
        match self.tree {
            Some(tree) => Ok(read_tree(alloc, &self.objects, tree).map_err(Failure::of_head)?),
            None => Ok(State::new(alloc, Moment::default())),
        }
    }
}

/// Opens the objects of a repository.
///
/// # Errors
/// The environment names another folder of objects, the repository replaces objects, the folder can't be read, or out of memory.
pub(crate) fn store_of<'r, R: AllocGlobal + Env + Files>(
    rt: &'r R,
    repository: &Repository,
) -> Result<ObjectStore<'r, R>, Refused>
where
    R::File: FileExt,
{
    check_objects(rt, repository)?;
    let common_dir = repository.common_dir.as_str();
    let folder = format!(in rt.alloc(); "{common_dir}/objects").map_err(|_| AllocError)?;
    Ok(ObjectStore::open(rt, repository.settings.kind, folder.as_str())?)
}

/// Returns what an index is compared with at these paths, if it is.
pub(crate) fn head_at<'a, 'r, 'p, R: Files>(
    head: &'a Option<HeadCommit<'r, R>>,
    paths: Paths<'p>,
) -> Option<Head<'a, ObjectStore<'r, R>, Paths<'p>>> {
    match head {
        Some(head) => Some(Head {
            objects: &head.objects,
            tree: head.tree,
            paths,
        }),
        None => None,
    }
}

/// Returns the files of HEAD's commit, which may have been read before. Without a commit there are none.
///
/// # Errors
/// They can't be read, or out of memory.
pub(crate) fn files_of<R: AllocGlobal + Env + Files>(
    alloc: Global,
    head: &Option<HeadCommit<'_, R>>,
    before: Option<State>,
) -> Result<State, Refused>
where
    R::File: FileExt,
{
    match (before, head) {
        (Some(files), _) => Ok(files),
        (None, Some(head)) => head.files(alloc),
        (None, None) => Ok(State::new(alloc, Moment::default())),
    }
}

/// Returns the id of the tree of a commit, which is there.
///
/// # Errors
/// One of the two objects can't be read, or is of another kind.
fn tree_in<R: AllocGlobal + Files>(
    objects: &ObjectStore<'_, R>,
    commit: ObjectId,
) -> Result<ObjectId, Refused>
where
    R::File: FileExt,
{
    let object = objects.read(commit)?;
    let tree = match object.kind {
        ObjectKind::Commit => tree_of_commit(commit.kind(), object.bytes.as_slice())?,
        _ => return Err(Refused::NoCommit),
    };
    match objects.read(tree) {
        Ok(root) if root.kind == ObjectKind::Tree => Ok(tree),
        Ok(_) => Err(Refused::Index(Failure::of_head(TreeFault::NoTree { id: tree }))),
        Err(ObjectFault::Memory) => Err(Refused::Memory),
        Err(fault) => Err(Refused::Index(Failure::of_head(TreeFault::Object { id: tree, fault }))),
    }
}
