//! Objects that are only asked for if the worktree has no file of their content.

use crate::head::{HeadCommit, store_of};
use crate::refused::Refused;
use bstr::BStr;
use git_objects::{Object, ObjectFault, ObjectKind, ReadObject};
use git_repository::{MODULES, ModulesFile, Repository};
use status_index::{ObjectId, State};
use std::os::unix::fs::FileExt;
use std::rt::{Env, Files};

/// The objects of a repository. Their store is opened for each one that is asked for.
#[derive(Clone, Copy)]
pub(crate) struct LazyObjects<'r, R> {
    pub(crate) rt: &'r R,
    pub(crate) repository: &'r Repository,
}

impl<R: AllocGlobal + Env + Files> ReadObject for LazyObjects<'_, R>
where
    R::File: FileExt,
{
    fn read(&self, id: ObjectId) -> Result<Object, ObjectFault> {
        match store_of(self.rt, self.repository) {
            Ok(store) => match store.read(id) {
                Err(ObjectFault::Missing { .. }) if is_partial(self.repository) => {
                    Err(ObjectFault::Elsewhere)
                }
                read => read,
            },
            Err(Refused::Memory) => Err(ObjectFault::Memory),
            Err(Refused::Object(fault)) => Err(fault),
            Err(_) => Err(ObjectFault::Elsewhere),
        }
    }
}

/// Returns whether git fetches objects that aren't there (a partial clone).
fn is_partial(repository: &Repository) -> bool {
    repository.config.variables().iter().any(|variable| {
        variable.is_named(b"extensions", None, b"partialclone")
            || variable.subsection_of(b"remote").is_some() && variable.has_name(b"promisor")
    })
}

/// Returns the `.gitmodules` that counts: that of the worktree, or if it has none, the index's, or if that has none, HEAD's.
///
/// # Errors
/// HEAD or an object can't be read, or out of memory.
pub(crate) fn modules_of<R: AllocGlobal + Env + Files>(
    rt: &R,
    repository: &Repository,
    index: &State,
    head: &Option<HeadCommit<'_, R>>,
) -> Result<ModulesFile, Refused>
where
    R::File: FileExt,
{
    let file = ModulesFile::read(rt, repository.top.as_str(), index)?;
    let ModulesFile::Missing = file else {
        return Ok(file);
    };
    let found = match (index.entries_at(BStr::new(MODULES.as_bytes())), head) {
        ([entry, ..], _) => Some(entry.id),
        ([], Some(head)) => head.item_at_top(MODULES.as_bytes())?,
        ([], None) => match HeadCommit::read(rt, repository) {
            Ok(head) => head.item_at_top(MODULES.as_bytes())?,
            // A commit that replaces HEAD's is left out here.
            Err(Refused::Objects { .. }) => None,
            Err(error) => return Err(error),
        },
    };
    let Some(id) = found else {
        return Ok(ModulesFile::Missing);
    };
    match (LazyObjects { rt, repository }).read(id) {
        Ok(blob) if blob.kind == ObjectKind::Blob => {
            Ok(ModulesFile::of(rt.alloc(), blob.bytes.as_slice())?)
        }
        Ok(_) | Err(ObjectFault::Missing { .. }) => Ok(ModulesFile::Missing),
        Err(fault) => Err(Refused::Modules { fault }),
    }
}
