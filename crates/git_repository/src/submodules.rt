//! The heads of submodules.

ghost use Rattle.std.specs.Prelude.{◌≡◌, None, Ok, false, refl};

use crate::error::RepositoryError;
use crate::files::joined;
use crate::format::read_format;
use crate::git_dir::{Refusal, common_dir_of, git_dir_in};
use crate::heads::head_of;
use crate::ignored::IgnoredSubmodules;
use crate::sources::read_file;
use bstr::BStr;
use status_base::worktree::{ByteText, SubmoduleFault, SubmoduleStatus};
use status_index::{Entry, ObjectId};
use std::alloc::{AllocError, Global};
use std::rt::Files;

/// The head of a submodule that has another one in the index.
#[derive(Clone, Copy, Debug, PartialEq, Eq)]
pub struct SubmoduleHead {
    /// The commit that the submodule's `HEAD` leads to.
    pub id: ObjectId,
}

/// Submodules in their folders of a worktree. One is changed if its `HEAD` leads to another commit than its entry has. If
/// it leads to none, as in a folder without a repository, or to one with an id of another length, the submodule is
/// unchanged. There is no status if the system refuses to read what leads there, or if the format of the submodule's
/// repository isn't known. They aren't modelled.
#[derive(Drop)]
pub struct SubmoduleHeads<'a, R> {
    rt: &'a R,
    top: &'a str,
    ignored: &'a IgnoredSubmodules,
}

impl<'a, R> SubmoduleHeads<'a, R> {
    /// Returns the submodules of the worktree in a folder.
    pub fn new(rt: &'a R, top: &'a str, ignored: &'a IgnoredSubmodules) -> SubmoduleHeads<'a, R> {
        SubmoduleHeads { rt, top, ignored }
    }
}

impl<'a, R> Clone for SubmoduleHeads<'a, R> {
    ghost is_clone = { λ x y. y ≡ x };

    fn clone(&self) -> Result<SubmoduleHeads<'a, R>, AllocError> {
        Ok(SubmoduleHeads {
            rt: self.rt,
            top: self.top,
            ignored: self.ignored,
        })
    }
}

impl<'a, R: Files + AllocGlobal> SubmoduleStatus for SubmoduleHeads<'a, R> {
    type Output = SubmoduleHead;

    ghost modelled = { λ _. false };

    ghost status_of = { λ _ _. Ok None };

    ghost clone_keeps_modelled = { λ _ _ _. refl };

    ghost clone_keeps_status = { λ _ _ _. refl };

    ghost clone_reports_within = { λ _ _ _ _ _ _. tt };

    fn status(
        &mut self,
        entry: &Entry,
        path: BStr<'_>,
    ) -> Result<Option<SubmoduleHead>, SubmoduleFault> {
        if self.ignored.contains(path) {
            return Ok(None);
        }
        match head_below(self.rt, self.top, path) {
            Ok(head) => Ok(other_head(head, entry)),
            Err(error) => without_head(self.rt.alloc(), &error),
        }
    }
}

// Returns the head of a submodule if it is another one than its entry has, with an id of the same length.
fn other_head(head: Option<ObjectId>, entry: &Entry) -> Option<SubmoduleHead> {
    let id = head?;
    (id.kind() == entry.id.kind() && id != entry.id).then_some(SubmoduleHead { id })
}

// Returns the status of a submodule whose head isn't known: it is unchanged if it has no repository.
fn without_head(
    alloc: Global,
    error: &RepositoryError,
) -> Result<Option<SubmoduleHead>, SubmoduleFault> {
    match error {
        RepositoryError::NotARepository { .. } | RepositoryError::BadGitFile { .. } => Ok(None),
        RepositoryError::Memory(_) => Err(SubmoduleFault::Memory),
        error => Err(fault_of(alloc, error)),
    }
}

// Returns the fault that has an error's words.
fn fault_of(alloc: Global, error: &RepositoryError) -> SubmoduleFault {
    let Ok(words) = format!(in alloc; "{error}") else {
        return SubmoduleFault::Memory;
    };
    match ByteText::from_slice(alloc, words.as_bytes()) {
        Ok(text) => SubmoduleFault::Failed { text },
        Err(_) => SubmoduleFault::Memory,
    }
}

/// Returns the commit that the `HEAD` of the repository in a folder of the worktree leads to. None if there is none.
///
/// # Errors
/// The repository's format isn't known, a file can't be read, or out of memory.
pub fn head_below<R: Files + AllocGlobal>(
    rt: &R,
    top: &str,
    path: BStr<'_>,
) -> Result<Option<ObjectId>, RepositoryError> {
    let Ok(path) = str::from_utf8(path.as_bytes()) else {
        return Ok(None);
    };
    let folder = joined(rt.alloc(), top, path)?;
    match git_dir_in(rt, folder.as_str(), Refusal::IsError)? {
        Some(git_dir) => known_head(rt, git_dir.as_str()),
        None => Ok(None),
    }
}

// Returns the commit that the `HEAD` of a repository leads to, after a check that its format is known.
fn known_head<R: Files + AllocGlobal>(
    rt: &R,
    git_dir: &str,
) -> Result<Option<ObjectId>, RepositoryError> {
    let common_dir = common_dir_of(rt, git_dir)?;
    let path = joined(rt.alloc(), common_dir.as_str(), "config")?;
    read_format(rt.alloc(), &read_file(rt, path)?.config)?;
    head_of(rt, git_dir, common_dir.as_str())
}
