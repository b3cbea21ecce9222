//! The search for the untracked files that a request asks for.

ghost use Rattle.std.specs.Prelude.{◌≡◌, IfSome, is_some};
ghost use Rattle.git_checkout.specs.Searches.{is_asked, is_each};

use crate::folders::DiskFolders;
use crate::refused::Refused;
use crate::request::{Request, UntrackedFiles};
use git_pathspecs::Element;
use git_repository::{Repository, outer_ignore_files};
use git_status::Nodes;
use git_untracked::Untracked;
use std::rt::{Env, Files};

/// The parts of a search for untracked files.
#[derive(Drop)]
pub(crate) struct UntrackedParts<'x, R, W> {
    pub(crate) mode: UntrackedFiles,
    /// Whether ignored files are asked for too.
    pub(crate) ignored: bool,
    pub(crate) folders: DiskFolders<'x, R, W>,
    /// The ignore files outside of the worktree.
    pub(crate) outer: Vec<Vec<u8>>,
    /// The elements of the pathspec that selects paths.
    pub(crate) elements: Vec<Element<'x>>,
}

impl<'x, R, W> UntrackedParts<'x, R, W> {
    /// Returns the search. None if no untracked files are asked for.
    pub(crate) fn search(&self) -> Option<Untracked<'_, DiskFolders<'x, R, W>, Nodes<'_>>>
        ensures asked { is_some result ≡ is_asked self.now.mode }
        ensures folders { IfSome result (λ search. search.folders.now ≡ self.now.folders) }
        ensures paths { IfSome result (λ search. search.paths.elements.now ≡ self.now.elements.items) }
        ensures outer { IfSome result (λ search. search.outer.now ≡ self.now.outer.items) }
        ensures all { IfSome result (λ search. search.all ≡ is_each self.now.mode) }
        ensures ignored { IfSome result (λ search. search.ignored ≡ self.now.ignored) }
    {
        if self.mode == UntrackedFiles::No {
            return None;
        }
        Some(Untracked {
            folders: &self.folders,
            paths: Nodes {
                elements: &self.elements,
            },
            outer: &self.outer,
            all: self.mode == UntrackedFiles::All,
            ignored: self.ignored,
        })
    }
}

/// Returns the ignore files outside of the worktree, if untracked files are asked for.
///
/// # Errors
/// A setting can't be read, git compares paths without regard to case, or out of memory.
pub(crate) fn outer_files_for<R: AllocGlobal + Env + Files>(
    rt: &R,
    request: &Request<'_>,
    repository: &Repository,
) -> Result<Vec<Vec<u8>>, Refused> {
    if request.untracked == UntrackedFiles::No {
        return Ok(Vec::new(rt.alloc()));
    }
    if repository.settings.ignore_case {
        return Err(Refused::IgnoresCase);
    }
    Ok(outer_ignore_files(rt, repository)?)
}
