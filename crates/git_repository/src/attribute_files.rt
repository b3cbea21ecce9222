//! The attribute files of a repository.

ghost use Rattle.std.specs.Prelude.{All, IfOk, IfSome, map};
ghost use Rattle.git_attributes.specs.Views.{file_view};
ghost use Rattle.git_repository.specs.AttributeFiles.{IsOutside};

use crate::error::RepositoryError;
use crate::files::joined;
use crate::location::Repository;
use crate::outer_attributes::outer_files;
use crate::regular::{Unread, read_regular};
use git_attributes::{ATTRIBUTES_LIMIT, AttributeFault, AttributeFile, AttributeFiles};
use status_index::State;
use std::alloc::{AllocError, Global};
use std::io;
use std::rt::{Env, Files};

/// The attribute files of a repository besides those within its worktree: of the system, the user, and the repository's own
/// `info/attributes`. As in git, a file that can't be read counts as none.
#[derive(Drop)]
pub struct GitAttributeFiles<'a, R> {
    outer: Vec<String>,
    own: String,
    rt: &'a R,
}

impl<'a, R: Files + Env + AllocGlobal> GitAttributeFiles<'a, R> {
    /// Returns the attribute files of a repository.
    ///
    /// # Errors
    /// `core.attributesFile` has no value, or is in a home folder that isn't known; a variable of the environment or a path
    /// in the configuration isn't UTF-8; or out of memory.
    pub fn new(
        rt: &'a R,
        repository: &Repository,
    ) -> Result<GitAttributeFiles<'a, R>, RepositoryError> {
        let outer = outer_files(rt, repository)?;
        let own = joined(
            rt.alloc(),
            repository.common_dir.as_str(),
            "info/attributes",
        )?;
        Ok(GitAttributeFiles { outer, own, rt })
    }
}

/// Returns a file outside of the worktree, or the repository's own. None if it can't be read.
fn file_outside<R: Files + AllocGlobal>(
    rt: &R,
    path: &str,
) -> Result<Option<AttributeFile>, AllocError>
    ensures { IfOk result (λ found. IfSome found (λ file. IsOutside (file_view file))) }
{
    match read_regular(rt, path, ATTRIBUTES_LIMIT - 1) {
        Ok(found) => Ok(Some(AttributeFile {
            folder: Vec::new(rt.alloc()),
            has_macros: true,
            bytes: found.bytes,
        })),
        Err(Unread::System(io::ErrorKind::OutOfMemory)) => Err(AllocError),
        Err(_) => Ok(None),
    }
}

/// Returns the files at these paths that can be read.
#[tactic(auto, using(crate::proofs::Outside::outside_more))]
fn files_outside<R: Files + AllocGlobal>(
    alloc: Global,
    rt: &R,
    paths: &[String],
) -> Result<Vec<AttributeFile>, AllocError>
    ensures { IfOk result (λ files. All IsOutside (map file_view files.items)) }
{
    let mut files = Vec::new(alloc);
    let mut rest = paths;
    'paths: while let [path, after @ ..] = rest {
        if let Some(file) = file_outside(rt, path.as_str())? {
            files.push(file)?;
        }
        rest = after;
    }
    Ok(files)
}

impl<R: Files + AllocGlobal> AttributeFiles for GitAttributeFiles<'_, R> {
    ghost use Rattle.git_repository.specs.AttributeFiles.{AreRepositoryFiles};

    ghost are_files = { λ _ _. AreRepositoryFiles };

    fn with_others(
        &self,
        alloc: Global,
        _index: &State,
        within: Vec<AttributeFile>,
    ) -> Result<Vec<AttributeFile>, AttributeFault> {
        let mut files = files_outside(alloc, self.rt, &self.outer)?;
        let mut inner = within;
        files.append(&mut inner)?;
        if let Some(own) = file_outside(self.rt, self.own.as_str())? {
            files.push(own)?;
        }
        Ok(files)
    }
}
