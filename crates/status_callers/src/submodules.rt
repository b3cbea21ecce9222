//! Submodules as a caller writes them.

ghost use Rattle.std.specs.Prelude.{◌≡◌, None, Ok, false, true, refl};
ghost use Rattle.status_callers.specs.Texts.{answer_of};

use crate::statuses::{StatusReport, options, status_without_threads};
use bstr::BStr;
use gix_status::index::{Entry, State};
use gix_status::index_as_worktree::Error;
use gix_status::worktree::{ByteText, DiskWorktree, NoLister, SubmoduleFault, SubmoduleStatus};
use std::alloc::{AllocError, Global};
use std::path::Path;

/// Submodules that all have the same result: no change, a number, or a fault with a text.
#[derive(Drop)]
pub struct Alike<'a> {
    pub alloc: Global,
    pub answer: Result<Option<u32>, &'a [u8]>,
}

impl<'a> Clone for Alike<'a> {
    ghost is_clone = { λ x y. y ≡ x };

    fn clone(&self) -> Result<Alike<'a>, AllocError> {
        Ok(Alike {
            alloc: self.alloc,
            answer: self.answer,
        })
    }
}

impl<'a> SubmoduleStatus for Alike<'a> {
    ghost use Rattle.std.proofs.Common.{ap};

    type Output = u32;

    ghost modelled = { λ _. true };

    ghost status_of = { λ s _. answer_of s.answer };

    ghost clone_keeps_modelled = { λ _ _ _. refl };

    ghost clone_keeps_status = { λ _ _ same. ap (λ s _. answer_of s.answer) same };

    ghost clone_reports_within = { λ _ _ _ _ _ _. tt };

    fn status(&mut self, _entry: &Entry, _path: BStr<'_>) -> Result<Option<u32>, SubmoduleFault> {
        match self.answer {
            Ok(change) => Ok(change),
            Err(text) => {
                let text = ByteText::from_slice(self.alloc, text)?;
                Err(SubmoduleFault::Failed { text })
            }
        }
    }
}

/// Submodules in the folders of their paths below a root. Each has its own status: the status call over its folder,
/// with one index for all. If that reports records, their number is the submodule's change. They aren't modelled.
#[derive(Clone, Copy)]
pub struct FolderSubmodules<'a> {
    pub rt: &'a HostRuntime,
    pub root: &'a str,
    pub index: &'a State,
}

impl<'a> SubmoduleStatus for FolderSubmodules<'a> {
    type Output = usize;

    ghost modelled = { λ _. false };

    ghost status_of = { λ _ _. Ok None };

    ghost clone_keeps_modelled = { λ _ _ _. refl };

    ghost clone_keeps_status = { λ _ _ _. refl };

    ghost clone_reports_within = { λ _ _ _ _ _ _. tt };

    fn status(&mut self, _entry: &Entry, path: BStr<'_>) -> Result<Option<usize>, SubmoduleFault> {
        records_below(self.rt, self.index, self.root, path)
    }
}

// Returns how many records the status of the folder at a path below a root has. None if it has none.
fn records_below(
    rt: &HostRuntime,
    index: &State,
    root: &str,
    path: BStr<'_>,
) -> Result<Option<usize>, SubmoduleFault> {
    let alloc = rt.alloc();
    let folder = format!(in alloc; "{root}/{path}")?;
    let worktree = DiskWorktree::new(rt, Path::new(folder.as_str()))?;
    let StatusReport { records, answer } = status_without_threads(
        alloc,
        index,
        &worktree,
        NoLister,
        options(),
    );
    match answer {
        Ok(_) if records.is_empty() => Ok(None),
        Ok(_) => Ok(Some(records.len())),
        Err(error) => Err(fault_of(alloc, error)),
    }
}

// Returns the fault of a submodule whose status call failed.
fn fault_of(alloc: Global, error: Error) -> SubmoduleFault {
    if matches!(&error, Error::Memory) {
        return SubmoduleFault::Memory;
    }
    match format!(in alloc; "{error}") {
        Ok(text) => SubmoduleFault::Failed {
            text: ByteText::new(text.into_bytes()),
        },
        Err(_) => SubmoduleFault::Memory,
    }
}
