//! The attribute files of an index that git asks for.

ghost use Rattle.std.specs.Prelude.{List};
ghost use Rattle.status_index.specs.Entries.{IndexEntry};

use crate::selection::put;
use bitflags::Flags as _;
use bstr::BStr;
use git_attributes::{AttributeFault, AttributeFile, AttributeFiles};
use git_config::{Config, bool_of};
use git_repository::Repository;
use status_base::worktree::{Fault, NodeKind, Worktree};
use status_index::{Entry, Flags, State};
use std::alloc::{AllocError, Global};

/// The name of attribute files within a worktree.
const NAME: &[u8] = b".gitattributes";

/// Attribute files, of which those of the index count only if git asks for them.
#[derive(Drop)]
pub(crate) struct AskedFor<'a, W, A> {
    pub(crate) worktree: &'a W,
    /// Whether a sparse checkout leaves out whole folders (a *cone*). Then git doesn't ask for the files that it leaves out.
    pub(crate) is_cone: bool,
    pub(crate) files: A,
}

impl<W: Worktree, A: AttributeFiles> AttributeFiles for AskedFor<'_, W, A> {
    ghost are_files = { λ it _ inner files. (some : List IndexEntry) × A.are_files it.files some inner files };

    fn with_others(
        &self,
        alloc: Global,
        index: &State,
        within: Vec<AttributeFile>,
    ) -> Result<Vec<AttributeFile>, AttributeFault> {
        let mut some = State::new(alloc, index.timestamp());
        for entry in index.entries() {
            let path = entry.path_in(index.path_backing());
            if self.asks_for(entry, path, &within) {
                put(&mut some, entry, path)?;
            }
        }
        self.files.with_others(alloc, &some, within)
    }
}

impl<W: Worktree, A> AskedFor<'_, W, A> {
    /// Returns whether git asks for the attribute file that an entry is: its folder is in the worktree, and no file of it was found
    /// there.
    fn asks_for(&self, entry: &Entry, path: BStr<'_>, within: &[AttributeFile]) -> bool {
        let Some(folder) = path.as_bytes().strip_suffix(NAME) else {
            return false;
        };
        if self.is_cone && entry.flags.contains(Flags::SKIP_WORKTREE) {
            return false;
        }
        let found = within.binary_search_by(|file| file.folder.as_slice().cmp(folder));
        found.is_err() && has_folder(self.worktree, folder)
    }
}

/// Returns whether a folder, whose path ends with a slash or is empty for the top, is in the worktree or may be.
fn has_folder<W: Worktree>(worktree: &W, folder: &[u8]) -> bool {
    let [path @ .., _] = folder else {
        return true;
    };
    match worktree.lstat(BStr::new(path)) {
        Ok(node) => node.kind == NodeKind::Directory,
        Err(Fault::NotFound | Fault::NotADirectory) => false,
        Err(_) => true,
    }
}

/// Returns whether a sparse checkout leaves out whole folders.
pub(crate) fn has_cone(repository: &Repository) -> bool {
    let config = &repository.config;
    is_true(config, b"sparsecheckout") && is_true(config, b"sparsecheckoutcone")
}

/// Returns whether a variable of the section `core` is true.
fn is_true(config: &Config, name: &[u8]) -> bool {
    match config.get(b"core", None, name) {
        Some(found) => bool_of(found.value()) == Some(true),
        None => false,
    }
}
