//! The attribute files of a worktree.

ghost use Rattle.std.specs.Prelude.{◌≡◌, ◌++◌, IfOk, map};
ghost use Rattle.git_attributes.specs.Files.{attributes_of};
ghost use Rattle.git_attributes.specs.Views.{attributes_view, file_view};

use crate::attributes::{Attributes, BUILT_IN, Source};
use crate::fault::AttributeFault;
use status_index::State;
use std::alloc::{AllocError, Global};

/// An attribute file that was read.
#[derive(Debug, Drop)]
pub struct AttributeFile {
    /// The folder whose paths the file's patterns are for, from the worktree's top, with a slash at the end; nothing for all
    /// paths.
    pub folder: Vec<u8>,
    /// Whether the file may state macros, as git lets the file of the worktree's top and those outside of the worktree.
    pub has_macros: bool,
    /// The file's bytes.
    pub bytes: Vec<u8>,
}

/// The attribute files that count for a worktree and an index besides those within the worktree.
pub trait AttributeFiles: Drop {
    ghost use Rattle.std.specs.Prelude.{IfOk, List, map};
    ghost use Rattle.status_index.specs.Entries.{IndexEntry};
    ghost use Rattle.status_index.specs.States.{index_of};
    ghost use Rattle.git_attributes.specs.Files.{File};
    ghost use Rattle.git_attributes.specs.Views.{file_view};

    /// Which files count for an index, the weakest one first, if these were found within the worktree.
    ghost are_files: { Self → List IndexEntry → List File → List File → Type 0 };

    /// Puts the files that were found within the worktree among the others that count for an index. Returns all of them, the
    /// weakest one first.
    ///
    /// # Errors
    /// The object of a file can't be read, or out of memory.
    fn with_others(
        &self,
        alloc: Global,
        index: &State,
        within: Vec<AttributeFile>,
    ) -> Result<Vec<AttributeFile>, AttributeFault>
        ensures { IfOk result (λ files. are_files self.now (index_of index.now) (map file_view within.items) (map file_view files.items)) };
}

/// Returns some files and others after them.
///
/// # Errors
/// Out of memory.
pub(crate) fn append(
    mut files: Vec<AttributeFile>,
    mut others: Vec<AttributeFile>,
) -> Result<Vec<AttributeFile>, AllocError>
    ensures { IfOk result (λ all. all.items ≡ files.items ++ others.items) }
{
    files.append(&mut others)?;
    Ok(files)
}

/// Returns what attribute files say, the weakest one first. The macro `binary` is weaker than all of them.
///
/// # Errors
/// Out of memory.
pub fn attributes_of(alloc: Global, files: &[AttributeFile]) -> Result<Attributes<'_>, AllocError>
    ensures { IfOk result (λ attributes. attributes_view attributes ≡ attributes_of (map file_view files.now)) }
{
    let mut attributes = Attributes::new(alloc);
    attributes.read(alloc, BUILT_IN)?;
    let mut rest = files;
    'files: while let [file, after @ ..] = rest {
        attributes.read(
            alloc,
            Source {
                folder: &file.folder,
                has_macros: file.has_macros,
                bytes: &file.bytes,
            },
        )?;
        rest = after;
    }
    Ok(attributes)
}
