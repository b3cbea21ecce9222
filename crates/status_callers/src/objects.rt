//! An object database as a caller writes it.

ghost use Rattle.std.specs.Prelude.{Err, false, refl};
ghost use Rattle.status_base.specs.declared.worktree.objects.FindError.TheVariants.{Missing};

use gix_status::index::ObjectId;
use gix_status::worktree::{Find, FindError};
use std::io::Read;
use std::rt::Files;
use std::{fs, io};

/// Blobs in a folder, each in a file that is named by the hexadecimal digits of its id. They aren't modelled.
#[derive(Clone, Copy)]
pub struct FolderObjects<'a> {
    pub rt: &'a HostRuntime,
    pub folder: &'a str,
}

impl<'a> Find for FolderObjects<'a> {
    ghost modelled = { λ _. false };

    ghost found = { λ _ _. Err Missing };

    ghost clone_keeps_modelled = { λ _ _ _. refl };

    ghost clone_keeps_found = { λ _ _ _. refl };

    ghost clone_finds_within = { λ _ _ _ _ _ _. tt };

    ghost find_may_fail = { λ _ _. tt };

    fn find_blob(&self, id: &ObjectId, buffer: &mut Vec<u8>) -> Result<(), FindError> {
        match read_blob(self.rt, self.folder, id, buffer) {
            Ok(()) => Ok(()),
            Err(error) if error.kind() == io::ErrorKind::OutOfMemory => Err(FindError::Memory),
            // The interface has no error for a file that can't be read.
            Err(_) => Err(FindError::Missing),
        }
    }
}

// Returns the path of a blob's file.
fn path_of<R: AllocGlobal>(rt: &R, folder: &str, id: &ObjectId) -> io::Result<String> {
    let name = hex::encode(rt.alloc(), id.as_bytes())?;
    Ok(format!(in rt.alloc(); "{folder}/{name}")?)
}

// Reads the file of a blob.
fn read_blob<R: Files + AllocGlobal>(
    rt: &R,
    folder: &str,
    id: &ObjectId,
    buffer: &mut Vec<u8>,
) -> io::Result<()> {
    let path = path_of(rt, folder, id)?;
    let mut file = fs::open(rt, path.as_str())?;
    buffer.clear();
    file.read_to_end(buffer)?;
    Ok(())
}
