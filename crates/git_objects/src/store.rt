//! A repository's folder of objects.

use crate::alternates::folders_of;
use crate::fault::ObjectFault;
use crate::loose::read_loose;
use crate::object::{Object, ObjectKind, certified};
use crate::packs::{Packs, open_packs};
use crate::paths::{loose_path, read_file};
use crate::read::ReadObject;
use status_index::{HashKind, ObjectId};
use std::os::unix::fs::FileExt;
use std::rt::Files;

/// The most bytes of an object's content, and of all deltas from which it is made: 128 MiB.
pub const OBJECT_LIMIT: usize = 128 << 20;

/// The most bytes of a loose object's file.
const FILE_LIMIT: usize = 128 << 20;

/// The objects of a folder `objects` and of its alternates.
#[derive(Drop)]
pub struct ObjectStore<'r, R: Files> {
    rt: &'r R,
    hash: HashKind,
    /// The folders, that of the repository first.
    folders: Vec<String>,
    packs: Packs<R::File>,
}

impl<'r, R: Files + AllocGlobal> ObjectStore<'r, R>
where
    R::File: FileExt,
{
    /// Returns the objects in a folder, such as `.git/objects`, and in the folders that its `info/alternates` names.
    /// The packs are listed and opened, two files for each. A pack that can't be opened is left out.
    ///
    /// # Errors
    /// The system refuses to read a list of alternates or of packs, there are too many alternates, or out of memory.
    pub fn open(
        rt: &'r R,
        hash: HashKind,
        objects: &str,
    ) -> Result<ObjectStore<'r, R>, ObjectFault> {
        let folders = folders_of(rt, objects)?;
        let packs = open_packs(rt, hash, folders.as_slice())?;
        Ok(ObjectStore {
            rt,
            hash,
            folders,
            packs,
        })
    }

    /// Returns what is stored under an id, loose or in a pack. None if nothing is.
    fn find(&self, id: ObjectId) -> Result<Option<Object>, ObjectFault> {
        let alloc = self.rt.alloc();
        for folder in &self.folders {
            let path = loose_path(alloc, folder.as_str(), id)?;
            if let Some(file) = read_file(self.rt, path.as_str(), FILE_LIMIT)? {
                return Ok(Some(read_loose(alloc, file.as_slice(), OBJECT_LIMIT)?));
            }
        }
        self.packs.find(alloc, id, OBJECT_LIMIT)
    }

    /// Returns what the packs have under an id that are there now: others may have been written meanwhile.
    fn find_anew(&self, id: ObjectId) -> Result<Object, ObjectFault> {
        let packs = open_packs(self.rt, self.hash, self.folders.as_slice())?;
        match packs.find(self.rt.alloc(), id, OBJECT_LIMIT)? {
            Some(object) => Ok(object),
            None => Err(packs.fault().unwrap_or(ObjectFault::Missing { id })),
        }
    }
}

impl<'r, R: Files + AllocGlobal> ReadObject for ObjectStore<'r, R>
where
    R::File: FileExt,
{
    fn read(&self, id: ObjectId) -> Result<Object, ObjectFault> {
        if id.kind() != self.hash {
            return Err(ObjectFault::Missing { id });
        }
        if let Some(object) = self.find(id)? {
            return certified(id, object);
        }
        // The tree without items need not be stored.
        let empty = Object {
            kind: ObjectKind::Tree,
            bytes: Vec::new(self.rt.alloc()),
        };
        match certified(id, empty) {
            Ok(object) => Ok(object),
            Err(_) => certified(id, self.find_anew(id)?),
        }
    }
}
