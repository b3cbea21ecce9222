//! The packs of several folders of objects.

use crate::fault::ObjectFault;
use crate::object::Object;
use crate::pack::Pack;
use crate::pack_index::PackIndex;
use crate::paths::is_missing;
use status_index::{HashKind, ObjectId};
use std::alloc::Global;
use std::fs::{self, OpenFile as _};
use std::io::{self, Read as _};
use std::os::unix::fs::FileExt;
use std::rt::Files;

/// How many bytes of names are read at once.
const NAMES_PART: usize = 4096;

/// How often names are read at most.
const NAMES_PARTS: u32 = 1 << 16;

/// Packs that are open.
#[derive(Drop)]
pub(crate) struct Packs<F> {
    packs: Vec<Pack<F>>,
    /// Why one of them isn't open.
    fault: Option<ObjectFault>,
}

impl<F: FileExt + Drop> Packs<F> {
    /// Returns why a pack isn't open, if one isn't.
    pub(crate) fn fault(&self) -> Option<ObjectFault> {
        self.fault
    }

    /// Returns what the first pack has that has this id. None if none has it.
    pub(crate) fn find(
        &self,
        alloc: Global,
        id: ObjectId,
        limit: usize,
    ) -> Result<Option<Object>, ObjectFault> {
        for pack in &self.packs {
            if let Some(object) = pack.read(alloc, id, limit)? {
                return Ok(Some(object));
            }
        }
        Ok(None)
    }

    /// Adds a pack, or keeps why it can't be opened. A pack that is gone is left out.
    fn add(&mut self, opened: Result<Option<Pack<F>>, ObjectFault>) -> Result<(), ObjectFault> {
        match opened {
            Ok(Some(pack)) => self.packs.push(pack)?,
            Ok(None) => (),
            Err(ObjectFault::Memory) => return Err(ObjectFault::Memory),
            Err(fault) => self.fault = Some(fault),
        }
        Ok(())
    }
}

/// Opens all packs of these folders of objects.
///
/// # Errors
/// The system refuses to list one, or out of memory.
pub(crate) fn open_packs<R: Files + AllocGlobal>(
    rt: &R,
    hash: HashKind,
    folders: &[String],
) -> Result<Packs<R::File>, ObjectFault>
where
    R::File: FileExt,
{
    let mut packs = Packs {
        packs: Vec::new(rt.alloc()),
        fault: None,
    };
    for folder in folders {
        open_folder(rt, hash, folder.as_str(), &mut packs)?;
    }
    Ok(packs)
}

/// Opens all packs of a folder of objects.
fn open_folder<R: Files + AllocGlobal>(
    rt: &R,
    hash: HashKind,
    folder: &str,
    packs: &mut Packs<R::File>,
) -> Result<(), ObjectFault>
where
    R::File: FileExt,
{
    let path = format!(in rt.alloc(); "{folder}/pack/")?;
    let names = names_in(rt, path.as_str())?;
    for name in names.split(|byte| *byte == 0) {
        // A name that isn't UTF-8 is no pack's: git writes hexadecimal digits.
        if let Ok(name) = str::from_utf8(name)
            && let Some(name) = name.strip_suffix(".idx")
        {
            packs.add(open_pack(rt, hash, path.as_str(), name))?;
        }
    }
    Ok(())
}

/// Returns the names in a folder, with a zero byte after each. A slash ends the folder's path. Returns no bytes if
/// nothing is there.
fn names_in<R: Files + AllocGlobal>(rt: &R, path: &str) -> Result<Vec<u8>, ObjectFault> {
    let mut folder = match rt.open_dir(path) {
        Ok(folder) => folder,
        Err(error) if is_missing(error.kind()) => return Ok(Vec::new(rt.alloc())),
        Err(error) => return Err(ObjectFault::of_system(error.kind())),
    };
    let mut names = Vec::new(rt.alloc());
    // Each part has whole names, for which there has to be room.
    let mut part = [0u8; NAMES_PART];
    for _ in 0..NAMES_PARTS {
        match folder.read(&mut part) {
            Ok(0) => return Ok(names),
            Ok(len) => names.extend_from_slice(&part[..len])?,
            Err(error) if error.kind() == io::ErrorKind::Interrupted => (),
            Err(error) => return Err(ObjectFault::of_system(error.kind())),
        }
    }
    Err(ObjectFault::ManyPacks)
}

/// Opens a pack and its index, by their name without its end. A slash ends the folder's path. None if one of them is gone.
fn open_pack<R: Files + AllocGlobal>(
    rt: &R,
    hash: HashKind,
    folder: &str,
    name: &str,
) -> Result<Option<Pack<R::File>>, ObjectFault>
where
    R::File: FileExt,
{
    let path = format!(in rt.alloc(); "{folder}{name}.idx")?;
    let Some(file) = open_file(rt, path.as_str())? else {
        return Ok(None);
    };
    let index = PackIndex::open(file, hash)?;
    let path = format!(in rt.alloc(); "{folder}{name}.pack")?;
    let Some(file) = open_file(rt, path.as_str())? else {
        return Ok(None);
    };
    let len = match file.metadata() {
        Ok(metadata) => metadata.len(),
        Err(error) => return Err(ObjectFault::of_system(error.kind())),
    };
    Ok(Some(Pack::open(index, file, hash, len)?))
}

/// Opens a regular file. None if nothing is at the path.
pub(crate) fn open_file<R: Files>(rt: &R, path: &str) -> Result<Option<R::File>, ObjectFault> {
    match fs::metadata(rt, path) {
        Ok(metadata) if !metadata.is_file() => return Err(ObjectFault::NotRegular),
        Ok(_) => (),
        Err(error) if is_missing(error.kind()) => return Ok(None),
        Err(error) => return Err(ObjectFault::of_system(error.kind())),
    }
    match fs::open(rt, path) {
        Ok(file) => Ok(Some(file)),
        Err(error) if is_missing(error.kind()) => Ok(None),
        Err(error) => Err(ObjectFault::of_system(error.kind())),
    }
}
