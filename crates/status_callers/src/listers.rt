//! Listers as a caller writes them.

ghost use Rattle.std.specs.Prelude.{None, false, refl};

use bstr::{BStr, BString};
use gix_status::fscache::Stat;
use gix_status::worktree::{Lister, Listing, Metadata, NodeKind, StatFields};
use std::alloc::{AllocError, Global};
use std::fs::DirEntry;
use std::rt::Files;
use std::{fs, io};

/// A directory's path and its names with their stats, or None if it can't be listed.
pub type Directory<'a> = (&'a str, Option<&'a [(&'a str, Stat)]>);

/// Lists these directories, and no other. It isn't modelled.
#[derive(Clone, Copy)]
pub struct Directories<'a> {
    pub alloc: Global,
    pub directories: &'a [Directory<'a>],
}

impl<'a> Lister for Directories<'a> {
    ghost modelled = { λ _. false };

    ghost listing = { λ _ _. None };

    ghost clone_keeps_modelled = { λ _ _ _. refl };

    ghost clone_keeps_listing = { λ _ _ _. refl };

    ghost clone_lists_within = { λ _ _ _ _ _ _. tt };

    fn list(&self, directory: BStr<'_>) -> Result<Listing, AllocError> {
        for (path, names) in self.directories {
            if let (true, Some(names)) = (path.as_bytes() == directory.as_bytes(), names) {
                return Ok(Some(copied(self.alloc, *names)?));
            }
        }
        Ok(None)
    }
}

// Returns a copy of these names with their stats.
fn copied(alloc: Global, names: &[(&str, Stat)]) -> Result<Vec<(BString, Stat)>, AllocError> {
    let mut entries = Vec::new(alloc);
    for (name, stat) in names {
        entries.push((BString::from_slice(alloc, *name)?, *stat))?;
    }
    Ok(entries)
}

/// Lists the directories of a folder of the disk. Its names are those at which a `DiskWorktree` finds the nodes. It
/// isn't modelled.
#[derive(Clone, Copy)]
pub struct FolderLister<'a> {
    pub rt: &'a HostRuntime,
    pub root: &'a str,
}

impl<'a> Lister for FolderLister<'a> {
    ghost modelled = { λ _. false };

    ghost listing = { λ _ _. None };

    ghost clone_keeps_modelled = { λ _ _ _. refl };

    ghost clone_keeps_listing = { λ _ _ _. refl };

    ghost clone_lists_within = { λ _ _ _ _ _ _. tt };

    fn list(&self, directory: BStr<'_>) -> Result<Listing, AllocError> {
        match listed_below(self.rt, self.root, directory) {
            Ok(entries) => Ok(Some(entries)),
            Err(error) if error.kind() == io::ErrorKind::OutOfMemory => Err(AllocError),
            Err(_) => Ok(None),
        }
    }
}

// Returns the names in a directory below a root, with their stats.
fn listed_below(
    rt: &HostRuntime,
    root: &str,
    directory: BStr<'_>,
) -> io::Result<Vec<(BString, Stat)>> {
    let alloc = rt.alloc();
    let path = format!(in alloc; "{root}/{directory}")?;
    let mut entries = Vec::new(alloc);
    for found in fs::read_dir(rt, path.as_str())? {
        add(alloc, &mut entries, &found?)?;
    }
    Ok(entries)
}

// Adds a name with its stat to a list, if a listing can have its node.
fn add<R: Files>(
    alloc: Global,
    entries: &mut Vec<(BString, Stat)>,
    found: &DirEntry<R>,
) -> io::Result<()> {
    let node = StatFields::Portable.metadata_of(&found.metadata()?);
    if let Some(stat) = listed(&node) {
        entries.push((BString::from_slice(alloc, found.file_name())?, stat))?;
    }
    Ok(())
}

// Returns a node's stat in a listing. None if a listing can't have it: it isn't a file, link or directory, or a time
// isn't known.
fn listed(node: &Metadata) -> Option<Stat> {
    let (mtime, ctime) = (node.mtime?, node.ctime?);
    if node.kind == NodeKind::Other {
        return None;
    }
    Some(Stat {
        is_dir: node.kind == NodeKind::Directory,
        is_symlink: node.kind == NodeKind::Link,
        size: node.len,
        mtime_secs: mtime.secs,
        mtime_nsecs: mtime.nsecs,
        ctime_secs: ctime.secs,
        ctime_nsecs: ctime.nsecs,
    })
}
