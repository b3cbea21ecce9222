//! A worktree with faults, as written by a caller who needs no proof about it.

use bstr::BStr;
use gix_status::worktree::{Fault, MemoryFile, MemoryWorktree, Metadata, ReadBytes, Worktree};

/// The call of a worktree that fails.
#[derive(Clone, Copy, PartialEq, Eq)]
pub enum Point {
    Lstat,
    Open,
    Read,
    ReadLink,
}

/// A file. If it has a fault, each read fails by it.
#[derive(Drop)]
pub struct BrokenFile {
    pub file: MemoryFile,
    pub fault: Option<Fault>,
}

impl ReadBytes for BrokenFile {
    ghost give_may_fail = { λ _. tt };

    fn read_bytes(&mut self, buffer: &mut [u8]) -> Result<usize, Fault> {
        match self.fault {
            Some(fault) => Err(fault),
            None => self.file.read_bytes(buffer),
        }
    }
}

/// A worktree in memory with faults at some calls on some paths.
#[derive(Drop)]
pub struct Broken<'a> {
    pub worktree: MemoryWorktree,
    pub faults: &'a [(Point, &'a str, Fault)],
}

impl<'a> Broken<'a> {
    fn fault_at(&self, point: Point, path: BStr<'_>) -> Option<Fault> {
        for (broken, at, fault) in self.faults {
            if *broken == point && at.as_bytes() == path.as_bytes() {
                return Some(*fault);
            }
        }
        None
    }

    fn check(&self, point: Point, path: BStr<'_>) -> Result<(), Fault> {
        match self.fault_at(point, path) {
            Some(fault) => Err(fault),
            None => Ok(()),
        }
    }
}

impl<'a> Worktree for Broken<'a> {
    type File = BrokenFile;

    ghost stat_may_fail = { λ _ _. tt };

    ghost open_may_fail = { λ _ _. tt };

    ghost link_may_fail = { λ _ _. tt };

    fn lstat(&self, path: BStr<'_>) -> Result<Metadata, Fault> {
        self.check(Point::Lstat, path)?;
        self.worktree.lstat(path)
    }

    fn open(&self, path: BStr<'_>) -> Result<BrokenFile, Fault> {
        self.check(Point::Open, path)?;
        Ok(BrokenFile {
            file: self.worktree.open(path)?,
            fault: self.fault_at(Point::Read, path),
        })
    }

    fn read_link(&self, path: BStr<'_>, target: &mut Vec<u8>) -> Result<(), Fault> {
        target.clear();
        self.check(Point::ReadLink, path)?;
        self.worktree.read_link(path, target)
    }
}
