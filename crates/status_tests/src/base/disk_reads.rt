//! Reads of files of the disk: in pieces, of a file that is shortened meanwhile, and interrupted.

use crate::support::folders::{within, writer};
use crate::support::prelude::*;
use status_index::{HashKind, compute_hash, compute_stream_hash};
use std::alloc::Allocator;
use std::cell::Cell;
use std::fs;
use std::fs::{Metadata, OpenFile, OpenOptions};
use std::io::{self, Read, Seek, SeekFrom, Write};

// Returns the id of the first 200,000 bytes of the file `a`. After it is opened, the file gets this length.
fn read_at_length<R: Files, W: Worktree>(
    rt: &R,
    worktree: &W,
    path: &str,
    len: u64,
) -> Result<Result<ObjectId, Fault>, Fail>
where
    R::File: Drop,
{
    let mut file = worktree.open(BStr::new(b"a"))?;
    writer(rt, path)?.set_len(len)?;
    Ok(compute_stream_hash(HashKind::Sha1, &mut file, 200_000))
}

// Asserts how the file `a` is read from a folder. The file is at `path`.
fn assert_pieces<R: Files + AllocGlobal + Abort>(
    rt: &R,
    folder: &str,
    path: &str,
) -> Result<(), Fail>
where
    R::File: Drop,
{
    let content = Vec::from_elem(rt.alloc(), b'x', 200_000)?;
    fs::write(rt, path, content.as_slice())?;
    let worktree = DiskWorktree::new(rt, Path::new(folder))?;
    let want = compute_hash(HashKind::Sha1, &content);
    assert_eq!(rt; read_at_length(rt, &worktree, path, 200_000)?, Ok(want));
    let shortened = read_at_length(rt, &worktree, path, 70_000)?;
    assert_eq!(rt; shortened, Err(Fault::UnexpectedEnd));
    Ok(())
}

#[test]
fn files_are_read_in_pieces(rt: HostRuntime) -> Result<(), Fail> {
    let folder = own_folder(&rt, "files_are_read")?;
    let path = within(&rt, folder.as_str(), "a")?;
    assert_pieces(&rt, folder.as_str(), path.as_str())?;
    fs::remove_dir_all(&rt, folder.as_str())?;
    Ok(())
}

/// A runtime that counts the reads of its files, and interrupts the first one.
#[derive(Drop)]
struct Interrupting<'a, R> {
    rt: &'a R,
    reads: &'a Cell<u32>,
}

/// A file of this runtime.
#[derive(Drop)]
struct InterruptedFile<'a, F> {
    file: F,
    reads: &'a Cell<u32>,
}

impl<'a, R: AllocGlobal> Alloc for Interrupting<'a, R> {
    type A = R::A;

    fn alloc(&self) -> R::A {
        self.rt.alloc()
    }
}

impl<'a, R: Files> Files for Interrupting<'a, R> {
    type File = InterruptedFile<'a, R::File>;

    type Dir = R::Dir;

    fn open_file(&self, how: &OpenOptions, path: &str) -> io::Result<InterruptedFile<'a, R::File>> {
        Ok(InterruptedFile {
            file: self.rt.open_file(how, path)?,
            reads: self.reads,
        })
    }

    fn open_dir(&self, path: &str) -> io::Result<R::Dir> {
        self.rt.open_dir(path)
    }

    fn metadata(&self, path: &str) -> io::Result<Metadata> {
        self.rt.metadata(path)
    }

    fn symlink_metadata(&self, path: &str) -> io::Result<Metadata> {
        self.rt.symlink_metadata(path)
    }

    fn copy(&self, from: &str, to: &str) -> io::Result<u64> {
        self.rt.copy(from, to)
    }

    fn rename(&self, from: &str, to: &str) -> io::Result<()> {
        self.rt.rename(from, to)
    }

    fn remove_file(&self, path: &str) -> io::Result<()> {
        self.rt.remove_file(path)
    }

    fn create_dir(&self, path: &str) -> io::Result<()> {
        self.rt.create_dir(path)
    }

    fn remove_dir(&self, path: &str) -> io::Result<()> {
        self.rt.remove_dir(path)
    }

    fn remove_dir_all<B: Allocator>(&self, alloc: B, path: &str) -> io::Result<()> {
        self.rt.remove_dir_all(alloc, path)
    }
}

impl<'a, F: Read> Read for InterruptedFile<'a, F> {
    fn read(&mut self, buffer: &mut [u8]) -> io::Result<usize> {
        let reads = self.reads.get();
        self.reads.set(reads.saturating_add(1));
        if reads == 0 {
            return Err(io::Error::from(io::ErrorKind::Interrupted));
        }
        self.file.read(buffer)
    }
}

impl<'a, F: Write> Write for InterruptedFile<'a, F> {
    fn write(&mut self, buffer: &[u8]) -> io::Result<usize> {
        self.file.write(buffer)
    }

    fn flush(&mut self) -> io::Result<()> {
        self.file.flush()
    }
}

impl<'a, F: Seek> Seek for InterruptedFile<'a, F> {
    fn seek(&mut self, to: SeekFrom) -> io::Result<u64> {
        self.file.seek(to)
    }
}

impl<'a, F: OpenFile> OpenFile for InterruptedFile<'a, F> {
    fn metadata(&self) -> io::Result<Metadata> {
        self.file.metadata()
    }

    fn set_len(&self, size: u64) -> io::Result<()> {
        self.file.set_len(size)
    }

    fn sync_all(&self) -> io::Result<()> {
        self.file.sync_all()
    }

    fn sync_data(&self) -> io::Result<()> {
        self.file.sync_data()
    }
}

// Returns whether the first read of the file `a` is interrupted, and the second returns its three bytes, with one call
// of the system each.
fn is_read_by_one_call_each<W: Worktree>(worktree: &W, reads: &Cell<u32>) -> bool {
    let mut buffer = [0u8; 8];
    let Ok(mut file) = worktree.open(BStr::from("a")) else {
        return false;
    };
    let first = file.read_bytes(&mut buffer) == Err(Fault::Interrupted) && reads.get() == 1;
    let second = file.read_bytes(&mut buffer) == Ok(3) && reads.get() == 2;
    first && second && &buffer[..3] == b"foo".as_slice()
}

#[test]
fn a_read_that_is_interrupted_is_not_made_again(rt: HostRuntime) -> Result<(), Fail> {
    let folder = own_folder(&rt, "a_read_is_interrupted")?;
    fill(&rt, folder.as_str(), &[("a", FolderNode::Staged("foo"))])?;
    let reads = Cell::new(0);
    let interrupting = Interrupting {
        rt: &rt,
        reads: &reads,
    };
    let worktree = DiskWorktree::new(interrupting, Path::new(folder.as_str()))?;
    assert!(rt; is_read_by_one_call_each(&worktree, &reads));
    fs::remove_dir_all(&rt, folder.as_str())?;
    Ok(())
}
