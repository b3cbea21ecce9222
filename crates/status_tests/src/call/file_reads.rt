//! How often a status calls `lstat` on a file, opens it and reads it.

use crate::call::reports::{Says, Wanted, is_report, read, status_by_pieces};
use crate::support::inputs::time;
use crate::support::pieces::Piece;
use crate::support::prelude::*;
use gix_status::index_as_worktree::Outcome;

/// A file that counts its reads.
#[derive(Clone, Copy)]
struct CountedPiece<'a> {
    piece: Piece<'a>,
    reads: &'a AtomicUsize,
}

impl<'a> ReadBytes for CountedPiece<'a> {
    ghost give_may_fail = { λ _. tt };

    fn read_bytes(&mut self, buffer: &mut [u8]) -> Result<usize, Fault> {
        self.reads.fetch_add(1, Ordering::SeqCst);
        self.piece.read_bytes(buffer)
    }
}

/// A worktree with the same file at each path, written after the entries were staged. `lstat` reports the length `len`.
/// It isn't modelled.
#[derive(Clone, Copy)]
struct Everywhere<'a> {
    file: CountedPiece<'a>,
    len: u64,
}

impl<'a> Worktree for Everywhere<'a> {
    type File = CountedPiece<'a>;

    ghost stat_may_fail = { λ _ _. tt };

    ghost open_may_fail = { λ _ _. tt };

    ghost link_may_fail = { λ _ _. tt };

    fn lstat(&self, _path: BStr<'_>) -> Result<Metadata, Fault> {
        Ok(Metadata {
            len: self.len,
            mtime: Some(time(LATER)),
            ctime: Some(time(STAGED)),
            kind: NodeKind::File,
            executable: false,
            dev: 0,
            ino: 0,
            uid: 0,
            gid: 0,
        })
    }

    fn open(&self, _path: BStr<'_>) -> Result<CountedPiece<'a>, Fault> {
        Ok(self.file)
    }

    fn read_link(&self, _path: BStr<'_>, target: &mut Vec<u8>) -> Result<(), Fault> {
        target.clear();
        Err(Fault::NotFound)
    }
}

/// Returns how often a status of `a` reads the file, of which `lstat` reports the length `len`. None if the status
/// doesn't end so, or calls `lstat` or `open` more than once.
fn reads<R: AllocGlobal + Threads + Wait>(
    rt: &R,
    piece: Piece<'_>,
    len: u64,
    wanted: &[Wanted<'_>],
    end: &Result<Outcome, Fault>,
) -> Result<Option<usize>, Fail> {
    let index = foos(rt.alloc(), &["a"])?;
    let reads = AtomicUsize::new(0);
    let file = CountedPiece {
        piece,
        reads: &reads,
    };
    let calls = Calls::new();
    let worktree = counted(Everywhere { file, len }, "a", &calls);
    let report = status_by_pieces(rt, &index, &worktree, 1, 1);
    let is_right = is_report(&report, wanted, end) && calls.made() == (1, 1);
    Ok(is_right.then_some(reads.load(Ordering::SeqCst)))
}

// One read returns bytes, and one fails.
#[test]
fn a_read_that_fails_is_not_tried_again(rt: HostRuntime) -> Result<(), Fail> {
    let (bytes, fault) = (b"ba".as_slice(), Fault::Interrupted);
    let piece = Piece {
        bytes,
        fault: Some(fault),
    };
    assert_eq!(rt; reads(&rt, piece, 3, &[], &Err(fault))?, Some(2));
    Ok(())
}

// Four reads of 64 KiB return the bytes, and a fifth may find the end.
#[test]
fn a_long_file_is_opened_once_and_read_in_large_pieces(rt: HostRuntime) -> Result<(), Fail> {
    let content = Vec::from_elem(rt.alloc(), b'x', 200_000)?;
    let piece = Piece {
        bytes: &content,
        fault: None,
    };
    let wanted = [(0, "a", Says::Changed(&content))];
    let reads = reads(&rt, piece, 200_000, &wanted, &Ok(read(1, 1, 200_000)))?;
    assert!(rt; matches!(reads, Some(reads) if reads <= 5), "{reads:?}");
    Ok(())
}
