//! Streams of files: how they end, and ids of their first bytes.

use crate::support::pieces::Piece;
use crate::support::prelude::*;
use status_base::worktree::ToGitOutcome;
use status_compare::Stream;
use status_index::{HashKind, compute_hash, compute_stream_hash};
use std::io::{ErrorKind, Read};

// Returns a reader of `foo`, which then has this fault, if any.
fn foo(fault: Option<Fault>) -> Piece<'static> {
    Piece {
        bytes: b"foo",
        fault,
    }
}

#[test]
fn a_reader_is_hashed_to_a_length(rt: HostRuntime) {
    let (planted, of_foo) = (Some(Fault::Other(5)), compute_hash(HashKind::Sha1, b"foo"));
    for (fault, len, want) in [
        (None, 3, Ok(of_foo)),
        (None, 4, Err(Fault::UnexpectedEnd)),
        (planted, 3, Ok(of_foo)),
        (planted, 4, Err(Fault::Other(5))),
    ] {
        let found = compute_stream_hash(HashKind::Sha1, &mut foo(fault), len);
        assert_eq!(rt; found, want);
    }
}

// Returns why reading to the end fails. None if it doesn't.
fn end_of<S: Read>(stream: &mut S, all: &mut Vec<u8>) -> Option<ErrorKind> {
    match stream.read_to_end(all) {
        Ok(_) => None,
        Err(error) => Some(error.kind()),
    }
}

// A fault, and the kind of error that std's readers report for it.
static KINDS: [(Fault, ErrorKind); 9] = [
    (Fault::NotFound, ErrorKind::NotFound),
    (Fault::NotADirectory, ErrorKind::NotADirectory),
    (Fault::PermissionDenied, ErrorKind::PermissionDenied),
    (Fault::Interrupted, ErrorKind::Interrupted),
    (Fault::IllformedUtf8, ErrorKind::InvalidData),
    (Fault::UnexpectedEnd, ErrorKind::UnexpectedEof),
    (Fault::NotNormal, ErrorKind::InvalidData),
    (Fault::Memory, ErrorKind::OutOfMemory),
    (Fault::Other(5), ErrorKind::Other),
];

// Returns the kind of error of the first read that fails, of two. None if both succeed.
fn kind_of_read<S: Read>(stream: &mut S) -> Option<ErrorKind> {
    for _ in 0..2 {
        if let Err(error) = stream.read(&mut [0; 4]) {
            return Some(error.kind());
        }
    }
    None
}

#[test]
fn faults_of_streams_have_kinds(rt: HostRuntime) {
    for (fault, kind) in &KINDS {
        let mut file = Stream::new(ToGitOutcome::Unchanged(foo(Some(*fault))), None);
        assert_eq!(rt; kind_of_read(&mut file), Some(*kind), "{fault}");
    }
    let mut file = Stream::new(
        ToGitOutcome::Unchanged(foo(Some(Fault::UnexpectedEnd))),
        Some(4),
    );
    assert_eq!(rt; file.as_bytes(), None);
    let mut all = Vec::new(rt.alloc());
    assert_eq!(rt; end_of(&mut file, &mut all), Some(ErrorKind::UnexpectedEof));
    assert_eq!(rt; all.as_slice(), b"foo".as_slice());
    assert_eq!(rt; (file.size(), Stream::bytes(&file)), (Some(4), 3));
}
