//! Files that are refused, and the texts of errors.

use crate::index_file::broken::{changed, content, refused, unchecked};
use crate::index_file::git_bytes::{SHA256, SPLIT, TREE};
use git_index::{Fault, IndexFileError};
use status_index::{HashKind, IndexError};
use std::alloc::{AllocError, Global};
use std::test::Fail;

#[test]
fn files_of_other_forms_are_refused(rt: HostRuntime) {
    // The entry of a split index has no path, but its extension comes first.
    for (name, kind, bytes, want) in [
        (
            "split",
            HashKind::Sha1,
            SPLIT,
            IndexFileError::Required { name: *b"link" },
        ),
        (
            "SHA-256 read as SHA-1",
            HashKind::Sha1,
            SHA256,
            IndexFileError::Checksum,
        ),
        (
            "SHA-1 read as SHA-256",
            HashKind::Sha256,
            TREE,
            IndexFileError::Checksum,
        ),
    ] {
        assert_eq!(rt; refused(rt.alloc(), kind, bytes), Some(want), "at {name}");
    }
}

// Returns why a file of this length is refused that begins as the one with a tree.
fn of_cut(len: usize) -> IndexFileError {
    if len < 32 {
        return IndexFileError::Header(Fault::Truncated);
    }
    IndexFileError::Checksum
}

// Returns why this many bytes of the content with a tree are refused, if they are. The entry ends at 76, and the
// extension at 109.
fn of_cut_content(len: usize) -> Option<IndexFileError> {
    match len {
        0..12 => Some(IndexFileError::Header(Fault::Truncated)),
        12..76 => Some(IndexFileError::Entry {
            at: 0,
            fault: Fault::Truncated,
        }),
        77..109 => Some(IndexFileError::Extension { at: 76 }),
        _ => None,
    }
}

#[test]
fn cut_files_and_contents_are_refused(rt: HostRuntime) -> Result<(), Fail> {
    let mut cut = Vec::new(rt.alloc());
    for byte in TREE {
        let at = cut.len();
        let found = refused(rt.alloc(), HashKind::Sha1, &cut);
        assert_eq!(rt; found, Some(of_cut(at)), "at {at}");
        if at < content(TREE).len() {
            let whole = unchecked(rt.alloc(), &cut)?;
            let found = refused(rt.alloc(), HashKind::Sha1, &whole);
            assert_eq!(rt; found, of_cut_content(at), "content at {at}");
        }
        cut.push(*byte)?;
    }
    Ok(())
}

// Returns why a file is refused whose byte at an offset has another high bit.
fn of_flipped(at: usize) -> IndexFileError {
    match at {
        0..4 => IndexFileError::Header(Fault::BadSignature),
        4..8 => IndexFileError::Header(Fault::UnknownVersion),
        _ => IndexFileError::Checksum,
    }
}

#[test]
fn flipped_bits_are_found(rt: HostRuntime) -> Result<(), Fail> {
    for (kind, file) in [(HashKind::Sha1, TREE), (HashKind::Sha256, SHA256)] {
        for (at, byte) in file.iter().enumerate() {
            let bytes = changed(rt.alloc(), file, at, &[byte ^ 0x80])?;
            let want = Some(of_flipped(at));
            assert_eq!(rt; refused(rt.alloc(), kind, &bytes), want, "at {at}");
        }
    }
    Ok(())
}

// Returns whether an error has this text.
fn is_shown(alloc: Global, error: &IndexFileError, want: &str) -> Result<bool, AllocError> {
    let text = format!(in alloc; "{error}")?;
    Ok(text.as_str() == want)
}

#[test]
fn errors_have_words(rt: HostRuntime) -> Result<(), Fail> {
    for (error, want) in [
        (
            IndexFileError::Header(Fault::BadSignature),
            "bad header: no signature of an index file",
        ),
        (
            IndexFileError::Header(Fault::UnknownVersion),
            "bad header: unknown version",
        ),
        (IndexFileError::Checksum, "bad checksum"),
        (
            IndexFileError::Entry {
                at: 3,
                fault: Fault::Truncated,
            },
            "bad entry 3: the file is cut off",
        ),
        (
            IndexFileError::Extension { at: 76 },
            "the extension at byte 76 is cut off",
        ),
        (
            IndexFileError::Required { name: *b"link" },
            "the required extension link isn't known",
        ),
        (
            IndexFileError::Strip { at: 1 },
            "bad entry 1: it strips more bytes than the path before it has",
        ),
        (
            IndexFileError::NameLength { at: 0 },
            "bad entry 0: its flags state another length than its path has",
        ),
        (
            IndexFileError::Index(IndexError::NotAscending { at: 2 }),
            "not ascending at 2",
        ),
        (IndexFileError::Memory, "Out of memory"),
    ] {
        assert!(rt; is_shown(rt.alloc(), &error, want)?, "{want}");
    }
    Ok(())
}
