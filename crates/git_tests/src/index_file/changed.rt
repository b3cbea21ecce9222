//! Files that git wrote, with other bytes at one offset, and zeros as their checksum.

use crate::index_file::broken::{changed, content, refused, unchecked};
use crate::index_file::git_bytes::{CONFLICT, TREE, VERSION_2, VERSION_3, VERSION_4};
use git_index::{Fault, IndexFileError};
use status_index::{HashKind, IndexError};
use std::test::Fail;

// The name of the change, the file, the offset, the bytes that are there instead, and why the file is refused.
type Change = (
    &'static str,
    &'static [u8],
    usize,
    &'static [u8],
    IndexFileError,
);

const CHANGES: [Change; 20] = [
    (
        "a signature",
        VERSION_2,
        3,
        b"X",
        IndexFileError::Header(Fault::BadSignature),
    ),
    (
        "version 1",
        VERSION_2,
        7,
        b"\x01",
        IndexFileError::Header(Fault::UnknownVersion),
    ),
    (
        "version 5",
        VERSION_2,
        7,
        b"\x05",
        IndexFileError::Header(Fault::UnknownVersion),
    ),
    // The extension is read as an entry, and the tree's id as a mode.
    (
        "one more entry",
        TREE,
        11,
        b"\x02",
        IndexFileError::Entry {
            at: 1,
            fault: Fault::BadMode,
        },
    ),
    // The last entry is read as an extension.
    (
        "one entry less",
        CONFLICT,
        11,
        b"\x03",
        IndexFileError::Required { name: [0; 4] },
    ),
    (
        "mode 100666",
        VERSION_2,
        39,
        b"\xb6",
        IndexFileError::Entry {
            at: 0,
            fault: Fault::BadMode,
        },
    ),
    (
        "a second word of flags in version 2",
        VERSION_2,
        72,
        b"\x40",
        IndexFileError::Entry {
            at: 0,
            fault: Fault::BadFlags,
        },
    ),
    (
        "a second word without a flag",
        VERSION_3,
        74,
        b"\0",
        IndexFileError::Entry {
            at: 0,
            fault: Fault::BadFlags,
        },
    ),
    (
        "the reserved flag",
        VERSION_3,
        74,
        b"\xc0",
        IndexFileError::Entry {
            at: 0,
            fault: Fault::BadFlags,
        },
    ),
    (
        "an unused flag",
        VERSION_3,
        75,
        b"\x01",
        IndexFileError::Entry {
            at: 0,
            fault: Fault::BadFlags,
        },
    ),
    (
        "padding",
        VERSION_2,
        147,
        b"x",
        IndexFileError::Entry {
            at: 1,
            fault: Fault::BadPadding,
        },
    ),
    (
        "a number of five bytes",
        VERSION_4,
        141,
        b"\x80\x80\x80\x80",
        IndexFileError::Entry {
            at: 1,
            fault: Fault::LongStrip,
        },
    ),
    (
        "more to strip than there is",
        VERSION_4,
        141,
        b"\x04",
        IndexFileError::Strip { at: 1 },
    ),
    (
        "all stripped",
        VERSION_4,
        141,
        b"\x03",
        IndexFileError::NameLength { at: 1 },
    ),
    (
        "a stated length",
        VERSION_2,
        73,
        b"\x02",
        IndexFileError::NameLength { at: 0 },
    ),
    (
        "no path",
        VERSION_2,
        72,
        b"\0\0\0",
        IndexFileError::Index(IndexError::EmptyPath { at: 0 }),
    ),
    (
        "paths in the wrong order",
        VERSION_2,
        74,
        b"z",
        IndexFileError::Index(IndexError::NotAscending { at: 1 }),
    ),
    (
        "a stage twice",
        CONFLICT,
        136,
        b"\x10",
        IndexFileError::Index(IndexError::NotAscending { at: 1 }),
    ),
    (
        "an extension's length",
        TREE,
        83,
        b"\x1a",
        IndexFileError::Extension { at: 76 },
    ),
    (
        "an extension's name",
        TREE,
        76,
        b"t",
        IndexFileError::Required { name: *b"tREE" },
    ),
];

#[test]
fn changed_files_are_refused(rt: HostRuntime) -> Result<(), Fail> {
    for (name, file, at, by, want) in CHANGES {
        let bytes = changed(rt.alloc(), content(file), at, by)?;
        let bytes = unchecked(rt.alloc(), &bytes)?;
        assert_eq!(rt;
            refused(rt.alloc(), HashKind::Sha1, &bytes),
            Some(want),
            "at {name}"
        );
    }
    Ok(())
}

#[test]
fn swapped_entries_are_refused(rt: HostRuntime) -> Result<(), Fail> {
    // The last two entries of four, of 64 bytes each.
    let bytes = content(CONFLICT);
    assert_eq!(rt; bytes.len(), 268);
    let (front, pair) = bytes.split_at(140);
    let (third, fourth) = pair.split_at(64);
    let mut swapped = Vec::from_slice(rt.alloc(), front)?;
    swapped.extend_from_slice(fourth)?;
    swapped.extend_from_slice(third)?;
    let bytes = unchecked(rt.alloc(), &swapped)?;
    let want = IndexFileError::Index(IndexError::NotAscending { at: 3 });
    assert_eq!(rt; refused(rt.alloc(), HashKind::Sha1, &bytes), Some(want));
    Ok(())
}
