//! Ids that `git write-tree` of git 2.39 printed for these entries.

use crate::{Change, Letter, TreeError, changed_entries, deleted_files, read_tree, tree_id};
use bstr::BStr;
use git_objects::{MemoryObjects, ObjectKind};
use status_index::{Flags, HashKind, IndexError, Mode, Moment, ObjectId, Stat, State};
use std::alloc::{AllocError, Global};
use std::test::Fail;

/// An entry: its path, its mode, its id and its flags.
type Row<'a> = (&'a str, Mode, ObjectId, Flags);

/// The id of the tree without items.
const EMPTY: [u8; 20] = [
    0x4b, 0x82, 0x5d, 0xc6, 0x42, 0xcb, 0x6e, 0xb9, 0xa0, 0x60, 0xe5, 0x4b, 0xf8, 0xd6, 0x92, 0x88,
    0xfb, 0xee, 0x49, 0x04,
];

/// The id of the tree of `named`, with SHA-1.
const NAMED_SHA1: [u8; 20] = [
    0x68, 0xff, 0x5d, 0x7e, 0x8b, 0xcd, 0xf1, 0x91, 0x7a, 0xa7, 0x0e, 0xc8, 0xe8, 0xdf, 0xea, 0x23,
    0xeb, 0xfc, 0x8a, 0x0b,
];

/// The id of the tree of `named`, with SHA-256.
const NAMED_SHA256: [u8; 32] = [
    0x9e, 0xc3, 0x0a, 0x3d, 0x98, 0x66, 0xc3, 0x13, 0x07, 0x05, 0x3e, 0xcd, 0xd2, 0x09, 0xf7, 0x91,
    0x0e, 0xe7, 0x9b, 0x30, 0x47, 0xb5, 0x7a, 0xd6, 0xc9, 0x6d, 0xe8, 0xe5, 0x6e, 0x9f, 0x7e, 0xb9,
];

/// The ids of `in/a`, of the folders `lib` and `out`, and of `top`.
const PARTS: [[u8; 20]; 4] = [
    [
        0x65, 0x46, 0x54, 0x76, 0x93, 0x4d, 0x19, 0x15, 0x31, 0x99, 0x1a, 0xc1, 0xfe, 0x4b, 0xde,
        0x9e, 0xbc, 0xeb, 0x21, 0x61,
    ],
    [
        0xdd, 0x26, 0xe5, 0x16, 0x91, 0xf9, 0x3d, 0x60, 0xab, 0xbe, 0xbe, 0xfd, 0xde, 0x0f, 0x43,
        0xfd, 0x14, 0x6a, 0x0c, 0xc3,
    ],
    [
        0x66, 0xd3, 0xbc, 0x8d, 0xb8, 0x69, 0x6e, 0x2c, 0x11, 0x7c, 0xe0, 0xfa, 0xd5, 0x81, 0x53,
        0x0d, 0xdd, 0x6f, 0x17, 0x1e,
    ],
    [
        0xbf, 0x1a, 0x1f, 0xde, 0xfa, 0x3c, 0x7f, 0x4b, 0x01, 0x80, 0xa7, 0x5a, 0x95, 0x1e, 0x95,
        0x74, 0x66, 0x2a, 0x8b, 0xc8,
    ],
];

/// The id of their tree.
const SPARSE: [u8; 20] = [
    0x11, 0x0c, 0x0c, 0x87, 0x59, 0x48, 0x1c, 0xb3, 0x7d, 0xfb, 0x9a, 0xf6, 0x11, 0x32, 0x1f, 0x00,
    0xf7, 0x20, 0x0c, 0xb2,
];

/// Returns the id of one repeated byte.
fn repeated(kind: HashKind, byte: u8) -> ObjectId {
    match kind {
        HashKind::Sha1 => ObjectId::Sha1([byte; 20]),
        HashKind::Sha256 => ObjectId::Sha256([byte; 32]),
    }
}

/// Returns the index of these entries.
fn index(alloc: Global, rows: &[Row<'_>]) -> Result<State, IndexError> {
    let mut index = State::new(alloc, Moment { secs: 9, nsecs: 0 });
    for (path, mode, id, flags) in rows {
        index.push_entry(Stat::default(), *id, *flags, *mode, BStr::from(*path))?;
    }
    Ok(index)
}

/// Returns an index with names like `a-b` and `a0` around the folder `a`, and two entries of `git add -N`. One of these
/// is alone in its folders.
fn named(alloc: Global, kind: HashKind) -> Result<State, IndexError> {
    let (one, two, three) = (
        repeated(kind, 0x11),
        repeated(kind, 0x22),
        repeated(kind, 0x33),
    );
    let (plain, added) = (Flags::from_stage(0), Flags::INTENT_TO_ADD);
    let rows = [
        ("a-b", Mode::File, one, plain),
        ("a.b", Mode::FileExecutable, two, plain),
        ("a/b", Mode::File, three, plain),
        ("a/c/d/e", Mode::File, one, plain),
        ("a/c/f", Mode::Symlink, two, plain),
        ("a/c/g", Mode::File, three, added),
        ("a0", Mode::File, three, plain),
        ("b/m", Mode::Commit, one, plain),
        ("n/only/new", Mode::File, one, added),
        ("z", Mode::File, two, plain),
    ];
    index(alloc, &rows)
}

#[test]
fn the_ids_are_those_of_git(rt: HostRuntime) -> Result<(), Fail> {
    let alloc = rt.alloc();
    let id = tree_id(alloc, HashKind::Sha1, &named(alloc, HashKind::Sha1)?)?;
    assert_eq!(rt; id, ObjectId::Sha1(NAMED_SHA1));
    let id = tree_id(alloc, HashKind::Sha256, &named(alloc, HashKind::Sha256)?)?;
    assert_eq!(rt; id, ObjectId::Sha256(NAMED_SHA256));
    Ok(())
}

#[test]
fn entries_of_add_n_make_no_folder(rt: HostRuntime) -> Result<(), Fail> {
    let alloc = rt.alloc();
    let row = (
        "d/f",
        Mode::File,
        repeated(HashKind::Sha1, 0x11),
        Flags::INTENT_TO_ADD,
    );
    for rows in [&[][..], &[row][..]] {
        let id = tree_id(alloc, HashKind::Sha1, &index(alloc, rows)?)?;
        assert_eq!(rt; id, ObjectId::Sha1(EMPTY));
    }
    Ok(())
}

#[test]
fn a_folder_of_a_sparse_index_has_its_own_id(rt: HostRuntime) -> Result<(), Fail> {
    let alloc = rt.alloc();
    let plain = Flags::from_stage(0);
    let [a, lib, out, top] = PARTS;
    let rows = [
        ("in/a", Mode::File, ObjectId::Sha1(a), plain),
        ("lib/", Mode::Dir, ObjectId::Sha1(lib), Flags::SKIP_WORKTREE),
        ("out/", Mode::Dir, ObjectId::Sha1(out), Flags::SKIP_WORKTREE),
        ("top", Mode::File, ObjectId::Sha1(top), plain),
    ];
    let id = tree_id(alloc, HashKind::Sha1, &index(alloc, &rows)?)?;
    assert_eq!(rt; id, ObjectId::Sha1(SPARSE));
    Ok(())
}

#[test]
fn a_conflict_makes_no_tree(rt: HostRuntime) -> Result<(), Fail> {
    let alloc = rt.alloc();
    let id = repeated(HashKind::Sha1, 0x11);
    for stage in 1..4 {
        let rows = [
            ("a", Mode::File, id, Flags::from_stage(0)),
            ("b", Mode::File, id, Flags::from_stage(stage)),
        ];
        let made = tree_id(alloc, HashKind::Sha1, &index(alloc, &rows)?);
        assert_eq!(rt; made, Err(TreeError::Conflict), "at stage {stage}");
    }
    Ok(())
}

/// Returns the files of a commit.
fn committed(alloc: Global) -> Result<State, IndexError> {
    let (one, plain) = (repeated(HashKind::Sha1, 0x11), Flags::from_stage(0));
    let rows = [
        ("gone", Mode::File, one, plain),
        ("kept", Mode::File, one, plain),
        ("mode", Mode::File, one, plain),
        ("other", Mode::File, one, plain),
        ("type", Mode::Symlink, one, plain),
        ("unmerged", Mode::File, one, plain),
        ("wanted", Mode::File, one, plain),
    ];
    index(alloc, &rows)
}

/// Returns an index that differs from them. The last entry is one of `git add -N`.
fn staged(alloc: Global) -> Result<State, IndexError> {
    let (one, two) = (
        repeated(HashKind::Sha1, 0x11),
        repeated(HashKind::Sha1, 0x22),
    );
    let plain = Flags::from_stage(0);
    let rows = [
        ("kept", Mode::File, one, plain),
        ("mode", Mode::FileExecutable, one, plain),
        ("n", Mode::Commit, two, plain),
        ("other", Mode::File, two, plain),
        ("type", Mode::File, one, plain),
        ("unmerged", Mode::File, one, Flags::from_stage(1)),
        ("unmerged", Mode::File, two, Flags::from_stage(2)),
        ("wanted", Mode::File, two, Flags::INTENT_TO_ADD),
    ];
    index(alloc, &rows)
}

/// Returns a line for each change.
fn text_of(alloc: Global, changes: &[Change<'_>]) -> Result<Vec<u8>, AllocError> {
    let mut text = Vec::new(alloc);
    for change in changes {
        let letter: &[u8] = match change.letter {
            Letter::Added => b"A ",
            Letter::Modified => b"M ",
            Letter::TypeChanged => b"T ",
            Letter::Deleted => b"D ",
        };
        text.extend_from_slice(letter)?;
        text.extend_from_slice(change.path.as_bytes())?;
        text.extend_from_slice(b"\n")?;
    }
    Ok(text)
}

// The lines are those of `git status --porcelain` of git 2.39 for these files and entries, without the second column.
#[test]
fn letters_are_gits(rt: HostRuntime) -> Result<(), Fail> {
    let alloc = rt.alloc();
    let head = committed(alloc)?;
    let index = staged(alloc)?;
    let changed = changed_entries(alloc, &head, &index)?;
    let text = text_of(alloc, changed.as_slice())?;
    assert_eq!(rt;
        text.as_slice(),
        b"M mode\nA n\nM other\nT type\n".as_slice()
    );
    let deleted = deleted_files(alloc, &head, &index)?;
    let text = text_of(alloc, deleted.as_slice())?;
    assert_eq!(rt; text.as_slice(), b"D gone\nD wanted\n".as_slice());
    Ok(())
}

#[test]
fn a_tree_is_read_as_it_is_written(rt: HostRuntime) -> Result<(), Fail> {
    let alloc = rt.alloc();
    let kind = HashKind::Sha1;
    let mut objects = MemoryObjects::new(alloc);
    let mut inner = Vec::from_slice(alloc, b"100664 b\0")?;
    inner.extend_from_slice(&[0x11; 20])?;
    let folder = objects.add(kind, ObjectKind::Tree, inner)?;
    let mut outer = Vec::from_slice(alloc, b"100755 a\0")?;
    outer.extend_from_slice(&[0x22; 20])?;
    outer.extend_from_slice(b"40000 d\0")?;
    outer.extend_from_slice(folder.as_bytes())?;
    let tree = objects.add(kind, ObjectKind::Tree, outer)?;
    let files = read_tree(alloc, &objects, tree).map_err(|_| AllocError)?;
    let mut seen = Vec::new(alloc);
    for entry in files.entries() {
        seen.push((entry.path_in(files.path_backing()).as_bytes(), entry.mode))?;
    }
    let there: [(&[u8], Mode); 2] = [(b"a", Mode::FileExecutable), (b"d/b", Mode::File)];
    assert_eq!(rt; seen.as_slice(), &there[..]);
    let missing = repeated(kind, 0x33);
    assert!(rt; read_tree(alloc, &objects, missing).is_err());
    Ok(())
}
