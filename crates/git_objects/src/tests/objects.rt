//! Objects and deltas.

use crate::delta::apply_delta;
use crate::loose::read_loose;
use crate::{FirstItem, MemoryObjects, ObjectFault, ObjectKind, ReadObject, id_of, tree_of_commit};
use status_index::{HashKind, ObjectId};
use std::test::Fail;

/// The id of the blob `hello` with a line feed, as `git hash-object` of git 2.39 prints it.
const HELLO: [u8; 20] = [
    0xce, 0x01, 0x36, 0x25, 0x03, 0x0b, 0xa8, 0xdb, 0xa9, 0x06, 0xf7, 0x56, 0x96, 0x7f, 0x9e, 0x9c,
    0xa3, 0x94, 0x46, 0x4a,
];

/// The id of the tree without items.
const EMPTY_TREE: [u8; 20] = [
    0x4b, 0x82, 0x5d, 0xc6, 0x42, 0xcb, 0x6e, 0xb9, 0xa0, 0x60, 0xe5, 0x4b, 0xf8, 0xd6, 0x92, 0x88,
    0xfb, 0xee, 0x49, 0x04,
];

#[test]
fn ids_are_those_of_git(rt: HostRuntime) {
    let id = id_of(HashKind::Sha1, ObjectKind::Blob, b"hello\n");
    assert_eq!(rt; id, ObjectId::Sha1(HELLO));
    let id = id_of(HashKind::Sha1, ObjectKind::Tree, b"");
    assert_eq!(rt; id, ObjectId::Sha1(EMPTY_TREE));
}

#[test]
fn an_added_object_is_read(rt: HostRuntime) -> Result<(), Fail> {
    let alloc = rt.alloc();
    let mut store = MemoryObjects::new(alloc);
    let missing = ObjectId::Sha1(EMPTY_TREE);
    let id = store.add(HashKind::Sha1, ObjectKind::Blob, b"hello\n".to_vec(alloc)?)?;
    let object = store.read(id)?;
    assert_eq!(rt; object.kind, ObjectKind::Blob);
    assert!(rt; object.bytes.as_slice() == b"hello\n".as_slice());
    assert!(rt; store.read(missing).err() == Some(ObjectFault::Missing { id: missing }));
    Ok(())
}

/// A loose object with the blob `hello` and a line feed, as Python's `zlib` compresses it.
const LOOSE: &[u8] = &[
    0x78, 0x9c, 0x4b, 0xca, 0xc9, 0x4f, 0x52, 0x30, 0x63, 0xc8, 0x48, 0xcd, 0xc9, 0xc9, 0xe7, 0x02,
    0x00, 0x1d, 0xc5, 0x04, 0x14,
];

#[test]
fn a_loose_object_is_read(rt: HostRuntime) -> Result<(), Fail> {
    let alloc = rt.alloc();
    let object = read_loose(alloc, LOOSE, 6)?;
    assert_eq!(rt; object.kind, ObjectKind::Blob);
    assert!(rt; object.bytes.as_slice() == b"hello\n".as_slice());
    assert!(rt; read_loose(alloc, LOOSE, 5).err() == Some(ObjectFault::TooLarge));
    Ok(())
}

#[test]
fn a_delta_copies_and_adds(rt: HostRuntime) -> Result<(), Fail> {
    let alloc = rt.alloc();
    // The base has 9 bytes and the content 7: four from byte 2 on, and three new ones.
    let delta = [9, 7, 0x91, 2, 4, 3, b'x', b'y', b'z'];
    let content = apply_delta(alloc, b"012345678", &delta, 7)?;
    assert!(rt; content.as_slice() == b"2345xyz".as_slice());
    for (base, delta, limit, fault) in REFUSED {
        assert!(rt; apply_delta(alloc, base, delta, *limit).err() == Some(*fault));
    }
    Ok(())
}

/// A base, a delta, a limit and why the delta is refused.
type Refused = (&'static [u8], &'static [u8], usize, ObjectFault);

/// Another base, a larger content, too few bytes, a copy beyond the base, the command zero, and bytes that are missing.
const REFUSED: &[Refused] = &[
    (b"01234567", &[9, 1, 1, b'x'], 9, ObjectFault::BrokenDelta),
    (
        b"012345678",
        &[9, 7, 0x91, 2, 4, 3, b'x', b'y', b'z'],
        6,
        ObjectFault::TooLarge,
    ),
    (
        b"012345678",
        &[9, 7, 0x91, 2, 4],
        9,
        ObjectFault::BrokenDelta,
    ),
    (
        b"012345678",
        &[9, 4, 0x91, 6, 4],
        9,
        ObjectFault::BrokenDelta,
    ),
    (b"012345678", &[9, 1, 0], 9, ObjectFault::BrokenDelta),
    (b"012345678", &[9, 4, 4, b'x'], 9, ObjectFault::BrokenDelta),
];

#[test]
fn a_tree_and_a_commit_are_read(rt: HostRuntime) -> Result<(), Fail> {
    let commit = b"tree 4b825dc642cb6eb9a060e54bf8d69288fbee4904\nauthor A <a> 0 +0000\n";
    assert_eq!(rt;
        tree_of_commit(HashKind::Sha1, commit)?,
        ObjectId::Sha1(EMPTY_TREE)
    );
    assert!(rt; tree_of_commit(HashKind::Sha256, commit).err() == Some(ObjectFault::BrokenCommit));
    let tree = b"40000 a\0aaaaaaaaaaaaaaaaaaaa100644 b.c\0bbbbbbbbbbbbbbbbbbbb";
    let first = FirstItem::of_tree(HashKind::Sha1, tree)?.ok_or("no item")?;
    assert!(rt; first.item.mode == 0o40000 && first.item.name == b"a".as_slice());
    let second = FirstItem::of_tree(HashKind::Sha1, first.rest)?.ok_or("no item")?;
    assert!(rt; second.item.mode == 0o100644 && second.item.name == b"b.c".as_slice());
    assert_eq!(rt; second.item.id, ObjectId::Sha1([b'b'; 20]));
    assert!(rt; FirstItem::of_tree(HashKind::Sha1, second.rest)?.is_none());
    Ok(())
}

#[test]
fn a_damaged_tree_is_refused(rt: HostRuntime) {
    let rows: &[&'static [u8]] = &[
        b"40000",
        b" a\0aaaaaaaaaaaaaaaaaaaa",
        b"40008 a\0aaaaaaaaaaaaaaaaaaaa",
        b"40000 \0aaaaaaaaaaaaaaaaaaaa",
        b"40000 a\0aaaaaaaaaaaaaaaaaaa",
        b"777777777777 a\0aaaaaaaaaaaaaaaaaaaa",
    ];
    for row in rows {
        let found = FirstItem::of_tree(HashKind::Sha1, row);
        assert!(rt; found.err() == Some(ObjectFault::BrokenTree));
    }
}
