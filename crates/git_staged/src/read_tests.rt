//! Tests of which trees are read.

use crate::{FindStaged as _, Head, TreeFault, read_tree, tree_id};
use bstr::BStr;
use git_objects::{MemoryObjects, ObjectKind};
use status_base::worktree::AllPaths;
use status_index::{Flags, HashKind, Mode, Moment, ObjectId, Stat, State};
use std::alloc::{AllocError, Global};
use std::test::Fail;

/// The id of a file's content, of another kind than the trees' ids.
const OTHER: ObjectId = ObjectId::Sha256([0x22; 32]);

/// Adds the tree of one item, and returns its id. `start` is the item's mode, a space, its name and a zero byte.
fn add_one(
    alloc: Global,
    objects: &mut MemoryObjects,
    start: &[u8],
    id: &[u8],
) -> Result<ObjectId, AllocError> {
    let mut bytes = Vec::from_slice(alloc, start)?;
    bytes.extend_from_slice(id)?;
    objects.add(HashKind::Sha1, ObjectKind::Tree, bytes)
}

// Git reads a tree with as many folders within each other below the top as `core.maxTreeDepth` is, 2,048 if it isn't set.
#[test]
fn so_many_folders_may_be_within_each_other(rt: HostRuntime) -> Result<(), Fail> {
    let alloc = rt.alloc();
    let mut objects = MemoryObjects::new(alloc);
    let mut tree = add_one(alloc, &mut objects, b"100644 a\0", &[0x11; 20])?;
    for _ in 0..2048 {
        tree = add_one(alloc, &mut objects, b"40000 d\0", tree.as_bytes())?;
    }
    let files = read_tree(alloc, &objects, tree).map_err(|_| AllocError)?;
    assert_eq!(rt; files.entries().len(), 1);
    tree = add_one(alloc, &mut objects, b"40000 d\0", tree.as_bytes())?;
    assert!(rt; matches!(read_tree(alloc, &objects, tree), Err(TreeFault::TooDeep)));
    Ok(())
}

#[test]
fn an_index_of_other_ids_has_no_files_of_the_tree(rt: HostRuntime) -> Result<(), Fail> {
    let alloc = rt.alloc();
    let mut inner = State::new(alloc, Moment::default());
    let plain = Flags::from_stage(0);
    inner.push_entry(Stat::default(), OTHER, plain, Mode::File, BStr::new(b"b"))?;
    let folder = tree_id(alloc, HashKind::Sha1, &inner)?;
    let mut index = State::new(alloc, Moment::default());
    index.push_entry(Stat::default(), OTHER, plain, Mode::File, BStr::new(b"d/b"))?;
    let mut objects = MemoryObjects::new(alloc);
    let mut bytes = Vec::from_slice(alloc, b"100644 a\0")?;
    bytes.extend_from_slice(&[0x11; 20])?;
    bytes.extend_from_slice(b"40000 d\0")?;
    bytes.extend_from_slice(folder.as_bytes())?;
    let tree = objects.add(HashKind::Sha1, ObjectKind::Tree, bytes)?;
    let head = Head {
        objects: &objects,
        tree: Some(tree),
        paths: AllPaths,
    };
    let found = head.find_staged(alloc, &index);
    assert!(rt; matches!(found, Err(TreeFault::MixedHash)));
    Ok(())
}
