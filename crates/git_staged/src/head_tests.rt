//! Tests of staged changes, with a commit's tree in memory.

use crate::{FindStaged as _, Head, Letter, Staged, TreeFault, tree_id};
use bstr::BStr;
use git_objects::{MemoryObjects, ObjectKind};
use status_base::worktree::AllPaths;
use status_index::{Flags, HashKind, IndexError, Mode, Moment, ObjectId, Stat, State};
use std::alloc::{AllocError, Global};
use std::test::Fail;

/// The ids of two contents.
const ONE: ObjectId = ObjectId::Sha1([0x11; 20]);

const TWO: ObjectId = ObjectId::Sha1([0x22; 20]);

/// Adds the tree of the files `a` and `d/b`, and returns its id.
fn add_tree(alloc: Global, objects: &mut MemoryObjects) -> Result<ObjectId, AllocError> {
    let mut inner = Vec::from_slice(alloc, b"100644 b\0")?;
    inner.extend_from_slice(ONE.as_bytes())?;
    let folder = objects.add(HashKind::Sha1, ObjectKind::Tree, inner)?;
    let mut outer = Vec::from_slice(alloc, b"100644 a\0")?;
    outer.extend_from_slice(ONE.as_bytes())?;
    outer.extend_from_slice(b"40000 d\0")?;
    outer.extend_from_slice(folder.as_bytes())?;
    objects.add(HashKind::Sha1, ObjectKind::Tree, outer)
}

/// Returns the index of these files.
fn index(alloc: Global, rows: &[(&str, ObjectId)]) -> Result<State, IndexError> {
    let mut index = State::new(alloc, Moment::default());
    for (path, id) in rows {
        let path = BStr::from(*path);
        index.push_entry(Stat::default(), *id, Flags::from_stage(0), Mode::File, path)?;
    }
    Ok(index)
}

/// Returns a line for each change.
fn text_of(alloc: Global, changes: &[Staged]) -> Result<Vec<u8>, AllocError> {
    let mut text = Vec::new(alloc);
    for change in changes {
        text.push(match change.letter {
            Letter::Added => b'A',
            Letter::Modified => b'M',
            Letter::TypeChanged => b'T',
            Letter::Deleted => b'D',
        })?;
        text.extend_from_slice(change.path.as_slice())?;
        text.push(b'\n')?;
    }
    Ok(text)
}

#[test]
fn staged_changes_are_in_order(rt: HostRuntime) -> Result<(), Fail> {
    let alloc = rt.alloc();
    let mut objects = MemoryObjects::new(alloc);
    let tree = add_tree(alloc, &mut objects)?;
    let mut head = Head {
        objects: &objects,
        tree: Some(tree),
        paths: AllPaths,
    };
    let same = index(alloc, &[("a", ONE), ("d/b", ONE)])?;
    assert_eq!(rt; tree_id(alloc, HashKind::Sha1, &same)?, tree);
    let found = head.find_staged(alloc, &same).map_err(|_| AllocError)?;
    assert!(rt; found.is_empty());
    let other = index(alloc, &[("c", ONE), ("d/b", TWO)])?;
    let found = head.find_staged(alloc, &other).map_err(|_| AllocError)?;
    let text = text_of(alloc, found.as_slice())?;
    assert_eq!(rt; text.as_slice(), b"Da\nAc\nMd/b\n".as_slice());
    // A branch without a commit has no file.
    head.tree = None;
    let found = head.find_staged(alloc, &same).map_err(|_| AllocError)?;
    let text = text_of(alloc, found.as_slice())?;
    assert_eq!(rt; text.as_slice(), b"Aa\nAd/b\n".as_slice());
    // With no commit nothing is compared, and without its tree nothing is found.
    let none: Option<Head<'_, MemoryObjects, AllPaths>> = None;
    assert!(rt;
        none.find_staged(alloc, &other)
            .map_err(|_| AllocError)?
            .is_empty()
    );
    head.tree = Some(TWO);
    assert!(rt;
        matches!(
            head.find_staged(alloc, &same),
            Err(TreeFault::Object { .. })
        )
    );
    Ok(())
}

#[test]
fn a_folder_that_is_as_in_the_index_is_not_read(rt: HostRuntime) -> Result<(), Fail> {
    let alloc = rt.alloc();
    let same = index(alloc, &[("a", ONE), ("d/b", ONE), ("e/f/g", ONE)])?;
    // The trees of the folders aren't in the store.
    let mut outer = Vec::from_slice(alloc, b"100644 a\0")?;
    outer.extend_from_slice(ONE.as_bytes())?;
    for (name, file) in [(b"40000 d\0", "b"), (b"40000 e\0", "f/g")] {
        let folder = tree_id(alloc, HashKind::Sha1, &index(alloc, &[(file, ONE)])?)?;
        outer.extend_from_slice(name)?;
        outer.extend_from_slice(folder.as_bytes())?;
    }
    let mut objects = MemoryObjects::new(alloc);
    let tree = objects.add(HashKind::Sha1, ObjectKind::Tree, outer)?;
    let head = Head {
        objects: &objects,
        tree: Some(tree),
        paths: AllPaths,
    };
    assert_eq!(rt; tree_id(alloc, HashKind::Sha1, &same)?, tree);
    let other = index(
        alloc,
        &[("a", TWO), ("d/b", ONE), ("e/f/g", ONE), ("e/h", ONE)],
    )?;
    assert!(rt;
        matches!(
            head.find_staged(alloc, &other),
            Err(TreeFault::Object { .. })
        )
    );
    let other = index(alloc, &[("a", TWO), ("d/b", ONE), ("e/f/g", ONE)])?;
    let found = head.find_staged(alloc, &other).map_err(|_| AllocError)?;
    let text = text_of(alloc, found.as_slice())?;
    assert_eq!(rt; text.as_slice(), b"Ma\n".as_slice());
    Ok(())
}
