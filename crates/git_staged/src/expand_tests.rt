//! Tests of a sparse index that becomes an index of files.

use crate::{TreeFault, expanded, has_folders};
use bstr::BStr;
use git_objects::{MemoryObjects, ObjectFault, ObjectKind};
use status_index::{Flags, HashKind, IndexError, Mode, Moment, ObjectId, Stat, State};
use std::alloc::{AllocError, Global};
use std::test::Fail;

/// The id of a file's content.
const FILE: ObjectId = ObjectId::Sha1([0x11; 20]);

/// The id of an object that isn't there.
const MISSING: ObjectId = ObjectId::Sha1([0x22; 20]);

/// Adds a tree, and returns its id. Of each item it has the mode, a space, the name and a zero byte, and then the id.
fn add_tree(
    alloc: Global,
    objects: &mut MemoryObjects,
    items: &[(&[u8], ObjectId)],
) -> Result<ObjectId, AllocError> {
    let mut bytes = Vec::new(alloc);
    for (start, id) in items {
        bytes.extend_from_slice(start)?;
        bytes.extend_from_slice(id.as_bytes())?;
    }
    objects.add(HashKind::Sha1, ObjectKind::Tree, bytes)
}

/// Adds the tree of the files `b`, `d/c` and `link`, and returns its id.
fn add_folder(alloc: Global, objects: &mut MemoryObjects) -> Result<ObjectId, AllocError> {
    let inner = add_tree(alloc, objects, &[(b"100644 c\0", FILE)])?;
    let items: [(&[u8], ObjectId); 3] = [
        (b"100755 b\0", FILE),
        (b"40000 d\0", inner),
        (b"120000 link\0", FILE),
    ];
    add_tree(alloc, objects, &items)
}

/// Returns the index of some files, and of the folder `lib`, whose tree has this id.
fn sparse(
    alloc: Global,
    before: &[&str],
    lib: ObjectId,
    after: &[&str],
) -> Result<State, IndexError> {
    let mut index = State::new(alloc, Moment { secs: 9, nsecs: 0 });
    let plain = Flags::from_stage(0);
    for path in before {
        let path = BStr::from(*path);
        index.push_entry(Stat::default(), FILE, plain, Mode::File, path)?;
    }
    let skipped = Flags::SKIP_WORKTREE;
    index.push_entry(Stat::default(), lib, skipped, Mode::Dir, BStr::new(b"lib/"))?;
    for path in after {
        let path = BStr::from(*path);
        index.push_entry(Stat::default(), FILE, plain, Mode::File, path)?;
    }
    Ok(index)
}

// The paths, modes and flags are those that `git ls-files -s -t` of git 2.39 prints after `git sparse-checkout reapply
// --no-sparse-index`. `git ls-files --debug` prints stats of zeros for the files of `lib`.
#[test]
fn a_folder_becomes_its_files(rt: HostRuntime) -> Result<(), Fail> {
    let alloc = rt.alloc();
    let mut objects = MemoryObjects::new(alloc);
    let lib = add_folder(alloc, &mut objects)?;
    let index = sparse(alloc, &["a", "in/x"], lib, &["z"])?;
    assert!(rt; has_folders(&index));
    let files = expanded(alloc, &objects, &index).map_err(|_| AllocError)?;
    assert!(rt; !has_folders(&files));
    let mut seen = Vec::new(alloc);
    for entry in files.entries() {
        let path = entry.path_in(files.path_backing()).as_bytes();
        seen.push((path, entry.mode, entry.flags, entry.stat))?;
    }
    let (plain, skipped, none) = (Flags::from_stage(0), Flags::SKIP_WORKTREE, Stat::default());
    let there: [(&[u8], Mode, Flags, Stat); 6] = [
        (b"a", Mode::File, plain, none),
        (b"in/x", Mode::File, plain, none),
        (b"lib/b", Mode::FileExecutable, skipped, none),
        (b"lib/d/c", Mode::File, skipped, none),
        (b"lib/link", Mode::Symlink, skipped, none),
        (b"z", Mode::File, plain, none),
    ];
    assert_eq!(rt; seen.as_slice(), &there[..]);
    Ok(())
}

#[test]
fn a_folder_without_its_tree_is_a_fault(rt: HostRuntime) -> Result<(), Fail> {
    let alloc = rt.alloc();
    let index = sparse(alloc, &["a"], MISSING, &["z"])?;
    let fault = TreeFault::Object {
        id: MISSING,
        fault: ObjectFault::Missing { id: MISSING },
    };
    let files = expanded(alloc, &MemoryObjects::new(alloc), &index);
    assert!(rt; matches!(files, Err(found) if found == fault));
    Ok(())
}

#[test]
fn a_file_of_a_folder_may_not_have_an_entry_too(rt: HostRuntime) -> Result<(), Fail> {
    let alloc = rt.alloc();
    let mut objects = MemoryObjects::new(alloc);
    let lib = add_folder(alloc, &mut objects)?;
    for path in ["lib/b", "lib/d/c", "lib/e", "lib/link"] {
        let index = sparse(alloc, &[], lib, &[path])?;
        let files = expanded(alloc, &objects, &index);
        assert!(rt; matches!(files, Err(TreeFault::NotAscending)), "{path}");
    }
    let index = sparse(alloc, &[], lib, &["lib/x"])?;
    assert!(rt; expanded(alloc, &objects, &index).is_ok());
    Ok(())
}
