//! A test of `is_dirty` over a repository that it makes: each of its three results comes.

use git_checkout::{Columns, is_dirty};
use std::alloc::{AllocError, Global};
use std::test::Fail;
use std::{env, fs, io, process};

/// Returns an index file of version 2 with one entry, the file `a`. Zeros replace its checksum.
fn index_of_a(alloc: Global) -> Result<Vec<u8>, AllocError> {
    let mut bytes = Vec::from_slice(alloc, b"DIRC\0\0\0\x02\0\0\0\x01")?;
    // Times, device and inode.
    bytes.extend_from_slice(&[0; 24])?;
    bytes.extend_from_slice(&[0, 0, 0x81, 0xa4])?;
    // Owner, group and size.
    bytes.extend_from_slice(&[0; 12])?;
    bytes.extend_from_slice(&[0x11; 20])?;
    bytes.extend_from_slice(b"\0\x01a\0")?;
    bytes.extend_from_slice(&[0; 20])?;
    Ok(bytes)
}

/// Makes a repository without an index file, in a new folder of temporary files. Returns the folder.
fn new_repository(rt: &HostRuntime) -> io::Result<String> {
    let parent = env::temp_dir(rt)?;
    let id = process::id(rt.process());
    let top = format!(in rt.alloc(); "{}/git_checkout_{id}", parent.as_path().as_str())?;
    let _ = fs::remove_dir_all(rt, top.as_str());
    for folder in ["", "/.git", "/.git/objects", "/.git/refs"] {
        fs::create_dir(rt, format!(in rt.alloc(); "{top}{folder}")?.as_str())?;
    }
    let head = format!(in rt.alloc(); "{top}/.git/HEAD")?;
    fs::write(rt, head.as_str(), "ref: refs/heads/main\n")?;
    Ok(top)
}

#[test]
fn the_result_says_whether_a_file_differs(rt: HostRuntime) -> Result<(), Fail> {
    let alloc = rt.alloc();
    let top = new_repository(&rt)?;
    let mut faults = Vec::new(alloc);
    let all = [Columns::Both, Columns::Staged, Columns::Worktree];
    // Without an index file there are no entries, and without a commit no files of HEAD.
    for columns in all.iter() {
        assert_eq!(rt;
            is_dirty(&rt, top.as_str(), *columns, &mut faults),
            Some(false)
        );
    }
    let index = format!(in alloc; "{top}/.git/index")?;
    fs::write(&rt, index.as_str(), index_of_a(alloc)?.as_slice())?;
    // The file was added to the index, and isn't in the worktree.
    for columns in all.iter() {
        assert_eq!(rt;
            is_dirty(&rt, top.as_str(), *columns, &mut faults),
            Some(true)
        );
    }
    assert!(rt; faults.is_empty());
    fs::write(&rt, index.as_str(), "no index")?;
    assert_eq!(rt;
        is_dirty(&rt, top.as_str(), Columns::Both, &mut faults),
        None
    );
    assert!(rt; faults.as_slice().starts_with(b"git dirty: "));
    fs::remove_dir_all(&rt, top.as_str())?;
    Ok(())
}
