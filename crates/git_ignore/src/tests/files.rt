//! Excluded folders, and the files of several folders.

use crate::IgnoreRules;
use crate::tests::{Row, other_path, other_row};
use std::alloc::{AllocError, Global};
use std::test::Fail;

static BELOW: [Row; 7] = [
    ("d/\n!d/a\n", &["d/", "d/a"], &[]),
    ("d\n!a\n", &["d/", "d/a"], &["a"]),
    ("d/\n!d/\n", &[], &["d/", "d/a"]),
    ("d/*\n!d/e/\n", &["d/a"], &["d/", "d/e/", "d/e/a"]),
    (
        "d/e\n!d/e/a\n",
        &["d/e/", "d/e/a", "d/e/f/", "d/e/f/g"],
        &["d/", "d/a"],
    ),
    (
        "*\n!*/\n!*.c\n",
        &["a", "d/a"],
        &["a.c", "d/", "d/a.c", "d/e/", "d/e/a.c"],
    ),
    ("a\n!b\n", &["a/", "a/b", "b/a"], &["b/", "b/c"]),
];

/// Ignore files, each with its folder and its text, the weakest one first; paths that they exclude, and paths that they don't.
type FolderRow = (
    &'static [(&'static str, &'static str)],
    &'static [&'static str],
    &'static [&'static str],
);

static FOLDERS: [FolderRow; 16] = [
    (
        &[("", "*.o\n"), ("d/", "!a.o\n")],
        &["a.o", "d/b.o", "e/a.o"],
        &["d/a.o", "d/e/a.o"],
    ),
    (&[("d/", "a\n")], &["d/a", "d/e/a"], &["a", "e/a"]),
    (&[("d/", "/a\n")], &["d/a"], &["a", "d/e/a"]),
    (&[("d/", "e/a\n")], &["d/e/a"], &["e/a", "d/f/e/a"]),
    (&[("d/", "/e/a\n")], &["d/e/a"], &["e/a", "d/f/e/a"]),
    (&[("d/", "d\n")], &["d/d/", "d/d/a"], &["d/", "d/a"]),
    (
        &[("d/", "*\n")],
        &["d/a", "d/e/", "d/e/a"],
        &["a", "d/", "da"],
    ),
    (&[("d/", "**\n")], &["d/a", "d/e/a"], &["a", "d/"]),
    (&[("d/", "**/a\n")], &["d/a", "d/e/a"], &["a"]),
    (
        &[("", "d/\n"), ("d/", "!*\n")],
        &["d/", "d/a", "d/e/a"],
        &[],
    ),
    (
        &[("", "d/*\n"), ("d/", "!*\n")],
        &[],
        &["d/", "d/a", "d/e/", "d/e/a"],
    ),
    (
        &[("", "a\n"), ("d/", "!a\n"), ("d/e/", "a\n")],
        &["a", "d/e/a", "d/e/f/a"],
        &["d/a", "d/f/a"],
    ),
    (&[("", "!a\n"), ("d/", "a\n")], &["d/a"], &["a"]),
    (
        &[("", "e/\n"), ("d/", "!e\n")],
        &["e/", "e/a"],
        &["d/e/", "d/e/a"],
    ),
    (
        &[("", "/d/a\n"), ("d/", "!/a\n!/b/\n")],
        &[],
        &["d/a", "d/b/"],
    ),
    (&[("d e/", "a \n")], &["d e/a"], &["a"]),
];

/// Returns the first path of a row about which the rules decide otherwise.
fn other_path_of(alloc: Global, row: &FolderRow) -> Result<Option<&'static str>, AllocError> {
    let mut rules = IgnoreRules::new(alloc);
    for (folder, text) in row.0 {
        rules.read(alloc, folder.as_bytes(), text.as_bytes())?;
    }
    other_path(alloc, &rules, row.1, row.2)
}

#[test]
fn nothing_below_an_excluded_folder_is_included_again(rt: HostRuntime) -> Result<(), Fail> {
    let other = other_row(rt.alloc(), &BELOW)?;
    assert!(rt; other.is_none(), "{other:?}");
    Ok(())
}

#[test]
fn files_of_several_folders(rt: HostRuntime) -> Result<(), Fail> {
    for row in &FOLDERS {
        let other = other_path_of(rt.alloc(), row)?;
        assert!(rt; other.is_none(), "{:?}: {other:?}", row.0);
    }
    Ok(())
}
