//! The patterns of ignore files: slashes, stars, sets, and malformed ones.

use crate::tests::{Row, other_row};
use std::test::Fail;

static SLASHES: [Row; 14] = [
    ("a\n", &["a", "d/a", "d/e/a"], &["ab", "ba"]),
    ("/a\n", &["a"], &["d/a"]),
    ("d/a\n", &["d/a"], &["a", "e/d/a"]),
    ("/d/a\n", &["d/a"], &["e/d/a"]),
    ("a/\n", &["a/", "a/b", "e/a/", "e/a/b"], &["d/a"]),
    ("/a/\n", &["a/", "a/b"], &["e/a/", "e/a/b"]),
    ("d/a/\n", &["d/a/", "d/a/b"], &["e/d/a/"]),
    ("a//\n", &[], &["a/", "a/b"]),
    ("./a\n", &[], &["a"]),
    ("//a\n", &[], &["a", "d/a"]),
    ("/\n", &[], &["a", "d/", "d/a"]),
    ("//\n", &[], &["a", "d/"]),
    ("d//a\n", &[], &["d/a"]),
    (".\n", &[], &["a", ".a"]),
];

static STARS: [Row; 21] = [
    ("a/**\n", &["a/b"], &["a/", "d/a/", "d/a/b"]),
    ("a/**\n", &[], &["a", "d/"]),
    ("**/a\n", &["a", "d/a", "d/e/a"], &["ab"]),
    ("a/**/b\n", &["a/b", "a/c/b", "a/c/d/b"], &["ab", "d/a/b"]),
    ("**\n", &["a", "d/", "d/a"], &[]),
    ("**/\n", &["d/", "d/a"], &["a"]),
    ("*/\n", &["d/", "d/a"], &["a"]),
    ("/*\n!/d\n", &["a"], &["d/", "d/a"]),
    ("*/a\n", &["d/a"], &["a", "d/e/a"]),
    ("d/*\n", &["d/a", "d/e/", "d/e/a"], &["d/", "e/d/", "e/d/a"]),
    ("d/*\n!d/a\n", &["d/b"], &["d/", "d/a"]),
    ("*.o\n", &["a.o", "d/a.o", ".o"], &["a.ob"]),
    ("d/**/*.o\n", &["d/a.o", "d/e/a.o"], &["a.o"]),
    ("/a*b\n", &["ab", "acb"], &["a/", "a/b", "d/ab"]),
    ("a**b\n", &["ab", "axyb", "d/ab"], &["a/", "a/b"]),
    ("a**/b\n", &["ax/b", "ax/y/b"], &["ax/", "b"]),
    ("[ab]\n", &["a", "b", "d/a"], &["c"]),
    ("[!a]\n", &["b", "d/", "d/a"], &["a"]),
    ("\\*\n", &["*"], &["a"]),
    ("A\n", &["A"], &["a"]),
    ("[[:upper:]]\n", &["A"], &["a"]),
];

static MALFORMED: [Row; 8] = [
    ("a\\\n", &[], &["a", "a\\"]),
    ("[\n", &[], &["["]),
    ("half[a\n", &[], &["half[a", "halfa", "half"]),
    ("a[/]\n", &[], &["a", "a[/]", "a[/"]),
    ("[]\n", &[], &["[]", "]"]),
    ("a\\/\n", &[], &["a/", "a\\/"]),
    ("*\n![\n", &["[", "a"], &[]),
    ("d/[\n", &[], &["d/["]),
];

#[test]
fn slashes(rt: HostRuntime) -> Result<(), Fail> {
    let other = other_row(rt.alloc(), &SLASHES)?;
    assert!(rt; other.is_none(), "{other:?}");
    Ok(())
}

#[test]
fn stars_and_sets(rt: HostRuntime) -> Result<(), Fail> {
    let other = other_row(rt.alloc(), &STARS)?;
    assert!(rt; other.is_none(), "{other:?}");
    Ok(())
}

#[test]
fn malformed_patterns_match_nothing(rt: HostRuntime) -> Result<(), Fail> {
    let other = other_row(rt.alloc(), &MALFORMED)?;
    assert!(rt; other.is_none(), "{other:?}");
    Ok(())
}
