//! Which paths match a pattern, by `git check-attr` of git 2.39.5.

use git_attributes::{Attributes, Source, Value};
use std::alloc::{AllocError, Global};
use std::test::Fail;

/// A pattern, paths that match it, and paths that don't.
type Row = (
    &'static str,
    &'static [&'static str],
    &'static [&'static str],
);

static ROWS: [Row; 56] = [
    ("a", &["a", "d/a"], &["b", "a/b", "aa"]),
    ("*.c", &["x.c", ".c", "d/x.c"], &["x.cc", "x/c"]),
    ("/a", &["a"], &["d/a"]),
    ("d/a", &["d/a"], &["x/d/a", "d/a/b"]),
    ("d/*", &["d/a", "d/\n"], &["d/e/a"]),
    ("d/**", &["d/a", "d/e/a"], &["d", "e/d/a"]),
    ("**/a", &["a", "d/a", "d/e/a"], &["b", "da"]),
    ("d/**/a", &["d/a", "d/e/a", "d/e/f/a"], &["da", "d/ea"]),
    (
        "a**/b",
        &["ax/y/b", "a/b", "ab", "ax/b", "a/x/b"],
        &["xa/b"],
    ),
    ("?**/b", &["a/b", "ax/b"], &["ax/y/b", "ab"]),
    ("a**b", &["ab", "axb"], &["a/b"]),
    ("**", &["a", "d/a"], &[]),
    ("a/", &[], &["a", "a/b"]),
    ("?", &["a"], &["é", "ab"]),
    ("[a-c]x", &["ax", "cx"], &["dx", "x"]),
    ("[!a-c]x", &["dx"], &["ax"]),
    ("[^a]x", &["dx", "^x"], &["ax"]),
    ("[]a]", &["]", "a"], &["b"]),
    ("[!]a]", &["b"], &["]", "a"]),
    ("[a-]", &["a", "-"], &["b"]),
    ("[-a]", &["a", "-"], &["b"]),
    ("[a-c-e]", &["b", "-", "e"], &["d"]),
    ("[a-\\c]", &["b", "c"], &["\\", "-"]),
    ("[\\]]", &["]"], &["\\"]),
    ("[\\\\]", &["\\"], &["]"]),
    ("[[:alpha:]]", &["a", "Z"], &["1", "[", "é"]),
    ("[[:alpha:]-z]", &["a", "-", "z"], &["1"]),
    ("[[:digit:][:upper:]]x", &["1x", "Ax"], &["ax"]),
    ("[[:no:]]", &[], &["n", "o", ":", "a"]),
    ("[[:alpha:]", &[], &["a]", "[", "a"]),
    ("[[:a]", &["[", ":", "a"], &["b"]),
    ("[[:]", &["[", ":"], &["]"]),
    ("[[::]]", &[], &[":", "]", ":]", "["]),
    ("[[-z]", &["[", "a", "z", "b"], &[]),
    ("[z-a]", &["z"], &["a", "m", "-"]),
    ("[/]", &[], &["a"]),
    ("d[/]a", &[], &["d/a"]),
    ("d[!x]a", &["dya"], &["d/a"]),
    ("[a", &[], &["a", "[a"]),
    ("a\\", &[], &["a", "a\\"]),
    ("\\a", &["a"], &["\\a"]),
    ("\\*", &["*"], &["a"]),
    ("a\\*b", &["a*b"], &["axb"]),
    ("**\\/a", &["d/a", "x/y/a"], &["a"]),
    ("***/a", &["a", "d/a", "d/e/a"], &[]),
    ("*/a", &["d/a"], &["d/e/a", "a"]),
    ("*a*b*c", &["abc", "xaybzc"], &["acb"]),
    ("d?a", &["dxa"], &["d/a"]),
    ("!a", &[], &["a", "!a"]),
    ("\\!a", &["!a"], &["a"]),
    ("é*", &["éa"], &["e"]),
    ("[é]", &[], &["é"]),
    ("[[:space:]]x", &[" x", "\tx", "\nx"], &["\x0bx"]),
    ("[[:punct:]]x", &["!x", "_x"], &["ax"]),
    ("[[:xdigit:]]x", &["fx", "Fx"], &["gx"]),
    ("[[:cntrl:]]x", &["\x01x", "\x7fx"], &["ax"]),
];

// Patterns with several pieces that match texts of any length.
static STARS: [Row; 9] = [
    (
        "*a*a*a*a*b",
        &[
            "aaaab",
            "xaxaxaxaxb",
            "aaaaaaaaaaaaaaaaaaaaaaaaaaaaaaaaaaaaaaaaaaaaaaaaaaaaaaaaaaaab",
        ],
        &[
            "aaab",
            "aaaa/b",
            "aaaaaaaaaaaaaaaaaaaaaaaaaaaaaaaaaaaaaaaaaaaaaaaaaaaaaaaaaaaa",
        ],
    ),
    (
        "**/*a*/*b*",
        &["a/b", "x/a/b", "x/y/zaz/zbz"],
        &["a/x/b", "b/a", "ab"],
    ),
    (
        "**/a/**/*b*",
        &["a/b", "x/a/y/z/bb", "a/x/b"],
        &["x/b", "xa/b", "a/bx/c", "a"],
    ),
    (
        "a*/**/b*/**",
        &["a/b/c", "ax/y/bx/c", "ax/b/c/d"],
        &["a/b", "xa/b/c", "a/x/b"],
    ),
    (
        "*[!a]*?*[ab]*",
        &["xxa", "bab", "xyzb"],
        &["aaaa", "xa", "aab", "xxc"],
    ),
    ("**/**/*x", &["x", "a/x", "a/b/cx"], &["xa", "a/xb"]),
    ("*/**/*", &["a/b", "a/b/c", "a/b/c/d"], &["a"]),
    ("**/a/**", &["a/b", "x/a/b", "a/b/c"], &["a", "x/a", "xa/b"]),
    (
        "*a*/**/**/b",
        &["a/b", "xax/y/b", "a/x/y/b"],
        &["ab", "b/a/b", "a/xb"],
    ),
];

/// Returns whether the attribute `hit` is set for a path, if a line with the pattern sets it.
fn is_hit(alloc: Global, pattern: &str, path: &str) -> Result<bool, AllocError> {
    let line = format!(in alloc; "{pattern} hit")?;
    let mut attributes = Attributes::new(alloc);
    attributes.read(
        alloc,
        Source {
            folder: b"",
            has_macros: true,
            bytes: line.as_bytes(),
        },
    )?;
    let states = attributes.states_of(alloc, path.as_bytes())?;
    Ok(states.iter().any(|it| it.name == b"hit".as_slice() && matches!(it.value, Value::Set)))
}

/// Returns the first pattern and path of these rows for which git decides otherwise.
fn first_other(
    alloc: Global,
    rows: &[Row],
) -> Result<Option<(&'static str, &'static str)>, AllocError> {
    for (pattern, hits, misses) in rows {
        for path in *hits {
            if !is_hit(alloc, pattern, path)? {
                return Ok(Some((*pattern, *path)));
            }
        }
        for path in *misses {
            if is_hit(alloc, pattern, path)? {
                return Ok(Some((*pattern, *path)));
            }
        }
    }
    Ok(None)
}

#[test]
fn patterns_match_as_in_git(rt: HostRuntime) -> Result<(), Fail> {
    let other = first_other(rt.alloc(), &ROWS)?;
    assert!(rt; other.is_none(), "{other:?}");
    Ok(())
}

#[test]
fn patterns_with_several_stars_match_as_in_git(rt: HostRuntime) -> Result<(), Fail> {
    let other = first_other(rt.alloc(), &STARS)?;
    assert!(rt; other.is_none(), "{other:?}");
    Ok(())
}
