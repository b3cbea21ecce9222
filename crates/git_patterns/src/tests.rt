//! Which paths match a pattern, by the table of git's test `t3070-wildmatch.sh` for paths with slashes (`WM_PATHNAME`).
//!
//! `git check-attr` of git 2.39.5 decides the same, except about paths that it takes for other ones: the empty one, `.`, and
//! those with a slash at the end.

use crate::Pattern;
use std::alloc::{AllocError, Global};
use std::test::Fail;

/// A pattern, paths that match it, and paths that don't.
type Row = (
    &'static str,
    &'static [&'static str],
    &'static [&'static str],
);

static ROWS: [Row; 84] = [
    // Names.
    ("foo", &["foo"], &["bar", ""]),
    ("", &[""], &["foo"]),
    ("???", &["foo"], &[]),
    ("??", &[], &["foo"]),
    ("*", &["foo"], &[]),
    ("f*", &["foo"], &[]),
    ("*f", &[], &["foo"]),
    ("*foo*", &["foo"], &[]),
    ("*ob*a*r*", &["foobar"], &[]),
    ("*ab", &["aaaaaaabababab"], &[]),
    ("foo\\*", &["foo*"], &[]),
    ("foo\\*bar", &[], &["foobar"]),
    ("f\\\\oo", &["f\\oo"], &[]),
    ("*[al]?", &["ball"], &[]),
    ("**[!te]", &["ten"], &[]),
    ("**[!ten]", &[], &["ten"]),
    ("b*a", &[], &["aaabbb"]),
    ("*ba*", &[], &["aabcaa"]),
    ("\\??\\?b", &["?a?b"], &[]),
    ("\\a\\b\\c", &["abc"], &[]),
    // Slashes.
    ("foo*bar", &[], &["foo/baz/bar"]),
    ("foo**bar", &["foobazbar"], &["foo/baz/bar"]),
    (
        "foo/**/bar",
        &["foo/baz/bar", "foo/b/a/z/bar", "foo/bar"],
        &[],
    ),
    (
        "foo/**/**/bar",
        &["foo/baz/bar", "foo/b/a/z/bar", "foo/bar"],
        &[],
    ),
    ("foo?bar", &[], &["foo/bar"]),
    ("foo[/]bar", &[], &["foo/bar"]),
    ("foo[^a-z]bar", &[], &["foo/bar"]),
    (
        "f[^eiu][^eiu][^eiu][^eiu][^eiu]r",
        &["foo-bar"],
        &["foo/bar"],
    ),
    ("**/foo", &["foo", "XXX/foo", "bar/baz/foo"], &[]),
    ("*/foo", &[], &["bar/baz/foo"]),
    ("**/bar*", &[], &["foo/bar/baz"]),
    (
        "**/bar/*",
        &["deep/foo/bar/baz"],
        &["deep/foo/bar", "deep/foo/bar/baz/"],
    ),
    ("**/bar/**", &["deep/foo/bar/baz/", "deep/foo/bar/"], &[]),
    ("**/bar**", &[], &["foo/bar/baz"]),
    ("*/bar/**", &["foo/bar/baz/x"], &["deep/foo/bar/baz/x"]),
    ("**/bar/*/*", &["deep/foo/bar/baz/x"], &[]),
    ("**/t[o]", &["foo/bar/baz/to"], &[]),
    ("foo/*", &["foo/bar"], &["foo/bba/arr"]),
    ("foo/**", &["foo/bba/arr"], &[]),
    ("foo*", &[], &["foo/bba/arr"]),
    ("foo/*arr", &[], &["foo/bba/arr"]),
    ("foo/**arr", &[], &["foo/bba/arr"]),
    (
        "*/*/*",
        &["foo/bba/arr"],
        &["foo", "foo/bar", "foo/bb/aa/rr"],
    ),
    ("**/**/**", &["foo/bb/aa/rr"], &[]),
    // Several stars.
    ("*X*i", &["abcXdefXghi"], &["ab/cXd/efXg/hi"]),
    ("*/*X*/*/*i", &["ab/cXd/efXg/hi"], &[]),
    ("**/*X*/**/*i", &["ab/cXd/efXg/hi"], &[]),
    (
        "**/*a*b*g*n*t",
        &["abcd/abcdefg/abcdefghijk/abcdefghijklmnop.txt"],
        &["abcd/abcdefg/abcdefghijk/abcdefghijklmnop.txtz"],
    ),
    (
        "-*-*-*-*-*-*-12-*-*-*-m-*-*-*",
        &["-adobe-courier-bold-o-normal--12-120-75-75-m-70-iso8859-1"],
        &[
            "-adobe-courier-bold-o-normal--12-120-75-75-X-70-iso8859-1",
            "-adobe-courier-bold-o-normal--12-120-75-75-/-70-iso8859-1",
        ],
    ),
    // Sets.
    ("[ten]", &[], &["ten"]),
    ("t[a-g]n", &["ten"], &["ton"]),
    ("t[!a-g]n", &["ton"], &["ten"]),
    ("t[^a-g]n", &["ton"], &["ten"]),
    ("a[]]b", &["a]b"], &[]),
    ("a[]-]b", &["a-b", "a]b"], &["aab"]),
    ("a[]a-]b", &["aab"], &[]),
    ("a[c-c]st", &[], &["acrt"]),
    ("a[c-c]rt", &["acrt"], &[]),
    ("[!]-]", &["a"], &["]"]),
    ("[!]-a]", &["["], &["^"]),
    ("[]-a]", &["^"], &["["]),
    ("[a-]b]", &["-b]"], &[]),
    ("[a-e-n]", &["-"], &["j"]),
    ("[--A]", &["-", "5"], &[]),
    ("[------]", &["-"], &["a"]),
    ("[\\\\-^]", &["]"], &["["]),
    ("[\\1-\\3]", &["2", "3"], &["4"]),
    ("[[-\\]]", &["\\", "[", "]"], &["-"]),
    ("[A-\\\\]", &["G"], &[]),
    ("[a^bc]", &["^"], &[]),
    ("\\[ab]", &["[ab]"], &[]),
    ("[[:]ab]", &["[ab]"], &[]),
    ("[[:digit]ab]", &["[ab]"], &[]),
    // Classes.
    ("[[:alpha:]][[:digit:]][[:upper:]]", &["a1B"], &[]),
    (
        "[[:digit:][:upper:][:space:]]",
        &["A", "1", " "],
        &["a", "."],
    ),
    ("[[:digit:][:punct:][:space:]]", &["."], &[]),
    ("[[:upper:]]", &["A"], &["a"]),
    ("[[:lower:]]", &["a"], &["A"]),
    ("[[:xdigit:]]", &["5", "f", "D"], &[]),
    ("[a-c[:digit:]x-z]", &["5", "b", "y"], &["q"]),
    // Upper case comes before lower case.
    ("[A-Z]", &["A"], &["a"]),
    ("[B-a]", &["a"], &["A"]),
    ("[Z-y]", &["Z"], &["z"]),
    // By git's table this path doesn't match, since the whole pattern is compared at once there. Of a pattern in a file git
    // compares the bytes before the first star by themselves, so that a name begins after them. Then the path matches.
    ("foo**", &["foo/bba/arr"], &[]),
];

/// Patterns that no path matches.
static NOTHING: [&str; 10] = [
    "\\",
    "*/\\",
    "a[]b",
    "ab[",
    "[!",
    "[-",
    "[a-",
    "[!a-",
    "[\\]",
    "[[:digit:][:spaci:]]",
];

/// Returns the first path of a row for which the pattern decides otherwise.
fn other_path(alloc: Global, row: &Row) -> Result<Option<&'static str>, AllocError> {
    let Some(pattern) = Pattern::of(alloc, row.0.as_bytes())? else {
        return Ok(Some(row.0));
    };
    for path in row.1 {
        if !pattern.matches(alloc, path.as_bytes())? {
            return Ok(Some(*path));
        }
    }
    for path in row.2 {
        if pattern.matches(alloc, path.as_bytes())? {
            return Ok(Some(*path));
        }
    }
    Ok(None)
}

#[test]
fn patterns_match_as_in_git(rt: HostRuntime) -> Result<(), Fail> {
    for row in &ROWS {
        let other = other_path(rt.alloc(), row)?;
        assert!(rt; other.is_none(), "{}: {other:?}", row.0);
    }
    Ok(())
}

#[test]
fn malformed_patterns_match_nothing(rt: HostRuntime) -> Result<(), Fail> {
    for text in NOTHING {
        let is_read = Pattern::of(rt.alloc(), text.as_bytes())?.is_some();
        assert!(rt; !is_read, "{text}");
    }
    Ok(())
}
