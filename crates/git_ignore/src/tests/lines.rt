//! The lines of ignore files: comments, negated lines, spaces and ends of lines.

use crate::tests::{Row, other_row};
use std::test::Fail;

static COMMENTS: [Row; 14] = [
    ("", &[], &["a"]),
    ("\n\n", &[], &["a"]),
    ("#a\n", &[], &["#a", "a"]),
    ("\\#a\n", &["#a"], &["\\#a", "a"]),
    (" #a\n", &[" #a"], &["#a"]),
    ("a\n!a\n", &[], &["a"]),
    ("!a\na\n", &["a"], &[]),
    ("\\!a\n", &["!a"], &["a"]),
    ("*\n!a\n", &["b", "d/", "d/a"], &["a"]),
    ("!\n*\n", &["a"], &[]),
    ("*\n!\n!/\n", &["a", "d/"], &[]),
    ("*\n!!a\n", &["a"], &["!a"]),
    ("!#a\n*\n!#b\n", &["#a"], &["#b"]),
    ("\n#\n*.o\n\n!k.o\n", &["a.o", "d/a.o"], &["k.o", "d/k.o"]),
];

static SPACES: [Row; 16] = [
    ("a  \n", &["a"], &["a ", "a  "]),
    ("a\\ \n", &["a "], &["a", "a\\ ", "a\\"]),
    ("a\\  \n", &["a "], &["a", "a  "]),
    ("a \\ \n", &["a  "], &["a", "a \\"]),
    ("a\\\\ \n", &["a\\"], &["a", "a\\ ", "a "]),
    ("a \\\n", &[], &["a", "a ", "a \\"]),
    ("a b \n", &["a b"], &["a", "a b "]),
    ("   \n", &[], &[" ", "   ", "a"]),
    ("\\ \n", &[" "], &["a"]),
    (" a\n", &[" a"], &["a"]),
    ("a\t\n", &["a\t"], &["a"]),
    ("a \t\n", &["a \t"], &["a", "a "]),
    ("a \n!b ", &["a"], &["b", "b "]),
    ("d/ \n", &["d/", "d/a"], &["e"]),
    ("! a\n", &[], &[" a", "a"]),
    ("*\n! \n", &["a", " "], &[]),
];

static ENDS: [Row; 21] = [
    ("a", &["a"], &["b"]),
    ("a\r\n", &["a"], &["a\r"]),
    ("a\r\r\n", &["a\r"], &["a", "a\r\r"]),
    ("a\r", &["a"], &["a\r"]),
    ("a \r\n", &["a"], &["a "]),
    ("a\\ \r\n", &["a "], &["a"]),
    ("a\r \n", &["a\r"], &["a"]),
    ("\r\n", &[], &["a", "\r"]),
    ("\r\r\n", &["\r"], &["\r\r"]),
    ("d/\r\n", &["d/", "d/a"], &["e"]),
    ("#\r\na\r\n!b\r\n", &["a"], &["b"]),
    ("a\rb\n", &["a\rb"], &["a", "b"]),
    ("a\0b\nc\n", &["a", "c"], &["ab", "b"]),
    ("\0a\n", &[], &["a"]),
    ("a \0\n", &["a"], &["a "]),
    ("a\r\0\n", &["a\r"], &["a"]),
    ("a\0\r\n", &["a"], &["a\r"]),
    ("\u{feff}a\n", &["a"], &["\u{feff}a"]),
    ("\u{feff}#a\n", &[], &["a", "#a", "\u{feff}#a"]),
    ("\u{feff}\u{feff}a\n", &["\u{feff}a"], &["a"]),
    ("b\n\u{feff}a\n", &["b", "\u{feff}a"], &["a"]),
];

#[test]
fn comments_and_negated_lines(rt: HostRuntime) -> Result<(), Fail> {
    let other = other_row(rt.alloc(), &COMMENTS)?;
    assert!(rt; other.is_none(), "{other:?}");
    Ok(())
}

#[test]
fn spaces_at_the_end_of_a_line(rt: HostRuntime) -> Result<(), Fail> {
    let other = other_row(rt.alloc(), &SPACES)?;
    assert!(rt; other.is_none(), "{other:?}");
    Ok(())
}

#[test]
fn ends_of_lines(rt: HostRuntime) -> Result<(), Fail> {
    let other = other_row(rt.alloc(), &ENDS)?;
    assert!(rt; other.is_none(), "{other:?}");
    Ok(())
}
