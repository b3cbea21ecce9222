//! The states of a path's attributes, by `git check-attr` of git 2.39.5.

use git_attributes::attributes::BUILT_IN;
use git_attributes::{Attributes, Source, Value};
use std::alloc::{AllocError, Global};
use std::test::Fail;

/// The text of a file, a path, an attribute, and its state in git's words.
type Row = (&'static str, &'static str, &'static str, &'static str);

static ROWS: [Row; 59] = [
    ("a text", "a", "text", "set"),
    ("a -text", "a", "text", "unset"),
    ("a !text", "a", "text", "unspecified"),
    ("a text=auto", "a", "text", "auto"),
    ("a text=", "a", "text", ""),
    ("a text=a=b", "a", "text", "a=b"),
    ("a -text=auto", "a", "text", "unset"),
    ("a text -text", "a", "text", "unset"),
    ("a -text text=x", "a", "text", "x"),
    ("a text\na -text", "a", "text", "unset"),
    ("a text\na !text", "a", "text", "unspecified"),
    ("a text\nb -text", "a", "text", "set"),
    ("a text\n* eol=lf", "a", "text", "set"),
    ("# a text", "a", "text", "unspecified"),
    ("  \t a\t text \r", "a", "text", "set"),
    ("a text\r\n", "a", "text", "set"),
    ("\u{feff}a text", "a", "text", "set"),
    ("a text\n\u{feff}a -text", "a", "text", "set"),
    ("a te$t text", "a", "text", "unspecified"),
    ("a -", "a", "text", "unspecified"),
    ("a text =x", "a", "text", "unspecified"),
    ("a text --x", "a", "text", "unspecified"),
    ("a", "a", "text", "unspecified"),
    ("", "a", "text", "unspecified"),
    ("!a text", "a", "text", "unspecified"),
    ("\\!a text", "!a", "text", "set"),
    ("\"a\" text", "a", "text", "set"),
    ("\"a\"text", "a", "text", "set"),
    ("\"a b\" text", "a b", "text", "set"),
    ("\"a text", "\"a", "text", "set"),
    ("\"\\141\" text", "a", "text", "set"),
    ("\"\\\"\" text", "\"", "text", "set"),
    ("\"\\t\" text", "\t", "text", "set"),
    ("\"\\x\" text", "\"\\x\"", "text", "unspecified"),
    ("\"\\400\" text", "a", "text", "unspecified"),
    ("\"\" text", "a", "text", "unspecified"),
    ("a binary", "a", "text", "unset"),
    ("a binary", "a", "diff", "unset"),
    ("a binary", "a", "binary", "set"),
    ("a binary text", "a", "text", "set"),
    ("a text binary", "a", "text", "unset"),
    ("* binary\na -binary", "a", "text", "unspecified"),
    ("* binary\na !binary", "a", "text", "unspecified"),
    ("* binary\na text", "a", "text", "set"),
    ("a -binary", "a", "text", "unspecified"),
    ("a binary=x", "a", "text", "unspecified"),
    ("[attr]m text\na m", "a", "text", "set"),
    ("[attr]m text\na m", "a", "m", "set"),
    ("[attr]m text=x n\n[attr]n eol=lf\na m", "a", "eol", "lf"),
    ("[attr]m m text\na m", "a", "text", "set"),
    ("[attr]m n\n[attr]n m text\na m", "a", "text", "set"),
    ("[attr]m text\n[attr]m -text\na m", "a", "text", "unset"),
    ("a m\n[attr]m text", "a", "text", "set"),
    ("[attr]m text\na -m", "a", "text", "unspecified"),
    ("[attr] m text\na m", "a", "text", "set"),
    ("[attr]-m text\na -m", "a", "text", "unspecified"),
    ("[attr] text", "[attr]", "text", "unspecified"),
    ("[attr]binary text\na binary", "a", "text", "set"),
    ("[attr]m text -text\na m", "a", "text", "unset"),
];

/// Returns whether a path's attribute has a state in git's words, by a file of the worktree's top.
fn has_state(
    alloc: Global,
    text: &[u8],
    path: &str,
    name: &str,
    want: &str,
) -> Result<bool, AllocError> {
    let mut attributes = Attributes::new(alloc);
    attributes.read(alloc, BUILT_IN)?;
    attributes.read(
        alloc,
        Source {
            folder: b"",
            has_macros: true,
            bytes: text,
        },
    )?;
    let states = attributes.states_of(alloc, path.as_bytes())?;
    Ok(match states.iter().find(|it| it.name == name.as_bytes()) {
        Some(found) => match found.value {
            Value::Set => want == "set",
            Value::Unset => want == "unset",
            Value::Unspecified => want == "unspecified",
            Value::Text(text) => text == want.as_bytes(),
        },
        None => want == "unspecified",
    })
}

#[test]
fn lines_assign_states_as_in_git(rt: HostRuntime) -> Result<(), Fail> {
    for (text, path, name, want) in &ROWS {
        assert!(rt;
            has_state(rt.alloc(), text.as_bytes(), path, name, want)?,
            "{text:?}"
        );
    }
    Ok(())
}

/// The start of a line, how many spaces follow, and the state of `text` for `a`.
static LONG_LINES: [(&str, usize, &str, &str); 6] = [
    ("a text", 2041, "", "set"),
    ("a text", 2042, "", "unspecified"),
    (" a text", 2041, "", "unspecified"),
    ("a text", 2041, "\r\n", "set"),
    ("a", 2042, "text", "set"),
    ("a", 2043, "text", "unspecified"),
];

#[test]
fn long_lines_are_left_out(rt: HostRuntime) -> Result<(), Fail> {
    let alloc = rt.alloc();
    for (start, spaces, end, want) in &LONG_LINES {
        let mut text = String::from_str(alloc, start)?;
        for _ in 0..*spaces {
            text.push(' ')?;
        }
        text.push_str(end)?;
        assert!(rt;
            has_state(alloc, text.as_bytes(), "a", "text", want)?,
            "{start:?}, {spaces}, {end:?}"
        );
    }
    Ok(())
}
