//! What git stores of contents, by `git hash-object --path` of git 2.39.5.

use git_attributes::{is_binary, push_normalized};
use std::alloc::{AllocError, Global};
use std::test::Fail;

/// How many letters come first, the bytes after them, and whether git takes the file for binary if it has to decide that.
type Row = (usize, &'static [u8], bool);

static ROWS: [Row; 20] = [
    (0, b"a\r\n", false),
    (0, b"a\rb\r\n", true),
    (0, b"a\nb\r\n", false),
    (0, b"\r\n", false),
    (0, b"\r\r\n", true),
    (0, b"a\r\n\r\n", false),
    (0, b"a\0\r\n", true),
    (127, b"\x01\r\n", true),
    (128, b"\x01\r\n", false),
    (256, b"\x01\x02\r\n", false),
    (255, b"\x01\x02\r\n", true),
    (127, b"\x7F\r\n", true),
    (127, b"\x1A\r\n", true),
    (128, b"\x0B\r\n", false),
    (0, b"\x08\x0C\x1B\t\r\n", false),
    (0, b"\x1A\r\n", true),
    (0, b"a\r\n\x1A", false),
    (0, b"\x01\r\n\x1A", true),
    (0, b"a\r\n\x1A\x1A", true),
    (0, b"\x80\xFF\r\n", false),
];

/// Contents, and what git stores of them as texts.
static STORED: [(&[u8], &[u8]); 7] = [
    (b"", b""),
    (b"a\r\n", b"a\n"),
    (b"\r\r\n\r", b"\r\n\r"),
    (b"\r\n\r\n", b"\n\n"),
    (b"\n\r", b"\n\r"),
    (b"a\rb\0\r\n", b"a\rb\0\n"),
    (b"\r\n\n\r\n", b"\n\n\n"),
];

fn content(alloc: Global, row: &Row) -> Result<Vec<u8>, AllocError> {
    let mut bytes = Vec::new(alloc);
    for _ in 0..row.0 {
        bytes.push(b'a')?;
    }
    bytes.extend_from_slice(row.1)?;
    Ok(bytes)
}

#[test]
fn files_are_binary_as_in_git(rt: HostRuntime) -> Result<(), Fail> {
    for row in &ROWS {
        let bytes = content(rt.alloc(), row)?;
        assert_eq!(rt; is_binary(&bytes), row.2, "{} letters, {:?}", row.0, row.1);
    }
    Ok(())
}

#[test]
fn texts_are_stored_as_in_git(rt: HostRuntime) -> Result<(), Fail> {
    for (text, want) in &STORED {
        let mut stored = Vec::new(rt.alloc());
        push_normalized(text, &mut stored)?;
        assert_eq!(rt; stored.as_slice(), *want, "{text:?}");
    }
    Ok(())
}
