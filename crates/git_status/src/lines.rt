//! The lines of `git status --porcelain`, with paths in quotes as git prints them. Of the letters, those of a status of the
//! worktree are here: their first column is a space, except for a conflict.

ghost use Rattle.std.specs.Prelude.{◌≡◌, ◌++◌, ◌∷◌, [], OnOk, IfSome, IfNone};
ghost use Rattle.std.specs.Option.{option_map};
ghost use Rattle.bstr.specs.BStr.{bstr_bytes};
ghost use Rattle.git_status.specs.Lines.{change_letters, conflict_letters, letters, path_ending, status_line};
ghost use Rattle.git_status.specs.Quoting.{escape, is_odd, is_quoted, octal, path_text, quoted_byte, quoted_text};

use bstr::BStr;
use status_call::index_as_worktree::{Change, Conflict, EntryStatus};
use std::alloc::AllocError;
use std::fmt;

/// How lines are printed.
#[derive(Clone, Copy, Debug, PartialEq, Eq)]
pub struct LineStyle {
    /// Whether a zero byte ends each line, with the path unchanged (git's option `-z`).
    pub zero: bool,
    /// Whether bytes outside of ASCII are escaped (git's `core.quotePath`).
    pub quote_all: bool,
}

/// Returns the two letters of a status, or `None` if the entry doesn't differ from the worktree.
pub fn letters<T: Drop, U: Drop>(status: &EntryStatus<T, U>) -> Option<&'static str>
    ensures { option_map (λ two. two.now) result ≡ letters status.now }
{
    match status {
        EntryStatus::Conflict { summary, .. } => Some(conflict_letters(*summary)),
        EntryStatus::Change(change) => Some(change_letters(change)),
        EntryStatus::NeedsUpdate(_) => None,
        EntryStatus::IntentToAdd => Some(" A"),
    }
}

fn change_letters<T: Drop, U: Drop>(change: &Change<T, U>) -> &'static str
    ensures { result.now ≡ change_letters change.now }
{
    match change {
        Change::Removed => " D",
        Change::TypeChange { .. } => " T",
        Change::Modification { .. } | Change::SubmoduleModification(_) => " M",
    }
}

/// Returns the letters of a conflict: what we did, and what they did.
pub(crate) fn conflict_letters(conflict: Conflict) -> &'static str
    ensures { result.now ≡ conflict_letters conflict }
{
    match conflict {
        Conflict::BothDeleted => "DD",
        Conflict::AddedByUs => "AU",
        Conflict::DeletedByThem => "UD",
        Conflict::AddedByThem => "UA",
        Conflict::DeletedByUs => "DU",
        Conflict::BothAdded => "AA",
        Conflict::BothModified => "UU",
    }
}

/// Appends the line of an entry with this path and status. An entry that doesn't differ from the worktree has none.
///
/// # Errors
/// Out of memory. Then anything may follow the lines before.
pub fn push_line<T: Drop, U: Drop>(
    lines: &mut Vec<u8>,
    style: LineStyle,
    path: BStr<'_>,
    status: &EntryStatus<T, U>,
) -> Result<(), AllocError>
    ensures { OnOk result (lines.new.items ≡ lines.old.items ++ status_line style (bstr_bytes path.entry) status.now) }
{
    let Some(two) = letters(status) else {
        return Ok(());
    };
    lines.extend_from_slice(two.as_bytes())?;
    lines.push(b' ')?;
    end_line(lines, style, path.as_bytes())
}

/// Appends the path of a line, and the line's end.
pub(crate) fn end_line(lines: &mut Vec<u8>, style: LineStyle, path: &[u8]) -> Result<(), AllocError>
    ensures { OnOk result (lines.new.items ≡ lines.old.items ++ path_ending style path.now) }
{
    if style.zero {
        lines.extend_from_slice(path)?;
        lines.push(0)?;
        return Ok(());
    }
    push_path(lines, path, style.quote_all)?;
    lines.push(b'\n')?;
    Ok(())
}

/// Whether git escapes a byte: a control character, a double quote, a backslash, or, with `quote_all`, a byte outside of
/// ASCII.
fn is_odd(byte: u8, quote_all: bool) -> bool
    ensures { result ≡ is_odd quote_all byte }
{
    byte < 32 || (byte == b'"' || (byte == b'\\' || (byte == 127 || (quote_all && byte >= 128))))
}

/// Whether git puts a path in quotes.
fn is_quoted(path: &[u8], quote_all: bool) -> bool
    ensures { result ≡ is_quoted quote_all path.now }
{
    for byte in path {
        if *byte == b' ' || is_odd(*byte, quote_all) {
            return true;
        }
    }
    false
}

/// Returns the three octal digits of a byte.
fn octal(byte: u8) -> [u8; 3]
    ensures { result ≡ octal byte }
{
    [b'0' + byte / 64, b'0' + byte / 8 % 8, b'0' + byte % 8]
}

/// Returns the one byte that follows the backslash of an escaped byte, or `None` if three octal digits do.
fn letter_of(byte: u8) -> Option<u8>
    ensures some { IfSome result (λ letter. escape byte ≡ letter ∷ []) }
    ensures none { IfNone result (escape byte ≡ octal byte) }
{
    match byte {
        7 => Some(b'a'),
        8 => Some(b'b'),
        b'\t' => Some(b't'),
        b'\n' => Some(b'n'),
        11 => Some(b'v'),
        12 => Some(b'f'),
        b'\r' => Some(b'r'),
        b'"' | b'\\' => Some(byte),
        _ => None,
    }
}

/// Appends what follows the backslash of an escaped byte.
fn push_escape(line: &mut Vec<u8>, byte: u8) -> Result<(), AllocError>
    ensures { OnOk result (line.new.items ≡ line.old.items ++ escape byte) }
{
    match letter_of(byte) {
        Some(letter) => {
            line.push(letter)?;
            Ok(())
        }
        None => line.extend_from_slice(&octal(byte)),
    }
}

/// Appends a byte of a path that is in quotes.
fn push_byte(line: &mut Vec<u8>, byte: u8, quote_all: bool) -> Result<(), AllocError>
    ensures { OnOk result (line.new.items ≡ line.old.items ++ quoted_byte quote_all byte) }
{
    if is_odd(byte, quote_all) {
        line.push(b'\\')?;
        return push_escape(line, byte);
    }
    line.push(byte)?;
    Ok(())
}

/// Appends a path as git prints it: in double quotes, with the escapes of C, if it has a space or a byte that git escapes.
/// `quote_all` escapes bytes outside of ASCII too (git's `core.quotePath`).
pub fn push_path(line: &mut Vec<u8>, path: &[u8], quote_all: bool) -> Result<(), AllocError>
    ensures { OnOk result (line.new.items ≡ line.old.items ++ path_text quote_all path.now) }
{
    if !is_quoted(path, quote_all) {
        return line.extend_from_slice(path);
    }
    push_quoted(line, path, quote_all)
}

/// Appends a path in double quotes, with the escapes of C.
pub(crate) fn push_quoted(
    line: &mut Vec<u8>,
    path: &[u8],
    quote_all: bool,
) -> Result<(), AllocError>
    ensures { OnOk result (line.new.items ≡ line.old.items ++ quoted_text quote_all path.now) }
{
    line.push(b'"')?;
    for byte in path {
        push_byte(line, *byte, quote_all)?;
    }
    line.push(b'"')?;
    Ok(())
}

/// A path as it is shown in a text: in double quotes, with git's escapes, also of bytes outside of ASCII.
#[derive(Clone, Copy)]
pub struct Quoted<'a> {
    /// The path.
    pub path: &'a [u8],
}

impl fmt::Display for Quoted<'_> {
    fn fmt<W: fmt::Write>(&self, f: &mut fmt::Formatter<W>) -> fmt::Result {
        f.write_char('"')?;
        for byte in self.path {
            write_byte(f, *byte)?;
        }
        f.write_char('"')
    }
}

/// Writes a byte of a path that is in quotes.
fn write_byte<W: fmt::Write>(f: &mut fmt::Formatter<W>, byte: u8) -> fmt::Result {
    if !is_odd(byte, true) {
        return f.write_char(char::from(byte));
    }
    f.write_char('\\')?;
    match letter_of(byte) {
        Some(letter) => f.write_char(char::from(letter)),
        None => {
            let [first, second, third] = octal(byte);
            f.write_char(char::from(first))?;
            f.write_char(char::from(second))?;
            f.write_char(char::from(third))
        }
    }
}
