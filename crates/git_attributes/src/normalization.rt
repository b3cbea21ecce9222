//! How git stores the line ends of a file with attributes of given states, and what it stores of a text.

ghost use Rattle.std.specs.Prelude.{◌≡◌, map, ◌++◌, OnOk};
ghost use Rattle.git_attributes.specs.Normalization.{has_line_end, normalization_of, text_state};
ghost use Rattle.git_attributes.specs.Views.{given_of, state_of};
ghost use Rattle.git_attributes.specs.Text.{begins_with_lf, eof_at_end, has_crlf, is_binary, is_nonprintable, is_printable, nonprintables, normalized};

use crate::assignment::{Assignment, Value, state_in};
use git_patterns::text::is_word;
use std::alloc::AllocError;

/// How git stores the line ends of a file.
#[derive(Clone, Copy, Debug, PartialEq, Eq)]
pub enum Normalization {
    /// As they are.
    Off,
    /// As line feeds.
    On,
    /// As line feeds, if the file's bytes are those of a text and aren't stored already.
    Auto,
}

/// Returns the normalization that a state of `text`, or of its old name `crlf`, asks for. None if it asks for none.
fn text_state(value: Value<'_>) -> Option<Normalization>
    ensures { result ≡ text_state (state_of value.entry) }
{
    match value {
        Value::Set => Some(Normalization::On),
        Value::Unset => Some(Normalization::Off),
        Value::Unspecified => None,
        Value::Text(text) => {
            if is_word(text, b"auto") {
                Some(Normalization::Auto)
            } else if is_word(text, b"input") {
                Some(Normalization::On)
            } else {
                None
            }
        }
    }
}

/// Returns whether a state of `eol` names a line end.
fn has_line_end(value: Value<'_>) -> bool
    ensures { result ≡ has_line_end (state_of value.entry) }
{
    match value {
        Value::Text(text) => is_word(text, b"lf") || is_word(text, b"crlf"),
        _ => false,
    }
}

/// Returns how git stores the line ends of a file with attributes of these states. `auto` says whether `core.autocrlf` is
/// set, to true or to `input`.
pub fn normalization_of(known: &[Assignment<'_>], auto: bool) -> Normalization
    ensures { result ≡ normalization_of (map given_of known.now) auto }
{
    let asked = match text_state(state_in(b"text", known)) {
        Some(asked) => Some(asked),
        None => text_state(state_in(b"crlf", known)),
    };
    match asked {
        Some(asked) => asked,
        None if has_line_end(state_in(b"eol", known)) => Normalization::On,
        None if auto => Normalization::Auto,
        None => Normalization::Off,
    }
}

/// Control-Z, the end of a file of old systems.
const END_OF_FILE: u8 = 26;

/// Returns whether a line feed comes first.
fn begins_with_lf(bytes: &[u8]) -> bool
    ensures { result ≡ begins_with_lf bytes.now }
{
    match bytes {
        [byte, ..] => *byte == b'\n',
        [] => false,
    }
}

/// Appends the bytes that git stores of a text: each CR directly before an LF is left out.
///
/// # Errors
/// Out of memory.
pub fn push_normalized(text: &[u8], stored: &mut Vec<u8>) -> Result<(), AllocError>
    ensures { OnOk result (stored.new.items ≡ stored.old.items ++ normalized text.now) }
{
    let mut rest = text;
    'bytes: while let [byte, after @ ..] = rest {
        if *byte != b'\r' || !begins_with_lf(after) {
            stored.push(*byte)?;
        }
        rest = after;
    }
    Ok(())
}

/// Returns whether a CR is directly before an LF.
pub(crate) fn has_crlf(bytes: &[u8]) -> bool
    ensures { result ≡ has_crlf bytes.now }
{
    let mut rest = bytes;
    'bytes: while let [byte, after @ ..] = rest {
        if *byte == b'\r' && begins_with_lf(after) {
            return true;
        }
        rest = after;
    }
    false
}

/// Returns whether git counts a byte as printable: backspace, tab, form feed, escape, and what is neither a control
/// character nor DEL.
fn is_printable(byte: u8) -> bool
    ensures { result ≡ is_printable byte }
{
    matches!(byte, 8 | 9 | 12 | 27 | 32..=126 | 128..=255)
}

/// Returns whether git counts a byte as not printable. LF and CR count as neither.
fn is_nonprintable(byte: u8) -> bool
    ensures { result ≡ is_nonprintable byte }
{
    !is_printable(byte) && byte != b'\n' && byte != b'\r'
}

/// Returns 1 if the last byte is the end of a file of old systems, and otherwise 0.
fn eof_at_end(bytes: &[u8]) -> usize
    ensures { result ≡ eof_at_end bytes.now }
{
    if !bytes.is_empty() && bytes[bytes.len() - 1] == END_OF_FILE {
        1
    } else {
        0
    }
}

/// Returns whether git takes a file for binary if it has to decide that by its bytes (`text=auto`, `core.autocrlf`): it has
/// a CR without an LF after it, a NUL, or more than one byte in 128 printable ones that isn't printable.
#[tactic(auto, using(crate::proofs::Binary::binary_cr, crate::proofs::Binary::binary_nul), unfolding(crate::specs::Text::is_binary, crate::specs::Text::nonprintables))]
pub fn is_binary(bytes: &[u8]) -> bool
    ensures { result ≡ is_binary bytes.now }
{
    let mut printable = 0usize;
    let mut nonprintable = 0usize;
    let mut rest = bytes;
    'bytes: while let [byte, after @ ..] = rest {
        if *byte == 0 {
            return true;
        }
        if *byte == b'\r' && !begins_with_lf(after) {
            return true;
        }
        if is_printable(*byte) {
            printable += 1;
        } else if is_nonprintable(*byte) {
            nonprintable += 1;
        }
        rest = after;
    }
    printable / 128 < nonprintable.saturating_sub(eof_at_end(bytes))
}
