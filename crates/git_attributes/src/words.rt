//! The words of a line, between blanks or in quotes.

ghost use Rattle.std.specs.Prelude.{◌≡◌, option_map, IfOk};
ghost use Rattle.git_attributes.specs.Words.{blank_at, is_blank, skip_blanks, word_at, word_len};
ghost use Rattle.git_attributes.specs.Quoted.{escape_at, octal_at, octal_digit, quoted_at, unquoted};

use std::alloc::{AllocError, Global};

/// Returns whether a byte parts words.
fn is_blank(byte: u8) -> bool
    ensures { result ≡ is_blank byte }
{
    matches!(byte, b' ' | b'\t' | b'\n' | b'\r')
}

/// Returns the text after the blanks that come first.
pub(crate) fn skip_blanks(text: &[u8]) -> &[u8]
    ensures { result.now ≡ skip_blanks text.now }
{
    let mut rest = text;
    'blanks: while let [byte, after @ ..] = rest {
        if !is_blank(*byte) {
            return rest;
        }
        rest = after;
    }
    rest
}

/// Returns the position of the first blank.
fn blank_at(text: &[u8]) -> Option<usize>
    ensures { result ≡ blank_at text.now }
{
    text.iter().position(|byte| is_blank(*byte))
}

/// Returns how many bytes come before the first blank.
fn word_len(text: &[u8]) -> usize
    ensures { result ≡ word_len text.now }
{
    match blank_at(text) {
        Some(len) => len,
        None => text.len(),
    }
}

/// Returns the first word of a text, and the text after it.
pub(crate) fn word_of(text: &[u8]) -> Option<(&[u8], &[u8])>
    ensures { option_map (λ x. (x.0.now, x.1.now)) result ≡ word_at text.now }
{
    let rest = skip_blanks(text);
    if rest.is_empty() {
        return None;
    }
    Some(rest.split_at(word_len(rest)))
}

/// Returns the value of an octal digit.
fn octal_digit(byte: u8) -> Option<u8>
    ensures { result ≡ octal_digit byte }
{
    match byte {
        b'0'..=b'7' => Some(byte - b'0'),
        _ => None,
    }
}

/// Reads a byte that is written as three octal digits.
fn octal_of(text: &[u8]) -> Option<(u8, &[u8])>
    ensures { option_map (λ x. (x.0, x.1.now)) result ≡ octal_at text.now }
{
    match text {
        [a, b, c, rest @ ..] => {
            let a = octal_digit(*a)?;
            let b = octal_digit(*b)?;
            let c = octal_digit(*c)?;
            if a > 3 {
                return None;
            }
            Some((a * 64 + b * 8 + c, rest))
        }
        _ => None,
    }
}

/// Reads what follows a backslash, as in C.
fn escaped_of(text: &[u8]) -> Option<(u8, &[u8])>
    ensures { option_map (λ x. (x.0, x.1.now)) result ≡ escape_at text.now }
{
    match text {
        [] => None,
        [b'a', rest @ ..] => Some((7, rest)),
        [b'b', rest @ ..] => Some((8, rest)),
        [b't', rest @ ..] => Some((9, rest)),
        [b'n', rest @ ..] => Some((10, rest)),
        [b'v', rest @ ..] => Some((11, rest)),
        [b'f', rest @ ..] => Some((12, rest)),
        [b'r', rest @ ..] => Some((13, rest)),
        [b'"', rest @ ..] => Some((b'"', rest)),
        [b'\\', rest @ ..] => Some((b'\\', rest)),
        _ => octal_of(text),
    }
}

/// Reads a byte between quotes. None at the closing quote, and if the text isn't quoted as in C.
fn quoted_of(text: &[u8]) -> Option<(u8, &[u8])>
    ensures { option_map (λ x. (x.0, x.1.now)) result ≡ quoted_at text.now }
{
    match text {
        [] | [b'"', ..] => None,
        [b'\\', rest @ ..] => escaped_of(rest),
        [byte, rest @ ..] => Some((*byte, rest)),
    }
}

/// Returns the bytes up to a closing quote, and the text after that. None if the text isn't quoted as in C.
pub(crate) fn unquoted(alloc: Global, text: &[u8]) -> Result<Option<(Vec<u8>, &[u8])>, AllocError>
    ensures { IfOk result (λ found. option_map (λ x. (x.0.items, x.1.now)) found ≡ unquoted text.now) }
{
    let mut bytes = Vec::new(alloc);
    let mut rest = text;
    'bytes: while let Some((byte, after)) = quoted_of(rest) {
        bytes.push(byte)?;
        rest = after;
    }
    match rest {
        [b'"', after @ ..] => Ok(Some((bytes, after))),
        _ => Ok(None),
    }
}
