//! Pointers of git-lfs: which bytes are those of one.

ghost use Rattle.std.specs.Prelude.{◌≡◌, ◌<◌, length, option_map, IfSome};
ghost use Rattle.std.specs.List.{list_all, list_any};
ghost use Rattle.git_attributes.specs.Lfs.{has_key, has_same_digit, has_value, is_below, is_digest, is_digit, is_extension, is_extension_key, is_hex_digit, is_letter, is_oid, is_pointer, is_rest, is_size, is_space, is_value, is_version, key_text, keys_after, all_keys, lines_of, listed, without_end, without_front};

use crate::attributes::line_at;
use git_patterns::text::{below, first_at, is_word};

/// The key of a line that each pointer has.
#[derive(Clone, Copy, Debug)]
enum Key {
    /// The name of the format.
    Version,
    /// The digest of the file's bytes.
    Oid,
    /// The number of the file's bytes.
    Size,
}

/// The keys of a pointer, in order.
const KEYS: [Key; 3] = [Key::Version, Key::Oid, Key::Size];

/// A pointer has fewer bytes.
pub(crate) const POINTER_LIMIT: usize = 1024;

/// The sizes of files are less.
const SIZE_LIMIT: u64 = 1 << 63;

/// Returns whether a value is the name of git-lfs's format, or an old one.
fn is_version(value: &[u8]) -> bool
    ensures { result ≡ is_version value.now }
{
    is_word(value, b"https://git-lfs.github.com/spec/v1")
        || (is_word(value, b"https://hawser.github.com/spec/v1")
            || is_word(value, b"http://git-media.io/v/2"))
}

/// Returns whether a byte is a hexadecimal digit, and no capital.
fn is_hex_digit(byte: u8) -> bool
    ensures { result ≡ is_hex_digit byte }
{
    matches!(byte, b'0'..=b'9' | b'a'..=b'f')
}

/// Returns whether each byte is a hexadecimal digit, and no capital.
fn are_hex_digits(digits: &[u8]) -> bool
    ensures { result ≡ list_all is_hex_digit digits.now }
{
    digits.iter().all(|digit| is_hex_digit(*digit))
}

/// Returns whether digits are those of a SHA-256 digest.
fn is_digest(digits: &[u8]) -> bool
    ensures { result ≡ is_digest digits.now }
{
    digits.len() == 64 && are_hex_digits(digits)
}

/// Returns whether a value is a digest, after its kind.
fn is_oid(value: &[u8]) -> bool
    ensures { result ≡ is_oid value.now }
{
    match below(b"sha256:", value) {
        Some(digits) => is_digest(digits),
        None => false,
    }
}

/// Returns whether a byte is a decimal digit.
fn is_digit(byte: u8) -> bool
    ensures { result ≡ is_digit byte }
{
    matches!(byte, b'0'..=b'9')
}

/// Returns whether a text is one or more decimal digits, of a number below a limit.
#[tactic(auto, using(crate::proofs::PointerLines::not_below, crate::proofs::PointerLines::great_number))]
fn is_below(limit: u64, digits: &[u8]) -> bool
    ensures { result ≡ is_below limit digits.now }
{
    let mut number = 0u128;
    let mut rest = digits;
    'digits: while let [digit, after @ ..] = rest {
        if !is_digit(*digit) {
            return false;
        }
        if number >= u128::from(limit) {
            return false;
        }
        number = number * 10 + u128::from(*digit - b'0');
        rest = after;
    }
    !digits.is_empty() && number < u128::from(limit)
}

/// Returns whether a value is the size of a file. It may have a sign.
fn is_size(value: &[u8]) -> bool
    ensures { result ≡ is_size value.now }
{
    match value {
        [] => false,
        [b'-', rest @ ..] => is_below(1, rest),
        [b'+', rest @ ..] => is_below(SIZE_LIMIT, rest),
        _ => is_below(SIZE_LIMIT, value),
    }
}

impl Key {
    /// Returns the key's name and the space after it.
    fn text(self) -> &'static [u8]
        ensures { result.now ≡ key_text self }
    {
        match self {
            Key::Version => b"version ",
            Key::Oid => b"oid ",
            Key::Size => b"size ",
        }
    }

    /// Returns whether a text is a value of this key.
    fn is_value(self, value: &[u8]) -> bool
        ensures { result ≡ is_value self value.now }
    {
        match self {
            Key::Version => is_version(value),
            Key::Oid => is_oid(value),
            Key::Size => is_size(value),
        }
    }

    /// Returns whether a line has this key.
    fn is_in(self, line: &[u8]) -> bool
        ensures { result ≡ has_key self line.now }
    {
        below(self.text(), line).is_some()
    }

    /// Returns whether a line has this key and a value of it.
    fn has_value(self, line: &[u8]) -> bool
        ensures { result ≡ has_value self line.now }
    {
        match below(self.text(), line) {
            Some(value) => self.is_value(value),
            None => false,
        }
    }
}

/// Returns whether a byte is a letter, a digit or an underscore.
fn is_letter(byte: u8) -> bool
    ensures { result ≡ is_letter byte }
{
    matches!(byte, b'0'..=b'9' | b'A'..=b'Z' | b'a'..=b'z' | b'_')
}

/// Returns whether a key is that of an extension.
fn is_extension_key(key: &[u8]) -> bool
    ensures { result ≡ is_extension_key key.now }
{
    match key {
        [b'e', b'x', b't', b'-', digit, b'-', first, ..] => is_digit(*digit) && is_letter(*first),
        _ => false,
    }
}

/// Returns whether a line is that of an extension.
fn is_extension(line: &[u8]) -> bool
    ensures { result ≡ is_extension line.now }
{
    match first_at(b' ', line) {
        Some(at) => is_extension_key(&line[..at]) && is_oid(&line[at + 1..]),
        None => false,
    }
}

/// Returns whether two lines are of extensions with the same digit, if one of them is that of an extension.
fn has_same_digit(line: &[u8], other: &[u8]) -> bool
    ensures { result ≡ has_same_digit line.now other.now }
{
    other[..other.len().min(6)] == line[..line.len().min(6)]
}

/// Returns the first line that isn't empty, and the text after it.
fn next_line(text: &[u8]) -> Option<(&[u8], &[u8])>
    ensures lines { lines_of text.now ≡ listed (option_map (λ x. (x.0.now, x.1.now)) result) }
    ensures less { IfSome result (λ x. length x.1.now < length text.now) }
{
    let mut rest = text;
    'lines: while let Some((line, after)) = line_at(rest) {
        if !line.is_empty() {
            return Some((line, after));
        }
        rest = after;
    }
    None
}

/// Returns whether a later line is that of an extension with the same digit as a line.
fn is_repeated(line: &[u8], text: &[u8]) -> bool
    ensures { result ≡ list_any (has_same_digit line.now) (lines_of text.now) }
{
    let mut rest = text;
    'lines: while let Some((other, after)) = next_line(rest) {
        if has_same_digit(line, other) {
            return true;
        }
        rest = after;
    }
    false
}

/// Returns the keys that are to come after a line, which the text follows. None if no pointer has the line there.
fn keys_after<'k>(keys: &'k [Key], line: &[u8], text: &[u8]) -> Option<&'k [Key]>
    ensures { option_map (λ more. more.now) result ≡ keys_after keys.now line.now (lines_of text.now) }
{
    let [key, others @ ..] = keys else {
        return None;
    };
    if key.is_in(line) {
        if key.has_value(line) {
            Some(others)
        } else {
            None
        }
    } else if is_extension(line) && !is_repeated(line, text) {
        Some(keys)
    } else {
        None
    }
}

/// Returns whether the lines of a text are those of a pointer.
fn has_all_keys(text: &[u8]) -> bool
    ensures { result ≡ is_rest all_keys (lines_of text.now) }
{
    let mut keys: &[Key] = &KEYS;
    let mut rest = text;
    'lines: while let Some((line, after)) = next_line(rest) {
        let Some(more) = keys_after(keys, line, after) else {
            return false;
        };
        keys = more;
        rest = after;
    }
    keys.is_empty()
}

/// Returns whether a byte is white space of ASCII.
fn is_space(byte: u8) -> bool
    ensures { result ≡ is_space byte }
{
    matches!(byte, b' ' | 9..=13)
}

/// Returns a text without white space at its front.
fn without_front(text: &[u8]) -> &[u8]
    ensures { result.now ≡ without_front text.now }
{
    let mut at = 0;
    'at: while at < text.len() && is_space(text[at]) {
        at += 1;
    }
    &text[at..]
}

/// Returns a text without white space at its end.
fn without_end(text: &[u8]) -> &[u8]
    ensures { result.now ≡ without_end text.now }
{
    let mut len = text.len();
    'len: while len > 0 && is_space(text[len - 1]) {
        len -= 1;
    }
    &text[..len]
}

/// Returns whether these bytes are a pointer of git-lfs, which is stored as it is. No bytes are one.
#[tactic(auto, unfolding(crate::specs::Lfs::is_pointer))]
pub fn is_pointer(bytes: &[u8]) -> bool
    ensures { result ≡ is_pointer bytes.now }
{
    bytes.is_empty()
        || (bytes.len() < POINTER_LIMIT && has_all_keys(without_end(without_front(bytes))))
}
