//! Sets of bytes in a pattern: `[a-z_]`, `[!/]`, `[[:digit:]]`.

ghost use Rattle.std.specs.Prelude.{◌≡◌, IfOk, option_map};
ghost use Rattle.std.specs.List.{list_any};
ghost use Rattle.git_patterns.specs.Sets.{class_at, class_named, has_range, is_in_class, is_in_item, is_in_set, item_at, member_at, range_at, set_at};

use crate::text::{first_at, is_word};
use std::alloc::{AllocError, Global};

/// A class of ASCII bytes, by its name in POSIX.
#[derive(Clone, Copy, Debug, PartialEq, Eq)]
pub(crate) enum Class {
    Alnum,
    Alpha,
    Blank,
    Cntrl,
    Digit,
    Graph,
    Lower,
    Print,
    Punct,
    Space,
    Upper,
    Xdigit,
}

/// An item of a set.
#[derive(Clone, Copy, Debug, PartialEq, Eq)]
pub(crate) enum Item {
    /// The first byte, and those from it to the second one.
    Range(u8, u8),
    /// The bytes of a class.
    Class(Class),
}

/// Returns the class of a name. None if there is none.
fn class_named(name: &[u8]) -> Option<Class>
    ensures { result ≡ class_named name.now }
{
    if is_word(name, b"alnum") {
        Some(Class::Alnum)
    } else if is_word(name, b"alpha") {
        Some(Class::Alpha)
    } else if is_word(name, b"blank") {
        Some(Class::Blank)
    } else if is_word(name, b"cntrl") {
        Some(Class::Cntrl)
    } else if is_word(name, b"digit") {
        Some(Class::Digit)
    } else if is_word(name, b"graph") {
        Some(Class::Graph)
    } else if is_word(name, b"lower") {
        Some(Class::Lower)
    } else if is_word(name, b"print") {
        Some(Class::Print)
    } else if is_word(name, b"punct") {
        Some(Class::Punct)
    } else if is_word(name, b"space") {
        Some(Class::Space)
    } else if is_word(name, b"upper") {
        Some(Class::Upper)
    } else if is_word(name, b"xdigit") {
        Some(Class::Xdigit)
    } else {
        None
    }
}

/// Returns whether a class has a byte. As in git, vertical tab and form feed are no spaces.
fn is_in_class(class: Class, byte: u8) -> bool
    ensures { result ≡ is_in_class class byte }
{
    match class {
        Class::Alnum => matches!(byte, b'0'..=b'9' | b'A'..=b'Z' | b'a'..=b'z'),
        Class::Alpha => matches!(byte, b'A'..=b'Z' | b'a'..=b'z'),
        Class::Blank => matches!(byte, b' ' | b'\t'),
        Class::Cntrl => matches!(byte, 0..=31 | 127),
        Class::Digit => byte.is_ascii_digit(),
        Class::Graph => matches!(byte, 33..=126),
        Class::Lower => byte.is_ascii_lowercase(),
        Class::Print => matches!(byte, 32..=126),
        Class::Punct => matches!(byte, 33..=47 | 58..=64 | 91..=96 | 123..=126),
        Class::Space => matches!(byte, b' ' | b'\t' | b'\n' | b'\r'),
        Class::Upper => byte.is_ascii_uppercase(),
        Class::Xdigit => matches!(byte, b'0'..=b'9' | b'A'..=b'F' | b'a'..=b'f'),
    }
}

/// Returns whether an item has a byte.
fn is_in_item(item: Item, byte: u8) -> bool
    ensures { result ≡ is_in_item byte item }
{
    match item {
        // As in git, a range that goes down has its first byte.
        Item::Range(first, last) => byte == first || (first <= byte && byte <= last),
        Item::Class(class) => is_in_class(class, byte),
    }
}

/// Returns whether one of the items has a byte.
fn is_in_any(items: &[Item], byte: u8) -> bool
    ensures { result ≡ list_any (is_in_item byte) items.now }
{
    items.iter().any(|item| is_in_item(*item, byte))
}

/// Returns whether a set has a byte: if it isn't negated, an item has it. `slashes` is whether it may have a slash.
pub(crate) fn is_in_set(slashes: bool, negated: bool, items: &[Item], byte: u8) -> bool
    ensures { result ≡ is_in_set slashes negated items.now byte }
{
    if byte == b'/' && !slashes {
        false
    } else if negated {
        !is_in_any(items, byte)
    } else {
        is_in_any(items, byte)
    }
}

/// Reads a byte of a set. After a backslash each byte counts as itself.
fn member_of(bytes: &[u8]) -> Option<(u8, &[u8])>
    ensures { option_map (λ x. (x.0, x.1.now)) result ≡ member_at bytes.now }
{
    match bytes {
        [] => None,
        [b'\\', rest @ ..] => match rest {
            [byte, after @ ..] => Some((*byte, after)),
            [] => None,
        },
        [byte, rest @ ..] => Some((*byte, rest)),
    }
}

/// Returns whether a dash comes first that makes a range, since it isn't the last byte of its set.
fn has_range(bytes: &[u8]) -> bool
    ensures { result ≡ has_range bytes.now }
{
    match bytes {
        [b'-', last, ..] => *last != b']',
        _ => false,
    }
}

/// Reads a byte of a set, or a range.
fn range_of(bytes: &[u8]) -> Option<(Item, &[u8])>
    ensures { option_map (λ x. (x.0, x.1.now)) result ≡ range_at bytes.now }
{
    let (first, rest) = member_of(bytes)?;
    if !has_range(rest) {
        return Some((Item::Range(first, first), rest));
    }
    let (last, after) = member_of(&rest[1..])?;
    Some((Item::Range(first, last), after))
}

/// Reads the name of a class, up to its `:]`. None if the first `]` isn't the end of one.
fn class_of(bytes: &[u8]) -> Option<(&[u8], &[u8])>
    ensures { option_map (λ x. (x.0.now, x.1.now)) result ≡ class_at bytes.now }
{
    match first_at(b']', bytes) {
        Some(end) if end > 0 && bytes[end - 1] == b':' => {
            Some((&bytes[..end - 1], &bytes[end + 1..]))
        }
        _ => None,
    }
}

/// Reads an item of a set. None at its end, `]`, which can't come first, and if there is none.
fn item_of(is_first: bool, bytes: &[u8]) -> Option<(Item, &[u8])>
    ensures { option_map (λ x. (x.0, x.1.now)) result ≡ item_at is_first bytes.now }
{
    match bytes {
        [b']', ..] if !is_first => None,
        [b'[', b':', rest @ ..] => match class_of(rest) {
            Some((name, after)) => Some((Item::Class(class_named(name)?), after)),
            None => range_of(bytes),
        },
        _ => range_of(bytes),
    }
}

/// Reads the items of a set, after its `[` or `[!` and up to its `]`. None if it has no end, or an unknown class.
pub(crate) fn items_of(
    alloc: Global,
    bytes: &[u8],
) -> Result<Option<(Vec<Item>, &[u8])>, AllocError>
    ensures { IfOk result (λ found. option_map (λ x. (x.0.items, x.1.now)) found ≡ set_at bytes.now) }
{
    let mut items = Vec::new(alloc);
    let mut is_first = true;
    let mut rest = bytes;
    'items: while let Some((item, after)) = item_of(is_first, rest) {
        items.push(item)?;
        is_first = false;
        rest = after;
    }
    match rest {
        [b']', after @ ..] => Ok(Some((items, after))),
        _ => Ok(None),
    }
}
