//! The pieces of a pattern, and whether a path matches them.

ghost use Rattle.std.specs.Prelude.{◌≡◌, IfOk, option_map, map, position};
ghost use Rattle.git_patterns.specs.Views.{part_of};
ghost use Rattle.git_patterns.specs.Patterns.{after_stars, begins_name, is_special, literal_len, part_at, parts_of, set_part_at, special_at, star_at, stars_at};
ghost use Rattle.git_patterns.specs.Wildmatch.{One, is_match};

use crate::set::{Item, is_in_set, items_of};
use crate::text::begins_with;
use std::alloc::{AllocError, Global};

/// Returns the text after the stars that come first.
fn after_stars(bytes: &[u8]) -> &[u8]
    ensures { result.now ≡ after_stars bytes.now }
{
    let mut rest = bytes;
    'stars: while let [byte, after @ ..] = rest {
        if *byte != b'*' {
            return rest;
        }
        rest = after;
    }
    rest
}

/// Returns the piece of two or more stars that begin a name, by the text after them.
fn stars_of(bytes: &[u8]) -> (Piece, &[u8])
    ensures { (part_of result.0, result.1.now) ≡ stars_at bytes.now }
{
    match bytes {
        [] => (Piece::Everything, bytes),
        [b'/', rest @ ..] => (Piece::Folders, rest),
        [byte, rest @ ..] => {
            if *byte == b'\\' && begins_with(b'/', rest) {
                (Piece::Everything, bytes)
            } else {
                (Piece::Name, bytes)
            }
        }
    }
}

/// Returns the piece of a star and of those after it.
fn star_of(at_name: bool, rest: &[u8]) -> (Piece, &[u8])
    ensures { (part_of result.0, result.1.now) ≡ star_at at_name rest.now }
{
    if begins_with(b'*', rest) && at_name {
        stars_of(after_stars(rest))
    } else {
        (Piece::Name, after_stars(rest))
    }
}

/// Returns the piece of a set of these items, if there are any.
fn set_of(alloc: Global, negated: bool, bytes: &[u8]) -> Result<Option<(Piece, &[u8])>, AllocError>
    ensures { IfOk result (λ found. option_map (λ x. (part_of x.0, x.1.now)) found ≡ set_part_at negated bytes.now) }
{
    match items_of(alloc, bytes)? {
        Some((items, after)) => {
            let set = Piece::Set {
                slashes: false,
                negated,
                items,
            };
            Ok(Some((set, after)))
        }
        None => Ok(None),
    }
}

/// Reads a piece, and returns the text after it. `at_name` says whether it begins a name. None if there is none, or a
/// backslash has nothing after it, or a set no end.
#[tactic(auto, unfolding(crate::specs::Patterns::part_at))]
pub(crate) fn piece_of(
    alloc: Global,
    at_name: bool,
    pattern: &[u8],
) -> Result<Option<(Piece, &[u8])>, AllocError>
    ensures { IfOk result (λ found. option_map (λ x. (part_of x.0, x.1.now)) found ≡ part_at at_name pattern.now) }
{
    match pattern {
        [] => Ok(None),
        [b'?', rest @ ..] => Ok(Some((Piece::Any, rest))),
        [b'*', rest @ ..] => Ok(Some(star_of(at_name, rest))),
        [b'\\', rest @ ..] => match rest {
            [byte, after @ ..] => Ok(Some((Piece::Byte(*byte), after))),
            [] => Ok(None),
        },
        [b'[', rest @ ..] => match rest {
            [b'!' | b'^', after @ ..] => set_of(alloc, true, after),
            _ => set_of(alloc, false, rest),
        },
        [byte, rest @ ..] => Ok(Some((Piece::Byte(*byte), rest))),
    }
}

/// Returns whether a name begins after a piece.
pub(crate) fn begins_name(piece: &Piece) -> bool
    ensures { result ≡ begins_name (part_of piece.now) }
{
    match piece {
        Piece::Byte(byte) => *byte == b'/',
        Piece::Folders => true,
        _ => false,
    }
}

/// Returns whether a byte has a meaning of its own in a pattern.
fn is_special(byte: u8) -> bool
    ensures { result ≡ is_special byte }
{
    matches!(byte, b'*' | b'?' | b'[' | b'\\')
}

/// Returns the position of the first byte of a pattern with a meaning of its own.
fn special_at(pattern: &[u8]) -> Option<usize>
    ensures { result ≡ special_at pattern.now }
{
    pattern.iter().position(|byte| is_special(*byte))
}

/// Returns how many bytes of a pattern come before the first one with a meaning of its own.
pub fn literal_len(pattern: &[u8]) -> usize
    ensures { result ≡ literal_len pattern.now }
{
    match special_at(pattern) {
        Some(len) => len,
        None => pattern.len(),
    }
}

/// Returns pieces that match these bytes.
fn bytes_of(alloc: Global, bytes: &[u8]) -> Result<Vec<Piece>, AllocError>
    ensures { IfOk result (λ pieces. map part_of pieces.items ≡ map One bytes.now) }
{
    let mut pieces = Vec::new(alloc);
    let mut rest = bytes;
    'bytes: while let [byte, after @ ..] = rest {
        pieces.push(Piece::Byte(*byte))?;
        rest = after;
    }
    Ok(pieces)
}

/// Returns the pieces of a pattern: the bytes before the first one with a meaning of its own, and then the other pieces.
/// None if no path matches it.
pub(crate) fn pieces_of(alloc: Global, pattern: &[u8]) -> Result<Option<Vec<Piece>>, AllocError>
    ensures { IfOk result (λ found. option_map (λ pieces. map part_of pieces.items) found ≡ parts_of pattern.now) }
{
    let (front, pattern) = pattern.split_at(literal_len(pattern));
    let mut pieces = bytes_of(alloc, front)?;
    let mut at_name = true;
    let mut rest = pattern;
    'pieces: while let Some((piece, after)) = piece_of(alloc, at_name, rest)? {
        at_name = begins_name(&piece);
        pieces.push(piece)?;
        rest = after;
    }
    if rest.is_empty() {
        Ok(Some(pieces))
    } else {
        Ok(None)
    }
}

/// A piece of a pattern.
#[derive(Debug, Drop)]
pub(crate) enum Piece {
    /// A byte that matches itself.
    Byte(u8),
    /// `?`: a byte of a name.
    Any,
    /// `[..]`, or `[!..]` if it is negated: a byte that the set has. It may have a slash or not.
    Set {
        slashes: bool,
        negated: bool,
        items: Vec<Item>,
    },
    /// `*`: bytes of one name, or none.
    Name,
    /// `**/`: any number of folders.
    Folders,
    /// `**` at the end: all that is left.
    Everything,
}

/// Returns whether a path matches the pieces, one after the other.
pub(crate) fn is_match(pieces: &[Piece], path: &[u8]) -> bool
    ensures { result ≡ is_match (map part_of pieces.now) path.now }
{
    match pieces {
        [] => path.is_empty(),
        [Piece::Byte(wanted), rest @ ..] => match path {
            [byte, after @ ..] => *byte == *wanted && is_match(rest, after),
            [] => false,
        },
        [Piece::Any, rest @ ..] => match path {
            [byte, after @ ..] => *byte != b'/' && is_match(rest, after),
            [] => false,
        },
        [
            Piece::Set {
                slashes,
                negated,
                items,
            },
            rest @ ..,
        ] => match path {
            [byte, after @ ..] => {
                is_in_set(*slashes, *negated, items, *byte) && is_match(rest, after)
            }
            [] => false,
        },
        [Piece::Name, rest @ ..] => {
            is_match(rest, path)
                || match path {
                    [byte, after @ ..] => *byte != b'/' && is_match(pieces, after),
                    [] => false,
                }
        }
        [Piece::Folders, rest @ ..] => {
            if is_match(rest, path) {
                return true;
            }
            let mut left = path;
            'folders: while let [byte, after @ ..] = left {
                if *byte == b'/' && is_match(rest, after) {
                    return true;
                }
                left = after;
            }
            false
        }
        [Piece::Everything, rest @ ..] => {
            is_match(rest, path)
                || match path {
                    [_, after @ ..] => is_match(pieces, after),
                    [] => false,
                }
        }
    }
}
