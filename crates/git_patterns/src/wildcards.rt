//! The patterns of pathspecs.

ghost use Rattle.std.specs.Prelude.{◌≡◌, ◌&&◌, ◌||◌, true, IfOk, length, nat_le, option_map};
ghost use Rattle.git_patterns.specs.Patterns.{begins_name};
ghost use Rattle.git_patterns.specs.Rows.{named};
ghost use Rattle.git_patterns.specs.Sets.{is_lower, is_upper};
ghost use Rattle.git_patterns.specs.Styles.{cases_of, crossing, folded, styled, styled_parts_of};
ghost use Rattle.git_patterns.specs.Views.{part_of, wildcard_parts};
ghost use Rattle.git_patterns.specs.Wildmatch.{is_match};

use crate::piece::{Piece, begins_name, piece_of};
use crate::row::{MOST_PIECES, is_match_in};
use crate::set::Item;
use std::alloc::{AllocError, Global};

/// How the wildcards of a pathspec match.
#[derive(Clone, Copy, Debug, PartialEq, Eq)]
pub struct Style {
    /// Whether a slash parts names: `*`, `?` and sets don't match one, and `**/` matches folders. Otherwise a slash is a byte as
    /// any other.
    pub parts_names: bool,
    /// Whether ASCII letters match without regard to their case. Those of sets, and those after a backslash, don't.
    pub folds_case: bool,
}

/// The text of a pathspec from its first wildcard on.
#[derive(Debug, Drop)]
pub struct Wildcards {
    pieces: Vec<Piece>,
}

impl Wildcards {
    /// Reads a text. None if nothing matches it, since it ends within a set or after a backslash, or names a class that isn't
    /// known.
    ///
    /// # Errors
    /// Out of memory.
    pub fn of(alloc: Global, style: Style, text: &[u8]) -> Result<Option<Wildcards>, AllocError>
        ensures { IfOk result (λ found. option_map wildcard_parts found ≡ styled_parts_of style text.now) }
    {
        let mut pieces = Vec::new(alloc);
        let mut at_name = style.parts_names;
        let mut rest = text;
        'pieces: while let Some((piece, after)) = piece_of(alloc, at_name, rest)? {
            at_name = is_before_name(style, &piece);
            pieces.push(styled(alloc, style, piece)?)?;
            rest = after;
        }
        if rest.is_empty() {
            Ok(Some(Wildcards { pieces }))
        } else {
            Ok(None)
        }
    }

    /// Returns whether a path matches, with a slash after it if it is a folder's. More than [`MOST_PIECES`] pieces match none.
    ///
    /// The time is at most the number of pieces times the path's length, and no memory is needed.
    pub fn is_match(&self, path: &[u8], is_folder: bool) -> bool
        ensures { result ≡ (nat_le (length (wildcard_parts self.now)) MOST_PIECES && is_match (wildcard_parts self.now) (named path.now is_folder)) }
    {
        let len = self.pieces.len();
        if len > MOST_PIECES {
            return false;
        }
        let mut row = [false; MOST_PIECES];
        is_match_in(&self.pieces, path, is_folder, &mut row[..len])
    }
}

/// Returns whether a name begins after a piece.
fn is_before_name(style: Style, piece: &Piece) -> bool
    ensures { result ≡ (style.parts_names && begins_name (part_of piece.now)) }
{
    style.parts_names && begins_name(piece)
}

/// Returns a piece in a style.
///
/// # Errors
/// Out of memory.
fn styled(alloc: Global, style: Style, piece: Piece) -> Result<Piece, AllocError>
    ensures { IfOk result (λ it. part_of it ≡ styled style (part_of piece)) }
{
    let piece = if style.parts_names {
        piece
    } else {
        crossing(alloc, piece)
    };
    if style.folds_case {
        folded(alloc, piece)
    } else {
        Ok(piece)
    }
}

/// Returns a piece that matches slashes too.
fn crossing(alloc: Global, piece: Piece) -> Piece
    ensures { part_of result ≡ crossing (part_of piece) }
{
    match piece {
        Piece::Any => Piece::Set {
            slashes: true,
            negated: true,
            items: Vec::new(alloc),
        },
        Piece::Set { negated, items, .. } => Piece::Set {
            slashes: true,
            negated,
            items,
        },
        Piece::Name => Piece::Everything,
        piece => piece,
    }
}

/// Returns a piece that matches letters in either case.
///
/// # Errors
/// Out of memory.
fn folded(alloc: Global, piece: Piece) -> Result<Piece, AllocError>
    ensures { IfOk result (λ it. part_of it ≡ folded (part_of piece)) }
{
    match piece {
        Piece::Byte(byte) if byte.is_ascii_alphabetic() => Ok(Piece::Set {
            slashes: false,
            negated: false,
            items: cases_of(alloc, byte)?,
        }),
        piece => Ok(piece),
    }
}

/// Returns both cases of a letter.
///
/// # Errors
/// Out of memory.
fn cases_of(alloc: Global, letter: u8) -> Result<Vec<Item>, AllocError>
    requires { (is_upper letter || is_lower letter) ≡ true }
    ensures { IfOk result (λ items. items.items ≡ cases_of letter) }
{
    let other = if letter.is_ascii_uppercase() {
        letter + 32
    } else {
        letter - 32
    };
    let mut items = Vec::new(alloc);
    items.push(Item::Range(letter, letter))?;
    items.push(Item::Range(other, other))?;
    Ok(items)
}
