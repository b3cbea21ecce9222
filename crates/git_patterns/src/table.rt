//! Whether a path matches a pattern, in a time that several stars don't multiply.

ghost use Rattle.std.specs.Prelude.{◌≡◌, ◌↔◌, ◌+◌, ℕ, Bool, List, IfOk, IsTrue, length, map};
ghost use Rattle.git_patterns.specs.Tables.{carried_first, carried_on, tests, value_of};
ghost use Rattle.git_patterns.specs.Wildmatch.{Matches, after_piece, is_match};
ghost use Rattle.git_patterns.specs.Views.{part_of};

use crate::piece::{Piece, is_match};
use crate::set::is_in_set;
use std::alloc::{AllocError, Global};

/// Returns what a pass carries at the empty suffix, by whether that matches what follows the piece.
pub(crate) fn carried_first(piece: &Piece, here: bool) -> bool
    ensures { result ≡ carried_first (part_of piece.now) here }
{
    match piece {
        Piece::Name | Piece::Everything => here,
        Piece::Byte(_) | Piece::Any | Piece::Set { .. } | Piece::Folders => false,
    }
}

/// Returns what a pass carries from a byte on, by whether the suffix from that byte (`here`), and the one after it (`after`),
/// match what follows the piece.
pub(crate) fn carried_on(piece: &Piece, byte: u8, here: bool, after: bool, carry: bool) -> bool
    ensures { result ≡ carried_on (part_of piece.now) byte here after carry }
{
    match piece {
        Piece::Byte(wanted) => byte == *wanted && after,
        Piece::Any => byte != b'/' && after,
        Piece::Set {
            slashes,
            negated,
            items,
        } => is_in_set(*slashes, *negated, items, byte) && after,
        Piece::Name => here || byte != b'/' && carry,
        Piece::Folders => byte == b'/' && after || carry,
        Piece::Everything => here || carry,
    }
}

/// Returns whether a suffix matches a piece and what follows it: that is carried, but `**/` may also be no folder.
pub(crate) fn value_of(piece: &Piece, here: bool, carry: bool) -> bool
    ensures { result ≡ value_of (part_of piece.now) here carry }
{
    match piece {
        Piece::Folders => here || carry,
        Piece::Byte(_) | Piece::Any | Piece::Set { .. } | Piece::Name | Piece::Everything => carry,
    }
}

/// Changes a table for the pieces after this one into a table for this piece and those, by a pass from the path's end.
fn put_before(piece: &Piece, path: &[u8], table: &mut [bool])
    requires { length table.old ≡ length path.now + 1 }
    ensures { (p : List ℕ → Bool) → table.old ≡ tests p path.now → table.new ≡ tests (after_piece (part_of piece.now) p) path.now }
{
    let mut after = table[0];
    let mut carry = carried_first(piece, after);
    table[0] = value_of(piece, after, carry);
    let mut at = path.len();
    'suffixes: while at > 0 {
        let len = path.len() - at + 1;
        at -= 1;
        let here = table[len];
        carry = carried_on(piece, path[at], here, after, carry);
        table[len] = value_of(piece, here, carry);
        after = here;
    }
}

/// Returns a table: whether each suffix of a path matches the pieces, the empty one first.
fn table_of(alloc: Global, pieces: &[Piece], path: &[u8]) -> Result<Vec<bool>, AllocError>
    ensures { IfOk result (λ table. table.items ≡ tests (is_match (map part_of pieces.now)) path.now) }
{
    match pieces {
        [] => {
            let mut table = vec![in alloc; false; path.len() + 1]?;
            table[0] = true;
            Ok(table)
        }
        [piece, rest @ ..] => {
            let mut table = table_of(alloc, rest, path)?;
            put_before(piece, path, &mut table);
            Ok(table)
        }
    }
}

/// Returns whether a piece matches texts of any length.
fn is_of_any_length(piece: &Piece) -> bool {
    matches!(piece, Piece::Name | Piece::Folders | Piece::Everything)
}

/// Returns whether a path matches a pattern of these pieces.
///
/// The time is at most the pattern's length times the path's. So with several pieces of any length a table is made: to try
/// all their lengths would take much longer.
///
/// # Errors
/// Out of memory.
#[tactic(auto, using(crate::proofs::Matching::is_match_Matches))]
pub(crate) fn matches(alloc: Global, pieces: &[Piece], path: &[u8]) -> Result<bool, AllocError>
    ensures test { IfOk result (λ it. it ≡ is_match (map part_of pieces.now) path.now) }
    ensures matches { IfOk result (λ it. IsTrue it ↔ Matches (map part_of pieces.now) path.now) }
{
    if pieces.iter().filter(|it| is_of_any_length(it)).count() <= 1 {
        return Ok(is_match(pieces, path));
    }
    let table = table_of(alloc, pieces, path)?;
    Ok(table[path.len()])
}
