//! Whether a path matches pieces, in a time that several stars don't multiply, and without memory.

ghost use Rattle.std.specs.Prelude.{◌≡◌, ◌∷◌, ℕ, List, [], length, map};
ghost use Rattle.git_patterns.specs.Rows.{named, row_of};
ghost use Rattle.git_patterns.specs.Views.{part_of};
ghost use Rattle.git_patterns.specs.Wildmatch.{is_empty, is_match};

use crate::piece::Piece;
use crate::table::{carried_first, carried_on, value_of};

/// The most pieces that are compared without memory.
pub const MOST_PIECES: usize = 255;

/// Makes a row that of the empty text, and returns whether that matches.
fn begin(pieces: &[Piece], row: &mut [bool]) -> bool
    requires { length row.old ≡ length pieces.now }
    ensures row { row.new ≡ row_of (map part_of pieces.now) [] }
    ensures value { result ≡ is_match (map part_of pieces.now) [] }
{
    match pieces {
        [] => true,
        [piece, rest @ ..] => {
            let here = begin(rest, &mut row[1..]);
            let carry = carried_first(piece, here);
            row[0] = carry;
            value_of(piece, here, carry)
        }
    }
}

/// Whether a text matches some pieces, before and after a byte was put before it.
#[derive(Clone, Copy)]
struct Values {
    before: bool,
    after: bool,
}

/// Makes a row that of its text with a byte before it. `is_end` is whether the text is empty.
fn put_byte(pieces: &[Piece], byte: u8, is_end: bool, row: &mut [bool]) -> Values
    requires { length row.old ≡ length pieces.now }
    ensures len { length row.new ≡ length pieces.now }
    ensures row { (text : List ℕ) → is_end ≡ is_empty text → row.old ≡ row_of (map part_of pieces.now) text → row.new ≡ row_of (map part_of pieces.now) (byte ∷ text) }
    ensures before { (text : List ℕ) → is_end ≡ is_empty text → row.old ≡ row_of (map part_of pieces.now) text → result.before ≡ is_match (map part_of pieces.now) text }
    ensures after { (text : List ℕ) → is_end ≡ is_empty text → row.old ≡ row_of (map part_of pieces.now) text → result.after ≡ is_match (map part_of pieces.now) (byte ∷ text) }
{
    match pieces {
        [] => Values {
            before: is_end,
            after: false,
        },
        [piece, rest @ ..] => {
            let values = put_byte(rest, byte, is_end, &mut row[1..]);
            let old = row[0];
            let carry = carried_on(piece, byte, values.after, values.before, old);
            row[0] = carry;
            Values {
                before: value_of(piece, values.before, old),
                after: value_of(piece, values.after, carry),
            }
        }
    }
}

/// Returns whether a path, with a slash after it if it is a folder's, matches pieces, by a pass over them for each byte from the
/// end on. The row is as long as the pieces.
pub(crate) fn is_match_in(pieces: &[Piece], path: &[u8], is_folder: bool, row: &mut [bool]) -> bool
    requires { length row.old ≡ length pieces.now }
    ensures { result ≡ is_match (map part_of pieces.now) (named path.now is_folder) }
{
    let mut it = begin(pieces, row);
    if is_folder {
        it = put_byte(pieces, b'/', true, row).after;
    }
    let mut at = path.len();
    'bytes: while at > 0 {
        let is_end = at == path.len() && !is_folder;
        at -= 1;
        it = put_byte(pieces, path[at], is_end, row).after;
    }
    it
}
