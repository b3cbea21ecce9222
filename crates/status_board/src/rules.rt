//! The rule of a board's two words, and what a seat learns from each step on them.

use atomic_table::{Join, Play, Split, TableRule};
use std::collections::LinkedList;
use std::marker::{Brand, PhantomData};

/// The knowledge of a seat. It is for proofs: no value of this type is ever created.
pub(crate) struct Known {
    pub pieces: usize,
    /// The number of seats that it counts for.
    pub parts: usize,
    pub drawn: LinkedList<usize>,
    pub barred: LinkedList<usize>,
    pub reported: LinkedList<usize>,
    /// The number of draws that found no number left.
    pub misses: usize,
}

/// The limits of a board, set when it is created.
#[derive(Drop)]
pub(crate) struct Limits {
    pub pieces: usize,
    pub seats: usize,
}

pub(crate) struct Rules;

impl TableRule<(), Known, Limits> for Rules {
    ghost use Rattle.std.specs.Prelude.{[]};
    ghost use Rattle.status_board.specs.Shared.{Kept, known};

    ghost holds = { λ about. Kept about.pieces about.seats };

    ghost first = { λ about. known about.pieces about.seats [] [] [] 0 };
}

/// The step that draws a number.
pub(crate) struct Draw;

impl Play<(), Known> for Draw {
    ghost use Rattle.status_board.specs.Shared.{Draws};

    ghost then = { Draws };
}

/// The piece for which a worker checks the board. Each call picks its own.
pub(crate) trait ForPiece {
    ghost use Rattle.std.specs.Prelude.{ℕ};

    ghost piece: { ℕ };
}

impl ForPiece for Brand {
    ghost piece = { 0 };
}

/// The step that loads the least reported number, for one piece.
pub(crate) struct Look<N: ForPiece> {
    of: PhantomData<N>,
}

impl<N: ForPiece> Play<(), Known> for Look<N> {
    ghost use Rattle.status_board.specs.Shared.{Looks};

    ghost then = { Looks N.piece };
}

/// The step that reports a piece.
pub(crate) struct Report;

impl Play<(), Known> for Report {
    ghost use Rattle.status_board.specs.Shared.{Reports};

    ghost then = { Reports };
}

/// The step that splits off one seat.
pub(crate) struct Cut;

impl Split<Known> for Cut {
    ghost use Rattle.status_board.specs.Shared.{stays, goes};

    ghost left = { stays };

    ghost right = { goes };
}

/// The step that joins the knowledge of two seats.
pub(crate) struct Glue;

impl Join<Known> for Glue {
    ghost use Rattle.status_board.specs.Shared.{merged, nobody};

    ghost both = { merged };

    ghost spent = { nobody };
}
