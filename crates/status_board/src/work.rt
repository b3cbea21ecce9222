//! The work that the workers of a round share, and one worker of it.

ghost use Rattle.std.specs.Prelude.{◌≡◌, ◌<◌, ℕ, Bool, [], ◌∷◌, ◌++◌, Some, IfOk, OnOk, if◌then◌else◌};
ghost use Rattle.status_board.specs.Numbers.{last_of};
ghost use Rattle.status_board.specs.Seats.{fresh};
ghost use Rattle.status_board.specs.Accounts.{Accounts, IsWorked, StaysDrawn};

use crate::board::{Board, Seat};
use std::alloc::{AllocError, Global};

/// Numbered pieces of work, shared by workers that each keep a state of their own.
///
/// Ghost members specify the work:
/// - `count` is the number of pieces.
/// - `fits` is whether a state is one for this work.
/// - `gives` is whether the piece of a number may have a result.
/// - `short` is whether a piece ended before its end, so that no later piece is wanted.
pub trait Work {
    /// The state that a worker keeps from piece to piece.
    type State;
    /// The result of a piece.
    type Out;

    ghost count: { Self → ℕ };

    ghost fits: { Self → Self.State → Type 0 };

    ghost gives: { Self → ℕ → Self.Out → Type 0 };

    ghost short: { Self.Out → Bool };

    /// Returns the number of pieces.
    fn pieces(&self) -> usize
        ensures { result ≡ count self.now };

    /// Works through the piece of a number, and returns its result.
    fn piece(&self, state: &mut Self::State, number: usize) -> Self::Out
        requires number { number < count self.now }
        requires fits { fits self.now state.old }
        ensures fits { fits self.now state.new }
        ensures gives { gives self.now number result };

    /// Returns whether a piece ended before its end.
    fn is_short(out: &Self::Out) -> bool
        ensures { result ≡ short out.now };
}

/// A piece that was worked through, with its result.
#[derive(Drop)]
pub(crate) struct Finished<O> {
    pub(crate) number: usize,
    pub(crate) out: O,
}

/// The finished pieces of a worker, and its seat.
#[derive(Drop)]
pub(crate) struct Worked<O> {
    pub(crate) finished: Vec<Finished<O>>,
    pub(crate) seat: Seat,
}

/// Works through pieces until none is left to draw.
///
/// # Errors
/// Out of memory for the list of results.
pub(crate) fn work_through<K: Work>(
    alloc: Global,
    board: &Board,
    work: &K,
    seat: Seat,
    mut state: K::State,
) -> Result<Worked<K::Out>, AllocError>
where
    K::State: Drop,
    K::Out: Drop,
    requires seat { seat ≡ fresh board.now.id }
    requires count { board.now.id.pieces ≡ K.count work.now }
    requires fits { K.fits work.now state }
    ensures { IfOk result (IsWorked (K.gives work.now) K.short board.now.id) }
{
    let mut worked = Worked {
        finished: Vec::new(alloc),
        seat,
    };
    while let Some(number) = board.draw(&mut worked.seat) {
        work_piece(board, work, number, &mut state, &mut worked)?;
    }
    Ok(worked)
}

// Works through a piece that was drawn, unless it is barred, and keeps its result.
fn work_piece<K: Work>(
    board: &Board,
    work: &K,
    number: usize,
    state: &mut K::State,
    worked: &mut Worked<K::Out>,
) -> Result<(), AllocError>
where
    K::Out: Drop,
    requires board { worked.old.seat.board ≡ board.now.id }
    requires last { last_of worked.old.seat.drawn ≡ Some number }
    requires inside { number < board.now.id.pieces }
    requires count { board.now.id.pieces ≡ K.count work.now }
    requires fits { K.fits work.now state.old }
    requires accounts { Accounts (K.gives work.now) K.short (number ∷ []) worked.old.seat worked.old.finished.items }
    ensures fits { K.fits work.now state.new }
    ensures stays { StaysDrawn worked.old.seat worked.new.seat }
    ensures accounts { OnOk result (Accounts (K.gives work.now) K.short [] worked.new.seat worked.new.finished.items) }
{
    if board.barred(&mut worked.seat, number) {
        return Ok(());
    }
    let out = work.piece(state, number);
    report_short::<K>(board, &mut worked.seat, number, &out);
    worked.finished.push(Finished { number, out })?;
    Ok(())
}

// Reports a piece that ended short.
fn report_short<K: Work>(board: &Board, seat: &mut Seat, number: usize, out: &K::Out)
    requires board { seat.old.board ≡ board.now.id }
    requires last { last_of seat.old.drawn ≡ Some number }
    ensures { seat.new ≡ (if K.short out.now then record seat.old { reported = seat.old.reported ++ number ∷ [] } else seat.old) }
{
    if K::is_short(out) {
        board.report(seat, number);
    }
}
