//! A round of numbered pieces on a crew of workers, and its results in the order of the pieces.

ghost use Rattle.std.specs.Prelude.{◌≡◌, ◌≢◌, ◌≤◌, ◌^◌, All, IfOk, Err, vec_len, ◌<◌, ℕ, length, IsSome, map, Some, None, replicate, set};
ghost use Rattle.status_board.specs.Accounts.{AreAccounted, end_of};
ghost use Rattle.status_board.specs.FinishedPieces.{IsOutOf, outs_at, IsInOrder};
ghost use Rattle.status_board.specs.Round.{IsRound};

use crate::board::{Board, Tally};
use crate::crew::Crew;
use crate::gathered::{Gathered, or_refused};
use crate::work::{Finished, Work};
use std::alloc::{AllocError, Global};
use std::sync::Wait;
use std::thread::Threads;

/// Why a round has no results. If both happened, the error is `Thread`.
#[derive(Clone, Copy, Debug, PartialEq, Eq)]
pub enum Refused {
    /// A worker's thread couldn't be started.
    Thread,
    /// Out of memory.
    Memory,
}

/// Works through the pieces, with one worker for each of the states. Returns the results of the pieces in order, up to
/// the first that ended short or the last. This holds for every schedule.
///
/// One worker works in the caller's thread, each other one in a thread of its own. `stack_size` is the size of a
/// thread's stack in bytes, or None for the usual size. All threads that were started are joined, even if a thread
/// can't be started or memory runs out.
///
/// # Errors
/// A thread that couldn't be started. Otherwise out of memory.
pub fn work_round<R: Threads + Wait, K: Work + Sync>(
    rt: &R,
    alloc: Global,
    stack_size: Option<usize>,
    work: &K,
    states: Vec<K::State>,
) -> Result<Vec<K::Out>, Refused>
where
    K::State: Send + Drop,
    K::Out: Send + Drop,
    requires few { K.count work.now ≤ 2 ^ 20 }
    requires states { (1 ≤ vec_len states) × (vec_len states ≤ 64) }
    requires fits { All (K.fits work.now) states.items }
    ensures round { IfOk result (λ outs. IsRound (K.gives work.now) K.short (K.count work.now) outs.items) }
    ensures alone { vec_len states ≡ 1 → result ≢ Err Refused.Thread }
{
    let (board, seats) = match Board::new(alloc, work.pieces(), states.len()) {
        Ok(made) => made,
        Err(_) => return Err(Refused::Memory),
    };
    let crew = Crew {
        alloc,
        stack_size,
        work,
        board: &board,
    };
    match crew.work_together(rt, seats, states) {
        Ok(gathered) => or_refused(finish::<K>(alloc, board, gathered)),
        Err(refused) => Err(refused),
    }
}

// Returns the results of the pieces, once all workers are back.
fn finish<K: Work>(
    alloc: Global,
    board: Board,
    gathered: Gathered<K::Out>,
) -> Result<Vec<K::Out>, AllocError>
where
    K::Out: Drop,
    requires some { 1 ≤ board.seats }
    requires small { board.id.pieces ≤ 2 ^ 20 }
    requires all { vec_len gathered.seats ≡ board.seats }
    requires accounted { AreAccounted K.short board.id gathered.seats.items gathered.finished.items }
    ensures { IfOk result (λ outs. IsRound (IsOutOf gathered.finished.items) K.short board.id.pieces outs.items) }
{
    let Gathered { finished, seats } = gathered;
    let Some(tally) = board.close(seats) else {
        unreachable!();
    };
    in_order(alloc, finished, end(&tally))
}

// Returns how many results there are: those up to the least reported piece, or all.
fn end(tally: &Tally) -> usize
    requires { end_of tally.now.least_reported tally.now.drawn ≤ 2 ^ 20 }
    ensures { result ≡ end_of tally.now.least_reported tally.now.drawn }
{
    match tally.least_reported {
        Some(least) => least + 1,
        None => tally.drawn,
    }
}

/// Returns the results of the pieces below `end`, in order. Results of other pieces are dropped.
///
/// # Errors
/// Out of memory.
pub(crate) fn in_order<O: Drop>(
    alloc: Global,
    finished: Vec<Finished<O>>,
    end: usize,
) -> Result<Vec<O>, AllocError>
    requires { (n : ℕ) → n < end → length (outs_at n finished.items) ≡ 1 }
    ensures { IfOk result (λ outs. IsInOrder finished.items end outs.items) }
{
    let mut slots = empty_slots(alloc, end)?;
    for piece in finished {
        place(&mut slots, piece);
    }
    taken_out(alloc, slots)
}

fn empty_slots<O: Drop>(alloc: Global, count: usize) -> Result<Vec<Option<O>>, AllocError>
    ensures { IfOk result (λ slots. slots.items ≡ replicate count None) }
{
    let mut slots = Vec::with_capacity(alloc, count)?;
    for _ in 0..count {
        slots.push(None)?;
    }
    Ok(slots)
}

// Puts the result of a piece into the slot of its number, if there is one.
fn place<O: Drop>(slots: &mut Vec<Option<O>>, piece: Finished<O>)
    ensures { slots.new.items ≡ set slots.old.items piece.number (Some piece.out) }
{
    let Finished { number, out } = piece;
    if number < slots.len() {
        slots[number] = Some(out);
    }
}

fn taken_out<O: Drop>(alloc: Global, slots: Vec<Option<O>>) -> Result<Vec<O>, AllocError>
    requires { All IsSome slots.items }
    ensures { IfOk result (λ outs. map Some outs.items ≡ slots.items) }
{
    let mut outs = Vec::with_capacity(alloc, slots.len())?;
    for slot in slots {
        let Some(out) = slot else {
            unreachable!();
        };
        outs.push(out)?;
    }
    Ok(outs)
}
