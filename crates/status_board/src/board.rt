//! A board from which workers draw the numbers of pieces, each number once.
//!
//! Each worker has a seat. With it the worker draws numbers, reports a piece at which the work is to end, and checks
//! whether a lower piece was reported. Each of these takes at most one atomic step. None waits, takes a lock or
//! allocates memory.

ghost use Rattle.std.specs.Prelude.{◌≡◌, ◌<◌, ◌≤◌, ◌^◌, ◌↔◌, true, false, if◌then◌else◌, nat_lt, min, [], ◌∷◌, ◌++◌, Some, None, IfOk, IfSome, OnSome, IfNone, IsSome, All, Any, IsTrue, replicate, vec_len};
ghost use Rattle.status_board.specs.Numbers.{last_of, IsAscending, IsLeast, LiesBelow, HasEachBelow};

use crate::rules::{Cut, Draw, ForPiece, Glue, Known, Limits, Look, Report, Rules};
use atomic_table::Table;
use std::alloc::{AllocError, Global};
use std::marker::{Brand, Model};

type Token = atomic_table::Seat<(), Known>;

/// The totals of a round of work.
#[derive(Clone, Copy, Debug, PartialEq, Eq)]
pub struct Tally {
    /// How many numbers were drawn. They are all the numbers below this one.
    pub drawn: usize,
    /// The least piece that was reported. None if none was.
    pub least_reported: Option<usize>,
}

/// A worker's place at a board. It can be sent to another thread.
#[derive(Drop)]
pub struct Seat {
    token: Token,
    last: Option<usize>,
    done: bool,
}

impl Model for Seat {
    ghost use Rattle.status_board.specs.Seats.{SeatState};

    ghost Value = { SeatState };

    ghost use Rattle.status_board.specs.Shared.{shown, IsSeat};

    ghost view = { λ s. shown s.token.table_id s.token.me.0 s.done };

    ghost invariant = { λ s. IsSeat s.token.me s.last s.done };
}

/// The state that the workers of a round share. Its table has two words: the next number to be drawn, and the least number
/// that was reported, or the number of pieces if none was.
#[derive(Drop)]
pub struct Board {
    table: Table<(), Known, Limits, Rules, Global>,
    pieces: usize,
    seats: usize,
}

impl Model for Board {
    ghost use Rattle.std.specs.Prelude.{◌≡◌, ◌≤◌, ◌^◌};
    ghost use Rattle.status_board.specs.Seats.{BoardState};

    ghost Value = { BoardState };

    ghost view = { λ b. record { id = record { table = b.table.shared.table_id; pieces = b.pieces }; seats = b.seats } };

    ghost invariant = { λ b. (b.table.shared.key ≡ record { pieces = b.pieces; seats = b.seats }) × (b.table.shared.table_id.words ≡ 2) × (b.table.shared.table_id.slots ≡ 0) × (b.pieces ≤ 2 ^ 20) × (1 ≤ b.seats) × (b.seats ≤ 64) };
}

impl Seat {
    /// Returns whether a draw of this seat found no number left.
    pub fn is_done(&self) -> bool
        ensures { result ≡ self.now.done }
    {
        self.done
    }

    /// Returns the number that this seat drew last.
    pub fn last(&self) -> Option<usize>
        ensures last { result ≡ last_of self.now.drawn }
        ensures ascends { IsAscending self.now.drawn × All (λ k. k < self.now.board.pieces) self.now.drawn }
    {
        self.last
    }
}

impl Board {
    ghost use Rattle.status_board.specs.Seats.{fresh, drawn_of, barred_of, reported_of};
    ghost use Rattle.status_board.specs.Shared.{Looks};
    ghost use Rattle.atomic_table.specs.Table.{step};
    ghost use mathlib.Core.Option.{none};

    /// Returns a board with this many pieces, and its seats.
    ///
    /// # Errors
    /// Out of memory.
    pub fn new(alloc: Global, pieces: usize, seats: usize) -> Result<(Board, Vec<Seat>), AllocError>
        requires pieces { pieces ≤ 2 ^ 20 }
        requires seats { (1 ≤ seats) × (seats ≤ 64) }
        ensures { IfOk result (λ r. (r.0.id.pieces ≡ pieces) × (r.0.seats ≡ seats) × (r.1.items ≡ replicate seats (fresh r.0.id))) }
    {
        let about = Limits { pieces, seats };
        let (table, mut token) = Table::of_words(alloc, &[0, pieces as u64], &about)?;
        let mut all = Vec::with_capacity(alloc, seats)?;
        for _ in 1..seats {
            let token = table.shared.split_seat::<Cut>(&mut token);
            all.push(Seat {
                token,
                last: None,
                done: false,
            })?;
        }
        all.push(Seat {
            token,
            last: None,
            done: false,
        })?;
        let board = Board {
            table,
            pieces,
            seats,
        };
        Ok((board, all))
    }

    /// Returns the next number that nobody drew yet. If all were drawn, returns None, and the seat is done.
    pub fn draw(&self, seat: &mut Seat) -> Option<usize>
        requires board { seat.old.board ≡ self.now.id }
        requires going { seat.old.done ≡ false }
        ensures some { IfSome result (λ n. (seat.new ≡ record seat.old { drawn = seat.old.drawn ++ n ∷ [] }) × (n < self.now.id.pieces) × All (λ k. k < n) seat.old.drawn) }
        ensures last { IfSome result (λ n. last_of seat.new.drawn ≡ Some n) }
        ensures none { IfNone result (seat.new ≡ record seat.old { done = true }) }
    {
        let found = self.table.shared.fetch_add::<Draw>(&mut seat.token, 0, 1) as usize;
        if found < self.pieces {
            seat.last = Some(found);
            Some(found)
        } else {
            seat.done = true;
            None
        }
    }

    /// Returns whether a lower piece was reported, as far as this seat knows: other seats may report later.
    pub fn barred(&self, seat: &mut Seat, piece: usize) -> bool
        requires board { seat.old.board ≡ self.now.id }
        requires piece { piece < self.now.id.pieces }
        ensures barred { result ≡ true → seat.new ≡ record seat.old { barred = seat.old.barred ++ piece ∷ [] } }
        ensures clear { result ≡ false → seat.new ≡ seat.old }
        ensures reported { Any (λ k. k < piece) seat.old.reported → result ≡ true }
        ensures again { Any (λ k. k ≤ piece) seat.old.barred → result ≡ true }
    {
        self.look::<Brand>(&mut seat.token, piece) < piece as u64
    }

    fn look<N: ForPiece>(&self, token: &mut Token, piece: usize) -> u64
        requires piece { (piece ≡ N.piece) × (piece < self.now.id.pieces) }
        requires board { token.old.table_id ≡ self.now.id.table }
        ensures { (token.new.table_id ≡ token.old.table_id) × Looks piece (step 0 1 0 0 none) token.old.me result token.new.me }
    {
        let _ = piece;
        self.table.shared.load::<Look<N>>(token, 1)
    }

    /// Reports to all workers that the work ends at the piece that this seat drew last, which is `piece`.
    pub fn report(&self, seat: &mut Seat, piece: usize)
        requires board { seat.old.board ≡ self.now.id }
        requires last { last_of seat.old.drawn ≡ Some piece }
        ensures { seat.new ≡ record seat.old { reported = seat.old.reported ++ piece ∷ [] } }
    {
        self.table
            .shared
            .fetch_min::<Report>(&mut seat.token, 1, piece as u64);
    }

    /// Returns the totals of all seats, or None if a seat is missing.
    pub fn close(self, mut seats: Vec<Seat>) -> Option<Tally>
        requires { All (λ s. s.board ≡ self.id) seats.items }
        ensures all { IsSome result ↔ (vec_len seats ≡ self.seats) }
        ensures drawn { IfSome result (λ t. (t.drawn ≤ self.id.pieces) × HasEachBelow t.drawn (drawn_of seats.items)) }
        ensures least { IfSome result (λ t. IsLeast t.least_reported (reported_of seats.items)) }
        ensures barred { IfSome result (λ t. All (LiesBelow t.least_reported) (barred_of seats.items)) }
        ensures ascends { OnSome result (All (λ s. IsAscending s.drawn) seats.items) }
        ensures done { IfSome result (λ t. Any (λ s. IsTrue s.done) seats.items → t.drawn ≡ self.id.pieces) }
    {
        if seats.len() != self.seats {
            return None;
        }
        let Seat { mut token, .. } = seats.pop()?;
        while let Some(seat) = seats.pop() {
            let Seat { token: other, .. } = seat;
            self.table.shared.join_seat::<Glue>(&mut token, other);
        }
        let Board { table, pieces, .. } = self;
        let closed = table.close_with(token);
        let next = closed.word(0) as usize;
        let least = closed.word(1) as usize;
        closed.free();
        Some(counted(next, least, pieces))
    }
}

// Returns the totals for the board's two words. The next number to be drawn may be past the pieces. The least reported
// number is the number of pieces if none was reported.
fn counted(next: usize, least: usize, pieces: usize) -> Tally
    ensures { result ≡ record { drawn = min next pieces; least_reported = if nat_lt least pieces then Some least else None } }
{
    Tally {
        drawn: next.min(pieces),
        least_reported: if least < pieces { Some(least) } else { None },
    }
}
