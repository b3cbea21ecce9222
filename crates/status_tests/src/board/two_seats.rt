//! A board that one thread uses with two seats.

ghost use Rattle.std.specs.Prelude.{◌≡◌, ◌≤◌, ◌^◌, All, IfOk, IfSome, OnOk};
ghost use Rattle.status_board.specs.Seats.{fresh};
ghost use Rattle.std.specs.Prelude.{◌≡◌, ◌<◌};

use crate::support::prelude::*;
use status_board::board::{Board, Seat, Tally};

/// Returns a board, with its seats.
pub fn opened(alloc: Global, pieces: usize, seats: usize) -> Result<(Board, Vec<Seat>), AllocError>
    requires { (pieces ≤ 2 ^ 20) × (1 ≤ seats) × (seats ≤ 64) }
    ensures { IfOk result (λ r. (r.0.id.pieces ≡ pieces) × All (λ s. s ≡ fresh r.0.id) r.1.items) }
{
    let (board, all) = Board::new(alloc, pieces, seats)?;
    Ok((board, all))
}

// Takes a seat, if one is left.
fn take(board: &Board, seats: &mut Vec<Seat>) -> Option<Seat>
    requires { All (λ s. s ≡ fresh board.now.id) seats.old.items }
    ensures left { All (λ s. s ≡ fresh board.now.id) seats.new.items }
    ensures taken { IfSome result (λ s. s ≡ fresh board.now.id) }
{
    let _ = board;
    seats.pop()
}

/// Takes a seat. Panics if none is left.
pub fn seat_of<R: Abort>(rt: &R, board: &Board, seats: &mut Vec<Seat>) -> Seat
    requires { All (λ s. s ≡ fresh board.now.id) seats.old.items }
    ensures left { All (λ s. s ≡ fresh board.now.id) seats.new.items }
    ensures taken { result ≡ fresh board.now.id }
{
    let Some(seat) = take(board, seats) else {
        panic!(rt; "a seat is missing")
    };
    seat
}

/// Puts a seat back with others of its board.
pub fn give_back(board: &Board, seats: &mut Vec<Seat>, seat: Seat) -> Result<(), AllocError>
    requires seats { All (λ s. s.board ≡ board.now.id) seats.old.items }
    requires seat { seat.board ≡ board.now.id }
    ensures { OnOk result (All (λ s. s.board ≡ board.now.id) seats.new.items) }
{
    let _ = board;
    seats.push(seat)?;
    Ok(())
}

// Returns the next number. None if the seat is done.
fn draw(board: &Board, seat: &mut Seat) -> Option<usize>
    requires { seat.old.board ≡ board.now.id }
    ensures { seat.new.board ≡ seat.old.board }
{
    if seat.is_done() {
        return None;
    }
    board.draw(seat)
}

fn report_last(board: &Board, seat: &mut Seat)
    requires { seat.old.board ≡ board.now.id }
    ensures { seat.new.board ≡ seat.old.board }
{
    if let Some(piece) = seat.last() {
        board.report(seat, piece);
    }
}

fn barred(board: &Board, seat: &mut Seat, piece: usize) -> bool
    requires { (seat.old.board ≡ board.now.id) × (piece < board.now.id.pieces) }
    ensures { seat.new.board ≡ seat.old.board }
{
    board.barred(seat, piece)
}

// Asserts what two seats draw of three pieces, and which pieces are barred.
fn assert_drawn<R: Abort>(rt: &R, board: &Board, s: &mut Seat, t: &mut Seat)
    requires of_s { s.old.board ≡ board.now.id }
    requires of_t { t.old.board ≡ board.now.id }
    requires first { 0 < board.now.id.pieces }
    requires last { 2 < board.now.id.pieces }
    ensures keeps_s { s.new.board ≡ board.now.id }
    ensures keeps_t { t.new.board ≡ board.now.id }
{
    assert_eq!(rt; draw(board, s), Some(0));
    assert_eq!(rt; draw(board, t), Some(1));
    report_last(board, t);
    assert!(rt; !barred(board, s, 0));
    assert_eq!(rt; draw(board, s), Some(2));
    assert!(rt; barred(board, s, 2));
    assert_eq!(rt; draw(board, s), None);
    assert_eq!(rt; draw(board, t), None);
    assert!(rt; s.is_done() && t.is_done());
}

// Returns the tally of a board that two seats used, after one of them comes back, or both.
fn tally_of<R: Abort>(rt: &R, alloc: Global, both: bool) -> Result<Option<Tally>, AllocError> {
    let (board, mut seats) = opened(alloc, 3, 2)?;
    let mut t = seat_of(rt, &board, &mut seats);
    let mut s = seat_of(rt, &board, &mut seats);
    assert_drawn(rt, &board, &mut s, &mut t);
    let mut back = Vec::new(alloc);
    give_back(&board, &mut back, s)?;
    if both {
        give_back(&board, &mut back, t)?;
    }
    Ok(board.close(back))
}

#[test]
fn two_seats_draw_report_and_see_what_is_barred(rt: HostRuntime) -> Result<(), Fail> {
    let tally = Tally {
        drawn: 3,
        least_reported: Some(1),
    };
    assert_eq!(rt; tally_of(&rt, rt.alloc(), true)?, Some(tally));
    Ok(())
}

#[test]
fn no_tally_without_each_seat(rt: HostRuntime) -> Result<(), Fail> {
    assert_eq!(rt; tally_of(&rt, rt.alloc(), false)?, None);
    Ok(())
}
