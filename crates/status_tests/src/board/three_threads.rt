//! A board that three threads use.

ghost use Rattle.std.specs.Prelude.{◌≡◌, IfOk};
ghost use Rattle.status_board.specs.Seats.{fresh};

use crate::board::two_seats::{give_back, opened, seat_of};
use crate::support::prelude::*;
use status_board::board::{Board, Seat, Tally};
use std::thread;
use std::thread::Promise;

/// The seat of a worker, and the numbers that it drew.
#[derive(Drop)]
struct Drawn {
    seat: Seat,
    numbers: Vec<usize>,
}

fn draw_all(alloc: Global, board: &Board, mut seat: Seat) -> Result<Drawn, AllocError>
    requires { seat ≡ fresh board.now.id }
    ensures { IfOk result (λ d. d.seat.board ≡ board.now.id) }
{
    let mut numbers = Vec::new(alloc);
    while let Some(number) = board.draw(&mut seat) {
        numbers.push(number)?;
    }
    Ok(Drawn { seat, numbers })
}

#[derive(Clone, Copy)]
struct Of<'a>(&'a Board);

impl<'a> Promise<Result<Drawn, AllocError>> for Of<'a> {
    ghost use Rattle.std.specs.Prelude.{◌≡◌, IfOk};

    ghost kept_by = { λ p r. IfOk r (λ d. d.seat.board ≡ p.0.now.id) };
}

fn three<R: Threads + Wait>(
    rt: &R,
    alloc: Global,
    board: &Board,
    a: Seat,
    b: Seat,
    c: Seat,
) -> Result<(Drawn, Drawn, Drawn), AllocError>
    requires { (a ≡ fresh board.now.id) × (b ≡ fresh board.now.id) × (c ≡ fresh board.now.id) }
    ensures { IfOk result (λ d. (d.0.seat.board ≡ board.now.id) × (d.1.seat.board ≡ board.now.id) × (d.2.seat.board ≡ board.now.id)) }
{
    thread::scope(
        thread::scope_env(),
        rt,
        move |scope| -> Result<(Drawn, Drawn, Drawn), AllocError>
            requires { (a ≡ fresh board.now.id) × (b ≡ fresh board.now.id) × (c ≡ fresh board.now.id) }
            ensures { IfOk result (λ d. (d.0.seat.board ≡ board.entry.now.id) × (d.1.seat.board ≡ board.entry.now.id) × (d.2.seat.board ≡ board.entry.now.id)) }
        {
            let one = scope.spawn_with(Of(board), move || draw_all(alloc, board, a))?;
            let two = scope.spawn_with(Of(board), move || draw_all(alloc, board, b))?;
            let three = scope.spawn_with(Of(board), move || draw_all(alloc, board, c))?;
            Ok((one.join(rt)?, two.join(rt)?, three.join(rt)?))
        },
    )
}

// Marks these numbers by 1. Returns whether each has a mark, and wasn't marked before.
fn is_marked(marks: &mut Vec<u8>, numbers: &[usize]) -> bool {
    for number in numbers {
        if *number < marks.len() && marks[*number] == 0 {
            marks[*number] = 1;
        } else {
            return false;
        }
    }
    true
}

// Returns whether each number below a thousand is in exactly one of these lists, once.
fn is_each_once(alloc: Global, one: &[usize], two: &[usize], three: &[usize]) -> bool {
    let Ok(mut marks) = Vec::from_elem(alloc, 0u8, 1000) else {
        return false;
    };
    for numbers in [one, two, three] {
        if !is_marked(&mut marks, numbers) {
            return false;
        }
    }
    !marks.contains(&0)
}

// Closes a board with three seats, and returns its tally.
fn tally_of_three(
    alloc: Global,
    board: Board,
    one: Seat,
    two: Seat,
    three: Seat,
) -> Result<Option<Tally>, AllocError>
    requires of_one { one.board ≡ board.id }
    requires of_two { two.board ≡ board.id }
    requires of_three { three.board ≡ board.id }
{
    let mut back = Vec::new(alloc);
    give_back(&board, &mut back, one)?;
    give_back(&board, &mut back, two)?;
    give_back(&board, &mut back, three)?;
    Ok(board.close(back))
}

#[test]
fn three_threads_draw_each_number_once(rt: HostRuntime) -> Result<(), Fail> {
    let (board, mut seats) = opened(rt.alloc(), 1000, 3)?;
    let a = seat_of(&rt, &board, &mut seats);
    let b = seat_of(&rt, &board, &mut seats);
    let c = seat_of(&rt, &board, &mut seats);
    let (one, two, three) = three(&rt, rt.alloc(), &board, a, b, c)?;
    assert!(rt; is_each_once(rt.alloc(), &one.numbers, &two.numbers, &three.numbers));
    let tally = Tally {
        drawn: 1000,
        least_reported: None,
    };
    let found = tally_of_three(rt.alloc(), board, one.seat, two.seat, three.seat)?;
    assert_eq!(rt; found, Some(tally));
    Ok(())
}
