//! The pieces of a task, shared among workers, with the same result for every schedule.
//!
//! Read `board` first: workers draw the numbers of pieces from it, each number once, by the rules in `rules`. Then
//! `work`, which defines a piece and one worker, and `round`, which works through all pieces and puts the results in
//! their order: `crew` starts and joins the threads, and `gathered` has what they bring.
#![tactic(auto)]

pub mod board;
mod crew;
mod gathered;
pub mod round;
mod rules;
pub mod work;
