//! Tests of the board, from which workers draw the pieces of a task.
//!
//! Begin at `two_seats`.

mod three_threads;
mod two_seats;
