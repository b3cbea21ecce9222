//! Patterns of git's wildmatch, such as `src/**/*.c`, and whether a path matches one.
//!
//! Begin at `pattern`, which reads a pattern and compares paths with it. `piece` reads its pieces, and `set` their sets of
//! bytes. `table` compares a path with pieces of any length, in a time that several of them don't multiply. `laws` has the
//! law of these comparisons. `text` has what patterns and the lines of git's files need of texts.
#![tactic(auto)]

pub mod laws;
pub mod pattern;
mod piece;
mod row;
mod set;
mod table;
#[cfg(test)]
mod tests;
pub mod text;
mod wildcards;

pub use pattern::Pattern;
pub use piece::literal_len;
pub use row::MOST_PIECES;
pub use wildcards::{Style, Wildcards};
