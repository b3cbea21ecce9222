//! What tests of several layers use: indexes and worktrees, stats and times, folders of the disk.
//!
//! Begin at `inputs`.

pub mod folders;
pub mod inputs;
pub mod pieces;
pub mod prelude;
pub mod side_effects;
