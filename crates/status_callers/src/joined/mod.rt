//! Interfaces for tests of the joined call (a worktree, a collector, walks, trackers), and short forms of its calls.

pub mod broken;
pub mod collectors;
pub mod statuses;
pub mod trackers;
pub mod walks;
