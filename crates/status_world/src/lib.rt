//! Histories: events that change a worktree and its index, and why no run of the status misses a change.
//!
//! Read `event` in `world` first, the events and why one is refused, then `state`, the fields of a world, and `apply`,
//! which applies an event or a list of events. It does so by `nodes`, `staging`, or `run`, which returns a
//! report. `reopening` replaces the index, and `laws` has the theorem.
#![tactic(auto)]

pub mod world;
