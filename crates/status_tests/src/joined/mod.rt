//! Tests of the joined call: a status with untracked files, renames and copies in one list.
//!
//! Begin at `rows`: a row has a small index, a worktree, the arguments of the call, and its report, whose text
//! `record_lines` makes. Tables of rows are `entries_and_nodes` and `rewrites`.

mod entries_and_nodes;
mod folder_renames;
pub mod record_lines;
mod rewrites;
pub mod rows;
mod threads;
