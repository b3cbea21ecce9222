//! Tests of git's attributes, with values from git.
//!
//! `patterns` has patterns and paths, `states` the lines of files, and `contents` bytes.

mod contents;
mod patterns;
mod states;
