//! Tests of git's index file, with values from git.
//!
//! Begin at `git_files`: it has the files that git wrote, and says how; `git_bytes` has their bytes. `accepted` reads and
//! writes them. `changed` and `refused` read what is no index file, with what `broken` makes.

mod accepted;
mod broken;
mod changed;
mod git_bytes;
mod git_files;
mod refused;
