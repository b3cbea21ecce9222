//! The status of a checkout on disk: all of the command `git dirty` but its command line, for programs that ask for
//! it.
//!
//! Read `request` first, the options of a call, and then `checkout`, the calls. They find the repository, read the words of
//! PATHS (`selected`), read HEAD's commit (`head`, which asks `replaced` whether git reads other objects), read the index
//! file (`index_file`), make that of a sparse checkout whole (`sparse`) and choose its entries (`selection`). `staged` is
//! the call for the first column alone. The contract of the comparison is that of `run_dirty` in the crate git_status.
//! `objects` reads what git reads of the index if the worktree has no file, and `attributes` chooses such attribute files.
//! `untracked` has the search for untracked files, for which `folders` lists the worktree. `refresh` writes the new index file, and `refused` is why a call can't
//! begin.
#![tactic(auto)]

mod attributes;
pub mod checkout;
mod folders;
mod head;
mod index_file;
mod objects;
mod refresh;
mod refused;
mod replaced;
pub mod request;
mod selected;
mod selection;
mod sparse;
mod staged;
mod untracked;

pub use checkout::{is_dirty, run};
pub use request::{Columns, Request, UntrackedFiles};
