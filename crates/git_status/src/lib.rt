//! The command `git dirty`, over the bytes of an index file, any commit, any worktree and any writers.
//!
//! Read `dirty` first, which has the command, `read`, the index file that it is passed, and `asked`, what it is asked.
//! `status` computes the status of an index, `beside` has the searches next to it, `found` prints both and returns what was
//! found, and `answer` has its lines and its report. `refresh` has the command with the new bytes of the index file, and
//! `kept` the changes in them. `staged` is the first column alone. `lines` has git's lines and quoted paths, and `columns`
//! both columns of them; `output` writes them. `paths` has the selections of paths, and `only` that of one path. `watcher` stops at the first
//! difference. `remarks` are written besides the lines, with `notes` on files that the status doesn't convert. `failure`
//! says why the command fails, `fault_place` at which path, and `laws` what a user relies on.
#![tactic(auto)]

mod answer;
mod asked;
mod beside;
mod columns;
mod dirty;
mod failure;
mod fault_place;
mod found;
mod kept;
mod laws;
pub mod lines;
mod notes;
mod only;
mod output;
mod paths;
mod read;
mod refresh;
mod remarks;
mod staged;
mod status;
mod watcher;

pub use answer::{Report, has_difference};
pub use asked::{Asked, Question, Settings};
pub use beside::{Beside, FindBeside, Searches};
pub use dirty::{print_file, run_dirty};
pub use failure::Failure;
pub use laws::{
    clean_means_no_difference, lines_are_of_all_differences, refresh_changes_own_entries,
    refresh_hides_nothing, refreshes_hide_nothing,
};
pub use only::OnlyPath;
pub use output::print_failure;
pub use paths::{Nodes, Paths};
pub use read::ReadIndex;
pub use refresh::{Refreshed, run_refresh};
pub use staged::print_staged;
