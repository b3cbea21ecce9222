//! The program's commands `status`, `replay` and `refresh`, over any reader and writers.
//!
//! Read `status`, `replay` and `refresh` first, a command each. Then `lines`, the text of each line, and `output`, which
//! writes texts and reads a profile's file. `failure` is why a command fails, with `fault_line`, the line that says so, and
//! `status_fault`, that of a status. `whole` writes the file of a refreshed profile, and `laws` has a theorem about the
//! definitions.
#![tactic(auto)]

mod failure;
mod fault_line;
pub mod laws;
pub mod lines;
mod output;
mod refresh;
mod replay;
mod status;
mod status_fault;
mod whole;

pub use failure::Failure;
pub use refresh::run_refresh;
pub use replay::run_replay;
pub use status::run_status;
pub use whole::write_whole;
