//! Tests of the status call.
//!
//! Begin at `failing_calls`. `reports` has what several tests use.

mod conflicts;
mod failing_calls;
mod file_reads;
mod filters;
mod folder_listings;
mod listings;
mod orders;
mod planted;
mod refusals;
pub mod reports;
mod runs;
mod sizes_and_blobs;
mod streams;
mod submodules;
