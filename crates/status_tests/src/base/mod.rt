//! Tests of an index, of folders of the disk and their walks, and of listings and the check for symbolic links.
//!
//! Begin at `values`.

mod disk;
mod disk_reads;
mod disk_walk;
mod fscache;
mod links;
mod states;
mod values;
