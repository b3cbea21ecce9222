//! Git's index file: its entries read and written, versions 2, 3 and 4, with SHA-1 and SHA-256.
//!
//! Read `index_file` first, the file in memory, and `read`: a file is a header, entries, extensions and a checksum.
//! `cursor` takes the file's numbers and `entry` the bytes of one entry, and `paths` makes its path. `extensions` and
//! `checksum` read the file's end. `write` writes a file, with `number`. `fault` has the errors.
#![tactic(auto)]

mod checksum;
mod cursor;
mod entry;
mod extensions;
pub mod fault;
pub mod index_file;
mod number;
mod paths;
mod read;
mod write;

pub use fault::{Fault, IndexFileError};
pub use index_file::IndexFile;
pub use read::{ends_with_checksum, read_index, read_unchecked};
pub use write::write_index;
