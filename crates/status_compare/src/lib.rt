//! How a file of the worktree is compared with the blob of an index entry: readers and comparers.
//!
//! Read `compare` first, the interface of a comparer and two comparers, and `read_data`, what a comparer may read and
//! what is counted of it. `entry_reader` reads the file and the blob of one entry, through `stream`. `error` is why a
//! status fails.
#![tactic(auto)]

pub mod compare;
pub mod entry_reader;
pub mod error;
pub mod read_data;
pub mod stream;

pub use compare::{CompareBlobs, Comparer, FastEq, HashEq};
pub use entry_reader::EntryReader;
pub use error::Error;
pub use read_data::{ReadData, Reads};
pub use stream::Stream;
