//! A git index in memory: entries with their stats, modes, flags and ids, and the search for a path.
//!
//! Read `entry` first, an entry and its flags, with `stat`, `mode` and `id`, which are its other fields. Then read
//! `state`, the index, which finds a path by `probe`. `stat` also has what a worktree reports of a file. `fault` is
//! why it fails, and `reader` is an open file, which can be read to its end. `hash` computes the id of its bytes.
//! `orders` states how these values are compared, and `byte_text` is a text in an error.
#![tactic(auto)]

pub mod byte_text;
pub mod entry;
pub mod fault;
pub mod hash;
pub mod id;
pub mod mode;
pub mod orders;
mod probe;
pub mod reader;
pub mod stat;
pub mod state;

pub use byte_text::ByteText;
pub use entry::{Entry, Flags, NewEntry, PathStorage};
pub use fault::Fault;
pub use hash::{compute_hash, compute_stream_hash};
pub use id::{HashKind, ObjectId};
pub use mode::{EntryKind, Mode};
pub use probe::{Probe, search};
pub use reader::{ReadBytes, read_all};
pub use stat::{Metadata, Moment, NodeKind, Stat, Time, TimeError};
pub use state::{IndexError, State};
