//! An index entry in JSON: read from a value of the crate serde_json, and stored as one.
//!
//! Read `entry` first, which reads and stores an entry. `read` reads one field, or says why it can't.
#![tactic(auto)]

pub mod entry;
pub mod read;

pub use entry::{EntryFields, read_entry, stat_of, store_entry};
pub use read::FieldError;
