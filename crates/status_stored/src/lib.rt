//! The stored index: an index as a JSON value, read back, and histories in which that happens between events.
//!
//! Read `store` first, which stores an index and loads one, and `error`. `laws` states which index is read back.
//! `replay` stores an index as JSON text and loads it again, and replays a history in which that happens between
//! events.
#![tactic(auto)]

mod error;
pub mod laws;
mod replay;
mod store;

pub use error::{LoadError, ReopenError, StoreError};
pub use replay::{ReopenedReplay, Stop, reopened, replay_reopening};
pub use store::{load_index, read_entries, store_index, with_index};
