//! Profiles, the program's input: an index, a worktree and options, or a history, read from JSON.
//!
//! Read `profile` and `history` first, then `options`, `node` and `event`, what they are made of, and `error`. `keys` reads
//! a text as a JSON value, and what its keys say. `form` has the forms of values; the crates status_format and
//! status_stored have those of entries. `refreshed` writes a profile again with another index, and `laws` states that this
//! index is read as the same. The folder `specs` defines what a text says: `Profiles` and `Histories`, over `Readings`,
//! `Options`, `Nodes`, `Events`, `Forms` and `Words`. `Refreshed` has what is written.
#![tactic(auto)]

mod error;
mod event;
mod form;
mod history;
mod keys;
pub mod laws;
mod node;
mod options;
mod profile;
mod refreshed;

pub use error::{Key, ProfileError};
pub use history::History;
pub use keys::read_json;
pub use node::Place;
pub use options::{HistoryOptions, Kind, ProfileOptions};
pub use profile::Profile;
pub use refreshed::refreshed_text;
