//! A worktree, its index and a clock, changed by events.

mod apply;
mod event;
pub mod laws;
mod nodes;
mod reopening;
mod run;
mod staging;
mod state;

pub use apply::replay;
pub use event::{Event, Refusal};
pub use run::{Replay, Report, ReportRecord};
pub use state::World;
pub use status_compare::Comparer;
