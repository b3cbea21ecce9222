//! Renames and copies: which changes are pairs, and the list in which each pair is one entry.
//!
//! Read `tracker` first: the interface, the changes that it gets, and the tracker by equal content, whose parts are
//! `seen` and `buckets`. Then read `rewrites`, which makes one entry of the two items of a pair, or says why it can't.
//! `place` decides whether there is room for a pair.
#![tactic(auto)]

mod buckets;
mod place;
pub mod rewrites;
mod seen;
pub mod tracker;

pub use rewrites::{Item, Refused, Rewritten, rewrite};
pub use tracker::{Change, ChangeKind, IdentityTracker, Pair, Rewrites, Tracker, TrackerError};
