//! Interfaces and calls as a caller writes them.
//!
//! Begin at `statuses`, which calls the status. The other modules have a comparer, a filter and other interfaces, and
//! `joined` those of the joined call. All are proved to meet their contracts. docs/GUIDE.md quotes some, and
//! `status_tests` uses them. There is no test, since all of it would be proved again with one.
#![tactic(auto)]

pub mod collectors;
pub mod comparers;
pub mod histories;
pub mod joined;
pub mod listers;
pub mod objects;
mod returns;
pub mod statuses;
pub mod stored;
pub mod submodules;
pub mod worktrees;

pub use returns::WithoutReturns;
