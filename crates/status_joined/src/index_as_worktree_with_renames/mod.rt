//! The status of an index against a worktree with untracked files, renames and copies.

mod entry;
mod error;
mod function;
mod halves;
pub mod inputs;
mod recorder;
mod rewriting;
mod types;

pub use crate::ModificationOrDirwalkEntry;
pub use entry::{Entry, RewriteSource, Summary};
pub use error::Error;
pub use function::index_as_worktree_with_renames;
pub use recorder::{Recorder, VisitEntry};
pub(crate) use types::Call;
pub use types::{Context, DirwalkContext, ExactClone, Options, Outcome, Sorting};

/// The outcome of the search for renames and copies.
pub mod rewrites {
    /// The numbers of renames and copies that were found.
    #[derive(Clone, Copy, Debug, Default, PartialEq, Eq)]
    pub struct Outcome {
        /// The number of renames.
        pub renames: usize,
        /// The number of copies.
        pub copies: usize,
    }
}
