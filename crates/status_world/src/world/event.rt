//! The events of a world, and why one is refused.

ghost use Rattle.std.specs.Prelude.{◌≡◌};
ghost use Rattle.status_world.specs.declared.world.event.Refusal.TheVariants.{Memory};

use bstr::BString;
use status_call::index_as_worktree::Error;
use status_compare::Comparer;
use status_index::Moment;
use std::alloc::AllocError;

/// An event.
#[derive(Debug, Drop)]
pub enum Event {
    /// The clock advances by this number of seconds.
    Tick(u32),
    /// The clock advances by this number of nanoseconds.
    TickNanos(u32),
    /// A regular file is written: its path and its content.
    Write(BString, Vec<u8>),
    /// A symbolic link is made: its path and its target.
    Link(BString, Vec<u8>),
    /// A regular file is made executable, or made not executable.
    SetExecutable(BString, bool),
    /// A file or link is removed.
    Remove(BString),
    /// The file or link at a path is put into the index, as by `git add`. If there is none, the path's entry is
    /// removed.
    Stage(BString),
    /// A status runs, and the changes that it asks for are stored in the index.
    Run {
        /// How files are compared.
        comparer: Comparer,
        /// How many entries a piece of work has; 0 for the default.
        chunk_size: usize,
        /// The greatest number of workers; None or 0 for the default.
        thread_limit: Option<usize>,
        /// The index's timestamp after the run.
        stamp: Moment,
    },
}

/// The fields of a run.
#[derive(Clone, Copy)]
pub(crate) struct Run {
    pub(crate) comparer: Comparer,
    pub(crate) chunk_size: usize,
    pub(crate) thread_limit: Option<usize>,
    pub(crate) stamp: Moment,
}

/// Why an event or a new world is refused.
#[derive(Debug, Drop)]
pub enum Refusal {
    /// The clock would go past the greatest second.
    ClockEnd,
    /// The path is empty, or a component is empty, `.` or `..`.
    BadPath,
    /// A file or link is above the path, or a directory is at the path.
    InTheWay,
    /// The content has 2^32 bytes or more.
    TooLarge,
    /// There is no regular file whose executability can be set, or no file or link that can be removed.
    NotAFile,
    /// A timestamp is after the clock.
    StampLater,
    /// Reserved for an interrupted status. It is never returned.
    Interrupted,
    /// The status failed.
    Run(Error),
    /// An allocation failed.
    Memory,
    /// The clock or a timestamp has 1,000,000,000 nanoseconds or more.
    BadMoment,
    /// The index passed to `World::reopen` differs from the world's own. No event is refused for this.
    OtherIndex,
}

impl From<AllocError> for Refusal {
    ghost from_gives = { λ _ r. r ≡ Memory };

    fn from(_error: AllocError) -> Refusal {
        Refusal::Memory
    }
}
