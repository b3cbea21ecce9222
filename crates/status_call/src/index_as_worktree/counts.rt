//! The counts of a status.

ghost use Rattle.std.specs.Prelude.{◌≡◌, ◌-◌, ◌^◌};
ghost use Rattle.status_call.specs.Counts.{IsWithin, no_counts, no_totals, plus_counts, plus_totals};

use status_compare::Reads;

/// Numbers of processed entries.
#[derive(Clone, Copy, Debug, Default, PartialEq, Eq)]
pub struct Counts {
    /// All processed entries. A conflict counts once.
    pub processed: usize,
    /// Those that are skipped by flags.
    pub skipped_by_flags: usize,
    /// Those that are skipped by the pathspec.
    pub skipped_by_pathspec: usize,
    /// Those on whose own path `lstat` was called.
    pub lstat_calls: usize,
    /// Those, without an executable change, whose stat is trusted but racy: it may hide a write.
    pub racy_clean: usize,
    /// Those that need a new stat.
    pub to_update: usize,
}

impl Counts {
    /// Returns the counts of no entries.
    pub(crate) fn none() -> Counts
        ensures { result ≡ no_counts }
    {
        Counts {
            processed: 0,
            skipped_by_flags: 0,
            skipped_by_pathspec: 0,
            lstat_calls: 0,
            racy_clean: 0,
            to_update: 0,
        }
    }

    /// Adds the counts of `other`.
    pub(crate) fn add(&mut self, other: &Counts)
        requires { IsWithin (2 ^ 64 - 1) (plus_counts self.old other.now) }
        ensures { self.new ≡ plus_counts self.old other.now }
    {
        self.processed += other.processed;
        self.skipped_by_flags += other.skipped_by_flags;
        self.skipped_by_pathspec += other.skipped_by_pathspec;
        self.lstat_calls += other.lstat_calls;
        self.racy_clean += other.racy_clean;
        self.to_update += other.to_update;
    }
}

/// The counts of entries, and of the reads for them.
#[derive(Clone, Copy, Debug, PartialEq, Eq)]
pub struct Totals {
    /// Numbers of entries.
    pub counts: Counts,
    /// The counts of reads.
    pub reads: Reads,
}

impl Totals {
    /// Returns the totals of no entries.
    pub(crate) fn none() -> Totals
        ensures { result ≡ no_totals }
    {
        Totals {
            counts: Counts::none(),
            reads: Reads::none(),
        }
    }

    /// Returns the totals of entries for which nothing was read.
    pub(crate) fn unread(counts: Counts) -> Totals
        ensures { result ≡ record no_totals { counts = counts } }
    {
        Totals {
            counts,
            reads: Reads::none(),
        }
    }

    /// Adds the totals of `other`.
    pub(crate) fn add(&mut self, other: &Totals)
        requires { IsWithin (2 ^ 64 - 1) (plus_counts self.old.counts other.now.counts) }
        ensures { self.new ≡ plus_totals self.old other.now }
    {
        self.counts.add(&other.counts);
        self.reads.add(&other.reads);
    }
}

/// The progress of some work: its counts, and whether the interrupt flag was seen set before its end.
#[derive(Clone, Copy, Debug, PartialEq, Eq)]
pub struct Progress {
    /// The counts.
    pub totals: Totals,
    /// Whether the interrupt flag was seen set.
    pub interrupted: bool,
}
