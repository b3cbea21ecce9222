//! Trackers: the changes that they get, their results, and the tracker that finds pairs of equal content.

ghost use Rattle.std.specs.Prelude.{◌≡◌, Bool, List, Result, map, IfOk};
ghost use Rattle.status_rewrites.specs.declared.tracker.TrackerError.TheVariants.{Memory};
ghost use Rattle.status_rewrites.specs.TrackedChanges.{Changed};
ghost use Rattle.status_rewrites.specs.Trackers.{TrackerFault, IsSpecifiedAnswer};
ghost use Rattle.status_rewrites.specs.declared.tracker.Pair.{Pair as PairValue};
ghost use Rattle.bstr.specs.BStr.{bstr_bytes};
ghost use Rattle.status_rewrites.specs.Buckets.{ArePairsOf};
ghost use Rattle.status_rewrites.specs.IdentityPairs.{AreIdentityPairs};
ghost use Rattle.status_rewrites.specs.Renames.{AreRenames, IsIdentityAnswer};

use crate::buckets::join_buckets;
use crate::seen::{Seen, join, one_side, put_in_path_order, see_all};
use bstr::BStr;
use status_index::{EntryKind, ObjectId};
use std::alloc::{AllocError, AllocFailed, Global};
use thiserror::Error;

/// Two changes that are a rename or a copy, by their positions in the list that the tracker got.
#[derive(Clone, Copy, Debug, PartialEq, Eq)]
pub struct Pair {
    /// The source's position.
    pub source: usize,
    /// The destination's position.
    pub destination: usize,
    /// Whether it is a copy: the source stays.
    pub copy: bool,
}

/// Which changes are tracked.
#[derive(Clone, Copy, Debug, Default, PartialEq, Eq)]
pub struct Rewrites {
    /// Whether empty files are.
    pub track_empty: bool,
}

/// Why a tracker returns no pairs.
#[derive(Clone, Copy, Debug, PartialEq, Eq, Error)]
pub enum TrackerError {
    /// A pair breaks a rule: a position is out of range, is of the wrong kind of change, or already has another part.
    #[error("tracker")]
    BadPair {
        /// The pair's position in the tracker's result.
        at: usize,
    },
    /// The tracker refused, with a code of its own.
    #[error("tracker")]
    Refused(u32),
    /// Memory ran out.
    #[error("Out of memory")]
    Memory,
}

impl From<AllocError> for TrackerError {
    ghost from_gives = { λ _ e. e ≡ Memory };

    fn from(_error: AllocError) -> TrackerError {
        TrackerError::Memory
    }
}

impl<T: Drop> From<AllocFailed<T>> for TrackerError {
    ghost from_gives = { λ _ e. e ≡ Memory };

    fn from(_refused: AllocFailed<T>) -> TrackerError {
        TrackerError::Memory
    }
}

/// Finds renames and copies among changes.
pub trait Tracker {
    /// The specification: which results are allowed for these changes, and by whether empty files are tracked.
    ghost tracks: { Self → List Changed → Bool → Result (List PairValue) TrackerFault → Type 0 };

    /// Returns the renames and copies among `items`, by their positions there.
    ///
    /// # Errors
    /// If the tracker refuses, or if an allocation fails.
    fn pairs<C: Change>(
        &mut self,
        items: &[C],
        rewrites: Rewrites,
    ) -> Result<Vec<Pair>, TrackerError>
        ensures { IsSpecifiedAnswer (tracks self.old (map C.changed items.now) rewrites.track_empty) result };
}

/// What happened to a path.
#[derive(Clone, Copy, Debug, PartialEq, Eq, PartialOrd, Ord, Hash)]
pub enum ChangeKind {
    /// The index has it, and the worktree doesn't.
    Deletion,
    /// The index has it, and the worktree has something else.
    Modification,
    /// The worktree has it, and the index doesn't.
    Addition,
}

/// A change that may be a part of a rename or a copy.
pub trait Change {
    /// The specification: the results of the methods.
    ghost changed: { Self → Changed };

    /// Returns the id of the content: the index's for a deletion, the worktree's for an addition. Null if it isn't
    /// known.
    fn id(&self) -> ObjectId
        ensures { result ≡ (changed self.now).id };

    /// Returns what happened to the path.
    fn kind(&self) -> ChangeKind
        ensures { result ≡ (changed self.now).kind };

    /// Returns the type of the node that is or was at the path.
    fn entry_mode(&self) -> EntryKind
        ensures { result ≡ (changed self.now).mode };

    /// Returns both the id and the type.
    fn id_and_entry_mode(&self) -> (ObjectId, EntryKind)
        ensures { result ≡ ((changed self.now).id, (changed self.now).mode) };

    /// Returns the path, from the worktree's root.
    fn location(&self) -> BStr<'_>
        ensures { bstr_bytes result ≡ (changed self.now).path };
}

/// Finds renames by equal content, separately for files and for links. Of those with one id, the first deletion by path
/// pairs with the first addition by path, the second with the second, and so on. Equal paths are ordered by their
/// positions in the list.
///
/// A null id is in no pair, and the empty blob's only with `track_empty`. It finds no copies, never refuses, and takes
/// time O(n log n) for n changes.
#[derive(Clone, Copy)]
pub struct IdentityTracker {
    alloc: Global,
}

impl IdentityTracker {
    /// Returns a tracker that takes its memory from `alloc`.
    pub fn new(alloc: Global) -> IdentityTracker {
        IdentityTracker { alloc }
    }
}

/// The number of changes from which on buckets are faster.
const LONG: usize = 32_768;

/// Returns the pairs of changes that are in path order.
fn side_pairs<'a>(
    alloc: Global,
    seen: &'a [Seen<'a>],
    track_empty: bool,
) -> Result<Vec<Pair>, AllocError>
    ensures { IfOk result (λ pairs. ArePairsOf track_empty seen.now pairs.items) }
{
    if seen.len() >= LONG {
        return join_buckets(alloc, seen, track_empty);
    }
    let gone = one_side(alloc, seen, ChangeKind::Deletion, track_empty)?;
    let came = one_side(alloc, seen, ChangeKind::Addition, track_empty)?;
    join(alloc, &gone, &came)
}

/// Returns the renames among changes, by equal content.
fn identity_pairs<C: Change>(
    alloc: Global,
    items: &[C],
    track_empty: bool,
) -> Result<Vec<Pair>, AllocError>
    ensures pairs { IfOk result (λ pairs. AreIdentityPairs track_empty (map C.changed items.now) pairs.items) }
    ensures lawful { IfOk result (λ pairs. AreRenames (map C.changed items.now) pairs.items) }
{
    let mut seen = see_all(alloc, items)?;
    put_in_path_order(&mut seen)?;
    side_pairs(alloc, &seen, track_empty)
}

impl Tracker for IdentityTracker {
    ghost tracks = { λ _ xs track_empty answer. IsIdentityAnswer xs track_empty answer };

    fn pairs<C: Change>(
        &mut self,
        items: &[C],
        rewrites: Rewrites,
    ) -> Result<Vec<Pair>, TrackerError> {
        Ok(identity_pairs(self.alloc, items, rewrites.track_empty)?)
    }
}
