//! The items of a list, and the list in which each pair of them is one entry, or why the pairs are refused.

ghost use Rattle.std.specs.Prelude.{◌≡◌, ◌<◌, true, IfOk, OnOk, length, map, flat_map, slice_get, Bool, false};
ghost use Rattle.status_rewrites.specs.AfterRewrites.{IsRewriteAnswer};
ghost use Rattle.status_rewrites.specs.Places.{free, fits, passes, is_free, may_go, standing_in, IsPaired};
ghost use Rattle.status_rewrites.specs.declared.rewrites.Refused.TheVariants.{Memory};

use crate::Pair;
use crate::place::{Place, entry_of, leave, may_come, may_go, reach};
use std::alloc::{AllocError, Global};
use thiserror::Error;

/// An item of the list, which may be a part of a rename or a copy.
pub trait Item: Drop {
    /// Whether it may be a rename's source.
    ghost is_removed: { Self → Bool };

    /// Whether it may be a destination.
    ghost is_walked: { Self → Bool };

    /// The specification of `another`: which results are allowed.
    ghost is_copy: { Self → Self → Type 0 };

    /// Returns whether it may be a rename's source: the index has it, and the worktree doesn't.
    fn is_removed(&self) -> bool
        ensures { result ≡ is_removed self.now };

    /// Returns whether it may be a destination: the worktree has it, and the index doesn't.
    fn is_walked(&self) -> bool
        ensures { result ≡ is_walked self.now };

    /// Returns a copy of the item. The source of a copy is in the list twice: by itself, and in the copy's entry.
    ///
    /// # Errors
    /// If an allocation fails.
    fn another(&self) -> Result<Self, AllocError>
        ensures { IfOk result (is_copy self.now) };

    /// No item may be both.
    ghost apart: { (x : Self) → is_removed x ≡ true → is_walked x ≡ false };
}

/// An entry of a list with its rewrites.
#[derive(Debug, Drop)]
pub enum Rewritten<I> {
    /// An item that no rename took out, and that is no pair's destination.
    Alone(I),
    /// A rename or a copy, at its destination's position.
    Rewrite {
        /// The renamed item itself, or a copy of the copied one.
        source: I,
        /// The destination.
        destination: I,
        /// Whether the source is also at its own position.
        copy: bool,
    },
}

/// Returns the state of each position before any pair.
fn places_of<I: Drop>(alloc: Global, items: Vec<I>) -> Result<Vec<Place<I>>, AllocError>
    ensures { IfOk result (λ places. places.items ≡ map free items.items) }
{
    let mut places = Vec::with_capacity(alloc, items.len())?;
    for item in items {
        places.push(Place {
            item: Some(item),
            arrived: None,
            as_copy: false,
            kept: false,
        })?;
    }
    Ok(places)
}

fn source_fits<I: Item>(places: &[Place<I>], pair: &Pair) -> bool
    ensures { result ≡ passes (may_go I.is_removed pair.now.copy) (slice_get places.now pair.now.source) }
{
    match places.get(pair.source) {
        Some(place) => may_go(place, pair.copy),
        None => false,
    }
}

fn destination_fits<I: Item>(places: &[Place<I>], pair: &Pair) -> bool
    ensures { result ≡ passes (is_free I.is_walked) (slice_get places.now pair.now.destination) }
{
    match places.get(pair.destination) {
        Some(place) => may_come(place),
        None => false,
    }
}

/// Returns whether there is room for a pair: each item may have one part at most.
fn fits<I: Item>(places: &[Place<I>], pair: &Pair) -> bool
    ensures { result ≡ fits I.is_removed I.is_walked places.now pair.now }
{
    pair.source != pair.destination && source_fits(places, pair) && destination_fits(places, pair)
}

/// Moves or copies a pair's source to its destination.
fn pair_up<I: Item>(places: &mut Vec<Place<I>>, pair: &Pair) -> Result<(), AllocError>
    requires source { pair.now.source < length places.old.items }
    requires destination { pair.now.destination < length places.old.items }
    ensures { OnOk result (IsPaired I.is_copy places.old.items pair.now places.new.items) }
{
    let source = leave(&mut places[pair.source], pair.copy)?;
    reach(&mut places[pair.destination], source, pair.copy);
    Ok(())
}

/// Returns the entries after all pairs, in order.
fn entries_of<I: Drop>(
    alloc: Global,
    places: Vec<Place<I>>,
) -> Result<Vec<Rewritten<I>>, AllocError>
    ensures { IfOk result (λ entries. entries.items ≡ flat_map standing_in places.items) }
{
    let mut entries = Vec::with_capacity(alloc, places.len())?;
    for place in places {
        if let Some(entry) = entry_of(place) {
            entries.push(entry)?;
        }
    }
    Ok(entries)
}

/// Returns the list with its rewrites. Each pair is one entry, at its destination's position. A rename's source has no
/// other entry; a copy's source does. All other items are unchanged. Takes time O(items + pairs).
///
/// # Errors
/// The first pair that breaks a rule:
/// - A position is out of range, or both are the same.
/// - Its destination isn't a walked item, or is already a destination or a copy's source.
/// - It is a rename, and its source isn't a removed item, or is already a source.
/// - It is a copy, and its source is already a rename's source or a destination.
///
/// Or memory ran out.
pub fn rewrite<I: Item>(
    alloc: Global,
    items: Vec<I>,
    pairs: &[Pair],
) -> Result<Vec<Rewritten<I>>, Refused>
    ensures { IsRewriteAnswer I.is_removed I.is_walked I.is_copy items.items pairs.now result }
{
    let mut places = places_of(alloc, items)?;
    for (at, pair) in pairs.iter().enumerate() {
        if !fits(&places, pair) {
            return Err(Refused::BadPair { at });
        }
        pair_up(&mut places, pair)?;
    }
    Ok(entries_of(alloc, places)?)
}

/// Why a list can't be rewritten.
#[derive(Clone, Copy, Debug, PartialEq, Eq, Error)]
pub enum Refused {
    /// A pair breaks a rule: a position is out of range, has an item of the wrong kind, or already has another part.
    #[error("bad pair at {at}")]
    BadPair {
        /// The pair's position among the pairs.
        at: usize,
    },
    /// Memory ran out.
    #[error("Out of memory")]
    Memory,
}

impl From<AllocError> for Refused {
    ghost from_gives = { λ _ e. e ≡ Memory };

    fn from(_error: AllocError) -> Refused {
        Refused::Memory
    }
}
