//! The changes as they are read, once each, and the pairs of a sorted side with another.

ghost use Rattle.std.specs.Prelude.{◌≡◌, IfOk, OnOk, map};
ghost use Rattle.std.specs.List.{enumerate_from};
ghost use Rattle.std.specs.List.Sorted.{IsPermutation, IsSorted};
ghost use Rattle.status_rewrites.specs.IdentityPairs.{mode_number, key_cmp, place_cmp, is_null, may_stand};
ghost use Rattle.status_rewrites.specs.SeenItems.{changed_of, numbered};
ghost use Rattle.status_rewrites.specs.Joins.{AreByKey, HasRows, side_of, IsJoin};

use crate::tracker::{Change, ChangeKind, Pair};
use status_index::{EntryKind, ObjectId};
use std::alloc::{AllocError, Global};
use std::cmp::Ordering;

/// A change with its position in the list.
#[derive(Clone, Copy)]
pub(crate) struct Seen<'a> {
    pub(crate) place: usize,
    pub(crate) id: ObjectId,
    pub(crate) kind: ChangeKind,
    pub(crate) mode: EntryKind,
    pub(crate) path: &'a [u8],
}

/// Returns 0 for a file, 1 for a link, and 2 for a type that is in no pair.
pub(crate) fn mode_number(mode: EntryKind) -> u8
    ensures { result ≡ mode_number mode }
{
    match mode {
        EntryKind::Blob | EntryKind::BlobExecutable => 0,
        EntryKind::Link => 1,
        EntryKind::Tree | EntryKind::Commit => 2,
    }
}

/// Returns whether the id is null.
fn is_null(id: ObjectId) -> bool
    ensures { result ≡ is_null id }
{
    id == ObjectId::null(id.kind())
}

/// Reads a change.
fn see<C: Change>(place: usize, item: &C) -> Seen<'_>
    ensures { numbered result ≡ (place, C.changed item.entry.now) }
{
    let (id, mode) = item.id_and_entry_mode();
    Seen {
        place,
        id,
        kind: item.kind(),
        mode,
        path: item.location().as_bytes(),
    }
}

/// Reads all changes.
pub(crate) fn see_all<C: Change>(alloc: Global, items: &[C]) -> Result<Vec<Seen<'_>>, AllocError>
    ensures { IfOk result (λ seen. map numbered seen.items ≡ enumerate_from 0 (map C.changed items.entry.now)) }
{
    let mut seen = Vec::with_capacity(alloc, items.len())?;
    for (place, item) in items.iter().enumerate() {
        seen.push(see(place, item))?;
    }
    Ok(seen)
}

/// Compares by path, and at equal paths by position.
#[tactic(auto, unfolding(crate::specs::IdentityPairs::place_cmp))]
fn path_order(a: &Seen<'_>, b: &Seen<'_>) -> Ordering
    ensures { result ≡ place_cmp (numbered a.now) (numbered b.now) }
{
    a.path.cmp(b.path).then(a.place.cmp(&b.place))
}

/// Compares by type, and then by id.
#[tactic(auto, unfolding(crate::specs::IdentityPairs::key_cmp))]
pub(crate) fn key_order(a: &Seen<'_>, b: &Seen<'_>) -> Ordering
    ensures { result ≡ key_cmp (changed_of a.now) (changed_of b.now) }
{
    mode_number(a.mode)
        .cmp(&mode_number(b.mode))
        .then(a.id.cmp(&b.id))
}

/// Sorts by path.
pub(crate) fn put_in_path_order(seen: &mut Vec<Seen<'_>>) -> Result<(), AllocError>
    ensures bag { IsPermutation seen.old.items seen.new.items }
    ensures ascends { OnOk result (IsSorted (λ a b. place_cmp (numbered a) (numbered b)) seen.new.items) }
{
    seen.sort_by(|a, b| path_order(a, b))
}

/// Sorts by type and id. Equal ones keep their order.
pub(crate) fn put_in_key_order(seen: &mut Vec<Seen<'_>>) -> Result<(), AllocError>
    ensures rows { HasRows seen.old.items seen.new.items }
    ensures ascends { OnOk result (AreByKey seen.new.items) }
{
    seen.sort_by(|a, b| key_order(a, b))
}

/// Returns whether a change is of this side and may be in a pair.
#[tactic(auto, unfolding(crate::specs::IdentityPairs::may_stand))]
pub(crate) fn may_stand(seen: &Seen<'_>, side: ChangeKind, track_empty: bool) -> bool
    ensures { result ≡ may_stand side track_empty (changed_of seen.now) }
{
    seen.kind == side
        && mode_number(seen.mode) != 2
        && !is_null(seen.id)
        && (track_empty || !seen.id.is_empty_blob())
}

/// Returns the changes of one side that may be in a pair, in the list's order.
fn standing_on<'a>(
    alloc: Global,
    seen: &[Seen<'a>],
    side: ChangeKind,
    track_empty: bool,
) -> Result<Vec<Seen<'a>>, AllocError>
    ensures { IfOk result (λ kept. kept.items ≡ side_of side track_empty seen.now) }
{
    let mut kept = Vec::new(alloc);
    for item in seen {
        if may_stand(item, side, track_empty) {
            kept.push(*item)?;
        }
    }
    Ok(kept)
}

/// Returns the changes of one side that may be in a pair, by type and id, and for equal ones in the list's order.
pub(crate) fn one_side<'a>(
    alloc: Global,
    seen: &[Seen<'a>],
    side: ChangeKind,
    track_empty: bool,
) -> Result<Vec<Seen<'a>>, AllocError>
    ensures rows { IfOk result (λ kept. HasRows (side_of side track_empty seen.now) kept.items) }
    ensures ascends { IfOk result (λ kept. AreByKey kept.items) }
{
    let mut kept = standing_on(alloc, seen, side, track_empty)?;
    put_in_key_order(&mut kept)?;
    Ok(kept)
}

/// Returns the pairs of two sides that are sorted by type and id: for each type and id the first with the first, the
/// second with the second, and so on.
pub(crate) fn join(
    alloc: Global,
    gone: &[Seen<'_>],
    came: &[Seen<'_>],
) -> Result<Vec<Pair>, AllocError>
    requires gone { AreByKey gone.now }
    requires came { AreByKey came.now }
    ensures { IfOk result (λ pairs. IsJoin gone.now came.now pairs.items) }
{
    let mut pairs = Vec::with_capacity(alloc, gone.len().min(came.len()))?;
    let mut source = 0;
    let mut destination = 0;
    while source < gone.len() && destination < came.len() {
        let removed = gone[source];
        let added = came[destination];
        match key_order(&removed, &added) {
            Ordering::Less => source += 1,
            Ordering::Greater => destination += 1,
            Ordering::Equal => {
                pairs.push(Pair {
                    source: removed.place,
                    destination: added.place,
                    copy: false,
                })?;
                source += 1;
                destination += 1;
            }
        }
    }
    Ok(pairs)
}
