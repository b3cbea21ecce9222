//! The state of one position of the list, while the pairs are applied.

ghost use Rattle.std.specs.Prelude.{◌≡◌, Option, option_to_list};
ghost use Rattle.status_rewrites.specs.Places.{passes, is_free, may_go, reached_by, standing_in, IsLeft};

use crate::rewrites::{Item, Rewritten};
use std::alloc::AllocError;

/// The state of one position of the list.
#[derive(Drop)]
pub(crate) struct Place<I> {
    /// The item, unless a rename took it out.
    pub(crate) item: Option<I>,
    /// The source of the pair whose destination this is.
    pub(crate) arrived: Option<I>,
    /// Whether that pair is a copy.
    pub(crate) as_copy: bool,
    /// Whether the item is a source of copies.
    pub(crate) kept: bool,
}

fn is_removed<I: Item>(item: &Option<I>) -> bool
    ensures { result ≡ passes I.is_removed item.now }
{
    match item {
        Some(item) => item.is_removed(),
        None => false,
    }
}

fn is_walked<I: Item>(item: &Option<I>) -> bool
    ensures { result ≡ passes I.is_walked item.now }
{
    match item {
        Some(item) => item.is_walked(),
        None => false,
    }
}

/// Returns whether a pair may have its destination here.
pub(crate) fn may_come<I: Item>(place: &Place<I>) -> bool
    ensures { result ≡ is_free I.is_walked place.now }
{
    !place.kept && !place.arrived.is_some() && is_walked(&place.item)
}

/// Returns whether a pair may have its source here.
pub(crate) fn may_go<I: Item>(place: &Place<I>, copy: bool) -> bool
    ensures { result ≡ may_go I.is_removed copy place.now }
{
    if copy {
        !place.arrived.is_some() && place.item.is_some()
    } else {
        !place.kept && !place.arrived.is_some() && is_removed(&place.item)
    }
}

/// Returns the source of a pair. A rename takes it out, and a copy makes a copy of it.
///
/// # Errors
/// If an allocation fails.
pub(crate) fn leave<I: Item>(place: &mut Place<I>, copy: bool) -> Result<Option<I>, AllocError>
    ensures { IsLeft I.is_copy copy place.old result place.new }
{
    if !copy {
        return Ok(place.item.take());
    }
    place.kept = true;
    match &place.item {
        Some(item) => match item.another() {
            Ok(other) => Ok(Some(other)),
            Err(refused) => Err(refused),
        },
        None => Ok(None),
    }
}

/// Puts the source of a pair at its destination.
pub(crate) fn reach<I: Drop>(place: &mut Place<I>, source: Option<I>, copy: bool)
    ensures { place.new ≡ reached_by copy source place.old }
{
    place.arrived = source;
    place.as_copy = copy;
}

/// Returns the entry at this position after all pairs. None if a rename took the item out.
pub(crate) fn entry_of<I: Drop>(place: Place<I>) -> Option<Rewritten<I>>
    ensures { option_to_list result ≡ standing_in place }
{
    let Place {
        item,
        arrived,
        as_copy,
        kept: _,
    } = place;
    match item {
        Some(destination) => match arrived {
            Some(source) => Some(Rewritten::Rewrite {
                source,
                destination,
                copy: as_copy,
            }),
            None => Some(Rewritten::Alone(destination)),
        },
        None => None,
    }
}
