//! The list of a status: its records and nodes, and the ids of its nodes.

ghost use Rattle.std.specs.Prelude.{◌≡◌, IfOk, OnOk, map};
ghost use Rattle.std.specs.Cmp.Lexicographic.{slice_cmp};
ghost use Rattle.std.specs.List.Sorted.{IsPermutation, IsSorted, IsSortedByKey, IsStableByKey};
ghost use Rattle.std.specs.Ordering.{nat_cmp};
ghost use Rattle.status_call.specs.RecorderVisits.{visit_of};
ghost use Rattle.status_joined.specs.Keeping.{kept_walked};
ghost use Rattle.status_joined.specs.Items.{path_of, side_of};
ghost use Rattle.status_joined.specs.ListItems.{item_of};
ghost use Rattle.status_joined.specs.Lists.{list_cmp, unsorted, IsList};
ghost use Rattle.status_index.specs.declared.id.HashKind.{HashKind as KindOfIds};
ghost use Rattle.status_joined.specs.NodeIds.{forget, HasIdBy, HaveIdsBy};

use crate::item::{Identify, ModificationOrDirwalkEntry};
use crate::untracked::Kept;
use status_call::index_as_worktree::Record;
use status_index::{HashKind, ObjectId};
use status_walk::IdError;
use std::alloc::{AllocError, Global};

/// Returns the records followed by the nodes, which have no ids yet.
fn unsorted<'index, T: Drop, U: Drop>(
    alloc: Global,
    kind: HashKind,
    records: Vec<Record<'index, T, U>>,
    kept: Vec<Kept>,
) -> Result<Vec<ModificationOrDirwalkEntry<'index, T, U>>, AllocError>
    ensures { IfOk result (λ list. map item_of list.items
        ≡ unsorted kind (map visit_of records.entry.items) (map kept_walked kept.items)) }
{
    let mut list = Vec::with_capacity(alloc, records.len() + kept.len())?;
    for record in records {
        list.push(ModificationOrDirwalkEntry::Modification(record))?;
    }
    for node in kept {
        list.push(ModificationOrDirwalkEntry::DirwalkEntry {
            entry: node.entry,
            id: ObjectId::null(kind),
            collapsed_directory_status: node.collapsed_directory_status,
        })?;
    }
    Ok(list)
}

/// Sorts by path. Items of one path keep their order. So if all records come before all nodes, they do so at each path
/// afterwards.
fn put_in_order<T, U>(
    items: &mut Vec<ModificationOrDirwalkEntry<'_, T, U>>,
) -> Result<(), AllocError>
    requires { IsSortedByKey (λ i. side_of (item_of i)) nat_cmp items.old.items }
    ensures bag { IsPermutation items.old.items items.new.items }
    ensures stable { IsStableByKey (λ i. path_of (item_of i)) (slice_cmp nat_cmp) items.old.items items.new.items }
    ensures order { OnOk result (IsSorted (λ a b. list_cmp (item_of a) (item_of b)) items.new.items) }
{
    items.sort_by(|a, b| a.path().cmp(b.path()))
}

/// Returns the list of a status: the records in index order, followed by the kept nodes in the walk's order. With
/// `sorting` it is sorted by path; items of one path keep that order.
///
/// # Errors
/// If an allocation fails.
pub fn list_of<'index, T: Drop, U: Drop>(
    alloc: Global,
    kind: HashKind,
    records: Vec<Record<'index, T, U>>,
    kept: Vec<Kept>,
    sorting: bool,
) -> Result<Vec<ModificationOrDirwalkEntry<'index, T, U>>, AllocError>
    ensures { IfOk result (λ list. IsList sorting
        (unsorted kind (map visit_of records.entry.items) (map kept_walked kept.items)) (map item_of list.items)) }
{
    let mut list = unsorted(alloc, kind, records, kept)?;
    if sorting {
        put_in_order(&mut list)?;
    }
    Ok(list)
}

/// Sets the id of an item that is a node to the id of its content. A record is unchanged. `buffer` is overwritten.
fn identify_item<N: Identify, T: Drop, U: Drop>(
    ids: &N,
    item: &mut ModificationOrDirwalkEntry<'_, T, U>,
    buffer: &mut Vec<u8>,
) -> Result<(), IdError>
    ensures ids { HasIdBy (N.identifying ids.now) (item_of item.old) result (item_of item.new) }
    ensures same { (kind : KindOfIds) → OnOk result (forget kind (item_of item.new) ≡ forget kind (item_of item.old)) }
{
    match item {
        ModificationOrDirwalkEntry::Modification(_) => Ok(()),
        ModificationOrDirwalkEntry::DirwalkEntry { entry, id, .. } => {
            match ids.id_of(entry, buffer) {
                Ok(known) => {
                    *id = known;
                    Ok(())
                }
                Err(error) => Err(error),
            }
        }
    }
}

/// Sets the id of each node of the list to the id of its content, in the list's order.
///
/// # Errors
/// The fault of the first node whose id can't be computed, or that memory ran out.
pub fn identify<N: Identify, T: Drop, U: Drop>(
    alloc: Global,
    kind: HashKind,
    ids: &N,
    items: &mut Vec<ModificationOrDirwalkEntry<'_, T, U>>,
) -> Result<(), IdError>
    ensures ids { HaveIdsBy (N.identifying ids.now) (map item_of items.old.items) result (map item_of items.new.items) }
    ensures same { OnOk result (map (forget kind) (map item_of items.new.items)
        ≡ map (forget kind) (map item_of items.old.items)) }
{
    let mut buffer = Vec::new(alloc);
    for item in items.iter_mut() {
        match identify_item(ids, item, &mut buffer) {
            Ok(()) => {}
            Err(error) => return Err(error),
        }
    }
    Ok(())
}
