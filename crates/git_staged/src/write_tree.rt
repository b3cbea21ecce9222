//! The id of the tree that an index makes.

ghost use Rattle.std.specs.Prelude.{◌≡◌, ◌==◌, ◌↔◌, ◌+◌, ◌∷◌, ◌++◌, [], suc, take, not, IsTrue, IfOk, OnOk, Err, List};
ghost use Rattle.std.specs.List.{list_any};
ghost use Rattle.status_index.specs.Entries.{IndexEntry, entry_at};
ghost use Rattle.status_index.specs.FlagBits.{stage_of_bits};
ghost use Rattle.status_index.specs.States.{index_of};
ghost use Rattle.git_staged.specs.Trees.{has_conflict, index_tree_id, path_of_item};
ghost use Rattle.git_staged.specs.Folders.{IsTreeOf};
ghost use Rattle.git_staged.specs.OpenFolders.{HasNoLastFolder, Makes};

use crate::builder::{MadeTree, TreeBuilder};
use crate::error::TreeError;
use bitflags::Flags as _;
use status_index::{Entry, Flags, HashKind, Mode, ObjectId, State};
use std::alloc::{AllocError, Global};

/// Returns the id of the tree that an index makes, as `git write-tree` prints it. An entry of `git add -N` isn't in the
/// tree, and neither is a folder that has only such entries. A folder of a sparse index is in it by its own id.
///
/// `kind` is the repository's kind of digest. The ids of an index are all of one kind. If that isn't `kind`, their
/// bytes are put into the tree all the same, though git has no such tree. No object is read, and git's other checks
/// aren't made: the index may have both `a` and `a/b`.
///
/// # Errors
/// Returns `Conflict` exactly if an entry has a stage other than 0, and otherwise `Memory` if an allocation fails.
pub fn tree_id(alloc: Global, kind: HashKind, index: &State) -> Result<ObjectId, TreeError>
    ensures id { IfOk result (λ id. id ≡ index_tree_id kind (index_of index.now)) }
    ensures conflict { (result ≡ Err TreeError.Conflict) ↔ IsTrue (has_conflict (index_of index.now)) }
{
    if has_conflict(index.entries()) {
        return Err(TreeError::Conflict);
    }
    Ok(tree_of(alloc, kind, index)?.id)
}

/// Returns whether an entry has a stage other than 0.
fn has_conflict(entries: &[Entry]) -> bool
    ensures { result ≡ list_any (λ e. not (stage_of_bits e.flags.0 == 0)) entries.now }
{
    entries.iter().any(|entry| entry.stage_raw() != 0)
}

/// Returns the tree that the entries of an index make. A side of a conflict counts as any other.
///
/// # Errors
/// Out of memory.
pub(crate) fn tree_of(alloc: Global, kind: HashKind, index: &State) -> Result<MadeTree, AllocError>
    ensures { IfOk result (IsTreeOf kind (index_of index.now)) }
{
    let entries = index.entries();
    let mut tree = TreeBuilder::new(alloc);
    for (number, entry) in entries.iter().enumerate() {
        let path = entry.path_in(index.path_backing()).as_bytes();
        put_entry(&mut tree, kind, number, entry, path)?;
    }
    tree.finish(kind, entries.len())
}

/// Puts the entry of this number into the tree, unless it is one of `git add -N`.
///
/// # Errors
/// Out of memory. Then the tree can't be used any more.
fn put_entry(
    tree: &mut TreeBuilder,
    kind: HashKind,
    number: usize,
    entry: &Entry,
    path: &[u8],
) -> Result<(), AllocError>
    requires { (es : List IndexEntry) × Makes kind es number tree.old HasNoLastFolder }
    ensures { (es : List IndexEntry) → Makes kind es number tree.old HasNoLastFolder → take (suc number) es ≡ take number es ++ entry_at path.now entry.now ∷ []
        → OnOk result (Makes kind es (number + 1) tree.new HasNoLastFolder) }
{
    if entry.flags.intersects(Flags::INTENT_TO_ADD) {
        return Ok(());
    }
    let leaf = path_of_item(entry.mode, path);
    tree.put(kind, number, leaf, entry.mode, entry.id)
}

/// Returns the path of an entry's item: without the slash at its end for a folder of a sparse index.
fn path_of_item(mode: Mode, path: &[u8]) -> &[u8]
    ensures { result.now ≡ path_of_item mode path.entry.now }
{
    match (mode, path) {
        (Mode::Dir, [folder @ .., b'/']) => folder,
        _ => path,
    }
}
