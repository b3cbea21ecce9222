//! Replaces the index of a world by an equal one, such as one that was stored and loaded.

ghost use Rattle.std.specs.Prelude.{◌≡◌, Decides};
ghost use Rattle.status_index.specs.Entries.{index_entry};
ghost use Rattle.status_index.specs.States.{index_of, timestamp_of};
ghost use Rattle.status_world.specs.SameIndex.{IsIndexReplaced, IsSameIndex};

use crate::world::event::Refusal;
use crate::world::state::World;
use status_index::{Entry, PathStorage, State};

impl World {
    /// Replaces the world's index by `index`, which must have the same entries, with their stats and flags, and the
    /// same timestamp. So a world can go on with an index that was stored and loaded.
    ///
    /// # Errors
    /// Returns [`Refusal::OtherIndex`] if the two indexes differ. The world is then unchanged, and `index` is dropped.
    pub fn reopen(&mut self, index: State) -> Result<(), Refusal>
        ensures { IsIndexReplaced (index_of index) (timestamp_of index) self.old result self.new }
    {
        if !is_same_index(&self.parts.index, &index) {
            return Err(Refusal::OtherIndex);
        }
        self.parts.index = index;
        Ok(())
    }
}

/// Returns whether two indexes have the same entries and timestamp.
fn is_same_index(a: &State, b: &State) -> bool
    ensures { Decides result (IsSameIndex (index_of a.now) (timestamp_of a.now) (index_of b.now) (timestamp_of b.now)) }
{
    a.timestamp() == b.timestamp() && are_same_entries(a, b)
}

/// Returns whether two indexes have the same entries.
fn are_same_entries(a: &State, b: &State) -> bool
    ensures { Decides result ((index_of a.now) ≡ index_of b.now) }
{
    let (entries, others) = (a.entries(), b.entries());
    if entries.len() != others.len() {
        return false;
    }
    for at in 0..entries.len() {
        if !is_same_entry(
            &entries[at],
            a.path_backing(),
            &others[at],
            b.path_backing(),
        ) {
            return false;
        }
    }
    true
}

/// Returns whether two entries are equal, each with its path in its own index's storage.
fn is_same_entry(a: &Entry, paths: &PathStorage, b: &Entry, other_paths: &PathStorage) -> bool
    ensures { Decides result (index_entry paths.now a.now ≡ index_entry other_paths.now b.now) }
{
    a.stat == b.stat
        && a.id == b.id
        && a.flags == b.flags
        && a.mode == b.mode
        && a.path_in(paths) == b.path_in(other_paths)
}
