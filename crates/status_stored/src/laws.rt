//! The law of an index that is stored and read back. The function does nothing: its contract
//! states the law.

ghost use Rattle.std.specs.Prelude.{◌≡◌, List, map};
ghost use Rattle.status_index.specs.declared.stat.Moment.{Moment};
ghost use Rattle.status_index.specs.Entries.{IndexEntry};
ghost use Rattle.status_stored.specs.Reading.{index_in};
ghost use Rattle.status_stored.specs.Storable.{AreKnown, IsStorableIndex};
ghost use Rattle.status_format.specs.Storable.{known_entry};
ghost use Rattle.status_stored.specs.StoredIndex.{stored_index};

/// States that the index read from an index's value has the same timestamp, and the same entries with only their known
/// flags. So it is the same index if all its flags are known.
#[tactic(auto, using(crate::proofs::Back::index_back, crate::proofs::Back::index_same))]
pub fn stored_is_read()
    ensures read { (es : List IndexEntry) (t : Moment) → IsStorableIndex es t → index_in (stored_index es t) ≡ Some (map known_entry es, t) }
    ensures same { (es : List IndexEntry) (t : Moment) → IsStorableIndex es t → AreKnown es → index_in (stored_index es t) ≡ Some (es, t) }
{}
