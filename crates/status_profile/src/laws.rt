//! The law of an index in a profile that is written. The function does nothing: its contract states the law.

ghost use Rattle.std.specs.Prelude.{◌≡◌, ℕ, All, List, Some, codes, map};
ghost use Rattle.serde_json.specs.Data.{Members};
ghost use Rattle.serde_json.specs.Find.{get_member};
ghost use Rattle.status_index.specs.declared.stat.Moment.{Moment};
ghost use Rattle.status_index.specs.Entries.{IndexEntry};
ghost use Rattle.status_format.specs.Reading.{entries_in, stamp_in};
ghost use Rattle.status_format.specs.Reads.{needed};
ghost use Rattle.status_format.specs.Storable.{Fits32, IsStorable, known_entry};
ghost use Rattle.status_stored.specs.StoredIndex.{stored_with};

/// States that the index that a refresh writes is read from a profile as the same index: the same timestamp, and the same
/// entries with only their known flags. All other members stay the same.
#[tactic(auto, using(crate::proofs::WrittenIndexes::entries_read, crate::proofs::WrittenIndexes::timestamp_read, crate::proofs::WrittenIndexes::others_kept))]
pub fn written_index_is_read()
    ensures entries { (ms : Members) (es : List IndexEntry) (t : Moment) → All IsStorable es
        → needed entries_in (get_member (codes "index") (stored_with ms es t)) ≡ Some (map known_entry es) }
    ensures timestamp { (ms : Members) (es : List IndexEntry) (t : Moment) → Fits32 t.secs → Fits32 t.nsecs
        → needed stamp_in (get_member (codes "timestamp") (stored_with ms es t)) ≡ Some t }
    ensures others { (key : List ℕ) (ms : Members) (es : List IndexEntry) (t : Moment) → (key ≡ codes "index" → ⊥) → (key ≡ codes "timestamp" → ⊥)
        → get_member key (stored_with ms es t) ≡ get_member key ms }
{}
