//! The profile of a status.

ghost use Rattle.std.specs.Prelude.{codes, map, IfOk};
ghost use Rattle.serde_json.specs.Find.{get};
ghost use Rattle.serde_json.specs.View.{view};
ghost use Rattle.status_index.specs.Entries.{new_entry};
ghost use Rattle.status_index.specs.States.{index_of};
ghost use Rattle.status_format.specs.Reading.{entries_in, stamp_in};
ghost use Rattle.status_format.specs.Reads.{Reads, needed};
ghost use Rattle.status_stored.specs.Storable.{AreUtf8};
ghost use Rattle.status_profile.specs.Forms.{value_at};
ghost use Rattle.status_profile.specs.Nodes.{place_in, place_value};
ghost use Rattle.status_profile.specs.Options.{option_values, options_in};
ghost use Rattle.status_profile.specs.Profiles.{IsProfile, IsRead, field_values, profile_in};
ghost use Rattle.status_profile.specs.Readings.{ReadsKeys, under};

use crate::error::{Key, ProfileError};
use crate::form::required;
use crate::keys::{read_hash, read_json, under};
use crate::node::{Place, read_place};
use crate::options::{Kind, ProfileOptions, read_options};
use serde_json::Value;
use status_base::index::{HashKind, Moment, State};
use status_format::FieldError;
use status_format::read::stamp_of;
use status_index::NewEntry;
use status_stored::read_entries;
use std::alloc::Global;

/// The profile of a status.
#[derive(Drop)]
pub struct Profile {
    /// How the ids of untracked files are made. An entry's id has its own kind.
    pub hash: HashKind,
    /// How the status is computed, and what is printed.
    pub options: ProfileOptions,
    /// The index.
    pub index: State,
    /// The place of the worktree.
    pub place: Place,
}

impl Profile {
    /// Reads a profile from JSON text (RFC 8259, in UTF-8).
    ///
    /// # Errors
    /// Those of [`read_json`] and of [`Profile::from_value`].
    pub fn from_json(alloc: Global, text: &[u8], kind: Kind) -> Result<Profile, ProfileError>
        ensures read { IsRead kind text.now result }
        ensures utf8 { IfOk result (λ profile. AreUtf8 (index_of profile.index)) }
    {
        let value = read_json(alloc, text)?;
        Profile::from_value(alloc, &value, kind)
    }

    /// Reads a profile from a JSON value.
    ///
    /// # Errors
    /// A key is missing or has a wrong form: the first such key; or an entry can't be at its index position: the first
    /// such entry. Or memory ran out.
    #[tactic(auto, using(crate::proofs::Readings::fields_unread, crate::proofs::Readings::index_refused))]
    pub fn from_value(alloc: Global, value: &Value, kind: Kind) -> Result<Profile, ProfileError>
        ensures read { IsProfile (profile_in kind (view value.now)) result }
        ensures utf8 { IfOk result (λ profile. AreUtf8 (index_of profile.index)) }
    {
        let Fields {
            hash,
            timestamp,
            options,
            entries,
            place,
        } = read_fields(alloc, value, kind)?;
        match State::from_entries(alloc, entries, timestamp) {
            Ok(index) => Ok(Profile {
                hash,
                options,
                index,
                place,
            }),
            Err(error) => Err(ProfileError::of_index(error)),
        }
    }
}

/// The values that the keys of a profile say.
#[derive(Drop)]
struct Fields {
    /// How ids are made.
    hash: HashKind,
    /// When the index was written.
    timestamp: Moment,
    /// How the status is computed, and what is printed.
    options: ProfileOptions,
    /// The entries of the index.
    entries: Vec<NewEntry>,
    /// The place of the worktree.
    place: Place,
}

/// Reads the keys of a profile.
#[tactic(auto, unfolding(crate::specs::Profiles::profile_in))]
fn read_fields(alloc: Global, value: &Value, kind: Kind) -> Result<Fields, ProfileError>
    ensures read { ReadsKeys field_values result (profile_in kind (view value.now)) }
    ensures utf8 { IfOk result (λ fields. AreUtf8 (map new_entry fields.entries.items)) }
{
    if !value.is_object() {
        return Err(ProfileError::Bad(Key::Hash));
    }
    Ok(Fields {
        hash: read_hash(value)?,
        timestamp: read_timestamp(value)?,
        options: read_value_options(alloc, value, kind)?,
        entries: read_index(alloc, value)?,
        place: read_worktree(alloc, value)?,
    })
}

/// Reads when the index was written.
fn read_timestamp(value: &Value) -> Result<Moment, ProfileError>
    ensures { ReadsKeys (λ m. m) result (under Key.Timestamp (needed stamp_in (get (codes "timestamp") (view value.now)))) }
{
    under(Key::Timestamp, required_stamp(value.get("timestamp")))
}

/// Reads a stamp, which must be there.
fn required_stamp(value: Option<&Value>) -> Result<Moment, FieldError>
    ensures { Reads (λ m. m) result (needed stamp_in (value_at value.entry)) }
{
    stamp_of(required(value)?)
}

/// Reads the options.
fn read_value_options(
    alloc: Global,
    value: &Value,
    kind: Kind,
) -> Result<ProfileOptions, ProfileError>
    ensures { ReadsKeys option_values result (under Key.Options (options_in kind (get (codes "options") (view value.now)) (get (codes "folder") (view value.now)))) }
{
    under(
        Key::Options,
        read_options(alloc, kind, value.get("options"), value.get("folder")),
    )
}

/// Reads the entries of the index.
fn read_index(alloc: Global, value: &Value) -> Result<Vec<NewEntry>, ProfileError>
    ensures read { ReadsKeys (λ es. map new_entry es.items) result (under Key.Index (needed entries_in (get (codes "index") (view value.now)))) }
    ensures utf8 { IfOk result (λ es. AreUtf8 (map new_entry es.items)) }
{
    under(Key::Index, required_entries(alloc, value.get("index")))
}

/// Reads entries, which must be there.
fn required_entries(alloc: Global, value: Option<&Value>) -> Result<Vec<NewEntry>, FieldError>
    ensures read { Reads (λ es. map new_entry es.items) result (needed entries_in (value_at value.entry)) }
    ensures utf8 { IfOk result (λ es. AreUtf8 (map new_entry es.items)) }
{
    read_entries(alloc, required(value)?)
}

/// Reads the place of the worktree.
fn read_worktree(alloc: Global, value: &Value) -> Result<Place, ProfileError>
    ensures { ReadsKeys place_value result (under Key.Worktree (place_in (get (codes "folder") (view value.now)) (get (codes "worktree") (view value.now)))) }
{
    under(
        Key::Worktree,
        read_place(alloc, value.get("folder"), value.get("worktree")),
    )
}
