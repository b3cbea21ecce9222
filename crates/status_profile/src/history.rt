//! The profile of a replay.

ghost use Rattle.std.specs.Prelude.{codes};
ghost use Rattle.serde_json.specs.Find.{get};
ghost use Rattle.serde_json.specs.View.{view};
ghost use Rattle.status_profile.specs.Events.{stretch_values, stretches_in};
ghost use Rattle.status_format.specs.Reads.{Reads, needed};
ghost use Rattle.status_profile.specs.Forms.{value_at, moment_in};
ghost use Rattle.status_profile.specs.Histories.{IsHistoryRead, history_in, history_values};
ghost use Rattle.status_profile.specs.Options.{history_options_in};
ghost use Rattle.status_profile.specs.Readings.{ReadsKeys, under};

use crate::error::{Key, ProfileError};
use crate::event::read_stretches;
use crate::form::{moment_of, required};
use crate::keys::{read_hash, read_json, under};
use crate::options::{HistoryOptions, read_history_options};
use serde_json::Value;
use status_base::index::{HashKind, Moment};
use status_format::FieldError;
use status_world::world::Event;
use std::alloc::Global;

/// A world's start, and the events in it.
#[derive(Drop)]
pub struct History {
    /// How ids are made.
    pub hash: HashKind,
    /// The first time on the clock.
    pub clock: Moment,
    /// The timestamp of the empty index.
    pub timestamp: Moment,
    /// How runs are computed, and what is printed of them.
    pub options: HistoryOptions,
    /// The events, in order, in stretches: between two of them the index is opened again.
    pub stretches: Vec<Vec<Event>>,
}

impl History {
    /// Reads the profile of a replay from JSON text (RFC 8259, in UTF-8).
    ///
    /// # Errors
    /// The text isn't JSON; or a key is missing or has a wrong form: the first such key. Or memory ran out.
    pub fn from_json(alloc: Global, text: &[u8]) -> Result<History, ProfileError>
        ensures { IsHistoryRead text.now result }
    {
        let value = read_json(alloc, text)?;
        read_history(alloc, &value)
    }
}

/// Reads a history from a JSON value.
#[tactic(auto, unfolding(crate::specs::Histories::history_in))]
fn read_history(alloc: Global, value: &Value) -> Result<History, ProfileError>
    ensures { ReadsKeys history_values result (history_in (view value.now)) }
{
    if !value.is_object() {
        return Err(ProfileError::Bad(Key::Hash));
    }
    let hash = read_hash(value)?;
    let clock = read_clock(value)?;
    let timestamp = read_timestamp(value)?;
    let options = read_options(value)?;
    let stretches = read_events(alloc, value)?;
    Ok(History {
        hash,
        clock,
        timestamp,
        options,
        stretches,
    })
}

/// Reads the first time on the clock.
fn read_clock(value: &Value) -> Result<Moment, ProfileError>
    ensures { ReadsKeys (λ m. m) result (under Key.Clock (needed moment_in (get (codes "clock") (view value.now)))) }
{
    under(Key::Clock, required_moment(value.get("clock")))
}

/// Reads the timestamp of the empty index.
fn read_timestamp(value: &Value) -> Result<Moment, ProfileError>
    ensures { ReadsKeys (λ m. m) result (under Key.Timestamp (needed moment_in (get (codes "timestamp") (view value.now)))) }
{
    under(Key::Timestamp, required_moment(value.get("timestamp")))
}

/// Reads the options.
fn read_options(value: &Value) -> Result<HistoryOptions, ProfileError>
    ensures { ReadsKeys (λ o. o) result (under Key.Options (history_options_in (get (codes "options") (view value.now)))) }
{
    under(Key::Options, read_history_options(value.get("options")))
}

/// Reads the events.
fn read_events(alloc: Global, value: &Value) -> Result<Vec<Vec<Event>>, ProfileError>
    ensures { ReadsKeys stretch_values result (under Key.Events (needed stretches_in (get (codes "events") (view value.now)))) }
{
    under(Key::Events, required_stretches(alloc, value.get("events")))
}

/// Reads a moment, which must be there.
fn required_moment(value: Option<&Value>) -> Result<Moment, FieldError>
    ensures { Reads (λ m. m) result (needed moment_in (value_at value.entry)) }
{
    moment_of(required(value)?)
}

/// Reads the events, which must be there, in stretches.
fn required_stretches(alloc: Global, value: Option<&Value>) -> Result<Vec<Vec<Event>>, FieldError>
    ensures { Reads stretch_values result (needed stretches_in (value_at value.entry)) }
{
    read_stretches(alloc, required(value)?)
}
