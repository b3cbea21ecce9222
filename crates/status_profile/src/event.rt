//! The events of a history: each is a list of a word and the event's values.

ghost use Rattle.std.specs.Prelude.{◌≡◌, option_map};
ghost use Rattle.bstr.specs.Owned.{bstring_bytes};
ghost use Rattle.serde_json.specs.Find.{as_str};
ghost use Rattle.serde_json.specs.View.{items_view, view};
ghost use Rattle.status_profile.specs.Events.{chmod_in, event_of, event_value, is_reopening, four_of, number_in_one, one_of, path_in_one, path_and_text_in, run_in, stretch_values, stretches_in, two_of};
ghost use Rattle.status_format.specs.Reads.{Reads};

use crate::form::{comparer_of, limit_of, moment_of, truth_of};
use bstr::BString;
use serde_json::Value;
use status_format::FieldError;
use status_format::read::{list_of, number_of, text_of};
use status_world::world::Event;
use std::alloc::Global;
use std::mem;

/// Reads the events, in stretches: between two of them the index is opened again.
pub fn read_stretches(alloc: Global, events: &Value) -> Result<Vec<Vec<Event>>, FieldError>
    ensures { Reads stretch_values result (stretches_in (view events.now)) }
{
    let mut stretches = Vec::new(alloc);
    let mut stretch = Vec::new(alloc);
    for event in list_of(events)? {
        let items = list_of(event)?;
        if is_reopening(items) {
            stretches.push(mem::replace(&mut stretch, Vec::new(alloc)))?;
        } else {
            stretch.push(read_event(alloc, items)?)?;
        }
    }
    stretches.push(stretch)?;
    Ok(stretches)
}

/// Whether these are the items of a reopening: its word alone.
fn is_reopening(items: &[Value]) -> bool
    ensures { result ≡ is_reopening (items_view items.now) }
{
    match one_item(items) {
        Some(word) => word.as_str() == Some("reopen"),
        None => false,
    }
}

/// Reads the event of a list, which has exactly the items of the event's form.
fn read_event(alloc: Global, items: &[Value]) -> Result<Event, FieldError>
    ensures { Reads event_value result (event_of (items_view items.now)) }
{
    let Some((word, items)) = items.split_first() else {
        return Err(FieldError::Form);
    };
    match text_of(word)? {
        "tick" => Ok(Event::Tick(one_number(items)?)),
        "nanos" => Ok(Event::TickNanos(one_number(items)?)),
        "write" => {
            let (path, content) = path_and_bytes(alloc, items)?;
            Ok(Event::Write(path, content))
        }
        "link" => {
            let (path, target) = path_and_bytes(alloc, items)?;
            Ok(Event::Link(path, target))
        }
        "chmod" => read_chmod(alloc, items),
        "remove" => Ok(Event::Remove(one_path(alloc, items)?)),
        "stage" => Ok(Event::Stage(one_path(alloc, items)?)),
        "run" => read_run(items),
        _ => Err(FieldError::Form),
    }
}

/// Reads a number, the only item.
fn one_number(items: &[Value]) -> Result<u32, FieldError>
    ensures { Reads (λ n. n) result (number_in_one (items_view items.now)) }
{
    number_of(one_item(items).ok_or(FieldError::Form)?)
}

/// Reads a path, the only item.
fn one_path(alloc: Global, items: &[Value]) -> Result<BString, FieldError>
    ensures { Reads bstring_bytes result (path_in_one (items_view items.now)) }
{
    read_path(alloc, one_item(items).ok_or(FieldError::Form)?)
}

/// Reads a path and a text, the only items.
fn path_and_bytes(alloc: Global, items: &[Value]) -> Result<(BString, Vec<u8>), FieldError>
    ensures { Reads (λ both. (bstring_bytes both.0, both.1.items)) result (path_and_text_in (items_view items.now)) }
{
    let (path, text) = two_items(items).ok_or(FieldError::Form)?;
    Ok((read_path(alloc, path)?, read_bytes(alloc, text)?))
}

/// Reads a change of executability.
fn read_chmod(alloc: Global, items: &[Value]) -> Result<Event, FieldError>
    ensures { Reads event_value result (chmod_in (items_view items.now)) }
{
    let (path, executable) = two_items(items).ok_or(FieldError::Form)?;
    Ok(Event::SetExecutable(read_path(alloc, path)?, truth_of(executable)?))
}

/// Reads a run.
fn read_run(items: &[Value]) -> Result<Event, FieldError>
    ensures { Reads event_value result (run_in (items_view items.now)) }
{
    let ((comparer, chunk_size), (thread_limit, stamp)) = four_items(items).ok_or(
        FieldError::Form,
    )?;
    Ok(Event::Run {
        comparer: comparer_of(comparer)?,
        chunk_size: number_of(chunk_size)? as usize,
        thread_limit: limit_of(thread_limit)?,
        stamp: moment_of(stamp)?,
    })
}

/// Returns the only item.
#[tactic(auto, using(crate::proofs::Lengths::one_short, crate::proofs::Lengths::one_long))]
fn one_item(items: &[Value]) -> Option<&Value>
    ensures { option_map (λ v. view v.now) result ≡ one_of (items_view items.now) }
{
    let [item] = items else {
        return None;
    };
    Some(item)
}

/// Returns the only two items.
#[tactic(auto, using(crate::proofs::Lengths::two_short, crate::proofs::Lengths::two_long))]
fn two_items(items: &[Value]) -> Option<(&Value, &Value)>
    ensures { option_map (λ both. (view both.0.now, view both.1.now)) result ≡ two_of (items_view items.now) }
{
    let [first, second] = items else {
        return None;
    };
    Some((first, second))
}

/// Two pairs of values.
type Pairs<'v> = ((&'v Value, &'v Value), (&'v Value, &'v Value));

/// Returns the only four items.
#[tactic(auto, using(crate::proofs::Lengths::four_short, crate::proofs::Lengths::four_long))]
fn four_items(items: &[Value]) -> Option<Pairs<'_>>
    ensures { option_map (λ four. ((view four.0.0.now, view four.0.1.now), (view four.1.0.now, view four.1.1.now))) result ≡ four_of (items_view items.now) }
{
    let [first, second, third, fourth] = items else {
        return None;
    };
    Some(((first, second), (third, fourth)))
}

fn read_path(alloc: Global, value: &Value) -> Result<BString, FieldError>
    ensures { Reads bstring_bytes result (as_str (view value.now)) }
{
    Ok(BString::from_slice(alloc, text_of(value)?.as_bytes())?)
}

fn read_bytes(alloc: Global, value: &Value) -> Result<Vec<u8>, FieldError>
    ensures { Reads (λ bytes. bytes.items) result (as_str (view value.now)) }
{
    Ok(Vec::from_slice(alloc, text_of(value)?.as_bytes())?)
}
