//! Stores an index as text and loads it again, and replays stretches of events with that between them.

ghost use Rattle.std.specs.Prelude.{All, map, ◌≤◌, ◌≡◌, ◌<◌, IfErr, OnOk};
ghost use Rattle.status_stored.specs.Reopening.{IsReopenedReplay, IsExactIfReopened, IsOpeningRefusal};
ghost use Rattle.status_world.specs.Reports.{HasSum, report_value};
ghost use Rattle.status_world.specs.Sound.{IsFormed};
ghost use Rattle.serde_json.specs.Data.{depth};
ghost use Rattle.serde_json.specs.Read.{max_depth};
ghost use Rattle.serde_json.specs.View.{view};
ghost use Rattle.status_index.specs.States.{index_of, timestamp_of};
ghost use Rattle.status_stored.specs.RoundTrip.{IsReadAgain, IsRoundTrip};
ghost use Rattle.status_stored.specs.Storable.{IsStorableIndex};

use crate::error::{LoadError, ReopenError, StoreError};
use crate::store::{load_index, store_index};
use serde_json::Value;
use status_index::State;
use status_world::world::{Event, Refusal, Replay, Report, World, replay};
use std::alloc::Global;
use std::sync::Wait;
use std::thread::Threads;

/// Stores `state` as compact JSON text, and returns the index that is loaded from the text. It is the same index, but
/// bits of its flags that name no stage or flag are 0.
///
/// # Errors
/// Returns `NotUtf8` for the first entry whose path isn't UTF-8, and `Memory` if an allocation fails.
pub fn reopened(alloc: Global, state: &State) -> Result<State, ReopenError>
    ensures { IsRoundTrip (index_of state.now) (timestamp_of state.now) result }
{
    let stored = match store_index(alloc, state) {
        Ok(stored) => stored,
        Err(StoreError::NotUtf8 { at }) => return Err(ReopenError::NotUtf8 { at }),
        Err(StoreError::Memory) => return Err(ReopenError::Memory),
    };
    let parsed = match read_again(alloc, &stored) {
        Ok(parsed) => parsed,
        Err(refused) => return Err(refused),
    };
    match load_index(alloc, &parsed) {
        Ok(state) => Ok(state),
        Err(LoadError::Form) => Err(ReopenError::Unreadable),
        Err(LoadError::Index(_)) => Err(ReopenError::Unreadable),
        Err(LoadError::Memory) => Err(ReopenError::Memory),
    }
}

/// Returns the value that is parsed from a value's compact text.
fn read_again(alloc: Global, value: &Value) -> Result<Value, ReopenError>
    ensures { depth (view value.now) ≤ max_depth → IsReadAgain (view value.now) result }
{
    let Ok(text) = value.to_string(alloc) else {
        return Err(ReopenError::Memory);
    };
    match Value::from_str(alloc, text.as_str()) {
        Ok(parsed) => Ok(parsed),
        Err(refused) if refused.is_memory() => Err(ReopenError::Memory),
        Err(_) => Err(ReopenError::Unreadable),
    }
}

/// Stores the index of a world, writes it as text, parses and loads that, and opens the loaded index in the world. The
/// world's value is unchanged, also on an error.
///
/// # Errors
/// Returns `OtherIndex` if a path isn't UTF-8 or the loaded index differs. Only the first happens in a formed world.
/// Returns `Memory` if an allocation fails.
fn open_again(alloc: Global, world: &mut World) -> Result<(), Refusal>
    ensures kept { world.new ≡ world.old }
    ensures storable { OnOk result (IsStorableIndex world.old.entries world.old.timestamp) }
    ensures refused { IfErr result (IsOpeningRefusal world.old) }
{
    let index = match reopened(alloc, world.index()) {
        Ok(index) => index,
        Err(ReopenError::Memory) => return Err(Refusal::Memory),
        Err(ReopenError::NotUtf8 { .. }) => return Err(Refusal::OtherIndex),
        Err(ReopenError::Unreadable) => return Err(Refusal::OtherIndex),
    };
    world.reopen(index)
}

/// Does the same before a stretch of events, unless it is the first.
pub(crate) fn open_before(alloc: Global, world: &mut World, stretch: usize) -> Result<(), Refusal>
    ensures kept { world.new ≡ world.old }
    ensures storable { OnOk result (0 < stretch → IsStorableIndex world.old.entries world.old.timestamp) }
    ensures refused { IfErr result (IsOpeningRefusal world.old) }
    ensures later { IfErr result (λ _. 0 < stretch) }
{
    if stretch == 0 {
        return Ok(());
    }
    open_again(alloc, world)
}

/// Applies the events of these stretches in order, up to the first that is refused. Between two stretches the index is
/// stored, written as text, parsed, loaded, and opened again in the world.
///
/// **Storing an index and opening it again changes nothing**: the reports and the world are those of a
/// [`replay`](status_world::world::replay) of all the events without a reopening. So no change is missed if the world's
/// index can be trusted and contents with equal ids are equal.
pub fn replay_reopening<R: Threads + Wait>(
    rt: &R,
    alloc: Global,
    world: World,
    stretches: &[Vec<Event>],
) -> ReopenedReplay
    ensures replay { IsReopenedReplay world stretches.now result.world (map report_value result.reports.items) result.stopped }
    ensures formed { IsFormed world → IsFormed result.world }
    ensures exact { IsFormed world → IsExactIfReopened world stretches.now result.world (map report_value result.reports.items) result.stopped }
    ensures sums { All HasSum result.reports.items }
{
    replay_stretches(rt, alloc, world, stretches)
}

/// Does the same, stretch by stretch.
fn replay_stretches<R: Threads + Wait>(
    rt: &R,
    alloc: Global,
    world: World,
    stretches: &[Vec<Event>],
) -> ReopenedReplay
    ensures replay { IsReopenedReplay world stretches.now result.world (map report_value result.reports.items) result.stopped }
    ensures formed { IsFormed world → IsFormed result.world }
    ensures sums { All HasSum result.reports.items }
{
    let mut world = world;
    let mut reports = Vec::new(alloc);
    for (stretch, events) in stretches.iter().enumerate() {
        if let Err(refusal) = open_before(alloc, &mut world, stretch) {
            return ReopenedReplay {
                world,
                reports,
                stopped: Some(Stop::Opening { stretch, refusal }),
            };
        }
        let Replay {
            world: next,
            reports: mut more,
            stopped,
        } = replay(rt, alloc, world, events);
        world = next;
        if reports.append(&mut more).is_err() {
            return ReopenedReplay {
                world,
                reports,
                stopped: Some(Stop::Reports { stretch }),
            };
        }
        if let Some((at, refusal)) = stopped {
            let stopped = Some(Stop::Event {
                stretch,
                at,
                refusal,
            });
            return ReopenedReplay {
                world,
                reports,
                stopped,
            };
        }
    }
    ReopenedReplay {
        world,
        reports,
        stopped: None,
    }
}

/// Why a replay ended before its last event.
#[derive(Debug, Drop)]
pub enum Stop {
    /// An event was refused. No later event was applied.
    Event {
        /// The event's stretch.
        stretch: usize,
        /// The event's position in the stretch.
        at: usize,
        /// Why it was refused.
        refusal: Refusal,
    },
    /// The index couldn't be opened again before a stretch. No event of the stretch was applied.
    Opening {
        /// The stretch.
        stretch: usize,
        /// [`Refusal::Memory`], or [`Refusal::OtherIndex`] if a path isn't UTF-8.
        refusal: Refusal,
    },
    /// An allocation failed for the reports of a stretch. They are lost, although the stretch's events were applied, up
    /// to the first that was refused, if any.
    Reports {
        /// The stretch.
        stretch: usize,
    },
}

/// The result of a replay with reopenings.
#[derive(Drop)]
pub struct ReopenedReplay {
    /// The world after the accepted events.
    pub world: World,
    /// The reports of the runs, in order.
    pub reports: Vec<Report>,
    /// Why the replay ended before its last event, if it did.
    pub stopped: Option<Stop>,
}
