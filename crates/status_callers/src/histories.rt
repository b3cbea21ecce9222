//! Short forms for worlds and events.

use bstr::BString;
use gix_status::index::{HashKind, Moment, stat};
use gix_status::index_as_worktree::Error;
use gix_status::world::{Comparer, Event, Refusal, Replay, World, replay};
use std::alloc::{AllocError, Global};
use std::sync::Wait;
use std::thread::Threads;

/// The fields of `Event::Run`.
#[derive(Clone, Copy, Debug)]
pub struct Run {
    pub comparer: Comparer,
    pub chunk_size: usize,
    pub thread_limit: Option<usize>,
    pub stamp: Moment,
}

/// An event whose paths and contents haven't taken memory yet.
#[derive(Clone, Copy, Debug)]
pub enum Step {
    Tick(u32),
    Nanos(u32),
    Write(&'static str, &'static str),
    Link(&'static str, &'static str),
    Executable(&'static str, bool),
    Remove(&'static str),
    Stage(&'static str),
    Run(Run),
}

impl Step {
    /// Returns the event.
    pub fn event(self, alloc: Global) -> Result<Event, AllocError> {
        match self {
            Step::Tick(seconds) => Ok(Event::Tick(seconds)),
            Step::Nanos(nanoseconds) => Ok(Event::TickNanos(nanoseconds)),
            Step::Write(path, text) => write_of(alloc, path, text),
            Step::Link(path, target) => link_of(alloc, path, target),
            Step::Executable(path, executable) => {
                Ok(Event::SetExecutable(path_of(alloc, path)?, executable))
            }
            Step::Remove(path) => Ok(Event::Remove(path_of(alloc, path)?)),
            Step::Stage(path) => Ok(Event::Stage(path_of(alloc, path)?)),
            Step::Run(run) => Ok(Event::Run {
                comparer: run.comparer,
                chunk_size: run.chunk_size,
                thread_limit: run.thread_limit,
                stamp: run.stamp,
            }),
        }
    }
}

fn write_of(alloc: Global, path: &str, text: &str) -> Result<Event, AllocError> {
    let path = path_of(alloc, path)?;
    let bytes = bytes_of(alloc, text)?;
    Ok(Event::Write(path, bytes))
}

fn link_of(alloc: Global, path: &str, target: &str) -> Result<Event, AllocError> {
    let path = path_of(alloc, path)?;
    let bytes = bytes_of(alloc, target)?;
    Ok(Event::Link(path, bytes))
}

fn path_of(alloc: Global, path: &str) -> Result<BString, AllocError> {
    BString::from_slice(alloc, path)
}

fn bytes_of(alloc: Global, text: &str) -> Result<Vec<u8>, AllocError> {
    Vec::from_slice(alloc, text.as_bytes())
}

/// Returns the events, in order.
pub fn events(alloc: Global, steps: &[Step]) -> Result<Vec<Event>, AllocError> {
    let mut events = Vec::new(alloc);
    for step in steps {
        events.push(step.event(alloc)?)?;
    }
    Ok(events)
}

/// The options of a world: which parts of a stat count, and whether executability does.
#[derive(Clone, Copy, Debug)]
pub struct Setting {
    pub stat: stat::Options,
    pub executable_bit: bool,
}

/// Returns an empty world whose index was written at the time of its clock.
pub fn new_world(alloc: Global, clock: Moment, setting: Setting) -> Result<World, Refusal> {
    let Setting {
        stat,
        executable_bit,
    } = setting;
    World::new(alloc, HashKind::Sha1, clock, clock, stat, executable_bit)
}

/// Replays steps in such a world.
pub fn history_at<R: AllocGlobal + Threads + Wait>(
    rt: &R,
    clock: Moment,
    setting: Setting,
    steps: &[Step],
) -> Result<Replay, Refusal> {
    let world = new_world(rt.alloc(), clock, setting)?;
    go_on(rt, world, steps)
}

/// Replays further steps in a world.
///
/// # Errors
/// Returns `Refusal::Memory` if an allocation fails, also within an event: this isn't a result of the steps. Any other
/// refusal is in the replay.
pub fn go_on<R: AllocGlobal + Threads + Wait>(
    rt: &R,
    world: World,
    steps: &[Step],
) -> Result<Replay, Refusal> {
    let events = events(rt.alloc(), steps)?;
    let replayed = replay(rt, rt.alloc(), world, &events);
    match replayed.stopped {
        Some((_, Refusal::Memory | Refusal::Run(Error::Memory))) => Err(Refusal::Memory),
        _ => Ok(replayed),
    }
}
