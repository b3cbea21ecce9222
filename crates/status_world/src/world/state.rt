//! A world: its fields, and how it begins.

ghost use Rattle.std.specs.Prelude.{◌≡◌, None, IfOk, IfErr, Some};
ghost use Rattle.status_world.specs.Refusals.{start_refusal};
ghost use Rattle.status_index.specs.States.{index_of, timestamp_of};
ghost use Rattle.status_world.specs.Sound.{IsFormed, IsSound};
ghost use Rattle.status_world.specs.StampedWorld.{empty_world};

use crate::world::event::Refusal;
use crate::world::staging::StagedFiles;
use status_base::worktree::MemoryWorktree;
use status_index::{HashKind, Moment, State, stat};
use std::alloc::Global;
use std::marker::Model;

/// The fields of a world.
#[derive(Drop)]
pub(crate) struct Parts {
    pub(crate) alloc: Global,
    pub(crate) kind: HashKind,
    pub(crate) stat: stat::Options,
    pub(crate) executable_bit: bool,
    pub(crate) clock: Moment,
    pub(crate) worktree: MemoryWorktree,
    pub(crate) index: State,
    pub(crate) staged: StagedFiles,
}

/// A worktree in memory, its index and a clock, which events change.
#[derive(Drop)]
pub struct World {
    pub(crate) parts: Parts,
}

impl Model for World {
    ghost use Rattle.status_world.specs.StampedWorld.{StampedWorld};
    ghost use Rattle.status_world.specs.Worlds.{world_code, world_of};

    ghost Value = { StampedWorld };

    ghost coded = { world_code };

    ghost view = { λ w. world_of w.parts };
}

impl World {
    /// Returns a world without files, with a clock and an empty index that was written at `timestamp`. `kind` is the
    /// kind of ids, `stat` the parts of stats that have to be equal, and `executable_bit` whether executability counts.
    ///
    /// # Errors
    /// Returns `BadMoment` if `clock` or `timestamp` has 1,000,000,000 nanoseconds or more, and otherwise `StampLater`
    /// if `timestamp` is after `clock`.
    pub fn new(
        alloc: Global,
        kind: HashKind,
        clock: Moment,
        timestamp: Moment,
        stat: stat::Options,
        executable_bit: bool,
    ) -> Result<World, Refusal>
        ensures ok { IfOk result (λ w. (start_refusal clock timestamp ≡ None) × (w ≡ empty_world kind stat executable_bit clock timestamp)) }
        ensures sound { IfOk result (λ w. IsFormed w × IsSound w) }
        ensures err { IfErr result (λ r. start_refusal clock timestamp ≡ Some r) }
    {
        match start_refusal(clock, timestamp) {
            Some(refusal) => Err(refusal),
            None => Ok(World {
                parts: Parts {
                    alloc,
                    kind,
                    stat,
                    executable_bit,
                    clock,
                    worktree: MemoryWorktree::new(alloc),
                    index: State::new(alloc, timestamp),
                    staged: StagedFiles::new(alloc),
                },
            }),
        }
    }

    /// Returns the clock.
    pub fn clock(&self) -> Moment
        ensures { result ≡ self.now.clock }
    {
        self.parts.clock
    }

    /// Returns the index.
    pub fn index(&self) -> &State
        ensures entries { (index_of result.now) ≡ self.now.entries }
        ensures timestamp { timestamp_of result.now ≡ self.now.timestamp }
    {
        &self.parts.index
    }

    /// Returns the worktree.
    pub fn worktree(&self) -> &MemoryWorktree
        ensures { result.now ≡ self.now.tree }
    {
        &self.parts.worktree
    }
}

/// The number of nanoseconds in a second.
pub(crate) const NANOSECONDS: u32 = 1_000_000_000;

/// Returns why a world can't begin with this clock and timestamp, or None if it can.
fn start_refusal(clock: Moment, timestamp: Moment) -> Option<Refusal>
    ensures { result ≡ start_refusal clock timestamp }
{
    if clock.nsecs >= NANOSECONDS || timestamp.nsecs >= NANOSECONDS {
        return Some(Refusal::BadMoment);
    }
    if timestamp > clock {
        return Some(Refusal::StampLater);
    }
    None
}
