//! Applies an event, and replays a list of events. The events that move the clock are here.

ghost use Rattle.std.specs.Prelude.{All, IfErr, IfOk, IfSome, [], ◌∷◌, map};
ghost use Rattle.status_world.specs.EventAnswers.{IsApplied, IsExactEvent, IsListStep, IsChanged};
ghost use Rattle.status_world.specs.History.{HasDistinctContents, IsReplay, IsExactIfSound};
ghost use Rattle.status_world.specs.Refusals.{IsNoRunFault};
ghost use Rattle.status_world.specs.Reports.{HasSum, report_value};
ghost use Rattle.status_world.specs.Sound.{IsFormed, IsSound};
ghost use Rattle.status_world.specs.declared.world.event.Event.TheVariants.{Tick, TickNanos};

use crate::world::event::{Event, Refusal, Run};
use crate::world::run::{Replay, Report};
use crate::world::state::{NANOSECONDS, World};
use status_index::Moment;
use std::alloc::Global;
use std::sync::Wait;
use std::thread::Threads;

impl World {
    /// Applies an event. Returns a report for a run, and None for other events.
    ///
    /// A run reports a change of exactly the paths that were staged and now differ. This holds in a world that
    /// [`World::new`] returned and events changed, if contents with equal ids are equal.
    ///
    /// # Errors
    /// Returns why the event is refused. The world is then unchanged.
    pub fn apply<R: Threads + Wait>(
        &mut self,
        rt: &R,
        event: &Event,
    ) -> Result<Option<Report>, Refusal>
        ensures applied { IsApplied event.now self.old result self.new }
        ensures sum { IfOk result (λ r. IfSome r HasSum) }
        ensures formed { IsFormed self.old → IsFormed self.new }
        ensures causes { IsFormed self.old → IfErr result IsNoRunFault }
        ensures exact { IsFormed self.old → IsSound self.old
            → HasDistinctContents self.old (event.now ∷ []) → IsExactEvent self.old result self.new }
    {
        self.apply_by_kind(rt, event)
    }

    /// Applies an event, by its kind.
    fn apply_by_kind<R: Threads + Wait>(
        &mut self,
        rt: &R,
        event: &Event,
    ) -> Result<Option<Report>, Refusal>
        ensures applied { IsApplied event.now self.old result self.new }
        ensures sum { IfOk result (λ r. IfSome r HasSum) }
    {
        match event {
            Event::Tick(seconds) => self.tick(*seconds)?,
            Event::TickNanos(nanoseconds) => self.tick_nanos(*nanoseconds)?,
            Event::Write(path, bytes) => self.write(path, bytes)?,
            Event::Link(path, target) => self.link(path, target)?,
            Event::SetExecutable(path, executable) => self.set_executable(path, *executable)?,
            Event::Remove(path) => self.remove(path)?,
            Event::Stage(path) => self.stage(path)?,
            Event::Run {
                comparer,
                chunk_size,
                thread_limit,
                stamp,
            } => {
                let run = Run {
                    comparer: *comparer,
                    chunk_size: *chunk_size,
                    thread_limit: *thread_limit,
                    stamp: *stamp,
                };
                return Ok(Some(self.run(rt, &run)?));
            }
        }
        Ok(None)
    }

    /// Applies one event of a list, and appends the report of a run. Room for the report is allocated before the run.
    pub(crate) fn step<R: Threads + Wait>(
        &mut self,
        rt: &R,
        reports: &mut Vec<Report>,
        event: &Event,
    ) -> Result<(), Refusal>
        ensures step { IsListStep event.now self.old (map report_value reports.old.items) result self.new (map report_value reports.new.items) }
        ensures sums { All HasSum reports.old.items → All HasSum reports.new.items }
    {
        if let Event::Run { .. } = event {
            reports.reserve(1)?;
            let Some(report) = self.apply_by_kind(rt, event)? else {
                unreachable!();
            };
            reports.push_reserved(report);
            return Ok(());
        }
        self.apply_by_kind(rt, event)?;
        Ok(())
    }
}

/// Applies the events in order, up to the first that is refused.
///
/// **No change is missed**: each run reports a change of exactly the staged paths that differ. A staged path differs if
/// nothing is there, or in kind, in bytes or, if it counts, in executability. This holds if contents with equal ids are
/// equal and the world's index can be trusted, as in a world that [`World::new`] returned and events changed.
pub fn replay<R: Threads + Wait>(rt: &R, alloc: Global, world: World, events: &[Event]) -> Replay
    ensures replay { IsReplay world events.now result.world (map report_value result.reports.items) result.stopped }
    ensures formed { IsFormed world → IsFormed result.world }
    ensures causes { IsFormed world → IfSome result.stopped (λ stop. IsNoRunFault stop.1) }
    ensures exact { IsFormed world → IsExactIfSound world events.now result.world (map report_value result.reports.items) result.stopped }
    ensures sums { All HasSum result.reports.items }
{
    let mut world = world;
    let mut reports = Vec::new(alloc);
    for (place, event) in events.iter().enumerate() {
        if let Err(refusal) = world.step(rt, &mut reports, event) {
            return Replay {
                world,
                reports,
                stopped: Some((place, refusal)),
            };
        }
    }
    Replay {
        world,
        reports,
        stopped: None,
    }
}

impl World {
    /// Advances the clock by this number of seconds.
    pub(crate) fn tick(&mut self, seconds: u32) -> Result<(), Refusal>
        ensures { IsChanged (Tick seconds) self.old result self.new }
    {
        let Moment { secs, nsecs } = self.parts.clock;
        let Some(secs) = secs.checked_add(seconds) else {
            return Err(Refusal::ClockEnd);
        };
        self.parts.clock = Moment { secs, nsecs };
        Ok(())
    }

    /// Advances the clock by this number of nanoseconds.
    pub(crate) fn tick_nanos(&mut self, nanoseconds: u32) -> Result<(), Refusal>
        ensures { IsChanged (TickNanos nanoseconds) self.old result self.new }
    {
        let Moment { secs, nsecs } = self.parts.clock;
        let nsecs = u64::from(nsecs) + u64::from(nanoseconds);
        let carry = (nsecs / u64::from(NANOSECONDS)) as u32;
        let Some(secs) = secs.checked_add(carry) else {
            return Err(Refusal::ClockEnd);
        };
        self.parts.clock = Moment {
            secs,
            nsecs: (nsecs % u64::from(NANOSECONDS)) as u32,
        };
        Ok(())
    }
}
