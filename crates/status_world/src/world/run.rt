//! Runs a status in a world: its report, and the result of a replay.

ghost use Rattle.std.specs.Prelude.{◌≡◌, false, IfOk, map};
ghost use Rattle.status_world.specs.Events.{run_event};
ghost use Rattle.status_world.specs.EventAnswers.{IsRunReport, IsRunApplied};
ghost use Rattle.status_world.specs.Reports.{HasSum, changes_in, reported_value, record_value, report_value};
ghost use Rattle.status_world.specs.StampedWorld.{after_event, report_of};

use crate::world::event::{Refusal, Run};
use crate::world::state::{NANOSECONDS, World};
use bstr::BString;
use status_base::worktree::AllPaths;
use status_call::index_as_worktree::{
    ApplyChange, Capabilities, EntryStatus, Options, Outcome, Record, Recorder, apply_changes,
    index_as_worktree_with_defaults,
};
use status_index::ObjectId;
use std::alloc::{AllocError, Global};
use std::sync::Wait;
use std::thread::Threads;

impl World {
    /// Runs a status, and stores the changes that it asks for in the index.
    pub(crate) fn run<R: Threads + Wait>(&mut self, rt: &R, run: &Run) -> Result<Report, Refusal>
        ensures applied { IsRunApplied run.now self.old result self.new }
        ensures sum { IfOk result HasSum }
    {
        if run.stamp.nsecs >= NANOSECONDS {
            return Err(Refusal::BadMoment);
        }
        if run.stamp > self.parts.clock {
            return Err(Refusal::StampLater);
        }
        let report = self.report(rt, run)?;
        let changes = report.changes()?;
        self.store(run, &changes);
        Ok(report)
    }

    /// Stores the changes that a run asks for in the index, and the index's new timestamp.
    fn store(&mut self, run: &Run, changes: &[ApplyChange])
        requires { changes.now ≡ changes_in (report_of self.old run.now.comparer).records }
        ensures { self.new ≡ after_event (run_event run.now) self.old }
    {
        let index = &mut self.parts.index;
        apply_changes(index, changes);
        index.set_timestamp(run.stamp);
    }

    /// Returns the report of a status run, which doesn't change the world.
    ///
    /// # Errors
    /// Returns the status's error as `Refusal::Run`, and `Refusal::Memory` if an allocation fails.
    fn report<R: Threads + Wait>(&self, rt: &R, run: &Run) -> Result<Report, Refusal>
        ensures report { IsRunReport run.now self.now result }
        ensures sum { IfOk result HasSum }
    {
        let parts = &self.parts;
        let options = Options {
            fs: Capabilities {
                symlink: true,
                executable_bit: parts.executable_bit,
            },
            thread_limit: run.thread_limit,
            stat: parts.stat,
            fscache: false,
            chunk_size: run.chunk_size,
        };
        let mut recorder = Recorder::new(parts.alloc);
        let status = index_as_worktree_with_defaults(
            rt,
            parts.alloc,
            &parts.index,
            &parts.worktree,
            &mut recorder,
            run.comparer,
            AllPaths,
            options,
        );
        match status {
            Ok(outcome) => Ok(Report {
                records: owned_records(parts.alloc, recorder)?,
                outcome,
            }),
            Err(error) => Err(Refusal::Run(error)),
        }
    }
}

/// The records of a recorder, with paths of their own.
fn owned_records(
    alloc: Global,
    recorder: Recorder<'_, Option<ObjectId>, ()>,
) -> Result<Vec<ReportRecord>, AllocError>
    ensures { IfOk result (λ records. map reported_value records.items ≡ map record_value recorder.entry.records.items) }
{
    let mut owned = Vec::with_capacity(alloc, recorder.records.len())?;
    for record in recorder.records {
        owned.push(owned_record(alloc, record)?)?;
    }
    Ok(owned)
}

/// A record with a path of its own.
fn owned_record(
    alloc: Global,
    reported: Record<'_, Option<ObjectId>, ()>,
) -> Result<ReportRecord, AllocError>
    ensures { IfOk result (λ owned. reported_value owned ≡ record_value reported.entry) }
{
    let Record {
        entry_index,
        relative_path,
        status,
        ..
    } = reported;
    Ok(ReportRecord {
        entry_index,
        path: BString::from_slice(alloc, relative_path.as_bytes())?,
        status,
    })
}

/// A run's record of one entry. If contents are compared by ids alone, a change of content has the new id.
#[derive(Debug, Drop)]
pub struct ReportRecord {
    /// The entry's position in the index.
    pub entry_index: usize,
    /// The entry's path.
    pub path: BString,
    /// The entry's status.
    pub status: EntryStatus<Option<ObjectId>, ()>,
}

/// The report of a run: its records in the order of the index, and its counts.
#[derive(Debug, Drop)]
pub struct Report {
    /// The records.
    pub records: Vec<ReportRecord>,
    /// The counts.
    pub outcome: Outcome,
}

impl Report {
    /// Returns the changes of the index that the run asks for.
    ///
    /// # Errors
    /// Returns an error if an allocation fails.
    pub(crate) fn changes(&self) -> Result<Vec<ApplyChange>, AllocError>
        ensures { IfOk result (λ changes. changes.items ≡ changes_in (report_value self.now).records) }
    {
        let mut changes = Vec::new(*self.records.allocator());
        for record in &self.records {
            if let Some(change) = record.status.apply_change(record.entry_index) {
                changes.push(change)?;
            }
        }
        Ok(changes)
    }
}

/// The result of a replay.
#[derive(Drop)]
pub struct Replay {
    /// The world after the accepted events.
    pub world: World,
    /// The reports of the runs, in order.
    pub reports: Vec<Report>,
    /// The position of the event that was refused, if any, and why. No later event was applied.
    pub stopped: Option<(usize, Refusal)>,
}
