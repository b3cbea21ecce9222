//! The replay of a profile's history.

ghost use Rattle.std.specs.Prelude.{◌≡◌, ◌⊎◌, ◌++◌, All, IfErr, IfOk, IfSome, OnOk, None, Some, take};
ghost use Rattle.std.specs.List.{flat_map};
ghost use Rattle.status_world.specs.Refusals.{start_refusal};
ghost use Rattle.status_world.specs.Reports.{HasSum, report_value};
ghost use Rattle.status_cli.specs.Printing.{IsPrinted};
ghost use Rattle.status_cli.specs.Replays.{IsHistoryPrinted, IsNoStart, IsReplayed, IsReplayFailed, IsReplayText, IsStopOf};
ghost use Rattle.status_cli.specs.Replays.{counted_up, event_count, replay_lines, reported_line, run_lines, start_of};

use crate::failure::Failure;
use crate::lines::{push_record, push_run, push_totals};
use crate::output::{print, read_all};
use gix_status::world::{Event, Report, World};
use status_profile::History;
use status_stored::{ReopenedReplay, Stop, replay_reopening};
use std::alloc::{AllocError, Global};
use std::io;
use std::sync::Wait;
use std::thread::Threads;

/// Reads a profile, replays its events, and prints for each run to `output` its number and a line for each record. With
/// the option `counts` a line of totals follows. `name` is the name of the profile's file.
///
/// Returns the exit status: 0, or 1 after a failure, which is one line on `faults` (none if `output` can't be written; then
/// nothing more is printed). Lines that were printed before it stay.
pub fn run_replay<R: AllocGlobal + Threads + Wait, I: io::Read, O: io::Write, E: io::Write>(
    rt: &R,
    name: &str,
    profile: &mut I,
    output: &mut O,
    faults: &mut E,
) -> u8
    ensures status { (result ≡ 0) ⊎ (result ≡ 1) }
    ensures printed { result ≡ 0 → IfSome (I.remaining profile.old) (λ text. IsReplayed text (O.contents output.old) (O.contents output.new)) }
    ensures failed { result ≡ 1 → IsReplayFailed (I.remaining profile.old) (O.contents output.old) (O.contents output.new)
        name.now (E.contents faults.old) (E.contents faults.new) }
    ensures quiet { result ≡ 0 → E.contents faults.new ≡ E.contents faults.old }
{
    match print_replay(rt, profile, output) {
        Ok(()) => 0,
        Err(failure) => failure.report(rt.alloc(), name, faults),
    }
}

fn print_replay<R: AllocGlobal + Threads + Wait, I: io::Read, O: io::Write>(
    rt: &R,
    profile: &mut I,
    output: &mut O,
) -> Result<(), Failure>
    ensures { IfSome (I.remaining profile.old) (λ text. IsReplayText text (O.contents output.old) result (O.contents output.new)) }
{
    let alloc = rt.alloc();
    let text = read_all(alloc, profile)?;
    let history = History::from_json(alloc, text.as_slice())?;
    print_history(rt, alloc, &history, output)
}

/// Replays a history's events, and prints the reports of its runs.
fn print_history<R: Threads + Wait, O: io::Write>(
    rt: &R,
    alloc: Global,
    history: &History,
    output: &mut O,
) -> Result<(), Failure>
    ensures { IsHistoryPrinted history.now (O.contents output.old) result (O.contents output.new) }
{
    let world = begin(alloc, history)?;
    let ReopenedReplay {
        reports,
        stopped,
        ..
    } = replay_reopening(rt, alloc, world, &history.stretches);
    print_reports(alloc, &reports, history.options.counts, output)?;
    match stopped {
        Some(stop) => Err(failure_of(stop, &history.stretches)),
        None => Ok(()),
    }
}

/// Returns why a replay of these stretches stopped, with a place in the profile's list of events.
fn failure_of(stop: Stop, stretches: &[Vec<Event>]) -> Failure
    ensures { IsStopOf stretches.now (Some stop) result }
{
    match stop {
        Stop::Event {
            stretch,
            at,
            refusal,
        } => Failure::of_event(refusal, first_place(stretches, stretch).saturating_add(at)),
        Stop::Opening { stretch, refusal } => {
            Failure::of_event(refusal, first_place(stretches, stretch).saturating_sub(1))
        }
        Stop::Reports { .. } => Failure::Memory,
    }
}

/// Returns the place of a stretch's first event in the profile's list, in which each reopening is an event too.
fn first_place(stretches: &[Vec<Event>], stretch: usize) -> usize
    ensures { result ≡ counted_up (event_count (take stretch stretches.now)) }
{
    let mut place: usize = 0;
    for events in &stretches[..stretch.min(stretches.len())] {
        place = place.saturating_add(events.len()).saturating_add(1);
    }
    place
}

/// Makes the world that a history starts with.
fn begin(alloc: Global, history: &History) -> Result<World, Failure>
    ensures ok { IfOk result (λ world. (start_refusal history.now.clock history.now.timestamp ≡ None) × (world ≡ start_of history.now)) }
    ensures err { IfErr result (λ failure. IsNoStart history.now failure) }
{
    let options = history.options;
    World::new(
        alloc,
        history.hash,
        history.clock,
        history.timestamp,
        options.stat,
        options.executable_bit,
    )
    .map_err(Failure::of_start)
}

/// Prints the reports of the runs, numbered from 1.
fn print_reports<O: io::Write>(
    alloc: Global,
    reports: &[Report],
    counts: bool,
    output: &mut O,
) -> Result<(), Failure>
    requires { All HasSum reports.now }
    ensures { IsPrinted (replay_lines counts reports.now) (O.contents output.old) result (O.contents output.new) }
{
    let text = lines_of(alloc, reports, counts)?;
    print(&text, output)
}

/// Returns the lines of the reports of the runs, numbered from 1.
fn lines_of(alloc: Global, reports: &[Report], counts: bool) -> Result<Vec<u8>, AllocError>
    requires { All HasSum reports.now }
    ensures { IfOk result (λ text. text.items ≡ replay_lines counts reports.now) }
{
    let mut text = Vec::new(alloc);
    for (at, report) in reports.iter().enumerate() {
        push_numbered(&mut text, alloc, at + 1, report, counts)?;
    }
    Ok(text)
}

/// Appends the lines of the report of a run, after that of its number.
fn push_numbered(
    text: &mut Vec<u8>,
    alloc: Global,
    run: usize,
    report: &Report,
    counts: bool,
) -> Result<(), AllocError>
    requires { HasSum report.now }
    ensures { OnOk result (text.new.items ≡ text.old.items ++ run_lines counts run report.now) }
{
    push_run(text, run)?;
    push_records(text, alloc, report)?;
    if counts {
        push_totals(text, &report.outcome)?;
    }
    Ok(())
}

/// Appends a line for each record of a run.
fn push_records(text: &mut Vec<u8>, alloc: Global, report: &Report) -> Result<(), AllocError>
    ensures { OnOk result (text.new.items ≡ text.old.items ++ flat_map reported_line (report_value report.now).records) }
{
    for record in &report.records {
        let (at, path) = (record.entry_index, record.path.as_bstr());
        push_record(text, alloc, at, path, &record.status)?;
    }
    Ok(())
}
