//! The commands over outputs that fail, or take few bytes at a call.

use crate::tests::outputs::{Fault, Output};
use status_cli::{run_replay, run_status};
use std::alloc::{AllocError, Global};
use std::io::{ErrorKind, Write};
use std::rt::Files;
use std::sync::Wait;
use std::test::Fail;
use std::thread::Threads;

/// A command that prints to its output.
#[derive(Clone, Copy)]
enum Command {
    Status,
    Replay,
}

/// A command, its profile, and what it prints.
type Row = (Command, &'static str, &'static str);

const PLAIN: Row = (
    Command::Status,
    r#"{"timestamp":[9,0],"options":{"counts":true},"index":[
{"path":"a","id":"19102815663d23f8b75a47e7a01965dcdc96468c"},
{"path":"c","id":"19102815663d23f8b75a47e7a01965dcdc96468c"}],"worktree":[{"path":"a","text":"bars"}]}"#,
    concat!(
        "0 modified -c- \"a\"\n1 removed \"c\"\n",
        "total: to process 2, processed 2, skipped 0, lstat 2, to update 0, racy 0, read 1, bytes 4\n",
    ),
);

const JOINED: Row = (
    Command::Status,
    r#"{"timestamp":[9,0],"options":{"counts":true,"untracked":true,"renames":true,"sort":true},
"index":[
{"path":"a","id":"19102815663d23f8b75a47e7a01965dcdc96468c","size":3,"mtime":[5,0]},
{"path":"m","id":"19102815663d23f8b75a47e7a01965dcdc96468c","size":3,"mtime":[5,0]}],
"worktree":[
{"path":"b","text":"foo","mtime":[7,0]},
{"path":"c","text":"foo","mtime":[7,0]},
{"path":"m","text":"bars","mtime":[7,0]}]}"#,
    concat!(
        "- renamed \"a\" \"b\"\n- added \"c\"\n1 modified -c- \"m\"\n",
        "total: to process 2, processed 2, skipped 0, lstat 2, to update 0, racy 0, read 1, bytes 4\n",
    ),
);

const REPLAYED: Row = (
    Command::Replay,
    r#"{"clock":5,"timestamp":5,"options":{"counts":true},
"events":[["write","a","foo"],["stage","a"],["tick",1],["write","a","bars"],["run","hash",0,null,6],
["tick",1],["remove","a"],["run","hash",1,2,7]]}"#,
    concat!(
        "run 1\n0 modified -c- \"a\"\n",
        "total: to process 1, processed 1, skipped 0, lstat 1, to update 0, racy 0, read 1, bytes 4\n",
        "run 2\n0 removed \"a\"\n",
        "total: to process 1, processed 1, skipped 0, lstat 1, to update 0, racy 0, read 0, bytes 0\n",
    ),
);

static ROWS: [Row; 3] = [PLAIN, JOINED, REPLAYED];

/// Runs a command over a profile, and returns whether it ends with this exit status and writes nothing to standard
/// error.
fn is_quiet<R: AllocGlobal + Files + Sync + Threads + Wait, O: Write>(
    rt: &R,
    command: Command,
    mut profile: &[u8],
    output: &mut O,
    status: u8,
) -> bool
where
    R::File: Send,
    R::Dir: Send,
{
    let mut faults = Vec::new(rt.alloc());
    let ended = match command {
        Command::Status => run_status(rt, "f", &mut profile, output, &mut faults),
        Command::Replay => run_replay(rt, "f", &mut profile, output, &mut faults),
    };
    ended == status && faults.is_empty()
}

/// Returns whether a command prints its whole text to this output, and succeeds.
fn is_whole<R: AllocGlobal + Files + Sync + Threads + Wait>(
    rt: &R,
    row: &Row,
    mut output: Output,
) -> bool
where
    R::File: Send,
    R::Dir: Send,
{
    let (command, profile, text) = *row;
    is_quiet(rt, command, profile.as_bytes(), &mut output, 0)
        && output.taken.as_slice() == text.as_bytes()
}

/// Returns whether a command whose output has this fault after so many bytes fails without a word, and prints nothing
/// more.
fn is_cut<R: AllocGlobal + Files + Sync + Threads + Wait>(
    rt: &R,
    row: &Row,
    before: usize,
    fault: Fault,
) -> bool
where
    R::File: Send,
    R::Dir: Send,
{
    let (command, profile, text) = *row;
    let mut output = Output::faulty(rt.alloc(), before, fault);
    is_quiet(rt, command, profile.as_bytes(), &mut output, 1)
        && output.fault.is_none()
        && Some(output.taken.as_slice()) == text.as_bytes().get(..before)
}

#[test]
fn each_command_prints_its_text(rt: HostRuntime) {
    for (command, profile, text) in &ROWS {
        let mut output = Vec::new(rt.alloc());
        assert!(rt;
            is_quiet(&rt, *command, profile.as_bytes(), &mut output, 0),
            "{text}"
        );
        assert_eq!(rt; output.as_slice(), text.as_bytes(), "{text}");
    }
}

#[test]
fn a_write_that_is_interrupted_is_made_again(rt: HostRuntime) {
    let fault = Fault::Fails(ErrorKind::Interrupted);
    for row in &ROWS {
        for before in [0, 1, 20, row.2.len().saturating_sub(1)] {
            let output = Output::faulty(rt.alloc(), before, fault);
            assert!(rt; is_whole(&rt, row, output), "{before} of {}", row.2);
        }
    }
}

#[test]
fn an_output_that_takes_one_byte_at_a_time_gets_all(rt: HostRuntime) {
    for row in &ROWS {
        assert!(rt;
            is_whole(&rt, row, Output::of_bytes(rt.alloc())),
            "{}",
            row.2
        );
    }
}

// A full disk fails by `StorageFull`.
static FAULTS: [Fault; 5] = [
    Fault::Fails(ErrorKind::Other),
    Fault::Fails(ErrorKind::WouldBlock),
    Fault::Fails(ErrorKind::BrokenPipe),
    Fault::Fails(ErrorKind::StorageFull),
    Fault::TakesNothing,
];

#[test]
fn a_command_whose_output_fails_ends_without_a_word(rt: HostRuntime) {
    for row in &ROWS {
        for before in [0, 1, 20, row.2.len().saturating_sub(1)] {
            for fault in &FAULTS {
                assert!(rt; is_cut(&rt, row, before, *fault), "{before} of {}", row.2);
            }
        }
    }
}

/// The number of entries of a long profile.
const MANY: usize = 1000;

/// Returns a profile of many entries whose files are gone, with these options.
fn long_profile(alloc: Global, options: &str) -> Result<String, AllocError> {
    let mut text = format!(in alloc; "{{\"timestamp\":[9,0],\"options\":{options},\"index\":[")?;
    for place in 0..MANY {
        let comma = if place == 0 { "" } else { "," };
        let id = "19102815663d23f8b75a47e7a01965dcdc96468c";
        let entry = format!(in alloc; "{comma}{{\"path\":\"{place:04}\",\"id\":\"{id}\"}}")?;
        text.push_str(entry.as_str())?;
    }
    text.push_str("],\"worktree\":[]}")?;
    Ok(text)
}

/// Returns the lines of that profile.
fn long_text(alloc: Global) -> Result<String, AllocError> {
    let mut text = String::new(alloc);
    for place in 0..MANY {
        let line = format!(in alloc; "{place} removed \"{place:04}\"\n")?;
        text.push_str(line.as_str())?;
    }
    Ok(text)
}

static OPTIONS: [&str; 2] = ["{}", "{\"sort\":true}"];

#[test]
fn many_lines_are_written_by_one_call(rt: HostRuntime) -> Result<(), Fail> {
    let text = long_text(rt.alloc())?;
    assert_eq!(rt; text.len(), 18_890);
    for options in &OPTIONS {
        let profile = long_profile(rt.alloc(), *options)?;
        let mut output = Output::new(rt.alloc());
        assert!(rt; is_quiet(&rt, Command::Status, profile.as_bytes(), &mut output, 0));
        assert_eq!(rt; output.taken.as_slice(), text.as_bytes(), "{options}");
        assert_eq!(rt; output.calls, 1, "{options}");
    }
    Ok(())
}

// The output takes this many bytes of the text, and then fails.
#[test]
fn after_a_write_that_fails_no_later_line_is_written(rt: HostRuntime) -> Result<(), Fail> {
    let text = long_text(rt.alloc())?;
    for options in &OPTIONS {
        let profile = long_profile(rt.alloc(), *options)?;
        for before in [0, 5_000, 10_000, 18_889] {
            let fault = Fault::Fails(ErrorKind::Other);
            let mut output = Output::faulty(rt.alloc(), before, fault);
            assert!(rt; is_quiet(&rt, Command::Status, profile.as_bytes(), &mut output, 1));
            assert!(rt;
                Some(output.taken.as_slice()) == text.as_bytes().get(..before),
                "{before} with {options}"
            );
        }
    }
    Ok(())
}
