//! The program: its arguments, the files that it reads and writes, and how it is called.
#![tactic(auto)]

use status_cli::{Failure, run_refresh, run_replay, run_status, write_whole};
use std::convert::AsStr;
use std::process::ExitCode;
use std::rt::{Env, Files};
use std::sync::Wait;
use std::thread::Threads;
use std::{env, fs, io};

const USAGE: &str = "usage: status_program status FILE | replay FILE | refresh FILE OUT SECS NSECS";

/// The greatest number of nanoseconds of a moment.
const MAX_NANOSECONDS: u32 = 999_999_999;

/// What to do with a profile.
#[derive(Drop)]
enum Command<W> {
    /// Print its status.
    Status,
    /// Replay its events.
    Replay,
    /// Refresh its index, which gets this timestamp, and write the profile to the file `out`.
    Refresh { out: W, secs: u32, nsecs: u32 },
}

fn main(rt: HostRuntime) -> ExitCode {
    ExitCode::from(run(&rt, &mut rt.stderr()))
}

/// Runs the command in the program's arguments, and returns the exit status.
fn run<R: AllocGlobal + Env + Files + Print + Sync + Threads + Wait, E: io::Write>(
    rt: &R,
    faults: &mut E,
) -> u8
where
    R::File: Send,
    R::Dir: Send,
{
    match env::args(rt) {
        Ok(arguments) => run_command(rt, arguments.skip(1), faults),
        Err(error) if error.kind() == io::ErrorKind::OutOfMemory => {
            Failure::Memory.report(rt.alloc(), "", faults)
        }
        Err(_) => print_usage(faults),
    }
}

/// Runs the command in these words, and returns the exit status.
fn run_command<
    R: AllocGlobal + Files + Print + Sync + Threads + Wait,
    W: AsStr + Drop,
    I: Iterator<Item = W>,
    E: io::Write,
>(rt: &R, words: I, faults: &mut E) -> u8
where
    R::File: Send,
    R::Dir: Send,
    requires { I.can_next words }
{
    match command_of(words) {
        Some((command, file)) => run_on_file(rt, command, file.as_str(), faults),
        None => print_usage(faults),
    }
}

/// Returns the command in these words, and the name of its profile's file. None if they aren't a command's words.
fn command_of<W: AsStr + Drop, I: Iterator<Item = W>>(mut words: I) -> Option<(Command<W>, W)>
    requires { I.can_next words }
{
    let word = words.next()?;
    let file = words.next()?;
    let command = match word.as_str() {
        "status" => Command::Status,
        "replay" => Command::Replay,
        "refresh" => Command::Refresh {
            out: words.next()?,
            secs: number_of(words.next()?.as_str(), u32::MAX)?,
            nsecs: number_of(words.next()?.as_str(), MAX_NANOSECONDS)?,
        },
        _ => return None,
    };
    words.next().is_none().then_some((command, file))
}

/// Returns the number in these decimal digits if it is at most `max`.
fn number_of(digits: &str, max: u32) -> Option<u32> {
    if !digits.bytes().all(|digit| digit.is_ascii_digit()) {
        return None;
    }
    let number: u32 = digits.parse().ok()?;
    (number <= max).then_some(number)
}

/// Prints the usage, and returns the exit status 2.
fn print_usage<E: io::Write>(faults: &mut E) -> u8 {
    // If the line can't be written, there is nowhere left to report that.
    let _ = writeln!(faults, "{USAGE}");
    2
}

/// Runs a command on the profile in this file, and returns the exit status.
fn run_on_file<
    R: AllocGlobal + Files + Print + Sync + Threads + Wait,
    W: AsStr + Drop,
    E: io::Write,
>(rt: &R, command: Command<W>, file: &str, faults: &mut E) -> u8
where
    R::File: Send,
    R::Dir: Send,
{
    let mut profile = match fs::open(rt, file) {
        Ok(profile) => profile,
        Err(error) => return Failure::of_reading(error).report(rt.alloc(), file, faults),
    };
    let mut output = io::writer(rt);
    match command {
        Command::Status => run_status(rt, file, &mut profile, &mut output, faults),
        Command::Replay => run_replay(rt, file, &mut profile, &mut output, faults),
        Command::Refresh { out, secs, nsecs } => {
            let mut refreshed = Vec::new(rt.alloc());
            let status = run_refresh(
                rt,
                file,
                secs,
                nsecs,
                &mut profile,
                &mut output,
                faults,
                &mut refreshed,
            );
            match status {
                0 => write_refreshed(rt, out.as_str(), &refreshed, faults),
                failed => failed,
            }
        }
    }
}

/// Writes a refreshed profile to the file of this name, and returns the exit status.
fn write_refreshed<R: AllocGlobal + Files, E: io::Write>(
    rt: &R,
    out: &str,
    text: &[u8],
    faults: &mut E,
) -> u8 {
    match write_whole(rt, out, text) {
        Ok(()) => 0,
        Err(failure) => failure.report(rt.alloc(), out, faults),
    }
}
