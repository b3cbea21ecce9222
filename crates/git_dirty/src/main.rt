//! The program `git dirty`: how a repository's index differs from HEAD, and its worktree from the index.
#![tactic(auto)]

mod arguments;

use crate::arguments::{command_line, request_of, whole_option};
use clap::Error;
use clap::error::ErrorKind;
use git_status::print_failure;
use std::os::unix::fs::FileExt;
use std::process::ExitCode;
use std::rt::{Env, Files};
use std::sync::Wait;
use std::thread::Threads;
use std::{env, io};

const OUT_OF_MEMORY: &str = "out of memory";

fn main(rt: HostRuntime) -> ExitCode {
    ExitCode::from(run(&rt, &mut rt.stderr()))
}

/// Runs the command of the program's arguments, and returns the exit status.
fn run<R: AllocGlobal + Env + Eprint + Files + Print + Sync + Threads + Wait, E: io::Write>(
    rt: &R,
    faults: &mut E,
) -> u8
where
    R::File: FileExt + Send + Sync,
    R::Dir: Send,
{
    let words = match words_of(rt) {
        Ok(words) => words,
        Err(reason) => return print_failure(rt.alloc(), reason, faults),
    };
    let Ok(command) = command_line(rt.alloc()) else {
        return print_failure(rt.alloc(), OUT_OF_MEMORY, faults);
    };
    match command.try_get_matches_from(words.as_slice()) {
        Ok(matches) => match request_of(rt.alloc(), &matches) {
            Ok(request) => git_checkout::run(rt, &request, &mut io::writer(rt), faults),
            Err(_) => print_failure(rt.alloc(), OUT_OF_MEMORY, faults),
        },
        Err(error) => print_usage(rt, &error, faults),
    }
}

/// Prints the help, or why the arguments aren't those of the command, and returns the exit status.
fn print_usage<R: AllocGlobal + Eprint + Print, E: io::Write>(
    rt: &R,
    error: &Error,
    faults: &mut E,
) -> u8 {
    if error.kind() == ErrorKind::OutOfMemory {
        return print_failure(rt.alloc(), OUT_OF_MEMORY, faults);
    }
    match error.print(rt) {
        Ok(()) if error.exit_code() == 0 => 0,
        _ => 2,
    }
}

/// Returns the words of the command line, or why there are none.
fn words_of<R: AllocGlobal + Env>(rt: &R) -> Result<Vec<String>, &'static str> {
    let found = match env::args(rt) {
        Ok(found) => found,
        Err(error) if error.kind() == io::ErrorKind::OutOfMemory => return Err(OUT_OF_MEMORY),
        Err(_) => return Err("the arguments aren't UTF-8"),
    };
    let mut words = Vec::new(rt.alloc());
    let mut are_paths = false;
    for word in found {
        are_paths = are_paths || word.as_str() == "--";
        let whole = if are_paths {
            word
        } else {
            String::from_str(rt.alloc(), whole_option(word.as_str())).map_err(|_| OUT_OF_MEMORY)?
        };
        words.push(whole).map_err(|_| OUT_OF_MEMORY)?;
    }
    Ok(words)
}
