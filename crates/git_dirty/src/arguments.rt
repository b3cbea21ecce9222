//! The command line.

use clap::{Arg, ArgAction, ArgMatches, Command, value_parser};
use git_checkout::{Columns, Request, UntrackedFiles};
use std::alloc::{AllocError, Global};

/// The day of the newest section of `CHANGELOG.md`: there are no releases to name.
const VERSION: &str = "2026-12-01, unreleased";

/// The values of `--untracked`.
const UNTRACKED: &[&str] = &["no", "normal", "all"];

/// What `--help` shows after the options.
const EXAMPLES: &str = "\
Examples:
  git dirty            list the tracked files that differ from HEAD or the index
  git dirty -q src     only set the exit status, for the files below src
  git dirty --staged   list what is staged
  git dirty -u         list untracked files too, with the letters ??
  git dirty --explain README.md
                       say why README.md is listed, or isn't

Exit status: 0 if nothing differs, 1 if something does, 2 after a failure.
A line has the letters of git status --porcelain: what is staged, and what
isn't. PATHS select as in git: folders, patterns such as '*.c', or ':!docs'. A
path without wildcards that selects nothing is a failure.
Files with filters (git LFS), ident or an encoding aren't compared as git does:
don't rely on this command there.";

/// Returns the request of the arguments that were matched.
///
/// # Errors
/// Out of memory.
pub fn request_of<'a>(alloc: Global, matches: &ArgMatches<'a>) -> Result<Request<'a>, AllocError> {
    let paths = match matches.get_strs("paths") {
        Some(paths) => Vec::from_slice(alloc, paths)?,
        None => Vec::new(alloc),
    };
    let folder = match matches.get_str("folder") {
        Some(folder) if !folder.is_empty() => folder,
        _ => ".",
    };
    Ok(Request {
        columns: columns_of(matches),
        untracked: untracked_of(matches),
        ignored: matches.get_flag("ignored"),
        zero: matches.get_flag("zero"),
        quiet: matches.get_flag("quiet"),
        refresh: matches.get_flag("refresh"),
        stats: matches.get_flag("stats"),
        explain: matches.get_flag("explain"),
        json: matches.get_flag("json"),
        enter: true,
        threads: matches.get_one("threads"),
        paths,
        ..Request::new(alloc, folder)
    })
}

/// Returns what is compared.
fn columns_of(matches: &ArgMatches<'_>) -> Columns {
    if matches.get_flag("staged") {
        return Columns::Staged;
    }
    if matches.get_flag("worktree") {
        return Columns::Worktree;
    }
    Columns::Both
}

/// Returns the untracked files that are listed.
fn untracked_of(matches: &ArgMatches<'_>) -> UntrackedFiles {
    match matches.get_str("untracked") {
        Some("normal") => UntrackedFiles::Normal,
        Some("all") => UntrackedFiles::All,
        Some(_) => UntrackedFiles::No,
        None if matches.get_flag("ignored") => UntrackedFiles::Normal,
        None => UntrackedFiles::No,
    }
}

/// Returns the option for which a word is short, or the word. As in git, a value comes right after `-u`.
pub fn whole_option(word: &str) -> &str {
    match word {
        "-uno" => "--untracked=no",
        "-unormal" => "--untracked=normal",
        "-uall" => "--untracked=all",
        word => word,
    }
}

/// Returns the parser of the command line.
///
/// # Errors
/// Out of memory.
pub fn command_line<'a>(alloc: Global) -> Result<Command<'a>, AllocError> {
    let command = Command::new(alloc, "git-dirty")
        .bin_name("git dirty")?
        .version(VERSION)
        .about("Lists the tracked files of a git worktree that differ from HEAD or from the index")
        .after_help(EXAMPLES)
        .arg(folder(alloc))?
        .arg(flag(alloc, "zero", "End lines with a NUL, and don't quote paths").short('z'))?
        .arg(quiet(alloc))?
        .arg(staged(alloc)?)?
        .arg(worktree(alloc))?
        .arg(untracked(alloc)?)?
        .arg(ignored(alloc)?)?
        .arg(refresh(alloc))?
        .arg(explain(alloc)?)?
        .arg(json(alloc)?)?
        .arg(threads(alloc))?
        .arg(stats(alloc))?;
    with_help(alloc, command)?.arg(paths(alloc))
}

/// Returns the option of the folder to work in.
fn folder<'a>(alloc: Global) -> Arg<'a> {
    Arg::new(alloc, "folder")
        .short('C')
        .value_name("DIR")
        .help("Work in DIR instead of the working folder")
        .action(ArgAction::Set)
}

/// Returns the option of the number of threads.
fn threads<'a>(alloc: Global) -> Arg<'a> {
    Arg::new(alloc, "threads")
        .long("threads")
        .value_name("N")
        .help("Use at most N threads (usually 4)")
        .value_parser(value_parser!(usize))
}

/// Returns the paths to compare.
fn paths<'a>(alloc: Global) -> Arg<'a> {
    Arg::new(alloc, "paths")
        .value_name("PATHS")
        .help("Compare only what these files, folders and patterns select")
        .num_args(0..)
        .action(ArgAction::Append)
}

/// Returns the flag that leaves the exit status alone.
fn quiet<'a>(alloc: Global) -> Arg<'a> {
    flag(
        alloc,
        "quiet",
        "Print no line, and stop soon after the first difference",
    )
    .short('q')
    .long("quiet")
}

/// Returns the flag for the first column alone.
///
/// # Errors
/// Out of memory.
fn staged<'a>(alloc: Global) -> Result<Arg<'a>, AllocError> {
    flag(
        alloc,
        "staged",
        "List only what is staged: how the index differs from HEAD",
    )
    .long("staged")
    .conflicts_with("worktree")?
    .conflicts_with("refresh")?
    .conflicts_with("explain")?
    .conflicts_with("json")?
    .conflicts_with("stats")
}

/// Returns the flag for the second column alone.
fn worktree<'a>(alloc: Global) -> Arg<'a> {
    flag(
        alloc,
        "worktree",
        "List only how the files differ from the index",
    )
    .long("worktree")
}

/// Returns the option for untracked files.
///
/// # Errors
/// Out of memory.
fn untracked<'a>(alloc: Global) -> Result<Arg<'a>, AllocError> {
    Arg::new(alloc, "untracked")
        .short('u')
        .long("untracked")
        .value_name("MODE")
        .help("List untracked files: no, normal (as with -u) or all")
        .value_parser(UNTRACKED)
        .hide_possible_values(true)
        .num_args(0..=1)
        .require_equals(true)
        .action(ArgAction::Set)
        .default_missing_value("normal")
        .conflicts_with("staged")?
        .conflicts_with("explain")
}

/// Returns the flag for ignored files.
///
/// # Errors
/// Out of memory.
fn ignored<'a>(alloc: Global) -> Result<Arg<'a>, AllocError> {
    flag(
        alloc,
        "ignored",
        "List ignored files too, and untracked ones as with -u",
    )
    .long("ignored")
    .conflicts_with("staged")?
    .conflicts_with("explain")
}

/// Returns the flag that stores times in the index.
fn refresh<'a>(alloc: Global) -> Arg<'a> {
    flag(
        alloc,
        "refresh",
        "Store the new times of unchanged files in the index",
    )
    .long("refresh")
}

/// Returns the flag that counts what was compared.
fn stats<'a>(alloc: Global) -> Arg<'a> {
    flag(
        alloc,
        "stats",
        "Print on standard error how much was compared",
    )
    .long("stats")
}

/// Returns the flag that explains paths.
///
/// # Errors
/// Out of memory.
fn explain<'a>(alloc: Global) -> Result<Arg<'a>, AllocError> {
    flag(
        alloc,
        "explain",
        "Say why a file differs from the index, or doesn't",
    )
    .long("explain")
    .conflicts_with("zero")?
    .conflicts_with("quiet")?
    .conflicts_with("refresh")?
    .conflicts_with("stats")
}

/// Returns the flag for explanations in JSON.
///
/// # Errors
/// Out of memory.
fn json<'a>(alloc: Global) -> Result<Arg<'a>, AllocError> {
    flag(
        alloc,
        "json",
        "With --explain, print an object of JSON for each path",
    )
    .long("json")
    .requires_arg("explain")
}

/// Returns the parser with its flags for help.
///
/// # Errors
/// Out of memory.
fn with_help<'a>(alloc: Global, command: Command<'a>) -> Result<Command<'a>, AllocError> {
    command
        .disable_help_flag(true)
        .arg(help(alloc, "help").short('h'))?
        .arg(help(alloc, "long-help").long("help").hide(true))
}

/// Returns a flag that prints the help. With `git dirty --help` git itself searches for a manual page, so that `-h` is the one
/// which errors name.
fn help<'a>(alloc: Global, id: &'static str) -> Arg<'a> {
    Arg::new(alloc, id)
        .help("Print help")
        .action(ArgAction::Help)
}

fn flag<'a>(alloc: Global, id: &'static str, help: &'static str) -> Arg<'a> {
    Arg::new(alloc, id).help(help).action(ArgAction::SetTrue)
}
