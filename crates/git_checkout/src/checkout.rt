//! The status of the checkout that has a folder.

ghost use Rattle.std.specs.Prelude.{IfOk};
ghost use Rattle.git_status.specs.Reads.{IsRead};

use crate::attributes::{AskedFor, has_cone};
use crate::folders::DiskFolders;
use crate::head::{HeadCommit, head_at};
use crate::index_file::{FoundIndex, read_index_file};
use crate::objects::{LazyObjects, modules_of};
use crate::refresh::Refresh;
use crate::refused::{Illformed, Refused};
use crate::request::{Columns, Request, UntrackedFiles};
use crate::selected::{Selected, elements_of, selected_by};
use crate::selection::{Exceptions, check_each, untracked_of};
use crate::sparse::whole_index;
use crate::staged::run_staged;
use crate::untracked::{UntrackedParts, outer_files_for};
use git_attributes::{AttributeFiles, WithStaged};
use git_explain::{Wanted, run_explain};
use git_pathspecs::Element;
use git_repository::{
    GitAttributeFiles, IgnoredSubmodules, IntendedWorktree, Repository, SubmoduleHeads,
    time_of_lock,
};
use git_status::lines::LineStyle;
use git_status::{
    Asked, Failure, Paths, ReadIndex, Refreshed, Searches, Settings, print_failure, run_dirty,
    run_refresh,
};
use git_untracked::FindUntracked;
use status_base::worktree::{DiskWorktree, Pathspec, StatFields, SubmoduleStatus, Worktree};
use status_call::index_as_worktree::{Capabilities, Options};
use status_index::{Moment, State, stat};
use std::alloc::{AllocError, Global};
use std::env;
use std::io::{self, Write as _};
use std::os::unix::fs::FileExt;
use std::path::Path;
use std::rt::{Env, Files};
use std::sync::Wait;
use std::thread::Threads;
use text_output::OutputError;

/// The number of entries of a piece of work if the first difference ends the call. Each thread has at most 8 pieces before
/// the call sees that it may end: some 2,000 entries with the usual 4 threads.
const SMALL_CHUNK: usize = 64;

/// The exit status of a failure.
const FAILED: u8 = 2;

/// Returns whether a tracked file of the checkout that has this folder differs from HEAD or from the index, as `git dirty -q`
/// does. `columns` may ask for one of the two. None after a failure, whose line is written to `faults`. Nothing is written to
/// the disk, and the working folder stays.
///
/// An untracked file doesn't count.
pub fn is_dirty<R: AllocGlobal + Env + Files + Sync + Threads + Wait, E: io::Write>(
    rt: &R,
    folder: &str,
    columns: Columns,
    faults: &mut E,
) -> Option<bool>
where
    R::File: FileExt + Send + Sync,
    R::Dir: Send,
{
    let request = Request {
        quiet: true,
        columns,
        ..Request::new(rt.alloc(), folder)
    };
    match run(rt, &request, &mut io::sink(), faults) {
        0 => Some(false),
        1 => Some(true),
        _ => None,
    }
}

/// Writes the lines of the checkout's differences to `output`, and notes and failures to `faults`. Returns the exit status of
/// `git dirty`: 0 if nothing is staged, nothing differs and no file that is asked for is untracked, 1 otherwise, and 2 after a
/// failure. A path that isn't UTF-8 fails by itself: all other lines are written, then a line for each such path, and the index
/// isn't refreshed.
pub fn run<R: AllocGlobal + Env + Files + Sync + Threads + Wait, O: io::Write, E: io::Write>(
    rt: &R,
    request: &Request<'_>,
    output: &mut O,
    faults: &mut E,
) -> u8
where
    R::File: FileExt + Send + Sync,
    R::Dir: Send,
{
    let ended = match request.columns {
        Columns::Staged => run_staged(rt, request, output),
        Columns::Both | Columns::Worktree => run_in_repository(rt, request, output, faults),
    };
    match ended {
        Ok(status) => status,
        Err(Refused::Index(Failure::Output(OutputError::Closed))) => FAILED,
        Err(refused) => print_failure(rt.alloc(), refused, faults),
    }
}

/// Does the same in the repository of the request's folder.
///
/// # Errors
/// There is no repository, its index, HEAD or a setting can't be read, one of PATHS can't be used or names
/// nothing, or the index can't be refreshed.
fn run_in_repository<
    R: AllocGlobal + Env + Files + Sync + Threads + Wait,
    O: io::Write,
    E: io::Write,
>(rt: &R, request: &Request<'_>, output: &mut O, faults: &mut E) -> Result<u8, Refused>
where
    R::File: FileExt + Send + Sync,
    R::Dir: Send,
{
    let alloc = rt.alloc();
    let repository = Repository::discover(rt, request.folder)?;
    let top = repository.top.as_str();
    let selected = selected_by(rt, &repository, &request.paths)?;
    let head = head_of_request(rt, &repository, request)?;
    let file = match read_index_file(rt, &repository)? {
        Some(file) => file,
        None if request.untracked != UntrackedFiles::No => {
            FoundIndex::without_entries(alloc, repository.settings.kind)?
        }
        None => {
            check_without_index(rt, top, &head, &selected)?;
            if head.is_some() {
                return run_staged(rt, request, output);
            }
            return Ok(0);
        }
    };
    let settings = settings_of(&repository, request, file.timestamp);
    let read = read_for(request, alloc, &file.bytes, &settings)?;
    let front = entered(rt, top, request.enter);
    let worktree = git_worktree(rt, front)?;
    let made = whole_index(rt, &repository, &read, &worktree, &head, &selected)?;
    let found = Found {
        repository: &repository,
        selected: &selected,
        head: &head,
        worktree: &worktree,
        front,
        file: &file,
        is_remade: made.is_some(),
    };
    let Some(bytes) = made else {
        return run_over(rt, request, found, settings, read, output, faults);
    };
    let whole = ReadIndex::of(alloc, &bytes, &settings)?;
    run_over(rt, request, found, settings, whole, output, faults)
}

/// The subject of a request: a repository with its worktree, the selected paths, HEAD, and the index file.
#[derive(Clone, Copy)]
struct Found<'x, R: Files> {
    repository: &'x Repository,
    selected: &'x [Selected<'x>],
    head: &'x Option<HeadCommit<'x, R>>,
    worktree: &'x DiskWorktree<&'x R>,
    /// The folder of the worktree, or nothing for the working folder.
    front: &'x str,
    file: &'x FoundIndex,
    /// Whether another index than that of the file is compared.
    is_remade: bool,
}

/// Does the same over an index that was read.
///
/// # Errors
/// A setting or HEAD can't be read, a path selects nothing, or the index can't be refreshed.
#[tactic(auto, using(git_pathspecs::proofs::Sent::element_sync))]
fn run_over<'x, R: AllocGlobal + Env + Files + Sync + Threads + Wait, O: io::Write, E: io::Write>(
    rt: &'x R,
    request: &Request<'_>,
    found: Found<'x, R>,
    settings: Settings,
    read: ReadIndex<'_>,
    output: &mut O,
    faults: &mut E,
) -> Result<u8, Refused>
where
    R::File: FileExt + Send + Sync,
    R::Dir: Send,
    requires { IsRead settings read }
{
    let alloc = rt.alloc();
    let Found {
        repository,
        selected,
        head,
        worktree,
        front,
        file,
        is_remade,
    } = found;
    let top = repository.top.as_str();
    let index = &read.file.state;
    check_each(alloc, index, worktree, head, selected)?;
    let modules = modules_of(rt, repository, index, head)?;
    let ignored = IgnoredSubmodules::new(alloc, &modules, &repository.config)?;
    let Exceptions {
        left_out,
        intended,
        illformed,
    } = Exceptions::of(alloc, index, worktree, selected, &ignored)?;
    let elements = elements_of(alloc, selected)?;
    let staged_elements = elements_of(alloc, selected)?;
    let unknown = untracked_of(alloc, index, selected)?;
    let parts = UntrackedParts {
        mode: request.untracked,
        ignored: request.ignored,
        folders: DiskFolders {
            rt,
            repository,
            worktree,
            top: front,
        },
        outer: outer_files_for(rt, request, repository)?,
        elements: elements_of(alloc, selected)?,
    };
    let untracked = parts.search();
    let objects = LazyObjects { rt, repository };
    let attributes = AskedFor {
        worktree,
        is_cone: has_cone(repository),
        files: WithStaged {
            others: GitAttributeFiles::new(rt, repository)?,
            objects: &objects,
        },
    };
    let asked = Asked {
        settings,
        worktree,
        submodules: SubmoduleHeads::new(rt, top, &ignored),
        paths: Paths {
            elements: &elements,
            left_out: &left_out,
        },
        attributes,
        beside: head,
    };
    let begun = if request.refresh {
        Some(time_of_lock(rt, repository.index.as_str()))
    } else {
        None
    };
    let nested = Nested {
        top,
        elements: &staged_elements,
        untracked: &untracked,
        intended: &intended,
        wanted: Wanted {
            all: !selected.is_empty(),
            json: request.json,
            left_out: &left_out,
            untracked: &unknown,
        },
    };
    let compared = compare(rt, request, read, nested, asked, output, faults);
    if compared.status == FAILED {
        return Ok(FAILED);
    }
    note_unread(request, repository, &ignored, faults);
    if !illformed.is_empty() {
        return Ok(print_illformed(alloc, &illformed, faults));
    }
    let Some(begun) = begun else {
        return Ok(compared.status);
    };
    let refresh = Refresh {
        repository,
        old: file,
        is_remade,
        begun,
    };
    refresh.end(rt, compared)
}

/// Reads the index file for a request. The status compares its checksum, unless something that depends on the index may be
/// printed before.
///
/// # Errors
/// The bytes aren't an index file, or out of memory.
fn read_for<'b>(
    request: &Request<'_>,
    alloc: Global,
    bytes: &'b [u8],
    settings: &Settings,
) -> Result<ReadIndex<'b>, Failure>
    ensures { IfOk result (IsRead settings.now) }
{
    if request.explain || !request.paths.is_empty() {
        return ReadIndex::of(alloc, bytes, settings);
    }
    ReadIndex::unchecked(alloc, bytes, settings)
}

/// Returns HEAD's commit, if the index is compared with it. An explanation is of the second column alone.
///
/// # Errors
/// HEAD or its commit can't be read, or git reads other objects than those of the repository.
fn head_of_request<'r, R: AllocGlobal + Env + Files>(
    rt: &'r R,
    repository: &Repository,
    request: &Request<'_>,
) -> Result<Option<HeadCommit<'r, R>>, Refused>
where
    R::File: FileExt,
{
    match request.columns {
        Columns::Both | Columns::Staged if !request.explain => {
            Ok(Some(HeadCommit::read(rt, repository)?))
        }
        _ => Ok(None),
    }
}

/// Checks the selected paths in a repository without an index file, which has no entries.
///
/// # Errors
/// Nothing is at one, or out of memory.
fn check_without_index<R: AllocGlobal + Env + Files>(
    rt: &R,
    top: &str,
    head: &Option<HeadCommit<'_, R>>,
    selected: &[Selected<'_>],
) -> Result<(), Refused>
where
    R::File: FileExt,
{
    let nothing = State::new(rt.alloc(), Moment { secs: 0, nsecs: 0 });
    let worktree = git_worktree(rt, top)?;
    check_each(rt.alloc(), &nothing, &worktree, head, selected)
}

/// Writes a failure for each path that can't be compared since it isn't UTF-8, and returns the exit status of a failure.
fn print_illformed<E: io::Write>(alloc: Global, paths: &[Vec<u8>], faults: &mut E) -> u8 {
    for path in paths {
        print_failure(alloc, Illformed { path }, faults);
    }
    FAILED
}

/// Returns the folder of the worktree at `top`, or nothing if it is the working folder now. As git does, the process enters it if
/// it may: from there the system has the fewest steps to a file.
fn entered<'t, R: Env>(rt: &R, top: &'t str, enter: bool) -> &'t str {
    if enter && env::set_current_dir(rt, top).is_ok() {
        ""
    } else {
        top
    }
}

/// Returns the worktree that begins at `top`, with all that git records of a file.
pub(crate) fn git_worktree<'r, R: AllocGlobal + Files>(
    rt: &'r R,
    top: &str,
) -> Result<DiskWorktree<&'r R>, AllocError> {
    DiskWorktree::with_fields(rt, Path::new(top), StatFields::Git)
}

/// The repositories that may be nested in a worktree.
#[derive(Clone, Copy)]
struct Nested<'x, U> {
    /// The worktree's folder.
    top: &'x str,
    /// The elements of the pathspec by which the index is compared with HEAD.
    elements: &'x [Element<'x>],
    /// Finds untracked files.
    untracked: &'x U,
    /// The entries at whose paths they count.
    intended: &'x State,
    /// Which paths are explained, if that is asked for.
    wanted: Wanted<'x>,
}

/// Prints the status of an index file. A nested repository counts as a node at the paths of some entries. There are new bytes
/// only if the file is to be refreshed.
#[tactic(auto, using(git_pathspecs::proofs::Sent::element_sync))]
fn compare<
    'x,
    'b,
    R: AllocGlobal + Env + Files + Sync + Threads + Wait,
    W: Worktree + Sync,
    S: SubmoduleStatus + Send,
    P: Pathspec + Send,
    A: AttributeFiles + Send,
    U: FindUntracked + Sync,
    O: io::Write,
    E: io::Write,
>(
    rt: &'x R,
    request: &Request<'_>,
    read: ReadIndex<'b>,
    nested: Nested<'x, U>,
    asked: Asked<'x, W, S, P, A, Option<HeadCommit<'x, R>>>,
    output: &mut O,
    faults: &mut E,
) -> Refreshed<'b>
where
    R::File: FileExt + Send + Sync,
    R::Dir: Send,
    W::File: Send,
    S::Output: Send,
    requires { IsRead asked.settings read }
{
    let worktree = IntendedWorktree {
        rt,
        top: nested.top,
        worktree: asked.worktree,
        intended: nested.intended,
    };
    let nothing = State::new(rt.alloc(), Moment::default());
    let paths = Paths {
        elements: nested.elements,
        left_out: &nothing,
    };
    let head = head_at(asked.beside, paths);
    let beside = Searches {
        head: &head,
        untracked: nested.untracked,
    };
    let asked = Asked {
        settings: asked.settings,
        worktree: &worktree,
        submodules: asked.submodules,
        paths: asked.paths,
        attributes: asked.attributes,
        beside: &beside,
    };
    if request.refresh && !request.explain {
        return if request.quiet {
            run_refresh(rt, read, asked, &mut io::sink(), faults)
        } else {
            run_refresh(rt, read, asked, output, faults)
        };
    }
    let status = if request.explain {
        let index = &read.file.state;
        run_explain(rt.alloc(), index, asked, nested.wanted, output, faults)
    } else {
        run_dirty(rt, &read, asked, output, faults)
    };
    Refreshed {
        status,
        bytes: None,
        is_whole: false,
        extensions: &[],
    }
}

/// Writes notes on the configuration that isn't read, unless the request is quiet.
fn note_unread<E: io::Write>(
    request: &Request<'_>,
    repository: &Repository,
    ignored: &IgnoredSubmodules,
    faults: &mut E,
) {
    if request.quiet {
        return;
    }
    if ignored.is_unread {
        note(
            faults,
            ".gitmodules can't be read, so none of its lines counts",
        );
    }
}

/// Writes a note. If it can't be written, there is nowhere left to report that.
fn note<E: io::Write>(faults: &mut E, words: &'static str) {
    let _ = writeln!(faults, "git dirty: note: {words}");
}

/// Returns how a repository's entries are compared and printed.
pub(crate) fn settings_of(
    repository: &Repository,
    request: &Request<'_>,
    timestamp: Moment,
) -> Settings {
    let found = &repository.settings;
    // A refresh compares all entries.
    let stops = request.quiet && !request.refresh;
    let options = Options {
        fs: Capabilities {
            symlink: found.symlinks,
            executable_bit: found.file_mode,
        },
        thread_limit: request.threads,
        stat: stat::Options {
            // Git compares the time of the metadata's last change only if it compares all of a stat.
            trust_ctime: found.trust_ctime && !found.check_stat_minimal,
            check_stat: !found.check_stat_minimal,
            use_nsec: false,
            use_stdev: false,
        },
        fscache: false,
        chunk_size: if stops { SMALL_CHUNK } else { 0 },
    };
    Settings {
        kind: found.kind,
        timestamp,
        options,
        conversions: found.conversions,
        notes: !request.quiet,
        stats: request.stats,
        lines: if stops {
            None
        } else {
            Some(LineStyle {
                zero: request.zero,
                quote_all: found.quote_path,
            })
        },
    }
}
