//! The first column alone: how the index differs from HEAD.

use crate::checkout::settings_of;
use crate::head::{HeadCommit, head_at};
use crate::index_file::read_index_file;
use crate::refused::Refused;
use crate::request::{Columns, Request};
use crate::selected::{Selected, elements_of, selected_by};
use crate::selection::check_each;
use crate::sparse::whole_index;
use git_repository::Repository;
use git_status::lines::LineStyle;
use git_status::{Paths, ReadIndex, print_staged};
use status_base::worktree::MemoryWorktree;
use status_index::{Moment, State};
use std::alloc::Global;
use std::io;
use std::os::unix::fs::FileExt;
use std::rt::{Env, Files};

/// Writes a line for each selected path at which the index differs from HEAD, in the order of the paths, and returns the exit
/// status of `git dirty --staged`: 0 if there is none, and otherwise 1. `lstat` is called for no file of the worktree. Without an
/// index file the lines of both columns are these too, and the selected paths were checked before.
///
/// # Errors
/// There is no repository, its index, HEAD or a tree can't be read, one of PATHS can't be used or names
/// nothing, or the output takes no more.
pub(crate) fn run_staged<R: AllocGlobal + Env + Files, O: io::Write>(
    rt: &R,
    request: &Request<'_>,
    output: &mut O,
) -> Result<u8, Refused>
where
    R::File: FileExt,
{
    let alloc = rt.alloc();
    let repository = Repository::discover(rt, request.folder)?;
    let selected = selected_by(rt, &repository, &request.paths)?;
    let head = Some(HeadCommit::read(rt, &repository)?);
    // No path of the worktree is asked for.
    let nowhere = MemoryWorktree::new(alloc);
    let Some(file) = read_index_file(rt, &repository)? else {
        let nothing = State::new(alloc, Moment::default());
        if let Columns::Staged = request.columns {
            check_each(alloc, &nothing, &nowhere, &head, &selected)?;
        }
        return print_columns(
            alloc,
            request,
            &repository,
            &nothing,
            &head,
            &selected,
            output,
        );
    };
    let settings = settings_of(&repository, request, file.timestamp);
    let read = ReadIndex::of(alloc, &file.bytes, &settings)?;
    let Some(bytes) = whole_index(rt, &repository, &read, &nowhere, &head, &selected)? else {
        let index = &read.file.state;
        check_each(alloc, index, &nowhere, &head, &selected)?;
        return print_columns(alloc, request, &repository, index, &head, &selected, output);
    };
    let whole = ReadIndex::of(alloc, &bytes, &settings)?;
    let index = &whole.file.state;
    check_each(alloc, index, &nowhere, &head, &selected)?;
    print_columns(alloc, request, &repository, index, &head, &selected, output)
}

/// Writes the lines of an index that isn't compared with a worktree.
///
/// # Errors
/// HEAD's files can't be read, the output takes no more, or out of memory.
fn print_columns<R: AllocGlobal + Env + Files, O: io::Write>(
    alloc: Global,
    request: &Request<'_>,
    repository: &Repository,
    index: &State,
    head: &Option<HeadCommit<'_, R>>,
    selected: &[Selected<'_>],
    output: &mut O,
) -> Result<u8, Refused>
where
    R::File: FileExt,
{
    let nothing = State::new(alloc, Moment::default());
    let elements = elements_of(alloc, selected)?;
    let paths = Paths {
        elements: &elements,
        left_out: &nothing,
    };
    let style = if request.quiet {
        None
    } else {
        Some(LineStyle {
            zero: request.zero,
            quote_all: repository.settings.quote_path,
        })
    };
    let head = head_at(head, paths);
    let dirty = print_staged(alloc, index, &head, &paths, style, output)?;
    Ok(u8::from(dirty))
}
