//! The path at which a status fails.

use crate::asked::Asked;
use crate::lines::Quoted;
use crate::only::OnlyPath;
use bstr::BStr;
use status_base::worktree::{MemoryObjects, NoFilter, NoLister, NoSubmodules, Pathspec, Worktree};
use status_call::index_as_worktree::traits::FastEq;
use status_call::index_as_worktree::{
    Capabilities, Context, Error, Options, Recorder, index_as_worktree,
};
use status_index::{State, stat};
use std::alloc::AllocError;
use std::fmt;
use std::sync::Wait;
use std::thread::Threads;

/// An error of a status, and the path of the entry that it belongs to.
#[derive(Debug, Drop)]
pub struct PlacedError<'a> {
    /// The entry's path.
    pub path: BStr<'a>,
    /// The error.
    pub error: Error,
}

impl fmt::Display for PlacedError<'_> {
    fn fmt<W: fmt::Write>(&self, f: &mut fmt::Formatter<W>) -> fmt::Result {
        let path = Quoted {
            path: self.path.as_bytes(),
        };
        match &self.error {
            Error::Io(fault) => write!(f, "can't read {path}: {fault}"),
            error => write!(f, "{path}: {error}"),
        }
    }
}

/// The question of a status, kept to find out at which path it failed.
#[derive(Drop)]
pub struct Search<'a, W, P> {
    fs: Capabilities,
    stat: stat::Options,
    worktree: &'a W,
    paths: P,
}

impl<'a, W: Worktree + Sync, P: Pathspec> Search<'a, W, P>
where
    W::File: Send,
{
    /// Returns the search for the place of an error of this status.
    ///
    /// # Errors
    /// Out of memory.
    pub fn of<S, A, B>(asked: &Asked<'a, W, S, P, A, B>) -> Result<Search<'a, W, P>, AllocError> {
        let settings = &asked.settings;
        Ok(Search {
            fs: settings.options.fs,
            stat: settings.options.stat,
            worktree: asked.worktree,
            paths: asked.paths.clone()?,
        })
    }

    /// Returns the first of the selected entries whose own status fails, with its error. The status of an index doesn't say
    /// which entry its error belongs to, so this asks for the status of one entry after the other. None if none fails now.
    pub fn first_error<'i, R: AllocGlobal + Threads + Wait>(
        &self,
        rt: &R,
        index: &'i State,
    ) -> Option<PlacedError<'i>> {
        for entry in index.entries() {
            let path = entry.path_in(index.path_backing());
            if self.paths.includes(path, entry.mode.is_submodule()) {
                if let Some(error) = self.error_at(rt, index, path) {
                    return Some(PlacedError { path, error });
                }
            }
        }
        None
    }

    /// Returns the error of the status of the entries with this path, computed by one thread.
    fn error_at<R: AllocGlobal + Threads + Wait>(
        &self,
        rt: &R,
        index: &State,
        path: BStr<'_>,
    ) -> Option<Error> {
        let alloc = rt.alloc();
        // A conversion of line ends fails only if reading does, so none is made here.
        let context = Context {
            pathspec: OnlyPath {
                path: path.as_bytes(),
            },
            filter: NoFilter,
            lister: NoLister,
            should_interrupt: None,
        };
        let options = Options {
            fs: self.fs,
            thread_limit: Some(1),
            stat: self.stat,
            fscache: false,
            chunk_size: 0,
        };
        index_as_worktree(
            rt,
            alloc,
            index,
            self.worktree,
            &mut Recorder::new(alloc),
            FastEq,
            NoSubmodules,
            MemoryObjects::new(alloc),
            context,
            options,
        )
        .err()
    }
}
