//! How a call works: the number of workers, and how they run.

ghost use Rattle.std.specs.Prelude.{◌≡◌, ◌≤◌, min};
ghost use Rattle.status_call.specs.Workers.{chunk_size_of, most_workers};

use crate::index_as_worktree::types::Options;
use std::alloc::Global;
use std::sync::atomic::AtomicBool;

/// The greatest number of workers.
const MOST_WORKERS: usize = 64;

/// The usual number of workers.
const WORKERS: usize = 4;

/// The usual number of entries of a piece of work, as in git.
const CHUNK_SIZE: usize = 500;

/// How a call works: with which allocator and workers, in pieces of how many entries, and what interrupts it.
#[derive(Clone, Copy)]
pub struct Execution<'a> {
    /// Allocates what the workers need.
    pub alloc: Global,
    /// The greatest number of workers, which is the usual number for `None` and 0.
    pub thread_limit: Option<usize>,
    /// The number of entries of a piece of work, or 0 for the usual number.
    pub chunk_size: usize,
    /// The interrupt flag that the workers check.
    pub interrupt: Option<&'a AtomicBool>,
}

impl<'a> Execution<'a> {
    /// Returns how a call with these options works.
    pub fn of(alloc: Global, options: &Options, interrupt: Option<&'a AtomicBool>) -> Execution<'a>
        ensures thread_limit { result.thread_limit ≡ options.now.thread_limit }
        ensures chunk_size { result.chunk_size ≡ options.now.chunk_size }
        ensures interrupt { result.interrupt ≡ interrupt.entry }
    {
        Execution {
            alloc,
            thread_limit: options.thread_limit,
            chunk_size: options.chunk_size,
            interrupt,
        }
    }

    /// Returns the number of entries of a piece.
    pub(crate) fn piece_len(&self) -> usize
        ensures { result ≡ chunk_size_of self.now.chunk_size }
    {
        match self.chunk_size {
            0 => CHUNK_SIZE,
            chunk_size => chunk_size,
        }
    }
}

/// The workers of a call.
#[derive(Drop)]
pub struct Workers<'a, R> {
    /// Starts their threads.
    pub rt: &'a R,
    /// Allocates what they need.
    pub alloc: Global,
    /// How many they are.
    pub count: usize,
    /// The stack size of each worker's thread in bytes, or `None` for the usual size.
    pub stack_size: Option<usize>,
    /// The interrupt flag that they check.
    pub interrupt: Option<&'a AtomicBool>,
    ghost some: { 1 ≤ count },
    ghost few: { count ≤ 64 },
}

impl<'a, R> Workers<'a, R> {
    /// Returns the workers that the thread limit allows, with the usual stacks.
    pub(crate) fn of(rt: &'a R, execution: &Execution<'a>) -> Workers<'a, R>
        ensures count { result.count ≡ most_workers execution.now.thread_limit }
        ensures interrupt { result.interrupt ≡ execution.now.interrupt }
    {
        Workers {
            rt,
            alloc: execution.alloc,
            count: most_workers(execution.thread_limit),
            stack_size: None,
            interrupt: execution.interrupt,
        }
    }

    /// Returns these workers, at most as many as there are pieces.
    pub(crate) fn for_pieces(&self, pieces: usize) -> Workers<'a, R>
        requires { 1 ≤ pieces }
        ensures count { result.count ≡ min self.entry.now.count pieces }
        ensures interrupt { result.interrupt ≡ self.entry.now.interrupt }
    {
        Workers {
            rt: self.rt,
            alloc: self.alloc,
            count: self.count.min(pieces),
            stack_size: self.stack_size,
            interrupt: self.interrupt,
        }
    }
}

/// Returns the greatest number of workers for a thread limit. 0 is no limit.
fn most_workers(limit: Option<usize>) -> usize
    ensures { result ≡ most_workers limit }
{
    match limit {
        None | Some(0) => WORKERS,
        Some(limit) => limit.min(MOST_WORKERS),
    }
}
