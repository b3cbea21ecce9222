//! The workers of a round: one in the caller's thread, and each other one in a thread of its own.

ghost use Rattle.std.specs.Prelude.{◌≡◌, ◌≢◌, ◌≤◌, ◌+◌, All, IfOk, OnOk, vec_len, [], Err};
ghost use Rattle.status_board.specs.Seats.{fresh};
ghost use Rattle.status_board.specs.Accounts.{AreReady, IsBrought, IsWorked};

use crate::board::{Board, Seat};
use crate::gathered::{Answer, Gathered, gather, nothing, or_refused};
use crate::round::Refused;
use crate::work::{Work, work_through};
use core::thread::Stack;
use std::alloc::{AllocError, Global};
use std::sync::Wait;
use std::thread;
use std::thread::{Promise, PromisedHandle, Scope, Threads};

// The promise of a worker's thread: its results are of this work and this board.
#[derive(Drop)]
struct Brings<'a, K> {
    work: &'a K,
    board: &'a Board,
}

impl<'a, K: Work> Promise<Answer<K::Out>> for Brings<'a, K> {
    ghost kept_by = { λ p r. IfOk r (IsWorked (K.gives p.work.now) K.short p.board.now.id) };
}

type Handle<'a, K> = PromisedHandle<Answer<<K as Work>::Out>, Brings<'a, K>>;

/// The work and board that the workers of a round share, and how their threads are started.
#[derive(Drop)]
pub(crate) struct Crew<'a, K: Work> {
    pub(crate) alloc: Global,
    /// The stack size of each worker's thread in bytes, or None for the usual size.
    pub(crate) stack_size: Option<usize>,
    pub(crate) work: &'a K,
    pub(crate) board: &'a Board,
    pub ghost count: { board.now.id.pieces ≡ K.count work.now },
}

impl<'s, K: Work> Crew<'s, K>
where
    K::State: Drop,
    K::Out: Drop,
{
    /// Works through the pieces of the board, with one worker in the caller's thread and each other one in a thread of
    /// its own. All threads that were started are joined.
    ///
    /// # Errors
    /// A thread that couldn't be started. Otherwise out of memory.
    pub(crate) fn work_together<R: Threads + Wait>(
        &self,
        rt: &R,
        seats: Vec<Seat>,
        states: Vec<K::State>,
    ) -> Result<Gathered<K::Out>, Refused>
    where
        K: Sync,
        K::State: Send,
        K::Out: Send,
        requires some { 1 ≤ self.now.board.now.seats }
        requires ready { AreReady self.now.board.now.id (K.fits self.now.work.now) self.now.board.now.seats seats states }
        ensures brought { IfOk result (IsBrought (K.gives self.now.work.now) K.short self.now.board.now.id self.now.board.now.seats) }
        ensures alone { vec_len states ≡ 1 → result ≢ Err Refused.Thread }
    {
        if states.len() == 1 {
            return or_refused(self.work_alone(seats, states));
        }
        thread::scope(
            thread::scope_env(),
            rt,
            move |scope| -> Result<Gathered<K::Out>, Refused>
                requires { (1 ≤ self.now.board.now.seats) × AreReady self.now.board.now.id (K.fits self.now.work.now) self.now.board.now.seats seats states }
                ensures { IfOk result (IsBrought (K.gives self.entry.now.work.now) K.short self.entry.now.board.now.id self.entry.now.board.now.seats) }
            { self.work_in_scope(rt, scope, seats, states) },
        )
    }

    // Works through the pieces with a single worker, in the caller's thread.
    fn work_alone(
        &self,
        mut seats: Vec<Seat>,
        mut states: Vec<K::State>,
    ) -> Result<Gathered<K::Out>, AllocError>
        requires ready { AreReady self.now.board.now.id (K.fits self.now.work.now) 1 seats states }
        ensures { IfOk result (IsBrought (K.gives self.now.work.now) K.short self.now.board.now.id 1) }
    {
        let Some(seat) = seats.pop() else {
            unreachable!();
        };
        let Some(state) = states.pop() else {
            unreachable!();
        };
        let worked = work_through(self.alloc, self.board, self.work, seat, state);
        gather(nothing(self.alloc), worked)
    }

    // Starts a thread for each worker except one, which works in this thread, and joins all threads that were started.
    fn work_in_scope<E, R: Threads>(
        &self,
        rt: &R,
        scope: &'s Scope<'s, E>,
        mut seats: Vec<Seat>,
        mut states: Vec<K::State>,
    ) -> Result<Gathered<K::Out>, Refused>
    where
        K: Sync + 's,
        K::State: Send + 's,
        K::Out: Send + 's,
        requires some { 1 ≤ self.now.board.now.seats }
        requires ready { AreReady self.now.board.now.id (K.fits self.now.work.now) self.now.board.now.seats seats states }
        ensures { IfOk result (IsBrought (K.gives self.now.work.now) K.short self.now.board.now.id self.now.board.now.seats) }
    {
        let Some(seat) = seats.pop() else {
            unreachable!();
        };
        let Some(state) = states.pop() else {
            unreachable!();
        };
        let mut started = Started::none(self);
        if let Err(refused) = self.start(rt, scope, seats, states, &mut started) {
            drop(started.join_all(rt, self.alloc));
            return Err(refused);
        }
        let own = work_through(self.alloc, self.board, self.work, seat, state);
        or_refused(gather(started.join_all(rt, self.alloc), own))
    }

    // Starts a thread for each worker, until one can't be started or there is no memory for its handle.
    fn start<E, R: Threads>(
        &self,
        rt: &R,
        scope: &'s Scope<'s, E>,
        mut seats: Vec<Seat>,
        mut states: Vec<K::State>,
        started: &mut Started<'s, K>,
    ) -> Result<(), Refused>
    where
        K: Sync + 's,
        K::State: Send + 's,
        K::Out: Send + 's,
        requires ready { AreReady self.now.board.now.id (K.fits self.now.work.now) (vec_len states) seats states }
        requires of { started.old.of ≡ record { work = self.now.work; board = self.now.board } }
        requires none { started.old.handles.items ≡ [] }
        ensures of { started.new.of ≡ started.old.of }
        ensures all { OnOk result (vec_len started.new.handles ≡ vec_len states) }
    {
        while let Some(state) = states.pop() {
            let Some(seat) = seats.pop() else {
                unreachable!();
            };
            match self.start_one(scope, seat, state) {
                Ok(handle) => started.keep(rt, handle)?,
                Err(refused) => return Err(refused),
            }
        }
        Ok(())
    }

    // Starts one worker's thread.
    fn start_one<E>(
        &self,
        scope: &'s Scope<'s, E>,
        seat: Seat,
        state: K::State,
    ) -> Result<Handle<'s, K>, Refused>
    where
        K: Sync + 's,
        K::State: Send + 's,
        K::Out: Send + 's,
        requires seat { seat ≡ fresh self.now.board.now.id }
        requires fits { K.fits self.now.work.now state }
        ensures { IfOk result (λ h. h.promise ≡ record { work = self.now.work; board = self.now.board }) }
    {
        let stack = match self.stack_size {
            Some(size) => Stack::new().stack_size(size),
            None => Stack::new(),
        };
        let Crew {
            alloc,
            work,
            board,
            ..
        } = *self;
        let promise = Brings { work, board };
        match stack.spawn_scoped_with(scope, promise, move || {
            work_through(alloc, board, work, seat, state)
        }) {
            Ok(handle) => Ok(handle),
            Err(_) => Err(Refused::Thread),
        }
    }
}

/// The workers' threads that were started.
struct Started<'s, K: Work> {
    of: Brings<'s, K>,
    handles: Vec<Handle<'s, K>>,
    ghost same: { All (λ h. h.promise ≡ of) handles.items },
}

impl<'s, K: Work> Started<'s, K>
where
    K::Out: Drop,
{
    fn none(crew: &Crew<'s, K>) -> Started<'s, K>
        ensures of { result.of ≡ record { work = crew.now.work; board = crew.now.board } }
        ensures none { (result.handles.items ≡ []) × (vec_len result.handles ≡ 0) }
    {
        Started {
            of: Brings {
                work: crew.work,
                board: crew.board,
            },
            handles: Vec::new(crew.alloc),
        }
    }

    // Keeps a worker's handle, or joins the worker if there is no memory for it.
    fn keep<R: Threads>(&mut self, rt: &R, handle: Handle<'s, K>) -> Result<(), Refused>
        requires { handle.promise ≡ self.old.of }
        ensures of { self.new.of ≡ self.old.of }
        ensures len { OnOk result (vec_len self.new.handles ≡ vec_len self.old.handles + 1) }
    {
        match self.handles.push(handle) {
            Ok(()) => Ok(()),
            Err(refused) => {
                drop(refused.value.join(rt));
                Err(Refused::Memory)
            }
        }
    }

    // Joins every worker, and gathers their results.
    fn join_all<R: Threads>(self, rt: &R, alloc: Global) -> Result<Gathered<K::Out>, AllocError>
        ensures { IfOk result (IsBrought (K.gives self.entry.of.work.now) K.short self.entry.of.board.now.id (vec_len self.entry.handles)) }
    {
        let Started { of: _, handles } = self;
        let mut gathered = nothing(alloc);
        for handle in handles {
            gathered = gather(gathered, handle.join(rt));
        }
        gathered
    }
}
