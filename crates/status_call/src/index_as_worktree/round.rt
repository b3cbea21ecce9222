//! One round: pieces of the considered entries, which workers share, and whose findings are reported in order.

ghost use Rattle.std.specs.Prelude.{◌^◌, ◌≤◌, length, ◌≡◌, ◌+◌, ◌-◌, vec_len, All, IfOk, IfErr, is_some};
ghost use Rattle.status_call.specs.Rounds.{AreBounds, bound, last_bound, AreInRow, IsResult, is_short};
ghost use Rattle.status_call.specs.Considered.{part_entries};
ghost use Rattle.status_call.specs.Runs.{IsRoundsReport};
ghost use Rattle.status_call.specs.Views.{SeesWithin};
ghost use Rattle.status_call.specs.WorkInOrder.{IsShortage, shortage_of};

use crate::index_as_worktree::considered::Considered;
use crate::index_as_worktree::counts::{Progress, Totals};
use crate::index_as_worktree::piece::{End, Piece, compare_piece, feed_piece};
use crate::index_as_worktree::step::Decide;
use crate::index_as_worktree::types::{Error, VisitEntry};
use crate::index_as_worktree::workers::Workers;
use status_board::round::{Refused, work_round};
use status_board::work::Work;
use std::alloc::{AllocError, Global};
use std::snapshot::Snapshot;
use std::sync::Wait;
use std::sync::atomic::AtomicBool;
use std::thread::Threads;

/// Processes the entries between the bounds, and reports the pieces' findings to the collector.
///
/// # Errors
/// Those of `run_rounds`.
pub(crate) fn run_round<
    'index,
    R: Threads + Wait,
    D: Decide + Send + Drop,
    V: VisitEntry<'index, ContentChange = D::Content, SubmoduleStatus = D::Submodule>,
>(
    considered: &Considered<'index>,
    bounds: &[usize],
    workers: &Workers<'_, R>,
    decider: &D,
    collector: &mut V,
) -> Result<Progress, Error>
where
    D::Content: Send,
    D::Submodule: Send,
    requires bounds { AreBounds (part_entries considered.now) bounds.now }
    requires few { length bounds.now ≤ 2 ^ 20 }
    ensures { IsRoundsReport (D.query decider.now) (D.allows decider.now) considered.entry.now workers.entry.now (bound bounds.now 0)
        (last_bound bounds.now)
        (V.visits collector.old) result (V.visits collector.new) }
{
    let pieces = match run_pieces(considered, bounds, workers, decider) {
        Ok(pieces) => pieces,
        Err(error) => return Err(error),
    };
    let mut totals = Totals::none();
    for piece in pieces {
        let fed = match feed_piece(considered, piece, collector) {
            Ok(fed) => fed,
            Err(error) => return Err(error),
        };
        totals.add(&fed.totals);
        if fed.interrupted {
            return Ok(Progress {
                totals,
                interrupted: true,
            });
        }
    }
    Ok(Progress {
        totals,
        interrupted: false,
    })
}

/// The pieces of a round: the considered entries from each bound to the next.
#[derive(Drop)]
struct Round<'a, 'index, D: Decide> {
    alloc: Global,
    considered: &'a Considered<'index>,
    bounds: &'a [usize],
    interrupt: Option<&'a AtomicBool>,
    decider: Snapshot<D>,
    ghost are_bounds: { AreBounds (part_entries considered.now) bounds.now },
}

impl<'a, 'index, D: Decide> Work for Round<'a, 'index, D> {
    type State = D;

    type Out = Piece<D::Content, D::Submodule>;

    ghost count = { λ r. length r.bounds.now - 1 };

    ghost fits = { λ r d. (D.query d ≡ D.query r.decider.value)
        × SeesWithin (D.allows d) (D.allows r.decider.value) };

    ghost gives = { λ r n p. IsResult (D.query r.decider.value) (D.allows r.decider.value) (is_some r.interrupt) r.considered.now.start
        (part_entries r.considered.now)
        (bound r.bounds.now n) (bound r.bounds.now (n + 1)) p };

    ghost short = { λ p. is_short p.end };

    fn pieces(&self) -> usize {
        self.bounds.len() - 1
    }

    fn piece(&self, state: &mut D, number: usize) -> Piece<D::Content, D::Submodule> {
        let range = self.bounds[number]..self.bounds[number + 1];
        compare_piece(self.alloc, self.considered, range, self.interrupt, state)
    }

    fn is_short(out: &Piece<D::Content, D::Submodule>) -> bool
        ensures { result ≡ is_short out.now.end }
    {
        !matches!(out.end, End::Whole)
    }
}

/// Returns this many deciders of the same query, one for each worker. None may see more than the first.
fn deciders_for<D: Decide + Drop>(
    alloc: Global,
    decider: &D,
    count: usize,
) -> Result<Vec<D>, AllocError>
    ensures count { IfOk result (λ v. vec_len v ≡ count) }
    ensures same { IfOk result (λ v. All (λ d. (D.query d ≡ D.query decider.now)
        × SeesWithin (D.allows d) (D.allows decider.now)) v.items) }
{
    let mut deciders = Vec::new(alloc);
    for _ in 0..count {
        deciders.push(decider.another()?)?;
    }
    Ok(deciders)
}

/// Processes the entries between the bounds with `workers.count` workers. Returns the pieces in order, up to the first
/// that didn't reach its end.
///
/// # Errors
/// A refused thread, otherwise out of memory.
fn run_pieces<R: Threads + Wait, D: Decide + Send + Drop>(
    considered: &Considered<'_>,
    bounds: &[usize],
    workers: &Workers<'_, R>,
    decider: &D,
) -> Result<Vec<Piece<D::Content, D::Submodule>>, Error>
where
    D::Content: Send,
    D::Submodule: Send,
    requires bounds { AreBounds (part_entries considered.now) bounds.now }
    requires few { length bounds.now ≤ 2 ^ 20 }
    ensures pieces { IfOk result
        (λ v. AreInRow (D.query decider.now) (D.allows decider.now) (is_some workers.now.interrupt) considered.now.start
        (part_entries considered.now) (last_bound bounds.now) (bound bounds.now 0)
        v.items) }
    ensures refused { IfErr result (λ e. IsShortage workers.entry.now.count e) }
{
    let Ok(deciders) = deciders_for(workers.alloc, decider, workers.count) else {
        return Err(Error::Memory);
    };
    let round = Round {
        alloc: workers.alloc,
        considered,
        bounds,
        interrupt: workers.interrupt,
        decider: Snapshot::of(decider),
    };
    match work_round(
        workers.rt,
        workers.alloc,
        workers.stack_size,
        &round,
        deciders,
    ) {
        Ok(pieces) => Ok(pieces),
        Err(refused) => Err(shortage(refused)),
    }
}

/// Returns the error of a round that couldn't be processed.
fn shortage(refused: Refused) -> Error
    ensures { result ≡ shortage_of refused }
{
    match refused {
        Refused::Thread => Error::SpawnThread,
        Refused::Memory => Error::Memory,
    }
}
