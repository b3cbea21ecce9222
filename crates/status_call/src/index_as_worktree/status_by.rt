//! The status of an index, for any decider of its entries.

ghost use Rattle.std.specs.Prelude.{◌≡◌, None, IfOk, false, length};
ghost use Rattle.status_call.specs.Counts.{outcome_of};
ghost use Rattle.status_call.specs.StatusOf.{IsFaultOrMemory, IsThreadless, OneThreadSpawnsNone};
ghost use Rattle.status_call.specs.StatusSeen.{IsStatusSeen};
ghost use Rattle.status_call.specs.StatusTheorem.{IsStatusReport};
ghost use Rattle.status_call.specs.Views.{nothing_seen};
ghost use Rattle.status_index.specs.Entries.{IndexEntry};

use crate::index_as_worktree::considered::Considered;
use crate::index_as_worktree::counts::Progress;
use crate::index_as_worktree::run_rounds::run_rounds;
use crate::index_as_worktree::run_serially::run_serially;
use crate::index_as_worktree::step::Decide;
use crate::index_as_worktree::types::{Error, Outcome, VisitEntry};
use crate::index_as_worktree::workers::{Execution, Workers};
use status_index::State;
use std::sync::Wait;
use std::thread::Threads;

/// Returns the outcome of a call that made this progress with the considered entries.
fn outcome_of(progress: Progress, considered: &Considered<'_>) -> Outcome
    ensures { result ≡ outcome_of progress (length considered.now.entries.now)
        (record { start = considered.now.start; end = considered.now.end }) }
{
    let range = considered.start..considered.end;
    Outcome::of(progress, considered.entries.len(), range)
}

/// States that of any entry nothing may have been seen. This does nothing when it runs.
fn allow_nothing_seen<D: Decide>(_decider: &D)
    ensures { (e : IndexEntry) → D.allows _decider.now e nothing_seen }
{}

/// Reports to `collector` how the worktree that `decider` compares differs from `index`, entry by entry in index order,
/// and returns the counts. If the interrupt flag is seen set, the call ends early, and the outcome reports that.
///
/// # Errors
/// The fault of the first entry that has one, after the records before it were reported. A refused thread or out of
/// memory, after a beginning of the records was reported.
pub fn status_by<
    'index,
    R: Threads + Wait,
    D: Decide + Send + Drop,
    V: VisitEntry<'index, ContentChange = D::Content, SubmoduleStatus = D::Submodule>,
>(
    rt: &R,
    index: &'index State,
    decider: &mut D,
    execution: &Execution<'_>,
    collector: &mut V,
) -> Result<Outcome, Error>
where
    D::Content: Send,
    D::Submodule: Send,
    ensures all { IsStatusReport (D.query decider.old) index.now (V.visits collector.old) result (V.visits collector.new) }
    ensures seen { ∥ IsStatusSeen (D.query decider.old) (D.allows decider.old) index.now (V.visits collector.old) result (V.visits collector.new) ∥₁ }
    ensures uninterrupted { execution.now.interrupt ≡ None → IfOk result (λ o. o.interrupted ≡ false) }
    ensures alone { OneThreadSpawnsNone (D.query decider.old) execution.now.thread_limit result }
{
    allow_nothing_seen(decider);
    let considered = Considered::of(index, decider.common_prefix());
    let piece_len = execution.piece_len();
    let workers = Workers::of(rt, execution);
    match run_rounds(&considered, piece_len, &workers, decider, collector) {
        Ok(progress) => Ok(outcome_of(progress, &considered)),
        Err(error) => Err(error),
    }
}

/// Does what `status_by` does in the caller's thread alone, and returns if each function of the interfaces that it calls
/// returns.
///
/// # Errors
/// The fault of the first entry that has one, after the records before it were reported. Out of memory, after a
/// beginning of the records was reported.
pub fn status_serially<
    'index,
    D: Decide,
    V: VisitEntry<'index, ContentChange = D::Content, SubmoduleStatus = D::Submodule>,
>(
    index: &'index State,
    decider: &mut D,
    execution: &Execution<'_>,
    collector: &mut V,
) -> Result<Outcome, Error>
    ensures all { IsStatusReport (D.query decider.old) index.now (V.visits collector.old) result (V.visits collector.new) }
    ensures seen { ∥ IsStatusSeen (D.query decider.old) (D.allows decider.old) index.now (V.visits collector.old) result (V.visits collector.new) ∥₁ }
    ensures uninterrupted { execution.now.interrupt ≡ None → IfOk result (λ o. o.interrupted ≡ false) }
    ensures threadless { IsThreadless (D.query decider.old) result }
    ensures fault { IsFaultOrMemory (D.query decider.old) index.now (V.visits collector.old) result (V.visits collector.new) }
{
    let considered = Considered::of(index, decider.common_prefix());
    let progress = run_serially(&considered, execution, decider, collector)?;
    Ok(outcome_of(progress, &considered))
}
