//! The considered entries, processed and reported in order by the caller's thread alone.

ghost use Rattle.std.specs.Prelude.{length, is_some};
ghost use Rattle.status_call.specs.Considered.{part_entries};
ghost use Rattle.status_call.specs.Runs.{IsFaithfulTo};
ghost use Rattle.status_call.specs.WorkInOrder.{IsReportedWork};

use crate::index_as_worktree::considered::Considered;
use crate::index_as_worktree::counts::{Progress, Totals};
use crate::index_as_worktree::piece::{compare_piece, feed_piece, piece_end};
use crate::index_as_worktree::step::Decide;
use crate::index_as_worktree::types::{Error, VisitEntry};
use crate::index_as_worktree::workers::Execution;

/// Processes the considered entries in pieces, and reports a piece's findings to the collector before the next piece is
/// processed. Ends early if the interrupt flag is seen set.
///
/// # Errors
/// The first fault, after the records before it were reported. Out of memory.
pub(crate) fn run_serially<
    'index,
    D: Decide,
    V: VisitEntry<'index, ContentChange = D::Content, SubmoduleStatus = D::Submodule>,
>(
    considered: &Considered<'index>,
    execution: &Execution<'_>,
    decider: &mut D,
    collector: &mut V,
) -> Result<Progress, Error>
    ensures { let c = considered.entry.now in
        IsReportedWork (D.query decider.old) (D.allows decider.old) c.start (part_entries c) 0 (IsFaithfulTo c)
        (is_some execution.now.interrupt) 1 (length (part_entries c))
        (V.visits collector.old) result (V.visits collector.new) }
{
    let piece_len = execution.piece_len();
    let mut totals = Totals::none();
    let mut at = 0;
    while at < considered.len() {
        let to = piece_end(considered, at, piece_len);
        let piece = compare_piece(
            execution.alloc,
            considered,
            at..to,
            execution.interrupt,
            decider,
        );
        let fed = feed_piece(considered, piece, collector)?;
        totals.add(&fed.totals);
        if fed.interrupted {
            return Ok(Progress {
                totals,
                interrupted: true,
            });
        }
        at = to;
    }
    Ok(Progress {
        totals,
        interrupted: false,
    })
}
