//! The considered entries, processed round by round, and reported in order.

ghost use Rattle.std.specs.Prelude.{◌≤◌, length, ◌≡◌, ◌+◌, ◌-◌, ◌*◌, ◌^◌, ◌<◌, vec_len, IfOk};
ghost use Rattle.status_call.specs.Rounds.{AreBounds, bound, last_bound, ArePieces};
ghost use Rattle.status_call.specs.Considered.{part_entries};
ghost use Rattle.status_call.specs.Runs.{IsRoundsReport};
ghost use Rattle.status_call.specs.Pieces.{IsCut};

use crate::index_as_worktree::considered::Considered;
use crate::index_as_worktree::counts::{Progress, Totals};
use crate::index_as_worktree::piece::{is_set, piece_end};
use crate::index_as_worktree::round::run_round;
use crate::index_as_worktree::step::Decide;
use crate::index_as_worktree::types::{Error, VisitEntry};
use crate::index_as_worktree::workers::Workers;
use std::alloc::{AllocError, Global};
use std::sync::Wait;
use std::thread::Threads;

/// The greatest number of pieces of the first round for each worker.
const FIRST_PIECES: usize = 8;

/// From how many entries for each worker on the rounds don't grow any more.
const MOST_ENTRIES: usize = 16_000;

/// From how many pieces on the rounds don't grow any more.
const MOST_PIECES: usize = 0x1_0000;

/// Processes the considered entries in rounds of pieces, and reports the pieces' findings to the collector in index
/// order. Ends early if the interrupt flag is set. The first round is small, so that a flag that the collector sets ends
/// the call early; each later one is twice as large, since at the end of a round workers wait for each other.
///
/// # Errors
/// The first fault, after the records before it were reported. A refused thread; then no record of its round was
/// reported. Out of memory.
pub fn run_rounds<
    'index,
    R: Threads + Wait,
    D: Decide + Send + Drop,
    V: VisitEntry<'index, ContentChange = D::Content, SubmoduleStatus = D::Submodule>,
>(
    considered: &Considered<'index>,
    piece_len: usize,
    workers: &Workers<'_, R>,
    decider: &D,
    collector: &mut V,
) -> Result<Progress, Error>
where
    D::Content: Send,
    D::Submodule: Send,
    ensures { let c = considered.entry.now in
        IsRoundsReport (D.query decider.now) (D.allows decider.now) c workers.entry.now 0 (length (part_entries c))
        (V.visits collector.old) result (V.visits collector.new) }
{
    let mut totals = Totals::none();
    let mut at = 0;
    let mut most_pieces = workers.count * FIRST_PIECES;
    while at < considered.len() {
        if is_set(workers.interrupt) {
            return Ok(Progress {
                totals,
                interrupted: true,
            });
        }
        let Ok(bounds) = round_bounds(workers.alloc, considered, at, piece_len, most_pieces) else {
            return Err(Error::Memory);
        };
        let needed = workers.for_pieces(bounds.len() - 1);
        let bounds = bounds.as_slice();
        let progress = match run_round(considered, bounds, &needed, decider, collector) {
            Ok(progress) => progress,
            Err(error) => return Err(error),
        };
        totals.add(&progress.totals);
        if progress.interrupted {
            return Ok(Progress {
                totals,
                interrupted: true,
            });
        }
        at = bounds[bounds.len() - 1];
        most_pieces = most_after(most_pieces, piece_len, workers.count * MOST_ENTRIES);
    }
    Ok(Progress {
        totals,
        interrupted: false,
    })
}

/// Returns how many pieces the round after one of so many pieces may have: twice as many, until a round has so many
/// entries.
fn most_after(pieces: usize, piece_len: usize, most_entries: usize) -> usize
    ensures no_less { pieces ≤ result }
    ensures few { pieces ≤ 2 ^ 18 → result ≤ 2 ^ 18 }
{
    if pieces < MOST_PIECES && pieces.saturating_mul(piece_len) < most_entries {
        2 * pieces
    } else {
        pieces
    }
}

/// Returns the bounds of at most `most` pieces from position `from` on: the start of the first, and the end of each.
/// There are fewer pieces only if the last ends with the entries.
pub(crate) fn round_bounds(
    alloc: Global,
    considered: &Considered<'_>,
    from: usize,
    piece_len: usize,
    most: usize,
) -> Result<Vec<usize>, AllocError>
    requires inside { from < length (part_entries considered.now) }
    requires cut { IsCut (part_entries considered.now) from }
    requires most { 0 < most }
    ensures bounds { IfOk result (λ b. AreBounds (part_entries considered.now) b.items) }
    ensures first { IfOk result (λ b. bound b.items 0 ≡ from) }
    ensures few { IfOk result (λ b. vec_len b ≤ most + 1) }
    ensures pieces { IfOk result
        (λ b. ArePieces (part_entries considered.now) piece_len b.items) }
    ensures filled { IfOk result (λ b. vec_len b ≤ most → last_bound b.items ≡ length (part_entries considered.now)) }
{
    let mut bounds = Vec::new(alloc);
    bounds.push(from)?;
    let mut at = from;
    while at < considered.len() && bounds.len() <= most {
        at = piece_end(considered, at, piece_len);
        bounds.push(at)?;
    }
    Ok(bounds)
}
