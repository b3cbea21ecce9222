//! The list with its renames and copies, and its report.

ghost use Rattle.std.specs.Prelude.{◌≡◌, IfOk, map, not, All};
ghost use Rattle.std.specs.List.{count_by};
ghost use Rattle.status_rewrites.specs.Entries.{map_rewritten, IsLed};
ghost use Rattle.status_joined.specs.Items.{is_walked};
ghost use Rattle.status_joined.specs.ListItems.{item_of};
ghost use Rattle.status_joined.specs.RewritingAnswers.{IsListFedBy, IsRewritingAnswer};

use crate::index_as_worktree_with_renames::error::{Error, id_error, refused_error};
use crate::index_as_worktree_with_renames::recorder::{VisitEntry, feed_items, feed_rewritten};
use crate::index_as_worktree_with_renames::rewrites::Outcome;
use crate::index_as_worktree_with_renames::types::{Call, ExactClone};
use crate::item::Identify;
use crate::{ModificationOrDirwalkEntry, identify};
use status_rewrites::{Pair, Rewrites, Rewritten, Tracker, rewrite};

/// A list with its renames and copies, and their numbers.
#[derive(Drop)]
pub(crate) struct RewrittenList<'index, T, U> {
    pub(crate) entries: Vec<Rewritten<ModificationOrDirwalkEntry<'index, T, U>>>,
    pub(crate) outcome: Outcome,
}

/// Counts the renames and the copies among the pairs.
fn count(pairs: &[Pair]) -> Outcome
    ensures renames { result.renames ≡ count_by (λ p. not p.copy) pairs.now }
    ensures copies { result.copies ≡ count_by (λ p. p.copy) pairs.now }
{
    let copies = pairs.iter().filter(|pair| pair.copy).count();
    Outcome {
        renames: pairs.len() - copies,
        copies,
    }
}

/// Computes the ids of the list's nodes, asks the tracker, and rewrites the list by the tracker's pairs.
///
/// # Errors
/// The fault of the first node whose id can't be computed; or the tracker's refusal, or the first of its pairs that
/// breaks a rule. `Error::Memory` if an allocation fails.
fn rewrite_list<'index, N: Identify, X: Tracker, T: ExactClone, U: ExactClone>(
    call: &Call<'_>,
    ids: &N,
    tracker: &mut X,
    rewrites: Rewrites,
    mut items: Vec<ModificationOrDirwalkEntry<'index, T, U>>,
) -> Result<RewrittenList<'index, T, U>, Error>
    ensures answer { IsRewritingAnswer (N.identifying ids.now) call.now.options.object_hash (X.tracks tracker.old) rewrites items.entry.items result }
    ensures led { IfOk result (λ r. All (IsLed is_walked) (map (map_rewritten item_of) r.entries.items)) }
{
    if let Err(error) = identify(call.alloc, call.options.object_hash, ids, &mut items) {
        return Err(id_error(error));
    }
    let pairs = match tracker.pairs(items.as_slice(), rewrites) {
        Ok(pairs) => pairs,
        Err(error) => return Err(Error::from(error)),
    };
    let outcome = count(pairs.as_slice());
    match rewrite(call.alloc, items, pairs.as_slice()) {
        Ok(entries) => Ok(RewrittenList { entries, outcome }),
        Err(refused) => Err(refused_error(refused)),
    }
}

/// Reports a list to a collector. If the options have `rewrites`, this is the list that `rewrite_list` returns;
/// otherwise each item alone. Returns the numbers of renames and copies if they are searched for.
///
/// # Errors
/// Those of `rewrite_list`. Then nothing was reported. `Error::Memory` also if the collector is out of memory. Then the
/// entries before the one that it didn't take were reported.
pub(crate) fn report_list<'index, N: Identify, X: Tracker + Drop, V: VisitEntry<'index>>(
    call: &Call<'_>,
    ids: &N,
    mut tracker: X,
    items: Vec<ModificationOrDirwalkEntry<'index, V::ContentChange, V::SubmoduleStatus>>,
    collector: &mut V,
) -> Result<Option<Outcome>, Error>
where
    V::ContentChange: ExactClone + Drop,
    V::SubmoduleStatus: ExactClone + Drop,
    ensures { IsListFedBy (N.identifying ids.now) (X.tracks tracker) call.now.options (map item_of items.entry.items)
        V.fails (V.visits collector.old) result (V.visits collector.new) }
{
    let Some(rewrites) = call.options.rewrites else {
        return match feed_items(items, collector) {
            Ok(()) => Ok(None),
            Err(_refused) => Err(Error::Memory),
        };
    };
    let list = match rewrite_list(call, ids, &mut tracker, rewrites, items) {
        Ok(list) => list,
        Err(error) => return Err(error),
    };
    match feed_rewritten(list.entries, collector) {
        Ok(()) => Ok(Some(list.outcome)),
        Err(_refused) => Err(Error::Memory),
    }
}
