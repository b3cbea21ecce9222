//! The barrier on the way to a path: the leftmost directory above it that is a symbolic link or has a fault.

ghost use Rattle.std.specs.Prelude.{◌≤◌, ◌+◌, IsTrue, IfSome};
ghost use Rattle.status_base.specs.Barriers.{IsWay, IsWaySeen, IsStopAbove, IsBarrier, IsBarrierSeen, IsOfDirectory, looked_at};
ghost use Rattle.status_base.specs.CheckState.{IsClearBelow};
ghost use Rattle.status_base.specs.LinkCheck.{barrier_of};
ghost use Rattle.status_base.specs.Sights.{IsOpenBelow};
ghost use Rattle.status_index.specs.Content.{saturate};

use crate::stack::error::StackError;
use crate::worktree::{NodeKind, Worktree};
use bstr::BStr;

/// A directory that bars the way to a path below it: the length of the directory's path, and the error.
#[derive(Clone, Copy)]
pub(crate) struct Stop<'p> {
    pub(crate) at: usize,
    pub(crate) error: StackError<'p>,
}

/// Returns the leftmost proper directory prefix of a path that is a link or has a fault, among those of at least
/// `from` bytes. Each call of `lstat` is counted in `looks`.
pub(crate) fn first_barrier<'p, W: Worktree>(
    worktree: &W,
    path: &'p [u8],
    from: usize,
    looks: &mut u64,
) -> Option<Stop<'p>>
    ensures way { IsTrue (W.modelled worktree.now) → IsClearBelow (W.lstat_of worktree.now) path.now from → IsWay (W.lstat_of worktree.now) path.now result }
    ensures seen { IsOpenBelow (W.may_stat worktree.now) path.now from → IsWaySeen (W.may_stat worktree.now) path.now result }
    ensures stop { IfSome result (IsStopAbove path.now) }
    ensures behind { IfSome result (λ stop. from ≤ stop.at) }
    ensures looks { looks.old ≤ looks.new }
    ensures few { looks.new ≤ looks.old + looked_at path.now from result }
    ensures counted { saturate (looks.old + looked_at path.now from result) ≤ looks.new }
{
    for at in from..path.len() {
        if path[at] == b'/' {
            *looks = looks.saturating_add(1);
            if let Some(error) = barrier(worktree, &path[..at]) {
                return Some(Stop { at, error });
            }
        }
    }
    None
}

/// Returns why no path may lead through a directory: it is a link, or has a fault.
fn barrier<'p, W: Worktree>(worktree: &W, directory: &'p [u8]) -> Option<StackError<'p>>
    ensures barrier { IsTrue (W.modelled worktree.now) → IsBarrier directory.now (barrier_of (W.lstat_of worktree.now directory.now)) result }
    ensures seen { IsBarrierSeen (W.may_stat worktree.now) directory.now result }
    ensures of_directory { IfSome result (IsOfDirectory directory.now) }
{
    let prefix = BStr::new(directory);
    match worktree.lstat(prefix) {
        Ok(node) if node.kind == NodeKind::Link => Some(StackError::ThroughLink { prefix }),
        Ok(_) => None,
        Err(fault) => Some(StackError::Fault(fault)),
    }
}
