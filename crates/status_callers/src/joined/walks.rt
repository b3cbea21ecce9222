//! Walks that pass fixed nodes. None is modelled.

ghost use Rattle.std.specs.Prelude.{◌≡◌, false, None, IfOk};

use bstr::{BStr, BString};
use gix_status::index::State;
use gix_status::walk::{Action, Delegate, DirEntry, Kind, Outcome, Status, Walk, WalkError};
use gix_status::worktree::{Fault, Pathspec, Worktree};
use std::alloc::{AllocError, Global};

/// A node that a walk passes to its delegate.
#[derive(Clone, Copy)]
pub struct Found<'a> {
    pub path: &'a str,
    pub status: Status,
    pub disk_kind: Option<Kind>,
    pub collapsed: Option<Status>,
}

/// An untracked file, without its path.
pub const UNTRACKED: Found<'static> = Found {
    path: "",
    status: Status::Untracked,
    disk_kind: Some(Kind::File),
    collapsed: None,
};

/// The untracked file `b`.
pub const B: Found<'static> = Found {
    path: "b",
    ..UNTRACKED
};

/// The untracked file `c`.
pub const C: Found<'static> = Found {
    path: "c",
    ..UNTRACKED
};

fn entry(alloc: Global, found: &Found<'_>) -> Result<DirEntry, AllocError> {
    Ok(DirEntry {
        rela_path: BString::from_slice(alloc, found.path)?,
        status: found.status,
        disk_kind: found.disk_kind,
    })
}

/// Passes nodes to a delegate, until that ends the walk.
pub fn emit_nodes<D: Delegate>(
    alloc: Global,
    nodes: &[Found<'_>],
    delegate: &mut D,
) -> Result<Outcome, WalkError>
    requires { (D.state delegate.old).cancelled ≡ false }
    ensures { IfOk result (λ outcome. (D.state delegate.new).cancelled ≡ outcome.cancelled) }
{
    for (before, node) in nodes.iter().enumerate() {
        match delegate.emit(entry(alloc, node)?, node.collapsed)? {
            Action::Continue => {}
            Action::Cancel => {
                return Ok(Outcome {
                    emitted: before + 1,
                    cancelled: true,
                });
            }
        }
    }
    Ok(Outcome {
        emitted: nodes.len(),
        cancelled: false,
    })
}

/// Passes these nodes for every worktree and index, and then has a fault at a path, if `fault` is set.
#[derive(Clone, Copy)]
pub struct Passes<'a> {
    pub alloc: Global,
    pub nodes: &'a [Found<'a>],
    pub fault: Option<(&'a str, Fault)>,
}

impl<'a, W: Worktree> Walk<W> for Passes<'a> {
    ghost walking = { λ _ _ _ _ _. None };

    fn walk<P: Pathspec, D: Delegate>(
        &mut self,
        _worktree: &W,
        _index: &State,
        _pathspec: &P,
        delegate: &mut D,
    ) -> Result<Outcome, WalkError> {
        let outcome = emit_nodes(self.alloc, self.nodes, delegate)?;
        let Some((path, fault)) = self.fault else {
            return Ok(outcome);
        };
        Err(WalkError::Fault {
            rela_path: BString::from_slice(self.alloc, path)?,
            fault,
        })
    }
}
