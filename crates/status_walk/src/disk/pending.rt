//! The nodes that a walk over a folder still has to visit.

use crate::disk::listing::fault_at;
use crate::{Kind, WalkError};
use bstr::BStr;
use status_base::worktree::{Fault, NodeKind, Worktree};
use std::alloc::Global;
use std::collections::BTreeMap;

/// The nodes that a walk still has to visit, in ascending order of their paths. A directory's path ends in a slash, so
/// that it has the position of the paths below it.
#[derive(Drop)]
pub(crate) struct Pending {
    alloc: Global,
    nodes: BTreeMap<String, Kind>,
}

impl Pending {
    /// Returns the folder itself, whose path is empty, as the only node to visit.
    ///
    /// # Errors
    /// If an allocation fails.
    pub(crate) fn root(alloc: Global) -> Result<Pending, WalkError> {
        let mut pending = Pending {
            alloc,
            nodes: BTreeMap::new(alloc),
        };
        pending.put(String::new(alloc), Kind::Directory)?;
        Ok(pending)
    }

    /// Removes the first node, and returns it.
    pub(crate) fn pop(&mut self) -> Option<(String, Kind)> {
        self.nodes.pop_first()
    }

    /// Adds the node of this name in a directory. A node that is already gone is skipped.
    ///
    /// # Errors
    /// The fault of its `lstat`, or that memory ran out.
    pub(crate) fn add<W: Worktree>(
        &mut self,
        worktree: &W,
        directory: &str,
        name: &str,
    ) -> Result<(), WalkError> {
        let mut path = String::from_str(self.alloc, directory)?;
        path.push_str(name)?;
        match worktree.lstat(BStr::new(path.as_bytes())) {
            Ok(node) if node.kind == NodeKind::Directory => {
                path.push('/')?;
                self.put(path, Kind::Directory)
            }
            Ok(node) => self.put(path, kind_of(node.kind)),
            Err(Fault::NotFound) => Ok(()),
            Err(fault) => Err(fault_at(self.alloc, path.as_str(), fault)),
        }
    }

    fn put(&mut self, path: String, kind: Kind) -> Result<(), WalkError> {
        match self.nodes.insert(path, kind) {
            Ok(_replaced) => Ok(()),
            Err(_refused) => Err(WalkError::Memory),
        }
    }
}

/// Returns the type of a node in a walk's entry.
fn kind_of(kind: NodeKind) -> Kind {
    match kind {
        NodeKind::File => Kind::File,
        NodeKind::Link => Kind::Symlink,
        NodeKind::Directory => Kind::Directory,
        NodeKind::Other => Kind::Untrackable,
    }
}
