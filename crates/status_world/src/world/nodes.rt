//! Events that change files and links.

ghost use Rattle.std.specs.Prelude.{◌≡◌, IfOk, true, is_some};
ghost use Rattle.bstr.specs.BStr.{bstr_bytes};
ghost use Rattle.status_base.specs.Nodes.{placed_of};
ghost use Rattle.status_base.specs.MemoryTree.{is_no_directory_kind};
ghost use Rattle.status_world.specs.EventAnswers.{IsChanged, IsWriteApplied, tree_refusal};
ghost use Rattle.status_world.specs.Moments.{stamp_of};
ghost use Rattle.status_world.specs.StampedWorld.{written, is_executable_at, with_executability, node_at, stored_node};
ghost use Rattle.status_world.specs.declared.world.event.Event.TheVariants as events;

use crate::world::event::Refusal;
use crate::world::state::World;
use bstr::{BStr, BString};
use status_base::worktree::memory::is_bad_path;
use status_base::worktree::{Node, NodeKind, TreeError};
use status_index::{Moment, Time};
use std::alloc::{AllocError, Global};

/// The least number of bytes that is too large for a file or a link's target.
const TOO_MANY_BYTES: u64 = 1 << 32;

impl World {
    /// Writes a regular file, which stays executable if it was.
    pub(crate) fn write(&mut self, path: &BString, bytes: &Vec<u8>) -> Result<(), Refusal>
        ensures { IsChanged (events.Write path.now bytes.now) self.old result self.new }
    {
        let executable = self.is_executable(path.as_bstr());
        self.put(path.as_bstr(), NodeKind::File, executable, bytes)
    }

    /// Makes a symbolic link.
    pub(crate) fn link(&mut self, path: &BString, target: &Vec<u8>) -> Result<(), Refusal>
        ensures { IsChanged (events.Link path.now target.now) self.old result self.new }
    {
        self.put(path.as_bstr(), NodeKind::Link, false, target)
    }

    /// Makes a regular file executable, or not executable.
    pub(crate) fn set_executable(&mut self, path: &BString, executable: bool) -> Result<(), Refusal>
        ensures { IsChanged (events.SetExecutable path.now executable) self.old result self.new }
    {
        let path = path.as_bstr();
        if is_bad_path(path) {
            return Err(Refusal::BadPath);
        }
        let parts = &mut self.parts;
        let node = match parts.worktree.node(path) {
            Some(node) if node.kind == NodeKind::File => changed_node(
                parts.alloc,
                parts.clock,
                executable,
                node,
            )?,
            _ => return Err(Refusal::NotAFile),
        };
        // A node may always replace the node at its path, so only an allocation can fail.
        parts.worktree.put(path, node).map_err(|_| Refusal::Memory)
    }

    /// Removes a file or link.
    pub(crate) fn remove(&mut self, path: &BString) -> Result<(), Refusal>
        ensures { IsChanged (events.Remove path.now) self.old result self.new }
    {
        let path = path.as_bstr();
        if is_bad_path(path) {
            return Err(Refusal::BadPath);
        }
        if !self.is_stored(path) {
            return Err(Refusal::NotAFile);
        }
        self.parts.worktree.remove(path);
        Ok(())
    }

    /// Returns whether there is a file or link at a path.
    fn is_stored(&self, path: BStr<'_>) -> bool
        ensures { result ≡ is_some (stored_node (node_at self.now (bstr_bytes path.entry))) }
    {
        match self.parts.worktree.node(path) {
            Some(node) => matches!(node.kind, NodeKind::File | NodeKind::Link),
            None => false,
        }
    }

    /// Returns whether there is an executable file at a path.
    fn is_executable(&self, path: BStr<'_>) -> bool
        ensures { result ≡ is_executable_at (node_at self.now (bstr_bytes path.entry)) }
    {
        match self.parts.worktree.node(path) {
            Some(node) => node.kind == NodeKind::File && node.executable,
            None => false,
        }
    }

    /// Puts a file or link that is written at the clock's moment.
    #[tactic(auto, using(crate::proofs::TreeLaws::free_above))]
    fn put(
        &mut self,
        path: BStr<'_>,
        kind: NodeKind,
        executable: bool,
        bytes: &[u8],
    ) -> Result<(), Refusal>
        requires { is_no_directory_kind kind ≡ true }
        ensures { IsWriteApplied (bstr_bytes path.entry) bytes.now (written self.old.clock kind executable bytes.now) self.old result self.new }
    {
        if is_bad_path(path) {
            return Err(Refusal::BadPath);
        }
        let parts = &mut self.parts;
        // Checked before the bytes are copied, so that a refused write allocates no memory for them.
        parts.worktree.check_put(path, kind).map_err(refusal_of)?;
        if bytes.len() as u64 >= TOO_MANY_BYTES {
            return Err(Refusal::TooLarge);
        }
        let node = written_node(parts.alloc, parts.clock, kind, executable, bytes)?;
        parts.worktree.put(path, node).map_err(refusal_of)
    }
}

/// Returns a file or link that is written at the moment `clock`.
fn written_node(
    alloc: Global,
    clock: Moment,
    kind: NodeKind,
    executable: bool,
    bytes: &[u8],
) -> Result<Node, AllocError>
    ensures { IfOk result (λ node. placed_of node ≡ written clock kind executable bytes.now) }
{
    let stamp = Some(stamp_of(clock));
    Ok(Node {
        kind,
        bytes: Vec::from_slice(alloc, bytes)?,
        len: bytes.len() as u64,
        executable,
        mtime: stamp,
        ctime: stamp,
        dev: 0,
        ino: 0,
        uid: 0,
        gid: 0,
    })
}

/// Returns a copy of a node whose executability is set at the moment `clock`.
fn changed_node(
    alloc: Global,
    clock: Moment,
    executable: bool,
    node: &Node,
) -> Result<Node, AllocError>
    ensures { IfOk result (λ n. placed_of n ≡ with_executability clock executable (placed_of node.now)) }
{
    Ok(Node {
        kind: node.kind,
        bytes: Vec::from_slice(alloc, &node.bytes)?,
        len: node.len,
        executable,
        mtime: node.mtime,
        ctime: Some(stamp_of(clock)),
        dev: node.dev,
        ino: node.ino,
        uid: node.uid,
        gid: node.gid,
    })
}

/// Returns a moment as the time of a file.
fn stamp_of(moment: Moment) -> Time
    ensures { result ≡ stamp_of moment }
{
    Time {
        secs: moment.secs,
        nsecs: moment.nsecs,
    }
}

/// Returns the refusal of an event whose node can't be put.
fn refusal_of(error: TreeError) -> Refusal
    ensures { result ≡ tree_refusal error }
{
    match error {
        TreeError::BadPath => Refusal::BadPath,
        TreeError::InTheWay => Refusal::InTheWay,
        TreeError::Memory => Refusal::Memory,
    }
}
