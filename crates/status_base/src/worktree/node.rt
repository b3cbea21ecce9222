//! The nodes of a worktree in memory.

ghost use Rattle.std.specs.Prelude.{◌≡◌, ◌<◌, [], Some};
ghost use Rattle.status_base.specs.MemoryTree.{bare_directory};
ghost use Rattle.status_base.specs.Nodes.{placed_of, plain_node};

use status_index::{Metadata, NodeKind, Time};
use std::alloc::{AllocError, Global};
use thiserror::Error;

/// A node of a worktree in memory: the metadata that `lstat` reports, and the node's bytes.
#[derive(Debug, Drop)]
pub struct Node {
    /// The type of the node.
    pub kind: NodeKind,
    /// The bytes of a file's content, or a link's target.
    pub bytes: Vec<u8>,
    /// The length that `lstat` reports, which may differ from the number of bytes.
    pub len: u64,
    /// Whether a regular file's owner may execute it.
    pub executable: bool,
    /// When the content was last changed. None if that is unknown.
    pub mtime: Option<Time>,
    /// When the metadata was last changed. None if that is unknown.
    pub ctime: Option<Time>,
    /// The device.
    pub dev: u32,
    /// The inode.
    pub ino: u32,
    /// The owner.
    pub uid: u32,
    /// The owner's group.
    pub gid: u32,
}

impl Node {
    /// Returns a regular file of this content, which isn't executable. Both times are the given one. Device, inode and
    /// owners are 0.
    pub fn file(content: Vec<u8>, time: Time) -> Node
        ensures { placed_of result ≡ plain_node NodeKind.File content.items time }
    {
        Node::plain(NodeKind::File, content, time)
    }

    /// Returns a symbolic link to this target. Both times are the given one. Device, inode and owners are 0.
    pub fn link(target: Vec<u8>, time: Time) -> Node
        ensures { placed_of result ≡ plain_node NodeKind.Link target.items time }
    {
        Node::plain(NodeKind::Link, target, time)
    }

    /// Returns a directory. Its times are 1970, and everything else is 0. A directory needs to be put only if no node
    /// is below it.
    pub fn directory(alloc: Global) -> Node
        ensures { placed_of result ≡ plain_node NodeKind.Directory [] (record { secs = 0; nsecs = 0 }) }
    {
        let never = Time { secs: 0, nsecs: 0 };
        Node::plain(NodeKind::Directory, Vec::new(alloc), never)
    }

    /// Returns a node of these bytes, whose length is their number.
    fn plain(kind: NodeKind, bytes: Vec<u8>, time: Time) -> Node
        ensures { placed_of result ≡ plain_node kind bytes.items time }
    {
        Node {
            kind,
            len: bytes.len() as u64,
            bytes,
            executable: false,
            mtime: Some(time),
            ctime: Some(time),
            dev: 0,
            ino: 0,
            uid: 0,
            gid: 0,
        }
    }

    /// Returns the metadata that `lstat` reports of the node.
    pub fn metadata(&self) -> Metadata
        ensures { result ≡ (placed_of self.now).metadata }
    {
        Metadata {
            kind: self.kind,
            len: self.len,
            executable: self.executable,
            mtime: self.mtime,
            ctime: self.ctime,
            dev: self.dev,
            ino: self.ino,
            uid: self.uid,
            gid: self.gid,
        }
    }
}

/// Why a node can't be put.
#[derive(Clone, Copy, Debug, PartialEq, Eq, Error)]
pub enum TreeError {
    /// The path is empty, or a component is empty, `.` or `..`.
    #[error("bad path")]
    BadPath,
    /// A node above the path isn't a directory, or the node isn't a directory and another is below the path.
    #[error("in the way")]
    InTheWay,
    /// Out of memory.
    #[error("Out of memory")]
    Memory,
}

impl From<AllocError> for TreeError {
    ghost use Rattle.std.specs.Prelude.{◌≡◌};
    ghost use Rattle.status_base.specs.declared.worktree.node.TreeError.TheVariants.{Memory};

    ghost from_gives = { λ _ e. e ≡ Memory };

    fn from(_error: AllocError) -> TreeError {
        TreeError::Memory
    }
}

/// Returns the metadata that `lstat` reports of a directory that wasn't put.
pub(crate) fn bare_directory() -> Metadata
    ensures { result ≡ bare_directory }
{
    let never = Some(Time { secs: 0, nsecs: 0 });
    Metadata {
        kind: NodeKind::Directory,
        len: 0,
        executable: false,
        mtime: never,
        ctime: never,
        dev: 0,
        ino: 0,
        uid: 0,
        gid: 0,
    }
}
