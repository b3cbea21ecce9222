//! Ids of the nodes that a walk found.

ghost use Rattle.std.specs.Prelude.{◌≡◌, IsTrue};
ghost use Rattle.bstr.specs.BStr.{bstr_bytes};
ghost use Rattle.status_walk.specs.WorktreeIds.{IsId, IsIdOfFile, converted_id, file_id, is_passed_over, link_id, stored_id, worktree_id};

use crate::walk::Kind;
use bstr::BStr;
use status_base::worktree::{Fault, ToGit, ToGitOutcome, Worktree};
use status_index::{HashKind, ObjectId, compute_hash, compute_stream_hash};
use thiserror::Error;

/// Why the id of a node can't be computed.
#[derive(Clone, Copy, Debug, PartialEq, Eq, Error)]
pub enum IdError {
    /// The file can't be opened, or its `lstat` fails.
    #[error("{0}")]
    Open(Fault),
    /// Reading the file fails.
    #[error("{0}")]
    Hash(Fault),
    /// Reading the link fails.
    #[error("{0}")]
    ReadLink(Fault),
    /// The filter fails.
    #[error("{0}")]
    Convert(Fault),
}

/// Returns the id under which git would store the content of a node: of a file after the filter, or of a link's target.
/// Other nodes have the null id, and so has a file that is gone, may not be opened, or whose opening was interrupted.
/// `buffer` is overwritten.
///
/// # Errors
/// The node's fault, which may be that memory ran out.
pub fn worktree_id<W: Worktree, T: ToGit>(
    kind: HashKind,
    worktree: &W,
    filter: &T,
    path: BStr<'_>,
    disk_kind: Option<Kind>,
    buffer: &mut Vec<u8>,
) -> Result<ObjectId, IdError>
    ensures { let w = worktree.now in IsTrue (W.modelled w) → IsId (worktree_id kind (W.lstat_of w) (W.open_of w)
        (W.target_of w) (T.conversion filter.now) (bstr_bytes path.entry) disk_kind) result }
{
    match disk_kind {
        Some(Kind::File) => file_id(kind, worktree, filter, path, buffer),
        Some(Kind::Symlink) => link_id(kind, worktree, path, buffer),
        None | Some(Kind::Untrackable | Kind::Directory | Kind::Repository) => {
            Ok(ObjectId::null(kind))
        }
    }
}

/// Returns the id of a file's content after the filter.
fn file_id<W: Worktree, T: ToGit>(
    kind: HashKind,
    worktree: &W,
    filter: &T,
    path: BStr<'_>,
    buffer: &mut Vec<u8>,
) -> Result<ObjectId, IdError>
    ensures { let w = worktree.now in let at = bstr_bytes path.entry in
        IsTrue (W.modelled w) → IsId (file_id kind (W.lstat_of w at) (T.conversion filter.now) at (W.open_of w at)) result }
{
    match worktree.open(path) {
        Ok(file) => converted_id(kind, worktree, filter, path, file, buffer),
        Err(fault) if is_passed_over(fault) => Ok(ObjectId::null(kind)),
        Err(fault) => Err(IdError::Open(fault)),
    }
}

/// Returns whether a file that can't be opened for this fault has the null id: it is gone, may not be opened, or a
/// signal interrupted the opening.
fn is_passed_over(fault: Fault) -> bool
    ensures { result ≡ is_passed_over fault }
{
    matches!(
        fault,
        Fault::NotFound | Fault::PermissionDenied | Fault::Interrupted
    )
}

/// Returns the id of an open file's content after the filter.
fn converted_id<W: Worktree, T: ToGit>(
    kind: HashKind,
    worktree: &W,
    filter: &T,
    path: BStr<'_>,
    file: W::File,
    buffer: &mut Vec<u8>,
) -> Result<ObjectId, IdError>
    ensures { let at = bstr_bytes path.entry in IsIdOfFile (W.modelled worktree.now) (W.File.left file)
        (λ c. converted_id kind (W.lstat_of worktree.now at) c (T.conversion filter.now c at)) result }
{
    match filter.convert(file, path, buffer) {
        Ok(ToGitOutcome::Unchanged(file)) => stored_id(kind, worktree, path, file),
        Ok(ToGitOutcome::Buffer(bytes)) => Ok(compute_hash(kind, bytes)),
        Err(fault) => Err(IdError::Convert(fault)),
    }
}

/// Returns the id of an open file's first bytes, as many as its length by `lstat`.
fn stored_id<W: Worktree>(
    kind: HashKind,
    worktree: &W,
    path: BStr<'_>,
    mut file: W::File,
) -> Result<ObjectId, IdError>
    ensures { let at = bstr_bytes path.entry in IsIdOfFile (W.modelled worktree.now) (W.File.left file)
        (λ c. stored_id kind c (W.lstat_of worktree.now at)) result }
{
    match worktree.lstat(path) {
        Ok(node) => match compute_stream_hash(kind, &mut file, node.len) {
            Ok(id) => Ok(id),
            Err(fault) => Err(IdError::Hash(fault)),
        },
        Err(fault) => Err(IdError::Open(fault)),
    }
}

/// Returns the id of a link's target.
fn link_id<W: Worktree>(
    kind: HashKind,
    worktree: &W,
    path: BStr<'_>,
    buffer: &mut Vec<u8>,
) -> Result<ObjectId, IdError>
    ensures { IsTrue (W.modelled worktree.now) → IsId (link_id kind (W.target_of worktree.now (bstr_bytes path.entry))) result }
{
    match worktree.read_link(path, buffer) {
        Ok(()) => Ok(compute_hash(kind, buffer.as_slice())),
        Err(fault) => Err(IdError::ReadLink(fault)),
    }
}
