//! The look-up of the node at an entry's path.

ghost use Rattle.std.specs.Prelude.{◌≡◌, ◌≢◌, ◌&&◌, Bool, false, IfOk, IfSome, IsTrue, None, Ok, Result};
ghost use Rattle.bstr.specs.BStr.{bstr_bytes};
ghost use Rattle.status_base.specs.CheckState.{IsClear};
ghost use Rattle.status_base.specs.LinkCheck.{LinkCheck};
ghost use Rattle.status_base.specs.CheckAnswers.{IsCheckError};
ghost use Rattle.status_index.specs.declared.stat.Metadata.{Metadata as NodeMetadata};
ghost use Rattle.status_index.specs.declared.stat.NodeKind.TheVariants.{Directory};
ghost use Rattle.status_index.specs.declared.fault.Fault.{Fault as WorktreeFault};
ghost use Rattle.status_base.specs.ListingTable.{HasListedSeen};
ghost use Rattle.status_base.specs.Sights.{IsOpen};
ghost use Rattle.status_call.specs.declared.index_as_worktree.lookup.AtPath.TheVariants.{Nothing};
ghost use Rattle.status_call.specs.EntryParts.{IsLook};
ghost use Rattle.status_call.specs.EntrySights.{IsLookSeen, IsNodeListed};
ghost use Rattle.status_call.specs.Counts.{is_accepted};
ghost use Rattle.status_call.specs.LookUps.{IfNode, IsLookUp, IsNodeMet, IsKnownByListings, Keeps};
ghost use Rattle.status_call.specs.Status.{found_by, found_fault, found_node};

use crate::index_as_worktree::types::Error;
use bstr::BStr;
use status_base::fscache::Listings;
use status_base::stack::{StackError, SymlinkCheck};
use status_base::worktree::{Fault, Guard, Lister, Metadata, NodeKind};
use std::alloc::AllocError;

/// The node at an entry's path.
#[derive(Clone, Copy)]
pub(crate) enum AtPath {
    /// Nothing: the path or a directory above it is missing, or it leads through a link.
    Nothing,
    /// A directory.
    Directory,
    /// Any other node.
    Node(Metadata),
}

/// The result of a look-up.
#[derive(Clone, Copy)]
pub(crate) struct Look {
    /// The node at the path.
    pub(crate) presence: AtPath,
    /// Whether `lstat` was called on the path itself.
    pub(crate) lstat_called: bool,
}

/// The directories of a worktree that earlier look-ups met.
#[derive(Drop)]
pub(crate) struct Known {
    /// Which have no link or fault above them.
    pub(crate) check: SymlinkCheck,
    /// Which nodes are in them, if listings are used.
    pub(crate) listings: Listings,
}

/// Returns the node at a path. The link check comes first. Only if it accepts each directory above the path, the path
/// itself is looked up, by `lstat` only if no listing knows it.
///
/// # Errors
/// A path that isn't normal, a fault other than one of absence, or out of memory.
pub(crate) fn look_up<G: Guard, L: Lister>(
    worktree: &G,
    known: &mut Known,
    fscache: bool,
    lister: &L,
    path: BStr<'_>,
) -> Result<Look, Error>
    ensures look { IsTrue (G.modelled worktree.now)
        → IsLookUp fscache (L.modelled lister.now) (L.listing lister.now) known.old.listings
        (bstr_bytes path.entry)
        (G.lstat_of worktree.now) known.old.check.path result }
    ensures seen { IsOpen (G.may_stat worktree.now) known.old.check.path
        → HasListedSeen (L.may_list lister.now) known.old.listings
        → IsLookSeen (G.may_stat worktree.now) (L.may_list lister.now) fscache (bstr_bytes path.entry) result }
    ensures met { IsOpen (G.may_stat worktree.now) known.old.check.path
        → IfOk result (λ look. IfNode look.presence (IsNodeMet (G.may_stat worktree.now) fscache (bstr_bytes path.entry))) }
    ensures opened { IsOpen (G.may_stat worktree.now) known.old.check.path
        → IsOpen (G.may_stat worktree.now) known.new.check.path }
    ensures clear { IsTrue (G.modelled worktree.now)
        → IsClear (G.lstat_of worktree.now) known.old.check.path
        → IsClear (G.lstat_of worktree.now) known.new.check.path }
    ensures kept { Keeps (L.modelled lister.now) (L.listing lister.now) known.old.listings
        → Keeps (L.modelled lister.now) (L.listing lister.now) known.new.listings }
    ensures seen_kept { HasListedSeen (L.may_list lister.now) known.old.listings
        → HasListedSeen (L.may_list lister.now) known.new.listings }
{
    if let Err(error) = worktree.verify(&mut known.check, path) {
        return look_refused(error);
    }
    if let Some(node) = known_at(fscache, lister, &mut known.listings, path)? {
        return Ok(look_at(node, false));
    }
    match worktree.lstat(path) {
        Ok(node) => Ok(look_at(node, true)),
        Err(fault) => look_at_fault(fault, true),
    }
}

/// Returns the node that listings know at a path, if listings are used.
///
/// # Errors
/// Out of memory.
fn known_at<L: Lister>(
    fscache: bool,
    lister: &L,
    listings: &mut Listings,
    path: BStr<'_>,
) -> Result<Option<Metadata>, AllocError>
    ensures known { IsKnownByListings fscache (L.modelled lister.now) (L.listing lister.now) listings.old
        (bstr_bytes path.entry) result }
    ensures unlisted { fscache ≡ false → IfOk result (λ node. node ≡ None) }
    ensures kept { Keeps (L.modelled lister.now) (L.listing lister.now) listings.old
        → Keeps (L.modelled lister.now) (L.listing lister.now) listings.new }
    ensures seen { HasListedSeen (L.may_list lister.now) listings.old
        → IfOk result (λ node. IfSome node (IsNodeListed (L.may_list lister.now) (bstr_bytes path.entry))) }
    ensures seen_kept { HasListedSeen (L.may_list lister.now) listings.old
        → HasListedSeen (L.may_list lister.now) listings.new }
{
    if !fscache {
        return Ok(None);
    }
    match listings.get(lister, path)? {
        Some(stat) => Ok(Some(stat.to_metadata())),
        None => Ok(None),
    }
}

/// Returns the look-up of a node that was found.
fn look_at(node: Metadata, lstat_called: bool) -> Look
    ensures look { IsLook (found_node (Ok node)) lstat_called (Ok result) }
    ensures node { IfNode result.presence (λ n. (n ≡ node) × (n.kind ≢ Directory)) }
{
    let presence = match node.kind {
        NodeKind::Directory => AtPath::Directory,
        NodeKind::File | NodeKind::Link | NodeKind::Other => AtPath::Node(node),
    };
    Look {
        presence,
        lstat_called,
    }
}

/// Returns the look-up of a path that the link check refuses.
///
/// # Errors
/// A path that isn't normal, a fault other than one of absence, or out of memory.
fn look_refused(error: StackError<'_>) -> Result<Look, Error>
    ensures nothing { IfOk result (λ look. look.presence ≡ Nothing) }
    ensures look { (check : LinkCheck) (node : Result NodeMetadata WorktreeFault) (unknown : Bool)
        → IsCheckError check error.entry
        → IsLook (found_by check node) (is_accepted check && unknown) result }
{
    match error {
        StackError::ThroughLink { prefix: _ } => Ok(Look {
            presence: AtPath::Nothing,
            lstat_called: false,
        }),
        StackError::Fault(fault) => look_at_fault(fault, false),
        StackError::EmptyPath | StackError::NotNormal { component: _ } => {
            Err(Error::Io(Fault::NotNormal))
        }
        StackError::Memory => Err(Error::Memory),
    }
}

/// Returns the look-up of a path with a fault.
///
/// # Errors
/// A fault other than one of absence.
fn look_at_fault(fault: Fault, lstat_called: bool) -> Result<Look, Error>
    ensures nothing { IfOk result (λ look. look.presence ≡ Nothing) }
    ensures look { IsLook (found_fault fault) lstat_called result }
{
    match fault {
        Fault::NotFound | Fault::NotADirectory => Ok(Look {
            presence: AtPath::Nothing,
            lstat_called,
        }),
        other => Err(Error::from(other)),
    }
}
