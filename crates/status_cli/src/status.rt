//! The status of a profile's index against its worktree.

ghost use Rattle.std.specs.Prelude.{◌≡◌, ◌⊎◌, [], Ok, IfErr, IfOk, IfSome, map, vec_items};
ghost use Rattle.status_base.specs.Trees.{empty_tree};
ghost use Rattle.status_profile.specs.Nodes.{node_value};
ghost use Rattle.status_cli.specs.Printing.{result_map};
ghost use Rattle.status_cli.specs.ProfileStatuses.{IsPlacePrinted, IsPrintedOver, IsProfilePrinted, IsStatusOver, AreNodesRefused};
ghost use Rattle.status_cli.specs.ProfileStatuses.{IsTextFailed, IsTextPrinted, IsTextSucceeded};
ghost use Rattle.status_cli.specs.ProfileStatuses.{asked_by, changes_returned, with_nodes, results_of, walked_by};
ghost use Rattle.status_index.specs.States.{index_of};
ghost use Rattle.status_call.specs.IndexChanges.{AreInside};

mod closing;
mod inputs;
mod joined;
mod plain;
mod records;

use crate::failure::Failure;
use crate::output::read_all;
use crate::status::inputs::{NoWalk, ProfileStatus, Request};
pub use crate::status::inputs::{IndexChanges, WantedChanges};
use bstr::BString;
use gix_status::index_as_worktree::ApplyChange;
use gix_status::walk::{UntrackedWalk, Walk};
use gix_status::worktree::{
    AllPaths, DiskWorktree, MemoryWorktree, Node, Pathspec, Prefix, Worktree,
};
use status_profile::{Kind, Place, Profile};
use std::alloc::Global;
use std::io;
use std::path::Path;
use std::rt::Files;
use std::sync::Wait;
use std::thread::Threads;

/// Reads a profile, computes its status, and prints a line to `output` for each record, untracked file and rename. With
/// the option `counts` a line of totals follows. `name` is the name of the profile's file.
///
/// Returns the exit status: 0, or 1 after a failure, which is one line on `faults` (none if `output` can't be written; then
/// nothing more is printed). Lines that were printed before it stay.
pub fn run_status<
    R: AllocGlobal + Files + Sync + Threads + Wait,
    I: io::Read,
    O: io::Write,
    E: io::Write,
>(rt: &R, name: &str, profile: &mut I, output: &mut O, faults: &mut E) -> u8
where
    R::File: Send,
    R::Dir: Send,
    ensures status { (result ≡ 0) ⊎ (result ≡ 1) }
    ensures printed { result ≡ 0 → IsTextSucceeded Kind.Any (I.remaining profile.old) (O.contents output.old) (O.contents output.new) }
    ensures failed { result ≡ 1 → IsTextFailed Kind.Any (I.remaining profile.old) (O.contents output.old) (O.contents output.new)
        name.now (E.contents faults.old) (E.contents faults.new) }
    ensures quiet { result ≡ 0 → E.contents faults.new ≡ E.contents faults.old }
{
    match print_status(rt, profile, output) {
        Ok(()) => 0,
        Err(failure) => failure.report(rt.alloc(), name, faults),
    }
}

fn print_status<R: AllocGlobal + Files + Sync + Threads + Wait, I: io::Read, O: io::Write>(
    rt: &R,
    profile: &mut I,
    output: &mut O,
) -> Result<(), Failure>
where
    R::File: Send,
    R::Dir: Send,
    ensures { IfSome (I.remaining profile.old) (λ text. IsTextPrinted Kind.Any text WantedChanges.Dropped (O.contents output.old) (result_map (λ _. []) result) (O.contents output.new)) }
{
    let text = read_all(rt.alloc(), profile)?;
    let profile = Profile::from_json(rt.alloc(), text.as_slice(), Kind::Any)?;
    print_profile(rt, profile, WantedChanges::Dropped, output)?;
    Ok(())
}

/// Prints the status of a profile. Returns its index, with the changes that a plain status asks for if they are wanted.
pub fn print_profile<R: AllocGlobal + Files + Sync + Threads + Wait, O: io::Write>(
    rt: &R,
    profile: Profile,
    wanted: WantedChanges,
    output: &mut O,
) -> Result<IndexChanges, Failure>
where
    R::File: Send,
    R::Dir: Send,
    ensures inside { IfOk result (λ r. AreInside r.changes.items (index_of r.index)) }
    ensures index { IfOk result (λ r. r.index ≡ profile.index) }
    ensures printed { IsProfilePrinted profile wanted (O.contents output.old) (result_map changes_returned result) (O.contents output.new) }
{
    let Profile {
        hash,
        options,
        index,
        place,
    } = profile;
    let request = Request {
        index: &index,
        hash,
        options,
        wanted,
    };
    let changes = print_place(rt, request, place, output)?;
    Ok(IndexChanges { index, changes })
}

/// Prints the status of an index against the worktree that is at a place. Returns the changes that it asks for if they are
/// wanted, as all functions below that print a status do.
fn print_place<R: AllocGlobal + Files + Sync + Threads + Wait, O: io::Write>(
    rt: &R,
    request: Request<'_>,
    place: Place,
    output: &mut O,
) -> Result<Vec<ApplyChange>, Failure>
where
    R::File: Send,
    R::Dir: Send,
    ensures inside { IfOk result (λ changes. AreInside changes.items (index_of request.entry.index.now)) }
    ensures printed { IsPlacePrinted place (asked_by request.entry) (O.contents output.old) (result_map vec_items result) (O.contents output.new) }
{
    match place {
        Place::Nodes(nodes) => print_nodes(rt, request, nodes, output),
        Place::Folder(folder) => {
            let worktree = DiskWorktree::new(rt, Path::new(folder.as_str()))?;
            let status = ProfileStatus {
                request,
                worktree: &worktree,
                walk: NoWalk,
            };
            print_prefixed(rt, status, output)
        }
    }
}

/// Prints the status of an index against the worktree of these nodes. It isn't passed `Files`, so it can't open or
/// remove a file.
fn print_nodes<R: AllocGlobal + Threads + Wait, O: io::Write>(
    rt: &R,
    request: Request<'_>,
    nodes: Vec<(BString, Node)>,
    output: &mut O,
) -> Result<Vec<ApplyChange>, Failure>
    ensures inside { IfOk result (λ changes. AreInside changes.items (index_of request.entry.index.now)) }
    ensures printed { IsPlacePrinted (Place.Nodes nodes) (asked_by request.entry) (O.contents output.old) (result_map vec_items result) (O.contents output.new) }
{
    let alloc = rt.alloc();
    let worktree = put_nodes(alloc, nodes)?;
    let status = ProfileStatus {
        request,
        worktree: &worktree,
        walk: UntrackedWalk::new(alloc),
    };
    print_prefixed(rt, status, output)
}

/// Makes the worktree of these nodes.
fn put_nodes(alloc: Global, nodes: Vec<(BString, Node)>) -> Result<MemoryWorktree, Failure>
    ensures ok { IfOk result (λ tree. with_nodes 0 empty_tree (map node_value nodes.items) ≡ Ok tree) }
    ensures err { IfErr result (λ failure. AreNodesRefused (map node_value nodes.items) failure) }
{
    let mut worktree = MemoryWorktree::new(alloc);
    let mut at: usize = 0;
    for (path, node) in nodes {
        if let Err(error) = worktree.put(path.as_bstr(), node) {
            return Err(Failure::of_node(error, at));
        }
        at = at.saturating_add(1);
    }
    Ok(worktree)
}

/// Prints a status of the paths that begin with the options' prefix, or of all paths if it is empty.
fn print_prefixed<
    R: AllocGlobal + Threads + Wait,
    W: Worktree + Sync,
    K: Walk<W> + Send + Drop,
    O: io::Write,
>(rt: &R, status: ProfileStatus<'_, W, K>, output: &mut O) -> Result<Vec<ApplyChange>, Failure>
where
    W::File: Send,
    ensures inside { IfOk result (λ changes. AreInside changes.items (index_of status.entry.request.index.now)) }
    ensures printed { IsPrintedOver (results_of W.Worktree status.entry.worktree.now) (walked_by K.walking status.entry) (asked_by status.entry.request)
        (O.contents output.old) (result_map vec_items result) (O.contents output.new) }
{
    let prefix = status.request.options.prefix.as_bstr();
    if prefix.as_bytes().is_empty() {
        return print_paths(rt, status, AllPaths, output);
    }
    let prefix = Prefix::new(rt.alloc(), prefix)?;
    print_paths(rt, status, prefix, output)
}

/// Prints a status of these paths, with untracked files, renames or sorted lines if the options have one of them.
fn print_paths<
    'a,
    R: AllocGlobal + Threads + Wait,
    W: Worktree + Sync,
    K: Walk<W> + Send + Drop,
    P: Pathspec + Send,
    O: io::Write,
>(
    rt: &R,
    status: ProfileStatus<'a, W, K>,
    pathspec: P,
    output: &mut O,
) -> Result<Vec<ApplyChange>, Failure>
where
    W::File: Send,
    ensures inside { IfOk result (λ changes. AreInside changes.items (index_of status.entry.request.index.now)) }
    ensures printed { IsStatusOver (results_of W.Worktree status.entry.worktree.now) (asked_by status.entry.request) (P.prefix pathspec) (P.included pathspec)
        (walked_by K.walking status.entry (P.prefix pathspec) (P.included pathspec)) (O.contents output.old) (result_map vec_items result) (O.contents output.new) }
{
    if status.request.options.is_joined() {
        status.print_joined(rt, pathspec, output)?;
        return Ok(Vec::new(rt.alloc()));
    }
    status.print_plain(rt, pathspec, output)
}
