//! Comparison of an entry's content, and when it is needed.

ghost use Rattle.std.specs.Prelude.{◌≡◌, ◌==◌, not, ◌&&◌, ◌||◌, false};
ghost use Rattle.bstr.specs.BStr.{bstr_bytes};
ghost use Rattle.status_base.specs.Looked.{IsLookedAt, kind_read};
ghost use Rattle.status_index.specs.BlobId.{is_empty_blob};
ghost use Rattle.status_index.specs.Stat.{stat_agrees};
ghost use Rattle.status_compare.specs.Reads.{no_reads};
ghost use Rattle.status_call.specs.EntryParts.{IsContentCompared, IsDecisionOf, candidate_entry};
ghost use Rattle.status_call.specs.EntrySights.{IsComparisonViewed};
ghost use Rattle.status_call.specs.Status.{reads_link, same_bool};

use crate::index_as_worktree::inputs::{Ask, Inputs, Settings};
use crate::index_as_worktree::step::Decided;
use crate::index_as_worktree::types::{Change, EntryStatus, Error};
use bstr::BStr;
use status_base::worktree::{
    Find, Guard, Lister, Metadata, NodeKind, Pathspec, SubmoduleStatus, ToGit,
};
use status_compare::{CompareBlobs, EntryReader, Reads};
use status_index::{Entry, Mode, Stat, stat};
use std::alloc::Global;

/// An entry of stage 0 with the node at its path, which is no directory.
#[derive(Clone, Copy)]
pub struct Candidate<'a> {
    /// The entry.
    pub entry: &'a Entry,
    /// Its path.
    pub path: BStr<'a>,
    /// The node.
    pub node: Metadata,
}

/// A comparer's result for an entry.
pub struct Comparison<T> {
    /// The comparer's report of a change, if there is one.
    pub change: Option<T>,
    /// The counts of its reads.
    pub reads: Reads,
}

/// Compares an entry's content with that of the node at its path.
///
/// # Errors
/// The comparer's error.
pub(crate) fn compare_node<
    G: Guard + Copy,
    C: CompareBlobs,
    S: SubmoduleStatus,
    O: Find,
    P: Pathspec,
    T: ToGit,
    L: Lister,
>(
    alloc: Global,
    inputs: &mut Inputs<G, C, S, O, P, T, L>,
    settings: Settings,
    buffer: &mut Vec<u8>,
    candidate: &Candidate<'_>,
) -> Result<Comparison<C::Output>, Error>
    requires looked { IsLookedAt (G.may_stat inputs.old.worktree) (G.listed inputs.old.worktree) (bstr_bytes candidate.now.path) candidate.now.node
        (kind_read (reads_link settings.fs.symlink candidate.now.entry.now.mode candidate.now.node.kind)) }
    ensures compared { IsContentCompared
        (⟦<Inputs<G, C, S, O, P, T, L> as Ask>⟧.query inputs.old settings)
        (candidate_entry candidate.now) candidate.now.node result }
    ensures seen { IsComparisonViewed (⟦<Inputs<G, C, S, O, P, T, L> as Ask>⟧.may_return inputs.old)
        settings (T.conversion inputs.old.filter) (C.answer inputs.old.compare) (C.counts_after inputs.old.compare)
        (candidate_entry candidate.now) candidate.now.node result }
    ensures only { inputs.new ≡ record inputs.old { compare = inputs.new.compare } }
    ensures same { ⟦<Inputs<G, C, S, O, P, T, L> as Ask>⟧.query inputs.new
        ≡ ⟦<Inputs<G, C, S, O, P, T, L> as Ask>⟧.query inputs.old }
{
    buffer.clear();
    let is_link = reads_link(
        candidate.entry.mode,
        candidate.node.kind,
        settings.fs.symlink,
    );
    let (worktree, filter, objects) = (&inputs.worktree, &inputs.filter, &inputs.objects);
    let mut reader = reader_of(&*worktree, &*filter, &*objects, candidate, is_link);
    let compare = &mut inputs.compare;
    let change = compare.compare_blobs(
        alloc,
        candidate.entry,
        candidate.node.len,
        &mut reader,
        buffer,
    )?;
    Ok(Comparison {
        change,
        reads: reader.reads,
    })
}

/// Returns a reader of a candidate's node and blob that has read nothing.
fn reader_of<'r, G: Guard, T, O>(
    worktree: &'r G,
    filter: &'r T,
    objects: &'r O,
    candidate: &'r Candidate<'_>,
    is_link: bool,
) -> EntryReader<'r, G, T, O>
    requires looked { IsLookedAt (G.may_stat worktree.now) (G.listed worktree.now) (bstr_bytes candidate.now.path) candidate.now.node (kind_read is_link) }
    ensures { (looked : IsLookedAt (G.may_stat worktree.entry.now) (G.listed worktree.entry.now) (bstr_bytes candidate.now.path) candidate.now.node (kind_read is_link))
        → result
        ≡ record {
          worktree = worktree.entry;
          filter = filter.entry;
          objects = objects.entry;
          id = candidate.now.entry.now.id;
          path = candidate.now.path;
          is_link = is_link;
          node = candidate.now.node;
          reads = no_reads;
          looked = looked;
        } }
{
    EntryReader {
        worktree,
        filter,
        objects,
        id: candidate.entry.id,
        path: candidate.path,
        is_link,
        node: candidate.node,
        reads: Reads::none(),
    }
}

/// Returns whether an entry is read as a link's target: it is a link, and so is the node or the file system has links.
pub(crate) fn reads_link(mode: Mode, kind: NodeKind, symlink: bool) -> bool
    ensures { result ≡ reads_link symlink mode kind }
{
    mode == Mode::Symlink && (symlink || kind == NodeKind::Link)
}

/// Returns whether an entry is trusted: its stat agrees with the node's, and its size is 0 exactly if its id is the
/// empty blob's. Size 0 with another id marks an entry whose content has to be compared (git's racy-git document: a
/// racily clean entry is written with size 0).
pub(crate) fn is_trusted(entry: &Entry, stat: &Stat, options: stat::Options) -> bool
    ensures { result
        ≡ (stat_agrees options stat.now entry.now.stat
        && same_bool (is_empty_blob entry.now.id) (entry.now.stat.size == 0)) }
{
    stat.matches(&entry.stat, options) && entry.id.is_empty_blob() == (entry.stat.size == 0)
}

/// Returns whether an entry has to be compared. The stats alone decide if they are trusted and not racy, and the
/// executable bit didn't change. A stat is racy if the node is as new as the index or newer. It may then hide a write:
/// the node may have been written once more after its stat was stored, within the clock's resolution (git's racy-git
/// document).
pub(crate) fn needs_comparison(executable_bit_changed: bool, trusted: bool, racy: bool) -> bool
    ensures { result ≡ (executable_bit_changed || not trusted || racy) }
{
    executable_bit_changed || !trusted || racy
}

/// Returns a decision for which nothing was read.
pub(crate) fn unread<T, U>(status: Option<EntryStatus<T, U>>, lstat_called: bool) -> Decided<T, U>
    ensures { result
        ≡ record { status = status; lstat_called = lstat_called; racy = false; reads = no_reads } }
{
    Decided {
        status,
        lstat_called,
        racy: false,
        reads: Reads::none(),
    }
}

/// Returns the decision by a comparison, for an entry whose node has this stat.
pub(crate) fn decision_of<T, U>(
    comparison: Comparison<T>,
    stat: Stat,
    executable_bit_changed: bool,
    trusted: bool,
    racy: bool,
) -> Decided<T, U>
    ensures { IsDecisionOf comparison stat executable_bit_changed trusted racy result }
{
    let Comparison { change, reads } = comparison;
    let status = match change {
        Some(change) => EntryStatus::Change(Change::Modification {
            executable_bit_changed,
            content_change: Some(change),
            set_entry_stat_size_zero: trusted && racy,
        }),
        None if executable_bit_changed => EntryStatus::Change(Change::Modification {
            executable_bit_changed,
            content_change: None,
            set_entry_stat_size_zero: false,
        }),
        None => EntryStatus::NeedsUpdate(stat),
    };
    Decided {
        status: Some(status),
        lstat_called: false,
        racy: !executable_bit_changed && trusted && racy,
        reads,
    }
}
