//! The options, inputs and outcome of a status with untracked files, renames and copies, and which values it can copy.

use crate::index_as_worktree_with_renames::rewrites;
use status_call::index_as_worktree;
use status_index::{HashKind, ObjectId, State};
use status_rewrites::Rewrites;
use std::alloc::Global;
use std::sync::atomic::AtomicBool;

/// How the entries are sorted.
#[derive(Clone, Copy, Debug, Default, PartialEq, Eq, PartialOrd, Ord, Hash)]
pub enum Sorting {
    /// By the bytes of their paths, for a rename or a copy by its destination's path. At equal paths entries of the
    /// index come first.
    #[default]
    ByPathCaseSensitive,
}

/// The options of a status. By default nothing is sorted, ids are SHA-1, the status of the index has its own defaults,
/// no listing is used, there is no walk, and no renames or copies are searched for.
#[derive(Clone, Drop)]
pub struct Options {
    /// How the entries are sorted. If it is None, the index's entries come first in index order, followed by the walk's
    /// nodes in its own order.
    pub sorting: Option<Sorting>,
    /// The kind of the ids that are computed for the walk's nodes.
    pub object_hash: HashKind,
    /// The options of the status of the index. Its own `fscache` is ignored.
    pub tracked_file_modifications: index_as_worktree::Options,
    /// Whether the status of the index uses listings of directories instead of `lstat`, like the option `fscache` of
    /// that status.
    pub fscache: bool,
    /// Whether there is a walk, which finds the nodes of the worktree that the index doesn't have. Otherwise only
    /// entries of the index are reported.
    pub dirwalk: bool,
    /// Which renames and copies are searched for, among removed entries and the walk's nodes. None if it is None.
    pub rewrites: Option<Rewrites>,
}

impl Default for Options {
    ghost use Rattle.std.specs.Prelude.{◌≡◌};
    ghost use Rattle.status_joined.specs.DefaultOptions.{default_options};

    ghost is_default = { λ o. o ≡ default_options };

    fn default() -> Options {
        Options {
            sorting: None,
            object_hash: HashKind::Sha1,
            tracked_file_modifications: index_as_worktree::Options::default(),
            fscache: false,
            dirwalk: false,
            rewrites: None,
        }
    }
}

/// What each part of a call needs.
#[derive(Drop)]
pub(crate) struct Call<'index> {
    pub(crate) alloc: Global,
    pub(crate) index: &'index State,
    pub(crate) options: Options,
}

/// The interface that the walk needs.
#[derive(Drop)]
pub struct DirwalkContext<K> {
    /// Finds the nodes of the worktree.
    pub walk: K,
}

/// The interfaces that a status needs.
#[derive(Drop)]
pub struct Context<'a, P, T, L, K, X> {
    /// Decides which paths are included, of the index and of the worktree.
    pub pathspec: P,
    /// Converts files to the bytes that git stores.
    pub filter: T,
    /// Lists directories, if the options have `fscache`.
    pub lister: L,
    /// The interrupt flag. If it is seen set, the status ends early. None is never set.
    pub should_interrupt: Option<&'a AtomicBool>,
    /// The interface that the walk needs. It is used if the options have `dirwalk`.
    pub dirwalk: DirwalkContext<K>,
    /// Finds renames and copies, if the options have `rewrites`.
    pub tracker: X,
}

/// How each part of a status ended.
#[derive(Clone, Debug, Default, Drop)]
pub struct Outcome {
    /// The counts of the status of the index.
    pub tracked_file_modification: index_as_worktree::Outcome,
    /// How the walk ended. None if the options don't have `dirwalk`.
    pub dirwalk: Option<status_walk::Outcome>,
    /// The numbers of renames and copies. None if the options don't have `rewrites`.
    pub rewrites: Option<rewrites::Outcome>,
}

/// A value whose clones equal it. If an entry is copied, its status is reported twice: for the entry and for the copy.
/// So the values that a comparer and a submodule report have to be such.
///
/// Implement it for a type of your own that has an exact clone. `u8`, `u16`, `u32`, `u64`, `usize`, `bool`, `()`,
/// `ObjectId` and options of such values have it.
pub trait ExactClone: Clone {
    ghost use Rattle.std.specs.Prelude.{◌≡◌};

    /// A clone equals its original.
    ghost clones_are_equal: { (x y : Self) → Self.is_clone x y → y ≡ x };
}

impl ExactClone for ObjectId {
    ghost clones_are_equal = { λ _ _ same. same };
}

impl ExactClone for () {
    ghost clones_are_equal = { λ _ _ same. same };
}

impl ExactClone for bool {
    ghost clones_are_equal = { λ _ _ same. same };
}

impl ExactClone for u8 {
    ghost clones_are_equal = { λ _ _ same. same };
}

impl ExactClone for u16 {
    ghost clones_are_equal = { λ _ _ same. same };
}

impl ExactClone for u32 {
    ghost clones_are_equal = { λ _ _ same. same };
}

impl ExactClone for u64 {
    ghost clones_are_equal = { λ _ _ same. same };
}

impl ExactClone for usize {
    ghost clones_are_equal = { λ _ _ same. same };
}

impl<T: ExactClone> ExactClone for Option<T> {
    ghost use Rattle.std.proofs.Common.{refl, ap, None, Some};

    ghost clones_are_equal = { elim [
      | None ↦ elim [ None ↦ λ _. refl | Some _ ↦ absurd ]
      | Some x ↦ elim [ None ↦ absurd | Some y ↦ λ same. ap Some (T.clones_are_equal x y same) ]
    ] };
}
