//! The letters of git's first column: how an index differs from a commit.

ghost use Rattle.std.specs.Prelude.{◌≡◌, ◌≤◌, not, [], IfOk, MatchOption, OnOk, map};
ghost use Rattle.std.specs.List.{filter, list_any, prefix_len};
ghost use Rattle.status_index.specs.Entries.{entry_at, index_entry};
ghost use Rattle.status_index.specs.FlagBits.{has_bits};
ghost use Rattle.status_index.specs.declared.entry.TheConstants.Flags.{INTENT_TO_ADD};
ghost use Rattle.status_index.specs.States.{backing_of, index_of};
ghost use Rattle.status_index.specs.Stretch.{is_at, is_below};
ghost use Rattle.bstr.specs.BStr.{bstr_bytes};
ghost use Rattle.git_staged.specs.First.{IsFirstOf};
ghost use Rattle.git_staged.specs.Letters.{and_change, change_view, changes, deletions, has_same_type, is_deleted, letter_of, letter_of_file};

use bitflags::Flags as _;
use bstr::BStr;
use status_index::{Entry, Flags, Mode, State};
use std::alloc::{AllocError, Global};
use std::cmp::Ordering;

/// How a path differs from the commit.
#[derive(Clone, Copy, Debug, PartialEq, Eq)]
pub enum Letter {
    /// `A`: the commit has no file at the path.
    Added,
    /// `M`: the file has another content, or another executable bit.
    Modified,
    /// `T`: the file is of another type: a link became a file, or a file a submodule.
    TypeChanged,
    /// `D`: the index has no entry at the path, except one of `git add -N`.
    Deleted,
}

/// A path that differs from the commit.
#[derive(Clone, Copy, Debug, PartialEq, Eq)]
pub struct Change<'a> {
    /// The path.
    pub path: BStr<'a>,
    /// How it differs.
    pub letter: Letter,
}

/// Returns the entries of an index that aren't as in a commit, in the order of the index. `head` is the index that
/// `git read-tree` makes of the commit: it has no conflict. An entry of `git add -N` isn't staged, so it has no letter, and
/// neither has a side of a conflict.
///
/// # Errors
/// Out of memory.
pub fn changed_entries<'a>(
    alloc: Global,
    head: &State,
    index: &'a State,
) -> Result<Vec<Change<'a>>, AllocError>
    ensures { IfOk result (λ found. map change_view found.items ≡ changes (index_of head.now) (index_of index.now)) }
{
    let entries = index.entries();
    let mut next = 0;
    let mut found = Vec::new(alloc);
    for entry in entries {
        let path = entry.path_in(index.path_backing());
        let letter = letter_of(head, &mut next, path, entry);
        push_change(&mut found, path, letter)?;
    }
    Ok(found)
}

/// Returns the files of a commit at whose paths an index has no entry, in the order of their paths. `head` is the index that
/// `git read-tree` makes of the commit. An entry of `git add -N` doesn't count, but a side of a conflict does.
///
/// # Errors
/// Out of memory.
pub fn deleted_files<'a>(
    alloc: Global,
    head: &'a State,
    index: &State,
) -> Result<Vec<Change<'a>>, AllocError>
    ensures { IfOk result (λ found. map change_view found.items ≡ deletions (index_of index.now) (index_of head.now)) }
{
    let files = head.entries();
    let mut next = 0;
    let mut found = Vec::new(alloc);
    for file in files {
        let path = file.path_in(head.path_backing());
        let letter = letter_of_file(index, &mut next, path);
        push_change(&mut found, path, letter)?;
    }
    Ok(found)
}

/// Adds a change, if there is one.
fn push_change<'a>(
    found: &mut Vec<Change<'a>>,
    path: BStr<'a>,
    letter: Option<Letter>,
) -> Result<(), AllocError>
    ensures { OnOk result (map change_view found.new.items ≡ and_change (map change_view found.old.items) (bstr_bytes path.entry) letter) }
{
    if let Some(letter) = letter {
        found.push(Change { path, letter })?;
    }
    Ok(())
}

/// Moves `next` on to the first entry of an index whose path isn't less than this one, and returns that entry if it is at
/// this path. As the paths of an index ascend, those of one are found in another by one walk over both.
fn first_at<'a>(index: &'a State, next: &mut usize, path: BStr<'_>) -> Option<&'a Entry>
    requires { next.old ≤ prefix_len (is_below (bstr_bytes path)) (index_of index.now) }
    ensures next { next.new ≡ prefix_len (is_below (bstr_bytes path.entry)) (index_of index.now) }
    ensures first { MatchOption result (filter (is_at (bstr_bytes path.entry)) (index_of index.now) ≡ []) (λ e. IsFirstOf (index_entry (backing_of index.now) e.now) (filter (is_at (bstr_bytes path.entry)) (index_of index.now))) }
{
    let entries = index.entries();
    while *next < entries.len() {
        let entry = &entries[*next];
        let found = entry.path_in(index.path_backing());
        match found.as_bytes().cmp(path.as_bytes()) {
            Ordering::Less => *next += 1,
            Ordering::Equal => return Some(entry),
            Ordering::Greater => return None,
        }
    }
    None
}

/// Returns how an entry differs from the commit's file at its path. `next` is moved on, as by `first_at`.
fn letter_of(head: &State, next: &mut usize, path: BStr<'_>, entry: &Entry) -> Option<Letter>
    requires { next.old ≤ prefix_len (is_below (bstr_bytes path)) (index_of head.now) }
    ensures next { next.new ≡ prefix_len (is_below (bstr_bytes path.entry)) (index_of head.now) }
    ensures letter { result ≡ letter_of (index_of head.now) (entry_at (bstr_bytes path.entry) entry.now) }
{
    let first = first_at(head, next, path);
    if entry.stage_raw() != 0 || entry.flags.intersects(Flags::INTENT_TO_ADD) {
        return None;
    }
    let Some(file) = first else {
        return Some(Letter::Added);
    };
    if !has_same_type(file.mode, entry.mode) {
        return Some(Letter::TypeChanged);
    }
    if file.mode.bits() == entry.mode.bits() && file.id.as_bytes() == entry.id.as_bytes() {
        return None;
    }
    Some(Letter::Modified)
}

/// Returns whether two modes are of one type: both of files, of links, or of submodules.
fn has_same_type(one: Mode, other: Mode) -> bool
    ensures { result ≡ has_same_type one other }
{
    one.bits() / 0x1000 == other.bits() / 0x1000
}

/// Returns how the index differs from a file of the commit that is at a path, if it has no entry there except one of
/// `git add -N`. `next` is moved on,
/// as by `first_at`.
fn letter_of_file(index: &State, next: &mut usize, path: BStr<'_>) -> Option<Letter>
    requires { next.old ≤ prefix_len (is_below (bstr_bytes path)) (index_of index.now) }
    ensures next { next.new ≡ prefix_len (is_below (bstr_bytes path.entry)) (index_of index.now) }
    ensures letter { result ≡ letter_of_file (index_of index.now) (bstr_bytes path.entry) }
{
    if is_deleted(index, next, path) {
        return Some(Letter::Deleted);
    }
    None
}

/// Returns whether an index has no entry at a path, except one of `git add -N`. `next` is moved on, as by `first_at`. The
/// others at the path are searched only if the first is one of `git add -N`.
fn is_deleted(index: &State, next: &mut usize, path: BStr<'_>) -> bool
    requires { next.old ≤ prefix_len (is_below (bstr_bytes path)) (index_of index.now) }
    ensures next { next.new ≡ prefix_len (is_below (bstr_bytes path.entry)) (index_of index.now) }
    ensures deleted { result ≡ is_deleted (index_of index.now) (bstr_bytes path.entry) }
{
    let Some(first) = first_at(index, next, path) else {
        return true;
    };
    if !first.flags.intersects(Flags::INTENT_TO_ADD) {
        return false;
    }
    !has_staged(index.entries_at(path))
}

/// Returns whether one of these entries isn't of `git add -N`.
fn has_staged(entries: &[Entry]) -> bool
    ensures { result ≡ list_any (λ e. not (has_bits e.flags.0 INTENT_TO_ADD.0)) entries.now }
{
    entries
        .iter()
        .any(|entry| !entry.flags.intersects(Flags::INTENT_TO_ADD))
}
