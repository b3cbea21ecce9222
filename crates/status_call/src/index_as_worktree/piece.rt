//! A piece: a range of the considered entries that one worker compares, entry by entry, in order, and the report of its
//! findings to a collector.

ghost use Rattle.std.specs.Prelude.{◌≡◌, ◌++◌, ◌+◌, ◌<◌, ◌≤◌, ℕ, None, Ok, false, min, length, OnOk, OnErr, All};
ghost use Rattle.std.specs.List.{slice_index_or};
ghost use Rattle.status_index.specs.Entries.{IndexEntry};
ghost use Rattle.status_call.specs.Considered.{part_entries, same_path};
ghost use Rattle.status_call.specs.Pieces.{IsCut, IsPiece, IsUninterrupted};
ghost use Rattle.status_call.specs.Records.{record_by};
ghost use Rattle.status_call.specs.Reporting.{IsFed, IsFedOne, IsPlacedIn};
ghost use Rattle.status_call.specs.PieceReporting.{IsPieceFed};
ghost use Rattle.status_call.specs.Runs.{IsFaithfulTo};
ghost use Rattle.status_call.specs.Views.{SeesWithin};

use crate::index_as_worktree::considered::Considered;
use crate::index_as_worktree::counts::{Progress, Totals};
use crate::index_as_worktree::step::{Decide, next_step};
use crate::index_as_worktree::types::{EntryStatus, Error, Finding, VisitEntry};
use std::alloc::{AllocError, Global};
use std::ops::Range;
use std::sync::atomic::{AtomicBool, Ordering};

/// How a piece ended.
#[derive(Debug, Drop)]
pub enum End {
    /// All its entries were processed.
    Whole,
    /// The interrupt flag was seen before an entry.
    Interrupted,
    /// An entry has an error, or an allocation failed.
    Faulty(Error),
}

/// The result of one piece: the findings and counts of its entries, up to the position at which it ended.
#[derive(Debug, Drop)]
pub struct Piece<T, U> {
    /// The findings, in ascending order of their entries.
    pub findings: Vec<Finding<T, U>>,
    /// The counts.
    pub totals: Totals,
    /// The position among the considered entries at which it ended.
    pub reached: usize,
    /// How it ended.
    pub end: End,
}

impl<T, U> Piece<T, U> {
    fn ended(findings: Vec<Finding<T, U>>, totals: Totals, reached: usize, end: End) -> Piece<T, U>
        ensures { result
            ≡ record { findings = findings; totals = totals; reached = reached; end = end } }
    {
        Piece {
            findings,
            totals,
            reached,
            end,
        }
    }
}

/// Returns the end of a piece of `piece_len` entries that begins at `from`. It is later if it would separate entries of one
/// path.
pub fn piece_end(considered: &Considered<'_>, from: usize, piece_len: usize) -> usize
    requires inside { from < length (part_entries considered.now) }
    ensures more { from < result }
    ensures within { result ≤ length (part_entries considered.now) }
    ensures full { min (from + piece_len) (length (part_entries considered.now)) ≤ result }
    ensures cut { IsCut (part_entries considered.now) result }
    ensures tight { (k : ℕ) → from + piece_len ≤ k → from < k → k < result
        → IsCut (part_entries considered.now) k → ⊥ }
{
    let mut end = from + piece_len.max(1).min(considered.len() - from);
    while end < considered.len() && same_path(considered, end, end - 1) {
        end += 1;
    }
    end
}

/// Returns whether the entries at two positions have the same path.
fn same_path(considered: &Considered<'_>, a: usize, b: usize) -> bool
    requires a { a < length (part_entries considered.now) }
    requires b { b < length (part_entries considered.now) }
    ensures { (d : IndexEntry) → result ≡ same_path (slice_index_or (part_entries considered.now) a d)
        (slice_index_or (part_entries considered.now) b d) }
{
    considered.path(a) == considered.path(b)
}

/// Returns whether the interrupt flag is set. `None` is never set.
pub(crate) fn is_set(interrupt: Option<&AtomicBool>) -> bool
    ensures { interrupt.entry ≡ None → result ≡ false }
{
    interrupt.is_some_and(|flag| flag.load(Ordering::Relaxed))
}

/// Compares the considered entries at the positions in `range`, and checks the interrupt flag before each step.
pub(crate) fn compare_piece<D: Decide>(
    alloc: Global,
    considered: &Considered<'_>,
    range: Range<usize>,
    interrupt: Option<&AtomicBool>,
    decider: &mut D,
) -> Piece<D::Content, D::Submodule>
    requires order { range.start ≤ range.end }
    requires inside { range.end ≤ length (part_entries considered.now) }
    requires cut { IsCut (part_entries considered.now) range.start }
    requires end { IsCut (part_entries considered.now) range.end }
    ensures piece { IsPiece (D.query decider.old) (D.allows decider.old) considered.now.start
        (part_entries considered.now) range.start range.end result }
    ensures uninterrupted { interrupt.entry ≡ None → IsUninterrupted result.end }
    ensures same { D.query decider.new ≡ D.query decider.old }
    ensures within { SeesWithin (D.allows decider.new) (D.allows decider.old) }
{
    let mut findings = Vec::new(alloc);
    let mut totals = Totals::none();
    let mut at = range.start;
    while at < range.end {
        if is_set(interrupt) {
            return Piece::ended(findings, totals, at, End::Interrupted);
        }
        let step = match next_step(considered, at, decider) {
            Ok(step) => step,
            Err(error) => return Piece::ended(findings, totals, at, End::Faulty(error)),
        };
        let entry_index = considered.index_position(at);
        if push_status(&mut findings, entry_index, step.status).is_err() {
            return Piece::ended(findings, totals, at, End::Faulty(Error::Memory));
        }
        totals.add(&step.totals);
        at += step.len;
    }
    Piece::ended(findings, totals, at, End::Whole)
}

/// Appends the finding of the entry at position `entry_index`, if there is one.
fn push_status<T: Drop, U: Drop>(
    findings: &mut Vec<Finding<T, U>>,
    entry_index: usize,
    status: Option<EntryStatus<T, U>>,
) -> Result<(), AllocError>
    ensures ok { OnOk result
        (findings.new.items ≡ findings.old.items ++ record_by entry_index (Ok status)) }
    ensures err { OnErr result (findings.new.items ≡ findings.old.items) }
{
    if let Some(status) = status {
        findings.push(Finding {
            entry_index,
            status,
        })?;
    }
    Ok(())
}

/// Reports one finding to a collector.
fn feed_finding<'index, V: VisitEntry<'index>>(
    considered: &Considered<'index>,
    finding: Finding<V::ContentChange, V::SubmoduleStatus>,
    collector: &mut V,
) -> Result<(), AllocError>
    requires { IsPlacedIn (length considered.now.entries.now) finding }
    ensures { IsFedOne (IsFaithfulTo considered.entry.now) finding
        (V.visits collector.old) result (V.visits collector.new) }
{
    let Finding {
        entry_index,
        status,
    } = finding;
    let entry = &considered.entries[entry_index];
    let path = entry.path_in(considered.backing);
    collector.visit_entry(considered.entries, entry, entry_index, path, status)
}

/// Reports findings to a collector in order.
///
/// # Errors
/// Out of memory, after a beginning of the findings was reported.
fn feed<'index, V: VisitEntry<'index>>(
    considered: &Considered<'index>,
    findings: Vec<Finding<V::ContentChange, V::SubmoduleStatus>>,
    collector: &mut V,
) -> Result<(), AllocError>
where
    V::ContentChange: Drop,
    V::SubmoduleStatus: Drop,
    requires { All (IsPlacedIn (length considered.now.entries.now)) findings.items }
    ensures { IsFed (IsFaithfulTo considered.entry.now) findings.items
        (V.visits collector.old) result (V.visits collector.new) }
{
    for finding in findings {
        if let Err(refused) = feed_finding(considered, finding, collector) {
            return Err(refused);
        }
    }
    Ok(())
}

/// Reports a piece's findings to a collector. Returns the piece's counts, and whether it was interrupted.
///
/// # Errors
/// The fault at which the piece ended, after its findings were reported. Out of memory, after a beginning of the
/// findings was reported.
pub(crate) fn feed_piece<'index, V: VisitEntry<'index>>(
    considered: &Considered<'index>,
    piece: Piece<V::ContentChange, V::SubmoduleStatus>,
    collector: &mut V,
) -> Result<Progress, Error>
where
    V::ContentChange: Drop,
    V::SubmoduleStatus: Drop,
    requires { All (IsPlacedIn (length considered.now.entries.now)) piece.findings.items }
    ensures { IsPieceFed (IsFaithfulTo considered.entry.now) piece
        (V.visits collector.old) result (V.visits collector.new) }
{
    let Piece {
        findings,
        totals,
        reached: _,
        end,
    } = piece;
    match feed(considered, findings, collector) {
        Ok(()) => match end {
            End::Faulty(error) => Err(error),
            End::Whole => Ok(Progress {
                totals,
                interrupted: false,
            }),
            End::Interrupted => Ok(Progress {
                totals,
                interrupted: true,
            }),
        },
        Err(_refused) => Err(Error::Memory),
    }
}
