//! The explanations of an index's paths, one after the other.

ghost use Rattle.std.specs.Prelude.{◌≡◌, ◌||◌, ◌&&◌, ◌∷◌, [], not, List, ℕ, Option, Result, OnOk, IfOk, is_err, if◌then◌else◌};
ghost use Rattle.std.specs.Str.{bytes_eq};
ghost use Rattle.bstr.specs.BStr.{bstr_bytes};
ghost use Rattle.status_index.specs.Mode.{is_submodule};
ghost use Rattle.git_explain.specs.Explained.{AreExplained};

use crate::comparison::Compared;
use crate::explained::Explained;
use crate::explainer::Explainer;
use crate::json::{push_json, push_other_json};
use crate::text::{push_other, push_text};
use bstr::BStr;
use git_attributes::{AttributeFiles, CleanFilter, FolderSearch, attributes_of};
use git_status::{Asked, Failure, FindBeside, Question};
use status_base::worktree::{GuardedWorktree, Pathspec, SubmoduleStatus, Worktree};
use status_index::{Entry, State};
use std::alloc::{AllocError, Global};
use std::str;

/// Which paths are explained, and how.
#[derive(Clone, Copy)]
pub struct Wanted<'a> {
    /// Whether every selected path is explained. Otherwise only those are that have a line in the status, or that fail.
    pub all: bool,
    /// Whether each explanation is an object of JSON on a line of its own.
    pub json: bool,
    /// Entries that are selected, and aren't compared.
    pub left_out: &'a State,
    /// Selected paths at which and below which the index has no entry.
    pub untracked: &'a [&'a str],
}

/// The explanations of paths.
#[derive(Drop)]
pub(crate) struct Explanations {
    /// Their text.
    pub(crate) text: Vec<u8>,
    /// Whether a path differs from the index.
    pub(crate) differs: bool,
    /// Whether the status of a path failed.
    pub(crate) failed: bool,
}

/// Explains each selected path of an index, in index order, and adds those that aren't compared.
///
/// # Errors
/// An attribute file that is only in the index can't be read, or out of memory.
pub(crate) fn explain_each<
    'a,
    W: Worktree,
    S: SubmoduleStatus,
    P: Pathspec,
    A: AttributeFiles,
    B: FindBeside,
>(
    alloc: Global,
    index: &State,
    asked: Asked<'a, W, S, P, A, B>,
    wanted: Wanted<'_>,
) -> Result<Explanations, Failure>
    ensures { IfOk result (λ found. AreExplained (⟦<Asked<'a, W, S, P, A, B> as Question>⟧.asking asked.entry) (P.included asked.entry.paths) index.now found.differs found.failed) }
{
    let within = FolderSearch::new(alloc, asked.worktree, index).find()?;
    let files = asked.attributes.with_others(alloc, index, within)?;
    let attributes = attributes_of(alloc, &files)?;
    let Asked {
        settings,
        worktree,
        submodules,
        paths,
        ..
    } = asked;
    let mut explainer = Explainer {
        alloc,
        index,
        worktree: GuardedWorktree::new(worktree, false),
        submodules,
        filter: CleanFilter {
            attributes: &attributes,
            configured: settings.conversions,
            index,
            kind: settings.kind,
        },
        options: settings.options,
    };
    let mut found = Explanations {
        text: Vec::new(alloc),
        differs: false,
        failed: false,
    };
    found.add_entries(&mut explainer, &paths, wanted)?;
    push_others(alloc, &mut found.text, wanted)?;
    Ok(found)
}

impl Explanations {
    ghost use Rattle.status_call.specs.Inputs.{settings};
    ghost use Rattle.status_index.specs.Entries.{IndexEntry, entry_at};
    ghost use Rattle.status_index.specs.States.{index_of};
    ghost use Rattle.git_explain.specs.Added.{Adds};
    ghost use Rattle.git_explain.specs.Explained.{first_entries, has_line};

    /// Adds the explanations of the selected paths of an index.
    ///
    /// # Errors
    /// Out of memory.
    fn add_entries<W: Worktree, S: SubmoduleStatus, P: Pathspec>(
        &mut self,
        explainer: &mut Explainer<'_, '_, '_, '_, W, S>,
        paths: &P,
        wanted: Wanted<'_>,
    ) -> Result<(), AllocError>
        ensures { let x = explainer.old in OnOk result (Adds (W.may_stat x.worktree.worktree.now) (W.may_open x.worktree.worktree.now) (W.may_link x.worktree.worktree.now) (S.may_report x.submodules)
            (settings x.options x.index.now) x.filter x.index.now (first_entries (P.included paths.now) [] (index_of x.index.now)) self.old self.new) }
    {
        let index = explainer.index;
        let mut rest = index.entries();
        let mut before: &[u8] = b"";
        'entries: while let [entry, after @ ..] = rest {
            let path = entry.path_in(index.path_backing());
            let selected = is_selected(paths, entry, path, before);
            self.add_if(selected, explainer, entry, path, wanted)?;
            before = path.as_bytes();
            rest = after;
        }
        Ok(())
    }

    /// Adds the explanation of an entry's path, if it is selected.
    ///
    /// # Errors
    /// Out of memory.
    fn add_if<'index, W: Worktree, S: SubmoduleStatus>(
        &mut self,
        selected: bool,
        explainer: &mut Explainer<'_, '_, '_, 'index, W, S>,
        entry: &'index Entry,
        path: BStr<'index>,
        wanted: Wanted<'_>,
    ) -> Result<(), AllocError>
        ensures adds { let x = explainer.old in OnOk result (Adds (W.may_stat x.worktree.worktree.now) (W.may_open x.worktree.worktree.now) (W.may_link x.worktree.worktree.now) (S.may_report x.submodules)
            (settings x.options x.index.now) x.filter x.index.now (if selected then entry_at (bstr_bytes path.entry) entry.now ∷ [] else []) self.old self.new) }
        ensures only { explainer.new ≡ record explainer.old { submodules = explainer.new.submodules } }
        ensures within { (e : IndexEntry) (report : Result (Option S.Output) (List ℕ)) → S.may_report explainer.new.submodules e report → S.may_report explainer.old.submodules e report }
    {
        if !selected {
            return Ok(());
        }
        let explained = explainer.explain(entry, path)?;
        let compared = Compared {
            options: &explainer.options,
            timestamp: explainer.index.timestamp(),
        };
        self.add(explainer.alloc, &explained, compared, wanted)
    }

    /// Adds the explanation of a path. If not all are wanted, one that is unchanged is left out.
    ///
    /// # Errors
    /// Out of memory.
    fn add(
        &mut self,
        alloc: Global,
        explained: &Explained<'_>,
        compared: Compared<'_>,
        wanted: Wanted<'_>,
    ) -> Result<(), AllocError>
        ensures lines { OnOk result (self.new.differs ≡ (self.old.differs || has_line explained.now)) }
        ensures faults { OnOk result (self.new.failed ≡ (self.old.failed || is_err explained.now.answer)) }
    {
        let (differs, failed) = (explained.has_line(), explained.has_failed());
        self.differs = self.differs || differs;
        self.failed = self.failed || failed;
        if !(wanted.all || differs || failed) {
            return Ok(());
        }
        if wanted.json {
            push_json(alloc, &mut self.text, explained, compared)
        } else {
            push_text(alloc, &mut self.text, explained, compared)
        }
    }
}

/// Returns whether an entry's path is included, and isn't the path before it.
fn is_selected<P: Pathspec>(paths: &P, entry: &Entry, path: BStr<'_>, before: &[u8]) -> bool
    ensures { let p = bstr_bytes path.entry in result ≡ (not (bytes_eq p before.now) && P.included paths.now p (is_submodule entry.now.mode)) }
{
    path.as_bytes() != before && paths.includes(path, entry.mode.is_submodule())
}

/// Appends the selected paths that aren't compared: those of entries that are left out, and those that have no entry.
///
/// # Errors
/// Out of memory.
fn push_others(alloc: Global, text: &mut Vec<u8>, wanted: Wanted<'_>) -> Result<(), AllocError> {
    if wanted.all {
        push_left_out(alloc, text, wanted)?;
    }
    for path in wanted.untracked {
        push_not_compared(
            alloc,
            text,
            wanted.json,
            path.as_bytes(),
            "not in the index",
            "only paths of the index are compared",
        )?;
    }
    Ok(())
}

/// Appends the paths of the entries that are left out.
///
/// # Errors
/// Out of memory.
fn push_left_out(alloc: Global, text: &mut Vec<u8>, wanted: Wanted<'_>) -> Result<(), AllocError> {
    for entry in wanted.left_out.entries() {
        let path = entry.path_in(wanted.left_out.path_backing()).as_bytes();
        // The command fails for a path that isn't UTF-8, and names it then.
        if str::from_utf8(path).is_err() {
            continue;
        }
        push_not_compared(
            alloc,
            text,
            wanted.json,
            path,
            "not compared",
            "its settings ignore the submodule",
        )?;
    }
    Ok(())
}

/// Appends a path that isn't compared.
///
/// # Errors
/// Out of memory.
fn push_not_compared(
    alloc: Global,
    text: &mut Vec<u8>,
    json: bool,
    path: &[u8],
    status: &str,
    because: &str,
) -> Result<(), AllocError> {
    if json {
        push_other_json(alloc, text, path, status, because)
    } else {
        push_other(alloc, text, path, status, because)
    }
}
