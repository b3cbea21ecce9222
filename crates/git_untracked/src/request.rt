//! The request of a walk.

ghost use Rattle.std.specs.Prelude.{◌≡◌, ◌<◌, ◌++◌, [], true, IfOk, length};
ghost use Rattle.std.specs.List.{list_any};
ghost use Rattle.bstr.specs.BStr.{bstr_bytes};
ghost use Rattle.status_index.specs.Entries.{entry_at};
ghost use Rattle.status_index.specs.States.{index_of};
ghost use Rattle.git_untracked.specs.Lines.{paths_of};
ghost use Rattle.git_untracked.specs.Questions.{has_below, is_settled, settles};
ghost use Rattle.git_untracked.specs.Requests.{Thins};

use crate::ask::{Ask, Way};
use crate::folders::{FolderFault, Folders, IGNORE_FILE};
use crate::lines::Lines;
use crate::selection::Selection;
use bstr::BStr;
use git_ignore::IgnoreRules;
use git_patterns::text::is_word;
use status_base::worktree::NodeKind;
use status_index::{Entry, Fault, State};
use status_walk::untracked::is_tracked;
use std::alloc::{AllocError, Global};
use std::cmp::Ordering;
use std::ops::Range;

/// The request of a walk: a worktree, the index that it is compared with, and which lines are wanted.
#[derive(Drop)]
pub(crate) struct Request<'a, F, P> {
    /// The allocator.
    pub(crate) alloc: Global,
    /// The worktree.
    pub(crate) folders: &'a F,
    /// The selected paths.
    pub(crate) paths: &'a P,
    /// The index.
    pub(crate) index: &'a State,
    /// Whether each file of an untracked folder has a line, and not the folder.
    pub(crate) all: bool,
    /// Whether ignored nodes have lines too.
    pub(crate) ignored: bool,
}

impl<F: Folders, P: Selection> Ask for Request<'_, F, P> {
    ghost question = { λ r. record {
      index = index_of r.index.now;
      all = r.all;
      ignored = r.ignored;
      selects = P.selects r.paths.now;
      reaches = P.reaches r.paths.now;
      leads = P.leads r.paths.now;
      may_list = F.may_list r.folders.now;
      may_be = F.may_be r.folders.now;
      may_ignore = F.may_ignore r.folders.now;
      may_nest = F.may_nest r.folders.now;
    } };

    fn alloc(&self) -> Global {
        self.alloc
    }

    fn names_in(&self, folder: &[u8]) -> Result<Option<Vec<Vec<u8>>>, FolderFault> {
        match self.folders.list(BStr::new(folder)) {
            Ok(names) => Ok(names),
            Err(fault) => Err(FolderFault::at(self.alloc, folder, fault)),
        }
    }

    fn add_rules(
        &self,
        folder: &[u8],
        names: &[Vec<u8>],
        rules: &mut IgnoreRules,
    ) -> Result<(), FolderFault> {
        let is_there = names.iter().any(|name| is_word(name, IGNORE_FILE));
        match self
            .folders
            .ignore_file(self.index, BStr::new(folder), is_there)
        {
            Ok(Some(bytes)) => Ok(rules.read(self.alloc, folder, &bytes)?),
            Ok(None) => Ok(()),
            Err(fault) => Err(FolderFault::of_ignore_file(self.alloc, folder, fault)),
        }
    }

    fn without_settled(
        &self,
        folder: &[u8],
        names: Vec<Vec<u8>>,
    ) -> Result<Vec<Vec<u8>>, FolderFault> {
        if self.all || self.ignored {
            return Ok(names);
        }
        match self.index.prefixed_entries_range(BStr::new(folder)) {
            Some(range) => {
                let thin = unsettled(self.alloc, self.index, self.paths, &range, folder, names)?;
                Ok(thin)
            }
            None => Ok(names),
        }
    }

    fn passes_over(&self, path: &[u8]) -> bool {
        let path = BStr::new(path);
        let leads = self.paths.leads(path);
        is_settled(self.index, path, self.all || self.ignored || leads) || !self.paths.reaches(path)
    }

    fn kind_at(&self, path: &[u8]) -> Result<Option<NodeKind>, FolderFault> {
        match self.folders.kind(BStr::new(path)) {
            Ok(kind) => Ok(kind),
            Err(fault) => Err(FolderFault::at(self.alloc, path, fault)),
        }
    }

    fn add_file(
        &self,
        is_ignored: bool,
        path: &[u8],
        lines: &mut Lines,
    ) -> Result<(), FolderFault> {
        let is_wanted = self.ignored || !is_ignored;
        if !self.has_entry(path) && self.paths.selects(BStr::new(path), false) && is_wanted {
            lines.add(self.alloc, is_ignored, path)?;
        }
        Ok(())
    }

    fn has_entry(&self, path: &[u8]) -> bool {
        is_tracked(self.index, BStr::new(path))
    }

    fn selects_folder(&self, path: &[u8]) -> bool {
        self.paths.selects(BStr::new(path), true)
    }

    fn has_entry_below(&self, path: &[u8]) -> Result<bool, FolderFault> {
        let mut folder = Vec::from_slice(self.alloc, path)?;
        folder.extend_from_slice(b"/")?;
        Ok(has_below(self.index, &folder))
    }

    fn leads(&self, path: &[u8]) -> bool {
        self.paths.leads(BStr::new(path))
    }

    fn wants_ignored(&self) -> bool {
        self.ignored
    }

    fn way_into(&self, folder: &[u8], is_excluded: bool, leads: bool) -> Result<Way, FolderFault> {
        if has_below(self.index, folder) {
            return Ok(Way::Each);
        }
        match self.folders.is_repository(BStr::new(folder)) {
            Ok(true) if leads && !is_excluded => Ok(Way::Nothing),
            Ok(true) => Ok(Way::Line),
            Ok(false) if self.all || (leads && !is_excluded) => Ok(Way::Each),
            Ok(false) => Ok(Way::Whole),
            Err(fault) => Err(FolderFault::at(self.alloc, folder, fault)),
        }
    }
}

/// Returns whether an entry settles this path. `wanted` is whether what is below is wanted.
fn is_settled(index: &State, path: BStr<'_>, wanted: bool) -> bool
    ensures { result ≡ is_settled wanted (index_of index.now) (bstr_bytes path.entry) }
{
    any_settles(index.entries_at(path), wanted)
}

/// Returns whether one of these entries settles its path. `wanted` is whether what is below is wanted.
fn any_settles(entries: &[Entry], wanted: bool) -> bool
    ensures { result ≡ list_any (λ e. settles wanted (entry_at [] e)) entries.now }
{
    entries.iter().any(|entry| settles(entry, wanted))
}

/// Returns whether an entry settles its path. `wanted` is whether what is below is wanted.
fn settles(entry: &Entry, wanted: bool) -> bool
    ensures { result ≡ settles wanted (entry_at [] entry.now) }
{
    entry.mode.is_submodule() || (!wanted && entry.stage_raw() == 0)
}

/// Returns the names in a folder without those that are found to be settled. `range` is that of the folder's entries, and only
/// what is below a path that leads is wanted.
///
/// # Errors
/// Out of memory.
fn unsettled<P: Selection>(
    alloc: Global,
    index: &State,
    paths: &P,
    range: &Range<usize>,
    folder: &[u8],
    names: Vec<Vec<u8>>,
) -> Result<Vec<Vec<u8>>, AllocError>
    ensures { IfOk result (λ thin. Thins (λ path. is_settled (P.leads paths.now path) (index_of index.now) path) folder.now (paths_of names.items) (paths_of thin.items)) }
{
    let mut thin = Vec::new(alloc);
    for name in names {
        if !is_settled_in(index, paths, range, folder, &name) {
            thin.push(name)?;
        }
    }
    Ok(thin)
}

/// Returns whether an entry of a name in a folder was found that settles its path. `range` is that of the folder's entries.
fn is_settled_in<P: Selection>(
    index: &State,
    paths: &P,
    range: &Range<usize>,
    folder: &[u8],
    name: &[u8],
) -> bool
    ensures { result ≡ true → is_settled (P.leads paths.now (folder.now ++ name.now)) (index_of index.now) (folder.now ++ name.now) ≡ true }
{
    let at = search(index, range, folder.len(), name);
    match index.entries().get(at) {
        Some(entry) => {
            let path = entry.path_in(index.path_backing());
            is_joined(path.as_bytes(), folder, name) && settles(entry, paths.leads(path))
        }
        None => false,
    }
}

/// Returns the position at which a range of the index has an entry of this name, if one is there. The name comes after the
/// first `skipped` bytes of the path.
fn search(index: &State, range: &Range<usize>, skipped: usize, name: &[u8]) -> usize {
    let (entries, backing) = (index.entries(), index.path_backing());
    let mut low = range.start;
    let mut high = range.end;
    'halves: while low < high {
        let middle = low + (high - low) / 2;
        let Some(entry) = entries.get(middle) else {
            return middle;
        };
        let path = entry.path_in(backing).as_bytes();
        let Some(rest) = path.get(skipped..) else {
            return middle;
        };
        match rest.cmp(name) {
            Ordering::Less => low = middle + 1,
            Ordering::Equal => return middle,
            Ordering::Greater => high = middle,
        }
    }
    low
}

/// Returns whether a path is that of a name in a folder.
fn is_joined(path: &[u8], folder: &[u8], name: &[u8]) -> bool
    ensures { result ≡ true → path.now ≡ folder.now ++ name.now }
{
    match path.split_at_checked(folder.len()) {
        Some((front, back)) => is_word(front, folder) && is_word(back, name),
        None => false,
    }
}

/// Returns whether an entry is below a folder.
fn has_below(index: &State, folder: &[u8]) -> bool
    requires { 0 < length folder.now }
    ensures { result ≡ has_below (index_of index.now) folder.now }
{
    index.prefixed_entries_range(BStr::new(folder)).is_some()
}
