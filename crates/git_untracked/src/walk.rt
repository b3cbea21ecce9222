//! The walk through the folders of a worktree.

ghost use Rattle.std.specs.Prelude.{◌≡◌, ◌<◌, ◌++◌, ◌&&◌, ◌||◌, not, true, IfOk, List, OnOk, length};
ghost use Rattle.git_ignore.specs.Rules.{Rule};
ghost use Rattle.git_ignore.specs.Views.{rules_view};
ghost use Rattle.git_untracked.specs.Lines.{lines_view, paths_of};
ghost use Rattle.git_untracked.specs.Requests.{IsAdded, within_view};
ghost use Rattle.git_untracked.specs.Questions.{HasRules, is_special};
ghost use Rattle.git_untracked.specs.Walks.{AreNodes, IsFolder, IsNamed, IsNode, IsSubfolder, is_ignored, is_unwanted};

use crate::ask::{Ask, Way};
use crate::folders::FolderFault;
use crate::lines::Lines;
use git_ignore::IgnoreRules;
use git_patterns::text::is_word;
use status_base::worktree::NodeKind;
use std::alloc::AllocError;

/// The most folders within each other, so that the calls for them fit on the stack of a thread.
pub(crate) const MOST_FOLDERS: usize = 1024;

/// How a folder is walked.
#[derive(Clone, Copy)]
pub(crate) struct Within {
    /// Whether it, or a folder above it, is ignored.
    pub(crate) is_excluded: bool,
    /// Whether its first line is enough.
    pub(crate) is_one_enough: bool,
}

/// Adds the lines of what is in a folder. `depth` is how many folders may be within each other, and `rules` are those of the
/// ignore files above it.
///
/// # Errors
/// The system refuses a question, folders are too deep, or out of memory. Then any path, rules and lines may be left.
#[cycle(walk)]
pub(crate) fn walk_folder<Q: Ask>(
    ask: &Q,
    depth: usize,
    within: Within,
    path: &mut Vec<u8>,
    rules: &mut IgnoreRules,
    lines: &mut Lines,
) -> Result<(), FolderFault>
    ensures path { OnOk result (path.new.items ≡ path.old.items) }
    ensures rules { OnOk result (rules_view rules.new ≡ rules_view rules.old) }
    ensures lines { OnOk result (IsAdded (IsFolder (Q.question ask.now) path.old.items (within_view within (rules_view rules.old))) (lines_view lines.old) (lines_view lines.new)) }
{
    let Some(fewer) = depth.checked_sub(1) else {
        return Err(FolderFault::TooDeep);
    };
    let Some(names) = ask.names_in(path)? else {
        return Ok(());
    };
    let count = rules.count();
    add_rules(ask, within, path, &names, rules)?;
    let thin = ask.without_settled(path, names)?;
    walk_names(ask, fewer, within, &thin, path, rules, lines)?;
    rules.truncate(count);
    Ok(())
}

/// Adds the lines of the nodes of these names in a folder. The rules are those of the folder.
///
/// # Errors
/// Those of `walk_folder`.
#[cycle(walk)]
fn walk_names<Q: Ask>(
    ask: &Q,
    depth: usize,
    within: Within,
    names: &[Vec<u8>],
    path: &mut Vec<u8>,
    rules: &mut IgnoreRules,
    lines: &mut Lines,
) -> Result<(), FolderFault>
    ensures path { OnOk result (path.new.items ≡ path.old.items) }
    ensures rules { OnOk result (rules_view rules.new ≡ rules_view rules.old) }
    ensures lines { OnOk result (IsAdded (AreNodes (Q.question ask.now) path.old.items (within_view within (rules_view rules.old)) (paths_of names.now)) (lines_view lines.old) (lines_view lines.new)) }
{
    let mut rest = names;
    'names: while let [name, after @ ..] = rest {
        let before = lines.end();
        walk_name(ask, depth, within, name, path, rules, lines)?;
        if within.is_one_enough && lines.go_on(before) {
            return Ok(());
        }
        rest = after;
    }
    Ok(())
}

/// Adds the lines of a name in a folder.
///
/// # Errors
/// Those of `walk_folder`.
#[cycle(walk)]
fn walk_name<Q: Ask>(
    ask: &Q,
    depth: usize,
    within: Within,
    name: &[u8],
    path: &mut Vec<u8>,
    rules: &mut IgnoreRules,
    lines: &mut Lines,
) -> Result<(), FolderFault>
    ensures path { OnOk result (path.new.items ≡ path.old.items) }
    ensures rules { OnOk result (rules_view rules.new ≡ rules_view rules.old) }
    ensures lines { OnOk result (IsAdded (IsNamed (Q.question ask.now) (within_view within (rules_view rules.old)) path.old.items name.now) (lines_view lines.old) (lines_view lines.new)) }
{
    if is_special(name) {
        return Ok(());
    }
    let len = path.len();
    path.extend_from_slice(name)?;
    walk_node(ask, depth, within, path, rules, lines)?;
    path.truncate(len);
    Ok(())
}

/// Adds the lines of the node at a path, and of what is below it.
///
/// # Errors
/// Those of `walk_folder`.
#[cycle(walk)]
fn walk_node<Q: Ask>(
    ask: &Q,
    depth: usize,
    within: Within,
    path: &mut Vec<u8>,
    rules: &mut IgnoreRules,
    lines: &mut Lines,
) -> Result<(), FolderFault>
    ensures path { OnOk result (path.new.items ≡ path.old.items) }
    ensures rules { OnOk result (rules_view rules.new ≡ rules_view rules.old) }
    ensures lines { OnOk result (IsAdded (IsNode (Q.question ask.now) (within_view within (rules_view rules.old)) path.old.items) (lines_view lines.old) (lines_view lines.new)) }
{
    if ask.passes_over(path) {
        return Ok(());
    }
    let kind = match ask.kind_at(path)? {
        Some(kind) => kind,
        None => return Ok(()),
    };
    match kind {
        NodeKind::Other => Ok(()),
        NodeKind::File | NodeKind::Link => {
            let is_excluded = excludes(ask, within, rules, path, false)?;
            ask.add_file(is_excluded, path, lines)
        }
        NodeKind::Directory => {
            let is_excluded = excludes(ask, within, rules, path, true)?;
            let leads = ask.leads(path);
            if leaves_out(ask, is_excluded, leads, path)? {
                return Ok(());
            }
            let has_entry = ask.has_entry(path);
            let len = path.len();
            path.extend_from_slice(b"/")?;
            walk_subfolder(
                ask,
                depth,
                is_excluded,
                leads,
                has_entry,
                path,
                rules,
                lines,
            )?;
            path.truncate(len);
            Ok(())
        }
    }
}

/// Adds the lines of a folder, which is ignored or not, and of what is below it. `leads` is whether a path below it is selected by
/// itself, and `has_entry` whether an entry has its path.
///
/// # Errors
/// Those of `walk_folder`.
#[cycle(walk)]
fn walk_subfolder<Q: Ask>(
    ask: &Q,
    depth: usize,
    is_excluded: bool,
    leads: bool,
    has_entry: bool,
    path: &mut Vec<u8>,
    rules: &mut IgnoreRules,
    lines: &mut Lines,
) -> Result<(), FolderFault>
    requires { 0 < length path.old.items }
    ensures path { OnOk result (path.new.items ≡ path.old.items) }
    ensures rules { OnOk result (rules_view rules.new ≡ rules_view rules.old) }
    ensures lines { OnOk result (IsAdded (IsSubfolder (Q.question ask.now) (rules_view rules.old) is_excluded leads has_entry path.old.items) (lines_view lines.old) (lines_view lines.new)) }
{
    let each = Within {
        is_excluded,
        is_one_enough: false,
    };
    match ask.way_into(path, is_excluded, leads)? {
        Way::Nothing => Ok(()),
        Way::Line => Ok(lines.add_folder(ask.alloc(), has_entry, path, is_excluded)?),
        Way::Each => walk_folder(ask, depth, each, path, rules, lines),
        Way::Whole => {
            let within = Within {
                is_excluded,
                is_one_enough: is_one_enough(ask, is_excluded),
            };
            let end = lines.end();
            walk_folder(ask, depth, within, path, rules, lines)?;
            Ok(lines.collapse(ask.alloc(), end, has_entry, path)?)
        }
    }
}

/// Returns whether a name is one of those that aren't files of the worktree.
fn is_special(name: &[u8]) -> bool
    ensures { result ≡ is_special name.now }
{
    is_word(name, b".git") || is_word(name, b".") || is_word(name, b"..")
}

/// Returns whether the node at a path is ignored.
fn excludes<Q: Ask>(
    ask: &Q,
    within: Within,
    rules: &IgnoreRules,
    path: &[u8],
    is_folder: bool,
) -> Result<bool, AllocError>
    ensures { IfOk result (λ it. it ≡ is_ignored (within_view within (rules_view rules.now)) path.now is_folder) }
{
    Ok(within.is_excluded || rules.is_matched(ask.alloc(), path, is_folder)?)
}

/// Returns whether a folder isn't entered, which is ignored or not. `leads` is whether a path below it is selected by itself.
///
/// # Errors
/// Out of memory.
fn leaves_out<Q: Ask>(
    ask: &Q,
    is_excluded: bool,
    leads: bool,
    path: &[u8],
) -> Result<bool, FolderFault>
    ensures { IfOk result (λ it. it ≡ is_unwanted (Q.question ask.now) is_excluded leads path.now) }
{
    if is_excluded {
        Ok(!ask.wants_ignored())
    } else if ask.selects_folder(path) || leads {
        Ok(false)
    } else {
        Ok(!ask.has_entry_below(path)?)
    }
}

/// Returns whether the first line is enough of a folder whose line replaces those of what is in it.
fn is_one_enough<Q: Ask>(ask: &Q, is_excluded: bool) -> bool
    ensures { result ≡ (is_excluded || not (Q.question ask.now).ignored) }
{
    is_excluded || !ask.wants_ignored()
}

/// Adds the rules of a folder's ignore file to those of the folders above. That of an ignored folder isn't read.
///
/// # Errors
/// The file can't be read, or out of memory.
fn add_rules<Q: Ask>(
    ask: &Q,
    within: Within,
    folder: &[u8],
    names: &[Vec<u8>],
    rules: &mut IgnoreRules,
) -> Result<(), FolderFault>
    ensures { OnOk result ((more : List Rule) × (rules_view rules.new ≡ rules_view rules.old ++ more) × HasRules (Q.question ask.now) folder.now (within_view within (rules_view rules.old)) (rules_view rules.new)) }
{
    if within.is_excluded {
        return Ok(());
    }
    ask.add_rules(folder, names, rules)
}
