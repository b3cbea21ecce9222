//! The conditions of `includeIf`, and the patterns that they have.

ghost use Rattle.std.specs.Prelude.{◌≡◌, IfOk, false, option_map};
ghost use Rattle.std.specs.List.{list_any};
ghost use Rattle.git_config.specs.Conditions.{compared, condition_of, is_cased, with_all_below};
ghost use Rattle.git_config.specs.Views.{asks_view};

use git_patterns::text::{below, ends_in_slash};
use git_patterns::{MOST_PIECES, Style, Wildcards};
use std::alloc::{AllocError, Global};

/// A condition of an include, with its pattern.
#[derive(Clone, Copy, Debug, PartialEq, Eq)]
pub enum Condition<'a> {
    /// `gitdir:`: the repository's folder matches, as a [`FolderPattern`](crate::FolderPattern) says. After `gitdir/i:` letters
    /// match in either case.
    GitDir {
        /// The pattern as it is written.
        pattern: &'a [u8],
        /// Whether letters match in either case.
        folds_case: bool,
    },
    /// `onbranch:`: the name of the branch that `HEAD` names matches. With a slash at its end the pattern matches all branches
    /// whose names begin so.
    OnBranch(&'a [u8]),
    /// `hasconfig:remote.*.url:`: the URL of a remote matches.
    HasRemoteUrl(&'a [u8]),
}

/// Returns the condition that a text spells. None if git doesn't know it: then it never holds.
pub fn condition_of(text: &[u8]) -> Option<Condition<'_>>
    ensures { option_map asks_view result ≡ condition_of text.now }
{
    if let Some(pattern) = below(b"gitdir:", text) {
        return Some(Condition::GitDir {
            pattern,
            folds_case: false,
        });
    }
    if let Some(pattern) = below(b"gitdir/i:", text) {
        return Some(Condition::GitDir {
            pattern,
            folds_case: true,
        });
    }
    if let Some(pattern) = below(b"onbranch:", text) {
        return Some(Condition::OnBranch(pattern));
    }
    match below(b"hasconfig:remote.*.url:", text) {
        Some(pattern) => Some(Condition::HasRemoteUrl(pattern)),
        None => None,
    }
}

/// Returns whether a branch's name matches the pattern of `onbranch:`. None if the pattern isn't compared, as for `is_match`.
///
/// # Errors
/// Out of memory.
pub fn is_on_branch(
    alloc: Global,
    pattern: &[u8],
    branch: &[u8],
) -> Result<Option<bool>, AllocError>
    ensures { IfOk result (λ it. it ≡ compared false (with_all_below pattern.now) branch.now) }
{
    let pattern = with_all_below(alloc, pattern)?;
    is_match(alloc, &pattern, branch, false)
}

/// Returns a pattern that matches all that is below a folder, if a slash is at its end.
///
/// # Errors
/// Out of memory.
pub(crate) fn with_all_below(alloc: Global, pattern: &[u8]) -> Result<Vec<u8>, AllocError>
    ensures { IfOk result (λ it. it.items ≡ with_all_below pattern.now) }
{
    let mut all = Vec::from_slice(alloc, pattern)?;
    if ends_in_slash(pattern) {
        all.extend_from_slice(b"**")?;
    }
    Ok(all)
}

/// Returns whether a text matches a pattern in which slashes part names. None if it isn't compared: a pattern of more than
/// [`MOST_PIECES`] bytes, and one without regard to case that has a set or a backslash.
///
/// # Errors
/// Out of memory.
pub fn is_match(
    alloc: Global,
    pattern: &[u8],
    text: &[u8],
    folds_case: bool,
) -> Result<Option<bool>, AllocError>
    ensures { IfOk result (λ it. it ≡ compared folds_case pattern.now text.now) }
{
    if pattern.len() > MOST_PIECES || folds_case && has_cased(pattern) {
        return Ok(None);
    }
    let style = Style {
        parts_names: true,
        folds_case,
    };
    match Wildcards::of(alloc, style, pattern)? {
        Some(wildcards) => Ok(Some(wildcards.is_match(text, false))),
        None => Ok(Some(false)),
    }
}

/// Returns whether a pattern has a set or a backslash, after which letters have a case.
fn has_cased(pattern: &[u8]) -> bool
    ensures { result ≡ list_any is_cased pattern.now }
{
    pattern.iter().any(|byte| *byte == b'[' || *byte == b'\\')
}
