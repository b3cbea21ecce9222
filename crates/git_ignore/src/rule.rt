//! The rule of a line of an ignore file.

ghost use Rattle.std.specs.Prelude.{◌≡◌, IfOk, option_map};
ghost use Rattle.git_ignore.specs.Excluded.{is_for};
ghost use Rattle.git_ignore.specs.Rules.{rule_at, rule_for, rule_of, rule_with, text_of, trimmed};
ghost use Rattle.git_ignore.specs.Views.{rule_view};

use git_patterns::Pattern;
use git_patterns::text::{
    before, begins_with, below, ends_in_slash, has_slash, name_of, without_cr, without_slash,
};
use std::alloc::{AllocError, Global};

/// A rule: the paths that match a pattern are excluded, or included again.
#[derive(Debug, Drop)]
pub(crate) struct Rule {
    /// The folder of the rule's file, with a slash at the end, or nothing for the worktree's top.
    folder: Vec<u8>,
    /// Whether the rule includes paths again.
    pub(crate) negated: bool,
    /// Whether the rule is for folders only.
    only_folders: bool,
    /// Whether the pattern is compared with the last name of a path, and not with the path below the folder.
    by_name: bool,
    /// The pattern.
    pattern: Pattern,
}

/// Returns a line without the spaces at its end. As in git, a space after a backslash stays.
fn trimmed(line: &[u8]) -> &[u8]
    ensures { result.now ≡ trimmed line.now }
{
    let mut kept = 0;
    let mut is_escaped = false;
    let mut at = 0;
    'bytes: while at < line.len() {
        let byte = line[at];
        at += 1;
        if byte != b' ' || is_escaped {
            kept = at;
        }
        is_escaped = byte == b'\\' && !is_escaped;
    }
    &line[..kept]
}

/// Returns the text of a line: without a CR that ends it, up to a NUL, and without the spaces at its end.
fn text_of(line: &[u8]) -> &[u8]
    ensures { result.now ≡ text_of line.now }
{
    trimmed(before(0, without_cr(line)))
}

/// Returns the rule of a pattern. None if that is empty, or no path matches it.
fn rule_with(
    alloc: Global,
    folder: &[u8],
    negated: bool,
    only_folders: bool,
    pattern: &[u8],
) -> Result<Option<Rule>, AllocError>
    ensures { IfOk result (λ found. option_map rule_view found ≡ rule_with folder.now negated only_folders pattern.now) }
{
    let by_name = !has_slash(pattern);
    let compared = without_slash(pattern);
    if compared.is_empty() {
        return Ok(None);
    }
    match Pattern::of(alloc, compared)? {
        Some(pattern) => Ok(Some(Rule {
            folder: Vec::from_slice(alloc, folder)?,
            negated,
            only_folders,
            by_name,
            pattern,
        })),
        None => Ok(None),
    }
}

/// Returns the rule of a pattern, which is for folders only if a slash is after it.
fn rule_for(
    alloc: Global,
    folder: &[u8],
    negated: bool,
    text: &[u8],
) -> Result<Option<Rule>, AllocError>
    ensures { IfOk result (λ found. option_map rule_view found ≡ rule_for folder.now negated text.now) }
{
    if ends_in_slash(text) {
        rule_with(alloc, folder, negated, true, &text[..text.len() - 1])
    } else {
        rule_with(alloc, folder, negated, false, text)
    }
}

/// Returns the rule of a line's text, which is negated if it begins with `!`.
fn rule_of(alloc: Global, folder: &[u8], text: &[u8]) -> Result<Option<Rule>, AllocError>
    ensures { IfOk result (λ found. option_map rule_view found ≡ rule_of folder.now text.now) }
{
    if begins_with(b'!', text) {
        rule_for(alloc, folder, true, &text[1..])
    } else {
        rule_for(alloc, folder, false, text)
    }
}

/// Returns the rule of a line. None for an empty line, a comment, and a line whose pattern is empty or malformed.
pub(crate) fn rule_at(alloc: Global, folder: &[u8], line: &[u8]) -> Result<Option<Rule>, AllocError>
    ensures { IfOk result (λ found. option_map rule_view found ≡ rule_at folder.now line.now) }
{
    if line.is_empty() || begins_with(b'#', line) {
        return Ok(None);
    }
    rule_of(alloc, folder, text_of(line))
}

impl Rule {
    /// Returns whether the rule is for a path.
    pub(crate) fn is_for(
        &self,
        alloc: Global,
        path: &[u8],
        is_folder: bool,
    ) -> Result<bool, AllocError>
        ensures { IfOk result (λ it. it ≡ is_for (rule_view self.now) path.now is_folder) }
    {
        if self.only_folders && !is_folder {
            return Ok(false);
        }
        match below(&self.folder, path) {
            Some(rest) if self.by_name => self.pattern.matches(alloc, name_of(rest)),
            Some(rest) => self.pattern.matches(alloc, rest),
            None => Ok(false),
        }
    }
}
