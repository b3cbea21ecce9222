//! The rules of ignore files, and which paths they exclude.

ghost use Rattle.std.specs.Prelude.{◌≡◌, ◌++◌, [], IfOk, OnErr, OnOk, length, map, option_map, take};
ghost use Rattle.git_patterns.specs.Text.{first_at};
ghost use Rattle.git_ignore.specs.Excluded.{is_excluded, is_matched};
ghost use Rattle.git_ignore.specs.Rules.{line_step, rules_of, split_line};
ghost use Rattle.git_ignore.specs.Views.{rule_view, rules_view};

use crate::rule::{Rule, rule_at};
use git_patterns::text::{first_at, without_mark};
use std::alloc::{AllocError, Global};

/// The rules of ignore files, as gitignore(5) describes them. Later ones are stronger.
#[derive(Debug, Drop)]
pub struct IgnoreRules {
    rules: Vec<Rule>,
}

/// Splits a text after its first line feed.
fn split_line(text: &[u8]) -> (&[u8], &[u8])
    ensures { (result.0.now, result.1.now) ≡ split_line (first_at 10 text.now) text.now }
{
    match first_at(b'\n', text) {
        Some(at) => (&text[..at], &text[at + 1..]),
        None => (text, &[]),
    }
}

/// Returns the first line of a text, and the text after it. None if the text is empty.
fn line_at(text: &[u8]) -> Option<(&[u8], &[u8])>
    ensures { option_map (λ x. (x.0.now, x.1.now)) result ≡ line_step text.now }
{
    match text {
        [] => None,
        [_, ..] => Some(split_line(text)),
    }
}

/// Returns the rules of a file.
fn rules_of(alloc: Global, folder: &[u8], bytes: &[u8]) -> Result<Vec<Rule>, AllocError>
    ensures { IfOk result (λ rules. map rule_view rules.items ≡ rules_of folder.now bytes.now) }
{
    let mut rules = Vec::new(alloc);
    let mut rest = without_mark(bytes);
    'lines: while let Some((line, after)) = line_at(rest) {
        if let Some(rule) = rule_at(alloc, folder, line)? {
            rules.push(rule)?;
        }
        rest = after;
    }
    Ok(rules)
}

impl IgnoreRules {
    /// Returns no rules.
    pub fn new(alloc: Global) -> IgnoreRules
        ensures { rules_view result ≡ [] }
    {
        IgnoreRules {
            rules: Vec::new(alloc),
        }
    }

    /// Adds the rules of an ignore file. They are stronger than those of the files before it.
    ///
    /// The folder is that of the file, from the worktree's top, with a slash at the end; nothing for the files whose rules are
    /// for the whole worktree. gitignore(5) has the order of the files: those of the worktree's folders are stronger the
    /// deeper they are, and `info/exclude` and the file of `core.excludesFile` are weaker than these.
    ///
    /// As in git, a line has no effect whose pattern ends within a set or after a backslash, or names a class that isn't known.
    ///
    /// # Errors
    /// Out of memory. Then the rules are unchanged.
    pub fn read(&mut self, alloc: Global, folder: &[u8], bytes: &[u8]) -> Result<(), AllocError>
        ensures added { OnOk result (rules_view self.new ≡ rules_view self.old ++ rules_of folder.now bytes.now) }
        ensures unchanged { OnErr result (rules_view self.new ≡ rules_view self.old) }
    {
        let mut more = rules_of(alloc, folder, bytes)?;
        self.rules.append(&mut more)
    }

    /// Returns the number of rules.
    pub fn count(&self) -> usize
        ensures { result ≡ length (rules_view self.now) }
    {
        self.rules.len()
    }

    /// Removes the rules after the first `count`.
    pub fn truncate(&mut self, count: usize)
        ensures { rules_view self.new ≡ take count (rules_view self.old) }
    {
        self.rules.truncate(count)
    }

    /// Returns whether the last rule that is for a path excludes it. False if no rule is for it.
    ///
    /// The path is from the worktree's top, and has no slash at its end. The folders above it don't count: below an excluded
    /// folder, `is_excluded` decides as git does.
    ///
    /// # Errors
    /// Out of memory.
    pub fn is_matched(
        &self,
        alloc: Global,
        path: &[u8],
        is_folder: bool,
    ) -> Result<bool, AllocError>
        ensures { IfOk result (λ it. it ≡ is_matched (rules_view self.now) path.now is_folder) }
    {
        let mut at = self.rules.len();
        'rules: while at > 0 {
            at -= 1;
            let rule = &self.rules[at];
            if rule.is_for(alloc, path, is_folder)? {
                return Ok(!rule.negated);
            }
        }
        Ok(false)
    }

    /// Returns whether a path is excluded: the last rule that is for it, or for a folder above it, excludes that.
    ///
    /// The path is from the worktree's top, and has no slash at its end. As in git, nothing below an excluded folder is
    /// included again.
    ///
    /// # Errors
    /// Out of memory.
    pub fn is_excluded(
        &self,
        alloc: Global,
        path: &[u8],
        is_folder: bool,
    ) -> Result<bool, AllocError>
        ensures { IfOk result (λ it. it ≡ is_excluded (rules_view self.now) path.now is_folder) }
    {
        let mut at = 0;
        'folders: while at < path.len() {
            if path[at] == b'/' && self.is_matched(alloc, &path[..at], true)? {
                return Ok(true);
            }
            at += 1;
        }
        self.is_matched(alloc, path, is_folder)
    }
}
