//! Attribute files, and the states that they give to the attributes of a path.

ghost use Rattle.std.specs.Prelude.{◌≡◌, [], IfOk, OnOk, map, option_map};
ghost use Rattle.git_patterns.specs.Text.{first_at};
ghost use Rattle.git_attributes.specs.Files.{line_step, split_line, states_of, with_file, with_line};
ghost use Rattle.git_attributes.specs.States.{is_for};
ghost use Rattle.git_attributes.specs.Views.{attributes_view, given_of, line_view, rule_view, source_view};

use crate::assignment::{Assignment, give};
use crate::line::{Line, Macro, Rule, line_of};
use git_patterns::text::{below, first_at, name_of, without_cr, without_mark};
use std::alloc::{AllocError, Global};

/// An attribute file.
#[derive(Clone, Copy, Debug)]
pub struct Source<'a> {
    /// The folder whose paths the file's patterns are for, from the worktree's top, with a slash at the end; nothing for all
    /// paths.
    pub folder: &'a [u8],
    /// Whether the file may state macros, as git lets the file of the worktree's top and those outside of the worktree.
    pub has_macros: bool,
    /// The file's bytes.
    pub bytes: &'a [u8],
}

/// What attribute files say.
#[derive(Debug, Drop)]
pub struct Attributes<'a> {
    rules: Vec<Rule<'a>>,
    macros: Vec<Macro<'a>>,
}

/// Returns whether a rule is for a path.
fn is_for(alloc: Global, rule: &Rule<'_>, path: &[u8]) -> Result<bool, AllocError>
    ensures { IfOk result (λ it. it ≡ is_for (rule_view rule.now) path.now) }
{
    match below(rule.folder, path) {
        Some(rest) if rule.by_name => rule.pattern.matches(alloc, name_of(rest)),
        Some(rest) => rule.pattern.matches(alloc, rest),
        None => Ok(false),
    }
}

/// Splits a text after its first line feed. As in git, a CR before it isn't part of the line.
fn split_line(text: &[u8]) -> (&[u8], &[u8])
    ensures { (result.0.now, result.1.now) ≡ split_line (first_at 10 text.now) text.now }
{
    match first_at(b'\n', text) {
        Some(at) => (without_cr(&text[..at]), &text[at + 1..]),
        None => (text, &[]),
    }
}

/// Returns the first line of a text, and the text after it. None if the text is empty.
pub(crate) fn line_at(text: &[u8]) -> Option<(&[u8], &[u8])>
    ensures { option_map (λ x. (x.0.now, x.1.now)) result ≡ line_step text.now }
{
    match text {
        [] => None,
        [_, ..] => Some(split_line(text)),
    }
}

/// The attributes that git has by itself: the macro `binary`. It is the weakest file.
pub const BUILT_IN: Source<'static> = Source {
    folder: b"",
    has_macros: true,
    bytes: b"[attr]binary -diff -merge -text\n",
};

impl<'a> Attributes<'a> {
    /// Returns no attributes, not even git's own macro (`BUILT_IN`), which `attributes_of` reads first.
    pub fn new(alloc: Global) -> Attributes<'a>
        ensures { attributes_view result ≡ ([], []) }
    {
        Attributes {
            rules: Vec::new(alloc),
            macros: Vec::new(alloc),
        }
    }

    /// Adds an attribute file. Its lines are stronger than those of the files before it.
    ///
    /// # Errors
    /// Out of memory.
    pub fn read(&mut self, alloc: Global, source: Source<'a>) -> Result<(), AllocError>
        ensures { OnOk result (attributes_view self.new ≡ with_file (attributes_view self.old) (source_view source.entry)) }
    {
        let mut rest = without_mark(source.bytes);
        'lines: while let Some((line, after)) = line_at(rest) {
            if let Some(said) = line_of(alloc, source.folder, line)? {
                self.add(source.has_macros, said)?;
            }
            rest = after;
        }
        Ok(())
    }

    /// Adds what a line says. A macro is left out if the file may state none.
    fn add(&mut self, has_macros: bool, line: Line<'a>) -> Result<(), AllocError>
        ensures { OnOk result (attributes_view self.new ≡ with_line has_macros (attributes_view self.old) (line_view line.entry)) }
    {
        match line {
            Line::Rule(rule) => self.rules.push(rule)?,
            Line::Macro(found) if has_macros => self.macros.push(found)?,
            Line::Macro(_) => {}
        }
        Ok(())
    }

    /// Returns the states of a path's attributes. An attribute that isn't in the list is unspecified.
    ///
    /// # Errors
    /// Out of memory.
    pub fn states_of(&self, alloc: Global, path: &[u8]) -> Result<Vec<Assignment<'a>>, AllocError>
        ensures { IfOk result (λ known. map given_of known.items ≡ states_of (attributes_view self.now) path.now) }
    {
        let mut known = Vec::new(alloc);
        let mut at = self.rules.len();
        'rules: while at > 0 {
            at -= 1;
            let rule = &self.rules[at];
            if is_for(alloc, rule, path)? {
                give(&self.macros, self.macros.len(), &rule.given, &mut known)?;
            }
        }
        Ok(known)
    }
}
