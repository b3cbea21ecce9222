//! Lines of attribute files.

ghost use Rattle.std.specs.Prelude.{◌≡◌, IfOk, option_map};
ghost use Rattle.git_patterns.specs.Views.{pattern_parts};
ghost use Rattle.git_attributes.specs.Lines.{line_at, macro_name, macro_of, pattern_of, plain_line_at, line_with_front};
ghost use Rattle.git_attributes.specs.Views.{line_view};

use crate::assignment::{Assignment, assignments_of, is_name};
use crate::words::{skip_blanks, unquoted, word_of};
use git_patterns::Pattern;
use git_patterns::text::{before, begins_with, ends_in_slash, has_slash, without_slash};
use std::alloc::{AllocError, Global};

/// As git does, a line of so many bytes or more is left out.
const LINE_LIMIT: usize = 2048;

/// A pattern, and the assignments of the paths that match it.
#[derive(Debug, Drop)]
pub(crate) struct Rule<'a> {
    /// The folder of the pattern's file, with a slash at the end, or nothing for the worktree's top.
    pub(crate) folder: &'a [u8],
    /// Whether the pattern is compared with the last name of a path, and not with the path below the folder.
    pub(crate) by_name: bool,
    /// The pattern.
    pub(crate) pattern: Pattern,
    /// The assignments.
    pub(crate) given: Vec<Assignment<'a>>,
}

/// An attribute with assignments of its own.
#[derive(Debug, Drop)]
pub(crate) struct Macro<'a> {
    /// The attribute's name.
    pub(crate) name: Vec<u8>,
    /// The assignments.
    pub(crate) given: Vec<Assignment<'a>>,
}

/// A rule or a macro.
#[derive(Debug, Drop)]
pub(crate) enum Line<'a> {
    Rule(Rule<'a>),
    Macro(Macro<'a>),
}

/// Returns whether a pattern is compared with the last name of a path, and the pattern. None if it begins with `!`, which
/// git leaves out, or matches no file.
fn pattern_of(alloc: Global, text: &[u8]) -> Result<Option<(bool, Pattern)>, AllocError>
    ensures { IfOk result (λ found. option_map (λ x. (x.0, pattern_parts x.1)) found ≡ pattern_of text.now) }
{
    let text = before(0, text);
    if begins_with(b'!', text) || ends_in_slash(text) {
        return Ok(None);
    }
    let by_name = !has_slash(text);
    match Pattern::of(alloc, without_slash(text))? {
        Some(pattern) => Ok(Some((by_name, pattern))),
        None => Ok(None),
    }
}

/// Returns the macro whose name is the first word of a text, up to a NUL, with the assignments of the other text. None if one
/// of them isn't one.
fn macro_of<'a>(alloc: Global, name: &[u8], text: &'a [u8]) -> Result<Option<Line<'a>>, AllocError>
    ensures { IfOk result (λ found. option_map line_view found ≡ macro_of name.now text.now) }
{
    let Some((name, _)) = word_of(before(0, name)) else {
        return Ok(None);
    };
    if !is_name(name) {
        return Ok(None);
    }
    match assignments_of(alloc, text)? {
        Some(given) => Ok(Some(Line::Macro(Macro {
            name: Vec::from_slice(alloc, name)?,
            given,
        }))),
        None => Ok(None),
    }
}

/// Returns the text after `[attr]`, if a text begins with it and has more.
fn macro_name(text: &[u8]) -> Option<&[u8]>
    ensures { option_map (λ name. name.now) result ≡ macro_name text.now }
{
    match text {
        [b'[', b'a', b't', b't', b'r', b']', name @ ..] if !name.is_empty() => Some(name),
        _ => None,
    }
}

/// Returns what a line says that begins with this pattern or macro: the macro, or the rule of the pattern, with the
/// assignments of the other text. None if one of them isn't one.
fn line_with_front<'a>(
    alloc: Global,
    folder: &'a [u8],
    front: &[u8],
    text: &'a [u8],
) -> Result<Option<Line<'a>>, AllocError>
    ensures { IfOk result (λ found. option_map line_view found ≡ line_with_front folder.now front.now text.now) }
{
    if let Some(name) = macro_name(front) {
        return macro_of(alloc, name, text);
    }
    let Some(given) = assignments_of(alloc, text)? else {
        return Ok(None);
    };
    match pattern_of(alloc, front)? {
        Some((by_name, pattern)) => Ok(Some(Line::Rule(Rule {
            folder,
            by_name,
            pattern,
            given,
        }))),
        None => Ok(None),
    }
}

/// Returns what a line says whose first word isn't in quotes.
fn plain_line_of<'a>(
    alloc: Global,
    folder: &'a [u8],
    text: &'a [u8],
) -> Result<Option<Line<'a>>, AllocError>
    ensures { IfOk result (λ found. option_map line_view found ≡ plain_line_at folder.now text.now) }
{
    let Some((word, rest)) = word_of(text) else {
        return Ok(None);
    };
    line_with_front(alloc, folder, word, rest)
}

/// Returns what a line says, up to a NUL. None for a comment, an empty or an overlong line, and one that git can't read.
pub(crate) fn line_of<'a>(
    alloc: Global,
    folder: &'a [u8],
    line: &'a [u8],
) -> Result<Option<Line<'a>>, AllocError>
    ensures { IfOk result (λ found. option_map line_view found ≡ line_at folder.now line.now) }
{
    let line = before(0, line);
    let text = skip_blanks(line);
    if begins_with(b'#', text) || line.len() >= LINE_LIMIT {
        return Ok(None);
    }
    if begins_with(b'"', text) {
        if let Some((pattern, rest)) = unquoted(alloc, &text[1..])? {
            return line_with_front(alloc, folder, &pattern, rest);
        }
    }
    plain_line_of(alloc, folder, text)
}
