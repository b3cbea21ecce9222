//! Assignments of attributes (`text`, `-text`, `!text`, `text=auto`), and the states that they give.

ghost use Rattle.std.specs.Prelude.{◌≡◌, IfOk, map, option_map, OnOk};
ghost use Rattle.std.specs.List.{list_all};
ghost use Rattle.git_attributes.specs.Assignments.{assignment_at, assignment_of, assignments_of, is_name, is_name_byte, named};
ghost use Rattle.git_attributes.specs.Views.{given_of, state_of, macro_view};
ghost use Rattle.git_attributes.specs.States.{assigned, is_known, macro_named, state_in, unfolded};

use crate::line::Macro;
use crate::words::{skip_blanks, word_of};
use git_patterns::text::{before, first_at, is_word};
use std::alloc::{AllocError, Global};

/// The state that a line assigns to an attribute.
#[derive(Clone, Copy, Debug)]
pub enum Value<'a> {
    /// The attribute is set.
    Set,
    /// It is unset: `-` is before its name.
    Unset,
    /// It is unspecified, as if no line named it: `!` is before its name.
    Unspecified,
    /// It is set to this text, which follows `=`.
    Text(&'a [u8]),
}

/// An attribute, and the state that a line assigns to it.
#[derive(Clone, Copy, Debug)]
pub struct Assignment<'a> {
    /// The attribute's name.
    pub name: &'a [u8],
    /// Its state.
    pub value: Value<'a>,
}

/// Returns whether a name may have a byte.
fn is_name_byte(byte: u8) -> bool
    ensures { result ≡ is_name_byte byte }
{
    matches!(byte, b'0'..=b'9' | b'A'..=b'Z' | b'a'..=b'z' | b'-' | b'.' | b'_')
}

/// Returns whether a name may have each byte of a text.
fn has_name_bytes(text: &[u8]) -> bool
    ensures { result ≡ list_all is_name_byte text.now }
{
    text.iter().all(|byte| is_name_byte(*byte))
}

/// Returns whether this is the name of an attribute: letters, digits, `-`, `.` and `_`, without a `-` at the start.
pub(crate) fn is_name(name: &[u8]) -> bool
    ensures { result ≡ is_name name.now }
{
    match name {
        [] => false,
        [b'-', ..] => false,
        [_, ..] => has_name_bytes(name),
    }
}

/// Returns an assignment. None if this isn't the name of an attribute.
fn named<'a>(name: &'a [u8], value: Value<'a>) -> Option<Assignment<'a>>
    ensures { option_map given_of result ≡ named name.now (state_of value.entry) }
{
    if is_name(name) {
        Some(Assignment { name, value })
    } else {
        None
    }
}

/// Returns the assignment that a word is. None if it is none.
fn assignment_of(word: &[u8]) -> Option<Assignment<'_>>
    ensures { option_map given_of result ≡ assignment_of word.now }
{
    match word {
        [b'-', rest @ ..] => named(before(b'=', rest), Value::Unset),
        [b'!', rest @ ..] => named(before(b'=', rest), Value::Unspecified),
        _ => match first_at(b'=', word) {
            Some(at) => named(&word[..at], Value::Text(&word[at + 1..])),
            None => named(word, Value::Set),
        },
    }
}

/// Reads an assignment. None if the next word is none, or there is no word.
fn assignment_at(text: &[u8]) -> Option<(Assignment<'_>, &[u8])>
    ensures { option_map (λ x. (given_of x.0, x.1.now)) result ≡ assignment_at text.now }
{
    let (word, rest) = word_of(text)?;
    Some((assignment_of(word)?, rest))
}

/// Returns the assignments of a text. None if a word is none.
pub(crate) fn assignments_of(
    alloc: Global,
    text: &[u8],
) -> Result<Option<Vec<Assignment<'_>>>, AllocError>
    ensures { IfOk result (λ found. option_map (λ given. map given_of given.items) found ≡ assignments_of text.now) }
{
    let mut given = Vec::new(alloc);
    let mut rest = text;
    'words: while let Some((assignment, after)) = assignment_at(rest) {
        given.push(assignment)?;
        rest = after;
    }
    if skip_blanks(rest).is_empty() {
        Ok(Some(given))
    } else {
        Ok(None)
    }
}

/// Returns whether an attribute has a state.
fn is_known(name: &[u8], known: &[Assignment<'_>]) -> bool
    ensures { result ≡ is_known name.now (map given_of known.now) }
{
    let mut rest = known;
    'known: while let [assignment, after @ ..] = rest {
        if is_word(assignment.name, name) {
            return true;
        }
        rest = after;
    }
    false
}

/// Returns the assignments of the last macro of a name. None if there is none.
fn macro_named<'m, 'a>(macros: &'m [Macro<'a>], name: &[u8]) -> Option<&'m [Assignment<'a>]>
    ensures { option_map (λ given. map given_of given.now) result ≡ macro_named (map macro_view macros.now) name.now }
{
    let mut found = None;
    let mut rest = macros;
    'macros: while let [it, after @ ..] = rest {
        if is_word(&it.name, name) {
            found = Some(it.given.as_slice());
        }
        rest = after;
    }
    found
}

/// Adds the states that assignments state, the last one first, to those that are known, which stay. A macro that is set also
/// makes its own assignments, up to this depth of macros within macros.
///
/// # Errors
/// Out of memory.
#[cycle(give)]
pub(crate) fn give<'a>(
    macros: &[Macro<'a>],
    depth: usize,
    given: &[Assignment<'a>],
    known: &mut Vec<Assignment<'a>>,
) -> Result<(), AllocError>
    ensures { OnOk result (map given_of known.new.items ≡ assigned (map macro_view macros.now) depth (map given_of given.now) (map given_of known.old.items)) }
{
    let mut at = given.len();
    'given: while at > 0 {
        at -= 1;
        let assignment = given[at];
        if !is_known(assignment.name, known) {
            known.push(assignment)?;
            give_macro(macros, depth, assignment, known)?;
        }
    }
    Ok(())
}

/// Adds the states that a macro assigns, if an assignment sets it.
///
/// # Errors
/// Out of memory.
#[cycle(give)]
fn give_macro<'a>(
    macros: &[Macro<'a>],
    depth: usize,
    assignment: Assignment<'a>,
    known: &mut Vec<Assignment<'a>>,
) -> Result<(), AllocError>
    ensures { OnOk result (map given_of known.new.items ≡ unfolded (map macro_view macros.now) depth (given_of assignment.entry) (map given_of known.old.items)) }
{
    if depth == 0 || !matches!(assignment.value, Value::Set) {
        return Ok(());
    }
    match macro_named(macros, assignment.name) {
        Some(given) => give(macros, depth - 1, given, known),
        None => Ok(()),
    }
}

/// Returns the state of an attribute: unspecified if it has none.
pub(crate) fn state_in<'a>(name: &[u8], known: &[Assignment<'a>]) -> Value<'a>
    ensures { state_of result ≡ state_in name.now (map given_of known.now) }
{
    let mut rest = known;
    'known: while let [assignment, after @ ..] = rest {
        if is_word(assignment.name, name) {
            return assignment.value;
        }
        rest = after;
    }
    Value::Unspecified
}
