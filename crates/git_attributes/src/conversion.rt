//! Which conversions git makes of a file before it stores it.

ghost use Rattle.std.specs.Prelude.{◌≡◌, map};
ghost use Rattle.git_attributes.specs.Conversions.{has_ident, is_empty, is_encoded, is_filtered, is_lfs, is_unconverted, steps_of};
ghost use Rattle.git_attributes.specs.Views.{given_of, state_of};

use crate::assignment::{Assignment, Value, state_in};
use crate::normalization::{Normalization, normalization_of};
use git_patterns::text::is_word;

/// The conversions of a repository's configuration. The attributes of a path say which of them its file has.
#[derive(Clone, Copy, Debug, PartialEq, Eq)]
pub struct Configured {
    /// Whether git decides by a file's bytes whether to convert its line ends, if its attributes don't (`core.autocrlf` is true or
    /// `input`).
    pub auto_line_ends: bool,
    /// Whether the driver of `filter=lfs` is git-lfs (`filter.lfs.process`, `filter.lfs.clean`).
    pub has_lfs: bool,
}

/// The conversions of a file, in order.
#[derive(Clone, Copy, Debug, PartialEq, Eq)]
pub struct Steps {
    /// Whether a pointer of git-lfs is stored in place of the file's bytes.
    pub lfs: bool,
    /// How line ends are stored.
    pub line_ends: Normalization,
    /// Whether each `$Id: .. $` is stored as `$Id$`.
    pub ident: bool,
}

/// Returns the conversions of a file with attributes of these states.
pub fn steps_of(known: &[Assignment<'_>], configured: Configured) -> Steps
    ensures { result ≡ steps_of (map given_of known.now) configured }
{
    Steps {
        lfs: configured.has_lfs && is_lfs(known),
        line_ends: normalization_of(known, configured.auto_line_ends),
        ident: has_ident(known),
    }
}

impl Steps {
    /// Returns whether a file is stored as it is.
    pub(crate) fn is_empty(self) -> bool
        ensures { result ≡ is_empty self }
    {
        !self.lfs && self.line_ends == Normalization::Off && !self.ident
    }
}

/// Returns whether the filter is `lfs`.
fn is_lfs(known: &[Assignment<'_>]) -> bool
    ensures { result ≡ is_lfs (map given_of known.now) }
{
    match state_in(b"filter", known) {
        Value::Text(name) => is_word(name, b"lfs"),
        _ => false,
    }
}

/// Returns whether `ident` is set.
fn has_ident(known: &[Assignment<'_>]) -> bool
    ensures { result ≡ has_ident (map given_of known.now) }
{
    matches!(state_in(b"ident", known), Value::Set)
}

/// Returns whether there is a filter. Only a text names one.
fn is_filtered(known: &[Assignment<'_>]) -> bool
    ensures { result ≡ is_filtered (map given_of known.now) }
{
    matches!(state_in(b"filter", known), Value::Text(_))
}

/// Returns whether there is an encoding.
fn is_encoded(known: &[Assignment<'_>]) -> bool
    ensures { result ≡ is_encoded (map given_of known.now) }
{
    matches!(
        state_in(b"working-tree-encoding", known),
        Value::Set | Value::Text(_)
    )
}

/// Returns whether attributes of these states ask for a conversion that isn't made here: a filter other than that of git-lfs, or
/// `working-tree-encoding`.
pub fn is_unconverted(known: &[Assignment<'_>], configured: Configured) -> bool
    ensures { result ≡ is_unconverted (map given_of known.now) configured }
{
    is_encoded(known) || (is_filtered(known) && !(configured.has_lfs && is_lfs(known)))
}
