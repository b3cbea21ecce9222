//! Patterns.

ghost use Rattle.std.specs.Prelude.{◌≡◌, ◌↔◌, IfOk, IsTrue, option_map};
ghost use Rattle.git_patterns.specs.Patterns.{parts_of};
ghost use Rattle.git_patterns.specs.Views.{pattern_parts};
ghost use Rattle.git_patterns.specs.Wildmatch.{Matches, is_match};

use crate::piece::{Piece, pieces_of};
use crate::table::matches;
use std::alloc::{AllocError, Global};

/// A pattern of git's wildmatch.
#[derive(Debug, Drop)]
pub struct Pattern {
    pieces: Vec<Piece>,
}

impl Pattern {
    /// Reads a pattern. None if no path matches it, since it ends within a set or after a backslash, or names a class that
    /// isn't known.
    ///
    /// As in git, the bytes before the first one with a meaning of its own match themselves, and a name begins after
    /// them: `a**/b` matches `ax/y/b`, and `?**/b` doesn't.
    ///
    /// # Errors
    /// Out of memory.
    pub fn of(alloc: Global, text: &[u8]) -> Result<Option<Pattern>, AllocError>
        ensures { IfOk result (λ found. option_map pattern_parts found ≡ parts_of text.now) }
    {
        match pieces_of(alloc, text)? {
            Some(pieces) => Ok(Some(Pattern { pieces })),
            None => Ok(None),
        }
    }

    /// Returns whether a path matches the pattern.
    ///
    /// The time is at most the pattern's length times the path's.
    ///
    /// # Errors
    /// Out of memory.
    pub fn matches(&self, alloc: Global, path: &[u8]) -> Result<bool, AllocError>
        ensures test { IfOk result (λ it. it ≡ is_match (pattern_parts self.now) path.now) }
        ensures matches { IfOk result (λ it. IsTrue it ↔ Matches (pattern_parts self.now) path.now) }
    {
        matches(alloc, &self.pieces, path)
    }
}
