//! The patterns of the condition `gitdir:`.

ghost use Rattle.std.specs.Prelude.{◌≡◌, IfOk, option_map};
ghost use Rattle.git_config.specs.Conditions.{anywhere, folder_compared, folders_of, is_beside, is_same};
ghost use Rattle.git_config.specs.Views.{folders_view};

use crate::conditions::{is_match, with_all_below};
use git_patterns::text::begins_with;
use std::alloc::{AllocError, Global};

/// A pattern of a repository's folder.
#[derive(Debug, Drop)]
pub struct FolderPattern {
    // The beginning of a path, in which no byte is a wildcard.
    front: Vec<u8>,
    // The pattern of the rest of a path.
    pattern: Vec<u8>,
    // Whether letters match in either case.
    folds_case: bool,
}

impl FolderPattern {
    /// Reads a pattern in which `~` was expanded already. One that begins with `./` is below `folder`, the folder of the file that
    /// has it. Any other that isn't absolute may begin at any folder. With a slash at its end it matches all that is below.
    ///
    /// None for `./` without such a file.
    ///
    /// # Errors
    /// Out of memory.
    pub fn of(
        alloc: Global,
        text: &[u8],
        folds_case: bool,
        folder: Option<&[u8]>,
    ) -> Result<Option<FolderPattern>, AllocError>
        ensures { IfOk result (λ found. option_map folders_view found ≡ folders_of folds_case text.now (option_map (λ it. it.now) folder.entry)) }
    {
        let (front, pattern) = if is_beside(text) {
            let Some(folder) = folder else {
                return Ok(None);
            };
            let below = text.get(1..).unwrap_or(b"");
            (
                Vec::from_slice(alloc, folder)?,
                with_all_below(alloc, below)?,
            )
        } else {
            let pattern = anywhere(alloc, text)?;
            (Vec::new(alloc), with_all_below(alloc, &pattern)?)
        };
        Ok(Some(FolderPattern {
            front,
            pattern,
            folds_case,
        }))
    }

    /// Returns whether the path of a folder matches. None if the pattern isn't compared, as for
    /// [`is_match`](crate::conditions::is_match).
    ///
    /// # Errors
    /// Out of memory.
    pub fn is_match(&self, alloc: Global, path: &[u8]) -> Result<Option<bool>, AllocError>
        ensures { IfOk result (λ it. it ≡ folder_compared (folders_view self.now) path.now) }
    {
        let front = self.front.as_slice();
        match path.split_at_checked(front.len()) {
            Some((begin, rest)) if is_same(self.folds_case, begin, front) => {
                is_match(alloc, &self.pattern, rest, self.folds_case)
            }
            _ => Ok(Some(false)),
        }
    }
}

/// Returns whether a pattern begins with `./`.
fn is_beside(text: &[u8]) -> bool
    ensures { result ≡ is_beside text.now }
{
    matches!(text, [b'.', b'/', ..])
}

/// Returns a pattern that may begin at any folder, if it isn't absolute.
///
/// # Errors
/// Out of memory.
fn anywhere(alloc: Global, text: &[u8]) -> Result<Vec<u8>, AllocError>
    ensures { IfOk result (λ it. it.items ≡ anywhere text.now) }
{
    let mut pattern = Vec::new(alloc);
    if !begins_with(b'/', text) {
        pattern.extend_from_slice(b"**/")?;
    }
    pattern.extend_from_slice(text)?;
    Ok(pattern)
}

/// Returns whether two texts are the same, or differ in case alone if that doesn't count.
fn is_same(folds_case: bool, a: &[u8], b: &[u8]) -> bool
    ensures { result ≡ is_same folds_case a.now b.now }
{
    if folds_case {
        a.eq_ignore_ascii_case(b)
    } else {
        a == b
    }
}
