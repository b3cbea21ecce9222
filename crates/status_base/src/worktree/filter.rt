//! Conversion of a worktree's files to the bytes that git stores.

ghost use Rattle.std.specs.Prelude.{◌≡◌, List, ℕ, Some, refl};
ghost use Rattle.bstr.specs.BStr.{bstr_bytes};
ghost use Rattle.status_index.specs.Content.{Content};
ghost use Rattle.status_base.specs.Conversions.{Conversion, same};
ghost use Rattle.status_base.specs.Lawful.{CloneKeeps};

use bstr::BStr;
use status_index::{Fault, ReadBytes};

/// The result of a conversion.
#[derive(Drop)]
pub enum ToGitOutcome<'a, F> {
    /// The file is stored unchanged. It is returned unread.
    Unchanged(F),
    /// The converted bytes.
    Buffer(&'a [u8]),
}

/// Converts a worktree's files to the bytes that git stores, as git's clean filters do.
pub trait ToGit: Clone {
    ghost use Rattle.status_base.specs.Outcomes.{IsConverted, IsConversionSeen};

    /// The specified conversion of a file with this content, at a path.
    ghost conversion: { Self → Content → List ℕ → Conversion };

    /// Converts the file at a path. Converted bytes are written to `buffer`.
    ///
    /// # Errors
    /// A fault of the filter, or of reading the file.
    fn convert<'a, F: ReadBytes>(
        &self,
        file: F,
        path: BStr<'_>,
        buffer: &'a mut Vec<u8>,
    ) -> Result<ToGitOutcome<'a, F>, Fault>
        ensures answer { (content : Content) → F.left file ≡ Some content → IsConverted F.left (conversion self.now content (bstr_bytes path.entry)) (F.left file) result }
        ensures seen { IsConversionSeen F.may_give (λ content. conversion self.now content (bstr_bytes path.entry)) (F.may_give file) result };

    /// A clone converts in the same way.
    ghost clone_keeps_conversion: { CloneKeeps Self.is_clone conversion };
}

/// A filter that keeps every file unchanged.
#[derive(Clone, Copy, Debug, Default, PartialEq, Eq)]
pub struct NoFilter;

impl ToGit for NoFilter {
    ghost conversion = { λ _ _ _. same };

    ghost clone_keeps_conversion = { λ _ _ _. refl };

    fn convert<'a, F: ReadBytes>(
        &self,
        file: F,
        _path: BStr<'_>,
        _buffer: &'a mut Vec<u8>,
    ) -> Result<ToGitOutcome<'a, F>, Fault> {
        Ok(ToGitOutcome::Unchanged(file))
    }
}
