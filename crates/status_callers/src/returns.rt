//! A filter as a caller writes it.

ghost use Rattle.std.specs.Prelude.{◌≡◌, refl};
ghost use Rattle.std.specs.List.{filter};
ghost use Rattle.status_callers.specs.Returns.{is_no_return, without_returns};

use bstr::BStr;
use gix_status::worktree::{Fault, ReadBytes, ToGit, ToGitOutcome, read_all};

/// Removes carriage returns, for text that is stored with line feeds only.
#[derive(Clone, Copy, Debug)]
pub struct WithoutReturns;

// Removes carriage returns.
fn take_returns_out(bytes: &mut Vec<u8>)
    ensures { bytes.new.items ≡ filter is_no_return bytes.old.items }
{
    bytes.retain(|byte| *byte != b'\r');
}

impl ToGit for WithoutReturns {
    ghost conversion = { λ _ content _. without_returns content.bytes content.fault };

    ghost clone_keeps_conversion = { λ _ _ _. refl };

    fn convert<'a, F: ReadBytes>(
        &self,
        file: F,
        _path: BStr<'_>,
        buffer: &'a mut Vec<u8>,
    ) -> Result<ToGitOutcome<'a, F>, Fault> {
        let mut file = file;
        buffer.clear();
        read_all(&mut file, buffer)?;
        take_returns_out(buffer);
        Ok(ToGitOutcome::Buffer(buffer.as_slice()))
    }
}
