//! A pathspec of one path.

use bstr::BStr;
use status_base::worktree::Pathspec;

/// Selects the entries of one path.
#[derive(Clone, Copy)]
pub struct OnlyPath<'p> {
    /// The path.
    pub path: &'p [u8],
}

impl Pathspec for OnlyPath<'_> {
    ghost use Rattle.std.proofs.Common.{ap};
    ghost use Rattle.std.specs.Str.{bytes_eq};

    ghost prefix = { λ p. p.path.now };

    ghost included = { λ p path _. bytes_eq path p.path.now };

    ghost clone_keeps_prefix = { λ _ _ same. ap (λ p. p.path.now) same };

    ghost clone_keeps_included = { λ _ _ same. ap (λ p path _. bytes_eq path p.path.now) same };

    fn common_prefix(&self) -> BStr<'_> {
        BStr::new(self.path)
    }

    fn includes(&self, path: BStr<'_>, _is_dir: bool) -> bool {
        path.as_bytes() == self.path
    }
}
