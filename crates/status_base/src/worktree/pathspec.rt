//! The selection of the paths that a status checks: the interface, all paths, and those that begin with a prefix.

ghost use Rattle.std.specs.Prelude.{◌≡◌, Bool, true, List, [], ℕ, refl, IfOk};
ghost use Rattle.bstr.specs.BStr.{bstr_bytes};
ghost use Rattle.status_base.specs.Lawful.{CloneKeeps};

use bstr::BStr;
use std::alloc::{AllocError, Global};
use std::marker::Model;

/// Selects the paths that a status checks, as git's pathspecs do. Its specification is a prefix and a test, and a
/// clone has the same.
pub trait Pathspec: Clone {
    /// The prefix by which entries are searched.
    ghost prefix: { Self → List ℕ };

    /// Whether a path is included. The last argument is whether it is a directory's.
    ghost included: { Self → List ℕ → Bool → Bool };

    /// Returns the prefix by which entries are searched. Only entries whose path begins with it are considered; if no
    /// path does, all are. So an included path that doesn't begin with the prefix is left out if another entry's path
    /// does. An empty prefix excludes nothing.
    fn common_prefix(&self) -> BStr<'_>
        ensures { bstr_bytes result ≡ prefix self.now };

    /// Returns whether a path is included. `is_dir` is whether it is a directory's.
    fn includes(&self, path: BStr<'_>, is_dir: bool) -> bool
        ensures { result ≡ included self.now (bstr_bytes path.entry) is_dir };

    /// A clone has the same prefix.
    ghost clone_keeps_prefix: { CloneKeeps Self.is_clone prefix };

    /// A clone includes the same paths.
    ghost clone_keeps_included: { CloneKeeps Self.is_clone included };
}

/// A pathspec that includes every path.
#[derive(Clone, Copy, Debug, Default, PartialEq, Eq)]
pub struct AllPaths;

impl Pathspec for AllPaths {
    ghost prefix = { λ _. [] };

    ghost included = { λ _ _ _. true };

    ghost clone_keeps_prefix = { λ _ _ _. refl };

    ghost clone_keeps_included = { λ _ _ _. refl };

    fn common_prefix(&self) -> BStr<'_> {
        BStr::new(b"")
    }

    fn includes(&self, _path: BStr<'_>, _is_dir: bool) -> bool {
        true
    }
}

/// A pathspec that includes the paths that begin with these bytes, which may end within a component. In git, that is a
/// plain path prefix followed by `*`.
#[derive(Debug, Drop)]
pub struct Prefix {
    bytes: Vec<u8>,
}

impl Model for Prefix {
    ghost use Rattle.std.specs.Prelude.{List, ℕ};

    ghost Value = { List ℕ };

    ghost view = { λ p. p.bytes.items };
}

impl Prefix {
    /// Returns the pathspec of the paths that begin with `prefix`.
    ///
    /// # Errors
    /// Out of memory.
    pub fn new(alloc: Global, prefix: BStr<'_>) -> Result<Prefix, AllocError>
        ensures { IfOk result (λ p. p ≡ bstr_bytes prefix.entry) }
    {
        let bytes = Vec::from_slice(alloc, prefix.as_bytes())?;
        Ok(Prefix { bytes })
    }
}

impl Clone for Prefix {
    ghost use Rattle.std.specs.Prelude.{◌≡◌};

    ghost is_clone = { λ x y. y ≡ x };

    fn clone(&self) -> Result<Prefix, AllocError> {
        Ok(Prefix {
            bytes: self.bytes.clone()?,
        })
    }
}

impl Pathspec for Prefix {
    ghost use Rattle.std.specs.Prelude.{nat_eq};
    ghost use Rattle.std.proofs.Common.{ap};
    ghost use Rattle.std.specs.List.{starts_with};

    ghost prefix = { λ p. p };

    ghost included = { λ p path _. starts_with nat_eq path p };

    ghost clone_keeps_prefix = { λ _ _ same. same };

    ghost clone_keeps_included = { λ _ _ same. ap (λ p path _. starts_with nat_eq path p) same };

    fn common_prefix(&self) -> BStr<'_> {
        BStr::new(self.bytes.as_slice())
    }

    fn includes(&self, path: BStr<'_>, _is_dir: bool) -> bool {
        path.as_bytes().starts_with(self.bytes.as_slice())
    }
}
