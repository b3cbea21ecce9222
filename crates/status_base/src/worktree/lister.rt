//! Listings of directories.

ghost use Rattle.std.specs.Prelude.{◌≡◌, Bool, true, IsTrue, List, ℕ, Option, None, IfOk, refl};
ghost use Rattle.bstr.specs.BStr.{bstr_bytes};
ghost use Rattle.status_base.specs.Lawful.{CloneKeeps};
ghost use Rattle.status_base.specs.Listing.{listing_of};
ghost use Rattle.status_base.specs.declared.fscache.Stat.{Stat as ListedStat};

use crate::fscache;
use bstr::{BStr, BString};
use std::alloc::AllocError;

/// The listing of a directory: names with their stats, or None if the directory can't be listed.
pub type Listing = Option<Vec<(BString, fscache::Stat)>>;

/// Lists directories, by their paths from the worktree's root. The root's path is empty. A lister is either modelled,
/// and then its listings are a function of the path, or not, such as one of real directories.
pub trait Lister: Clone {
    ghost use Rattle.std.specs.Prelude.{⊤};

    /// Whether the lister is modelled.
    ghost modelled: { Self → Bool };

    /// The specified listing of each directory: names with their stats, or None if it can't be listed.
    ghost listing: { Self → List ℕ → Option (List (List ℕ × ListedStat)) };

    /// Which listings a directory may have.
    ghost may_list: { Self → List ℕ → Option (List (List ℕ × ListedStat)) → Type 0 } = { λ _ _ _. ⊤ };

    /// Lists a directory.
    ///
    /// # Errors
    /// Out of memory.
    fn list(&self, directory: BStr<'_>) -> Result<Listing, AllocError>
        ensures answer { IsTrue (modelled self.now) → IfOk result (λ l. listing_of l ≡ listing self.now (bstr_bytes directory.entry)) }
        ensures seen { IfOk result (λ l. may_list self.now (bstr_bytes directory.entry) (listing_of l)) };

    /// A clone is modelled exactly if its original is.
    ghost clone_keeps_modelled: { CloneKeeps Self.is_clone modelled };

    /// A clone lists the same.
    ghost clone_keeps_listing: { CloneKeeps Self.is_clone listing };

    /// A clone returns no listing that its original may not return.
    ghost clone_lists_within: { (one other : Self) → Self.is_clone one other → (directory : List ℕ) (listing : Option (List (List ℕ × ListedStat)))
        → may_list other directory listing → may_list one directory listing };
}

/// A lister that can't list any directory.
#[derive(Clone, Copy, Debug, Default, PartialEq, Eq)]
pub struct NoLister;

impl Lister for NoLister {
    ghost modelled = { λ _. true };

    ghost listing = { λ _ _. None };

    ghost may_list = { λ _ _ listing. listing ≡ None };

    ghost clone_keeps_modelled = { λ _ _ _. refl };

    ghost clone_keeps_listing = { λ _ _ _. refl };

    ghost clone_lists_within = { λ _ _ _ _ _ unlisted. unlisted };

    fn list(&self, _directory: BStr<'_>) -> Result<Listing, AllocError> {
        Ok(None)
    }
}
