//! The selection of the paths that are walked.

use bstr::BStr;

/// Selects the nodes that may have lines, as git's pathspecs do.
pub trait Selection {
    ghost use Rattle.std.specs.Prelude.{◌≡◌, Bool, List, ℕ};
    ghost use Rattle.bstr.specs.BStr.{bstr_bytes};

    /// Whether a path is selected. The last argument is whether it is a folder's.
    ghost selects: { Self → List ℕ → Bool → Bool };

    /// Whether a node at a path, or one below it, may be selected. If not, no line is searched for there.
    ghost reaches: { Self → List ℕ → Bool };

    /// Whether a path below a folder is selected by itself, and not since the folder is. As in git, none is if exactly the folder's
    /// path, with a slash, is selected too.
    ghost leads: { Self → List ℕ → Bool };

    /// Returns whether a path is selected.
    fn selects(&self, path: BStr<'_>, is_folder: bool) -> bool
        ensures { result ≡ selects self.now (bstr_bytes path.entry) is_folder };

    /// Returns whether a node at a path, or one below it, may be selected.
    fn reaches(&self, path: BStr<'_>) -> bool
        ensures { result ≡ reaches self.now (bstr_bytes path.entry) };

    /// Returns whether a path below a folder is selected by itself, and not since the folder is.
    fn leads(&self, folder: BStr<'_>) -> bool
        ensures { result ≡ leads self.now (bstr_bytes folder.entry) };
}
