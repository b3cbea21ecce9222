//! The paths that a pathspec selects, of entries and of nodes that an index doesn't have.

ghost use Rattle.std.specs.Prelude.{◌≡◌};
ghost use Rattle.bstr.specs.BStr.{bstr_bytes};
ghost use Rattle.status_index.specs.States.{index_of};
ghost use Rattle.git_status.specs.Paths.{is_left_out};

use bstr::BStr;
use git_pathspecs::{Element, Name, common_prefix, leads, reaches, selects};
use git_untracked::Selection;
use status_base::worktree::Pathspec;
use status_index::State;

/// The selection of entries, and of a commit's files: those that git's pathspec of these elements selects. No element selects
/// every path.
#[derive(Clone, Copy)]
pub struct Paths<'a> {
    /// The elements of the pathspec.
    pub elements: &'a [Element<'a>],
    /// Entries whose paths aren't selected all the same.
    pub left_out: &'a State,
}

impl Pathspec for Paths<'_> {
    ghost use Rattle.std.proofs.Common.{ap};
    ghost use Rattle.git_pathspecs.specs.Lists.{common_prefix};
    ghost use Rattle.git_status.specs.Paths.{is_included};

    ghost prefix = { λ p. common_prefix p.elements.now };

    ghost included = { λ p path is_dir. is_included p path is_dir };

    ghost clone_keeps_prefix = { λ _ _ same. ap (λ p. common_prefix p.elements.now) same };

    ghost clone_keeps_included = { λ _ _ same. ap (λ p path is_dir. is_included p path is_dir) same };

    fn common_prefix(&self) -> BStr<'_> {
        BStr::new(common_prefix(self.elements))
    }

    fn includes(&self, path: BStr<'_>, is_dir: bool) -> bool {
        let is_selected = selects(self.elements, is_dir, Name::of(path.as_bytes()));
        is_selected && !is_left_out(self.left_out, path)
    }
}

/// The selection of nodes that an index doesn't have: those that git's pathspec of these elements selects.
#[derive(Clone, Copy)]
pub struct Nodes<'a> {
    /// The elements of the pathspec.
    pub elements: &'a [Element<'a>],
}

impl Selection for Nodes<'_> {
    ghost use Rattle.std.specs.Prelude.{◌∷◌, ◌++◌, []};
    ghost use Rattle.git_patterns.specs.Rows.{named};
    ghost use Rattle.git_pathspecs.specs.Lists.{leads, reaches, selects};

    ghost selects = { λ p path is_folder. selects p.elements.now is_folder (named path is_folder) };

    ghost reaches = { λ p path. reaches p.elements.now path };

    ghost leads = { λ p path. leads p.elements.now (path ++ 47 ∷ []) };

    fn selects(&self, path: BStr<'_>, is_folder: bool) -> bool {
        let name = Name {
            path: path.as_bytes(),
            has_slash: is_folder,
        };
        selects(self.elements, is_folder, name)
    }

    fn reaches(&self, path: BStr<'_>) -> bool {
        reaches(self.elements, Name::of(path.as_bytes()))
    }

    fn leads(&self, folder: BStr<'_>) -> bool {
        leads(self.elements, Name::of_folder(folder.as_bytes()))
    }
}

/// Whether an entry that is left out has a path.
fn is_left_out(left_out: &State, path: BStr<'_>) -> bool
    ensures { result ≡ is_left_out (index_of left_out.now) (bstr_bytes path.entry) }
{
    !left_out.entries_at(path).is_empty()
}
