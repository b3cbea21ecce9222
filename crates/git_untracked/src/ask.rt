//! The steps of a walk that need no other folder.

ghost use Rattle.git_untracked.specs.Questions.{Question};

use crate::folders::FolderFault;
use crate::lines::Lines;
use git_ignore::IgnoreRules;
use status_base::worktree::NodeKind;
use std::alloc::Global;

/// How a folder is entered.
#[derive(Clone, Copy, Debug, PartialEq, Eq)]
pub enum Way {
    /// Not at all: it has no line.
    Nothing,
    /// Not at all: the folder is a line.
    Line,
    /// The lines of what is in it are its lines.
    Each,
    /// Its line replaces those of what is in it.
    Whole,
}

/// Takes the questions of a walk. A folder's path ends in a slash, except that of the worktree's top, which is empty.
pub trait Ask {
    ghost use Rattle.std.specs.Prelude.{◌≡◌, ◌&&◌, ◌||◌, ◌++◌, ◌∷◌, ◌<◌, [], not, true, IfOk, OnOk, List, ℕ, Option, length, option_map};
    ghost use Rattle.git_ignore.specs.Views.{rules_view};
    ghost use Rattle.status_walk.specs.Untracked.{is_tracked};
    ghost use Rattle.git_untracked.specs.Lines.{and_lines, lines_view, paths_of};
    ghost use Rattle.git_untracked.specs.Questions.{file_rules, has_below, is_passed_over};
    ghost use Rattle.git_untracked.specs.Requests.{IsWay, Thins};
    ghost use Rattle.git_untracked.specs.Walks.{file_lines};

    /// The question of the walk.
    ghost question: { Self → Question };

    /// Returns the allocator.
    fn alloc(&self) -> Global;

    /// Returns the names in a folder. None if there is no folder.
    ///
    /// # Errors
    /// It can't be listed, or out of memory.
    fn names_in(&self, folder: &[u8]) -> Result<Option<Vec<Vec<u8>>>, FolderFault>
        ensures { IfOk result (λ names. (question self.now).may_list folder.now (option_map (λ v. paths_of v.items) names)) };

    /// Adds the rules of a folder's ignore file, if it has one, to those of the folders above.
    ///
    /// # Errors
    /// The file can't be read, or out of memory.
    fn add_rules(
        &self,
        folder: &[u8],
        names: &[Vec<u8>],
        rules: &mut IgnoreRules,
    ) -> Result<(), FolderFault>
        ensures { OnOk result ((file : Option (List ℕ)) × (question self.now).may_ignore folder.now file × (rules_view rules.new ≡ rules_view rules.old ++ file_rules folder.now file)) };

    /// Returns the names in a folder without some that are passed over, so that fewer nodes are asked for.
    ///
    /// # Errors
    /// Out of memory.
    fn without_settled(
        &self,
        folder: &[u8],
        names: Vec<Vec<u8>>,
    ) -> Result<Vec<Vec<u8>>, FolderFault>
        ensures { IfOk result (λ thin. Thins (is_passed_over (question self.now)) folder.now (paths_of names.items) (paths_of thin.items)) };

    /// Returns whether no line is at a path or below it.
    fn passes_over(&self, path: &[u8]) -> bool
        ensures { result ≡ is_passed_over (question self.now) path.now };

    /// Returns the type of the node at a path. None if nothing is there.
    ///
    /// # Errors
    /// The system refuses to say, or out of memory.
    fn kind_at(&self, path: &[u8]) -> Result<Option<NodeKind>, FolderFault>
        ensures { IfOk result (λ kind. (question self.now).may_be path.now kind) };

    /// Adds the line of a file or link, if it has one.
    ///
    /// # Errors
    /// Out of memory.
    fn add_file(&self, is_ignored: bool, path: &[u8], lines: &mut Lines) -> Result<(), FolderFault>
        ensures { OnOk result (lines_view lines.new ≡ and_lines (lines_view lines.old) (file_lines (question self.now) is_ignored path.now)) };

    /// Returns whether an entry has this path.
    fn has_entry(&self, path: &[u8]) -> bool
        ensures { result ≡ is_tracked (question self.now).index path.now };

    /// Returns whether a folder's path is selected.
    fn selects_folder(&self, path: &[u8]) -> bool
        ensures { result ≡ (question self.now).selects path.now true };

    /// Returns whether an entry is below this path.
    ///
    /// # Errors
    /// Out of memory.
    fn has_entry_below(&self, path: &[u8]) -> Result<bool, FolderFault>
        ensures { IfOk result (λ it. it ≡ has_below (question self.now).index (path.now ++ 47 ∷ [])) };

    /// Returns whether a path below this one is selected by itself.
    fn leads(&self, path: &[u8]) -> bool
        ensures { result ≡ (question self.now).leads path.now };

    /// Returns whether ignored nodes have lines.
    fn wants_ignored(&self) -> bool
        ensures { result ≡ (question self.now).ignored };

    /// Returns how a folder is entered, which is ignored or not. `leads` is whether a path below it is selected by itself.
    ///
    /// # Errors
    /// The system refuses to say whether it is another repository's, or out of memory.
    fn way_into(&self, folder: &[u8], is_excluded: bool, leads: bool) -> Result<Way, FolderFault>
        requires { 0 < length folder.now }
        ensures { IfOk result (IsWay (question self.now) folder.now is_excluded leads) };
}
