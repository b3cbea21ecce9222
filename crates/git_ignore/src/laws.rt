//! The law of excluded folders. The contract of its function states it; the function does nothing.

ghost use Rattle.std.specs.Prelude.{◌++◌, ◌∷◌, true, ℕ, All, Bool, IsTrue, List};
ghost use Rattle.git_ignore.specs.Excluded.{IsWithin, is_excluded};
ghost use Rattle.git_ignore.specs.Rules.{Rule};

/// States that all is excluded that is below an excluded folder, whatever its own ignore files and those of the folders below
/// it say: rules of these that come later include nothing again. So nobody has to read them.
#[tactic(auto, using(crate::proofs::Below::below_excluded))]
pub fn excluded_folders_exclude_all_below()
    ensures { (rules later : List Rule) (folder path : List ℕ) (is_folder : Bool) → IsTrue (is_excluded rules folder true) → All (IsWithin folder) later → IsTrue (is_excluded (rules ++ later) (folder ++ 47 ∷ path) is_folder) }
{}
