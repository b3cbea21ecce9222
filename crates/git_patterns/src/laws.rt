//! The law of patterns. The contract of its function states it; the function does nothing.

ghost use Rattle.std.specs.Prelude.{◌↔◌, ℕ, List, IsTrue};
ghost use Rattle.git_patterns.specs.Wildmatch.{Matches, Part, is_match};

/// States that the test of parts, by which other definitions speak of patterns, passes exactly the paths that match the
/// parts: those that consist of texts that the parts spell, one after the other.
#[tactic(auto, using(crate::proofs::Matching::is_match_Matches))]
pub fn patterns_match_as_they_spell()
    ensures { (parts : List Part) (path : List ℕ) → IsTrue (is_match parts path) ↔ Matches parts path }
{}
