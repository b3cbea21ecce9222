//! Laws of the definitions of a link check. Each function's contract states a law; the functions do nothing.

ghost use Rattle.std.specs.Prelude.{ℕ, Bool, List, Result};
ghost use Rattle.status_index.specs.declared.fault.Fault.{Fault};
ghost use Rattle.status_index.specs.declared.stat.Metadata.{Metadata};
ghost use Rattle.status_base.specs.CheckState.{CheckState};
ghost use Rattle.status_base.specs.Looks.{LooksLaw, ListedOnceLaw};

/// States that few calls of `lstat` are needed. If a new check accepts paths in ascending order of their bytes, it
/// calls `lstat` at most once for each directory above them.
pub fn looks_are_few()
    ensures { (modelled : Bool) (lstat : List ℕ → Result Metadata Fault) (old new : CheckState) (qs : List (List ℕ)) → LooksLaw modelled lstat old qs new }
{}

/// States that the directories above some paths are listed once each: all of them, and nothing else.
pub fn directories_are_listed_once()
    ensures { (qs : List (List ℕ)) → ListedOnceLaw qs }
{}
