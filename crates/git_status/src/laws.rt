//! Laws that a user relies on. Each function's contract is a law of the definitions, and no function does anything.

ghost use Rattle.std.specs.Prelude.{List, ℕ};
ghost use Rattle.git_status.specs.Kept.{Asks};
ghost use Rattle.git_attributes.specs.declared.clean.CleanFilter.{CleanFilter};
ghost use Rattle.status_call.specs.Query.{Query};
ghost use Rattle.status_call.specs.Visits.{Visit};
ghost use Rattle.status_call.specs.declared.index_as_worktree.inputs.Settings.{Settings as StatusSettings};
ghost use Rattle.status_index.specs.Entries.{IndexEntry};
ghost use Rattle.git_status.specs.Differences.{LinesLaw};
ghost use Rattle.git_status.specs.RefreshLaw.{KeptLaw, LeftOutLaw, OwnLaw, RefreshLaw, RefreshesLaw};
ghost use Rattle.git_status.specs.Runs.{CleanLaw};
ghost use Rattle.git_status.specs.declared.asked.Settings.{Settings as AskedSettings};

use crate::asked::Question;

/// Over a modelled worktree, exit status 0 means that nothing is staged and no node is untracked, as far as was found, and that
/// no entry of the index differs from the worktree, of those that are compared.
pub fn clean_means_no_difference<T: Drop, Q: Question>(asked: &Q)
    ensures { (query : CleanFilter → StatusSettings → Query T Q.Submodule) (settings : AskedSettings) (bytes : List ℕ)
        → CleanLaw (record { query = query; are_files = (Q.asking asked.now).are_files; may_find = (Q.asking asked.now).may_find; may_return = (Q.asking asked.now).may_return; settings = settings }) bytes }
{}

/// Over a modelled worktree and with exit status 0 or 1, the output grew by the lines of exactly what was found to be staged,
/// the entries that differ from the worktree, of those that are compared, and the untracked and ignored nodes that were found,
/// unless the command is quiet.
pub fn lines_are_of_all_differences<T: Drop, Q: Question>(asked: &Q)
    ensures { (query : CleanFilter → StatusSettings → Query T Q.Submodule) (settings : AskedSettings) (bytes : List ℕ)
        → LinesLaw (record { query = query; are_files = (Q.asking asked.now).are_files; may_find = (Q.asking asked.now).may_find; may_return = (Q.asking asked.now).may_return; settings = settings }) bytes }
{}

/// A refresh changes each entry that has a record by that record alone, and no other entry.
pub fn refresh_changes_own_entries<T: Drop, U: Drop>()
    ensures { (asks : Asks) (visits : List (Visit T U)) (es : List IndexEntry) → OwnLaw asks visits es }
{}

/// A refresh hides no difference: an entry that has a record shows the same letters after it. If the record's change is
/// stored, the time of the new index doesn't matter; if it is left out, the new index has to be of no later time.
pub fn refresh_hides_nothing<U: Drop>()
    ensures kept { (q later : Query (Unit {0}) U) (e : IndexEntry) → KeptLaw q later e }
    ensures left_out { (q later : Query (Unit {0}) U) (e : IndexEntry) → LeftOutLaw q later e }
    ensures index { (asks : Asks) (q later : Query (Unit {0}) U) (visits : List (Visit (Unit {0}) U)) (es : List IndexEntry) → RefreshLaw asks q later visits es }
{}

/// A refresh by the command hides no difference from a later status that compares by sizes too: over a modelled worktree,
/// and over any, by what was seen of each entry.
pub fn refreshes_hide_nothing<Q: Question>(asked: &Q)
    ensures { (query : CleanFilter → StatusSettings → Query (Unit {0}) Q.Submodule) (settings : AskedSettings) (bytes : List ℕ)
        → RefreshesLaw (record { query = query; are_files = (Q.asking asked.now).are_files; may_find = (Q.asking asked.now).may_find; may_return = (Q.asking asked.now).may_return; settings = settings }) bytes }
{}
