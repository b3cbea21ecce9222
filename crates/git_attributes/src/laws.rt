//! The law of a worktree's attribute files. The contract of its function states it; the function does nothing.

ghost use Rattle.std.specs.Prelude.{ℕ, List, Result};
ghost use Rattle.status_index.specs.Content.{Content};
ghost use Rattle.status_index.specs.declared.fault.Fault.{Fault};
ghost use Rattle.status_base.specs.Sights.{Stats};
ghost use Rattle.git_attributes.specs.Files.{File};
ghost use Rattle.git_attributes.specs.WorktreeFiles.{KnownFilesLaw};

/// States that of a worktree whose results are known, such as one in memory, the attribute files are determined: in each folder
/// that is searched, the file that is found by these results. A worktree's results are known up to out of memory, at which a
/// search fails.
pub fn known_results_determine_the_files()
    ensures { (lstat : Stats) (opened : List ℕ → Result Content Fault) (folders : List (List ℕ)) (files : List File) → KnownFilesLaw lstat opened folders files }
{}
