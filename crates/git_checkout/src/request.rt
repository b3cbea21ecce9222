//! The request of a call: its options.

use std::alloc::Global;

/// The columns of lines, which are compared.
#[derive(Clone, Copy, Debug, PartialEq, Eq)]
pub enum Columns {
    /// The index with HEAD, and the worktree with the index.
    Both,
    /// The index with HEAD alone. No file of the worktree is asked for.
    Staged,
    /// The worktree with the index alone. Objects are read only for attribute files and a `.gitmodules` that it doesn't have.
    Worktree,
}

/// The untracked files that are listed, as git's option `--untracked-files` has it.
#[derive(Clone, Copy, Debug, PartialEq, Eq)]
pub enum UntrackedFiles {
    /// None.
    No,
    /// Files, and folders without a tracked file in place of the files in them.
    Normal,
    /// Each file.
    All,
}

/// The options of a call, as those of the command line of `git dirty`.
#[derive(Drop)]
pub struct Request<'a> {
    /// A folder of the worktree. Relative PATHS begin there.
    pub folder: &'a str,
    /// The columns.
    pub columns: Columns,
    /// The untracked files. If the first column alone is asked for, there are none.
    pub untracked: UntrackedFiles,
    /// Whether ignored files are listed too, if untracked ones are.
    pub ignored: bool,
    /// Whether lines end with a zero byte, and paths aren't quoted.
    pub zero: bool,
    /// Whether nothing is printed, and files are compared only up to the first difference, unless the index is refreshed.
    pub quiet: bool,
    /// Whether the new stats of unchanged files are stored in the index.
    pub refresh: bool,
    /// Whether the counts are printed.
    pub stats: bool,
    /// Whether explanations of the second column are printed in place of lines: the calls that were made for a path, their results, and why the path
    /// has its status. If there are PATHS, each path that they select is explained, and otherwise those that differ.
    pub explain: bool,
    /// Whether explanations are objects of JSON.
    pub json: bool,
    /// Whether the process may make the worktree's top its working folder. This is faster, since the system then has fewer
    /// steps to each file. It changes the meaning of all relative paths, also for other threads, and stays so.
    pub enter: bool,
    /// The greatest number of threads, or `None` for the usual number.
    pub threads: Option<usize>,
    /// The words of git's pathspec, such as `src` and `*.c`: what they select is compared. All if there is none.
    pub paths: Vec<&'a str>,
}

impl<'a> Request<'a> {
    /// Returns the request for all files of the worktree that has this folder, with the usual lines.
    pub fn new(alloc: Global, folder: &'a str) -> Request<'a> {
        Request {
            folder,
            columns: Columns::Both,
            untracked: UntrackedFiles::No,
            ignored: false,
            zero: false,
            quiet: false,
            refresh: false,
            stats: false,
            explain: false,
            json: false,
            enter: false,
            threads: None,
            paths: Vec::new(alloc),
        }
    }
}
