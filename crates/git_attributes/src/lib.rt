//! Git's attributes: those that attribute files assign to a path, and the bytes that git stores by them.
//!
//! Begin at `clean`, the filter, which makes a file's `conversion`: to a pointer of git-lfs (`lfs`, which knows a `pointer`), of its line ends
//! (`normalization`), and of `$Id$` (`ident`). It compares this with git's rule for line ends.
//! `attributes` has the states that `files` give to a path's attributes: it reads their lines (`line`), which have a
//! pattern or a macro, and assignments (`assignment`), between blanks or in quotes (`words`). The patterns are those of the
//! crate `git_patterns`. `worktree_files` finds the attribute files within a worktree, and `laws` has the law of these files.
//! `staged_files` reads those that are only in the index, and `fault` is why one isn't read. `ident` is what git stores of a
//! file with that attribute.
#![tactic(auto)]

pub mod assignment;
pub mod attributes;
pub mod clean;
pub mod conversion;
pub mod fault;
pub mod files;
mod ident;
pub mod laws;
mod lfs;
mod line;
pub mod normalization;
mod pointer;
mod shared_search;
pub mod staged_files;
mod words;
pub mod worktree_files;

pub use assignment::{Assignment, Value};
pub use attributes::{Attributes, Source};
pub use clean::{CleanFilter, ids_decide_as_git_does};
pub use conversion::{Configured, Steps, is_unconverted, steps_of};
pub use fault::AttributeFault;
pub use files::{AttributeFile, AttributeFiles, attributes_of};
pub use ident::push_without_ids;
pub use lfs::read_for_lfs;
pub use normalization::{Normalization, is_binary, normalization_of, push_normalized};
pub use pointer::is_pointer;
pub use shared_search::find_attribute_files;
pub use staged_files::WithStaged;
pub use worktree_files::{ATTRIBUTES_LIMIT, FolderSearch};
