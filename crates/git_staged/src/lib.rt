//! Staged changes: how an index differs from a commit, and the id of the tree that it makes, as `git write-tree` prints it.
//!
//! Read `staged` first, which finds the paths that differ. `files` makes an index of a commit's tree, but by `known` a
//! folder isn't read if the other index makes its tree. `letters` compares the two: it has the letters of git's first
//! column. `write_tree` goes over the entries of an index, `builder` puts each into the tree, and `item` makes the tree's
//! bytes and its id. `expand` replaces the folders of a sparse index by their files. `error` is why an index makes no tree,
//! or a tree isn't read.
#![tactic(auto)]

mod builder;
pub mod error;
pub mod expand;
#[cfg(test)]
mod expand_tests;
pub mod files;
#[cfg(test)]
mod head_tests;
mod item;
mod known;
pub mod letters;
#[cfg(test)]
mod read_tests;
pub mod staged;
#[cfg(test)]
mod tests;
mod write_tree;

pub use error::{TreeError, TreeFault};
pub use expand::{expanded, has_folders};
pub use files::read_tree;
pub use letters::{Change, Letter, changed_entries, deleted_files};
pub use staged::{FindStaged, Head, Staged};
pub use write_tree::tree_id;
