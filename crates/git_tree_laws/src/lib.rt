//! Laws of git's trees: the tree that `git write-tree` makes of files is read as these files.
#![tactic(auto)]

pub mod laws;

pub use laws::{made_folders_are_read, made_folders_can_be_read, written_tree_is_read};
