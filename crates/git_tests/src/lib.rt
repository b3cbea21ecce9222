//! Tests of git's attribute files and index files, with values from git, and of the call `is_dirty`.
//!
//! `attributes` tests lines and patterns of attribute files, and what git stores of contents; `index_file` reads and
//! writes index files. Each folder's `mod.rt` says where to begin. `checkout` asks whether a repository is dirty.
#![tactic(auto)]

#[cfg(test)]
mod attributes;
#[cfg(test)]
mod checkout;
#[cfg(test)]
mod index_file;
