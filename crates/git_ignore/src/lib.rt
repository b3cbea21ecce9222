//! The rules of git's ignore files, such as `.gitignore`, and which paths they exclude.
//!
//! Begin at `rules`, which reads files and compares paths with their rules. `rule` has the rule of a line, whose pattern is
//! one of the crate `git_patterns`. `laws` has the law of excluded folders.
#![tactic(auto)]

pub mod laws;
mod rule;
pub mod rules;
#[cfg(test)]
mod tests;

pub use rules::IgnoreRules;
