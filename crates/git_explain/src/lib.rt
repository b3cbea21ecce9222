//! Why a tracked file differs from the index, or doesn't: the calls that were made for it, their results, and the rule that
//! decided.
//!
//! Read `sight` first, the calls for one path with their results. `asking` makes them, and `recorded` is a worktree of their
//! results alone. `explainer` has the status by it, and `explained` keeps that. `reason`, `comparison` and `words` have the rule
//! in words, `text` and `json` the two forms of an explanation, `paths` goes over the paths, and `run` has the command.
#![tactic(auto)]

mod asking;
mod comparison;
mod explained;
mod explainer;
mod json;
mod paths;
mod reason;
mod recorded;
mod run;
pub mod sight;
mod text;
mod words;

pub use explained::Explained;
pub use explainer::Explainer;
pub use paths::Wanted;
pub use run::run_explain;
