//! The status call: how a worktree differs from an index, entry by entry.
//!
//! Read `types` in `index_as_worktree` first: what the call takes and returns. Then read `function`, the call, which
//! puts its arguments into one value (`inputs`). The parts for one entry are `step`, `decider`, `lookup`, `content` and
//! `conflict`. `status_by` has entries processed by workers (`workers`, `run_rounds`, `round`), or, for a call without
//! threads, by `run_serially`. Both use `considered`, `piece`, `counts` and `recorder`. `apply` stores in an index the
//! changes that a status asks for. `laws` has theorems about the definitions. Callers use the names of the crate
//! `gix_status`.
#![tactic(auto)]

pub mod index_as_worktree;
