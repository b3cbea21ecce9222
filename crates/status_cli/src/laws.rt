//! The law of a command. The function does nothing: its contract states the law.

ghost use Rattle.std.specs.Prelude.{List, ℕ};
ghost use Rattle.status_cli.specs.Exactness.{ReplayedLaw};

/// States that **no change is missed** by a [`run_replay`](crate::run_replay) that returns 0, from the text of the profile to
/// the bytes of the output. If contents with equal ids are equal, the lines of changes of each run name exactly the
/// staged paths that differ at that time. Other lines have the words `update`, `intent` or `conflict`.
pub fn printed_replays_miss_no_change()
    ensures { (text : List ℕ) → ReplayedLaw text }
{}
