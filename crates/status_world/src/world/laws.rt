//! Laws of histories. The functions do nothing: their contracts state the laws.

ghost use Rattle.std.specs.Prelude.{◌≡◌, Bool, None};
ghost use Rattle.status_index.specs.declared.id.HashKind.{HashKind};
ghost use Rattle.status_index.specs.declared.stat.Moment.{Moment};
ghost use Rattle.status_index.specs.declared.stat.Options.{Options};
ghost use Rattle.status_call.specs.Records.{first_fault};
ghost use Rattle.status_world.specs.Sound.{IsFormed};
ghost use Rattle.status_world.specs.StampedWorld.{StampedWorld, query_of};
ghost use Rattle.status_compare.specs.declared.compare.Comparer.{Comparer};
ghost use Rattle.status_world.specs.Laws.{ReplayLaw};
ghost use Rattle.status_world.specs.Refusals.{start_refusal};

/// States that **no change is missed** by the runs of a [`replay`](crate::world::replay) from a new world.
///
/// A world that [`World::new`](crate::world::World::new) returns has no files and an empty index. `replay` applies
/// events to it, up to the first that is refused. If contents with equal ids are equal, each run reports a change of
/// exactly the staged paths that differ at that time. A staged path differs if nothing is there, or in kind, in bytes
/// or, if it counts, in executability. This holds for each kind of ids, all options, and every clock and timestamp that
/// `World::new` accepts.
pub fn no_change_is_missed()
    ensures { (kind : HashKind) (options : Options) (executable_bit : Bool) (clock timestamp : Moment)
        → start_refusal clock timestamp ≡ None → ReplayLaw kind options executable_bit clock timestamp }
{}

/// States that the status of a run has no fault in a formed world, such as a new world that events changed. So a
/// status fails there only for memory or a thread.
pub fn a_run_has_no_fault()
    ensures { (w : StampedWorld) (comparer : Comparer) → IsFormed w → first_fault (query_of w comparer) w.entries ≡ None }
{}
