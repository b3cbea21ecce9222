//! The orders of the public types. The function does nothing: its contract states the orders.

ghost use Rattle.std.specs.Prelude.{◌≡◌};
ghost use Rattle.status_index.specs.Orders.{moment_cmp, time_cmp, stat_cmp, id_cmp, flags_cmp, mode_cmp};

use crate::entry::Flags;
use crate::id::ObjectId;
use crate::mode::Mode;
use crate::stat::{Moment, Stat, Time};

/// States the order of each type:
///
/// - moments and times: by seconds, and then by nanoseconds
/// - stats: by the first field that differs
/// - ids: by kind, and then by bytes
/// - flags: by their bits, as a number
/// - modes: by git's bits
pub fn order_laws()
    ensures moments { (a b : Moment) → ⟦<Moment as Ord>⟧.cmp a b ≡ moment_cmp a b }
    ensures times { (a b : Time) → ⟦<Time as Ord>⟧.cmp a b ≡ time_cmp a b }
    ensures stats { (a b : Stat) → ⟦<Stat as Ord>⟧.cmp a b ≡ stat_cmp a b }
    ensures ids { (a b : ObjectId) → ⟦<ObjectId as Ord>⟧.cmp a b ≡ id_cmp a b }
    ensures flags { (a b : Flags) → ⟦<Flags as Ord>⟧.cmp a b ≡ flags_cmp a b }
    ensures modes { (a b : Mode) → ⟦<Mode as Ord>⟧.cmp a b ≡ mode_cmp a b }
{}
