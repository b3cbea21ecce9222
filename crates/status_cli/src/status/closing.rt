//! The line of totals, with which a status's lines end.

ghost use Rattle.std.specs.Prelude.{◌<◌, ◌^◌, IfOk};
ghost use Rattle.status_call.specs.Counts.{skipped_of};
ghost use Rattle.status_cli.specs.Statuses.{IsPrintEnd, closing};

use crate::failure::Failure;
use crate::lines::push_totals;
use crate::output::print;
use gix_status::index_as_worktree::Outcome;
use std::alloc::Global;
use std::io;

/// Prints the totals of a status, if the profile has the option `counts`.
///
/// # Errors
/// The status's failure, that of the output, or out of memory.
pub fn print_closing<O: io::Write>(
    alloc: Global,
    answer: Result<Outcome, Failure>,
    counts: bool,
    output: &mut O,
) -> Result<(), Failure>
    requires { IfOk answer (λ o. skipped_of o < 2 ^ 64) }
    ensures { IsPrintEnd (closing counts answer) answer (O.contents output.old) result (O.contents output.new) }
{
    let outcome = answer?;
    let mut text = Vec::new(alloc);
    if counts {
        push_totals(&mut text, &outcome)?;
    }
    print(&text, output)
}
