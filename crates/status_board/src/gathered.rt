//! The results of a round's workers, together.

ghost use Rattle.std.specs.Prelude.{◌≡◌, IfOk, IfErr, Err};
ghost use Rattle.status_board.specs.Accounts.{IsBoth, IsNothing};

use crate::board::Seat;
use crate::round::Refused;
use crate::work::{Finished, Worked};
use std::alloc::{AllocError, Global};

/// The results and seats of all workers.
#[derive(Drop)]
pub(crate) struct Gathered<O> {
    pub(crate) finished: Vec<Finished<O>>,
    pub(crate) seats: Vec<Seat>,
}

/// The result of a worker's thread: its pieces, or that memory ran out.
pub(crate) type Answer<O> = Result<Worked<O>, AllocError>;

/// Returns the results of no workers.
pub(crate) fn nothing<O>(alloc: Global) -> Result<Gathered<O>, AllocError>
    ensures { IfOk result IsNothing }
{
    Ok(Gathered {
        finished: Vec::new(alloc),
        seats: Vec::new(alloc),
    })
}

/// Adds the results of one worker.
pub(crate) fn gather<O: Drop>(
    gathered: Result<Gathered<O>, AllocError>,
    worked: Answer<O>,
) -> Result<Gathered<O>, AllocError>
    ensures { IsBoth gathered worked result }
{
    let mut gathered = gathered?;
    let Worked { mut finished, seat } = worked?;
    gathered.finished.append(&mut finished)?;
    gathered.seats.push(seat)?;
    Ok(gathered)
}

/// Returns the result, with the error of a round in place of the allocator's.
pub(crate) fn or_refused<T>(answer: Result<T, AllocError>) -> Result<T, Refused>
    ensures ok { IfOk answer (λ x. result ≡ Ok x) }
    ensures err { IfErr answer (λ _. result ≡ Err Refused.Memory) }
{
    match answer {
        Ok(x) => Ok(x),
        Err(_) => Err(Refused::Memory),
    }
}
