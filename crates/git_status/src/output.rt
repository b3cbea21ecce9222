//! The line of a failure.

ghost use Rattle.std.specs.Prelude.{◌≡◌, IfOk, List, ℕ};
ghost use Rattle.git_status.specs.Printing.{IsFaultLine, fault_line};

use std::alloc::{AllocError, Global};
use std::{fmt, io};
use text_output::print_all;

/// Writes a line that says what failed, and returns the exit status of a failure, 2.
pub fn print_failure<D: fmt::Display + Drop, E: io::Write>(
    alloc: Global,
    words: D,
    faults: &mut E,
) -> u8
    ensures status { result ≡ 2 }
    ensures line { IsFaultLine (E.contents faults.old) (E.contents faults.new) }
{
    // If the line can't be written, there is nowhere left to report that.
    let _ = match line_of(alloc, words) {
        Ok(line) => print_all(&line, faults),
        Err(_) => print_all(b"git dirty: out of memory\n", faults),
    };
    2
}

/// Returns the line of these words.
fn line_of<D: fmt::Display + Drop>(alloc: Global, words: D) -> Result<Vec<u8>, AllocError>
    ensures { IfOk result (λ line. (words : List ℕ) × (line.items ≡ fault_line words)) }
{
    let words = format!(in alloc; "{words}").map_err(|_| AllocError)?;
    let mut line = Vec::from_slice(alloc, b"git dirty: ")?;
    line.extend_from_slice(words.as_bytes())?;
    line.push(b'\n')?;
    Ok(line)
}
