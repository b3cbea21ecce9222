//! A text that is written to an output, whole or as far as the output takes it.
#![tactic(auto)]

ghost use Rattle.text_output.specs.Written.{IsWritten};

use std::io;
use thiserror::Error;

/// Why an output takes no more bytes.
#[derive(Clone, Copy, Debug, PartialEq, Eq, Error)]
pub enum OutputError {
    /// Its reader has ended.
    #[error("the reader of the output has ended")]
    Closed,
    /// The system refuses them.
    #[error("the output can't be written")]
    Unwritable,
}

/// Writes all bytes of a text and flushes the output. Only a write that a signal interrupts is tried again.
///
/// # Errors
/// The output doesn't take them all. Then a beginning of them is written.
pub fn print_all<O: io::Write>(text: &[u8], output: &mut O) -> Result<(), OutputError>
    ensures { IsWritten text.now (O.contents output.old) result (O.contents output.new) }
{
    write_all(text, output)?;
    match output.flush() {
        Ok(()) => Ok(()),
        Err(error) => Err(error_of(error.kind())),
    }
}

/// Writes all bytes of a text, without a flush.
fn write_all<O: io::Write>(text: &[u8], output: &mut O) -> Result<(), OutputError>
    ensures { IsWritten text.now (O.contents output.old) result (O.contents output.new) }
{
    let mut written = 0;
    // The turns are counted, so that this is known to end.
    'writes: for _ in 0..u64::MAX {
        if written >= text.len() {
            return Ok(());
        }
        match output.write(&text[written..]) {
            Ok(0) => return Err(OutputError::Unwritable),
            Ok(count) => written += count,
            Err(error) if error.kind() == io::ErrorKind::Interrupted => {}
            Err(error) => return Err(error_of(error.kind())),
        }
    }
    Err(OutputError::Unwritable)
}

/// Returns the error of a write that failed in this way.
fn error_of(kind: io::ErrorKind) -> OutputError {
    match kind {
        io::ErrorKind::BrokenPipe => OutputError::Closed,
        _ => OutputError::Unwritable,
    }
}
