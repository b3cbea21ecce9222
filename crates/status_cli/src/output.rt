//! Reading the file of a profile, and writing to the output. On an error a beginning of what was to be written is written.

ghost use Rattle.std.specs.Prelude.{IfOk, ◌≡◌, ◌⊎◌, IfErr, IfSome};
ghost use Rattle.status_cli.specs.Printing.{IsAllWritten, spelled};

use crate::failure::Failure;
use std::alloc::Global;
use std::io;
use text_output::print_all;

/// Writes these parts, one after the other.
pub fn print_parts<O: io::Write>(parts: &[&str], output: &mut O) -> Result<(), Failure>
    ensures { IsAllWritten (spelled parts.now) (O.contents output.old) result (O.contents output.new) }
{
    for part in parts {
        print(part.as_bytes(), output)?;
    }
    Ok(())
}

/// Writes all bytes of a text.
pub fn print<O: io::Write>(text: &[u8], output: &mut O) -> Result<(), Failure>
    ensures { IsAllWritten text.now (O.contents output.old) result (O.contents output.new) }
{
    Ok(print_all(text, output)?)
}

/// Reads all bytes of a profile's file.
pub fn read_all<I: io::Read>(alloc: Global, profile: &mut I) -> Result<Vec<u8>, Failure>
    ensures ok { IfOk result (λ text. IfSome (I.remaining profile.old) (λ all. text.items ≡ all)) }
    ensures err { IfErr result (λ f. (f ≡ Failure.Unreadable) ⊎ (f ≡ Failure.Memory)) }
{
    let mut text = Vec::new(alloc);
    profile.read_to_end(&mut text).map_err(Failure::of_reading)?;
    Ok(text)
}
