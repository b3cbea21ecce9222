//! The lines of what a status reports: its records, or its entries with untracked files and renames.

ghost use Rattle.std.specs.Prelude.{◌≡◌, ◌++◌, ℕ, List, IfOk, OnOk};
ghost use Rattle.std.specs.List.{flat_map};
ghost use Rattle.status_call.specs.RecorderVisits.{visit_of};
ghost use Rattle.status_joined.specs.Entries.{reported_entry};
ghost use Rattle.status_cli.specs.Lines.{entry_line, visit_line};
ghost use Rattle.status_cli.specs.Printing.{IsPrinted};

use crate::failure::Failure;
use crate::lines::{push_entry, push_record};
use crate::output::print;
use gix_status::index_as_worktree::Record;
use gix_status::index_as_worktree_with_renames::Entry;
use std::alloc::{AllocError, Global};
use std::io;

/// A record or an entry of a status, which has a line.
pub(crate) trait Line {
    /// Its line.
    ghost line: { Self → List ℕ };

    /// Appends its line.
    ///
    /// # Errors
    /// Out of memory.
    fn push(&self, text: &mut Vec<u8>, alloc: Global) -> Result<(), AllocError>
        ensures { OnOk result (text.new.items ≡ text.old.items ++ line self.now) };
}

impl<T: Drop, U: Drop> Line for Record<'_, T, U> {
    ghost line = { λ r. visit_line (visit_of r) };

    fn push(&self, text: &mut Vec<u8>, alloc: Global) -> Result<(), AllocError> {
        let (at, path) = (self.entry_index, self.relative_path);
        push_record(text, alloc, at, path, &self.status)
    }
}

impl<T: Drop, U: Drop> Line for Entry<'_, T, U> {
    ghost line = { λ e. entry_line (reported_entry e) };

    fn push(&self, text: &mut Vec<u8>, alloc: Global) -> Result<(), AllocError> {
        push_entry(text, alloc, self)
    }
}

/// Prints the line of each of these.
pub(crate) fn print_lines<L: Line, O: io::Write>(
    alloc: Global,
    items: &[L],
    output: &mut O,
) -> Result<(), Failure>
    ensures { IsPrinted (flat_map L.line items.now) (O.contents output.old) result (O.contents output.new) }
{
    let text = lines_of(alloc, items)?;
    print(&text, output)
}

/// Returns the line of each of these.
fn lines_of<L: Line>(alloc: Global, items: &[L]) -> Result<Vec<u8>, AllocError>
    ensures { IfOk result (λ text. text.items ≡ flat_map L.line items.now) }
{
    let mut text = Vec::new(alloc);
    for item in items {
        item.push(&mut text, alloc)?;
    }
    Ok(text)
}
