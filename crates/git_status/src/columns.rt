//! Both columns of a line: what is staged at a path, and what the worktree has there.

ghost use Rattle.std.specs.Prelude.{◌≡◌, ◌++◌, ◌∷◌, [], List, IfOk, OnOk, map};
ghost use Rattle.bstr.specs.BStr.{bstr_bytes};
ghost use Rattle.git_staged.specs.Staged.{staged_view};
ghost use Rattle.git_status.specs.Lines.{Row, both_columns, row_line, row_lines, staged_letter, staged_row, with_staged};

use crate::lines::{LineStyle, end_line};
use bstr::BStr;
use git_staged::{Letter, Staged};
use std::alloc::AllocError;
use std::cmp::Ordering;

/// Returns the letter of the first column.
fn staged_letter(letter: Letter) -> u8
    ensures { result ≡ staged_letter letter }
{
    match letter {
        Letter::Added => b'A',
        Letter::Modified => b'M',
        Letter::TypeChanged => b'T',
        Letter::Deleted => b'D',
    }
}

/// Appends the line of a path that is staged, and that the worktree has as the index has it.
fn push_staged(lines: &mut Vec<u8>, style: LineStyle, staged: &Staged) -> Result<(), AllocError>
    ensures { OnOk result (lines.new.items ≡ lines.old.items ++ row_line style (staged_row (staged_view staged.now))) }
{
    lines.push(staged_letter(staged.letter))?;
    lines.extend_from_slice(b"  ")?;
    end_line(lines, style, staged.path.as_slice())
}

/// Appends the line of each of these paths, which are staged.
pub(crate) fn push_each(
    lines: &mut Vec<u8>,
    style: LineStyle,
    staged: &[Staged],
) -> Result<(), AllocError>
    ensures { OnOk result (lines.new.items ≡ lines.old.items ++ row_lines style (map staged_row (map staged_view staged.now))) }
{
    for one in staged {
        push_staged(lines, style, one)?;
    }
    Ok(())
}

/// Appends the line of a path with the letters of a status.
pub(crate) fn push_own(
    lines: &mut Vec<u8>,
    style: LineStyle,
    path: BStr<'_>,
    two: &str,
) -> Result<(), AllocError>
    ensures { OnOk result (lines.new.items ≡ lines.old.items ++ row_line style (bstr_bytes path.entry, two.now)) }
{
    lines.extend_from_slice(two.as_bytes())?;
    lines.push(b' ')?;
    end_line(lines, style, path.as_bytes())
}

/// Appends the line of a path with a staged letter and the letters of a status.
fn push_both(
    lines: &mut Vec<u8>,
    style: LineStyle,
    path: BStr<'_>,
    letter: Letter,
    two: &str,
) -> Result<(), AllocError>
    ensures { OnOk result (lines.new.items ≡ lines.old.items ++ row_line style (bstr_bytes path.entry, both_columns (staged_letter letter) two.now)) }
{
    match two.as_bytes() {
        [b' ', more @ ..] => {
            lines.push(staged_letter(letter))?;
            lines.extend_from_slice(more)?;
        }
        all => lines.extend_from_slice(all)?,
    }
    lines.push(b' ')?;
    end_line(lines, style, path.as_bytes())
}

/// Appends the line of a path with the letters of a status, after the lines of the staged paths before it. A letter that is
/// staged at the path is in its first column. Returns what is staged after the path.
///
/// # Errors
/// Out of memory. Then anything may follow the lines before.
pub(crate) fn push_beside<'s>(
    lines: &mut Vec<u8>,
    style: LineStyle,
    staged: &'s [Staged],
    path: BStr<'_>,
    two: &str,
) -> Result<&'s [Staged], AllocError>
    ensures { IfOk result (λ rest. (rows : List Row)
        → lines.old.items ++ row_lines style (with_staged ((bstr_bytes path.entry, two.now) ∷ rows) (map staged_view staged.now)) ≡ lines.new.items ++ row_lines style (with_staged rows (map staged_view rest.now))) }
{
    for (at, one) in staged.iter().enumerate() {
        match one.path.as_slice().cmp(path.as_bytes()) {
            Ordering::Less => push_staged(lines, style, one)?,
            Ordering::Equal => {
                push_both(lines, style, path, one.letter, two)?;
                return Ok(&staged[at + 1..]);
            }
            Ordering::Greater => {
                push_own(lines, style, path, two)?;
                return Ok(&staged[at..]);
            }
        }
    }
    push_own(lines, style, path, two)?;
    Ok(&[])
}
