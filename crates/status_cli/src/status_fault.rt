//! The line of a status that failed.

ghost use Rattle.std.specs.Prelude.{◌≡◌, ◌∷◌, [], IfOk, codes, true};
ghost use Rattle.bstr.specs.BStr.{bstr_bytes};
ghost use Rattle.status_cli.specs.FaultLines.{IsFaultWritten, error_text, fault_text, is_submodule_fault, joined_error_text, names_submodule, submodule_line, walk_error_text};
ghost use Rattle.status_cli.specs.Lines.{line};
ghost use Rattle.status_cli.specs.Printing.{IsAllWritten};

use crate::failure::Failure;
use crate::lines::push_path;
use crate::output::{print, print_parts};
use bstr::BStr;
use gix_status::index_as_worktree::Error;
use gix_status::index_as_worktree_with_renames::Error as JoinedError;
use gix_status::walk::WalkError;
use gix_status::worktree::Fault;
use itoa::Buffer;
use std::alloc::{AllocError, Global};
use std::io;

/// Writes the line of a status that failed.
pub(crate) fn print_error<E: io::Write>(
    alloc: Global,
    error: &Error,
    faults: &mut E,
) -> Result<(), Failure>
    ensures { IsFaultWritten (is_submodule_fault error.now) (line (codes "status failed: " ∷ error_text error.now ∷ [])) (E.contents faults.old) result (E.contents faults.new) }
{
    match error {
        Error::IllformedUtf8 => print_failed("ill-formed UTF-8", faults),
        Error::Time => print_failed("time", faults),
        Error::Io(fault) => print_fault("", *fault, faults),
        Error::Find(_) => print_failed("missing object", faults),
        Error::SubmoduleStatus { rela_path, .. } => print_submodule(
            alloc,
            rela_path.as_bstr(),
            faults,
        ),
        Error::SpawnThread => print_failed("no thread", faults),
        Error::Memory => print_failed("out of memory", faults),
    }
}

/// Writes the line of a status that failed at the submodule with this path, or that memory ran out for the line.
fn print_submodule<E: io::Write>(
    alloc: Global,
    path: BStr<'_>,
    faults: &mut E,
) -> Result<(), Failure>
    ensures { IsFaultWritten true (submodule_line (bstr_bytes path.entry)) (E.contents faults.old) result (E.contents faults.new) }
{
    match submodule_line(alloc, path) {
        Ok(line) => print(&line, faults),
        Err(_) => print_parts(&["out of memory\n"], faults),
    }
}

/// Returns the line of a status that failed at the submodule with this path.
fn submodule_line(alloc: Global, path: BStr<'_>) -> Result<Vec<u8>, AllocError>
    ensures { IfOk result (λ line. line.items ≡ submodule_line (bstr_bytes path.entry)) }
{
    let mut line = Vec::from_slice(alloc, b"status failed: submodule ")?;
    push_path(&mut line, alloc, path)?;
    line.push(b'\n')?;
    Ok(line)
}

/// Writes the line of a status with untracked files, renames or sorted lines that failed.
pub(crate) fn print_joined_error<E: io::Write>(
    alloc: Global,
    error: &JoinedError,
    faults: &mut E,
) -> Result<(), Failure>
    ensures { IsFaultWritten (names_submodule (Failure.Joined error.now)) (line (codes "status failed: " ∷ joined_error_text error.now ∷ [])) (E.contents faults.old) result (E.contents faults.new) }
{
    match error {
        JoinedError::TrackedFileModifications(error) => print_error(alloc, error, faults),
        JoinedError::DirWalk(error) => print_walk_error(error, faults),
        JoinedError::SpawnThread => print_failed("no thread", faults),
        JoinedError::SetAttributeContext => print_failed("attributes", faults),
        JoinedError::OpenWorktreeFile(fault) => print_fault("open: ", *fault, faults),
        JoinedError::HashFile(fault) => print_fault("hash: ", *fault, faults),
        JoinedError::ReadLink(fault) => print_fault("read link: ", *fault, faults),
        JoinedError::ConvertToGit(fault) => print_fault("convert: ", *fault, faults),
        JoinedError::RewriteTracker(_) => print_failed("tracker", faults),
        JoinedError::Memory => print_failed("out of memory", faults),
    }
}

/// Writes the line of a status whose walk failed.
fn print_walk_error<E: io::Write>(error: &WalkError, faults: &mut E) -> Result<(), Failure>
    ensures { IsAllWritten (line (codes "status failed: " ∷ walk_error_text error.now ∷ [])) (E.contents faults.old) result (E.contents faults.new) }
{
    match error {
        WalkError::Fault { fault, .. } => print_fault("walk: ", *fault, faults),
        WalkError::Memory => print_failed("out of memory", faults),
    }
}

/// Writes the line of a status that failed, with these words.
fn print_failed<E: io::Write>(words: &'static str, faults: &mut E) -> Result<(), Failure>
    ensures { IsAllWritten (line (codes "status failed: " ∷ words.now ∷ [])) (E.contents faults.old) result (E.contents faults.new) }
{
    print_parts(&["status failed: ", words, "\n"], faults)
}

/// Writes the line of a status that failed for a fault, after words for what was being done.
fn print_fault<E: io::Write>(
    doing: &'static str,
    fault: Fault,
    faults: &mut E,
) -> Result<(), Failure>
    ensures { IsAllWritten (line (codes "status failed: " ∷ doing.now ∷ fault_text fault ∷ [])) (E.contents faults.old) result (E.contents faults.new) }
{
    match fault {
        Fault::NotFound => print_doing(doing, "not found", faults),
        Fault::NotADirectory => print_doing(doing, "not a directory", faults),
        Fault::PermissionDenied => print_doing(doing, "permission denied", faults),
        Fault::Interrupted => print_doing(doing, "interrupted", faults),
        Fault::IllformedUtf8 => print_doing(doing, "ill-formed UTF-8", faults),
        Fault::UnexpectedEnd => print_doing(doing, "unexpected end", faults),
        Fault::NotNormal => print_doing(doing, "not normal", faults),
        Fault::Memory => print_doing(doing, "out of memory", faults),
        Fault::Other(number) => {
            let mut digits = Buffer::new();
            print_parts(
                &[
                    "status failed: ",
                    doing,
                    "other ",
                    digits.format(number),
                    "\n",
                ],
                faults,
            )
        }
    }
}

/// Writes the line of a status that failed with these words, after words for what was being done.
fn print_doing<E: io::Write>(
    doing: &'static str,
    words: &'static str,
    faults: &mut E,
) -> Result<(), Failure>
    ensures { IsAllWritten (line (codes "status failed: " ∷ doing.now ∷ words.now ∷ [])) (E.contents faults.old) result (E.contents faults.new) }
{
    print_parts(&["status failed: ", doing, words, "\n"], faults)
}
