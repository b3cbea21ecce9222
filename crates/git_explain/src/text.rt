//! Explanations as texts.

use crate::comparison::Compared;
use crate::explained::Explained;
use crate::reason::{reasons, status_word};
use crate::sight::LstatCall;
use crate::words::{NodeText, PathText};
use std::alloc::{AllocError, Global};

/// Appends the explanation of a path: a line with its status, a line for each call, and a line for each reason.
///
/// # Errors
/// Out of memory.
pub(crate) fn push_text(
    alloc: Global,
    text: &mut Vec<u8>,
    explained: &Explained<'_>,
    compared: Compared<'_>,
) -> Result<(), AllocError> {
    let (path, word) = (PathText(explained.path.as_bytes()), status_word(explained));
    push_line(text, format!(in alloc; "{path}: {word}\n"))?;
    for LstatCall { path, found } in &explained.sight.calls {
        let path = PathText(path);
        match found {
            Ok(node) => push_line(
                text,
                format!(in alloc; "  lstat {path}: {}\n", NodeText(*node)),
            )?,
            Err(fault) => push_line(text, format!(in alloc; "  lstat {path}: {fault}\n"))?,
        }
    }
    push_content(alloc, text, explained)?;
    for reason in &reasons(alloc, explained, compared)? {
        push_line(text, format!(in alloc; "  {reason}\n"))?;
    }
    Ok(())
}

/// Appends a line for the content that was read, and for the submodule's report.
fn push_content(
    alloc: Global,
    text: &mut Vec<u8>,
    explained: &Explained<'_>,
) -> Result<(), AllocError> {
    let path = PathText(explained.path.as_bytes());
    match &explained.sight.file {
        Some(Ok(reading)) => {
            push_line(
                text,
                format!(in alloc; "  read {path}: {} bytes", reading.bytes.len()),
            )?;
            match reading.fault {
                Some(fault) => push_line(text, format!(in alloc; ", then {fault}\n"))?,
                None => push_line(text, format!(in alloc; "\n"))?,
            }
        }
        Some(Err(fault)) => push_line(text, format!(in alloc; "  open {path}: {fault}\n"))?,
        None => {}
    }
    match &explained.sight.link {
        Some(Ok(target)) => {
            push_line(
                text,
                format!(in alloc; "  readlink {path}: {}\n", PathText(target)),
            )?;
        }
        Some(Err(fault)) => push_line(text, format!(in alloc; "  readlink {path}: {fault}\n"))?,
        None => {}
    }
    match &explained.sight.submodule {
        Some(Ok(true)) => push_line(
            text,
            format!(in alloc; "  HEAD of {path}: another commit\n"),
        )?,
        Some(Ok(false)) => push_line(
            text,
            format!(in alloc; "  HEAD of {path}: no other commit\n"),
        )?,
        Some(Err(words)) => push_line(text, format!(in alloc; "  HEAD of {path}: {words}\n"))?,
        None => {}
    }
    Ok(())
}

/// Appends a text that was made.
fn push_line<E: Drop>(text: &mut Vec<u8>, line: Result<String, E>) -> Result<(), AllocError> {
    match line {
        Ok(line) => text.extend_from_slice(line.as_bytes()),
        Err(_) => Err(AllocError),
    }
}

/// Appends the words for a path that isn't compared.
///
/// # Errors
/// Out of memory.
pub(crate) fn push_other(
    alloc: Global,
    text: &mut Vec<u8>,
    path: &[u8],
    status: &str,
    because: &str,
) -> Result<(), AllocError> {
    let path = PathText(path);
    push_line(text, format!(in alloc; "{path}: {status}\n  {because}\n"))
}
