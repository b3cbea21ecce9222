//! The variables that `git -c NAME=VALUE` passes to the programs that it starts.

use crate::config::Config;
use std::alloc::{AllocError, Global};

/// Appends the variables of the environment variable `GIT_CONFIG_PARAMETERS`: each is a quoted name, `=` and a quoted
/// value. A variable without a value is true. Older versions of git quote name, `=` and value as one. Returns false if the
/// text has another form.
///
/// # Errors
/// Out of memory.
pub fn append_parameters(
    alloc: Global,
    text: &str,
    config: &mut Config,
) -> Result<bool, AllocError> {
    let mut rest = text;
    for _ in 0..usize::MAX {
        rest = rest.trim_start_matches(' ');
        if rest.is_empty() {
            return Ok(true);
        }
        match append_first(alloc, rest, config)? {
            Some(after) => rest = after,
            None => return Ok(false),
        }
    }
    Ok(false)
}

// Appends the first variable of a text. Returns the text after it.
fn append_first<'a>(
    alloc: Global,
    text: &'a str,
    config: &mut Config,
) -> Result<Option<&'a str>, AllocError> {
    let Some((name, after)) = unquoted(alloc, text)? else {
        return Ok(None);
    };
    match after.strip_prefix('=') {
        Some(after) => append_value(alloc, name.as_str(), after, config),
        None => {
            append_whole(alloc, name.as_str(), config)?;
            Ok(Some(after))
        }
    }
}

// Appends a variable of which name, `=` and value were quoted as one.
fn append_whole(alloc: Global, text: &str, config: &mut Config) -> Result<(), AllocError> {
    match text.split_once('=') {
        Some((name, value)) => config.push(alloc, name, Some(value.as_bytes())),
        None => config.push(alloc, text, None),
    }
}

// Appends a variable with the value at the beginning of a text, if one is there. Returns the text after it.
fn append_value<'a>(
    alloc: Global,
    name: &str,
    text: &'a str,
    config: &mut Config,
) -> Result<Option<&'a str>, AllocError> {
    if text.is_empty() || text.starts_with(' ') {
        config.push(alloc, name, None)?;
        return Ok(Some(text));
    }
    let Some((value, after)) = unquoted(alloc, text)? else {
        return Ok(None);
    };
    config.push(alloc, name, Some(value.as_bytes()))?;
    Ok(Some(after))
}

// Returns the first part of a text, which is in quotes as for a shell, and the text after it. A quote or an exclamation
// mark in it is written after a backslash, outside of the quotes.
fn unquoted<'a>(alloc: Global, text: &'a str) -> Result<Option<(String, &'a str)>, AllocError> {
    let Some(mut rest) = text.strip_prefix('\'') else {
        return Ok(None);
    };
    let mut part = String::new(alloc);
    for _ in 0..usize::MAX {
        let Some((front, after)) = rest.split_once('\'') else {
            return Ok(None);
        };
        part.push_str(front)?;
        if let Some(next) = after.strip_prefix("\\''") {
            part.push('\'')?;
            rest = next;
        } else if let Some(next) = after.strip_prefix("\\!'") {
            part.push('!')?;
            rest = next;
        } else {
            return Ok(Some((part, after)));
        }
    }
    Ok(None)
}
