//! The variables that are booleans.

use crate::error::RepositoryError;
use git_config::{Config, bool_of, is_text};
use std::alloc::Global;

/// Returns a boolean by its whole name, section and name in lower case. None if it isn't set.
///
/// # Errors
/// Git refuses a value, also one that a later one overrides, or out of memory.
pub fn switch(
    alloc: Global,
    config: &Config,
    name: &'static str,
) -> Result<Option<bool>, RepositoryError> {
    switch_or_word(alloc, config, name, None)
}

/// Returns a boolean, or this one if it isn't set.
///
/// # Errors
/// As for `switch`.
pub(crate) fn switch_or(
    alloc: Global,
    config: &Config,
    name: &'static str,
    unset: bool,
) -> Result<bool, RepositoryError> {
    Ok(switch(alloc, config, name)?.unwrap_or(unset))
}

/// Returns a boolean that may also be this word, which is true.
///
/// # Errors
/// As for `switch`.
pub fn switch_or_word(
    alloc: Global,
    config: &Config,
    name: &'static str,
    word: Option<&[u8]>,
) -> Result<Option<bool>, RepositoryError> {
    let Some((section, last)) = name.split_once('.') else {
        return Ok(None);
    };
    let mut found = None;
    for variable in config.variables() {
        if variable.is_named(section.as_bytes(), None, last.as_bytes()) {
            found = Some(is_on(alloc, name, variable.value(), word)?);
        }
    }
    Ok(found)
}

// Returns the boolean that a value of a variable is. This word is true.
fn is_on(
    alloc: Global,
    name: &'static str,
    value: Option<&[u8]>,
    word: Option<&[u8]>,
) -> Result<bool, RepositoryError> {
    let is_word = word.is_some_and(|word| is_text(value, word));
    match if is_word { Some(true) } else { bool_of(value) } {
        Some(is_on) => Ok(is_on),
        None => Err(RepositoryError::BadBoolean {
            name,
            value: String::from_utf8_lossy(alloc, value.unwrap_or(b""))?,
        }),
    }
}
