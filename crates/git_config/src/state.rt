//! The parts of a configuration file, byte by byte, and the bytes of a section's header.

use std::alloc::AllocError;

/// The part that a byte belongs to.
#[derive(Clone, Copy, PartialEq, Eq)]
pub enum State {
    /// Nothing: between headers and variables.
    Between,
    /// A comment at the beginning of a line or after blanks.
    Comment,
    /// The name of a section, after `[`.
    Section,
    /// The blanks before a subsection.
    BeforeSubsection,
    /// A subsection, after its quote.
    Subsection,
    /// A subsection, after a backslash.
    SubsectionEscape,
    /// The `]` after a subsection's last quote.
    AfterSubsection,
    /// The name of a variable.
    Name,
    /// The blanks after a variable's name.
    AfterName,
    /// A value, between quotes or not.
    Value { quoted: bool },
    /// A value, after a backslash.
    ValueEscape { quoted: bool },
    /// A comment after a value.
    ValueComment,
}

/// Reads a byte of a section's name. Returns what the byte after it is part of, or None if git doesn't read this one.
///
/// # Errors
/// Out of memory.
pub fn step_section(header: &mut Vec<u8>, byte: u8) -> Result<Option<State>, AllocError> {
    match byte {
        b']' => Ok((!header.is_empty()).then_some(State::Between)),
        _ if is_blank(byte) => Ok(Some(State::BeforeSubsection)),
        _ if is_of_name(byte) || byte == b'.' => {
            header.push(byte.to_ascii_lowercase())?;
            Ok(Some(State::Section))
        }
        _ => Ok(None),
    }
}

/// The same of a byte before a subsection.
///
/// # Errors
/// Out of memory.
pub fn step_before_subsection(header: &mut Vec<u8>, byte: u8) -> Result<Option<State>, AllocError> {
    match byte {
        b'"' => {
            header.push(b'.')?;
            Ok(Some(State::Subsection))
        }
        _ => Ok(is_blank(byte).then_some(State::BeforeSubsection)),
    }
}

/// The same of a byte of a subsection.
///
/// # Errors
/// Out of memory.
pub fn step_subsection(header: &mut Vec<u8>, byte: u8) -> Result<Option<State>, AllocError> {
    match byte {
        b'\n' => Ok(None),
        b'"' => Ok(Some(State::AfterSubsection)),
        b'\\' => Ok(Some(State::SubsectionEscape)),
        _ => {
            header.push(byte)?;
            Ok(Some(State::Subsection))
        }
    }
}

/// The same of a byte of a subsection after a backslash.
///
/// # Errors
/// Out of memory.
pub fn step_escape(header: &mut Vec<u8>, byte: u8) -> Result<Option<State>, AllocError> {
    if byte == b'\n' {
        return Ok(None);
    }
    header.push(byte)?;
    Ok(Some(State::Subsection))
}

/// Returns whether a byte is one of git's blanks within a line.
pub fn is_blank(byte: u8) -> bool {
    matches!(byte, b' ' | b'\t' | b'\r')
}

/// Returns whether a byte may be part of a name.
pub fn is_of_name(byte: u8) -> bool {
    byte.is_ascii_alphanumeric() || byte == b'-'
}
