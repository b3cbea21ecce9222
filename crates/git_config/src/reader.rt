//! Reads git's configuration files.

use crate::config::{Config, ConfigError};
use crate::state::{
    State, is_blank, is_of_name, step_before_subsection, step_escape, step_section, step_subsection,
};
use std::alloc::{AllocError, Global};
use std::sync::Arc;

// The UTF-8 byte order mark, which a file may begin with.
const BYTE_ORDER_MARK: [u8; 3] = [0xef, 0xbb, 0xbf];

// A file that is read byte by byte.
#[derive(Drop)]
struct Reader {
    alloc: Global,
    state: State,
    // The number of the line that the next byte is in, counted from 1.
    line: usize,
    // The last header that was read, as a variable has it.
    header: Vec<u8>,
    // The same, as the variables below it share it, once there is one.
    shared: Option<Arc<Vec<u8>>>,
    name: Vec<u8>,
    value: Vec<u8>,
    // The length of the value without the blanks at its end.
    value_len: usize,
    config: Config,
}

/// Reads the bytes of a configuration file as git reads them, but blanks within a value stay as they are, as of git 2.45.
///
/// # Errors
/// The first line that git can't read, by the number that git reports, or out of memory.
pub fn read_config(alloc: Global, bytes: &[u8]) -> Result<Config, ConfigError> {
    let bytes = bytes.strip_prefix(&BYTE_ORDER_MARK).unwrap_or(bytes);
    let mut reader = Reader::new(alloc);
    for line in bytes.split_inclusive(|byte| *byte == b'\n') {
        reader.feed_line(line)?;
    }
    reader.finish()
}

impl Reader {
    fn new(alloc: Global) -> Reader {
        Reader {
            alloc,
            state: State::Between,
            line: 1,
            header: Vec::new(alloc),
            shared: None,
            name: Vec::new(alloc),
            value: Vec::new(alloc),
            value_len: 0,
            config: Config::new(alloc),
        }
    }

    // Reads a line with its end. One of two bytes counts as a line feed.
    fn feed_line(&mut self, line: &[u8]) -> Result<(), ConfigError> {
        match line.strip_suffix(b"\r\n") {
            Some(text) => {
                self.feed_all(text)?;
                self.feed(b'\n')
            }
            None => self.feed_all(line),
        }
    }

    fn feed_all(&mut self, bytes: &[u8]) -> Result<(), ConfigError> {
        for byte in bytes {
            self.feed(*byte)?;
        }
        Ok(())
    }

    // Reads the next byte. A line end after a subsection's last quote counts as part of the next line.
    fn feed(&mut self, byte: u8) -> Result<(), ConfigError> {
        let line = match byte {
            b'\n' => self.line.saturating_add(1),
            _ => self.line,
        };
        match self.step(byte)? {
            Some(state) => {
                self.state = state;
                self.line = line;
                Ok(())
            }
            None if self.state == State::AfterSubsection => Err(ConfigError::Line { line }),
            None => Err(ConfigError::Line { line: self.line }),
        }
    }

    // Reads the end of the file, which git takes for the end of a line, and once more after a backslash.
    fn finish(mut self) -> Result<Config, ConfigError> {
        if self.state == State::Section {
            let line = self.line.saturating_add(1);
            return Err(ConfigError::Line { line });
        }
        if matches!(self.state, State::ValueEscape { .. }) {
            self.feed(b'\n')?;
        }
        self.feed(b'\n')?;
        Ok(self.config)
    }

    // Returns what the byte after this one is part of. None if git doesn't read this byte here.
    fn step(&mut self, byte: u8) -> Result<Option<State>, AllocError> {
        match self.state {
            State::Between => self.step_between(byte),
            State::Section => step_section(&mut self.header, byte),
            State::BeforeSubsection => step_before_subsection(&mut self.header, byte),
            State::Subsection => step_subsection(&mut self.header, byte),
            State::SubsectionEscape => step_escape(&mut self.header, byte),
            State::AfterSubsection => Ok((byte == b']').then_some(State::Between)),
            State::Name if is_of_name(byte) => {
                self.name.push(byte.to_ascii_lowercase())?;
                Ok(Some(State::Name))
            }
            State::Name | State::AfterName => self.step_after_name(byte),
            State::Value { quoted } => self.step_value(byte, quoted),
            State::ValueEscape { quoted } => self.step_value_escape(byte, quoted),
            State::ValueComment if byte == b'\n' => self.end_value(),
            State::Comment if byte == b'\n' => Ok(Some(State::Between)),
            State::Comment | State::ValueComment => Ok(Some(self.state)),
        }
    }

    fn step_between(&mut self, byte: u8) -> Result<Option<State>, AllocError> {
        match byte {
            b'#' | b';' => Ok(Some(State::Comment)),
            b'[' => {
                self.header.clear();
                self.shared = None;
                self.config.begin_section();
                Ok(Some(State::Section))
            }
            b'\n' => Ok(Some(State::Between)),
            _ if is_blank(byte) => Ok(Some(State::Between)),
            _ if byte.is_ascii_alphabetic() => {
                self.name.clear();
                self.name.push(byte.to_ascii_lowercase())?;
                Ok(Some(State::Name))
            }
            _ => Ok(None),
        }
    }

    fn step_after_name(&mut self, byte: u8) -> Result<Option<State>, AllocError> {
        match byte {
            b' ' | b'\t' => Ok(Some(State::AfterName)),
            b'\n' => self.end_variable(None),
            b'=' => {
                self.value.clear();
                self.value_len = 0;
                Ok(Some(State::Value { quoted: false }))
            }
            _ => Ok(None),
        }
    }

    fn step_value(&mut self, byte: u8, quoted: bool) -> Result<Option<State>, AllocError> {
        match byte {
            b'\n' if quoted => Ok(None),
            b'\n' => self.end_value(),
            b'#' | b';' if !quoted => Ok(Some(State::ValueComment)),
            b'\\' => {
                self.value_len = self.value.len();
                Ok(Some(State::ValueEscape { quoted }))
            }
            b'"' => {
                self.value_len = self.value.len();
                Ok(Some(State::Value { quoted: !quoted }))
            }
            _ if is_blank(byte) && !quoted => {
                if !self.value.is_empty() {
                    self.value.push(byte)?;
                }
                Ok(Some(State::Value { quoted }))
            }
            _ => self.keep(byte, quoted),
        }
    }

    fn step_value_escape(&mut self, byte: u8, quoted: bool) -> Result<Option<State>, AllocError> {
        match byte {
            b'\n' => Ok(Some(State::Value { quoted })),
            b't' => self.keep(b'\t', quoted),
            b'b' => self.keep(b'\x08', quoted),
            b'n' => self.keep(b'\n', quoted),
            b'\\' | b'"' => self.keep(byte, quoted),
            _ => Ok(None),
        }
    }

    // Appends a byte of the value that isn't a blank at its end.
    fn keep(&mut self, byte: u8, quoted: bool) -> Result<Option<State>, AllocError> {
        self.value.push(byte)?;
        self.value_len = self.value.len();
        Ok(Some(State::Value { quoted }))
    }

    // Ends a variable's line with the value that was read.
    fn end_value(&mut self) -> Result<Option<State>, AllocError> {
        self.value.truncate(self.value_len);
        let value = self.value.clone()?;
        self.end_variable(Some(value))
    }

    fn end_variable(&mut self, value: Option<Vec<u8>>) -> Result<Option<State>, AllocError> {
        let header = match self.shared.take() {
            Some(header) => header,
            None => Arc::new(self.alloc, self.header.clone()?)?,
        };
        self.config.add(&header, self.name.clone()?, value)?;
        self.shared = Some(header);
        Ok(Some(State::Between))
    }
}
