//! The variables of git's configuration.

use std::alloc::{AllocError, Global};
use std::sync::Arc;
use thiserror::Error;

/// Why a configuration file isn't read.
#[derive(Clone, Copy, Debug, PartialEq, Eq, Error)]
pub enum ConfigError {
    /// Git can't read a line.
    #[error("bad config line {line}")]
    Line {
        /// The line's number, counted from 1.
        line: usize,
    },
    /// An allocation failed.
    #[error("Out of memory")]
    Memory(#[from(alloc)] AllocError),
}

/// A variable of a configuration.
#[derive(Debug, Drop)]
pub struct Variable {
    /// The section in lower case. If there is a subsection, a dot and the subsection follow. The variables below one header
    /// share it.
    pub(crate) header: Arc<Vec<u8>>,
    /// The number of the header in its configuration.
    pub(crate) section: usize,
    /// The name in lower case.
    pub(crate) name: Vec<u8>,
    /// The value. None if the file has no `=`.
    pub(crate) value: Option<Vec<u8>>,
}

impl Variable {
    /// Returns the value. None if the file has no `=` after the name, which git reads as true.
    pub fn value(&self) -> Option<&[u8]> {
        match &self.value {
            Some(value) => Some(value.as_slice()),
            None => None,
        }
    }

    /// Returns the number of the header that the variable is below. Other headers of the configuration have other numbers.
    pub fn section(&self) -> usize {
        self.section
    }

    /// Returns whether the variable has this name, whatever its section. The name is in lower case.
    pub fn has_name(&self, name: &[u8]) -> bool {
        self.name.as_slice() == name
    }

    /// Returns whether this is the variable of a section, subsection and name. Section and name are in lower case.
    pub fn is_named(&self, section: &[u8], subsection: Option<&[u8]>, name: &[u8]) -> bool {
        let is_below = match subsection {
            Some(_) => self.subsection_of(section) == subsection,
            None => self.header.as_slice() == section,
        };
        is_below && self.name.as_slice() == name
    }

    /// Returns the subsection, if the variable is in one of this section. The section is in lower case.
    pub fn subsection_of(&self, section: &[u8]) -> Option<&[u8]> {
        self.header
            .as_slice()
            .strip_prefix(section)?
            .strip_prefix(b".")
    }

    /// Returns whether this is `include.path`, whose value is the path of a file that is read there.
    pub fn is_include(&self) -> bool {
        self.is_named(b"include", None, b"path")
    }

    /// Returns the condition of a section `includeIf`. If it holds, the value of the variable `path` is the path of a file that is
    /// read there. None for a variable of another section.
    pub fn include_condition(&self) -> Option<&[u8]> {
        self.subsection_of(b"includeif")
    }

    /// Returns whether this is `remote.NAME.url`.
    pub fn is_remote_url(&self) -> bool {
        self.has_name(b"url") && self.subsection_of(b"remote").is_some()
    }

    /// Returns the name, if the variable is in this section and in no subsection. The section is in lower case.
    pub fn name_in(&self, section: &[u8]) -> Option<&[u8]> {
        (self.header.as_slice() == section).then_some(self.name.as_slice())
    }
}

/// The variables of one or more configuration files, in order. Of several with one name the last counts.
#[derive(Debug, Drop)]
pub struct Config {
    variables: Vec<Variable>,
    // The number of headers.
    sections: usize,
}

impl Config {
    /// Returns a configuration without variables.
    pub fn new(alloc: Global) -> Config {
        Config {
            variables: Vec::new(alloc),
            sections: 0,
        }
    }

    /// Begins a section: the variables that are added from now on are below another header.
    pub fn begin_section(&mut self) {
        self.sections = self.sections.saturating_add(1);
    }

    /// Adds a variable below the header that was begun last.
    ///
    /// # Errors
    /// Out of memory.
    pub(crate) fn add(
        &mut self,
        header: &Arc<Vec<u8>>,
        name: Vec<u8>,
        value: Option<Vec<u8>>,
    ) -> Result<(), AllocError> {
        self.variables.push(Variable {
            header: Arc::try_clone(header)?,
            section: self.sections,
            name,
            value,
        })?;
        Ok(())
    }

    /// Returns the variables in order.
    pub fn variables(&self) -> &[Variable] {
        self.variables.as_slice()
    }

    /// Returns the last variable of this section, subsection and name. Section and name are in lower case.
    pub fn get(&self, section: &[u8], subsection: Option<&[u8]>, name: &[u8]) -> Option<&Variable> {
        let mut found = None;
        for variable in self.variables.iter() {
            if variable.is_named(section, subsection, name) {
                found = Some(variable);
            }
        }
        found
    }

    /// Appends a copy of a variable of another configuration, below the header that was begun last.
    ///
    /// # Errors
    /// Out of memory.
    pub fn add_copy(&mut self, alloc: Global, variable: &Variable) -> Result<(), AllocError> {
        let value = match &variable.value {
            Some(value) => Some(Vec::from_slice(alloc, value)?),
            None => None,
        };
        self.add(&variable.header, variable.name.clone()?, value)
    }

    /// Appends a variable by its whole name: section, subsection if any, and name with dots between. Without a value it
    /// is true. A name without a dot is that of no variable, and nothing is appended.
    ///
    /// # Errors
    /// Out of memory.
    pub fn push(
        &mut self,
        alloc: Global,
        whole: &str,
        value: Option<&[u8]>,
    ) -> Result<(), AllocError> {
        let Some((front, name)) = whole.rsplit_once('.') else {
            return Ok(());
        };
        let header = Arc::new(alloc, header_of(alloc, front)?)?;
        let name = name.as_bytes().to_ascii_lowercase(alloc)?;
        let value = match value {
            Some(value) => Some(Vec::from_slice(alloc, value)?),
            None => None,
        };
        self.begin_section();
        self.add(&header, name, value)
    }
}

// Returns the header of a section, or of a section and a subsection with a dot between.
fn header_of(alloc: Global, front: &str) -> Result<Vec<u8>, AllocError> {
    let Some((section, subsection)) = front.split_once('.') else {
        return front.as_bytes().to_ascii_lowercase(alloc);
    };
    let mut header = section.as_bytes().to_ascii_lowercase(alloc)?;
    header.push(b'.')?;
    header.extend_from_slice(subsection.as_bytes())?;
    Ok(header)
}
