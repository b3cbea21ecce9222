//! The submodules that don't count.

use crate::error::RepositoryError;
use crate::files::{joined, read_if_there};
use crate::regular::SMALL_LIMIT;
use crate::sources::config_of;
use bstr::BStr;
use git_config::{Config, Variable};
use status_index::State;
use std::alloc::{AllocError, Global};
use std::collections::BTreeMap;
use std::fs;
use std::rt::Files;

/// The name of the file that names submodules.
pub const MODULES: &str = ".gitmodules";

// The section of the variables on a submodule.
const SECTION: &[u8] = b"submodule";

// The value of `ignore` for a submodule that doesn't count.
const ALL: &[u8] = b"all";

/// A `.gitmodules`, which names submodules.
#[derive(Drop)]
pub enum ModulesFile {
    /// Git doesn't read it: the index has no submodule, or has the file in conflict.
    Unneeded,
    /// The worktree has none.
    Missing,
    /// The variables that it states.
    Variables(Config),
    /// It can't be read: it is no regular file, or the system refuses.
    Unreadable,
    /// It is a link, or a line of it can't be read, so git reads it otherwise, or fails.
    Unknown,
}

impl ModulesFile {
    /// Reads the `.gitmodules` of a worktree.
    ///
    /// # Errors
    /// Out of memory.
    pub fn read<R: Files + AllocGlobal>(
        rt: &R,
        top: &str,
        index: &State,
    ) -> Result<ModulesFile, RepositoryError> {
        if !needs_modules(index) {
            return Ok(ModulesFile::Unneeded);
        }
        let path = joined(rt.alloc(), top, MODULES)?;
        if is_link(rt, path.as_str()) {
            return Ok(ModulesFile::Unknown);
        }
        match read_if_there(rt, path.as_str(), SMALL_LIMIT) {
            Ok(Some(bytes)) => ModulesFile::of(rt.alloc(), &bytes),
            Ok(None) => Ok(ModulesFile::Missing),
            Err(error) if error.is_unreadable() => Ok(ModulesFile::Unreadable),
            Err(error) => Err(error),
        }
    }

    /// Returns what these bytes of a `.gitmodules` state.
    ///
    /// # Errors
    /// Out of memory.
    pub fn of(alloc: Global, bytes: &[u8]) -> Result<ModulesFile, RepositoryError> {
        match config_of(alloc, bytes, MODULES) {
            Ok(variables) => Ok(ModulesFile::Variables(variables)),
            Err(error) if error.is_bad_config() => Ok(ModulesFile::Unknown),
            Err(error) => Err(error),
        }
    }
}

/// The submodules that don't count: `submodule.NAME.ignore` is `all`, in the configuration or, if it isn't set there, in
/// `.gitmodules`. If it is set in neither, `diff.ignoreSubmodules` is `all`.
#[derive(Drop)]
pub struct IgnoredSubmodules {
    modules: Modules,
    // Whether the submodules that `.gitmodules` doesn't name are ignored.
    are_others_ignored: bool,
    /// Whether `.gitmodules` can't be read although it is there. Then none of its lines counts. If git reads it or fails, no
    /// submodule is ignored.
    pub is_unread: bool,
}

impl IgnoredSubmodules {
    /// Returns which submodules don't count, by a `.gitmodules` and the configuration.
    ///
    /// # Errors
    /// Out of memory.
    pub fn new(
        alloc: Global,
        file: &ModulesFile,
        config: &Config,
    ) -> Result<IgnoredSubmodules, AllocError> {
        let are_others_ignored = match config.get(b"diff", None, b"ignoresubmodules") {
            Some(found) => is_all(found),
            None => false,
        };
        match file {
            ModulesFile::Variables(variables) => {
                IgnoredSubmodules::of(alloc, variables, config, are_others_ignored)
            }
            ModulesFile::Missing => {
                IgnoredSubmodules::of(alloc, &Config::new(alloc), config, are_others_ignored)
            }
            ModulesFile::Unneeded => {
                Ok(IgnoredSubmodules::without(alloc, are_others_ignored, false))
            }
            ModulesFile::Unreadable => {
                Ok(IgnoredSubmodules::without(alloc, are_others_ignored, true))
            }
            ModulesFile::Unknown => Ok(IgnoredSubmodules::without(alloc, false, true)),
        }
    }

    // Returns what counts by the variables of `.gitmodules` and the configuration.
    fn of(
        alloc: Global,
        variables: &Config,
        config: &Config,
        are_others_ignored: bool,
    ) -> Result<IgnoredSubmodules, AllocError> {
        let mut modules = Modules::new(alloc);
        if !modules.read(alloc, variables)? {
            return Ok(IgnoredSubmodules::without(alloc, false, true));
        }
        modules.override_by(config);
        Ok(IgnoredSubmodules {
            modules,
            are_others_ignored,
            is_unread: false,
        })
    }

    // Returns what counts if no line of `.gitmodules` does.
    fn without(alloc: Global, are_others_ignored: bool, is_unread: bool) -> IgnoredSubmodules {
        IgnoredSubmodules {
            modules: Modules::new(alloc),
            are_others_ignored,
            is_unread,
        }
    }

    /// Returns whether the submodule at a path doesn't count.
    pub fn contains(&self, path: BStr<'_>) -> bool {
        self.modules
            .is_ignored(path)
            .unwrap_or(self.are_others_ignored)
    }
}

// Returns whether `.gitmodules` counts: the index has a submodule, and the file isn't in conflict.
fn needs_modules(index: &State) -> bool {
    let in_index = index.entries_at(BStr::new(MODULES.as_bytes()));
    index
        .entries()
        .iter()
        .any(|entry| entry.mode.is_submodule())
        && !in_index.iter().any(|entry| entry.stage_raw() != 0)
}

// Returns whether a symbolic link is at a path.
fn is_link<R: Files>(rt: &R, path: &str) -> bool {
    match fs::symlink_metadata(rt, path) {
        Ok(node) => node.is_symlink(),
        Err(_) => false,
    }
}

// A submodule that `.gitmodules` names.
#[derive(Drop)]
struct Module {
    // Its path, if it is stated.
    path: Option<Vec<u8>>,
    // Whether it is ignored, if that is stated.
    is_ignored: Option<bool>,
}

// The submodules that `.gitmodules` names, and their numbers by their names and by their paths.
#[derive(Drop)]
struct Modules {
    list: Vec<Module>,
    by_name: BTreeMap<Vec<u8>, usize>,
    by_path: BTreeMap<Vec<u8>, usize>,
}

impl Modules {
    fn new(alloc: Global) -> Modules {
        Modules {
            list: Vec::new(alloc),
            by_name: BTreeMap::new(alloc),
            by_path: BTreeMap::new(alloc),
        }
    }

    // Reads the variables of `.gitmodules`. Returns false for one without a value that needs one, for which git fails.
    fn read(&mut self, alloc: Global, modules: &Config) -> Result<bool, AllocError> {
        let mut section = None;
        let mut number = None;
        for variable in modules.variables() {
            if section != Some(variable.section()) {
                section = Some(variable.section());
                number = self.number_of(alloc, variable)?;
            }
            if let Some(number) = number
                && !self.set(alloc, number, variable)?
            {
                return Ok(false);
            }
        }
        Ok(true)
    }

    // Returns the number of the submodule that a variable is of. None if it is of none, or of one whose name git doesn't accept.
    fn number_of(
        &mut self,
        alloc: Global,
        variable: &Variable,
    ) -> Result<Option<usize>, AllocError> {
        let Some(name) = variable.subsection_of(SECTION) else {
            return Ok(None);
        };
        if !is_accepted(name) {
            return Ok(None);
        }
        if let Some(number) = self.by_name.get(name) {
            return Ok(Some(*number));
        }
        let number = self.list.len();
        self.list.push(Module {
            path: None,
            is_ignored: None,
        })?;
        put(&mut self.by_name, Vec::from_slice(alloc, name)?, number)?;
        Ok(Some(number))
    }

    // Sets what a variable states of a submodule. Returns false if it has to have a value and has none.
    fn set(
        &mut self,
        alloc: Global,
        number: usize,
        variable: &Variable,
    ) -> Result<bool, AllocError> {
        let Some(value) = variable.value() else {
            return Ok(!needs_value(variable));
        };
        // Git takes a path that begins with a dash for an option, and leaves it out.
        if variable.has_name(b"path") && !value.starts_with(b"-") {
            self.move_to(alloc, number, value)?;
        } else if variable.has_name(b"ignore") && is_known(value) {
            if let Some(module) = self.list.get_mut(number) {
                module.is_ignored = Some(value == ALL);
            }
        }
        Ok(true)
    }

    // Moves a submodule to a path. Its earlier path then names none.
    fn move_to(&mut self, alloc: Global, number: usize, path: &[u8]) -> Result<(), AllocError> {
        let Some(module) = self.list.get_mut(number) else {
            return Ok(());
        };
        if let Some(old) = &module.path {
            drop(self.by_path.remove(old.as_slice()));
        }
        module.path = Some(Vec::from_slice(alloc, path)?);
        put(&mut self.by_path, Vec::from_slice(alloc, path)?, number)
    }

    // Reads whether these submodules are ignored by the configuration, which is the stronger one.
    fn override_by(&mut self, config: &Config) {
        let mut section = None;
        let mut number = None;
        for variable in config.variables() {
            if section != Some(variable.section()) {
                section = Some(variable.section());
                number = match variable.subsection_of(SECTION) {
                    Some(name) => self.by_name.get(name).copied(),
                    None => None,
                };
            }
            if let Some(number) = number
                && variable.has_name(b"ignore")
                && let Some(module) = self.list.get_mut(number)
            {
                module.is_ignored = Some(is_all(variable));
            }
        }
    }

    // Returns whether the submodule at a path is ignored, if that is stated.
    fn is_ignored(&self, path: BStr<'_>) -> Option<bool> {
        let number = self.by_path.get(path.as_bytes())?;
        self.list.get(*number)?.is_ignored
    }
}

// Puts a number into a map, in place of an earlier one of its key.
fn put(map: &mut BTreeMap<Vec<u8>, usize>, key: Vec<u8>, value: usize) -> Result<(), AllocError> {
    match map.insert(key, value) {
        Ok(_) => Ok(()),
        Err(_) => Err(AllocError),
    }
}

// Returns whether git accepts a submodule's name: it isn't empty, and no part of it is `..`.
fn is_accepted(name: &[u8]) -> bool {
    !name.is_empty()
        && !name
            .split(|byte| *byte == b'/' || *byte == b'\\')
            .any(|part| part == b"..".as_slice())
}

// Returns whether git fails for a variable of a submodule that has no value.
fn needs_value(variable: &Variable) -> bool {
    [&b"path"[..], b"ignore", b"url", b"update", b"branch"]
        .iter()
        .any(|name| variable.has_name(name))
}

fn is_all(variable: &Variable) -> bool {
    variable.value() == Some(ALL)
}

// Returns whether a value of `ignore` in `.gitmodules` is one of git's. Git passes over others there.
fn is_known(value: &[u8]) -> bool {
    [ALL, b"dirty", b"none", b"untracked"].contains(&value)
}
