//! A repository's settings, from git's configuration.

use crate::error::RepositoryError;
use crate::files::{joined, text_of, variable};
use crate::folders::Folders;
use crate::format::{Format, read_format};
use crate::includes::with_includes;
use crate::lfs::is_lfs;
use crate::sources::{Source, read_environment, read_file, read_outer};
use crate::switches::{switch, switch_or, switch_or_word};
use git_attributes::Configured;
use git_config::{Config, Variable, is_text};
use status_index::HashKind;
use std::alloc::Global;
use std::rt::{Env, Files};

/// The settings of a repository that the status depends on.
#[derive(Debug, Drop)]
pub struct Settings {
    /// The digest that makes ids (`extensions.objectFormat`).
    pub kind: HashKind,
    /// Whether the worktree knows which files are executable (`core.fileMode`).
    pub file_mode: bool,
    /// Whether the worktree has symbolic links (`core.symlinks`).
    pub symlinks: bool,
    /// Whether the time of the metadata's last change counts (`core.trustctime`).
    pub trust_ctime: bool,
    /// Whether `core.checkStat` is `minimal`: only size and whole seconds count.
    pub check_stat_minimal: bool,
    /// Whether bytes above 127 of a path are quoted (`core.quotePath`).
    pub quote_path: bool,
    /// Which conversions of files it asks for.
    pub conversions: Configured,
    /// Whether git compares paths without regard to case (`core.ignoreCase`). Here they are compared exactly.
    pub ignore_case: bool,
    /// Whether git reads attributes elsewhere: newer versions in a tree (`attr.tree`, `GIT_ATTR_SOURCE`), or in the folder of
    /// `GIT_COMMON_DIR`.
    pub has_other_attributes: bool,
    /// Whether a file that a sparse checkout leaves out counts if it is there (`core.sparseCheckout` without
    /// `sparse.expectFilesOutsideOfPatterns`).
    pub counts_left_out: bool,
}

/// The settings of a repository's own files of configuration.
#[derive(Debug, Drop)]
pub struct OwnSettings {
    /// The files, with their variables, the stronger one last.
    pub sources: Vec<Source>,
    /// The digest that makes ids (`extensions.objectFormat`).
    pub kind: HashKind,
    /// Whether the repository has no worktree (`core.bare`). None if that isn't set.
    pub bare: Option<bool>,
    /// The worktree's folder (`core.worktree`), absolute or relative to the repository's. None if that isn't set.
    pub worktree: Option<String>,
}

/// Reads a repository's own configuration. `git_dir` is its folder and `common_dir` that of the repository whose linked
/// worktree it is, or the same.
///
/// # Errors
/// A file or a value can't be read, the format isn't known, or out of memory.
pub fn read_own<R: Files + AllocGlobal>(
    rt: &R,
    git_dir: &str,
    common_dir: &str,
) -> Result<OwnSettings, RepositoryError> {
    let alloc = rt.alloc();
    let common = read_file(rt, joined(alloc, common_dir, "config")?)?;
    let format = read_format(alloc, &common.config)?;
    let is_linked = git_dir != common_dir && !format.has_worktree_config;
    let mut sources = Vec::new(alloc);
    sources.push(common)?;
    if format.has_worktree_config {
        sources.push(read_file(rt, joined(alloc, git_dir, "config.worktree")?)?)?;
    }
    let (bare, worktree) = if is_linked {
        (None, None)
    } else {
        read_place(alloc, &sources, format)?
    };
    Ok(OwnSettings {
        sources,
        kind: format.kind,
        bare,
        worktree,
    })
}

/// Adds the configuration of the system, the user and the environment to a repository's own, with the files that they include, and
/// returns the settings. Relative paths of the environment start in the worktree's folder.
///
/// # Errors
/// A file or a value can't be read, or out of memory.
pub fn read_settings<R: Files + Env + AllocGlobal>(
    rt: &R,
    folders: &Folders,
    own: OwnSettings,
) -> Result<(Settings, Config), RepositoryError> {
    let mut sources = read_outer(rt, folders.top.as_str())?;
    for source in own.sources {
        sources.push(source)?;
    }
    sources.push(read_environment(rt)?)?;
    let config = with_includes(rt, folders, &sources)?;
    let settings = settings_in(rt, own.kind, &config)?;
    Ok((settings, config))
}

// Returns the settings that a whole configuration and the environment state.
fn settings_in<R: Env + AllocGlobal>(
    rt: &R,
    kind: HashKind,
    config: &Config,
) -> Result<Settings, RepositoryError> {
    let alloc = rt.alloc();
    Ok(Settings {
        kind,
        file_mode: switch_or(alloc, config, "core.filemode", true)?,
        symlinks: switch_or(alloc, config, "core.symlinks", true)?,
        trust_ctime: switch_or(alloc, config, "core.trustctime", true)?,
        check_stat_minimal: is_minimal(config),
        quote_path: switch_or(alloc, config, "core.quotepath", true)?,
        conversions: conversions(alloc, config)?,
        ignore_case: switch_or(alloc, config, "core.ignorecase", false)?,
        has_other_attributes: has_other_attributes(rt, config)?,
        counts_left_out: counts_left_out(alloc, config)?,
    })
}

// Returns the conversions of files that a configuration asks for.
fn conversions(alloc: Global, config: &Config) -> Result<Configured, RepositoryError> {
    Ok(Configured {
        auto_line_ends: switch_or_word(alloc, config, "core.autocrlf", Some(b"input"))?.unwrap_or(
            false,
        ),
        has_lfs: is_lfs(config),
    })
}

// Returns whether a file that a sparse checkout leaves out counts if it is there.
fn counts_left_out(alloc: Global, config: &Config) -> Result<bool, RepositoryError> {
    Ok(
        switch_or(alloc, config, "core.sparsecheckout", false)?
            && !switch_or(alloc, config, "sparse.expectfilesoutsideofpatterns", false)?,
    )
}

// Returns whether git reads attributes elsewhere, as `Settings` states.
fn has_other_attributes<R: Env + AllocGlobal>(
    rt: &R,
    config: &Config,
) -> Result<bool, RepositoryError> {
    Ok(
        config.get(b"attr", None, b"tree").is_some()
            || variable(rt, "GIT_ATTR_SOURCE")?.is_some()
            || variable(rt, "GIT_COMMON_DIR")?.is_some(),
    )
}

// Returns whether a repository has no worktree, and the worktree that it names, by its own files. Both are read, and then count
// only if the format is stated.
fn read_place(
    alloc: Global,
    sources: &[Source],
    format: Format,
) -> Result<(Option<bool>, Option<String>), RepositoryError> {
    let mut bare = None;
    let mut worktree = None;
    for source in sources {
        bare = switch(alloc, &source.config, "core.bare")?.or(bare);
        worktree = source.config.get(b"core", None, b"worktree").or(worktree);
    }
    let worktree = match worktree {
        Some(found) => Some(worktree_of(alloc, found)?),
        None => None,
    };
    if format.is_stated {
        Ok((bare, worktree))
    } else {
        Ok((None, None))
    }
}

// Returns the worktree that a variable names.
fn worktree_of(alloc: Global, variable: &Variable) -> Result<String, RepositoryError> {
    let path = String::from_str(alloc, text_of(alloc, variable.value().unwrap_or(b""))?)?;
    if path.is_empty() {
        return Err(RepositoryError::BadValue {
            name: "core.worktree",
            value: path,
        });
    }
    Ok(path)
}

// Returns whether the last word of `core.checkStat` that git knows is `minimal`.
fn is_minimal(config: &Config) -> bool {
    let mut minimal = false;
    for found in config.variables() {
        if found.is_named(b"core", None, b"checkstat") {
            let value = found.value();
            minimal = is_text(value, b"minimal") || (minimal && !is_text(value, b"default"));
        }
    }
    minimal
}
