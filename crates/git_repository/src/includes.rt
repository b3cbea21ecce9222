//! The files that a configuration includes.

use crate::error::RepositoryError;
use crate::files::{read_if_there, text_of};
use crate::folders::Folders;
use crate::homes::expanded;
use crate::regular::SMALL_LIMIT;
use crate::sources::{Source, config_of};
use git_config::{Condition, Config, Variable, condition_of, conditions};
use std::rt::{Env, Files};

/// The most files that include each other, as in git.
const MOST_FILES: usize = 10;

/// Returns the variables of sources, the later ones of which are stronger. Those of an included file come after the variable that
/// includes it.
///
/// # Errors
/// A file that is included can't be read, or its name can't be; a file is within more than ten others; or out of memory.
pub fn with_includes<R: Files + Env + AllocGlobal>(
    rt: &R,
    folders: &Folders,
    sources: &[Source],
) -> Result<Config, RepositoryError> {
    let mut first = Reading::new(rt, folders, Remotes::Unread);
    let config = first.read_all(sources)?;
    if !first.is_asked {
        return Ok(config);
    }
    let remotes = Reading::new(rt, folders, Remotes::Collected).read_all(sources)?;
    Reading::new(rt, folders, Remotes::Known(&remotes)).read_all(sources)
}

/// How much is known of the remotes' URLs while files are read.
#[derive(Clone, Copy)]
enum Remotes<'a> {
    /// Nothing: no condition on them holds.
    Unread,
    /// They are collected: each condition on them holds. As in git, no file that has a condition may state one.
    Collected,
    /// They are those of a configuration.
    Known(&'a Config),
}

/// Reads the files that sources include.
#[derive(Drop)]
struct Reading<'a, 'b, 'c, R> {
    rt: &'a R,
    folders: &'b Folders,
    remotes: Remotes<'c>,
    /// Whether there was a condition on the remotes' URLs.
    is_asked: bool,
}

impl<'a, 'b, 'c, R: Files + Env + AllocGlobal> Reading<'a, 'b, 'c, R> {
    fn new(rt: &'a R, folders: &'b Folders, remotes: Remotes<'c>) -> Reading<'a, 'b, 'c, R> {
        Reading {
            rt,
            folders,
            remotes,
            is_asked: false,
        }
    }

    /// Reads all sources, and what they include.
    fn read_all(&mut self, sources: &[Source]) -> Result<Config, RepositoryError> {
        let mut all = Config::new(self.rt.alloc());
        for source in sources {
            self.append(&mut all, source, MOST_FILES, false)?;
        }
        Ok(all)
    }

    /// Appends the variables of a source, and of what it includes, up to `depth` files within each other. If it is `conditional`,
    /// it is a file that has a condition, or within one.
    #[cycle(includes)]
    fn append(
        &mut self,
        all: &mut Config,
        source: &Source,
        depth: usize,
        conditional: bool,
    ) -> Result<(), RepositoryError> {
        let mut section = None;
        for variable in source.config.variables() {
            if section != Some(variable.section()) {
                section = Some(variable.section());
                all.begin_section();
            }
            if conditional && self.is_collecting() && variable.is_remote_url() {
                return Err(RepositoryError::ConditionalRemote);
            }
            all.add_copy(self.rt.alloc(), variable)?;
            if self.is_included(variable, source)? {
                let conditional = conditional || !variable.is_include();
                self.append_file(all, variable, source, depth, conditional)?;
                section = None;
            }
        }
        Ok(())
    }

    /// Appends the variables of the file that a variable of a source includes. One that isn't there has none.
    #[cycle(includes)]
    fn append_file(
        &mut self,
        all: &mut Config,
        variable: &Variable,
        source: &Source,
        depth: usize,
        conditional: bool,
    ) -> Result<(), RepositoryError> {
        let path = self.path_of(variable, source)?;
        let Some(bytes) = read_if_there(self.rt, path.as_str(), SMALL_LIMIT)? else {
            return Ok(());
        };
        let Some(fewer) = depth.checked_sub(1) else {
            return Err(RepositoryError::IncludesTooDeep { path });
        };
        let config = config_of(self.rt.alloc(), &bytes, path.as_str())?;
        let included = Source {
            path: Some(path),
            config,
        };
        self.append(all, &included, fewer, conditional)
    }

    fn is_collecting(&self) -> bool {
        matches!(self.remotes, Remotes::Collected)
    }

    /// Returns whether a variable of a source includes a file.
    fn is_included(
        &mut self,
        variable: &Variable,
        source: &Source,
    ) -> Result<bool, RepositoryError> {
        if variable.is_include() {
            return Ok(true);
        }
        let Some(text) = variable.include_condition() else {
            return Ok(false);
        };
        let Some(condition) = condition_of(text) else {
            return Ok(false);
        };
        match self.holds(condition, source)? {
            Some(holds) => Ok(holds && variable.has_name(b"path")),
            None => Err(RepositoryError::UnsupportedCondition {
                condition: String::from_utf8_lossy(self.rt.alloc(), text)?,
            }),
        }
    }

    /// Returns whether a condition holds. None if its pattern isn't compared.
    fn holds(
        &mut self,
        condition: Condition<'_>,
        source: &Source,
    ) -> Result<Option<bool>, RepositoryError> {
        match condition {
            Condition::GitDir {
                pattern,
                folds_case,
            } => {
                let file = source.path.as_deref();
                self.folders
                    .is_in_folder(self.rt, pattern, folds_case, file)
            }
            Condition::OnBranch(pattern) => self.folders.is_on_branch(self.rt, pattern),
            Condition::HasRemoteUrl(pattern) => self.has_remote_url(pattern),
        }
    }

    /// Returns whether the URL of a remote matches a pattern. None if the pattern isn't compared.
    fn has_remote_url(&mut self, pattern: &[u8]) -> Result<Option<bool>, RepositoryError> {
        self.is_asked = true;
        let remotes = match self.remotes {
            Remotes::Unread => return Ok(Some(false)),
            Remotes::Collected => return Ok(Some(true)),
            Remotes::Known(remotes) => remotes,
        };
        let mut matches = Some(false);
        for variable in remotes.variables() {
            if variable.is_remote_url()
                && let Some(url) = variable.value()
                && matches == Some(false)
            {
                matches = conditions::is_match(self.rt.alloc(), pattern, url, false)?;
            }
        }
        Ok(matches)
    }

    /// Returns the path of the file that a variable of a source includes. A relative one starts in the folder of the source's file.
    fn path_of(&self, variable: &Variable, source: &Source) -> Result<String, RepositoryError> {
        let alloc = self.rt.alloc();
        let Some(value) = variable.value() else {
            return Err(RepositoryError::NoIncludePath);
        };
        let path = text_of(alloc, value)?;
        let Some(path) = expanded(self.rt, path)? else {
            return Err(RepositoryError::UnknownHome {
                path: String::from_str(alloc, path)?,
            });
        };
        if path.starts_with('/') {
            return Ok(path);
        }
        match &source.path {
            Some(file) => {
                let folder = match file.rsplit_once('/') {
                    Some((folder, _)) => folder,
                    None => ".",
                };
                Ok(format!(in alloc; "{folder}/{path}")?)
            }
            None => Err(RepositoryError::RelativeInclude { path }),
        }
    }
}
