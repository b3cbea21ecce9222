//! The words of PATHS: what each selects, by git's rules for pathspecs.

use crate::refused::{PathRefusal, Refused};
use git_pathspecs::{Element, Magic, MagicFault, magic_of};
use git_patterns::{MOST_PIECES, literal_len};
use git_repository::{Repository, is_folder_path, is_set, push_name};
use std::alloc::{AllocError, Global};
use std::rt::Env;

/// A word of PATHS, read as an element of a pathspec.
#[derive(Drop)]
pub(crate) struct Selected<'a> {
    /// The word that was passed.
    pub(crate) word: &'a str,
    /// Its magic words.
    magic: Magic,
    /// The path or pattern from the worktree's top. A slash at its end is that of a folder. It is empty for the top itself.
    text: String,
    /// How many bytes of the text are the path of the working folder.
    kept: usize,
}

impl Selected<'_> {
    /// Returns the path, without a slash at its end.
    pub(crate) fn path(&self) -> &str {
        self.text.as_str().trim_end_matches("/")
    }

    /// Returns whether only a folder is selected, since the word ends with a slash, or with `.` or `..`.
    pub(crate) fn is_folder(&self) -> bool {
        self.text.as_str().ends_with("/")
    }

    /// Returns whether one file or folder is named, which has to be there. The worktree's top is there anyway.
    pub(crate) fn names_one(&self) -> bool {
        !self.text.is_empty() && !self.magic.excludes && !self.magic.icase && !self.is_pattern()
    }

    /// Returns whether there are wildcards, other than those of the working folder's own name.
    fn is_pattern(&self) -> bool {
        let text = self.text.as_bytes();
        let own = &text[self.kept.min(text.len())..];
        !self.magic.literal && literal_len(own) < own.len()
    }
}

/// Returns the elements of a pathspec.
///
/// # Errors
/// Out of memory.
pub(crate) fn elements_of<'a>(
    alloc: Global,
    selected: &'a [Selected<'_>],
) -> Result<Vec<Element<'a>>, AllocError> {
    let mut elements = Vec::new(alloc);
    for one in selected {
        elements.push(Element::of(alloc, one.magic, one.kept, one.text.as_bytes())?)?;
    }
    Ok(elements)
}

/// Returns what the words of a request select.
///
/// # Errors
/// A word is empty, has magic or a pattern that isn't supported, or its path isn't in the worktree; a variable of the
/// environment is no boolean, or two exclude each other; or out of memory.
pub(crate) fn selected_by<'a, R: AllocGlobal + Env>(
    rt: &R,
    repository: &Repository,
    words: &[&'a str],
) -> Result<Vec<Selected<'a>>, Refused> {
    let alloc = rt.alloc();
    let mut selected = Vec::new(alloc);
    if words.is_empty() {
        return Ok(selected);
    }
    let usual = Usual::of(rt)?;
    for word in words {
        selected.push(selected_of(alloc, repository, usual, word)?)?;
    }
    Ok(selected)
}

/// The magic that all words have by the environment.
#[derive(Clone, Copy)]
struct Usual {
    /// `GIT_LITERAL_PATHSPECS`: no word has magic.
    is_literal: bool,
    /// `GIT_GLOB_PATHSPECS`: words that aren't literal have the magic `glob`.
    globs: bool,
    /// `GIT_NOGLOB_PATHSPECS`: words without `glob` are literal.
    never_globs: bool,
    /// `GIT_ICASE_PATHSPECS`: words have the magic `icase`.
    folds_case: bool,
}

impl Usual {
    /// Reads the environment.
    ///
    /// # Errors
    /// A variable is no boolean, or two exclude each other.
    fn of<R: AllocGlobal + Env>(rt: &R) -> Result<Usual, Refused> {
        let usual = Usual {
            is_literal: is_set(rt, "GIT_LITERAL_PATHSPECS")?,
            globs: is_set(rt, "GIT_GLOB_PATHSPECS")?,
            never_globs: is_set(rt, "GIT_NOGLOB_PATHSPECS")?,
            folds_case: is_set(rt, "GIT_ICASE_PATHSPECS")?,
        };
        if usual.globs && usual.never_globs {
            return Err(Refused::Pathspecs {
                reason: "GIT_GLOB_PATHSPECS and GIT_NOGLOB_PATHSPECS exclude each other",
            });
        }
        if usual.is_literal && (usual.globs || usual.folds_case) {
            return Err(Refused::Pathspecs {
                reason: "GIT_LITERAL_PATHSPECS excludes GIT_GLOB_PATHSPECS and GIT_ICASE_PATHSPECS",
            });
        }
        Ok(usual)
    }

    /// Returns the magic of a word that has this magic itself.
    fn and(self, own: Magic) -> Magic {
        let glob = own.glob || self.globs && !own.literal;
        Magic {
            glob,
            literal: own.literal || self.never_globs && !glob,
            icase: own.icase || self.folds_case,
            ..own
        }
    }
}

/// Returns what a word selects.
///
/// # Errors
/// Those of [`selected_by`] of a word.
fn selected_of<'a>(
    alloc: Global,
    repository: &Repository,
    usual: Usual,
    word: &'a str,
) -> Result<Selected<'a>, Refused> {
    if word.is_empty() {
        return Err(Refused::EmptyPath);
    }
    let refused = |why| Refused::path(alloc, word, why);
    let (own, rest) = if usual.is_literal {
        let literal = Magic {
            literal: true,
            ..Magic::default()
        };
        (literal, word)
    } else {
        split_magic(word).map_err(refused)?
    };
    let magic = usual.and(own);
    if magic.glob && magic.literal {
        return Err(refused(PathRefusal::Incompatible));
    }
    let (text, kept) = if magic.top {
        (String::from_str(alloc, rest)?, 0)
    } else {
        text_from_top(alloc, repository, word, rest)?
    };
    if magic.top && (rest.starts_with("/") || rest.contains("//")) {
        return Err(refused(PathRefusal::Slashes));
    }
    let selected = Selected {
        word,
        magic,
        text,
        kept,
    };
    check_pattern(&selected).map_err(refused)?;
    Ok(selected)
}

/// Returns the magic words of a word, and its text.
///
/// # Errors
/// The magic isn't supported.
fn split_magic(word: &str) -> Result<(Magic, &str), PathRefusal> {
    match magic_of(word.as_bytes()) {
        Ok((magic, rest)) => match str::from_utf8(rest) {
            Ok(rest) => Ok((magic, rest)),
            Err(_) => Err(PathRefusal::Magic),
        },
        Err(MagicFault::Unknown) => Err(PathRefusal::Magic),
        Err(MagicFault::Unclosed) => Err(PathRefusal::Unclosed),
    }
}

/// Checks that what a word selects is compared as git does.
///
/// # Errors
/// A pattern isn't supported.
fn check_pattern(selected: &Selected<'_>) -> Result<(), PathRefusal> {
    if selected.magic.literal {
        return Ok(());
    }
    let text = selected.text.as_bytes();
    let front = literal_len(text).max(selected.kept);
    if front >= text.len() {
        return Ok(());
    }
    let pattern = &text[front..];
    if selected.magic.icase && pattern.iter().any(|byte| matches!(byte, b'[' | b'\\')) {
        return Err(PathRefusal::Icase);
    }
    if pattern.len() > MOST_PIECES {
        return Err(PathRefusal::Long);
    }
    Ok(())
}

/// Returns the text from the worktree's top of a path that a word names from the working folder, and how many bytes of it are
/// that folder's path.
///
/// # Errors
/// The path isn't in the worktree, or out of memory.
fn text_from_top(
    alloc: Global,
    repository: &Repository,
    word: &str,
    path: &str,
) -> Result<(String, usize), Refused> {
    let refused = || Refused::path(alloc, word, PathRefusal::Outside);
    let mut text = String::new(alloc);
    let mut kept = 0;
    let components = if path.starts_with("/") {
        let top = repository.top.as_str().trim_end_matches("/");
        below_top(top, path).ok_or_else(refused)?
    } else {
        let prefix = repository.prefix.as_str();
        text.push_str(prefix.trim_end_matches("/"))?;
        kept = prefix.len();
        path
    };
    for component in components.split("/") {
        if !push_name(alloc, &mut text, component)? {
            return Err(refused());
        }
        kept = kept.min(folder_len(text.as_str()));
    }
    if is_folder_path(components) && !text.is_empty() {
        text.push_str("/")?;
    }
    Ok((text, kept))
}

/// Returns the length of a folder's path with a slash at its end. That of the worktree's top is empty.
fn folder_len(path: &str) -> usize {
    if path.is_empty() { 0 } else { path.len() + 1 }
}

/// Returns the rest of an absolute path of the worktree, or `None` if it isn't one.
fn below_top<'a>(top: &str, path: &'a str) -> Option<&'a str> {
    match path.strip_prefix(top)? {
        "" => Some(""),
        rest if rest.starts_with("/") => Some(rest),
        _ => None,
    }
}
