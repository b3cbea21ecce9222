//! The nodes that an element of a pathspec chooses.

ghost use Rattle.std.specs.Prelude.{◌≡◌, ◌||◌, IfOk, drop, take};
ghost use Rattle.git_pathspecs.specs.Elements.{IsElement, chooses, front_len, has_match, is_below, is_exact, is_long_enough, is_named, is_pattern, is_within, leads_into, may_match_below, path_of, prefix_of, reaches_to};
ghost use Rattle.git_pathspecs.specs.Names.{name_of};

use crate::magic::Magic;
use crate::name::Name;
use git_patterns::text::ends_in_slash;
use git_patterns::{Style, Wildcards, literal_len};
use std::alloc::{AllocError, Global};

/// An element of a pathspec: a path, or a pattern of paths, from the worktree's top.
#[derive(Debug, Drop)]
pub struct Element<'a> {
    /// The path or pattern.
    text: &'a [u8],
    /// The bytes of the text that match themselves alone.
    front: &'a [u8],
    /// The wildcards after them. None if there are none, or no path matches them.
    wildcards: Option<Wildcards>,
    /// In how many bytes case counts.
    cased: usize,
    /// The length of the shortest name that the element takes.
    least: usize,
    /// Whether what the element chooses isn't selected.
    excludes: bool,
}

impl<'a> Element<'a> {
    /// Returns the element of a text from the worktree's top. The first bytes of the text, so many as `kept` says, are the
    /// path of the folder from which it is named: they have no wildcards, and their case counts.
    ///
    /// # Errors
    /// Out of memory.
    pub fn of(
        alloc: Global,
        magic: Magic,
        kept: usize,
        text: &'a [u8],
    ) -> Result<Element<'a>, AllocError>
        ensures { IfOk result (IsElement magic kept text.now) }
    {
        let (front, rest) = split_front(magic, kept, text);
        let style = Style {
            parts_names: magic.glob,
            folds_case: magic.icase,
        };
        let wildcards = if rest.is_empty() {
            None
        } else {
            Wildcards::of(alloc, style, rest)?
        };
        Ok(Element {
            text,
            front,
            wildcards,
            cased: if magic.icase { kept } else { text.len() },
            least: if magic.icase { kept } else { 0 },
            excludes: magic.excludes,
        })
    }

    /// Returns the element of a path alone.
    pub fn at(path: &'a [u8]) -> Element<'a> {
        Element {
            text: path,
            front: path,
            wildcards: None,
            cased: path.len(),
            least: 0,
            excludes: false,
        }
    }

    /// Returns whether what the element chooses isn't selected.
    pub(crate) fn excludes(&self) -> bool
        ensures { result ≡ self.now.excludes }
    {
        self.excludes
    }

    /// Returns whether the element chooses a node by its name. `is_dir` is whether it is a folder's or a submodule's.
    pub(crate) fn chooses(&self, is_dir: bool, name: Name<'_>) -> bool
        ensures { result ≡ chooses self.now is_dir (name_of name.entry) }
    {
        self.is_within(is_dir, name) || self.has_match(name)
    }

    /// Returns whether a name is the element's path, or below it.
    fn is_within(&self, is_dir: bool, name: Name<'_>) -> bool
        ensures { result ≡ is_within self.now is_dir (name_of name.entry) }
    {
        if self.text.is_empty() {
            return true;
        }
        if !self.is_long_enough(name) {
            return false;
        }
        match name.after_front(self.cased, Name::of(path_of(self.text))) {
            Some(rest) => rest.is_end(is_dir || !ends_in_slash(self.text)),
            None => false,
        }
    }

    /// Returns whether a name isn't too short for the element.
    fn is_long_enough(&self, name: Name<'_>) -> bool
        ensures { result ≡ is_long_enough self.now (name_of name.entry) }
    {
        self.least <= name.len()
    }

    /// Returns whether a name begins with the element's front, and its wildcards match the rest.
    fn has_match(&self, name: Name<'_>) -> bool
        ensures { result ≡ has_match self.now (name_of name.entry) }
    {
        let Some(wildcards) = &self.wildcards else {
            return false;
        };
        match name.after_front(self.cased, Name::of(self.front)) {
            Some(rest) => wildcards.is_match(rest.path, rest.has_slash),
            None => false,
        }
    }

    /// Returns whether the element doesn't choose a folder, whose name ends in a slash, but may choose a path below it.
    pub(crate) fn leads_into(&self, folder: Name<'_>) -> bool
        ensures { result ≡ leads_into self.now (name_of folder.entry) }
    {
        !self.chooses(true, folder) && (self.is_below(folder) || self.may_match_below(folder))
    }

    /// Returns whether a node at a path, or one below it, may be chosen.
    pub(crate) fn reaches_to(&self, path: Name<'_>) -> bool
        ensures { result ≡ reaches_to self.now (name_of path.entry) }
    {
        let front = Name::of(self.front);
        path.after_front(self.cased, front).is_some()
            || front.after_front(self.cased, path).is_some()
    }

    /// Returns whether the element's path is below a folder.
    fn is_below(&self, folder: Name<'_>) -> bool
        ensures { result ≡ is_below self.now (name_of folder.entry) }
    {
        self.is_long_enough(folder)
            && Name::of(path_of(self.text))
                .after_front(self.cased, folder)
                .is_some()
    }

    /// Returns whether a path below a folder may match the element's wildcards.
    fn may_match_below(&self, folder: Name<'_>) -> bool
        ensures { result ≡ may_match_below self.now (name_of folder.entry) }
    {
        self.is_pattern()
            && folder
                .after_front(self.cased, Name::of(self.front))
                .is_some()
    }

    /// Returns whether exactly a folder is named, with a slash, or the wildcards match its name.
    pub(crate) fn is_exact(&self, folder: Name<'_>) -> bool
        ensures { result ≡ is_exact self.now (name_of folder.entry) }
    {
        self.is_folder(folder) || !self.is_within(true, folder) && self.has_match(folder)
    }

    /// Returns whether exactly a folder is named, with a slash.
    fn is_folder(&self, folder: Name<'_>) -> bool
        ensures { result ≡ is_named self.now (name_of folder.entry) }
    {
        if !ends_in_slash(self.text) {
            return false;
        }
        match folder.after_front(self.cased, Name::of(path_of(self.text))) {
            Some(rest) => rest.has_one(),
            None => false,
        }
    }

    /// Returns whether there are wildcards.
    pub fn is_pattern(&self) -> bool
        ensures { result ≡ is_pattern self.now }
    {
        self.front.len() < self.text.len()
    }

    /// Returns the bytes with which each chosen path begins.
    pub(crate) fn prefix(&self) -> &[u8]
        ensures { result.now ≡ prefix_of self.now }
    {
        let front = if self.is_pattern() {
            self.front
        } else {
            path_of(self.text)
        };
        &front[..self.cased.min(front.len())]
    }
}

/// Returns a text without a slash at its end.
fn path_of(text: &[u8]) -> &[u8]
    ensures { result.now ≡ path_of text.now }
{
    if ends_in_slash(text) {
        &text[..text.len() - 1]
    } else {
        text
    }
}

/// Returns the bytes of a text that match themselves alone, and what comes after them.
fn split_front(magic: Magic, kept: usize, text: &[u8]) -> (&[u8], &[u8])
    ensures front { result.0.now ≡ take (front_len magic kept text.now) text.now }
    ensures rest { result.1.now ≡ drop (front_len magic kept text.now) text.now }
{
    let len = front_len(magic, kept, text);
    if len < text.len() {
        text.split_at(len)
    } else {
        (text, &[])
    }
}

/// Returns how many bytes of a text match themselves alone.
fn front_len(magic: Magic, kept: usize, text: &[u8]) -> usize
    ensures { result ≡ front_len magic kept text.now }
{
    if magic.literal {
        return text.len();
    }
    let len = literal_len(text);
    if len < kept { kept } else { len }
}
