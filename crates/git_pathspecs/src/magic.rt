//! The magic words of a pathspec, before its text: `:(top,icase)`, `:!`.

ghost use Rattle.std.specs.Prelude.{◌≡◌};
ghost use Rattle.git_pathspecs.specs.Words.{is_reserved, listed, magic_of, no_magic, result_map, signs_of, with_word, with_words, words_of};

use git_patterns::text::{first_at, is_word};

/// The magic words of an element of a pathspec.
#[derive(Clone, Copy, Debug, Default, PartialEq, Eq)]
pub struct Magic {
    /// `top`: the text begins at the worktree's top, and not at the working folder.
    pub top: bool,
    /// `exclude`: what the element chooses isn't selected.
    pub excludes: bool,
    /// `glob`: wildcards don't match slashes, and `**/` matches folders.
    pub glob: bool,
    /// `literal`: there are no wildcards.
    pub literal: bool,
    /// `icase`: letters match without regard to their case.
    pub icase: bool,
}

/// Why the magic words of an element aren't read.
#[derive(Clone, Copy, Debug, PartialEq, Eq)]
pub enum MagicFault {
    /// A word or sign isn't known, or isn't supported.
    Unknown,
    /// A list of words has no `)`.
    Unclosed,
}

/// Returns the magic words of an element, and its text.
///
/// # Errors
/// A word isn't known or isn't supported, or a list of words has no end.
pub fn magic_of(word: &[u8]) -> Result<(Magic, &[u8]), MagicFault>
    ensures { result_map (λ x. (x.0, x.1.now)) result ≡ magic_of word.now }
{
    match word {
        [b':', b'(', words @ ..] => listed(words),
        [b':', signs @ ..] => signs_of(signs),
        _ => Ok((Magic::default(), word)),
    }
}

/// Returns the magic of the signs that come first, such as `/` and `!`, and the text after them. A colon may end them.
///
/// # Errors
/// A sign isn't known.
fn signs_of(signs: &[u8]) -> Result<(Magic, &[u8]), MagicFault>
    ensures { result_map (λ x. (x.0, x.1.now)) result ≡ signs_of no_magic signs.now }
{
    let mut magic = Magic::default();
    let mut rest = signs;
    'signs: while let [sign, after @ ..] = rest {
        match *sign {
            b'/' => magic.top = true,
            b'!' | b'^' => magic.excludes = true,
            b':' => return Ok((magic, after)),
            other if is_reserved(other) => return Err(MagicFault::Unknown),
            _ => return Ok((magic, rest)),
        }
        rest = after;
    }
    Ok((magic, rest))
}

/// Returns whether git keeps a sign for other magic.
fn is_reserved(sign: u8) -> bool
    ensures { result ≡ is_reserved sign }
{
    b"\"#%&',-;<=>@_`~".iter().any(|it| *it == sign)
}

/// Returns the magic of a list of words, and the text after its `)`.
///
/// # Errors
/// A word isn't known or isn't supported, or there is no `)`.
fn listed(words: &[u8]) -> Result<(Magic, &[u8]), MagicFault>
    ensures { result_map (λ x. (x.0, x.1.now)) result ≡ listed words.now }
{
    let Some(end) = first_at(b')', words) else {
        return Err(MagicFault::Unclosed);
    };
    let magic = magic_of_words(&words[..end])?;
    Ok((magic, &words[end + 1..]))
}

/// Returns the magic of words with commas between them.
///
/// # Errors
/// A word isn't known or isn't supported.
fn magic_of_words(words: &[u8]) -> Result<Magic, MagicFault>
    ensures { result ≡ with_words no_magic (words_of words.now) }
{
    let mut magic = Magic::default();
    let mut rest = words;
    'words: while let Some(at) = first_at(b',', rest) {
        magic = with_word(magic, &rest[..at])?;
        rest = &rest[at + 1..];
    }
    with_word(magic, rest)
}

/// Returns the magic with a word more. Nothing between two commas is no word.
///
/// # Errors
/// The word isn't known or isn't supported.
fn with_word(magic: Magic, word: &[u8]) -> Result<Magic, MagicFault>
    ensures { result ≡ with_word magic word.now }
{
    if word.is_empty() {
        Ok(magic)
    } else if is_word(word, b"top") {
        Ok(Magic { top: true, ..magic })
    } else if is_word(word, b"exclude") {
        Ok(Magic {
            excludes: true,
            ..magic
        })
    } else if is_word(word, b"glob") {
        Ok(Magic {
            glob: true,
            ..magic
        })
    } else if is_word(word, b"literal") {
        Ok(Magic {
            literal: true,
            ..magic
        })
    } else if is_word(word, b"icase") {
        Ok(Magic {
            icase: true,
            ..magic
        })
    } else {
        Err(MagicFault::Unknown)
    }
}
