//! Texts: whether one is a word, what comes first and last, the position of a byte, and the names of a path.

ghost use Rattle.std.specs.Prelude.{◌≡◌, option_map};
ghost use Rattle.std.specs.Str.{bytes_eq};
ghost use Rattle.git_patterns.specs.Text.{before, begins_with, below, ends_in_slash, first_at, has_slash, name_of, without_cr, without_mark, without_slash};

/// Returns whether a text is this word.
pub fn is_word(text: &[u8], word: &[u8]) -> bool
    ensures { result ≡ bytes_eq text.now word.now }
{
    text == word
}

/// Returns whether a byte comes first.
pub fn begins_with(byte: u8, text: &[u8]) -> bool
    ensures { result ≡ begins_with byte text.now }
{
    match text {
        [first, ..] => *first == byte,
        [] => false,
    }
}

/// Returns the position of the first of these bytes.
pub fn first_at(byte: u8, text: &[u8]) -> Option<usize>
    ensures { result ≡ first_at byte text.now }
{
    text.iter().position(|it| *it == byte)
}

/// Returns what comes before the first of these bytes, or the whole text if it has none.
pub fn before(byte: u8, text: &[u8]) -> &[u8]
    ensures { result.now ≡ before byte text.now }
{
    match first_at(byte, text) {
        Some(at) => &text[..at],
        None => text,
    }
}

/// Returns a file's bytes without a byte order mark that comes first.
pub fn without_mark(bytes: &[u8]) -> &[u8]
    ensures { result.now ≡ without_mark bytes.now }
{
    match bytes {
        [0xEF, 0xBB, 0xBF, rest @ ..] => rest,
        _ => bytes,
    }
}

/// Returns a line without a CR that ends it.
pub fn without_cr(line: &[u8]) -> &[u8]
    ensures { result.now ≡ without_cr line.now }
{
    if !line.is_empty() && line[line.len() - 1] == b'\r' {
        &line[..line.len() - 1]
    } else {
        line
    }
}

/// Returns whether a text has a slash.
pub fn has_slash(text: &[u8]) -> bool
    ensures { result ≡ has_slash text.now }
{
    text.iter().any(|byte| *byte == b'/')
}

/// Returns whether a text ends in a slash.
pub fn ends_in_slash(text: &[u8]) -> bool
    ensures { result ≡ ends_in_slash text.now }
{
    !text.is_empty() && text[text.len() - 1] == b'/'
}

/// Returns a text without a slash that comes first.
pub fn without_slash(text: &[u8]) -> &[u8]
    ensures { result.now ≡ without_slash text.now }
{
    match text {
        [b'/', rest @ ..] => rest,
        _ => text,
    }
}

/// Returns the last name of a path: the text after its last slash.
pub fn name_of(path: &[u8]) -> &[u8]
    ensures { result.now ≡ name_of path.now }
{
    let mut name = path;
    let mut rest = path;
    'bytes: while let [byte, after @ ..] = rest {
        if *byte == b'/' {
            name = after;
        }
        rest = after;
    }
    name
}

/// Returns the path after a folder's, if a path begins with that.
pub fn below<'p>(folder: &[u8], path: &'p [u8]) -> Option<&'p [u8]>
    ensures { option_map (λ rest. rest.now) result ≡ below folder.now path.now }
{
    path.strip_prefix(folder)
}
