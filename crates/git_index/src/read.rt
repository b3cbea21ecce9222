//! Reads a file.

ghost use Rattle.std.specs.Prelude.{◌≡◌, ◌↔◌, ◌≤◌, [], List, length, IfOk, IfErr, IsTrue, MatchResult, false, replicate};
ghost use Rattle.status_index.specs.Entries.{IndexEntry, IsIndex};
ghost use Rattle.status_index.specs.States.{index_of, timestamp_of};
ghost use Rattle.git_index.specs.RawEntry.{id_len};
ghost use Rattle.git_index.specs.File.{IsFileOf, IsIndexFile};
ghost use Rattle.git_index.specs.WholeFile.{IsUncheckedFile, IsWholeFile};
ghost use Rattle.git_index.specs.Refusals.{EndsWithChecksum, HasHeader, IsFileRefusal, IsHeaderRefusal, content_of, sum_of};
ghost use Rattle.git_index.specs.Counting.{IsEntriesError, IsExtensionError, AreEntries};

use crate::checksum::{id_len_of, is_checksum};
use crate::cursor::Cursor;
use crate::entry::PREFIXED;
use crate::extensions::{NoExtension, check_extensions};
use crate::fault::{Fault, IndexFileError};
use crate::index_file::IndexFile;
use crate::paths::push_unless_refused;
use status_index::{HashKind, Moment, ObjectId, State};
use std::alloc::{AllocError, Global};

/// The bytes of `DIRC`, as a number.
const SIGNATURE: u32 = 0x4449_5243;

/// The least number of bytes of an entry: 62 before its name, and a name of two bytes with what is around it.
const MIN_ENTRY: usize = 64;

/// The index of a file's entries, or why they are none, and the bytes after the entries.
#[derive(Drop)]
struct Entries<'a> {
    state: State,
    refused: Option<IndexFileError>,
    rest: &'a [u8],
}

/// The header of a file, after its signature.
#[derive(Clone, Copy)]
struct Header {
    version: u32,
    count: u32,
}

impl<'a> Cursor<'a> {
    ghost use Rattle.git_index.specs.EntryViews.{header_view};
    ghost use Rattle.git_index.specs.Reading.{Reads, header_at};

    /// Takes the signature, the version, and the number of entries.
    #[tactic(auto, unfolding(crate::specs::Reading::header_at))]
    fn header(&mut self) -> Result<Header, Fault>
        ensures { Reads (λ header. (header_view header, self.new.rest.now)) result (header_at self.old.rest.now) }
    {
        if self.u32()? != SIGNATURE {
            return Err(Fault::BadSignature);
        }
        let version = self.u32()?;
        if version != 2 && (version != 3 && version != PREFIXED) {
            return Err(Fault::UnknownVersion);
        }
        let count = self.u32()?;
        Ok(Header { version, count })
    }
}

/// Returns an empty index with room for so many entries, as far as these bytes can have them.
fn with_room(
    alloc: Global,
    count: u32,
    bytes: &[u8],
    timestamp: Moment,
) -> Result<State, AllocError>
    ensures index { IfOk result (λ s. index_of s ≡ []) }
    ensures timestamp { IfOk result (λ s. timestamp_of s ≡ timestamp) }
{
    let entries = (count as usize).min(bytes.len() / MIN_ENTRY);
    let path_bytes = bytes.len() - entries * MIN_ENTRY;
    State::with_capacity(alloc, entries, path_bytes, timestamp)
}

/// Reads so many entries. If one can't be in the index, the bytes of the others are still read.
fn entries_of(
    alloc: Global,
    kind: HashKind,
    version: u32,
    count: u32,
    bytes: &[u8],
    timestamp: Moment,
) -> Result<Entries<'_>, IndexFileError>
    ensures found { IfOk result (λ r. AreEntries kind version count bytes.now (index_of r.state) r.refused r.rest.now) }
    ensures timestamp { IfOk result (λ r. timestamp_of r.state ≡ timestamp) }
    ensures refused { IfErr result (IsEntriesError kind version count bytes.now) }
{
    let mut state = with_room(alloc, count, bytes, timestamp)?;
    let mut last = Vec::new(alloc);
    let mut refused = None;
    let mut cursor = Cursor { rest: bytes };
    'entries: for at in 0..count {
        let entry = match cursor.entry(kind, version) {
            Ok(entry) => entry,
            Err(fault) => return Err(IndexFileError::Entry { at, fault }),
        };
        refused = push_unless_refused(&mut state, &mut last, version, at, &entry, refused);
    }
    Ok(Entries {
        state,
        refused,
        rest: cursor.rest,
    })
}

/// Returns the error of a file whose extensions aren't read.
fn extension_error(content: &[u8], none: NoExtension<'_>) -> IndexFileError
    requires { length none.rest.now ≤ length content.now }
    ensures { IsExtensionError content.now none.entry.rest.now none.entry.fault result }
{
    match (none.fault, none.rest) {
        (Fault::Required, [a, b, c, d, ..]) => IndexFileError::Required {
            name: [*a, *b, *c, *d],
        },
        _ => IndexFileError::Extension {
            at: content.len() - none.rest.len(),
        },
    }
}

/// The parts of a file around its entries.
#[derive(Clone, Copy)]
struct Parts<'a> {
    header: Header,
    /// The bytes before the checksum.
    content: &'a [u8],
    /// The checksum.
    sum: &'a [u8],
    /// The content after the header.
    rest: &'a [u8],
}

/// Returns the parts of a file whose ids are of this kind.
///
/// # Errors
/// The file doesn't begin with a header, or is shorter than a checksum.
fn parts_of(kind: HashKind, bytes: &[u8]) -> Result<Parts<'_>, IndexFileError>
    ensures content { IfOk result (λ p. p.content.now ≡ content_of kind bytes.now) }
    ensures sum { IfOk result (λ p. p.sum.now ≡ sum_of kind bytes.now) }
    ensures header { IfOk result (λ p. HasHeader (content_of kind bytes.now) p.header.version p.header.count p.rest.now) }
    ensures refused { IfErr result (IsHeaderRefusal kind bytes.now) }
{
    let sum_len = id_len_of(kind);
    if bytes.len() < sum_len {
        return Err(IndexFileError::Header(Fault::Truncated));
    }
    let (content, sum) = bytes.split_at(bytes.len() - sum_len);
    let mut cursor = Cursor { rest: content };
    match cursor.header() {
        Ok(header) => Ok(Parts {
            header,
            content,
            sum,
            rest: cursor.rest,
        }),
        Err(fault) => Err(IndexFileError::Header(fault)),
    }
}

/// Returns whether a file ends with the checksum of its content, or with zeros in place of one, as git's `index.skipHash`
/// writes them.
pub fn ends_with_checksum(kind: HashKind, bytes: &[u8]) -> bool
    ensures { IsTrue result ↔ EndsWithChecksum kind bytes.now }
{
    let content_len = bytes.len().saturating_sub(id_len_of(kind));
    let (content, sum) = bytes.split_at(content_len);
    is_checksum(kind, content, sum)
}

/// Reads an index file, of version 2, 3 or 4, of a repository whose ids are of this kind. `timestamp` is when the file
/// was written.
///
/// # Errors
/// The first of these that applies: the file doesn't begin with a header; its checksum is wrong (zeros replace one, as
/// git's `index.skipHash` writes them); an entry's bytes are wrong; an extension is cut off, or has to be known and isn't;
/// an entry strips more than the path before it has, states another length than its path's, or can't be at its position.
/// Or memory ran out, at any time.
pub fn read_index(
    alloc: Global,
    kind: HashKind,
    bytes: &[u8],
    timestamp: Moment,
) -> Result<IndexFile<'_>, IndexFileError>
    ensures found { IfOk result (λ r. IsFileOf kind bytes.now r.version (index_of r.state) r.extensions.now) }
    ensures checked { IfOk result (λ _. EndsWithChecksum kind bytes.now) }
    ensures kind { IfOk result (λ r. r.kind ≡ kind) }
    ensures whole { IfOk result IsWholeFile }
    ensures sum { IfOk result (λ r. (r.has_checksum ≡ false) ↔ (sum_of kind bytes.now ≡ replicate (id_len kind) 0)) }
    ensures timestamp { IfOk result (λ r. timestamp_of r.state ≡ timestamp) }
    ensures only { (es : List IndexEntry) → IsIndexFile kind bytes.now es → IsIndex es
        → MatchResult result (λ r. (index_of r.state) ≡ es) (λ e. e ≡ IndexFileError.Memory) }
    ensures refused { IfErr result (IsFileRefusal kind bytes.now) }
{
    if let Err(error) = parts_of(kind, bytes) {
        return Err(error);
    }
    if !ends_with_checksum(kind, bytes) {
        return Err(IndexFileError::Checksum);
    }
    read_unchecked(alloc, kind, bytes, timestamp)
}

/// Does what `read_index` does, without comparing the checksum, which the caller does by `ends_with_checksum`.
///
/// # Errors
/// Those of `read_index`, except a wrong checksum.
pub fn read_unchecked(
    alloc: Global,
    kind: HashKind,
    bytes: &[u8],
    timestamp: Moment,
) -> Result<IndexFile<'_>, IndexFileError>
    ensures found { IfOk result (IsUncheckedFile kind bytes.now timestamp) }
    ensures refused { EndsWithChecksum kind bytes.now → IfErr result (IsFileRefusal kind bytes.now) }
{
    let Parts {
        header,
        content,
        sum,
        rest,
    } = parts_of(kind, bytes)?;
    let Header { version, count } = header;
    let Entries {
        state,
        refused,
        rest,
    } = entries_of(alloc, kind, version, count, rest, timestamp)?;
    if let Err(none) = check_extensions(rest) {
        return Err(extension_error(content, none));
    }
    match refused {
        Some(error) => Err(error),
        None => Ok(IndexFile {
            kind,
            version,
            state,
            extensions: rest,
            has_checksum: sum != ObjectId::null(kind).as_bytes(),
        }),
    }
}
