//! The objects of a pack.

use crate::cursor::Cursor;
use crate::delta::apply_delta;
use crate::fault::ObjectFault;
use crate::inflate::inflate_exact;
use crate::object::{Object, ObjectKind};
use crate::pack_index::PackIndex;
use crate::position::{read_between, read_exact};
use crate::split::{id_len, id_of_bytes};
use status_index::{HashKind, ObjectId};
use std::alloc::Global;
use std::os::unix::fs::FileExt;

/// The most deltas from which an object is made.
const CHAIN: usize = 4096;

/// How many bytes are read at first: mostly an entry's header, and all of its compressed data.
const WINDOW: usize = 4096;

/// How often more compressed data is read, each time eight times as much.
const WIDER: usize = 12;

/// The most compressed bytes that are read for an object.
const LARGEST_WINDOW: usize = 2 << 30;

/// The kind of an entry.
#[derive(Clone, Copy)]
enum EntryKind {
    /// An object of this kind.
    Whole(ObjectKind),
    /// A delta of the entry that begins so many bytes before.
    Behind(u64),
    /// A delta of an object of the same pack.
    Of(ObjectId),
}

/// The header of an entry.
#[derive(Clone, Copy)]
struct Header {
    kind: EntryKind,
    /// The number of bytes of the content, or of the delta.
    len: usize,
}

/// An entry of a pack.
#[derive(Drop)]
struct Entry {
    kind: EntryKind,
    /// The content or the delta.
    bytes: Vec<u8>,
}

/// A pack with its index.
#[derive(Drop)]
pub(crate) struct Pack<F> {
    index: PackIndex<F>,
    file: F,
    hash: HashKind,
    /// The offset of the checksum, before which the entries end.
    end: u64,
}

impl<F: FileExt + Drop> Pack<F> {
    /// Returns the pack in a file of `len` bytes, with its index.
    ///
    /// # Errors
    /// Returns `BrokenPack` if the file doesn't begin as a pack of version 2 or 3, and otherwise the system's error.
    pub(crate) fn open(
        index: PackIndex<F>,
        file: F,
        hash: HashKind,
        len: u64,
    ) -> Result<Pack<F>, ObjectFault> {
        let mut start = [0u8; 8];
        read_exact(&file, &mut start, 0, ObjectFault::BrokenPack)?;
        if !matches!(start, [b'P', b'A', b'C', b'K', 0, 0, 0, 2 | 3]) {
            return Err(ObjectFault::BrokenPack);
        }
        let end = len.saturating_sub(id_len(hash) as u64);
        Ok(Pack {
            index,
            file,
            hash,
            end,
        })
    }

    /// Returns the object of an id. Its content has at most `limit` bytes. None if the pack doesn't have it.
    ///
    /// # Errors
    /// The pack or its index is damaged, the object is too large or a chain of too many deltas, the system's error, or
    /// out of memory.
    pub(crate) fn read(
        &self,
        alloc: Global,
        id: ObjectId,
        limit: usize,
    ) -> Result<Option<Object>, ObjectFault> {
        match self.index.find(id)? {
            Some(offset) => Ok(Some(self.object_at(alloc, offset, limit)?)),
            None => Ok(None),
        }
    }

    /// Returns the object of the entry at an offset. All deltas from which it is made have at most `limit` bytes
    /// together.
    fn object_at(&self, alloc: Global, offset: u64, limit: usize) -> Result<Object, ObjectFault> {
        let mut deltas = Vec::new(alloc);
        let (mut offset, mut room) = (offset, limit);
        for _ in 0..CHAIN + 1 {
            let entry = self.entry_at(alloc, offset, room)?;
            let Entry { kind, bytes } = entry;
            room = room.saturating_sub(bytes.len());
            offset = match kind {
                EntryKind::Whole(kind) => return applied(alloc, kind, bytes, deltas, limit),
                EntryKind::Behind(distance) if distance > 0 && distance < offset => {
                    offset - distance
                }
                EntryKind::Behind(_) => return Err(ObjectFault::BrokenPack),
                EntryKind::Of(id) => match self.index.find(id)? {
                    Some(offset) => offset,
                    None => return Err(ObjectFault::BrokenPack),
                },
            };
            deltas.push(bytes)?;
        }
        Err(ObjectFault::LongChain)
    }

    /// Returns the entry at an offset. It has at most `limit` bytes.
    fn entry_at(&self, alloc: Global, offset: u64, limit: usize) -> Result<Entry, ObjectFault> {
        let window = self.window(alloc, offset, WINDOW)?;
        let mut cursor = Cursor {
            rest: window.as_slice(),
        };
        let Some(header) = header_of(self.hash, &mut cursor) else {
            return Err(ObjectFault::BrokenPack);
        };
        if header.len > limit {
            return Err(ObjectFault::TooLarge);
        }
        let start = window.len().saturating_sub(cursor.rest.len()) as u64;
        let kind = header.kind;
        let bytes = match inflate_exact(alloc, cursor.rest, header.len) {
            Err(ObjectFault::CutOff) => {
                self.long_content(alloc, offset.saturating_add(start), header.len)?
            }
            bytes => bytes?,
        };
        Ok(Entry { kind, bytes })
    }

    /// Returns the content of compressed data at an offset. It has this length.
    fn long_content(&self, alloc: Global, offset: u64, len: usize) -> Result<Vec<u8>, ObjectFault> {
        let mut room = len.saturating_add(len / 8).saturating_add(WINDOW);
        for _ in 0..WIDER {
            let window = self.window(alloc, offset, room)?;
            match inflate_exact(alloc, window.as_slice(), len) {
                Err(ObjectFault::CutOff) if window.len() >= room && room < LARGEST_WINDOW => {
                    room = room.saturating_mul(8).min(LARGEST_WINDOW);
                }
                content => return content,
            }
        }
        Err(ObjectFault::CutOff)
    }

    /// Returns at most `len` bytes from an offset on.
    fn window(&self, alloc: Global, offset: u64, len: usize) -> Result<Vec<u8>, ObjectFault> {
        read_between(
            alloc,
            &self.file,
            offset,
            self.end,
            len,
            ObjectFault::BrokenPack,
        )
    }
}

/// Returns the object that deltas make from a content, the last one first.
fn applied(
    alloc: Global,
    kind: ObjectKind,
    content: Vec<u8>,
    deltas: Vec<Vec<u8>>,
    limit: usize,
) -> Result<Object, ObjectFault> {
    let (mut bytes, mut deltas) = (content, deltas);
    while let Some(delta) = deltas.pop() {
        bytes = apply_delta(alloc, bytes.as_slice(), delta.as_slice(), limit)?;
    }
    Ok(Object { kind, bytes })
}

/// Takes the header of an entry. None if it isn't one.
fn header_of(hash: HashKind, cursor: &mut Cursor<'_>) -> Option<Header> {
    let first = cursor.byte()?;
    let len = match first < 0x80 {
        true => first & 15,
        false => cursor.number(first & 15, 4)?,
    };
    let kind = match first / 16 & 7 {
        1 => EntryKind::Whole(ObjectKind::Commit),
        2 => EntryKind::Whole(ObjectKind::Tree),
        3 => EntryKind::Whole(ObjectKind::Blob),
        4 => EntryKind::Whole(ObjectKind::Tag),
        6 => EntryKind::Behind(distance_of(cursor)?),
        7 => EntryKind::Of(id_of_bytes(hash, cursor.bytes(id_len(hash))?)?),
        _ => return None,
    };
    Some(Header { kind, len })
}

/// Takes how far before an entry its base begins. None if it isn't a number of at most nine bytes.
fn distance_of(cursor: &mut Cursor<'_>) -> Option<u64> {
    let mut distance = 0u64;
    for turn in 0..9u32 {
        let byte = cursor.byte()?;
        let more = match turn {
            0 => 0,
            _ => distance.saturating_add(1),
        };
        distance = more.saturating_mul(0x80) | (byte & 0x7f) as u64;
        if byte < 0x80 {
            return Some(distance);
        }
    }
    None
}
