//! The index of a pack: from ids to offsets.

use crate::fault::ObjectFault;
use crate::position::{read_exact, u32_at};
use crate::split::id_len;
use status_index::{HashKind, ObjectId};
use std::os::unix::fs::FileExt;

/// The first bytes of an index of version 2.
const SIGNATURE: [u8; 8] = [0xff, 0x74, 0x4f, 0x63, 0, 0, 0, 2];

/// The number of bytes of the table of first bytes.
const FAN_LEN: usize = 1024;

/// The number of bytes before the ids.
const NAMES_AT: u64 = 8 + FAN_LEN as u64;

/// The bit of an offset that says that it is the position of an offset of eight bytes.
const IS_LARGE: u64 = 1 << 31;

/// The most steps of a search: one for each bit of a number of objects, and one more.
const STEPS: u32 = 33;

/// The index of a pack, version 2. Its ids are read by their positions.
#[derive(Drop)]
pub(crate) struct PackIndex<F> {
    file: F,
    hash: HashKind,
    /// For each first byte, how many ids begin with it or with a smaller one.
    fan: [u8; FAN_LEN],
}

impl<F: FileExt + Drop> PackIndex<F> {
    /// Returns the index in a file.
    ///
    /// # Errors
    /// Returns `BrokenPackIndex` if the file isn't an index of version 2, and otherwise the system's error.
    pub(crate) fn open(file: F, hash: HashKind) -> Result<PackIndex<F>, ObjectFault> {
        let mut signature = [0u8; 8];
        read_exact(&file, &mut signature, 0, ObjectFault::BrokenPackIndex)?;
        if signature != SIGNATURE {
            return Err(ObjectFault::BrokenPackIndex);
        }
        let mut fan = [0u8; FAN_LEN];
        read_exact(
            &file,
            &mut fan,
            SIGNATURE.len() as u64,
            ObjectFault::BrokenPackIndex,
        )?;
        Ok(PackIndex { file, hash, fan })
    }

    /// Returns how many ids begin with a byte of at most this value.
    fn count_to(&self, first: usize) -> u64 {
        u32_at(&self.fan, first.saturating_mul(4))
    }

    /// Returns the offset of an object in the pack. None if the pack doesn't have it.
    ///
    /// # Errors
    /// The index is damaged, or the system's error.
    pub(crate) fn find(&self, id: ObjectId) -> Result<Option<u64>, ObjectFault> {
        let first = usize::from(id.as_bytes().first().copied().unwrap_or(0));
        let mut low = match first {
            0 => 0,
            _ => self.count_to(first.saturating_sub(1)),
        };
        let mut high = self.count_to(first);
        for _ in 0..STEPS {
            if low >= high {
                return Ok(None);
            }
            let middle = low + (high - low) / 2;
            let found = self.id_at(middle)?;
            if found == id {
                return Ok(Some(self.offset_at(middle)?));
            }
            if found < id {
                low = middle + 1;
            } else {
                high = middle;
            }
        }
        Err(ObjectFault::BrokenPackIndex)
    }

    /// Returns the id at a position in the order of ids.
    fn id_at(&self, place: u64) -> Result<ObjectId, ObjectFault> {
        match self.hash {
            HashKind::Sha1 => {
                let mut digest = [0u8; 20];
                self.fill(&mut digest, place.saturating_mul(20))?;
                Ok(ObjectId::Sha1(digest))
            }
            HashKind::Sha256 => {
                let mut digest = [0u8; 32];
                self.fill(&mut digest, place.saturating_mul(32))?;
                Ok(ObjectId::Sha256(digest))
            }
        }
    }

    /// Returns the offset of the object at a position in the order of ids. Ids, checksums of four bytes, offsets of four
    /// bytes and those of eight follow each other.
    fn offset_at(&self, place: u64) -> Result<u64, ObjectFault> {
        let count = self.count_to(255);
        let id_len = id_len(self.hash) as u64;
        let offsets = count.saturating_mul(id_len.saturating_add(4));
        let mut bytes = [0u8; 4];
        self.fill(&mut bytes, offsets.saturating_add(place.saturating_mul(4)))?;
        let offset = u64::from(u32::from_be_bytes(bytes));
        if offset < IS_LARGE {
            return Ok(offset);
        }
        let large_offsets = count.saturating_mul(id_len.saturating_add(8));
        let large_place = offset - IS_LARGE;
        let mut bytes = [0u8; 8];
        self.fill(
            &mut bytes,
            large_offsets.saturating_add(large_place.saturating_mul(8)),
        )?;
        Ok(u64::from_be_bytes(bytes))
    }

    /// Fills a buffer with the bytes that are so many after the table of first bytes.
    fn fill(&self, buffer: &mut [u8], after: u64) -> Result<(), ObjectFault> {
        let at = after.saturating_add(NAMES_AT);
        read_exact(&self.file, buffer, at, ObjectFault::BrokenPackIndex)
    }
}
