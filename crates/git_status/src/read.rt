//! An index file that was read.

ghost use Rattle.std.specs.Prelude.{◌≡◌, IfOk, IfErr, true};
ghost use Rattle.git_status.specs.Reads.{IsRead, IsRefusedFile};

use crate::asked::Settings;
use crate::failure::Failure;
use git_index::{IndexFile, read_index, read_unchecked};
use std::alloc::Global;

/// An index file, and the bytes that it was read from.
#[derive(Drop)]
pub struct ReadIndex<'b> {
    /// The bytes.
    pub bytes: &'b [u8],
    /// The index file that they are, if they end with its checksum.
    pub file: IndexFile<'b>,
    /// Whether the checksum was compared.
    pub is_checked: bool,
}

impl<'b> ReadIndex<'b> {
    /// Reads an index file of these bytes, with the kind of ids and the timestamp of the settings.
    ///
    /// # Errors
    /// The bytes aren't an index file, or out of memory.
    pub fn of(alloc: Global, bytes: &'b [u8], settings: &Settings) -> Result<ReadIndex<'b>, Failure>
        ensures bytes { IfOk result (λ r. r.bytes.now ≡ bytes.now) }
        ensures read { IfOk result (IsRead settings.now) }
        ensures checked { IfOk result (λ r. r.is_checked ≡ true) }
        ensures refused { IfErr result (IsRefusedFile settings.now bytes.now) }
    {
        match read_index(alloc, settings.kind, bytes, settings.timestamp) {
            Ok(file) => Ok(ReadIndex {
                bytes,
                file,
                is_checked: true,
            }),
            Err(error) => Err(Failure::of_index(error)),
        }
    }

    /// Does the same, and leaves the checksum to the status, which compares it before it prints anything. If the settings allow
    /// one thread only, it is compared at once.
    ///
    /// # Errors
    /// Those of `of`, except a wrong checksum if nothing else is wrong.
    pub fn unchecked(
        alloc: Global,
        bytes: &'b [u8],
        settings: &Settings,
    ) -> Result<ReadIndex<'b>, Failure>
        ensures bytes { IfOk result (λ r. r.bytes.now ≡ bytes.now) }
        ensures read { IfOk result (IsRead settings.now) }
        ensures refused { IfErr result (IsRefusedFile settings.now bytes.now) }
    {
        if settings.options.thread_limit == Some(1) {
            return ReadIndex::of(alloc, bytes, settings);
        }
        match read_unchecked(alloc, settings.kind, bytes, settings.timestamp) {
            Ok(file) => Ok(ReadIndex {
                bytes,
                file,
                is_checked: false,
            }),
            // A wrong checksum comes before most errors.
            Err(_) => ReadIndex::of(alloc, bytes, settings),
        }
    }
}
