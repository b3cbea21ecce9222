//! A worktree's file as git would store it, to be read in parts.

ghost use Rattle.std.specs.Prelude.{◌≡◌, ◌-◌, ◌<◌, ◌≤◌, [], ◌++◌, length, take, Option, None, Some, IfSome, true, OnOk, IfErr, option_map};
ghost use Rattle.std.specs.Io.{ReadsAtMost};
ghost use Rattle.std.specs.Io.KnownBytes.{ReadConsumes};
ghost use Rattle.std.specs.IoError.{error_kind};
ghost use Rattle.status_index.specs.Content.{CountsRead};
ghost use Rattle.status_index.specs.Given.{IsAllGiven, IsKnownOrCut};
ghost use Rattle.status_index.specs.ReadAll.{ReadsAll};
ghost use Rattle.status_compare.specs.FaultKinds.{kind_of, known_bytes, IsKindOf};
ghost use Rattle.status_compare.specs.StreamCounts.{count_after, counted_with, count_reported};
ghost use Rattle.status_compare.specs.Streams.{stream_gives, stream_left, stream_taken, outcome_buffer};

use status_base::worktree::{Fault, ReadBytes, ToGitOutcome};
use status_index::read_all;
use std::io;

/// A worktree's file as git would store it, to be read in parts, or as a slice if it is in memory.
#[derive(Drop)]
pub struct Stream<'a, F> {
    pub(crate) source: ToGitOutcome<'a, F>,
    pub(crate) size: Option<u64>,
    pub(crate) counts: bool,
    pub(crate) counted: u64,
}

impl<'a, F> Stream<'a, F> {
    /// Makes a stream that counts its bytes, for a caller's own reader. `size` is the number of bytes to be read, if it
    /// is known before.
    pub fn new(source: ToGitOutcome<'a, F>, size: Option<u64>) -> Stream<'a, F>
        ensures source { result.source ≡ source.entry }
        ensures size { result.size ≡ size }
        ensures taken { stream_taken result ≡ Some 0 }
    {
        Stream {
            source,
            size,
            counts: true,
            counted: 0,
        }
    }

    /// Returns the rest of a buffer in memory as a whole, or `None` for a file. The stream doesn't advance, and counts
    /// the buffer's bytes at each call.
    pub fn as_bytes(&mut self) -> Option<&'a [u8]>
        ensures bytes { option_map (λ b. b.now) result ≡ outcome_buffer self.old.source }
        ensures same_source { self.new.source ≡ self.old.source }
        ensures same_size { self.new.size ≡ self.old.size }
        ensures same_counts { self.new.counts ≡ self.old.counts }
        ensures counted { self.new.counted ≡ counted_with self.old (outcome_buffer self.old.source) }
    {
        let ToGitOutcome::Buffer(bytes) = &self.source else {
            return None;
        };
        let bytes: &'a [u8] = bytes;
        self.count(bytes.len());
        Some(bytes)
    }

    /// Returns the number of bytes to be read, if it was known before.
    pub fn size(&self) -> Option<u64>
        ensures { result ≡ self.now.size }
    {
        self.size
    }

    /// Returns the number of bytes that the stream counted, or 0 if it doesn't count.
    pub fn bytes(&self) -> u64
        ensures { result ≡ count_reported self.now }
    {
        if self.counts { self.counted } else { 0 }
    }

    // Counts bytes that were returned, if the stream counts.
    fn count(&mut self, count: usize)
        ensures { self.new ≡ record self.old { counted = count_after self.old.counts self.old.counted count } }
    {
        if self.counts {
            self.counted = self.counted.saturating_add(count as u64);
        }
    }
}

// Moves bytes from the front of `bytes` to the front of `buffer`, as many as both have, and returns their number.
fn take_front(bytes: &mut &[u8], buffer: &mut [u8]) -> usize
    ensures fits { result ≤ length buffer.new }
    ensures taken { bytes.old.now ≡ take result buffer.new ++ bytes.new.now }
    ensures end { result ≡ 0 → 0 < length buffer.new → bytes.old.now ≡ [] }
{
    let all: &[u8] = *bytes;
    let count = all.len().min(buffer.len());
    let (front, back) = all.split_at(count);
    buffer[..count].copy_from_slice(front);
    *bytes = back;
    count
}

impl<'a, F: ReadBytes> ReadBytes for Stream<'a, F> {
    ghost use Rattle.status_compare.specs.ReadLaws.{outcome_may_fail};

    ghost left = { λ s. stream_left F.left s };

    ghost taken = { λ s. stream_taken s };

    ghost may_give = { λ s. stream_gives F.may_give s };

    ghost give_may_fail = { λ s. outcome_may_fail F.may_give F.give_may_fail s.source };

    fn read_bytes(&mut self, buffer: &mut [u8]) -> Result<usize, Fault> {
        let count = match &mut self.source {
            ToGitOutcome::Unchanged(file) => file.read_bytes(buffer)?,
            ToGitOutcome::Buffer(bytes) => take_front(bytes, buffer),
        };
        self.count(count);
        Ok(count)
    }
}

impl<'a, F: ReadBytes> Stream<'a, F> {
    // Appends all bytes that are left to `into`, and counts them. A fault is the file's, or `Memory`. The bytes before
    // it stay appended, and aren't counted.
    pub(crate) fn read_rest(&mut self, into: &mut Vec<u8>) -> Result<(), Fault>
        ensures all { ReadsAll (stream_left F.left self.old) (stream_left F.left self.new) into.old.items into.new.items result }
        ensures same_counts { self.new.counts ≡ self.old.counts }
        ensures counted { OnOk result (self.new.counted ≡ count_after self.old.counts self.old.counted (length into.new.items - length into.old.items)) }
        ensures seen { IsAllGiven (stream_gives F.may_give self.old) into.old.items into.new.items result }
    {
        let before = into.len();
        match &mut self.source {
            ToGitOutcome::Unchanged(file) => read_all(file, into)?,
            ToGitOutcome::Buffer(bytes) => {
                into.extend_from_slice(bytes)?;
                *bytes = &[];
            }
        }
        self.count(into.len() - before);
        Ok(())
    }
}

// Returns the kind of error that std's readers report for a fault.
fn kind_of(fault: Fault) -> io::ErrorKind
    ensures { result ≡ kind_of fault }
{
    match fault {
        Fault::NotFound => io::ErrorKind::NotFound,
        Fault::NotADirectory => io::ErrorKind::NotADirectory,
        Fault::PermissionDenied => io::ErrorKind::PermissionDenied,
        Fault::Interrupted => io::ErrorKind::Interrupted,
        Fault::IllformedUtf8 | Fault::NotNormal => io::ErrorKind::InvalidData,
        Fault::UnexpectedEnd => io::ErrorKind::UnexpectedEof,
        Fault::Memory => io::ErrorKind::OutOfMemory,
        Fault::Other(_) => io::ErrorKind::Other,
    }
}

impl<'a, F: ReadBytes> io::Read for Stream<'a, F> {
    ghost remaining = { λ s. known_bytes (stream_left F.left s) };

    fn read(&mut self, buffer: &mut [u8]) -> io::Result<usize>
        ensures bound { ReadsAtMost result buffer.new }
        ensures bytes { ReadConsumes (known_bytes (stream_left F.left self.old)) (known_bytes (stream_left F.left self.new)) result buffer.new }
        ensures kind { IfErr result (λ e. IfSome (stream_left F.left self.old) (λ l. IsKindOf l (error_kind e))) }
        ensures counted { CountsRead (stream_taken self.old) (stream_taken self.new) result }
    {
        match self.read_bytes(buffer) {
            Ok(count) => Ok(count),
            Err(fault) => Err(io::Error::from(kind_of(fault))),
        }
    }
}
