//! The file and the blob that a comparer may read, and the counts of what it read.

ghost use Rattle.std.specs.Prelude.{◌≡◌, ℕ, List, Option, Result, Err, IfSome, IfOk, OnOk, OnErr, length};
ghost use Rattle.status_compare.specs.declared.error.Error.{Error as StatusError};
ghost use Rattle.status_compare.specs.declared.error.Error.TheVariants.{Memory};
ghost use Rattle.status_compare.specs.Reading.{Reading, Readings, IsReading, counts_at_stream, fails};
ghost use Rattle.status_compare.specs.Seen.{IsBlobSeen, IsStreamSeen, ReadsWithin};
ghost use Rattle.status_compare.specs.Reads.{with_bytes, with_object, no_reads, plus_reads, with_file};
ghost use Rattle.status_compare.specs.declared.read_data.Reads.{Reads};
ghost use Rattle.status_compare.specs.Blobs.{IsBlob};

use crate::error::Error;
use crate::stream::Stream;
use status_base::worktree::ReadBytes;

/// Reads the file and the blob of one entry for a comparer, the file as git would store it. Nothing is read before the
/// method for it is called.
pub trait ReadData {
    /// The file that a stream reads.
    type File: ReadBytes;

    /// The file and the blob that can be read. `None` for a reader that isn't modelled.
    ghost readings: { Self → Option Readings };

    /// Which readings of the file may be had, whether the reader is modelled or not.
    ghost may_stream: { Self → Reading → Type 0 };

    /// Which blobs may be had, and which errors reading the blob may have.
    ghost may_blob: { Self → Result (List ℕ) StatusError → Type 0 };

    /// The counts of reads so far.
    ghost counts: { Self → Reads };

    /// Reads the entry's blob into `buffer`, and returns its bytes.
    ///
    /// # Errors
    /// `Find` if there is no such blob, or out of memory. An error counts nothing.
    fn read_blob<'a>(&mut self, buffer: &'a mut Vec<u8>) -> Result<&'a [u8], Error>
        ensures blob { IfSome (readings self.old) (λ m. IsBlob m.blob result) }
        ensures seen { IsBlobSeen (may_blob self.old) result }
        ensures within { ReadsWithin (may_stream self.old) (may_stream self.new) (may_blob self.old) (may_blob self.new) }
        ensures same_readings { readings self.new ≡ readings self.old }
        ensures counts { IfOk result (λ b. counts self.new ≡ with_object (counts self.old) (length b.now)) }
        ensures uncounted { OnErr result (counts self.new ≡ counts self.old) };

    /// Returns the worktree's file as git would store it, or a link's target. A link's target and a converted file are
    /// in `buffer`.
    ///
    /// # Errors
    /// A fault of the worktree or of the filter, or out of memory. An error counts nothing.
    fn stream_worktree_file<'a>(
        &mut self,
        buffer: &'a mut Vec<u8>,
    ) -> Result<Stream<'a, Self::File>, Error>
        ensures stream { IfSome (readings self.old) (λ m. IsReading Self.File.left m.file result) }
        ensures seen { IsStreamSeen Self.File.may_give (may_stream self.old) (counts self.old) result (counts self.new) }
        ensures within { ReadsWithin (may_stream self.old) (may_stream self.new) (may_blob self.old) (may_blob self.new) }
        ensures same_readings { readings self.new ≡ readings self.old }
        ensures counts { OnOk result (IfSome (readings self.old) (λ m. counts self.new ≡ counts_at_stream m.file (counts self.old))) }
        ensures uncounted { OnErr result (counts self.new ≡ counts self.old) };

    /// Adds the bytes that a stream counted.
    fn counted(&mut self, bytes: u64)
        ensures same_readings { readings self.new ≡ readings self.old }
        ensures within { ReadsWithin (may_stream self.old) (may_stream self.new) (may_blob self.old) (may_blob self.new) }
        ensures counts { counts self.new ≡ with_bytes (counts self.old) bytes };

    /// Reading the file may always run out of memory.
    ghost stream_may_fail: { (reader : Self) → may_stream reader (fails Memory) };

    /// Reading the blob may always run out of memory.
    ghost blob_may_fail: { (reader : Self) → may_blob reader (Err Memory) };
}

/// Counts of reads. Each number stops at the greatest of its type.
#[derive(Clone, Copy, Debug, Default, PartialEq, Eq)]
pub struct Reads {
    /// The bytes of worktree files and links.
    pub bytes: u64,
    /// The worktree files and links.
    pub files: usize,
    /// The bytes of blobs.
    pub object_bytes: u64,
    /// The blobs.
    pub objects: usize,
}

impl Reads {
    /// Returns the counts of no reads.
    pub fn none() -> Reads
        ensures { result ≡ no_reads }
    {
        Reads {
            bytes: 0,
            files: 0,
            object_bytes: 0,
            objects: 0,
        }
    }

    /// Adds the counts of `other`.
    pub fn add(&mut self, other: &Reads)
        ensures { self.new ≡ plus_reads self.old other.now }
    {
        self.bytes = self.bytes.saturating_add(other.bytes);
        self.files = self.files.saturating_add(other.files);
        self.object_bytes = self.object_bytes.saturating_add(other.object_bytes);
        self.objects = self.objects.saturating_add(other.objects);
    }

    /// Adds bytes of a file or link.
    pub(crate) fn add_bytes(&mut self, bytes: u64)
        ensures { self.new ≡ with_bytes self.old bytes }
    {
        self.bytes = self.bytes.saturating_add(bytes);
    }

    /// Adds a file or link.
    pub(crate) fn add_file(&mut self)
        ensures { self.new ≡ with_file self.old }
    {
        self.files = self.files.saturating_add(1);
    }

    /// Adds a blob of `bytes` bytes.
    pub(crate) fn add_object(&mut self, bytes: u64)
        ensures { self.new ≡ with_object self.old bytes }
    {
        self.object_bytes = self.object_bytes.saturating_add(bytes);
        self.objects = self.objects.saturating_add(1);
    }
}
