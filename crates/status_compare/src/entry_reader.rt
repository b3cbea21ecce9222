//! Reading one entry's file and blob.

ghost use Rattle.std.specs.Prelude.{◌≡◌, false, true, IsTrue, OnOk, OnErr};
ghost use Rattle.bstr.specs.BStr.{bstr_bytes};
ghost use Rattle.status_base.specs.Looked.{IsLookedAt, kind_read};
ghost use Rattle.status_compare.specs.EntryReadings.{entry_readings, if_modelled};
ghost use Rattle.status_compare.specs.Reads.{with_file};
ghost use Rattle.status_compare.specs.Reading.{IsReading, target_reading, file_at, counts_at_stream};
ghost use Rattle.status_compare.specs.Seen.{IsBlobReading, IsFileReading, IsStreamSeen};

use crate::error::Error;
use crate::read_data::{ReadData, Reads};
use crate::stream::Stream;
use bstr::BStr;
use status_base::worktree::{Find, Guard, Metadata, ToGit, ToGitOutcome};
use status_index::ObjectId;

/// Reads one entry's file, as git would store it, and its blob. Whoever makes a reader owes that the node was
/// met at the path, and that it is a file, or a link if its target is read.
#[derive(Drop)]
pub struct EntryReader<'r, G: Guard, T, O> {
    /// The worktree that has the file.
    pub worktree: &'r G,
    /// The filter that converts the file to what git would store.
    pub filter: &'r T,
    /// The object database that has the blob.
    pub objects: &'r O,
    /// The blob's id.
    pub id: ObjectId,
    /// The file's path.
    pub path: BStr<'r>,
    /// Whether the target of a link is read instead of a file.
    pub is_link: bool,
    /// The node that was met at the path.
    pub node: Metadata,
    /// The counts of reads so far, at first [`Reads::none`].
    pub reads: Reads,
    pub ghost looked: { IsLookedAt (G.may_stat worktree.now) (G.listed worktree.now) (bstr_bytes path) node (kind_read is_link) },
}

impl<'r, G: Guard, T: ToGit, O: Find> EntryReader<'r, G, T, O> {
    // Reads the link's target into `buffer`, and counts it at once. The stream doesn't count it again.
    fn stream_target<'a>(&mut self, buffer: &'a mut Vec<u8>) -> Result<Stream<'a, G::File>, Error>
        requires link { self.old.is_link ≡ true }
        ensures stream { let r = self.old in IsTrue (G.modelled r.worktree.now)
            → IsReading G.File.left (target_reading (G.target_of r.worktree.now (bstr_bytes r.path))) result }
        ensures seen { let r = self.old in let path = bstr_bytes r.path in
            IsStreamSeen G.File.may_give
            (IsFileReading (G.may_open r.worktree.now path r.node) (G.may_link r.worktree.now path r.node) true (λ c. T.conversion r.filter.now c path) r.node.len)
            r.reads result self.new.reads }
        ensures same { self.new ≡ record self.old { reads = self.new.reads } }
        ensures counts { let r = self.old in OnOk result (IsTrue (G.modelled r.worktree.now)
            → self.new.reads ≡ counts_at_stream (target_reading (G.target_of r.worktree.now (bstr_bytes r.path))) r.reads) }
        ensures uncounted { OnErr result (self.new.reads ≡ self.old.reads) }
    {
        self.worktree.read_link(self.path, &self.node, buffer)?;
        self.reads.add_bytes(buffer.len() as u64);
        self.reads.add_file();
        Ok(Stream {
            source: ToGitOutcome::Buffer(buffer.as_slice()),
            size: None,
            counts: false,
            counted: 0,
        })
    }

    // Opens and converts the file. The stream's size is the file's length if the filter keeps the file unchanged.
    fn stream_file<'a>(&mut self, buffer: &'a mut Vec<u8>) -> Result<Stream<'a, G::File>, Error>
        requires file { self.old.is_link ≡ false }
        ensures stream { let r = self.old in IsTrue (G.modelled r.worktree.now) → IsReading G.File.left
            (file_at (T.conversion r.filter.now) (G.open_of r.worktree.now) r.node.len (bstr_bytes r.path)) result }
        ensures seen { let r = self.old in let path = bstr_bytes r.path in
            IsStreamSeen G.File.may_give
            (IsFileReading (G.may_open r.worktree.now path r.node) (G.may_link r.worktree.now path r.node) false (λ c. T.conversion r.filter.now c path) r.node.len)
            r.reads result self.new.reads }
        ensures same { self.new ≡ record self.old { reads = self.new.reads } }
        ensures counts { OnOk result (self.new.reads ≡ with_file (self.old.reads)) }
        ensures uncounted { OnErr result (self.new.reads ≡ self.old.reads) }
    {
        let file = self.worktree.open(self.path, &self.node)?;
        let source = self.filter.convert(file, self.path, buffer)?;
        let size = match source {
            ToGitOutcome::Unchanged(_) => Some(self.node.len),
            ToGitOutcome::Buffer(_) => None,
        };
        self.reads.add_file();
        Ok(Stream::new(source, size))
    }
}

impl<'r, G: Guard, T: ToGit, O: Find> ReadData for EntryReader<'r, G, T, O> {
    ghost use Rattle.std.specs.Prelude.{Err, refl};
    ghost use Rattle.status_base.specs.declared.worktree.objects.FindError.TheVariants as finds;
    ghost use Rattle.status_compare.specs.ReadLaws.{file_may_fail};

    type File = G::File;

    ghost readings = { λ r. if_modelled (G.modelled r.worktree.now) (O.modelled r.objects.now)
        (entry_readings r.is_link (λ c. T.conversion r.filter.now c (bstr_bytes r.path)) r.node.len
        (G.open_of r.worktree.now (bstr_bytes r.path))
        (G.target_of r.worktree.now (bstr_bytes r.path))
        (O.found r.objects.now r.id)) };

    ghost may_stream = { λ r. IsFileReading (G.may_open r.worktree.now (bstr_bytes r.path) r.node) (G.may_link r.worktree.now (bstr_bytes r.path) r.node) r.is_link
        (λ c. T.conversion r.filter.now c (bstr_bytes r.path)) r.node.len };

    ghost may_blob = { λ r. IsBlobReading (O.may_find r.objects.now r.id) };

    ghost counts = { λ r. r.reads };

    ghost stream_may_fail = { λ r. file_may_fail r.is_link (G.open_may_fail r.worktree.now (bstr_bytes r.path) r.node) (G.link_may_fail r.worktree.now (bstr_bytes r.path) r.node) };

    ghost blob_may_fail = { λ r. record { found = Err finds.Memory; may_find = O.find_may_fail r.objects.now r.id; is = refl } };

    fn read_blob<'a>(&mut self, buffer: &'a mut Vec<u8>) -> Result<&'a [u8], Error> {
        self.objects.find_blob(&self.id, buffer)?;
        self.reads.add_object(buffer.len() as u64);
        Ok(buffer.as_slice())
    }

    fn stream_worktree_file<'a>(
        &mut self,
        buffer: &'a mut Vec<u8>,
    ) -> Result<Stream<'a, G::File>, Error> {
        if self.is_link {
            self.stream_target(buffer)
        } else {
            self.stream_file(buffer)
        }
    }

    fn counted(&mut self, bytes: u64) {
        self.reads.add_bytes(bytes);
    }
}
