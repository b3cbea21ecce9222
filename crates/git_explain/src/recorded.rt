//! A worktree and a submodule that return the results in a sight, and no others.

ghost use Rattle.std.specs.Prelude.{◌≡◌};

use crate::sight::{Reading, Sight, UNASKED};
use bstr::BStr;
use status_base::worktree::{
    ByteText, Fault, Metadata, ReadBytes, SubmoduleFault, SubmoduleStatus, Worktree,
};
use status_index::Entry;
use std::alloc::{AllocError, Global};
use std::marker::Model;

/// The worktree of a sight. Each call returns the result that it had before. A call that wasn't made has the fault `UNASKED`.
#[derive(Clone, Copy)]
pub(crate) struct RecordedWorktree<'s> {
    /// The sight.
    pub(crate) sight: &'s Sight,
}

impl<'s> Worktree for RecordedWorktree<'s> {
    ghost use Rattle.std.specs.Prelude.{true, refl};
    ghost use Rattle.std.proofs.Common.{inr};
    ghost use Rattle.status_index.specs.Answer.{IsAnswer};
    ghost use Rattle.status_base.specs.Openings.{IsKnownOpening};
    ghost use Rattle.git_explain.specs.Sights.{linked, result_at, opened};

    type File = RecordedFile<'s>;

    ghost modelled = { λ _. true };

    ghost lstat_of = { λ w. result_at w.sight.now.calls.items };

    ghost open_of = { λ w _. opened w.sight.now.file };

    ghost target_of = { λ w _. linked w.sight.now.link };

    ghost may_stat = { λ w path answer. IsAnswer (result_at w.sight.now.calls.items path) answer };

    ghost may_open = { λ w _. IsKnownOpening (opened w.sight.now.file) };

    ghost may_link = { λ w _ answer. IsAnswer (linked w.sight.now.link) answer };

    ghost stat_may_fail = { λ _ _. inr refl };

    ghost open_may_fail = { λ _ _. inr refl };

    ghost link_may_fail = { λ _ _. inr refl };

    fn lstat(&self, path: BStr<'_>) -> Result<Metadata, Fault> {
        self.sight.result_at(path.as_bytes())
    }

    fn open(&self, _path: BStr<'_>) -> Result<RecordedFile<'s>, Fault> {
        match &self.sight.file {
            Some(Ok(reading)) => Ok(RecordedFile::new(reading)),
            Some(Err(fault)) => Err(*fault),
            None => Err(UNASKED),
        }
    }

    fn read_link(&self, _path: BStr<'_>, target: &mut Vec<u8>) -> Result<(), Fault> {
        target.clear();
        match &self.sight.link {
            Some(Ok(bytes)) => Ok(target.extend_from_slice(bytes)?),
            Some(Err(fault)) => Err(*fault),
            None => Err(UNASKED),
        }
    }
}

/// A file whose bytes were read before.
#[derive(Drop)]
pub(crate) struct RecordedFile<'s> {
    /// The bytes that are left.
    bytes: &'s [u8],
    /// The fault after them. None for the end.
    fault: Option<Fault>,
}

impl<'s> Model for RecordedFile<'s> {
    ghost use Rattle.status_index.specs.Content.{Content};

    ghost Value = { Content };

    ghost view = { λ f. record { bytes = f.bytes.now; fault = f.fault } };
}

impl<'s> RecordedFile<'s> {
    ghost use Rattle.git_explain.specs.Sights.{content_of};

    /// Returns the file of a reading, of which nothing was read yet.
    pub(crate) fn new(reading: &'s Reading) -> RecordedFile<'s>
        ensures { result ≡ content_of reading.now }
    {
        RecordedFile {
            bytes: &reading.bytes,
            fault: reading.fault,
        }
    }
}

impl ReadBytes for RecordedFile<'_> {
    ghost use Rattle.std.specs.Prelude.{Some};
    ghost use Rattle.status_index.specs.Given.{IsKnownOrCut};
    ghost use Rattle.status_index.proofs.Gifts.{cut_at_once};

    ghost left = { Some };

    ghost may_give = { IsKnownOrCut };

    ghost give_may_fail = { cut_at_once };

    fn read_bytes(&mut self, buffer: &mut [u8]) -> Result<usize, Fault> {
        if let (true, Some(fault)) = (self.bytes.is_empty(), self.fault) {
            return Err(fault);
        }
        let count = self.bytes.len().min(buffer.len());
        buffer[..count].copy_from_slice(&self.bytes[..count]);
        self.bytes = &self.bytes[count..];
        Ok(count)
    }
}

/// The submodule of a sight. It reports the same as before.
#[derive(Clone, Copy)]
pub(crate) struct RecordedSubmodule<'s> {
    /// The allocator.
    pub(crate) alloc: Global,
    /// The sight.
    pub(crate) sight: &'s Sight,
}

impl SubmoduleStatus for RecordedSubmodule<'_> {
    ghost use Rattle.std.specs.Prelude.{true, refl};
    ghost use Rattle.std.proofs.Common.{ap};
    ghost use Rattle.git_explain.specs.Sights.{reported};

    type Output = ();

    ghost modelled = { λ _. true };

    ghost status_of = { λ s _. reported s.sight.now.submodule };

    ghost clone_keeps_modelled = { λ _ _ _. refl };

    ghost clone_keeps_status = { λ _ _ same. ap (λ s _. reported s.sight.now.submodule) same };

    ghost clone_reports_within = { λ _ _ _ _ _ _. tt };

    fn status(&mut self, _entry: &Entry, _path: BStr<'_>) -> Result<Option<()>, SubmoduleFault> {
        match &self.sight.submodule {
            Some(Ok(true)) => Ok(Some(())),
            Some(Ok(false)) => Ok(None),
            Some(Err(text)) => Err(SubmoduleFault::Failed {
                text: ByteText::from_slice(self.alloc, text.as_bytes())?,
            }),
            None => Err(SubmoduleFault::Failed {
                text: ByteText::from_slice(self.alloc, b"not asked")?,
            }),
        }
    }
}
