//! The link check: whether a path leads through a symbolic link.

ghost use Rattle.std.specs.Prelude.{◌≡◌, ◌≤◌, ◌<◌, ◌+◌, None, IsTrue, [], length, take, drop, IfOk, OnOk, IfErr, vec_len};
ghost use Rattle.bstr.specs.BStr.{bstr_bytes};
ghost use Rattle.status_base.specs.Paths.{abnormal_component, joined};
ghost use Rattle.status_base.specs.LinkCheck.{link_check};
ghost use Rattle.bstr.specs.Owned.{bstring_bytes};
ghost use Rattle.status_base.specs.CheckState.{IsClear};
ghost use Rattle.status_base.specs.Sights.{IsOpen, IsCheckSeen};

mod barrier;
mod error;
mod join;
pub mod laws;

use crate::components::{abnormal_component, common_front, component_start};
use crate::worktree::{Fault, Worktree};
use barrier::first_barrier;
use bstr::{BStr, BString};
pub use error::StackError;
use join::join_into;
use std::alloc::{AllocError, Global};
use std::marker::Model;

/// A check that paths don't lead through a symbolic link. It remembers which directories it found open, that is
/// neither a link nor faulty. Each query returns what a new check would return, whatever was queried before, as long
/// as these directories stay open.
#[derive(Drop)]
pub struct SymlinkCheck {
    parts: Parts,
}

impl Model for SymlinkCheck {
    ghost use Rattle.status_base.specs.CheckState.{CheckState};

    ghost Value = { CheckState };

    ghost use Rattle.status_base.specs.CheckParts.{state_of};

    ghost view = { λ a. state_of a.parts };
}

impl SymlinkCheck {
    ghost use Rattle.std.specs.Borrow.{sem};
    ghost use Rattle.std.specs.Prelude.{◌≢◌};
    ghost use Rattle.std.specs.Io.BufRead.{Rests};
    ghost use Rattle.status_index.specs.declared.fault.Fault.TheVariants.{NotFound};
    ghost use Rattle.status_base.specs.declared.stack.error.StackError.TheVariants as errors;
    ghost use Rattle.status_base.specs.contracts.stack.SymlinkCheck.{the_row};
    ghost use Rattle.status_base.specs.CheckAnswers.{IsVerifiedBy, IsLenientBy, IsNamed, IsNormal};
    ghost use Rattle.status_base.specs.AfterQuery.{IsAfterVerified, IsAfterLenient};

    /// Returns a check of paths below a root. If the root is empty, nothing is joined to a path.
    pub fn new(alloc: Global, root: BString) -> SymlinkCheck
        ensures { result ≡ record { root = bstring_bytes root; path = []; looks = 0 } }
    {
        let parts = Parts {
            root,
            buffer: Vec::new(alloc),
            start: 0,
            tested: 0,
            looks: 0,
        };
        SymlinkCheck { parts }
    }

    /// Returns the root that was passed to `new`.
    pub fn root(&self) -> BStr<'_>
        ensures { bstr_bytes result ≡ self.now.root }
    {
        self.parts.root.as_bstr()
    }

    /// Returns how often `lstat` was called. The count saturates at the greatest `u64`.
    pub fn looks(&self) -> u64
        ensures { result ≡ self.now.looks }
    {
        self.parts.looks
    }

    /// Returns the path joined to the root, if no directory above it is a symbolic link or has a fault. The node at
    /// the path itself isn't checked.
    ///
    /// # Errors
    /// The first of these that applies:
    /// - The path is empty.
    /// - It has a component that is empty, `.` or `..`. The error has the leftmost one.
    /// - One of its proper directory prefixes is a link or has a fault. The error is that of the leftmost one.
    ///
    /// Or out of memory.
    pub fn verified_path<'s, 'p, W: Worktree>(
        &'s mut self,
        worktree: &W,
        path: BStr<'p>,
    ) -> Result<BStr<'s>, StackError<'p>>
        ensures answer { IsTrue (W.modelled worktree.now) → IsVerifiedBy (W.lstat_of worktree.now) self.old (bstr_bytes path.entry) result }
        ensures seen { IsOpen (W.may_stat worktree.now) self.old.path → IsCheckSeen (W.may_stat worktree.now) (bstr_bytes path.entry) result }
        ensures named { IfErr result (IsNamed (bstr_bytes path.entry)) }
        ensures normal { OnOk result (IsNormal (bstr_bytes path.entry)) }
        ensures joined { IfOk result (λ answer. bstr_bytes answer ≡ joined self.old.root (bstr_bytes path.entry)) }
        ensures* rests { sem 𝓛 (Rests the_row self.entry
            (IsAfterVerified (W.may_stat worktree.now) (W.modelled worktree.now) (W.lstat_of worktree.now) (bstr_bytes path.entry) result self.old)) }
    {
        match self.parts.verify(worktree, path.as_bytes()) {
            Ok(()) => Ok(BStr::new(self.parts.buffer.as_slice())),
            Err(error) => Err(error),
        }
    }

    /// Does the same as `verified_path`, but also returns the path if a directory above it isn't there.
    ///
    /// # Errors
    /// The errors of `verified_path`, except the fault `NotFound`.
    pub fn verified_path_allow_nonexisting<'s, 'p, W: Worktree>(
        &'s mut self,
        worktree: &W,
        path: BStr<'p>,
    ) -> Result<BStr<'s>, StackError<'p>>
        ensures answer { IsTrue (W.modelled worktree.now) → IsLenientBy (W.lstat_of worktree.now) self.old (bstr_bytes path.entry) result }
        ensures named { IfErr result (IsNamed (bstr_bytes path.entry)) }
        ensures normal { OnOk result (IsNormal (bstr_bytes path.entry)) }
        ensures joined { IfOk result (λ answer. bstr_bytes answer ≡ joined self.old.root (bstr_bytes path.entry)) }
        ensures present { IfErr result (λ e. e ≢ errors.Fault NotFound) }
        ensures* rests { sem 𝓛 (Rests the_row self.entry
            (IsAfterLenient (W.may_stat worktree.now) (W.modelled worktree.now) (W.lstat_of worktree.now) (bstr_bytes path.entry) result self.old)) }
    {
        match self.parts.verify(worktree, path.as_bytes()) {
            Ok(()) => Ok(BStr::new(self.parts.buffer.as_slice())),
            Err(StackError::Fault(Fault::NotFound)) => {
                Ok(BStr::new(self.parts.buffer.as_slice()))
            }
            Err(error) => Err(error),
        }
    }
}

/// The fields of a check. If no path is tested (`tested` is 0), the buffer may hold anything.
#[derive(Drop)]
struct Parts {
    /// The root, which is before each path.
    root: BString,
    /// The root, then the last queried path that was neither empty nor abnormal.
    buffer: Vec<u8>,
    /// The position of the path in the buffer.
    start: usize,
    /// The length of the front of the path that is known to have no link or fault above it.
    tested: usize,
    /// How often `lstat` was called.
    looks: u64,
    ghost within: { start + tested ≤ vec_len buffer },
    ghost below: { 0 < tested → take start buffer.items ≡ joined (bstring_bytes root) [] },
    ghost normal: { 0 < tested → abnormal_component (take tested (drop start buffer.items)) ≡ None },
}

impl Parts {
    ghost use Rattle.std.specs.Result.{result_err};
    ghost use Rattle.status_base.specs.Common.{IsCommon};
    ghost use Rattle.status_base.specs.CheckAnswers.{IsCheckError, IsNamed, IsNormal, IsChecked};
    ghost use Rattle.status_base.specs.AfterQuery.{IsAfterQuery};
    ghost use Rattle.status_base.specs.Barriers.{OnReached};
    ghost use Rattle.status_base.specs.CheckParts.{state_of};

    /// Tests a path, and leaves it in the buffer, joined to the root. `lstat` isn't called again for directories that
    /// are also above the tested path.
    ///
    /// # Errors
    /// The errors of `verified_path`.
    fn verify<'p, W: Worktree>(
        &mut self,
        worktree: &W,
        path: &'p [u8],
    ) -> Result<(), StackError<'p>>
        ensures answer { IsTrue (W.modelled worktree.now) → IsClear (W.lstat_of worktree.now) (state_of self.old).path → IsChecked (link_check (W.lstat_of worktree.now) path.now) result }
        ensures seen { IsOpen (W.may_stat worktree.now) (state_of self.old).path → IsCheckSeen (W.may_stat worktree.now) path.now result }
        ensures named { IfErr result (IsNamed path.now) }
        ensures normal { OnReached result (IsNormal path.now) }
        ensures joined { OnReached result (self.new.buffer.items ≡ joined (bstring_bytes self.old.root) path.now) }
        ensures tested { OnOk result ((state_of self.new).path ≡ path.now) }
        ensures after { IsAfterQuery (W.may_stat worktree.now) (W.modelled worktree.now) (W.lstat_of worktree.now) path.now (result_err result) (state_of self.old) (state_of self.new) }
    {
        if path.is_empty() {
            return Err(StackError::EmptyPath);
        }
        let common = self.common_with(path);
        // The components of the tested path are normal. So an abnormal one can only begin after the last slash in
        // common.
        let first = component_start(&path[..common]);
        if let Some(component) = abnormal_component(&path[first..]) {
            let component = BStr::new(component);
            return Err(StackError::NotNormal { component });
        }
        self.write(path, common)?;
        match first_barrier(worktree, path, common, &mut self.looks) {
            None => {
                self.tested = path.len();
                Ok(())
            }
            Some(stop) => {
                self.tested = stop.at;
                Err(stop.error)
            }
        }
    }

    /// Returns how many bytes the common prefix of a path and the tested path has.
    fn common_with(&self, path: &[u8]) -> usize
        ensures { IsCommon (state_of self.now).path path.now result }
    {
        common_front(&self.buffer[self.start..self.start + self.tested], path)
    }

    /// Writes a path into the buffer, joined to the root. The first `common` bytes of the path are left in the buffer,
    /// as they are those of the tested path. Afterwards no path is tested, even if the call ran out of memory.
    ///
    /// # Errors
    /// Out of memory.
    fn write(&mut self, path: &[u8], common: usize) -> Result<(), AllocError>
        requires { IsCommon (state_of self.old).path path.now common }
        ensures joined { OnOk result (self.new.buffer.items ≡ joined (bstring_bytes self.old.root) path.now) }
        ensures below { OnOk result (take self.new.start self.new.buffer.items ≡ joined (bstring_bytes self.new.root) []) }
        ensures path { OnOk result (drop self.new.start self.new.buffer.items ≡ path.now) }
        ensures length { OnOk result (self.new.start + length path.now ≡ vec_len self.new.buffer) }
        ensures forgotten { self.new.tested ≡ 0 }
        ensures kept { (self.new.root ≡ self.old.root) × (self.new.looks ≡ self.old.looks) }
    {
        // Set before the buffer changes, since an allocation may fail.
        self.tested = 0;
        if common == 0 {
            self.start = 0;
            self.start = join_into(&mut self.buffer, self.root.as_bytes(), path)?;
            return Ok(());
        }
        self.buffer.truncate(self.start + common);
        self.buffer.extend_from_slice(&path[common..])?;
        Ok(())
    }
}
