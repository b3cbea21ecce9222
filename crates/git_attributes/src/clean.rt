//! The filter that converts a file as git does before it stores it, and the law that ids decide `text=auto` as git decides it.

ghost use Rattle.std.specs.Prelude.{◌≡◌, OnOk, List, ℕ};
ghost use Rattle.status_index.specs.States.{index_of};
ghost use Rattle.git_attributes.specs.Clean.{cleaned, filtered, finished, has_stored, if_ident, is_kept, stored, AutoLaw};
ghost use Rattle.git_attributes.specs.Ident.{without_ids};
ghost use Rattle.git_attributes.specs.Reading.{IsOfAll, IsOfGiven};
ghost use Rattle.status_index.specs.Entries.{IndexEntry};

use crate::attributes::Attributes;
use crate::conversion::{Configured, Steps, steps_of};
use crate::ident::push_without_ids;
use crate::lfs::read_for_lfs;
use crate::normalization::{Normalization, has_crlf, is_binary, push_normalized};
use bstr::BStr;
use status_base::worktree::{ToGit, ToGitOutcome};
use status_index::{Fault, HashKind, ReadBytes, State, compute_hash, read_all};
use std::alloc::AllocError;

/// Converts a worktree's files as git does before it stores them, which git calls cleaning: files of git-lfs, line ends, and
/// `$Id$`.
#[derive(Drop)]
pub struct CleanFilter<'a, 'files, 'index> {
    /// The attributes of the worktree's paths.
    pub attributes: &'a Attributes<'files>,
    /// The conversions of the repository's configuration.
    pub configured: Configured,
    /// The index. With `Normalization::Auto` the line ends of a file aren't converted whose bytes are stored already.
    pub index: &'index State,
    /// The kind of the index's ids.
    pub kind: HashKind,
}

impl Clone for CleanFilter<'_, '_, '_> {
    ghost is_clone = { λ x y. y ≡ x };

    fn clone(&self) -> Result<Self, AllocError> {
        Ok(CleanFilter {
            attributes: self.attributes,
            configured: self.configured,
            index: self.index,
            kind: self.kind,
        })
    }
}

impl CleanFilter<'_, '_, '_> {
    /// Returns whether the index has these bytes at a path.
    fn has_stored(&self, bytes: &[u8], path: &[u8]) -> bool
        ensures { result ≡ has_stored self.now.kind (index_of self.now.index.now) bytes.now path.now }
    {
        let id = compute_hash(self.kind, bytes);
        let mut rest = self.index.entries_at(BStr::new(path));
        'entries: while let [entry, after @ ..] = rest {
            if entry.id == id {
                return true;
            }
            rest = after;
        }
        false
    }

    /// Returns the bytes that are stored of those that a filter returned.
    ///
    /// # Errors
    /// Out of memory.
    fn finish(&self, steps: Steps, bytes: &mut Vec<u8>, path: &[u8]) -> Result<(), AllocError>
        ensures { OnOk result (bytes.new.items ≡ finished steps (λ it. has_stored self.now.kind (index_of self.now.index.now) it path.now) bytes.old.items) }
    {
        if steps.ident {
            self.finish_ids(steps, bytes, path)
        } else {
            self.finish_text(steps, bytes, path)
        }
    }

    /// Does the same as `finish` without `ident`.
    #[tactic(auto, using(crate::proofs::Auto::stored_unchanged))]
    fn finish_text(&self, steps: Steps, bytes: &mut Vec<u8>, path: &[u8]) -> Result<(), AllocError>
        ensures { OnOk result (bytes.new.items ≡ stored steps.line_ends (has_stored self.now.kind (index_of self.now.index.now) bytes.old.items path.now) bytes.old.items) }
    {
        if !has_crlf(bytes) || self.is_kept(steps.line_ends, bytes, bytes, path) {
            return Ok(());
        }
        let text = Vec::from_slice(*bytes.allocator(), bytes)?;
        bytes.clear();
        push_normalized(&text, bytes)
    }

    /// Does the same as `finish` with `ident`.
    #[tactic(auto, using(crate::proofs::Auto::stored_unchanged))]
    fn finish_ids(&self, steps: Steps, bytes: &mut Vec<u8>, path: &[u8]) -> Result<(), AllocError>
        ensures { OnOk result (bytes.new.items ≡ without_ids (stored steps.line_ends (has_stored self.now.kind (index_of self.now.index.now) (without_ids bytes.old.items) path.now) bytes.old.items)) }
    {
        let alloc = *bytes.allocator();
        let mut kept = Vec::new(alloc);
        push_without_ids(bytes, &mut kept)?;
        if !has_crlf(bytes) || self.is_kept(steps.line_ends, bytes, &kept, path) {
            bytes.clear();
            return bytes.extend_from_slice(&kept);
        }
        kept.clear();
        push_normalized(bytes, &mut kept)?;
        bytes.clear();
        push_without_ids(&kept, bytes)
    }

    /// Returns whether the line ends of a file's bytes are stored as they are. `kept` are the bytes that would be stored then.
    fn is_kept(&self, how: Normalization, bytes: &[u8], kept: &[u8], path: &[u8]) -> bool
        ensures { result ≡ is_kept how (has_stored self.now.kind (index_of self.now.index.now) kept.now path.now) bytes.now }
    {
        match how {
            Normalization::Off => true,
            Normalization::On => false,
            Normalization::Auto => is_binary(bytes) || self.has_stored(kept, path),
        }
    }
}

/// Reads a file to its end, and appends what a filter returns: git-lfs, or none.
///
/// # Errors
/// The file's fault, or out of memory.
fn read_filtered<F: ReadBytes>(lfs: bool, file: &mut F, buffer: &mut Vec<u8>) -> Result<(), Fault>
    ensures known { IsOfAll (λ bytes _. buffer.new.items ≡ filtered lfs bytes) (F.left file.old) result }
    ensures seen { IsOfGiven (λ bytes _. buffer.new.items ≡ filtered lfs bytes) (F.may_give file.old) result }
{
    buffer.clear();
    if lfs {
        read_for_lfs(file, buffer)
    } else {
        read_all(file, buffer)
    }
}

impl ToGit for CleanFilter<'_, '_, '_> {
    ghost use Rattle.std.proofs.Common.{ap};

    ghost conversion = { cleaned };

    ghost clone_keeps_conversion = { λ x y same. ap cleaned same };

    fn convert<'a, F: ReadBytes>(
        &self,
        mut file: F,
        path: BStr<'_>,
        buffer: &'a mut Vec<u8>,
    ) -> Result<ToGitOutcome<'a, F>, Fault> {
        let alloc = *buffer.allocator();
        let path = path.as_bytes();
        let known = self.attributes.states_of(alloc, path)?;
        let steps = steps_of(&known, self.configured);
        if steps.is_empty() {
            return Ok(ToGitOutcome::Unchanged(file));
        }
        read_filtered(steps.lfs, &mut file, buffer)?;
        self.finish(steps, buffer, path)?;
        Ok(ToGitOutcome::Buffer(buffer))
    }
}

/// With `text=auto` git reads the blob of a path's entry to find out whether to convert the file. Here ids decide: what is
/// stored is the blob exactly if that is so by git's rule. The premises are that the path has one entry, and that the file
/// and the blob have different ids if their bytes differ.
pub fn ids_decide_as_git_does(kind: HashKind)
    ensures { (index : List IndexEntry) (path blob bytes : List ℕ) → AutoLaw kind index path blob bytes }
{}
