//! Takes the bytes of one entry.

ghost use Rattle.std.specs.Prelude.{◌≡◌, ◌≤◌, position, length, replicate};
ghost use Rattle.std.specs.Str.{bytes_eq};
ghost use Rattle.git_index.specs.Reading.{is_nul};

use crate::checksum::id_len_of;
use crate::cursor::Cursor;
use crate::fault::Fault;
use bitflags::Flags as _;
use memchr::memchr;
use status_index::{Flags, HashKind, Mode, ObjectId, Stat, Time};

/// The version in which a path begins as the one before it.
pub(crate) const PREFIXED: u32 = 4;

/// An entry as the file has it, with its name in the file's bytes.
#[derive(Clone, Copy)]
pub(crate) struct RawEntry<'a> {
    pub(crate) stat: Stat,
    pub(crate) mode: Mode,
    pub(crate) id: ObjectId,
    pub(crate) flags: Flags,
    /// The length of the path, as the flags state it.
    pub(crate) stated: usize,
    /// How many bytes of the path before it are stripped. 0 except in version 4.
    pub(crate) strip: usize,
    /// The path, or in version 4 what follows the rest of the path before it.
    pub(crate) name: &'a [u8],
}

/// The flags of an entry, with the length of the path that they state.
#[derive(Clone, Copy)]
struct StatedFlags {
    flags: u32,
    /// The length of the path, or the greatest that can be stated.
    path_len: usize,
    /// How many bytes the flags take.
    size: usize,
}

/// The name of an entry: how many bytes of the path before it are stripped, and the bytes after the rest of that path.
#[derive(Clone, Copy)]
struct Name<'a> {
    strip: usize,
    name: &'a [u8],
}

impl<'a> Cursor<'a> {
    ghost use Rattle.std.specs.Prelude.{◌≤◌, IfOk};
    ghost use Rattle.git_index.specs.EntryViews.{name_view, raw_entry, stated_view};
    ghost use Rattle.git_index.specs.Reading.{Reads, ended_at, fixed_at, flags_at, id_at, mode_at, name_at, padded_at, raw_at, stripped_at};

    /// Takes an entry of a file of this version, whose ids are of this kind.
    #[tactic(auto, unfolding(crate::specs::Reading::raw_at))]
    pub(crate) fn entry(&mut self, kind: HashKind, version: u32) -> Result<RawEntry<'a>, Fault>
        ensures { Reads (λ e. (raw_entry e, self.new.rest.now)) result (raw_at kind version self.old.rest.now) }
    {
        let (stat, mode) = self.stat_and_mode()?;
        let id = self.id(kind)?;
        let stated = self.flags(version)?;
        let name = self.name(version, 40 + id_len_of(kind) + stated.size)?;
        Ok(RawEntry {
            stat,
            mode,
            id,
            flags: Flags::from_bits_retain(stated.flags),
            stated: stated.path_len,
            strip: name.strip,
            name: name.name,
        })
    }

    /// Takes the stat, and the mode among its numbers.
    #[tactic(auto, unfolding(crate::specs::Reading::fixed_at))]
    fn stat_and_mode(&mut self) -> Result<(Stat, Mode), Fault>
        ensures { Reads (λ x. (x, self.new.rest.now)) result (fixed_at self.old.rest.now) }
    {
        let (ctime_secs, ctime_nsecs) = (self.u32()?, self.u32()?);
        let (mtime_secs, mtime_nsecs) = (self.u32()?, self.u32()?);
        let (dev, ino) = (self.u32()?, self.u32()?);
        let mode = self.mode()?;
        let (uid, gid, size) = (self.u32()?, self.u32()?, self.u32()?);
        let stat = Stat {
            mtime: Time {
                secs: mtime_secs,
                nsecs: mtime_nsecs,
            },
            ctime: Time {
                secs: ctime_secs,
                nsecs: ctime_nsecs,
            },
            dev,
            ino,
            uid,
            gid,
            size,
        };
        Ok((stat, mode))
    }

    #[tactic(auto, unfolding(crate::specs::Reading::mode_at))]
    fn mode(&mut self) -> Result<Mode, Fault>
        ensures { Reads (λ m. (m, self.new.rest.now)) result (mode_at self.old.rest.now) }
    {
        match Mode::from_bits(self.u32()?) {
            Some(mode) => Ok(mode),
            None => Err(Fault::BadMode),
        }
    }

    #[tactic(auto, unfolding(crate::specs::Reading::id_at))]
    fn id(&mut self, kind: HashKind) -> Result<ObjectId, Fault>
        ensures { Reads (λ id. (id, self.new.rest.now)) result (id_at kind self.old.rest.now) }
    {
        match kind {
            HashKind::Sha1 => match <[u8; 20]>::try_from(self.take(20)?) {
                Ok(digest) => Ok(ObjectId::Sha1(digest)),
                Err(_) => Err(Fault::Truncated),
            },
            HashKind::Sha256 => match <[u8; 32]>::try_from(self.take(32)?) {
                Ok(digest) => Ok(ObjectId::Sha256(digest)),
                Err(_) => Err(Fault::Truncated),
            },
        }
    }

    /// Takes the flags, which are one word or two.
    #[tactic(auto, unfolding(crate::specs::Reading::flags_at))]
    fn flags(&mut self, version: u32) -> Result<StatedFlags, Fault>
        ensures reads { Reads (λ x. (stated_view x, self.new.rest.now)) result (flags_at version self.old.rest.now) }
        ensures len { IfOk result (λ x. x.size ≤ 4) }
    {
        let word = self.u16()? as u32;
        let path_len = (word % 0x1000) as usize;
        let base = word / 0x1000 % 4 * 0x1000 + word / 0x8000 % 2 * 0x10;
        if word / 0x4000 % 2 == 0 {
            return Ok(StatedFlags {
                flags: base,
                path_len,
                size: 2,
            });
        }
        if version == 2 {
            return Err(Fault::BadFlags);
        }
        let more = self.u16()? as u32;
        if more == 0 || more >= 0x8000 || more % 0x2000 != 0 {
            return Err(Fault::BadFlags);
        }
        Ok(StatedFlags {
            flags: base + more / 0x2000 % 2 * 0x8 + more / 0x4000 % 2 * 0x2,
            path_len,
            size: 4,
        })
    }

    /// Takes a name. `before` is how many bytes of the entry precede it.
    #[tactic(auto, unfolding(crate::specs::Reading::name_at))]
    fn name(&mut self, version: u32, before: usize) -> Result<Name<'a>, Fault>
        requires { before ≤ 76 }
        ensures { Reads (λ x. (name_view x, self.new.rest.now)) result (name_at version before self.old.rest.now) }
    {
        if version == PREFIXED {
            return self.stripped();
        }
        let name = self.padded(before)?;
        Ok(Name { strip: 0, name })
    }

    /// Takes how many bytes are stripped, and the name.
    #[tactic(auto, unfolding(crate::specs::Reading::stripped_at))]
    fn stripped(&mut self) -> Result<Name<'a>, Fault>
        ensures { Reads (λ x. (name_view x, self.new.rest.now)) result (stripped_at self.old.rest.now) }
    {
        let strip = self.width()?;
        let name = self.ended()?;
        Ok(Name { strip, name })
    }

    /// Takes a name that one zero byte ends.
    #[tactic(auto, unfolding(crate::specs::Reading::ended_at))]
    fn ended(&mut self) -> Result<&'a [u8], Fault>
        ensures { Reads (λ name. (name.now, self.new.rest.now)) result (ended_at self.old.rest.now) }
    {
        let bytes = self.rest;
        let Some(len) = nul_of(bytes) else {
            return Err(Fault::Truncated);
        };
        self.rest = &bytes[len + 1..];
        Ok(&bytes[..len])
    }

    /// Takes a name that is padded to a multiple of eight bytes. `before` is how many bytes of the entry precede it.
    #[tactic(auto, unfolding(crate::specs::Reading::padded_at))]
    fn padded(&mut self, before: usize) -> Result<&'a [u8], Fault>
        requires { before ≤ 76 }
        ensures { Reads (λ name. (name.now, self.new.rest.now)) result (padded_at before self.old.rest.now) }
    {
        let Some(len) = nul_of(self.rest) else {
            return Err(Fault::Truncated);
        };
        let padding_len = 8 - (before + len) % 8;
        let (name, rest) = self.rest.split_at(len);
        if rest.len() < padding_len {
            return Err(Fault::Truncated);
        }
        let (padding, rest) = rest.split_at(padding_len);
        if !is_padding(padding) {
            return Err(Fault::BadPadding);
        }
        self.rest = rest;
        Ok(name)
    }
}

/// Returns the position of the first zero byte.
fn nul_of(bytes: &[u8]) -> Option<usize>
    ensures { result ≡ position is_nul bytes.now }
{
    memchr(0, bytes)
}

/// Returns whether all bytes are zero.
fn is_padding(bytes: &[u8]) -> bool
    requires { length bytes.now ≤ 8 }
    ensures { result ≡ bytes_eq bytes.now (replicate (length bytes.now) 0) }
{
    bytes == &[0u8; 8][..bytes.len()]
}
