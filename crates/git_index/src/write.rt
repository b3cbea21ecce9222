//! Writes a file.

ghost use Rattle.std.specs.Prelude.{◌≡◌, ◌<◌, ◌≤◌, ◌^◌, ◌-◌, ◌==◌, ◌++◌, true, length, replicate, drop, IfOk, OnOk, if◌then◌else◌};
ghost use Rattle.status_index.specs.BlobId.{id_bytes};
ghost use Rattle.status_index.specs.Entries.{entry_at};
ghost use Rattle.status_index.specs.States.{entries_of, index_of};
ghost use Rattle.git_index.specs.RawEntry.{first_word, fixed_bytes, flags_bytes, is_extended, extended_word, padded_bytes, raw_bytes, short_len, stripped_bytes};
ghost use Rattle.git_index.specs.File.{AreExtensions, IsFileOf, header_bytes, is_version};
ghost use Rattle.git_index.specs.Writing.{EntriesFit, checksum_bytes, common_len, file_bytes, raw_after};

use crate::checksum::{digest, id_len_of};
use crate::entry::PREFIXED;
use crate::number::{put_u16, put_u32, put_width};
use bitflags::Flags as _;
use status_index::{Entry, HashKind, Mode, ObjectId, Stat, State};
use std::alloc::{AllocError, Global};

/// Returns the bytes of an entry before its id.
#[tactic(auto, unfolding(crate::specs::RawEntry::fixed_bytes, crate::specs::Numbers::u32_bytes))]
fn fixed_of(stat: &Stat, mode: Mode) -> [u8; 40]
    ensures { result ≡ fixed_bytes stat.now mode }
{
    let [c0, c1, c2, c3] = stat.ctime.secs.to_be_bytes();
    let [d0, d1, d2, d3] = stat.ctime.nsecs.to_be_bytes();
    let [m0, m1, m2, m3] = stat.mtime.secs.to_be_bytes();
    let [n0, n1, n2, n3] = stat.mtime.nsecs.to_be_bytes();
    let [e0, e1, e2, e3] = stat.dev.to_be_bytes();
    let [i0, i1, i2, i3] = stat.ino.to_be_bytes();
    let [b0, b1, b2, b3] = mode.bits().to_be_bytes();
    let [u0, u1, u2, u3] = stat.uid.to_be_bytes();
    let [g0, g1, g2, g3] = stat.gid.to_be_bytes();
    let [s0, s1, s2, s3] = stat.size.to_be_bytes();
    [
        c0, c1, c2, c3, d0, d1, d2, d3, m0, m1, m2, m3, n0, n1, n2, n3, e0, e1, e2, e3, i0, i1, i2,
        i3, b0, b1, b2, b3, u0, u1, u2, u3, g0, g1, g2, g3, s0, s1, s2, s3,
    ]
}

/// Returns the words of flags, of which the second is 0 if there is none.
fn words_of(flags: u32, path_len: usize) -> (u16, u16)
    ensures first { result.0 ≡ first_word flags (short_len path_len) }
    ensures more { result.1 ≡ extended_word flags }
{
    let more = flags / 2 % 2 * 0x4000 + flags / 8 % 2 * 0x2000;
    let extended = if more == 0 { 0 } else { 1 };
    let short = path_len.min(0xFFF) as u32;
    let first = flags / 0x10 % 2 * 0x8000 + extended * 0x4000 + flags / 0x1000 % 4 * 0x1000 + short;
    (first as u16, more as u16)
}

/// Writes the flags, and returns how many bytes they take.
#[tactic(auto, unfolding(crate::specs::RawEntry::flags_bytes))]
fn put_flags(out: &mut Vec<u8>, flags: u32, path_len: usize) -> Result<usize, AllocError>
    ensures bytes { OnOk result (out.new.items ≡ out.old.items ++ flags_bytes flags (short_len path_len)) }
    ensures len { IfOk result (λ n. n ≡ (if is_extended flags then 4 else 2)) }
{
    let (first, more) = words_of(flags, path_len);
    put_u16(out, first)?;
    if more == 0 {
        return Ok(2);
    }
    put_u16(out, more)?;
    Ok(4)
}

fn put_nuls(out: &mut Vec<u8>, count: usize) -> Result<(), AllocError>
    requires { count ≤ 8 }
    ensures { OnOk result (out.new.items ≡ out.old.items ++ replicate count 0) }
{
    out.extend_from_slice(&[0u8; 8][..count])
}

/// Writes a path and its padding. `before` is how many bytes of the entry precede it.
#[tactic(auto, unfolding(crate::specs::RawEntry::padded_bytes))]
fn put_padded(out: &mut Vec<u8>, before: usize, path: &[u8]) -> Result<(), AllocError>
    requires { before < 100 }
    ensures { OnOk result (out.new.items ≡ out.old.items ++ padded_bytes before path.now) }
{
    let padding_len = 8 - (before + path.len()) % 8;
    out.extend_from_slice(path)?;
    put_nuls(out, padding_len)
}

/// Writes how many bytes are stripped, and the name.
#[tactic(auto, unfolding(crate::specs::RawEntry::stripped_bytes))]
fn put_stripped(out: &mut Vec<u8>, strip: usize, name: &[u8]) -> Result<(), AllocError>
    ensures { OnOk result (out.new.items ≡ out.old.items ++ stripped_bytes strip name.now) }
{
    put_width(out, strip)?;
    out.extend_from_slice(name)?;
    out.extend_from_slice(&[0])
}

/// Returns how many bytes two paths begin with in common.
fn common_len_of(one: &[u8], other: &[u8]) -> usize
    ensures len { result ≡ common_len one.now other.now }
    ensures within { (result ≤ length one.now) × (result ≤ length other.now) }
{
    let most = one.len().min(other.len());
    for at in 0..most {
        if one[at] != other[at] {
            return at;
        }
    }
    most
}

/// Writes an entry's name, after the entry with the path `last`.
#[tactic(auto)]
fn put_name(
    out: &mut Vec<u8>,
    version: u32,
    before: usize,
    last: &[u8],
    path: &[u8],
) -> Result<(), AllocError>
    requires { before < 100 }
    ensures { OnOk result (let shared = common_len last.now path.now in out.new.items ≡ out.old.items
        ++ (if version == 4 then stripped_bytes (length last.now - shared) (drop shared path.now) else padded_bytes before path.now)) }
{
    if version != PREFIXED {
        return put_padded(out, before, path);
    }
    let shared = common_len_of(last, path);
    put_stripped(out, last.len() - shared, &path[shared..])
}

/// Writes an entry, after the one with the path `last`.
#[tactic(auto, unfolding(crate::specs::RawEntry::raw_bytes))]
fn put_entry(
    out: &mut Vec<u8>,
    kind: HashKind,
    version: u32,
    last: &[u8],
    entry: &Entry,
    path: &[u8],
) -> Result<(), AllocError>
    ensures { OnOk result (out.new.items ≡ out.old.items ++ raw_bytes kind version (raw_after version last.now (entry_at path.now entry.now))) }
{
    out.extend_from_slice(&fixed_of(&entry.stat, entry.mode))?;
    out.extend_from_slice(entry.id.as_bytes())?;
    let flags_len = put_flags(out, entry.flags.bits(), path.len())?;
    put_name(out, version, 40 + id_len_of(kind) + flags_len, last, path)
}

#[tactic(auto, unfolding(crate::specs::File::header_bytes))]
fn put_header(out: &mut Vec<u8>, version: u32, count: u32) -> Result<(), AllocError>
    ensures { OnOk result (out.new.items ≡ out.old.items ++ header_bytes version count) }
{
    out.extend_from_slice(b"DIRC")?;
    put_u32(out, version)?;
    put_u32(out, count)
}

/// Returns the checksum of a content, or zeros.
fn checksum_of(kind: HashKind, content: &[u8], has_checksum: bool) -> ObjectId
    ensures { id_bytes result ≡ checksum_bytes kind has_checksum content.now }
{
    if has_checksum {
        digest(kind, content)
    } else {
        ObjectId::null(kind)
    }
}

/// Returns how many bytes a file has at most, up to the greatest `usize`.
fn room_for(kind: HashKind, state: &State, extensions: &[u8]) -> usize {
    let mut room = extensions.len().saturating_add(64);
    for entry in state.entries() {
        let path = entry.path_in(state.path_backing()).as_bytes();
        room = room.saturating_add(path.len().saturating_add(54 + id_len_of(kind)));
    }
    room
}

/// Returns the bytes of a file with these entries and these bytes of extensions. It is an index file if the version is
/// 2, 3 or 4, the extensions are optional ones, and the entries fit: their ids are of this kind, no path has a zero byte,
/// and they have no flags except the stage, assume-valid, and, not in version 2, skip-worktree and intent-to-add. Other
/// flags are left out. Without a checksum, zeros replace it. In version 4 each entry shares with the one before as much
/// of its path as it can.
///
/// # Errors
/// Out of memory.
pub fn write_index(
    alloc: Global,
    kind: HashKind,
    version: u32,
    state: &State,
    extensions: &[u8],
    has_checksum: bool,
) -> Result<Vec<u8>, AllocError>
    requires { length (entries_of state.now) < 2 ^ 32 }
    ensures bytes { IfOk result (λ v. v.items ≡ file_bytes kind version (index_of state.now) extensions.now has_checksum) }
    ensures file { IfOk result (λ v. is_version version ≡ true → EntriesFit kind version (index_of state.now) → AreExtensions extensions.now
        → IsFileOf kind v.items version (index_of state.now) extensions.now) }
{
    let entries = state.entries();
    let mut out = Vec::with_capacity(alloc, room_for(kind, state, extensions))?;
    put_header(&mut out, version, entries.len() as u32)?;
    let mut last: &[u8] = b"";
    for entry in entries {
        let path = entry.path_in(state.path_backing()).as_bytes();
        put_entry(&mut out, kind, version, last, entry, path)?;
        last = path;
    }
    out.extend_from_slice(extensions)?;
    let sum = checksum_of(kind, out.as_slice(), has_checksum);
    out.extend_from_slice(sum.as_bytes())?;
    Ok(out)
}
