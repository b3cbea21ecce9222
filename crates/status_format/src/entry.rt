//! Reads an entry of a JSON value, and stores one.

ghost use Rattle.std.specs.Prelude.{◌≡◌, ◌<◌, ◌++◌, map, IfOk, OnOk};
ghost use Rattle.serde_json.specs.Data.{object, string};
ghost use Rattle.serde_json.specs.View.{view};
ghost use Rattle.status_index.specs.Entries.{entry_at, index_entry};
ghost use Rattle.status_format.specs.Words.{flag_words, word_in, mode_digits};
ghost use Rattle.status_format.specs.Storable.{IsEntryStored, FitsStat, FitsId};
ghost use Rattle.status_format.specs.StoredEntry.{stored_stamp, stored_entry};
ghost use Rattle.status_format.specs.Entry.{entry_of};
ghost use Rattle.status_format.specs.Reading.{entry_in, stat_in};
ghost use Rattle.status_format.specs.Reads.{Reads};

use crate::read::{FieldError, flags_at, id_at, mode_at, number_at, stage_at, text_at, time_at};
use bitflags::Flags as _;
use serde_json::{Value, json};
use status_index::{Entry, Flags, Mode, ObjectId, PathStorage, Stat, Time};
use std::alloc::{AllocError, Global};
use std::str;

/// An entry, with its path in the JSON value that it was read from.
#[derive(Clone, Copy)]
pub struct EntryFields<'v> {
    /// The path, which is UTF-8.
    pub path: &'v str,
    /// The stat.
    pub stat: Stat,
    /// The id of the content.
    pub id: ObjectId,
    /// The flags, with the stage.
    pub flags: Flags,
    /// The mode.
    pub mode: Mode,
}

/// Reads an entry. Other keys than those of an entry are ignored.
///
/// # Errors
/// A key without a default is missing, or a key of an entry has a wrong form.
#[tactic(auto, unfolding(crate::specs::Reading::entry_in))]
pub fn read_entry(object: &Value) -> Result<EntryFields<'_>, FieldError>
    ensures { Reads entry_of result (entry_in (view object.now)) }
{
    let path = text_at(object, "path")?;
    let id = id_at(object, "id")?;
    let stage = stage_at(object, "stage")?;
    let flags = flags_at(object, "flags", Flags::from_stage(stage))?;
    let mode = mode_at(object, "mode")?;
    let size = number_at(object, "size")?;
    let stat = stat_of(object, size)?;
    Ok(EntryFields {
        path,
        stat,
        id,
        flags,
        mode,
    })
}

/// Reads the stat of a file of this size from the object of an entry or a node. If the ctime is missing, it is the mtime.
///
/// # Errors
/// A key of a stat has a wrong form.
#[tactic(auto, unfolding(crate::specs::Reading::stat_in))]
pub fn stat_of(object: &Value, size: u32) -> Result<Stat, FieldError>
    ensures { Reads (λ s. s) result (stat_in size (view object.now)) }
{
    let mtime = time_at(object, "mtime", Time { secs: 0, nsecs: 0 })?;
    let ctime = time_at(object, "ctime", mtime)?;
    Ok(Stat {
        mtime,
        ctime,
        dev: number_at(object, "dev")?,
        ino: number_at(object, "ino")?,
        uid: number_at(object, "uid")?,
        gid: number_at(object, "gid")?,
        size,
    })
}

/// Returns the JSON object of an entry, with all twelve keys. `backing` is the storage of its path. Bits that name no stage or
/// flag aren't stored.
///
/// # Errors
/// `Form` if the path isn't UTF-8, and `Memory` if an allocation fails.
pub fn store_entry(alloc: Global, entry: &Entry, backing: &PathStorage) -> Result<Value, FieldError>
    ensures { IsEntryStored (index_entry backing.now entry.now) result }
{
    let Ok(path) = str::from_utf8(entry.path_in(backing).as_bytes()) else {
        return Err(FieldError::Form);
    };
    stat_fits(entry.stat);
    id_fits(entry.id);
    match entry_value(alloc, entry, path) {
        Ok(value) => Ok(value),
        Err(_) => Err(FieldError::Memory),
    }
}

/// Returns the object of an entry that has this path.
fn entry_value(alloc: Global, entry: &Entry, path: &str) -> Result<Value, AllocError>
    ensures { IfOk result (λ v. view v ≡ stored_entry (entry_at path.now entry.now)) }
{
    let stat = entry.stat;
    let ctime = stamp_value(alloc, stat.ctime.secs, stat.ctime.nsecs)?;
    let mtime = stamp_value(alloc, stat.mtime.secs, stat.mtime.nsecs)?;
    let flags = flag_values(alloc, entry.flags)?;
    let id = hex::encode(alloc, entry.id.as_bytes())?;
    json!(in alloc; {
        "ctime": ctime,
        "dev": stat.dev,
        "flags": flags,
        "gid": stat.gid,
        "id": id,
        "ino": stat.ino,
        "mode": mode_word(entry.mode),
        "mtime": mtime,
        "path": path,
        "size": stat.size,
        "stage": entry.stage_raw(),
        "uid": stat.uid
    })
}

/// Returns the words of the flags that are set, in the order in which they are written.
fn flag_values(alloc: Global, flags: Flags) -> Result<Vec<Value>, AllocError>
    ensures { IfOk result (λ list. map view list.items ≡ map string (flag_words flags.0)) }
{
    let mut list = Vec::new(alloc);
    push_flag(&mut list, flags, Flags::UPTODATE, "uptodate")?;
    push_flag(&mut list, flags, Flags::SKIP_WORKTREE, "skip-worktree")?;
    push_flag(&mut list, flags, Flags::ASSUME_VALID, "assume-valid")?;
    push_flag(&mut list, flags, Flags::FSMONITOR_VALID, "fsmonitor-valid")?;
    push_flag(&mut list, flags, Flags::INTENT_TO_ADD, "intent-to-add")?;
    Ok(list)
}

/// Appends the word of a flag if the flag is set.
fn push_flag(list: &mut Vec<Value>, flags: Flags, flag: Flags, word: &str) -> Result<(), AllocError>
    ensures { OnOk result (map view list.new.items ≡ map view list.old.items ++ map string (word_in flags.0 (word.now, flag.0))) }
{
    if flags.contains(flag) {
        let value = Value::try_from_str(*list.allocator(), word)?;
        list.push(value)?;
    }
    Ok(())
}

/// Returns a list of seconds and nanoseconds.
pub fn stamp_value(alloc: Global, secs: u32, nsecs: u32) -> Result<Value, AllocError>
    ensures { IfOk result (λ v. view v ≡ stored_stamp secs nsecs) }
{
    json!(in alloc; [secs, nsecs])
}

/// States that the numbers of a stat have 32 bits. It does nothing: its contract is for proofs.
fn stat_fits(stat: Stat)
    ensures { FitsStat stat }
{}

/// States that the digest of an id has the length of its kind. It does nothing: its contract is for proofs.
fn id_fits(id: ObjectId)
    ensures { FitsId id }
{
    match id {
        ObjectId::Sha1(_digest) => {}
        ObjectId::Sha256(_digest) => {}
    }
}

/// Returns the mode's bits, as six octal digits.
pub fn mode_word(mode: Mode) -> &'static str
    ensures { result.now ≡ mode_digits mode }
{
    match mode {
        Mode::Dir => "040000",
        Mode::File => "100644",
        Mode::FileExecutable => "100755",
        Mode::Symlink => "120000",
        Mode::Commit => "160000",
    }
}
