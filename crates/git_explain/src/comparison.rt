//! Why an entry was compared, and how that ended, in words.

use crate::explained::Explained;
use crate::reason::push;
use crate::words::{EntryText, IdText};
use status_call::index_as_worktree::{Change, EntryStatus, Options};
use status_index::{Moment, ObjectId, Stat, stat};
use std::alloc::{AllocError, Global};

/// How entries are compared.
#[derive(Clone, Copy)]
pub(crate) struct Compared<'o> {
    pub(crate) options: &'o Options,
    /// When the index file was last changed.
    pub(crate) timestamp: Moment,
}

/// Adds why an entry was compared, and how that ended.
pub(crate) fn push_compared(
    alloc: Global,
    words: &mut Vec<String>,
    explained: &Explained<'_>,
    compared: Compared<'_>,
) -> Result<(), AllocError> {
    let Some(stat) = explained.stat() else {
        return Ok(());
    };
    let entry = explained.entry;
    let has = EntryText {
        mode: entry.mode,
        stat: entry.stat,
    };
    push(words, format!(in alloc; "the index has {has}"))?;
    push_cause(alloc, words, explained, stat, compared)?;
    push_outcome(alloc, words, explained)?;
    match explained.id {
        Some(id) => push_id(alloc, words, id, entry.id),
        None => Ok(()),
    }
}

/// Adds what differs besides the content, or that no content had to be read.
fn push_outcome(
    alloc: Global,
    words: &mut Vec<String>,
    explained: &Explained<'_>,
) -> Result<(), AllocError> {
    match explained.status() {
        Some(
            EntryStatus::Change(
                Change::Modification {
                    executable_bit_changed: true,
                    content_change: None,
                    ..
                },
            ),
        ) => push(
            words,
            format!(in alloc; "its content is the same, but whether it is executable differs"),
        ),
        Some(EntryStatus::Change(_)) if explained.id.is_none() => push(
            words,
            format!(in alloc; "the size alone shows a change, so it isn't read"),
        ),
        _ => Ok(()),
    }
}

/// Adds the id of a content, and that of the index if it is another one.
fn push_id(
    alloc: Global,
    words: &mut Vec<String>,
    new: ObjectId,
    old: ObjectId,
) -> Result<(), AllocError> {
    let (id, indexed) = (IdText(new), IdText(old));
    if new == old {
        push(
            words,
            format!(in alloc; "its content has the id {id}, as in the index"),
        )
    } else {
        push(
            words,
            format!(in alloc; "its content has the id {id}; the index has {indexed}"),
        )
    }
}

/// Adds why an entry's stat doesn't settle that it is unchanged.
fn push_cause(
    alloc: Global,
    words: &mut Vec<String>,
    explained: &Explained<'_>,
    stat: Stat,
    compared: Compared<'_>,
) -> Result<(), AllocError> {
    let options = compared.options.stat;
    let old = &explained.entry.stat;
    if !stat.matches(old, options) {
        let fields = differing(alloc, &stat, old, options)?;
        return push(
            words,
            format!(in alloc; "different: {fields}; so it is compared"),
        );
    }
    if stat.is_racy(compared.timestamp, options) {
        return push(
            words,
            format!(in alloc;
                "the stat agrees, but the index isn't newer than the file, which may have changed since (racy); so it is compared"
            ),
        );
    }
    if old.size == 0 && !explained.entry.id.is_empty_blob() {
        return push(
            words,
            format!(in alloc;
                "the index has size 0, which asks for a comparison; so it is compared"
            ),
        );
    }
    Ok(())
}

/// Returns the names of the parts of two stats that count and differ.
fn differing(
    alloc: Global,
    new: &Stat,
    old: &Stat,
    options: stat::Options,
) -> Result<String, AllocError> {
    let differ = [
        (new.size != old.size, "size"),
        (new.mtime.secs != old.mtime.secs, "mtime"),
        (
            options.trust_ctime && new.ctime.secs != old.ctime.secs,
            "ctime",
        ),
        (options.check_stat && new.ino != old.ino, "inode"),
        (options.check_stat && new.uid != old.uid, "owner"),
        (options.check_stat && new.gid != old.gid, "group"),
    ];
    let mut names = String::new(alloc);
    for (differs, name) in differ {
        if differs {
            if !names.is_empty() {
                names.push_str(", ")?;
            }
            names.push_str(name)?;
        }
    }
    Ok(names)
}
