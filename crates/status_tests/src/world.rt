//! Histories in the library and stored indexes. The rows of the program have others, also with events that are refused.

use crate::support::prelude::*;
use Step::{Link, Remove, Stage, Tick, Write};
use gix_status::index::{HashKind, compute_hash, stat};
use gix_status::index_as_worktree::{Change, EntryStatus, Outcome};
use gix_status::stack::{StackError, SymlinkCheck};
use gix_status::world::{Comparer, Event, Refusal, Report, World};
use status_callers::histories::{Run, Setting, Step, events, history_at, new_world};
use status_callers::stored::{loaded, stored};
use status_stored::{Stop, replay_reopening};

// The second in which histories begin.
const FIVE: Moment = Moment { secs: 5, nsecs: 0 };

// Times count by whole seconds. `ctime` and executability don't count.
const SECONDS: Setting = Setting {
    stat: stat::Options {
        trust_ctime: false,
        check_stat: true,
        use_nsec: false,
        use_stdev: false,
    },
    executable_bit: false,
};

// Returns a run by ids, with pieces of one entry and at most two workers, which stores its changes in this second.
fn run_at(secs: u32) -> Step {
    Step::Run(Run {
        comparer: Comparer::Hash,
        chunk_size: 1,
        thread_limit: Some(2),
        stamp: Moment { secs, nsecs: 0 },
    })
}

// Returns whether a run reports that the only file, `f`, has the content `bar`, and whether its size is to be 0.
fn is_bar(report: &Report, to_zero: bool) -> bool {
    let [record] = report.records.as_slice() else {
        return false;
    };
    let changed = Change::Modification {
        executable_bit_changed: false,
        content_change: Some(Some(compute_hash(HashKind::Sha1, b"bar"))),
        set_entry_stat_size_zero: to_zero,
    };
    let outcome = Outcome {
        entries_to_process: 1,
        entries_processed: 1,
        symlink_metadata_calls: 1,
        racy_clean: usize::from(to_zero),
        worktree_files_read: 1,
        worktree_bytes: 3,
        ..Outcome::default()
    };
    record.path.as_bytes() == b"f".as_slice()
        && record.status == EntryStatus::Change(changed)
        && report.outcome == outcome
}

// The size is 0 after the first run. So the stat no longer agrees, and the change is seen with any timestamp.
#[test]
fn a_racy_rewrite_is_reported_and_smudged(rt: HostRuntime) -> Result<(), Fail> {
    let (foo, bar) = (Write("f", "foo"), Write("f", "bar"));
    let steps = [foo, Stage("f"), bar, Tick(1), run_at(6), Tick(1), run_at(7)];
    let replayed = history_at(&rt, FIVE, SECONDS, &steps)?;
    assert!(rt; replayed.stopped.is_none() && replayed.reports.len() == 2);
    for (report, to_zero) in replayed.reports.iter().zip([true, false]) {
        assert!(rt; is_bar(report, to_zero), "{to_zero}");
    }
    Ok(())
}

// Returns whether the check of the file's path fails at the link, after one call of `lstat`.
fn is_link_met(alloc: Global, world: &World) -> bool {
    let mut check = SymlinkCheck::new(alloc, BString::new(Vec::new(alloc)));
    let answer = check.verified_path(world.worktree(), BStr::from("d/x"));
    let is_met =
        matches!(answer, Err(StackError::ThroughLink { prefix }) if prefix == BStr::from("d"));
    is_met && check.looks() == 1
}

#[test]
fn the_way_to_a_file_below_a_link_ends_at_the_link(rt: HostRuntime) -> Result<(), Fail> {
    let (file, link) = (Write("d/x", "foo"), Link("d", "e"));
    let steps = [file, Stage("d/x"), Remove("d/x"), link, run_at(5)];
    let replayed = history_at(&rt, FIVE, SECONDS, &steps)?;
    assert!(rt; is_link_met(rt.alloc(), &replayed.world));
    Ok(())
}

// The entry `bar` at "b". Of the keys with a default it has `size` and `mtime`. `other` and `kind` aren't keys of the
// format, and are ignored.
const SOME_KEYS: &str = r#"{"timestamp":[10,0],"other":null,"index":[
{"path":"b","id":"BA0E162E1C47469E3FE4B393A8BF8C569F302116","size":3,"mtime":[5,0],"kind":1}]}"#;

// The same with all keys.
const STORED: &str = concat!(
    r#"{"index":[{"ctime":[5,0],"dev":0,"flags":[],"gid":0,"#,
    r#""id":"ba0e162e1c47469e3fe4b393a8bf8c569f302116","ino":0,"mode":"100644","#,
    r#""mtime":[5,0],"path":"b","size":3,"stage":0,"uid":0}],"timestamp":[10,0]}"#
);

#[test]
fn all_keys_are_stored_in_their_order(rt: HostRuntime) -> Result<(), Fail> {
    let index = loaded(rt.alloc(), SOME_KEYS)??;
    let text = stored(rt.alloc(), &index)?;
    assert_eq!(rt; text.as_str(), STORED);
    Ok(())
}

// Returns the events that stage an empty file at a path that isn't UTF-8.
fn odd_events(alloc: Global) -> Result<Vec<Event>, AllocError> {
    let mut events = Vec::new(alloc);
    events.push(Event::Write(BString::from_slice(alloc, b"\xff")?, Vec::new(alloc)))?;
    events.push(Event::Stage(BString::from_slice(alloc, b"\xff")?))?;
    Ok(events)
}

#[test]
fn an_index_with_a_path_that_is_no_text_is_not_opened_again(rt: HostRuntime) -> Result<(), Fail> {
    let mut stretches = Vec::new(rt.alloc());
    stretches.push(odd_events(rt.alloc())?)?;
    stretches.push(events(rt.alloc(), &[run_at(5)])?)?;
    let world = new_world(rt.alloc(), FIVE, SECONDS)?;
    let replayed = replay_reopening(&rt, rt.alloc(), world, &stretches);
    let is_not_opened = matches!(
        &replayed.stopped,
        Some(Stop::Opening {
            stretch: 1,
            refusal: Refusal::OtherIndex,
        })
    );
    assert!(rt; is_not_opened, "{:?}", replayed.stopped);
    assert_eq!(rt; replayed.reports.len(), 0);
    assert_eq!(rt; replayed.world.index().entries().len(), 1);
    Ok(())
}
