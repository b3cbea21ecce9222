//! The commands, over bytes in memory instead of files.

use status_cli::{run_refresh, run_replay, run_status};
use std::test::Fail;

const PROFILE: &str = r#"{"hash":"sha1","timestamp":[9,0],
"options":{"comparer":"hash","chunk_size":1,"thread_limit":2},
"index":[
{"path":"a","id":"19102815663d23f8b75a47e7a01965dcdc96468c","size":3,"mtime":[5,0]},
{"path":"b","id":"ba0e162e1c47469e3fe4b393a8bf8c569f302116","size":3,"mtime":[5,0]}],
"worktree":[
{"path":"a","text":"bars","mtime":[7,0]},
{"path":"b","text":"bar","mtime":[5,0]}]}"#;

const LINES: &str = "0 modified -c- \"a\"\n";

// The refreshed profile, after the bytes that were there before.
const REFRESHED: &str = concat!(
    r#"before {"hash":"sha1","index":[{"ctime":[5,0],"dev":0,"flags":[],"gid":0,"#,
    r#""id":"19102815663d23f8b75a47e7a01965dcdc96468c","ino":0,"mode":"100644","mtime":[5,0],"path":"a","size":3,"#,
    r#""stage":0,"uid":0},{"ctime":[5,0],"dev":0,"flags":[],"gid":0,"id":"ba0e162e1c47469e3fe4b393a8bf8c569f302116","#,
    r#""ino":0,"mode":"100644","mtime":[5,0],"path":"b","size":3,"stage":0,"uid":0}],"#,
    r#""options":{"chunk_size":1,"comparer":"hash","thread_limit":2},"timestamp":[10,0],"#,
    r#""worktree":[{"mtime":[7,0],"path":"a","text":"bars"},{"mtime":[5,0],"path":"b","text":"bar"}]}"#,
    "\n",
);

const SORTED: &str =
    r#"{"hash":"sha1","timestamp":[9,0],"options":{"sort":true},"index":[],"worktree":[]}"#;

#[test]
fn a_status_is_printed_to_any_writer(rt: HostRuntime) {
    let mut profile = PROFILE.as_bytes();
    let mut output = Vec::new(rt.alloc());
    let mut faults = Vec::new(rt.alloc());
    let status = run_status(&rt, "f", &mut profile, &mut output, &mut faults);
    assert_eq!(rt; status, 0);
    assert_eq!(rt; output.as_slice(), LINES.as_bytes());
    assert!(rt; faults.is_empty());
}

#[test]
fn a_profile_that_cannot_be_replayed_is_refused(rt: HostRuntime) {
    let mut profile = "no profile".as_bytes();
    let mut output = Vec::new(rt.alloc());
    let mut faults = Vec::new(rt.alloc());
    let status = run_replay(&rt, "f", &mut profile, &mut output, &mut faults);
    assert_eq!(rt; status, 1);
    assert!(rt; output.is_empty());
    assert_eq!(rt; faults.as_slice(), "not JSON\n".as_bytes());
}

// Profiles, each with the exit status of `refresh`, its output, its line on standard error, and the bytes of its file.
// The file has `before ` at first.
static REFRESHES: [(&str, u8, &str, &str, &str); 2] = [
    (PROFILE, 0, LINES, "", REFRESHED),
    (SORTED, 1, "", "bad profile: options\n", "before "),
];

#[test]
fn a_refreshed_profile_is_appended(rt: HostRuntime) -> Result<(), Fail> {
    for (text, status, lines, fault, left) in &REFRESHES {
        let mut profile = text.as_bytes();
        let mut output = Vec::new(rt.alloc());
        let mut faults = Vec::new(rt.alloc());
        let mut refreshed = Vec::from_slice(rt.alloc(), b"before ")?;
        let ended = run_refresh(
            &rt,
            "f",
            10,
            0,
            &mut profile,
            &mut output,
            &mut faults,
            &mut refreshed,
        );
        assert_eq!(rt; ended, *status, "at {text}");
        assert_eq!(rt; output.as_slice(), lines.as_bytes(), "at {text}");
        assert_eq!(rt; faults.as_slice(), fault.as_bytes(), "at {text}");
        assert_eq!(rt; refreshed.as_slice(), left.as_bytes(), "at {text}");
    }
    Ok(())
}
