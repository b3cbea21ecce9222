//! Lines of records: of changes that no profile causes, and of paths with all kinds of bytes. And the line of totals.

use bstr::BStr;
use gix_status::index::Mode;
use gix_status::index_as_worktree::{Change, EntryStatus, Outcome};
use status_cli::lines::{push_record, push_totals};
use std::alloc::Global;
use std::test::Fail;

type PlainStatus = EntryStatus<(), ()>;

// Returns whether this is the line of a record of entry 12.
fn is_line(alloc: Global, path: &[u8], status: &PlainStatus, want: &str) -> bool {
    let mut line = Vec::new(alloc);
    let pushed = push_record(&mut line, alloc, 12, BStr::new(path), status);
    pushed.is_ok() && line.as_slice() == want.as_bytes()
}

#[test]
fn a_change_to_a_directory_and_one_of_a_submodule_have_their_lines(rt: HostRuntime) {
    let to_directory = Change::TypeChange {
        worktree_mode: Mode::Dir,
    };
    let want = "12 type 040000 \"f\"\n";
    assert!(rt; is_line(rt.alloc(), b"f", &EntryStatus::Change(to_directory), want));
    let of_submodule = Change::SubmoduleModification(());
    let want = "12 submodule \"f\"\n";
    assert!(rt; is_line(rt.alloc(), b"f", &EntryStatus::Change(of_submodule), want));
}

static PATHS: [(&[u8], &str); 6] = [
    (b"d/x y", "12 intent \"d/x y\"\n"),
    (b"a\"b\\c", "12 intent \"a\\\"b\\\\c\"\n"),
    (b"\x08\x0c\n\r\t", "12 intent \"\\b\\f\\n\\r\\t\"\n"),
    (b"\0\x1f\x0b", "12 intent \"\\u0000\\u001f\\u000b\"\n"),
    (
        b"\xc3\xa9\x7f\xe2\x80\xa8",
        "12 intent \"é\u{7f}\u{2028}\"\n",
    ),
    // Bytes that aren't UTF-8 are replaced.
    (b"a\xff", "12 intent \"a\u{fffd}\"\n"),
];

#[test]
fn paths_are_json_texts(rt: HostRuntime) {
    for (path, want) in &PATHS {
        assert!(rt;
            is_line(rt.alloc(), path, &EntryStatus::IntentToAdd, want),
            "{want}"
        );
    }
}

#[test]
fn totals_have_a_line(rt: HostRuntime) -> Result<(), Fail> {
    let outcome = Outcome {
        entries_to_process: 1,
        entries_processed: 2,
        entries_skipped_by_common_prefix: 100,
        entries_skipped_by_pathspec: 20,
        entries_skipped_by_entry_flags: 3,
        symlink_metadata_calls: 4,
        entries_to_update: 5,
        racy_clean: 6,
        worktree_bytes: 18446744073709551615,
        worktree_files_read: 7,
        odb_bytes: 8,
        odb_objects_read: 9,
        interrupted: false,
    };
    let mut line = Vec::new(rt.alloc());
    push_totals(&mut line, &outcome)?;
    let want =
        "total: to process 1, processed 2, skipped 123, lstat 4, to update 5, racy 6, read 7, bytes 18446744073709551615\n";
    assert_eq!(rt; line.as_slice(), want.as_bytes());
    Ok(())
}
