//! The texts of errors, of faults and of bytes.

use crate::support::prelude::*;
use StatusError::{Find, IllformedUtf8, Io, SpawnThread};
use status_base::stack::StackError;
use status_base::worktree::{FindError, TreeError};
use status_call::index_as_worktree::Error as StatusError;
use status_index::{ByteText, TimeError};
use status_joined::index_as_worktree_with_renames::Error;
use status_rewrites::{Refused, TrackerError};
use status_stored::{LoadError, ReopenError, StoreError};
use status_walk::{IdError, WalkError};
use std::fmt::Display;

const MEMORY: &str = "Out of memory";

const CLOCK: &str =
    "The clock was off when reading file related metadata after updating a file on disk";

// Returns whether a value has this text.
fn is_shown<T: Display>(alloc: Global, value: &T, want: &str) -> bool {
    match format!(in alloc; "{value}") {
        Ok(text) => text.as_str() == want,
        Err(_) => false,
    }
}

#[test]
fn faults_have_words(rt: HostRuntime) {
    for (fault, want) in [
        (Fault::NotFound, "not found"),
        (Fault::NotADirectory, "not a directory"),
        (Fault::PermissionDenied, "permission denied"),
        (Fault::Interrupted, "interrupted"),
        (Fault::IllformedUtf8, "ill-formed UTF-8"),
        (Fault::UnexpectedEnd, "unexpected end"),
        (Fault::NotNormal, "not normal"),
        (Fault::Memory, MEMORY),
        (Fault::Other(12), "other 12"),
    ] {
        assert!(rt; is_shown(rt.alloc(), &fault, want), "{want}");
    }
}

#[test]
fn errors_of_indexes_worktrees_and_blobs_have_words(rt: HostRuntime) {
    for (error, want) in [
        (IndexError::EmptyPath { at: 3 }, "empty path at 3"),
        (IndexError::NotAscending { at: 0 }, "not ascending at 0"),
        (IndexError::MixedHash { at: 12 }, "mixed hash at 12"),
        (IndexError::Memory, MEMORY),
    ] {
        assert!(rt; is_shown(rt.alloc(), &error, want), "{want}");
    }
    assert!(rt; is_shown(rt.alloc(), &TimeError, CLOCK));
    for (error, want) in [
        (TreeError::BadPath, "bad path"),
        (TreeError::InTheWay, "in the way"),
        (TreeError::Memory, MEMORY),
    ] {
        assert!(rt; is_shown(rt.alloc(), &error, want), "{want}");
    }
    assert!(rt; is_shown(rt.alloc(), &FindError::Missing, "missing object"));
    assert!(rt; is_shown(rt.alloc(), &FindError::Memory, MEMORY));
}

#[test]
fn errors_of_the_link_check_have_words(rt: HostRuntime) {
    let (component, prefix) = (BStr::from(".."), BStr::from("l"));
    let not_normal = "The path has the component '..', where none may be empty, `.` or `..`";
    let through = "Cannot step through symlink to perform an lstat";
    for (error, want) in [
        (StackError::EmptyPath, "The path is empty"),
        (StackError::NotNormal { component }, not_normal),
        (StackError::ThroughLink { prefix }, through),
        (StackError::Fault(Fault::NotFound), "not found"),
        (StackError::Memory, MEMORY),
    ] {
        assert!(rt; is_shown(rt.alloc(), &error, want), "{want}");
    }
}

// Returns whether an error of the joined call has this text.
fn is_error(alloc: Global, error: Error, want: &str) -> bool {
    is_shown(alloc, &error, want)
}

// Returns whether an error of the status has this text, also in the joined call.
fn is_status_error(alloc: Global, error: StatusError, want: &str) -> bool {
    is_shown(alloc, &error, want) && is_error(alloc, Error::from(error), want)
}

#[test]
fn errors_of_a_status_have_words(rt: HostRuntime) {
    let alloc = rt.alloc();
    let io = "IO error while writing blob or reading file metadata or changing filetype";
    let find = "Failed to obtain blob from object database";
    assert!(rt; is_status_error(alloc, IllformedUtf8, "Could not convert path to UTF8"));
    assert!(rt; is_status_error(alloc, StatusError::Time, CLOCK));
    assert!(rt; is_status_error(alloc, SpawnThread, "Could not start a worker thread"));
    assert!(rt; is_status_error(alloc, StatusError::Memory, MEMORY));
    assert!(rt; is_status_error(alloc, Io(Fault::NotFound), io));
    assert!(rt; is_status_error(alloc, Find(FindError::Missing), find));
    // In the joined call there is one error for each allocation that fails.
    assert!(rt; is_error(alloc, Error::from(Io(Fault::Memory)), MEMORY));
    assert!(rt; is_error(alloc, Error::from(Find(FindError::Memory)), MEMORY));
    assert!(rt; is_error(alloc, Error::from(AllocError), MEMORY));
}

#[test]
fn errors_of_the_joined_call_have_words(rt: HostRuntime) {
    let (alloc, fault) = (rt.alloc(), Fault::NotFound);
    let open = "Could not open worktree file for reading";
    let link = "Could not read worktree link content";
    let context = "Failed to change the context for querying gitattributes to the respective path";
    assert!(rt; is_error(alloc, Error::SpawnThread, "Could not start a worker thread"));
    assert!(rt; is_error(alloc, Error::SetAttributeContext, context));
    assert!(rt; is_error(alloc, Error::OpenWorktreeFile(fault), open));
    assert!(rt; is_error(alloc, Error::HashFile(fault), "not found"));
    assert!(rt; is_error(alloc, Error::ReadLink(fault), link));
    assert!(rt; is_error(alloc, Error::ConvertToGit(fault), "not found"));
    for (error, want) in [
        (TrackerError::BadPair { at: 3 }, "tracker"),
        (TrackerError::Refused(5), "tracker"),
        (TrackerError::Memory, MEMORY),
    ] {
        assert!(rt; is_shown(alloc, &error, want), "{error:?}");
        assert!(rt; is_error(alloc, Error::from(error), want), "{error:?}");
    }
    assert!(rt; is_shown(alloc, &Refused::BadPair { at: 3 }, "bad pair at 3"));
    assert!(rt; is_shown(alloc, &Refused::Memory, MEMORY));
}

// Returns the error of a submodule at `sub`, and that of a walk at `d`.
fn errors_at_paths(alloc: Global) -> Result<(StatusError, WalkError), AllocError> {
    let submodule = StatusError::SubmoduleStatus {
        rela_path: ByteText::from_slice(alloc, b"sub")?,
        text: ByteText::from_slice(alloc, b"no head")?,
    };
    let walk = WalkError::Fault {
        rela_path: BString::from_slice(alloc, b"d")?,
        fault: Fault::PermissionDenied,
    };
    Ok((submodule, walk))
}

#[test]
fn errors_of_submodules_walks_and_ids_have_words(rt: HostRuntime) -> Result<(), Fail> {
    let alloc = rt.alloc();
    let (submodule, walk) = errors_at_paths(alloc)?;
    let want = "Could not determine status for submodule at 'sub'";
    assert!(rt; is_status_error(alloc, submodule, want));
    assert!(rt; is_shown(alloc, &walk, "permission denied"));
    assert!(rt; is_error(alloc, Error::DirWalk(walk), "permission denied"));
    assert!(rt; is_shown(alloc, &WalkError::Memory, MEMORY));
    for error in [
        IdError::Open(Fault::NotFound),
        IdError::Hash(Fault::NotFound),
        IdError::ReadLink(Fault::NotFound),
        IdError::Convert(Fault::NotFound),
    ] {
        assert!(rt; is_shown(alloc, &error, "not found"), "{error:?}");
    }
    Ok(())
}

#[test]
fn errors_of_storing_and_loading_have_words(rt: HostRuntime) {
    let (alloc, not_text) = (rt.alloc(), "the path of entry 1 isn't UTF-8");
    let form = "a key is missing or has a wrong form";
    let mixed = LoadError::Index(IndexError::MixedHash { at: 2 });
    assert!(rt; is_shown(alloc, &StoreError::NotUtf8 { at: 1 }, not_text));
    assert!(rt; is_shown(alloc, &StoreError::Memory, MEMORY));
    assert!(rt; is_shown(alloc, &LoadError::Form, form));
    assert!(rt; is_shown(alloc, &mixed, "mixed hash at 2"));
    assert!(rt; is_shown(alloc, &LoadError::Memory, MEMORY));
    assert!(rt; is_shown(alloc, &ReopenError::NotUtf8 { at: 1 }, not_text));
    assert!(rt;
        is_shown(
            alloc,
            &ReopenError::Unreadable,
            "the stored index can't be read"
        )
    );
    assert!(rt; is_shown(alloc, &ReopenError::Memory, MEMORY));
}

#[test]
fn bytes_are_shown_as_text(rt: HostRuntime) -> Result<(), Fail> {
    let text = ByteText::new(Vec::from_slice(rt.alloc(), b"a b")?);
    let copy = ByteText::from_slice(rt.alloc(), text.as_bytes())?;
    let shown = format!(in rt.alloc(); "{copy} {copy:?}")?;
    assert_eq!(rt; shown.as_str(), "a b \"a b\"");
    Ok(())
}
