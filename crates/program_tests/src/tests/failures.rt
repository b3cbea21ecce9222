//! The lines of failures that no profile causes.

use bstr::BString;
use gix_status::index::IndexError;
use gix_status::index_as_worktree::Error;
use gix_status::index_as_worktree_with_renames::Error as JoinedError;
use gix_status::tracker::TrackerError;
use gix_status::walk::WalkError;
use gix_status::worktree::{ByteText, Fault, FindError, TreeError};
use gix_status::world::Refusal;
use status_cli::Failure;
use status_profile::ProfileError;
use std::alloc::{AllocError, Global};
use std::io;
use std::process::Abort;
use std::test::Fail;

// The errors of each kind are made one after the other, and not in an array: it takes a long proof to drop an array of
// them.

static FAULTS: [(Fault, &str); 9] = [
    (Fault::NotFound, "status failed: not found\n"),
    (Fault::NotADirectory, "status failed: not a directory\n"),
    (
        Fault::PermissionDenied,
        "status failed: permission denied\n",
    ),
    (Fault::Interrupted, "status failed: interrupted\n"),
    (Fault::IllformedUtf8, "status failed: ill-formed UTF-8\n"),
    (Fault::UnexpectedEnd, "status failed: unexpected end\n"),
    (Fault::NotNormal, "status failed: not normal\n"),
    (Fault::Other(0), "status failed: other 0\n"),
    (
        Fault::Other(4294967295),
        "status failed: other 4294967295\n",
    ),
];

const MEMORY: &str = "out of memory\n";

// Returns whether a failure ends the program with status 1 and this line.
fn is_reported(alloc: Global, failure: Failure, line: &str) -> bool {
    let mut faults = Vec::new(alloc);
    let status = failure.report(alloc, "d/f", &mut faults);
    status == 1 && faults.as_slice() == line.as_bytes()
}

// Asserts the line of an error of a status.
fn assert_failed<R: AllocGlobal + Abort>(rt: &R, error: Error, line: &str) {
    assert!(rt;
        is_reported(rt.alloc(), Failure::from(error), line),
        "{line}"
    );
}

// Asserts the line of an error of a status with renames.
fn assert_joined<R: AllocGlobal + Abort>(rt: &R, error: JoinedError, line: &str) {
    assert!(rt;
        is_reported(rt.alloc(), Failure::from(error), line),
        "{line}"
    );
}

// Asserts the line of a refused event.
fn assert_refused<R: AllocGlobal + Abort>(rt: &R, refusal: Refusal, line: &str) {
    let failure = Failure::of_event(refusal, 3);
    assert!(rt; is_reported(rt.alloc(), failure, line), "{line}");
}

// Asserts that a failure is out of memory.
fn assert_memory<R: AllocGlobal + Abort>(rt: &R, name: &str, failure: Failure) {
    assert!(rt; is_reported(rt.alloc(), failure, MEMORY), "{name}");
}

// Returns the error of a submodule, whose path has to be quoted.
fn submodule_error(alloc: Global) -> Result<Error, AllocError> {
    Ok(Error::SubmoduleStatus {
        rela_path: ByteText::from_slice(alloc, b"d/\"s\"\n\xff")?,
        text: ByteText::from_slice(alloc, b"no words of its own")?,
    })
}

// Returns the error of a walk that has this fault at `d`.
fn walk_error(alloc: Global, fault: Fault) -> Result<JoinedError, AllocError> {
    let rela_path = BString::from_slice(alloc, "d")?;
    Ok(JoinedError::DirWalk(WalkError::Fault { rela_path, fault }))
}

#[test]
fn each_error_of_a_status_has_its_words(rt: HostRuntime) -> Result<(), Fail> {
    for (fault, line) in &FAULTS {
        assert_failed(&rt, Error::Io(*fault), line);
    }
    let submodule = submodule_error(rt.alloc())?;
    let line = "status failed: submodule \"d/\\\"s\\\"\\n\u{fffd}\"\n";
    assert_failed(&rt, submodule, line);
    let utf8 = Error::IllformedUtf8;
    assert_failed(&rt, utf8, "status failed: ill-formed UTF-8\n");
    assert_failed(&rt, Error::Time, "status failed: time\n");
    let missing = Error::Find(FindError::Missing);
    assert_failed(&rt, missing, "status failed: missing object\n");
    assert_failed(&rt, Error::SpawnThread, "status failed: no thread\n");
    Ok(())
}

// Asserts the lines of the errors of a status with renames that have a fault.
fn assert_joined_faults<R: AllocGlobal + Abort>(rt: &R) {
    let open = JoinedError::OpenWorktreeFile(Fault::Other(7));
    assert_joined(rt, open, "status failed: open: other 7\n");
    let hash = JoinedError::HashFile(Fault::UnexpectedEnd);
    assert_joined(rt, hash, "status failed: hash: unexpected end\n");
    let link = JoinedError::ReadLink(Fault::IllformedUtf8);
    assert_joined(rt, link, "status failed: read link: ill-formed UTF-8\n");
    let convert = JoinedError::ConvertToGit(Fault::Interrupted);
    assert_joined(rt, convert, "status failed: convert: interrupted\n");
}

// Asserts that errors of a status have the same lines in a status with renames.
fn assert_joined_errors<R: AllocGlobal + Abort>(rt: &R) {
    let fault = JoinedError::TrackedFileModifications(Error::Io(Fault::NotNormal));
    assert_joined(rt, fault, "status failed: not normal\n");
    let time = JoinedError::TrackedFileModifications(Error::Time);
    assert_joined(rt, time, "status failed: time\n");
    let thread = JoinedError::TrackedFileModifications(Error::SpawnThread);
    assert_joined(rt, thread, "status failed: no thread\n");
}

#[test]
fn each_error_of_a_status_with_renames_has_its_words(rt: HostRuntime) -> Result<(), Fail> {
    let walk = walk_error(rt.alloc(), Fault::PermissionDenied)?;
    assert_joined(&rt, walk, "status failed: walk: permission denied\n");
    assert_joined_errors(&rt);
    assert_joined_faults(&rt);
    assert_joined(&rt, JoinedError::SpawnThread, "status failed: no thread\n");
    let pair = JoinedError::RewriteTracker(TrackerError::BadPair { at: 3 });
    assert_joined(&rt, pair, "status failed: tracker\n");
    let refused = JoinedError::RewriteTracker(TrackerError::Refused(4));
    assert_joined(&rt, refused, "status failed: tracker\n");
    let attributes = JoinedError::SetAttributeContext;
    assert_joined(&rt, attributes, "status failed: attributes\n");
    Ok(())
}

#[test]
fn each_refusal_that_no_event_meets_has_its_words(rt: HostRuntime) {
    assert_refused(&rt, Refusal::TooLarge, "refused 3: too large\n");
    assert_refused(&rt, Refusal::Interrupted, "refused 3: interrupted\n");
    let failed = Refusal::Run(Error::SpawnThread);
    assert_refused(&rt, failed, "refused 3: run failed\n");
    assert_refused(&rt, Refusal::OtherIndex, "refused 3: other index\n");
}

// Asserts the failures for out of memory before a status.
fn assert_memory_before<R: AllocGlobal + Abort>(rt: &R) {
    assert_memory(rt, "a buffer", Failure::Memory);
    let unread = io::Error::from(io::ErrorKind::OutOfMemory);
    assert_memory(rt, "reading", Failure::of_reading(unread));
    let unwritten = io::Error::from(io::ErrorKind::OutOfMemory);
    assert_memory(rt, "writing", Failure::of_writing(unwritten));
    assert_memory(rt, "a profile", Failure::from(ProfileError::Memory));
    let index = ProfileError::of_index(IndexError::Memory);
    assert_memory(rt, "an index", Failure::from(index));
    assert_memory(rt, "a node", Failure::of_node(TreeError::Memory, 3));
    assert_memory(rt, "a start", Failure::of_start(Refusal::Memory));
}

// Asserts the failures for out of memory in a status, alone and as a run.
fn assert_memory_of_a_status<R: AllocGlobal + Abort>(rt: &R) {
    assert_failed(rt, Error::Memory, MEMORY);
    assert_failed(rt, Error::Io(Fault::Memory), MEMORY);
    assert_failed(rt, Error::Find(FindError::Memory), MEMORY);
    assert_refused(rt, Refusal::Memory, MEMORY);
    assert_refused(rt, Refusal::Run(Error::Memory), MEMORY);
    assert_refused(rt, Refusal::Run(Error::Io(Fault::Memory)), MEMORY);
}

// Asserts the failures for out of memory in a status with renames.
fn assert_memory_of_renames<R: AllocGlobal + Abort>(rt: &R) {
    assert_joined(rt, JoinedError::Memory, MEMORY);
    let modifications = JoinedError::TrackedFileModifications(Error::Memory);
    assert_joined(rt, modifications, MEMORY);
    assert_joined(rt, JoinedError::DirWalk(WalkError::Memory), MEMORY);
    assert_joined(rt, JoinedError::OpenWorktreeFile(Fault::Memory), MEMORY);
    assert_joined(rt, JoinedError::HashFile(Fault::Memory), MEMORY);
    assert_joined(rt, JoinedError::ReadLink(Fault::Memory), MEMORY);
    assert_joined(rt, JoinedError::ConvertToGit(Fault::Memory), MEMORY);
    let tracker = JoinedError::RewriteTracker(TrackerError::Memory);
    assert_joined(rt, tracker, MEMORY);
}

#[test]
fn out_of_memory_has_one_line_wherever_it_is_met(rt: HostRuntime) -> Result<(), Fail> {
    let walk = walk_error(rt.alloc(), Fault::Memory)?;
    assert_joined(&rt, walk, MEMORY);
    assert_memory_before(&rt);
    assert_memory_of_a_status(&rt);
    assert_memory_of_renames(&rt);
    Ok(())
}
