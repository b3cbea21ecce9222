//! Files that are read, and written again: those that git wrote.

use crate::index_file::git_bytes::{LONG_END, LONG_FRONT, STRIPPED_END, STRIPPED_FRONT};
use crate::index_file::git_files::{GIT_FILES, GitFile};
use bitflags::Flags as _;
use bstr::BStr;
use git_index::{IndexFile, read_index};
use status_index::{Entry, Flags, HashKind, Moment, ObjectId, Stat};
use std::alloc::{AllocError, Global};
use std::test::Fail;

// The flags of an entry as git has them in memory: those of the file's second word are in the high half.
const GIT_FLAGS: [(Flags, u32); 3] = [
    (Flags::ASSUME_VALID, 0x8000),
    (Flags::INTENT_TO_ADD, 0x2000_4000),
    (Flags::SKIP_WORKTREE, 0x4000_4000),
];

fn git_flags(flags: Flags) -> u32 {
    let mut bits = flags.stage() % 4 * 0x1000;
    for (flag, git_bits) in GIT_FLAGS {
        if flags.contains(flag) {
            bits |= git_bits;
        }
    }
    bits
}

// Appends what git prints of a file's stat.
fn push_stat(text: &mut String, stat: Stat) -> Result<(), AllocError> {
    let (ctime, mtime) = (stat.ctime, stat.mtime);
    let (secs, nsecs) = (ctime.secs, ctime.nsecs);
    writeln!(text, "  ctime: {secs}:{nsecs}")?;
    let (secs, nsecs) = (mtime.secs, mtime.nsecs);
    writeln!(text, "  mtime: {secs}:{nsecs}")?;
    let (dev, ino) = (stat.dev, stat.ino);
    writeln!(text, "  dev: {dev}\tino: {ino}")?;
    let (uid, gid) = (stat.uid, stat.gid);
    writeln!(text, "  uid: {uid}\tgid: {gid}")
}

// Appends what `git ls-files --stage --debug` prints of an entry.
fn push_entry(text: &mut String, entry: &Entry, path: BStr<'_>) -> Result<(), AllocError> {
    let mode = entry.mode.bits();
    write!(text, "{mode:06o} ")?;
    for byte in entry.id.as_bytes() {
        write!(text, "{byte:02x}")?;
    }
    let stage = entry.stage_raw();
    writeln!(text, " {stage}\t{path}")?;
    push_stat(text, entry.stat)?;
    let (size, flags) = (entry.stat.size, git_flags(entry.flags));
    writeln!(text, "  size: {size}\tflags: {flags:x}")
}

fn listing(alloc: Global, file: &IndexFile<'_>) -> Result<String, AllocError> {
    let mut text = String::new(alloc);
    for entry in file.state.entries() {
        push_entry(&mut text, entry, entry.path_in(file.state.path_backing()))?;
    }
    Ok(text)
}

// Returns whether the file is read as git reads it.
fn is_as_git_says(
    alloc: Global,
    bytes: &[u8],
    want: &GitFile,
    has_checksum: bool,
) -> Result<bool, Fail> {
    let file = read_index(alloc, want.kind, bytes, Moment::default())?;
    let listing = listing(alloc, &file)?;
    Ok(
        listing.as_str() == want.listing
            && file.kind == want.kind
            && file.version == want.version
            && file.extensions == want.extensions
            && file.has_checksum == has_checksum,
    )
}

// Returns the file with zeros in the place of its checksum, as git writes it with `index.skipHash`. The git that wrote
// the files is older than that.
fn without_checksum(alloc: Global, file: &GitFile) -> Result<Vec<u8>, AllocError> {
    let zeros = ObjectId::null(file.kind);
    let sum_len = zeros.as_bytes().len();
    let content = &file.bytes[..file.bytes.len().saturating_sub(sum_len)];
    let mut bytes = Vec::from_slice(alloc, content)?;
    bytes.extend_from_slice(zeros.as_bytes())?;
    Ok(bytes)
}

#[test]
fn files_of_git_are_read(rt: HostRuntime) -> Result<(), Fail> {
    for file in &GIT_FILES {
        assert!(rt;
            is_as_git_says(rt.alloc(), file.bytes, file, true)?,
            "at {}",
            file.name
        );
        let bytes = without_checksum(rt.alloc(), file)?;
        assert!(rt;
            is_as_git_says(rt.alloc(), &bytes, file, false)?,
            "at {}",
            file.name
        );
    }
    Ok(())
}

#[test]
fn files_of_git_are_written_as_git_wrote_them(rt: HostRuntime) -> Result<(), Fail> {
    for file in &GIT_FILES {
        let read = read_index(rt.alloc(), file.kind, file.bytes, Moment::default())?;
        assert_eq!(rt;
            read.to_bytes(rt.alloc())?.as_slice(),
            file.bytes,
            "at {}",
            file.name
        );
    }
    Ok(())
}

// Returns a file that has a path of so many times `x` between these bytes.
fn with_path(alloc: Global, front: &[u8], len: usize, end: &[u8]) -> Result<Vec<u8>, AllocError> {
    let mut bytes = Vec::from_slice(alloc, front)?;
    for _ in 0..len {
        bytes.push(b'x')?;
    }
    bytes.extend_from_slice(end)?;
    Ok(bytes)
}

// Returns the lengths of a file's paths.
fn path_lens(alloc: Global, bytes: &[u8]) -> Result<Vec<usize>, Fail> {
    let file = read_index(alloc, HashKind::Sha1, bytes, Moment::default())?;
    let mut lens = Vec::new(alloc);
    for entry in file.state.entries() {
        let path = entry.path_in(file.state.path_backing());
        lens.push(path.as_bytes().len())?;
    }
    Ok(lens)
}

#[test]
fn long_paths_are_read(rt: HostRuntime) -> Result<(), Fail> {
    // The flags state no length above 4095.
    let long = with_path(rt.alloc(), LONG_FRONT, 5000, LONG_END)?;
    assert_eq!(rt; path_lens(rt.alloc(), &long)?.as_slice(), [5000].as_slice());
    // `y` strips 200 bytes, a number that takes two.
    let stripped = with_path(rt.alloc(), STRIPPED_FRONT, 200, STRIPPED_END)?;
    assert_eq!(rt;
        path_lens(rt.alloc(), &stripped)?.as_slice(),
        [200, 1].as_slice()
    );
    Ok(())
}
