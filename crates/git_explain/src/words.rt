//! Paths, nodes, stats and ids as they are shown.

use git_status::lines::Quoted;
use status_base::worktree::{Metadata, NodeKind};
use status_index::{Mode, ObjectId, Stat, Time};
use std::fmt;

/// A path: as it is, or in quotes as git prints it if it has a character that git quotes.
#[derive(Clone, Copy)]
pub(crate) struct PathText<'a>(pub(crate) &'a [u8]);

impl fmt::Display for PathText<'_> {
    fn fmt<W: fmt::Write>(&self, f: &mut fmt::Formatter<W>) -> fmt::Result {
        if self.0.iter().any(|byte| is_special(*byte)) {
            return write!(f, "{}", Quoted { path: self.0 });
        }
        for byte in self.0 {
            f.write_char(char::from(*byte))?;
        }
        Ok(())
    }
}

/// Returns whether a path with this byte is shown in quotes.
fn is_special(byte: u8) -> bool {
    byte <= b' ' || byte >= 127 || byte == b'"' || byte == b'\\'
}

/// A node that was found.
#[derive(Clone, Copy)]
pub(crate) struct NodeText(pub(crate) Metadata);

impl fmt::Display for NodeText {
    fn fmt<W: fmt::Write>(&self, f: &mut fmt::Formatter<W>) -> fmt::Result {
        let node = &self.0;
        match node.kind {
            NodeKind::Directory => return f.write_str("a directory"),
            NodeKind::File if node.executable => f.write_str("an executable file")?,
            NodeKind::File => f.write_str("a file")?,
            NodeKind::Link => f.write_str("a link")?,
            NodeKind::Other => f.write_str("neither a file nor a link nor a directory")?,
        }
        write!(f, " of {} bytes, ", node.len)?;
        write_time(f, "mtime", node.mtime)?;
        write_time(f, "ctime", node.ctime)?;
        write!(
            f,
            "inode {}, owner {}, group {}",
            node.ino, node.uid, node.gid
        )
    }
}

/// Writes the name of a time and the time, as seconds since 1970 with nine digits of a fraction.
fn write_time<W: fmt::Write>(
    f: &mut fmt::Formatter<W>,
    name: &str,
    time: Option<Time>,
) -> fmt::Result {
    match time {
        Some(time) => write!(f, "{name} {}.{:09}, ", time.secs, time.nsecs),
        None => write!(f, "no {name} that fits, "),
    }
}

/// The kind and the stat of an entry of the index.
#[derive(Clone, Copy)]
pub(crate) struct EntryText {
    pub(crate) mode: Mode,
    pub(crate) stat: Stat,
}

impl fmt::Display for EntryText {
    fn fmt<W: fmt::Write>(&self, f: &mut fmt::Formatter<W>) -> fmt::Result {
        let stat = &self.stat;
        write!(f, "{} of {} bytes, ", mode_words(self.mode), stat.size)?;
        write_time(f, "mtime", Some(stat.mtime))?;
        write_time(f, "ctime", Some(stat.ctime))?;
        write!(
            f,
            "inode {}, owner {}, group {}",
            stat.ino, stat.uid, stat.gid
        )
    }
}

/// Returns the words of a mode.
pub(crate) fn mode_words(mode: Mode) -> &'static str {
    match mode {
        Mode::File => "a file",
        Mode::FileExecutable => "an executable file",
        Mode::Symlink => "a link",
        Mode::Commit => "a submodule",
        Mode::Dir => "a directory",
    }
}

/// An id, in hexadecimal digits.
#[derive(Clone, Copy)]
pub(crate) struct IdText(pub(crate) ObjectId);

impl fmt::Display for IdText {
    fn fmt<W: fmt::Write>(&self, f: &mut fmt::Formatter<W>) -> fmt::Result {
        for byte in self.0.as_bytes() {
            write!(f, "{byte:02x}")?;
        }
        Ok(())
    }
}
