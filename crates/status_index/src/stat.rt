//! The metadata that a worktree reports of a file, the part of it that an index keeps (its stat), and whether a stat
//! may hide a change.

ghost use Rattle.std.specs.Prelude.{◌≡◌};
ghost use Rattle.status_index.specs.Stat.{time_agrees, owner_agrees, stat_agrees, is_racy};
ghost use Rattle.std.specs.Result.{result_ok};
ghost use Rattle.status_index.specs.NodeStat.{stat_of};

use thiserror::Error;

/// A time of a file: seconds since 1970 and nanoseconds. Times are ordered by seconds, and then by nanoseconds.
#[derive(Clone, Copy, Debug, Default, PartialEq, Eq, PartialOrd, Ord)]
pub struct Time {
    /// The seconds since 1970.
    pub secs: u32,
    /// The nanoseconds within the second.
    pub nsecs: u32,
}

/// A moment of the clock. Moments are ordered by seconds, and then by nanoseconds.
#[derive(Clone, Copy, Debug, Default, PartialEq, Eq, PartialOrd, Ord)]
pub struct Moment {
    /// The seconds since 1970.
    pub secs: u32,
    /// The nanoseconds within the second.
    pub nsecs: u32,
}

/// The part of a file's metadata that an index entry keeps (git's index format, `struct stat` data).
#[derive(Clone, Copy, Debug, Default, PartialEq, Eq, PartialOrd, Ord)]
pub struct Stat {
    /// The time of the content's last change.
    pub mtime: Time,
    /// The time of the metadata's last change.
    pub ctime: Time,
    /// The device.
    pub dev: u32,
    /// The inode.
    pub ino: u32,
    /// The owner.
    pub uid: u32,
    /// The owner's group.
    pub gid: u32,
    /// The low 32 bits of the length. If it is 0 and the content isn't empty, the entry's content has to be compared.
    pub size: u32,
}

/// Which parts of two stats have to be equal (git's `core.trustctime` and `core.checkStat`).
#[derive(Clone, Copy, Debug, PartialEq, Eq, Hash)]
pub struct Options {
    /// Whether `ctime` counts.
    pub trust_ctime: bool,
    /// Whether owner and inode count and, if `use_nsec` is on, nanoseconds.
    pub check_stat: bool,
    /// Whether nanoseconds count, together with `check_stat`.
    pub use_nsec: bool,
    /// Whether the device counts, together with `check_stat`.
    pub use_stdev: bool,
}

impl Default for Options {
    ghost use Rattle.std.specs.Prelude.{◌≡◌};
    ghost use Rattle.status_index.specs.DefaultOptions.{default_options};

    ghost is_default = { λ o. o ≡ default_options };

    fn default() -> Options {
        Options {
            trust_ctime: true,
            check_stat: true,
            use_nsec: false,
            use_stdev: false,
        }
    }
}

/// Returns whether the seconds are equal, and the nanoseconds if they count.
fn times_agree(a: Time, b: Time, options: Options) -> bool
    ensures { result ≡ time_agrees options a b }
{
    a.secs == b.secs && (!(options.check_stat && options.use_nsec) || a.nsecs == b.nsecs)
}

/// Returns whether inode, group and owner are equal, and the device if it counts.
fn owners_agree(a: &Stat, b: &Stat, options: Options) -> bool
    ensures { result ≡ owner_agrees options a.now b.now }
{
    a.ino == b.ino && a.gid == b.gid && a.uid == b.uid && (!options.use_stdev || a.dev == b.dev)
}

impl Stat {
    /// Returns whether the two stats agree in all parts that count by `options`.
    pub fn matches(&self, other: &Stat, options: Options) -> bool
        ensures { result ≡ stat_agrees options self.now other.now }
    {
        times_agree(self.mtime, other.mtime, options)
            && self.size == other.size
            && (!options.trust_ctime || times_agree(self.ctime, other.ctime, options))
            && (!options.check_stat || owners_agree(self, other, options))
    }

    /// Returns whether this stat may hide a write at the moment `timestamp` or after it ("racy git").
    pub fn is_racy(&self, timestamp: Moment, options: Options) -> bool
        ensures { result ≡ is_racy options timestamp self.now }
    {
        if timestamp.secs != self.mtime.secs {
            return timestamp.secs < self.mtime.secs;
        }
        !(options.check_stat && options.use_nsec) || timestamp.nsecs <= self.mtime.nsecs
    }
}

/// The kind of a node of a worktree.
#[derive(Clone, Copy, Debug, PartialEq, Eq)]
pub enum NodeKind {
    /// A regular file.
    File,
    /// A symbolic link, which isn't followed.
    Link,
    /// A directory.
    Directory,
    /// Anything else, such as a pipe or a device.
    Other,
}

/// The metadata that `lstat` reports of a node.
#[derive(Clone, Copy, Debug, PartialEq, Eq)]
pub struct Metadata {
    /// The kind of the node.
    pub kind: NodeKind,
    /// The length in bytes.
    pub len: u64,
    /// Whether a regular file's owner may execute it.
    pub executable: bool,
    /// The time of the content's last change. None if it is unknown or doesn't fit.
    pub mtime: Option<Time>,
    /// The time of the metadata's last change. None if it is unknown or doesn't fit.
    pub ctime: Option<Time>,
    /// The device.
    pub dev: u32,
    /// The inode.
    pub ino: u32,
    /// The owner.
    pub uid: u32,
    /// The owner's group.
    pub gid: u32,
}

/// A time of a node is unknown.
#[derive(Clone, Copy, Debug, PartialEq, Eq, Error)]
#[error("The clock was off when reading file related metadata after updating a file on disk")]
pub struct TimeError;

impl Metadata {
    /// Returns the stat that an index keeps of this node. Its size is the low 32 bits of the length.
    ///
    /// # Errors
    /// Returns an error if `mtime` or `ctime` is unknown.
    pub fn to_stat(&self) -> Result<Stat, TimeError>
        ensures { result_ok result ≡ stat_of self.now }
    {
        let (Some(mtime), Some(ctime)) = (self.mtime, self.ctime) else {
            return Err(TimeError);
        };
        Ok(Stat {
            mtime,
            ctime,
            dev: self.dev,
            ino: self.ino,
            uid: self.uid,
            gid: self.gid,
            size: (self.len % (1 << 32)) as u32,
        })
    }
}
