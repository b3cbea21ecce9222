//! Folders of the disk that tests make.

use crate::support::inputs::STAGED;
use std::fs::{File, OpenFile, Permissions};
use std::os::unix::fs::{PermissionsExt, symlink};
use std::rt::Files;
use std::time::{Duration, UNIX_EPOCH};
use std::{env, fs, io, process};

/// Makes a new folder of temporary files, named by a test and this process. One that an earlier process with this id left
/// is removed.
pub fn own_folder(rt: &HostRuntime, test: &str) -> io::Result<String> {
    let parent = env::temp_dir(rt)?;
    let (path, id) = (parent.as_path(), process::id(rt.process()));
    let folder = format!(in rt.alloc(); "{}/gix_status_{test}_{id}", path.as_str())?;
    let _ = fs::remove_dir_all(rt, folder.as_str());
    fs::create_dir(rt, folder.as_str())?;
    Ok(folder)
}

/// Returns the path of a name in a folder.
pub fn within<R: AllocGlobal>(rt: &R, folder: &str, name: &str) -> io::Result<String> {
    Ok(format!(in rt.alloc(); "{folder}/{name}")?)
}

/// Opens a file for writing.
pub fn writer<R: Files>(rt: &R, path: &str) -> io::Result<R::File> {
    File::options().write(true).open(rt, path)
}

/// What `fill` does at a path in a folder.
#[derive(Clone, Copy)]
pub enum FolderNode<'a> {
    /// A file with this text.
    File(&'a str),
    /// The same, as old as the entries of an index.
    Staged(&'a str),
    /// A link to this target.
    Link(&'a str),
    Folder,
    /// Sets when the file was last changed.
    Changed(Duration),
    /// Sets the mode of the node.
    Mode(u32),
}

// Sets when a file was last changed.
fn set_time<R: Files>(rt: &R, path: &str, time: Duration) -> io::Result<()>
where
    R::File: Drop,
{
    let Some(time) = UNIX_EPOCH.checked_add(time) else {
        return Err(io::Error::from(io::ErrorKind::InvalidInput));
    };
    writer(rt, path)?.set_times(fs::FileTimes::new().set_modified(time))
}

fn put<R: Files>(rt: &R, path: &str, node: FolderNode<'_>) -> io::Result<()>
where
    R::File: Drop,
{
    match node {
        FolderNode::File(text) => fs::write(rt, path, text),
        FolderNode::Staged(text) => {
            fs::write(rt, path, text)?;
            set_time(rt, path, Duration::from_secs(u64::from(STAGED)))
        }
        FolderNode::Link(target) => symlink(rt, target, path),
        FolderNode::Folder => fs::create_dir(rt, path),
        FolderNode::Changed(time) => set_time(rt, path, time),
        FolderNode::Mode(mode) => fs::set_permissions(rt, path, Permissions::from_mode(mode)),
    }
}

/// Makes these nodes in a folder, or changes them, in order.
pub fn fill<R: Files + AllocGlobal>(
    rt: &R,
    folder: &str,
    nodes: &[(&str, FolderNode<'_>)],
) -> io::Result<()>
where
    R::File: Drop,
{
    for (name, node) in nodes {
        let path = within(rt, folder, *name)?;
        put(rt, path.as_str(), *node)?;
    }
    Ok(())
}
