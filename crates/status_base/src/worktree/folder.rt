//! A folder of the disk, and the paths of its nodes as the system takes them.

use bstr::BStr;
use status_index::Fault;
use std::alloc::{AllocError, Global};
use std::path::Path;

// The longest path, in bytes, that is written to the stack instead of allocated memory.
const SHORT_LEN: usize = 256;

/// A folder of the disk.
#[derive(Drop)]
pub struct Folder<R> {
    /// The runtime, which has the calls of the system.
    pub rt: R,
    // The text before each path: the folder's own path and a slash, or nothing for the working folder.
    front: String,
}

impl<R: AllocGlobal + Drop> Folder<R> {
    /// Returns the folder at a path. An empty path is the working folder, in which the system has the fewest steps to a
    /// file. The folder needn't be there.
    ///
    /// # Errors
    /// Out of memory.
    pub fn new(rt: R, root: Path<'_>) -> Result<Folder<R>, AllocError> {
        let root = root.as_str();
        let mut front = String::from_str(rt.alloc(), root)?;
        if !root.is_empty() && !root.ends_with('/') {
            front.push('/')?;
        }
        Ok(Folder { rt, front })
    }

    /// Returns the path of a node of the folder, as the system takes it. It is written into the buffer, unless the node's own
    /// path is the whole of it.
    ///
    /// # Errors
    /// The path isn't UTF-8, or out of memory.
    pub fn path_of<'b>(
        &self,
        path: BStr<'b>,
        buffer: &'b mut PathBuffer,
    ) -> Result<&'b str, Fault> {
        if self.front.is_empty() {
            return text_of(path.as_bytes());
        }
        buffer.write(self.front.as_str(), path)
    }
}

/// A buffer for one path. A short path is within the buffer itself, so that a call for it needn't allocate.
#[derive(Drop)]
pub struct PathBuffer {
    short: [u8; SHORT_LEN],
    long: Vec<u8>,
}

impl PathBuffer {
    /// Returns an empty buffer.
    pub fn new(alloc: Global) -> PathBuffer {
        PathBuffer {
            short: [0; SHORT_LEN],
            long: Vec::new(alloc),
        }
    }

    /// Writes the text `front` and a path after it. Returns both as one path.
    fn write(&mut self, front: &str, path: BStr<'_>) -> Result<&str, Fault> {
        let (front, path) = (front.as_bytes(), path.as_bytes());
        let whole = if path.len() <= SHORT_LEN && front.len() <= SHORT_LEN - path.len() {
            let len = front.len() + path.len();
            self.short[..front.len()].copy_from_slice(front);
            self.short[front.len()..len].copy_from_slice(path);
            &self.short[..len]
        } else {
            self.long.clear();
            self.long.extend_from_slice(front)?;
            self.long.extend_from_slice(path)?;
            self.long.as_slice()
        };
        text_of(whole)
    }
}

/// Returns a path as text.
///
/// # Errors
/// It isn't UTF-8.
fn text_of(path: &[u8]) -> Result<&str, Fault> {
    str::from_utf8(path).map_err(|_| Fault::IllformedUtf8)
}
