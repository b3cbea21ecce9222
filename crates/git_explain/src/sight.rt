//! The sight of one entry: the calls that were made of its worktree and its submodule, with their results.

ghost use Rattle.std.specs.Prelude.{◌≡◌, [], None};
ghost use Rattle.git_explain.specs.Sights.{result_at};

use bstr::BStr;
use status_base::worktree::{ByteText, Fault, Metadata, NodeKind};
use std::alloc::Global;

/// The fault of a call that wasn't made. No system has an error of this number.
pub const UNASKED: Fault = Fault::Other(u32::MAX);

/// A call of `lstat`.
#[derive(Debug, Drop)]
pub struct LstatCall {
    /// The path, from the worktree's top.
    pub path: Vec<u8>,
    /// The node there, or why there is none.
    pub found: Result<Metadata, Fault>,
}

/// The bytes that were read of an open file.
#[derive(Debug, Drop)]
pub struct Reading {
    /// The bytes.
    pub bytes: Vec<u8>,
    /// The fault after them. None if the file ended.
    pub fault: Option<Fault>,
}

/// The calls that were made for one entry, with their results.
#[derive(Debug, Drop)]
pub struct Sight {
    /// The calls of `lstat`, in their order: on the directories above the path, and on the path.
    pub calls: Vec<LstatCall>,
    /// The file that was opened, or the fault of opening it. None if none was opened.
    pub file: Option<Result<Reading, Fault>>,
    /// The target of the link that was read, or the fault of reading it. None if none was read.
    pub link: Option<Result<Vec<u8>, Fault>>,
    /// Whether the submodule changed, or the words of its fault. None if it wasn't asked.
    pub submodule: Option<Result<bool, ByteText>>,
}

impl Sight {
    /// Returns the sight of an entry for which no call was made.
    pub fn new(alloc: Global) -> Sight
        ensures calls { result.calls.items ≡ [] }
        ensures file { result.file ≡ None }
        ensures link { result.link ≡ None }
        ensures submodule { result.submodule ≡ None }
    {
        Sight {
            calls: Vec::new(alloc),
            file: None,
            link: None,
            submodule: None,
        }
    }

    /// Returns the result of `lstat` at a path, or that it wasn't called there.
    pub fn result_at(&self, path: &[u8]) -> Result<Metadata, Fault>
        ensures { result ≡ result_at self.now.calls.items path.now }
    {
        let mut rest = self.calls.as_slice();
        'calls: while let [call, after @ ..] = rest {
            if call.path.as_slice() == path {
                return call.found;
            }
            rest = after;
        }
        Err(UNASKED)
    }
}
