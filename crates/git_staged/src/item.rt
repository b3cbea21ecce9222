//! The bytes of a tree's items, and the id of a tree.

ghost use Rattle.std.specs.Prelude.{◌≡◌, ◌++◌, OnOk};
ghost use Rattle.git_staged.specs.Trees.{tree_object_id, item_bytes, item_start, octal_mode};

use git_objects::{ObjectKind, id_of};
use status_index::{HashKind, Mode, ObjectId};
use std::alloc::AllocError;

/// Returns a mode in octal, as a tree has it: a folder's without a zero in front.
fn digits_of(mode: Mode) -> &'static [u8]
    ensures { result.now ≡ octal_mode mode }
{
    match mode {
        Mode::Dir => b"40000",
        Mode::File => b"100644",
        Mode::FileExecutable => b"100755",
        Mode::Symlink => b"120000",
        Mode::Commit => b"160000",
    }
}

/// Appends what precedes an item's id: its mode, its name and a zero byte.
///
/// # Errors
/// Out of memory.
pub(crate) fn push_start(bytes: &mut Vec<u8>, mode: Mode, name: &[u8]) -> Result<(), AllocError>
    ensures { OnOk result (bytes.new.items ≡ bytes.old.items ++ item_start mode name.now) }
{
    bytes.extend_from_slice(digits_of(mode))?;
    bytes.extend_from_slice(b" ")?;
    bytes.extend_from_slice(name)?;
    bytes.extend_from_slice(b"\0")
}

/// Appends an item of a tree.
///
/// # Errors
/// Out of memory.
pub(crate) fn push_item(
    bytes: &mut Vec<u8>,
    mode: Mode,
    name: &[u8],
    id: ObjectId,
) -> Result<(), AllocError>
    ensures { OnOk result (bytes.new.items ≡ bytes.old.items ++ item_bytes mode name.now id) }
{
    push_start(bytes, mode, name)?;
    bytes.extend_from_slice(id.as_bytes())
}

/// Returns the id of the tree with these bytes. Allocates no memory.
pub(crate) fn id_of_tree(kind: HashKind, bytes: &[u8]) -> ObjectId
    ensures { result ≡ tree_object_id kind bytes.now }
{
    id_of(kind, ObjectKind::Tree, bytes)
}
