//! A path joined to a root.

ghost use Rattle.std.specs.Prelude.{◌≡◌, ◌+◌, [], length, take, drop, IfOk, OnOk, vec_len};
ghost use Rattle.status_base.specs.Paths.{joined};

use std::alloc::AllocError;

/// Replaces the content of a buffer by a path joined to a root, and returns the position of the path. An empty root
/// adds nothing before the path.
///
/// # Errors
/// Out of memory.
pub(crate) fn join_into(buffer: &mut Vec<u8>, root: &[u8], path: &[u8]) -> Result<usize, AllocError>
    ensures joined { OnOk result (buffer.new.items ≡ joined root.now path.now) }
    ensures below { IfOk result (λ start. take start buffer.new.items ≡ joined root.now []) }
    ensures path { IfOk result (λ start. drop start buffer.new.items ≡ path.now) }
    ensures length { IfOk result (λ start. start + length path.now ≡ vec_len buffer.new) }
{
    buffer.clear();
    if !root.is_empty() {
        buffer.extend_from_slice(root)?;
        buffer.push(b'/')?;
    }
    let start = buffer.len();
    buffer.extend_from_slice(path)?;
    Ok(start)
}
