//! Loose objects: the header in front of the content.

ghost use Rattle.std.specs.Prelude.{◌≡◌, ◌↔◌, IsTrue, ◌≤◌, IfOk, decimal, vec_len};
ghost use Rattle.git_objects.specs.Objects.{object_bytes};

use crate::fault::ObjectFault;
use crate::inflate::inflate;
use crate::object::{Object, ObjectKind};
use crate::split::split_at_byte;
use std::alloc::Global;

/// The most bytes of a header: the longest name, a space, the most digits, and a zero byte.
const HEADER_LEN: usize = 28;

/// The kind and the content that the decompressed bytes of a loose object have.
#[derive(Clone, Copy)]
pub(crate) struct Parts<'a> {
    pub(crate) kind: ObjectKind,
    pub(crate) content: &'a [u8],
}

/// Returns the object that a loose object's file has. Its content has at most `limit` bytes.
///
/// # Errors
/// The file isn't what git writes, the content has more bytes, or out of memory.
pub fn read_loose(alloc: Global, file: &[u8], limit: usize) -> Result<Object, ObjectFault>
    ensures { IfOk result (λ o. vec_len o.bytes ≤ limit) }
{
    let bytes = inflate(alloc, file, limit.saturating_add(HEADER_LEN))?;
    let parts = split_loose(bytes.as_slice())?;
    if parts.content.len() > limit {
        return Err(ObjectFault::TooLarge);
    }
    Ok(Object {
        kind: parts.kind,
        bytes: parts.content.to_vec(alloc)?,
    })
}

/// Splits the decompressed bytes of a loose object into its kind and its content.
///
/// # Errors
/// Returns `BrokenHeader` if they don't begin with a kind, a space, the length of the content in decimal and a zero
/// byte.
pub(crate) fn split_loose(bytes: &[u8]) -> Result<Parts<'_>, ObjectFault>
    ensures { IfOk result (λ parts. object_bytes parts.kind parts.content.now ≡ bytes.entry.now) }
{
    let Some((header, content)) = split_at_byte(bytes, 0) else {
        return Err(ObjectFault::BrokenHeader);
    };
    let Some((name, len)) = split_at_byte(header, b' ') else {
        return Err(ObjectFault::BrokenHeader);
    };
    let Some(kind) = ObjectKind::from_name(name) else {
        return Err(ObjectFault::BrokenHeader);
    };
    if !is_decimal(len, content.len()) {
        return Err(ObjectFault::BrokenHeader);
    }
    Ok(Parts { kind, content })
}

/// Returns whether digits are those of a number in decimal, without zeros in front.
fn is_decimal(digits: &[u8], number: usize) -> bool
    ensures { IsTrue result ↔ (decimal number ≡ digits.now) }
{
    let mut buffer = itoa::Buffer::new();
    buffer.format(number).as_bytes() == digits
}
