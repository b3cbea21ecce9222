//! Deltas of packs: a content that is made from that of another object.

ghost use Rattle.std.specs.Prelude.{◌≡◌, ◌≤◌, vec_len, IfOk, OnOk};

use crate::cursor::Cursor;
use crate::fault::ObjectFault;
use std::alloc::Global;

/// How many bytes are copied if a command has no number of them.
const COPIED: usize = 0x1_0000;

/// Returns the content that a delta makes from a base. It has at most `limit` bytes.
///
/// # Errors
/// Returns `BrokenDelta` if the delta isn't one of this base, `TooLarge` if the content has more than `limit` bytes,
/// and `Memory` if an allocation fails.
pub fn apply_delta(
    alloc: Global,
    base: &[u8],
    delta: &[u8],
    limit: usize,
) -> Result<Vec<u8>, ObjectFault>
    ensures { IfOk result (λ content. vec_len content ≤ limit) }
{
    let mut commands = Cursor { rest: delta };
    if commands.number(0, 0) != Some(base.len()) {
        return Err(ObjectFault::BrokenDelta);
    }
    let Some(len) = commands.number(0, 0) else {
        return Err(ObjectFault::BrokenDelta);
    };
    if len > limit {
        return Err(ObjectFault::TooLarge);
    }
    let mut out = Vec::with_capacity(alloc, len)?;
    for _ in 0..delta.len() {
        if commands.rest.is_empty() {
            break;
        }
        let Some(bytes) = next_bytes(&mut commands, base) else {
            return Err(ObjectFault::BrokenDelta);
        };
        append_within(&mut out, len, bytes)?;
    }
    if out.len() != len {
        return Err(ObjectFault::BrokenDelta);
    }
    Ok(out)
}

/// Takes a command, and returns the bytes that it adds: some of the base, or some of the delta. None if there are no
/// such bytes.
fn next_bytes<'a>(commands: &mut Cursor<'a>, base: &'a [u8]) -> Option<&'a [u8]> {
    let command = commands.byte()?;
    if command == 0 {
        return None;
    }
    if command < 0x80 {
        return commands.bytes(command);
    }
    let start = parts(commands, command, 4)?;
    let len = match parts(commands, command / 16, 3)? {
        0 => COPIED,
        len => len,
    };
    base.get(start..start.saturating_add(len))
}

/// Takes the bytes of a number, the lowest one first. Of these, only the ones are there whose bits are set.
fn parts(commands: &mut Cursor<'_>, bits: usize, count: u32) -> Option<usize> {
    let mut number = 0usize;
    for turn in 0..count {
        if bits.wrapping_shr(turn) & 1 == 1 {
            let byte = commands.byte()?;
            number |= byte.wrapping_shl(turn.saturating_mul(8));
        }
    }
    Some(number)
}

/// Appends bytes, if there are at most `limit` afterwards.
fn append_within(out: &mut Vec<u8>, limit: usize, bytes: &[u8]) -> Result<(), ObjectFault> {
    if bytes.len() > limit.saturating_sub(out.len()) {
        return Err(ObjectFault::BrokenDelta);
    }
    Ok(out.extend_from_slice(bytes)?)
}
