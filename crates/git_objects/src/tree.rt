//! The content of a tree: its items, one after the other.

ghost use Rattle.std.specs.Prelude.{◌≡◌, ◌+◌, ◌-◌, ◌*◌, IfSome, All};
ghost use Rattle.git_objects.specs.Contents.{IsOctal, octal_after};

use crate::fault::ObjectFault;
use crate::split::{id_len, id_of_bytes, split_at_byte};
use status_index::{HashKind, ObjectId};

/// An item of a tree.
#[derive(Clone, Copy, Debug, PartialEq, Eq)]
pub struct TreeItem<'a> {
    /// The mode, as the tree has it: 0o40000 for a folder. Old trees have modes that git doesn't write today, such as
    /// 0o100664.
    pub mode: u32,
    /// The name.
    pub name: &'a [u8],
    /// The id of the object.
    pub id: ObjectId,
}

/// The first item of a tree, and the bytes after it.
#[derive(Clone, Copy, Debug, PartialEq, Eq)]
pub struct FirstItem<'a> {
    /// The item.
    pub item: TreeItem<'a>,
    /// The bytes after it, which are those of the other items.
    pub rest: &'a [u8],
}

impl<'a> FirstItem<'a> {
    ghost use Rattle.std.specs.Prelude.{[], IfOk, MatchOption};
    ghost use Rattle.git_objects.specs.Contents.{BeginsWith};

    /// Returns the first item of a tree with these bytes, and the rest. None if there are no bytes.
    ///
    /// # Errors
    /// Returns `BrokenTree` if the bytes don't begin with an item, or its mode has more than 32 bits.
    pub fn of_tree(hash: HashKind, bytes: &'a [u8]) -> Result<Option<FirstItem<'a>>, ObjectFault>
        ensures { IfOk result (λ found. MatchOption found (bytes.entry.now ≡ []) (λ first. BeginsWith hash bytes.entry.now first.item first.rest.now)) }
    {
        if bytes.is_empty() {
            return Ok(None);
        }
        let Some((digits, after_mode)) = split_at_byte(bytes, b' ') else {
            return Err(ObjectFault::BrokenTree);
        };
        let Some(mode) = octal_number(digits) else {
            return Err(ObjectFault::BrokenTree);
        };
        let Some((name, after_name)) = split_at_byte(after_mode, 0) else {
            return Err(ObjectFault::BrokenTree);
        };
        if name.is_empty() {
            return Err(ObjectFault::BrokenTree);
        }
        let len = id_len(hash);
        if after_name.len() < len {
            return Err(ObjectFault::BrokenTree);
        }
        let (id, rest) = after_name.split_at(len);
        let Some(id) = id_of_bytes(hash, id) else {
            return Err(ObjectFault::BrokenTree);
        };
        let item = TreeItem { mode, name, id };
        Ok(Some(FirstItem { item, rest }))
    }
}

/// Returns the number of these octal digits. None if there are none, if one isn't an octal digit, or if the number has
/// more than 32 bits.
fn octal_number(digits: &[u8]) -> Option<u32>
    ensures value { IfSome result (λ number. octal_after 0 digits.now ≡ number) }
    ensures octal { IfSome result (λ _. All IsOctal digits.now) }
{
    if digits.is_empty() {
        return None;
    }
    let mut number = 0u32;
    'digits: for digit in digits {
        number = match and_digit(number, *digit) {
            Some(number) => number,
            None => return None,
        };
    }
    Some(number)
}

/// Returns a number with one more octal digit. None if it isn't one, or if the number has more than 32 bits then.
fn and_digit(number: u32, digit: u8) -> Option<u32>
    ensures value { IfSome result (λ more. more ≡ number * 8 + (digit - 48)) }
    ensures octal { IfSome result (λ _. IsOctal digit) }
{
    if digit < b'0' || digit > b'7' || number >= 1 << 29 {
        return None;
    }
    Some(number * 8 + u32::from(digit - b'0'))
}
