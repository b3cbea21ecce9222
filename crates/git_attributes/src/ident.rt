//! What git stores of a file with the attribute `ident`: each id, `$Id: .. $`, is stored as `$Id$`.

ghost use Rattle.std.specs.Prelude.{◌≡◌, ◌++◌, OnOk};
ghost use Rattle.git_attributes.specs.Ident.{begins_id, has_dollar, without_ids};

use std::alloc::AllocError;

/// Returns whether the first line has a dollar sign: one comes before any line feed.
fn has_dollar(text: &[u8]) -> bool
    ensures { result ≡ has_dollar text.now }
{
    let mut rest = text;
    'bytes: while let [byte, after @ ..] = rest {
        if *byte == b'$' {
            return true;
        }
        if *byte == b'\n' {
            return false;
        }
        rest = after;
    }
    false
}

/// Returns whether an id begins if this text is after a dollar sign: `Id:` comes first, and then a dollar sign on the same
/// line.
fn begins_id(text: &[u8]) -> bool
    ensures { result ≡ begins_id text.now }
{
    match text {
        [b'I', b'd', b':', rest @ ..] => has_dollar(rest),
        _ => false,
    }
}

/// Appends the bytes that git stores of a file with the attribute `ident` (gitattributes(5)): each `$Id: .. $` within a line
/// is `$Id$`.
///
/// # Errors
/// Out of memory.
pub fn push_without_ids(text: &[u8], stored: &mut Vec<u8>) -> Result<(), AllocError>
    ensures { OnOk result (stored.new.items ≡ stored.old.items ++ without_ids text.now) }
{
    let mut is_within = false;
    let mut rest = text;
    'bytes: while let [byte, after @ ..] = rest {
        if is_within {
            is_within = *byte != b'$';
        } else if *byte == b'$' && begins_id(after) {
            stored.extend_from_slice(b"$Id$")?;
            is_within = true;
        } else {
            stored.push(*byte)?;
        }
        rest = after;
    }
    Ok(())
}
