//! The content of a commit.

ghost use Rattle.std.specs.Prelude.{◌≡◌, Ok, IfOk, IfSome};
ghost use Rattle.hex.specs.Hex.{decode_of};
ghost use Rattle.status_index.specs.BlobId.{id_bytes, id_kind};
ghost use Rattle.git_objects.specs.Contents.{NamesTree};

use crate::fault::ObjectFault;
use crate::split::split_at_byte;
use hex::FromHex;
use status_index::{HashKind, ObjectId};

/// Returns the tree of the commit with this content.
///
/// # Errors
/// Returns `BrokenCommit` if the first line isn't `tree` with an id of this kind.
pub fn tree_of_commit(hash: HashKind, bytes: &[u8]) -> Result<ObjectId, ObjectFault>
    ensures { IfOk result (NamesTree hash bytes.now) }
{
    let Some(rest) = bytes.strip_prefix(b"tree ") else {
        return Err(ObjectFault::BrokenCommit);
    };
    let Some((digits, _)) = split_at_byte(rest, b'\n') else {
        return Err(ObjectFault::BrokenCommit);
    };
    match id_of_digits(hash, digits) {
        Some(id) => Ok(id),
        None => Err(ObjectFault::BrokenCommit),
    }
}

/// Returns the id of these hexadecimal digits. None if ids of this kind have others.
fn id_of_digits(hash: HashKind, digits: &[u8]) -> Option<ObjectId>
    ensures decoded { IfSome result (λ id. decode_of digits.now ≡ Ok (id_bytes id)) }
    ensures kind { IfSome result (λ id. id_kind id ≡ hash) }
{
    match hash {
        HashKind::Sha1 => match <[u8; 20] as FromHex>::from_hex(digits) {
            Ok(digest) => Some(ObjectId::Sha1(digest)),
            Err(_) => None,
        },
        HashKind::Sha256 => match <[u8; 32] as FromHex>::from_hex(digits) {
            Ok(digest) => Some(ObjectId::Sha256(digest)),
            Err(_) => None,
        },
    }
}
