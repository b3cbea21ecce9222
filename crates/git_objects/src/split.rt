//! Splits bytes at a byte, and takes ids.

ghost use Rattle.std.specs.Prelude.{◌≡◌, IfSome, ◌∷◌, ◌++◌, position, take, drop, length};
ghost use Rattle.status_index.specs.BlobId.{id_bytes, id_kind};
ghost use Rattle.git_objects.specs.Contents.{id_len};
ghost use Rattle.git_objects.specs.Splits.{IsSplitAt, is_byte};

use status_index::{HashKind, ObjectId};

/// Splits bytes at the first byte of this value, which is in neither part. None if no byte has it.
pub(crate) fn split_at_byte(bytes: &[u8], value: u8) -> Option<(&[u8], &[u8])>
    ensures { IfSome result (λ parts. IsSplitAt value bytes.entry.now parts.0.now parts.1.now) }
{
    match position_of(bytes, value) {
        Some(at) => Some((&bytes[..at], &bytes[at + 1..])),
        None => None,
    }
}

/// Returns the position of the first byte of this value.
fn position_of(bytes: &[u8], value: u8) -> Option<usize>
    ensures { result ≡ position (is_byte value) bytes.now }
{
    bytes.iter().position(|byte| *byte == value)
}

/// Returns the number of bytes of an id.
pub(crate) fn id_len(hash: HashKind) -> usize
    ensures { result ≡ id_len hash }
{
    match hash {
        HashKind::Sha1 => 20,
        HashKind::Sha256 => 32,
    }
}

/// Returns the id of these bytes. None if ids of this kind have another number of bytes.
pub(crate) fn id_of_bytes(hash: HashKind, bytes: &[u8]) -> Option<ObjectId>
    ensures bytes { IfSome result (λ id. id_bytes id ≡ bytes.now) }
    ensures kind { IfSome result (λ id. id_kind id ≡ hash) }
    ensures len { IfSome result (λ id. length (id_bytes id) ≡ id_len hash) }
{
    match hash {
        HashKind::Sha1 => match <[u8; 20]>::try_from(bytes) {
            Ok(digest) => Some(ObjectId::Sha1(digest)),
            Err(_) => None,
        },
        HashKind::Sha256 => match <[u8; 32]>::try_from(bytes) {
            Ok(digest) => Some(ObjectId::Sha256(digest)),
            Err(_) => None,
        },
    }
}
