//! Hashes: how long an id is, the digest of a content, and the checksum at the end of a file.

ghost use Rattle.std.specs.Prelude.{◌≡◌, ◌↔◌, IsTrue};
ghost use Rattle.git_index.specs.File.{IsChecksum};
ghost use Rattle.git_index.specs.RawEntry.{id_len};
ghost use Rattle.status_index.specs.BlobId.{digest_id};

use sha2::Digest;
use status_index::{HashKind, ObjectId};

/// Returns the number of bytes of an id.
pub(crate) fn id_len_of(kind: HashKind) -> usize
    ensures { result ≡ id_len kind }
{
    match kind {
        HashKind::Sha1 => 20,
        HashKind::Sha256 => 32,
    }
}

/// Returns the digest of a content.
pub(crate) fn digest(kind: HashKind, content: &[u8]) -> ObjectId
    ensures { result ≡ digest_id kind content.now }
{
    match kind {
        HashKind::Sha1 => ObjectId::Sha1(sha1::Sha1::digest(content)),
        HashKind::Sha256 => ObjectId::Sha256(sha2::Sha256::digest(content)),
    }
}

/// Returns whether `sum` is the checksum of this content, or zeros.
pub(crate) fn is_checksum(kind: HashKind, content: &[u8], sum: &[u8]) -> bool
    ensures { IsTrue result ↔ IsChecksum kind content.now sum.now }
{
    sum == ObjectId::null(kind).as_bytes() || sum == digest(kind, content).as_bytes()
}
