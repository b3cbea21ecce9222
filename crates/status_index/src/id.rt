//! The ids of objects.

ghost use Rattle.std.specs.Prelude.{◌≡◌, ◌↔◌, IsTrue, []};
ghost use Rattle.status_index.specs.BlobId.{id_kind, id_bytes, id_from_bytes, null_id, blob_id, is_empty_blob};

// The SHA-1 id of the empty blob.
const EMPTY_SHA1: [u8; 20] = [
    0xe6, 0x9d, 0xe2, 0x9b, 0xb2, 0xd1, 0xd6, 0x43, 0x4b, 0x8b, 0x29, 0xae, 0x77, 0x5a, 0xd8, 0xc2,
    0xe4, 0x8c, 0x53, 0x91,
];

// The SHA-256 id of the empty blob.
const EMPTY_SHA256: [u8; 32] = [
    0x47, 0x3a, 0x0f, 0x4c, 0x3b, 0xe8, 0xa9, 0x36, 0x81, 0xa2, 0x67, 0xe3, 0xb1, 0xe9, 0xa7, 0xdc,
    0xda, 0x11, 0x85, 0x43, 0x6f, 0xe1, 0x41, 0xf7, 0x74, 0x91, 0x20, 0xa3, 0x03, 0x72, 0x18, 0x13,
];

/// The digest that makes ids, from FIPS 180-4.
#[derive(Clone, Copy, Debug, PartialEq, Eq, PartialOrd, Ord, Hash)]
pub enum HashKind {
    /// SHA-1, of 20 bytes.
    Sha1,
    /// SHA-256, of 32 bytes.
    Sha256,
}

/// The id of an object: its digest. Ids are ordered by kind, and then by bytes.
#[derive(Clone, Copy, Debug, PartialEq, Eq, PartialOrd, Ord)]
pub enum ObjectId {
    /// A SHA-1 digest.
    Sha1([u8; 20]),
    /// A SHA-256 digest.
    Sha256([u8; 32]),
}

impl ObjectId {
    /// Returns the id of these bytes: a SHA-1 id for 20 bytes, a SHA-256 id for 32. Returns None for any other number
    /// of bytes.
    pub fn from_bytes(bytes: &[u8]) -> Option<ObjectId>
        ensures { result ≡ id_from_bytes bytes.now }
    {
        if let Ok(digest) = <[u8; 20]>::try_from(bytes) {
            return Some(ObjectId::Sha1(digest));
        }
        match <[u8; 32]>::try_from(bytes) {
            Ok(digest) => Some(ObjectId::Sha256(digest)),
            Err(_) => None,
        }
    }

    /// Returns the kind of digest.
    pub fn kind(&self) -> HashKind
        ensures { result ≡ id_kind self.now }
    {
        match self {
            ObjectId::Sha1(_) => HashKind::Sha1,
            ObjectId::Sha256(_) => HashKind::Sha256,
        }
    }

    /// Returns the digest's bytes.
    pub fn as_bytes(&self) -> &[u8]
        ensures { result.now ≡ id_bytes self.now }
    {
        match self {
            ObjectId::Sha1(digest) => digest,
            ObjectId::Sha256(digest) => digest,
        }
    }

    /// Returns the id of all zero bytes, which no object has.
    pub fn null(kind: HashKind) -> ObjectId
        ensures { result ≡ null_id kind }
    {
        match kind {
            HashKind::Sha1 => ObjectId::Sha1([0; 20]),
            HashKind::Sha256 => ObjectId::Sha256([0; 32]),
        }
    }

    /// Returns whether all bytes are zero.
    pub fn is_null(&self) -> bool
        ensures { IsTrue result ↔ (self.now ≡ null_id (id_kind self.now)) }
    {
        *self == ObjectId::null(self.kind())
    }

    /// Returns the id of the blob without bytes. It is a constant, so nothing is hashed.
    #[tactic(auto, using(crate::proofs::EmptyBlob::empty_ids))]
    pub fn empty_blob(kind: HashKind) -> ObjectId
        ensures { result ≡ blob_id kind [] }
    {
        match kind {
            HashKind::Sha1 => ObjectId::Sha1(EMPTY_SHA1),
            HashKind::Sha256 => ObjectId::Sha256(EMPTY_SHA256),
        }
    }

    /// Returns whether this is the id of the blob without bytes, for its own kind of digest.
    pub fn is_empty_blob(&self) -> bool
        ensures { result ≡ is_empty_blob self.now }
    {
        *self == ObjectId::empty_blob(self.kind())
    }
}
