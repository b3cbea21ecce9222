//! An object: its kind, its content, and its id.

ghost use Rattle.std.specs.Prelude.{◌≡◌, IfOk, IfSome, OnOk};
ghost use Rattle.git_objects.specs.Objects.{HasId, id_of_object, kind_name};

use crate::fault::ObjectFault;
use sha2::Digest;
use status_index::{HashKind, ObjectId};

/// The kind of an object.
#[derive(Clone, Copy, Debug, PartialEq, Eq)]
pub enum ObjectKind {
    /// A commit.
    Commit,
    /// A tree, the list of what is in a folder.
    Tree,
    /// A blob, the content of a file.
    Blob,
    /// An annotated tag.
    Tag,
}

/// An object that was read.
#[derive(Debug, Drop)]
pub struct Object {
    /// Its kind.
    pub kind: ObjectKind,
    /// Its content, without a header.
    pub bytes: Vec<u8>,
}

impl ObjectKind {
    /// Returns the name of the kind, as an object's header has it.
    pub fn name(self) -> &'static [u8]
        ensures { result.now ≡ kind_name self }
    {
        match self {
            ObjectKind::Commit => b"commit",
            ObjectKind::Tree => b"tree",
            ObjectKind::Blob => b"blob",
            ObjectKind::Tag => b"tag",
        }
    }

    /// Returns the kind of this name. None if no kind has it.
    pub fn from_name(name: &[u8]) -> Option<ObjectKind>
        ensures { IfSome result (λ kind. kind_name kind ≡ name.now) }
    {
        match name {
            b"commit" => Some(ObjectKind::Commit),
            b"tree" => Some(ObjectKind::Tree),
            b"blob" => Some(ObjectKind::Blob),
            b"tag" => Some(ObjectKind::Tag),
            _ => None,
        }
    }
}

/// Returns the id of the object of this kind and content: the digest of the kind's name, a space, the content's length
/// in decimal, a zero byte, and the content. Allocates no memory.
pub fn id_of(hash: HashKind, kind: ObjectKind, content: &[u8]) -> ObjectId
    ensures { result ≡ id_of_object hash kind content.now }
{
    let mut buffer = itoa::Buffer::new();
    let len = buffer.format(content.len()).as_bytes();
    match hash {
        HashKind::Sha1 => {
            let mut hasher = sha1::Sha1::new();
            hasher.update(kind.name());
            hasher.update(b" ");
            hasher.update(len);
            hasher.update(b"\0");
            hasher.update(content);
            ObjectId::Sha1(hasher.finalize())
        }
        HashKind::Sha256 => {
            let mut hasher = sha2::Sha256::new();
            hasher.update(kind.name());
            hasher.update(b" ");
            hasher.update(len);
            hasher.update(b"\0");
            hasher.update(content);
            ObjectId::Sha256(hasher.finalize())
        }
    }
}

/// Returns the object that was found under an id, if its kind and content have this id.
///
/// # Errors
/// Returns `WrongId` if they have another one.
pub fn certified(id: ObjectId, object: Object) -> Result<Object, ObjectFault>
    ensures { IfOk result (HasId id) }
{
    if id_of(id.kind(), object.kind, &object.bytes) != id {
        return Err(ObjectFault::WrongId { id });
    }
    Ok(object)
}
