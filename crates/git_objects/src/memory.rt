//! A store of objects in memory.

ghost use Rattle.std.specs.Prelude.{◌≡◌, IfOk};
ghost use Rattle.git_objects.specs.Objects.{id_of_object};

use crate::fault::ObjectFault;
use crate::object::{Object, ObjectKind, certified, id_of};
use crate::read::ReadObject;
use status_index::{HashKind, ObjectId};
use std::alloc::{AllocError, Global};

/// An object with its id.
#[derive(Drop)]
struct Stored {
    id: ObjectId,
    object: Object,
}

/// Objects in memory. They are searched for in the order in which they were added.
#[derive(Drop)]
pub struct MemoryObjects {
    stored: Vec<Stored>,
}

impl MemoryObjects {
    /// Returns a store without objects. Allocates no memory.
    pub fn new(alloc: Global) -> MemoryObjects {
        MemoryObjects {
            stored: Vec::new(alloc),
        }
    }

    /// Adds the object of this kind and content, and returns its id.
    ///
    /// # Errors
    /// Out of memory.
    pub fn add(
        &mut self,
        hash: HashKind,
        kind: ObjectKind,
        bytes: Vec<u8>,
    ) -> Result<ObjectId, AllocError>
        ensures { IfOk result (λ id. id ≡ id_of_object hash kind bytes.items) }
    {
        let id = id_of(hash, kind, &bytes);
        let object = Object { kind, bytes };
        self.stored.push(Stored { id, object })?;
        Ok(id)
    }
}

impl ReadObject for MemoryObjects {
    fn read(&self, id: ObjectId) -> Result<Object, ObjectFault> {
        for stored in &self.stored {
            if stored.id == id {
                let kind = stored.object.kind;
                let bytes = stored.object.bytes.clone()?;
                return certified(id, Object { kind, bytes });
            }
        }
        Err(ObjectFault::Missing { id })
    }
}
