//! Reading an object by its id.

use crate::fault::ObjectFault;
use crate::object::Object;
use status_index::ObjectId;

/// A store of objects.
pub trait ReadObject {
    ghost use Rattle.std.specs.Prelude.{IfOk};
    ghost use Rattle.git_objects.specs.Objects.{HasId};

    /// Returns the object of an id. Its kind and content have this id.
    ///
    /// # Errors
    /// Returns `Missing` if the store has no object of this id, and otherwise why the object can't be read.
    fn read(&self, id: ObjectId) -> Result<Object, ObjectFault>
        ensures { IfOk result (HasId id) };
}
