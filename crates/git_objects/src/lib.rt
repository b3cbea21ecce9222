//! Git's objects by their ids: loose ones, those of packs, and those of alternates.
//!
//! Read `read` first, the interface. Whoever reads an object by it knows that the kind and the bytes have the id that was
//! asked for: `object` computes ids, and `certified` compares them. So no other part has to be trusted: a wrong one can
//! only fail. `store` reads the objects of a repository's folder, and `memory` has objects for callers and tests.
//!
//! `alternates` and `packs` list the folders and the packs of a store, and `paths` reads files. `pack_index` finds an
//! id in the index of a pack, and `pack` reads the entry at an offset, with `delta`. `loose` reads a loose object. Both
//! decompress by `inflate`. `position`, `cursor` and `split` take bytes. `commit` and `tree` read contents, and `fault` has
//! the errors.
#![tactic(auto)]

mod alternates;
pub mod commit;
mod cursor;
pub mod delta;
pub mod fault;
pub mod inflate;
pub mod loose;
pub mod memory;
pub mod object;
mod pack;
mod pack_index;
mod packs;
mod paths;
mod position;
pub mod read;
mod split;
pub mod store;
#[cfg(test)]
mod tests;
pub mod tree;

pub use commit::tree_of_commit;
pub use fault::ObjectFault;
pub use memory::MemoryObjects;
pub use object::{Object, ObjectKind, id_of};
pub use read::ReadObject;
pub use store::ObjectStore;
pub use tree::{FirstItem, TreeItem};
