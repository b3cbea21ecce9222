//! Laws of trees. Each function's contract is a law of the definitions, and no function does anything.
//!
//! Their premises are about the index: no path of its entries has a zero byte, no entry is a folder of a sparse index, and
//! each id is of the kind of the tree's id and has as many bytes as ids of this kind have.

ghost use Rattle.std.specs.Prelude.{List};
ghost use Rattle.status_index.specs.Entries.{IndexEntry};
ghost use Rattle.status_index.specs.declared.id.ObjectId.{ObjectId};
ghost use Rattle.git_tree_laws.specs.Agreement.{HeadIsReadLaw, HeadIsReadableLaw, WrittenIsReadLaw};

/// The files of HEAD's tree that are found if some of its folders are made of entries of an index, in place of being read, are
/// also its files if each folder is read. This states only that there are contents of trees, with the ids of the folders, of
/// which these files are read, and not that a store has them.
pub fn made_folders_can_be_read()
    ensures { (index : List IndexEntry) (id : ObjectId) (es : List IndexEntry) → HeadIsReadableLaw index id es }
{}

/// Whoever reads each folder of HEAD's tree finds the same paths, modes and ids, in the same order, as were found with some of
/// its folders made of entries of an index. Otherwise two contents of trees differ and have the same id. One of them was read by
/// whoever reads each folder. The other one was read before, or is the tree that the entries of such a folder make, or a folder
/// of that tree.
pub fn made_folders_are_read()
    ensures { (index : List IndexEntry) (id : ObjectId) (es fs : List IndexEntry) → HeadIsReadLaw index id es fs }
{}

/// Whoever reads each folder of the tree that an index makes finds the paths, modes and ids of its entries that aren't of
/// `git add -N`, in the same order. Otherwise two contents of trees differ and have the same id. One of them was read, and the
/// other one is the tree that the index makes, or a folder of it.
pub fn written_tree_is_read()
    ensures { (index : List IndexEntry) (id : ObjectId) (fs : List IndexEntry) → WrittenIsReadLaw index id fs }
{}
