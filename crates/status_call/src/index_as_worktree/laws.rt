//! Laws of the definitions of a status. Each function's contract is a law, and no function does anything.

ghost use Rattle.std.specs.Prelude.{◌≡◌};
ghost use Rattle.status_index.specs.Entries.{IndexEntry};
ghost use Rattle.status_index.specs.declared.id.ObjectId.{ObjectId as BlobId};
ghost use Rattle.status_compare.specs.FastAgrees.{FastAgrees};
ghost use Rattle.status_call.specs.Laws.{ModificationLaw, UnreadLaw, ExecutableLaw, AscendLaw, CutLaw, FaultLaw, OneConflictLaw, HeadLaw, IdsLaw, SizesLaw, IdReadsLaw, SizeReadsLaw};
ghost use Rattle.status_call.specs.ListedStatus.{ListingsLaw};
ghost use Rattle.status_call.specs.Query.{Query};
ghost use Rattle.status_call.specs.StatusTable.{Row, IsTableRow, StatusTable};

/// An entry's status is the one of its row in the status table.
pub fn status_meets_table<T: Drop, U: Drop>()
    ensures { (q : Query T U) (e : IndexEntry) → StatusTable q e }
{}

/// Each entry is in a row of the status table.
pub fn rows_cover<T: Drop, U: Drop>()
    ensures { (q : Query T U) (e : IndexEntry) → ((r : Row) × IsTableRow q e r) }
{}

/// No entry is in two rows of the status table.
pub fn rows_exclude<T: Drop, U: Drop>()
    ensures { (q : Query T U) (e : IndexEntry) (a b : Row) → IsTableRow q e a → IsTableRow q e b → a ≡ b }
{}

/// A modification is of the executability, the content or both. It asks for size 0 only with a change of content, and
/// only if the entry is trusted and racy: its stat agrees with the node's, and may hide a write.
pub fn modification_has_a_change<T: Drop, U: Drop>()
    ensures { (q : Query T U) → ModificationLaw q }
{}

/// For an entry of a submodule or a directory the comparer isn't called, and no content is read.
pub fn directories_are_not_read<T: Drop, U: Drop>()
    ensures { (q : Query T U) → UnreadLaw q }
{}

/// An executable change is reported only if executability counts. It is of a regular file that is executable when the
/// entry's mode isn't, or the other way round.
pub fn executable_change_is_of_a_file<T: Drop, U: Drop>()
    ensures { (q : Query T U) → ExecutableLaw q }
{}

/// The records are in index order, at most one an entry.
pub fn records_ascend<T: Drop, U: Drop>()
    ensures { (q : Query T U) → AscendLaw q }
{}

/// If no path has entries on both sides of a position, each side of the index can be processed by itself.
pub fn cut_separates<T: Drop, U: Drop>()
    ensures { (q : Query T U) → CutLaw q }
{}

/// An entry's fault is the first of the index if no entry before it has one.
pub fn fault_is_first<T: Drop, U: Drop>()
    ensures { (q : Query T U) → FaultLaw q }
{}

/// A path has one record of a conflict. After an unskipped entry with a stage above 0, no entry of its path has a
/// record or a fault.
pub fn one_conflict_a_path<T: Drop, U: Drop>()
    ensures { (q : Query T U) → OneConflictLaw q }
{}

/// An entry with a stage above 0 reports a conflict, unless it is skipped or over. It is over if an unskipped entry of
/// its path has a smaller stage above 0.
pub fn head_reports_a_conflict<T: Drop, U: Drop>()
    ensures { (q : Query T U) → HeadLaw q }
{}

/// Comparison by ids never returns that a thread was refused.
pub fn ids_refuse_no_thread<U: Drop>()
    ensures { (q : Query BlobId U) → IdsLaw q }
{}

/// Comparison by sizes never returns that a thread was refused.
pub fn sizes_refuse_no_thread<U: Drop>()
    ensures { (q : Query (Unit {0}) U) → SizesLaw q }
{}

/// Comparison by ids reads no blob, and its reads are modelled.
pub fn ids_read_no_blob<U: Drop>()
    ensures { (q : Query BlobId U) → IdReadsLaw q }
{}

/// Comparison by sizes reads no blob, and its reads are modelled.
pub fn sizes_read_no_blob<U: Drop>()
    ensures { (q : Query (Unit {0}) U) → SizeReadsLaw q }
{}

/// Comparison by sizes reports a change of a file or link exactly if comparison by ids does. This has conditions. The
/// file delivers as many bytes as its length, and nothing converts it. The contents at hand have different ids unless
/// they are equal, and the entry stores its content's size or 0.
pub fn fast_agrees_with_hash()
    ensures { (e : IndexEntry) → FastAgrees e }
{}

/// Listings of directories change no record and no fault, if executability doesn't count and listings are as `lstat`
/// has it. This is required of each known path that isn't below a link: the kind, the length and both times are equal,
/// and `lstat` returns 0 as device, inode and owners. Listings have no executability, device, inode or owners.
pub fn listings_change_nothing<T: Drop, U: Drop>()
    ensures { (q : Query T U) → ListingsLaw q }
{}
