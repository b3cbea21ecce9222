//! Collectors, and the report of a list's entries to one.

ghost use Rattle.std.specs.Prelude.{◌≡◌, ◌++◌, ◌∷◌, [], Bool, IsTrue, List, OnOk, OnErr, true, map, All};
ghost use Rattle.status_joined.specs.Items.{Reported, is_walked, IsReported};
ghost use Rattle.status_joined.specs.Entries.{reported_entry, reported_source};
ghost use Rattle.status_rewrites.specs.Entries.{map_rewritten, IsLed};
ghost use Rattle.status_rewrites.specs.declared.rewrites.Rewritten.TheVariants.{Alone, Rewrite};
ghost use Rattle.status_joined.specs.Feeding.{IsFed, IsReportedOne};
ghost use Rattle.status_joined.specs.ListItems.{item_of};

use crate::ModificationOrDirwalkEntry;
use crate::index_as_worktree_with_renames::entry::{Entry, RewriteSource};
use status_rewrites::Rewritten;
use std::alloc::{AllocError, Global};

/// A collector, which gets the entries of a status. Its specification is the list of the entries that it took.
pub trait VisitEntry<'index> {
    /// A comparer's report of a change.
    type ContentChange;
    /// A submodule's report of a change.
    type SubmoduleStatus;

    /// The entries that it took so far.
    ghost visits: { Self → List (Reported Self.ContentChange Self.SubmoduleStatus) };

    /// Whether it may fail to take an entry.
    ghost fails: { Bool };

    /// Takes an entry.
    ///
    /// # Errors
    /// If it is out of memory. Then the entry wasn't taken.
    fn visit_entry(
        &mut self,
        entry: Entry<'index, Self::ContentChange, Self::SubmoduleStatus>,
    ) -> Result<(), AllocError>
        ensures ok { OnOk result (visits self.new ≡ visits self.old ++ reported_entry entry.entry ∷ []) }
        ensures err { OnErr result (IsTrue fails × (visits self.new ≡ visits self.old)) };
}

/// Keeps the entries of a status in a list. If an allocation fails, the list is unchanged.
#[derive(Debug, Drop)]
pub struct Recorder<'index, T, U> {
    /// The entries, in the order in which they came.
    pub records: Vec<Entry<'index, T, U>>,
}

impl<'index, T, U> Recorder<'index, T, U> {
    ghost use Rattle.std.specs.Prelude.{◌≡◌, []};
    ghost use Rattle.status_joined.specs.RecorderItems.{reported_of_recorder};

    /// Returns a recorder with no entry.
    pub fn new(alloc: Global) -> Recorder<'index, T, U>
        ensures { reported_of_recorder result ≡ [] }
    {
        Recorder {
            records: Vec::new(alloc),
        }
    }
}

impl<'index, T: Drop, U: Drop> VisitEntry<'index> for Recorder<'index, T, U> {
    ghost use Rattle.std.specs.Prelude.{◌≡◌, ◌++◌, ◌∷◌, [], true, IsTrue, OnOk, OnErr};
    ghost use Rattle.status_joined.specs.RecorderItems.{reported_of_recorder};
    ghost use Rattle.status_joined.specs.Entries.{reported_entry};

    type ContentChange = T;

    type SubmoduleStatus = U;

    ghost visits = { reported_of_recorder };

    ghost fails = { true };

    fn visit_entry(&mut self, entry: Entry<'index, T, U>) -> Result<(), AllocError>
        ensures ok { OnOk result (reported_of_recorder self.new
            ≡ reported_of_recorder self.old ++ reported_entry entry.entry ∷ []) }
        ensures err { OnErr result (IsTrue true × (reported_of_recorder self.new ≡ reported_of_recorder self.old)) }
    {
        self.records.push(entry)?;
        Ok(())
    }
}

/// Returns the collector's entry for an item that is reported alone.
fn entry_of_item<'index, T, U>(
    item: ModificationOrDirwalkEntry<'index, T, U>,
) -> Entry<'index, T, U>
    ensures { IsReported (Alone (item_of item.entry)) (reported_entry result) }
{
    match item {
        ModificationOrDirwalkEntry::Modification(record) => Entry::Modification {
            entries: record.entries(),
            entry: record.entry,
            entry_index: record.entry_index,
            rela_path: record.relative_path,
            status: record.status,
        },
        ModificationOrDirwalkEntry::DirwalkEntry {
            entry,
            id: _,
            collapsed_directory_status,
        } => Entry::DirectoryContents {
            entry,
            collapsed_directory_status,
        },
    }
}

/// Returns the collector's form of a rewrite's source.
fn source_of_item<'index, T, U>(
    item: ModificationOrDirwalkEntry<'index, T, U>,
) -> RewriteSource<'index, T, U>
    ensures { reported_source result ≡ item_of item.entry }
{
    match item {
        ModificationOrDirwalkEntry::Modification(record) => RewriteSource::RewriteFromIndex {
            index_entries: record.entries(),
            source_entry: record.entry,
            source_entry_index: record.entry_index,
            source_rela_path: record.relative_path,
            source_status: record.status,
        },
        ModificationOrDirwalkEntry::DirwalkEntry {
            entry,
            id,
            collapsed_directory_status,
        } => RewriteSource::CopyFromDirectoryEntry {
            source_dirwalk_entry: entry,
            source_dirwalk_entry_collapsed_directory_status: collapsed_directory_status,
            source_dirwalk_entry_id: id,
        },
    }
}

/// Returns the collector's entry for a rewrite. Its destination is a node.
fn entry_of_rewrite<'index, T, U>(
    source: ModificationOrDirwalkEntry<'index, T, U>,
    destination: ModificationOrDirwalkEntry<'index, T, U>,
    copy: bool,
) -> Entry<'index, T, U>
    requires { is_walked (item_of destination) ≡ true }
    ensures { IsReported (Rewrite (item_of source.entry) (item_of destination.entry) copy) (reported_entry result) }
{
    match destination {
        ModificationOrDirwalkEntry::Modification(_record) => unreachable!(),
        ModificationOrDirwalkEntry::DirwalkEntry {
            entry,
            id,
            collapsed_directory_status,
        } => Entry::Rewrite {
            source: source_of_item(source),
            dirwalk_entry: entry,
            dirwalk_entry_collapsed_directory_status: collapsed_directory_status,
            dirwalk_entry_id: id,
            copy,
        },
    }
}

/// Returns the collector's entry for an entry of the list. A rewrite's destination is a node.
fn entry_of_rewritten<'index, T, U>(
    rewritten: Rewritten<ModificationOrDirwalkEntry<'index, T, U>>,
) -> Entry<'index, T, U>
    requires { IsLed is_walked (map_rewritten item_of rewritten) }
    ensures { IsReported (map_rewritten item_of rewritten.entry) (reported_entry result) }
{
    match rewritten {
        Rewritten::Alone(item) => entry_of_item(item),
        Rewritten::Rewrite {
            source,
            destination,
            copy,
        } => entry_of_rewrite(source, destination, copy),
    }
}

/// Passes one entry of the list to a collector.
fn feed_one<'index, V: VisitEntry<'index>>(
    entry: Rewritten<ModificationOrDirwalkEntry<'index, V::ContentChange, V::SubmoduleStatus>>,
    collector: &mut V,
) -> Result<(), AllocError>
    requires { IsLed is_walked (map_rewritten item_of entry) }
    ensures { IsReportedOne V.fails (map_rewritten item_of entry.entry) (V.visits collector.old) result (V.visits collector.new) }
{
    collector.visit_entry(entry_of_rewritten(entry))
}

/// Passes the items of a list to a collector, each alone, in order.
///
/// # Errors
/// If the collector is out of memory. Then it got the items before the one that it didn't take.
pub(crate) fn feed_items<'index, V: VisitEntry<'index>>(
    items: Vec<ModificationOrDirwalkEntry<'index, V::ContentChange, V::SubmoduleStatus>>,
    collector: &mut V,
) -> Result<(), AllocError>
where
    V::ContentChange: Drop,
    V::SubmoduleStatus: Drop,
    ensures { IsFed V.fails (map Alone (map item_of items.entry.items)) (V.visits collector.old) result (V.visits collector.new) }
{
    for item in items {
        if let Err(refused) = feed_one(Rewritten::Alone(item), collector) {
            return Err(refused);
        }
    }
    Ok(())
}

/// Passes the entries of a list with its rewrites to a collector, in order.
///
/// # Errors
/// If the collector is out of memory. Then it got the entries before the one that it didn't take.
pub(crate) fn feed_rewritten<'index, V: VisitEntry<'index>>(
    entries: Vec<
        Rewritten<ModificationOrDirwalkEntry<'index, V::ContentChange, V::SubmoduleStatus>>,
    >,
    collector: &mut V,
) -> Result<(), AllocError>
where
    V::ContentChange: Drop,
    V::SubmoduleStatus: Drop,
    requires { All (IsLed is_walked) (map (map_rewritten item_of) entries.items) }
    ensures { IsFed V.fails (map (map_rewritten item_of) entries.entry.items) (V.visits collector.old) result (V.visits collector.new) }
{
    for entry in entries {
        if let Err(refused) = feed_one(entry, collector) {
            return Err(refused);
        }
    }
    Ok(())
}
