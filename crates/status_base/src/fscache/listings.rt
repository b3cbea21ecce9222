//! The table of directories that were listed, and the cache of one lister's listings.

ghost use Rattle.std.specs.Prelude.{◌≡◌, IfOk, IfSome, OnOk, OnErr, IsTrue};
ghost use Rattle.std.specs.Option.{option_map};
ghost use Rattle.std.specs.FinMap as paths;
ghost use Rattle.bstr.specs.BStr.{bstr_bytes};
ghost use Rattle.status_base.specs.ListedNodes.{directory_of, file_name_of, listed};
ghost use Rattle.status_base.specs.ListingTable.{stat_in_table, HasListedOnce, HasListedNames, HasListedSeen, IsStatListed};
ghost use Rattle.std.proofs.Props.{props};

use crate::fscache::Stat;
use crate::fscache::names::Names;
use crate::worktree::Lister;
use bstr::{BStr, ByteSlice};
use std::alloc::{AllocError, Global};
use std::collections::BTreeMap;
use std::marker::Model;

/// A table of the directories that were listed, with the names in each. One that can't be listed is in the table too,
/// without names. No directory in the table is listed again.
#[derive(Drop)]
pub struct Listings {
    alloc: Global,
    directories: BTreeMap<Vec<u8>, Names>,
}

impl Model for Listings {
    ghost use Rattle.status_base.specs.ListingTable.{Table};
    ghost use Rattle.status_base.specs.PathTables.{map_of, table_code};

    ghost Value = { Table };

    ghost coded = { table_code };

    ghost view = { λ a. map_of a.directories.entries };
}

impl Listings {
    /// Returns an empty table.
    pub fn new(alloc: Global) -> Listings
        ensures { result ≡ paths.empty }
    {
        Listings {
            alloc,
            directories: BTreeMap::new(alloc),
        }
    }

    /// Returns the stat that the listing of a path's directory has for the path, or None if it has none. The directory
    /// is listed first if it isn't in the table. A path is split at its last slash; if its file name is empty, nothing
    /// is listed.
    ///
    /// Always pass the same lister to one table: directories that another lister listed before aren't listed again.
    ///
    /// # Errors
    /// Out of memory. The table is then unchanged, and the next call asks the lister again.
    pub fn get<L: Lister>(&mut self, lister: &L, path: BStr<'_>) -> Result<Option<Stat>, AllocError>
        ensures known { IfOk result (λ stat. stat ≡ stat_in_table self.new (bstr_bytes path.entry)) }
        ensures grown { OnOk result (HasListedOnce (bstr_bytes path.entry) self.old self.new) }
        ensures unchanged { OnErr result (self.new ≡ self.old) }
        ensures listed { IsTrue (L.modelled lister.now) → HasListedNames (L.listing lister.now) self.old
            → IfOk result (λ stat. stat ≡ listed (L.listing lister.now) (bstr_bytes path.entry)) }
        ensures kept { IsTrue (L.modelled lister.now) → HasListedNames (L.listing lister.now) self.old → HasListedNames (L.listing lister.now) self.new }
        ensures seen { HasListedSeen (L.may_list lister.now) self.old
            → IfOk result (λ stat. IfSome stat (IsStatListed (L.may_list lister.now) (bstr_bytes path.entry))) }
        ensures seen_kept { HasListedSeen (L.may_list lister.now) self.old → HasListedSeen (L.may_list lister.now) self.new }
    {
        let (directory, name) = split_at_last_slash(path.as_bytes());
        if name.is_empty() {
            return Ok(None);
        }
        if let Some(names) = self.names_in(directory) {
            return Ok(names.get(name));
        }
        let names = Names::of_listing(self.alloc, lister.list(BStr::new(directory))?)?;
        let stat = names.get(name);
        self.put(directory, names)?;
        Ok(stat)
    }

    /// Returns how many directories were listed, including those that can't be listed.
    pub fn listings(&self) -> u64
        ensures { result ≡ paths.len self.now }
    {
        self.directories.len() as u64
    }

    /// Returns the names in a directory if it was listed.
    fn names_in(&self, directory: &[u8]) -> Option<&Names>
        ensures { option_map (λ names. names.now) result ≡ paths.get self.now directory.now }
    {
        self.directories.get(directory)
    }

    /// Stores the names of a directory.
    fn put(&mut self, directory: &[u8], names: Names) -> Result<(), AllocError>
        ensures ok { OnOk result (self.new ≡ paths.insert self.old directory.now names) }
        ensures unchanged { OnErr result (self.new ≡ self.old) }
    {
        let key = Vec::from_slice(self.alloc, directory)?;
        match self.directories.insert(key, names) {
            Ok(_replaced) => Ok(()),
            Err(_refused) => Err(AllocError),
        }
    }
}

/// Splits a path at its last slash, into its directory and its file name.
fn split_at_last_slash(path: &[u8]) -> (&[u8], &[u8])
    ensures directory { result.0.now ≡ directory_of path.now }
    ensures name { result.1.now ≡ file_name_of path.now }
{
    match path.rfind_byte(b'/') {
        Some(at) => (&path[..at], &path[at + 1..]),
        None => (&path[..0], path),
    }
}

/// A cache of directory listings. A directory is listed when it is first needed, and isn't listed again.
#[derive(Drop)]
pub struct FsCache<'a, L: Lister> {
    lister: &'a L,
    listings: Listings,
    ghost kept: { IsTrue (L.modelled lister.now) → HasListedNames (L.listing lister.now) listings } by { Prim.hlevel props },
}

impl<'a, L: Lister> FsCache<'a, L> {
    /// Returns an empty cache for the listings of `lister`.
    pub fn new(alloc: Global, lister: &'a L) -> FsCache<'a, L>
        ensures lister { result.lister ≡ lister.entry }
        ensures empty { result.listings ≡ paths.empty }
    {
        FsCache {
            lister,
            listings: Listings::new(alloc),
        }
    }

    /// Returns the stat that the listings have for a path, or None if they have none.
    ///
    /// The path is split at its last slash, and its file name is looked up in the listing of its directory. If that
    /// has equal names, the last one counts. A directory that isn't in the cache is listed first. One that can't be
    /// listed is cached too, and isn't listed again. If the file name is empty, nothing is looked up or listed.
    ///
    /// # Errors
    /// Out of memory. The cache is then unchanged, and the next call asks the lister again.
    pub fn get(&mut self, path: BStr<'_>) -> Result<Option<Stat>, AllocError>
        ensures known { IfOk result (λ stat. stat ≡ stat_in_table self.new.listings (bstr_bytes path.entry)) }
        ensures grown { OnOk result (HasListedOnce (bstr_bytes path.entry) self.old.listings self.new.listings) }
        ensures unchanged { OnErr result (self.new.listings ≡ self.old.listings) }
        ensures lister { self.new.lister ≡ self.old.lister }
        ensures listed { IsTrue (L.modelled self.old.lister.now)
            → IfOk result (λ stat. stat ≡ listed (L.listing self.old.lister.now) (bstr_bytes path.entry)) }
    {
        self.listings.get(self.lister, path)
    }

    /// Returns how many directories were listed, including those that can't be listed.
    pub fn listings(&self) -> u64
        ensures { result ≡ paths.len self.now.listings }
    {
        self.listings.listings()
    }
}
