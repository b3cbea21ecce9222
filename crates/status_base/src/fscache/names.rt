//! The names in a directory.

ghost use Rattle.std.specs.Prelude.{◌≡◌, Some, IfOk, OnOk};
ghost use Rattle.std.specs.FinMap as paths;
ghost use Rattle.bstr.specs.Owned.{bstring_bytes};
ghost use Rattle.status_base.specs.Listing.{entries_of, listing_of};
ghost use Rattle.status_base.specs.ListingTable.{stat_of_name, AreNamesOf};

use crate::fscache::Stat;
use crate::worktree::Listing;
use bstr::BString;
use std::alloc::{AllocError, Global};
use std::collections::BTreeMap;
use std::marker::Model;

/// The names in a directory, each with its stat.
#[derive(Drop)]
pub(crate) struct Names {
    stats: BTreeMap<Vec<u8>, Stat>,
}

impl Model for Names {
    ghost use Rattle.status_base.specs.ListingTable.{Names as NamesIn};
    ghost use Rattle.status_base.specs.PathTables.{map_of, names_code};

    ghost Value = { NamesIn };

    ghost coded = { names_code };

    ghost view = { λ a. map_of a.stats.entries };
}

impl Names {
    /// Returns the names of a listing. Of equal names the last one counts. A directory that can't be listed has no
    /// names.
    ///
    /// # Errors
    /// Out of memory.
    pub(crate) fn of_listing(alloc: Global, listing: Listing) -> Result<Names, AllocError>
        ensures { IfOk result (AreNamesOf (listing_of listing)) }
    {
        match listing {
            Some(entries) => Names::of_entries(alloc, entries),
            None => Ok(Names::new(alloc)),
        }
    }

    /// Returns the stat of a name. An empty name has none, and isn't looked up.
    pub(crate) fn get(&self, name: &[u8]) -> Option<Stat>
        ensures { result ≡ stat_of_name name.now (Some self.now) }
    {
        if name.is_empty() {
            return None;
        }
        self.stats.get(name).copied()
    }

    fn new(alloc: Global) -> Names
        ensures { result ≡ paths.empty }
    {
        Names {
            stats: BTreeMap::new(alloc),
        }
    }

    fn of_entries(alloc: Global, entries: Vec<(BString, Stat)>) -> Result<Names, AllocError>
        ensures { IfOk result (AreNamesOf (Some (entries_of entries.items))) }
    {
        let mut names = Names::new(alloc);
        for (name, stat) in entries {
            names.put(name, stat)?;
        }
        Ok(names)
    }

    /// Puts a name with its stat, replacing those of an equal name.
    fn put(&mut self, name: BString, stat: Stat) -> Result<(), AllocError>
        ensures { OnOk result (self.new ≡ paths.insert self.old (bstring_bytes name) stat) }
    {
        match self.stats.insert(name.into_vec(), stat) {
            Ok(_replaced) => Ok(()),
            Err(_refused) => Err(AllocError),
        }
    }
}
