//! Faults that are planted in a worktree in memory.

ghost use Rattle.std.specs.Prelude.{◌≡◌, OnOk, OnErr, slice_get, ◌<◌, None, Some};
ghost use Rattle.std.specs.FinMap as map;
ghost use Rattle.std.specs.Option.{option_map};
ghost use Rattle.status_base.specs.MemoryTree.{no_faults, planted_or_none};
ghost use Rattle.status_base.specs.Points.{with_fault};

use status_index::Fault;
use std::alloc::{AllocError, Global};
use std::collections::BTreeMap;
use std::marker::Model;

/// A call on a path, at which a fault is planted.
#[derive(Clone, Copy, Debug, PartialEq, Eq)]
pub enum Point {
    /// `lstat`. If no node is at the path or below it, opening it and reading it as a link return this fault too.
    Lstat,
    /// Opening a file for reading.
    Open,
    /// Reading a link's target.
    ReadLink,
    /// Reading further, once this many bytes were read. In a shorter file the fault replaces the end.
    Read(u64),
}

/// The faults that are planted at one path.
#[derive(Drop)]
pub(crate) struct PlantedFaults {
    lstat: Option<Fault>,
    opening: Option<Fault>,
    read_link: Option<Fault>,
    reads: BTreeMap<u64, Fault>,
}

impl Model for PlantedFaults {
    ghost use Rattle.std.specs.FinMap as map;
    ghost use Rattle.status_base.specs.MemoryTree.{Planted};
    ghost use Rattle.status_base.specs.Trees.{planted_code};

    ghost Value = { Planted };

    ghost coded = { planted_code };

    ghost view = { λ a. record { lstat = a.lstat; opening = a.opening; read_link = a.read_link; reads = map.from_entries a.reads.entries } };
}

impl PlantedFaults {
    /// Returns an empty set of faults.
    pub(crate) fn new(alloc: Global) -> PlantedFaults
        ensures { result ≡ no_faults }
    {
        PlantedFaults {
            lstat: None,
            opening: None,
            read_link: None,
            reads: BTreeMap::new(alloc),
        }
    }

    /// Plants a fault, replacing the one at the same point.
    ///
    /// # Errors
    /// Out of memory. The faults are then unchanged.
    pub(crate) fn plant(&mut self, point: Point, fault: Fault) -> Result<(), AllocError>
        ensures ok { OnOk result (self.new ≡ with_fault self.old point fault) }
        ensures err { OnErr result (self.new ≡ self.old) }
    {
        match point {
            Point::Lstat => self.lstat = Some(fault),
            Point::Open => self.opening = Some(fault),
            Point::ReadLink => self.read_link = Some(fault),
            Point::Read(count) => match self.reads.insert(count, fault) {
                Ok(_replaced) => {}
                Err(_refused) => return Err(AllocError),
            },
        }
        Ok(())
    }

    /// Returns the first planted fault of reading, and the number of bytes before it.
    fn first_read(&self) -> Option<(u64, Fault)>
        ensures { result ≡ slice_get (map.entries self.now.reads) 0 }
    {
        let (count, fault) = self.reads.iter().next()?;
        Some((*count, *fault))
    }
}

/// Returns the fault that is planted at `lstat`, if any.
pub(crate) fn lstat_fault(planted: Option<&PlantedFaults>) -> Option<Fault>
    ensures { result ≡ (planted_or_none (option_map (λ p. p.now) planted.entry)).lstat }
{
    planted?.lstat
}

/// Returns the fault that is planted at opening, if any.
pub(crate) fn open_fault(planted: Option<&PlantedFaults>) -> Option<Fault>
    ensures { result ≡ (planted_or_none (option_map (λ p. p.now) planted.entry)).opening }
{
    planted?.opening
}

/// Returns the fault that is planted at reading a link, if any.
pub(crate) fn read_link_fault(planted: Option<&PlantedFaults>) -> Option<Fault>
    ensures { result ≡ (planted_or_none (option_map (λ p. p.now) planted.entry)).read_link }
{
    planted?.read_link
}

/// Returns the first fault that is planted at reading, if any, and the number of bytes before it.
pub(crate) fn first_read_fault(planted: Option<&PlantedFaults>) -> Option<(u64, Fault)>
    ensures { result ≡ slice_get (map.entries (planted_or_none (option_map (λ p. p.now) planted.entry)).reads) 0 }
{
    planted?.first_read()
}
