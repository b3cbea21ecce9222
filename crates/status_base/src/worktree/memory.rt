//! A worktree in memory: its nodes, and the faults that are planted in it.

ghost use Rattle.std.specs.Prelude.{◌≡◌, ◌⊎◌, ℕ, ◌<◌, ◌^◌, length, None, Some, IfOk, IfErr, OnOk};
ghost use Rattle.std.specs.Global.{Vec as ByteVec};
ghost use Rattle.std.specs.Map.Iter.{ShowsInOrder, deref_pair};
ghost use Rattle.std.specs.Option.{option_map};
ghost use Rattle.std.specs.FinMap as paths;
ghost use Rattle.bstr.specs.BStr.{bstr_bytes};
ghost use Rattle.status_base.specs.MemoryTree.{is_no_directory, has_below, has_file_above, planted_or_none, planted_at};
ghost use Rattle.status_base.specs.Nodes.{placed_of, placed_entries, is_bad_path, put_fault, IsLookedBelow, IsPut};
ghost use Rattle.status_base.specs.Points.{IsPlanted};
ghost use Rattle.status_base.specs.declared.worktree.node.Node.{Node as NodeValue};
ghost use Rattle.status_base.specs.Trees.{empty_tree};

use crate::components::has_abnormal_component;
use crate::worktree::node::{Node, TreeError};
use crate::worktree::planted::{PlantedFaults, Point};
use bstr::BStr;
use status_index::{Fault, NodeKind};
use std::alloc::{AllocError, Global};
use std::collections::BTreeMap;
use std::collections::btree_map::Iter;
use std::marker::Model;

/// A worktree in memory. Directories needn't be put: a path with a node below it is a directory.
#[derive(Drop)]
pub struct MemoryWorktree {
    pub(crate) alloc: Global,
    nodes: BTreeMap<Vec<u8>, Node>,
    planted: BTreeMap<Vec<u8>, PlantedFaults>,
}

impl Model for MemoryWorktree {
    ghost use Rattle.status_base.specs.MemoryTree.{Tree};
    ghost use Rattle.status_base.specs.Trees.{tree_code};

    ghost Value = { Tree };

    ghost coded = { tree_code };

    ghost use Rattle.status_base.specs.Nodes.{tree_of};

    ghost view = { λ a. tree_of a.nodes.entries a.planted.entries };
}

impl MemoryWorktree {
    /// Returns an empty worktree.
    pub fn new(alloc: Global) -> MemoryWorktree
        ensures { result ≡ empty_tree }
    {
        MemoryWorktree {
            alloc,
            nodes: BTreeMap::new(alloc),
            planted: BTreeMap::new(alloc),
        }
    }

    /// Returns the node that was put at a path.
    pub fn node(&self, path: BStr<'_>) -> Option<&Node>
        ensures { option_map (λ n. placed_of n.now) result ≡ paths.get self.now.nodes (bstr_bytes path.entry) }
    {
        self.node_at(path.as_bytes())
    }

    /// Puts a node at a path, replacing the node that is there. Faults planted there stay.
    ///
    /// # Errors
    /// The path is bad, a node is in the way, or out of memory. A bad path, or a node in the way above the path, is
    /// found before any memory is needed. After an error the worktree is unchanged.
    pub fn put(&mut self, path: BStr<'_>, node: Node) -> Result<(), TreeError>
        ensures { IsPut self.old (bstr_bytes path.entry) (placed_of node) result self.new }
    {
        let path = path.as_bytes();
        if let Some(fault) = self.fault_of_put(path, node.kind)? {
            return Err(fault);
        }
        let path = Vec::from_slice(self.alloc, path)?;
        match self.nodes.insert(path, node) {
            Ok(_replaced) => Ok(()),
            Err(_refused) => Err(TreeError::Memory),
        }
    }

    /// Checks whether a node of a kind can be put at a path now.
    ///
    /// # Errors
    /// The error that `put` would return, or out of memory while nodes below the path are looked up.
    pub fn check_put(&self, path: BStr<'_>, kind: NodeKind) -> Result<(), TreeError>
        ensures ok { OnOk result (put_fault self.now (bstr_bytes path.entry) kind ≡ None) }
        ensures err { IfErr result (λ e. ((e ≡ TreeError.Memory) × IsLookedBelow self.now (bstr_bytes path.entry)) ⊎ (put_fault self.now (bstr_bytes path.entry) kind ≡ Some e)) }
    {
        match self.fault_of_put(path.as_bytes(), kind)? {
            Some(fault) => Err(fault),
            None => Ok(()),
        }
    }

    /// Removes and returns the node at a path. Faults planted there stay.
    pub fn remove(&mut self, path: BStr<'_>) -> Option<Node>
        ensures value { option_map placed_of result ≡ paths.get self.old.nodes (bstr_bytes path.entry) }
        ensures after { self.new ≡ record self.old { nodes = paths.remove self.old.nodes (bstr_bytes path.entry) } }
    {
        self.nodes.remove(path.as_bytes())
    }

    /// Plants a fault at a call on a path, replacing the one planted at the same call. The call returns it before
    /// anything else, whether or not a node is at the path. Calls on the paths below aren't affected.
    ///
    /// # Errors
    /// Out of memory. The worktree is then unchanged.
    pub fn plant(&mut self, path: BStr<'_>, point: Point, fault: Fault) -> Result<(), AllocError>
        ensures { IsPlanted self.old (bstr_bytes path.entry) point fault result self.new }
    {
        let path = path.as_bytes();
        if let Some(faults) = self.planted.get_mut(path) {
            return faults.plant(point, fault);
        }
        let mut faults = PlantedFaults::new(self.alloc);
        faults.plant(point, fault)?;
        let path = Vec::from_slice(self.alloc, path)?;
        match self.planted.insert(path, faults) {
            Ok(_replaced) => Ok(()),
            Err(_refused) => Err(AllocError),
        }
    }

    /// Removes all faults that are planted at a path.
    pub fn clear(&mut self, path: BStr<'_>)
        ensures { self.new ≡ record self.old { planted = paths.remove self.old.planted (bstr_bytes path.entry) } }
    {
        self.planted.remove(path.as_bytes());
    }

    /// Returns the nodes that were put, with their paths, in ascending order of the paths' bytes.
    pub fn nodes(&self) -> Iter<'_, Vec<u8>, Node>
        ensures nodes { placed_entries result ≡ paths.entries self.now.nodes }
        ensures runs { ShowsInOrder (deref_pair {K = ByteVec ℕ} {X = NodeValue}) }
        ensures fits { length result < 2 ^ 63 }
    {
        self.nodes.iter()
    }

    /// Returns the node that was put at a path.
    pub(crate) fn node_at(&self, path: &[u8]) -> Option<&Node>
        ensures { option_map (λ n. placed_of n.now) result ≡ paths.get self.now.nodes path.now }
    {
        self.nodes.get(path)
    }

    /// Returns the faults that are planted at a path, if any are.
    pub(crate) fn planted_at(&self, path: &[u8]) -> Option<&PlantedFaults>
        ensures { planted_or_none (option_map (λ p. p.now) result) ≡ planted_at self.now path.now }
    {
        self.planted.get(path)
    }

    /// Returns whether a node is below a path. The first of the paths from `path/` on decides.
    pub(crate) fn has_below(&self, path: &[u8]) -> Result<bool, AllocError>
        ensures { IfOk result (λ b. b ≡ has_below self.now path.now) }
    {
        let mut front = Vec::from_slice(self.alloc, path)?;
        front.push(b'/')?;
        let mut from_front = self.nodes.range(&front..);
        Ok(match from_front.next() {
            Some((first, _)) => first.starts_with(front.as_slice()),
            None => false,
        })
    }

    /// Returns whether a proper directory prefix of a path has a node that isn't a directory.
    pub(crate) fn has_file_above(&self, path: &[u8]) -> bool
        ensures { result ≡ has_file_above self.now path.now }
    {
        for (end, byte) in path.iter().enumerate() {
            if *byte == b'/' && self.is_no_directory(&path[..end]) {
                return true;
            }
        }
        false
    }

    /// Returns whether a node that isn't a directory was put at a path.
    fn is_no_directory(&self, path: &[u8]) -> bool
        ensures { result ≡ is_no_directory (paths.get self.now.nodes path.now) }
    {
        match self.node_at(path) {
            Some(node) => node.kind != NodeKind::Directory,
            None => false,
        }
    }

    /// Returns why a node of a kind can't be put at a path.
    fn fault_of_put(&self, path: &[u8], kind: NodeKind) -> Result<Option<TreeError>, AllocError>
        ensures fault { IfOk result (λ fault. fault ≡ put_fault self.now path.now kind) }
        ensures late { IfErr result (λ _. IsLookedBelow self.now path.now) }
    {
        if path.is_empty() || has_abnormal_component(path) {
            return Ok(Some(TreeError::BadPath));
        }
        if self.has_file_above(path) {
            return Ok(Some(TreeError::InTheWay));
        }
        if kind != NodeKind::Directory && self.has_below(path)? {
            return Ok(Some(TreeError::InTheWay));
        }
        Ok(None)
    }
}

/// Returns whether a path is bad, so that nothing can be put there: it is empty, or a component is empty, `.` or `..`.
pub fn is_bad_path(path: BStr<'_>) -> bool
    ensures { result ≡ is_bad_path (bstr_bytes path.entry) }
{
    let path = path.as_bytes();
    path.is_empty() || has_abnormal_component(path)
}
