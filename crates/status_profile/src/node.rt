//! The worktree of a profile.

ghost use Rattle.std.specs.Prelude.{map};
ghost use Rattle.serde_json.specs.View.{view};
ghost use Rattle.status_index.specs.declared.stat.NodeKind.TheVariants.{File};
ghost use Rattle.status_format.specs.Reads.{Reads, or_default};
ghost use Rattle.status_profile.specs.Forms.{value_at};
ghost use Rattle.status_profile.specs.Nodes.{bytes_of, digits_in, node_in, node_value, nodes_in, place_in, place_value};
ghost use Rattle.status_profile.specs.Words.{kind_in};

use crate::form::{kind_of, required, text_or_empty, truth_or};
use bstr::BString;
use serde_json::Value;
use status_base::worktree::{Node, NodeKind};
use status_format::read::{list_of, text_at, text_of};
use status_format::{FieldError, stat_of};
use std::alloc::Global;

/// The place of a profile's worktree.
#[derive(Debug, Drop)]
pub enum Place {
    /// In the profile: nodes with their paths, in the profile's order.
    Nodes(Vec<(BString, Node)>),
    /// In the folder at this path, relative to the working folder.
    Folder(String),
}

/// Returns the place of a worktree. If there is a folder, the nodes are ignored.
pub fn read_place(
    alloc: Global,
    folder: Option<&Value>,
    nodes: Option<&Value>,
) -> Result<Place, FieldError>
    ensures { Reads place_value result (place_in (value_at folder.entry) (value_at nodes.entry)) }
{
    match folder {
        Some(folder) => Ok(Place::Folder(String::from_str(alloc, text_of(folder)?)?)),
        None => Ok(Place::Nodes(read_nodes(alloc, required(nodes)?)?)),
    }
}

/// Reads a list of nodes with their paths.
fn read_nodes(alloc: Global, list: &Value) -> Result<Vec<(BString, Node)>, FieldError>
    ensures { Reads (λ nodes. map node_value nodes.items) result (nodes_in (view list.now)) }
{
    let items = list_of(list)?;
    let mut nodes = Vec::with_capacity(alloc, items.len())?;
    for item in items {
        nodes.push(read_node(alloc, item)?)?;
    }
    Ok(nodes)
}

/// Reads a node and its path. Other keys than those of a node are ignored.
#[tactic(auto, unfolding(crate::specs::Nodes::node_in))]
fn read_node(alloc: Global, value: &Value) -> Result<(BString, Node), FieldError>
    ensures { Reads node_value result (node_in (view value.now)) }
{
    let path = text_at(value, "path")?;
    let kind = kind_or_file(value.get("kind"))?;
    let bytes = read_bytes(alloc, value.get("hex"), value.get("text"))?;
    let executable = truth_or(value.get("executable"), false)?;
    let stat = stat_of(value, 0)?;
    let node = Node {
        kind,
        len: bytes.len() as u64,
        bytes,
        executable,
        mtime: Some(stat.mtime),
        ctime: Some(stat.ctime),
        dev: stat.dev,
        ino: stat.ino,
        uid: stat.uid,
        gid: stat.gid,
    };
    Ok((BString::from_slice(alloc, path.as_bytes())?, node))
}

/// Reads the kind of a node, which is that of a file if it is missing.
fn kind_or_file(value: Option<&Value>) -> Result<NodeKind, FieldError>
    ensures { Reads (λ k. k) result (or_default kind_in File (value_at value.entry)) }
{
    match value {
        Some(kind) => kind_of(kind),
        None => Ok(NodeKind::File),
    }
}

/// Reads the bytes of a node from its digits, or from its text if there are none.
fn read_bytes(
    alloc: Global,
    hex: Option<&Value>,
    text: Option<&Value>,
) -> Result<Vec<u8>, FieldError>
    ensures { Reads (λ bytes. bytes.items) result (bytes_of (value_at hex.entry) (value_at text.entry)) }
{
    match hex {
        Some(digits) => read_digits(alloc, digits),
        None => Ok(Vec::from_slice(alloc, text_or_empty(text)?.as_bytes())?),
    }
}

/// Reads bytes from pairs of hexadecimal digits.
fn read_digits(alloc: Global, value: &Value) -> Result<Vec<u8>, FieldError>
    ensures { Reads (λ bytes. bytes.items) result (digits_in (view value.now)) }
{
    Ok(hex::decode(alloc, text_of(value)?)?)
}
