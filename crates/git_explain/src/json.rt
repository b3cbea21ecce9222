//! Explanations as JSON: one object a line for each path.

use crate::comparison::Compared;
use crate::explained::Explained;
use crate::reason::{reasons, status_word};
use crate::sight::{LstatCall, Reading, Sight};
use crate::words::{IdText, PathText};
use serde_json::{Value, json};
use status_base::worktree::{ByteText, Fault, Metadata, NodeKind};
use status_index::Time;
use std::alloc::{AllocError, Global};
use std::str;

/// Appends the explanation of a path as an object: `path`, `status`, `asked`, `id` of what was read, and `because`.
///
/// # Errors
/// Out of memory.
pub(crate) fn push_json(
    alloc: Global,
    text: &mut Vec<u8>,
    explained: &Explained<'_>,
    compared: Compared<'_>,
) -> Result<(), AllocError> {
    let path = explained.path.as_bytes();
    let because = strings(alloc, &reasons(alloc, explained, compared)?)?;
    let id = match explained.id {
        Some(id) => shown(format!(in alloc; "{}", IdText(id)))?,
        None => Value::Null,
    };
    let value = json!(in alloc; {
        "path": path_value(alloc, path)?,
        "status": status_word(explained),
        "asked": asked_value(alloc, path, &explained.sight)?,
        "id": id,
        "because": because
    })?;
    push_value(alloc, text, &value)
}

/// Appends the object of a path that isn't compared.
///
/// # Errors
/// Out of memory.
pub(crate) fn push_other_json(
    alloc: Global,
    text: &mut Vec<u8>,
    path: &[u8],
    status: &str,
    because: &str,
) -> Result<(), AllocError> {
    let value = json!(in alloc; {
        "path": path_value(alloc, path)?,
        "status": status,
        "asked": [],
        "id": null,
        "because": [because]
    })?;
    push_value(alloc, text, &value)
}

/// Appends a value and the line's end.
fn push_value(alloc: Global, text: &mut Vec<u8>, value: &Value) -> Result<(), AllocError> {
    text.extend_from_slice(value.to_string(alloc)?.as_bytes())?;
    text.push(b'\n')?;
    Ok(())
}

/// Returns the value of a text that was made.
fn shown<E: Drop>(made: Result<String, E>) -> Result<Value, AllocError> {
    match made {
        Ok(made) => Ok(Value::String(made)),
        Err(_) => Err(AllocError),
    }
}

/// Returns the value of a path. One that isn't UTF-8 is shown in quotes with escapes.
fn path_value(alloc: Global, path: &[u8]) -> Result<Value, AllocError> {
    match str::from_utf8(path) {
        Ok(text) => Value::try_from_str(alloc, text),
        Err(_) => shown(format!(in alloc; "{}", PathText(path))),
    }
}

/// Returns the list of texts.
fn strings(alloc: Global, texts: &[String]) -> Result<Value, AllocError> {
    let mut list = Vec::new(alloc);
    for text in texts {
        list.push(Value::try_from_str(alloc, text.as_str())?)?;
    }
    Ok(Value::Array(list))
}

/// Returns the list of the calls that were made for a path, with their results.
fn asked_value(alloc: Global, path: &[u8], sight: &Sight) -> Result<Value, AllocError> {
    let mut list = Vec::new(alloc);
    for call in &sight.calls {
        list.push(call_value(alloc, call)?)?;
    }
    if let Some(read) = &sight.file {
        list.push(file_value(alloc, path, read)?)?;
    }
    if let Some(read) = &sight.link {
        list.push(link_value(alloc, path, read)?)?;
    }
    if let Some(said) = &sight.submodule {
        list.push(submodule_value(alloc, path, said)?)?;
    }
    Ok(Value::Array(list))
}

/// Returns the value of a call of `lstat`.
fn call_value(alloc: Global, call: &LstatCall) -> Result<Value, AllocError> {
    let path = path_value(alloc, &call.path)?;
    match call.found {
        Ok(node) => json!(in alloc; { "lstat": path, "found": node_value(alloc, &node)? }),
        Err(fault) => json!(in alloc; { "lstat": path, "fault": fault_value(alloc, fault)? }),
    }
}

/// Returns the value of a file that was opened and read, up to its end or to a fault.
fn file_value(
    alloc: Global,
    path: &[u8],
    read: &Result<Reading, Fault>,
) -> Result<Value, AllocError> {
    let path = path_value(alloc, path)?;
    let reading = match read {
        Ok(reading) => reading,
        Err(fault) =>
            return json!(in alloc; { "open": path, "fault": fault_value(alloc, *fault)? }),
    };
    let fault = match reading.fault {
        Some(fault) => fault_value(alloc, fault)?,
        None => Value::Null,
    };
    json!(in alloc; { "read": path, "bytes": reading.bytes.len() as u64, "fault": fault })
}

/// Returns the value of a link that was read.
fn link_value(
    alloc: Global,
    path: &[u8],
    read: &Result<Vec<u8>, Fault>,
) -> Result<Value, AllocError> {
    let link = path_value(alloc, path)?;
    match read {
        Ok(target) => json!(in alloc; { "readlink": link, "target": path_value(alloc, target)? }),
        Err(fault) => json!(in alloc; { "readlink": link, "fault": fault_value(alloc, *fault)? }),
    }
}

/// Returns the value of a submodule's report.
fn submodule_value(
    alloc: Global,
    path: &[u8],
    said: &Result<bool, ByteText>,
) -> Result<Value, AllocError> {
    let place = path_value(alloc, path)?;
    match said {
        Ok(changed) => json!(in alloc; { "submodule": place, "changed": *changed }),
        Err(words) => {
            let fault = path_value(alloc, words.as_bytes())?;
            json!(in alloc; { "submodule": place, "fault": fault })
        }
    }
}

/// Returns the value of a fault: its words.
fn fault_value(alloc: Global, fault: Fault) -> Result<Value, AllocError> {
    shown(format!(in alloc; "{fault}"))
}

/// Returns the value of a node's metadata.
fn node_value(alloc: Global, node: &Metadata) -> Result<Value, AllocError> {
    let kind = match node.kind {
        NodeKind::File => "file",
        NodeKind::Link => "link",
        NodeKind::Directory => "directory",
        NodeKind::Other => "other",
    };
    json!(in alloc; {
        "kind": kind,
        "size": node.len,
        "executable": node.executable,
        "mtime": time_value(alloc, node.mtime)?,
        "ctime": time_value(alloc, node.ctime)?,
        "inode": node.ino,
        "owner": node.uid,
        "group": node.gid
    })
}

/// Returns a list of seconds and nanoseconds; null for a time that isn't known.
fn time_value(alloc: Global, time: Option<Time>) -> Result<Value, AllocError> {
    match time {
        Some(time) => json!(in alloc; [time.secs, time.nsecs]),
        None => Ok(Value::Null),
    }
}
