//! Which paths ignore files exclude. The results were drawn from `git check-ignore -v --no-index` of git 2.39.5, over files and
//! folders of these names.

mod files;
mod lines;
mod patterns;

use crate::IgnoreRules;
use git_patterns::text::ends_in_slash;
use std::alloc::{AllocError, Global};
use std::test::Fail;

/// The text of an ignore file, paths that it excludes, and paths that it doesn't. A path with a slash at its end is that of a
/// folder.
type Row = (
    &'static str,
    &'static [&'static str],
    &'static [&'static str],
);

/// Returns whether the rules exclude a path, which is that of a folder if a slash ends it.
fn excludes(alloc: Global, rules: &IgnoreRules, path: &str) -> Result<bool, AllocError> {
    let path = path.as_bytes();
    if ends_in_slash(path) {
        rules.is_excluded(alloc, &path[..path.len() - 1], true)
    } else {
        rules.is_excluded(alloc, path, false)
    }
}

/// Returns the first of these paths about which the rules decide otherwise.
fn other_path(
    alloc: Global,
    rules: &IgnoreRules,
    excluded: &[&'static str],
    others: &[&'static str],
) -> Result<Option<&'static str>, AllocError> {
    for path in excluded {
        if !excludes(alloc, rules, path)? {
            return Ok(Some(*path));
        }
    }
    for path in others {
        if excludes(alloc, rules, path)? {
            return Ok(Some(*path));
        }
    }
    Ok(None)
}

/// Returns the first row, as a text and a path, about which the rules decide otherwise.
fn other_row(
    alloc: Global,
    rows: &[Row],
) -> Result<Option<(&'static str, &'static str)>, AllocError> {
    for row in rows {
        let mut rules = IgnoreRules::new(alloc);
        rules.read(alloc, b"", row.0.as_bytes())?;
        if let Some(path) = other_path(alloc, &rules, row.1, row.2)? {
            return Ok(Some((row.0, path)));
        }
    }
    Ok(None)
}

#[test]
fn a_path_below_an_excluded_folder_is_not_matched_itself(rt: HostRuntime) -> Result<(), Fail> {
    let mut rules = IgnoreRules::new(rt.alloc());
    rules.read(rt.alloc(), b"", b"d/\n")?;
    assert!(rt; rules.is_matched(rt.alloc(), b"d", true)?);
    assert!(rt; !rules.is_matched(rt.alloc(), b"d", false)?);
    assert!(rt; !rules.is_matched(rt.alloc(), b"d/a", false)?);
    assert!(rt; rules.is_excluded(rt.alloc(), b"d/a", false)?);
    Ok(())
}
