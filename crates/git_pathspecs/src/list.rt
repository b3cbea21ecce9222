//! The nodes that the elements of a pathspec select together.

ghost use Rattle.std.specs.Prelude.{◌≡◌, ◌&&◌, not};
ghost use Rattle.std.specs.List.{list_any};
ghost use Rattle.git_pathspecs.specs.Elements.{chooses, is_exact, leads_into, reaches_to};
ghost use Rattle.git_pathspecs.specs.Lists.{common_prefix, includes, is_chosen, is_excluded, leads, reaches, selects};
ghost use Rattle.git_pathspecs.specs.Names.{name_of};

use crate::element::Element;
use crate::name::Name;

/// Returns whether a node is selected, by its name. `is_dir` is whether it is a folder's or a submodule's. An empty list selects
/// every node.
pub fn selects(elements: &[Element<'_>], is_dir: bool, name: Name<'_>) -> bool
    ensures { result ≡ selects elements.now is_dir (name_of name.entry) }
{
    is_chosen(elements, is_dir, name) && !is_excluded(elements, is_dir, name)
}

/// Returns whether an element that doesn't exclude chooses a node, or there is none.
fn is_chosen(elements: &[Element<'_>], is_dir: bool, name: Name<'_>) -> bool
    ensures { result ≡ is_chosen elements.now is_dir (name_of name.entry) }
{
    !has_including(elements) || is_chosen_by_any(elements, is_dir, name)
}

/// Returns whether an element doesn't exclude.
fn has_including(elements: &[Element<'_>]) -> bool
    ensures { result ≡ list_any includes elements.now }
{
    elements.iter().any(|it| !it.excludes())
}

/// Returns whether an element that doesn't exclude chooses a node.
fn is_chosen_by_any(elements: &[Element<'_>], is_dir: bool, name: Name<'_>) -> bool
    ensures { result ≡ list_any (λ e. includes e && chooses e is_dir (name_of name.entry)) elements.now }
{
    elements
        .iter()
        .any(|it| !it.excludes() && it.chooses(is_dir, name))
}

/// Returns whether an element that excludes chooses a node.
fn is_excluded(elements: &[Element<'_>], is_dir: bool, name: Name<'_>) -> bool
    ensures { result ≡ is_excluded elements.now is_dir (name_of name.entry) }
{
    elements
        .iter()
        .any(|it| it.excludes() && it.chooses(is_dir, name))
}

/// Returns whether a path below a folder, whose name ends in a slash, may be selected by itself, and not since the folder is.
pub fn leads(elements: &[Element<'_>], folder: Name<'_>) -> bool
    ensures { result ≡ leads elements.now (name_of folder.entry) }
{
    has_leading(elements, folder)
        && !(has_exact(elements, folder) || is_excluded(elements, true, folder))
}

/// Returns whether an element leads below a folder.
fn has_leading(elements: &[Element<'_>], folder: Name<'_>) -> bool
    ensures { result ≡ list_any (λ e. includes e && leads_into e (name_of folder.entry)) elements.now }
{
    elements
        .iter()
        .any(|it| !it.excludes() && it.leads_into(folder))
}

/// Returns whether an element is exactly a folder's.
fn has_exact(elements: &[Element<'_>], folder: Name<'_>) -> bool
    ensures { result ≡ list_any (λ e. includes e && is_exact e (name_of folder.entry)) elements.now }
{
    elements
        .iter()
        .any(|it| !it.excludes() && it.is_exact(folder))
}

/// Returns whether a node at a path, or one below it, may be selected.
pub fn reaches(elements: &[Element<'_>], path: Name<'_>) -> bool
    ensures { result ≡ reaches elements.now (name_of path.entry) }
{
    !has_including(elements) || is_reached_by_any(elements, path)
}

/// Returns whether an element may choose a node at a path, or one below it.
fn is_reached_by_any(elements: &[Element<'_>], path: Name<'_>) -> bool
    ensures { result ≡ list_any (λ e. reaches_to e (name_of path.entry)) elements.now }
{
    elements.iter().any(|it| it.reaches_to(path))
}

/// Returns the bytes with which each selected path begins, if there is one element.
pub fn common_prefix<'e>(elements: &'e [Element<'_>]) -> &'e [u8]
    ensures { result.now ≡ common_prefix elements.now }
{
    match elements {
        [element] if !element.excludes() => element.prefix(),
        _ => &[],
    }
}
