//! The components of a path: which of them aren't normal, and which two paths have in common.

ghost use Rattle.std.specs.Prelude.{◌≡◌, ◌<◌, [], ◌∷◌, length, option_map, is_some, IfSome, position, ◌≤◌, ◌-◌, IsTrue, slice_index};
ghost use Rattle.std.specs.Option.{option_map_or};
ghost use Rattle.status_base.specs.Paths.{is_slash, components, is_abnormal, abnormal_component};
ghost use Rattle.status_base.specs.Common.{IsCommon};

/// Returns whether a path has a component that isn't normal.
pub(crate) fn has_abnormal_component(path: &[u8]) -> bool
    ensures { result ≡ is_some (abnormal_component path.now) }
{
    abnormal_component(path).is_some()
}

/// Returns the leftmost component of a path that isn't normal: it is empty, `.` or `..`.
pub(crate) fn abnormal_component(path: &[u8]) -> Option<&[u8]>
    ensures { option_map (λ component. component.now) result ≡ abnormal_component path.now }
{
    let mut rest = path;
    'components: loop {
        let (component, others) = first_component(rest);
        if is_abnormal(component) {
            return Some(component);
        }
        match others {
            Some(others) => rest = others,
            None => return None,
        }
    }
}

/// Splits a path at its first slash, into its first component and the rest. Without a slash there is no rest.
fn first_component(path: &[u8]) -> (&[u8], Option<&[u8]>)
    ensures parts { components path.now ≡ result.0.now ∷ option_map_or (λ others. components others.now) result.1 [] }
    ensures shorter { IfSome result.1 (λ others. length others.now < length path.now) }
{
    match first_slash(path) {
        Some(at) => (&path[..at], Some(&path[at + 1..])),
        None => (path, None),
    }
}

/// Returns the position of the first slash.
fn first_slash(path: &[u8]) -> Option<usize>
    ensures { result ≡ position is_slash path.now }
{
    path.iter().position(|byte| *byte == b'/')
}

/// Returns whether a component isn't normal: it is empty, `.` or `..`.
fn is_abnormal(component: &[u8]) -> bool
    ensures { result ≡ is_abnormal component.now }
{
    matches!(component, [] | [b'.'] | [b'.', b'.'])
}

/// Returns how many bytes the common prefix of two paths has.
pub(crate) fn common_front(one: &[u8], other: &[u8]) -> usize
    ensures { IsCommon one.now other.now result }
{
    let shorter = one.len().min(other.len());
    for at in 0..shorter {
        if one[at] != other[at] {
            return at;
        }
    }
    shorter
}

/// Returns the position after the last slash of `front`, where its last component begins, or 0 without a slash.
pub(crate) fn component_start(front: &[u8]) -> usize
    ensures within { result ≤ length front.now }
    ensures slash { 0 < result → IsTrue (is_slash (slice_index front.now (result - 1))) }
{
    for slash in (0..front.len()).rev() {
        if front[slash] == b'/' {
            return slash + 1;
        }
    }
    0
}
