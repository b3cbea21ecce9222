//! Names of nodes, and how they begin.

ghost use Rattle.std.specs.Prelude.{◌≡◌, ◌∷◌, ◌++◌, [], length, option_map};
ghost use Rattle.git_pathspecs.specs.Names.{after_front, first_of, has_one, is_end, is_same, name_of};

/// The name of a node: its path from the worktree's top, and a slash after it or not.
#[derive(Clone, Copy, Debug)]
pub struct Name<'a> {
    /// The path.
    pub path: &'a [u8],
    /// Whether a slash comes after it.
    pub has_slash: bool,
}

impl<'a> Name<'a> {
    /// Returns the name of a file, which is its path.
    pub fn of(path: &'a [u8]) -> Name<'a>
        ensures { name_of result ≡ path.now }
    {
        Name {
            path,
            has_slash: false,
        }
    }

    /// Returns the name of a folder, which has a slash after its path.
    pub fn of_folder(path: &'a [u8]) -> Name<'a>
        ensures { name_of result ≡ path.now ++ 47 ∷ [] }
    {
        Name {
            path,
            has_slash: true,
        }
    }

    /// Returns the number of bytes.
    pub(crate) fn len(self) -> usize
        ensures { result ≡ length (name_of self.entry) }
    {
        if self.has_slash {
            self.path.len() + 1
        } else {
            self.path.len()
        }
    }

    /// Returns the first byte, and the rest. None if there is none.
    fn first(self) -> Option<(u8, Name<'a>)>
        ensures { option_map (λ x. (x.0, name_of x.1)) result ≡ first_of (name_of self.entry) }
    {
        match self.path {
            [byte, path @ ..] => Some((*byte, Name { path, ..self })),
            [] if self.has_slash => {
                let rest = Name {
                    path: self.path,
                    has_slash: false,
                };
                Some((b'/', rest))
            }
            [] => None,
        }
    }

    /// Returns the rest after a front. None if the name doesn't begin with it. Case counts in the first bytes, so many.
    pub(crate) fn after_front(self, mut cased: usize, mut front: Name<'_>) -> Option<Name<'a>>
        ensures { option_map name_of result ≡ after_front cased (name_of self.entry) (name_of front.entry) }
    {
        let mut rest = self;
        'front: while let Some((wanted, more)) = front.first() {
            let (byte, after) = rest.first()?;
            if !is_same(cased, byte, wanted) {
                return None;
            }
            cased = cased.saturating_sub(1);
            rest = after;
            front = more;
        }
        Some(rest)
    }

    /// Returns whether the name ends here, which it may or may not, or goes on with a slash.
    pub(crate) fn is_end(self, may_end: bool) -> bool
        ensures { result ≡ is_end may_end (name_of self.entry) }
    {
        match self.first() {
            Some((byte, _)) => byte == b'/',
            None => may_end,
        }
    }

    /// Returns whether the name has one byte.
    pub(crate) fn has_one(self) -> bool
        ensures { result ≡ has_one (name_of self.entry) }
    {
        match self.first() {
            Some((_, rest)) => rest.first().is_none(),
            None => false,
        }
    }
}

/// Returns whether two bytes are the same, also in another case if no more bytes are left in which case counts.
fn is_same(cased: usize, one: u8, other: u8) -> bool
    ensures { result ≡ is_same cased one other }
{
    if cased == 0 {
        one.eq_ignore_ascii_case(&other)
    } else {
        one == other
    }
}
