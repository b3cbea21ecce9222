//! Binary search: for the first index at which a question turns from yes to no, and for a path in an index.

ghost use Rattle.std.specs.Prelude.{◌≡◌, ℕ, ◌+◌, ◌<◌, ◌≤◌, ◌^◌, ◌↔◌, min, IsTrue, length};
ghost use Rattle.status_index.specs.Probes.{once_more};
ghost use Rattle.std.specs.List.{prefix_len};
ghost use Rattle.status_index.specs.Entries.{index_entry, index_entries};
ghost use Rattle.status_index.specs.Stretch.{meets, IsFront};

use crate::entry::{Entry, PathStorage};

/// A question about indices: yes below the cut, and no from there on.
pub trait Probe {
    /// The cut: the first index for which the question is no.
    ghost cut: { Self → ℕ };

    /// How often the question was asked, up to the greatest `u32`.
    ghost asked: { Self → ℕ };

    /// Returns whether the index `at` is below the cut.
    fn before(&mut self, at: usize) -> bool
        ensures answer { IsTrue result ↔ (at < cut self.old) }
        ensures cut { cut self.new ≡ cut self.old }
        ensures asked { asked self.new ≡ once_more (asked self.old) };
}

/// Returns the cut, or `len` if that is less. Asks at most as many questions as `len` has binary digits, and allocates
/// no memory.
pub fn search<P: Probe>(len: usize, probe: &mut P) -> usize
    ensures found { result ≡ min (P.cut probe.old) len }
    ensures cut { P.cut probe.new ≡ P.cut probe.old }
    ensures few { (digits : ℕ) → len < 2 ^ digits → P.asked probe.new ≤ P.asked probe.old + digits }
{
    let mut low = 0;
    let mut high = len;
    'halves: while low < high {
        let middle = low + (high - low) / 2;
        if probe.before(middle) {
            low = middle + 1;
        } else {
            high = middle;
        }
    }
    low
}

/// A question about a path and a prefix.
#[derive(Clone, Copy)]
pub(crate) enum Question {
    /// Whether the path is less than the prefix.
    Below,
    /// Whether the path starts with the prefix.
    Under,
    /// Whether the path is the prefix or less than it.
    UpTo,
}

/// Entries of which those that meet a question come first.
#[derive(Drop)]
struct PathProbe<'a> {
    entries: &'a [Entry],
    backing: &'a PathStorage,
    prefix: &'a [u8],
    question: Question,
    compared: u32,
    ghost front: { IsFront (meets question prefix.now) (index_entries backing.now entries.now) },
}

impl<'a> Probe for PathProbe<'a> {
    ghost cut = { λ probe. prefix_len (meets probe.question probe.prefix.now) (index_entries probe.backing.now probe.entries.now) };

    ghost asked = { λ probe. probe.compared };

    fn before(&mut self, at: usize) -> bool {
        self.compared = self.compared.saturating_add(1);
        match self.entries.get(at) {
            Some(entry) => is_met(self.question, entry, self.backing, self.prefix),
            None => false,
        }
    }
}

/// Returns whether this entry meets the question, by one comparison.
fn is_met(question: Question, entry: &Entry, backing: &PathStorage, prefix: &[u8]) -> bool
    ensures { result ≡ meets question prefix.now (index_entry backing.now entry.now) }
{
    let path = entry.path_in(backing).as_bytes();
    match question {
        Question::Below => path.cmp(prefix).is_lt(),
        Question::Under => path.starts_with(prefix),
        Question::UpTo => path.cmp(prefix).is_le(),
    }
}

/// Returns how many entries meet a question, and how many paths were compared. The entries that meet it must come
/// first.
pub(crate) fn front_len(
    entries: &[Entry],
    backing: &PathStorage,
    prefix: &[u8],
    question: Question,
) -> (usize, u32)
    requires { IsFront (meets question prefix.now) (index_entries backing.now entries.now) }
    ensures len { result.0 ≡ prefix_len (meets question prefix.now) (index_entries backing.now entries.now) }
    ensures inside { result.0 ≤ length entries.now }
    ensures few { (digits : ℕ) → length entries.now < 2 ^ digits → result.1 ≤ digits }
{
    let mut probe = PathProbe {
        entries,
        backing,
        prefix,
        question,
        compared: 0,
    };
    let len = search(entries.len(), &mut probe);
    (len, probe.compared)
}
