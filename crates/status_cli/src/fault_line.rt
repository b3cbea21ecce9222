//! The line that says why a command failed. It is written part by part, so that it takes no memory, but for the path of a
//! submodule in the line of a status, which is in `status_fault`.

ghost use Rattle.std.specs.Prelude.{◌≡◌, ◌∷◌, [], codes, decimal};
ghost use Rattle.status_cli.specs.FaultLines.{IsFaultWritten, IsFaultReported, failure_line, index_error_text, key_text, names_submodule, profile_error_text, refusal_text, tree_error_text};
ghost use Rattle.status_cli.specs.Lines.{line};
ghost use Rattle.status_cli.specs.Printing.{IsAllWritten};

use crate::failure::Failure;
use crate::output::print_parts;
use crate::status_fault::{print_error, print_joined_error};
use gix_status::index::IndexError;
use gix_status::worktree::TreeError;
use gix_status::world::Refusal;
use itoa::Buffer;
use status_profile::{Key, ProfileError};
use std::alloc::Global;
use std::io;

impl Failure {
    /// Writes the failure in one line, and returns the exit status 1. `name` names the file that is read or written. For a
    /// failure of the output nothing is written.
    pub fn report<E: io::Write>(&self, alloc: Global, name: &str, faults: &mut E) -> u8
        ensures status { result ≡ 1 }
        ensures line { IsFaultReported name.now self.now (E.contents faults.old) (E.contents faults.new) }
    {
        // If the line can't be written, there is nowhere left to report that.
        let _ = self.print(alloc, name, faults);
        1
    }

    /// Writes the failure in one line. For a failure of the output nothing is written.
    fn print<E: io::Write>(&self, alloc: Global, name: &str, faults: &mut E) -> Result<(), Failure>
        ensures { IsFaultWritten (names_submodule self.now) (failure_line name.now self.now) (E.contents faults.old) result (E.contents faults.new) }
    {
        match self {
            Failure::Unreadable => print_parts(&["cannot read ", name, "\n"], faults),
            Failure::Profile(error) => print_profile_error(*error, faults),
            Failure::Worktree { error, at } => {
                let mut digits = Buffer::new();
                let words = tree_error_words(*error);
                print_parts(
                    &["bad worktree: ", words, " at ", digits.format(*at), "\n"],
                    faults,
                )
            }
            Failure::Status(error) => print_error(alloc, error, faults),
            Failure::Joined(error) => print_joined_error(alloc, error, faults),
            Failure::Start(refusal) => print_parts(
                &["refused start: ", refusal_words(refusal), "\n"],
                faults,
            ),
            Failure::Event { refusal, at } => {
                let mut digits = Buffer::new();
                print_parts(
                    &[
                        "refused ",
                        digits.format(*at),
                        ": ",
                        refusal_words(refusal),
                        "\n",
                    ],
                    faults,
                )
            }
            Failure::Output => Ok(()),
            Failure::Unwritable => print_parts(&["cannot write ", name, "\n"], faults),
            Failure::Memory => print_parts(&["out of memory\n"], faults),
        }
    }
}

/// Writes the line of a text that isn't a profile.
fn print_profile_error<E: io::Write>(error: ProfileError, faults: &mut E) -> Result<(), Failure>
    ensures { IsAllWritten (line (profile_error_text error ∷ [])) (E.contents faults.old) result (E.contents faults.new) }
{
    match error {
        ProfileError::NotJson => print_parts(&["not JSON\n"], faults),
        ProfileError::Bad(key) => print_parts(&["bad profile: ", key_word(key), "\n"], faults),
        ProfileError::Index(error) => print_index_error(error, faults),
        ProfileError::Memory => print_parts(&["out of memory\n"], faults),
    }
}

/// Writes the line of entries that aren't an index.
fn print_index_error<E: io::Write>(error: IndexError, faults: &mut E) -> Result<(), Failure>
    ensures { IsAllWritten (line (codes "bad index: " ∷ index_error_text error ∷ [])) (E.contents faults.old) result (E.contents faults.new) }
{
    match error {
        IndexError::EmptyPath { at } => print_bad_entry("empty path at ", at, faults),
        IndexError::NotAscending { at } => print_bad_entry("not ascending at ", at, faults),
        IndexError::MixedHash { at } => print_bad_entry("mixed hash at ", at, faults),
        IndexError::Memory => print_parts(&["bad index: out of memory\n"], faults),
    }
}

/// Writes the line of an entry that can't be at its position.
fn print_bad_entry<E: io::Write>(
    words: &'static str,
    at: usize,
    faults: &mut E,
) -> Result<(), Failure>
    ensures { IsAllWritten (line (codes "bad index: " ∷ words.now ∷ decimal at ∷ [])) (E.contents faults.old) result (E.contents faults.new) }
{
    let mut digits = Buffer::new();
    print_parts(&["bad index: ", words, digits.format(at), "\n"], faults)
}

fn key_word(key: Key) -> &'static str
    ensures { result.now ≡ key_text key }
{
    match key {
        Key::Hash => "hash",
        Key::Clock => "clock",
        Key::Timestamp => "timestamp",
        Key::Options => "options",
        Key::Index => "index",
        Key::Worktree => "worktree",
        Key::Events => "events",
    }
}

fn tree_error_words(error: TreeError) -> &'static str
    ensures { result.now ≡ tree_error_text error }
{
    match error {
        TreeError::BadPath => "bad path",
        TreeError::InTheWay => "in the way",
        TreeError::Memory => "out of memory",
    }
}

fn refusal_words(refusal: &Refusal) -> &'static str
    ensures { result.now ≡ refusal_text refusal.now }
{
    match refusal {
        Refusal::ClockEnd => "clock end",
        Refusal::BadPath => "bad path",
        Refusal::InTheWay => "in the way",
        Refusal::TooLarge => "too large",
        Refusal::NotAFile => "not a file",
        Refusal::StampLater => "stamp later",
        Refusal::Interrupted => "interrupted",
        Refusal::Run(_) => "run failed",
        Refusal::Memory => "out of memory",
        Refusal::BadMoment => "bad moment",
        Refusal::OtherIndex => "other index",
    }
}
