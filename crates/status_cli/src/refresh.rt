//! The refresh of a profile's index.

ghost use Rattle.std.specs.Prelude.{◌≡◌, ◌⊎◌, ◌++◌, [], IfErr, IfOk, IfSome, OnErr, OnOk};
ghost use Rattle.status_cli.specs.ProfileStatuses.{IsFailed};
ghost use Rattle.status_cli.specs.Refreshes.{IsIndexRefreshed, IsRefreshFailed, IsRefreshed};

use crate::failure::Failure;
use crate::output::read_all;
use crate::status::{IndexChanges, WantedChanges, print_profile};
use gix_status::index::{Moment, State};
use gix_status::index_as_worktree::apply_changes;
use status_profile::{Kind, Profile, read_json, refreshed_text};
use std::alloc::AllocError;
use std::io;
use std::rt::Files;
use std::sync::Wait;
use std::thread::Threads;

/// Reads a profile, prints its status as `run_status` does, applies to the index the changes that it asks for, and sets
/// the index's timestamp to these seconds and nanoseconds. Then it appends the profile with that index to `refreshed`, as
/// compact text and a line feed, with the keys of each object ascending. All other values are unchanged; of equal keys the
/// last is kept. `name` is the name of the profile's file.
///
/// Returns the exit status: 0, or 1 after a failure, which is one line on `faults` (none if `output` can't be written).
/// After a failure `refreshed` is unchanged.
pub fn run_refresh<
    R: AllocGlobal + Files + Sync + Threads + Wait,
    I: io::Read,
    O: io::Write,
    E: io::Write,
>(
    rt: &R,
    name: &str,
    secs: u32,
    nsecs: u32,
    profile: &mut I,
    output: &mut O,
    faults: &mut E,
    refreshed: &mut Vec<u8>,
) -> u8
where
    R::File: Send,
    R::Dir: Send,
    ensures status { (result ≡ 0) ⊎ (result ≡ 1) }
    ensures refreshed { result ≡ 0 → IfSome (I.remaining profile.old) (λ text. IsRefreshed text (record { secs = secs; nsecs = nsecs })
        (O.contents output.old) (O.contents output.new) refreshed.old.items refreshed.new.items) }
    ensures failed { result ≡ 1 → IfSome (I.remaining profile.old) (λ text. IsFailed
        (λ f. IsRefreshFailed text (O.contents output.old) f (O.contents output.new)) name.now (E.contents faults.old) (E.contents faults.new)) }
    ensures quiet { result ≡ 0 → E.contents faults.new ≡ E.contents faults.old }
    ensures kept { result ≡ 1 → refreshed.new.items ≡ refreshed.old.items }
{
    match refresh(rt, Moment { secs, nsecs }, profile, output) {
        Ok(text) => match append(refreshed, text) {
            Ok(()) => 0,
            Err(_) => Failure::Memory.report(rt.alloc(), name, faults),
        },
        Err(failure) => failure.report(rt.alloc(), name, faults),
    }
}

/// Appends a text. If there are no bytes before it, it is moved and not copied.
fn append(to: &mut Vec<u8>, text: Vec<u8>) -> Result<(), AllocError>
    ensures ok { OnOk result (to.new.items ≡ to.old.items ++ text.items) }
    ensures err { OnErr result (to.new.items ≡ to.old.items) }
{
    if to.is_empty() {
        *to = text;
        return Ok(());
    }
    to.extend_from_slice(text.as_slice())
}

/// Refreshes a profile, and returns its new text.
fn refresh<R: AllocGlobal + Files + Sync + Threads + Wait, I: io::Read, O: io::Write>(
    rt: &R,
    timestamp: Moment,
    profile: &mut I,
    output: &mut O,
) -> Result<Vec<u8>, Failure>
where
    R::File: Send,
    R::Dir: Send,
    ensures ok { IfOk result (λ r. IfSome (I.remaining profile.old) (λ text. IsRefreshed text timestamp (O.contents output.old) (O.contents output.new) [] r.items)) }
    ensures err { IfErr result (λ f. IfSome (I.remaining profile.old) (λ text. IsRefreshFailed text (O.contents output.old) f (O.contents output.new))) }
{
    let alloc = rt.alloc();
    let text = read_all(alloc, profile)?;
    let value = read_json(alloc, text.as_slice())?;
    drop(text);
    let profile = Profile::from_value(alloc, &value, Kind::Plain)?;
    let index = refresh_index(rt, profile, timestamp, output)?;
    Ok(refreshed_text(alloc, value, index)?)
}

/// Prints the status of a profile. Returns its index, with the changes that the status asks for and with this timestamp.
fn refresh_index<R: AllocGlobal + Files + Sync + Threads + Wait, O: io::Write>(
    rt: &R,
    profile: Profile,
    timestamp: Moment,
    output: &mut O,
) -> Result<State, Failure>
where
    R::File: Send,
    R::Dir: Send,
    ensures { IsIndexRefreshed profile timestamp (O.contents output.old) result (O.contents output.new) }
{
    let IndexChanges { mut index, changes } = print_profile(
        rt,
        profile,
        WantedChanges::Returned,
        output,
    )?;
    apply_changes(&mut index, &changes);
    index.set_timestamp(timestamp);
    Ok(index)
}
