//! The options of a profile.

ghost use Rattle.std.specs.Prelude.{◌≡◌, None};
ghost use Rattle.status_compare.specs.declared.compare.Comparer.TheVariants.{Hash};
ghost use Rattle.status_format.specs.Reads.{Reads, or_default};
ghost use Rattle.status_profile.specs.Forms.{value_at, limit_in, object_at};
ghost use Rattle.status_profile.specs.Options.{common_options_in, fields_in, history_options_in, if_kind, is_joined, option_values, options_in, over_folder, over_place, stat_options_in, status_options_in};
ghost use Rattle.status_profile.specs.Words.{comparer_in};

use crate::form::{
    comparer_of, field, limit_of, number_or_zero, object_of, text_or_empty, truth_or,
};
use bstr::BString;
use serde_json::Value;
use status_base::index::stat;
use status_call::index_as_worktree::{Capabilities, Options};
use status_compare::Comparer;
use status_format::FieldError;
use std::alloc::Global;

/// The options of a history, which a status has too.
#[derive(Clone, Copy, Debug)]
pub struct HistoryOptions {
    /// Which parts of stats have to be equal.
    pub stat: stat::Options,
    /// Whether executability counts.
    pub executable_bit: bool,
    /// Whether a last line with the counts is printed.
    pub counts: bool,
}

/// The options of a status.
#[derive(Debug, Drop)]
pub struct ProfileOptions {
    /// How the status is computed.
    pub status: Options,
    /// How files are compared.
    pub comparer: Comparer,
    /// The common prefix of the paths that are checked.
    pub prefix: BString,
    /// Whether untracked files are reported.
    pub untracked: bool,
    /// Whether renames are reported.
    pub renames: bool,
    /// Whether the lines are sorted by path.
    pub sort: bool,
    /// Whether a last line with the counts is printed.
    pub counts: bool,
}

impl ProfileOptions {
    /// Whether the status has untracked files, renames or sorted lines.
    pub fn is_joined(&self) -> bool
        ensures { result ≡ is_joined (option_values self.now) }
    {
        self.untracked || self.renames || self.sort
    }

    /// Returns the options for a folder. No file in it is executable, so the executable bit doesn't count.
    ///
    /// # Errors
    /// Untracked files or renames: a folder isn't walked.
    fn over_folder(mut self) -> Result<ProfileOptions, FieldError>
        ensures { Reads option_values result (over_folder (option_values self)) }
    {
        if self.untracked || self.renames {
            return Err(FieldError::Form);
        }
        self.status.fs.executable_bit = false;
        Ok(self)
    }
}

/// The statuses that a profile may ask for.
#[derive(Clone, Copy, Debug, PartialEq, Eq)]
pub enum Kind {
    /// Any status.
    Any,
    /// A status without untracked files, renames and sorted lines.
    Plain,
}

/// Reads the options of a status, by the values of `options` and `folder`. All of them may be missing.
///
/// # Errors
/// An option has a wrong form, or asks for what isn't supported over a folder or by this kind of status.
pub fn read_options(
    alloc: Global,
    kind: Kind,
    options: Option<&Value>,
    folder: Option<&Value>,
) -> Result<ProfileOptions, FieldError>
    ensures { Reads option_values result (options_in kind (value_at options.entry) (value_at folder.entry)) }
{
    let values = read_fields(alloc, object_of(options)?)?;
    let values = over_place(values, folder.is_some())?;
    check_kind(values, kind)
}

/// Returns the options over a folder or over nodes.
fn over_place(options: ProfileOptions, is_folder: bool) -> Result<ProfileOptions, FieldError>
    ensures { Reads option_values result (over_place is_folder (option_values options)) }
{
    if is_folder {
        return options.over_folder();
    }
    Ok(options)
}

/// Returns the options, if this kind of status may have them.
fn check_kind(options: ProfileOptions, kind: Kind) -> Result<ProfileOptions, FieldError>
    ensures { Reads option_values result (if_kind kind (option_values options)) }
{
    match kind {
        Kind::Plain if options.is_joined() => Err(FieldError::Form),
        _ => Ok(options),
    }
}

/// Reads the options of a status from an object.
#[tactic(auto, unfolding(crate::specs::Options::fields_in))]
fn read_fields(alloc: Global, object: Option<&Value>) -> Result<ProfileOptions, FieldError>
    ensures { Reads option_values result (fields_in (object_at object.entry)) }
{
    let common = read_common(object)?;
    let status = read_status(common, object)?;
    let comparer = comparer_or_hash(field(object, "comparer"))?;
    let prefix = text_or_empty(field(object, "prefix"))?;
    Ok(ProfileOptions {
        status,
        comparer,
        prefix: BString::from_slice(alloc, prefix.as_bytes())?,
        untracked: truth_or(field(object, "untracked"), false)?,
        renames: truth_or(field(object, "renames"), false)?,
        sort: truth_or(field(object, "sort"), false)?,
        counts: common.counts,
    })
}

/// Reads how files are compared. The default is by ids.
fn comparer_or_hash(value: Option<&Value>) -> Result<Comparer, FieldError>
    ensures { Reads (λ c. c) result (or_default comparer_in Hash (value_at value.entry)) }
{
    match value {
        Some(comparer) => comparer_of(comparer),
        None => Ok(Comparer::Hash),
    }
}

/// Reads how a status is computed. Listings are never used.
#[tactic(auto, unfolding(crate::specs::Options::status_options_in))]
fn read_status(common: HistoryOptions, object: Option<&Value>) -> Result<Options, FieldError>
    ensures { Reads (λ o. o) result (status_options_in common (object_at object.entry)) }
{
    let symlink = truth_or(field(object, "symlink"), true)?;
    let thread_limit = limit_or_none(field(object, "thread_limit"))?;
    let chunk_size = number_or_zero(field(object, "chunk_size"))? as usize;
    Ok(Options {
        fs: Capabilities {
            symlink,
            executable_bit: common.executable_bit,
        },
        thread_limit,
        stat: common.stat,
        fscache: false,
        chunk_size,
    })
}

/// Reads the greatest number of workers, of which there is none if it is missing.
fn limit_or_none(value: Option<&Value>) -> Result<Option<usize>, FieldError>
    ensures { Reads (λ limit. limit) result (or_default limit_in None (value_at value.entry)) }
{
    match value {
        Some(limit) => limit_of(limit),
        None => Ok(None),
    }
}

/// Reads the options of a history, by the value of `options`. Each of them may be missing.
///
/// # Errors
/// An option has a wrong form.
pub fn read_history_options(options: Option<&Value>) -> Result<HistoryOptions, FieldError>
    ensures { Reads (λ o. o) result (history_options_in (value_at options.entry)) }
{
    read_common(object_of(options)?)
}

/// Reads the options of a history from an object.
#[tactic(auto, unfolding(crate::specs::Options::common_options_in))]
fn read_common(object: Option<&Value>) -> Result<HistoryOptions, FieldError>
    ensures { Reads (λ o. o) result (common_options_in (object_at object.entry)) }
{
    Ok(HistoryOptions {
        stat: read_stat_options(object)?,
        executable_bit: truth_or(field(object, "executable_bit"), true)?,
        counts: truth_or(field(object, "counts"), false)?,
    })
}

/// Reads which parts of stats have to be equal.
fn read_stat_options(object: Option<&Value>) -> Result<stat::Options, FieldError>
    ensures { Reads (λ o. o) result (stat_options_in (object_at object.entry)) }
{
    Ok(stat::Options {
        trust_ctime: truth_or(field(object, "trust_ctime"), true)?,
        check_stat: truth_or(field(object, "check_stat"), true)?,
        use_nsec: truth_or(field(object, "use_nsec"), false)?,
        use_stdev: truth_or(field(object, "use_stdev"), false)?,
    })
}
