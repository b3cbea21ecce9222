//! Whether the driver of `filter=lfs` is git-lfs.

use git_config::Config;

/// Returns whether git-lfs stores the files with `filter=lfs`, by the commands that `git lfs install` writes. No command is run.
/// With `lfs.extension` another program changes the files first.
pub(crate) fn is_lfs(config: &Config) -> bool {
    if has_extension(config) {
        return false;
    }
    match command(config, b"process") {
        Some(process) => {
            matches!(
                process,
                b"git-lfs filter-process" | b"git-lfs filter-process --skip"
            )
        }
        None => match command(config, b"clean") {
            Some(clean) => matches!(clean, b"git-lfs clean -- %f" | b"git-lfs clean %f"),
            None => false,
        },
    }
}

// Returns the driver's command of this name.
fn command<'a>(config: &'a Config, name: &[u8]) -> Option<&'a [u8]> {
    config.get(b"filter", Some(b"lfs"), name)?.value()
}

// Returns whether there is an extension of git-lfs.
fn has_extension(config: &Config) -> bool {
    config
        .variables()
        .iter()
        .any(|variable| match variable.subsection_of(b"lfs") {
            Some(name) => name.starts_with(b"extension."),
            None => false,
        })
}
