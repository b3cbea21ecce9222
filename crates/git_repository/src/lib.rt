//! A repository on disk: where it is, its settings, the attribute files of its worktree, and submodules' heads.
//!
//! Read `location` first, which finds the repository of a folder by `git_dir`. `settings` are those that a status depends
//! on, with `format`, `switches` and `lfs`, from the files that `sources` names and `includes` adds, by the conditions that `folders` decides.
//! `intended` is a worktree in which nested repositories count.
//! `attribute_files` finds the attribute files: those of the worktree, and those that `outer_attributes` names. `ignore_files`
//! reads ignore files, `user_files` finds the files of the user and `homes` the folders of users, and `nested` other repositories in a worktree. `submodules` compares the heads of submodules, which `heads` finds. `regular` opens files, `files` reads small ones, and `paths` has what a path's text says.
//! `lock` replaces the index file, and `error` has the errors.
#![tactic(auto)]

pub mod attribute_files;
pub mod error;
mod files;
mod folders;
mod format;
mod git_dir;
mod heads;
mod homes;
pub mod ignore_files;
pub mod ignored;
mod includes;
pub mod intended;
mod lfs;
pub mod location;
mod lock;
mod nested;
mod outer_attributes;
pub mod paths;
pub mod regular;
pub mod settings;
mod sources;
pub mod submodules;
mod switches;
mod user_files;

pub use attribute_files::GitAttributeFiles;
pub use error::RepositoryError;
pub use folders::Folders;
pub use heads::head_of;
pub use ignore_files::{IGNORE_LIMIT, outer_ignore_files};
pub use ignored::{IgnoredSubmodules, MODULES, ModulesFile};
pub use intended::IntendedWorktree;
pub use location::Repository;
pub use lock::{replace_index, time_of_lock};
pub use nested::is_repository;
pub use paths::{is_folder_path, push_name};
pub use regular::{RegularFile, Unread, read_regular};
pub use settings::{OwnSettings, Settings, read_own, read_settings};
pub use sources::{Source, is_set};
pub use submodules::{SubmoduleHead, SubmoduleHeads};
