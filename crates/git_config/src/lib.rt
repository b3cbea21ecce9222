//! Git's configuration: which variables the bytes of a file state, what their values mean, and which conditions of includes
//! hold.
//!
//! Read `config` first, the variables. `reader` reads a file's bytes by `state`, and `parameters` a variable of the
//! environment. `values` reads values. `conditions` are those of `includeIf`, with their patterns of folders in `folders`.
#![tactic(auto)]

pub mod conditions;
pub mod config;
pub mod folders;
pub mod parameters;
pub mod reader;
mod state;
pub mod values;

pub use conditions::{Condition, condition_of};
pub use config::{Config, ConfigError, Variable};
pub use folders::FolderPattern;
pub use parameters::append_parameters;
pub use reader::read_config;
pub use state::is_blank;
pub use values::{bool_of, is_text, number_of};
