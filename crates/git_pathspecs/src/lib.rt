//! Git's pathspecs: which paths words such as `src/*.c` and `:!docs` select.
//!
//! Read `magic` first: the words before a pathspec's text. `element` is what one word of a pathspec chooses, by a node's `name`,
//! and `list` what several select together.
#![tactic(auto)]

pub mod element;
pub mod list;
pub mod magic;
pub mod name;

pub use element::Element;
pub use list::{common_prefix, leads, reaches, selects};
pub use magic::{Magic, MagicFault, magic_of};
pub use name::Name;
