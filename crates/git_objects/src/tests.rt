//! Tests of what no contract states.

mod compressed;
mod objects;
mod packs;
