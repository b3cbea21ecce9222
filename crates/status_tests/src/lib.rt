//! Tests of what no clause states, and the example of docs/GUIDE.md.
//!
//! Begin at `example`. Each folder tests a layer, from the bottom up: `board`, `base` (with the index and walks), `call`
//! and `joined` (with renames and copies). Its `mod.rt` says where to begin. `world` has histories and the stored index,
//! `words` the texts of errors of all layers, and `clones` copies of values. `support` has what several of them use.
#![tactic(auto)]

#[cfg(test)]
mod base;
#[cfg(test)]
mod board;
#[cfg(test)]
mod call;
#[cfg(test)]
mod clones;
#[cfg(test)]
mod example;
#[cfg(test)]
mod joined;
#[cfg(test)]
mod support;
#[cfg(test)]
mod words;
#[cfg(test)]
mod world;
