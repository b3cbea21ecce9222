//! Begin at `commands`. The lines that a profile causes are tested by `tools/status_program/rows`, with the built program.

mod commands;
mod failures;
mod lines;
mod outputs;
mod writers;
