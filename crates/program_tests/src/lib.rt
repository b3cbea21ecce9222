//! Tests of the program's commands over bytes in memory, and of lines that no profile causes.
#![tactic(auto)]

#[cfg(test)]
mod tests;
