//! Tests of what the loader keeps: rows of starts, loads, frees and exits over small libraries, with what begins, what
//! is called and what is gone, as the rules give them by hand.
#![tactic(auto)]

mod entries;
mod keeping;
mod modules;
#[cfg(test)]
mod rows;
