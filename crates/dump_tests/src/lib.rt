//! Tests of dumps, worked out by hand.
#![tactic(auto)]

#[cfg(test)]
mod dumps;
