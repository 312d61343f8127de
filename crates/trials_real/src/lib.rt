//! Tests of the real disk, clock and input.
#![tactic(auto)]

#[cfg(test)]
mod rows;
#[cfg(test)]
mod steps;
