//! Tests of the whole program over memory, stopped after each of its calls, and with each call failing in turn.
#![tactic(auto)]

#[cfg(test)]
mod scripts;
#[cfg(test)]
mod stops;
