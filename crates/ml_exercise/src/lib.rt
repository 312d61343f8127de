//! An exercise of a list: a stream that is made from a count is run, and then the list is looked over.
#![tactic(auto)]

mod config_search;
mod exercise_run;
mod summary;

pub use exercise_run::exercise;
