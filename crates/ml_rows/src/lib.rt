//! Texts in which records stand in a row, and texts of values. The files of several parts of a list are made of these.
#![tactic(auto)]

mod laws;
mod numbers;

pub use laws::law_values;
pub use numbers::{numbers_of, push_numbers};
