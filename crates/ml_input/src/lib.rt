//! Questions of a list that are made of the whole input, and of the clock's moment.
#![tactic(auto)]

mod error;
mod input;
mod questions;

pub use error::InputError;
pub use input::read_input;
pub use questions::{FromInput, ask};
