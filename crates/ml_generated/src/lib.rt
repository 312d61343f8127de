//! An exercise: a stream of N made-up items that use every part of a list.
#![tactic(auto)]

mod buffer;
mod item_source;
mod items;
mod laws;
mod texts;

pub use item_source::Generated;
pub use laws::law_generated;
