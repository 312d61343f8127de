//! Runs tables of trials: a table is a text, and each row has steps over a list in memory.
#![tactic(auto)]

mod files;
mod paths;
mod rows;
mod stage;
mod steps;
mod texts;

pub use files::OnSite;
pub use rows::hold;
pub use stage::{Program, ended_with, read_whole};
pub use texts::spelled;
