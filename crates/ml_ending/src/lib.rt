//! How a call on a store ends: its store is closed, and its text or one stop line is given.
#![tactic(auto)]

mod endings;
mod lines;
mod refusals;
mod text_output;

pub use endings::{Ending, close_store, end_refused, finish, say, stop};
pub use lines::{Why, put_status, stop_line};
pub use refusals::{not_opened, why_of, why_refused};
pub use text_output::give_text;
