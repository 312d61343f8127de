//! Files under numbers that are drawn in order, with a counter that has the next number. Held posts and the queue have this form.
#![tactic(auto)]

mod counter;
mod file_changes;
mod search;
mod series;
mod things;

pub use counter::{Counter, counter_of};
pub use file_changes::{draw, take_out};
pub use search::{Found, file_of, is_there, next_number, next_there};
pub use series::Series;
pub use things::{Thing, audit};
