//! The pages of a list's archive as questions of a list, and the words that name them.
#![tactic(auto)]

mod pages;
mod words;

pub use pages::PageQuery;
pub use words::{month_query, thread_query};
