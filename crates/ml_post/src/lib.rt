//! Posts: the verdict on a post, what follows, and what a moderator answers about a post that waits.
#![tactic(auto)]

mod address_search;
mod held_posts;
mod incoming_mail;
mod moderator_answers;
mod outgoing_text;
mod publication;
mod verdict_table;
mod verdicts;

pub use incoming_mail::{post, post_with_memo};
pub use moderator_answers::{Decision, answer, decide};
pub use verdict_table::verdict;
pub use verdicts::Verdict;
