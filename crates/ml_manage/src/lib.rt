//! What mail to the list's other addresses does, except for moderators' answers: bounces, requests to join and to leave, answers from the
//! archive, the members of a set, help, and mail to the owner.
#![tactic(auto)]

mod archive;
mod bounces;
mod help_and_owner;
mod managed_requests;
mod members;
mod rules;
mod texts;

pub use managed_requests::is_managed;
pub use rules::manage;
