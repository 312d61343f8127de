//! Tests of the commands that read a list.
#![tactic(auto)]

#[cfg(test)]
mod input_questions;
#[cfg(test)]
mod noted_question;
#[cfg(test)]
mod program;
#[cfg(test)]
mod queue_and_posts;
#[cfg(test)]
mod set_members;
