//! Tests of the public calls on messages, on requests with senders and cookies, and on the mails that a list writes.
#![tactic(auto)]

#[cfg(test)]
mod address;
#[cfg(test)]
mod answer_text;
#[cfg(test)]
mod header;
#[cfg(test)]
mod program;
#[cfg(test)]
mod reply;
#[cfg(test)]
mod tables;
