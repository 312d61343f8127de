//! The commands of the program, over any source, site and clock: the words of the command line, and what they ask for.
#![tactic(auto)]

mod commands;
mod deliver_command;
mod inquiries;
mod item_commands;
mod make_command;
mod spool_command;
mod words;

pub use commands::ezmlm_main;
