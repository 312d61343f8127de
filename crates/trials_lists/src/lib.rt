//! Makes lists for trials: files in memory, configurations, members, and the message when a row fails.
#![tactic(auto)]

mod comparison;
mod files;
mod made_files;
mod members;
mod options;
mod rows;
mod silent_files;

pub use comparison::{Left, check_left, copy};
pub use files::{ABSENT, File, KEY, Texts, add, lay, memory, set, text_of, texts};
pub use made_files::{Made, Mail, make};
pub use members::{add_member, add_members, numbered};
pub use options::config;
pub use rows::{error_text, reply_text, same};
pub use silent_files::Silent;
