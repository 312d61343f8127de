//! The configuration of a list, its keys, and the words of `make`.
#![tactic(auto)]

mod command;
mod config_reader;
mod config_writer;
mod configuration;
mod first_files;
mod key_file;
mod laws;
mod loader;
mod value_ranges;
mod words;

pub use config_reader::read_config;
pub use config_writer::write_config;
pub use configuration::{Config, Flags};
pub use first_files::initial;
pub use key_file::{Former, Keys, key, set_keys};
pub use laws::{law_configurations, law_keys};
pub use loader::load;
pub use words::{ConfigError, config_from_words};
