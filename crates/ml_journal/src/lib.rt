//! The journal of a list: a log of records over the files, by which a group of changes takes effect whole or not at all,
//! whenever a crash comes.
#![tactic(auto)]

mod appended_record;
mod errors;
mod laid_files;
mod laws;
mod log_additions;
mod log_changes;
mod log_files;
mod log_reader;
mod log_writer;
mod newest_puts;
mod record_writer;
mod recovery;
mod store;

pub use errors::{CommitError, OpenError};
pub use laws::{law_gates, law_logs, law_records, law_stores};
pub use log_additions::LAY;
pub use store::Store;
