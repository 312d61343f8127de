//! Questions of a list: its archive as a mailbox, and a mailbox as a stream of posts.
#![tactic(auto)]

mod error;
mod import_question;
mod laws;
mod mailbox;
mod query;
mod stream;
mod words;

pub use error::ImportError;
pub use import_question::{ImportWords, Importing, LAST_IMPORT_START, MOST_MAILBOX};
pub use laws::{law_import, law_importing};
pub use query::MboxQuery;
pub use stream::import_text;
pub use words::{import_words, mbox_query};
