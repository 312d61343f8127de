//! The stream of items: reads one item at a time, and writes items.
#![tactic(auto)]

mod item_writer;
mod items;
mod laws;
mod reader;
mod stream_error;

pub use item_writer::{push_item, write_item};
pub use items::Items;
pub use laws::{law_fronts, law_items, law_numbered, law_streams};
pub use stream_error::StreamError;
