//! The run that answers a stream of items, and the making of a list.
#![tactic(auto)]

mod batch_commit;
mod batch_items;
mod batch_loop;
mod batches;
mod feed;
mod feed_run;
mod item_puts;
mod laid_puts;
mod laws;
mod lines;
mod new_list;
mod runs;

pub use laws::law_joined;
pub use lines::answer_line;
pub use ml_ending::{Ending, Why, stop, stop_line};
pub use ml_generated::{Generated, law_generated};
pub use ml_stream::{Items, StreamError, law_fronts, law_items, law_streams, write_item};
pub use new_list::make;
pub use runs::{run, run_item};
