//! The archive of a list: numbered posts, an index for every group of a hundred, and threads of posts with one subject.
#![tactic(auto)]

mod files;
mod index_reader;
mod laws;
mod lookups;
mod new_post;
mod numbers;
mod post_reader;
mod posts;
mod ranges;
mod subjects;
mod thread_lookups;
mod threads;

pub use laws::{law_append, law_archive, law_archive_files, law_cut, law_threads};
pub use lookups::{Index, Indexes, entry_among, read_alone};
pub use new_post::{append, append_next};
pub use post_reader::{count, index, message_of, post};
pub use posts::{Appended, Entries, Entry, Post, Thread, Threads};
pub use ranges::range;
pub use subjects::{subject, subject_key};
pub use thread_lookups::{thread, thread_file, whole_thread};
pub use threads::thread_place_of;
