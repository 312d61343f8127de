//! Sets of subscribers. The addresses of a set are spread over 53 files by a hash, each a list in order of key, with
//! their number in another file. Here they are found, listed, added, removed and checked.
#![tactic(auto)]

mod audits;
mod bucket_number;
mod bucket_texts;
mod checked_texts;
mod counts;
mod laws;
mod lists;
mod member_list;
mod records;
mod set_changes;
mod sets;

pub use audits::audit;
pub use bucket_number::bucket;
pub use checked_texts::Checked;
pub use laws::{law_changes, law_order, law_sets};
pub use lists::{Spelling, all, all_with_memo, members};
pub use member_list::{Member, MemberList};
pub use set_changes::AddAnswer;
pub use sets::{add, add_with_memo, find, member, remove, remove_with_memo, size};
