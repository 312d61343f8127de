//! The words of a mailing list that the other crates share: names of files, addresses, byte strings, numbers and netstrings.
#![tactic(auto)]

mod address;
mod bytes;
mod fault_plan;
mod files;
mod hashes;
mod key_order;
mod laws;
mod layer;
mod maps;
mod name_maps;
mod names;
mod netstring;
mod number;
mod own_addresses;
mod part_error;
mod paths;
mod pieces;
mod puts;
mod ranges;
mod row;
mod row_cuts;
mod splits;

pub use address::{Address, AddressError, AddressFault, is_canonical, is_host_byte, make_address};
pub use bytes::{Bytes, copied};
pub use fault_plan::FaultPlan;
pub use files::{Files, FilesError};
pub use hashes::{hash, hash_lower};
pub use key_order::{compare_keys, is_below};
pub use laws::{
    law_addresses, law_lines, law_netstrings, law_numbers, law_paths, law_puts, law_rows,
    law_sorted_by_number, law_sorted_by_text, law_splits,
};
pub use layer::Layer;
pub use maps::MapFiles;
pub use name_maps::next_place;
pub use names::{Name, Set};
pub use netstring::{Span, push_netstring, push_number_netstring, read_netstring, split_netstring};
pub use number::{age, is_next_digit, number_within, read_number, write_number};
pub use own_addresses::is_own;
pub use part_error::PartError;
pub use paths::path;
pub use pieces::{put_number, put_piece};
pub use puts::{AddressList, Put, Txn, newest_place};
pub use ranges::{
    LARGEST_READ, LAST_DRAWN, LAST_ITEM, LAST_MOMENT, LAST_POST_NUMBER, LONGEST_MESSAGE,
    LONGEST_PATH, LONGEST_POST, is_drawn, is_moment, is_post_number,
};
pub use row::{Numbers, Row};
pub use row_cuts::{MAX_POSTS, cut_len};
pub use splits::{split_first, split_last, split_line};
