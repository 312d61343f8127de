//! Records under keys, in the order of their keys: files that are rows of them, and rows that are spread over 53 files,
//! the buckets. Sets of members, ledgers and thread files have such records.
#![tactic(auto)]

ghost use Rattle.std.specs.Prelude.{◌≡◌, ◌<◌};
ghost use Rattle.ml_base.specs.Bytes.{lower};
ghost use Rattle.ml_keyed.specs.Buckets as buckets;

mod record_reader;
mod record_writer;
mod records;

use ml_base::{hash, hash_lower};
pub use record_reader::{find, read_file};
pub use record_writer::{file_without, push_with, push_without, text_with};
pub use records::Keyed;

/// The number of the file that has a key, 0 to 52. It takes no memory.
pub fn bucket_of(key: &[u8]) -> u8
    ensures value { result ≡ buckets.bucket_of key.now }
    ensures below { result < 53 }
{
    (hash(key) % 53) as u8
}

/// The number of the file that has the key of a text, which is the text in lower case: 0 to 52. It takes no memory.
pub fn bucket_of_lower(text: &[u8]) -> u8
    ensures value { result ≡ buckets.bucket_of (lower text.now) }
    ensures below { result < 53 }
{
    (hash_lower(text) % 53) as u8
}
