// The trait of records that have a key, and that files have in a row.
ghost use Rattle.std.specs.Prelude.{◌≡◌, ◌<◌, ◌++◌, ℕ, length, Option, Some, None, IfOk, IfSome, IfNone, OnOk};
ghost use Rattle.std.specs.Str.{bytes_eq};
ghost use Rattle.ml_base.specs.Bytes.{Text};
ghost use Rattle.ml_base.specs.Sorted.{byte_cmp};

use ml_base::Bytes;
use std::alloc::{AllocError, Global};
use std::cmp::Ordering;

/// A record that has a key, and that files have in a row. It may point into the text that it is read from.
pub trait Keyed<'a>: Drop {
    /// What has to be known of a file to read it, as its number.
    type File: Copy;

    /// Its key.
    ghost key_of: { Self → Text };

    /// The key that a text asks for.
    ghost asked: { Text → Text };

    /// Its bytes in a file that is written.
    ghost spelling: { Self → Text };

    /// The record that a text begins with, in a file, at a place of its row, and what comes after it.
    ghost record_at: { Self.File → ℕ → Text → Option (Self × Text) };

    /// Compares its key with that of another record.
    fn compare(&self, other: &Self) -> Ordering
        ensures { result ≡ byte_cmp (key_of self.now) (key_of other.now) };

    /// Whether it has the key that a text asks for.
    fn has_key(&self, text: &[u8]) -> bool
        ensures { result ≡ bytes_eq (asked text.now) (key_of self.now) };

    /// Adds the record to the end of a file.
    fn push(&self, alloc: Global, out: &mut Bytes) -> Result<(), AllocError>
        ensures { OnOk result (out.new ≡ out.old ++ spelling self.now) };

    /// Reads the record that a text begins with, in a file: the record, and what comes after it.
    fn read(
        alloc: Global,
        file: Self::File,
        text: &'a [u8],
    ) -> Result<Option<(Self, &'a [u8])>, AllocError>
        ensures some { IfOk result (λ r. IfSome r (λ found. (place : ℕ) → record_at file place text.now ≡ Some (found.0, found.1.now))) }
        ensures none { IfOk result (λ r. IfNone r ((place : ℕ) → record_at file place text.now ≡ None)) }
        ensures shorter { IfOk result (λ r. IfSome r (λ found. length found.1.now < length text.now)) };
}
