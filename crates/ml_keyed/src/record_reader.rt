// Reads a file of records, and finds one of them by its key.
ghost use Rattle.std.specs.Prelude.{◌≡◌, true, IfOk};
ghost use Rattle.std.specs.Option.{option_map};
ghost use Rattle.std.specs.Ordering.{is_lt};
ghost use Rattle.ml_base.specs.Sorted.{byte_cmp, entry_of, is_sorted};
ghost use Rattle.ml_rows.specs.Rows.{row_of};
ghost use Rattle.ml_keyed.specs.Records as spec;

use crate::Keyed;
use ml_base::Row;
use std::alloc::{AllocError, Global};
use std::cmp::Ordering;

// The records that a text spells one after another, in a file.
fn read_all<'a, R: Keyed<'a>>(
    alloc: Global,
    file: R::File,
    text: &'a [u8],
) -> Result<Option<Row<R>>, AllocError>
    ensures { IfOk result (λ r. r ≡ row_of (R.record_at file) 0 text.now) }
{
    let mut out = Row::new(alloc);
    let mut rest = text;
    while !rest.is_empty() {
        let Some((record, more)) = R::read(alloc, file, rest)? else {
            return Ok(None);
        };
        out.push(record)?;
        rest = more;
    }
    Ok(Some(out))
}

// Whether the key of a record is below that of another.
pub(crate) fn is_before<'a, R: Keyed<'a>>(one: &R, other: &R) -> bool
    ensures { result ≡ is_lt (byte_cmp (R.key_of one.now) (R.key_of other.now)) }
{
    one.compare(other) == Ordering::Less
}

// Whether the key of a record is below that of the first of some others.
fn is_below_first<'a, R: Keyed<'a>>(one: &R, others: &[R]) -> bool
    ensures { result ≡ spec.is_below_first byte_cmp R.key_of (R.key_of one.now) others.now }
{
    match others {
        [] => true,
        [first, ..] => is_before(one, first),
    }
}

// Whether the keys of records are in ascending order.
fn keys_rise<'a, R: Keyed<'a>>(records: &[R]) -> bool
    ensures { result ≡ is_sorted byte_cmp R.key_of records.now }
{
    let mut rest = records;
    while let [first, more @ ..] = rest {
        if !is_below_first(first, more) {
            return false;
        }
        rest = more;
    }
    true
}

/// The records of a file, or None if the text is no such file.
pub fn read_file<'a, R: Keyed<'a>>(
    alloc: Global,
    file: R::File,
    text: &'a [u8],
) -> Result<Option<Row<R>>, AllocError>
    ensures { IfOk result (λ r. r ≡ spec.records_in R.record_at R.key_of file text.now) }
{
    let Some(records) = read_all(alloc, file, text)? else {
        return Ok(None);
    };
    if keys_rise(records.as_slice()) {
        Ok(Some(records))
    } else {
        Ok(None)
    }
}

/// The record of the key that a text asks for, or None if there is none. It takes no memory.
pub fn find<'a, 'r, R: Keyed<'a>>(records: &'r [R], key: &[u8]) -> Option<&'r R>
    ensures { option_map (λ r. r.now) result ≡ entry_of byte_cmp R.key_of (R.asked key.now) records.now }
{
    let mut rest = records;
    while let [first, more @ ..] = rest {
        if first.has_key(key) {
            return Some(first);
        }
        rest = more;
    }
    None
}
