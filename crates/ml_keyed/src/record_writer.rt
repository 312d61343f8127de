// Writes a file of records anew, with one record more or changed, or without a key.
ghost use Rattle.std.specs.Prelude.{◌≡◌, ◌∷◌, ◌++◌, true, not, IfOk, IfSome, IfNone, OnOk};
ghost use Rattle.std.specs.List.{flat_map};
ghost use Rattle.std.specs.Ordering.{is_lt};
ghost use Rattle.std.specs.Str.{bytes_eq};
ghost use Rattle.ml_base.specs.Bytes.{is_empty};
ghost use Rattle.ml_base.specs.Sorted.{byte_cmp, with_entry, without_key};
ghost use Rattle.ml_keyed.specs.Records.{file_of, is_from, past_key};

use crate::Keyed;
use crate::record_reader::is_before;
use ml_base::Bytes;
use std::alloc::{AllocError, Global};
use std::cmp::Ordering;

// Adds records.
fn push_all<'a, R: Keyed<'a>>(
    alloc: Global,
    out: &mut Bytes,
    records: &[R],
) -> Result<(), AllocError>
    ensures { OnOk result (out.new ≡ out.old ++ flat_map R.spelling records.now) }
{
    let mut rest = records;
    while let [first, more @ ..] = rest {
        first.push(alloc, out)?;
        rest = more;
    }
    Ok(())
}

// The first of some records and those after it, if its key is below that of another.
fn next_below<'a, 'r, R: Keyed<'a>>(records: &'r [R], other: &R) -> Option<(&'r R, &'r [R])>
    ensures some { IfSome result (λ r. (records.now ≡ r.0.now ∷ r.1.now) × (is_lt (byte_cmp (R.key_of r.0.now) (R.key_of other.now)) ≡ true)) }
    ensures none { IfNone result (is_from R.key_of (R.key_of other.now) records.now ≡ true) }
{
    let [first, more @ ..] = records else {
        return None;
    };
    if is_before(first, other) {
        Some((first, more))
    } else {
        None
    }
}

// Whether two records have the same key.
fn is_same<'a, R: Keyed<'a>>(one: &R, other: &R) -> bool
    ensures { result ≡ bytes_eq (R.key_of one.now) (R.key_of other.now) }
{
    match one.compare(other) {
        Ordering::Less => false,
        Ordering::Equal => true,
        Ordering::Greater => false,
    }
}

// The records without the first, if that has the key of another.
fn after<'a, 'r, R: Keyed<'a>>(records: &'r [R], other: &R) -> &'r [R]
    ensures { result.now ≡ past_key R.key_of (R.key_of other.now) records.now }
{
    let [first, more @ ..] = records else {
        return records;
    };
    if is_same(first, other) { more } else { records }
}

/// Adds records to the end of a text with this one among them, in place of the one with its key.
pub fn push_with<'a, R: Keyed<'a>>(
    alloc: Global,
    out: &mut Bytes,
    records: &[R],
    added: &R,
) -> Result<(), AllocError>
    ensures { OnOk result (out.new ≡ out.old ++ flat_map R.spelling (with_entry byte_cmp R.key_of added.now records.now)) }
{
    let mut rest = records;
    while let Some((first, more)) = next_below(rest, added) {
        first.push(alloc, out)?;
        rest = more;
    }
    added.push(alloc, out)?;
    push_all(alloc, out, after(rest, added))?;
    Ok(())
}

/// Adds records to the end of a text without the one of the key that a text asks for. It answers whether any is left.
pub fn push_without<'a, R: Keyed<'a>>(
    alloc: Global,
    out: &mut Bytes,
    records: &[R],
    key: &[u8],
) -> Result<bool, AllocError>
    ensures text { OnOk result (out.new ≡ out.old ++ flat_map R.spelling (without_key byte_cmp R.key_of (R.asked key.now) records.now)) }
    ensures some { IfOk result (λ some. some ≡ not (is_empty (without_key byte_cmp R.key_of (R.asked key.now) records.now))) }
{
    let mut has_records = false;
    let mut rest = records;
    while let [first, more @ ..] = rest {
        if !first.has_key(key) {
            first.push(alloc, out)?;
            has_records = true;
        }
        rest = more;
    }
    Ok(has_records)
}

/// The text of records with this one added, in place of the one with its key.
pub fn text_with<'a, R: Keyed<'a>>(
    alloc: Global,
    records: &[R],
    added: &R,
) -> Result<Bytes, AllocError>
    ensures { IfOk result (λ text. text ≡ flat_map R.spelling (with_entry byte_cmp R.key_of added.now records.now)) }
{
    let mut out = Bytes::new(alloc);
    push_with(alloc, &mut out, records, added)?;
    Ok(out)
}

/// The file of records without that of the key that a text asks for: no file if no record is left.
pub fn file_without<'a, R: Keyed<'a>>(
    alloc: Global,
    records: &[R],
    key: &[u8],
) -> Result<Option<Bytes>, AllocError>
    ensures { IfOk result (λ file. file ≡ file_of R.spelling (without_key byte_cmp R.key_of (R.asked key.now) records.now)) }
{
    let mut out = Bytes::new(alloc);
    if push_without(alloc, &mut out, records, key)? {
        Ok(Some(out))
    } else {
        Ok(None)
    }
}
