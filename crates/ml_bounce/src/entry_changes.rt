// How a change of one entry changes its file.
ghost use Rattle.std.specs.Prelude.{◌≡◌, true, ℕ, List, Some, None, IsTrue, IfOk, if◌then◌else◌};
ghost use Rattle.std.specs.Option.{option_map};
ghost use Rattle.ml_base.specs.Address.{IsAddress};
ghost use Rattle.ml_bounce.specs.Answers.{has_ledger, writes};
ghost use Rattle.ml_bounce.specs.Changes.{can_note, noted};
ghost use Rattle.ml_bounce.specs.Changes as spec;
ghost use Rattle.ml_bounce.specs.Ledger.{with_ledger};
ghost use Rattle.ml_bounce.specs.Ledger as ledgers;

use crate::buckets::{Bucket, written};
use crate::entry_records::Entries;
use crate::ledger_reader::MAX_MISSED;
use crate::numbers::has_number;
use crate::{LedgerEntry, Stage};
use ml_base::{Address, Numbers, Set, Txn};
use ml_keyed::{file_without, find, text_with};
use std::alloc::{AllocError, Global};

// A copy of numbers, with room for one more.
fn copied_numbers(alloc: Global, numbers: &[u64]) -> Result<Numbers, AllocError>
    ensures { IfOk result (λ copy. copy ≡ numbers.now) }
{
    let mut copy = Vec::with_capacity(alloc, numbers.len().saturating_add(1))?;
    copy.extend_from_slice(numbers)?;
    Ok(Numbers::from_vec(copy))
}

// A copy of an entry, with room for one more missed number.
pub(crate) fn copied(alloc: Global, entry: &LedgerEntry) -> Result<LedgerEntry, AllocError>
    ensures { IfOk result (λ copy. copy ≡ entry.now) }
{
    Ok(LedgerEntry {
        key: entry.key.copy(alloc)?,
        first: entry.first,
        stage: entry.stage,
        missed: copied_numbers(alloc, entry.missed.as_slice())?,
    })
}

// A copy of the key's entry, or an entry with nothing to remember if there is none.
fn entry_under(alloc: Global, bucket: &Bucket) -> Result<LedgerEntry, AllocError>
    requires { IsAddress bucket.now.key }
    ensures { IfOk result (λ entry. entry ≡ ledgers.entry_under bucket.now.key bucket.now.entries) }
{
    match find(bucket.entries.as_slice(), bucket.key.as_slice()) {
        Some(entry) => copied(alloc, entry),
        None => Ok(LedgerEntry {
            key: Address::from_canonical(alloc, bucket.key.as_slice())?,
            first: 0,
            stage: Stage::Unwarned,
            missed: Numbers::new(alloc),
        }),
    }
}

// The puts that give a file this entry, in place of the one with its key.
pub(crate) fn put_entry(
    alloc: Global,
    set: Set,
    entries: &Entries,
    entry: &LedgerEntry,
) -> Result<Txn, AllocError>
    requires { IsTrue (has_ledger set) }
    ensures { IfOk result (λ txn. txn ≡ writes set entry.now.key (with_ledger entry.now entries.now)) }
{
    let bytes = text_with(alloc, entries.as_slice(), entry)?;
    written(alloc, set, entry.key.bytes(), Some(bytes))
}

// Whether a number can be added to those that an entry missed.
fn can_note(number: u64, entry: &LedgerEntry) -> bool
    ensures { result ≡ spec.can_note number entry.now }
{
    !has_number(entry.missed.as_slice(), number) && entry.missed.as_slice().len() < MAX_MISSED
}

// The entry with a number added to those that it missed.
fn noted(entry: LedgerEntry, number: u64, now: u64) -> Result<LedgerEntry, AllocError>
    ensures { IfOk result (λ new. new ≡ spec.noted number now entry) }
{
    let mut new = entry;
    if new.missed.as_slice().is_empty() {
        new.first = now;
    }
    new.missed.push(number)?;
    Ok(new)
}

// The puts for a key's file when mail of a number to the key bounced.
pub(crate) fn note_in(
    alloc: Global,
    set: Set,
    bucket: &Bucket,
    number: u64,
    now: u64,
) -> Result<Option<Txn>, AllocError>
    requires ledger { IsTrue (has_ledger set) }
    requires address { IsAddress bucket.now.key }
    ensures { IfOk result (λ answer. answer ≡ option_map (writes set bucket.now.key) (spec.note bucket.now.key number now bucket.now.entries)) }
{
    let entry = entry_under(alloc, bucket)?;
    if !can_note(number, &entry) {
        return Ok(None);
    }
    let entry = noted(entry, number, now)?;
    Ok(Some(put_entry(alloc, set, &bucket.entries, &entry)?))
}

fn is_warned(t: u64, stage: Stage) -> bool
    ensures { result ≡ spec.is_warned t stage }
{
    match stage {
        Stage::Warned(at) => at == t,
        Stage::Unwarned => false,
        Stage::WarnFailed(_) => false,
        Stage::Probed(_) => false,
    }
}

fn is_probed(t: u64, stage: Stage) -> bool
    ensures { result ≡ spec.is_probed t stage }
{
    match stage {
        Stage::Probed(at) => at == t,
        Stage::Unwarned => false,
        Stage::Warned(_) => false,
        Stage::WarnFailed(_) => false,
    }
}

// The puts for a key's file when the warning of a moment bounced.
pub(crate) fn warn_failed_in(
    alloc: Global,
    set: Set,
    bucket: &Bucket,
    t: u64,
    now: u64,
) -> Result<Option<Txn>, AllocError>
    requires ledger { IsTrue (has_ledger set) }
    requires address { IsAddress bucket.now.key }
    ensures { IfOk result (λ answer. answer ≡ option_map (writes set bucket.now.key) (spec.warn_failed bucket.now.key t now bucket.now.entries)) }
{
    let mut entry = entry_under(alloc, bucket)?;
    if !is_warned(t, entry.stage) {
        return Ok(None);
    }
    entry.stage = Stage::WarnFailed(now);
    Ok(Some(put_entry(alloc, set, &bucket.entries, &entry)?))
}

// Whether the key's entry is at the stage of a probe of this moment.
pub(crate) fn is_probed_in(bucket: &Bucket, t: u64) -> bool
    ensures { result ≡ spec.is_probed t (ledgers.entry_under bucket.now.key bucket.now.entries).stage }
{
    match find(bucket.entries.as_slice(), bucket.key.as_slice()) {
        Some(entry) => is_probed(t, entry.stage),
        None => false,
    }
}

// The puts for a key's file when the probe of a moment bounced.
pub(crate) fn probe_failed_in(
    alloc: Global,
    set: Set,
    bucket: &Bucket,
    t: u64,
) -> Result<Option<Txn>, AllocError>
    requires { IsTrue (has_ledger set) }
    ensures { IfOk result (λ answer. answer ≡ option_map (writes set bucket.now.key) (spec.probe_failed bucket.now.key t bucket.now.entries)) }
{
    if !is_probed_in(bucket, t) {
        return Ok(None);
    }
    let key = bucket.key.as_slice();
    let file = file_without(alloc, bucket.entries.as_slice(), key)?;
    Ok(Some(written(alloc, set, key, file)?))
}
