// Reads and writes the count of a set, the number of its members.
ghost use Rattle.std.specs.Prelude.{◌≡◌, ◌≢◌, ◌≤◌, ℕ, Some, None, IsTrue, IfOk, IfErr, IfSome, IfNone, IsErrOf};
ghost use Rattle.ml_base.specs.ReadFiles.{IsReading, NamesDamaged};
ghost use Rattle.ml_subs.specs.Subscribers.{count_text, IsNoCount};
ghost use Rattle.ml_subs.specs.Subscribers as spec;

use ml_base::{Bytes, Files, Name, PartError, Set, number_within, write_number};
use std::alloc::{AllocError, Global};

pub(crate) const MAX_MEMBERS: u64 = 100_000;

// The number that a count's file spells, or None if it spells none up to 100,000.
pub(crate) fn read_count(file: &Option<Bytes>) -> Option<u64>
    ensures some { IfSome result (λ n. (n ≤ 100_000) × (file.now ≡ Some (count_text n))) }
    ensures none { IfNone result ((n : ℕ) → n ≤ 100_000 → file.now ≢ Some (count_text n)) }
{
    let Some(text) = file else {
        return None;
    };
    let Some(digits) = text.as_slice().strip_suffix(b"\n") else {
        return None;
    };
    number_within(MAX_MEMBERS, digits)
}

// The text of a count's file.
pub(crate) fn write_count(alloc: Global, n: u64) -> Result<Bytes, AllocError>
    ensures { IfOk result (λ bytes. bytes ≡ count_text n) }
{
    let mut digits = [0u8; 20];
    let len = write_number(n, &mut digits);
    let mut out = Bytes::from_slice(alloc, &digits[..len])?;
    out.push(b'\n')?;
    Ok(out)
}

// The count of a set, which has to be `least` at least.
pub(crate) fn count_of<F: Files>(
    alloc: Global,
    files: &mut F,
    set: Set,
    least: u64,
) -> Result<u64, PartError>
    ensures value { IsTrue F.tells → IfOk result (λ n. (least ≤ n) × (n ≤ 100_000) × (F.map files.old (spec.count_name set) ≡ Some (count_text n))) }
    ensures few { IfOk result (λ n. (least ≤ n) × (n ≤ 100_000)) }
    ensures names { NamesDamaged ⟦<F as Files>⟧ (λ name. name ≡ spec.count_name set) (λ _. IsNoCount (F.map files.old) set least) result }
    ensures reads { IsReading ⟦<F as Files>⟧ files.old files.new result }
{
    let name = Name::count(set);
    let file = files.get(alloc, name)?;
    let Some(count) = read_count(&file) else {
        return Err(PartError::Damaged(name));
    };
    if count < least {
        return Err(PartError::Damaged(name));
    }
    Ok(count)
}
