// The counter of a series: how its file is read and written.
ghost use Rattle.std.specs.Prelude.{◌≡◌, ◌≢◌, ◌≤◌, ◌<◌, ◌∷◌, ◌++◌, ◌^◌, ℕ, Some, IsTrue, IfOk, IfErr, IfSome, IfNone, IsErrOf};
ghost use Rattle.std.specs.Fmt.{decimal};
ghost use Rattle.ml_base.specs.Drawn.{IsCounter, counter_text};
ghost use Rattle.ml_base.specs.PartErrors.{OnDamaged};
ghost use Rattle.ml_base.specs.ReadFiles.{IsReading, NamesDamaged};
ghost use Rattle.ml_drawn.specs.Names.{counter_name};
ghost use Rattle.ml_drawn.specs.Answers.{IsNoCounter, IsPair};

use crate::Series;
use ml_base::{Bytes, Files, PartError, read_number, split_first, write_number};
use std::alloc::{AllocError, Global};

/// A number below which nothing is there, and the next number to be drawn.
#[derive(Clone, Copy, Debug, PartialEq, Eq)]
pub struct Counter {
    pub low: u64,
    pub next: u64,
}

// The numbers before and after a colon, or None for any other text.
fn read_pair(line: &[u8]) -> Option<Counter>
    ensures some { IfSome result (λ c. IsPair line.now c.low c.next) }
    ensures none { IfNone result ((low next : ℕ) → ¬ IsPair line.now low next) }
{
    let (front, back) = split_first(b':', line)?;
    let low = read_number(front)?;
    let next = read_number(back)?;
    if low < 1 {
        return None;
    }
    if next < low {
        return None;
    }
    Some(Counter { low, next })
}

// The counter that a file spells, or None if it spells none.
fn read_counter(file: &Option<Bytes>) -> Option<Counter>
    ensures some { IfSome result (λ c. IsCounter file.now c.low c.next) }
    ensures none { IfNone result ((low next : ℕ) → ¬ IsCounter file.now low next) }
{
    let Some(text) = file else {
        return None;
    };
    let Some(line) = text.as_slice().strip_suffix(b"\n") else {
        return None;
    };
    read_pair(line)
}

// The text of a counter.
pub(crate) fn write_counter(alloc: Global, low: u64, next: u64) -> Result<Bytes, AllocError>
    ensures { IfOk result (λ bytes. bytes ≡ counter_text low next) }
{
    let mut digits = [0u8; 20];
    let len = write_number(low, &mut digits);
    let mut out = Bytes::from_slice(alloc, &digits[..len])?;
    out.push(b':')?;
    let len = write_number(next, &mut digits);
    out.extend(&digits[..len])?;
    out.push(b'\n')?;
    Ok(out)
}

/// The counter of a series.
pub fn counter_of<F: Files>(
    alloc: Global,
    files: &mut F,
    series: Series,
) -> Result<Counter, PartError>
    ensures value { IsTrue F.tells → IfOk result (λ c. IsCounter (F.map files.old (counter_name series)) c.low c.next) }
    ensures ranges { IfOk result (λ c. (1 ≤ c.low) × (c.low ≤ c.next) × (c.next < 10 ^ 18)) }
    ensures names { NamesDamaged ⟦<F as Files>⟧ (λ name. name ≡ counter_name series) (λ _. IsNoCounter (F.map files.old) series) result }
    ensures sound { IsTrue F.tells → (low next : ℕ) → IsCounter (F.map files.old (counter_name series)) low next → IfErr result (λ e. OnDamaged e (λ _. ⊥)) }
    ensures reads { IsReading ⟦<F as Files>⟧ files.old files.new result }
{
    let name = series.counter();
    let file = files.get(alloc, name)?;
    match read_counter(&file) {
        Some(counter) => Ok(counter),
        None => Err(PartError::Damaged(name)),
    }
}
