// What changes in the files when a number is drawn, and when its thing is taken out.
ghost use Rattle.std.specs.Prelude.{◌≡◌, ◌≤◌, ◌<◌, ◌+◌, ◌^◌, true, ℕ, IsTrue, IfOk, IfErr, IsErrOf};
ghost use Rattle.ml_base.specs.Dir.{touches_only};
ghost use Rattle.ml_base.specs.Drawn.{IsCounter};
ghost use Rattle.ml_base.specs.Name.{is_file};
ghost use Rattle.ml_base.specs.Ranges as ranges;
ghost use Rattle.ml_base.specs.PartErrors.{OnDamaged};
ghost use Rattle.ml_base.specs.ReadFiles.{IsReading, NamesDamaged};
ghost use Rattle.ml_drawn.specs.Names.{counter_name, is_of_series};
ghost use Rattle.ml_drawn.specs.Answers.{IsNoCounter, IsDrawing, IsTaking, IsMoved, removal};
ghost use Rattle.ml_drawn.specs.Answers as answers;

use crate::counter::{counter_of, write_counter};
use crate::{Series, next_number};
use ml_base::{Bytes, Files, LAST_DRAWN, PartError, Put, Txn};
use std::alloc::{AllocError, Global};

// The put of a counter.
fn counter_put(alloc: Global, series: Series, low: u64, next: u64) -> Result<Put, AllocError>
    ensures { IfOk result (λ put. put ≡ answers.counter_put series low next) }
{
    Ok(Put {
        name: series.counter(),
        bytes: Some(write_counter(alloc, low, next)?),
    })
}

// The puts of a thing that is drawn.
fn drawn_puts(
    alloc: Global,
    series: Series,
    low: u64,
    next: u64,
    bytes: Bytes,
) -> Result<Txn, AllocError>
    requires { next < 10 ^ 18 }
    ensures { IfOk result (λ txn. txn ≡ answers.drawn_puts series low next bytes) }
{
    let mut txn = Txn::new(alloc);
    txn.push(Put {
        name: series.name(next),
        bytes: Some(bytes),
    })?;
    txn.push(counter_put(alloc, series, low, next + 1)?)?;
    Ok(txn)
}

/// Draws the next number of a series for these bytes: the number, and the puts that store the bytes under it.
///
/// The next number is at most 10^15. If the files tell nothing, a next number above that is answered as damage.
pub fn draw<F: Files>(
    alloc: Global,
    files: &mut F,
    series: Series,
    bytes: Bytes,
) -> Result<(u64, Txn), PartError>
    requires { IsTrue F.tells → (low next : ℕ) → IsCounter (F.map files.now (counter_name series)) low next → next ≤ 1_000_000_000_000_000 }
    ensures value { IsTrue F.tells → IfOk result (λ r. IsDrawing (F.map files.old) series bytes r.0 r.1) }
    ensures drawn { IfOk result (λ r. IsTrue (ranges.is_drawn r.0)) }
    ensures others { IfOk result (λ r. touches_only (is_of_series series) r.1 ≡ true) }
    ensures files { IfOk result (λ r. touches_only is_file r.1 ≡ true) }
    ensures names { NamesDamaged ⟦<F as Files>⟧ (λ name. name ≡ counter_name series) (λ _. IsNoCounter (F.map files.old) series) result }
    ensures sound { IsTrue F.tells → (low next : ℕ) → IsCounter (F.map files.old (counter_name series)) low next → IfErr result (λ e. OnDamaged e (λ _. ⊥)) }
    ensures reads { IsReading ⟦<F as Files>⟧ files.old files.new result }
{
    let counter = counter_of(alloc, files, series)?;
    if counter.next > LAST_DRAWN {
        return Err(PartError::Damaged(series.counter()));
    }
    let txn = drawn_puts(alloc, series, counter.low, counter.next, bytes)?;
    Ok((counter.next, txn))
}

// The counter after the thing at `low` is taken out.
fn move_counter<F: Files>(
    alloc: Global,
    files: &mut F,
    series: Series,
    low: u64,
    next: u64,
) -> Result<Put, PartError>
    requires { low < 10 ^ 18 }
    ensures value { IsTrue F.tells → IfOk result (IsMoved (F.map files.old) series low next) }
    ensures puts { IfOk result (λ put. (other : ℕ) × (put ≡ answers.counter_put series other next)) }
    ensures named { IfErr result (λ e. OnDamaged e (λ _. ⊥)) }
    ensures reads { IsReading ⟦<F as Files>⟧ files.old files.new result }
{
    match next_number(alloc, files, series, low + 1, next)? {
        Some(number) => Ok(counter_put(alloc, series, number, next)?),
        None => Ok(counter_put(alloc, series, next, next)?),
    }
}

/// Takes out the thing of a number that has one: the puts that remove its file. If the number was `low`, `low` moves
/// to the next number that has a thing, or to the next number to be drawn.
pub fn take_out<F: Files>(
    alloc: Global,
    files: &mut F,
    series: Series,
    n: u64,
) -> Result<Txn, PartError>
    requires { IsTrue (ranges.is_drawn n) }
    ensures value { IsTrue F.tells → IfOk result (IsTaking (F.map files.old) series n) }
    ensures others { IfOk result (λ txn. touches_only (is_of_series series) txn ≡ true) }
    ensures files { IfOk result (λ txn. touches_only is_file txn ≡ true) }
    ensures names { NamesDamaged ⟦<F as Files>⟧ (λ name. name ≡ counter_name series) (λ _. IsNoCounter (F.map files.old) series) result }
    ensures sound { IsTrue F.tells → (low next : ℕ) → IsCounter (F.map files.old (counter_name series)) low next → IfErr result (λ e. OnDamaged e (λ _. ⊥)) }
    ensures reads { IsReading ⟦<F as Files>⟧ files.old files.new result }
{
    let counter = counter_of(alloc, files, series)?;
    let mut txn = Txn::new(alloc);
    txn.push(Put {
        name: series.name(n),
        bytes: None,
    })?;
    if counter.low == n {
        txn.push(move_counter(alloc, files, series, n, counter.next)?)?;
    }
    Ok(txn)
}
