// The things that the files of a series hold, and a check that all of them are in their grammar.
ghost use Rattle.std.specs.Prelude.{◌≡◌, IsTrue, IfOk, IfErr, OnOk, IsErrOf};
ghost use Rattle.ml_base.specs.Bytes.{Text};
ghost use Rattle.ml_base.specs.Drawn.{Drawing};
ghost use Rattle.ml_base.specs.PartErrors.{OnDamaged};
ghost use Rattle.ml_base.specs.ReadFiles.{IsReading, NamesDamaged};
ghost use Rattle.ml_drawn.specs.Represented.{AreCounted};
ghost use Rattle.ml_drawn.specs.Things.{BreaksCounted, IsSeriesName, TellsSpelled};

use crate::{Series, counter_of, next_there};
use ml_base::{Files, PartError};
use std::alloc::{AllocError, Global};

/// A thing that a file of a series holds.
pub trait Thing {
    /// It is in its ranges.
    ghost is_thing: { Self → Type 0 };

    /// The text of its file.
    ghost spelling: { Self → Text };

    /// Whether a text spells a thing.
    fn is_spelled(alloc: Global, text: &[u8]) -> Result<bool, AllocError>
        ensures { IfOk result (TellsSpelled is_thing spelling text.now) };
}

/// Whether the files of a series, from the counter's `low` on and below its next number, stand for things. It reads all of them, and names
/// the first that is outside its grammar.
pub fn audit<F: Files, T: Thing>(
    alloc: Global,
    files: &mut F,
    series: Series,
) -> Result<(), PartError>
    ensures ok { IsTrue F.tells → OnOk result ((d : Drawing T) × AreCounted T.is_thing T.spelling (F.map files.old) series d) }
    ensures names { NamesDamaged ⟦<F as Files>⟧ (IsSeriesName series) (BreaksCounted T.is_thing T.spelling (F.map files.old) series) result }
    ensures sound { IsTrue F.tells → (d : Drawing T) → AreCounted T.is_thing T.spelling (F.map files.old) series d → IfErr result (λ e. OnDamaged e (λ _. ⊥)) }
    ensures reads { IsReading ⟦<F as Files>⟧ files.old files.new result }
{
    let counter = counter_of(alloc, files, series)?;
    let mut from = counter.low;
    while let Some(found) = next_there(alloc, files, series, from, counter.next)? {
        if !T::is_spelled(alloc, found.bytes.as_slice())? {
            return Err(PartError::Damaged(series.name(found.number)));
        }
        from = found.number + 1;
    }
    Ok(())
}
