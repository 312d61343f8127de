// The calls on one entry of the queue: putting it there, looking at it and taking it out.
ghost use Rattle.std.specs.Prelude.{◌≡◌, ◌≤◌, true, ℕ, IsTrue, IfOk, IfErr, IsErrOf};
ghost use Rattle.ml_base.specs.Address.{key};
ghost use Rattle.ml_base.specs.Dir.{with_puts, touches_only};
ghost use Rattle.ml_base.specs.Drawn.{IsCounter};
ghost use Rattle.ml_base.specs.Name.{is_file};
ghost use Rattle.ml_base.specs.Sorted.{byte_cmp, is_sorted};
ghost use Rattle.ml_base.specs.PartErrors.{OnDamaged};
ghost use Rattle.ml_base.specs.ReadFiles.{IsReading, NamesDamaged};
ghost use Rattle.ml_drawn.specs.declared.series.Series.TheVariants.{Ids};
ghost use Rattle.ml_drawn.specs.Names.{is_of_series};
ghost use Rattle.ml_drawn.specs.Answers.{IsDrawing};
ghost use Rattle.ml_queue.specs.Queue.{Queue, IsOut, IsQueue, out_text};
ghost use Rattle.ml_queue.specs.Queue as spec;
ghost use Rattle.ml_queue.specs.Answers.{Breaks, LooksBy, SendsBy, IsEntryName, IsSent, IsCountedQueue, ids_name, puts_of};

use crate::Out;
use crate::entry_text::{read_out, write_out};
use ml_base::{Files, PartError, Txn};
use ml_drawn::{Series, counter_of, draw, file_of, is_there, take_out};
use std::alloc::Global;

/// Puts an entry into the queue under the next id, after all others. It answers the id, and the puts that do it.
///
/// The next id is at most 10^15. The recipients are in ascending order of key, none twice; there may be none.
pub fn put<F: Files>(alloc: Global, files: &mut F, out: &Out) -> Result<(u64, Txn), PartError>
    requires sorted { is_sorted byte_cmp key out.now.to ≡ true }
    requires room { IsTrue F.tells → (low next : ℕ) → IsCounter (F.map files.now ids_name) low next → next ≤ 1_000_000_000_000_000 }
    ensures value { IsTrue F.tells → IfOk result (λ r. (queue : Queue) → IsQueue (F.map files.old) queue → (r.0 ≡ queue.next) × IsQueue (with_puts (F.map files.old) r.1) (spec.put out.now queue)) }
    ensures read { IsTrue F.tells → IfOk result (λ r. IsDrawing (F.map files.old) Ids (out_text out.now) r.0 r.1) }
    ensures entry { IfOk result (λ _. IsOut out.now) }
    ensures others { IfOk result (λ r. touches_only (is_of_series Ids) r.1 ≡ true) }
    ensures files { IfOk result (λ r. touches_only is_file r.1 ≡ true) }
    ensures names { NamesDamaged ⟦<F as Files>⟧ (λ name. name ≡ ids_name) (Breaks (F.map files.old)) result }
    ensures sound { IsTrue F.tells → (queue : Queue) → IsQueue (F.map files.old) queue → IfErr result (λ e. OnDamaged e (λ _. ⊥)) }
    ensures reads { IsReading ⟦<F as Files>⟧ files.old files.new result }
{
    let text = write_out(alloc, out)?;
    draw(alloc, files, Series::Ids, text)
}

/// Takes the entry of an id out. It answers the puts that do it, or None if the id isn't there. If it is the lowest id,
/// the call looks for the next one that is there, one file after another. It reads no entry if the files can tell
/// without reading whether it is there.
pub fn sent<F: Files>(alloc: Global, files: &mut F, id: u64) -> Result<Option<Txn>, PartError>
    ensures value { IsTrue F.tells → IfOk result (λ answer. (queue : Queue) → IsQueue (F.map files.old) queue → IsSent (F.map files.old) queue id answer) }
    ensures read { IsTrue F.tells → IfOk result (SendsBy (F.map files.old) id) }
    ensures others { IfOk result (λ answer. touches_only (is_of_series Ids) (puts_of answer) ≡ true) }
    ensures files { IfOk result (λ answer. touches_only is_file (puts_of answer) ≡ true) }
    ensures names { NamesDamaged ⟦<F as Files>⟧ (λ name. name ≡ ids_name) (Breaks (F.map files.old)) result }
    ensures sound { IsTrue F.tells → (queue : Queue) → IsQueue (F.map files.old) queue → IfErr result (λ e. OnDamaged e (λ _. ⊥)) }
    ensures reads { IsReading ⟦<F as Files>⟧ files.old files.new result }
{
    if !is_there(alloc, files, Series::Ids, id)? {
        return Ok(None);
    }
    Ok(Some(take_out(alloc, files, Series::Ids, id)?))
}

/// The entry of an id, or None if the id isn't there. It reads that entry's file alone.
pub fn entry<F: Files>(alloc: Global, files: &mut F, id: u64) -> Result<Option<Out>, PartError>
    ensures value { IsTrue F.tells → IfOk result (λ answer. (queue : Queue) → IsQueue (F.map files.old) queue → answer ≡ spec.entry id queue) }
    ensures read { IsTrue F.tells → IfOk result (LooksBy (F.map files.old) id) }
    ensures names { NamesDamaged ⟦<F as Files>⟧ (IsEntryName id) (Breaks (F.map files.old)) result }
    ensures sound { IsTrue F.tells → (queue : Queue) → IsQueue (F.map files.old) queue → IfErr result (λ e. OnDamaged e (λ _. ⊥)) }
    ensures reads { IsReading ⟦<F as Files>⟧ files.old files.new result }
{
    let Some(text) = file_of(alloc, files, Series::Ids, id)? else {
        return Ok(None);
    };
    match read_out(alloc, text.as_slice())? {
        Some(out) => Ok(Some(out)),
        None => Err(PartError::Damaged(Series::Ids.name(id))),
    }
}

/// The next id.
pub fn next_id<F: Files>(alloc: Global, files: &mut F) -> Result<u64, PartError>
    ensures value { IsTrue F.tells → IfOk result (λ next. (queue : Queue) → IsCountedQueue (F.map files.old) queue → next ≡ queue.next) }
    ensures read { IsTrue F.tells → IfOk result (λ next. (low : ℕ) × IsCounter (F.map files.old ids_name) low next) }
    ensures names { NamesDamaged ⟦<F as Files>⟧ (λ name. name ≡ ids_name) (Breaks (F.map files.old)) result }
    ensures sound { IsTrue F.tells → (queue : Queue) → IsCountedQueue (F.map files.old) queue → IfErr result (λ e. OnDamaged e (λ _. ⊥)) }
    ensures reads { IsReading ⟦<F as Files>⟧ files.old files.new result }
{
    let counter = counter_of(alloc, files, Series::Ids)?;
    Ok(counter.next)
}
