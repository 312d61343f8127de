// Goes through the entries of the queue, one after another: to list the ids, and to check all entries.
ghost use Rattle.std.specs.Prelude.{◌≡◌, ◌≤◌, IsTrue, IfOk, IfErr, OnOk, IsErrOf};
ghost use Rattle.ml_base.specs.PartErrors.{OnDamaged};
ghost use Rattle.ml_base.specs.ReadFiles.{IsReading, NamesDamaged};
ghost use Rattle.ml_queue.specs.Queue.{Queue};
ghost use Rattle.ml_queue.specs.Queue as spec;
ghost use Rattle.ml_queue.specs.Answers.{BreaksCounted, IsCountedQueue, IsQueueName, ListsBy, ids_name};

use crate::Out;
use ml_base::{Files, Numbers, PartError};
use ml_drawn::{Series, counter_of, next_number};
use std::alloc::Global;

/// All ids, in order. It looks at one id after another from the lowest on, and reads no entry if the files can tell
/// without reading whether it is there.
pub fn ids<F: Files>(alloc: Global, files: &mut F) -> Result<Numbers, PartError>
    ensures value { IsTrue F.tells → IfOk result (λ ids. (queue : Queue) → IsCountedQueue (F.map files.old) queue → ids ≡ spec.ids queue) }
    ensures read { IsTrue F.tells → IfOk result (ListsBy (F.map files.old)) }
    ensures names { NamesDamaged ⟦<F as Files>⟧ (λ name. name ≡ ids_name) (BreaksCounted (F.map files.old)) result }
    ensures sound { IsTrue F.tells → (queue : Queue) → IsCountedQueue (F.map files.old) queue → IfErr result (λ e. OnDamaged e (λ _. ⊥)) }
    ensures reads { IsReading ⟦<F as Files>⟧ files.old files.new result }
{
    let counter = counter_of(alloc, files, Series::Ids)?;
    let mut ids = Numbers::new(alloc);
    let mut from = counter.low;
    while let Some(id) = next_number(alloc, files, Series::Ids, from, counter.next)? {
        ids.push(id)?;
        from = id + 1;
    }
    Ok(ids)
}

/// Whether the files from the lowest id on and below the next one stand for a queue. It reads all of them, and names
/// the first that is outside its grammar.
pub fn audit<F: Files>(alloc: Global, files: &mut F) -> Result<(), PartError>
    ensures ok { IsTrue F.tells → OnOk result ((queue : Queue) × IsCountedQueue (F.map files.old) queue) }
    ensures names { NamesDamaged ⟦<F as Files>⟧ IsQueueName (BreaksCounted (F.map files.old)) result }
    ensures sound { IsTrue F.tells → (queue : Queue) → IsCountedQueue (F.map files.old) queue → IfErr result (λ e. OnDamaged e (λ _. ⊥)) }
    ensures reads { IsReading ⟦<F as Files>⟧ files.old files.new result }
{
    ml_drawn::audit::<F, Out>(alloc, files, Series::Ids)
}
