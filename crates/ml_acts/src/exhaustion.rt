// Whether enough ids and tickets are left for a delivery or a timed run.
ghost use Rattle.std.specs.Prelude.{◌≡◌, ◌||◌, false, true, IsTrue, IfOk, IfErr};
ghost use Rattle.ml_base.specs.Dir.{Dir, same_name};
ghost use Rattle.ml_base.specs.PartErrors.{OnDamaged};
ghost use Rattle.ml_base.specs.ReadFiles.{IsReading, NamesDamaged};
ghost use Rattle.ml_hold.specs.Answers.{tickets_name};
ghost use Rattle.ml_plain.specs.Directory.{IsList};
ghost use Rattle.ml_plain.specs.Plain.{Plain};
ghost use Rattle.ml_plain.specs.Plain as spec;
ghost use Rattle.ml_queue.specs.Answers.{ids_name};
ghost use Rattle.ml_acts.specs.Damaged.{IsDamaged};
ghost use Rattle.ml_acts.specs.Doing.{Alike, HasRoom};
ghost use Rattle.ml_acts.specs.Found.{TellsWorn};

use ml_base::{Files, LAST_DRAWN, PartError};
use ml_hold::next_ticket;
use ml_queue::next_id;
use std::alloc::Global;

// The last id that may be the next one: a delivery or a timed run draws fewer than 3,000.
const LAST_ID: u64 = 999_999_999_997_000;

/// Whether ids or tickets are worn out, so that a delivery or a timed run could draw more than there are. It reads the counter of ids, and
/// that of tickets unless ids are worn out.
pub fn is_worn<F: Files>(alloc: Global, files: &mut F) -> Result<bool, PartError>
    ensures value { IsTrue F.tells → IfOk result (λ is. (p : Plain) → IsList (F.map files.old) p → is ≡ spec.is_worn p) }
    ensures apart { IsTrue F.tells → IfOk result (λ is. (dir : Dir) (p : Plain) → Alike (λ name. same_name name ids_name || same_name name tickets_name) (F.map files.old) dir → IsList dir p → is ≡ spec.is_worn p) }
    ensures spared { IsTrue F.tells → (dir : Dir) (p : Plain) → Alike (λ name. same_name name ids_name || same_name name tickets_name) (F.map files.old) dir → IsList dir p → IfErr result (λ e. OnDamaged e (λ _. ⊥)) }
    ensures room { IsTrue F.tells → IfOk result (λ is. is ≡ false → HasRoom (F.map files.old)) }
    ensures found { IsTrue F.tells → IfOk result (TellsWorn (F.map files.old)) }
    ensures names { NamesDamaged ⟦<F as Files>⟧ (λ name. (same_name name ids_name || same_name name tickets_name) ≡ true) (IsDamaged (F.map files.old)) result }
    ensures reads { IsReading ⟦<F as Files>⟧ files.old files.new result }
{
    if next_id(alloc, files)? > LAST_ID {
        return Ok(true);
    }
    Ok(next_ticket(alloc, files)? > LAST_DRAWN)
}
