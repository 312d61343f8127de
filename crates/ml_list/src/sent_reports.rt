// Reports that an entry of the queue was sent.
ghost use Rattle.std.specs.Prelude.{◌≡◌, true, IsTrue, IfOk, IfErr};
ghost use Rattle.ml_base.specs.Dir.{Dir, same_name, touches_only};
ghost use Rattle.ml_base.specs.PartErrors.{OnDamaged};
ghost use Rattle.ml_list.specs.Found.{FoundToSend};
ghost use Rattle.ml_plain.specs.declared.Act.TheVariants as acts;
ghost use Rattle.ml_plain.specs.Directory.{IsList};
ghost use Rattle.ml_plain.specs.Plain.{Plain};
ghost use Rattle.ml_plain.specs.Steps as spec;
ghost use Rattle.ml_queue.specs.Answers.{ids_name};
ghost use Rattle.ml_acts.specs.Damaged.{IsDamaged};
ghost use Rattle.ml_acts.specs.Doing.{DoesList};
ghost use Rattle.ml_acts.specs.Acting.{AnswersAct};
ghost use Rattle.ml_list.specs.Looked.{AlikeForAct};
ghost use Rattle.ml_list.specs.Written.{is_written_by_act};

use ml_base::{Files, PartError, Txn};
use ml_plain::Reply;
use ml_queue::sent;
use std::alloc::Global;

// What the report does that an entry of the queue was sent: the entry leaves the queue. The reply is `noentry` if the id isn't there.
pub(crate) fn sent_entry<F: Files>(
    alloc: Global,
    files: &mut F,
    id: u64,
) -> Result<(Txn, Reply), PartError>
    ensures value { IsTrue F.tells → IfOk result (λ done. (dir : Dir) (p : Plain) → AlikeForAct (acts.Sent id) (F.map files.old) dir → IsList dir p → DoesList dir done (spec.sent id p)) }
    ensures sound { IsTrue F.tells → (dir : Dir) (p : Plain) → AlikeForAct (acts.Sent id) (F.map files.old) dir → IsList dir p → IfErr result (λ e. OnDamaged e (λ _. ⊥)) }
    ensures written { IsTrue F.tells → IfOk result (λ done. touches_only (is_written_by_act (acts.Sent id)) done.0 ≡ true) }
    ensures found { IsTrue F.tells → IfOk result (FoundToSend (F.map files.old) id) }
    ensures act { AnswersAct ⟦<F as Files>⟧ (λ name. same_name name ids_name ≡ true) (IsDamaged (F.map files.old)) files.old files.new result }
{
    match sent(alloc, files, id)? {
        Some(txn) => Ok((txn, Reply::plain(Reply::DEQUEUED))),
        None => Ok((Txn::new(alloc), Reply::plain(Reply::NOENTRY))),
    }
}
