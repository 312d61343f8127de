// An address leaves a set: the puts that remove it.
ghost use Rattle.std.specs.Prelude.{◌≡◌, ◌||◌, true, IsTrue, IfOk, IfErr};
ghost use Rattle.ml_base.specs.Address.{key};
ghost use Rattle.ml_base.specs.Dir.{Dir, are_files, touches_only, with_puts};
ghost use Rattle.ml_base.specs.PartErrors.{OnDamaged};
ghost use Rattle.ml_base.specs.ReadFiles.{IsReading, NamesDamaged};
ghost use Rattle.ml_bounce.specs.Answers as ledgers;
ghost use Rattle.ml_plain.specs.Directory.{IsList};
ghost use Rattle.ml_plain.specs.Plain.{Plain};
ghost use Rattle.ml_subs.specs.Answers.{puts_if};
ghost use Rattle.ml_subs.specs.Subscribers.{is_touched};
ghost use Rattle.ml_acts.specs.Doing.{Alike, RemovesMember, is_beside_queue, is_entry_of, is_left_by, without_entry};
ghost use Rattle.ml_acts.specs.Damaged.{IsDamaged};
ghost use Rattle.ml_acts.specs.Found.{FoundToLeave, TellsEntry};

use ml_base::{Address, Files, PartError, Set, Txn};
use ml_bounce::forget;
use ml_subs::{Checked, remove_with_memo};
use std::alloc::Global;

/// Removes an address, in any case of letters, from a set, and its entry from the set's ledger, if the set has one: the puts that
/// do it, or None if the set doesn't have it. It reads the bucket of the address and, if that has it, the set's count and the
/// file of the ledger.
pub fn remove_member<F: Files>(
    alloc: Global,
    files: &mut F,
    set: Set,
    who: &Address,
) -> Result<Option<Txn>, PartError>
    ensures value { IsTrue F.tells → IfOk result (λ answer. (p : Plain) → IsList (F.map files.old) p → RemovesMember (F.map files.old) set who.now p answer) }
    ensures apart { IsTrue F.tells → IfOk result (λ answer. (dir : Dir) (p : Plain) → Alike (is_left_by set who.now) (F.map files.old) dir → IsList dir p → RemovesMember dir set who.now p answer) }
    ensures spared { IsTrue F.tells → (dir : Dir) (p : Plain) → Alike (is_left_by set who.now) (F.map files.old) dir → IsList dir p → IfErr result (λ e. OnDamaged e (λ _. ⊥)) }
    ensures own { IfOk result (λ answer. touches_only is_beside_queue (puts_if answer) ≡ true) }
    ensures left { IfOk result (λ answer. touches_only (is_left_by set who.now) (puts_if answer) ≡ true) }
    ensures files { IfOk result (λ answer. IsTrue (are_files (puts_if answer))) }
    ensures found { IsTrue F.tells → IfOk result (FoundToLeave (F.map files.old) set (key who.now)) }
    ensures names { NamesDamaged ⟦<F as Files>⟧ (λ name. (is_touched set (key who.now) name || is_entry_of set who.now name) ≡ true) (IsDamaged (F.map files.old)) result }
    ensures reads { IsReading ⟦<F as Files>⟧ files.old files.new result }
{
    remove_member_with_memo(alloc, files, &mut Checked::new(alloc), set, who)
}

/// What `remove_member` does, for one of many changes. The memo is the one that an earlier change left, or an empty one.
pub fn remove_member_with_memo<F: Files>(
    alloc: Global,
    files: &mut F,
    memo: &mut Checked,
    set: Set,
    who: &Address,
) -> Result<Option<Txn>, PartError>
    ensures value { IsTrue F.tells → IfOk result (λ answer. (p : Plain) → IsList (F.map files.old) p → RemovesMember (F.map files.old) set who.now p answer) }
    ensures apart { IsTrue F.tells → IfOk result (λ answer. (dir : Dir) (p : Plain) → Alike (is_left_by set who.now) (F.map files.old) dir → IsList dir p → RemovesMember dir set who.now p answer) }
    ensures spared { IsTrue F.tells → (dir : Dir) (p : Plain) → Alike (is_left_by set who.now) (F.map files.old) dir → IsList dir p → IfErr result (λ e. OnDamaged e (λ _. ⊥)) }
    ensures own { IfOk result (λ answer. touches_only is_beside_queue (puts_if answer) ≡ true) }
    ensures left { IfOk result (λ answer. touches_only (is_left_by set who.now) (puts_if answer) ≡ true) }
    ensures files { IfOk result (λ answer. IsTrue (are_files (puts_if answer))) }
    ensures found { IsTrue F.tells → IfOk result (FoundToLeave (F.map files.old) set (key who.now)) }
    ensures names { NamesDamaged ⟦<F as Files>⟧ (λ name. (is_touched set (key who.now) name || is_entry_of set who.now name) ≡ true) (IsDamaged (F.map files.old)) result }
    ensures reads { IsReading ⟦<F as Files>⟧ files.old files.new result }
{
    let Some(txn) = remove_with_memo(alloc, files, memo, set, who)? else {
        return Ok(None);
    };
    Ok(Some(forgotten(alloc, files, set, who, txn)?))
}

// The puts that remove an address from a set, and after them those by which the set's ledger forgets it, if it has one.
fn forgotten<F: Files>(
    alloc: Global,
    files: &mut F,
    set: Set,
    who: &Address,
    txn: Txn,
) -> Result<Txn, PartError>
    requires touched { touches_only (is_touched set (key who.now)) txn ≡ true }
    requires names { IsTrue (are_files txn) }
    ensures value { IsTrue F.tells → IfOk result (λ done. (dir : Dir) (p : Plain) → Alike (is_entry_of set who.now) (F.map files.old) dir → IsList (with_puts dir txn) p → IsList (with_puts dir done) (without_entry set who.now p)) }
    ensures spared { IsTrue F.tells → (dir : Dir) (p : Plain) → Alike (is_entry_of set who.now) (F.map files.old) dir → IsList dir p → IfErr result (λ e. OnDamaged e (λ _. ⊥)) }
    ensures own { IfOk result (λ done. touches_only is_beside_queue done ≡ true) }
    ensures left { IfOk result (λ done. touches_only (is_left_by set who.now) done ≡ true) }
    ensures files { IfOk result (λ done. IsTrue (are_files done)) }
    ensures found { IsTrue F.tells → IfOk result (λ _. TellsEntry (F.map files.old) set (key who.now)) }
    ensures names { NamesDamaged ⟦<F as Files>⟧ (λ name. is_entry_of set who.now name ≡ true) (IsDamaged (F.map files.old)) result }
    ensures reads { IsReading ⟦<F as Files>⟧ files.old files.new result }
{
    if !has_ledger(set) {
        return Ok(txn);
    }
    let entry = forget(alloc, files, set, who)?;
    let mut txn = txn;
    txn.join(entry)?;
    Ok(txn)
}

// Whether a set has a ledger.
fn has_ledger(set: Set) -> bool
    ensures { result ≡ ledgers.has_ledger set }
{
    matches!(set, Set::List | Set::Digest)
}
