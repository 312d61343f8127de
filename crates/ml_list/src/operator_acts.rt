// The acts of the operator that change the sets and the key of a list.
ghost use Rattle.std.specs.Prelude.{◌≡◌, ◌<◌, ◌≤◌, true, IsTrue, IfOk, IfErr, IfSome, IsErrOf};
ghost use Rattle.ml_subs.specs.Answers.{puts_of};
ghost use Rattle.ml_base.specs.Dir.{Dir, touches_only};
ghost use Rattle.ml_base.specs.PartErrors.{OnDamaged};
ghost use Rattle.ml_base.specs.Ranges.{IsMoment};
ghost use Rattle.ml_plain.specs.declared.Act.TheVariants as acts;
ghost use Rattle.ml_plain.specs.Answers.{rekeyed, toosoon};
ghost use Rattle.ml_plain.specs.Plain.{Plain};
ghost use Rattle.ml_plain.specs.Steps as spec;
ghost use Rattle.ml_plain.specs.Directory.{IsList};
ghost use Rattle.ml_acts.specs.Doing.{DoesList};
ghost use Rattle.ml_acts.specs.Acting.{AnswersAct, AnswersWithin};
ghost use Rattle.ml_list.specs.Applying.{addition_reply};
ghost use Rattle.ml_list.specs.Damage.{IsDamagedInList, is_read_by};
ghost use Rattle.ml_list.specs.Looked.{AlikeForAct};
ghost use Rattle.ml_acts.specs.Found.{TellsKeys};
ghost use Rattle.ml_list.specs.Found.{FoundToAddMember, FoundToRemoveMember};
ghost use Rattle.ml_list.specs.Written.{is_written_by_act};

use ml_acts::remove_member_with_memo;
use ml_base::{Address, Files, PartError, Set, Txn, age};
use ml_config::{Former, Keys, key, set_keys};
use ml_plain::Reply;
use ml_subs::{AddAnswer, Checked, add_with_memo};
use std::alloc::Global;

// How long a new key stays in use at least, in seconds.
const SHORTEST_USE: u64 = 1_000_000;

// Adds an address to a set.
pub(crate) fn add_member<F: Files>(
    alloc: Global,
    files: &mut F,
    memo: &mut Checked,
    set: Set,
    who: &Address,
    now: u64,
) -> Result<(Txn, Reply), PartError>
    requires { IsMoment now }
    ensures value { IsTrue F.tells → IfOk result (λ done. (dir : Dir) (p : Plain) → AlikeForAct (acts.Add set who.now) (F.map files.old) dir → IsList dir p → DoesList dir done (spec.add now set who.now p)) }
    ensures sound { IsTrue F.tells → (dir : Dir) (p : Plain) → AlikeForAct (acts.Add set who.now) (F.map files.old) dir → IsList dir p → IfErr result (λ e. OnDamaged e (λ _. ⊥)) }
    ensures written { IfOk result (λ done. touches_only (is_written_by_act (acts.Add set who.now)) done.0 ≡ true) }
    ensures found { IsTrue F.tells → IfOk result (FoundToAddMember (F.map files.old) set who.now) }
    ensures act { AnswersAct ⟦<F as Files>⟧ (λ name. is_read_by (acts.Add set who.now) name ≡ true) (IsDamagedInList (F.map files.old)) files.old files.new result }
{
    // By its bytes it is known to be an address.
    let _address = who.bytes();
    let answer = add_with_memo(alloc, files, memo, set, who, now)?;
    Ok(addition(alloc, answer))
}

// The puts and the reply of adding an address.
fn addition(alloc: Global, answer: AddAnswer) -> (Txn, Reply)
    ensures puts { result.0 ≡ puts_of answer }
    ensures reply { result.1 ≡ addition_reply answer }
{
    match answer {
        AddAnswer::Added(txn) => (txn, Reply::plain(Reply::SUBSCRIBED)),
        AddAnswer::Already => (Txn::new(alloc), Reply::plain(Reply::ALREADY)),
        AddAnswer::Full => (Txn::new(alloc), Reply::plain(Reply::FULL)),
    }
}

// Removes an address from a set, and its entry from the set's ledger, if the set has one.
pub(crate) fn remove_member<F: Files>(
    alloc: Global,
    files: &mut F,
    memo: &mut Checked,
    set: Set,
    who: &Address,
) -> Result<(Txn, Reply), PartError>
    ensures value { IsTrue F.tells → IfOk result (λ done. (dir : Dir) (p : Plain) → AlikeForAct (acts.Remove set who.now) (F.map files.old) dir → IsList dir p → DoesList dir done (spec.remove set who.now p)) }
    ensures sound { IsTrue F.tells → (dir : Dir) (p : Plain) → AlikeForAct (acts.Remove set who.now) (F.map files.old) dir → IsList dir p → IfErr result (λ e. OnDamaged e (λ _. ⊥)) }
    ensures written { IfOk result (λ done. touches_only (is_written_by_act (acts.Remove set who.now)) done.0 ≡ true) }
    ensures found { IsTrue F.tells → IfOk result (FoundToRemoveMember (F.map files.old) set who.now) }
    ensures act { AnswersAct ⟦<F as Files>⟧ (λ name. is_read_by (acts.Remove set who.now) name ≡ true) (IsDamagedInList (F.map files.old)) files.old files.new result }
{
    match remove_member_with_memo(alloc, files, memo, set, who)? {
        Some(txn) => Ok((txn, Reply::plain(Reply::UNSUBSCRIBED))),
        None => Ok((Txn::new(alloc), Reply::plain(Reply::ABSENT))),
    }
}

// Changes the key.
pub(crate) fn change_key<F: Files>(
    alloc: Global,
    files: &mut F,
    new: &[u8; 32],
    now: u64,
) -> Result<(Txn, Reply), PartError>
    requires { IsMoment now }
    ensures value { IsTrue F.tells → IfOk result (λ done. (dir : Dir) (p : Plain) → AlikeForAct (acts.Rekey new.now) (F.map files.old) dir → IsList dir p → DoesList dir done (spec.rekey now new.now p)) }
    ensures sound { IsTrue F.tells → (dir : Dir) (p : Plain) → AlikeForAct (acts.Rekey new.now) (F.map files.old) dir → IsList dir p → IfErr result (λ e. OnDamaged e (λ _. ⊥)) }
    ensures written { IfOk result (λ done. touches_only (is_written_by_act (acts.Rekey new.now)) done.0 ≡ true) }
    ensures found { IsTrue F.tells → IfOk result (λ _. TellsKeys (F.map files.old)) }
    ensures act { AnswersWithin (is_written_by_act (acts.Rekey new.now)) ⟦<F as Files>⟧ (λ name. is_read_by (acts.Rekey new.now) name ≡ true) (IsDamagedInList (F.map files.old)) files.old files.new result }
{
    let keys = key(alloc, files)?;
    if is_recent(now, keys.former) {
        return Ok((Txn::new(alloc), Reply::plain(Reply::TOOSOON)));
    }
    let changed = changed_keys(keys, now, *new);
    let txn = set_keys(alloc, &changed)?;
    Ok((txn, Reply::plain(Reply::REKEYED)))
}

// Whether the key was changed at most 1,000,000 seconds ago.
fn is_recent(now: u64, former: Option<Former>) -> bool
    ensures { result ≡ spec.is_recent now former }
{
    match former {
        Some(former) => age(now, former.changed) <= SHORTEST_USE,
        None => false,
    }
}

// These keys with a new one.
fn changed_keys(keys: Keys, now: u64, new: [u8; 32]) -> Keys
    ensures { result ≡ spec.changed_keys keys now new }
{
    let last = keys.key;
    Keys {
        key: new,
        former: Some(Former {
            key: last,
            changed: now,
        }),
    }
}
