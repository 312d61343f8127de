// Applying an item to the files of a list: whether it counts, what it does, and its reply, which is kept for its number.
ghost use Rattle.std.specs.Prelude.{◌≡◌, ◌≢◌, ◌≤◌, ◌<◌, Bool, true, IsTrue, IfOk, IfErr, IfSome, Some, None, ◌/◌, ◌++◌, ◌∷◌, []};
ghost use Rattle.std.specs.Option.{option_copied};
ghost use Rattle.ml_base.specs.Dir.{Dir, are_files, newest_put, touches_only, with_puts};
ghost use Rattle.ml_base.specs.ReadFiles.{IsReading, NamesDamaged};
ghost use Rattle.ml_base.specs.declared.names.Name.{Name as TheName};
ghost use Rattle.ml_base.specs.declared.part_error.PartError.TheVariants.{Memory};
ghost use Rattle.ml_base.specs.PartErrors.{OnDamaged};
ghost use Rattle.ml_config.specs.ConfigFile.{IsConfigFile, config_name};
ghost use Rattle.ml_config.specs.declared.configuration.Config.{Config};
ghost use Rattle.ml_plain.specs.declared.Act.TheVariants.{Timed};
ghost use Rattle.ml_plain.specs.Items.{IsItem, IsAct};
ghost use Rattle.ml_plain.specs.Replies.{is_code};
ghost use Rattle.ml_plain.specs.Histories.{State, step, with_reply};
ghost use Rattle.ml_plain.specs.Histories as steps;
ghost use Rattle.ml_plain.specs.Directory.{IsState};
ghost use Rattle.ml_plain.specs.KeptFiles.{may_be_kept};
ghost use Rattle.ml_plain.specs.KeptFiles as states;
ghost use Rattle.ml_list.specs.Again.{CountsOnce, IsAgain};
ghost use Rattle.ml_list.specs.Applying.{Does, Repeats};
ghost use Rattle.ml_acts.specs.Doing.{Alike};
ghost use Rattle.ml_list.specs.Looked.{AlikeFor, AlikeForAct};
ghost use Rattle.ml_list.specs.Lookups.{answer_of, IsNew, IsInRange, IsRead};
ghost use Rattle.ml_list.specs.Asked.{IsDamagedFor, IsDamagedForAct};
ghost use Rattle.ml_list.specs.Damage.{IsDamagedInList, is_looked_up, is_read_by, is_read_by_item};
ghost use Rattle.ml_list.specs.Written.{WritesAsAsked, is_written_by, is_written_by_act, is_written_under_act};
ghost use Rattle.ml_list.specs.Found.{FoundByAct, FoundNow, FoundWhole, KeepsReply};

use crate::deliveries::deliver;
use crate::floor_rise::raise;
use crate::floors::floor;
use crate::memo::Memo;
use crate::operator_acts::{add_member, change_key, remove_member};
use crate::remembered_files::Once;
use crate::sent_reports::sent_entry;
use crate::slots::{Found, Known, keep, kept_reply, replies_name};
use crate::timed_runs::run_timed;
use ml_acts::Moment;
use ml_base::{Bytes, Files, Name, PartError, Put, Txn, copied};
use ml_plain::{Act, Item, Reply};
use std::alloc::{AllocError, Global};

/// Applies an item: answers its reply, and the puts that make the files stand for the list after it. The files are
/// handed back, at most read from, whatever is answered.
///
/// An item whose number isn't 0 and is below the floor is answered `stale`, one whose number has a kept reply is answered
/// with that, and neither changes anything. The reply to any other item is kept for its number, if that isn't 0.
///
/// Whatever else the files hold, the puts are of files that the item may write, and a number counts once: if an item with a number is answered,
/// the floor's file was in its grammar, and so was the number's own slot, unless the number is below the floor.
///
/// `Damaged` names a file that the item may read and that is damaged; one of the archive is damaged for what is asked. What a delivery may
/// read depends on what its recipient asks under the configuration that the files hold. `Fault` comes only if a read failed.
///
/// The item must be in its ranges, and the configuration must be there: `load` says whether it is.
pub fn apply<F: Files>(alloc: Global, files: F, item: &Item) -> (F, Result<(Txn, Reply), PartError>)
    requires item { IsItem item.now }
    ensures value { IsTrue F.tells → IfOk result.1 (λ done. (dir : Dir) (q : State) → AlikeFor item.now (F.map files) dir → IsState dir q → Does dir done (step q item.now)) }
    ensures reply { IfOk result.1 (λ done. IsTrue (is_code done.1.code)) }
    ensures files { IfOk result.1 (λ done. IsTrue (are_files done.0)) }
    ensures written { IsTrue F.tells → IfOk result.1 (λ done. touches_only (is_written_by item.now) done.0 ≡ true) }
    ensures asked { IsTrue F.tells → IfOk result.1 (λ done. WritesAsAsked (F.map files) item.now done.0) }
    ensures once { IsTrue F.tells → IfOk result.1 (λ done. CountsOnce (F.map files) item.now.number done) }
    ensures found { IsTrue F.tells → IfOk result.1 (FoundWhole (F.map files) item.now) }
    ensures names { NamesDamaged ⟦<F as Files>⟧ (λ name. is_read_by_item item.now name ≡ true) (IsDamagedFor (F.map files) item.now) result.1 }
    ensures sound { IsTrue F.tells → (dir : Dir) (q : State) → AlikeFor item.now (F.map files) dir → IsState dir q → IfErr result.1 (λ e. OnDamaged e (λ _. ⊥)) }
    ensures reads { IsReading ⟦<F as Files>⟧ files result.0 result.1 }
{
    apply_with_memo(alloc, files, &mut Memo::new(alloc), item)
}

/// What `apply` does, for one of many items. The memo is the one that an earlier item left, or an empty one.
pub fn apply_with_memo<F: Files>(
    alloc: Global,
    files: F,
    memo: &mut Memo,
    item: &Item,
) -> (F, Result<(Txn, Reply), PartError>)
    requires item { IsItem item.now }
    ensures value { IsTrue F.tells → IfOk result.1 (λ done. (dir : Dir) (q : State) → AlikeFor item.now (F.map files) dir → IsState dir q → Does dir done (step q item.now)) }
    ensures reply { IfOk result.1 (λ done. IsTrue (is_code done.1.code)) }
    ensures files { IfOk result.1 (λ done. IsTrue (are_files done.0)) }
    ensures written { IsTrue F.tells → IfOk result.1 (λ done. touches_only (is_written_by item.now) done.0 ≡ true) }
    ensures asked { IsTrue F.tells → IfOk result.1 (λ done. WritesAsAsked (F.map files) item.now done.0) }
    ensures once { IsTrue F.tells → IfOk result.1 (λ done. CountsOnce (F.map files) item.now.number done) }
    ensures found { IsTrue F.tells → IfOk result.1 (FoundWhole (F.map files) item.now) }
    ensures names { NamesDamaged ⟦<F as Files>⟧ (λ name. is_read_by_item item.now name ≡ true) (IsDamagedFor (F.map files) item.now) result.1 }
    ensures sound { IsTrue F.tells → (dir : Dir) (q : State) → AlikeFor item.now (F.map files) dir → IsState dir q → IfErr result.1 (λ e. OnDamaged e (λ _. ⊥)) }
    ensures reads { IsReading ⟦<F as Files>⟧ files result.0 result.1 }
{
    let (once, answer) = apply_or_repeat(alloc, Once::new(alloc, files), memo, item);
    (once.into_files(), answer)
}

// The answer to an item, whether its number is new or not.
fn apply_or_repeat<F: Files>(
    alloc: Global,
    files: F,
    memo: &mut Memo,
    item: &Item,
) -> (F, Result<(Txn, Reply), PartError>)
    requires item { IsItem item.now }
    ensures value { IsTrue F.tells → IfOk result.1 (λ done. (dir : Dir) (q : State) → AlikeFor item.now (F.map files) dir → IsState dir q → Does dir done (step q item.now)) }
    ensures reply { IfOk result.1 (λ done. IsTrue (is_code done.1.code)) }
    ensures files { IfOk result.1 (λ done. IsTrue (are_files done.0)) }
    ensures written { IsTrue F.tells → IfOk result.1 (λ done. touches_only (is_written_by item.now) done.0 ≡ true) }
    ensures asked { IsTrue F.tells → IfOk result.1 (λ done. WritesAsAsked (F.map files) item.now done.0) }
    ensures once { IsTrue F.tells → IfOk result.1 (λ done. CountsOnce (F.map files) item.now.number done) }
    ensures found { IsTrue F.tells → IfOk result.1 (FoundWhole (F.map files) item.now) }
    ensures names { NamesDamaged ⟦<F as Files>⟧ (λ name. is_read_by_item item.now name ≡ true) (IsDamagedFor (F.map files) item.now) result.1 }
    ensures sound { IsTrue F.tells → (dir : Dir) (q : State) → AlikeFor item.now (F.map files) dir → IsState dir q → IfErr result.1 (λ e. OnDamaged e (λ _. ⊥)) }
    ensures reads { IsReading ⟦<F as Files>⟧ files result.0 result.1 }
{
    let mut files = files;
    match look_up(alloc, &mut files, item.number) {
        Err(error) => (files, Err(error)),
        Ok(Lookup::Answered(reply)) => (files, Ok((Txn::new(alloc), reply))),
        Ok(Lookup::New(known)) => apply_counted(alloc, files, memo, item, known),
    }
}

// What is found for an item's number.
#[derive(Drop)]
enum Lookup {
    // The item doesn't count, and this is its reply.
    Answered(Reply),
    // It counts, and this was read for its number.
    New(Known),
}

// What is found for the number of an item.
fn look_up<F: Files>(alloc: Global, files: &mut F, number: u64) -> Result<Lookup, PartError>
    requires { number ≤ 999_999_999_999 }
    ensures value { IsTrue F.tells → IfOk result (λ found. (dir : Dir) (q : State) → Alike (is_looked_up number) (F.map files.old) dir → IsState dir q → Repeats q number (answer_of found)) }
    ensures sound { IsTrue F.tells → (dir : Dir) (q : State) → Alike (is_looked_up number) (F.map files.old) dir → IsState dir q → IfErr result (λ e. OnDamaged e (λ _. ⊥)) }
    ensures known { IsTrue F.tells → IfOk result (λ found. IsNew found (IsRead (F.map files.old) number)) }
    ensures range { IfOk result (λ found. IsNew found (λ known. IsInRange known.floor)) }
    ensures reply { IfOk result (λ found. IfSome (answer_of found) (λ r. IsTrue (is_code r.code))) }
    ensures counts { IfOk result (λ found. number ≡ 0 → answer_of found ≡ None) }
    ensures looked { IsTrue F.tells → IfOk result (λ found. number ≢ 0 → IsAgain (F.map files.old) number (answer_of found)) }
    ensures names { NamesDamaged ⟦<F as Files>⟧ (λ name. is_looked_up number name ≡ true) (IsDamagedInList (F.map files.old)) result }
    ensures reads { IsReading ⟦<F as Files>⟧ files.old files.new result }
{
    if number == 0 {
        return Ok(Lookup::New(Known {
            floor: None,
            file: None,
        }));
    }
    let floor = floor(alloc, files)?;
    if number < floor {
        return Ok(Lookup::Answered(Reply::plain(Reply::STALE)));
    }
    let found = kept_reply(alloc, files, number)?;
    Ok(looked_up(floor, found))
}

fn looked_up(floor: u64, found: Found) -> Lookup
    ensures answer { answer_of result ≡ found.reply }
    ensures known { IsNew result (λ known. (known.floor ≡ Some floor) × (known.file ≡ found.file)) }
{
    match found.reply {
        Some(reply) => Lookup::Answered(reply),
        None => Lookup::New(Known {
            floor: Some(floor),
            file: found.file,
        }),
    }
}

// Applies an item that counts, with what was read for its number.
fn apply_counted<F: Files>(
    alloc: Global,
    files: F,
    memo: &mut Memo,
    item: &Item,
    known: Known,
) -> (F, Result<(Txn, Reply), PartError>)
    requires item { IsItem item.now }
    requires known { IsTrue F.tells → IsRead (F.map files) item.now.number known }
    requires range { IsInRange known.floor }
    ensures value { IsTrue F.tells → IfOk result.1 (λ done. (dir : Dir) (q : State) → AlikeFor item.now (F.map files) dir → IsState dir q → Repeats q item.now.number None → Does dir done (with_reply item.now.number (steps.effect q item.now))) }
    ensures sound { IsTrue F.tells → (dir : Dir) (q : State) → AlikeForAct item.now.act (F.map files) dir → IsState dir q → IfErr result.1 (λ e. OnDamaged e (λ _. ⊥)) }
    ensures reply { IfOk result.1 (λ done. IsTrue (is_code done.1.code)) }
    ensures files { IfOk result.1 (λ done. IsTrue (are_files done.0)) }
    ensures written { IsTrue F.tells → IfOk result.1 (λ done. touches_only (is_written_by item.now) done.0 ≡ true) }
    ensures asked { IsTrue F.tells → IfOk result.1 (λ done. WritesAsAsked (F.map files) item.now done.0) }
    ensures found { IsTrue F.tells → IfOk result.1 (FoundNow (F.map files) item.now.act) }
    ensures names { NamesDamaged ⟦<F as Files>⟧ (λ name. is_read_by item.now.act name ≡ true) (IsDamagedForAct (F.map files) item.now.act) result.1 }
    ensures reads { IsReading ⟦<F as Files>⟧ files result.0 result.1 }
{
    let (files, answer) = effect(alloc, files, memo, item, &known);
    match answer {
        Ok((txn, reply)) => {
            let kept = with_reply_kept(alloc, known.file, item.number, txn, reply);
            (files, kept)
        }
        Err(error) => (files, Err(error)),
    }
}

// What an item that counts does, except that its reply is kept. A timed run lays puts over the files, so this takes them.
fn effect<F: Files>(
    alloc: Global,
    files: F,
    memo: &mut Memo,
    item: &Item,
    known: &Known,
) -> (F, Result<(Txn, Reply), PartError>)
    requires item { IsItem item.now }
    requires known { IsTrue F.tells → IsRead (F.map files) item.now.number known.now }
    requires range { IsInRange known.now.floor }
    ensures value { IsTrue F.tells → IfOk result.1 (λ done. (dir : Dir) (q : State) → AlikeForAct item.now.act (F.map files) dir → IsState dir q → Does dir done (steps.effect q item.now)) }
    ensures sound { IsTrue F.tells → (dir : Dir) (q : State) → AlikeForAct item.now.act (F.map files) dir → IsState dir q → IfErr result.1 (λ e. OnDamaged e (λ _. ⊥)) }
    ensures reply { IfOk result.1 (λ done. may_be_kept done.1 ≡ true) }
    ensures files { IfOk result.1 (λ done. IsTrue (are_files done.0)) }
    ensures written { IsTrue F.tells → IfOk result.1 (λ done. touches_only (is_written_by_act item.now.act) done.0 ≡ true) }
    ensures asked { IsTrue F.tells → IfOk result.1 (λ done. (c : Config) → IsConfigFile (F.map files config_name) c → touches_only (is_written_under_act c item.now.act) done.0 ≡ true) }
    ensures found { IsTrue F.tells → IfOk result.1 (FoundByAct (F.map files) item.now.act) }
    ensures names { NamesDamaged ⟦<F as Files>⟧ (λ name. is_read_by item.now.act name ≡ true) (IsDamagedForAct (F.map files) item.now.act) result.1 }
    ensures reads { IsReading ⟦<F as Files>⟧ files result.0 result.1 }
{
    match &item.act {
        Act::Timed => run_timed(alloc, files, item.moment),
        _ => {
            let mut files = files;
            let answer = apply_untimed(alloc, &mut files, memo, item, known);
            (files, answer)
        }
    }
}

// What an item does that counts and isn't a timed run.
fn apply_untimed<F: Files>(
    alloc: Global,
    files: &mut F,
    memo: &mut Memo,
    item: &Item,
    known: &Known,
) -> Result<(Txn, Reply), PartError>
    requires item { IsItem item.now }
    requires act { item.now.act ≢ Timed }
    requires known { IsTrue F.tells → IsRead (F.map files.old) item.now.number known.now }
    requires range { IsInRange known.now.floor }
    ensures value { IsTrue F.tells → IfOk result (λ done. (dir : Dir) (q : State) → AlikeForAct item.now.act (F.map files.old) dir → IsState dir q → Does dir done (steps.effect q item.now)) }
    ensures sound { IsTrue F.tells → (dir : Dir) (q : State) → AlikeForAct item.now.act (F.map files.old) dir → IsState dir q → IfErr result (λ e. OnDamaged e (λ _. ⊥)) }
    ensures reply { IfOk result (λ done. may_be_kept done.1 ≡ true) }
    ensures files { IfOk result (λ done. IsTrue (are_files done.0)) }
    ensures written { IsTrue F.tells → IfOk result (λ done. touches_only (is_written_by_act item.now.act) done.0 ≡ true) }
    ensures asked { IsTrue F.tells → IfOk result (λ done. (c : Config) → IsConfigFile (F.map files.old config_name) c → touches_only (is_written_under_act c item.now.act) done.0 ≡ true) }
    ensures found { IsTrue F.tells → IfOk result (FoundByAct (F.map files.old) item.now.act) }
    ensures names { NamesDamaged ⟦<F as Files>⟧ (λ name. is_read_by item.now.act name ≡ true) (IsDamagedForAct (F.map files.old) item.now.act) result }
    ensures reads { IsReading ⟦<F as Files>⟧ files.old files.new result }
{
    match &item.act {
        Act::Deliver {
            sender,
            recipient,
            message,
        } => deliver(
            alloc,
            files,
            &mut memo.mail,
            Moment {
                seconds: item.moment,
            },
            sender.as_slice(),
            recipient.as_slice(),
            message.as_slice(),
        ),
        Act::Add { set, who } => add_member(alloc, files, &mut memo.sets, *set, who, item.moment),
        Act::Remove { set, who } => remove_member(alloc, files, &mut memo.sets, *set, who),
        Act::Sent { id } => sent_entry(alloc, files, *id),
        Act::Rekey { key } => change_key(alloc, files, key, item.moment),
        Act::Floor { at } => raise(alloc, files, item.number, *at, known),
        Act::Timed => unreachable!(),
    }
}

// The answer with its reply kept for a number, if that isn't 0. `file` is the number's file as it was before the puts.
fn with_reply_kept(
    alloc: Global,
    file: Option<Bytes>,
    number: u64,
    txn: Txn,
    reply: Reply,
) -> Result<(Txn, Reply), PartError>
    requires most { number ≤ 999_999_999_999 }
    requires fits { may_be_kept reply ≡ true }
    requires names { IsTrue (are_files txn) }
    ensures value { IfOk result (λ done. (dir : Dir) (q : State) → (number ≢ 0 → file ≡ dir (states.replies_name (number / 512))) → IsState (with_puts dir txn) q → (number ≢ 0 → q.floor ≤ number) → Does dir done (with_reply number (q, reply))) }
    ensures reply { IfOk result (λ done. IsTrue (is_code done.1.code)) }
    ensures files { IfOk result (λ done. IsTrue (are_files done.0)) }
    ensures written { IfOk result (λ done. (own : TheName → Bool) → touches_only own txn ≡ true → (number ≢ 0 → own (states.replies_name (number / 512)) ≡ true) → touches_only own done.0 ≡ true) }
    ensures found { IfOk result (KeepsReply (txn, reply)) }
    ensures error { IfErr result (λ e. e ≡ Memory) }
{
    if number == 0 {
        return Ok((txn, reply));
    }
    let left = left_over(alloc, &txn, replies_name(number), file)?;
    let put = keep(alloc, left, number, reply)?;
    with_put(txn, put, reply)
}

// A file as puts leave it. `before` is what it was.
fn left_over(
    alloc: Global,
    txn: &Txn,
    name: Name,
    before: Option<Bytes>,
) -> Result<Option<Bytes>, AllocError>
    ensures { IfOk result (λ left. (dir : Dir) → before ≡ dir name → left ≡ with_puts dir txn.now name) }
{
    match newest(txn.as_slice(), name) {
        Some(put) => copied(alloc, put.bytes.as_ref()),
        None => Ok(before),
    }
}

// The newest put of a file.
pub(crate) fn newest(puts: &[Put], name: Name) -> Option<&Put>
    ensures { option_copied result ≡ newest_put puts.now name }
{
    puts.iter().rev().find(|put| put.name == name)
}

// The answer with one more put.
fn with_put(txn: Txn, put: Put, reply: Reply) -> Result<(Txn, Reply), PartError>
    ensures puts { IfOk result (λ done. done.0 ≡ txn ++ put ∷ []) }
    ensures reply { IfOk result (λ done. done.1 ≡ reply) }
    ensures error { IfErr result (λ e. e ≡ Memory) }
{
    let mut txn = txn;
    txn.push(put)?;
    Ok((txn, reply))
}
