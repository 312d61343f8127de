// Raising the floor: the files of kept replies below it go, and the one that it cuts loses its first slots.
ghost use Rattle.std.specs.Prelude.{◌≡◌, ◌≢◌, ◌<◌, ◌≤◌, ◌+◌, ◌*◌, ◌/◌, ◌%◌, ◌++◌, max, true, ℕ, IsTrue, IfOk, IfErr, IfSome, IfNone, IsErrOf, OnOk, Option, length, ◌==◌};
ghost use Rattle.ml_base.specs.Dir.{Dir, touches_only, with_puts, are_files};
ghost use Rattle.ml_base.specs.ReadFiles.{IsReading, NamesDamaged};
ghost use Rattle.ml_base.specs.PartErrors.{OnDamaged};
ghost use Rattle.std.specs.List.{list_all};
ghost use Rattle.ml_base.specs.Bytes.{Text};
ghost use Rattle.ml_plain.specs.Histories.{State, Kept, from_floor};
ghost use Rattle.ml_plain.specs.Histories as steps;
ghost use Rattle.ml_plain.specs.Directory.{IsState};
ghost use Rattle.ml_plain.specs.KeptFiles.{IsRepliesFile, may_be_kept, floor_name};
ghost use Rattle.ml_plain.specs.KeptFiles as states;
ghost use Rattle.ml_list.specs.Applying.{Does};
ghost use Rattle.ml_list.specs.Damage.{IsDamagedInList, IsNoReplies, is_read_by};
ghost use Rattle.ml_list.specs.Lookups.{IsInRange, IsRead};
ghost use Rattle.ml_list.specs.Looked.{AlikeForAct};
ghost use Rattle.ml_list.specs.Rising.{removals, rise_puts};
ghost use Rattle.ml_list.specs.Written.{is_written_by_act};
ghost use Rattle.ml_plain.specs.declared.Act.TheVariants as acts;
ghost use Rattle.ml_plain.specs.KeptFiles.{IsEmptied};

use crate::floors::{floor_of, floor_text};
use crate::slots::{Known, SIZE, SLOTS, replies_name};
use ml_base::{Bytes, Files, Name, PartError, Put, Txn, copied, put_piece};
use ml_plain::Reply;
use std::alloc::{AllocError, Global};

// How far the floor may rise at once.
const LONGEST_RISE: u64 = 512_000;

// Raises the floor to this, unless it is as high already; an item with this number asks for it.
pub(crate) fn raise<F: Files>(
    alloc: Global,
    files: &mut F,
    number: u64,
    at: u64,
    known: &Known,
) -> Result<(Txn, Reply), PartError>
    requires most { at ≤ 999_999_999_999 }
    requires known { IsTrue F.tells → IsRead (F.map files.old) number known.now }
    requires range { IsInRange known.now.floor }
    ensures value { IsTrue F.tells → IfOk result (λ done. (dir : Dir) (q : State) → AlikeForAct (acts.Floor at) (F.map files.old) dir → IsState dir q → Does dir done (steps.raise q number at)) }
    ensures sound { IsTrue F.tells → (dir : Dir) (q : State) → AlikeForAct (acts.Floor at) (F.map files.old) dir → IsState dir q → IfErr result (λ e. OnDamaged e (λ _. ⊥)) }
    ensures reply { IfOk result (λ done. may_be_kept done.1 ≡ true) }
    ensures files { IfOk result (λ done. IsTrue (are_files done.0)) }
    ensures written { IsTrue F.tells → IfOk result (λ done. touches_only (is_written_by_act (acts.Floor at)) done.0 ≡ true) }
    ensures names { NamesDamaged ⟦<F as Files>⟧ (λ name. is_read_by (acts.Floor at) name ≡ true) (IsDamagedInList (F.map files.old)) result }
    ensures reads { IsReading ⟦<F as Files>⟧ files.old files.new result }
{
    let floor = floor_of(alloc, files, known.floor)?;
    if !may_rise(floor, number, at) {
        return Ok((Txn::new(alloc), Reply::plain(Reply::BADFLOOR)));
    }
    if at <= floor {
        return Ok((Txn::new(alloc), Reply::floored(floor)));
    }
    let txn = rise(alloc, files, floor, at, number, &known.file)?;
    Ok((txn, Reply::floored(at)))
}

// Whether a floor may rise so far if an item with this number asks for it.
fn may_rise(floor: u64, number: u64, at: u64) -> bool
    requires { floor ≤ 999_999_999_999 }
    ensures { result ≡ steps.may_rise floor number at }
{
    at <= floor + LONGEST_RISE && (number == 0 || at <= number)
}

// The puts that raise the floor. It reads only the file of kept replies that the new floor cuts.
fn rise<F: Files>(
    alloc: Global,
    files: &mut F,
    floor: u64,
    at: u64,
    number: u64,
    own: &Option<Bytes>,
) -> Result<Txn, PartError>
    requires least { 1 ≤ floor }
    requires up { floor < at }
    requires most { at ≤ 999_999_999_999 }
    requires own { IsTrue F.tells → number ≢ 0 → own.now ≡ F.map files.old (states.replies_name (number / 512)) }
    ensures value { IsTrue F.tells → IfOk result (λ txn. (cut : Option Text) × (txn ≡ rise_puts floor at cut) × ((kept : Kept) → IsRepliesFile (512 * (at / 512)) (F.map files.old (states.replies_name (at / 512))) kept → IsRepliesFile (512 * (at / 512)) cut (from_floor at kept))) }
    ensures files { IfOk result (λ txn. IsTrue (are_files txn)) }
    ensures names { NamesDamaged ⟦<F as Files>⟧ (λ name. name ≡ states.replies_name (at / 512)) (λ _. IsNoReplies (F.map files.old) (at / 512)) result }
    ensures reads { IsReading ⟦<F as Files>⟧ files.old files.new result }
{
    let name = replies_name(at);
    let file = file_of(alloc, files, at, number, own)?;
    let Some(bytes) = cut(file, (at % SLOTS) as usize) else {
        return Err(PartError::Damaged(name));
    };
    Ok(rise_txn(alloc, floor, at, name, bytes)?)
}

// The file of kept replies that has the number `at`. If it is also that of the item's own number, it was read before.
fn file_of<F: Files>(
    alloc: Global,
    files: &mut F,
    at: u64,
    number: u64,
    own: &Option<Bytes>,
) -> Result<Option<Bytes>, PartError>
    requires most { at ≤ 999_999_999_999 }
    requires own { IsTrue F.tells → number ≢ 0 → own.now ≡ F.map files.old (states.replies_name (number / 512)) }
    ensures value { IsTrue F.tells → IfOk result (λ file. file ≡ F.map files.old (states.replies_name (at / 512))) }
    ensures none { IfErr result (λ e. OnDamaged e (λ _. ⊥)) }
    ensures reads { IsReading ⟦<F as Files>⟧ files.old files.new result }
{
    if number != 0 && number / SLOTS == at / SLOTS {
        return Ok(copied(alloc, own.as_ref())?);
    }
    Ok(files.get(alloc, replies_name(at))?)
}

// The puts that raise the floor, with what is left of the file that it cuts.
fn rise_txn(
    alloc: Global,
    floor: u64,
    at: u64,
    name: Name,
    bytes: Option<Bytes>,
) -> Result<Txn, AllocError>
    requires least { 1 ≤ floor }
    requires up { floor < at }
    requires most { at ≤ 999_999_999_999 }
    requires name { name ≡ states.replies_name (at / 512) }
    ensures { IfOk result (λ txn. txn ≡ rise_puts floor at bytes) }
{
    let mut txn = Txn::new(alloc);
    remove_files(&mut txn, floor / SLOTS, at / SLOTS)?;
    txn.push(Put { name, bytes })?;
    txn.push(Put {
        name: Name::FLOOR,
        bytes: Some(floor_text(alloc, at)?),
    })?;
    Ok(txn)
}

// Adds puts that remove the files of kept replies from one up to the one before another.
fn remove_files(txn: &mut Txn, from: u64, to: u64) -> Result<(), AllocError>
    requires { from ≤ to }
    ensures { OnOk result (txn.new ≡ txn.old ++ removals from to) }
{
    for block in from..to {
        txn.push(Put {
            name: Name::replies(block),
            bytes: None,
        })?;
    }
    Ok(())
}

// What is left of a file of kept replies once its first slots are emptied: no file if nothing is left in it. The answer
// is None if the file's length is outside the grammar.
fn cut(file: Option<Bytes>, slots: usize) -> Option<Option<Bytes>>
    requires { slots < 512 }
    ensures some { IfSome result (λ left. (first : ℕ) (kept : Kept) → IsRepliesFile first file kept → IsRepliesFile first left (from_floor (first + slots) kept)) }
    ensures none { IfNone result ((first : ℕ) (kept : Kept) → ¬ IsRepliesFile first file kept) }
{
    let Some(text) = file else {
        return Some(None);
    };
    if text.len() != SIZE {
        return None;
    }
    let left = emptied(text, slots);
    if is_empty(left.as_slice()) {
        Some(None)
    } else {
        Some(Some(left))
    }
}

// The bytes with their first slots emptied.
fn emptied(text: Bytes, slots: usize) -> Bytes
    requires slots { slots < 512 }
    requires size { length text ≡ 4608 }
    ensures { IsEmptied text slots result }
{
    let zeros = [0u8; SIZE];
    let mut bytes = text.into_vec();
    put_piece(bytes.as_mut_slice(), 0, &zeros[..9 * slots]);
    Bytes::from_vec(bytes)
}

// Whether all bytes are 0.
fn is_empty(bytes: &[u8]) -> bool
    ensures { result ≡ list_all (λ b. b == 0) bytes.now }
{
    bytes.iter().all(|byte| *byte == 0)
}
