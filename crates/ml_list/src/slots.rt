// The files of kept replies, each of 512 slots of nine bytes: how a slot is read and written.
ghost use Rattle.std.specs.Prelude.{◌≡◌, ◌≢◌, ◌<◌, ◌≤◌, ◌+◌, ◌*◌, ◌/◌, ◌%◌, true, ℕ, Option, Some, None, IsTrue, IfOk, IfErr, IfSome, IfNone, IsErrOf, length, replicate, take};
ghost use Rattle.ml_base.specs.Dir.{Dir, with_put};
ghost use Rattle.ml_base.specs.ReadFiles.{IsReading, NamesDamaged};
ghost use Rattle.ml_base.specs.Name.{is_file};
ghost use Rattle.ml_base.specs.PartErrors.{OnDamaged};
ghost use Rattle.ml_plain.specs.declared.Reply.{Reply};
ghost use Rattle.ml_plain.specs.Replies as replies;
ghost use Rattle.ml_plain.specs.Histories.{Kept};
ghost use Rattle.ml_plain.specs.Histories as steps;
ghost use Rattle.ml_plain.specs.KeptFiles.{AreReplies, IsRepliesFile, IsWritten, slot_text, slots_of};
ghost use Rattle.ml_plain.specs.KeptFiles as states;
ghost use Rattle.ml_list.specs.Again.{HoldsReply};
ghost use Rattle.ml_list.specs.Damage.{IsNoReplies};

use ml_base::{Bytes, Files, LAST_DRAWN, Name, PartError, Put, put_piece};
use ml_plain::{Reply, has_number};
use std::alloc::{AllocError, Global};

pub(crate) const SLOTS: u64 = 512;

pub(crate) const SIZE: usize = 4608;

const SLOT: usize = 9;

// The name of the file that has the reply of a number.
pub(crate) fn replies_name(number: u64) -> Name
    requires { number ≤ 999_999_999_999 }
    ensures name { result ≡ states.replies_name (number / 512) }
    ensures file { IsTrue (is_file result) }
{
    Name::replies(number / SLOTS)
}

// Whether a slot may hold a reply.
fn may_be_kept(reply: Reply) -> bool
    ensures { result ≡ states.may_be_kept reply }
{
    if !is_code(reply.code) {
        return false;
    }
    if reply.code == Reply::STALE {
        return false;
    }
    if has_number(reply.code) {
        reply.number <= LAST_DRAWN
    } else {
        reply.number == 0
    }
}

fn is_code(code: u8) -> bool
    ensures { result ≡ replies.is_code code }
{
    1 <= code && code <= 36
}

// What the nine bytes of a slot spell: a reply, or that there is none. The answer is None if they spell neither.
fn read_slot(bytes: &[u8]) -> Option<Option<Reply>>
    ensures read { (found : Option Reply) → IfSome found (λ r. states.may_be_kept r ≡ true) → bytes.now ≡ slot_text found → result ≡ Some found }
    ensures spelled { IfSome result (λ found. take 9 bytes.now ≡ slot_text found) }
    ensures fits { IfSome result (λ found. IfSome found (λ r. states.may_be_kept r ≡ true)) }
{
    let (head, rest) = bytes.split_first_chunk::<1>()?;
    let (digits, _) = rest.split_first_chunk::<8>()?;
    let code = head[0];
    let number = u64::from_be_bytes(*digits);
    if code == 0 {
        return if number == 0 { Some(None) } else { None };
    }
    let reply = Reply { code, number };
    if may_be_kept(reply) {
        Some(Some(reply))
    } else {
        None
    }
}

// The reply in a slot of a file, if there is one. The answer is None if the slot, or the file's length, is outside the
// grammar.
fn reply_in(file: &Option<Bytes>, slot: usize) -> Option<Option<Reply>>
    requires { slot < 512 }
    ensures read { (first : ℕ) (kept : Kept) → IsRepliesFile first file.now kept → result ≡ Some (kept (first + slot)) }
    ensures spelled { IfSome result (λ found. HoldsReply file.now slot found) }
    ensures fits { IfSome result (λ found. IfSome found (λ r. states.may_be_kept r ≡ true)) }
{
    let Some(text) = file else {
        return Some(None);
    };
    if text.len() != SIZE {
        return None;
    }
    let from = SLOT * slot;
    read_slot(&text.as_slice()[from..from + SLOT])
}

// What was found for a number: the reply that is kept for it, if there is one, and the file that was read.
#[derive(Drop)]
pub(crate) struct Found {
    pub reply: Option<Reply>,
    pub file: Option<Bytes>,
}

// What was read for an item's number, if that isn't 0: the floor, and the number's file.
#[derive(Drop)]
pub(crate) struct Known {
    pub floor: Option<u64>,
    pub file: Option<Bytes>,
}

// The reply that is kept for a number, if there is one. It reads one file.
pub(crate) fn kept_reply<F: Files>(
    alloc: Global,
    files: &mut F,
    number: u64,
) -> Result<Found, PartError>
    requires { number ≤ 999_999_999_999 }
    ensures value { IsTrue F.tells → IfOk result (λ found. (kept : Kept) → IsRepliesFile (512 * (number / 512)) (F.map files.old (states.replies_name (number / 512))) kept → found.reply ≡ kept number) }
    ensures file { IsTrue F.tells → IfOk result (λ found. found.file ≡ F.map files.old (states.replies_name (number / 512))) }
    ensures spelled { IsTrue F.tells → IfOk result (λ found. HoldsReply (F.map files.old (states.replies_name (number / 512))) (number % 512) found.reply) }
    ensures fits { IfOk result (λ found. IfSome found.reply (λ r. states.may_be_kept r ≡ true)) }
    ensures names { NamesDamaged ⟦<F as Files>⟧ (λ name. name ≡ states.replies_name (number / 512)) (λ _. IsNoReplies (F.map files.old) (number / 512)) result }
    ensures reads { IsReading ⟦<F as Files>⟧ files.old files.new result }
{
    let name = replies_name(number);
    let file = files.get(alloc, name)?;
    let Some(reply) = reply_in(&file, (number % SLOTS) as usize) else {
        return Err(PartError::Damaged(name));
    };
    Ok(Found { reply, file })
}

// The bytes of a file into which a slot is to be written: empty slots if the file is absent. Its length was checked
// when the slot was read.
fn slots(alloc: Global, file: Option<Bytes>) -> Result<Bytes, AllocError>
    ensures size { IfOk result (λ text. length text ≡ 4608) }
    ensures text { IfOk result (λ text. IfSome file (λ t. length t ≡ 4608) → text ≡ slots_of file) }
{
    let Some(text) = file else {
        return empty_slots(alloc);
    };
    if text.len() == SIZE {
        Ok(text)
    } else {
        empty_slots(alloc)
    }
}

// Slots in which no reply is kept.
fn empty_slots(alloc: Global) -> Result<Bytes, AllocError>
    ensures size { IfOk result (λ text. length text ≡ 4608) }
    ensures text { IfOk result (λ text. text ≡ replicate 4608 0) }
{
    Bytes::from_slice(alloc, &[0u8; SIZE])
}

// The bytes with a reply in a slot.
fn with_reply(text: Bytes, slot: usize, reply: Reply) -> Bytes
    requires slot { slot < 512 }
    requires size { length text ≡ 4608 }
    ensures { IsWritten text slot (Some reply) result }
{
    let mut bytes = text.into_vec();
    let out = bytes.as_mut_slice();
    let at = put_piece(out, SLOT * slot, &[reply.code]);
    put_piece(out, at, &reply.number.to_be_bytes());
    Bytes::from_vec(bytes)
}

// The put that keeps a reply for a number. `file` is the number's file.
pub(crate) fn keep(
    alloc: Global,
    file: Option<Bytes>,
    number: u64,
    reply: Reply,
) -> Result<Put, AllocError>
    requires numbered { number ≢ 0 }
    requires most { number ≤ 999_999_999_999 }
    requires fits { states.may_be_kept reply ≡ true }
    ensures value { IfOk result (λ put. (dir : Dir) (floor : ℕ) (kept : Kept) → file ≡ dir (states.replies_name (number / 512)) → floor ≤ number → AreReplies dir floor kept → AreReplies (with_put dir put) floor (steps.keep number reply kept)) }
    ensures name { IfOk result (λ put. put.name ≡ states.replies_name (number / 512)) }
    ensures file { IfOk result (λ put. IsTrue (is_file put.name)) }
{
    let name = replies_name(number);
    let text = slots(alloc, file)?;
    Ok(Put {
        name,
        bytes: Some(with_reply(text, (number % SLOTS) as usize, reply)),
    })
}
