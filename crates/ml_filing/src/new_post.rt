// Appends a post to the archive.
ghost use Rattle.std.specs.Prelude.{◌≡◌, ◌<◌, ◌≤◌, ◌+◌, ◌/◌, ◌⊎◌, List, [], Some, length, true, IsTrue, IfOk, IfErr, unwrap_or};
ghost use Rattle.ml_base.specs.Dir.{Dir, touches_only};
ghost use Rattle.ml_base.specs.Name.{is_file};
ghost use Rattle.ml_base.specs.PartErrors.{OnDamaged};
ghost use Rattle.ml_base.specs.Ranges.{IsMoment};
ghost use Rattle.ml_base.specs.ReadFiles.{IsReading, NamesDamaged};
ghost use Rattle.ml_filing.specs.Answers.{HasEntriesBefore, IsAppendName, IsBadForAppend, IsBadForNext, IsAppended, AppendsTo, ReadsAlike, new_post, number_of, puts_of};
ghost use Rattle.ml_filing.specs.Appending.{key_puts};
ghost use Rattle.ml_filing.specs.Archive.{IsNumberFile};
ghost use Rattle.ml_filing.specs.Archive as archive;
ghost use Rattle.ml_filing.specs.Reads.{IsOfNext};
ghost use Rattle.ml_filing.specs.Subjects as subjects;
ghost use Rattle.ml_filing.specs.Threads.{IsArchive, is_of_archive};
ghost use Rattle.ml_filing.specs.declared.posts.Appended.TheVariants.{At};
ghost use Rattle.ml_filing.specs.declared.posts.Post.{Post as ThePost};

use crate::files::{read_count, read_thread_file};
use crate::index_reader::{first_number, index_of, push_entry};
use crate::numbers::count_text;
use crate::subjects::{subject, subject_key};
use crate::threads::{text_with_number, thread_place_of};
use crate::{Appended, Thread};
use ml_base::{Address, Bytes, Files, LAST_POST_NUMBER, Name, PartError, Put, Txn, text_of};
use ml_header::Message;
use std::alloc::{AllocError, Global};

// The text of the index in which the next post gets its entry; it has the entries of the group's posts before it.
fn next_index<F: Files>(alloc: Global, files: &mut F, number: u64) -> Result<Bytes, PartError>
    requires { number ≤ 99_999_999 }
    ensures value { IsTrue F.tells → IfOk result (λ text. text ≡ unwrap_or (F.map files.old (archive.index_name (number / 100))) []) }
    ensures before { IsTrue F.tells → IfOk result (λ _. HasEntriesBefore (F.map files.old) number) }
    ensures names { NamesDamaged ⟦<F as Files>⟧ (λ name. (name ≡ archive.number_name) ⊎ (name ≡ archive.index_name (number / 100))) (IsBadForNext (F.map files.old) number) result }
    ensures reads { IsReading ⟦<F as Files>⟧ files.old files.new result }
{
    let group = number / 100;
    let file = files.get(alloc, Name::index(group))?;
    let Some(entries) = index_of(alloc, group, text_of(&file))? else {
        return Err(PartError::Damaged(Name::index(group)));
    };
    if entries.as_slice().len() as u64 + first_number(group) != number {
        return Err(PartError::Damaged(Name::NUMBER));
    }
    match file {
        Some(text) => Ok(text),
        None => Ok(Bytes::new(alloc)),
    }
}

// Gives a file these bytes.
fn written(name: Name, bytes: Bytes) -> Put
    ensures { result ≡ record { name = name; bytes = Some bytes } }
{
    Put {
        name,
        bytes: Some(bytes),
    }
}

// What is appended: sender, moment, subject and bytes of a post.
#[derive(Clone, Copy)]
struct New<'a> {
    sender: &'a [u8],
    moment: u64,
    subject: &'a [u8],
    bytes: &'a [u8],
}

// The puts of a post that gets a number, made from what its index and its key's thread file have.
fn puts(
    alloc: Global,
    number: u64,
    new: New<'_>,
    key: &[u8],
    index: Bytes,
    threads: &[Thread],
) -> Result<Txn, AllocError>
    ensures { IfOk result (λ txn. txn ≡ key_puts key.now number (record { sender = new.entry.sender.now; moment = new.entry.moment; subject = new.entry.subject.now; bytes = new.entry.bytes.now }) index threads.now) }
{
    let text = text_with_number(alloc, threads, key, number)?;
    let mut index = index;
    push_entry(
        &mut index,
        new.moment,
        new.sender,
        new.bytes.len() as u64,
        new.subject,
    )?;
    let mut txn = Txn::new(alloc);
    txn.push(written(Name::post(number), Bytes::from_slice(alloc, new.bytes)?))?;
    txn.push(written(Name::index(number / 100), index))?;
    txn.push(written(Name::NUMBER, count_text(alloc, number)?))?;
    txn.push(written(Name::threads(thread_place_of(key)), text))?;
    Ok(txn)
}

/// The puts that append a post to an archive that has this many posts, fewer than 99,999,999, on a list with this prefix:
/// its number is the next one. They are of four files: the post, its group's index, the number of posts, and the thread
/// file of its subject's key. The subject is taken from the bytes. It reads the index and the thread file, and never
/// another post.
///
/// The moment is in seconds since 1970.
pub fn append_next<F: Files>(
    alloc: Global,
    files: &mut F,
    count: u64,
    prefix: &[u8],
    sender: &Address,
    moment: u64,
    bytes: &[u8],
) -> Result<Txn, PartError>
    requires count { IsTrue F.tells → IsNumberFile (F.map files.now archive.number_name) count }
    requires room { count < 99_999_999 }
    requires moment { IsMoment moment }
    requires size { length bytes.now < 4_294_967_296 }
    ensures value { IsTrue F.tells → IfOk result (λ txn. (dir : Dir) (posts : List ThePost) → IsArchive dir prefix.now posts → ReadsAlike (F.map files.old) dir prefix.now (new_post sender.now moment bytes.now) posts → AppendsTo dir prefix.now posts (new_post sender.now moment bytes.now) (At (count + 1) txn)) }
    ensures read { IsTrue F.tells → IfOk result (λ txn. IsAppended (F.map files.old) prefix.now (new_post sender.now moment bytes.now) (At (count + 1) txn)) }
    ensures others { IfOk result (λ txn. touches_only is_of_archive txn ≡ true) }
    ensures files { IfOk result (λ txn. touches_only is_file txn ≡ true) }
    ensures names { NamesDamaged ⟦<F as Files>⟧ IsAppendName (λ name. IsBadForAppend (F.map files.old) name × IsOfNext (F.map files.old) (subjects.subject_key prefix.now (subjects.subject bytes.now)) name) result }
    ensures sound { IsTrue F.tells → (posts : List ThePost) → IsArchive (F.map files.old) prefix.now posts → IfErr result (λ e. OnDamaged e (λ _. ⊥)) }
    ensures reads { IsReading ⟦<F as Files>⟧ files.old files.new result }
{
    let number = count + 1;
    let subject = subject(alloc, &Message::scan(bytes))?;
    let key = subject_key(alloc, prefix, subject.as_slice())?;
    let index = next_index(alloc, files, number)?;
    let threads = read_thread_file(alloc, files, thread_place_of(key.as_slice()))?;
    let new = New {
        sender: sender.bytes(),
        moment,
        subject: subject.as_slice(),
        bytes,
    };
    let txn = puts(
        alloc,
        number,
        new,
        key.as_slice(),
        index,
        threads.as_slice(),
    )?;
    Ok(txn)
}

/// Appends a post to the archive of a list with this prefix. The answer is its number, and the puts of four files: the
/// post, its group's index, the number of posts, and the thread file of its subject's key. The subject is taken from
/// the bytes. `Full` exactly if the archive has 99,999,999 posts. It reads the three files besides the post, and never
/// another post.
///
/// The moment is in seconds since 1970.
pub fn append<F: Files>(
    alloc: Global,
    files: &mut F,
    prefix: &[u8],
    sender: &Address,
    moment: u64,
    bytes: &[u8],
) -> Result<Appended, PartError>
    requires moment { IsMoment moment }
    requires size { length bytes.now < 4_294_967_296 }
    ensures value { IsTrue F.tells → IfOk result (λ answer. (dir : Dir) (posts : List ThePost) → IsArchive dir prefix.now posts → ReadsAlike (F.map files.old) dir prefix.now (new_post sender.now moment bytes.now) posts → AppendsTo dir prefix.now posts (new_post sender.now moment bytes.now) answer) }
    ensures read { IsTrue F.tells → IfOk result (IsAppended (F.map files.old) prefix.now (new_post sender.now moment bytes.now)) }
    ensures few { IfOk result (λ answer. number_of answer ≤ 99_999_999) }
    ensures others { IfOk result (λ answer. touches_only is_of_archive (puts_of answer) ≡ true) }
    ensures files { IfOk result (λ answer. touches_only is_file (puts_of answer) ≡ true) }
    ensures names { NamesDamaged ⟦<F as Files>⟧ IsAppendName (λ name. IsBadForAppend (F.map files.old) name × IsOfNext (F.map files.old) (subjects.subject_key prefix.now (subjects.subject bytes.now)) name) result }
    ensures sound { IsTrue F.tells → (posts : List ThePost) → IsArchive (F.map files.old) prefix.now posts → IfErr result (λ e. OnDamaged e (λ _. ⊥)) }
    ensures reads { IsReading ⟦<F as Files>⟧ files.old files.new result }
{
    let count = read_count(alloc, files)?;
    if count == LAST_POST_NUMBER {
        return Ok(Appended::Full);
    }
    let txn = append_next(alloc, files, count, prefix, sender, moment, bytes)?;
    Ok(Appended::At(count + 1, txn))
}
