// The thread of a post: the numbers of all posts with its subject key.
ghost use Rattle.std.specs.Prelude.{◌≡◌, ◌≤◌, ◌==◌, ℕ, List, take, IsTrue, IfOk, IfErr, IfSome, OnOk};
ghost use Rattle.std.specs.List.{AllByRecursion, IsAmong, list_any};
ghost use Rattle.ml_base.specs.Bytes.{Text};
ghost use Rattle.ml_base.specs.PartErrors.{OnDamaged};
ghost use Rattle.ml_base.specs.ReadFiles.{IsReading, NamesDamaged};
ghost use Rattle.ml_filing.specs.Answers.{AreIndexes, AreNumbersByFiles, IsBadForEntry, IsBadForKnown, IsBadForThread, IsBadThreads, IsKeyByFiles, IsPostName, IsRowByFiles, IsNoThreads, IsThreadAnswer, IsThreadName, IsWholeAnswer, IsWholeByFiles};
ghost use Rattle.ml_filing.specs.Posts.{cut, in_thread};
ghost use Rattle.ml_filing.specs.Posts as posts;
ghost use Rattle.ml_filing.specs.Reads.{IsOfSubject, IsOfThread};
ghost use Rattle.ml_filing.specs.Threads.{IsArchive, IsThread, IsThreadByFiles, IsThreadFile, thread_place};
ghost use Rattle.ml_filing.specs.Threads as threads;
ghost use Rattle.ml_filing.specs.declared.posts.Post.{Post as ThePost};

use crate::files::{read_count, read_thread_file};
use crate::lookups::{Indexes, cut_by, entry_among, read_once, sizes_of};
use crate::subjects::subject_key;
use crate::threads::{numbers_for, thread_place_of};
use crate::{Thread, Threads};
use ml_base::{Bytes, Files, MAX_POSTS, Name, Numbers, PartError};
use std::alloc::Global;

// The key of a post's subject, from its index entry.
fn key_for<F: Files>(
    alloc: Global,
    files: &mut F,
    indexes: &mut Indexes,
    prefix: &[u8],
    n: u64,
) -> Result<Bytes, PartError>
    requires few { n ≤ 99_999_999 }
    requires known { IsTrue F.tells → AreIndexes (F.map files.old) indexes.old }
    ensures value { IsTrue F.tells → IfOk result (IsKeyByFiles (F.map files.old) prefix.now n) }
    ensures known { IsTrue F.tells → OnOk result (AreIndexes (F.map files.old) indexes.new) }
    ensures names { NamesDamaged ⟦<F as Files>⟧ (IsPostName n) (IsBadForEntry (F.map files.old) n) result }
    ensures reads { IsReading ⟦<F as Files>⟧ files.old files.new result }
{
    read_once(alloc, files, indexes, n / 100)?;
    match entry_among(indexes.as_slice(), n) {
        Some(entry) => Ok(subject_key(alloc, prefix, entry.subject.as_slice())?),
        None => Err(PartError::Damaged(Name::NUMBER)),
    }
}

// Whether a number is among others.
fn has_number(numbers: &[u64], number: u64) -> bool
    ensures { result ≡ list_any (λ m. m == number) numbers.now }
{
    numbers.iter().any(|other| *other == number)
}

// The numbers of a key, if n is one of them.
fn numbers_with<F: Files>(
    alloc: Global,
    files: &mut F,
    key: &[u8],
    n: u64,
) -> Result<Numbers, PartError>
    ensures value { IsTrue F.tells → IfOk result (AreNumbersByFiles (F.map files.old) key.now n) }
    ensures few { IfOk result (AllByRecursion (λ m. m ≤ 99_999_999)) }
    ensures names { NamesDamaged ⟦<F as Files>⟧ (λ name. name ≡ threads.thread_name (thread_place key.now)) (λ _. IsBadThreads (F.map files.old) key.now n) result }
    ensures reads { IsReading ⟦<F as Files>⟧ files.old files.new result }
{
    let place = thread_place_of(key);
    let threads = read_thread_file(alloc, files, place)?;
    let numbers = numbers_for(threads.as_slice(), key);
    if !has_number(numbers, n) {
        return Err(PartError::Damaged(Name::threads(place)));
    }
    Ok(Numbers::from_vec(Vec::from_slice(alloc, numbers)?))
}

// The first hundred numbers of a key, if n is one of its numbers.
fn row_for<F: Files>(alloc: Global, files: &mut F, key: &[u8], n: u64) -> Result<Numbers, PartError>
    ensures value { IsTrue F.tells → IfOk result (IsRowByFiles (F.map files.old) key.now n) }
    ensures few { IfOk result (AllByRecursion (λ m. m ≤ 99_999_999)) }
    ensures names { NamesDamaged ⟦<F as Files>⟧ (λ name. name ≡ threads.thread_name (thread_place key.now)) (λ _. IsBadThreads (F.map files.old) key.now n) result }
    ensures reads { IsReading ⟦<F as Files>⟧ files.old files.new result }
{
    let numbers = numbers_with(alloc, files, key, n)?;
    let mut row = numbers.into_vec();
    row.truncate(MAX_POSTS);
    Ok(Numbers::from_vec(row))
}

// The thread of a post that is there.
fn known_thread<F: Files>(
    alloc: Global,
    files: &mut F,
    prefix: &[u8],
    n: u64,
) -> Result<Numbers, PartError>
    requires { n ≤ 99_999_999 }
    ensures value { IsTrue F.tells → IfOk result (IsThreadByFiles (F.map files.old) prefix.now n) }
    ensures among { IsTrue F.tells → IfOk result (λ answer. (m : ℕ) → IsAmong answer m → IsOfSubject (F.map files.old) prefix.now n m) }
    ensures few { IfOk result (AllByRecursion (λ m. m ≤ 99_999_999)) }
    ensures names { NamesDamaged ⟦<F as Files>⟧ IsThreadName (λ name. IsBadForKnown (F.map files.old) prefix.now n name × IsOfThread (F.map files.old) prefix.now n name) result }
    ensures reads { IsReading ⟦<F as Files>⟧ files.old files.new result }
{
    let mut indexes = Indexes::new(alloc);
    let key = key_for(alloc, files, &mut indexes, prefix, n)?;
    let row = row_for(alloc, files, key.as_slice(), n)?;
    let missing = Name::threads(thread_place_of(key.as_slice()));
    let sizes = sizes_of(alloc, files, &mut indexes, row.as_slice(), missing)?;
    Ok(cut_by(alloc, row.as_slice(), sizes.as_slice())?)
}

/// The numbers of the posts whose subject has the same key as post n's, on a list with this prefix, in order and as
/// many as one answer has: at most 100, and at most 4,194,304 bytes of posts together, but always the first one. No
/// number if n is 0 or above the number of posts. It reads the number of posts, one thread file, and the indexes of the
/// first hundred posts there, each of them once.
pub fn thread<F: Files>(
    alloc: Global,
    files: &mut F,
    prefix: &[u8],
    n: u64,
) -> Result<Numbers, PartError>
    ensures value { IsTrue F.tells → (list : List ThePost) → IsArchive (F.map files.old) prefix.now list → IfOk result (λ answer. answer ≡ posts.numbers (cut (in_thread prefix.now n list))) }
    ensures read { IsTrue F.tells → IfOk result (IsThreadAnswer (F.map files.old) prefix.now n) }
    ensures among { IsTrue F.tells → IfOk result (λ answer. (m : ℕ) → IsAmong answer m → IsOfSubject (F.map files.old) prefix.now n m) }
    ensures few { IfOk result (AllByRecursion (λ m. m ≤ 99_999_999)) }
    ensures names { NamesDamaged ⟦<F as Files>⟧ IsThreadName (λ name. IsBadForThread (F.map files.old) prefix.now n name × IsOfThread (F.map files.old) prefix.now n name) result }
    ensures sound { IsTrue F.tells → (list : List ThePost) → IsArchive (F.map files.old) prefix.now list → IfErr result (λ e. OnDamaged e (λ _. ⊥)) }
    ensures reads { IsReading ⟦<F as Files>⟧ files.old files.new result }
{
    let count = read_count(alloc, files)?;
    if n == 0 || n > count {
        return Ok(Numbers::new(alloc));
    }
    known_thread(alloc, files, prefix, n)
}

// The whole thread of a post that is there. The index of its group is added to those that were read, unless it is among them.
fn known_whole_thread<F: Files>(
    alloc: Global,
    files: &mut F,
    indexes: &mut Indexes,
    prefix: &[u8],
    n: u64,
) -> Result<Thread, PartError>
    requires few { n ≤ 99_999_999 }
    requires known { IsTrue F.tells → AreIndexes (F.map files.old) indexes.old }
    ensures value { IsTrue F.tells → IfOk result (IsWholeByFiles (F.map files.old) prefix.now n) }
    ensures few { IfOk result (λ t. AllByRecursion (λ m. m ≤ 99_999_999) t.numbers) }
    ensures known { IsTrue F.tells → OnOk result (AreIndexes (F.map files.old) indexes.new) }
    ensures names { NamesDamaged ⟦<F as Files>⟧ IsThreadName (IsBadForKnown (F.map files.old) prefix.now n) result }
    ensures reads { IsReading ⟦<F as Files>⟧ files.old files.new result }
{
    let key = key_for(alloc, files, indexes, prefix, n)?;
    let numbers = numbers_with(alloc, files, key.as_slice(), n)?;
    Ok(Thread { key, numbers })
}

/// The thread of post n, on a list with this prefix: the key of its subject, and the numbers of all posts whose subject
/// has that key, in order. None if n is 0 or above the number of posts. It reads the number of posts, one index and one
/// thread file, and leaves the index in `indexes`, alone, if it read it.
pub fn whole_thread<F: Files>(
    alloc: Global,
    files: &mut F,
    indexes: &mut Indexes,
    prefix: &[u8],
    n: u64,
) -> Result<Option<Thread>, PartError>
    ensures value { IsTrue F.tells → (list : List ThePost) → IsArchive (F.map files.old) prefix.now list → IfOk result (λ found. found ≡ threads.whole_thread prefix.now n list) }
    ensures read { IsTrue F.tells → IfOk result (IsWholeAnswer (F.map files.old) prefix.now n) }
    ensures few { IfOk result (λ found. IfSome found (λ t. AllByRecursion (λ m. m ≤ 99_999_999) t.numbers)) }
    ensures known { IsTrue F.tells → OnOk result (AreIndexes (F.map files.old) indexes.new) }
    ensures names { NamesDamaged ⟦<F as Files>⟧ IsThreadName (IsBadForThread (F.map files.old) prefix.now n) result }
    ensures sound { IsTrue F.tells → (list : List ThePost) → IsArchive (F.map files.old) prefix.now list → IfErr result (λ e. OnDamaged e (λ _. ⊥)) }
    ensures reads { IsReading ⟦<F as Files>⟧ files.old files.new result }
{
    *indexes = Indexes::new(alloc);
    let count = read_count(alloc, files)?;
    if n == 0 || n > count {
        return Ok(None);
    }
    Ok(Some(known_whole_thread(alloc, files, indexes, prefix, n)?))
}

/// The threads of the thread file with this number, in the order of their keys. It reads one file.
pub fn thread_file<F: Files>(alloc: Global, files: &mut F, n: u8) -> Result<Threads, PartError>
    ensures read { IsTrue F.tells → IfOk result (IsThreadFile n (F.map files.old (threads.thread_name n))) }
    ensures each { IfOk result (AllByRecursion (IsThread n)) }
    ensures names { NamesDamaged ⟦<F as Files>⟧ (λ name. name ≡ threads.thread_name n) (λ _. IsNoThreads (F.map files.old) n) result }
    ensures sound { IsTrue F.tells → (prefix : Text) (list : List ThePost) → IsArchive (F.map files.old) prefix list → IfErr result (λ e. OnDamaged e (λ _. ⊥)) }
    ensures reads { IsReading ⟦<F as Files>⟧ files.old files.new result }
{
    read_thread_file(alloc, files, n)
}
