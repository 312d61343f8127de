// Reads posts by their numbers, and the index of a group.
ghost use Rattle.std.specs.Prelude.{◌≡◌, ◌<◌, ◌≤◌, ◌/◌, ◌⊎◌, ℕ, List, length, Some, IsTrue, IfOk, IfErr};
ghost use Rattle.std.specs.List.{IsAmong};
ghost use Rattle.std.specs.Option.{option_map};
ghost use Rattle.ml_base.specs.PartErrors.{OnDamaged};
ghost use Rattle.ml_base.specs.ReadFiles.{IsReading, NamesDamaged};
ghost use Rattle.ml_filing.specs.Answers.{IsNoNumber, IsNoIndex, IsPostName, IsBadForPost, IsPostByFiles, IsIndexByFiles, IsEntryByFiles, IsBadForEntry, IsOtherSize};
ghost use Rattle.ml_filing.specs.Archive.{ArePosts, IsNumberFile, number_name};
ghost use Rattle.ml_filing.specs.Archive as archive;
ghost use Rattle.ml_filing.specs.Posts.{post_at};
ghost use Rattle.ml_filing.specs.Posts as spec;
ghost use Rattle.ml_filing.specs.declared.posts.Post.{Post as ThePost};

use crate::files::{read_count, read_index};
use crate::index_reader::entry_for;
use crate::{Entries, Entry, Post};
use ml_base::{Bytes, Files, Name, PartError};
use std::alloc::{AllocError, Global};

/// The number of posts. It reads one file.
pub fn count<F: Files>(alloc: Global, files: &mut F) -> Result<u64, PartError>
    ensures value { IsTrue F.tells → (posts : List ThePost) → ArePosts (F.map files.old) posts → IfOk result (λ n. n ≡ length posts) }
    ensures read { IsTrue F.tells → IfOk result (IsNumberFile (F.map files.old number_name)) }
    ensures few { IfOk result (λ n. n ≤ 99_999_999) }
    ensures names { NamesDamaged ⟦<F as Files>⟧ (λ name. name ≡ number_name) (λ _. IsNoNumber (F.map files.old)) result }
    ensures sound { IsTrue F.tells → (posts : List ThePost) → ArePosts (F.map files.old) posts → IfErr result (λ e. OnDamaged e (λ _. ⊥)) }
    ensures reads { IsReading ⟦<F as Files>⟧ files.old files.new result }
{
    read_count(alloc, files)
}

/// What the index says of the posts n with n / 100 = `group`, in order. It reads one file, or none for a group that no
/// post can be in.
pub fn index<F: Files>(alloc: Global, files: &mut F, group: u64) -> Result<Entries, PartError>
    ensures value { IsTrue F.tells → (posts : List ThePost) → ArePosts (F.map files.old) posts → IfOk result (λ entries. entries ≡ spec.index_of group posts) }
    ensures read { IsTrue F.tells → IfOk result (IsIndexByFiles (F.map files.old) group) }
    ensures names { NamesDamaged ⟦<F as Files>⟧ (λ name. name ≡ archive.index_name group) (λ _. IsNoIndex (F.map files.old) group) result }
    ensures table { IfErr result (λ e. OnDamaged e (λ _. group < 1_000_000)) }
    ensures sound { IsTrue F.tells → (posts : List ThePost) → ArePosts (F.map files.old) posts → IfErr result (λ e. OnDamaged e (λ _. ⊥)) }
    ensures reads { IsReading ⟦<F as Files>⟧ files.old files.new result }
{
    if group >= 1_000_000 {
        return Ok(Entries::new(alloc));
    }
    read_index(alloc, files, group)
}

// What the index says of a post.
pub(crate) fn read_entry<F: Files>(alloc: Global, files: &mut F, n: u64) -> Result<Entry, PartError>
    requires { n ≤ 99_999_999 }
    ensures value { IsTrue F.tells → IfOk result (IsEntryByFiles (F.map files.old) n) }
    ensures names { NamesDamaged ⟦<F as Files>⟧ (IsPostName n) (IsBadForEntry (F.map files.old) n) result }
    ensures reads { IsReading ⟦<F as Files>⟧ files.old files.new result }
{
    let entries = read_index(alloc, files, n / 100)?;
    match entry_for(entries.as_slice(), n) {
        Some(entry) => Ok(copied(alloc, entry)?),
        None => Err(PartError::Damaged(Name::NUMBER)),
    }
}

// A copy of an entry.
fn copied(alloc: Global, entry: &Entry) -> Result<Entry, AllocError>
    ensures { IfOk result (λ copy. copy ≡ entry.now) }
{
    Ok(Entry {
        number: entry.number,
        moment: entry.moment,
        sender: entry.sender.copy(alloc)?,
        size: entry.size,
        subject: Bytes::from_slice(alloc, entry.subject.as_slice())?,
    })
}

// The bytes of a post; they have to be as many as its entry says.
fn read_bytes<F: Files>(alloc: Global, files: &mut F, n: u64, size: u64) -> Result<Bytes, PartError>
    requires low { 1 ≤ n }
    requires high { n ≤ 99_999_999 }
    ensures value { IsTrue F.tells → IfOk result (λ bytes. F.map files.old (archive.post_name n) ≡ Some bytes) }
    ensures size { IfOk result (λ bytes. length bytes ≡ size) }
    ensures names { NamesDamaged ⟦<F as Files>⟧ (λ name. name ≡ archive.index_name (n / 100)) (λ _. IsOtherSize (F.map files.old) n size) result }
    ensures reads { IsReading ⟦<F as Files>⟧ files.old files.new result }
{
    match files.get(alloc, Name::post(n))? {
        Some(bytes) if bytes.len() as u64 == size => Ok(bytes),
        _ => Err(PartError::Damaged(Name::index(n / 100))),
    }
}

/// Post n, or None exactly if n is 0 or above the number of posts. It reads three files.
pub fn post<F: Files>(alloc: Global, files: &mut F, n: u64) -> Result<Option<Post>, PartError>
    ensures value { IsTrue F.tells → (posts : List ThePost) → ArePosts (F.map files.old) posts → IfOk result (λ found. found ≡ post_at posts n) }
    ensures read { IsTrue F.tells → IfOk result (IsPostByFiles (F.map files.old) n) }
    ensures names { NamesDamaged ⟦<F as Files>⟧ (IsPostName n) (IsBadForPost (F.map files.old) n) result }
    ensures sound { IsTrue F.tells → (posts : List ThePost) → ArePosts (F.map files.old) posts → IfErr result (λ e. OnDamaged e (λ _. ⊥)) }
    ensures reads { IsReading ⟦<F as Files>⟧ files.old files.new result }
{
    let count = read_count(alloc, files)?;
    if n == 0 || n > count {
        return Ok(None);
    }
    let entry = read_entry(alloc, files, n)?;
    let bytes = read_bytes(alloc, files, n, entry.size)?;
    Ok(Some(Post {
        sender: entry.sender,
        moment: entry.moment,
        subject: entry.subject,
        bytes,
    }))
}

/// The text of the post with this index entry, as the list sent it. It reads one file, and neither the number of posts
/// nor the index: the entry comes from `index`. Its number is that of a post, from 1 to 99,999,999.
pub fn message_of<F: Files>(alloc: Global, files: &mut F, entry: &Entry) -> Result<Bytes, PartError>
    requires low { 1 ≤ entry.now.number }
    requires high { entry.now.number ≤ 99_999_999 }
    ensures value { IsTrue F.tells → (posts : List ThePost) → ArePosts (F.map files.old) posts → IfOk result (λ bytes. option_map (λ p. p.bytes) (post_at posts entry.now.number) ≡ Some bytes) }
    ensures read { IsTrue F.tells → IfOk result (λ bytes. F.map files.old (archive.post_name entry.now.number) ≡ Some bytes) }
    ensures size { IfOk result (λ bytes. length bytes ≡ entry.now.size) }
    ensures names { NamesDamaged ⟦<F as Files>⟧ (λ name. name ≡ archive.index_name (entry.now.number / 100)) (λ _. IsOtherSize (F.map files.old) entry.now.number entry.now.size) result }
    ensures sound { IsTrue F.tells → (posts : List ThePost) (group : ℕ) → ArePosts (F.map files.old) posts → IsAmong (spec.index_of group posts) entry.now → IfErr result (λ e. OnDamaged e (λ _. ⊥)) }
    ensures reads { IsReading ⟦<F as Files>⟧ files.old files.new result }
{
    read_bytes(alloc, files, entry.number, entry.size)
}
