// The posts that are in no digest yet, by the entries of the indexes.
ghost use Rattle.std.specs.Option.{option_copied};
ghost use Rattle.std.specs.Prelude.{◌≡◌, find, nat_lt, ◌<◌, ◌≤◌, ◌+◌, ◌/◌, ◌++◌, true, take, drop, map, length, IsTrue, IfOk, OnOk};
ghost use Rattle.ml_base.specs.Dir.{Dir};
ghost use Rattle.ml_base.specs.ReadFiles.{IsReading, NamesDamaged};
ghost use Rattle.ml_filing.specs.Archive.{IsNumberFile, number_name};
ghost use Rattle.ml_filing.specs.Posts as archive;
ghost use Rattle.ml_plain.specs.Directory.{IsList};
ghost use Rattle.ml_plain.specs.Plain.{Plain};
ghost use Rattle.ml_plain.specs.Timing.{moment_of_first};
ghost use Rattle.ml_acts.specs.Asked.{IsTooSmall};
ghost use Rattle.ml_acts.specs.Doing.{Alike};
ghost use Rattle.ml_acts.specs.Asked as asked;
ghost use Rattle.ml_timed.specs.Digesting.{IsDamagedAfter, IsDamagedGroup};
ghost use Rattle.ml_timed.specs.Reads.{is_of_posts_seen, is_of_posts_told};
ghost use Rattle.ml_timed.specs.Waiting.{is_short, moment_after, sizes_after};
ghost use Rattle.ml_timed.specs.Waiting as waiting;
ghost use Rattle.std.specs.List.{list_all};

use ml_base::{Files, LONGEST_POST, Name, Numbers, PartError};
use ml_filing::{Entries, Entry, index};
use std::alloc::{AllocError, Global};

// The posts that are in no digest yet, as far as one digest may take them.
#[derive(Drop)]
pub(crate) struct Undigested {
    // Their sizes in bytes, at least of the first 100.
    pub(crate) sizes: Numbers,
    // When the first of them was posted, in seconds since 1970.
    pub(crate) oldest: u64,
}

// The posts after the last one that is in a digest. `count` is the number of posts. It reads one index, or two.
pub(crate) fn posts_after<F: Files>(
    alloc: Global,
    files: &mut F,
    last: u64,
    count: u64,
) -> Result<Undigested, PartError>
    requires some { last < count }
    requires few { count ≤ 99_999_999 }
    requires counted { IsTrue F.tells → IsNumberFile (F.map files.now number_name) count }
    ensures sizes { IsTrue F.tells → IfOk result (λ found. (dir : Dir) (p : Plain) → Alike is_of_posts_seen (F.map files.old) dir → IsList dir p → count ≡ length p.posts → take 100 found.sizes ≡ take 100 (map (λ post. length post.bytes) (drop last p.posts))) }
    ensures oldest { IsTrue F.tells → IfOk result (λ found. (dir : Dir) (p : Plain) → Alike is_of_posts_seen (F.map files.old) dir → IsList dir p → count ≡ length p.posts → found.oldest ≡ moment_of_first (drop last p.posts)) }
    ensures short { IfOk result (λ found. list_all is_short found.sizes ≡ true) }
    ensures agrees { IsTrue F.tells → IfOk result (λ _. count / 100 ≤ (last + 1) / 100 + 1 → ¬ IsTooSmall (F.map files.old)) }
    ensures names { NamesDamaged ⟦<F as Files>⟧ (λ name. is_of_posts_told name ≡ true) (IsDamagedAfter (F.map files.old) last count) result }
    ensures reads { IsReading ⟦<F as Files>⟧ files.old files.new result }
{
    let group = (last + 1) / 100;
    let first = group_of(alloc, files, group, count)?;
    let second = group_of(alloc, files, group + 1, count)?;
    let mut sizes = Numbers::new(alloc);
    add_sizes(&mut sizes, first.as_slice(), last)?;
    add_sizes(&mut sizes, second.as_slice(), last)?;
    Ok(Undigested {
        sizes,
        oldest: oldest(first.as_slice(), last),
    })
}

// The index of a group. `count` is the number of posts. For a group after that of the last post it reads nothing, and answers none. If the
// index has an entry above `count`, the number of posts is too small, and its file is damaged.
fn group_of<F: Files>(
    alloc: Global,
    files: &mut F,
    group: u64,
    count: u64,
) -> Result<Entries, PartError>
    requires few { count ≤ 99_999_999 }
    requires counted { IsTrue F.tells → IsNumberFile (F.map files.now number_name) count }
    ensures apart { IsTrue F.tells → IfOk result (λ entries. (dir : Dir) (p : Plain) → Alike is_of_posts_seen (F.map files.old) dir → IsList dir p → count ≡ length p.posts → entries ≡ archive.index_of group p.posts) }
    ensures short { IfOk result (λ entries. waiting.are_short entries ≡ true) }
    ensures agrees { IsTrue F.tells → IfOk result (λ _. group ≡ count / 100 → ¬ IsTooSmall (F.map files.old)) }
    ensures names { NamesDamaged ⟦<F as Files>⟧ (λ name. is_of_posts_told name ≡ true) (IsDamagedGroup (F.map files.old) group count) result }
    ensures reads { IsReading ⟦<F as Files>⟧ files.old files.new result }
{
    if group > count / 100 {
        return Ok(Entries::new(alloc));
    }
    let entries = index(alloc, files, group)?;
    if !are_short(entries.as_slice()) {
        return Err(PartError::Damaged(Name::index(group)));
    }
    if has_above(entries.as_slice(), count) {
        return Err(PartError::Damaged(Name::NUMBER));
    }
    Ok(entries)
}

// Whether every entry has a size that a post may have.
fn are_short(entries: &[Entry]) -> bool
    ensures { result ≡ waiting.are_short entries.now }
{
    entries.iter().all(|entry| entry.size <= LONGEST_POST)
}

// Whether an entry is of a post above a number.
fn has_above(entries: &[Entry], number: u64) -> bool
    ensures { result ≡ asked.has_above number entries.now }
{
    entries.iter().any(|entry| entry.number > number)
}

// Adds the sizes of the posts of an index after a number.
fn add_sizes(sizes: &mut Numbers, entries: &[Entry], last: u64) -> Result<(), AllocError>
    ensures { OnOk result (sizes.new ≡ sizes.old ++ sizes_after last entries.now) }
{
    for entry in entries {
        if entry.number > last {
            sizes.push(entry.size)?;
        }
    }
    Ok(())
}

// When the first post of an index after a number was posted.
fn oldest(entries: &[Entry], last: u64) -> u64
    ensures { result ≡ moment_after last entries.now }
{
    match first_after(entries, last) {
        Some(entry) => entry.moment,
        None => 0,
    }
}

// The first entry of an index after a number.
fn first_after(entries: &[Entry], last: u64) -> Option<&Entry>
    ensures { option_copied result ≡ find (λ e. nat_lt last e.number) entries.now }
{
    entries.iter().find(|entry| entry.number > last)
}
