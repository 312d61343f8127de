// Checks the groups of posts, one after another.
ghost use Rattle.std.specs.Prelude.{◌≡◌, ◌<◌, ◌≤◌, ◌+◌, ◌*◌, ◌/◌, max, min, ℕ, length, IsTrue, IfOk, OnOk, true, false};
ghost use Rattle.ml_base.specs.ReadFiles.{IsReading, NamesDamaged};
ghost use Rattle.ml_filing.specs.Answers.{IsOtherSize};
ghost use Rattle.ml_filing.specs.Archive as archive;
ghost use Rattle.ml_filing.specs.Archive.{IsIndexFile};
ghost use Rattle.ml_archive.specs.Breaks.{HasAll, IsGroupName, IsBadGroup, AreGroupNames, AreBadGroups};
ghost use Rattle.ml_archive.specs.Counted.{first_of};
ghost use Rattle.ml_archive.specs.Found as found;
ghost use Rattle.ml_archive.specs.Found.{AreWhole, HasSize, HasWhole, HaveSizes, LacksSize};

use ml_base::{Files, Name, PartError};
use ml_filing::{Entries, Entry, index};
use std::alloc::Global;

// The number of a group's first post.
pub(crate) fn first_number(group: u64) -> u64
    requires { group < 1_000_000 }
    ensures { result ≡ first_of group }
{
    (100 * group).max(1)
}

// How many posts a group has if there are `count` posts; its first post is there.
fn group_len(group: u64, count: u64) -> u64
    requires group { first_of group ≤ count }
    requires count { count ≤ 99_999_999 }
    ensures { result + first_of group ≡ min (count + 1) (100 * group + 100) }
{
    (count + 1).min(100 * group + 100) - first_number(group)
}

// Whether the post with this number, of this group, is there with this many bytes.
fn audit_size<F: Files>(
    alloc: Global,
    files: &mut F,
    group: u64,
    number: u64,
    size: u64,
) -> Result<(), PartError>
    requires low { 1 ≤ number }
    requires high { number ≤ 99_999_999 }
    ensures value { IsTrue F.tells → OnOk result (HasSize (F.map files.old) number size) }
    ensures names { NamesDamaged ⟦<F as Files>⟧ (λ name. name ≡ archive.index_name group) (λ _. IsOtherSize (F.map files.old) number size) result }
    ensures reads { IsReading ⟦<F as Files>⟧ files.old files.new result }
{
    match files.get(alloc, Name::post(number))? {
        Some(bytes) if bytes.len() as u64 == size => Ok(()),
        _ => Err(PartError::Damaged(Name::index(group))),
    }
}

// Whether every post of a group has the size that its entry says.
fn audit_sizes<F: Files>(
    alloc: Global,
    files: &mut F,
    group: u64,
    entries: &[Entry],
) -> Result<(), PartError>
    requires group { group < 1_000_000 }
    requires few { length entries.now + first_of group ≤ 100_000_000 }
    ensures value { IsTrue F.tells → OnOk result (HaveSizes (F.map files.old) (first_of group) entries.now) }
    ensures names { NamesDamaged ⟦<F as Files>⟧ (λ name. name ≡ archive.index_name group) (λ _. LacksSize (F.map files.old) (first_of group) entries.now) result }
    ensures reads { IsReading ⟦<F as Files>⟧ files.old files.new result }
{
    let mut number = first_number(group);
    let mut rest = entries;
    while let [entry, more @ ..] = rest {
        audit_size(alloc, files, group, number, entry.size)?;
        number += 1;
        rest = more;
    }
    Ok(())
}

// The entries of a group, one for each of its posts.
pub(crate) fn full_index<F: Files>(
    alloc: Global,
    files: &mut F,
    count: u64,
    group: u64,
) -> Result<Entries, PartError>
    requires group { first_of group ≤ count }
    requires count { count ≤ 99_999_999 }
    ensures index { IsTrue F.tells → IfOk result (λ entries. IsIndexFile group (F.map files.old (archive.index_name group)) entries) }
    ensures all { IfOk result (HasAll count group) }
    ensures names { NamesDamaged ⟦<F as Files>⟧ (IsGroupName group) (IsBadGroup (F.map files.old) count group) result }
    ensures reads { IsReading ⟦<F as Files>⟧ files.old files.new result }
{
    let entries = index(alloc, files, group)?;
    if entries.as_slice().len() as u64 == group_len(group, count) {
        Ok(entries)
    } else {
        Err(PartError::Damaged(Name::NUMBER))
    }
}

// Whether a group has an entry for every one of its posts, with that post's size.
fn audit_group<F: Files>(
    alloc: Global,
    files: &mut F,
    count: u64,
    group: u64,
) -> Result<(), PartError>
    requires group { first_of group ≤ count }
    requires count { count ≤ 99_999_999 }
    ensures value { IsTrue F.tells → OnOk result (HasWhole (F.map files.old) count group) }
    ensures names { NamesDamaged ⟦<F as Files>⟧ (IsGroupName group) (IsBadGroup (F.map files.old) count group) result }
    ensures reads { IsReading ⟦<F as Files>⟧ files.old files.new result }
{
    let entries = full_index(alloc, files, count, group)?;
    audit_sizes(alloc, files, group, entries.as_slice())
}

// How many groups a number of posts is in.
pub(crate) fn groups_of(count: u64) -> u64
    requires { count ≤ 99_999_999 }
    ensures { result ≡ found.groups_of count }
{
    if count == 0 { 0 } else { count / 100 + 1 }
}

// Whether every group that has a post has an entry for every one of its posts, with that post's size.
pub(crate) fn audit_groups<F: Files>(
    alloc: Global,
    files: &mut F,
    count: u64,
) -> Result<(), PartError>
    requires { count ≤ 99_999_999 }
    ensures value { IsTrue F.tells → OnOk result (AreWhole (F.map files.old) count (found.groups_of count)) }
    ensures names { NamesDamaged ⟦<F as Files>⟧ AreGroupNames (AreBadGroups (F.map files.old) count) result }
    ensures reads { IsReading ⟦<F as Files>⟧ files.old files.new result }
{
    for group in 0..groups_of(count) {
        audit_group(alloc, files, count, group)?;
    }
    Ok(())
}
