// Looks up a row of posts in their indexes, and cuts the row to what one answer may have.
ghost use Rattle.std.specs.Prelude.{◌≡◌, ◌<◌, ◌≤◌, ◌/◌, ◌==◌, true, List, find, length, take, IsTrue, IfErr, IfOk, IfSome, IfNone, OnOk};
ghost use Rattle.std.specs.List.{AllByRecursion};
ghost use Rattle.std.specs.Option.{option_copied};
ghost use Rattle.ml_base.specs.Cuts.{one_or_within};
ghost use Rattle.ml_base.specs.Dir.{Dir};
ghost use Rattle.ml_base.specs.PartErrors.{OnDamaged};
ghost use Rattle.ml_base.specs.ReadFiles.{IsReading, NamesDamaged};
ghost use Rattle.ml_filing.specs.Answers.{AreIndexes, AreSizes, HasNoEntry, IsEntryByFiles, IsNoIndex, IsBadForRow, has_group};
ghost use Rattle.ml_filing.specs.Archive as archive;
ghost use Rattle.ml_filing.specs.Archive.{ArePosts};
ghost use Rattle.ml_filing.specs.Reads.{IsOfRow};
ghost use Rattle.ml_filing.specs.declared.posts.Post.{Post as ThePost};

use crate::files::read_index;
use crate::index_reader::entry_for;
use crate::{Entries, Entry};
use ml_base::{Files, Name, Numbers, PartError, Row, cut_len};
use std::alloc::{AllocError, Global};

/// An index that was read.
#[derive(Drop)]
pub struct Index {
    /// The number of the group: n / 100 for each post n of it.
    pub group: u64,
    /// What the index says of the group's posts.
    pub entries: Entries,
}

/// Indexes that were read, each of them once.
pub type Indexes = Row<Index>;

// Whether the index of a group was read.
fn was_read(indexes: &[Index], group: u64) -> bool
    ensures { result ≡ has_group group indexes.now }
{
    indexes.iter().any(|index| index.group == group)
}

// Reads the index of a group, unless it was read before.
pub(crate) fn read_once<F: Files>(
    alloc: Global,
    files: &mut F,
    indexes: &mut Indexes,
    group: u64,
) -> Result<(), PartError>
    requires group { group < 1_000_000 }
    requires known { IsTrue F.tells → AreIndexes (F.map files.old) indexes.old }
    ensures known { IsTrue F.tells → OnOk result (AreIndexes (F.map files.old) indexes.new) }
    ensures there { OnOk result (has_group group indexes.new ≡ true) }
    ensures names { NamesDamaged ⟦<F as Files>⟧ (λ name. name ≡ archive.index_name group) (λ _. IsNoIndex (F.map files.old) group) result }
    ensures reads { IsReading ⟦<F as Files>⟧ files.old files.new result }
{
    if was_read(indexes.as_slice(), group) {
        return Ok(());
    }
    let entries = read_index(alloc, files, group)?;
    Ok(indexes.push(Index { group, entries })?)
}

/// Reads the index of a group, unless it is among those that were read. If it has to be read, it is the only one that is kept. So a call that goes
/// over posts in order reads each index once, and holds one at a time. The group is that of a post, and so below 1,000,000.
pub fn read_alone<F: Files>(
    alloc: Global,
    files: &mut F,
    indexes: &mut Indexes,
    group: u64,
) -> Result<(), PartError>
    requires { group < 1_000_000 }
    ensures known { IsTrue F.tells → AreIndexes (F.map files.old) indexes.old → AreIndexes (F.map files.old) indexes.new }
    ensures there { OnOk result (has_group group indexes.new ≡ true) }
    ensures kept { has_group group indexes.old ≡ true → indexes.new ≡ indexes.old }
    ensures names { NamesDamaged ⟦<F as Files>⟧ (λ name. name ≡ archive.index_name group) (λ _. IsNoIndex (F.map files.old) group) result }
    ensures sound { IsTrue F.tells → (posts : List ThePost) → ArePosts (F.map files.old) posts → IfErr result (λ e. OnDamaged e (λ _. ⊥)) }
    ensures reads { IsReading ⟦<F as Files>⟧ files.old files.new result }
{
    if was_read(indexes.as_slice(), group) {
        return Ok(());
    }
    *indexes = Indexes::new(alloc);
    let entries = read_index(alloc, files, group)?;
    Ok(indexes.push(Index { group, entries })?)
}

// The index of a group among those that were read.
fn index_for(indexes: &[Index], group: u64) -> Option<&Index>
    ensures { option_copied result ≡ find (λ i. i.group == group) indexes.now }
{
    indexes.iter().find(|index| index.group == group)
}

/// The entry of a post in the indexes that were read. None if that of its group has none, or wasn't read. It takes no memory.
pub fn entry_among(indexes: &[Index], number: u64) -> Option<&Entry>
    ensures number { IfSome result (λ e. e.now.number ≡ number) }
    ensures some { (dir : Dir) → AreIndexes dir indexes.now → IfSome result (λ e. IsEntryByFiles dir number e.now) }
    ensures none { (dir : Dir) → AreIndexes dir indexes.now → has_group (number / 100) indexes.now ≡ true → IfNone result (HasNoEntry dir number) }
{
    match index_for(indexes, number / 100) {
        Some(index) => entry_for(index.entries.as_slice(), number),
        None => None,
    }
}

// The sizes of posts. `missing` is the file that is damaged if an index has no entry for one of them.
pub(crate) fn sizes_of<F: Files>(
    alloc: Global,
    files: &mut F,
    indexes: &mut Indexes,
    numbers: &[u64],
    missing: Name,
) -> Result<Numbers, PartError>
    requires few { AllByRecursion (λ m. m ≤ 99_999_999) numbers.now }
    requires known { IsTrue F.tells → AreIndexes (F.map files.old) indexes.old }
    ensures value { IsTrue F.tells → IfOk result (AreSizes (F.map files.old) numbers.now) }
    ensures names { NamesDamaged ⟦<F as Files>⟧ (IsOfRow missing numbers.now) (IsBadForRow (F.map files.old) missing numbers.now) result }
    ensures long { IfOk result (λ sizes. length sizes ≡ length numbers.now) }
    ensures reads { IsReading ⟦<F as Files>⟧ files.old files.new result }
{
    let mut sizes = Numbers::new(alloc);
    let mut rest = numbers;
    while let [number, more @ ..] = rest {
        read_once(alloc, files, indexes, *number / 100)?;
        let Some(entry) = entry_among(indexes.as_slice(), *number) else {
            return Err(PartError::Damaged(missing));
        };
        sizes.push(entry.size)?;
        rest = more;
    }
    Ok(sizes)
}

// As many posts of a row as one answer has, by their sizes.
pub(crate) fn cut_by(alloc: Global, numbers: &[u64], sizes: &[u64]) -> Result<Numbers, AllocError>
    requires { length sizes.now ≤ length numbers.now }
    ensures { IfOk result (λ front. front ≡ take (length (one_or_within (λ s. s) 100 4_194_304 sizes.now)) numbers.now) }
{
    Ok(Numbers::from_vec(Vec::from_slice(alloc, &numbers[..cut_len(sizes)])?))
}
