// Collects the numbers of posts under the keys of their subjects.
ghost use Rattle.std.specs.Prelude.{◌≡◌, ◌<◌, ◌≤◌, ◌+◌, ℕ, [], ◌∷◌, ◌++◌, length, true, IsTrue, OnOk, IfOk, ◌↔◌, if◌then◌else◌};
ghost use Rattle.std.specs.Str.{bytes_eq};
ghost use Rattle.ml_base.specs.Bytes.{Text};
ghost use Rattle.ml_base.specs.ReadFiles.{IsReading, NamesDamaged};
ghost use Rattle.ml_archive.specs.Breaks.{AreBadGroups, AreGroupNames};
ghost use Rattle.ml_archive.specs.Counted.{first_of};
ghost use Rattle.ml_archive.specs.Found as found;
ghost use Rattle.ml_archive.specs.Found.{AreKeyedBelow, AreOrdered, AreWhole, HasPlace, with_numbers, key_numbers, numbers_at};

use crate::groups::{first_number, full_index, groups_of};
use ml_base::{Files, Numbers, PartError};
use ml_filing::{Entry, subject_key, thread_place_of};
use std::alloc::{AllocError, Global};
use std::collections::BTreeMap;

// Some thread files: those with numbers from `from` on and below `to`.
#[derive(Clone, Copy)]
pub(crate) struct Places {
    pub(crate) from: usize,
    pub(crate) to: usize,
}

impl Places {
    // Whether the file of a key is one of these.
    fn have(&self, key: &[u8]) -> bool
        ensures { IsTrue result ↔ HasPlace self.now key.now }
    {
        let place = thread_place_of(key) as usize;
        self.from <= place && place < self.to
    }
}

// Keys of subjects, with the numbers under each.
pub(crate) type Keys = BTreeMap<Vec<u8>, Numbers>;

// Adds a number under a key, after those that are there.
fn add_number(alloc: Global, keys: &mut Keys, key: &[u8], number: u64) -> Result<(), AllocError>
    ensures ordered { OnOk result (AreOrdered keys.new) }
    ensures value { OnOk result ((k : Text) → numbers_at k keys.new ≡ (if bytes_eq key.now k then with_numbers (numbers_at k keys.old) (number ∷ []) else numbers_at k keys.old)) }
{
    let mut numbers = match keys.remove(key) {
        Some(numbers) => numbers,
        None => Numbers::new(alloc),
    };
    numbers.push(number)?;
    keys.insert(Vec::from_slice(alloc, key)?, numbers)?;
    Ok(())
}

// Adds a number under a key, if the key's file is one of these.
fn add_placed(
    alloc: Global,
    keys: &mut Keys,
    places: Places,
    key: &[u8],
    number: u64,
) -> Result<(), AllocError>
    ensures ordered { AreOrdered keys.old → OnOk result (AreOrdered keys.new) }
    ensures value { OnOk result ((k : Text) → HasPlace places k → numbers_at k keys.new ≡ (if bytes_eq key.now k then with_numbers (numbers_at k keys.old) (number ∷ []) else numbers_at k keys.old)) }
{
    if !places.have(key) {
        return Ok(());
    }
    add_number(alloc, keys, key, number)
}

// Adds the numbers of a group's posts, from its first on, each under the key of its subject, if the key's file is one
// of these.
fn add_entries(
    alloc: Global,
    keys: &mut Keys,
    prefix: &[u8],
    places: Places,
    first: u64,
    entries: &[Entry],
) -> Result<(), AllocError>
    requires { length entries.now + first ≤ 100_000_000 }
    ensures ordered { AreOrdered keys.old → OnOk result (AreOrdered keys.new) }
    ensures value { OnOk result ((k : Text) → HasPlace places k → numbers_at k keys.new ≡ with_numbers (numbers_at k keys.old) (key_numbers prefix.now k first entries.now)) }
{
    let mut number = first;
    let mut rest = entries;
    while let [entry, more @ ..] = rest {
        let key = subject_key(alloc, prefix, entry.subject.as_slice())?;
        add_placed(alloc, keys, places, key.as_slice(), number)?;
        number += 1;
        rest = more;
    }
    Ok(())
}

// The numbers of all posts under the keys of their subjects, for the keys whose files are these.
pub(crate) fn keys_of<F: Files>(
    alloc: Global,
    files: &mut F,
    prefix: &[u8],
    count: u64,
    places: Places,
) -> Result<Keys, PartError>
    requires count { count ≤ 99_999_999 }
    requires whole { IsTrue F.tells → AreWhole (F.map files.old) count (found.groups_of count) }
    ensures value { IsTrue F.tells → IfOk result (AreKeyedBelow (F.map files.old) prefix.now places count (found.groups_of count)) }
    ensures ordered { IfOk result AreOrdered }
    ensures names { NamesDamaged ⟦<F as Files>⟧ AreGroupNames (AreBadGroups (F.map files.old) count) result }
    ensures reads { IsReading ⟦<F as Files>⟧ files.old files.new result }
{
    let mut keys = Keys::new(alloc);
    for group in 0..groups_of(count) {
        let entries = full_index(alloc, files, count, group)?;
        add_entries(
            alloc,
            &mut keys,
            prefix,
            places,
            first_number(group),
            entries.as_slice(),
        )?;
    }
    Ok(keys)
}
