// Lists all members of a set, in the order of their keys.
ghost use Rattle.std.specs.Prelude.{◌≡◌, ◌<◌, ◌≤◌, ◌++◌, [], map, true, false, List, ℕ, Bool, Option, Some, None, IsTrue, IfOk, IfErr, IfSome, OnOk, IsErrOf, length};
ghost use Rattle.std.specs.List.Sorted.{IsPermutation, IsSortedByKey};
ghost use Rattle.ml_base.specs.Address.{key};
ghost use Rattle.ml_base.specs.Sorted.{byte_cmp, is_sorted};
ghost use Rattle.ml_base.specs.PartErrors.{OnDamaged};
ghost use Rattle.ml_base.specs.declared.part_error.PartError.TheVariants.{Fault};
ghost use Rattle.ml_base.specs.ReadFiles.{IsReading, NamesDamaged};
ghost use Rattle.ml_subs.specs.declared.member_list.Member.{Member};
ghost use Rattle.ml_subs.specs.Members.{member_key, IsOrdered};
ghost use Rattle.ml_subs.specs.Buckets.{IsBucketFile};
ghost use Rattle.ml_keyed.specs.Buckets.{gathered};
ghost use Rattle.ml_subs.specs.Subscribers.{AreSubscribers, AreJoined, AreBuckets, AreFiles, IsSpelled, file_in, IsBucketName, IsBadBucket};

use crate::bucket_texts::read_bucket;
use crate::records::Record;
use crate::{Member, MemberList};
use ml_base::{AddressList, Bytes, Files, Name, PartError, Row, Set};
use std::alloc::{AllocError, Global};

// Reads the files of a set's buckets.
fn read_files<F: Files>(
    alloc: Global,
    files: &mut F,
    set: Set,
) -> Result<Row<Option<Bytes>>, PartError>
    ensures value { IsTrue F.tells → IfOk result (AreFiles (F.map files.old) set 53) }
    ensures length { IfOk result (λ texts. length texts ≡ 53) }
    ensures sound { IfErr result (λ e. OnDamaged e (λ _. ⊥)) }
    ensures reads { IsReading ⟦<F as Files>⟧ files.old files.new result }
{
    let mut texts = Row::new(alloc);
    for n in 0..53 {
        let file = files.get(alloc, Name::bucket(set, n))?;
        texts.push(file)?;
    }
    Ok(texts)
}

// The members that the files of a set's buckets spell, bucket after bucket.
fn spelled_members<'a>(
    alloc: Global,
    set: Set,
    texts: &'a Row<Option<Bytes>>,
) -> Result<Row<Record<'a>>, PartError>
    requires { length texts.now ≡ 53 }
    ensures value { IfOk result (λ ms. (buckets : ℕ → List Member) × AreBuckets (file_in texts.now) set buckets × (ms ≡ gathered buckets 53)) }
    ensures names { IfErr result (λ e. OnDamaged e (IsBadBucket (file_in texts.now) set)) }
    ensures faultless { ¬ IsErrOf result Fault }
{
    let mut found = Row::new(alloc);
    for n in 0..53 {
        let file = &texts.as_slice()[n as usize];
        let Some(members) = read_bucket(alloc, n, file)? else {
            return Err(PartError::Damaged(Name::bucket(set, n)));
        };
        found.join(members)?;
    }
    Ok(found)
}

// The members in the order of their keys. Those of one bucket are in order already, and the sort merges such rows.
fn in_order<'a>(list: Row<Record<'a>>) -> Result<Row<Record<'a>>, AllocError>
    ensures permutation { IfOk result (IsPermutation list.entry) }
    ensures sorted { IfOk result (IsSortedByKey member_key byte_cmp) }
{
    let mut items = list.into_vec();
    items.sort_by(|a, b| a.compare_to(b))?;
    Ok(Row::from_vec(items))
}

// The members, with copies of their addresses.
fn copied_members(alloc: Global, list: &Row<Record<'_>>) -> Result<MemberList, AllocError>
    ensures { IfOk result (λ members. members ≡ list.now) }
{
    let mut members = Vec::with_capacity(alloc, list.as_slice().len())?;
    for record in list.as_slice() {
        members.push(record.member(alloc)?)?;
    }
    Ok(Row::from_vec(members))
}

// The members that the files of a set's buckets spell, in ascending order of key.
fn sorted_members(
    alloc: Global,
    set: Set,
    texts: &Row<Option<Bytes>>,
) -> Result<MemberList, PartError>
    requires { length texts.now ≡ 53 }
    ensures union { IfOk result (AreJoined (file_in texts.now) set) }
    ensures names { IfErr result (λ e. OnDamaged e (IsBadBucket (file_in texts.now) set)) }
    ensures faultless { ¬ IsErrOf result Fault }
{
    let found = spelled_members(alloc, set, texts)?;
    let sorted = in_order(found)?;
    Ok(copied_members(alloc, &sorted)?)
}

/// The members of a set, in ascending order of key. It reads the set's 53 files and not its count.
pub fn members<F: Files>(alloc: Global, files: &mut F, set: Set) -> Result<MemberList, PartError>
    ensures value { IsTrue F.tells → IfOk result (λ members. (ms : List Member) → AreSubscribers (F.map files.old) set ms → members ≡ ms) }
    ensures union { IsTrue F.tells → IfOk result (AreJoined (F.map files.old) set) }
    ensures ordered { IfOk result IsOrdered }
    ensures names { NamesDamaged ⟦<F as Files>⟧ (IsBucketName set) (IsBadBucket (F.map files.old) set) result }
    ensures sound { IsTrue F.tells → (ms : List Member) → AreSubscribers (F.map files.old) set ms → IfErr result (λ e. OnDamaged e (λ _. ⊥)) }
    ensures reads { IsReading ⟦<F as Files>⟧ files.old files.new result }
{
    let texts = read_files(alloc, files, set)?;
    sorted_members(alloc, set, &texts)
}

// The addresses of members.
fn addresses_of(alloc: Global, list: MemberList) -> Result<AddressList, AllocError>
    ensures { IfOk result (λ addresses. addresses ≡ map (λ m. m.who) list) }
{
    let items = list.into_vec();
    let mut addresses = Vec::with_capacity(alloc, items.len())?;
    for member in items {
        addresses.push(member.who)?;
    }
    Ok(Row::from_vec(addresses))
}

// Whether two files have the same bytes, or are both absent.
fn is_same(one: &Option<Bytes>, other: &Option<Bytes>) -> bool
    ensures { IsTrue result → one.now ≡ other.now }
{
    match (one, other) {
        (Some(one), Some(other)) => one.as_slice() == other.as_slice(),
        (None, None) => true,
        _ => false,
    }
}

// Whether files have the same bytes as others, file by file.
fn are_same(one: &[Option<Bytes>], other: &[Option<Bytes>]) -> bool
    ensures { IsTrue result → one.now ≡ other.now }
{
    match (one, other) {
        ([], []) => true,
        ([file, rest @ ..], [before, others @ ..]) => {
            is_same(file, before) && are_same(rest, others)
        }
        _ => false,
    }
}

/// The files of a set's buckets, and the addresses that they spell.
#[derive(Drop)]
pub struct Spelling {
    /// The bytes of the 53 files, None for one that is absent.
    pub texts: Row<Option<Bytes>>,
    /// The addresses, in ascending order of key.
    pub addresses: AddressList,
}

// The files of a set's buckets, with the addresses that they spell. If their bytes are those of `before`, its
// addresses are taken.
fn spell_with_memo<F: Files>(
    alloc: Global,
    files: &mut F,
    set: Set,
    before: Option<Spelling>,
) -> Result<Spelling, PartError>
    requires before { IfSome before (IsSpelled set) }
    ensures spelled { IfOk result (IsSpelled set) }
    ensures files { IsTrue F.tells → IfOk result (λ now. AreFiles (F.map files.old) set 53 now.texts) }
    ensures names { NamesDamaged ⟦<F as Files>⟧ (IsBucketName set) (IsBadBucket (F.map files.old) set) result }
    ensures sound { IsTrue F.tells → (ms : List Member) → AreSubscribers (F.map files.old) set ms → IfErr result (λ e. OnDamaged e (λ _. ⊥)) }
    ensures reads { IsReading ⟦<F as Files>⟧ files.old files.new result }
{
    let texts = read_files(alloc, files, set)?;
    if let Some(before) = before {
        if are_same(texts.as_slice(), before.texts.as_slice()) {
            return Ok(before);
        }
    }
    let list = sorted_members(alloc, set, &texts)?;
    let addresses = addresses_of(alloc, list)?;
    Ok(Spelling { texts, addresses })
}

/// The addresses of a set's members, in ascending order of key, with the files that spell them. It reads the set's 53
/// files and not its count. If their bytes are those of `before`, its addresses are taken.
pub fn all_with_memo<F: Files>(
    alloc: Global,
    files: &mut F,
    set: Set,
    before: Option<Spelling>,
) -> Result<Spelling, PartError>
    requires before { IfSome before (IsSpelled set) }
    ensures spelled { IfOk result (IsSpelled set) }
    ensures files { IsTrue F.tells → IfOk result (λ now. AreFiles (F.map files.old) set 53 now.texts) }
    ensures value { IsTrue F.tells → IfOk result (λ now. (ms : List Member) → AreSubscribers (F.map files.old) set ms → now.addresses ≡ map (λ m. m.who) ms) }
    ensures sorted { IfOk result (λ now. is_sorted byte_cmp key now.addresses ≡ true) }
    ensures names { NamesDamaged ⟦<F as Files>⟧ (IsBucketName set) (IsBadBucket (F.map files.old) set) result }
    ensures sound { IsTrue F.tells → (ms : List Member) → AreSubscribers (F.map files.old) set ms → IfErr result (λ e. OnDamaged e (λ _. ⊥)) }
    ensures reads { IsReading ⟦<F as Files>⟧ files.old files.new result }
{
    spell_with_memo(alloc, files, set, before)
}

/// The addresses of a set's members, in ascending order of key. It reads the set's 53 files and not its count.
pub fn all<F: Files>(alloc: Global, files: &mut F, set: Set) -> Result<AddressList, PartError>
    ensures value { IsTrue F.tells → IfOk result (λ addresses. (ms : List Member) → AreSubscribers (F.map files.old) set ms → addresses ≡ map (λ m. m.who) ms) }
    ensures union { IsTrue F.tells → IfOk result (λ addresses. (ms : List Member) × AreJoined (F.map files.old) set ms × (addresses ≡ map (λ m. m.who) ms)) }
    ensures sorted { IfOk result (λ addresses. is_sorted byte_cmp key addresses ≡ true) }
    ensures names { NamesDamaged ⟦<F as Files>⟧ (IsBucketName set) (IsBadBucket (F.map files.old) set) result }
    ensures sound { IsTrue F.tells → (ms : List Member) → AreSubscribers (F.map files.old) set ms → IfErr result (λ e. OnDamaged e (λ _. ⊥)) }
    ensures reads { IsReading ⟦<F as Files>⟧ files.old files.new result }
{
    let list = members(alloc, files, set)?;
    Ok(addresses_of(alloc, list)?)
}
