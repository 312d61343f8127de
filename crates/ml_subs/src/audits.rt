// Checks whether the files of every set stand for a list of members.
ghost use Rattle.std.specs.Prelude.{◌≡◌, ◌<◌, ◌≤◌, true, List, ℕ, Option, Some, None, IsTrue, IfOk, IfErr, IfSome, IfNone, OnOk, IsErrOf, length, min, ◌^◌, ◌-◌};
ghost use Rattle.ml_base.specs.declared.names.Set.{Set};
ghost use Rattle.ml_base.specs.PartErrors.{OnDamaged};
ghost use Rattle.ml_base.specs.ReadFiles.{IsReading, NamesDamaged};
ghost use Rattle.ml_subs.specs.declared.member_list.Member.{Member};
ghost use Rattle.ml_subs.specs.Buckets.{IsBucketFile};
ghost use Rattle.ml_keyed.specs.Buckets.{counted};
ghost use Rattle.ml_subs.specs.Subscribers.{AreSubscribers, AreBuckets, IsNoBucket, IsBucketName, IsBadBucket, Breaks, is_of_set};
ghost use Rattle.ml_keyed.specs.Buckets.{counted};
ghost use Rattle.ml_subs.specs.Subscribers as spec;

use crate::bucket_texts::read_bucket;
use crate::counts::count_of;
use ml_base::{Files, Name, PartError, Set};
use std::alloc::Global;

// How many members one bucket of a set has.
fn audit_bucket<F: Files>(alloc: Global, files: &mut F, set: Set, n: u8) -> Result<u64, PartError>
    requires { n < 53 }
    ensures value { IsTrue F.tells → IfOk result (λ count. (ms : List Member) × IsBucketFile n (F.map files.old (spec.bucket_name set n)) ms × (count ≡ length ms)) }
    ensures names { NamesDamaged ⟦<F as Files>⟧ (λ name. name ≡ spec.bucket_name set n) (λ _. IsNoBucket (F.map files.old) set n) result }
    ensures reads { IsReading ⟦<F as Files>⟧ files.old files.new result }
{
    let name = Name::bucket(set, n);
    let file = files.get(alloc, name)?;
    match read_bucket(alloc, n, &file)? {
        Some(members) => Ok(members.as_slice().len() as u64),
        None => Err(PartError::Damaged(name)),
    }
}

// How many members the buckets of a set have, at most 2^64 - 1.
fn audit_buckets<F: Files>(alloc: Global, files: &mut F, set: Set) -> Result<u64, PartError>
    ensures value { IsTrue F.tells → IfOk result (λ count. (buckets : ℕ → List Member) × AreBuckets (F.map files.old) set buckets × (count ≡ min (counted buckets 53) (2 ^ 64 - 1))) }
    ensures names { NamesDamaged ⟦<F as Files>⟧ (IsBucketName set) (IsBadBucket (F.map files.old) set) result }
    ensures reads { IsReading ⟦<F as Files>⟧ files.old files.new result }
{
    let mut count: u64 = 0;
    for n in 0..53 {
        count = count.saturating_add(audit_bucket(alloc, files, set, n)?);
    }
    Ok(count)
}

// Whether the files of one set stand for a list of members.
fn audit_set<F: Files>(alloc: Global, files: &mut F, set: Set) -> Result<(), PartError>
    ensures value { IsTrue F.tells → OnOk result ((ms : List Member) × AreSubscribers (F.map files.old) set ms) }
    ensures names { NamesDamaged ⟦<F as Files>⟧ (λ name. is_of_set set name ≡ true) (Breaks (F.map files.old) set) result }
    ensures reads { IsReading ⟦<F as Files>⟧ files.old files.new result }
{
    let found = audit_buckets(alloc, files, set)?;
    let count = count_of(alloc, files, set, 0)?;
    if found == count {
        Ok(())
    } else {
        Err(PartError::Damaged(Name::count(set)))
    }
}

/// Whether the files of every set stand for a list of members: each bucket is in its grammar, and the count is the
/// number of members in the buckets. It reads all files of the five sets, in their order, and names the first that is
/// wrong.
pub fn audit<F: Files>(alloc: Global, files: &mut F) -> Result<(), PartError>
    ensures ok { IsTrue F.tells → OnOk result ((set : Set) → (ms : List Member) × AreSubscribers (F.map files.old) set ms) }
    ensures names { NamesDamaged ⟦<F as Files>⟧ (λ name. (set : Set) × (is_of_set set name ≡ true)) (λ name. (set : Set) × Breaks (F.map files.old) set name) result }
    ensures sound { IsTrue F.tells → ((set : Set) → (ms : List Member) × AreSubscribers (F.map files.old) set ms) → IfErr result (λ e. OnDamaged e (λ _. ⊥)) }
    ensures reads { IsReading ⟦<F as Files>⟧ files.old files.new result }
{
    audit_set(alloc, files, Set::List)?;
    audit_set(alloc, files, Set::Digest)?;
    audit_set(alloc, files, Set::Allow)?;
    audit_set(alloc, files, Set::Deny)?;
    audit_set(alloc, files, Set::Moderators)
}
