// Takes the entry of an address out of a ledger.
ghost use Rattle.std.specs.Prelude.{◌≡◌, ◌<◌, true, ℕ, List, IsTrue, IfOk, IfErr};
ghost use Rattle.ml_base.specs.Address.{key};
ghost use Rattle.ml_base.specs.Dir.{Dir, same_name, touches_only, with_puts};
ghost use Rattle.ml_base.specs.Name.{is_file};
ghost use Rattle.ml_base.specs.PartErrors.{OnDamaged};
ghost use Rattle.ml_base.specs.ReadFiles.{IsReading, NamesDamaged};
ghost use Rattle.ml_bounce.specs.Answers.{has_ledger, ledger_kind, key_file, IsBucketOf, IsNoFile, forgets};
ghost use Rattle.ml_bounce.specs.Files.{IsLedger, bucket_of};
ghost use Rattle.ml_bounce.specs.Ledger.{Ledger};
ghost use Rattle.ml_bounce.specs.Ledger as spec;

use crate::buckets::{Bucket, open_bucket, written};
use ml_base::{Address, Files, PartError, Set, Txn};
use ml_keyed::{file_without, find};
use std::alloc::{AllocError, Global};

// The puts that take the entry of the key out of its file.
fn forgotten(alloc: Global, set: Set, bucket: &Bucket) -> Result<Txn, AllocError>
    requires { IsTrue (has_ledger set) }
    ensures { IfOk result (λ txn. txn ≡ forgets set bucket.now.key bucket.now.entries) }
{
    let key = bucket.key.as_slice();
    let entries = bucket.entries.as_slice();
    if find(entries, key).is_none() {
        return Ok(Txn::new(alloc));
    }
    let file = file_without(alloc, entries, key)?;
    written(alloc, set, key, file)
}

/// Takes the entry of an address, in any case of letters, out of a set's ledger. It reads one file. If there is no
/// entry, there are no puts.
///
/// The set is the list or the digest.
pub fn forget<F: Files>(
    alloc: Global,
    files: &mut F,
    set: Set,
    who: &Address,
) -> Result<Txn, PartError>
    requires { IsTrue (has_ledger set) }
    ensures value { IsTrue F.tells → IfOk result (λ txn. (dir : Dir) (ledger : Ledger) → dir (key_file set (key who.now)) ≡ F.map files.old (key_file set (key who.now)) → IsLedger dir (ledger_kind set) ledger → IsLedger (with_puts dir txn) (ledger_kind set) (spec.forget (key who.now) ledger)) }
    ensures read { IsTrue F.tells → IfOk result (λ txn. (bucket : Ledger) × IsBucketOf (F.map files.old) set (key who.now) bucket × (txn ≡ forgets set (key who.now) bucket)) }
    ensures others { IfOk result (λ txn. touches_only (λ name. same_name name (key_file set (key who.now))) txn ≡ true) }
    ensures files { IfOk result (λ txn. touches_only is_file txn ≡ true) }
    ensures names { NamesDamaged ⟦<F as Files>⟧ (λ name. name ≡ key_file set (key who.now)) (λ _. IsNoFile (F.map files.old) set (bucket_of (key who.now))) result }
    ensures sound { IsTrue F.tells → (ledger : Ledger) → IsLedger (F.map files.old) (ledger_kind set) ledger → IfErr result (λ e. OnDamaged e (λ _. ⊥)) }
    ensures reads { IsReading ⟦<F as Files>⟧ files.old files.new result }
{
    let bucket = open_bucket(alloc, files, set, who)?;
    Ok(forgotten(alloc, set, &bucket)?)
}
