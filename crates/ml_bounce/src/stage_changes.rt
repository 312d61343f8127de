// Does what is due for an address: warns it, probes it, or lets its stage lapse.
ghost use Rattle.std.specs.Prelude.{◌≡◌, true, ℕ, List, Some, IsTrue, IfOk, IfErr};
ghost use Rattle.ml_base.specs.Address.{key};
ghost use Rattle.ml_base.specs.Dir.{Dir, same_name, touches_only, with_puts};
ghost use Rattle.ml_base.specs.Name.{is_file};
ghost use Rattle.ml_base.specs.PartErrors.{OnDamaged};
ghost use Rattle.ml_base.specs.Ranges.{IsMoment};
ghost use Rattle.ml_base.specs.ReadFiles.{IsReading, NamesDamaged};
ghost use Rattle.ml_bounce.specs.Answers.{has_ledger, ledger_kind, key_file, IsBucketOf, IsNoFile, action_key, acts, writes};
ghost use Rattle.ml_bounce.specs.Changes.{after_at};
ghost use Rattle.ml_bounce.specs.Changes as spec;
ghost use Rattle.ml_bounce.specs.Files.{IsLedger, bucket_of};
ghost use Rattle.ml_bounce.specs.Ledger.{Ledger, LedgerEntry as Entry, find_entry, settle};

use crate::buckets::{Bucket, open_bucket, written};
use crate::entry_changes::{copied, put_entry};
use crate::entry_records::Entries;
use crate::ledger_reader::is_blank;
use crate::{Action, LedgerEntry, Stage};
use ml_base::{Address, Files, Numbers, PartError, Set, Txn};
use ml_keyed::{file_without, find};
use std::alloc::{AllocError, Global};

// The address that an action is for.
fn target(action: &Action) -> &Address
    ensures { result.now ≡ action_key action.now }
{
    match action {
        Action::Warn { to, .. } => to,
        Action::Probe { to } => to,
        Action::Lapse { to } => to,
    }
}

// An entry once what is due for it is done.
fn after(alloc: Global, entry: &LedgerEntry, now: u64) -> Result<LedgerEntry, AllocError>
    ensures { IfOk result (λ new. new ≡ after_at now entry.now.stage entry.now) }
{
    let mut new = copied(alloc, entry)?;
    match entry.stage {
        Stage::Unwarned => {
            new.first = 0;
            new.stage = Stage::Warned(now);
            new.missed = Numbers::new(alloc);
        }
        Stage::Warned(_) => new.stage = Stage::Unwarned,
        Stage::WarnFailed(_) => new.stage = Stage::Probed(now),
        Stage::Probed(_) => new.stage = Stage::Unwarned,
    }
    Ok(new)
}

// The puts that give a file this entry, in place of the one with its key, or leave it out if it has nothing to
// remember.
fn settled(
    alloc: Global,
    set: Set,
    entries: &Entries,
    entry: &LedgerEntry,
) -> Result<Txn, AllocError>
    requires { IsTrue (has_ledger set) }
    ensures { IfOk result (λ txn. txn ≡ writes set entry.now.key (settle entry.now entries.now)) }
{
    if !is_blank(entry.stage, entry.missed.as_slice()) {
        return put_entry(alloc, set, entries, entry);
    }
    let file = file_without(alloc, entries.as_slice(), entry.key.bytes())?;
    written(alloc, set, entry.key.bytes(), file)
}

// The puts that do what is due for the key's entry.
fn act_in(alloc: Global, set: Set, bucket: &Bucket, now: u64) -> Result<Txn, AllocError>
    requires { IsTrue (has_ledger set) }
    ensures { IfOk result (λ txn. txn ≡ acts set bucket.now.key now bucket.now.entries) }
{
    let Some(entry) = find(bucket.entries.as_slice(), bucket.key.as_slice()) else {
        return Ok(Txn::new(alloc));
    };
    let new = after(alloc, entry, now)?;
    settled(alloc, set, &bucket.entries, &new)
}

/// Does what is due for the address of an action. By the puts it is warned, and nothing is missed any more; or it is
/// probed; or its stage lapses, and its entry goes if it has nothing to remember. The stage of the entry decides which
/// of these it is. It reads one file. If there is no entry, there are no puts.
///
/// The set is the list or the digest. `now` is in seconds since 1970. The action is one that `due` answers for these
/// files: whether the entry is due isn't checked again.
pub fn act<F: Files>(
    alloc: Global,
    files: &mut F,
    set: Set,
    action: &Action,
    now: u64,
) -> Result<Txn, PartError>
    requires ledger { IsTrue (has_ledger set) }
    requires moment { IsMoment now }
    ensures value { IsTrue F.tells → IfOk result (λ txn. (dir : Dir) (ledger : Ledger) (e : Entry) → dir (key_file set (key (action_key action.now))) ≡ F.map files.old (key_file set (key (action_key action.now))) → IsLedger dir (ledger_kind set) ledger → find_entry (key (action_key action.now)) ledger ≡ Some e → IsLedger (with_puts dir txn) (ledger_kind set) (spec.act now e ledger)) }
    ensures read { IsTrue F.tells → IfOk result (λ txn. (bucket : Ledger) × IsBucketOf (F.map files.old) set (key (action_key action.now)) bucket × (txn ≡ acts set (key (action_key action.now)) now bucket)) }
    ensures others { IfOk result (λ txn. touches_only (λ name. same_name name (key_file set (key (action_key action.now)))) txn ≡ true) }
    ensures files { IfOk result (λ txn. touches_only is_file txn ≡ true) }
    ensures names { NamesDamaged ⟦<F as Files>⟧ (λ name. name ≡ key_file set (key (action_key action.now))) (λ _. IsNoFile (F.map files.old) set (bucket_of (key (action_key action.now)))) result }
    ensures sound { IsTrue F.tells → (ledger : Ledger) → IsLedger (F.map files.old) (ledger_kind set) ledger → IfErr result (λ e. OnDamaged e (λ _. ⊥)) }
    ensures reads { IsReading ⟦<F as Files>⟧ files.old files.new result }
{
    let bucket = open_bucket(alloc, files, set, target(action))?;
    Ok(act_in(alloc, set, &bucket, now)?)
}
