// The calls when something bounces: mail to an address, its warning or its probe.
ghost use Rattle.std.specs.Prelude.{◌≡◌, ◌≤◌, true, ℕ, List, IsTrue, IfOk, IfErr, is_some};
ghost use Rattle.std.specs.Option.{option_map};
ghost use Rattle.ml_base.specs.Address.{key, IsAddress};
ghost use Rattle.ml_base.specs.Dir.{Dir, same_name, touches_only};
ghost use Rattle.ml_base.specs.Name.{is_file};
ghost use Rattle.ml_base.specs.PartErrors.{OnDamaged};
ghost use Rattle.ml_base.specs.Ranges.{IsMoment};
ghost use Rattle.ml_base.specs.ReadFiles.{IsReading, NamesDamaged};
ghost use Rattle.ml_bounce.specs.Answers.{has_ledger, ledger_kind, key_file, IsBucketOf, IsInRange, IsNoFile, LeadsTo, bounced, puts_of, writes};
ghost use Rattle.ml_bounce.specs.Changes as spec;
ghost use Rattle.ml_bounce.specs.Files.{IsLedger, bucket_of};
ghost use Rattle.ml_bounce.specs.Ledger.{Ledger};

use crate::buckets::{Bucket, open_bucket};
use crate::entry_changes::{is_probed_in, note_in, probe_failed_in, warn_failed_in};
use ml_base::{Address, Files, PartError, Set, Txn};
use std::alloc::{AllocError, Global};

// What bounced: mail of a number, the warning of a moment `t`, or the probe of one. `now` is when it bounced.
#[derive(Clone, Copy)]
enum Bounce {
    Mail { number: u64, now: u64 },
    Warning { t: u64, now: u64 },
    Probe { t: u64 },
}

// The puts for the file of an address when something bounced.
fn answer_in(
    alloc: Global,
    set: Set,
    bucket: &Bucket,
    bounce: Bounce,
) -> Result<Option<Txn>, AllocError>
    requires ledger { IsTrue (has_ledger set) }
    requires address { IsAddress bucket.now.key }
    ensures { IfOk result (λ answer. answer ≡ option_map (writes set bucket.now.key) (bounced bounce bucket.now.key bucket.now.entries)) }
{
    match bounce {
        Bounce::Mail { number, now } => note_in(alloc, set, bucket, number, now),
        Bounce::Warning { t, now } => warn_failed_in(alloc, set, bucket, t, now),
        Bounce::Probe { t } => probe_failed_in(alloc, set, bucket, t),
    }
}

// Something bounced: the puts, or None if it changes nothing. It reads one file.
fn answer<F: Files>(
    alloc: Global,
    files: &mut F,
    set: Set,
    who: &Address,
    bounce: Bounce,
) -> Result<Option<Txn>, PartError>
    requires ledger { IsTrue (has_ledger set) }
    requires range { IsInRange bounce }
    ensures value { IsTrue F.tells → IfOk result (λ answer. (dir : Dir) (ledger : Ledger) → dir (key_file set (key who.now)) ≡ F.map files.old (key_file set (key who.now)) → IsLedger dir (ledger_kind set) ledger → LeadsTo dir set answer (bounced bounce (key who.now) ledger)) }
    ensures read { IsTrue F.tells → IfOk result (λ answer. (bucket : Ledger) × IsBucketOf (F.map files.old) set (key who.now) bucket × (answer ≡ option_map (writes set (key who.now)) (bounced bounce (key who.now) bucket))) }
    ensures others { IfOk result (λ answer. touches_only (λ name. same_name name (key_file set (key who.now))) (puts_of answer) ≡ true) }
    ensures files { IfOk result (λ answer. touches_only is_file (puts_of answer) ≡ true) }
    ensures names { NamesDamaged ⟦<F as Files>⟧ (λ name. name ≡ key_file set (key who.now)) (λ _. IsNoFile (F.map files.old) set (bucket_of (key who.now))) result }
    ensures sound { IsTrue F.tells → (ledger : Ledger) → IsLedger (F.map files.old) (ledger_kind set) ledger → IfErr result (λ e. OnDamaged e (λ _. ⊥)) }
    ensures reads { IsReading ⟦<F as Files>⟧ files.old files.new result }
{
    let bucket = open_bucket(alloc, files, set, who)?;
    Ok(answer_in(alloc, set, &bucket, bounce)?)
}

/// Mail of a number to an address, in any case of letters, bounced. The puts add the number to the end of those that
/// the address missed. None if it is among them already, or they are 100. It reads one file.
///
/// The set is the list or the digest; the number is that of a post or of a digest. `now` is in seconds since 1970.
pub fn note<F: Files>(
    alloc: Global,
    files: &mut F,
    set: Set,
    who: &Address,
    number: u64,
    now: u64,
) -> Result<Option<Txn>, PartError>
    requires ledger { IsTrue (has_ledger set) }
    requires number { number ≤ 99_999_999 }
    requires moment { IsMoment now }
    ensures value { IsTrue F.tells → IfOk result (λ answer. (dir : Dir) (ledger : Ledger) → dir (key_file set (key who.now)) ≡ F.map files.old (key_file set (key who.now)) → IsLedger dir (ledger_kind set) ledger → LeadsTo dir set answer (spec.note (key who.now) number now ledger)) }
    ensures read { IsTrue F.tells → IfOk result (λ answer. (bucket : Ledger) × IsBucketOf (F.map files.old) set (key who.now) bucket × (answer ≡ option_map (writes set (key who.now)) (spec.note (key who.now) number now bucket))) }
    ensures others { IfOk result (λ answer. touches_only (λ name. same_name name (key_file set (key who.now))) (puts_of answer) ≡ true) }
    ensures files { IfOk result (λ answer. touches_only is_file (puts_of answer) ≡ true) }
    ensures names { NamesDamaged ⟦<F as Files>⟧ (λ name. name ≡ key_file set (key who.now)) (λ _. IsNoFile (F.map files.old) set (bucket_of (key who.now))) result }
    ensures sound { IsTrue F.tells → (ledger : Ledger) → IsLedger (F.map files.old) (ledger_kind set) ledger → IfErr result (λ e. OnDamaged e (λ _. ⊥)) }
    ensures reads { IsReading ⟦<F as Files>⟧ files.old files.new result }
{
    answer(alloc, files, set, who, Bounce::Mail { number, now })
}

/// The warning that an address got at the moment `t` bounced. The puts make that its stage, as of now. None if it
/// wasn't warned at that very moment. It reads one file.
///
/// The set is the list or the digest. `now` is in seconds since 1970.
pub fn warn_failed<F: Files>(
    alloc: Global,
    files: &mut F,
    set: Set,
    who: &Address,
    t: u64,
    now: u64,
) -> Result<Option<Txn>, PartError>
    requires ledger { IsTrue (has_ledger set) }
    requires moment { IsMoment now }
    ensures value { IsTrue F.tells → IfOk result (λ answer. (dir : Dir) (ledger : Ledger) → dir (key_file set (key who.now)) ≡ F.map files.old (key_file set (key who.now)) → IsLedger dir (ledger_kind set) ledger → LeadsTo dir set answer (spec.warn_failed (key who.now) t now ledger)) }
    ensures read { IsTrue F.tells → IfOk result (λ answer. (bucket : Ledger) × IsBucketOf (F.map files.old) set (key who.now) bucket × (answer ≡ option_map (writes set (key who.now)) (spec.warn_failed (key who.now) t now bucket))) }
    ensures others { IfOk result (λ answer. touches_only (λ name. same_name name (key_file set (key who.now))) (puts_of answer) ≡ true) }
    ensures files { IfOk result (λ answer. touches_only is_file (puts_of answer) ≡ true) }
    ensures names { NamesDamaged ⟦<F as Files>⟧ (λ name. name ≡ key_file set (key who.now)) (λ _. IsNoFile (F.map files.old) set (bucket_of (key who.now))) result }
    ensures sound { IsTrue F.tells → (ledger : Ledger) → IsLedger (F.map files.old) (ledger_kind set) ledger → IfErr result (λ e. OnDamaged e (λ _. ⊥)) }
    ensures reads { IsReading ⟦<F as Files>⟧ files.old files.new result }
{
    answer(alloc, files, set, who, Bounce::Warning { t, now })
}

/// The probe that an address got at the moment `t` bounced. The puts take its entry out. None if it wasn't probed at
/// that very moment. It reads one file.
///
/// The set is the list or the digest.
pub fn probe_failed<F: Files>(
    alloc: Global,
    files: &mut F,
    set: Set,
    who: &Address,
    t: u64,
) -> Result<Option<Txn>, PartError>
    requires { IsTrue (has_ledger set) }
    ensures value { IsTrue F.tells → IfOk result (λ answer. (dir : Dir) (ledger : Ledger) → dir (key_file set (key who.now)) ≡ F.map files.old (key_file set (key who.now)) → IsLedger dir (ledger_kind set) ledger → LeadsTo dir set answer (spec.probe_failed (key who.now) t ledger)) }
    ensures read { IsTrue F.tells → IfOk result (λ answer. (bucket : Ledger) × IsBucketOf (F.map files.old) set (key who.now) bucket × (answer ≡ option_map (writes set (key who.now)) (spec.probe_failed (key who.now) t bucket))) }
    ensures others { IfOk result (λ answer. touches_only (λ name. same_name name (key_file set (key who.now))) (puts_of answer) ≡ true) }
    ensures files { IfOk result (λ answer. touches_only is_file (puts_of answer) ≡ true) }
    ensures names { NamesDamaged ⟦<F as Files>⟧ (λ name. name ≡ key_file set (key who.now)) (λ _. IsNoFile (F.map files.old) set (bucket_of (key who.now))) result }
    ensures sound { IsTrue F.tells → (ledger : Ledger) → IsLedger (F.map files.old) (ledger_kind set) ledger → IfErr result (λ e. OnDamaged e (λ _. ⊥)) }
    ensures reads { IsReading ⟦<F as Files>⟧ files.old files.new result }
{
    answer(alloc, files, set, who, Bounce::Probe { t })
}

/// Whether the probe that an address got at the moment `t` takes its entry out if it bounces, that is, whether the
/// address was probed at that very moment. There are no puts. It reads one file.
///
/// The set is the list or the digest.
pub fn is_probed_at<F: Files>(
    alloc: Global,
    files: &mut F,
    set: Set,
    who: &Address,
    t: u64,
) -> Result<bool, PartError>
    requires { IsTrue (has_ledger set) }
    ensures value { IsTrue F.tells → IfOk result (λ is. (dir : Dir) (ledger : Ledger) → dir (key_file set (key who.now)) ≡ F.map files.old (key_file set (key who.now)) → IsLedger dir (ledger_kind set) ledger → is ≡ is_some (spec.probe_failed (key who.now) t ledger)) }
    ensures read { IsTrue F.tells → IfOk result (λ is. (bucket : Ledger) × IsBucketOf (F.map files.old) set (key who.now) bucket × (is ≡ is_some (spec.probe_failed (key who.now) t bucket))) }
    ensures names { NamesDamaged ⟦<F as Files>⟧ (λ name. name ≡ key_file set (key who.now)) (λ _. IsNoFile (F.map files.old) set (bucket_of (key who.now))) result }
    ensures sound { IsTrue F.tells → (ledger : Ledger) → IsLedger (F.map files.old) (ledger_kind set) ledger → IfErr result (λ e. OnDamaged e (λ _. ⊥)) }
    ensures reads { IsReading ⟦<F as Files>⟧ files.old files.new result }
{
    let bucket = open_bucket(alloc, files, set, who)?;
    Ok(is_probed_in(&bucket, t))
}
