// Finds what is due in a ledger.
ghost use Rattle.std.specs.Prelude.{◌≡◌, ◌<◌, ◌≤◌, ◌++◌, true, map, take, List, ℕ, IsTrue, IfOk, IfErr, OnOk};
ghost use Rattle.std.specs.List.{filter};
ghost use Rattle.std.specs.List.Sorted.{IsPermutation, IsSortedByKey};
ghost use Rattle.ml_base.specs.PartErrors.{OnDamaged};
ghost use Rattle.ml_base.specs.ReadFiles.{IsReading, NamesDamaged};
ghost use Rattle.ml_base.specs.Sorted.{byte_cmp};
ghost use Rattle.ml_keyed.specs.Buckets.{gathered};
ghost use Rattle.ml_bounce.specs.Answers.{has_ledger, ledger_kind, IsFileName, IsBadFile, first_due, AreFiles};
ghost use Rattle.ml_bounce.specs.Changes as spec;
ghost use Rattle.ml_bounce.specs.Files.{IsLedger};
ghost use Rattle.ml_bounce.specs.Ledger.{Ledger};

use crate::buckets::read_bucket;
use crate::entry_records::Entries;
use crate::{Action, Actions, LedgerEntry, Stage};
use ml_base::{Files, PartError, Row, Set, age};
use std::alloc::{AllocError, Global};
use std::cmp::Ordering;

// How old a moment has to be before something is due, in seconds.
const OLD: u64 = 1_000_000;

fn is_old(now: u64, t: u64) -> bool
    ensures { result ≡ spec.is_old now t }
{
    age(now, t) >= OLD
}

// Whether something is due for an entry.
fn is_due(now: u64, entry: &LedgerEntry) -> bool
    ensures { result ≡ spec.is_due now entry.now }
{
    match entry.stage {
        Stage::Unwarned => !entry.missed.as_slice().is_empty() && is_old(now, entry.first),
        Stage::Warned(t) => is_old(now, t),
        Stage::WarnFailed(t) => is_old(now, t),
        Stage::Probed(t) => is_old(now, t),
    }
}

// Adds those of some entries that are due.
fn push_due(out: &mut Entries, entries: Entries, now: u64) -> Result<(), AllocError>
    ensures { OnOk result (out.new ≡ out.old ++ filter (spec.is_due now) entries) }
{
    let items = entries.into_vec();
    for entry in items {
        if is_due(now, &entry) {
            out.push(entry)?;
        }
    }
    Ok(())
}

// The due entries of a set's ledger, file after file.
fn read_due<F: Files>(
    alloc: Global,
    files: &mut F,
    set: Set,
    now: u64,
) -> Result<Entries, PartError>
    requires { IsTrue (has_ledger set) }
    ensures value { IsTrue F.tells → IfOk result (λ due. (buckets : ℕ → Ledger) × AreFiles (F.map files.old) set 53 buckets × (due ≡ gathered (λ n. filter (spec.is_due now) (buckets n)) 53)) }
    ensures names { NamesDamaged ⟦<F as Files>⟧ (IsFileName set) (IsBadFile (F.map files.old) set) result }
    ensures reads { IsReading ⟦<F as Files>⟧ files.old files.new result }
{
    let mut found = Entries::new(alloc);
    for n in 0..53 {
        let entries = read_bucket(alloc, files, set, n)?;
        push_due(&mut found, entries, now)?;
    }
    Ok(found)
}

// The order of the keys of two entries.
fn compare(a: &LedgerEntry, b: &LedgerEntry) -> Ordering
    ensures { result ≡ byte_cmp a.now.key b.now.key }
{
    a.key.bytes().cmp(b.key.bytes())
}

// The entries in order of key. Those of one file are in order already, and the sort merges such rows.
fn in_order(entries: Entries) -> Result<Entries, AllocError>
    ensures permutation { IfOk result (IsPermutation entries) }
    ensures sorted { IfOk result (IsSortedByKey (λ e. e.key) byte_cmp) }
{
    let mut items = entries.into_vec();
    items.sort_by(|a, b| compare(a, b))?;
    Ok(Row::from_vec(items))
}

// What is to be done about a due entry.
fn action_of(entry: LedgerEntry) -> Action
    ensures { result ≡ spec.action_of entry }
{
    match entry.stage {
        Stage::Unwarned => Action::Warn {
            to: entry.key,
            missed: entry.missed,
        },
        Stage::Warned(_) => Action::Lapse { to: entry.key },
        Stage::WarnFailed(_) => Action::Probe { to: entry.key },
        Stage::Probed(_) => Action::Lapse { to: entry.key },
    }
}

// What is to be done about the first due entries, at most `max` of them.
fn actions_of(alloc: Global, entries: Entries, max: u64) -> Result<Actions, AllocError>
    ensures { IfOk result (λ actions. actions ≡ map spec.action_of (take max entries)) }
{
    let mut items = entries.into_vec();
    items.truncate(max as usize);
    let mut actions = Vec::with_capacity(alloc, items.len())?;
    for entry in items {
        actions.push(action_of(entry))?;
    }
    Ok(Row::from_vec(actions))
}

/// What is due in a set's ledger: an action for each of its first `max` due entries, in ascending order of key. It
/// reads the ledger's 53 files.
///
/// The set is the list or the digest. `now` is in seconds since 1970. A moment later than `now` has age 0.
pub fn due<F: Files>(
    alloc: Global,
    files: &mut F,
    set: Set,
    now: u64,
    max: u64,
) -> Result<Actions, PartError>
    requires { IsTrue (has_ledger set) }
    ensures value { IsTrue F.tells → IfOk result (λ actions. (ledger : Ledger) → IsLedger (F.map files.old) (ledger_kind set) ledger → actions ≡ first_due now max ledger) }
    ensures read { IsTrue F.tells → IfOk result (λ actions. (ledger : Ledger) × IsLedger (F.map files.old) (ledger_kind set) ledger × (actions ≡ first_due now max ledger)) }
    ensures names { NamesDamaged ⟦<F as Files>⟧ (IsFileName set) (IsBadFile (F.map files.old) set) result }
    ensures sound { IsTrue F.tells → (ledger : Ledger) → IsLedger (F.map files.old) (ledger_kind set) ledger → IfErr result (λ e. OnDamaged e (λ _. ⊥)) }
    ensures reads { IsReading ⟦<F as Files>⟧ files.old files.new result }
{
    let found = read_due(alloc, files, set, now)?;
    let sorted = in_order(found)?;
    Ok(actions_of(alloc, sorted, max)?)
}
