// Checks whether the files of both ledgers are in their grammar.
ghost use Rattle.std.specs.Prelude.{◌≡◌, ◌<◌, true, List, ℕ, IsTrue, IfErr, OnOk};
ghost use Rattle.ml_base.specs.PartErrors.{OnDamaged};
ghost use Rattle.ml_base.specs.ReadFiles.{IsReading, NamesDamaged};
ghost use Rattle.ml_base.specs.declared.names.Set.{Set as TheSet};
ghost use Rattle.ml_bounce.specs.Answers.{has_ledger, ledger_kind, IsFileName, IsBadFile, AreFiles};
ghost use Rattle.ml_bounce.specs.Files.{IsLedger};
ghost use Rattle.ml_bounce.specs.Ledger.{Ledger};

use crate::buckets::read_bucket;
use ml_base::{Files, PartError, Set};
use std::alloc::Global;

// Whether the files of a set's ledger are in their grammar.
fn audit_set<F: Files>(alloc: Global, files: &mut F, set: Set) -> Result<(), PartError>
    requires { IsTrue (has_ledger set) }
    ensures value { IsTrue F.tells → OnOk result ((ledger : Ledger) × IsLedger (F.map files.old) (ledger_kind set) ledger) }
    ensures names { NamesDamaged ⟦<F as Files>⟧ (IsFileName set) (IsBadFile (F.map files.old) set) result }
    ensures reads { IsReading ⟦<F as Files>⟧ files.old files.new result }
{
    for n in 0..53 {
        let _entries = read_bucket(alloc, files, set, n)?;
    }
    Ok(())
}

/// Whether the files of both ledgers stand for ledgers, that is, are all in their grammar. It reads all files of the
/// two ledgers, in their order, and names the first that isn't.
pub fn audit<F: Files>(alloc: Global, files: &mut F) -> Result<(), PartError>
    ensures ok { IsTrue F.tells → OnOk result ((set : TheSet) → IsTrue (has_ledger set) → (ledger : Ledger) × IsLedger (F.map files.old) (ledger_kind set) ledger) }
    ensures names { NamesDamaged ⟦<F as Files>⟧ (λ name. (set : TheSet) × IsTrue (has_ledger set) × IsFileName set name) (λ name. (set : TheSet) × IsTrue (has_ledger set) × IsBadFile (F.map files.old) set name) result }
    ensures sound { IsTrue F.tells → ((set : TheSet) → IsTrue (has_ledger set) → (ledger : Ledger) × IsLedger (F.map files.old) (ledger_kind set) ledger) → IfErr result (λ e. OnDamaged e (λ _. ⊥)) }
    ensures reads { IsReading ⟦<F as Files>⟧ files.old files.new result }
{
    audit_set(alloc, files, Set::List)?;
    audit_set(alloc, files, Set::Digest)
}
