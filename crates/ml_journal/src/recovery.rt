// How a site at rest is opened: its open records are laid down, and one closed gate is left.
ghost use Rattle.std.specs.Prelude.{◌≡◌, ◌≤◌, IsTrue, IsErrOf, OnOk, Some, None, length};
ghost use Rattle.ml_base.specs.Dir.{Dir};
ghost use Rattle.ml_site.specs.declared.site.SiteError.TheVariants.{Failed as FailedCall};
ghost use Rattle.ml_site.specs.Disk.{IsAtRest};
ghost use Rattle.ml_journal.specs.declared.errors.OpenError.TheVariants.{Fault as OpenFault, Damaged as OpenDamaged};
ghost use Rattle.ml_journal.specs.Log.{log_puts, laid_over, directory};
ghost use Rattle.ml_journal.specs.Calls.{IsClean, Keeps, KeepsDirectory};
ghost use Rattle.ml_journal.specs.Newest.{with_newest};
ghost use Rattle.ml_journal.specs.Rows.{IsShut};

use crate::OpenError;
use crate::log_changes::{settle_cut, settle_log};
use crate::log_files::lay_down;
use crate::log_reader::read_log;
use crate::newest_puts::Newest;
use ml_site::{Site, SiteError};
use std::alloc::Global;

// Writes the only gate of a log that has at most one byte.
fn one_gate<S: Site>(alloc: Global, site: &mut S) -> Result<(), SiteError>
    requires short { IsTrue S.tells_reads → length (S.disk site.old).reads.log ≤ 1 }
    requires rest { IsTrue S.tells_all → IsAtRest (S.disk site.old) }
    ensures clean { OnOk result (IsClean ⟦<S as Site>⟧ site.new) }
    ensures directory { KeepsDirectory ⟦<S as Site>⟧ site.old site.new }
    ensures keeps { Keeps ⟦<S as Site>⟧ 1 (IsErrOf result FailedCall) site.old site.new }
{
    settle_log(alloc, site, 0, &[0])
}

// Leaves one closed gate of a log of this length, whose first gate is closed or last.
fn leave_closed_gate<S: Site>(alloc: Global, site: &mut S, len: usize) -> Result<(), SiteError>
    requires size { IsTrue S.tells_reads → len ≡ length (S.disk site.old).reads.log }
    requires shut { IsTrue S.tells_reads → IsShut (S.disk site.old).reads.log }
    requires rest { IsTrue S.tells_all → IsAtRest (S.disk site.old) }
    ensures clean { OnOk result (IsClean ⟦<S as Site>⟧ site.new) }
    ensures directory { KeepsDirectory ⟦<S as Site>⟧ site.old site.new }
    ensures keeps { Keeps ⟦<S as Site>⟧ 2 (IsErrOf result FailedCall) site.old site.new }
{
    if len <= 1 {
        return one_gate(alloc, site);
    }
    // The cut is on the disk before the gate is written anew: otherwise a crash could leave an open gate before what followed the closed
    // one, which would then count or be damage.
    settle_cut(site, 1)?;
    one_gate(alloc, site)
}

// Lays down open records, and leaves a log of one closed gate.
fn recover<S: Site>(
    alloc: Global,
    site: &mut S,
    log: &[u8],
    newest: &Newest,
) -> Result<(), SiteError>
    requires read { IsTrue S.tells_reads → log.now ≡ (S.disk site.old).reads.log }
    requires counts { (files : Dir) → laid_over files (log_puts log.now) ≡ Some (with_newest newest.now.puts files) }
    requires rest { IsTrue S.tells_all → IsAtRest (S.disk site.old) }
    ensures clean { OnOk result (IsClean ⟦<S as Site>⟧ site.new) }
    ensures directory { KeepsDirectory ⟦<S as Site>⟧ site.old site.new }
    ensures keeps { Keeps ⟦<S as Site>⟧ 3 (IsErrOf result FailedCall) site.old site.new }
{
    if log.len() >= 2 && log[0] == 1 {
        return lay_down(alloc, site, newest);
    }
    if log.len() == 1 && log[0] == 0 {
        return Ok(());
    }
    leave_closed_gate(alloc, site, log.len())
}

// Reads the log of a site at rest, lays down its open records, and leaves a log of one closed gate.
pub(crate) fn open_at_rest<S: Site>(alloc: Global, site: &mut S) -> Result<(), OpenError>
    requires rest { IsTrue S.tells_all → IsAtRest (S.disk site.old) }
    ensures damaged { IsTrue S.tells_reads → IsErrOf result OpenDamaged → directory (S.disk site.old).reads ≡ None }
    ensures whole { IsTrue S.tells_reads → directory (S.disk site.old).reads ≡ None → OnOk result ⊥ }
    ensures untouched { IsTrue S.tells_reads → directory (S.disk site.old).reads ≡ None → (S.disk site.new).reads ≡ (S.disk site.old).reads }
    ensures rest { IsTrue S.tells_all → IsErrOf result OpenDamaged → IsAtRest (S.disk site.new) }
    ensures clean { OnOk result (IsClean ⟦<S as Site>⟧ site.new) }
    ensures directory { KeepsDirectory ⟦<S as Site>⟧ site.old site.new }
    ensures keeps { Keeps ⟦<S as Site>⟧ 3 (IsErrOf result OpenFault) site.old site.new }
{
    let log = site.read_log(alloc)?;
    let Some(newest) = read_log(alloc, log.as_slice())? else {
        return Err(OpenError::Damaged);
    };
    recover(alloc, site, log.as_slice(), &newest)?;
    Ok(())
}
