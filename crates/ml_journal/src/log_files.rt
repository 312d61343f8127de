// How the files of a log are laid down.
ghost use Rattle.std.specs.Prelude.{IsTrue, IsErrOf, OnOk};
ghost use Rattle.ml_site.specs.declared.site.SiteError.TheVariants.{Failed as FailedCall};
ghost use Rattle.ml_site.specs.Disk.{IsAtRest};
ghost use Rattle.ml_journal.specs.Calls.{IsClean, Keeps, KeepsDirectory};
ghost use Rattle.ml_journal.specs.Newest.{with_newest};
ghost use Rattle.ml_journal.specs.Rows.{Lays};

use crate::laid_files::settle_files;
use crate::log_changes::{settle_cut, settle_log};
use crate::newest_puts::Newest;
use ml_site::{Site, SiteError};
use std::alloc::Global;

// Lays down the files of a log at rest, and leaves one closed gate.
//
// The files are on the disk before the gate is closed over them: otherwise a crash could leave the gate closed and the files as they
// were, without what was committed. The gate is closed on the disk before the log is cut: otherwise a crash could leave it open before
// half of a record, and the log would be damaged.
pub(crate) fn lay_down<S: Site>(
    alloc: Global,
    site: &mut S,
    newest: &Newest,
) -> Result<(), SiteError>
    requires held { IsTrue S.tells_reads → Lays (S.disk site.old).reads.log (with_newest newest.now.puts) }
    requires rest { IsTrue S.tells_all → IsAtRest (S.disk site.old) }
    ensures clean { OnOk result (IsClean ⟦<S as Site>⟧ site.new) }
    ensures directory { KeepsDirectory ⟦<S as Site>⟧ site.old site.new }
    ensures keeps { Keeps ⟦<S as Site>⟧ 3 (IsErrOf result FailedCall) site.old site.new }
{
    settle_files(alloc, site, newest)?;
    settle_log(alloc, site, 0, &[0])?;
    settle_cut(site, 1)?;
    Ok(())
}
