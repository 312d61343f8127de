// How files are laid down: they are written and removed as the newest puts say.
ghost use Rattle.std.specs.Prelude.{IsTrue, IsErrOf, OnOk};
ghost use Rattle.ml_base.specs.Faults.{Rose};
ghost use Rattle.ml_base.specs.Name.{is_file};
ghost use Rattle.ml_site.specs.declared.site.SiteError.TheVariants.{Failed as FailedCall};
ghost use Rattle.ml_site.specs.Clauses.{ChangesPart, OnDisk, SameNumbers};
ghost use Rattle.ml_site.specs.Disk.{File, IsAtRest, file_with};
ghost use Rattle.ml_journal.specs.Calls.{Keeps};
ghost use Rattle.ml_journal.specs.Laying.{LaysFiles, IsOver};

use crate::newest_puts::Newest;
use ml_base::{Bytes, Name};
use ml_site::{Site, SiteError};
use std::alloc::Global;

// Writes or removes one file.
fn lay_one<S: Site>(
    alloc: Global,
    site: &mut S,
    name: Name,
    bytes: &Option<Bytes>,
) -> Result<(), SiteError>
    requires { IsTrue (is_file name) }
    ensures change { ChangesPart S.tells_reads S.tells_all S.disk result (File name)
        (file_with (S.disk site.old).reads name bytes.now) site.old site.new }
    ensures keeps { OnDisk S.tells_all S.disk S.output S.instant S.left_since S.disk_faults S.output_faults S.disk_calls site.old site.new }
    ensures numbers { SameNumbers S.tells_all S.syncs S.log_bytes site.old site.new }
    ensures cause { IsErrOf result FailedCall → Rose (S.disk_faults site.old) (S.disk_faults site.new) }
{
    match bytes {
        Some(bytes) => site.write_file(alloc, name, bytes.as_slice()),
        None => site.remove_file(alloc, name),
    }
}

// Writes and removes the files that the newest puts name, in their order.
fn lay_files<S: Site>(alloc: Global, site: &mut S, newest: &Newest) -> Result<(), SiteError>
    requires rest { IsTrue S.tells_all → IsAtRest (S.disk site.old) }
    ensures laid { LaysFiles ⟦<S as Site>⟧ result newest.now.puts site.old site.new }
    ensures images { IsTrue S.tells_all → IsOver newest.now.puts (S.disk site.old).reads (S.disk site.new) }
    ensures keeps { Keeps ⟦<S as Site>⟧ 0 (IsErrOf result FailedCall) site.old site.new }
{
    for (name, bytes) in newest.puts.iter() {
        lay_one(alloc, site, *name, bytes)?;
    }
    Ok(())
}

// Writes and removes the files that the newest puts name, and syncs.
pub(crate) fn settle_files<S: Site>(
    alloc: Global,
    site: &mut S,
    newest: &Newest,
) -> Result<(), SiteError>
    requires rest { IsTrue S.tells_all → IsAtRest (S.disk site.old) }
    ensures laid { LaysFiles ⟦<S as Site>⟧ result newest.now.puts site.old site.new }
    ensures rest { IsTrue S.tells_all → OnOk result (IsAtRest (S.disk site.new)) }
    ensures keeps { Keeps ⟦<S as Site>⟧ 1 (IsErrOf result FailedCall) site.old site.new }
{
    lay_files(alloc, site, newest)?;
    site.sync()?;
    Ok(())
}
