// How a record is added to a log: it is written after the last gate, which stays closed, and then that gate is opened.
ghost use Rattle.std.specs.Prelude.{◌≡◌, ◌<◌, ◌+◌, ◌^◌, IsTrue, IsErrOf, OnOk, length};
ghost use Rattle.ml_base.specs.Dir.{are_files};
ghost use Rattle.ml_site.specs.declared.site.SiteError.TheVariants.{Failed as FailedCall};
ghost use Rattle.ml_site.specs.Disk.{IsAtRest};
ghost use Rattle.ml_journal.specs.Log.{directory};
ghost use Rattle.ml_journal.specs.Calls.{ChangesDirectory, Keeps};
ghost use Rattle.ml_journal.specs.Instants.{with_txn};
ghost use Rattle.ml_journal.specs.Newest.{with_newest};
ghost use Rattle.ml_journal.specs.Records.{spelled_puts, spelled_record};
ghost use Rattle.ml_journal.specs.Rows.{Rests};

use crate::log_changes::{settle_log, settle_record};
use crate::newest_puts::Newest;
use ml_base::Txn;
use ml_site::{Site, SiteError};
use std::alloc::Global;

// Adds to a log at rest the record of a txn, whose puts take so many bytes, followed by a closed gate. The puts join the newest ones.
//
// The record is on the disk, following its closed gate, before that gate is opened: with both in one sync, a crash could leave it open
// before half of a record, and the log would be damaged. The puts are moved between the two steps, when lack of memory still leaves the
// directory as it was.
pub(crate) fn append<S: Site>(
    alloc: Global,
    site: &mut S,
    end: u64,
    newest: &mut Newest,
    txn: Txn,
    size: usize,
) -> Result<(), SiteError>
    requires low { end < 2 ^ 62 }
    requires size { size ≡ length (spelled_puts txn) }
    requires small { size < 10 ^ 18 }
    requires files { IsTrue (are_files txn) }
    requires held { IsTrue S.tells_reads → Rests (S.disk site.old).reads.log end (with_newest newest.old.puts) }
    requires rest { IsTrue S.tells_all → IsAtRest (S.disk site.old) }
    ensures held { IsTrue S.tells_reads → OnOk result
        (Rests (S.disk site.new).reads.log (end + length (spelled_record txn) + 1) (with_newest newest.new.puts)) }
    ensures done { IsTrue S.tells_reads → OnOk result
        (directory (S.disk site.new).reads ≡ with_txn txn (directory (S.disk site.old).reads)) }
    ensures rest { IsTrue S.tells_all → OnOk result (IsAtRest (S.disk site.new)) }
    ensures directory { ChangesDirectory ⟦<S as Site>⟧ txn site.old site.new }
    ensures log_bytes { IsTrue S.tells_all → OnOk result
        (S.log_bytes site.new ≡ S.log_bytes site.old + length (spelled_record txn) + 2) }
    ensures keeps { Keeps ⟦<S as Site>⟧ 2 (IsErrOf result FailedCall) site.old site.new }
{
    settle_record(alloc, site, end + 1, txn.as_slice(), size)?;
    newest.set_all(txn)?;
    settle_log(alloc, site, end, &[1])
}
