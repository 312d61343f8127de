// How a txn is added to a log at rest, and how a log that has become long is laid down.
ghost use Rattle.std.specs.Prelude.{◌≡◌, ◌≤◌, ◌<◌, ◌+◌, ◌^◌, IsTrue, IsErrOf, IfOk, IfErr, OnOk, length};
ghost use Rattle.ml_base.specs.Dir.{are_files};
ghost use Rattle.ml_site.specs.declared.site.SiteError.TheVariants.{Failed as FailedCall};
ghost use Rattle.ml_site.specs.Disk.{IsAtRest};
ghost use Rattle.ml_journal.specs.Log.{directory};
ghost use Rattle.ml_journal.specs.Calls.{ChangesDirectory, Keeps, KeepsDirectory};
ghost use Rattle.ml_journal.specs.Instants.{with_txn};
ghost use Rattle.ml_journal.specs.Newest.{with_newest};
ghost use Rattle.ml_journal.specs.Records.{content_size, spelled_record};
ghost use Rattle.ml_journal.specs.Rows.{Rests};
ghost use Rattle.ml_journal.specs.Spending.{Spends, SpendsAtMost};

use crate::appended_record::append;
use crate::log_files::lay_down;
use crate::newest_puts::Newest;
use crate::record_writer::{digits_size, puts_size};
use ml_base::Txn;
use ml_site::{Site, SiteError};
use std::alloc::Global;

/// A commit that leaves the log longer than so many bytes also lays it down.
pub const LAY: u64 = 8_388_608;

// Adds the record of a txn to a log at rest, and answers where the log's last gate then is.
fn add<S: Site>(
    alloc: Global,
    site: &mut S,
    end: u64,
    newest: &mut Newest,
    txn: Txn,
) -> Result<u64, SiteError>
    requires size { end < 2 ^ 62 }
    requires files { IsTrue (are_files txn) }
    requires held { IsTrue S.tells_reads → Rests (S.disk site.old).reads.log end (with_newest newest.old.puts) }
    requires rest { IsTrue S.tells_all → IsAtRest (S.disk site.old) }
    ensures held { IsTrue S.tells_reads → IfOk result (λ at. Rests (S.disk site.new).reads.log at (with_newest newest.new.puts)) }
    ensures at { IfOk result (λ at. at ≡ end + length (spelled_record txn) + 1) }
    ensures done { IsTrue S.tells_reads → OnOk result
        (directory (S.disk site.new).reads ≡ with_txn txn (directory (S.disk site.old).reads)) }
    ensures rest { IsTrue S.tells_all → OnOk result (IsAtRest (S.disk site.new)) }
    ensures directory { ChangesDirectory ⟦<S as Site>⟧ txn site.old site.new }
    ensures log_bytes { IsTrue S.tells_all → OnOk result
        (S.log_bytes site.new ≡ S.log_bytes site.old + length (spelled_record txn) + 2) }
    ensures keeps { Keeps ⟦<S as Site>⟧ 2 (IsErrOf result FailedCall) site.old site.new }
{
    let Some(size) = puts_size(txn.as_slice()) else {
        return Err(SiteError::Memory);
    };
    append(alloc, site, end, newest, txn, size)?;
    Ok(end + (digits_size(size as u64) + size + 3) as u64)
}

// Lays the files down if the log is long, and answers where the log's last gate then is.
fn shorten<S: Site>(
    alloc: Global,
    site: &mut S,
    end: u64,
    newest: &mut Newest,
) -> Result<u64, SiteError>
    requires held { IsTrue S.tells_reads → Rests (S.disk site.old).reads.log end (with_newest newest.old.puts) }
    requires rest { IsTrue S.tells_all → IsAtRest (S.disk site.old) }
    ensures small { IfOk result (λ at. at < 8_388_608) }
    ensures stays { end < 8_388_608 → IfOk result (λ at. at ≡ end) }
    ensures short { 8_388_608 ≤ end → IfOk result (λ at. at ≡ 0) }
    ensures held { IsTrue S.tells_reads → IfOk result (λ at. Rests (S.disk site.new).reads.log at (with_newest newest.new.puts)) }
    ensures few { IsTrue S.tells_all → end < 8_388_608 → S.syncs site.new ≡ S.syncs site.old }
    ensures rest { IsTrue S.tells_all → OnOk result (IsAtRest (S.disk site.new)) }
    ensures directory { KeepsDirectory ⟦<S as Site>⟧ site.old site.new }
    ensures keeps { Keeps ⟦<S as Site>⟧ 3 (IsErrOf result FailedCall) site.old site.new }
{
    if end < LAY {
        return Ok(end);
    }
    lay_down(alloc, site, newest)?;
    *newest = Newest::new(alloc);
    Ok(0)
}

// Adds the record of a txn, and lays the files down if the log is long then. It answers where the last gate is.
pub(crate) fn add_and_shorten<S: Site>(
    alloc: Global,
    site: &mut S,
    end: u64,
    newest: &mut Newest,
    txn: Txn,
) -> Result<u64, SiteError>
    requires size { end < 2 ^ 62 }
    requires files { IsTrue (are_files txn) }
    requires held { IsTrue S.tells_reads → Rests (S.disk site.old).reads.log end (with_newest newest.old.puts) }
    requires rest { IsTrue S.tells_all → IsAtRest (S.disk site.old) }
    ensures small { IfOk result (λ at. at < 8_388_608) }
    ensures short { 8_388_608 ≤ end + length (spelled_record txn) + 1 → IfOk result (λ at. at ≡ 0) }
    ensures held { IsTrue S.tells_reads → IfOk result (λ at. Rests (S.disk site.new).reads.log at (with_newest newest.new.puts)) }
    ensures done { IsTrue S.tells_reads → OnOk result
        (directory (S.disk site.new).reads ≡ with_txn txn (directory (S.disk site.old).reads)) }
    ensures rest { IsTrue S.tells_all → OnOk result (IsAtRest (S.disk site.new)) }
    ensures directory { ChangesDirectory ⟦<S as Site>⟧ txn site.old site.new }
    ensures keeps { Keeps ⟦<S as Site>⟧ 5 (IsErrOf result FailedCall) site.old site.new }
    ensures spends { IsTrue S.tells_all → IfOk result (λ _. Spends ⟦<S as Site>⟧
        (length (S.disk site.old).reads.log + length (spelled_record txn) + 1) (content_size txn) site.old site.new) }
    ensures spends_err { IsTrue S.tells_all → IfErr result (λ _. SpendsAtMost ⟦<S as Site>⟧
        (length (S.disk site.old).reads.log + length (spelled_record txn) + 1) site.old site.new) }
{
    let at = add(alloc, site, end, newest, txn)?;
    shorten(alloc, site, at, newest)
}
