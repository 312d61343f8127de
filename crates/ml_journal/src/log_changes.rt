// Changes of the log that are each settled before the next.
ghost use Rattle.std.specs.Prelude.{◌≡◌, ◌+◌, ◌^◌, ◌++◌, ◌≤◌, ◌<◌, [], ◌∷◌, IsTrue, IsErr, IsErrOf, OnOk, length};
ghost use Rattle.ml_site.specs.declared.site.SiteError.TheVariants.{Failed as FailedCall};
ghost use Rattle.ml_site.specs.Disk.{Range, Cut, IsAtRest, log_with, log_cut};
ghost use Rattle.ml_journal.specs.Calls.{Keeps, Settles};
ghost use Rattle.ml_journal.specs.Records.{spelled_puts, spelled_record};

use crate::record_writer::write_record;
use ml_base::Put;
use ml_site::{Failed, Site, SiteError};
use std::alloc::Global;

// Writes into the log and syncs.
pub(crate) fn settle_log<S: Site>(
    alloc: Global,
    site: &mut S,
    at: u64,
    bytes: &[u8],
) -> Result<(), SiteError>
    requires place { IsTrue S.tells_reads → at ≤ length (S.disk site.old).reads.log }
    requires rest { IsTrue S.tells_all → IsAtRest (S.disk site.old) }
    ensures settles { Settles ⟦<S as Site>⟧ result (Range at (length bytes.now)) (log_with (S.disk site.old).reads at bytes.now) site.old site.new }
    ensures log_bytes { IsTrue S.tells_all → OnOk result (S.log_bytes site.new ≡ S.log_bytes site.old + length bytes.now) }
    ensures keeps { Keeps ⟦<S as Site>⟧ 1 (IsErrOf result FailedCall) site.old site.new }
{
    site.write_log(alloc, at, bytes)?;
    site.sync()?;
    Ok(())
}

// Writes the record of puts that take so many bytes into the log, followed by a closed gate, and syncs.
pub(crate) fn settle_record<S: Site>(
    alloc: Global,
    site: &mut S,
    at: u64,
    puts: &[Put],
    size: usize,
) -> Result<(), SiteError>
    requires size { size ≡ length (spelled_puts puts.now) }
    requires small { size < 10 ^ 18 }
    requires low { at < 2 ^ 63 }
    requires place { IsTrue S.tells_reads → at ≤ length (S.disk site.old).reads.log }
    requires rest { IsTrue S.tells_all → IsAtRest (S.disk site.old) }
    ensures settles { Settles ⟦<S as Site>⟧ result (Range at (length (spelled_record puts.now ++ 0 ∷ [])))
        (log_with (S.disk site.old).reads at (spelled_record puts.now ++ 0 ∷ [])) site.old site.new }
    ensures log_bytes { IsTrue S.tells_all → OnOk result (S.log_bytes site.new ≡ S.log_bytes site.old + length (spelled_record puts.now) + 1) }
    ensures keeps { Keeps ⟦<S as Site>⟧ 1 (IsErrOf result FailedCall) site.old site.new }
{
    write_record(alloc, site, at, puts, size)?;
    site.sync()?;
    Ok(())
}

// Cuts the log and syncs.
pub(crate) fn settle_cut<S: Site>(site: &mut S, size: u64) -> Result<(), Failed>
    requires place { IsTrue S.tells_reads → size ≤ length (S.disk site.old).reads.log }
    requires rest { IsTrue S.tells_all → IsAtRest (S.disk site.old) }
    ensures settles { Settles ⟦<S as Site>⟧ result (Cut size) (log_cut (S.disk site.old).reads size) site.old site.new }
    ensures keeps { Keeps ⟦<S as Site>⟧ 1 (IsErr result) site.old site.new }
{
    site.cut_log(size)?;
    site.sync()
}
