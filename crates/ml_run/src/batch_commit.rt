// Committing and answering a batch.
ghost use Rattle.std.specs.Prelude.{IsTrue, IsSome, IfOk, IfErr};
ghost use Rattle.ml_base.specs.Dir.{are_files};
ghost use Rattle.ml_journal.specs.Log.{directory};
ghost use Rattle.ml_journal.specs.Stores.{site_of, site_after};
ghost use Rattle.ml_run.specs.Settling.{IsSettled, IsUnsettled, KeepsFaults, LeavesSettling};

use ml_base::Txn;
use ml_ending::{Why, why_refused};
use ml_journal::Store;
use ml_site::Site;
use std::alloc::Global;

// Commits a txn, and puts out the lines that answer it. An error hands the site back, with the reason why the commit was refused, or with None
// if the output was.
pub(crate) fn settle<S: Site>(
    alloc: Global,
    store: Store<S>,
    txn: Txn,
    lines: &[u8],
) -> Result<Store<S>, (Option<Why>, S)>
    requires files { IsTrue (are_files txn) }
    ensures done { IfOk result (λ settled. IsSettled ⟦<S as Site>⟧ txn lines.now (site_of store) (site_of settled)) }
    ensures refused { IfErr result (λ e. IsUnsettled ⟦<S as Site>⟧ txn lines.now e.0 (site_of store) e.1) }
    ensures whole { IsTrue S.tells_reads → IsSome (directory (S.disk (site_of store)).reads) }
    ensures instants { LeavesSettling ⟦<S as Site>⟧ txn lines.now (site_of store) (site_after result) }
    ensures faults { KeepsFaults ⟦<S as Site>⟧ (site_of store) (site_after result) }
{
    match store.commit_owned(alloc, txn) {
        Ok(mut committed) => match committed.give(lines) {
            Ok(()) => Ok(committed),
            Err(_) => Err((None, committed.leave())),
        },
        Err((error, site)) => Err((Some(why_refused(error)), site)),
    }
}
