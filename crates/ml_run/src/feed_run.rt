// A whole run over a feed of items.
ghost use Rattle.std.specs.Prelude.{◌≡◌, ◌≤◌, ◌<◌, ◌+◌, ◌-◌, ◌*◌, ◌/◌, [], ◌∷◌, IsTrue, IsSome, Some};
ghost use Rattle.ml_base.specs.Dir.{Dir};
ghost use Rattle.ml_journal.specs.Calls.{Leaves};
ghost use Rattle.ml_journal.specs.Log.{directory};
ghost use Rattle.ml_journal.specs.Stores.{site_of};
ghost use Rattle.ml_list.specs.Loading.{HasConfig};
ghost use Rattle.ml_run.specs.Anywhere.{AtEachInstant, DoesItems, RunsAnywhere};
ghost use Rattle.ml_run.specs.Clauses.{ClosesRun, CountsRun, SaysRefusal};
ghost use Rattle.ml_run.specs.Endings.{Brings};
ghost use Rattle.ml_run.specs.Batches.{IsOfNext};
ghost use Rattle.ml_run.specs.Serving.{EndsEachList, IsReady, ReadsFeed};

use crate::batch_loop::serve;
use crate::feed::Feed;
use ml_base::Bytes;
use ml_ending::{Ending, Why, finish, not_opened, say, why_of};
use ml_journal::Store;
use ml_list::load;
use ml_site::Site;
use std::alloc::{AllocError, Global};

// The most bytes that the answers of a batch have.
const BUFFER_SIZE: usize = 1024;

// Opens what lies on a site, answers the items of a feed, closes the site and hands it back.
pub(crate) fn run_feed<F: Feed, S: Site>(
    alloc: Global,
    limit: u64,
    feed: &mut F,
    site: S,
) -> (Ending, S)
    requires ready { IsReady ⟦<F as Feed>⟧ feed.old }
    ensures list { EndsEachList ⟦<F as Feed>⟧ ⟦<S as Site>⟧ (AtEachInstant ⟦<S as Site>⟧ site result.1) limit feed.old feed.new site result.1 result.0 }
    ensures anywhere { RunsAnywhere ⟦<S as Site>⟧ (Brings (F.left feed.old)) limit result.0.status result.0.answered site result.1 }
    ensures read { ReadsFeed ⟦<F as Feed>⟧ ⟦<S as Site>⟧ limit feed.old feed.new site result.1 result.0 }
    ensures refusals { SaysRefusal ⟦<S as Site>⟧ (IsOfNext (Brings (F.left feed.old)) result.0.answered) result.0.status site result.1 }
    ensures closed { ClosesRun ⟦<S as Site>⟧ result.0.status site result.1 }
    ensures counts { CountsRun ⟦<S as Site>⟧ result.0.status limit result.0.answered (F.faults feed.old) (F.faults feed.new) site result.1 }
    ensures syncs { IsTrue S.tells_all → S.syncs result.1 ≤ S.syncs site + 16 + 2 * (result.0.answered / 16)
        + (S.log_bytes result.1 - S.log_bytes site) / 1_048_576 }
{
    let Ok(buffer) = take_buffer(alloc) else {
        return say(site, None, Why::Memory, 0);
    };
    match Store::open(alloc, site) {
        Ok(store) => run_opened(alloc, limit, feed, store, buffer),
        Err((error, site)) => say(site, None, not_opened(error), 0),
    }
}

// Takes the memory for the answers of a batch.
fn take_buffer(alloc: Global) -> Result<Bytes, AllocError> {
    Ok(Bytes::from_vec(Vec::with_capacity(alloc, BUFFER_SIZE)?))
}

// A run over a store that was opened: if its configuration is there, the items are answered.
fn run_opened<F: Feed, S: Site>(
    alloc: Global,
    limit: u64,
    feed: &mut F,
    store: Store<S>,
    buffer: Bytes,
) -> (Ending, S)
    requires ready { IsReady ⟦<F as Feed>⟧ feed.old }
    ensures list { EndsEachList ⟦<F as Feed>⟧ ⟦<S as Site>⟧ (Leaves ⟦<S as Site>⟧ (site_of store) result.1) limit feed.old feed.new (site_of store) result.1 result.0 }
    ensures anywhere { IsTrue S.tells_reads → (files : Dir) → directory (S.disk (site_of store)).reads ≡ Some files →
        DoesItems ⟦<S as Site>⟧ (Leaves ⟦<S as Site>⟧ (site_of store) result.1) (Brings (F.left feed.old)) limit result.0.status result.0.answered (site_of store) result.1 files
        × (0 < result.0.answered → HasConfig files) }
    ensures read { ReadsFeed ⟦<F as Feed>⟧ ⟦<S as Site>⟧ limit feed.old feed.new (site_of store) result.1 result.0 }
    ensures refusals { IsSome (directory (S.disk (site_of store)).reads) →
        SaysRefusal ⟦<S as Site>⟧ (IsOfNext (Brings (F.left feed.old)) result.0.answered) result.0.status (site_of store) result.1 }
    ensures closed { ClosesRun ⟦<S as Site>⟧ result.0.status (site_of store) result.1 }
    ensures counts { CountsRun ⟦<S as Site>⟧ result.0.status limit result.0.answered (F.faults feed.old) (F.faults feed.new) (site_of store) result.1 }
    ensures syncs { IsTrue S.tells_all → (S.disk (site_of store)).reads.log ≡ 0 ∷ [] →
        S.syncs result.1 ≤ S.syncs (site_of store) + 8 + 2 * (result.0.answered / 16) + (S.log_bytes result.1 - S.log_bytes (site_of store)) / 1_048_576 }
{
    let mut store = store;
    match load(alloc, &mut store) {
        Ok(Some(_)) => serve(alloc, limit, feed, store, buffer),
        Ok(None) => finish(alloc, store, Some((None, Why::NoList)), 0, 0),
        Err(error) => finish(alloc, store, Some((None, why_of(error))), 0, 0),
    }
}
