// The loop of a run: batch by batch, to the end of the stream or to a refusal.
ghost use Rattle.std.specs.Prelude.{◌≡◌, ◌≤◌, ◌+◌, ◌-◌, ◌*◌, ◌/◌, [], ◌∷◌, IsTrue, Some};
ghost use Rattle.ml_base.specs.Dir.{Dir};
ghost use Rattle.ml_journal.specs.Calls.{Leaves};
ghost use Rattle.ml_journal.specs.Log.{directory};
ghost use Rattle.ml_journal.specs.Stores.{site_of};
ghost use Rattle.ml_run.specs.Anywhere.{DoesItems};
ghost use Rattle.ml_run.specs.Clauses.{ClosesRun, CountsRun};
ghost use Rattle.ml_run.specs.Endings.{Brings, Names};
ghost use Rattle.ml_run.specs.Batches.{IsOfNext};
ghost use Rattle.ml_run.specs.Serving.{EndsEachList, IsReady, ReadsFeed};

use crate::batch_commit::settle;
use crate::batch_items::gather;
use crate::batches::{BatchEnd, empty_batch};
use crate::feed::Feed;
use ml_base::Bytes;
use ml_ending::{Ending, end_refused, finish};
use ml_journal::Store;
use ml_list::Memo;
use ml_site::Site;
use std::alloc::Global;

// Answers the items of a feed in batches, at most `limit` of them. The buffer will hold the answers of a batch.
pub(crate) fn serve<F: Feed, S: Site>(
    alloc: Global,
    limit: u64,
    feed: &mut F,
    store: Store<S>,
    buffer: Bytes,
) -> (Ending, S)
    requires ready { IsReady ⟦<F as Feed>⟧ feed.old }
    ensures list { EndsEachList ⟦<F as Feed>⟧ ⟦<S as Site>⟧ (Leaves ⟦<S as Site>⟧ (site_of store) result.1) limit feed.old feed.new (site_of store) result.1 result.0 }
    ensures anywhere { IsTrue S.tells_reads → (files : Dir) → directory (S.disk (site_of store)).reads ≡ Some files →
        DoesItems ⟦<S as Site>⟧ (Leaves ⟦<S as Site>⟧ (site_of store) result.1) (Brings (F.left feed.old)) limit result.0.status result.0.answered (site_of store) result.1 files }
    ensures read { ReadsFeed ⟦<F as Feed>⟧ ⟦<S as Site>⟧ limit feed.old feed.new (site_of store) result.1 result.0 }
    ensures named { IsTrue S.tells_reads → result.0.status ≡ 75 → Names (IsTrue S.tells_all) (IsOfNext (Brings (F.left feed.old)) result.0.answered) (directory (S.disk (site_of store)).reads) (directory (S.disk result.1).reads) (S.output result.1) }
    ensures closed { ClosesRun ⟦<S as Site>⟧ result.0.status (site_of store) result.1 }
    ensures counts { CountsRun ⟦<S as Site>⟧ result.0.status limit result.0.answered (F.faults feed.old) (F.faults feed.new) (site_of store) result.1 }
    ensures syncs { IsTrue S.tells_all → (S.disk (site_of store)).reads.log ≡ 0 ∷ [] →
        S.syncs result.1 ≤ S.syncs (site_of store) + 8 + 2 * (result.0.answered / 16) + (S.log_bytes result.1 - S.log_bytes (site_of store)) / 1_048_576 }
{
    let mut memo = Memo::new(alloc);
    let mut now = store;
    let mut batch = empty_batch(alloc, buffer, 0);
    let mut answered: u64 = 0;
    'batches: loop {
        let (read, gathered, end) = gather(alloc, limit - answered, feed, now, &mut memo, batch);
        match settle(alloc, read, gathered.txn, gathered.lines.as_slice()) {
            Ok(settled) => now = settled,
            Err((why, site)) => return end_refused(site, gathered.first, why, answered),
        }
        answered += gathered.count;
        let last = gathered.last;
        match end {
            BatchEnd::Full => batch = empty_batch(alloc, gathered.lines, last),
            BatchEnd::Last => return finish(alloc, now, None, answered, last),
            BatchEnd::Stopped(number, why) => {
                return finish(alloc, now, Some((number, why)), answered, last);
            }
        }
    }
}
