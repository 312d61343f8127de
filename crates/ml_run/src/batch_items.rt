// Reading and applying a batch of items.
ghost use Rattle.std.specs.Prelude.{◌≡◌, ◌≢◌, ◌≤◌, List, [], IsTrue};
ghost use Rattle.ml_base.specs.Bytes.{Text};
ghost use Rattle.ml_base.specs.Dir.{with_puts};
ghost use Rattle.ml_base.specs.Faults.{Rose};
ghost use Rattle.ml_plain.specs.declared.Item.{Item as TheItem};
ghost use Rattle.ml_journal.specs.Kept.{IsKept};
ghost use Rattle.ml_journal.specs.Stores.{site_of};
ghost use Rattle.ml_list.specs.Damage.{IsDamagedInList};
ghost use Rattle.ml_stream.specs.Items.{HasLeft, place_of};
ghost use Rattle.ml_stream.specs.Stream.{StreamEnd};
ghost use Rattle.ml_run.specs.Gathering.{DoesBatch, IsGathered, ReadsBatch};
ghost use Rattle.ml_run.specs.Batches.{EndsNumbered, EndsWithReason, IsAhead, IsEmptyBatch, IsEnd, IsOfNext, Takes};
ghost use Rattle.ml_run.specs.Leaving.{dir_of};
ghost use Rattle.ml_run.specs.Stops.{why_of_stream};
ghost use Rattle.ml_run.specs.declared.batches.BatchEnd.TheVariants.{Full};

use crate::batches::{Batch, BatchEnd, MAX_ITEMS, MAX_SIZE};
use crate::feed::Feed;
use crate::item_puts::add_item;
use ml_ending::Why;
use ml_journal::Store;
use ml_list::Memo;
use ml_site::Site;
use ml_stream::StreamError;
use std::alloc::Global;

// Reads and applies the items of a batch, at most `room` of them, over a batch without items. If no more are to be read, it looks whether there
// is a further byte.
pub(crate) fn gather<F: Feed, S: Site>(
    alloc: Global,
    room: u64,
    feed: &mut F,
    store: Store<S>,
    memo: &mut Memo,
    batch: Batch,
) -> (Store<S>, Batch, BatchEnd)
    requires sound { F.sound feed.old }
    requires empty { IsEmptyBatch batch }
    ensures kept { IsKept store result.0 }
    ensures batch { IsGathered result.2 room result.1 }
    ensures done { IsTrue S.tells_reads → DoesBatch ⟦<F as Feed>⟧ (dir_of store) result.2 room batch.last result.1 feed.old feed.new }
    ensures read { ReadsBatch ⟦<F as Feed>⟧ result.2 room batch.last result.1 feed.old feed.new }
    ensures numbered { IsTrue S.tells_reads → EndsNumbered (IsOfNext (λ ahead ending. IsAhead (F.reader feed.old) (F.left feed.old) ahead ending) result.1.count (with_puts (dir_of store) result.1.txn)) result.2 }
    ensures reason { EndsWithReason result.2 (Rose (F.faults feed.old) (F.faults feed.new)) (Rose (S.disk_faults (site_of store)) (S.disk_faults (site_of result.0))) (λ name. IsTrue S.tells_reads → IsDamagedInList (with_puts (dir_of store) result.1.txn) name) }
{
    if room == 0 {
        return (store, batch, after_last(feed));
    }
    let mut store = store;
    let mut batch = batch;
    for taken in 0..room.min(MAX_ITEMS) {
        let item = match feed.next(alloc) {
            Ok(Some(item)) => item,
            Ok(None) => return (store, batch, BatchEnd::Last),
            Err(error) => return (store, batch, BatchEnd::Stopped(None, stopped(error))),
        };
        let (read, more, added) = add_item(alloc, store, memo, batch, &item);
        store = read;
        batch = more;
        if let Err(why) = added {
            return (store, batch, BatchEnd::Stopped(Some(item.number), why));
        }
        if batch.size >= MAX_SIZE {
            return (store, batch, BatchEnd::Full);
        }
    }
    (store, batch, BatchEnd::Full)
}

// What comes after the last item that was to be read.
fn after_last<F: Feed>(feed: &mut F) -> BatchEnd
    requires { F.sound feed.old }
    ensures ends { (ahead : List TheItem) (ending : StreamEnd) → IsAhead (F.reader feed.old) (F.left feed.old) ahead ending →
        IsEnd result 0 (F.reader feed.new) (F.left feed.new) ahead ending }
    ensures taken { (bs : Text) → HasLeft (F.reader feed.old) (F.left feed.old) bs →
        Takes result (place_of (F.reader feed.old)) bs [] 0 (F.reader feed.new) (F.left feed.new) }
    ensures more { result ≢ Full }
    ensures through { F.through feed.new ≡ F.through feed.old }
    ensures later { F.faults feed.old ≤ F.faults feed.new }
    ensures reason { EndsWithReason result (Rose (F.faults feed.old) (F.faults feed.new)) ⊥ (λ _. ⊥) }
{
    match feed.more() {
        Ok(true) => BatchEnd::Stopped(None, Why::More),
        Ok(false) => BatchEnd::Last,
        Err(_) => BatchEnd::Stopped(None, Why::Input),
    }
}

// Why a run ends if its reader answered an error.
fn stopped(error: StreamError) -> Why
    ensures { result ≡ why_of_stream error }
{
    match error {
        StreamError::Bad { at } => Why::Bad(at),
        StreamError::Short { at } => Why::Short(at),
        StreamError::Fault => Why::Input,
        StreamError::Memory => Why::Memory,
    }
}
