// A whole run.
ghost use Rattle.std.specs.Prelude.{◌≡◌, ◌≤◌, ◌<◌, ◌+◌, ◌-◌, ◌*◌, ◌/◌, List, [], take, length, IsTrue, Some};
ghost use Rattle.ml_base.specs.Bytes.{Text};
ghost use Rattle.ml_base.specs.Faults.{Rose};
ghost use Rattle.ml_plain.specs.declared.Item.{Item as TheItem};
ghost use Rattle.ml_plain.specs.Histories.{State};
ghost use Rattle.ml_plain.specs.Items.{IsItem};
ghost use Rattle.ml_run.specs.Clauses.{AnswersStream, ClosesRun, CountsRun, CrashesAfterSome, SaysRefusal};
ghost use Rattle.ml_run.specs.Batches.{IsOfNext};
ghost use Rattle.ml_run.specs.Endings.{AnswersAll, Begins, Brings, Runs, FromTaken, TakesFew};
ghost use Rattle.ml_run.specs.Leaving.{IsAfterSome};
ghost use Rattle.ml_run.specs.Anywhere.{RunsAnywhere};
ghost use Rattle.ml_run.specs.Single.{RunsItem};
ghost use Rattle.ml_stream.specs.Stream.{StreamEnd, End};
ghost use Rattle.ml_stream.specs.Writing.{IsTyped};

use crate::feed::{InHand, ItemFeed, StreamFeed};
use crate::feed_run::run_feed;
use ml_ending::Ending;
use ml_plain::Item;
use ml_site::{Site, Source};
use std::alloc::Global;
use std::marker::{Brand, PhantomData};

/// Opens what lies on a site, answers the items of a stream in order, at most `limit` of them, closes the site and hands it
/// back.
///
/// Up to 16 items are committed together, and then their answer lines are given. A run that ends early gives one stop line last. If the stream
/// was read to its end, the status is that of the last item's reply, or 0 if there was no item. Otherwise it is 65 (the stream is bad or ends
/// too early), 71 (out of memory), 72 (more items than `limit`), 73 (the output failed), 74 (the source failed), 75 (there is no list, or a file
/// is damaged) or 111 (the disk failed).
pub fn run<I: Source, S: Site>(alloc: Global, limit: u64, input: &mut I, site: S) -> (Ending, S)
    // How it ended, and what it leaves then.
    ensures whole { IsTrue S.tells_reads → (all : List TheItem) (ending : StreamEnd) (q : State) →
        Begins (I.left input.old) (S.disk site).reads all ending q →
        Runs (IsTrue S.tells_all) (Rose (I.faults input.old) (I.faults input.new)) result.0.status limit result.0.answered
        (S.disk result.1).reads (S.output result.1) all ending q (S.output site) }

    // A stream in the grammar and within the limit is answered item by item, unless memory runs out or a count rises.
    ensures complete { IsTrue S.tells_reads → (all : List TheItem) (q : State) → Begins (I.left input.old) (S.disk site).reads all End q → length all ≤ limit →
        AnswersAll (IsTrue S.tells_all) result.0.status limit result.0.answered (S.disk result.1).reads (S.output result.1) all q (S.output site) }

    // What a crash leaves at every instant.
    ensures crashes { CrashesAfterSome ⟦<S as Site>⟧ (I.left input.old) limit site result.1 }

    // What a crash leaves at every instant, whatever the directory holds: what was done for each item is there whole or not at all, in order, and
    // is there if a byte of its answer is out.
    ensures anywhere { RunsAnywhere ⟦<S as Site>⟧ (Brings (I.left input.old)) limit result.0.status result.0.answered site result.1 }

    // What was done, and what was put out, is of the items within the bytes that were taken from the source; with status 74 all of these are
    // answered.
    ensures taken { IsTrue S.tells_reads → (all : List TheItem) (ending : StreamEnd) (q : State) →
        Begins (I.left input.old) (S.disk site).reads all ending q → FromTaken (I.left input.old) (I.left input.new) (λ items.
        (IsTrue S.tells_all → IsAfterSome q (take limit items) (S.output site) (S.disk result.1).reads (S.output result.1))
        × (result.0.status ≡ 74 → result.0.answered ≡ length items)) }

    // At most `limit` whole items were taken from the source, and with status 72 at most one byte more.
    ensures few { (bytes : Text) → I.left input.old ≡ Some bytes → TakesFew result.0.status limit (I.left input.old) (I.left input.new) }

    // What its status and its output say of the stream, whatever the directory.
    ensures stream { AnswersStream ⟦<S as Site>⟧ (I.left input.old) result.0.status limit result.0.answered site result.1 }

    // What it says if there is no list, and if a file is damaged. A file that is neither the log nor the configuration is one that the first
    // item without an answer may read, by the configuration that is there and the numbers that it asks for.
    ensures refusals { SaysRefusal ⟦<S as Site>⟧ (IsOfNext (Brings (I.left input.old)) result.0.answered) result.0.status site result.1 }

    // What is left if it ends without a fault.
    ensures closed { ClosesRun ⟦<S as Site>⟧ result.0.status site result.1 }

    // Which statuses there are, and which counts rose.
    ensures counts { CountsRun ⟦<S as Site>⟧ result.0.status limit result.0.answered (I.faults input.old) (I.faults input.new) site result.1 }

    // How many syncs it makes.
    ensures syncs { IsTrue S.tells_all → S.syncs result.1 ≤ S.syncs site + 16 + 2 * (result.0.answered / 16)
        + (S.log_bytes result.1 - S.log_bytes site) / 1_048_576 }
{
    let mut feed = StreamFeed::new(input);
    run_feed(alloc, limit, &mut feed, site)
}

/// Opens what lies on a site, answers one item, closes the site and hands it back. It does what `run` does with the stream that is this item and
/// a limit of 1, except that no stream is read: the item is not copied, and the status is never 65, 72 or 74.
pub fn run_item<S: Site>(alloc: Global, item: Item, site: S) -> (Ending, S)
    requires ranges { IsItem item }
    requires typed { IsTyped item.act }
    ensures { RunsItem ⟦<S as Site>⟧ item site result.1 result.0 }
{
    run_held::<Brand, S>(alloc, item, site)
}

// The same for an item that has a name.
fn run_held<K: InHand, S: Site>(alloc: Global, item: Item, site: S) -> (Ending, S)
    requires same { item ≡ K.item }
    requires ranges { IsItem K.item }
    requires typed { IsTyped K.item.act }
    ensures { RunsItem ⟦<S as Site>⟧ K.item site result.1 result.0 }
{
    let mut feed = ItemFeed::<K> {
        item: Some(item),
        of: PhantomData,
    };
    run_feed(alloc, 1, &mut feed, site)
}
