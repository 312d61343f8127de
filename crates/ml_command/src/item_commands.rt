// The commands that give one item.
ghost use Rattle.std.specs.Prelude.{◌≤◌};
ghost use Rattle.ml_plain.specs.Items.{IsItem};
ghost use Rattle.ml_stream.specs.Writing.{IsTyped};
ghost use Rattle.ml_command.specs.Single.{AnswersItem, DoesSingle, IsGiven};

use ml_plain::{Act, Item};
use ml_run::{Why, run_item, stop};
use ml_site::{Clock, Site};
use std::alloc::Global;

/// Answers one item at the clock's moment.
pub(crate) fn answer_now<S: Site, K: Clock>(
    alloc: Global,
    number: u64,
    act: Act,
    site: S,
    clock: &mut K,
) -> (u8, S)
    requires { IsGiven number act }
    ensures does { DoesSingle ⟦<K as Clock>⟧ ⟦<S as Site>⟧ number act clock.old clock.new site result.1 result.0 }
    ensures clock { K.faults clock.old ≤ K.faults clock.new }
{
    match clock.now() {
        Ok(moment) => answer_item(
            alloc,
            Item {
                number,
                moment,
                act,
            },
            site,
        ),
        Err(_) => stop(site, Why::Clock),
    }
}

/// Answers one item.
pub(crate) fn answer_item<S: Site>(alloc: Global, item: Item, site: S) -> (u8, S)
    requires ranges { IsItem item }
    requires typed { IsTyped item.act }
    ensures { AnswersItem ⟦<S as Site>⟧ item site result.1 result.0 }
{
    let (ending, site) = run_item(alloc, item, site);
    (ending.status, site)
}
