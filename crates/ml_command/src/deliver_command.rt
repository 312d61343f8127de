// The command `deliver`.
ghost use Rattle.std.specs.Prelude.{◌≤◌, Ok, length};
ghost use Rattle.ml_base.specs.Ranges.{IsMoment};
ghost use Rattle.ml_command.specs.Commands.{Does};
ghost use Rattle.ml_command.specs.Delivering.{DeliversAt};
ghost use Rattle.ml_command.specs.declared.words.Command.TheVariants as commands;

use crate::item_commands::answer_item;
use ml_base::{Bytes, LONGEST_MESSAGE};
use ml_input::read_input;
use ml_plain::{Act, Item};
use ml_run::{Why, stop};
use ml_site::{Clock, Site, Source};
use std::alloc::Global;

/// Delivers the input at the clock's moment. The clock is read before the input.
pub(crate) fn deliver<I: Source, S: Site, K: Clock>(
    alloc: Global,
    number: u64,
    sender: Bytes,
    recipient: Bytes,
    input: &mut I,
    site: S,
    clock: &mut K,
) -> (u8, S)
    requires number { number ≤ 999_999_999_999 }
    requires sender { length sender ≤ 1000 }
    requires recipient { length recipient ≤ 1000 }
    ensures does { Does ⟦<I as Source>⟧ ⟦<S as Site>⟧ ⟦<K as Clock>⟧ (Ok (commands.Deliver number sender recipient)) input.old input.new site result.1 clock.old clock.new result.0 }
    ensures clock { K.faults clock.old ≤ K.faults clock.new }
{
    match clock.now() {
        Ok(moment) => deliver_at(alloc, number, moment, sender, recipient, input, site),
        Err(_) => stop(site, Why::Clock),
    }
}

// Delivers the input at this moment. Nothing of it is copied.
fn deliver_at<I: Source, S: Site>(
    alloc: Global,
    number: u64,
    moment: u64,
    sender: Bytes,
    recipient: Bytes,
    input: &mut I,
    site: S,
) -> (u8, S)
    requires number { number ≤ 999_999_999_999 }
    requires moment { IsMoment moment }
    requires sender { length sender ≤ 1000 }
    requires recipient { length recipient ≤ 1000 }
    ensures { DeliversAt ⟦<I as Source>⟧ ⟦<S as Site>⟧ number moment sender recipient input.old input.new site result.1 result.0 }
{
    match read_input(alloc, LONGEST_MESSAGE, input) {
        Ok(message) => answer_item(
            alloc,
            Item {
                number,
                moment,
                act: Act::Deliver {
                    sender,
                    recipient,
                    message,
                },
            },
            site,
        ),
        Err(why) => stop(site, why),
    }
}
