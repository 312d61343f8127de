// Gives a text after a store is closed.
ghost use Rattle.std.specs.Prelude.{◌≡◌};
ghost use Rattle.ml_journal.specs.Stores.{site_of};
ghost use Rattle.ml_ending.specs.Endings.{Tells, TellsClosed};

use crate::endings::{close_store, stop};
use ml_journal::Store;
use ml_site::Site;
use std::alloc::Global;

/// Closes a store, and gives a text, or a stop line that says why if the close was refused. The status is 0, or that of the
/// stop line, or 73 if the output failed.
pub fn give_text<S: Site>(alloc: Global, store: Store<S>, text: &[u8]) -> (u8, S)
    ensures { TellsClosed ⟦<S as Site>⟧ (site_of store) result.1 result.0 text.now }
{
    match close_store(alloc, store, None) {
        (Some((_, why)), site) => stop(site, why),
        (None, site) => tell(site, text),
    }
}

// Puts a text out. The status is 0, or 73 if the output fails.
fn tell<S: Site>(site: S, text: &[u8]) -> (u8, S)
    ensures { Tells ⟦<S as Site>⟧ site result.1 result.0 text.now }
{
    let mut site = site;
    match site.give(text) {
        Ok(()) => (0, site),
        Err(_) => (73, site),
    }
}
