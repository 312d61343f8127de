// Ends a call: closes its store and puts its stop line out.
ghost use Rattle.std.specs.Prelude.{◌≡◌, ◌≤◌, ◌<◌, ◌+◌, ℕ, IsTrue, Some, None};
ghost use Rattle.ml_base.specs.Faults.{Rose};
ghost use Rattle.ml_journal.specs.Log.{directory};
ghost use Rattle.ml_journal.specs.Instants.{IsOld};
ghost use Rattle.ml_journal.specs.Stores.{site_of};
ghost use Rattle.ml_ending.specs.Endings.{Says, CostsAtMost, ClosesTo, in_place, line_in_place, is_memory as says_memory, Finishes, Refuses, HasLinePath};
ghost use Rattle.ml_journal.specs.Calls.{Leaves, IsClean};
ghost use Rattle.ml_ending.specs.Lines.{HasPath};
ghost use Rattle.ml_ending.specs.Stops.{status_of_why};
ghost use Rattle.ml_ending.specs.declared.lines.Why.{Why as TheWhy};

use crate::lines::{Why, stop_line};
use crate::refusals::why_refused;
use ml_journal::Store;
use ml_site::Site;
use std::alloc::Global;

/// How a run ended: its status, and how many items were answered.
#[derive(Clone, Copy, Debug, PartialEq, Eq)]
pub struct Ending {
    pub status: u8,
    pub answered: u64,
}

/// Closes the store of a run, and answers what the run says then. If the close is refused, the reason for that takes the place of
/// the reason in the line, but lack of memory stays. The number that the line begins with stays too.
pub fn close_store<S: Site>(
    alloc: Global,
    store: Store<S>,
    line: Option<(Option<u64>, Why)>,
) -> (Option<(Option<u64>, Why)>, S)
    ensures closes { ClosesTo line result.0 (IsClean ⟦<S as Site>⟧ result.1) (Rose (S.disk_faults (site_of store)) (S.disk_faults result.1)) }
    ensures same { IsTrue S.tells_reads → directory (S.disk result.1).reads ≡ directory (S.disk (site_of store)).reads }
    ensures output { IsTrue S.tells_all → S.output result.1 ≡ S.output (site_of store) }
    ensures instants { Leaves ⟦<S as Site>⟧ (site_of store) result.1 (IsOld (directory (S.disk (site_of store)).reads) (S.output (site_of store))) }
    ensures faults { S.disk_faults (site_of store) ≤ S.disk_faults result.1 }
    ensures others { S.output_faults result.1 ≡ S.output_faults (site_of store) }
    ensures spends { IsTrue S.tells_all → CostsAtMost 3 (S.syncs (site_of store)) (S.syncs result.1) (S.log_bytes (site_of store)) (S.log_bytes result.1) }
{
    let (done, site) = store.close(alloc);
    match done {
        Ok(()) => (line, site),
        Err(error) => (said_instead(line, why_refused(error)), site),
    }
}

// What a run says if its close was refused.
fn said_instead(line: Option<(Option<u64>, Why)>, why: Why) -> Option<(Option<u64>, Why)>
    ensures { result ≡ line_in_place line why }
{
    match line {
        Some((number, old)) => Some((number, reason_instead(old, why))),
        None => Some((None, why)),
    }
}

// Why a run ends if its close was refused: lack of memory stays.
fn reason_instead(old: Why, why: Why) -> Why
    ensures { result ≡ in_place old why }
{
    if is_memory(old) { old } else { why }
}

fn is_memory(why: Why) -> bool
    ensures { result ≡ says_memory why }
{
    match why {
        Why::Memory => true,
        Why::Usage | Why::Words | Why::Long | Why::Clock | Why::More | Why::Input | Why::NoList =>
            false,
        Why::There | Why::Absent | Why::Disk => false,
        Why::Bad(_) => false,
        Why::Short(_) => false,
        Why::At(_) => false,
    }
}

/// Closes the store of a run, and puts its stop line out, if it has one. A run without one has the status of its last item.
pub fn finish<S: Site>(
    alloc: Global,
    store: Store<S>,
    line: Option<(Option<u64>, Why)>,
    answered: u64,
    last: u8,
) -> (Ending, S)
    requires { HasLinePath line }
    ensures finishes { Finishes ⟦<S as Site>⟧ (site_of store) result.1 line result.0.status last }
    ensures answered { result.0.answered ≡ answered }
{
    match close_store(alloc, store, line) {
        (Some((number, why)), site) => say(site, number, why, answered),
        (None, site) => (
            Ending {
                status: last,
                answered,
            },
            site,
        ),
    }
}

/// Ends a run whose batch was refused: if by the output, no call is made after that; otherwise a stop line says why.
pub fn end_refused<S: Site>(
    site: S,
    first: Option<u64>,
    why: Option<Why>,
    answered: u64,
) -> (Ending, S)
    requires { (reason : TheWhy) → why ≡ Some reason → HasPath reason }
    ensures refuses { Refuses ⟦<S as Site>⟧ site result.1 first why result.0.status }
    ensures answered { result.0.answered ≡ answered }
{
    match why {
        Some(why) => say(site, first, why, answered),
        None => (
            Ending {
                status: 73,
                answered,
            },
            site,
        ),
    }
}

/// Says why nothing is done, in a line without a number, and answers its status, or 73 if the output failed. It takes no
/// memory and makes no call on the disk. The name of `At` is in the table of files.
pub fn stop<S: Site>(site: S, why: Why) -> (u8, S)
    requires { HasPath why }
    ensures { Says ⟦<S as Site>⟧ site result.1 result.0 None why }
{
    let (ending, site) = say(site, None, why, 0);
    (ending.status, site)
}

/// Puts a stop line out. Its status is that of the line, or 73 if the output fails. The name of `At` is in the table of
/// files.
pub fn say<S: Site>(site: S, number: Option<u64>, why: Why, answered: u64) -> (Ending, S)
    requires { HasPath why }
    ensures says { Says ⟦<S as Site>⟧ site result.1 result.0.status number why }
    ensures answered { result.0.answered ≡ answered }
{
    let mut site = site;
    let status = status_of(why);
    let mut line = [0u8; 64];
    let len = stop_line(number, status, why, &mut line);
    match site.give(&line[..len]) {
        Ok(()) => (Ending { status, answered }, site),
        Err(_) => (
            Ending {
                status: 73,
                answered,
            },
            site,
        ),
    }
}

// The status of a run that ends early.
fn status_of(why: Why) -> u8
    ensures { result ≡ status_of_why why }
{
    match why {
        Why::Usage => 64,
        Why::Bad(_) => 65,
        Why::Short(_) => 65,
        Why::Words => 65,
        Why::Long => 65,
        Why::Clock => 69,
        Why::Memory => 71,
        Why::More => 72,
        Why::Input => 74,
        Why::NoList => 75,
        Why::At(_) => 75,
        Why::There => 100,
        Why::Absent => 100,
        Why::Disk => 111,
    }
}
