// Saying how many items an exercise had, and what a check of the list says.
ghost use Rattle.std.specs.Prelude.{◌≡◌, ◌≤◌, ◌++◌, [], ◌∷◌, take};
ghost use Rattle.ml_ending.specs.Endings.{Tells};
ghost use Rattle.ml_exercise.specs.Summing.{exercised_line, SumsUp};

use ml_base::{put_number, put_piece};
use ml_check::Check;
use ml_reading::read_list;
use ml_site::Site;
use std::alloc::Global;

/// Gives the line `exercised` with the count, and after it what a check of the list on a site says. It changes nothing.
pub(crate) fn sum_up<S: Site>(alloc: Global, count: u64, site: S) -> (u8, S)
    ensures { SumsUp ⟦<S as Site>⟧ count site result.1 result.0 }
{
    let (status, site) = tell_count(count, site);
    if status == 0 {
        read_list(alloc, &Check, site)
    } else {
        (status, site)
    }
}

// Gives the line `exercised` with the count, and answers the status 0, or 73 if the output failed. It takes no memory.
fn tell_count<S: Site>(count: u64, site: S) -> (u8, S)
    ensures { Tells ⟦<S as Site>⟧ site result.1 result.0 (exercised_line count) }
{
    let mut site = site;
    let mut line = [0u8; 31];
    let len = put_count(&mut line, count);
    match site.give(&line[..len]) {
        Ok(()) => (0, site),
        Err(_) => (73, site),
    }
}

// Writes that line at the front of `out`, and answers its length.
fn put_count(out: &mut [u8; 31], count: u64) -> usize
    ensures fits { result ≤ 31 }
    ensures text { take result out.new ≡ exercised_line count }
{
    let word = put_piece(out, 0, b"exercised ");
    let digits = put_number(out, word, count);
    put_piece(out, digits, b"\n")
}
