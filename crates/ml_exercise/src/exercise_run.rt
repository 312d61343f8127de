// Exercising a list.
ghost use Rattle.std.specs.Prelude.{◌≡◌, ◌≤◌, IsTrue};
ghost use Rattle.ml_config.specs.Configuration.{IsConfig};
ghost use Rattle.ml_site.specs.Disk.{IsAtRest};
ghost use Rattle.ml_journal.specs.Log.{directory};
ghost use Rattle.ml_plain.specs.Replies.{is_status};
ghost use Rattle.ml_exercise.specs.Exercising.{Exercises, ExercisesList};
ghost use Rattle.ml_exercise.specs.Finding.{HasConfig};
ghost use Rattle.ml_exercise.specs.Running.{items_for, RunsItems};

use crate::config_search::find;
use crate::summary::sum_up;
use ml_config::Config;
use ml_run::{Generated, run, stop};
use ml_site::Site;
use std::alloc::Global;

/// Runs the items 1 to `count` of an exercise on the list that lies on a site, and looks the list over. `count` is at most 999,999.
///
/// The answers of all items are given, then the line `exercised` with the count, and the line of a list that is whole: the status is 0. If not
/// all is given, one stop line says why, instead of what is missing: 71 (out of memory), 75 (there is no list, or a file is damaged) or 111 (the
/// disk failed). If the list can't be looked over, it takes the place of the last line. The status is 73 if the output failed.
pub fn exercise<S: Site>(alloc: Global, count: u64, site: S) -> (u8, S)
    requires { count ≤ 999_999 }
    ensures { Exercises ⟦<S as Site>⟧ count site result.1 result.0 }
{
    let (found, site) = find(alloc, site);
    match found {
        Ok(config) => exercise_list(alloc, &config, count, site),
        Err(why) => stop(site, why),
    }
}

// The same for a list of this configuration, with nothing pending on its site.
fn exercise_list<S: Site>(alloc: Global, config: &Config, count: u64, site: S) -> (u8, S)
    requires count { count ≤ 999_999 }
    requires range { IsConfig config.now }
    requires found { IsTrue S.tells_reads → HasConfig (directory (S.disk site).reads) config.now }
    requires rest { IsTrue S.tells_all → IsAtRest (S.disk site) }
    ensures { ExercisesList ⟦<S as Site>⟧ count site result.1 result.0 }
{
    let (status, site) = run_items(alloc, config, count, site);
    let answered = is_reply_status(status);
    if answered {
        sum_up(alloc, count, site)
    } else {
        (status, site)
    }
}

// Whether a status is that of a reply: then all items were answered.
fn is_reply_status(status: u8) -> bool
    ensures { result ≡ is_status status }
{
    status == 0 || status == 100
}

// Runs the items of an exercise, and answers the status of the run.
fn run_items<S: Site>(alloc: Global, config: &Config, count: u64, site: S) -> (u8, S)
    requires count { count ≤ 999_999 }
    requires range { IsConfig config.now }
    ensures { RunsItems ⟦<S as Site>⟧ (items_for config.now count) count site result.1 result.0 }
{
    let mut items = Generated::new(config.local.as_slice(), config.host.as_slice(), count);
    let (ending, site) = run(alloc, count, &mut items, site);
    (ending.status, site)
}
