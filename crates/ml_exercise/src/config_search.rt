// Finding the configuration of the list that lies on a site.
ghost use Rattle.std.specs.Prelude.{◌≡◌, ◌≤◌, IsTrue, IsSome, IfOk, IfErr};
ghost use Rattle.ml_base.specs.Faults.{Rose};
ghost use Rattle.ml_base.specs.ReadFiles.{AreKept};
ghost use Rattle.ml_config.specs.ConfigFile.{config_name};
ghost use Rattle.ml_config.specs.Configuration.{IsConfig};
ghost use Rattle.ml_site.specs.Disk.{IsAtRest};
ghost use Rattle.ml_journal.specs.Calls.{Leaves};
ghost use Rattle.ml_journal.specs.Kept.{IsStill};
ghost use Rattle.ml_journal.specs.Log.{directory};
ghost use Rattle.ml_journal.specs.Stores.{site_of};
ghost use Rattle.ml_ending.specs.Lines.{HasPath};
ghost use Rattle.ml_exercise.specs.Finding.{Finds, HasConfig, IsMiss, IsOnlyConfig, IsUnfound, IsUnread, Misses};

use ml_base::Files;
use ml_config::{Config, load};
use ml_ending::{Why, not_opened, why_of};
use ml_journal::Store;
use ml_site::Site;
use std::alloc::Global;

/// The configuration of the list that lies on a site, or why it isn't found: there is none, its file or the log is damaged, memory ran out or
/// the disk failed. It opens what lies there, which ends what an earlier run began, changes nothing else, and hands the site back with a log of
/// one closed gate.
pub(crate) fn find<S: Site>(alloc: Global, site: S) -> (Result<Config, Why>, S)
    ensures found { IfOk result.0 (λ config. Finds ⟦<S as Site>⟧ site result.1 config) }
    ensures missed { IfErr result.0 (λ why. Misses ⟦<S as Site>⟧ site result.1 why) }
{
    match Store::open(alloc, site) {
        Ok(store) => look(alloc, store),
        Err((error, site)) => (Err(not_opened(error)), site),
    }
}

// The same, over a store that was opened. The read is its only call on the disk.
fn look<S: Site>(alloc: Global, store: Store<S>) -> (Result<Config, Why>, S)
    requires { IsTrue S.tells_reads → IsSome (directory (S.disk (site_of store)).reads) }
    ensures range { IfOk result.0 IsConfig }
    ensures config { IsTrue S.tells_reads → IfOk result.0 (HasConfig (directory (S.disk (site_of store)).reads)) }
    ensures reason { IsTrue S.tells_reads → IfErr result.0 (λ why. IsUnfound why (directory (S.disk (site_of store)).reads)) }
    ensures known { IfErr result.0 IsMiss }
    ensures path { IfErr result.0 HasPath }
    ensures reads { IsTrue S.tells_reads → (S.disk result.1).reads ≡ (S.disk (site_of store)).reads }
    ensures output { IsTrue S.tells_all → S.output result.1 ≡ S.output (site_of store) }
    ensures instants { Leaves ⟦<S as Site>⟧ (site_of store) result.1 (IsStill ⟦<S as Site>⟧ (site_of store)) }
    ensures rest { IsTrue S.tells_all → IsAtRest (S.disk result.1) }
    ensures cause { IfErr result.0 (λ why. why ≡ Why.Disk → Rose (S.disk_faults (site_of store)) (S.disk_faults result.1)) }
    ensures disk_later { S.disk_faults (site_of store) ≤ S.disk_faults result.1 }
    ensures output_later { S.output_faults (site_of store) ≤ S.output_faults result.1 }
{
    let mut store = store;
    let found = read(alloc, &mut store);
    (found, store.leave())
}

// The configuration that files have, or why none is found.
fn read<F: Files>(alloc: Global, files: &mut F) -> Result<Config, Why>
    ensures range { IfOk result IsConfig }
    ensures config { IsTrue F.tells → IfOk result (IsOnlyConfig (F.map files.old config_name)) }
    ensures reason { IsTrue F.tells → IfErr result (λ why. IsUnread why (F.map files.old config_name)) }
    ensures known { IfErr result IsMiss }
    ensures path { IfErr result HasPath }
    ensures cause { IfErr result (λ why. why ≡ Why.Disk → Rose (F.faults files.old) (F.faults files.new)) }
    ensures kept { AreKept ⟦<F as Files>⟧ files.old files.new }
{
    match load(alloc, files) {
        Ok(Some(config)) => Ok(config),
        Ok(None) => Err(Why::NoList),
        Err(error) => Err(why_of(error)),
    }
}
