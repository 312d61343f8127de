// Making a new list.
ghost use Rattle.std.specs.Prelude.{◌≡◌, ◌≢◌, ◌⊎◌, IsTrue, IfOk, Some, None};
ghost use Rattle.ml_base.specs.Dir.{Dir, are_files};
ghost use Rattle.ml_base.specs.Faults.{Rose};
ghost use Rattle.ml_base.specs.Name.{is_file};
ghost use Rattle.ml_base.specs.declared.names.Name.{Name as TheName};
ghost use Rattle.ml_config.specs.ConfigFile.{config_name};
ghost use Rattle.ml_config.specs.Configuration.{IsConfig};
ghost use Rattle.ml_config.specs.FirstFiles.{first_puts};
ghost use Rattle.ml_site.specs.Disk.{IsAtRest};
ghost use Rattle.ml_journal.specs.Calls.{Leaves};
ghost use Rattle.ml_journal.specs.Log.{directory};
ghost use Rattle.ml_journal.specs.Stores.{site_of};
ghost use Rattle.ml_plain.specs.Histories.{fresh};
ghost use Rattle.ml_plain.specs.Plain.{new_list};
ghost use Rattle.ml_ending.specs.Endings.{Opens, Finishes};
ghost use Rattle.ml_run.specs.Leaving.{HasState};
ghost use Rattle.ml_ending.specs.Lines.{HasPath};
ghost use Rattle.ml_run.specs.Clauses.{CountsSite};
ghost use Rattle.ml_run.specs.Making.{IsMaking, Makes, is_make_status, made_text};

use ml_base::{Bytes, Files, FilesError, Name, Txn};
use ml_config::{Config, initial};
use ml_ending::{Why, finish, give_text, not_opened, stop, why_refused};
use ml_journal::Store;
use ml_site::Site;
use std::alloc::{AllocError, Global};

/// Makes a list with this configuration and this key on a site, and hands the site back. The list's files are written in one
/// commit, the store is closed, and `made LOCAL@HOST` is given.
///
/// The status is 0 then. Otherwise a stop line says why no list is made: 100 if there is a configuration, whatever its bytes, and nothing is
/// changed; 71 (out of memory), 75 (the log is damaged) or 111 (the disk failed), after which the list is whole or not there. The status is 73
/// if the output failed.
pub fn make<S: Site>(alloc: Global, config: &Config, key: &[u8; 32], site: S) -> (u8, S)
    // What it leaves.
    ensures makes { IsTrue S.tells_reads → Makes (IsTrue S.tells_all) result.0 (directory (S.disk site).reads) (first_puts config.now key.now)
        (made_text config.now) (S.output site) (S.disk result.1).reads (S.output result.1) }
    ensures state { IsTrue S.tells_reads → IsConfig config.now → (files : Dir) → directory (S.disk site).reads ≡ Some files → ((name : TheName) → IsTrue (is_file name) → files name ≡ None) →
        result.0 ≡ 0 → HasState (directory (S.disk result.1).reads) (fresh (new_list config.now key.now)) }
    ensures there { IsTrue S.tells_reads → (files : Dir) → directory (S.disk site).reads ≡ Some files → files config_name ≢ None →
        (result.0 ≡ 100) ⊎ ((result.0 ≡ 71) ⊎ ((result.0 ≡ 73) ⊎ (result.0 ≡ 111))) }

    // What a crash leaves at every instant; if something is pending at the start, from the first sync that succeeds on.
    ensures instants { IsTrue S.tells_all → Opens ⟦<S as Site>⟧ site result.1
        (IsMaking (directory (S.disk site).reads) (first_puts config.now key.now) (made_text config.now) (S.output site)) }
    ensures at_rest { IsAtRest (S.disk site) → Leaves ⟦<S as Site>⟧ site result.1
        (IsMaking (directory (S.disk site).reads) (first_puts config.now key.now) (made_text config.now) (S.output site)) }

    // Nothing is pending then, except after a fault or lack of memory.
    ensures rest { (Rose (S.disk_faults site) (S.disk_faults result.1) → ⊥) → (result.0 ≡ 71 → ⊥) → (result.0 ≡ 73 → ⊥)
        → IsTrue S.tells_all → IsAtRest (S.disk result.1) }

    // Which statuses there are, and which counts rose.
    ensures statuses { IsTrue (is_make_status result.0) }
    ensures counts { CountsSite ⟦<S as Site>⟧ result.0 site result.1 }
{
    let Ok((txn, line)) = prepared(alloc, config, key) else {
        return stop(site, Why::Memory);
    };
    match Store::open(alloc, site) {
        Ok(store) => make_if_absent(alloc, store, &txn, line.as_slice()),
        Err((error, site)) => stop(site, not_opened(error)),
    }
}

// The files of a new list, and the line that says that it is made.
fn prepared(alloc: Global, config: &Config, key: &[u8; 32]) -> Result<(Txn, Bytes), AllocError>
    ensures puts { IfOk result (λ list. list.0 ≡ first_puts config.now key.now) }
    ensures files { IfOk result (λ list. IsTrue (are_files list.0)) }
    ensures line { IfOk result (λ list. list.1 ≡ made_text config.now) }
{
    let txn = initial(alloc, config, key)?;
    let line = made_line(alloc, config)?;
    Ok((txn, line))
}

// The line that says that a list is made.
fn made_line(alloc: Global, config: &Config) -> Result<Bytes, AllocError>
    ensures { IfOk result (λ line. line ≡ made_text config.now) }
{
    let size = config.local.len().saturating_add(config.host.len());
    let mut line = Bytes::with_capacity(alloc, size.saturating_add(7))?;
    line.extend(b"made ")?;
    line.extend(config.local.as_slice())?;
    line.push(b'@')?;
    line.extend(config.host.as_slice())?;
    line.push(b'\n')?;
    Ok(line)
}

// Makes a list over a store that was opened, if there is no configuration.
fn make_if_absent<S: Site>(alloc: Global, store: Store<S>, txn: &Txn, line: &[u8]) -> (u8, S)
    requires files { IsTrue (are_files txn.now) }
    ensures makes { IsTrue S.tells_reads → Makes (IsTrue S.tells_all) result.0 (directory (S.disk (site_of store)).reads) txn.now line.now (S.output (site_of store)) (S.disk result.1).reads (S.output result.1) }
    ensures there { IsTrue S.tells_reads → (files : Dir) → directory (S.disk (site_of store)).reads ≡ Some files → files config_name ≢ None →
        (result.0 ≡ 100) ⊎ ((result.0 ≡ 71) ⊎ ((result.0 ≡ 73) ⊎ (result.0 ≡ 111))) }
    ensures instants { Leaves ⟦<S as Site>⟧ (site_of store) result.1 (IsMaking (directory (S.disk (site_of store)).reads) txn.now line.now (S.output (site_of store))) }
    ensures rest { (Rose (S.disk_faults (site_of store)) (S.disk_faults result.1) → ⊥) → (result.0 ≡ 71 → ⊥) → (result.0 ≡ 73 → ⊥)
        → IsTrue S.tells_all → IsAtRest (S.disk result.1) }
    ensures statuses { IsTrue (is_make_status result.0) }
    ensures counts { CountsSite ⟦<S as Site>⟧ result.0 (site_of store) result.1 }
{
    let mut store = store;
    match store.get(alloc, Name::CONFIG) {
        Ok(Some(_)) => close_unmade(alloc, store, Why::There),
        Ok(None) => commit_list(alloc, store, txn, line),
        Err(FilesError::Fault) => close_unmade(alloc, store, Why::Disk),
        Err(FilesError::Memory) => close_unmade(alloc, store, Why::Memory),
    }
}

// Commits the files of a new list, closes the store, and gives the line that says that it is made.
fn commit_list<S: Site>(alloc: Global, store: Store<S>, txn: &Txn, line: &[u8]) -> (u8, S)
    requires files { IsTrue (are_files txn.now) }
    ensures makes { IsTrue S.tells_reads → Makes (IsTrue S.tells_all) result.0 (directory (S.disk (site_of store)).reads) txn.now line.now (S.output (site_of store)) (S.disk result.1).reads (S.output result.1) }
    ensures instants { Leaves ⟦<S as Site>⟧ (site_of store) result.1 (IsMaking (directory (S.disk (site_of store)).reads) txn.now line.now (S.output (site_of store))) }
    ensures rest { (Rose (S.disk_faults (site_of store)) (S.disk_faults result.1) → ⊥) → (result.0 ≡ 71 → ⊥) → (result.0 ≡ 73 → ⊥)
        → IsTrue S.tells_all → IsAtRest (S.disk result.1) }
    ensures statuses { IsTrue (is_make_status result.0) }
    ensures counts { CountsSite ⟦<S as Site>⟧ result.0 (site_of store) result.1 }
{
    match store.commit(alloc, txn) {
        Ok(store) => give_text(alloc, store, line),
        Err((error, site)) => stop(site, why_refused(error)),
    }
}

// Closes the store of a list that is not made, and says why.
fn close_unmade<S: Site>(alloc: Global, store: Store<S>, why: Why) -> (u8, S)
    requires { HasPath why }
    ensures { Finishes ⟦<S as Site>⟧ (site_of store) result.1 (Some (None, why)) result.0 0 }
{
    let (ending, site) = finish(alloc, store, Some((None, why)), 0, 0);
    (ending.status, site)
}
