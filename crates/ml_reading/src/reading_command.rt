// A reading command: a store is opened, its files are read, it is closed, and a text is given.
ghost use Rattle.std.specs.Prelude.{◌≡◌, ◌≤◌, ◌+◌, ◌∷◌, [], IsTrue, IsSome, IfOk, IfErr, Some, None};
ghost use Rattle.ml_base.specs.Dir.{Dir};
ghost use Rattle.ml_base.specs.Faults.{Rose};
ghost use Rattle.ml_base.specs.ReadFiles.{AreKept};
ghost use Rattle.ml_config.specs.ConfigFile.{config_name, IsConfigFile};
ghost use Rattle.ml_config.specs.Configuration.{IsConfig};
ghost use Rattle.ml_site.specs.Disk.{IsAtRest};
ghost use Rattle.ml_reading.specs.Giving.{GivesAnswer};
ghost use Rattle.ml_journal.specs.Calls.{Leaves};
ghost use Rattle.ml_journal.specs.Log.{directory};
ghost use Rattle.ml_journal.specs.Stores.{site_of};
ghost use Rattle.ml_plain.specs.Directory.{IsState};
ghost use Rattle.ml_plain.specs.Histories.{State};
ghost use Rattle.ml_ending.specs.Endings.{Finishes};
ghost use Rattle.ml_ending.specs.Lines.{HasPath};
ghost use Rattle.ml_reading.specs.Readings.{Reads, GivesFound, IsAnswered, IsFilesReason, IsOutcome, IsLeftByReading, IsUnread, is_status_of};
ghost use Rattle.ml_reading.specs.declared.question.Answer.TheVariants as answers;

use crate::question::{Answer, Question};
use ml_base::{Bytes, Files};
use ml_config::{Config, load};
use ml_ending::{Why, finish, give_text, not_opened, stop, why_of};
use ml_journal::Store;
use ml_site::Site;
use std::alloc::Global;

/// Gives the text that answers a question about a list. It opens the list of a site, which completes what an earlier run began, changes
/// nothing else, closes it, and hands the site back.
///
/// The status is 0 then. Otherwise one stop line says why nothing is given: 71 (out of memory), 75 (there is no list, or a file is
/// damaged), 111 (the disk failed), 100 (what is asked for isn't there) or 65 (the answer would be too long). The last two come only from
/// questions that may have such an answer. The status is 73 if the output failed.
pub fn read_list<Q: Question, S: Site>(alloc: Global, question: &Q, site: S) -> (u8, S)
    ensures { GivesAnswer ⟦<S as Site>⟧ (Q.meaning question.now) site result.1 result.0 }
{
    match Store::open(alloc, site) {
        Ok(store) => answer_from_store(alloc, question, store),
        Err((error, site)) => stop(site, not_opened(error)),
    }
}

// Answers a question from a store that was opened.
fn answer_from_store<Q: Question, S: Site>(alloc: Global, question: &Q, store: Store<S>) -> (u8, S)
    requires { IsTrue S.tells_reads → IsSome (directory (S.disk (site_of store)).reads) }
    ensures given { IsTrue S.tells_reads → Reads (IsTrue S.tells_all) result.0 (Q.meaning question.now) (directory (S.disk (site_of store)).reads) (S.output (site_of store)) (S.output result.1) }
    ensures complete { IsTrue S.tells_reads → (files : Dir) (q : State) → directory (S.disk (site_of store)).reads ≡ Some files → IsState files q →
        GivesFound (IsTrue S.tells_all) result.0 ((Q.meaning question.now).of_list q.plain) (S.output (site_of store)) (S.output result.1) }
    ensures same { IsTrue S.tells_reads → directory (S.disk result.1).reads ≡ directory (S.disk (site_of store)).reads }
    ensures instants { Leaves ⟦<S as Site>⟧ (site_of store) result.1 (IsLeftByReading (Q.meaning question.now) (directory (S.disk (site_of store)).reads) (S.output (site_of store))) }
    ensures rest { (Rose (S.disk_faults (site_of store)) (S.disk_faults result.1) → ⊥) → (result.0 ≡ 71 → ⊥) → (result.0 ≡ 73 → ⊥)
        → IsTrue S.tells_all → IsAtRest (S.disk result.1) }
    ensures gate { (result.0 ≡ 71 → ⊥) → (result.0 ≡ 73 → ⊥) → (result.0 ≡ 111 → ⊥) → IsTrue S.tells_reads → (S.disk result.1).reads.log ≡ 0 ∷ [] }
    ensures statuses { IsTrue (is_status_of (Q.meaning question.now) result.0) }
    ensures disk { result.0 ≡ 111 → Rose (S.disk_faults (site_of store)) (S.disk_faults result.1) }
    ensures output { result.0 ≡ 73 → Rose (S.output_faults (site_of store)) (S.output_faults result.1) }
    ensures disk_later { S.disk_faults (site_of store) ≤ S.disk_faults result.1 }
    ensures output_later { S.output_faults (site_of store) ≤ S.output_faults result.1 }
    ensures syncs { IsTrue S.tells_all → S.syncs result.1 ≤ S.syncs (site_of store) + 3 }
{
    let mut store = store;
    match answer(alloc, question, &mut store) {
        Ok(text) => give_text(alloc, store, text.as_slice()),
        Err(why) => close_unread(alloc, store, why),
    }
}

// The text that answers a question from files, or why there is none.
fn answer<Q: Question, F: Files>(alloc: Global, question: &Q, files: &mut F) -> Result<Bytes, Why>
    ensures value { IsTrue F.tells → IfOk result (λ text. IsAnswered (Q.meaning question.now) (F.map files.old) (answers.Text text)) }
    ensures complete { IsTrue F.tells → (q : State) → IsState (F.map files.old) q → IsOutcome ((Q.meaning question.now).of_list q.plain) result }
    ensures reason { IsTrue F.tells → IfErr result (λ why. IsUnread why (Q.meaning question.now) (F.map files.old) (Rose (F.faults files.old) (F.faults files.new))) }
    ensures known { IfErr result (IsFilesReason (Q.meaning question.now)) }
    ensures path { IfErr result HasPath }
    ensures cause { IfErr result (λ why. why ≡ Why.Disk → Rose (F.faults files.old) (F.faults files.new)) }
    ensures kept { AreKept ⟦<F as Files>⟧ files.old files.new }
{
    match load(alloc, files) {
        Ok(Some(config)) => answer_with(alloc, question, &config, files),
        Ok(None) => Err(Why::NoList),
        Err(error) => Err(why_of(error)),
    }
}

// The same, of files that have this configuration.
fn answer_with<Q: Question, F: Files>(
    alloc: Global,
    question: &Q,
    config: &Config,
    files: &mut F,
) -> Result<Bytes, Why>
    requires config { IsTrue F.tells → IsConfigFile (F.map files.old config_name) config.now }
    requires range { IsConfig config.now }
    ensures value { IsTrue F.tells → IfOk result (λ text. IsAnswered (Q.meaning question.now) (F.map files.old) (answers.Text text)) }
    ensures complete { IsTrue F.tells → (q : State) → IsState (F.map files.old) q → IsOutcome ((Q.meaning question.now).of_list q.plain) result }
    ensures reason { IsTrue F.tells → IfErr result (λ why. IsUnread why (Q.meaning question.now) (F.map files.old) (Rose (F.faults files.old) (F.faults files.new))) }
    ensures known { IfErr result (IsFilesReason (Q.meaning question.now)) }
    ensures path { IfErr result HasPath }
    ensures cause { IfErr result (λ why. why ≡ Why.Disk → Rose (F.faults files.old) (F.faults files.new)) }
    ensures kept { AreKept ⟦<F as Files>⟧ files.old files.new }
{
    match question.answer(alloc, config, files) {
        Ok(Answer::Text(text)) => Ok(text),
        Ok(Answer::Absent) => Err(Why::Absent),
        Ok(Answer::Long) => Err(Why::Long),
        Err(error) => Err(why_of(error)),
    }
}

// Closes the store of a list, and gives the stop line that says why there is no text.
fn close_unread<S: Site>(alloc: Global, store: Store<S>, why: Why) -> (u8, S)
    requires { HasPath why }
    ensures { Finishes ⟦<S as Site>⟧ (site_of store) result.1 (Some (None, why)) result.0 0 }
{
    let (ending, site) = finish(alloc, store, Some((None, why)), 0, 0);
    (ending.status, site)
}
