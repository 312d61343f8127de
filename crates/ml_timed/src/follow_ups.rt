// Following bounces up: what is done about the due entries of both ledgers.
ghost use Rattle.std.specs.Prelude.{◌≡◌, ◌+◌, ℕ, true, fold, length, Some, IsTrue, IfOk, OnErr};
ghost use Rattle.ml_base.specs.Dir.{Dir, with_puts};
ghost use Rattle.ml_base.specs.Layers.{files_below, puts_over};
ghost use Rattle.ml_bounce.specs.Answers.{has_ledger};
ghost use Rattle.ml_bounce.specs.Changes.{action_of};
ghost use Rattle.ml_bounce.specs.Ledger.{Ledger, find_entry};
ghost use Rattle.ml_bounce.specs.declared.entries.LedgerEntry.{LedgerEntry};
ghost use Rattle.ml_plain.specs.Directory.{IsList};
ghost use Rattle.ml_plain.specs.Plain.{Plain, ledger_of};
ghost use Rattle.ml_plain.specs.Timing as spec;
ghost use Rattle.ml_acts.specs.Damaged.{IsDamaged};
ghost use Rattle.ml_acts.specs.Doing.{Alike, HasIds, HasIdsUpTo};
ghost use Rattle.ml_timed.specs.Found.{is_followed_up};
ghost use Rattle.ml_timed.specs.Ahead.{HasIdsFor, IsAhead, of_set};
ghost use Rattle.ml_timed.specs.Reads.{is_followed_by, is_of_following};
ghost use Rattle.ml_timed.specs.Parts.{AnswersPart};

use crate::due_entry::follow_up;
use ml_acts::Moment;
use ml_base::{Files, Layer, PartError, Set};
use ml_bounce::{Action, due};
use ml_config::{Config, Keys, key};
use std::alloc::Global;

// How many due entries a timed run follows up at most.
const MOST_DUE: u64 = 1000;

// Follows up what is due in the ledgers of the sets list and digest, at most 1,000 entries, over the files with the puts that are laid over
// them, and lays what it does over these: members are warned or probed, stages lapse, entries whose address is no member's go. `now` is in
// seconds since 1970.
//
// Entries are taken in ascending order of key, those of list before those of digest; what is due is found before anything is done.
// It reads both ledgers and, if something is due, the keys, the counter of ids, and the bucket of every member who is warned or
// probed. After an error, what was done for the entries before it stays laid over the files.
pub(crate) fn follow_all_up<F: Files>(
    alloc: Global,
    files: &mut Layer<F>,
    config: &Config,
    now: Moment,
) -> Result<(), PartError>
    requires room { IsTrue F.tells → HasIdsUpTo (with_puts (F.map (files_below files.now)) (puts_over files.now)) 999_999_999_998_001 }
    ensures apart { IsTrue F.tells → IfOk result (λ _. (dir : Dir) (p : Plain) → Alike is_of_following (F.map (files_below files.old)) dir → IsList (with_puts dir (puts_over files.old)) p → p.config ≡ config.now → IsList (with_puts dir (puts_over files.new)) (spec.follow_all_up now.seconds p)) }
    ensures room { IsTrue F.tells → IfOk result (λ _. HasIdsUpTo (with_puts (F.map (files_below files.old)) (puts_over files.new)) 1_000_000_000_000_001) }
    ensures part { AnswersPart is_followed_up ⟦<F as Files>⟧ (λ name. is_of_following name ≡ true) (λ _. IsDamaged) files.old files.new result }
{
    let list = due(alloc, files, Set::List, now.seconds, MOST_DUE)?;
    let left = MOST_DUE.saturating_sub(list.as_slice().len() as u64);
    let digest = due(alloc, files, Set::Digest, now.seconds, left)?;
    if list.as_slice().is_empty() && digest.as_slice().is_empty() {
        return Ok(());
    }
    let keys = key(alloc, files)?;
    follow_each(alloc, files, config, &keys, Set::List, list.as_slice(), now)?;
    follow_each(
        alloc,
        files,
        config,
        &keys,
        Set::Digest,
        digest.as_slice(),
        now,
    )
}

// Follows up the entries of these actions, one after another.
fn follow_each<F: Files>(
    alloc: Global,
    files: &mut Layer<F>,
    config: &Config,
    keys: &Keys,
    set: Set,
    actions: &[Action],
    now: Moment,
) -> Result<(), PartError>
    requires ledger { IsTrue (has_ledger set) }
    requires room { IsTrue F.tells → HasIdsFor (with_puts (F.map (files_below files.now)) (puts_over files.now)) (length actions.now) }
    ensures apart { IsTrue F.tells → IfOk result (λ _. (dir : Dir) (p : Plain) (es : Ledger) → Alike (is_followed_by set) (F.map (files_below files.old)) dir → IsAhead (with_puts dir (puts_over files.old)) config.now keys.now set actions.now p es → IsList (with_puts dir (puts_over files.new)) (fold (spec.follow_up now.seconds) p (of_set set es))) }
    ensures drawn { IsTrue F.tells → IfOk result (λ _. (more : ℕ) → HasIdsFor (with_puts (F.map (files_below files.old)) (puts_over files.old)) (length actions.now + more) → HasIdsFor (with_puts (F.map (files_below files.old)) (puts_over files.new)) more) }
    ensures part { AnswersPart is_followed_up ⟦<F as Files>⟧ (λ name. is_followed_by set name ≡ true) (λ _. IsDamaged) files.old files.new result }
{
    let mut rest = actions;
    while let [action, more @ ..] = rest {
        follow_one(alloc, files, config, keys, set, action, now)?;
        rest = more;
    }
    Ok(())
}

// Follows up the entry of an action, over the files with the puts that are laid over them. An error changes nothing.
fn follow_one<F: Files>(
    alloc: Global,
    files: &mut Layer<F>,
    config: &Config,
    keys: &Keys,
    set: Set,
    action: &Action,
    now: Moment,
) -> Result<(), PartError>
    requires ledger { IsTrue (has_ledger set) }
    requires room { IsTrue F.tells → HasIds (with_puts (F.map (files_below files.now)) (puts_over files.now)) }
    ensures apart { IsTrue F.tells → IfOk result (λ _. (dir : Dir) (p : Plain) (e : LedgerEntry) → Alike (is_followed_by set) (F.map (files_below files.old)) dir → IsList (with_puts dir (puts_over files.old)) p → p.config ≡ config.now → p.keys ≡ keys.now → find_entry e.key (ledger_of p set) ≡ Some e → action_of e ≡ action.now → IsList (with_puts dir (puts_over files.new)) (spec.follow_up now.seconds p (set, e))) }
    ensures same { OnErr result (puts_over files.new ≡ puts_over files.old) }
    ensures drawn { IsTrue F.tells → IfOk result (λ _. (more : ℕ) → HasIdsFor (with_puts (F.map (files_below files.old)) (puts_over files.old)) (more + 1) → HasIdsFor (with_puts (F.map (files_below files.old)) (puts_over files.new)) more) }
    ensures part { AnswersPart is_followed_up ⟦<F as Files>⟧ (λ name. is_followed_by set name ≡ true) (λ _. IsDamaged) files.old files.new result }
{
    let txn = follow_up(alloc, files, config, keys, set, action, now)?;
    files.lay(txn)?;
    Ok(())
}
