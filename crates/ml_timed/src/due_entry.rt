// What is done about one due entry of a ledger.
ghost use Rattle.std.specs.Prelude.{◌≡◌, true, Some, IsTrue, IfOk};
ghost use Rattle.ml_base.specs.Address.{key};
ghost use Rattle.ml_base.specs.Dir.{Dir, are_files, touches_only, with_puts};
ghost use Rattle.ml_base.specs.ReadFiles.{IsReading, NamesDamaged};
ghost use Rattle.ml_bounce.specs.Answers.{action_key, has_ledger};
ghost use Rattle.ml_bounce.specs.Changes.{action_of};
ghost use Rattle.ml_bounce.specs.Ledger.{find_entry};
ghost use Rattle.ml_bounce.specs.declared.entries.LedgerEntry.{LedgerEntry};
ghost use Rattle.ml_plain.specs.Directory.{IsList};
ghost use Rattle.ml_plain.specs.Plain.{Plain, ledger_of};
ghost use Rattle.ml_plain.specs.Timing as spec;
ghost use Rattle.ml_acts.specs.Damaged.{IsDamaged};
ghost use Rattle.ml_acts.specs.Doing.{Alike, DrawsId, HasIds, is_entry_of, is_of_queue, without_entry};
ghost use Rattle.ml_timed.specs.Found.{is_followed_up};
ghost use Rattle.ml_timed.specs.Reads.{is_followed_by};
ghost use Rattle.ml_timed.specs.Telling.{is_mailed};

use crate::bounce_mails::{cookie_kind, mail_for, tell};
use ml_acts::Moment;
use ml_base::{Address, Files, PartError, Set, Txn};
use ml_bounce::{Action, act, forget};
use ml_config::{Config, Keys};
use ml_subs::find;
use std::alloc::Global;

// The puts of what an action does about its entry.
pub(crate) fn follow_up<F: Files>(
    alloc: Global,
    files: &mut F,
    config: &Config,
    keys: &Keys,
    set: Set,
    action: &Action,
    now: Moment,
) -> Result<Txn, PartError>
    requires ledger { IsTrue (has_ledger set) }
    requires room { IsTrue F.tells → HasIds (F.map files.now) }
    ensures apart { IsTrue F.tells → IfOk result (λ txn. (dir : Dir) (p : Plain) (e : LedgerEntry) → Alike (is_followed_by set) (F.map files.old) dir → IsList dir p → p.config ≡ config.now → p.keys ≡ keys.now → find_entry e.key (ledger_of p set) ≡ Some e → action_of e ≡ action.now → IsList (with_puts dir txn) (spec.follow_up now.seconds p (set, e))) }
    ensures own { IfOk result (λ txn. touches_only is_followed_up txn ≡ true) }
    ensures files { IfOk result (λ txn. IsTrue (are_files txn)) }
    ensures drawn { IsTrue F.tells → IfOk result (λ txn. DrawsId (F.map files.old) txn) }
    ensures names { NamesDamaged ⟦<F as Files>⟧ (λ name. is_followed_by set name ≡ true) (IsDamaged (F.map files.old)) result }
    ensures reads { IsReading ⟦<F as Files>⟧ files.old files.new result }
{
    match action {
        Action::Warn { to, .. } => warn_or_probe(alloc, files, config, keys, set, action, to, now),
        Action::Probe { to } => warn_or_probe(alloc, files, config, keys, set, action, to, now),
        Action::Lapse { .. } => add_entry_change(alloc, files, set, action, now, Txn::new(alloc)),
    }
}

// A member gets the mail of an action that isn't a lapse; if the address is no member's, its entry goes.
fn warn_or_probe<F: Files>(
    alloc: Global,
    files: &mut F,
    config: &Config,
    keys: &Keys,
    set: Set,
    action: &Action,
    to: &Address,
    now: Moment,
) -> Result<Txn, PartError>
    requires ledger { IsTrue (has_ledger set) }
    requires mailed { is_mailed action.now ≡ true }
    requires to { action_key action.now ≡ to.now }
    requires room { IsTrue F.tells → HasIds (F.map files.now) }
    ensures apart { IsTrue F.tells → IfOk result (λ txn. (dir : Dir) (p : Plain) (e : LedgerEntry) → Alike (is_followed_by set) (F.map files.old) dir → IsList dir p → p.config ≡ config.now → p.keys ≡ keys.now → find_entry e.key (ledger_of p set) ≡ Some e → action_of e ≡ action.now → IsList (with_puts dir txn) (spec.follow_up now.seconds p (set, e))) }
    ensures own { IfOk result (λ txn. touches_only is_followed_up txn ≡ true) }
    ensures files { IfOk result (λ txn. IsTrue (are_files txn)) }
    ensures drawn { IsTrue F.tells → IfOk result (λ txn. DrawsId (F.map files.old) txn) }
    ensures names { NamesDamaged ⟦<F as Files>⟧ (λ name. is_followed_by set name ≡ true) (IsDamaged (F.map files.old)) result }
    ensures reads { IsReading ⟦<F as Files>⟧ files.old files.new result }
{
    let Some(member) = find(alloc, files, set, to)? else {
        return drop_entry(alloc, files, set, to);
    };
    let mail = mail_for(alloc, set, action, &member.who)?;
    let txn = tell(
        alloc,
        files,
        config,
        keys,
        cookie_kind(action),
        set,
        &member.who,
        mail,
        now,
    )?;
    add_entry_change(alloc, files, set, action, now, txn)
}

// These puts of the queue, and after them those that change the entry of an action.
fn add_entry_change<F: Files>(
    alloc: Global,
    files: &mut F,
    set: Set,
    action: &Action,
    now: Moment,
    txn: Txn,
) -> Result<Txn, PartError>
    requires ledger { IsTrue (has_ledger set) }
    requires queue { touches_only is_of_queue txn ≡ true }
    requires names { IsTrue (are_files txn) }
    ensures apart { IsTrue F.tells → IfOk result (λ done. (dir : Dir) (p : Plain) (e : LedgerEntry) → Alike (is_entry_of set (action_key action.now)) (F.map files.old) dir → IsList (with_puts dir txn) p → find_entry (key (action_key action.now)) (ledger_of p set) ≡ Some e → IsList (with_puts dir done) (spec.change_entry now.seconds set e p)) }
    ensures own { IfOk result (λ done. touches_only is_followed_up done ≡ true) }
    ensures files { IfOk result (λ done. IsTrue (are_files done)) }
    ensures drawn { IsTrue F.tells → DrawsId (F.map files.old) txn → IfOk result (λ done. DrawsId (F.map files.old) done) }
    ensures names { NamesDamaged ⟦<F as Files>⟧ (λ name. is_entry_of set (action_key action.now) name ≡ true) (IsDamaged (F.map files.old)) result }
    ensures reads { IsReading ⟦<F as Files>⟧ files.old files.new result }
{
    let more = act(alloc, files, set, action, now.seconds)?;
    let mut txn = txn;
    txn.join(more)?;
    Ok(txn)
}

// The puts that remove the entry of an address that is no member's.
fn drop_entry<F: Files>(
    alloc: Global,
    files: &mut F,
    set: Set,
    who: &Address,
) -> Result<Txn, PartError>
    requires ledger { IsTrue (has_ledger set) }
    ensures apart { IsTrue F.tells → IfOk result (λ txn. (dir : Dir) (p : Plain) → Alike (is_entry_of set who.now) (F.map files.old) dir → IsList dir p → IsList (with_puts dir txn) (without_entry set who.now p)) }
    ensures own { IfOk result (λ txn. touches_only is_followed_up txn ≡ true) }
    ensures files { IfOk result (λ txn. IsTrue (are_files txn)) }
    ensures drawn { IsTrue F.tells → IfOk result (λ txn. DrawsId (F.map files.old) txn) }
    ensures names { NamesDamaged ⟦<F as Files>⟧ (λ name. is_entry_of set who.now name ≡ true) (IsDamaged (F.map files.old)) result }
    ensures reads { IsReading ⟦<F as Files>⟧ files.old files.new result }
{
    forget(alloc, files, set, who)
}
