// Acts that send one mail.
ghost use Rattle.std.specs.Prelude.{◌≡◌, Bool, true, IsTrue, IfOk};
ghost use Rattle.ml_base.specs.Dir.{Dir, are_files, same_name, touches_only, with_puts};
ghost use Rattle.ml_base.specs.ReadFiles.{IsReading, NamesDamaged};
ghost use Rattle.ml_base.specs.declared.names.Name.{Name};
ghost use Rattle.ml_base.specs.declared.names.Set.TheVariants as sets;
ghost use Rattle.ml_plain.specs.Directory.{IsList};
ghost use Rattle.ml_plain.specs.Mailing as spec;
ghost use Rattle.ml_plain.specs.Plain.{Plain};
ghost use Rattle.ml_queue.specs.Answers.{ids_name};
ghost use Rattle.ml_acts.specs.Doing.{Alike, DoesList, HasIds, is_beside_mail, is_beside_mark, is_beside_queue, is_mailed_by, is_of_queue};
ghost use Rattle.ml_acts.specs.Damaged.{IsDamaged};
ghost use Rattle.ml_acts.specs.Found.{AddsMail, AddsMailToSet};

use crate::{Moment, mail_moderators, mail_to};
use ml_base::{Address, Files, PartError, Txn};
use ml_config::Config;
use ml_plain::Reply;
use ml_reply::Mail;
use std::alloc::Global;

/// Answers these puts, then those of a mail of this moment to one address, and this reply. The given puts are of files that a delivery may
/// write, other than the queue's; all puts are of these files and the queue's (`within`). It reads the counter of ids.
pub fn with_mail<F: Files>(
    alloc: Global,
    files: &mut F,
    config: &Config,
    txn: Txn,
    to: &Address,
    now: Moment,
    mail: Mail,
    reply: Reply,
) -> Result<(Txn, Reply), PartError>
    requires room { IsTrue F.tells → HasIds (F.map files.now) }
    requires others { touches_only is_beside_queue txn ≡ true }
    requires names { IsTrue (are_files txn) }
    ensures value { IsTrue F.tells → IfOk result (λ done. (p : Plain) → IsList (with_puts (F.map files.old) txn) p → p.config ≡ config.now → DoesList (F.map files.old) done (spec.mail_to to.now now.seconds mail p, reply)) }
    ensures apart { IsTrue F.tells → IfOk result (λ done. (dir : Dir) (p : Plain) → dir ids_name ≡ F.map files.old ids_name → IsList (with_puts dir txn) p → p.config ≡ config.now → DoesList dir done (spec.mail_to to.now now.seconds mail p, reply)) }
    ensures own { IfOk result (λ done. touches_only is_beside_mark done.0 ≡ true) }
    ensures within { (may : Name → Bool) → ((name : Name) → is_of_queue name ≡ true → may name ≡ true) → touches_only may txn ≡ true → IfOk result (λ done. touches_only may done.0 ≡ true) }
    ensures files { IfOk result (λ done. IsTrue (are_files done.0)) }
    ensures reply { IfOk result (λ done. done.1 ≡ reply) }
    ensures found { IsTrue F.tells → IfOk result (λ done. AddsMail (F.map files.old) txn done.0) }
    ensures names { NamesDamaged ⟦<F as Files>⟧ (λ name. same_name name ids_name ≡ true) (IsDamaged (F.map files.old)) result }
    ensures reads { IsReading ⟦<F as Files>⟧ files.old files.new result }
{
    let more = mail_to(alloc, files, config, to, now, mail)?;
    let mut txn = txn;
    txn.join(more)?;
    Ok((txn, reply))
}

/// Answers these puts, then those of a mail of this moment to all moderators, and this reply. The given puts are of files that a delivery
/// may write, other than those of the queue and of the moderators' set; all puts are of these files and the queue's (`within`). It reads
/// that set without its count, and the counter of ids.
pub fn with_mail_to_moderators<F: Files>(
    alloc: Global,
    files: &mut F,
    config: &Config,
    txn: Txn,
    now: Moment,
    mail: Mail,
    reply: Reply,
) -> Result<(Txn, Reply), PartError>
    requires room { IsTrue F.tells → HasIds (F.map files.now) }
    requires others { touches_only (is_beside_mail sets.Moderators) txn ≡ true }
    requires names { IsTrue (are_files txn) }
    ensures value { IsTrue F.tells → IfOk result (λ done. (p : Plain) → IsList (with_puts (F.map files.old) txn) p → p.config ≡ config.now → DoesList (F.map files.old) done (spec.mail_moderators now.seconds mail p, reply)) }
    ensures apart { IsTrue F.tells → IfOk result (λ done. (dir : Dir) (p : Plain) → Alike (is_mailed_by sets.Moderators) (F.map files.old) dir → IsList (with_puts dir txn) p → p.config ≡ config.now → DoesList dir done (spec.mail_moderators now.seconds mail p, reply)) }
    ensures own { IfOk result (λ done. touches_only is_beside_mark done.0 ≡ true) }
    ensures within { (may : Name → Bool) → ((name : Name) → is_of_queue name ≡ true → may name ≡ true) → touches_only may txn ≡ true → IfOk result (λ done. touches_only may done.0 ≡ true) }
    ensures files { IfOk result (λ done. IsTrue (are_files done.0)) }
    ensures reply { IfOk result (λ done. done.1 ≡ reply) }
    ensures found { IsTrue F.tells → IfOk result (λ done. AddsMailToSet (F.map files.old) sets.Moderators txn done.0) }
    ensures names { NamesDamaged ⟦<F as Files>⟧ (λ name. is_mailed_by sets.Moderators name ≡ true) (IsDamaged (F.map files.old)) result }
    ensures reads { IsReading ⟦<F as Files>⟧ files.old files.new result }
{
    let more = mail_moderators(alloc, files, config, now, mail)?;
    let mut txn = txn;
    txn.join(more)?;
    Ok((txn, reply))
}
