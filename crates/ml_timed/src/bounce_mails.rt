// The mails by which members are warned and probed, each of which is one entry of the queue.
ghost use Rattle.std.specs.Prelude.{◌≡◌, ◌∷◌, [], true, IsTrue, IfOk};
ghost use Rattle.ml_base.specs.Address.{key};
ghost use Rattle.ml_base.specs.Dir.{Dir, are_files, same_name, touches_only, with_puts};
ghost use Rattle.ml_base.specs.ReadFiles.{IsReading, NamesDamaged};
ghost use Rattle.ml_base.specs.Sorted.{byte_cmp, is_sorted};
ghost use Rattle.ml_plain.specs.Directory.{IsList};
ghost use Rattle.ml_plain.specs.Mailing as spec;
ghost use Rattle.ml_plain.specs.Plain.{Plain};
ghost use Rattle.ml_queue.specs.Answers.{ids_name};
ghost use Rattle.ml_acts.specs.Damaged.{IsDamaged};
ghost use Rattle.ml_acts.specs.Doing.{DrawsId, HasIds, is_of_queue};
ghost use Rattle.ml_timed.specs.Telling as telling;

use ml_acts::{Moment, bounce_path, mail_body, send};
use ml_base::{Address, AddressList, Bytes, Files, PartError, Row, Set, Txn, key_of};
use ml_bounce::Action;
use ml_config::{Config, Keys};
use ml_reply::Mail;
use std::alloc::{AllocError, Global};

// The mail that a member gets by an action: a warning with the numbers that he missed, or a probe.
pub(crate) fn mail_for(
    alloc: Global,
    set: Set,
    action: &Action,
    who: &Address,
) -> Result<Mail, AllocError>
    ensures { IfOk result (λ mail. mail ≡ telling.mail_for set action.now who.now) }
{
    let to = Bytes::from_slice(alloc, who.bytes())?;
    let who = Bytes::from_slice(alloc, who.bytes())?;
    match action {
        Action::Warn { missed, .. } => {
            let numbers = Row::from_vec(Vec::from_slice(alloc, missed.as_slice())?);
            Ok(Mail::Warn {
                to,
                set,
                who,
                numbers,
            })
        }
        _ => Ok(Mail::Probe { to, set, who }),
    }
}

// The kind of the cookie that this mail's path has.
pub(crate) fn cookie_kind(action: &Action) -> &'static [u8]
    ensures { result.now ≡ telling.cookie_kind action.now }
{
    match action {
        Action::Warn { .. } => b"warn",
        _ => b"probe",
    }
}

// The puts that queue a mail to a member, under a path whose cookie is of this kind, `warn` or `probe`.
pub(crate) fn tell<F: Files>(
    alloc: Global,
    files: &mut F,
    config: &Config,
    keys: &Keys,
    kind: &[u8],
    set: Set,
    who: &Address,
    mail: Mail,
    now: Moment,
) -> Result<Txn, PartError>
    requires room { IsTrue F.tells → HasIds (F.map files.now) }
    ensures apart { IsTrue F.tells → IfOk result (λ txn. (dir : Dir) (p : Plain) → dir ids_name ≡ F.map files.old ids_name → IsList dir p → p.config ≡ config.now → p.keys ≡ keys.now → IsList (with_puts dir txn) (spec.bounce_mail kind.now set who.now now.seconds mail p)) }
    ensures own { IfOk result (λ txn. touches_only is_of_queue txn ≡ true) }
    ensures files { IfOk result (λ txn. IsTrue (are_files txn)) }
    ensures drawn { IsTrue F.tells → IfOk result (λ txn. DrawsId (F.map files.old) txn) }
    ensures names { NamesDamaged ⟦<F as Files>⟧ (λ name. same_name name ids_name ≡ true) (IsDamaged (F.map files.old)) result }
    ensures reads { IsReading ⟦<F as Files>⟧ files.old files.new result }
{
    let body = mail_body(alloc, config, mail, now)?;
    let key = key_of(alloc, who)?;
    let way = bounce_path(alloc, config, keys, kind, set, key.as_slice(), now.seconds)?;
    let to = alone(alloc, who)?;
    send(alloc, files, way, body, to)
}

// An address as the only recipient.
fn alone(alloc: Global, who: &Address) -> Result<AddressList, AllocError>
    ensures value { IfOk result (λ to. to ≡ who.now ∷ []) }
    ensures sorted { IfOk result (λ to. is_sorted byte_cmp key to ≡ true) }
{
    let mut to = Row::new(alloc);
    to.push(who.copy(alloc)?)?;
    Ok(to)
}
