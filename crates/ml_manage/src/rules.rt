// What a request does: the first rule that applies decides.
ghost use Rattle.std.specs.Prelude.{◌≡◌, true, codes, IsTrue, IfErr, IfOk};
ghost use Rattle.ml_address.specs.Requests.{Bounce, WarnBounce, ProbeBounce, is_in_range};
ghost use Rattle.ml_address.specs.Views.{request_view, who_view};
ghost use Rattle.ml_base.specs.Address.{address_of, key};
ghost use Rattle.ml_base.specs.Dir.{Dir};
ghost use Rattle.ml_base.specs.PartErrors.{OnDamaged};
ghost use Rattle.ml_base.specs.Ranges.{IsMoment};
ghost use Rattle.ml_config.specs.ConfigFile.{IsConfigFile, config_name};
ghost use Rattle.ml_config.specs.Configuration.{IsConfig};
ghost use Rattle.ml_header.specs.Fields.{has_field};
ghost use Rattle.ml_plain.specs.Bouncing.{address_named};
ghost use Rattle.ml_plain.specs.Bouncing as bouncing;
ghost use Rattle.ml_plain.specs.Directory.{IsList};
ghost use Rattle.ml_plain.specs.Managing as spec;
ghost use Rattle.ml_plain.specs.Plain.{Plain};
ghost use Rattle.ml_acts.specs.Acting.{AnswersWithin};
ghost use Rattle.ml_acts.specs.Asked.{Count, IsDamagedOf};
ghost use Rattle.ml_acts.specs.Configured.{with_config};
ghost use Rattle.ml_acts.specs.Damaged.{IsDamaged};
ghost use Rattle.ml_acts.specs.Doing.{Alike, DoesList, HasRoom, is_entry_of, is_left_by};
ghost use Rattle.ml_manage.specs.Found.{FoundByRequest, FoundBySender, FoundManaged, FoundToNote, FoundToProbe, FoundToWarn};
ghost use Rattle.ml_manage.specs.Leaving.{signed};
ghost use Rattle.ml_manage.specs.Reads.{IsDamagedFor, is_asked_of, is_managed, is_of_bounce, is_of_probe, is_of_warning, is_read_for, is_read_for_sender, is_seen_for, is_seen_for_sender, is_seen_of};
ghost use Rattle.ml_manage.specs.Written.{is_written_for, is_written_for_sender, is_written_of};

use crate::archive::{Part, send_part};
use crate::bounces::{take_bounce, take_probe_bounce, take_warning_bounce};
use crate::help_and_owner::{send_help, to_owner};
use crate::members::members;
use ml_acts::{Configured, Moment};
use ml_address::{Request, Who};
use ml_base::{Address, Files, PartError, Set, Txn};
use ml_config::Config;
use ml_header::Message;
use ml_joining::{confirm, named_address, subscribe, unsubscribe};
use ml_plain::Reply;
use std::alloc::Global;

/// What a request does that mail to one of the list's addresses makes, with this envelope sender and this message: the puts, and the
/// reply. The request is neither a post nor a moderator's answer, and its parts are in their ranges; `now` is in seconds since 1970. What
/// it does is said of the files with the configuration in place of theirs.
///
/// Bounces are noted, and mail to the owner goes on, whoever sent it. For the others, a sender that isn't an address is answered
/// `nosender`, and a message from a list `looped`. `Damaged` names a file that the request may read and that is damaged for what it asks:
/// it is outside its grammar, or names what isn't there. Only the files that it may read and the posts that it asks for are looked at: what
/// others hold, and whether they are damaged, makes no difference. `Fault` comes only if a read failed.
pub fn manage<F: Files>(
    alloc: Global,
    files: &mut F,
    config: &Config,
    now: u64,
    sender: &[u8],
    request: &Request<'_>,
    message: &[u8],
) -> Result<(Txn, Reply), PartError>
    requires moment { IsMoment now }
    requires config { IsConfig config.now }
    requires room { IsTrue F.tells → HasRoom (F.map files.now) }
    requires request { is_managed (request_view request.now) ≡ true }
    ensures value { IsTrue F.tells → IfOk result (λ done. (p : Plain) → IsList (with_config config.now (F.map files.old)) p → DoesList (with_config config.now (F.map files.old)) done (spec.by_request now sender.now message.now p (request_view request.now))) }
    ensures apart { IsTrue F.tells → IfOk result (λ done. (dir : Dir) (p : Plain) → Alike (is_seen_for_sender config.now sender.now (request_view request.now)) (F.map files.old) dir → IsList dir p → p.config ≡ config.now → DoesList dir done (spec.by_request now sender.now message.now p (request_view request.now))) }
    ensures spared { IsTrue F.tells → (dir : Dir) (p : Plain) → Alike (is_seen_for_sender config.now sender.now (request_view request.now)) (F.map files.old) dir → IsList dir p → p.config ≡ config.now → IfErr result (λ e. OnDamaged e (λ _. ⊥)) }
    ensures found { IsTrue F.tells → IfOk result (FoundByRequest (with_config config.now (F.map files.old)) config.now sender.now message.now (request_view request.now)) }
    ensures act { AnswersWithin (is_written_for_sender sender.now (request_view request.now)) ⟦<F as Files>⟧ (λ name. is_read_for_sender config.now sender.now (request_view request.now) name ≡ true) (IsDamagedFor (with_config config.now (F.map files.old)) config.now (request_view request.now)) files.old files.new result }
{
    let mut under = Configured { files, config };
    let now = Moment { seconds: now };
    by_request(alloc, &mut under, config, now, sender, request, message)
}

// A request, whoever sent it.
fn by_request<F: Files>(
    alloc: Global,
    files: &mut F,
    config: &Config,
    now: Moment,
    sender: &[u8],
    request: &Request<'_>,
    message: &[u8],
) -> Result<(Txn, Reply), PartError>
    requires config { IsConfig config.now }
    requires loaded { IsTrue F.tells → IsConfigFile (F.map files.now config_name) config.now }
    requires room { IsTrue F.tells → HasRoom (F.map files.now) }
    requires request { is_managed (request_view request.now) ≡ true }
    ensures apart { IsTrue F.tells → IfOk result (λ done. (dir : Dir) (p : Plain) → Alike (is_seen_for_sender config.now sender.now (request_view request.now)) (F.map files.old) dir → IsList dir p → p.config ≡ config.now → DoesList dir done (spec.by_request now.seconds sender.now message.now p (request_view request.now))) }
    ensures spared { IsTrue F.tells → (dir : Dir) (p : Plain) → Alike (is_seen_for_sender config.now sender.now (request_view request.now)) (F.map files.old) dir → IsList dir p → p.config ≡ config.now → IfErr result (λ e. OnDamaged e (λ _. ⊥)) }
    ensures found { IsTrue F.tells → IfOk result (FoundByRequest (F.map files.old) config.now sender.now message.now (request_view request.now)) }
    ensures act { AnswersWithin (is_written_for_sender sender.now (request_view request.now)) ⟦<F as Files>⟧ (λ name. is_read_for_sender config.now sender.now (request_view request.now) name ≡ true) (IsDamagedFor (F.map files.old) config.now (request_view request.now)) files.old files.new result }
{
    match request {
        Request::Bounce { set, number, who } => { of_bounce(alloc, files, now, *set, *number, who) }
        Request::WarnBounce {
            set,
            time,
            cookie,
            who,
        } => of_warning(alloc, files, now, *set, *time, cookie, who),
        Request::ProbeBounce {
            set,
            time,
            cookie,
            who,
        } => of_probe(alloc, files, now.seconds, *set, *time, cookie, who),
        Request::ReplyBounce { .. } => Ok((Txn::new(alloc), Reply::plain(Reply::IGNORED))),
        Request::Owner => to_owner(alloc, files, config, message),
        Request::Help
        | Request::Other
        | Request::Subscribe { .. }
        | Request::Unsubscribe { .. }
        | Request::Members { .. }
        | Request::Confirm { .. }
        | Request::Get { .. }
        | Request::Index { .. }
        | Request::Thread { .. }
        | Request::Post
        | Request::Accept { .. }
        | Request::Reject { .. } => {
            by_sender(alloc, files, config, now, sender, request, message)
        }
    }
}

// A bounce of mail to an address that it names.
fn of_bounce<F: Files>(
    alloc: Global,
    files: &mut F,
    now: Moment,
    set: Set,
    number: u64,
    who: &Who<'_>,
) -> Result<(Txn, Reply), PartError>
    requires range { IsTrue (is_in_range (Bounce set number (who_view who.now))) }
    ensures apart { IsTrue F.tells → IfOk result (λ done. (dir : Dir) (p : Plain) → Alike (is_of_bounce set (address_named (who_view who.now))) (F.map files.old) dir → IsList dir p → DoesList dir done (bouncing.bounced now.seconds set number (address_named (who_view who.now)) p)) }
    ensures spared { IsTrue F.tells → (dir : Dir) (p : Plain) → Alike (is_of_bounce set (address_named (who_view who.now))) (F.map files.old) dir → IsList dir p → IfErr result (λ e. OnDamaged e (λ _. ⊥)) }
    ensures found { IsTrue F.tells → IfOk result (FoundToNote (F.map files.old) set (key (address_named (who_view who.now)))) }
    ensures act { AnswersWithin (is_entry_of set (address_named (who_view who.now))) ⟦<F as Files>⟧ (λ name. is_of_bounce set (address_named (who_view who.now)) name ≡ true) (IsDamagedOf (F.map files.old) Count) files.old files.new result }
{
    let x = named_address(alloc, *who)?;
    take_bounce(alloc, files, now, set, number, &x)
}

// A bounce of a warning.
fn of_warning<F: Files>(
    alloc: Global,
    files: &mut F,
    now: Moment,
    set: Set,
    time: u64,
    letters: &[u8; 20],
    who: &Who<'_>,
) -> Result<(Txn, Reply), PartError>
    requires range { IsTrue (is_in_range (WarnBounce set (signed time letters.now (who_view who.now)))) }
    ensures apart { IsTrue F.tells → IfOk result (λ done. (dir : Dir) (p : Plain) → Alike (is_of_warning set (address_named (who_view who.now))) (F.map files.old) dir → IsList dir p → DoesList dir done (bouncing.warning_bounced now.seconds set (signed time letters.now (who_view who.now)) (address_named (who_view who.now)) p)) }
    ensures found { IsTrue F.tells → IfOk result (FoundToWarn (F.map files.old) set (key (address_named (who_view who.now)))) }
    ensures act { AnswersWithin (is_entry_of set (address_named (who_view who.now))) ⟦<F as Files>⟧ (λ name. is_of_warning set (address_named (who_view who.now)) name ≡ true) (IsDamaged (F.map files.old)) files.old files.new result }
{
    let x = named_address(alloc, *who)?;
    take_warning_bounce(alloc, files, now, set, time, letters, &x)
}

// A bounce of a probe.
fn of_probe<F: Files>(
    alloc: Global,
    files: &mut F,
    now: u64,
    set: Set,
    time: u64,
    letters: &[u8; 20],
    who: &Who<'_>,
) -> Result<(Txn, Reply), PartError>
    requires { IsTrue (is_in_range (ProbeBounce set (signed time letters.now (who_view who.now)))) }
    ensures apart { IsTrue F.tells → IfOk result (λ done. (dir : Dir) (p : Plain) → Alike (is_of_probe set (address_named (who_view who.now))) (F.map files.old) dir → IsList dir p → DoesList dir done (bouncing.probe_bounced now set (signed time letters.now (who_view who.now)) (address_named (who_view who.now)) p)) }
    ensures spared { IsTrue F.tells → (dir : Dir) (p : Plain) → Alike (is_of_probe set (address_named (who_view who.now))) (F.map files.old) dir → IsList dir p → IfErr result (λ e. OnDamaged e (λ _. ⊥)) }
    ensures found { IsTrue F.tells → IfOk result (FoundToProbe (F.map files.old) set (key (address_named (who_view who.now)))) }
    ensures act { AnswersWithin (is_left_by set (address_named (who_view who.now))) ⟦<F as Files>⟧ (λ name. is_of_probe set (address_named (who_view who.now)) name ≡ true) (IsDamaged (F.map files.old)) files.old files.new result }
{
    let x = named_address(alloc, *who)?;
    take_probe_bounce(alloc, files, now, set, time, letters, &x)
}

// A request of a sender that may not be an address, with a message that may be from a list.
fn by_sender<F: Files>(
    alloc: Global,
    files: &mut F,
    config: &Config,
    now: Moment,
    sender: &[u8],
    request: &Request<'_>,
    message: &[u8],
) -> Result<(Txn, Reply), PartError>
    requires config { IsConfig config.now }
    requires loaded { IsTrue F.tells → IsConfigFile (F.map files.now config_name) config.now }
    requires room { IsTrue F.tells → HasRoom (F.map files.now) }
    requires request { is_managed (request_view request.now) ≡ true }
    ensures apart { IsTrue F.tells → IfOk result (λ done. (dir : Dir) (p : Plain) → Alike (is_seen_for config.now (address_of sender.now) (request_view request.now)) (F.map files.old) dir → IsList dir p → p.config ≡ config.now → DoesList dir done (spec.by_sender now.seconds message.now p (request_view request.now) (address_of sender.now))) }
    ensures spared { IsTrue F.tells → (dir : Dir) (p : Plain) → Alike (is_seen_for config.now (address_of sender.now) (request_view request.now)) (F.map files.old) dir → IsList dir p → p.config ≡ config.now → IfErr result (λ e. OnDamaged e (λ _. ⊥)) }
    ensures found { IsTrue F.tells → IfOk result (FoundBySender (F.map files.old) config.now (address_of sender.now) message.now (request_view request.now)) }
    ensures act { AnswersWithin (is_written_for (address_of sender.now) (request_view request.now)) ⟦<F as Files>⟧ (λ name. is_read_for config.now (address_of sender.now) (request_view request.now) name ≡ true) (IsDamagedFor (F.map files.old) config.now (request_view request.now)) files.old files.new result }
{
    let Some(who) = Address::read(alloc, sender)? else {
        return Ok((Txn::new(alloc), Reply::plain(Reply::NOSENDER)));
    };
    if is_from_list(message) {
        return Ok((Txn::new(alloc), Reply::plain(Reply::LOOPED)));
    }
    manage_checked(alloc, files, config, now, &who, request)
}

// Whether a message came from a list.
fn is_from_list(message: &[u8]) -> bool
    ensures { result ≡ has_field (codes "mailing-list") message.now }
{
    Message::scan(message).field(b"mailing-list").is_some()
}

// A request of a sender whose address is checked.
fn manage_checked<F: Files>(
    alloc: Global,
    files: &mut F,
    config: &Config,
    now: Moment,
    sender: &Address,
    request: &Request<'_>,
) -> Result<(Txn, Reply), PartError>
    requires config { IsConfig config.now }
    requires loaded { IsTrue F.tells → IsConfigFile (F.map files.now config_name) config.now }
    requires room { IsTrue F.tells → HasRoom (F.map files.now) }
    requires request { is_managed (request_view request.now) ≡ true }
    ensures apart { IsTrue F.tells → IfOk result (λ done. (dir : Dir) (p : Plain) → Alike (is_seen_of config.now sender.now (request_view request.now)) (F.map files.old) dir → IsList dir p → p.config ≡ config.now → DoesList dir done (spec.managed now.seconds sender.now p (request_view request.now))) }
    ensures spared { IsTrue F.tells → (dir : Dir) (p : Plain) → Alike (is_seen_of config.now sender.now (request_view request.now)) (F.map files.old) dir → IsList dir p → p.config ≡ config.now → IfErr result (λ e. OnDamaged e (λ _. ⊥)) }
    ensures found { IsTrue F.tells → IfOk result (FoundManaged (F.map files.old) config.now sender.now (request_view request.now)) }
    ensures act { AnswersWithin (is_written_of sender.now (request_view request.now)) ⟦<F as Files>⟧ (λ name. is_asked_of config.now sender.now (request_view request.now) name ≡ true) (IsDamagedFor (F.map files.old) config.now (request_view request.now)) files.old files.new result }
{
    match request {
        Request::Subscribe { set, who } => {
            subscribe(alloc, files, config, now, sender, *set, *who)
        }
        Request::Unsubscribe { set, who } => {
            unsubscribe(alloc, files, config, now, sender, *set, *who)
        }
        Request::Confirm {
            word,
            set,
            time,
            cookie,
            who,
        } => confirm(
            alloc, files, config, now, sender, *word, *set, *time, cookie, *who,
        ),
        Request::Members { set } => members(alloc, files, config, now, sender, *set),
        Request::Get { from, to } => {
            send_part(alloc, files, config, now, sender, Part::Posts(*from, *to))
        }
        Request::Index { at } => send_part(alloc, files, config, now, sender, Part::Index(*at)),
        Request::Thread { at } => send_part(alloc, files, config, now, sender, Part::Thread(*at)),
        Request::Help
        | Request::Other
        | Request::Owner
        | Request::Bounce { .. }
        | Request::WarnBounce { .. }
        | Request::ProbeBounce { .. }
        | Request::ReplyBounce { .. }
        | Request::Post
        | Request::Accept { .. }
        | Request::Reject { .. } => send_help(alloc, files, config, now, sender),
    }
}
