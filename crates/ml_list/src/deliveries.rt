// What a delivery does: the first rule that applies decides.
ghost use Rattle.std.specs.Prelude.{◌≡◌, true, IsTrue, IfOk, IfErr, IfSome, Some};
ghost use Rattle.ml_address.specs.Reading.{request_of};
ghost use Rattle.ml_address.specs.Views.{request_view};
ghost use Rattle.ml_base.specs.Dir.{touches_only, Dir};
ghost use Rattle.ml_base.specs.PartErrors.{OnDamaged};
ghost use Rattle.ml_base.specs.ReadFiles.{IsReading};
ghost use Rattle.ml_config.specs.ConfigFile.{IsConfigFile, config_name};
ghost use Rattle.ml_config.specs.Configuration.{IsConfig};
ghost use Rattle.ml_config.specs.declared.configuration.Config.{Config as ConfigOf};
ghost use Rattle.ml_plain.specs.Directory.{IsList};
ghost use Rattle.ml_plain.specs.Managing as spec;
ghost use Rattle.ml_plain.specs.Plain.{Plain};
ghost use Rattle.ml_acts.specs.Damaged.{IsDamaged};
ghost use Rattle.ml_acts.specs.Doing.{DoesList, HasRoom};
ghost use Rattle.ml_acts.specs.Acting.{AnswersAct};
ghost use Rattle.ml_list.specs.Delivering.{IsDamagedServed, IsDelivered, IsRequested, IsTaskOf};
ghost use Rattle.ml_list.specs.Found.{FoundByCounters, FoundOfRecipient, FoundOfRequest, FoundToDeliver};
ghost use Rattle.ml_list.specs.Looked.{AlikeForMail, AlikeForRequest, AlikeServed};
ghost use Rattle.ml_list.specs.Reads.{is_of_acts};
ghost use Rattle.ml_list.specs.Written.{is_delivered_by};

use crate::held_decisions::decide_held;
use ml_acts::{MailMemo, Moment, is_worn};
use ml_address::{Request, read_request};
use ml_base::{Files, PartError, Txn};
use ml_config::Config;
use ml_manage::manage;
use ml_plain::Reply;
use ml_post::{Decision, post_with_memo};
use std::alloc::Global;

// What a message does that comes for an address, from an envelope sender: the puts, and the reply.
//
// If ids or tickets are worn out, the reply is `full`. Otherwise the recipient decides: one that isn't the list's is answered `notours`, the
// list's own address takes posts, and its other addresses take requests, bounces and moderators' answers.
//
// `Damaged` names a file that is outside its grammar, or names what isn't there, and that the delivery may read: a counter that is looked at
// first, or a file that its request reads. Which request the recipient makes depends on the configuration that the files hold. A file of the
// archive is damaged for what the request asks, or for the post's own place and subject. `Fault` comes only if a read failed. The caller has
// seen that the configuration is there; if it isn't, the error is `Memory`.
//
// `now` is in seconds since 1970. The memo is the one that an earlier delivery left, or an empty one.
pub(crate) fn deliver<F: Files>(
    alloc: Global,
    files: &mut F,
    memo: &mut MailMemo,
    now: Moment,
    sender: &[u8],
    recipient: &[u8],
    message: &[u8],
) -> Result<(Txn, Reply), PartError>
    ensures value { IsTrue F.tells → IfOk result (λ done. (dir : Dir) (p : Plain) → AlikeForMail sender.now recipient.now message.now (F.map files.old) dir → IsList dir p → DoesList dir done (spec.deliver now.seconds sender.now recipient.now message.now p)) }
    ensures sound { IsTrue F.tells → (dir : Dir) (p : Plain) → AlikeForMail sender.now recipient.now message.now (F.map files.old) dir → IsList dir p → IfErr result (λ e. OnDamaged e (λ _. ⊥)) }
    ensures asked { IsTrue F.tells → IfOk result (λ done. (c : ConfigOf) → IsConfigFile (F.map files.old config_name) c → touches_only (is_delivered_by sender.now (request_of c.local c.host recipient.now)) done.0 ≡ true) }
    ensures found { IsTrue F.tells → IfOk result (FoundToDeliver (F.map files.old) sender.now recipient.now message.now) }
    ensures act { AnswersAct ⟦<F as Files>⟧ (λ name. is_of_acts name ≡ true) (λ name. IsDamaged (F.map files.old) name × IsDelivered (F.map files.old) sender.now recipient.now message.now name) files.old files.new result }
{
    let config = configuration(alloc, files)?;
    unless_worn(alloc, files, memo, &config, now, sender, recipient, message)
}

// Sees whether ids and tickets are left, and goes on if they are.
fn unless_worn<F: Files>(
    alloc: Global,
    files: &mut F,
    memo: &mut MailMemo,
    config: &Config,
    now: Moment,
    sender: &[u8],
    recipient: &[u8],
    message: &[u8],
) -> Result<(Txn, Reply), PartError>
    requires config { IsConfig config.now }
    requires loaded { IsTrue F.tells → IsConfigFile (F.map files.now config_name) config.now }
    ensures value { IsTrue F.tells → IfOk result (λ done. (dir : Dir) (p : Plain) → AlikeServed config.now sender.now message.now (request_of config.now.local config.now.host recipient.now) (F.map files.old) dir → IsList dir p → p.config ≡ config.now → DoesList dir done (spec.deliver now.seconds sender.now recipient.now message.now p)) }
    ensures sound { IsTrue F.tells → (dir : Dir) (p : Plain) → AlikeServed config.now sender.now message.now (request_of config.now.local config.now.host recipient.now) (F.map files.old) dir → IsList dir p → p.config ≡ config.now → IfErr result (λ e. OnDamaged e (λ _. ⊥)) }
    ensures asked { IfOk result (λ done. touches_only (is_delivered_by sender.now (request_of config.now.local config.now.host recipient.now)) done.0 ≡ true) }
    ensures found { IsTrue F.tells → IfOk result (FoundByCounters (F.map files.old) (FoundOfRecipient (F.map files.old) config.now sender.now message.now (request_of config.now.local config.now.host recipient.now))) }
    ensures act { AnswersAct ⟦<F as Files>⟧ (λ name. is_of_acts name ≡ true) (IsDamagedServed (F.map files.old) config.now sender.now message.now (request_of config.now.local config.now.host recipient.now)) files.old files.new result }
{
    if is_worn(alloc, files)? {
        return Ok((Txn::new(alloc), Reply::plain(Reply::FULL)));
    }
    by_recipient(alloc, files, memo, config, now, sender, recipient, message)
}

// The configuration. The caller has seen that it is there, and no item changes it. If `find_config` finds none, the error is `Memory`.
pub(crate) fn configuration<F: Files>(alloc: Global, files: &mut F) -> Result<Config, PartError>
    ensures value { IsTrue F.tells → IfOk result (λ c. IsConfigFile (F.map files.old config_name) c) }
    ensures range { IfOk result IsConfig }
    ensures none { IfErr result (λ e. OnDamaged e (λ _. ⊥)) }
    ensures reads { IsReading ⟦<F as Files>⟧ files.old files.new result }
{
    match find_config(alloc, files)? {
        Some(config) => Ok(config),
        None => Err(PartError::Memory),
    }
}

// The configuration, or None if its file is absent or holds none. From files that tell what they hold, it is the one that they hold.
fn find_config<F: Files>(alloc: Global, files: &mut F) -> Result<Option<Config>, PartError>
    ensures read { IsTrue F.tells → (c : Config) → IsConfigFile (F.map files.old config_name) c → IfOk result (λ found. found ≡ Some c) }
    ensures value { IsTrue F.tells → IfOk result (λ found. IfSome found (IsConfigFile (F.map files.old config_name))) }
    ensures range { IfOk result (λ found. IfSome found IsConfig) }
    ensures none { IfErr result (λ e. OnDamaged e (λ _. ⊥)) }
    ensures reads { IsReading ⟦<F as Files>⟧ files.old files.new result }
{
    match ml_config::load(alloc, files) {
        Ok(found) => Ok(found),
        Err(PartError::Damaged(_)) => Ok(None),
        Err(error) => Err(error),
    }
}

// What a recipient's address asks for, if it is one of the list's.
fn by_recipient<F: Files>(
    alloc: Global,
    files: &mut F,
    memo: &mut MailMemo,
    config: &Config,
    now: Moment,
    sender: &[u8],
    recipient: &[u8],
    message: &[u8],
) -> Result<(Txn, Reply), PartError>
    requires config { IsConfig config.now }
    requires loaded { IsTrue F.tells → IsConfigFile (F.map files.now config_name) config.now }
    requires room { IsTrue F.tells → HasRoom (F.map files.now) }
    ensures value { IsTrue F.tells → IfOk result (λ done. (dir : Dir) (p : Plain) → AlikeForRequest config.now sender.now message.now (request_of config.now.local config.now.host recipient.now) (F.map files.old) dir → IsList dir p → p.config ≡ config.now → DoesList dir done (spec.by_recipient now.seconds sender.now message.now p (request_of config.now.local config.now.host recipient.now))) }
    ensures sound { IsTrue F.tells → (dir : Dir) (p : Plain) → AlikeForRequest config.now sender.now message.now (request_of config.now.local config.now.host recipient.now) (F.map files.old) dir → IsList dir p → p.config ≡ config.now → IfErr result (λ e. OnDamaged e (λ _. ⊥)) }
    ensures asked { IfOk result (λ done. touches_only (is_delivered_by sender.now (request_of config.now.local config.now.host recipient.now)) done.0 ≡ true) }
    ensures found { IsTrue F.tells → IfOk result (FoundOfRecipient (F.map files.old) config.now sender.now message.now (request_of config.now.local config.now.host recipient.now)) }
    ensures act { AnswersAct ⟦<F as Files>⟧ (λ name. is_of_acts name ≡ true) (λ name. IsDamaged (F.map files.old) name × IsRequested (F.map files.old) config.now sender.now message.now (request_of config.now.local config.now.host recipient.now) name) files.old files.new result }
{
    let local = config.local.as_slice();
    let Some(request) = read_request(local, config.host.as_slice(), recipient) else {
        return Ok((Txn::new(alloc), Reply::plain(Reply::NOTOURS)));
    };
    by_request(
        alloc, files, memo, config, now, sender, recipient, &request, message,
    )
}

// What a request does that was read from a recipient's address: a post, a moderator's answer, or anything else.
fn by_request<F: Files>(
    alloc: Global,
    files: &mut F,
    memo: &mut MailMemo,
    config: &Config,
    now: Moment,
    sender: &[u8],
    recipient: &[u8],
    request: &Request<'_>,
    message: &[u8],
) -> Result<(Txn, Reply), PartError>
    requires config { IsConfig config.now }
    requires loaded { IsTrue F.tells → IsConfigFile (F.map files.now config_name) config.now }
    requires room { IsTrue F.tells → HasRoom (F.map files.now) }
    requires read { request_of config.now.local config.now.host recipient.now ≡ Some (request_view request.now) }
    ensures value { IsTrue F.tells → IfOk result (λ done. (dir : Dir) (p : Plain) → AlikeForRequest config.now sender.now message.now (Some (request_view request.now)) (F.map files.old) dir → IsList dir p → p.config ≡ config.now → DoesList dir done (spec.by_request now.seconds sender.now message.now p (request_view request.now))) }
    ensures sound { IsTrue F.tells → (dir : Dir) (p : Plain) → AlikeForRequest config.now sender.now message.now (Some (request_view request.now)) (F.map files.old) dir → IsList dir p → p.config ≡ config.now → IfErr result (λ e. OnDamaged e (λ _. ⊥)) }
    ensures asked { IfOk result (λ done. touches_only (is_delivered_by sender.now (Some (request_view request.now))) done.0 ≡ true) }
    ensures found { IsTrue F.tells → IfOk result (FoundOfRequest (F.map files.old) config.now sender.now message.now (request_view request.now)) }
    ensures act { AnswersAct ⟦<F as Files>⟧ (λ name. is_of_acts name ≡ true) (λ name. IsDamaged (F.map files.old) name × IsRequested (F.map files.old) config.now sender.now message.now (Some (request_view request.now)) name) files.old files.new result }
{
    match task_of(request) {
        Task::Post => post_with_memo(alloc, files, memo, config, now.seconds, sender, message),
        Task::Decide {
            ticket,
            cookie,
            decision,
        } => decide_held(
            alloc, files, config, now, sender, message, ticket, &cookie, decision,
        ),
        Task::Manage => manage(alloc, files, config, now.seconds, sender, request, message),
    }
}

// What a request asks of a delivery: to post, to do what a moderator decides about a held post, or what `manage` does.
#[derive(Clone, Copy)]
enum Task {
    Post,
    Decide {
        ticket: u64,
        cookie: [u8; 20],
        decision: Decision,
    },
    Manage,
}

// The task of a request. Every request is named, so that a new one doesn't go to `manage` unseen.
fn task_of(request: &Request<'_>) -> Task
    ensures { IsTaskOf (request_view request.now) result }
{
    match request {
        Request::Post => Task::Post,
        Request::Accept { ticket, cookie } => Task::Decide {
            ticket: *ticket,
            cookie: *cookie,
            decision: Decision::Accept,
        },
        Request::Reject { ticket, cookie } => Task::Decide {
            ticket: *ticket,
            cookie: *cookie,
            decision: Decision::Reject,
        },
        Request::Help
        | Request::Owner
        | Request::Subscribe { .. }
        | Request::Unsubscribe { .. }
        | Request::Members { .. }
        | Request::Confirm { .. }
        | Request::Get { .. }
        | Request::Index { .. }
        | Request::Thread { .. }
        | Request::Bounce { .. }
        | Request::WarnBounce { .. }
        | Request::ProbeBounce { .. }
        | Request::ReplyBounce { .. }
        | Request::Other => Task::Manage,
    }
}
