// Moderators' answers, which must come from a usable sender and not from a list.
ghost use Rattle.ml_list.specs.Found.{FoundModerated};
ghost use Rattle.std.specs.Prelude.{◌≡◌, true, codes, is_some, IsTrue, IfErr, IfOk};
ghost use Rattle.ml_address.specs.Requests.{Accept, Reject, PlainRequest};
ghost use Rattle.ml_base.specs.Address.{address_of};
ghost use Rattle.ml_base.specs.Dir.{Dir};
ghost use Rattle.ml_base.specs.PartErrors.{OnDamaged};
ghost use Rattle.ml_config.specs.ConfigFile.{IsConfigFile, config_name};
ghost use Rattle.ml_config.specs.Configuration.{IsConfig};
ghost use Rattle.ml_header.specs.Fields.{has_field};
ghost use Rattle.ml_plain.specs.Directory.{IsList};
ghost use Rattle.ml_plain.specs.Managing as spec;
ghost use Rattle.ml_plain.specs.Plain.{Plain};
ghost use Rattle.ml_acts.specs.Doing.{DoesList, HasIds};
ghost use Rattle.ml_post.specs.Alike.{AlikeForAnswer};
ghost use Rattle.ml_post.specs.Answering.{IsDamagedOfTicket, accepts, is_answered_by};
ghost use Rattle.ml_acts.specs.Acting.{AnswersPost as AnswersAct};
ghost use Rattle.ml_list.specs.Moderating.{answer_to};

use ml_acts::Moment;
use ml_base::{Address, Files, PartError, Txn};
use ml_config::Config;
use ml_header::Message;
use ml_plain::Reply;
use ml_post::{Decision, decide};
use std::alloc::Global;

// A moderator accepts or rejects the post of a ticket.
pub(crate) fn decide_held<F: Files>(
    alloc: Global,
    files: &mut F,
    config: &Config,
    now: Moment,
    sender: &[u8],
    message: &[u8],
    ticket: u64,
    letters: &[u8; 20],
    decision: Decision,
) -> Result<(Txn, Reply), PartError>
    requires config { IsConfig config.now }
    requires loaded { IsTrue F.tells → IsConfigFile (F.map files.now config_name) config.now }
    requires room { IsTrue F.tells → HasIds (F.map files.now) }
    ensures value { IsTrue F.tells → IfOk result (λ done. (dir : Dir) (p : Plain) → AlikeForAnswer config.now ticket (accepts decision) (F.map files.old) dir → IsList dir p → p.config ≡ config.now → DoesList dir done (spec.by_sender now.seconds message.now p (answer_to ticket letters.now (accepts decision)) (address_of sender.now))) }
    ensures sound { IsTrue F.tells → (dir : Dir) (p : Plain) → AlikeForAnswer config.now ticket (accepts decision) (F.map files.old) dir → IsList dir p → IfErr result (λ e. OnDamaged e (λ _. ⊥)) }
    ensures found { IsTrue F.tells → IfOk result (FoundModerated (F.map files.old) config.now sender.now message.now ticket (accepts decision)) }
    ensures act { AnswersAct ⟦<F as Files>⟧ (λ name. is_answered_by ticket (accepts decision) name ≡ true) (IsDamagedOfTicket (F.map files.old) config.now ticket letters.now (accepts decision)) files.old files.new result }
{
    if !is_usable(sender) {
        return Ok((Txn::new(alloc), Reply::plain(Reply::NOSENDER)));
    }
    if is_from_list(message) {
        return Ok((Txn::new(alloc), Reply::plain(Reply::LOOPED)));
    }
    decide(alloc, files, config, now.seconds, ticket, letters, decision)
}

// Whether an envelope sender is an address.
fn is_usable(sender: &[u8]) -> bool
    ensures { result ≡ is_some (address_of sender.now) }
{
    Address::check(sender).is_ok()
}

// Whether a message came from a list.
fn is_from_list(message: &[u8]) -> bool
    ensures { result ≡ has_field (codes "mailing-list") message.now }
{
    Message::scan(message).field(b"mailing-list").is_some()
}
