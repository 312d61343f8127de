// Holding a post for the moderators, and asking them.
ghost use Rattle.std.specs.Prelude.{◌≡◌, ◌≤◌, true, IsTrue, IfOk, length};
ghost use Rattle.ml_address.specs.Requests.{Accept, Reject, is_cookie, is_in_range};
ghost use Rattle.ml_address.specs.Views.{request_view};
ghost use Rattle.ml_address.specs.Writing.{request_text};
ghost use Rattle.ml_base.specs.Address.{IsAddress};
ghost use Rattle.ml_base.specs.Dir.{Dir, are_files, touches_only, with_puts};
ghost use Rattle.ml_base.specs.Ranges.{is_drawn};
ghost use Rattle.ml_base.specs.ReadFiles.{IsReading, NamesDamaged};
ghost use Rattle.ml_config.specs.Configuration.{IsConfig};
ghost use Rattle.ml_config.specs.KeyFile.{IsKeyFile, key_name};
ghost use Rattle.ml_plain.specs.Answers as answers;
ghost use Rattle.ml_plain.specs.Directory.{IsList};
ghost use Rattle.ml_plain.specs.Mailing as mailing;
ghost use Rattle.ml_plain.specs.Plain.{Plain};
ghost use Rattle.ml_plain.specs.Posting as spec;
ghost use Rattle.ml_acts.specs.Acting.{AnswersPost as AnswersAct};
ghost use Rattle.ml_acts.specs.Damaged.{IsDamaged, IsNoKeys};
ghost use Rattle.ml_acts.specs.Found.{AddsMailToSet, TellsKeys};
ghost use Rattle.ml_post.specs.Found.{FoundToHold};
ghost use Rattle.ml_base.specs.declared.names.Set.TheVariants as sets;
ghost use Rattle.ml_acts.specs.Doing.{Alike, DoesList, HasIds, HasRoom};
ghost use Rattle.ml_drawn.specs.Names.{is_of_series};
ghost use Rattle.ml_drawn.specs.declared.series.Series.TheVariants.{Tickets};
ghost use Rattle.ml_post.specs.Holding.{is_asked_by, is_held_by};

use ml_acts::{Moment, new_cookie, owner_address, with_mail_to_moderators};
use ml_address::{Request, write_request};
use ml_base::{Address, Bytes, Files, PartError, Set, Txn, is_drawn, write_number};
use ml_config::{Config, Keys, key};
use ml_hold::{Held, hold};
use ml_plain::Reply;
use ml_reply::Mail;
use std::alloc::{AllocError, Global};

// Holds a message of a sender under the next ticket, and asks the moderators.
pub(crate) fn hold_post<F: Files>(
    alloc: Global,
    files: &mut F,
    config: &Config,
    now: Moment,
    sender: Address,
    message: &[u8],
) -> Result<(Txn, Reply), PartError>
    requires config { IsConfig config.now }
    requires size { length message.now ≤ 33_554_432 }
    requires room { IsTrue F.tells → HasRoom (F.map files.now) }
    ensures apart { IsTrue F.tells → IfOk result (λ done. (dir : Dir) (p : Plain) → IsAddress sender → Alike is_held_by (F.map files.old) dir → IsList dir p → p.config ≡ config.now → DoesList dir done (spec.held_now now.seconds sender message.now p)) }
    ensures found { IsTrue F.tells → IfOk result (FoundToHold (F.map files.old)) }
    ensures act { AnswersAct ⟦<F as Files>⟧ (λ name. is_held_by name ≡ true) (IsDamaged (F.map files.old)) files.old files.new result }
{
    let held = Held {
        moment: now.seconds,
        sender,
        message: Bytes::from_slice(alloc, message)?,
    };
    let (ticket, txn) = hold(alloc, files, &held)?;
    if !is_drawn(ticket) {
        return Ok((Txn::new(alloc), Reply::plain(Reply::FULL)));
    }
    ask(alloc, files, config, now, ticket, held.message, txn)
}

// These puts, by which a post is held now under a ticket, and after them the mail that asks the moderators.
fn ask<F: Files>(
    alloc: Global,
    files: &mut F,
    config: &Config,
    now: Moment,
    ticket: u64,
    message: Bytes,
    txn: Txn,
) -> Result<(Txn, Reply), PartError>
    requires config { IsConfig config.now }
    requires ticket { IsTrue (is_drawn ticket) }
    requires room { IsTrue F.tells → HasIds (F.map files.now) }
    requires own { touches_only (is_of_series Tickets) txn ≡ true }
    requires files { IsTrue (are_files txn) }
    ensures apart { IsTrue F.tells → IfOk result (λ done. (dir : Dir) (p : Plain) → Alike is_asked_by (F.map files.old) dir → IsList (with_puts dir txn) p → p.config ≡ config.now → DoesList dir done (mailing.mail_moderators now.seconds (mailing.moderate_mail p ticket now.seconds message) p, answers.held ticket)) }
    ensures found { IsTrue F.tells → IfOk result (λ done. TellsKeys (F.map files.old) × AddsMailToSet (F.map files.old) sets.Moderators txn done.0 × (done.1 ≡ answers.held ticket)) }
    ensures act { AnswersAct ⟦<F as Files>⟧ (λ name. is_asked_by name ≡ true) (IsDamaged (F.map files.old)) files.old files.new result }
{
    let keys = list_keys(alloc, files)?;
    let mail = moderate_mail(alloc, config, &keys, ticket, now.seconds, message)?;
    with_mail_to_moderators(alloc, files, config, txn, now, mail, Reply::held(ticket))
}

// The mail that asks the moderators about a post that is held now.
fn moderate_mail(
    alloc: Global,
    config: &Config,
    keys: &Keys,
    ticket: u64,
    now: u64,
    message: Bytes,
) -> Result<Mail, AllocError>
    requires config { IsConfig config.now }
    requires ticket { IsTrue (is_drawn ticket) }
    ensures { IfOk result (λ mail. (p : Plain) → p.config ≡ config.now → p.keys ≡ keys.now → mail ≡ mailing.moderate_mail p ticket now message) }
{
    let letters = ticket_cookie(keys, ticket, now);
    let to = owner_address(alloc, config)?;
    let reply = accept_address(alloc, config, ticket, &letters)?;
    let reject = reject_address(alloc, config, ticket, &letters)?;
    Ok(Mail::Moderate {
        to,
        reply,
        reject,
        ticket,
        message,
    })
}

// The address that a moderator writes to if he accepts a post.
fn accept_address(
    alloc: Global,
    config: &Config,
    ticket: u64,
    letters: &[u8; 20],
) -> Result<Bytes, AllocError>
    requires config { IsConfig config.now }
    requires ticket { IsTrue (is_drawn ticket) }
    requires letters { IsTrue (is_cookie letters.now) }
    ensures { IfOk result (λ address. address ≡ request_text config.now.local config.now.host (Accept ticket letters.now)) }
{
    let request = Request::Accept {
        ticket,
        cookie: *letters,
    };
    own_request(alloc, config, &request)
}

// The address that a moderator writes to if he rejects it.
fn reject_address(
    alloc: Global,
    config: &Config,
    ticket: u64,
    letters: &[u8; 20],
) -> Result<Bytes, AllocError>
    requires config { IsConfig config.now }
    requires ticket { IsTrue (is_drawn ticket) }
    requires letters { IsTrue (is_cookie letters.now) }
    ensures { IfOk result (λ address. address ≡ request_text config.now.local config.now.host (Reject ticket letters.now)) }
{
    let request = Request::Reject {
        ticket,
        cookie: *letters,
    };
    own_request(alloc, config, &request)
}

// The address of a request to the list.
fn own_request(alloc: Global, config: &Config, request: &Request<'_>) -> Result<Bytes, AllocError>
    requires config { IsConfig config.now }
    requires range { IsTrue (is_in_range (request_view request.now)) }
    ensures { IfOk result (λ address. address ≡ request_text config.now.local config.now.host (request_view request.now)) }
{
    write_request(
        alloc,
        config.local.as_slice(),
        config.host.as_slice(),
        request,
    )
}

// The cookie of a post that has been held under a ticket since a moment.
fn ticket_cookie(keys: &Keys, ticket: u64, moment: u64) -> [u8; 20]
    ensures letters { IsTrue (is_cookie result) }
    ensures value { (p : Plain) → p.keys ≡ keys.now → result ≡ mailing.ticket_cookie p ticket moment }
{
    let mut digits = [0; 20];
    let len = write_number(ticket, &mut digits);
    new_cookie(keys, b"hold", Set::Moderators, moment, &digits[..len])
}

// The keys of the list.
pub(crate) fn list_keys<F: Files>(alloc: Global, files: &mut F) -> Result<Keys, PartError>
    ensures value { IsTrue F.tells → IfOk result (λ keys. (dir : Dir) (p : Plain) → dir key_name ≡ F.map files.old key_name → IsList dir p → p.keys ≡ keys) }
    ensures held { IsTrue F.tells → IfOk result (IsKeyFile (F.map files.old key_name)) }
    ensures names { NamesDamaged ⟦<F as Files>⟧ (λ name. name ≡ key_name) (λ _. IsNoKeys (F.map files.old)) result }
    ensures found { IsTrue F.tells → IfOk result (IsKeyFile (F.map files.old key_name)) }
    ensures reads { IsReading ⟦<F as Files>⟧ files.old files.new result }
{
    key(alloc, files)
}
