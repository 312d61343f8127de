// What a moderator answers about a post that waits.
ghost use Rattle.std.specs.Prelude.{◌≡◌, ◌<◌, true, false, Some, IsTrue, IfErr, IfOk, codes};
ghost use Rattle.std.specs.Fmt.{decimal};
ghost use Rattle.ml_base.specs.Dir.{Dir, are_files, touches_only, with_puts};
ghost use Rattle.ml_base.specs.PartErrors.{OnDamaged};
ghost use Rattle.ml_base.specs.Ranges.{IsMoment, is_drawn};
ghost use Rattle.ml_base.specs.ReadFiles.{IsReading, NamesDamaged};
ghost use Rattle.ml_base.specs.declared.names.Set.TheVariants as sets;
ghost use Rattle.ml_filing.specs.Archive.{IsNumberFile, number_name};
ghost use Rattle.ml_hold.specs.Held.{held_post, without_ticket};
ghost use Rattle.ml_hold.specs.declared.posts.Held.{Held as TheHeld};
ghost use Rattle.ml_hold.specs.Answers as waiting;
ghost use Rattle.ml_reply.specs.declared.mails.Mail.TheVariants as mails;
ghost use Rattle.ml_plain.specs.Directory.{IsList, held_kinds};
ghost use Rattle.ml_plain.specs.Mailing as mailing;
ghost use Rattle.ml_plain.specs.Managing as spec;
ghost use Rattle.ml_plain.specs.Plain.{Plain};
ghost use Rattle.ml_config.specs.Configuration.{IsConfig};
ghost use Rattle.ml_config.specs.KeyFile.{key_name};
ghost use Rattle.ml_acts.specs.Acting.{AnswersPost as AnswersAct};
ghost use Rattle.ml_acts.specs.Asked.{IsDamagedOf, Next};
ghost use Rattle.ml_acts.specs.Configured.{with_config};
ghost use Rattle.ml_acts.specs.Doing.{DoesList, HasIds};
ghost use Rattle.ml_drawn.specs.Answers.{IsTaking};
ghost use Rattle.ml_drawn.specs.declared.series.Series.TheVariants.{Tickets};
ghost use Rattle.ml_post.specs.Alike.{AlikeForAnswer, AlikeToFollow, AlikeToTake};
ghost use Rattle.ml_post.specs.Deciding.{FoundByDecision, FoundOfHeld, FoundToAccept, FoundToDecide, FoundToReject};
ghost use Rattle.ml_post.specs.Publishing.{sent_key};
ghost use Rattle.ml_post.specs.Answering.{IsDamagedOfHeld, IsDamagedOfTicket, accepts, is_accepted_by, is_answered_by, is_followed_by, is_rejected_by, is_taken_by, is_ticket_cookie};

use crate::held_posts::list_keys;
use crate::publication::publish;
use ml_acts::{Configured, MailMemo, Moment, is_cookie, with_mail};
use ml_base::{Bytes, Files, LAST_POST_NUMBER, PartError, Set, Txn, write_number};
use ml_config::{Config, Keys};
use ml_filing::count;
use ml_hold::{Held, look, release};
use ml_plain::Reply;
use ml_reply::Mail;
use std::alloc::{AllocError, Global};

/// What a moderator decides about a post that waits.
#[derive(Clone, Copy, Debug, PartialEq, Eq)]
pub enum Decision {
    /// It is posted.
    Accept,
    /// It goes back to its sender.
    Reject,
}

impl Decision {
    // The decision of a moderator who accepts the post, or doesn't.
    fn of(accept: bool) -> Self
        ensures { accepts result ≡ accept }
    {
        if accept {
            Decision::Accept
        } else {
            Decision::Reject
        }
    }
}

/// What `decide` does with `Accept` if the moderator accepts the post, and with `Reject` otherwise.
pub fn answer<F: Files>(
    alloc: Global,
    files: &mut F,
    config: &Config,
    now: u64,
    ticket: u64,
    letters: &[u8; 20],
    accept: bool,
) -> Result<(Txn, Reply), PartError>
    requires moment { IsMoment now }
    requires room { IsTrue F.tells → HasIds (F.map files.now) }
    ensures value { IsTrue F.tells → IsConfig config.now → IfOk result (λ done. (p : Plain) → IsList (with_config config.now (F.map files.old)) p → DoesList (with_config config.now (F.map files.old)) done (spec.answer now ticket letters.now accept p)) }
    ensures apart { IsTrue F.tells → IfOk result (λ done. (dir : Dir) (p : Plain) → AlikeForAnswer config.now ticket accept (F.map files.old) dir → IsList dir p → p.config ≡ config.now → DoesList dir done (spec.answer now ticket letters.now accept p)) }
    ensures spared { IsTrue F.tells → (dir : Dir) (p : Plain) → AlikeForAnswer config.now ticket accept (F.map files.old) dir → IsList dir p → IfErr result (λ e. OnDamaged e (λ _. ⊥)) }
    ensures found { IsTrue F.tells → IfOk result (FoundByDecision (with_config config.now (F.map files.old)) config.now ticket accept) }
    ensures act { AnswersAct ⟦<F as Files>⟧ (λ name. is_answered_by ticket accept name ≡ true) (IsDamagedOfTicket (with_config config.now (F.map files.old)) config.now ticket letters.now accept) files.old files.new result }
{
    decide(
        alloc,
        files,
        config,
        now,
        ticket,
        letters,
        Decision::of(accept),
    )
}

/// What a moderator decides about the post of a ticket, with the letters of its cookie, whatever its age. `now` is in seconds since 1970.
///
/// The reply is `gone` if no post waits under the ticket, and `badcookie` if the letters aren't its cookie. A post that is accepted is posted
/// and waits no longer. If the archive is full, the reply is `full` and it still waits. A post that is rejected goes back to its sender. All
/// this is said of the files with the configuration instead of their own. Of the archive `Damaged` names the number of posts, the index of the
/// next number's group, or the thread file of the subject key of the post that waits. The keys are looked at only if a post waits under the
/// ticket, and what its acceptance or rejection reads only if the letters are its cookie.
pub fn decide<F: Files>(
    alloc: Global,
    files: &mut F,
    config: &Config,
    now: u64,
    ticket: u64,
    letters: &[u8; 20],
    decision: Decision,
) -> Result<(Txn, Reply), PartError>
    requires moment { IsMoment now }
    requires room { IsTrue F.tells → HasIds (F.map files.now) }
    ensures value { IsTrue F.tells → IsConfig config.now → IfOk result (λ done. (p : Plain) → IsList (with_config config.now (F.map files.old)) p → DoesList (with_config config.now (F.map files.old)) done (spec.answer now ticket letters.now (accepts decision) p)) }
    ensures apart { IsTrue F.tells → IfOk result (λ done. (dir : Dir) (p : Plain) → AlikeForAnswer config.now ticket (accepts decision) (F.map files.old) dir → IsList dir p → p.config ≡ config.now → DoesList dir done (spec.answer now ticket letters.now (accepts decision) p)) }
    ensures spared { IsTrue F.tells → (dir : Dir) (p : Plain) → AlikeForAnswer config.now ticket (accepts decision) (F.map files.old) dir → IsList dir p → IfErr result (λ e. OnDamaged e (λ _. ⊥)) }
    ensures found { IsTrue F.tells → IfOk result (FoundByDecision (with_config config.now (F.map files.old)) config.now ticket (accepts decision)) }
    ensures act { AnswersAct ⟦<F as Files>⟧ (λ name. is_answered_by ticket (accepts decision) name ≡ true) (IsDamagedOfTicket (with_config config.now (F.map files.old)) config.now ticket letters.now (accepts decision)) files.old files.new result }
{
    let mut under = Configured { files, config };
    answer_ticket(
        alloc,
        &mut under,
        config,
        Moment { seconds: now },
        ticket,
        letters,
        decision,
    )
}

// Looks for the post of the ticket first.
fn answer_ticket<F: Files>(
    alloc: Global,
    files: &mut F,
    config: &Config,
    now: Moment,
    ticket: u64,
    letters: &[u8; 20],
    decision: Decision,
) -> Result<(Txn, Reply), PartError>
    requires room { IsTrue F.tells → HasIds (F.map files.now) }
    ensures apart { IsTrue F.tells → IfOk result (λ done. (dir : Dir) (p : Plain) → AlikeForAnswer config.now ticket (accepts decision) (F.map files.old) dir → IsList dir p → p.config ≡ config.now → DoesList dir done (spec.answer now.seconds ticket letters.now (accepts decision) p)) }
    ensures spared { IsTrue F.tells → (dir : Dir) (p : Plain) → AlikeForAnswer config.now ticket (accepts decision) (F.map files.old) dir → IsList dir p → IfErr result (λ e. OnDamaged e (λ _. ⊥)) }
    ensures found { IsTrue F.tells → IfOk result (FoundByDecision (F.map files.old) config.now ticket (accepts decision)) }
    ensures act { AnswersAct ⟦<F as Files>⟧ (λ name. is_answered_by ticket (accepts decision) name ≡ true) (IsDamagedOfTicket (F.map files.old) config.now ticket letters.now (accepts decision)) files.old files.new result }
{
    let Some(held) = look(alloc, files, ticket)? else {
        return Ok((Txn::new(alloc), Reply::plain(Reply::GONE)));
    };
    answer_held(alloc, files, config, now, ticket, &held, letters, decision)
}

// The answer about a post that waits under a ticket: it counts if its letters are the cookie.
fn answer_held<F: Files>(
    alloc: Global,
    files: &mut F,
    config: &Config,
    now: Moment,
    ticket: u64,
    held: &Held,
    letters: &[u8; 20],
    decision: Decision,
) -> Result<(Txn, Reply), PartError>
    requires drawn { IsTrue (is_drawn ticket) }
    requires room { IsTrue F.tells → HasIds (F.map files.now) }
    ensures apart { IsTrue F.tells → IfOk result (λ done. (dir : Dir) (p : Plain) → dir key_name ≡ F.map files.old key_name → AlikeToFollow config.now ticket held.now.message (accepts decision) (F.map files.old) dir → IsList dir p → p.config ≡ config.now → held_post ticket p.held ≡ Some held.now → DoesList dir done (spec.answer_held now.seconds ticket letters.now p (accepts decision) (Some held.now))) }
    ensures spared { IsTrue F.tells → (dir : Dir) (p : Plain) → dir key_name ≡ F.map files.old key_name → AlikeToFollow config.now ticket held.now.message (accepts decision) (F.map files.old) dir → IsList dir p → IfErr result (λ e. OnDamaged e (λ _. ⊥)) }
    ensures found { IsTrue F.tells → IfOk result (FoundOfHeld (F.map files.old) config.now ticket (accepts decision)) }
    ensures act { AnswersAct ⟦<F as Files>⟧ (λ name. is_answered_by ticket (accepts decision) name ≡ true) (IsDamagedOfHeld (F.map files.old) config.now ticket held.now letters.now (accepts decision)) files.old files.new result }
{
    let keys = list_keys(alloc, files)?;
    if !is_signed(&keys, ticket, held.moment, letters) {
        return Ok((Txn::new(alloc), Reply::plain(Reply::BADCOOKIE)));
    }
    follow(alloc, files, config, now, ticket, held, decision)
}

// Whether letters are the cookie of a post that has been held under a ticket since a moment.
fn is_signed(keys: &Keys, ticket: u64, moment: u64, letters: &[u8; 20]) -> bool
    ensures value { (p : Plain) → p.keys ≡ keys.now → result ≡ mailing.is_cookie p (codes "hold") sets.Moderators moment (decimal ticket) letters.now }
    ensures letters { result ≡ is_ticket_cookie keys.now ticket moment letters.now }
{
    let mut digits = [0; 20];
    let len = write_number(ticket, &mut digits);
    is_cookie(
        keys,
        b"hold",
        Set::Moderators,
        moment,
        &digits[..len],
        letters,
    )
}

// Does what a moderator answers about a post that waits under a ticket.
fn follow<F: Files>(
    alloc: Global,
    files: &mut F,
    config: &Config,
    now: Moment,
    ticket: u64,
    held: &Held,
    decision: Decision,
) -> Result<(Txn, Reply), PartError>
    requires drawn { IsTrue (is_drawn ticket) }
    requires room { IsTrue F.tells → HasIds (F.map files.now) }
    ensures apart { IsTrue F.tells → IfOk result (λ done. (dir : Dir) (p : Plain) → AlikeToFollow config.now ticket held.now.message (accepts decision) (F.map files.old) dir → IsList dir p → p.config ≡ config.now → held_post ticket p.held ≡ Some held.now → DoesList dir done (spec.answered now.seconds ticket held.now p (accepts decision))) }
    ensures spared { IsTrue F.tells → (dir : Dir) (p : Plain) → AlikeToFollow config.now ticket held.now.message (accepts decision) (F.map files.old) dir → IsList dir p → IfErr result (λ e. OnDamaged e (λ _. ⊥)) }
    ensures found { IsTrue F.tells → IfOk result (FoundToDecide (F.map files.old) config.now ticket (accepts decision)) }
    ensures act { AnswersAct ⟦<F as Files>⟧ (λ name. is_followed_by ticket (accepts decision) name ≡ true) (IsDamagedOf (F.map files.old) (Next (sent_key config.now held.now.message))) files.old files.new result }
{
    match decision {
        Decision::Accept => accept_held(alloc, files, config, now, ticket, held),
        Decision::Reject => reject_held(alloc, files, config, now, ticket, held),
    }
}

// The post is posted and waits no longer, unless the archive is full.
fn accept_held<F: Files>(
    alloc: Global,
    files: &mut F,
    config: &Config,
    now: Moment,
    ticket: u64,
    held: &Held,
) -> Result<(Txn, Reply), PartError>
    requires drawn { IsTrue (is_drawn ticket) }
    requires room { IsTrue F.tells → HasIds (F.map files.now) }
    ensures apart { IsTrue F.tells → IfOk result (λ done. (dir : Dir) (p : Plain) → AlikeToFollow config.now ticket held.now.message true (F.map files.old) dir → IsList dir p → p.config ≡ config.now → held_post ticket p.held ≡ Some held.now → DoesList dir done (spec.answered now.seconds ticket held.now p true)) }
    ensures spared { IsTrue F.tells → (dir : Dir) (p : Plain) → AlikeToFollow config.now ticket held.now.message true (F.map files.old) dir → IsList dir p → IfErr result (λ e. OnDamaged e (λ _. ⊥)) }
    ensures found { IsTrue F.tells → IfOk result (FoundToAccept (F.map files.old) config.now ticket) }
    ensures act { AnswersAct ⟦<F as Files>⟧ (λ name. is_accepted_by ticket name ≡ true) (IsDamagedOf (F.map files.old) (Next (sent_key config.now held.now.message))) files.old files.new result }
{
    let count = count(alloc, files)?;
    if count == LAST_POST_NUMBER {
        return Ok((Txn::new(alloc), Reply::plain(Reply::FULL)));
    }
    accept_after(alloc, files, config, now, ticket, held, count)
}

// The post is posted after so many others, and waits no longer.
fn accept_after<F: Files>(
    alloc: Global,
    files: &mut F,
    config: &Config,
    now: Moment,
    ticket: u64,
    held: &Held,
    count: u64,
) -> Result<(Txn, Reply), PartError>
    requires drawn { IsTrue (is_drawn ticket) }
    requires below { count < 99_999_999 }
    requires count { IsTrue F.tells → IsNumberFile (F.map files.now number_name) count }
    requires room { IsTrue F.tells → HasIds (F.map files.now) }
    ensures apart { IsTrue F.tells → IfOk result (λ done. (dir : Dir) (p : Plain) → AlikeToFollow config.now ticket held.now.message true (F.map files.old) dir → IsList dir p → p.config ≡ config.now → held_post ticket p.held ≡ Some held.now → DoesList dir done (spec.answered now.seconds ticket held.now p true)) }
    ensures spared { IsTrue F.tells → (dir : Dir) (p : Plain) → AlikeToFollow config.now ticket held.now.message true (F.map files.old) dir → IsList dir p → IfErr result (λ e. OnDamaged e (λ _. ⊥)) }
    ensures found { IsTrue F.tells → IfOk result (FoundToAccept (F.map files.old) config.now ticket) }
    ensures act { AnswersAct ⟦<F as Files>⟧ (λ name. is_accepted_by ticket name ≡ true) (IsDamagedOf (F.map files.old) (Next (sent_key config.now held.now.message))) files.old files.new result }
{
    let message = held.message.as_slice();
    let mut memo = MailMemo::new();
    let more = publish(
        alloc,
        files,
        &mut memo,
        config,
        now,
        &held.sender,
        message,
        count,
    )?;
    let mut txn = take_held(alloc, files, ticket)?;
    txn.join(more)?;
    Ok((txn, Reply::posted(count + 1)))
}

// The post waits no longer, and goes back to its sender.
fn reject_held<F: Files>(
    alloc: Global,
    files: &mut F,
    config: &Config,
    now: Moment,
    ticket: u64,
    held: &Held,
) -> Result<(Txn, Reply), PartError>
    requires drawn { IsTrue (is_drawn ticket) }
    requires room { IsTrue F.tells → HasIds (F.map files.now) }
    ensures apart { IsTrue F.tells → IfOk result (λ done. (dir : Dir) (p : Plain) → AlikeToFollow config.now ticket held.now.message false (F.map files.old) dir → IsList dir p → p.config ≡ config.now → held_post ticket p.held ≡ Some held.now → DoesList dir done (spec.answered now.seconds ticket held.now p false)) }
    ensures spared { IsTrue F.tells → (dir : Dir) (p : Plain) → AlikeToFollow config.now ticket held.now.message false (F.map files.old) dir → IsList dir p → IfErr result (λ e. OnDamaged e (λ _. ⊥)) }
    ensures found { IsTrue F.tells → IfOk result (FoundToReject (F.map files.old) ticket) }
    ensures act { AnswersAct ⟦<F as Files>⟧ (λ name. is_rejected_by ticket name ≡ true) (IsDamagedOf (F.map files.old) (Next (sent_key config.now held.now.message))) files.old files.new result }
{
    let txn = take_held(alloc, files, ticket)?;
    let mail = rejection(alloc, held)?;
    let reply = Reply::plain(Reply::REJECTED);
    with_mail(alloc, files, config, txn, &held.sender, now, mail, reply)
}

// The mail that gives a post back to its sender.
fn rejection(alloc: Global, held: &Held) -> Result<Mail, AllocError>
    ensures { IfOk result (λ mail. mail ≡ mails.Rejected held.now.sender held.now.message) }
{
    let to = Bytes::from_slice(alloc, held.sender.bytes())?;
    let message = Bytes::from_slice(alloc, held.message.as_slice())?;
    Ok(Mail::Rejected { to, message })
}

// The puts after which the post of a ticket waits no longer.
fn take_held<F: Files>(alloc: Global, files: &mut F, ticket: u64) -> Result<Txn, PartError>
    requires { IsTrue (is_drawn ticket) }
    ensures apart { IsTrue F.tells → IfOk result (λ txn. (dir : Dir) (p : Plain) (held : TheHeld) → AlikeToTake ticket (F.map files.old) dir → IsList dir p → held_post ticket p.held ≡ Some held → IsList (with_puts dir txn) (record p { held = without_ticket ticket p.held })) }
    ensures spared { IsTrue F.tells → (dir : Dir) (p : Plain) → AlikeToTake ticket (F.map files.old) dir → IsList dir p → IfErr result (λ e. OnDamaged e (λ _. ⊥)) }
    ensures found { IsTrue F.tells → IfOk result (IsTaking (F.map files.old) Tickets ticket) }
    ensures own { IfOk result (λ txn. touches_only (λ name. held_kinds name.kind) txn ≡ true) }
    ensures files { IfOk result (λ txn. IsTrue (are_files txn)) }
    ensures names { NamesDamaged ⟦<F as Files>⟧ (λ name. is_taken_by ticket name ≡ true) (waiting.Breaks (F.map files.old)) result }
    ensures reads { IsReading ⟦<F as Files>⟧ files.old files.new result }
{
    let txn = release(alloc, files, ticket)?;
    Ok(txn)
}
