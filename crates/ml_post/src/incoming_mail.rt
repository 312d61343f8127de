// A message that is mailed to the list's own address.
ghost use Rattle.std.specs.Prelude.{◌≡◌, ◌<◌, true, IsTrue, IfErr, IfOk};
ghost use Rattle.ml_base.specs.Dir.{Dir};
ghost use Rattle.ml_base.specs.PartErrors.{OnDamaged};
ghost use Rattle.ml_base.specs.Ranges.{IsMoment};
ghost use Rattle.ml_config.specs.Configuration.{IsConfig};
ghost use Rattle.ml_filing.specs.Archive.{IsNumberFile, number_name};
ghost use Rattle.ml_plain.specs.Directory.{IsList};
ghost use Rattle.ml_plain.specs.Plain.{Plain};
ghost use Rattle.ml_plain.specs.Posting as spec;
ghost use Rattle.ml_acts.specs.Acting.{AnswersPost as AnswersAct};
ghost use Rattle.ml_acts.specs.Asked.{IsDamagedOf, Next};
ghost use Rattle.ml_acts.specs.Configured.{with_config};
ghost use Rattle.ml_acts.specs.Doing.{DoesList, HasIds, HasRoom};
ghost use Rattle.ml_post.specs.Alike.{AlikeForPost, AlikeToPublish};
ghost use Rattle.ml_post.specs.Found.{FoundByPost, FoundToTake};
ghost use Rattle.ml_post.specs.Posting.{code_of, is_posted_by};
ghost use Rattle.ml_post.specs.Publishing.{is_published_by, sent_key};

use crate::Verdict;
use crate::held_posts::hold_post;
use crate::publication::publish;
use crate::verdict_table::{Judged, judge_with_config};
use ml_acts::{Configured, MailMemo, Moment};
use ml_base::{Address, Files, PartError, Txn};
use ml_config::Config;
use ml_header::Message;
use ml_plain::Reply;
use std::alloc::Global;

/// What a message that comes to the list's own address does. By its verdict it is posted, or held while the moderators are asked, or refused.
///
/// A post goes last into the archive, and the queue gets it for the members that the set list has. `now` is in seconds since 1970. What it does
/// is said of the files with the configuration instead of their own. Of the archive `Damaged` names the number of posts, the index of the next
/// number's group, or the thread file of the post's own subject key. `Memory` comes also if no memory could hold the text that is sent, of 2^32
/// bytes or more.
pub fn post<F: Files>(
    alloc: Global,
    files: &mut F,
    config: &Config,
    now: u64,
    sender: &[u8],
    message: &[u8],
) -> Result<(Txn, Reply), PartError>
    requires moment { IsMoment now }
    requires config { IsConfig config.now }
    requires room { IsTrue F.tells → HasRoom (F.map files.now) }
    ensures value { IsTrue F.tells → IfOk result (λ done. (p : Plain) → IsList (with_config config.now (F.map files.old)) p → DoesList (with_config config.now (F.map files.old)) done (spec.post now sender.now message.now p)) }
    ensures apart { IsTrue F.tells → IfOk result (λ done. (dir : Dir) (p : Plain) → AlikeForPost config.now sender.now message.now (F.map files.old) dir → IsList dir p → p.config ≡ config.now → DoesList dir done (spec.post now sender.now message.now p)) }
    ensures spared { IsTrue F.tells → (dir : Dir) (p : Plain) → AlikeForPost config.now sender.now message.now (F.map files.old) dir → IsList dir p → IfErr result (λ e. OnDamaged e (λ _. ⊥)) }
    ensures found { IsTrue F.tells → IfOk result (FoundByPost (with_config config.now (F.map files.old)) config.now sender.now message.now) }
    ensures act { AnswersAct ⟦<F as Files>⟧ (λ name. is_posted_by config.now sender.now name ≡ true) (IsDamagedOf (with_config config.now (F.map files.old)) (Next (sent_key config.now message.now))) files.old files.new result }
{
    let mut memo = MailMemo::new();
    post_with_memo(alloc, files, &mut memo, config, now, sender, message)
}

/// What `post` does for one of many posts. The memo is what an earlier one left, or empty.
pub fn post_with_memo<F: Files>(
    alloc: Global,
    files: &mut F,
    memo: &mut MailMemo,
    config: &Config,
    now: u64,
    sender: &[u8],
    message: &[u8],
) -> Result<(Txn, Reply), PartError>
    requires moment { IsMoment now }
    requires config { IsConfig config.now }
    requires room { IsTrue F.tells → HasRoom (F.map files.now) }
    ensures value { IsTrue F.tells → IfOk result (λ done. (p : Plain) → IsList (with_config config.now (F.map files.old)) p → DoesList (with_config config.now (F.map files.old)) done (spec.post now sender.now message.now p)) }
    ensures apart { IsTrue F.tells → IfOk result (λ done. (dir : Dir) (p : Plain) → AlikeForPost config.now sender.now message.now (F.map files.old) dir → IsList dir p → p.config ≡ config.now → DoesList dir done (spec.post now sender.now message.now p)) }
    ensures spared { IsTrue F.tells → (dir : Dir) (p : Plain) → AlikeForPost config.now sender.now message.now (F.map files.old) dir → IsList dir p → IfErr result (λ e. OnDamaged e (λ _. ⊥)) }
    ensures found { IsTrue F.tells → IfOk result (FoundByPost (with_config config.now (F.map files.old)) config.now sender.now message.now) }
    ensures act { AnswersAct ⟦<F as Files>⟧ (λ name. is_posted_by config.now sender.now name ≡ true) (IsDamagedOf (with_config config.now (F.map files.old)) (Next (sent_key config.now message.now))) files.old files.new result }
{
    let mut under = Configured { files, config };
    post_with_config(
        alloc,
        &mut under,
        memo,
        config,
        Moment { seconds: now },
        sender,
        message,
    )
}

// The same on a list that has the configuration.
fn post_with_config<F: Files>(
    alloc: Global,
    files: &mut F,
    memo: &mut MailMemo,
    config: &Config,
    now: Moment,
    sender: &[u8],
    message: &[u8],
) -> Result<(Txn, Reply), PartError>
    requires config { IsConfig config.now }
    requires room { IsTrue F.tells → HasRoom (F.map files.now) }
    ensures apart { IsTrue F.tells → IfOk result (λ done. (dir : Dir) (p : Plain) → AlikeForPost config.now sender.now message.now (F.map files.old) dir → IsList dir p → p.config ≡ config.now → DoesList dir done (spec.post now.seconds sender.now message.now p)) }
    ensures spared { IsTrue F.tells → (dir : Dir) (p : Plain) → AlikeForPost config.now sender.now message.now (F.map files.old) dir → IsList dir p → IfErr result (λ e. OnDamaged e (λ _. ⊥)) }
    ensures found { IsTrue F.tells → IfOk result (FoundByPost (F.map files.old) config.now sender.now message.now) }
    ensures act { AnswersAct ⟦<F as Files>⟧ (λ name. is_posted_by config.now sender.now name ≡ true) (IsDamagedOf (F.map files.old) (Next (sent_key config.now message.now))) files.old files.new result }
{
    let found = judge_with_config(alloc, files, config, sender, &Message::scan(message))?;
    match found {
        Judged::Refused(verdict) => Ok((Txn::new(alloc), Reply::plain(code_of(verdict)))),
        Judged::Held(who) => hold_post(alloc, files, config, now, who, message),
        Judged::Posted(who, count) => {
            post_message(alloc, files, memo, config, now, &who, message, count)
        }
    }
}

// The code of the reply that tells a verdict.
fn code_of(found: Verdict) -> u8
    ensures { result ≡ code_of found }
{
    match found {
        Verdict::TooBig => Reply::TOOBIG,
        Verdict::BounceSender => Reply::NOSENDER,
        Verdict::Looped => Reply::LOOPED,
        Verdict::Denied => Reply::DENIED,
        Verdict::NoSubject => Reply::NOSUBJECT,
        Verdict::CommandSubject => Reply::COMMAND,
        Verdict::NotAddressed => Reply::NOTADDRESSED,
        Verdict::UsersOnly => Reply::USERSONLY,
        Verdict::Held => Reply::HELD,
        Verdict::Full => Reply::FULL,
        Verdict::Posted => Reply::POSTED,
    }
}

// Posts a message of a sender after so many posts.
fn post_message<F: Files>(
    alloc: Global,
    files: &mut F,
    memo: &mut MailMemo,
    config: &Config,
    now: Moment,
    sender: &Address,
    message: &[u8],
    count: u64,
) -> Result<(Txn, Reply), PartError>
    requires below { count < 99_999_999 }
    requires count { IsTrue F.tells → IsNumberFile (F.map files.now number_name) count }
    requires room { IsTrue F.tells → HasIds (F.map files.now) }
    ensures apart { IsTrue F.tells → IfOk result (λ done. (dir : Dir) (p : Plain) → AlikeToPublish config.now message.now (F.map files.old) dir → IsList dir p → p.config ≡ config.now → DoesList dir done (spec.posted_now now.seconds sender.now message.now p)) }
    ensures spared { IsTrue F.tells → (dir : Dir) (p : Plain) → AlikeToPublish config.now message.now (F.map files.old) dir → IsList dir p → IfErr result (λ e. OnDamaged e (λ _. ⊥)) }
    ensures found { IsTrue F.tells → IfOk result (FoundToTake (F.map files.old) config.now.prefix) }
    ensures act { AnswersAct ⟦<F as Files>⟧ (λ name. is_published_by name ≡ true) (IsDamagedOf (F.map files.old) (Next (sent_key config.now message.now))) files.old files.new result }
{
    let txn = publish(alloc, files, memo, config, now, sender, message, count)?;
    Ok((txn, Reply::posted(count + 1)))
}
