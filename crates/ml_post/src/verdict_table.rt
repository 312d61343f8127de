// The verdict on a post: the first row of the table that holds.
ghost use Rattle.std.specs.Prelude.{◌≡◌, ◌≢◌, ◌≤◌, ◌&&◌, ◌||◌, true, false, not, length, IsTrue, IfOk, IfErr, IfSome, Some};
ghost use Rattle.ml_base.specs.Address.{address_of, key};
ghost use Rattle.ml_base.specs.Bytes.{lower};
ghost use Rattle.ml_base.specs.PartErrors.{OnDamaged};
ghost use Rattle.ml_base.specs.ReadFiles.{IsReading, NamesDamaged};
ghost use Rattle.ml_plain.specs.Directory.{IsList};
ghost use Rattle.ml_plain.specs.Plain.{Plain};
ghost use Rattle.ml_plain.specs.Verdicts as spec;
ghost use Rattle.ml_filing.specs.Archive.{number_name};
ghost use Rattle.ml_base.specs.Dir.{Dir, same_name};
ghost use Rattle.ml_base.specs.declared.names.Set.TheVariants as sets;
ghost use Rattle.ml_config.specs.Configuration.{IsConfig};
ghost use Rattle.ml_acts.specs.Asked.{Count, IsDamagedOf};
ghost use Rattle.ml_acts.specs.Configured.{with_config};
ghost use Rattle.ml_acts.specs.Doing.{Alike, is_bucket_of};
ghost use Rattle.ml_acts.specs.Found.{EitherTells, TellsMember};
ghost use Rattle.ml_post.specs.Found.{FoundOfPost, FoundOfRoom, IsCounted, TellsDenied, TellsRefusal, TellsStranger, TellsText, TellsUser};
ghost use Rattle.ml_post.specs.Judging.{row_of, verdict_of, is_judged_by, is_of_user, is_refusal, may_be_found};
ghost use Rattle.ml_post.specs.Posting.{TellsSender};
ghost use Rattle.ml_post.specs.declared.verdicts.Verdict.TheVariants.{TooBig};

use crate::Verdict;
use crate::address_search::is_addressed;
use ml_acts::Configured;
use ml_base::{Address, Files, LAST_POST_NUMBER, PartError, Set};
use ml_config::Config;
use ml_filing::{count, subject};
use ml_header::Message;
use ml_subs::member;
use std::alloc::{AllocError, Global};

// What is found of a post: the verdict that refuses it, or the address of its sender, and how many posts come before it if it is posted.
#[derive(Drop)]
pub(crate) enum Judged {
    Refused(Verdict),
    Held(Address),
    Posted(Address, u64),
}

impl Judged {
    // The verdict.
    fn verdict(&self) -> Verdict
        ensures { result ≡ verdict_of self.now }
    {
        match self {
            Judged::Refused(found) => *found,
            Judged::Held(_) => Verdict::Held,
            Judged::Posted(_, _) => Verdict::Posted,
        }
    }
}

/// The verdict on a post of an envelope sender: the first row of the table that holds.
///
/// Of the files it reads the sender's bucket of the deny list, if the list has one; his buckets of the sets list, digest, allow and mod, if only
/// users may post; and the number of posts, if posts don't wait for the moderators. `Damaged` names one of these that is outside its grammar.
/// `Fault` comes only if a read failed. All this is said of the files with the configuration instead of their own.
pub fn verdict<F: Files>(
    alloc: Global,
    files: &mut F,
    config: &Config,
    sender: &[u8],
    message: &Message<'_>,
) -> Result<Verdict, PartError>
    ensures value { IsTrue F.tells → IsConfig config.now → IfOk result (λ found. (p : Plain) → IsList (with_config config.now (F.map files.old)) p → row_of found ≡ spec.verdict p sender.now message.now) }
    ensures apart { IsTrue F.tells → IfOk result (λ found. (dir : Dir) (p : Plain) → Alike (is_judged_by config.now sender.now) (F.map files.old) dir → IsList dir p → p.config ≡ config.now → row_of found ≡ spec.verdict p sender.now message.now) }
    ensures spared { IsTrue F.tells → (dir : Dir) (p : Plain) → Alike (is_judged_by config.now sender.now) (F.map files.old) dir → IsList dir p → IfErr result (λ e. OnDamaged e (λ _. ⊥)) }
    ensures moderated { IfOk result (λ found. may_be_found config.now.flags.m found ≡ true) }
    ensures fits { IfOk result (λ found. found ≢ TooBig → length message.now ≤ config.now.max) }
    ensures names { NamesDamaged ⟦<F as Files>⟧ (λ name. is_judged_by config.now sender.now name ≡ true) (IsDamagedOf (with_config config.now (F.map files.old)) Count) result }
    ensures sound { IsTrue F.tells → (p : Plain) → IsList (with_config config.now (F.map files.old)) p → IfErr result (λ e. OnDamaged e (λ _. ⊥)) }
    ensures found { IsTrue F.tells → IfOk result (FoundOfPost (with_config config.now (F.map files.old)) config.now sender.now message.now) }
    ensures reads { IsReading ⟦<F as Files>⟧ files.old files.new result }
{
    let mut under = Configured { files, config };
    let found = judge_with_config(alloc, &mut under, config, sender, message)?;
    Ok(found.verdict())
}

// The same on a list that has the configuration, with the address of the sender if the post is taken.
pub(crate) fn judge_with_config<F: Files>(
    alloc: Global,
    files: &mut F,
    config: &Config,
    sender: &[u8],
    message: &Message<'_>,
) -> Result<Judged, PartError>
    ensures apart { IsTrue F.tells → IfOk result (λ found. (dir : Dir) (p : Plain) → Alike (is_judged_by config.now sender.now) (F.map files.old) dir → IsList dir p → p.config ≡ config.now → row_of (verdict_of found) ≡ spec.verdict p sender.now message.now) }
    ensures moderated { IfOk result (λ found. may_be_found config.now.flags.m (verdict_of found) ≡ true) }
    ensures fits { IfOk result (λ found. verdict_of found ≢ TooBig → length message.now ≤ config.now.max) }
    ensures names { NamesDamaged ⟦<F as Files>⟧ (λ name. is_judged_by config.now sender.now name ≡ true) (IsDamagedOf (F.map files.old) Count) result }
    ensures found { IsTrue F.tells → IfOk result (λ found. FoundOfPost (F.map files.old) config.now sender.now message.now (verdict_of found)) }
    ensures sender { IfOk result (TellsSender (address_of sender.now)) }
    ensures counted { IfOk result (IsCounted F.tells (F.map files.old)) }
    ensures reads { IsReading ⟦<F as Files>⟧ files.old files.new result }
{
    if message.bytes().len() as u64 > config.max {
        return Ok(Judged::Refused(Verdict::TooBig));
    }
    let Some(who) = Address::read(alloc, sender)? else {
        return Ok(Judged::Refused(Verdict::BounceSender));
    };
    if message.field(b"mailing-list").is_some() {
        return Ok(Judged::Refused(Verdict::Looped));
    }
    if let Some(found) = refusal(alloc, files, config, &who, message)? {
        return Ok(Judged::Refused(found));
    }
    of_room(alloc, files, config, who)
}

// The verdict by which a post of a sender is refused, for his sake or for its text, or None.
fn refusal<F: Files>(
    alloc: Global,
    files: &mut F,
    config: &Config,
    who: &Address,
    message: &Message<'_>,
) -> Result<Option<Verdict>, PartError>
    ensures refuses { IfOk result (λ found. IfSome found (λ v. is_refusal v ≡ true)) }
    ensures names { NamesDamaged ⟦<F as Files>⟧ (λ name. is_judged_by config.now who.now name ≡ true) (IsDamagedOf (F.map files.old) Count) result }
    ensures found { IsTrue F.tells → IfOk result (TellsRefusal (F.map files.old) config.now (key who.now) message.now) }
    ensures reads { IsReading ⟦<F as Files>⟧ files.old files.new result }
{
    if is_denied(alloc, files, config, who)? {
        return Ok(Some(Verdict::Denied));
    }
    if let Some(found) = text_refusal(alloc, config, message)? {
        return Ok(Some(found));
    }
    if is_stranger(alloc, files, config, who)? {
        return Ok(Some(Verdict::UsersOnly));
    }
    Ok(None)
}

// Whether there is a deny list, and an address is on it.
fn is_denied<F: Files>(
    alloc: Global,
    files: &mut F,
    config: &Config,
    who: &Address,
) -> Result<bool, PartError>
    ensures names { NamesDamaged ⟦<F as Files>⟧ (λ name. is_judged_by config.now who.now name ≡ true) (IsDamagedOf (F.map files.old) Count) result }
    ensures found { IsTrue F.tells → IfOk result (TellsDenied (F.map files.old) config.now (key who.now)) }
    ensures reads { IsReading ⟦<F as Files>⟧ files.old files.new result }
{
    if !config.flags.k {
        return Ok(false);
    }
    is_member(alloc, files, Set::Deny, who)
}

// The verdict by which a post is refused for its text, or None.
fn text_refusal(
    alloc: Global,
    config: &Config,
    message: &Message<'_>,
) -> Result<Option<Verdict>, AllocError>
    ensures { IfOk result (TellsText config.now message.now) }
{
    let subject = subject(alloc, message)?;
    if subject.is_empty() {
        return Ok(Some(Verdict::NoSubject));
    }
    if is_command(subject.as_slice()) {
        return Ok(Some(Verdict::CommandSubject));
    }
    if !is_addressed(alloc, config, message)? {
        return Ok(Some(Verdict::NotAddressed));
    }
    Ok(None)
}

// Whether a subject is a command, in any case of letters.
fn is_command(subject: &[u8]) -> bool
    ensures { result ≡ spec.is_command (lower subject.now) }
{
    subject.eq_ignore_ascii_case(b"subscribe")
        || subject.eq_ignore_ascii_case(b"unsubscribe")
        || subject.eq_ignore_ascii_case(b"help")
        || subject.eq_ignore_ascii_case(b"remove")
        || subject.eq_ignore_ascii_case(b"signoff")
}

// Whether only users may post, and an address is no user's.
fn is_stranger<F: Files>(
    alloc: Global,
    files: &mut F,
    config: &Config,
    who: &Address,
) -> Result<bool, PartError>
    ensures names { NamesDamaged ⟦<F as Files>⟧ (λ name. is_judged_by config.now who.now name ≡ true) (IsDamagedOf (F.map files.old) Count) result }
    ensures found { IsTrue F.tells → IfOk result (TellsStranger (F.map files.old) config.now (key who.now)) }
    ensures reads { IsReading ⟦<F as Files>⟧ files.old files.new result }
{
    if !config.flags.u {
        return Ok(false);
    }
    let user = is_user(alloc, files, who)?;
    Ok(!user)
}

// Whether an address is in one of the sets whose members are users.
fn is_user<F: Files>(alloc: Global, files: &mut F, who: &Address) -> Result<bool, PartError>
    ensures names { NamesDamaged ⟦<F as Files>⟧ (λ name. is_of_user who.now name ≡ true) (IsDamagedOf (F.map files.old) Count) result }
    ensures found { IsTrue F.tells → IfOk result (TellsUser (F.map files.old) (key who.now)) }
    ensures reads { IsReading ⟦<F as Files>⟧ files.old files.new result }
{
    if is_in_either(alloc, files, Set::List, Set::Digest, who)? {
        return Ok(true);
    }
    is_in_either(alloc, files, Set::Allow, Set::Moderators, who)
}

// Whether an address is in one of two sets.
fn is_in_either<F: Files>(
    alloc: Global,
    files: &mut F,
    first: Set,
    second: Set,
    who: &Address,
) -> Result<bool, PartError>
    ensures names { NamesDamaged ⟦<F as Files>⟧ (λ name. (is_bucket_of first who.now name || is_bucket_of second who.now name) ≡ true) (IsDamagedOf (F.map files.old) Count) result }
    ensures found { IsTrue F.tells → IfOk result (EitherTells (TellsMember (F.map files.old) first (key who.now)) (TellsMember (F.map files.old) second (key who.now))) }
    ensures reads { IsReading ⟦<F as Files>⟧ files.old files.new result }
{
    if is_member(alloc, files, first, who)? {
        return Ok(true);
    }
    is_member(alloc, files, second, who)
}

// Whether an address is in a set of the list.
fn is_member<F: Files>(
    alloc: Global,
    files: &mut F,
    set: Set,
    who: &Address,
) -> Result<bool, PartError>
    ensures names { NamesDamaged ⟦<F as Files>⟧ (λ name. is_bucket_of set who.now name ≡ true) (IsDamagedOf (F.map files.old) Count) result }
    ensures found { IsTrue F.tells → IfOk result (TellsMember (F.map files.old) set (key who.now)) }
    ensures reads { IsReading ⟦<F as Files>⟧ files.old files.new result }
{
    member(alloc, files, set, who)
}

// What is found of a post that its sender may send: whether it waits, and whether there is room for it.
fn of_room<F: Files>(
    alloc: Global,
    files: &mut F,
    config: &Config,
    who: Address,
) -> Result<Judged, PartError>
    ensures moderated { IfOk result (λ found. may_be_found config.now.flags.m (verdict_of found) ≡ true) }
    ensures names { NamesDamaged ⟦<F as Files>⟧ (λ name. (not config.now.flags.m && same_name name number_name) ≡ true) (IsDamagedOf (F.map files.old) Count) result }
    ensures found { IsTrue F.tells → IfOk result (λ found. FoundOfRoom (F.map files.old) config.now (verdict_of found)) }
    ensures sender { IfOk result (TellsSender (Some who)) }
    ensures counted { IfOk result (IsCounted F.tells (F.map files.old)) }
    ensures reads { IsReading ⟦<F as Files>⟧ files.old files.new result }
{
    if config.flags.m {
        return Ok(Judged::Held(who));
    }
    let count = count(alloc, files)?;
    if count >= LAST_POST_NUMBER {
        return Ok(Judged::Refused(Verdict::Full));
    }
    Ok(Judged::Posted(who, count))
}
