// Who is in a set, and who may know it.
ghost use Rattle.std.specs.Prelude.{◌≡◌, ◌&&◌, true, IsTrue, IfOk};
ghost use Rattle.ml_base.specs.Dir.{Dir};
ghost use Rattle.ml_base.specs.ReadFiles.{IsReading, NamesDamaged};
ghost use Rattle.ml_plain.specs.Directory.{IsList};
ghost use Rattle.ml_plain.specs.Managing as spec;
ghost use Rattle.ml_plain.specs.Plain.{Plain, addresses, is_in, is_moderator};
ghost use Rattle.ml_reply.specs.declared.mails.Mail.TheVariants as mails;
ghost use Rattle.ml_acts.specs.Acting.{AnswersWithin};
ghost use Rattle.ml_acts.specs.Damaged.{IsDamaged};
ghost use Rattle.ml_acts.specs.Doing.{Alike, DoesList, HasIds, is_bucket, is_bucket_of, is_of_queue};
ghost use Rattle.std.specs.Prelude.{List};
ghost use Rattle.ml_base.specs.Address.{key};
ghost use Rattle.ml_base.specs.Bytes.{Text};
ghost use Rattle.ml_acts.specs.Found.{SpellsAddresses, TellsMember};
ghost use Rattle.ml_manage.specs.Found.{FoundToList};
ghost use Rattle.ml_manage.specs.Reads.{is_of_members};

use ml_acts::{Moment, with_mail};
use ml_base::{Address, Bytes, Files, PartError, Set, Txn};
use ml_config::Config;
use ml_joining::is_moderator_if;
use ml_plain::Reply;
use ml_reply::Mail;
use ml_subs::{all, member};
use std::alloc::Global;

// Whether an address is in a set of the list.
pub(crate) fn is_member<F: Files>(
    alloc: Global,
    files: &mut F,
    set: Set,
    who: &Address,
) -> Result<bool, PartError>
    ensures apart { IsTrue F.tells → IfOk result (λ is. (dir : Dir) (p : Plain) → Alike (is_bucket_of set who.now) (F.map files.old) dir → IsList dir p → is ≡ (is_in p set who.now)) }
    ensures found { IsTrue F.tells → IfOk result (TellsMember (F.map files.old) set (key who.now)) }
    ensures names { NamesDamaged ⟦<F as Files>⟧ (λ name. is_bucket_of set who.now name ≡ true) (IsDamaged (F.map files.old)) result }
    ensures reads { IsReading ⟦<F as Files>⟧ files.old files.new result }
{
    member(alloc, files, set, who)
}

// The members of a set go to a sender: only to moderators, and only if `l` is set.
pub(crate) fn members<F: Files>(
    alloc: Global,
    files: &mut F,
    config: &Config,
    now: Moment,
    sender: &Address,
    set: Set,
) -> Result<(Txn, Reply), PartError>
    requires room { IsTrue F.tells → HasIds (F.map files.now) }
    ensures apart { IsTrue F.tells → IfOk result (λ done. (dir : Dir) (p : Plain) → Alike (is_of_members config.now sender.now set) (F.map files.old) dir → IsList dir p → p.config ≡ config.now → DoesList dir done (spec.list_members now.seconds sender.now set p (p.config.flags.l && is_moderator p sender.now))) }
    ensures found { IsTrue F.tells → IfOk result (FoundToList (F.map files.old) config.now set (key sender.now)) }
    ensures act { AnswersWithin is_of_queue ⟦<F as Files>⟧ (λ name. is_of_members config.now sender.now set name ≡ true) (IsDamaged (F.map files.old)) files.old files.new result }
{
    if !is_moderator_if(alloc, files, config.flags.l, sender)? {
        return Ok((Txn::new(alloc), Reply::plain(Reply::PRIVATE)));
    }
    let mail = members_mail(alloc, files, sender, set)?;
    let reply = Reply::plain(Reply::MEMBERS);
    with_mail(
        alloc,
        files,
        config,
        Txn::new(alloc),
        sender,
        now,
        mail,
        reply,
    )
}

// The mail that shows a sender the members of a set, in order.
fn members_mail<F: Files>(
    alloc: Global,
    files: &mut F,
    sender: &Address,
    set: Set,
) -> Result<Mail, PartError>
    ensures apart { IsTrue F.tells → IfOk result (λ mail. (dir : Dir) (p : Plain) → Alike (is_bucket set) (F.map files.old) dir → IsList dir p → mail ≡ mails.Members sender.now set (addresses p set)) }
    ensures found { IsTrue F.tells → IfOk result (λ _. (to : List Text) × SpellsAddresses (F.map files.old) set to) }
    ensures names { NamesDamaged ⟦<F as Files>⟧ (λ name. is_bucket set name ≡ true) (IsDamaged (F.map files.old)) result }
    ensures reads { IsReading ⟦<F as Files>⟧ files.old files.new result }
{
    let to = Bytes::from_slice(alloc, sender.bytes())?;
    let members = all(alloc, files, set)?;
    Ok(Mail::Members { to, set, members })
}
