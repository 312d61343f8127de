// Answers from the archive: to whom it is open, and the texts that it gives.
ghost use Rattle.std.specs.Prelude.{◌≡◌, ◌/◌, ◌&&◌, ◌||◌, ◌++◌, not, [], true, unwrap_or, IsTrue, IfOk, OnOk};
ghost use Rattle.ml_filing.specs.Answers.{IsPostName};
ghost use Rattle.ml_filing.specs.Archive.{number_name};
ghost use Rattle.ml_filing.specs.Reads.{IsOfRow};
ghost use Rattle.std.specs.List.{flat_map};
ghost use Rattle.ml_base.specs.Dir.{Dir, same_name};
ghost use Rattle.ml_base.specs.ReadFiles.{IsReading, NamesDamaged};
ghost use Rattle.ml_base.specs.declared.names.Set.TheVariants as sets;
ghost use Rattle.ml_config.specs.ConfigFile.{IsConfigFile, config_name};
ghost use Rattle.ml_plain.specs.ArchiveText as texts;
ghost use Rattle.ml_plain.specs.Directory.{IsList};
ghost use Rattle.ml_plain.specs.Managing as spec;
ghost use Rattle.ml_plain.specs.Plain.{Plain, is_in};
ghost use Rattle.ml_queue.specs.Answers.{ids_name};
ghost use Rattle.ml_acts.specs.Acting.{AnswersWithin};
ghost use Rattle.ml_acts.specs.Asked.{Group, IsDamagedOf, Range, ThreadOf};
ghost use Rattle.ml_acts.specs.Damaged.{IsDamaged};
ghost use Rattle.ml_acts.specs.Doing.{Alike, DoesList, HasIds, is_bucket_of, is_of_queue};
ghost use Rattle.ml_base.specs.Address.{key};
ghost use Rattle.ml_plain.specs.Answers as answers;
ghost use Rattle.ml_joining.specs.Found.{SendsMail};
ghost use Rattle.ml_manage.specs.Found.{FoundToRead, TellsIndex, TellsOpen, TellsRange, TellsReader, TellsSubscriber, TellsThread};
ghost use Rattle.ml_manage.specs.Reads.{AlikeEach, IsDamagedAmong, IsDamagedPost, is_of_index, is_of_posts, is_of_reader, is_of_thread, is_seen_of_posts, is_seen_of_thread};
ghost use Rattle.ml_manage.specs.Parts as parts;
ghost use Rattle.ml_manage.specs.Texts as words;

use crate::members::is_member;
use crate::texts::{add_post, entries_text, no_posts};
use ml_acts::{Moment, with_mail};
use ml_base::{Address, Bytes, Files, PartError, Set, Txn};
use ml_config::Config;
use ml_filing::{index, post, range, thread};
use ml_plain::Reply;
use ml_reply::Mail;
use std::alloc::Global;

// A part of the archive that a request asks for.
#[derive(Clone, Copy, PartialEq, Eq)]
pub(crate) enum Part {
    // The posts from one number to another, or one post.
    Posts(u64, Option<u64>),
    // The thread of a post.
    Thread(u64),
    // The index of a post's group.
    Index(u64),
}

// A part of the archive, for a sender to whom the archive is open.
pub(crate) fn send_part<F: Files>(
    alloc: Global,
    files: &mut F,
    config: &Config,
    now: Moment,
    sender: &Address,
    part: Part,
) -> Result<(Txn, Reply), PartError>
    requires room { IsTrue F.tells → HasIds (F.map files.now) }
    requires loaded { IsTrue F.tells → IsConfigFile (F.map files.now config_name) config.now }
    ensures apart { IsTrue F.tells → IfOk result (λ done. (dir : Dir) (p : Plain) → Alike (λ name. parts.is_post_of part name || (is_of_reader config.now sender.now name || parts.is_of part name || same_name name ids_name)) (F.map files.old) dir → IsList dir p → p.config ≡ config.now → DoesList dir done (spec.from_archive now.seconds sender.now p (spec.may_read p sender.now) (parts.text_of p part))) }
    ensures found { IsTrue F.tells → IfOk result (FoundToRead (F.map files.old) config.now (key sender.now) (parts.TellsPart (F.map files.old) config.now part)) }
    ensures act { AnswersWithin is_of_queue ⟦<F as Files>⟧ (λ name. (is_of_reader config.now sender.now name || parts.is_of part name || same_name name ids_name) ≡ true) (IsDamagedOf (F.map files.old) (parts.asked_of config.now part)) files.old files.new result }
{
    if !may_read(alloc, files, config, sender)? {
        return Ok((Txn::new(alloc), Reply::plain(Reply::PRIVATE)));
    }
    let lines = part_text(alloc, files, config, part)?;
    mail_lines(alloc, files, config, now, sender, lines)
}

// The text of a part.
fn part_text<F: Files>(
    alloc: Global,
    files: &mut F,
    config: &Config,
    part: Part,
) -> Result<Bytes, PartError>
    requires { IsTrue F.tells → IsConfigFile (F.map files.now config_name) config.now }
    ensures apart { IsTrue F.tells → IfOk result (λ text. (dir : Dir) (p : Plain) → Alike (parts.is_seen_of part) (F.map files.old) dir → IsList dir p → p.config ≡ config.now → text ≡ parts.text_of p part) }
    ensures found { IsTrue F.tells → IfOk result (λ _. parts.TellsPart (F.map files.old) config.now part) }
    ensures names { NamesDamaged ⟦<F as Files>⟧ (λ name. parts.is_of part name ≡ true) (IsDamagedOf (F.map files.old) (parts.asked_of config.now part)) result }
    ensures reads { IsReading ⟦<F as Files>⟧ files.old files.new result }
{
    match part {
        Part::Posts(from, to) => get_text(alloc, files, config, from, to),
        Part::Thread(at) => thread_text(alloc, files, config, at),
        Part::Index(at) => index_text(alloc, files, at),
    }
}

// Whether the archive is open to a sender.
fn may_read<F: Files>(
    alloc: Global,
    files: &mut F,
    config: &Config,
    sender: &Address,
) -> Result<bool, PartError>
    ensures apart { IsTrue F.tells → IfOk result (λ is. (dir : Dir) (p : Plain) → Alike (is_of_reader config.now sender.now) (F.map files.old) dir → IsList dir p → p.config ≡ config.now → is ≡ spec.may_read p sender.now) }
    ensures found { IsTrue F.tells → IfOk result (TellsReader (F.map files.old) config.now (key sender.now)) }
    ensures names { NamesDamaged ⟦<F as Files>⟧ (λ name. is_of_reader config.now sender.now name ≡ true) (IsDamaged (F.map files.old)) result }
    ensures reads { IsReading ⟦<F as Files>⟧ files.old files.new result }
{
    if is_member(alloc, files, Set::Moderators, sender)? {
        return Ok(true);
    }
    is_open_to(alloc, files, config, sender)
}

// Whether it is open to a sender who isn't a moderator.
fn is_open_to<F: Files>(
    alloc: Global,
    files: &mut F,
    config: &Config,
    sender: &Address,
) -> Result<bool, PartError>
    ensures apart { IsTrue F.tells → IfOk result (λ is. (dir : Dir) (p : Plain) → Alike (is_of_reader config.now sender.now) (F.map files.old) dir → IsList dir p → p.config ≡ config.now → is ≡ (not p.config.flags.b && p.config.flags.p && (not p.config.flags.g || is_in p sets.List sender.now || is_in p sets.Digest sender.now))) }
    ensures found { IsTrue F.tells → IfOk result (TellsOpen (F.map files.old) config.now (key sender.now)) }
    ensures names { NamesDamaged ⟦<F as Files>⟧ (λ name. is_of_reader config.now sender.now name ≡ true) (IsDamaged (F.map files.old)) result }
    ensures reads { IsReading ⟦<F as Files>⟧ files.old files.new result }
{
    if config.flags.b || !config.flags.p {
        return Ok(false);
    }
    if !config.flags.g {
        return Ok(true);
    }
    is_subscriber(alloc, files, sender)
}

// Whether an address is in the set list or digest.
fn is_subscriber<F: Files>(alloc: Global, files: &mut F, who: &Address) -> Result<bool, PartError>
    ensures apart { IsTrue F.tells → IfOk result (λ is. (dir : Dir) (p : Plain) → Alike (λ name. is_bucket_of sets.List who.now name || is_bucket_of sets.Digest who.now name) (F.map files.old) dir → IsList dir p → is ≡ (is_in p sets.List who.now || is_in p sets.Digest who.now)) }
    ensures found { IsTrue F.tells → IfOk result (TellsSubscriber (F.map files.old) (key who.now)) }
    ensures names { NamesDamaged ⟦<F as Files>⟧ (λ name. (is_bucket_of sets.List who.now name || is_bucket_of sets.Digest who.now name) ≡ true) (IsDamaged (F.map files.old)) result }
    ensures reads { IsReading ⟦<F as Files>⟧ files.old files.new result }
{
    if is_member(alloc, files, Set::List, who)? {
        return Ok(true);
    }
    is_member(alloc, files, Set::Digest, who)
}

// A text of the archive goes to a sender.
fn mail_lines<F: Files>(
    alloc: Global,
    files: &mut F,
    config: &Config,
    now: Moment,
    sender: &Address,
    lines: Bytes,
) -> Result<(Txn, Reply), PartError>
    requires room { IsTrue F.tells → HasIds (F.map files.now) }
    ensures apart { IsTrue F.tells → IfOk result (λ done. (dir : Dir) (p : Plain) → dir ids_name ≡ F.map files.old ids_name → IsList dir p → p.config ≡ config.now → DoesList dir done (spec.from_archive now.seconds sender.now p true lines)) }
    ensures found { IsTrue F.tells → IfOk result (SendsMail (F.map files.old) [] answers.archive) }
    ensures act { AnswersWithin is_of_queue ⟦<F as Files>⟧ (λ name. same_name name ids_name ≡ true) (IsDamaged (F.map files.old)) files.old files.new result }
{
    let mail = Mail::Archive {
        to: Bytes::from_slice(alloc, sender.bytes())?,
        lines,
    };
    let reply = Reply::plain(Reply::ARCHIVE);
    with_mail(
        alloc,
        files,
        config,
        Txn::new(alloc),
        sender,
        now,
        mail,
        reply,
    )
}

// The text of a range of posts.
fn get_text<F: Files>(
    alloc: Global,
    files: &mut F,
    config: &Config,
    from: u64,
    to: Option<u64>,
) -> Result<Bytes, PartError>
    ensures apart { IsTrue F.tells → IfOk result (λ text. (dir : Dir) (p : Plain) → Alike (is_seen_of_posts from (unwrap_or to from)) (F.map files.old) dir → IsList dir p → p.config ≡ config.now → text ≡ texts.get_text p from to) }
    ensures found { IsTrue F.tells → IfOk result (λ _. TellsRange (F.map files.old) from (unwrap_or to from)) }
    ensures names { NamesDamaged ⟦<F as Files>⟧ (λ name. is_of_posts from (unwrap_or to from) name ≡ true) (IsDamagedOf (F.map files.old) (Range from (unwrap_or to from))) result }
    ensures reads { IsReading ⟦<F as Files>⟧ files.old files.new result }
{
    let numbers = range(alloc, files, from, to.unwrap_or(from))?;
    posts_text(alloc, files, config, numbers.as_slice())
}

// The text of the thread of a post.
fn thread_text<F: Files>(
    alloc: Global,
    files: &mut F,
    config: &Config,
    at: u64,
) -> Result<Bytes, PartError>
    requires { IsTrue F.tells → IsConfigFile (F.map files.now config_name) config.now }
    ensures apart { IsTrue F.tells → IfOk result (λ text. (dir : Dir) (p : Plain) → Alike is_seen_of_thread (F.map files.old) dir → IsList dir p → p.config ≡ config.now → text ≡ texts.thread_text p at) }
    ensures found { IsTrue F.tells → IfOk result (λ _. TellsThread (F.map files.old) config.now.prefix at) }
    ensures names { NamesDamaged ⟦<F as Files>⟧ (λ name. is_of_thread name ≡ true) (IsDamagedOf (F.map files.old) (ThreadOf config.now.prefix at)) result }
    ensures reads { IsReading ⟦<F as Files>⟧ files.old files.new result }
{
    let numbers = thread(alloc, files, config.prefix.as_slice(), at)?;
    posts_text(alloc, files, config, numbers.as_slice())
}

// The text of the index of a post's group.
fn index_text<F: Files>(alloc: Global, files: &mut F, at: u64) -> Result<Bytes, PartError>
    ensures apart { IsTrue F.tells → IfOk result (λ text. (dir : Dir) (p : Plain) → Alike (is_of_index at) (F.map files.old) dir → IsList dir p → text ≡ texts.index_text p at) }
    ensures found { IsTrue F.tells → IfOk result (λ _. TellsIndex (F.map files.old) (at / 100)) }
    ensures names { NamesDamaged ⟦<F as Files>⟧ (λ name. is_of_index at name ≡ true) (IsDamagedOf (F.map files.old) (Group (at / 100))) result }
    ensures reads { IsReading ⟦<F as Files>⟧ files.old files.new result }
{
    let entries = index(alloc, files, at / 100)?;
    Ok(entries_text(alloc, entries.as_slice())?)
}

// The text of the posts of some numbers, or a line that says that there are none.
fn posts_text<F: Files>(
    alloc: Global,
    files: &mut F,
    config: &Config,
    numbers: &[u64],
) -> Result<Bytes, PartError>
    ensures apart { IsTrue F.tells → IfOk result (λ text. (dir : Dir) (p : Plain) → AlikeEach numbers.now (F.map files.old) dir → IsList dir p → p.config ≡ config.now → text ≡ words.posts_text p numbers.now) }
    ensures names { NamesDamaged ⟦<F as Files>⟧ (IsOfRow number_name numbers.now) (IsDamagedAmong (F.map files.old) numbers.now) result }
    ensures reads { IsReading ⟦<F as Files>⟧ files.old files.new result }
{
    if numbers.is_empty() {
        return Ok(no_posts(alloc)?);
    }
    all_posts(alloc, files, config, numbers)
}

// The texts of the posts of some numbers, one after another.
fn all_posts<F: Files>(
    alloc: Global,
    files: &mut F,
    config: &Config,
    numbers: &[u64],
) -> Result<Bytes, PartError>
    ensures apart { IsTrue F.tells → IfOk result (λ text. (dir : Dir) (p : Plain) → AlikeEach numbers.now (F.map files.old) dir → IsList dir p → p.config ≡ config.now → text ≡ flat_map (words.post_text p) numbers.now) }
    ensures names { NamesDamaged ⟦<F as Files>⟧ (IsOfRow number_name numbers.now) (IsDamagedAmong (F.map files.old) numbers.now) result }
    ensures reads { IsReading ⟦<F as Files>⟧ files.old files.new result }
{
    let mut out = Bytes::new(alloc);
    for number in numbers {
        add_one(alloc, files, config, *number, &mut out)?;
    }
    Ok(out)
}

// Adds the post of a number, if it is there.
fn add_one<F: Files>(
    alloc: Global,
    files: &mut F,
    config: &Config,
    number: u64,
    out: &mut Bytes,
) -> Result<(), PartError>
    ensures apart { IsTrue F.tells → OnOk result ((dir : Dir) (p : Plain) → Alike (is_seen_of_posts number number) (F.map files.old) dir → IsList dir p → p.config ≡ config.now → out.new ≡ out.old ++ words.post_text p number) }
    ensures names { NamesDamaged ⟦<F as Files>⟧ (IsPostName number) (IsDamagedPost (F.map files.old) number) result }
    ensures reads { IsReading ⟦<F as Files>⟧ files.old files.new result }
{
    match post(alloc, files, number)? {
        Some(post) => Ok(add_post(out, config, number, &post)?),
        None => Ok(()),
    }
}
