// Publishing a post: it goes last into the archive, and last into the queue to the set list.
ghost use Rattle.std.specs.Prelude.{◌≡◌, ◌<◌, ◌+◌, true, IsTrue, IfOk, IfErr, length};
ghost use Rattle.ml_base.specs.Dir.{Dir, are_files, touches_only, with_puts};
ghost use Rattle.ml_base.specs.PartErrors.{OnDamaged};
ghost use Rattle.ml_base.specs.ReadFiles.{IsReading, NamesDamaged};
ghost use Rattle.ml_base.specs.declared.names.Set.TheVariants as sets;
ghost use Rattle.ml_filing.specs.Archive.{IsNumberFile, number_name};
ghost use Rattle.ml_filing.specs.Threads.{is_of_archive};
ghost use Rattle.ml_plain.specs.Directory.{IsList};
ghost use Rattle.ml_plain.specs.Mailing as mailing;
ghost use Rattle.ml_plain.specs.Plain.{Plain, addresses};
ghost use Rattle.ml_plain.specs.Posting as spec;
ghost use Rattle.ml_acts.specs.Asked.{IsDamagedOf, Next};
ghost use Rattle.ml_acts.specs.Damaged.{IsDamaged};
ghost use Rattle.ml_acts.specs.Doing.{Alike, HasIds, is_mailed_by, is_of_posting, is_of_queue};
ghost use Rattle.ml_acts.specs.Found.{AddsMailToSet, QueuesToSet};
ghost use Rattle.ml_post.specs.Alike.{AlikeToPublish};
ghost use Rattle.ml_post.specs.Found.{FoundToAppend};
ghost use Rattle.ml_post.specs.Publishing.{Publishes, is_published_by, sent_key};

use crate::outgoing_text::sent_text;
use ml_acts::{MailMemo, Moment, post_path, send_to_list};
use ml_base::{Address, Bytes, Files, LONGEST_POST, PartError, Txn};
use ml_config::Config;
use ml_filing::append_next;
use ml_header::Message;
use std::alloc::{AllocError, Global};

// Puts a sender's message into the archive after so many posts, and into the queue to the set list as it stands.
pub(crate) fn publish<F: Files>(
    alloc: Global,
    files: &mut F,
    memo: &mut MailMemo,
    config: &Config,
    now: Moment,
    sender: &Address,
    message: &[u8],
    count: u64,
) -> Result<Txn, PartError>
    requires below { count < 99_999_999 }
    requires count { IsTrue F.tells → IsNumberFile (F.map files.now number_name) count }
    requires room { IsTrue F.tells → HasIds (F.map files.now) }
    ensures apart { IsTrue F.tells → IfOk result (λ txn. (dir : Dir) (p : Plain) → AlikeToPublish config.now message.now (F.map files.old) dir → IsList dir p → p.config ≡ config.now → Publishes dir now.seconds sender.now message.now p (count + 1) txn) }
    ensures spared { IsTrue F.tells → (dir : Dir) (p : Plain) → AlikeToPublish config.now message.now (F.map files.old) dir → IsList dir p → IfErr result (λ e. OnDamaged e (λ _. ⊥)) }
    ensures own { IfOk result (λ txn. touches_only is_of_posting txn ≡ true) }
    ensures files { IfOk result (λ txn. IsTrue (are_files txn)) }
    ensures names { NamesDamaged ⟦<F as Files>⟧ (λ name. is_published_by name ≡ true) (IsDamagedOf (F.map files.old) (Next (sent_key config.now message.now))) result }
    ensures found { IsTrue F.tells → IfOk result (FoundToAppend (F.map files.old) config.now.prefix (count + 1)) }
    ensures reads { IsReading ⟦<F as Files>⟧ files.old files.new result }
{
    let text = text_to_send(alloc, config, message)?;
    let prefix = config.prefix.as_slice();
    let filed = append_next(
        alloc,
        files,
        count,
        prefix,
        sender,
        now.seconds,
        text.as_slice(),
    )?;
    with_mail(alloc, files, memo, config, count + 1, text, filed)
}

// The puts of a post that gets a number, and after them those by which its text goes to the set list.
fn with_mail<F: Files>(
    alloc: Global,
    files: &mut F,
    memo: &mut MailMemo,
    config: &Config,
    number: u64,
    text: Bytes,
    txn: Txn,
) -> Result<Txn, PartError>
    requires own { touches_only is_of_archive txn ≡ true }
    requires files { IsTrue (are_files txn) }
    requires room { IsTrue F.tells → HasIds (F.map files.now) }
    ensures apart { IsTrue F.tells → IfOk result (λ done. (dir : Dir) (p : Plain) → Alike (is_mailed_by sets.List) (F.map files.old) dir → IsList (with_puts dir txn) p → p.config ≡ config.now → IsList (with_puts dir done) (mailing.send (mailing.post_path p.config number) text (addresses p sets.List) p)) }
    ensures own { IfOk result (λ done. touches_only is_of_posting done ≡ true) }
    ensures files { IfOk result (λ done. IsTrue (are_files done)) }
    ensures names { NamesDamaged ⟦<F as Files>⟧ (λ name. is_mailed_by sets.List name ≡ true) (IsDamaged (F.map files.old)) result }
    ensures found { IsTrue F.tells → IfOk result (AddsMailToSet (F.map files.old) sets.List txn) }
    ensures reads { IsReading ⟦<F as Files>⟧ files.old files.new result }
{
    let mail = mail_members(alloc, files, memo, config, number, text)?;
    let mut txn = txn;
    txn.join(mail)?;
    Ok(txn)
}

// The text that the list sends of a message. If it is too long for a post, the answer is lack of memory.
fn text_to_send(alloc: Global, config: &Config, message: &[u8]) -> Result<Bytes, AllocError>
    ensures text { IfOk result (λ text. text ≡ spec.sent_text config.now message.now) }
    ensures size { IfOk result (λ text. length text < 4_294_967_296) }
{
    let text = sent_text(alloc, config, &Message::scan(message))?;
    if text.len() as u64 > LONGEST_POST {
        return Err(AllocError);
    }
    Ok(text)
}

// Puts the text of a post into the queue, to the set list.
fn mail_members<F: Files>(
    alloc: Global,
    files: &mut F,
    memo: &mut MailMemo,
    config: &Config,
    number: u64,
    text: Bytes,
) -> Result<Txn, PartError>
    requires room { IsTrue F.tells → HasIds (F.map files.now) }
    ensures apart { IsTrue F.tells → IfOk result (λ txn. (dir : Dir) (p : Plain) → Alike (is_mailed_by sets.List) (F.map files.old) dir → IsList dir p → p.config ≡ config.now → IsList (with_puts dir txn) (mailing.send (mailing.post_path config.now number) text (addresses p sets.List) p)) }
    ensures own { IfOk result (λ txn. touches_only is_of_queue txn ≡ true) }
    ensures files { IfOk result (λ txn. IsTrue (are_files txn)) }
    ensures names { NamesDamaged ⟦<F as Files>⟧ (λ name. is_mailed_by sets.List name ≡ true) (IsDamaged (F.map files.old)) result }
    ensures found { IsTrue F.tells → IfOk result (QueuesToSet (F.map files.old) sets.List) }
    ensures reads { IsReading ⟦<F as Files>⟧ files.old files.new result }
{
    let path = post_path(alloc, config, number)?;
    send_to_list(alloc, files, memo, path, text)
}
