// The posts of a range as a mailbox.
ghost use Rattle.std.specs.Prelude.{◌≡◌, ◌≤◌, ◌/◌, true, IsTrue, IfOk, OnOk};
ghost use Rattle.ml_base.specs.ReadFiles.{IsReading, NamesDamaged};
ghost use Rattle.ml_filing.specs.Answers.{AreIndexes, IsPostName, has_group};
ghost use Rattle.ml_mbox_questions.specs.Mailboxes.{IsBadForMailbox, IsMailboxName, IsRangeMailbox};
ghost use Rattle.ml_mbox_questions.specs.Steps.{AddsMail, IsBadIndexed};

use ml_base::{Bytes, Files, LAST_MOMENT, Name, PartError};
use ml_filing::{Index, Indexes, count, entry_among, message_of, read_alone};
use ml_mbox::push_mail;
use std::alloc::Global;

// Adds the mail of a post, by the index of its group, which was read.
fn push_post<F: Files>(
    alloc: Global,
    files: &mut F,
    indexes: &[Index],
    number: u64,
    out: &mut Bytes,
) -> Result<(), PartError>
    requires low { 1 ≤ number }
    requires high { number ≤ 99_999_999 }
    requires known { IsTrue F.tells → AreIndexes (F.map files.now) indexes.now }
    requires there { has_group (number / 100) indexes.now ≡ true }
    ensures value { IsTrue F.tells → OnOk result (AddsMail (F.map files.old) number out.old out.new) }
    ensures names { NamesDamaged ⟦<F as Files>⟧ (IsPostName number) (IsBadIndexed (F.map files.old) number) result }
    ensures reads { IsReading ⟦<F as Files>⟧ files.old files.new result }
{
    let Some(entry) = entry_among(indexes, number) else {
        return Err(PartError::Damaged(Name::NUMBER));
    };
    let message = message_of(alloc, files, entry)?;
    push_mail(
        out,
        entry.sender.bytes(),
        entry.moment.min(LAST_MOMENT),
        message.as_slice(),
    )?;
    Ok(())
}

// The mailbox of the posts from a first to a last one that are there, in order. It reads the number of posts, the index of every group of theirs
// once, and their texts, holding one at a time.
pub(crate) fn mailbox<F: Files>(
    alloc: Global,
    files: &mut F,
    first: u64,
    last: u64,
) -> Result<Bytes, PartError>
    ensures value { IsTrue F.tells → IfOk result (IsRangeMailbox (F.map files.old) first last) }
    ensures names { NamesDamaged ⟦<F as Files>⟧ (IsMailboxName first last) (IsBadForMailbox (F.map files.old) first last) result }
    ensures reads { IsReading ⟦<F as Files>⟧ files.old files.new result }
{
    let count = count(alloc, files)?;
    let from = first.max(1);
    let end = last.min(count) + 1;
    let mut out = Bytes::new(alloc);
    let mut indexes = Indexes::new(alloc);
    for number in from..end {
        read_alone(alloc, files, &mut indexes, number / 100)?;
        push_post(alloc, files, indexes.as_slice(), number, &mut out)?;
    }
    Ok(out)
}
