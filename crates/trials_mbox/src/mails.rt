// Mails written into mailboxes, read from them and delivered. What is read or delivered is given as netstrings.
ghost use Rattle.std.specs.Prelude.{◌<◌};

use ml_base::{Bytes, push_netstring};
use ml_mbox::{
    Boxed, MailList, Mailed, Mails, asctime, push_mail, read_mbox, to_act, to_acts, write_mbox,
};
use ml_mbox_questions::{import_text, import_words, mbox_query};
use ml_plain::Act;
use std::alloc::{AllocError, Global};
use std::test::Fail;
use trials_lists::config;

// The sender and the message of each mail of a text, or `none` if it isn't a mailbox.
fn read(alloc: Global, text: &[u8]) -> Result<Bytes, AllocError> {
    let Some(mails) = read_mbox(alloc, text)? else {
        return Bytes::from_slice(alloc, b"none");
    };
    let mut out = Bytes::new(alloc);
    for mail in mails.as_slice() {
        push_netstring(&mut out, mail.sender.as_slice())?;
        push_netstring(&mut out, mail.message.as_slice())?;
    }
    Ok(out)
}

// The senders of the mails of a text, read one after another, or `no` if it isn't a mailbox.
fn senders(alloc: Global, text: &[u8]) -> Result<Bytes, AllocError> {
    let Some(mut left) = Mails::open(text) else {
        return Bytes::from_slice(alloc, b"no");
    };
    let mut all = Bytes::new(alloc);
    for _ in 0..10 {
        match left.next(alloc)? {
            Some(mail) => all.extend(mail.sender.as_slice())?,
            None => break,
        }
    }
    Ok(all)
}

// The mailbox of one mail.
fn mailbox(alloc: Global, moment: u64, message: &[u8]) -> Result<Bytes, AllocError>
    requires { moment < 253_402_300_800 }
{
    let mut mails = MailList::new(alloc);
    mails.push(Mailed {
        sender: Bytes::from_slice(alloc, b"a@b")?,
        moment,
        message: Bytes::from_slice(alloc, message)?,
    })?;
    write_mbox(alloc, &mails)
}

// The sender, the recipient and the message of each delivery.
fn deliveries(alloc: Global, acts: &[Act]) -> Result<Bytes, AllocError> {
    let mut out = Bytes::new(alloc);
    for act in acts {
        match act {
            Act::Deliver {
                sender,
                recipient,
                message,
            } => {
                push_netstring(&mut out, sender.as_slice())?;
                push_netstring(&mut out, recipient.as_slice())?;
                push_netstring(&mut out, message.as_slice())?;
            }
            _ => out.extend(b"other")?,
        }
    }
    Ok(out)
}

// How a text is delivered to a list with digests: a message from `a@b`, each mail of a mailbox, or a mailbox as a stream from number 900 on.
fn delivered(alloc: Global, verb: &[u8], text: &[u8], moment: u64) -> Result<Bytes, Fail> {
    let config = config(alloc, b"d", b"", 1_048_576)?;
    if verb == b"delivery".as_slice() {
        let mail = Boxed {
            sender: Bytes::from_slice(alloc, b"a@b")?,
            message: Bytes::from_slice(alloc, text)?,
        };
        Ok(deliveries(alloc, &[to_act(alloc, &config, &mail)?])?)
    } else if verb == b"deliveries".as_slice() {
        let mails = read_mbox(alloc, text)?.ok_or("no mailbox")?;
        Ok(deliveries(alloc, to_acts(alloc, &config, &mails)?.as_slice())?)
    } else {
        match Mails::open(text) {
            None => Ok(Bytes::from_slice(alloc, b"none")?),
            Some(mails) => Ok(import_text(alloc, &config, 900, moment, mails)?),
        }
    }
}

// What words name: the posts from a first to a last one, or whether one is the number of the first item of an import.
fn named(alloc: Global, verb: &[u8], first: &[u8], last: &[u8]) -> Result<String, AllocError> {
    if verb == b"first".as_slice() {
        return format!(in alloc; "{}", import_words(first).is_some());
    }
    match mbox_query(first, last) {
        Some(query) => format!(in alloc; "{} {}", query.first, query.last),
        None => String::from_str(alloc, "none"),
    }
}

// What a call on a text at a moment, or on words, answers.
pub(crate) fn told(
    alloc: Global,
    verb: &[u8],
    first: &[u8],
    last: &[u8],
    text: &[u8],
    moment: u64,
) -> Result<Bytes, Fail>
    requires { moment < 253_402_300_800 }
{
    if verb == b"read".as_slice() {
        Ok(read(alloc, text)?)
    } else if verb == b"senders".as_slice() {
        Ok(senders(alloc, text)?)
    } else if verb == b"date".as_slice() {
        Ok(Bytes::from_slice(alloc, &asctime(moment))?)
    } else if verb == b"written".as_slice() {
        let mut out = Bytes::new(alloc);
        push_mail(&mut out, b"a@b", moment, text)?;
        Ok(out)
    } else if verb == b"mailbox".as_slice() {
        Ok(mailbox(alloc, moment, text)?)
    } else if verb == b"posts".as_slice() || verb == b"first".as_slice() {
        let text = named(alloc, verb, first, last)?;
        Ok(Bytes::from_slice(alloc, text.as_bytes())?)
    } else if verb == b"delivery".as_slice()
        || verb == b"deliveries".as_slice()
        || verb == b"stream".as_slice()
    {
        delivered(alloc, verb, text, moment)
    } else {
        Err(Fail::new("no call"))
    }
}
