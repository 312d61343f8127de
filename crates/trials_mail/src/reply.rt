// Mails that a list writes, and dates.
ghost use Rattle.std.specs.Prelude.{◌<◌};

use crate::program::word;
use ml_base::{Address, AddressList, Bytes, Numbers, Set, read_number};
use ml_config::{Config, read_config};
use ml_reply::{Mail, date_text, text};
use std::alloc::{AllocError, Global};
use std::test::Fail;

const CONFIG: &[u8] =
    b"flags bDFGHJKLMPRSTU\nlocal list\nhost ex.org\nowner o@own.org\nprefix \nmax 1048576\n";

// The first moment that has no date.
const NEVER: u64 = 253_402_300_800;

// The members on lines.
fn members(alloc: Global, lines: &[u8]) -> Result<AddressList, Fail> {
    let mut members = AddressList::new(alloc);
    for line in lines.split(|byte| *byte == b'\n') {
        if !line.is_empty() {
            members.push(Address::parse(alloc, line)?)?;
        }
    }
    Ok(members)
}

// The numbers on lines.
fn numbers(alloc: Global, lines: &[u8]) -> Result<Numbers, AllocError> {
    let mut numbers = Numbers::new(alloc);
    for line in lines.split(|byte| *byte == b'\n') {
        if let Some(number) = read_number(line) {
            numbers.push(number)?;
        }
    }
    Ok(numbers)
}

// A mail about an address of a set that asks for a confirmation.
fn asked(kind: &str, to: Bytes, reply: Bytes, set: Set, who: Bytes) -> Mail {
    if kind == "sc" {
        Mail::AskSc {
            to,
            reply,
            set,
            who,
        }
    } else if kind == "tc" {
        Mail::AskTc {
            to,
            reply,
            set,
            who,
        }
    } else {
        Mail::AskUc {
            to,
            reply,
            set,
            who,
        }
    }
}

// A mail about an address of a set that only says something.
fn telling(kind: &str, to: Bytes, set: Set, who: Bytes) -> Mail {
    if kind == "welcome" {
        Mail::Welcome { to, set, who }
    } else if kind == "goodbye" {
        Mail::Goodbye { to, set, who }
    } else if kind == "already" {
        Mail::Already { to, set, who }
    } else if kind == "absent" {
        Mail::Absent { to, set, who }
    } else {
        Mail::Probe { to, set, who }
    }
}

fn is_telling(kind: &str) -> bool {
    kind == "welcome"
        || kind == "goodbye"
        || kind == "already"
        || kind == "absent"
        || kind == "probe"
}

// A mail about the address bob@b.org of a set.
fn about(alloc: Global, kind: &str, to: &[u8], set: Set, reply: &[u8]) -> Result<Mail, Fail> {
    let asks = kind == "sc" || kind == "tc" || kind == "uc";
    if !asks && !is_telling(kind) {
        return Err(Fail::new(format_args!("no mail: {kind}")));
    }
    let to = Bytes::from_slice(alloc, to)?;
    let who = Bytes::from_slice(alloc, b"bob@b.org")?;
    if asks {
        let reply = Bytes::from_slice(alloc, reply)?;
        return Ok(asked(kind, to, reply, set, who));
    }
    Ok(telling(kind, to, set, who))
}

// A mail with a text at its end.
fn with_end(alloc: Global, kind: &str, to: &[u8], input: &[u8]) -> Result<Mail, AllocError> {
    let to = Bytes::from_slice(alloc, to)?;
    let end = Bytes::from_slice(alloc, input)?;
    if kind == "rejected" {
        Ok(Mail::Rejected { to, message: end })
    } else if kind == "expired" {
        Ok(Mail::Expired { to, message: end })
    } else {
        Ok(Mail::Archive { to, lines: end })
    }
}

fn help(alloc: Global, to: &[u8]) -> Result<Mail, AllocError> {
    let to = Bytes::from_slice(alloc, to)?;
    Ok(Mail::Help { to })
}

fn of_members(alloc: Global, to: &[u8], set: Set, input: &[u8]) -> Result<Mail, Fail> {
    let to = Bytes::from_slice(alloc, to)?;
    let members = members(alloc, input)?;
    Ok(Mail::Members { to, set, members })
}

fn moderate(alloc: Global, to: &[u8], reply: &[u8], input: &[u8]) -> Result<Mail, AllocError> {
    let to = Bytes::from_slice(alloc, to)?;
    let reply = Bytes::from_slice(alloc, reply)?;
    let reject = Bytes::from_slice(alloc, b"list-reject.12@ex.org")?;
    let message = Bytes::from_slice(alloc, input)?;
    Ok(Mail::Moderate {
        to,
        reply,
        reject,
        ticket: 12,
        message,
    })
}

fn warn(alloc: Global, to: &[u8], set: Set, input: &[u8]) -> Result<Mail, AllocError> {
    let to = Bytes::from_slice(alloc, to)?;
    let who = Bytes::from_slice(alloc, b"bob@b.org")?;
    let numbers = numbers(alloc, input)?;
    Ok(Mail::Warn {
        to,
        set,
        who,
        numbers,
    })
}

// A mail of a kind: `KIND TO SET REPLY`, with what it has at its end in the input.
fn mail(alloc: Global, kind: &str, words: &[String], input: &[u8]) -> Result<Mail, Fail> {
    let Some(set) = Set::of_word(word(words, 1)) else {
        return Err(Fail::new("no set"));
    };
    let (to, reply) = (word(words, 0), word(words, 2));
    if kind == "help" {
        Ok(help(alloc, to)?)
    } else if kind == "rejected" || kind == "expired" || kind == "archive" {
        Ok(with_end(alloc, kind, to, input)?)
    } else if kind == "members" {
        of_members(alloc, to, set, input)
    } else if kind == "moderate" {
        Ok(moderate(alloc, to, reply, input)?)
    } else if kind == "warn" {
        Ok(warn(alloc, to, set, input)?)
    } else {
        about(alloc, kind, to, set, reply)
    }
}

fn config(alloc: Global) -> Result<Config, Fail> {
    Ok(read_config(alloc, CONFIG)?.ok_or("no configuration")?)
}

// Adds a mail in full.
fn push_mail(alloc: Global, out: &mut Bytes, mail: &Mail, moment: u64) -> Result<(), Fail>
    requires { moment < 253_402_300_800 }
{
    let text = text(alloc, &config(alloc)?, mail, moment)?;
    Ok(out.extend(text.as_slice())?)
}

// Adds what a call answers at the clock's moment: `date`, or a mail in full.
pub(crate) fn told(
    alloc: Global,
    verb: &str,
    words: &[String],
    input: &[u8],
    moment: u64,
    out: &mut Bytes,
) -> Result<(), Fail> {
    if moment >= NEVER {
        return Err(Fail::new("no moment"));
    }
    if verb == "date" {
        return Ok(out.extend(&date_text(moment))?);
    }
    push_mail(alloc, out, &mail(alloc, verb, words, input)?, moment)
}
