// Requests, senders and cookies.
ghost use Rattle.std.specs.Prelude.{IsTrue};
ghost use Rattle.ml_address.specs.Requests.{is_in_range};
ghost use Rattle.ml_address.specs.Views.{request_view};

use crate::answer_text::{push_bool, push_debug, push_one, push_two};
use crate::program::word;
use ml_address::{
    Hmac, Path, Request, Who, Word, cookie, cookie_good, cookie_ok, hmac, read_request, unverp,
    verp, write_request,
};
use ml_base::{Address, Bytes, Set, read_number};
use std::alloc::{AllocError, Global};
use std::test::Fail;
use trials_lists::KEY;

const COOKIE: [u8; 20] = *b"abcdefghijklmnopabcd";

const WHO: Who<'static> = Who {
    local: b"a",
    host: b"b",
};

const OTHER_KEY: [u8; 32] = [255; 32];

const UNSUBSCRIPTION: Request<'static> = Request::Confirm {
    word: Word::Uc,
    set: Set::Deny,
    time: 7,
    cookie: COOKIE,
    who: WHO,
};

const PROBE_BOUNCE: Request<'static> = Request::ProbeBounce {
    set: Set::Digest,
    time: 5,
    cookie: COOKIE,
    who: WHO,
};

const DIGEST_SUBSCRIPTION: Request<'static> = Request::Subscribe {
    set: Set::Digest,
    who: Some(WHO),
};

const RANGE: Request<'static> = Request::Get {
    from: 5,
    to: Some(20),
};

const REJECTION: Request<'static> = Request::Reject {
    ticket: 3,
    cookie: COOKIE,
};

const POST_BOUNCE: Request<'static> = Request::Bounce {
    set: Set::List,
    number: 1,
    who: WHO,
};

// Adds a request in words, with all of its parts.
fn push_request(
    alloc: Global,
    out: &mut Bytes,
    request: Option<Request<'_>>,
) -> Result<(), AllocError> {
    match request {
        None => out.extend(b"none"),
        Some(Request::Post) => out.extend(b"post"),
        Some(Request::Help) => out.extend(b"help"),
        Some(Request::Owner) => out.extend(b"owner"),
        Some(Request::Subscribe { set, who }) => push_two(alloc, out, b"subscribe", &set, &who),
        Some(Request::Unsubscribe { set, who }) => push_two(alloc, out, b"unsubscribe", &set, &who),
        Some(Request::Members { set }) => push_one(alloc, out, b"members", &set),
        Some(Request::Get { from, to }) => push_two(alloc, out, b"get", &from, &to),
        Some(Request::Index { at }) => push_one(alloc, out, b"index", &at),
        Some(Request::Thread { at }) => push_one(alloc, out, b"thread", &at),
        Some(Request::ReplyBounce { set }) => push_one(alloc, out, b"bounce of a reply", &set),
        Some(Request::Other) => out.extend(b"other"),
        Some(signed) => push_signed(alloc, out, signed),
    }
}

// The same for a request that has a cookie, or that comes from a copy's sender.
fn push_signed(alloc: Global, out: &mut Bytes, request: Request<'_>) -> Result<(), AllocError> {
    match request {
        Request::Confirm {
            word,
            set,
            time,
            cookie,
            who,
        } => {
            push_one(alloc, out, b"confirm", &word)?;
            push_of_set(alloc, out, b"", set, time, &cookie, who)
        }
        Request::Accept { ticket, cookie } => push_two(alloc, out, b"accept", &ticket, &cookie),
        Request::Reject { ticket, cookie } => push_two(alloc, out, b"reject", &ticket, &cookie),
        Request::Bounce { set, number, who } => {
            push_two(alloc, out, b"bounce", &set, &number)?;
            push_one(alloc, out, b"", &who)
        }
        Request::WarnBounce {
            set,
            time,
            cookie,
            who,
        } => push_of_set(alloc, out, b"bounce of a warning", set, time, &cookie, who),
        Request::ProbeBounce {
            set,
            time,
            cookie,
            who,
        } => push_of_set(alloc, out, b"bounce of a probe", set, time, &cookie, who),
        _ => out.extend(b"no such request"),
    }
}

// Adds a word, a set, a moment, a cookie and an address.
fn push_of_set(
    alloc: Global,
    out: &mut Bytes,
    word: &[u8],
    set: Set,
    time: u64,
    cookie: &[u8; 20],
    who: Who<'_>,
) -> Result<(), AllocError> {
    push_two(alloc, out, word, &set, &time)?;
    push_two(alloc, out, b"", cookie, &who)
}

// Adds a line with a request as it is written.
fn push_written(alloc: Global, out: &mut Bytes, request: &Request) -> Result<(), AllocError>
    requires { IsTrue (is_in_range (request_view request.now)) }
{
    let mut text = write_request(alloc, b"list", b"ex.org", request)?;
    text.push(b'\n')?;
    out.extend(text.as_slice())
}

// Adds requests as they are written, a line each.
fn push_all_written(alloc: Global, out: &mut Bytes) -> Result<(), AllocError> {
    let leave = Request::Unsubscribe {
        set: Set::List,
        who: None,
    };
    push_written(alloc, out, &Request::Post)?;
    push_written(alloc, out, &Request::Help)?;
    push_written(alloc, out, &DIGEST_SUBSCRIPTION)?;
    push_written(alloc, out, &leave)?;
    push_written(alloc, out, &Request::Members { set: Set::Allow })?;
    push_written(alloc, out, &UNSUBSCRIPTION)?;
    push_written(alloc, out, &RANGE)?;
    push_written(alloc, out, &REJECTION)?;
    push_written(alloc, out, &POST_BOUNCE)?;
    push_written(alloc, out, &PROBE_BOUNCE)?;
    push_written(alloc, out, &Request::ReplyBounce { set: Set::List })
}

// The number of a word, or the last one of all.
fn number(words: &[String], at: usize) -> u64 {
    let text = word(words, at);
    if text == b"last".as_slice() {
        u64::MAX
    } else {
        read_number(text).unwrap_or(0)
    }
}

// Adds what a call answers: `ask RECIPIENT` what a recipient of the list list@ex.org asks for, `written` requests as they are written, `sender BASE
// HOST WAY TO` the sender of a mail, which names its recipient if the way is `each`, `unverp TEXT` the place of the `=` that stands for an `@`,
// `mac SIZE LEN` the first LEN bytes of the code of a text, in one piece and in two, where the input is a key of SIZE bytes and then the text,
// `cookie KIND SET MOMENT TEXT` with the input as the key, `ok LETTERS NOW` whether letters are good, and `good FORMER CHANGED MOMENT LETTERS
// NOW` the same for a moment's letters, with the former key if that is `key`, and the moment of its change.
pub(crate) fn told(
    alloc: Global,
    verb: &str,
    words: &[String],
    input: &[u8],
    out: &mut Bytes,
) -> Result<(), Fail> {
    if verb == "ask" {
        let request = read_request(b"list", b"ex.org", word(words, 0));
        Ok(push_request(alloc, out, request)?)
    } else if verb == "written" {
        Ok(push_all_written(alloc, out)?)
    } else if verb == "sender" {
        sender(alloc, words, out)
    } else if verb == "unverp" {
        Ok(push_debug(alloc, out, &unverp(word(words, 0)))?)
    } else if verb == "mac" {
        let (size, len) = (number(words, 0) as usize, number(words, 1) as usize);
        Ok(mac(out, input, size, len)?)
    } else if verb == "cookie" {
        let (kind, set) = (word(words, 0), word(words, 1));
        let letters = cookie(input, kind, set, number(words, 2), word(words, 3));
        Ok(out.extend(&letters)?)
    } else {
        Ok(push_bool(out, is_good(verb, words)?)?)
    }
}

fn sender(alloc: Global, words: &[String], out: &mut Bytes) -> Result<(), Fail> {
    let to = Address::parse(alloc, word(words, 3))?;
    let sender = sent_from(alloc, words, &to)?;
    Ok(out.extend(sender.as_slice())?)
}

fn sent_from(alloc: Global, words: &[String], to: &Address) -> Result<Bytes, AllocError> {
    let base = Bytes::from_slice(alloc, word(words, 0))?;
    let host = Bytes::from_slice(alloc, word(words, 1))?;
    let each = word(words, 2) == b"each".as_slice();
    verp(alloc, &Path { base, host, each }, to)
}

fn mac(out: &mut Bytes, input: &[u8], size: usize, len: usize) -> Result<(), AllocError> {
    let (key, text) = input.split_at(size.min(input.len()));
    let whole = hmac(key, text);
    let (first, rest) = text.split_at(text.len().min(3));
    let mut pieces = Hmac::new(key);
    pieces.add(first);
    pieces.add(rest);
    if pieces.end() != whole {
        out.extend(b"otherwise in pieces: ")?;
    }
    for byte in &whole[..len.min(32)] {
        push_hex(out, *byte)?;
    }
    Ok(())
}

// Adds the two hexadecimal digits of a byte.
fn push_hex(out: &mut Bytes, byte: u8) -> Result<(), AllocError> {
    let digits = b"0123456789abcdef";
    out.push(digits[(byte / 16) as usize])?;
    out.push(digits[(byte % 16) as usize])
}

fn is_good(verb: &str, words: &[String]) -> Result<bool, Fail> {
    if verb == "ok" {
        let Some((letters, [])) = word(words, 0).split_first_chunk::<20>() else {
            return Err(Fail::new("no letters"));
        };
        let now = number(words, 1);
        return Ok(cookie_ok(&KEY, b"sc", b"list", 1_000_000_200, b"g@h", letters, now));
    }
    let Some((letters, [])) = word(words, 3).split_first_chunk::<20>() else {
        return Err(Fail::new("no letters"));
    };
    let key: &[u8] = &KEY;
    let former = if word(words, 0) == b"key".as_slice() {
        Some(key)
    } else {
        None
    };
    let (changed, moment, now) = (number(words, 1), number(words, 2), number(words, 4));
    Ok(cookie_good(
        &OTHER_KEY, former, changed, b"sc", b"list", moment, b"g@h", letters, now,
    ))
}
