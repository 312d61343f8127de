// How a request is written: its words in lower case, LOCAL and HOST as in the configuration.
ghost use Rattle.std.specs.Prelude.{◌≡◌, ◌++◌, ◌∷◌, ◌^◌, ◌<◌, Some, IfOk, OnOk, IsTrue, false, codes};
ghost use Rattle.std.specs.Option.{option_map};
ghost use Rattle.std.specs.Fmt.{decimal};
ghost use Rattle.ml_base.specs.Splits.{has_byte};
ghost use Rattle.ml_address.specs.Reading.{request_of};
ghost use Rattle.ml_address.specs.Requests as requests;
ghost use Rattle.ml_address.specs.Requests.{is_in_range};
ghost use Rattle.ml_address.specs.Views.{who_view, signed_view, request_view};
ghost use Rattle.ml_address.specs.Writing.{request_text};
ghost use Rattle.ml_address.specs.Writing as spec;

use crate::request_reader::Signed;
use crate::{Request, Who, Word};
use ml_base::{Bytes, Set};
use std::alloc::{AllocError, Global};

/// The address that asks this of the list LOCAL@HOST, with the request's words in lower case. It is read back as the
/// same request, if that isn't Other and its parts are in the grammar's ranges: sets that requests may name, numbers of
/// posts from 1 to 99,999,999, tickets from 1 to 10^15, moments before the year 10000, letters `a` to `p`, and
/// addresses. HOST has no `@`. The only error is lack of memory.
pub fn write_request(
    alloc: Global,
    local: &[u8],
    host: &[u8],
    request: &Request,
) -> Result<Bytes, AllocError>
    requires host { has_byte 64 host.now ≡ false }
    requires range { IsTrue (is_in_range (request_view request.now)) }
    ensures text { IfOk result (λ out. out ≡ request_text local.now host.now (request_view request.now)) }
    ensures read { IfOk result (λ out. request_of local.now host.now out ≡ Some (request_view request.now)) }
{
    request_bytes(alloc, local, host, request)
}

// The address that asks this of the list LOCAL@HOST.
#[tactic(auto, unfolding(crate::specs::Writing::request_text))]
fn request_bytes(
    alloc: Global,
    local: &[u8],
    host: &[u8],
    request: &Request,
) -> Result<Bytes, AllocError>
    ensures { IfOk result (λ out. out ≡ request_text local.now host.now (request_view request.now)) }
{
    let mut out = Bytes::from_slice(alloc, local)?;
    add_rest(&mut out, request)?;
    out.push(b'@')?;
    out.extend(host)?;
    Ok(out)
}

// Adds what comes after LOCAL.
fn add_rest(out: &mut Bytes, request: &Request) -> Result<(), AllocError>
    ensures { OnOk result (out.new ≡ out.old ++ spec.rest_text (request_view request.now)) }
{
    match *request {
        Request::Post => Ok(()),
        Request::Help => out.extend(b"-help"),
        Request::Owner => out.extend(b"-owner"),
        Request::Subscribe { set, who } => add_change(out, set, b"subscribe", who),
        Request::Unsubscribe { set, who } => add_change(out, set, b"unsubscribe", who),
        Request::Members { set } => add_set_word(out, set, b"list"),
        Request::Confirm {
            word,
            set,
            time,
            cookie,
            who,
        } => add_confirm(out, set, word, &Signed { time, cookie, who }),
        Request::Get { from, to } => add_get(out, from, to),
        Request::Index { at } => add_numbered(out, b"-index.", at),
        Request::Thread { at } => add_numbered(out, b"-thread.", at),
        Request::Accept { ticket, cookie } => add_answer(out, b"-accept-", ticket, &cookie),
        Request::Reject { ticket, cookie } => add_answer(out, b"-reject-", ticket, &cookie),
        Request::Bounce { set, number, who } => add_bounce(out, set, number, who),
        Request::WarnBounce {
            set,
            time,
            cookie,
            who,
        } => add_returned(out, set, b"return-warn-", &Signed { time, cookie, who }),
        Request::ProbeBounce {
            set,
            time,
            cookie,
            who,
        } => add_returned(out, set, b"return-probe-", &Signed { time, cookie, who }),
        Request::ReplyBounce { set } => add_set_word(out, set, b"return-"),
        Request::Other => out.push(b'-'),
    }
}

// Adds a word for a set, and the address that it is for.
fn add_change(out: &mut Bytes, set: Set, word: &[u8], who: Option<Who>) -> Result<(), AllocError>
    ensures { OnOk result (out.new ≡ out.old ++ (45 ∷ requests.set_front set ++ word.now ++ spec.after_hyphen (option_map who_view who.entry))) }
{
    add_set_word(out, set, word)?;
    add_after_hyphen(out, who)
}

// Adds a confirmation's word for a set, a full stop, and what was signed.
fn add_confirm(out: &mut Bytes, set: Set, word: Word, signed: &Signed) -> Result<(), AllocError>
    ensures { OnOk result (out.new ≡ out.old ++ (45 ∷ requests.set_front set ++ requests.word_text word ++ 46 ∷ spec.signed_text (signed_view signed.now))) }
{
    add_set_word(out, set, word_text(word))?;
    out.push(b'.')?;
    add_signed(out, signed)
}

// Adds what asks for posts.
fn add_get(out: &mut Bytes, from: u64, to: Option<u64>) -> Result<(), AllocError>
    ensures { OnOk result (out.new ≡ out.old ++ (codes "-get." ++ decimal from ++ spec.after_underscore to)) }
{
    add_numbered(out, b"-get.", from)?;
    add_after_underscore(out, to)
}

// Adds a word and a number.
fn add_numbered(out: &mut Bytes, word: &[u8], number: u64) -> Result<(), AllocError>
    ensures { OnOk result (out.new ≡ out.old ++ (word.now ++ decimal number)) }
{
    out.extend(word)?;
    out.push_number(number)
}

// Adds a moderator's word, a ticket and its cookie.
fn add_answer(
    out: &mut Bytes,
    word: &[u8],
    ticket: u64,
    cookie: &[u8; 20],
) -> Result<(), AllocError>
    ensures { OnOk result (out.new ≡ out.old ++ (word.now ++ spec.ticket_text ticket cookie.now)) }
{
    out.extend(word)?;
    add_ticket(out, ticket, cookie)
}

// Adds what a bounce is of: a post's number, and whose copy it was.
fn add_bounce(out: &mut Bytes, set: Set, number: u64, who: Who) -> Result<(), AllocError>
    ensures { OnOk result (out.new ≡ out.old ++ (45 ∷ requests.set_front set ++ codes "return-" ++ decimal number ++ 45 ∷ spec.who_text (who_view who.entry))) }
{
    add_set_word(out, set, b"return-")?;
    out.push_number(number)?;
    out.push(b'-')?;
    add_who(out, who)
}

// Adds what the bounce of a warning or a probe is of: a word for a set, and what was signed.
fn add_returned(out: &mut Bytes, set: Set, word: &[u8], signed: &Signed) -> Result<(), AllocError>
    ensures { OnOk result (out.new ≡ out.old ++ (45 ∷ requests.set_front set ++ word.now ++ spec.signed_text (signed_view signed.now))) }
{
    add_set_word(out, set, word)?;
    add_signed(out, signed)
}

// Adds a hyphen, what comes before words for a set, and a word.
fn add_set_word(out: &mut Bytes, set: Set, word: &[u8]) -> Result<(), AllocError>
    ensures { OnOk result (out.new ≡ out.old ++ 45 ∷ requests.set_front set ++ word.now) }
{
    out.push(b'-')?;
    out.extend(set_front(set))?;
    out.extend(word)
}

/// What comes before the words of requests for a set.
pub fn set_front(set: Set) -> &'static [u8]
    ensures { result.now ≡ requests.set_front set }
{
    match set {
        Set::List => b"",
        Set::Digest => b"digest-",
        Set::Allow => b"allow-",
        Set::Deny => b"deny-",
        Set::Moderators => b"mod-",
    }
}

/// The word of a confirmation, which is also the kind of its cookie.
pub fn word_text(word: Word) -> &'static [u8]
    ensures { result.now ≡ requests.word_text word }
{
    match word {
        Word::Sc => b"sc",
        Word::Uc => b"uc",
        Word::Tc => b"tc",
    }
}

// Adds a moment, a full stop, a cookie's letters, a hyphen and an address.
fn add_signed(out: &mut Bytes, signed: &Signed) -> Result<(), AllocError>
    ensures { OnOk result (out.new ≡ out.old ++ spec.signed_text (signed_view signed.now)) }
{
    add_ticket(out, signed.time, &signed.cookie)?;
    out.push(b'-')?;
    add_who(out, signed.who)
}

// Adds a number, a full stop and a cookie's letters.
fn add_ticket(out: &mut Bytes, number: u64, cookie: &[u8; 20]) -> Result<(), AllocError>
    ensures { OnOk result (out.new ≡ out.old ++ spec.ticket_text number cookie.now) }
{
    out.push_number(number)?;
    out.push(b'.')?;
    out.extend(cookie)
}

fn add_after_hyphen(out: &mut Bytes, who: Option<Who>) -> Result<(), AllocError>
    ensures { OnOk result (out.new ≡ out.old ++ spec.after_hyphen (option_map who_view who.entry)) }
{
    match who {
        None => Ok(()),
        Some(who) => {
            out.push(b'-')?;
            add_who(out, who)
        }
    }
}

fn add_after_underscore(out: &mut Bytes, number: Option<u64>) -> Result<(), AllocError>
    ensures { OnOk result (out.new ≡ out.old ++ spec.after_underscore number) }
{
    match number {
        None => Ok(()),
        Some(number) => {
            out.push(b'_')?;
            out.push_number(number)
        }
    }
}

// Adds an address with `=` for its `@`.
fn add_who(out: &mut Bytes, who: Who) -> Result<(), AllocError>
    ensures { OnOk result (out.new ≡ out.old ++ spec.who_text (who_view who.entry)) }
{
    out.extend(who.local)?;
    out.push(b'=')?;
    out.extend(who.host)
}
