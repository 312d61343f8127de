// The grammar of requests: reads what a recipient asks. Words match in any case of ASCII letters.
ghost use Rattle.std.specs.Prelude.{◌≡◌, ◌≢◌, nat_lt, ◌==◌, ◌<◌, ◌+◌, ◌^◌, ℕ, Some, None, IfSome, Bool, length, unwrap_or};
ghost use Rattle.std.specs.Option.{option_map, option_copied, option_and_then};
ghost use Rattle.std.specs.List.{list_all};
ghost use Rattle.std.specs.Str.{str_eq_ignore_ascii_case};
ghost use Rattle.ml_base.specs.Numbers.{moment_in};
ghost use Rattle.ml_base.specs.Splits.{split_first};
ghost use Rattle.ml_address.specs.Requests as requests;
ghost use Rattle.ml_address.specs.Requests.{Other};
ghost use Rattle.ml_address.specs.Spelling.{IsSpelling};
ghost use Rattle.ml_address.specs.Reading as spec;
ghost use Rattle.ml_address.specs.Reading.{request_of};
ghost use Rattle.ml_address.specs.Views.{who_view, signed_view, request_view};

use crate::{Request, Who, Word};
use ml_base::{
    LAST_DRAWN, LAST_MOMENT, LAST_POST_NUMBER, Set, is_drawn, is_post_number, make_address,
    number_within, split_first, split_last,
};

/// A moment, a cookie's letters and an address.
#[derive(Clone, Copy, Debug, PartialEq, Eq)]
pub(crate) struct Signed<'a> {
    pub(crate) time: u64,
    pub(crate) cookie: [u8; 20],
    pub(crate) who: Who<'a>,
}

/// What a recipient asks of the list LOCAL@HOST: None if it isn't the list's, and Other if it is the list's but no row
/// of the grammar has it. The parts of an address that it names are the recipient's own bytes, between the words of the
/// request and the `@`. It takes no memory.
pub fn read_request<'a>(local: &[u8], host: &[u8], recipient: &'a [u8]) -> Option<Request<'a>>
    ensures value { option_map request_view result ≡ request_of local.now host.now recipient.now }
    ensures places { IfSome result (λ r. request_view r ≢ Other → IsSpelling local.now host.now (request_view r) recipient.now) }
{
    found_request(local, host, recipient)
}

// The request that a recipient spells.
#[tactic(auto, unfolding(crate::specs::Reading::request_of))]
fn found_request<'a>(local: &[u8], host: &[u8], recipient: &'a [u8]) -> Option<Request<'a>>
    ensures { option_map request_view result ≡ request_of local.now host.now recipient.now }
{
    let (before, after) = split_last(b'@', recipient)?;
    let rest = local_rest(local, host, before, after)?;
    rest_request(rest)
}

// What comes between LOCAL and the `@`, if HOST comes after that.
fn local_rest<'a>(local: &[u8], host: &[u8], before: &'a [u8], after: &[u8]) -> Option<&'a [u8]>
    ensures { option_copied result ≡ spec.local_rest local.now host.now (before.now, after.now) }
{
    if after.eq_ignore_ascii_case(host) {
        after_word(local, before)
    } else {
        None
    }
}

// What comes after a word, in any case of letters, at the beginning of a text.
fn after_word<'a>(word: &[u8], text: &'a [u8]) -> Option<&'a [u8]>
    ensures { option_copied result ≡ spec.after_word word.now text.now }
{
    if text.len() < word.len() {
        return None;
    }
    let (front, rest) = text.split_at(word.len());
    if front.eq_ignore_ascii_case(word) {
        Some(rest)
    } else {
        None
    }
}

// What comes after LOCAL: nothing, or a hyphen and a request.
fn rest_request(text: &[u8]) -> Option<Request<'_>>
    ensures { option_map request_view result ≡ spec.rest_request text.now }
{
    match text {
        [] => Some(Request::Post),
        [b'-', rest @ ..] => Some(known_request(rest).unwrap_or(Request::Other)),
        _ => None,
    }
}

// The table of requests.
fn known_request(text: &[u8]) -> Option<Request<'_>>
    ensures { option_map request_view result ≡ spec.by_rows spec.request_rows text.now }
{
    if let Some(rest) = after_word(b"help", text) {
        return ends(Request::Help, rest);
    }
    if let Some(rest) = after_word(b"owner", text) {
        return ends(Request::Owner, rest);
    }
    if let Some(rest) = after_word(b"get.", text) {
        return get(rest);
    }
    if let Some(rest) = after_word(b"index.", text) {
        return index(rest);
    }
    if let Some(rest) = after_word(b"thread.", text) {
        return thread(rest);
    }
    if let Some(rest) = after_word(b"accept-", text) {
        return accept(rest);
    }
    if let Some(rest) = after_word(b"reject-", text) {
        return reject(rest);
    }
    if let Some(rest) = after_word(b"digest-", text) {
        return mailed_request(Set::Digest, rest);
    }
    if let Some(rest) = after_word(b"allow-", text) {
        return set_request(Set::Allow, rest);
    }
    if let Some(rest) = after_word(b"deny-", text) {
        return set_request(Set::Deny, rest);
    }
    mailed_request(Set::List, text)
}

// The rows of a set whose mails may bounce.
fn mailed_request(set: Set, text: &[u8]) -> Option<Request<'_>>
    ensures { option_map request_view result ≡ spec.by_rows (spec.mailed_rows set) text.now }
{
    if let Some(rest) = after_word(b"return-", text) {
        return bounce(set, rest);
    }
    set_request(set, text)
}

// The rows that are the same for the sets list, digest, allow and deny.
fn set_request(set: Set, text: &[u8]) -> Option<Request<'_>>
    ensures { option_map request_view result ≡ spec.by_rows (spec.set_rows set) text.now }
{
    if let Some(rest) = after_word(b"subscribe", text) {
        return subscribe(set, rest);
    }
    if let Some(rest) = after_word(b"unsubscribe", text) {
        return unsubscribe(set, rest);
    }
    if let Some(rest) = after_word(b"list", text) {
        return ends(Request::Members { set }, rest);
    }
    if let Some(rest) = after_word(b"sc.", text) {
        return confirm(Word::Sc, set, rest);
    }
    if let Some(rest) = after_word(b"uc.", text) {
        return confirm(Word::Uc, set, rest);
    }
    if let Some(rest) = after_word(b"tc.", text) {
        return confirm(Word::Tc, set, rest);
    }
    None
}

// This request, if nothing follows.
fn ends<'a>(request: Request<'a>, text: &[u8]) -> Option<Request<'a>>
    ensures { option_map request_view result ≡ spec.ends (request_view request.entry) text.now }
{
    if text.is_empty() { Some(request) } else { None }
}

// After `subscribe`: nothing, or a hyphen and an address.
fn subscribe(set: Set, text: &[u8]) -> Option<Request<'_>>
    ensures { option_map request_view result ≡ spec.may_name (requests.Subscribe set) text.now }
{
    if text.is_empty() {
        return Some(Request::Subscribe { set, who: None });
    }
    let who = who_after(text)?;
    Some(Request::Subscribe {
        set,
        who: Some(who),
    })
}

// After `unsubscribe`: nothing, or a hyphen and an address.
fn unsubscribe(set: Set, text: &[u8]) -> Option<Request<'_>>
    ensures { option_map request_view result ≡ spec.may_name (requests.Unsubscribe set) text.now }
{
    if text.is_empty() {
        return Some(Request::Unsubscribe { set, who: None });
    }
    let who = who_after(text)?;
    Some(Request::Unsubscribe {
        set,
        who: Some(who),
    })
}

fn confirm(word: Word, set: Set, text: &[u8]) -> Option<Request<'_>>
    ensures { option_map request_view result ≡ option_map (requests.Confirm word set) (spec.signed_of text.now) }
{
    let Signed { time, cookie, who } = signed_of(text)?;
    Some(Request::Confirm {
        word,
        set,
        time,
        cookie,
        who,
    })
}

// A number, or two with an underscore between them.
fn get(text: &[u8]) -> Option<Request<'_>>
    ensures { option_map request_view result ≡ spec.get_of text.now (split_first 95 text.now) }
{
    match split_first(b'_', text) {
        None => {
            let from = post_number(text)?;
            Some(Request::Get { from, to: None })
        }
        Some((from, to)) => {
            let from = post_number(from)?;
            let to = post_number(to)?;
            Some(Request::Get { from, to: Some(to) })
        }
    }
}

fn index(text: &[u8]) -> Option<Request<'_>>
    ensures { option_map request_view result ≡ option_map requests.Index (spec.post_number text.now) }
{
    let at = post_number(text)?;
    Some(Request::Index { at })
}

fn thread(text: &[u8]) -> Option<Request<'_>>
    ensures { option_map request_view result ≡ option_map requests.Thread (spec.post_number text.now) }
{
    let at = post_number(text)?;
    Some(Request::Thread { at })
}

fn accept(text: &[u8]) -> Option<Request<'_>>
    ensures { option_map request_view result ≡ spec.answer_of requests.Accept text.now }
{
    let (ticket, letters) = split_first(b'.', text)?;
    let ticket = ticket_number(ticket)?;
    let cookie = cookie_letters(letters)?;
    Some(Request::Accept { ticket, cookie })
}

fn reject(text: &[u8]) -> Option<Request<'_>>
    ensures { option_map request_view result ≡ spec.answer_of requests.Reject text.now }
{
    let (ticket, letters) = split_first(b'.', text)?;
    let ticket = ticket_number(ticket)?;
    let cookie = cookie_letters(letters)?;
    Some(Request::Reject { ticket, cookie })
}

// After `return-`: nothing, a warning's or a probe's bounce, or a number, a hyphen and an address.
fn bounce(set: Set, text: &[u8]) -> Option<Request<'_>>
    ensures { option_map request_view result ≡ spec.bounce_of set text.now }
{
    if text.is_empty() {
        return Some(Request::ReplyBounce { set });
    }
    if let Some(found) = cookie_bounce(set, text) {
        return Some(found);
    }
    numbered_bounce(set, text)
}

// A warning's or a probe's bounce.
fn cookie_bounce(set: Set, text: &[u8]) -> Option<Request<'_>>
    ensures { option_map request_view result ≡ spec.by_rows (spec.cookie_bounces set) text.now }
{
    if let Some(rest) = after_word(b"warn-", text) {
        return warn_bounce(set, rest);
    }
    if let Some(rest) = after_word(b"probe-", text) {
        return probe_bounce(set, rest);
    }
    None
}

fn warn_bounce(set: Set, text: &[u8]) -> Option<Request<'_>>
    ensures { option_map request_view result ≡ option_map (requests.WarnBounce set) (spec.signed_of text.now) }
{
    let Signed { time, cookie, who } = signed_of(text)?;
    Some(Request::WarnBounce {
        set,
        time,
        cookie,
        who,
    })
}

fn probe_bounce(set: Set, text: &[u8]) -> Option<Request<'_>>
    ensures { option_map request_view result ≡ option_map (requests.ProbeBounce set) (spec.signed_of text.now) }
{
    let Signed { time, cookie, who } = signed_of(text)?;
    Some(Request::ProbeBounce {
        set,
        time,
        cookie,
        who,
    })
}

// A number, a hyphen and an address.
fn numbered_bounce(set: Set, text: &[u8]) -> Option<Request<'_>>
    ensures { option_map request_view result ≡ spec.numbered_bounce set text.now }
{
    let (number, who) = split_first(b'-', text)?;
    let number = post_number(number)?;
    let who = who_of(who)?;
    Some(Request::Bounce { set, number, who })
}

fn post_number(text: &[u8]) -> Option<u64>
    ensures { result ≡ spec.post_number text.now }
{
    let n = number_within(LAST_POST_NUMBER, text)?;
    if is_post_number(n) { Some(n) } else { None }
}

fn ticket_number(text: &[u8]) -> Option<u64>
    ensures { result ≡ spec.ticket_number text.now }
{
    let n = number_within(LAST_DRAWN, text)?;
    if is_drawn(n) { Some(n) } else { None }
}

fn moment_number(text: &[u8]) -> Option<u64>
    ensures { result ≡ moment_in text.now }
{
    number_within(LAST_MOMENT, text)
}

fn is_letter(byte: u8) -> bool
    ensures { result ≡ requests.is_letter byte }
{
    b'a' <= byte && byte <= b'p'
}

fn all_letters(text: &[u8]) -> bool
    ensures { result ≡ list_all requests.is_letter text.now }
{
    text.iter().all(|byte| is_letter(*byte))
}

fn is_cookie(text: &[u8]) -> bool
    ensures { result ≡ requests.is_cookie text.now }
{
    text.len() == 20 && all_letters(text)
}

fn cookie_letters(text: &[u8]) -> Option<[u8; 20]>
    ensures { result ≡ spec.cookie_letters text.now }
{
    if !is_cookie(text) {
        return None;
    }
    let mut cookie = [0; 20];
    cookie.copy_from_slice(text);
    Some(cookie)
}

// An address with `=` for its `@`, read at the last `=`.
pub(crate) fn who_of(text: &[u8]) -> Option<Who<'_>>
    ensures { option_map who_view result ≡ spec.who_of text.now }
{
    let (local, host) = split_last(b'=', text)?;
    if make_address(local, host) {
        Some(Who { local, host })
    } else {
        None
    }
}

// A hyphen and then an address.
fn who_after(text: &[u8]) -> Option<Who<'_>>
    ensures { option_map who_view result ≡ spec.who_after text.now }
{
    match text {
        [b'-', rest @ ..] => who_of(rest),
        _ => None,
    }
}

// 20 letters, a hyphen and an address.
fn signature(time: u64, text: &[u8]) -> Option<Signed<'_>>
    ensures { option_map signed_view result ≡ spec.signature time text.now }
{
    if text.len() < 20 {
        return None;
    }
    let (letters, rest) = text.split_at(20);
    let cookie = cookie_letters(letters)?;
    let who = who_after(rest)?;
    Some(Signed { time, cookie, who })
}

// A moment, a full stop, 20 letters, a hyphen and an address.
fn signed_of(text: &[u8]) -> Option<Signed<'_>>
    ensures { option_map signed_view result ≡ spec.signed_of text.now }
{
    let (time, rest) = split_first(b'.', text)?;
    let time = moment_number(time)?;
    signature(time, rest)
}
