// Held posts, with texts written by hand.
use crate::parts::{Parts, drawn, lay_text, lines, push_number, word};
use crate::program::{Calls, told as with_status};
use crate::table_call::{Asked, NoAnswer};
use ml_base::{Bytes, Layer, Name, Txn, is_moment};
use ml_hold::{Held, audit, hold, look, next_ticket, older, take};
use ml_site::{Image, MemSite};
use std::alloc::{AllocError, Global};
use std::collections::BTreeMap;
use std::test::Fail;
use trials_lists::same;
use trials_scripts::{OnSite, hold as hold_rows};

/// What a call answers: `hold SENDER` a message at the clock's moment, `look TICKET`, `take TICKET` after which the files still stand for
/// held posts, `next` the next ticket, `older MAX` the tickets of posts held for 432,000 seconds, and `audit`.
pub(crate) fn answer(
    alloc: Global,
    parts: &mut Parts,
    asked: &Asked<'_>,
) -> Result<Bytes, NoAnswer> {
    let verb = asked.verb;
    if verb == "hold" {
        held(alloc, parts, asked)
    } else if verb == "look" {
        let found = look(alloc, parts, asked.number(0)?)?;
        told(alloc, found)
    } else if verb == "take" {
        taken(alloc, parts, asked.number(0)?)
    } else if verb == "next" {
        lines(alloc, &[next_ticket(alloc, parts)?])
    } else if verb == "older" {
        old(alloc, parts, asked.moment, asked.number(0)?)
    } else if verb == "audit" {
        audit(alloc, parts)?;
        word(alloc, b"sound")
    } else {
        Err(NoAnswer::NoCall)
    }
}

// The ticket of a post, and the puts.
fn held(alloc: Global, parts: &mut Parts, asked: &Asked<'_>) -> Result<Bytes, NoAnswer> {
    let post = Held {
        moment: asked.moment,
        sender: asked.address(alloc, 0)?,
        message: Bytes::from_slice(alloc, asked.input.as_slice())?,
    };
    if !is_moment(post.moment) || post.message.len() > 33_554_432 {
        return Err(NoAnswer::NoCall);
    }
    let (ticket, txn) = hold(alloc, parts, &post)?;
    drawn(alloc, parts, ticket, txn)
}

// The moment and the sender of a held post in a line, and its message; `-` if there is none.
fn told(alloc: Global, post: Option<Held>) -> Result<Bytes, NoAnswer> {
    let Some(post) = post else {
        return word(alloc, b"-");
    };
    let mut out = Bytes::new(alloc);
    push_number(&mut out, post.moment, b' ')?;
    out.extend(post.sender.bytes())?;
    out.push(b'\n')?;
    out.extend(post.message.as_slice())?;
    Ok(out)
}

fn taken(alloc: Global, parts: &mut Parts, ticket: u64) -> Result<Bytes, NoAnswer> {
    match take(alloc, parts, ticket)? {
        Some((post, txn)) => {
            parts.lay(txn)?;
            audit(alloc, parts)?;
            told(alloc, Some(post))
        }
        None => word(alloc, b"-"),
    }
}

fn old(alloc: Global, parts: &mut Parts, now: u64, max: u64) -> Result<Bytes, NoAnswer> {
    if !is_moment(now) {
        return Err(NoAnswer::NoCall);
    }
    let tickets = older(alloc, parts, now, 432_000, max)?;
    lines(alloc, tickets.as_slice())
}

const TABLE: &str = r"
let post 10:1000000000,3:g@h,3:hi\n,
let later 10:1000000100,3:a@b,0:,
# The first ticket.
put tickets 1:1\n | input hi\n | run held hold g@h => 0 1\n13/1\x20{post}\n14/0 1:2\n\n
# A later ticket.
put tickets 3:7\n | input hi\n | run held hold g@h => 0 7\n13/7\x20{post}\n14/0 3:8\n\n
# The last ticket, and none after it.
put tickets 5:1000000000000000\n | input hi\n | run held hold g@h => 0 1000000000000000\n13/1000000000000000\x20{post}\n14/0 5:1000000000000001\n\n | at 0 | run held hold g@h => 75 damaged 14 0
list put tickets 1:4\n | put pending/1 {post} | put pending/3 {later}
# The first post is taken out.
run held take 2 => 0 - | run held take 0 => 0 - | run held take 1000000000000001 => 0 - | run held take 1 => 0 1000000000 g@h\nhi\n | has tickets 3:4\n
# The last post is taken out.
run held take 3 => 0 1000000100 a@b\n | has tickets 1:4\n
list at 1000000000
# The only post is taken out.
put tickets 3:4\n | put pending/3 {later} | run held take 3 => 0 1000000100 a@b\n | has tickets 4:4\n
# The only post stands after the widest gap.
put tickets 1:1000000000000001\n | put pending/1000000000000000 {post} | at 1000432000 | run held older 10 => 0 1000000000000000\n
# Old posts.
put tickets 1:4\n | put pending/1 {post} | put pending/3 {later} | at 1000431999 | run held older 10 => 0 | at 1000432000 | run held older 10 => 0 1\n | at 1000432100 | run held older 10 => 0 1\n3\n | run held older 1 => 0 1\n | run held older 0 => 0
# No counter.
put pending/1 {post} | run held audit => 75 damaged 14 0
# Texts that are no counter.
put pending/1  | put tickets 1:1 | run held audit => 75 damaged 14 0
put pending/1  | put tickets 0:1\n | run held audit => 75 damaged 14 0
put pending/1  | put tickets 2:1\n | run held audit => 75 damaged 14 0
put pending/1  | put tickets 01:1\n | run held audit => 75 damaged 14 0
put pending/1  | put tickets 1:1000000000000000000\n | run held audit => 75 damaged 14 0
# Texts that are no held post.
put tickets 1:2\n | put pending/1  | run held audit => 75 damaged 13 1
put tickets 1:2\n | put pending/1 1:7,3:g@h,3:hi\n | run held audit => 75 damaged 13 1
put tickets 1:2\n | put pending/1 2:07,3:g@h,3:hi\n, | run held audit => 75 damaged 13 1
put tickets 1:2\n | put pending/1 12:253402300800,3:g@h,0:, | run held audit => 75 damaged 13 1
put tickets 1:2\n | put pending/1 1:7,3:g@H,0:, | run held audit => 75 damaged 13 1
put tickets 1:2\n | put pending/1 1:7,0:,0:, | run held audit => 75 damaged 13 1
put tickets 1:2\n | put pending/1 1:7,3:g@h,0:,x | run held audit => 75 damaged 13 1
# Every other read fails.
put tickets 1:2\n | put pending/1 {post} | fail 1 | run held next => 111 a read failed | same | run held next => 0 2\n | fail 1 | run held audit => 111 a read failed | same | run held look 1 => 0 1000000000 g@h\nhi\n | fail 1 | run held look 1 => 111 a read failed | same
";

#[test]
fn held_posts(rt: HostRuntime) -> Result<(), Fail> {
    hold_rows::<Calls>(rt.alloc(), "held posts", TABLE)
}

// A list without files.
fn no_files(alloc: Global) -> Result<Parts, Fail> {
    let image = Image {
        log: Bytes::new(alloc),
        files: BTreeMap::new(alloc),
    };
    let site = MemSite::new(alloc, image, 10, 0)?;
    let files = BTreeMap::new(alloc);
    Ok(Layer::new(OnSite { site, files }, Txn::new(alloc)))
}

// A text, `count` times `x`, and another text.
fn large(alloc: Global, before: &[u8], count: usize, after: &[u8]) -> Result<Bytes, AllocError> {
    let mut out = Bytes::from_slice(alloc, before)?;
    out.extend(&vec![in alloc; b'x'; count]?)?;
    out.extend(after)?;
    Ok(out)
}

// Fails if a call of one word has another answer.
fn answers(
    alloc: Global,
    parts: &mut Parts,
    verb: &str,
    word: &str,
    input: Bytes,
    wanted: &Bytes,
) -> Result<(), Fail> {
    let words = [String::from_str(alloc, word)?];
    let asked = Asked {
        verb,
        words: &words,
        moment: 1_000_000_000,
        input,
    };
    let (_, came) = with_status(alloc, answer(alloc, parts, &asked))?;
    same(alloc, verb, 0, came.as_slice(), wanted.as_slice())
}

// The most bytes of a message.
const LARGEST: usize = 33_554_432;

// Fails unless the largest message is held under the first ticket.
fn is_held(alloc: Global, parts: &mut Parts) -> Result<(), Fail> {
    let message = large(alloc, b"", LARGEST, b"")?;
    let wanted = large(
        alloc,
        b"1\n13/1 10:1000000000,3:g@h,33554432:",
        LARGEST,
        b",\n14/0 1:2\n\n",
    )?;
    answers(alloc, parts, "hold", "g@h", message, &wanted)
}

// Fails unless the largest message is found under the first ticket.
fn is_found(alloc: Global, parts: &mut Parts) -> Result<(), Fail> {
    let wanted = large(alloc, b"1000000000 g@h\n", LARGEST, b"")?;
    answers(alloc, parts, "look", "1", Bytes::new(alloc), &wanted)
}

// Puts a held post whose message is too large by a byte.
fn put_larger(alloc: Global, parts: &mut Parts) -> Result<(), Fail> {
    let text = large(alloc, b"10:1000000000,3:g@h,33554433:", LARGEST + 1, b",")?;
    lay_text(alloc, parts, Name { kind: 13, at: 1 }, text)?;
    Ok(())
}

// These are in no table: every command of a table copies its files several times.
#[test]
fn the_largest_message(rt: HostRuntime) -> Result<(), Fail> {
    let alloc = rt.alloc();
    let mut parts = no_files(alloc)?;
    let first = Bytes::from_slice(alloc, b"1:1\n")?;
    lay_text(alloc, &mut parts, Name::TICKETS, first)?;
    is_held(alloc, &mut parts)?;
    is_found(alloc, &mut parts)
}

#[test]
fn no_larger_message(rt: HostRuntime) -> Result<(), Fail> {
    let alloc = rt.alloc();
    let mut parts = no_files(alloc)?;
    put_larger(alloc, &mut parts)?;
    let wanted = Bytes::from_slice(alloc, b"damaged 13 1")?;
    answers(alloc, &mut parts, "look", "1", Bytes::new(alloc), &wanted)
}
