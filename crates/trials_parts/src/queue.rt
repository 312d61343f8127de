// The outgoing queue, with texts written by hand.
ghost use Rattle.std.specs.Prelude.{◌≡◌, true, IsTrue};
ghost use Rattle.ml_base.specs.Address.{key};
ghost use Rattle.ml_base.specs.Sorted.{byte_cmp, is_sorted};

use crate::parts::{Parts, drawn, file, lines, word};
use crate::program::Calls;
use crate::table_call::{Asked, NoAnswer};
use ml_address::{Path, verp};
use ml_base::{Address, AddressList, Bytes, Name, is_below};
use ml_queue::{Out, audit, entry, ids, next_id, put, sent};
use std::alloc::{AllocError, Global};
use std::test::Fail;
use trials_scripts::hold;

/// What a call answers: `put WAY RECIPIENTS` a mail, `entry ID`, `sent ID` the counter after it if the files still stand for a queue,
/// `next` the next id, `ids` and `audit`.
pub(crate) fn answer(
    alloc: Global,
    parts: &mut Parts,
    asked: &Asked<'_>,
) -> Result<Bytes, NoAnswer> {
    let verb = asked.verb;
    if verb == "put" {
        queued(alloc, parts, asked)
    } else if verb == "entry" {
        entered(alloc, parts, asked.number(0)?)
    } else if verb == "sent" {
        counter_after(alloc, parts, asked.number(0)?)
    } else if verb == "next" {
        lines(alloc, &[next_id(alloc, parts)?])
    } else if verb == "ids" {
        let all = ids(alloc, parts)?;
        lines(alloc, all.as_slice())
    } else if verb == "audit" {
        audit(alloc, parts)?;
        word(alloc, b"sound")
    } else {
        Err(NoAnswer::NoCall)
    }
}

// Whether addresses are in ascending order of key, none twice.
fn are_ordered(to: &[Address]) -> bool
    ensures { IsTrue result → is_sorted byte_cmp key to.now ≡ true }
{
    let mut last: &[u8] = b"";
    let mut rest = to;
    while let [who, more @ ..] = rest {
        if !is_below(last, who.bytes()) {
            return false;
        }
        last = who.bytes();
        rest = more;
    }
    true
}

// The addresses between commas.
fn recipients(alloc: Global, text: &[u8]) -> Result<AddressList, AllocError> {
    let mut list = AddressList::new(alloc);
    for who in text.split(|byte| *byte == b',') {
        if let Ok(who) = Address::parse(alloc, who) {
            list.push(who)?;
        }
    }
    Ok(list)
}

// The path of a `post`, whose copies name their recipients, or of a `reply`.
fn path(alloc: Global, way: &[u8]) -> Result<Path, NoAnswer> {
    let each = way == b"post".as_slice();
    if !each && way != b"reply".as_slice() {
        return Err(NoAnswer::NoCall);
    }
    let base: &[u8] = if each {
        b"list-return-1-"
    } else {
        b"list-return-"
    };
    Ok(Path {
        base: Bytes::from_slice(alloc, base)?,
        host: Bytes::from_slice(alloc, b"ex.org")?,
        each,
    })
}

// The id of an entry, and the puts.
fn queued(alloc: Global, parts: &mut Parts, asked: &Asked<'_>) -> Result<Bytes, NoAnswer> {
    let out = Out {
        path: path(alloc, asked.word(0))?,
        body: Bytes::from_slice(alloc, asked.input.as_slice())?,
        to: recipients(alloc, asked.word(1))?,
    };
    if !are_ordered(out.to.as_slice()) {
        return Err(NoAnswer::NoCall);
    }
    let (id, txn) = put(alloc, parts, &out)?;
    drawn(alloc, parts, id, txn)
}

// Every recipient with the envelope sender in a line, and the mail; `-` if there is no such entry.
fn entered(alloc: Global, parts: &mut Parts, id: u64) -> Result<Bytes, NoAnswer> {
    match entry(alloc, parts, id)? {
        Some(out) => Ok(told(alloc, &out)?),
        None => word(alloc, b"-"),
    }
}

fn told(alloc: Global, out: &Out) -> Result<Bytes, AllocError> {
    let mut text = Bytes::new(alloc);
    for who in out.to.as_slice() {
        text.extend(who.bytes())?;
        text.push(b' ')?;
        text.extend(verp(alloc, &out.path, who)?.as_slice())?;
        text.push(b'\n')?;
    }
    text.extend(out.body.as_slice())?;
    Ok(text)
}

fn counter_after(alloc: Global, parts: &mut Parts, id: u64) -> Result<Bytes, NoAnswer> {
    let Some(txn) = sent(alloc, parts, id)? else {
        return word(alloc, b"none");
    };
    parts.lay(txn)?;
    audit(alloc, parts)?;
    file(alloc, parts, Name::IDS)
}

const TABLE: &str = r"
let mail Mailing-List: contact list-help@ex.org; run by ezmlm\nPrecedence: bulk\nList-Post: <mailto:list@ex.org>\nList-Help: <mailto:list-help@ex.org>\nList-Unsubscribe: <mailto:list-unsubscribe@ex.org>\nList-Subscribe: <mailto:list-subscribe@ex.org>\nDelivered-To: mailing list list@ex.org\nFrom: a@b\nTo: list@ex.org\nSubject: hello\n\nhi\n
let mailed 14:list-return-1-,6:ex.org,1:v,321:{mail},3:a@b,3:c@d,3:e@f,
let post 14:list-return-1-,6:ex.org,1:v,3:hi\n,3:a@b,3:c@d,
let reply 12:list-return-,6:ex.org,1:p,0:,
# A post to three.
put ids 1:1\n | input {mail} | run queue put post a@b,c@d,e@f => 0 1\n17/1\x20{mailed}\n18/0 1:2\n\n | has queue/1 {mailed}
# A reply to nobody.
put ids 3:7\n | run queue put reply => 0 7\n17/7\x20{reply}\n18/0 3:8\n\n
# The last id, and none after it.
put ids 5:1000000000000000\n | run queue put reply => 0 1000000000000000\n17/1000000000000000\x20{reply}\n18/0 5:1000000000000001\n\n | run queue put reply => 75 damaged 18 0
# A reply to a hundred thousand.
put ids 1:1\n | run queue put reply {1000000..1099999:%@b,} => 0 1\n17/1\x20{reply}{1000000..1099999:9:%@b,}\n18/0 1:2\n\n | run queue entry 1 => 0 {1000000..1099999:%@b list-return-@ex.org\n}
list put ids 1:4\n | put queue/1 {post} | put queue/2 {reply} | put queue/3 {reply}
# The queue is emptied: 1, 2, 3.
run queue sent 1 => 0 2:4\n | run queue sent 2 => 0 3:4\n | run queue sent 3 => 0 4:4\n
# The queue is emptied: 1, 3, 2.
run queue sent 1 => 0 2:4\n | run queue sent 3 => 0 2:4\n | run queue sent 2 => 0 4:4\n
# The queue is emptied: 2, 1, 3.
run queue sent 2 => 0 1:4\n | run queue sent 1 => 0 3:4\n | run queue sent 3 => 0 4:4\n
# The queue is emptied: 2, 3, 1.
run queue sent 2 => 0 1:4\n | run queue sent 3 => 0 1:4\n | run queue sent 1 => 0 4:4\n
# The queue is emptied: 3, 1, 2.
run queue sent 3 => 0 1:4\n | run queue sent 1 => 0 2:4\n | run queue sent 2 => 0 4:4\n
# The queue is emptied: 3, 2, 1.
run queue sent 3 => 0 1:4\n | run queue sent 2 => 0 1:4\n | run queue sent 1 => 0 4:4\n
list put ids 1:3\n | put queue/1 {post} | put queue/2 {reply}
# The first of two entries is sent.
run queue sent 3 => 0 none | run queue sent 0 => 0 none | run queue sent 1000000000000001 => 0 none | run queue sent 1 => 0 2:3\n
# The last of two entries is sent.
run queue sent 2 => 0 1:3\n
list at 1000000000
# An entry is sent once.
put ids 1:2\n | put queue/1 {mailed} | run queue sent 1 => 0 2:2\n | run queue sent 1 => 0 none | run queue entry 1 => 0 -
# The next entry stands after a long gap.
put ids 1:100003\n | put queue/1 {post} | put queue/100002 {reply} | run queue sent 1 => 0 100002:100003\n
# The next entry stands after the widest gap.
put ids 1:1000000000000001\n | put queue/1 {post} | put queue/1000000000000000 {reply} | run queue ids => 0 1\n1000000000000000\n | run queue sent 1 => 0 1000000000000000:1000000000000001\n | run queue ids => 0 1000000000000000\n
# The entry of the last id.
put ids 1000000000000000:1000000000000001\n | put queue/1000000000000000 {reply} | run queue next => 0 1000000000000001\n | run queue ids => 0 1000000000000000\n | run queue sent 1000000000000000 => 0 1000000000000001:1000000000000001\n
# Two entries.
put ids 1:3\n | put queue/1 {mailed} | put queue/2 {reply} | run queue ids => 0 1\n2\n | run queue next => 0 3\n | run queue entry 1 => 0 a@b list-return-1-a=b@ex.org\nc@d list-return-1-c=d@ex.org\ne@f list-return-1-e=f@ex.org\n{mail}
# No counter.
put queue/1 {reply} | run queue audit => 75 damaged 18 0
# Texts that are no counter.
put queue/1  | put ids 0:1\n | run queue audit => 75 damaged 18 0
put queue/1  | put ids 2:1\n | run queue audit => 75 damaged 18 0
put queue/1  | put ids 1:2 | run queue audit => 75 damaged 18 0
put queue/1  | put ids 1:1000000000000000000\n | run queue audit => 75 damaged 18 0
# Texts that are no entry.
put ids 1:2\n | put queue/1  | run queue audit => 75 damaged 17 1
put ids 1:2\n | put queue/1 1:l,1:h,1:x,0:, | run queue audit => 75 damaged 17 1
put ids 1:2\n | put queue/1 1:l,1:h,1:v,0: | run queue audit => 75 damaged 17 1
put ids 1:2\n | put queue/1 1:l,1:h,1:v,0:,3:c@d,3:a@b, | run queue audit => 75 damaged 17 1
put ids 1:2\n | put queue/1 1:l,1:h,1:v,0:,3:a@b,3:A@b, | run queue audit => 75 damaged 17 1
put ids 1:2\n | put queue/1 1:l,1:h,1:v,0:,3:a@B, | run queue audit => 75 damaged 17 1
put ids 1:2\n | put queue/1 1:l,1:h,1:v,0:,2:ab, | run queue audit => 75 damaged 17 1
put ids 1:2\n | put queue/1 1:l,1:h,1:v,0:,3:a@b | run queue audit => 75 damaged 17 1
put ids 1:2\n | put queue/1 01:l,1:h,1:v,0:, | run queue audit => 75 damaged 17 1
# Every other read fails.
put ids 1:2\n | put queue/1 {post} | fail 1 | run queue next => 111 a read failed | same | run queue next => 0 2\n | fail 1 | run queue audit => 111 a read failed | same | run queue entry 1 => 0 a@b list-return-1-a=b@ex.org\nc@d list-return-1-c=d@ex.org\nhi\n | fail 1 | run queue entry 1 => 111 a read failed | same
";

#[test]
fn queues(rt: HostRuntime) -> Result<(), Fail> {
    hold::<Calls>(rt.alloc(), "the queue", TABLE)
}
