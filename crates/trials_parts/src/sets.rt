// The set list, with texts written by hand: each call that takes memory once, failing reads, and the limits of a set's size.
use crate::parts::{Parts, push_number};
use crate::program::Calls;
use crate::table_call::NoAnswer;
use ml_base::{
    Address, Bytes, Files, FilesError, Layer, Name, Put, Set, Txn, is_below, split_first,
};
use ml_subs::{
    AddAnswer, Checked, Member, add, add_with_memo, all, audit, bucket, find, member, members,
    remove, remove_with_memo, size,
};
use std::alloc::{AllocError, Global};
use std::collections::BTreeMap;
use std::test::Fail;
use trials_lists::{ABSENT, Texts, add_member, error_text};
use trials_scripts::hold;

const BUCKET: Name = Name { kind: 3, at: 29 };

const OTHER: Name = Name { kind: 3, at: 12 };

const COUNT: Name = Name { kind: 8, at: 0 };

const NOW: u64 = 1_000_000_400;

// The parts of a text before and after the first `=`.
fn parts(text: &[u8]) -> (&[u8], &[u8]) {
    split_first(b'=', text).unwrap_or((text, &[]))
}

// Three texts, with `=` between them, over the bucket of `a@b`, that of `c@d` and the count. A file whose text is `-` is absent.
fn lay_files(alloc: Global, files: &mut Parts, texts: &[u8]) -> Result<(), AllocError> {
    let mut txn = Txn::new(alloc);
    let mut rest = texts;
    for name in [BUCKET, OTHER, COUNT] {
        let (text, after) = parts(rest);
        let mut bytes = None;
        if text != ABSENT {
            bytes = Some(Bytes::from_slice(alloc, text)?);
        }
        txn.push(Put { name, bytes })?;
        rest = after;
    }
    files.lay(txn)
}

// The buckets of these addresses, which have commas between them, in the order of their keys.
fn buckets(alloc: Global, addresses: &[u8]) -> Result<Texts, AllocError> {
    let mut ordered = BTreeMap::new(alloc);
    for who in addresses.split(|byte| *byte == b',') {
        ordered.insert(String::from_utf8_lossy(alloc, who)?, ())?;
    }
    let mut texts = BTreeMap::new(alloc);
    for (who, _) in &ordered {
        add_member(alloc, &mut texts, Set::List, who.as_bytes())?;
    }
    Ok(texts)
}

// Lays the buckets of these addresses over the files. The count stays as it is.
fn lay_members(alloc: Global, files: &mut Parts, addresses: &[u8]) -> Result<(), AllocError> {
    let mut txn = Txn::new(alloc);
    for (name, text) in &buckets(alloc, addresses)? {
        txn.push(Put {
            name: *name,
            bytes: Some(Bytes::from_slice(alloc, text.as_slice())?),
        })?;
    }
    files.lay(txn)
}

// The puts of a change, or the word for why nothing changes. A `noted` change is made with a memo.
fn change(
    alloc: Global,
    files: &mut Parts,
    memo: &mut Checked,
    verb: &[u8],
    who: &Address,
) -> Result<Result<Txn, &'static str>, NoAnswer> {
    if verb == b"remove".as_slice() {
        return Ok(remove(alloc, files, Set::List, who)?.ok_or("absent"));
    }
    if verb == b"noted_remove".as_slice() {
        let answer = remove_with_memo(alloc, files, memo, Set::List, who)?;
        return Ok(answer.ok_or("absent"));
    }
    let answer = if verb == b"add".as_slice() {
        add(alloc, files, Set::List, who, NOW)?
    } else if verb == b"noted_add".as_slice() {
        add_with_memo(alloc, files, memo, Set::List, who, NOW)?
    } else {
        return Err(NoAnswer::NoCall);
    };
    match answer {
        AddAnswer::Added(txn) => Ok(Ok(txn)),
        AddAnswer::Already => Ok(Err("already")),
        AddAnswer::Full => Ok(Err("full")),
    }
}

// Adds the text that was found of a file, or `-` if it is absent, with `|` after it.
fn push_found(found: Result<Option<Bytes>, FilesError>, out: &mut Bytes) -> Result<(), NoAnswer> {
    match found {
        Ok(Some(bytes)) => out.extend(bytes.as_slice())?,
        Ok(None) => out.push(b'-')?,
        Err(error) => return Err(NoAnswer::Part(error.into())),
    }
    out.push(b'|')?;
    Ok(())
}

// Adds the bucket of `a@b` and the count as they are, over files that stand for a list.
fn push_files(alloc: Global, laid: &mut Layer<Parts>, out: &mut Bytes) -> Result<(), NoAnswer> {
    audit(alloc, laid)?;
    push_found(laid.get(alloc, BUCKET), out)?;
    push_found(laid.get(alloc, COUNT), out)
}

// Adds the bucket of `a@b` and the count as they are once these puts are laid over the files, which then stand for a list. The files stay as
// they were.
fn push_laid(alloc: Global, files: Parts, txn: Txn, out: &mut Bytes) -> Result<Parts, NoAnswer> {
    let mut laid = Layer::new(files, txn);
    push_files(alloc, &mut laid, out)?;
    let (files, _) = laid.parts();
    Ok(files)
}

// Adds a member's moment and address, and ends the line.
fn push_member(out: &mut Bytes, found: &Member) -> Result<(), AllocError> {
    push_number(out, found.since, b' ')?;
    out.extend(found.who.bytes())?;
    out.push(b'\n')
}

// Whether the keys of members rise.
fn rise(all: &[Member]) -> bool {
    let mut last: &[u8] = b"";
    for found in all {
        if !is_below(last, found.who.bytes()) {
            return false;
        }
        last = found.who.bytes();
    }
    true
}

// Adds what is read of an address, if this is a call that reads.
fn push_read(
    alloc: Global,
    files: &mut Parts,
    verb: &[u8],
    who: &Address,
    out: &mut Bytes,
) -> Result<bool, NoAnswer> {
    if verb == b"bucket".as_slice() {
        out.push_number(bucket(who) as u64)?;
    } else if verb == b"has".as_slice() {
        let found = member(alloc, files, Set::List, who)?;
        out.extend(format!(in alloc; "{found}")?.as_bytes())?;
    } else if verb == b"find".as_slice() {
        match find(alloc, files, Set::List, who)? {
            Some(found) => push_member(out, &found)?,
            None => out.extend(b"none")?,
        }
    } else {
        return Ok(false);
    }
    Ok(true)
}

// Adds what is read of the whole set.
fn push_set(
    alloc: Global,
    files: &mut Parts,
    verb: &[u8],
    out: &mut Bytes,
) -> Result<Option<Txn>, NoAnswer> {
    if verb == b"size".as_slice() {
        out.push_number(size(alloc, files, Set::List)?)?;
    } else if verb == b"list".as_slice() {
        for found in members(alloc, files, Set::List)?.as_slice() {
            push_member(out, found)?;
        }
    } else if verb == b"order".as_slice() {
        let all = members(alloc, files, Set::List)?;
        let (count, rise) = (all.as_slice().len(), rise(all.as_slice()));
        out.extend(format!(in alloc; "{count} {rise}")?.as_bytes())?;
    } else if verb == b"audit".as_slice() {
        audit(alloc, files)?;
        out.extend(b"sound")?;
    } else if verb == b"all".as_slice() {
        for who in all(alloc, files, Set::List)?.as_slice() {
            out.extend(who.bytes())?;
        }
    } else {
        return Err(NoAnswer::NoCall);
    }
    Ok(None)
}

// Adds what a call on an address answers, unless it is a change that is made: then its puts are answered.
fn push_answer(
    alloc: Global,
    files: &mut Parts,
    memo: &mut Checked,
    verb: &[u8],
    who: &[u8],
    out: &mut Bytes,
) -> Result<Option<Txn>, NoAnswer> {
    let Ok(who) = Address::parse(alloc, who) else {
        return Err(NoAnswer::NoCall);
    };
    if push_read(alloc, files, verb, &who, out)? {
        return Ok(None);
    }
    match change(alloc, files, memo, verb, &who)? {
        Ok(txn) => Ok(Some(txn)),
        Err(word) => {
            out.extend(word.as_bytes())?;
            Ok(None)
        }
    }
}

// Lays files, if this is a step that does.
fn lay_step(
    alloc: Global,
    files: &mut Parts,
    verb: &[u8],
    rest: &[u8],
) -> Result<bool, AllocError> {
    if verb == b"files".as_slice() {
        lay_files(alloc, files, rest)?;
        Ok(true)
    } else if verb == b"members".as_slice() {
        lay_members(alloc, files, rest)?;
        Ok(true)
    } else {
        Ok(false)
    }
}

// Adds what a call answers, or its error, unless it is a change that is made: then its puts are answered.
fn push_call(
    alloc: Global,
    files: &mut Parts,
    memo: &mut Checked,
    verb: &[u8],
    rest: &[u8],
    out: &mut Bytes,
) -> Result<Option<Txn>, NoAnswer> {
    let answer = if rest.is_empty() {
        push_set(alloc, files, verb, out)
    } else {
        push_answer(alloc, files, memo, verb, rest, out)
    };
    match answer {
        Ok(txn) => Ok(txn),
        Err(NoAnswer::Part(error)) => {
            out.extend(error_text(alloc, error)?.as_slice())?;
            Ok(None)
        }
        Err(NoAnswer::NoCall) => Err(NoAnswer::NoCall),
    }
}

// Does a step. `files` and `members` lay files. Any other step adds what it answers, or its error, and ends the line.
fn step(
    alloc: Global,
    files: Parts,
    memo: &mut Checked,
    step: &[u8],
    out: &mut Bytes,
) -> Result<Parts, NoAnswer> {
    let mut files = files;
    let (verb, rest) = parts(step);
    if lay_step(alloc, &mut files, verb, rest)? {
        return Ok(files);
    }
    if let Some(txn) = push_call(alloc, &mut files, memo, verb, rest, out)? {
        files = push_laid(alloc, files, txn, out)?;
    }
    out.push(b'\n')?;
    Ok(files)
}

/// What the steps in the input answer, a line each; there is a `;` between two steps. They share a memo. `files=TEXT=TEXT=TEXT` and
/// `members=ADDRESSES` lay files. What is read is `size`, `list` (the members), `all` (their addresses), `order` (how many there are, and
/// whether their keys rise), `audit`, `bucket=ADDRESS`, `has=ADDRESS` and `find=ADDRESS`. The changes `add=ADDRESS` and `remove=ADDRESS` are
/// made without the memo, `noted_add=ADDRESS` and `noted_remove=ADDRESS` with it.
pub(crate) fn answer(alloc: Global, files: Parts, steps: &[u8]) -> Result<Bytes, NoAnswer> {
    let mut files = files;
    let mut memo = Checked::new(alloc);
    let mut out = Bytes::new(alloc);
    for text in steps.split(|byte| *byte == b';') {
        files = step(alloc, files, &mut memo, text, &mut out)?;
    }
    Ok(out)
}

const TABLE: &str = r"
# Members in several buckets, in the order of their keys.
input members=a@5,a@a,a@b,b@b,c@d,E@f;list | run sets steps => 0 0 a@5\n0 a@a\n0 a@b\n0 b@b\n0 c@d\n0 E@f\n\n
# A set has 100,000 members at most.
put counts/list 100000\n | input members={1..99999:%@b,}100000@b;add=a@b;add=7@B;order | run sets steps => 0 full\nalready\n100000 true\n
list put counts/digest 0\n | put counts/allow 0\n | put counts/deny 0\n | put counts/mod 0\n
# What is read.
input files=-=-=-;bucket=a@b;bucket=A@B;bucket=c@d;bucket=e@f;bucket=a@5 | run sets steps => 0 29\n29\n12\n23\n29\n
input files=Ta@5\0TA@b\0=layout 2\nTC@d\07\0=3\n;find=a@B;find=A@b;find=A@5;find=c@D;find=e@f;find=a@c | run sets steps => 0 0 A@b\n\n0 A@b\n\n0 a@5\n\n7 C@d\n\nnone\nnone\n
input files=Ta@5\0TA@b\0=layout 2\nTc@d\07\0=3\n;list;all | run sets steps => 0 0 a@5\n0 A@b\n7 c@d\n\na@5A@bc@d\n
input files=-=-=0\n;size | run sets steps => 0 0\n
input files=-=-=100000\n;size | run sets steps => 0 100000\n
input files=-=-=100001\n;size | run sets steps => 0 damaged 8 0\n
input files=-=-=07\n;size | run sets steps => 0 damaged 8 0\n
input files=-=-=-;size | run sets steps => 0 damaged 8 0\n
input files==-=0\n;audit | run sets steps => 0 damaged 3 29\n
input files=T=-=1\n;audit | run sets steps => 0 damaged 3 29\n
input files=Ta@b=-=1\n;audit | run sets steps => 0 damaged 3 29\n
input files=a@b\0=-=1\n;audit | run sets steps => 0 damaged 3 29\n
input files=Tc@d\0=-=1\n;audit | run sets steps => 0 damaged 3 29\n
input files=Ta@b\0Ta@5\0=-=2\n;audit | run sets steps => 0 damaged 3 29\n
input files=Ta@b\0TA@b\0=-=2\n;audit | run sets steps => 0 damaged 3 29\n
input files=Ta@B\0=-=1\n;audit | run sets steps => 0 damaged 3 29\n
input files=Tab\0=-=1\n;audit | run sets steps => 0 damaged 3 29\n
input files=layout 2\n=-=0\n;audit | run sets steps => 0 damaged 3 29\n
input files=layout 2\nTa@b\007\0=-=1\n;audit | run sets steps => 0 damaged 3 29\n
input files=layout 2\nTa@b\0253402300800\0=-=1\n;audit | run sets steps => 0 damaged 3 29\n
input files=layout 1\nTa@b\0=-=1\n;audit | run sets steps => 0 damaged 3 29\n
input files=Ta@b\0=-=-;audit | run sets steps => 0 damaged 8 0\n
input files=Ta@b\0=-=1;audit | run sets steps => 0 damaged 8 0\n
input files=Ta@b\0=-=01\n;audit | run sets steps => 0 damaged 8 0\n
input files=Ta@b\0=-=100001\n;audit | run sets steps => 0 damaged 8 0\n
input files=Ta@b\0=-=2\n;audit | run sets steps => 0 damaged 8 0\n
input files=Ta@b\0=-=0\n;audit | run sets steps => 0 damaged 8 0\n
# Two reads fail.
put subscribers/] TA@b\0 | put counts/list 1\n | fail 2 4 | input has=a@b;has=a@b;has=a@b;audit | run sets steps => 0 true\na read failed\ntrue\na read failed\n
# Each change is made without a memo, with one, and with the same once more: each row alone, and then all of them with one memo.
let change-1 files=-=-=0\n;add=a@b;noted_add=a@b;noted_add=a@b
let change-1-told layout 2\nTa@b\01000000400\0|1\n|\nlayout 2\nTa@b\01000000400\0|1\n|\nlayout 2\nTa@b\01000000400\0|1\n|\n
let change-2 files=layout 2\nTa@b\01000000400\0=-=1\n;add=A@B;noted_add=A@B;noted_add=A@B
let change-2-told already\nalready\nalready\n
let change-3 files=Ta@b\0=-=1\n;add=a@5;noted_add=a@5;noted_add=a@5
let change-3-told layout 2\nTa@5\01000000400\0Ta@b\00\0|2\n|\nlayout 2\nTa@5\01000000400\0Ta@b\00\0|2\n|\nlayout 2\nTa@5\01000000400\0Ta@b\00\0|2\n|\n
let change-4 files=layout 2\nTa@5\01000000400\0Ta@b\00\0=-=2\n;add=A@5;noted_add=A@5;noted_add=A@5
let change-4-told already\nalready\nalready\n
let change-5 files=-=-=100000\n;add=a@b;noted_add=a@b;noted_add=a@b
let change-5-told full\nfull\nfull\n
let change-6 files=layout 2\nTa@b\01000000400\0=Tc@d\0=2\n;remove=A@B;noted_remove=A@B;noted_remove=A@B
let change-6-told -|1\n|\n-|1\n|\n-|1\n|\n
let change-7 files=layout 2\nTa@b\01000000400\0=-=1\n;remove=a@5;noted_remove=a@5;noted_remove=a@5
let change-7-told absent\nabsent\nabsent\n
let change-8 files=layout 2\nTa@5\01000000400\0Ta@b\00\0=-=2\n;remove=a@5;noted_remove=a@5;noted_remove=a@5
let change-8-told layout 2\nTa@b\00\0|1\n|\nlayout 2\nTa@b\00\0|1\n|\nlayout 2\nTa@b\00\0|1\n|\n
let change-9 files=Ta@5\0Ta@b\0=-=2\n;remove=a@5;noted_remove=a@5;noted_remove=a@5
let change-9-told layout 2\nTa@b\00\0|1\n|\nlayout 2\nTa@b\00\0|1\n|\nlayout 2\nTa@b\00\0|1\n|\n
input {change-1} | run sets steps => 0 {change-1-told}
input {change-2} | run sets steps => 0 {change-2-told}
input {change-3} | run sets steps => 0 {change-3-told}
input {change-4} | run sets steps => 0 {change-4-told}
input {change-5} | run sets steps => 0 {change-5-told}
input {change-6} | run sets steps => 0 {change-6-told}
input {change-7} | run sets steps => 0 {change-7-told}
input {change-8} | run sets steps => 0 {change-8-told}
input {change-9} | run sets steps => 0 {change-9-told}
input {change-1};{change-2};{change-3};{change-4};{change-5};{change-6};{change-7};{change-8};{change-9} | run sets steps => 0 {change-1-told}{change-2-told}{change-3-told}{change-4-told}{change-5-told}{change-6-told}{change-7-told}{change-8-told}{change-9-told}
# Buckets that a memo has not checked.
input files=Ta@5\0Ta@b\0=-=2\n;noted_add=a@5;files=Ta@5\0Ta@B\0=-=2\n;noted_add=a@5;files=Ta@5\0Ta@b\0=-=2\n;noted_add=a@5;files=Ta@b\0Ta@5\0=-=2\n;noted_add=a@5;files=Ta@5\0Ta@b\x01=-=2\n;noted_add=a@5;files=layout 2\nTa@5\0x\0=-=2\n;noted_add=a@5;files=layout 2\nTa@5\07\0=-=2\n;noted_add=a@5 | run sets steps => 0 already\ndamaged 3 29\nalready\ndamaged 3 29\ndamaged 3 29\ndamaged 3 29\nalready\n
";

#[test]
fn sets(rt: HostRuntime) -> Result<(), Fail> {
    hold::<Calls>(rt.alloc(), "sets", TABLE)
}
