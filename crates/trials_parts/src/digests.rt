// The mark of the digests in each form, and when a digest is due, at each limit and one short of it.
use crate::parts::{Parts, push_number, word};
use crate::program::Calls;
use crate::table_call::{Asked, NoAnswer};
use crate::{digest_reader, issues};
use ml_base::{Bytes, read_number, split_first};
use ml_digest::{Mark, Range, due, law_burst, law_digest_text, law_due, law_mark, mark, set_mark};
use std::alloc::{AllocError, Global};
use std::test::Fail;
use trials_scripts::hold;

/// What a call answers: `mark` the last post and the last digest of the mark, `set LAST ISSUE` the mark that is set, `due LAST OLDEST SIZES`
/// the digest that is due, and those of `issues` and `digest_reader`.
pub(crate) fn answer(
    alloc: Global,
    parts: &mut Parts,
    asked: &Asked<'_>,
) -> Result<Bytes, NoAnswer> {
    let verb = asked.verb;
    if verb == "mark" {
        marked(alloc, parts)
    } else if verb == "set" {
        mark_set(alloc, parts, asked.number(0)?, asked.number(1)?)
    } else if verb == "due" {
        chosen(alloc, asked)
    } else if verb == "write" || verb == "burst" {
        issues::answer(alloc, asked)
    } else {
        digest_reader::answer(alloc, asked)
    }
}

// Two numbers in a line.
fn pair(alloc: Global, first: u64, second: u64) -> Result<Bytes, NoAnswer> {
    let mut out = Bytes::new(alloc);
    push_number(&mut out, first, b' ')?;
    push_number(&mut out, second, b'\n')?;
    Ok(out)
}

fn marked(alloc: Global, parts: &mut Parts) -> Result<Bytes, NoAnswer> {
    let mark = mark(alloc, parts)?;
    pair(alloc, mark.last, mark.issue)
}

fn mark_set(alloc: Global, parts: &mut Parts, last: u64, issue: u64) -> Result<Bytes, NoAnswer> {
    if issue > last || last > 99_999_999 {
        return Err(NoAnswer::NoCall);
    }
    let txn = set_mark(alloc, &Mark { last, issue })?;
    parts.lay(txn)?;
    marked(alloc, parts)
}

// The sizes of posts, each a word `SIZE*COUNT`.
fn sizes_of(alloc: Global, words: &[String]) -> Result<Vec<u64>, NoAnswer> {
    let mut sizes = Vec::new(alloc);
    for word in words {
        let Some((size, count)) = size_and_count(word.as_bytes()) else {
            return Err(NoAnswer::NoCall);
        };
        let all = sizes.len().saturating_add(count as usize);
        resize(&mut sizes, all, size)?;
    }
    Ok(sizes)
}

fn resize(sizes: &mut Vec<u64>, all: usize, size: u64) -> Result<(), AllocError> {
    sizes.resize(all, size)
}

fn size_and_count(word: &[u8]) -> Option<(u64, u64)> {
    let (size, count) = split_first(b'*', word)?;
    Some((read_number(size)?, read_number(count)?))
}

// The digest that is due. It is asked for only if the sizes can be those of posts.
fn range_due(last: u64, sizes: &[u64], oldest: u64, now: u64) -> Result<Option<Range>, NoAnswer> {
    if last > 99_999_999 || sizes.len() > 100 || !sizes.iter().all(|size| *size < 4_294_967_296) {
        return Err(NoAnswer::NoCall);
    }
    Ok(due(&Mark { last, issue: 1 }, sizes, oldest, now))
}

// Given the last post of a digest, when the first one after it came, and the sizes of those after it, at the clock's moment: the first and the
// last post of the digest that is due, or `none`.
fn chosen(alloc: Global, asked: &Asked<'_>) -> Result<Bytes, NoAnswer> {
    let sizes = sizes_of(alloc, asked.words.get(2..).unwrap_or(&[]))?;
    let (last, oldest) = (asked.number(0)?, asked.number(1)?);
    match range_due(last, sizes.as_slice(), oldest, asked.moment)? {
        Some(range) => pair(alloc, range.first, range.last),
        None => word(alloc, b"none"),
    }
}

#[test]
fn the_laws_can_be_called() {
    law_mark();
    law_due();
    law_digest_text();
    law_burst();
}

const TABLE: &str = r"
# The mark 0:0.
put dig 0:0\n | run digests mark => 0 0 0\n
# The mark 100:1.
put dig 100:1\n | run digests mark => 0 100 1\n
# The mark 101:2.
put dig 101:2\n | run digests mark => 0 101 2\n
# The mark 99999999:99999999.
put dig 99999999:99999999\n | run digests mark => 0 99999999 99999999\n
# The mark 1:7.
put dig 1:7\n | run digests mark => 0 1 7\n
# Texts that are no mark.
run digests mark => 75 damaged 12 0
put dig  | run digests mark => 75 damaged 12 0
put dig \n | run digests mark => 75 damaged 12 0
put dig :\n | run digests mark => 75 damaged 12 0
put dig 0:0 | run digests mark => 75 damaged 12 0
put dig 0:0\n\n | run digests mark => 75 damaged 12 0
put dig 0:0\nx | run digests mark => 75 damaged 12 0
put dig 0:0\x0D\n | run digests mark => 75 damaged 12 0
put dig 00:0\n | run digests mark => 75 damaged 12 0
put dig 0:00\n | run digests mark => 75 damaged 12 0
put dig 01:1\n | run digests mark => 75 damaged 12 0
put dig 1:01\n | run digests mark => 75 damaged 12 0
put dig 100000000:1\n | run digests mark => 75 damaged 12 0
put dig 1:100000000\n | run digests mark => 75 damaged 12 0
put dig :1\n | run digests mark => 75 damaged 12 0
put dig 1:\n | run digests mark => 75 damaged 12 0
put dig 11\n | run digests mark => 75 damaged 12 0
put dig 1:1:1\n | run digests mark => 75 damaged 12 0
put dig \x201:1\n | run digests mark => 75 damaged 12 0
put dig 1: 1\n | run digests mark => 75 damaged 12 0
# Marks are set over what is no mark.
run digests set 0 0 => 0 0 0\n | drop dig | run digests set 100 1 => 0 100 1\n | drop dig | run digests set 101 2 => 0 101 2\n | drop dig | run digests set 99999999 99999999 => 0 99999999 99999999\n
put dig  | run digests set 0 0 => 0 0 0\n | put dig  | run digests set 100 1 => 0 100 1\n | put dig  | run digests set 101 2 => 0 101 2\n | put dig  | run digests set 99999999 99999999 => 0 99999999 99999999\n
put dig \n | run digests set 0 0 => 0 0 0\n | put dig \n | run digests set 100 1 => 0 100 1\n | put dig \n | run digests set 101 2 => 0 101 2\n | put dig \n | run digests set 99999999 99999999 => 0 99999999 99999999\n
put dig :\n | run digests set 0 0 => 0 0 0\n | put dig :\n | run digests set 100 1 => 0 100 1\n | put dig :\n | run digests set 101 2 => 0 101 2\n | put dig :\n | run digests set 99999999 99999999 => 0 99999999 99999999\n
put dig 0:0 | run digests set 0 0 => 0 0 0\n | put dig 0:0 | run digests set 100 1 => 0 100 1\n | put dig 0:0 | run digests set 101 2 => 0 101 2\n | put dig 0:0 | run digests set 99999999 99999999 => 0 99999999 99999999\n
put dig 0:0\n\n | run digests set 0 0 => 0 0 0\n | put dig 0:0\n\n | run digests set 100 1 => 0 100 1\n | put dig 0:0\n\n | run digests set 101 2 => 0 101 2\n | put dig 0:0\n\n | run digests set 99999999 99999999 => 0 99999999 99999999\n
put dig 0:0\nx | run digests set 0 0 => 0 0 0\n | put dig 0:0\nx | run digests set 100 1 => 0 100 1\n | put dig 0:0\nx | run digests set 101 2 => 0 101 2\n | put dig 0:0\nx | run digests set 99999999 99999999 => 0 99999999 99999999\n
put dig 0:0\x0D\n | run digests set 0 0 => 0 0 0\n | put dig 0:0\x0D\n | run digests set 100 1 => 0 100 1\n | put dig 0:0\x0D\n | run digests set 101 2 => 0 101 2\n | put dig 0:0\x0D\n | run digests set 99999999 99999999 => 0 99999999 99999999\n
put dig 00:0\n | run digests set 0 0 => 0 0 0\n | put dig 00:0\n | run digests set 100 1 => 0 100 1\n | put dig 00:0\n | run digests set 101 2 => 0 101 2\n | put dig 00:0\n | run digests set 99999999 99999999 => 0 99999999 99999999\n
put dig 0:00\n | run digests set 0 0 => 0 0 0\n | put dig 0:00\n | run digests set 100 1 => 0 100 1\n | put dig 0:00\n | run digests set 101 2 => 0 101 2\n | put dig 0:00\n | run digests set 99999999 99999999 => 0 99999999 99999999\n
put dig 01:1\n | run digests set 0 0 => 0 0 0\n | put dig 01:1\n | run digests set 100 1 => 0 100 1\n | put dig 01:1\n | run digests set 101 2 => 0 101 2\n | put dig 01:1\n | run digests set 99999999 99999999 => 0 99999999 99999999\n
put dig 1:01\n | run digests set 0 0 => 0 0 0\n | put dig 1:01\n | run digests set 100 1 => 0 100 1\n | put dig 1:01\n | run digests set 101 2 => 0 101 2\n | put dig 1:01\n | run digests set 99999999 99999999 => 0 99999999 99999999\n
put dig 100000000:1\n | run digests set 0 0 => 0 0 0\n | put dig 100000000:1\n | run digests set 100 1 => 0 100 1\n | put dig 100000000:1\n | run digests set 101 2 => 0 101 2\n | put dig 100000000:1\n | run digests set 99999999 99999999 => 0 99999999 99999999\n
put dig 1:100000000\n | run digests set 0 0 => 0 0 0\n | put dig 1:100000000\n | run digests set 100 1 => 0 100 1\n | put dig 1:100000000\n | run digests set 101 2 => 0 101 2\n | put dig 1:100000000\n | run digests set 99999999 99999999 => 0 99999999 99999999\n
put dig :1\n | run digests set 0 0 => 0 0 0\n | put dig :1\n | run digests set 100 1 => 0 100 1\n | put dig :1\n | run digests set 101 2 => 0 101 2\n | put dig :1\n | run digests set 99999999 99999999 => 0 99999999 99999999\n
put dig 1:\n | run digests set 0 0 => 0 0 0\n | put dig 1:\n | run digests set 100 1 => 0 100 1\n | put dig 1:\n | run digests set 101 2 => 0 101 2\n | put dig 1:\n | run digests set 99999999 99999999 => 0 99999999 99999999\n
put dig 11\n | run digests set 0 0 => 0 0 0\n | put dig 11\n | run digests set 100 1 => 0 100 1\n | put dig 11\n | run digests set 101 2 => 0 101 2\n | put dig 11\n | run digests set 99999999 99999999 => 0 99999999 99999999\n
put dig 1:1:1\n | run digests set 0 0 => 0 0 0\n | put dig 1:1:1\n | run digests set 100 1 => 0 100 1\n | put dig 1:1:1\n | run digests set 101 2 => 0 101 2\n | put dig 1:1:1\n | run digests set 99999999 99999999 => 0 99999999 99999999\n
put dig \x201:1\n | run digests set 0 0 => 0 0 0\n | put dig \x201:1\n | run digests set 100 1 => 0 100 1\n | put dig \x201:1\n | run digests set 101 2 => 0 101 2\n | put dig \x201:1\n | run digests set 99999999 99999999 => 0 99999999 99999999\n
put dig 1: 1\n | run digests set 0 0 => 0 0 0\n | put dig 1: 1\n | run digests set 100 1 => 0 100 1\n | put dig 1: 1\n | run digests set 101 2 => 0 101 2\n | put dig 1: 1\n | run digests set 99999999 99999999 => 0 99999999 99999999\n
# A failing read of the mark.
put dig 100:1\n | run digests mark => 0 100 1\n | fail 1 | run digests mark => 111 a read failed | same | run digests mark => 0 100 1\n
# Posts of one size after post 5, the first of which came at 1,000,000,001.
at 2000000001 | run digests due 5 1000000001 => 0 none
at 1000172800 | run digests due 5 1000000001 1*29 => 0 none
at 1000000001 | run digests due 5 1000000001 1*30 => 0 6 35\n
at 1000172800 | run digests due 5 1000000001 1*1 => 0 none
at 1000172801 | run digests due 5 1000000001 1*1 => 0 6 6\n
at 1000172801 | run digests due 5 1000000001 1*29 => 0 6 34\n
at 1000000001 | run digests due 5 1000000001 65535*1 => 0 none
at 1000000001 | run digests due 5 1000000001 65536*1 => 0 6 6\n
at 1000000001 | run digests due 5 1000000001 16383*4 => 0 none
at 1000000001 | run digests due 5 1000000001 16384*4 => 0 6 9\n
at 1000000001 | run digests due 5 1000000001 321*99 => 0 6 104\n
at 1000000001 | run digests due 5 1000000001 321*100 => 0 6 105\n
at 1000000001 | run digests due 5 1000000001 41943*100 => 0 6 105\n
at 1000000001 | run digests due 5 1000000001 41944*100 => 0 6 104\n
at 1000000001 | run digests due 5 1000000001 4294967295*100 => 0 6 6\n
# Posts that are due by their bytes.
at 1000000001 | run digests due 5 1000000001 65534*1 1*1 => 0 none
at 1000000001 | run digests due 5 1000000001 65535*1 1*1 => 0 6 7\n
at 1000000001 | run digests due 5 1000000001 4194304*1 => 0 6 6\n
at 1000000001 | run digests due 5 1000000001 4194304*1 0*1 => 0 6 7\n
at 1000000001 | run digests due 5 1000000001 4194304*1 1*1 => 0 6 6\n
at 1000000001 | run digests due 5 1000000001 4194304*1 1*1 0*1 => 0 6 6\n
at 1000000001 | run digests due 5 1000000001 4194303*1 1*1 1*1 => 0 6 7\n
at 1000000001 | run digests due 5 1000000001 4194305*1 0*1 => 0 6 6\n
at 1000000001 | run digests due 5 1000000001 1*1 4194304*1 1*1 => 0 6 6\n
# An issue of 100 posts, and the next.
at 1000000200 | run digests due 0 1000000001 321*100 => 0 1 100\n
at 1000000200 | run digests due 100 1000000101 321*1 => 0 none
at 1000172900 | run digests due 100 1000000101 321*1 => 0 none
at 1000172901 | run digests due 100 1000000101 321*1 => 0 101 101\n
at 5 | run digests due 100 1000000101 321*1 => 0 none
";

#[test]
fn digests(rt: HostRuntime) -> Result<(), Fail> {
    let alloc = rt.alloc();
    hold::<Calls>(alloc, "digests", TABLE)?;
    hold::<Calls>(alloc, "issues", issues::TABLE)?;
    hold::<Calls>(alloc, "a digest of other lines", digest_reader::LINES)?;
    hold::<Calls>(alloc, "digests that are read", digest_reader::TABLE)
}
