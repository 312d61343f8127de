// The ledgers of bounces, with texts written by hand: an address's course at its exact moments and a second before each, and the
// limits of each range.
use crate::parts::{Parts, file, push_number, word};
use crate::program::Calls;
use crate::table_call::{Asked, NoAnswer};
use ml_base::{Bytes, Name, Set, Txn, is_moment, is_post_number};
use ml_bounce::{Action, act, audit, due, forget, is_probed_at, note, probe_failed, warn_failed};
use std::alloc::{AllocError, Global};
use std::test::Fail;
use trials_scripts::hold;

/// What a call answers: the changes below, `due MAX` the actions of the clock's moment, `probed ADDRESS MOMENT`, and `audit`.
pub(crate) fn answer(
    alloc: Global,
    parts: &mut Parts,
    asked: &Asked<'_>,
) -> Result<Bytes, NoAnswer> {
    let verb = asked.verb;
    if verb == "due" {
        listed(alloc, parts, asked.moment, asked.number(0)?)
    } else if verb == "audit" {
        audit(alloc, parts)?;
        word(alloc, b"sound")
    } else if verb == "probed" {
        let who = asked.address(alloc, 0)?;
        if is_probed_at(alloc, parts, Set::List, &who, asked.number(1)?)? {
            word(alloc, b"yes")
        } else {
            word(alloc, b"no")
        }
    } else {
        after(alloc, parts, asked)
    }
}

// The puts of what happens at the clock's moment, or None if that changes nothing: mail with a number to an address bounces, `bounced ADDRESS
// NUMBER`, or mail of the digest, `digest ADDRESS NUMBER`; the warning or the probe of a moment bounces, `warning ADDRESS MOMENT` and `probe
// ADDRESS MOMENT`; the first action that is due is done, `served`; and an address is forgotten, `forgotten ADDRESS`.
fn changes(alloc: Global, parts: &mut Parts, asked: &Asked<'_>) -> Result<Option<Txn>, NoAnswer> {
    let verb = asked.verb;
    if verb == "bounced" || verb == "digest" {
        return noted(alloc, parts, asked);
    }
    if verb == "served" {
        return served(alloc, parts, asked.moment);
    }
    let who = asked.address(alloc, 0)?;
    if verb == "forgotten" {
        return Ok(Some(forget(alloc, parts, Set::List, &who)?));
    }
    let moment = asked.number(1)?;
    if verb == "warning" && is_moment(asked.moment) {
        Ok(warn_failed(alloc, parts, Set::List, &who, moment, asked.moment)?)
    } else if verb == "probe" {
        Ok(probe_failed(alloc, parts, Set::List, &who, moment)?)
    } else {
        Err(NoAnswer::NoCall)
    }
}

// The puts after a number has bounced.
fn noted(alloc: Global, parts: &mut Parts, asked: &Asked<'_>) -> Result<Option<Txn>, NoAnswer> {
    let (who, number, now) = (asked.address(alloc, 0)?, asked.number(1)?, asked.moment);
    if !is_post_number(number) || !is_moment(now) {
        return Err(NoAnswer::NoCall);
    }
    if asked.verb == "digest" {
        Ok(note(alloc, parts, Set::Digest, &who, number, now)?)
    } else {
        Ok(note(alloc, parts, Set::List, &who, number, now)?)
    }
}

// The puts of the first action that is due, or None if none is.
fn served(alloc: Global, parts: &mut Parts, now: u64) -> Result<Option<Txn>, NoAnswer> {
    if !is_moment(now) {
        return Err(NoAnswer::NoCall);
    }
    match due(alloc, parts, Set::List, now, 1)?.as_slice() {
        [action, ..] => Ok(Some(act(alloc, parts, Set::List, action, now)?)),
        [] => Ok(None),
    }
}

// The file of the entries of `a@b` after a change, over which both ledgers still stand, or `none`.
fn after(alloc: Global, parts: &mut Parts, asked: &Asked<'_>) -> Result<Bytes, NoAnswer> {
    let Some(txn) = changes(alloc, parts, asked)? else {
        return word(alloc, b"none");
    };
    parts.lay(txn)?;
    audit(alloc, parts)?;
    let kind = if asked.verb == "digest" { 16 } else { 15 };
    file(alloc, parts, Name { kind, at: 29 })
}

// A line for every action, with the numbers that were missed.
fn listed(alloc: Global, parts: &mut Parts, now: u64, max: u64) -> Result<Bytes, NoAnswer> {
    let actions = due(alloc, parts, Set::List, now, max)?;
    let mut out = Bytes::new(alloc);
    for action in actions.as_slice() {
        push_action(&mut out, action)?;
    }
    Ok(out)
}

fn push_action(out: &mut Bytes, action: &Action) -> Result<(), AllocError> {
    match action {
        Action::Warn { to, missed } => {
            out.extend(b"warn ")?;
            out.extend(to.bytes())?;
            for number in missed.as_slice() {
                out.push(b' ')?;
                out.push_number(*number)?;
            }
        }
        Action::Probe { to } => {
            out.extend(b"probe ")?;
            out.extend(to.bytes())?;
        }
        Action::Lapse { to } => {
            out.extend(b"lapse ")?;
            out.extend(to.bytes())?;
        }
    }
    out.push(b'\n')
}

const COURSE: &str = r"
let other 19:4:et@b,1:5,1:n,1:1,,
let noted 28:3:a@b,10:1000010000,1:n,1:1,,
let beside {noted}{other}
let two 30:3:a@b,10:1000010000,1:n,3:1,2,,
let warned 28:3:a@b,1:0,11:w1001010000,0:,,
let failed 28:3:a@b,1:0,11:f1001020000,0:,,
let probed 28:3:a@b,1:0,11:p1002020000,0:,,
let warned_missed 39:3:a@b,10:1001010005,11:w1001010000,1:7,,
let probed_missed 39:3:a@b,10:1002020009,11:p1002020000,1:8,,
let failed_missed 39:3:a@b,10:1001020001,11:f1001020000,1:3,,
let lapsed 28:3:a@b,10:1001010005,1:n,1:7,,
# What the list's file has, what happens, and what it has after that, or `none` where nothing is changed.
at 1000010000 | run ledgers bounced A@B 1 => 0 {noted}
put bounce/] {noted} | at 1000020000 | run ledgers bounced A@B 2 => 0 {two}
put bounce/] {noted} | at 1000020000 | run ledgers bounced A@B 1 => 0 none
put bounce/] {noted} | at 1001009999 | run ledgers served => 0 none
put bounce/] {noted} | at 5 | run ledgers served => 0 none
put bounce/] {noted} | at 1001010000 | run ledgers served => 0 {warned}
put bounce/] {noted} | at 1001020000 | run ledgers warning A@B 0 => 0 none
put bounce/] {noted} | run ledgers probe A@B 0 => 0 none
put bounce/] {warned} | at 1001010005 | run ledgers bounced A@B 7 => 0 {warned_missed}
put bounce/] {warned} | at 1001020000 | run ledgers warning A@B 1001009999 => 0 none
put bounce/] {warned} | at 1001020000 | run ledgers warning A@B 1001010001 => 0 none
put bounce/] {warned} | at 1001020000 | run ledgers warning A@B 1001010000 => 0 {failed}
put bounce/] {warned} | run ledgers probe A@B 1001010000 => 0 none
put bounce/] {warned} | at 1002009999 | run ledgers served => 0 none
put bounce/] {warned} | at 1002010000 | run ledgers served => 0 -
put bounce/] {warned_missed} | at 1002010000 | run ledgers served => 0 {lapsed}
put bounce/] {failed} | at 1001020001 | run ledgers bounced A@B 3 => 0 {failed_missed}
put bounce/] {failed} | at 1001020001 | run ledgers warning A@B 1001010000 => 0 none
put bounce/] {failed} | run ledgers probe A@B 1001020000 => 0 none
put bounce/] {failed} | at 1002019999 | run ledgers served => 0 none
put bounce/] {failed} | at 1002020000 | run ledgers served => 0 {probed}
put bounce/] {probed} | at 1002020009 | run ledgers bounced A@B 8 => 0 {probed_missed}
put bounce/] {probed} | at 1002020001 | run ledgers warning A@B 1002020000 => 0 none
put bounce/] {probed} | run ledgers probe A@B 1002019999 => 0 none
put bounce/] {probed} | run ledgers probe A@B 1002020000 => 0 -
put bounce/] {probed} | run ledgers probed A@B 1002020000 => 0 yes | run ledgers probed A@B 1002019999 => 0 no | run ledgers probed et@b 1002020000 => 0 no
put bounce/] {failed} | run ledgers probed A@B 1001020000 => 0 no
put bounce/] {probed} | at 1003019999 | run ledgers served => 0 none
put bounce/] {probed} | at 1003020000 | run ledgers served => 0 -
put bounce/] {probed_missed} | run ledgers probe A@B 1002020000 => 0 -
put bounce/] {beside} | run ledgers probe A@B 0 => 0 none
put bounce/] {other} | at 1000010000 | run ledgers bounced A@B 1 => 0 {beside}
put bounce/] {other} | run ledgers probe A@B 0 => 0 none
at 7 | run ledgers warning A@B 0 => 0 none
at 1003020000 | run ledgers served => 0 none
run ledgers forgotten A@B => 0 -
put bounce/] {noted} | run ledgers forgotten A@B => 0 -
put bounce/] {warned} | run ledgers forgotten A@B => 0 -
put bounce/] {warned_missed} | run ledgers forgotten A@B => 0 -
put bounce/] {failed} | run ledgers forgotten A@B => 0 -
put bounce/] {probed} | run ledgers forgotten A@B => 0 -
put bounce/] {probed_missed} | run ledgers forgotten A@B => 0 -
put bounce/] {beside} | run ledgers forgotten A@B => 0 {other}
put bounce/] {other} | run ledgers forgotten A@B => 0 {other}
";

const TABLE: &str = r"
let noted 28:3:a@b,10:1000010000,1:n,1:1,,
let two 30:3:a@b,10:1000010000,1:n,3:1,2,,
let warned 28:3:a@b,1:0,11:w1001010000,0:,,
let warned_missed 39:3:a@b,10:1001010005,11:w1001010000,1:7,,
# Texts that are no entries of this file.
put bounce/] 19:3:a@b,1:5,2:x7,1:1,, | run ledgers audit => 75 damaged 15 29 | at 7 | run ledgers bounced A@B 2 => 75 damaged 15 29 | run ledgers due 1 => 75 damaged 15 29
put bounce/] 18:3:a@b,1:5,1:N,1:1,, | run ledgers audit => 75 damaged 15 29 | at 7 | run ledgers bounced A@B 2 => 75 damaged 15 29 | run ledgers due 1 => 75 damaged 15 29
put bounce/] 19:3:a@b,1:5,2:n7,1:1,, | run ledgers audit => 75 damaged 15 29 | at 7 | run ledgers bounced A@B 2 => 75 damaged 15 29 | run ledgers due 1 => 75 damaged 15 29
put bounce/] 18:3:a@b,1:5,1:w,1:1,, | run ledgers audit => 75 damaged 15 29 | at 7 | run ledgers bounced A@B 2 => 75 damaged 15 29 | run ledgers due 1 => 75 damaged 15 29
put bounce/] 17:3:a@b,1:5,0:,1:1,, | run ledgers audit => 75 damaged 15 29 | at 7 | run ledgers bounced A@B 2 => 75 damaged 15 29 | run ledgers due 1 => 75 damaged 15 29
put bounce/] 31:3:a@b,1:5,13:w253402300800,1:1,, | run ledgers audit => 75 damaged 15 29 | at 7 | run ledgers bounced A@B 2 => 75 damaged 15 29 | run ledgers due 1 => 75 damaged 15 29
put bounce/] 30:3:a@b,12:253402300800,1:n,1:1,, | run ledgers audit => 75 damaged 15 29 | at 7 | run ledgers bounced A@B 2 => 75 damaged 15 29 | run ledgers due 1 => 75 damaged 15 29
put bounce/] 20:3:a@b,1:5,1:n,3:1,1,, | run ledgers audit => 75 damaged 15 29 | at 7 | run ledgers bounced A@B 2 => 75 damaged 15 29 | run ledgers due 1 => 75 damaged 15 29
put bounce/] 314:3:a@b,1:5,1:n,295:1,2,3,4,5,6,7,8,9,10,11,12,13,14,15,16,17,18,19,20,21,22,23,24,25,26,27,28,29,30,31,32,33,34,35,36,37,38,39,40,41,42,43,44,45,46,47,48,49,50,51,52,53,54,55,56,57,58,59,60,61,62,63,64,65,66,67,68,69,70,71,72,73,74,75,76,77,78,79,80,81,82,83,84,85,86,87,88,89,90,91,92,93,94,95,96,97,98,99,100,101,, | run ledgers audit => 75 damaged 15 29 | at 7 | run ledgers bounced A@B 2 => 75 damaged 15 29 | run ledgers due 1 => 75 damaged 15 29
put bounce/] 17:3:a@b,1:0,1:n,0:,, | run ledgers audit => 75 damaged 15 29 | at 7 | run ledgers bounced A@B 2 => 75 damaged 15 29 | run ledgers due 1 => 75 damaged 15 29
put bounce/] 18:3:a@b,1:5,2:p7,0:,, | run ledgers audit => 75 damaged 15 29 | run ledgers probed A@B 7 => 75 damaged 15 29 | at 7 | run ledgers bounced A@B 2 => 75 damaged 15 29 | run ledgers due 1 => 75 damaged 15 29
put bounce/] 19:4:et@b,1:5,1:n,1:1,,18:3:a@b,1:5,1:n,1:1,, | run ledgers audit => 75 damaged 15 29 | at 7 | run ledgers bounced A@B 2 => 75 damaged 15 29 | run ledgers due 1 => 75 damaged 15 29
put bounce/] 18:3:a@b,1:5,1:n,1:1,,18:3:a@b,1:5,1:n,1:1,, | run ledgers audit => 75 damaged 15 29 | at 7 | run ledgers bounced A@B 2 => 75 damaged 15 29 | run ledgers due 1 => 75 damaged 15 29
put bounce/] 18:3:b@b,1:5,1:n,1:1,, | run ledgers audit => 75 damaged 15 29 | at 7 | run ledgers bounced A@B 2 => 75 damaged 15 29 | run ledgers due 1 => 75 damaged 15 29
put bounce/] 18:3:A@b,1:5,1:n,1:1,, | run ledgers audit => 75 damaged 15 29 | at 7 | run ledgers bounced A@B 2 => 75 damaged 15 29 | run ledgers due 1 => 75 damaged 15 29
put bounce/] 17:2:ab,1:5,1:n,1:1,, | run ledgers audit => 75 damaged 15 29 | at 7 | run ledgers bounced A@B 2 => 75 damaged 15 29 | run ledgers due 1 => 75 damaged 15 29
put bounce/] 19:3:a@b,1:5,1:n,2:01,, | run ledgers audit => 75 damaged 15 29 | at 7 | run ledgers bounced A@B 2 => 75 damaged 15 29 | run ledgers due 1 => 75 damaged 15 29
put bounce/] 26:3:a@b,1:5,1:n,9:100000000,, | run ledgers audit => 75 damaged 15 29 | at 7 | run ledgers bounced A@B 2 => 75 damaged 15 29 | run ledgers due 1 => 75 damaged 15 29
put bounce/] 19:3:a@b,1:5,1:n,2:1,,, | run ledgers audit => 75 damaged 15 29 | at 7 | run ledgers bounced A@B 2 => 75 damaged 15 29 | run ledgers due 1 => 75 damaged 15 29
put bounce/] 18:3:a@b,1:5,1:n,1:1,,x | run ledgers audit => 75 damaged 15 29 | at 7 | run ledgers bounced A@B 2 => 75 damaged 15 29 | run ledgers due 1 => 75 damaged 15 29
put bounce/] 19:3:a@b,1:5,1:n,1:1,x, | run ledgers audit => 75 damaged 15 29 | at 7 | run ledgers bounced A@B 2 => 75 damaged 15 29 | run ledgers due 1 => 75 damaged 15 29
put bounce/] 14:3:a@b,1:5,1:n,, | run ledgers audit => 75 damaged 15 29 | at 7 | run ledgers bounced A@B 2 => 75 damaged 15 29 | run ledgers due 1 => 75 damaged 15 29
put bounce/] 18:3:a@b,1:5,1:n,1:1, | run ledgers audit => 75 damaged 15 29 | at 7 | run ledgers bounced A@B 2 => 75 damaged 15 29 | run ledgers due 1 => 75 damaged 15 29
# The ledgers are apart.
put bounce/] {noted} | put digest/bounce/] {warned} | at 1001010005 | run ledgers digest A@B 7 => 0 {warned_missed} | has bounce/] {noted}
# A hundred numbers and no more.
put bounce/] 306:3:a@b,1:5,1:n,287:1{2..99:,%},, | at 7 | run ledgers bounced A@B 100 => 0 310:3:a@b,1:5,1:n,291:1{2..100:,%},, | run ledgers bounced A@B 101 => 0 none
# A thousand due entries, from the first on.
list run made entries => 0
at 1000004 | run ledgers due 1000 => 0
at 1000005 | run ledgers due 0 => 0
at 1000005 | run ledgers due 1 => 0 warn 1001@b 1\n
at 1000005 | run ledgers due 999 => 0 {1001..1999:warn %@b 1\n}
at 1000005 | run ledgers due 1000 => 0 {1001..2000:warn %@b 1\n}
at 1000005 | run ledgers due 1001 => 0 {1001..2000:warn %@b 1\n}
list at 1000000000
# Due entries in order of key.
put bounce/^ 18:3:1@b,1:5,1:n,1:1,, | put bounce/T 19:4:10@b,1:5,1:n,1:1,, | put bounce/k 20:5:100@b,1:5,1:n,1:1,, | at 1000005 | run ledgers due 2 => 0 warn 100@b 1\nwarn 10@b 1\n | run ledgers due 9 => 0 warn 100@b 1\nwarn 10@b 1\nwarn 1@b 1\n
list put bounce/] {noted}
# Mail bounces over a failing read.
at 7 | fail 1 | run ledgers bounced A@B 2 => 111 a read failed | same
# A failing read of the entries that are due, after mail that bounced.
at 7 | run ledgers bounced A@B 2 => 0 {two} | fail 1 | run ledgers due 1 => 111 a read failed | same
# The 28th read of the entries that are due fails.
at 7 | fail 28 | run ledgers due 1 => 111 a read failed | same
# The 60th read of the audit fails.
fail 60 | run ledgers audit => 111 a read failed | same
";

#[test]
fn ledgers(rt: HostRuntime) -> Result<(), Fail> {
    hold::<Calls>(rt.alloc(), "the course of an address", COURSE)?;
    hold::<Calls>(rt.alloc(), "the ledgers", TABLE)
}
