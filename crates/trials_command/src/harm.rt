// A file of every kind is damaged, and an item of every letter comes. An item that reads the file is refused and changes nothing; any other is
// answered as on the sound list and changes what it changes there.
use crate::program::Whole;
use std::alloc::Global;
use std::test::Fail;
use trials_scripts::hold;

// The list: a post, a held one, an entry of the queue, and in each ledger one member who was warned a hundred seconds ago.
const LIST: &str = r"
let key 000102030405060708090a0b0c0d0e0f101112131415161718191a1b1c1d1e1f
let message 45:From: a@b\nTo: list@ex.org\nSubject: hello\n\nhi\n,
let three A1:1,10:1000000000,4:list,3:a@b,A1:2,10:1000000000,4:list,3:c@d,A1:3,10:1000000000,4:list,3:e@f,
let post D2:20,10:1000000100,3:a@b,11:list@ex.org,{message}
let warned 28:3:a@b,1:0,11:w1000000100,0:,,
let bounced 39:3:a@b,10:1000000200,11:w1000000100,1:1,,
let other 28:3:c@d,1:0,11:w1000000100,0:,,
let held 10:1000000000,3:g@h,2:hi,
let line 10:1000000100,3:a@b,3:321,5:hello,\n
let again 10:1000000200,3:a@b,3:321,5:hello,\n
let own Mailing-List: contact list-help@ex.org; run by ezmlm\nPrecedence: bulk\n
let sent {own}List-Post: <mailto:list@ex.org>\nList-Help: <mailto:list-help@ex.org>\nList-Unsubscribe: <mailto:list-unsubscribe@ex.org>\nList-Subscribe: <mailto:list-subscribe@ex.org>\nDelivered-To: mailing list list@ex.org\nFrom: a@b\nTo: list@ex.org\nSubject: hello\n\nhi\n
let copies 6:ex.org,1:v,321:{sent},3:a@b,3:c@d,3:e@f,
let mailed 12:list-return-,6:ex.org,1:p,
let front {own}From: list-help@ex.org\nTo: g@h\n
let date Date: Sun, 09 Sep 2001 01:50:00 -0000\n
let confirm list-sc.1000000200.gejckjgcpngcagofoonm-g=h@ex.org
let asked {front}Reply-To: {confirm}\n{date}Subject: confirm subscribe\n\nTo add g@h to list of list@ex.org, write to\n{confirm}\n
let shown {front}{date}Subject: archive of list@ex.org\n\n--- post 1 of list@ex.org ---\n{sent}\n
let none {1..9:\0}
let first \x04{1..8:\0}\x04{1..8:\0}\x04{1..8:\0}
let twentieth \x01{1..7:\0}\x01
let before {none}{first}{1..144:\0}{twentieth}{1..81:\0}
let after {1..4329:\0}
list run make -d --key {key} list ex.org o@own.org => 0 made list@ex.org\n | input {three}{post} | run spool => 0 1 0 subscribed\n2 0 subscribed\n3 0 subscribed\n20 0 posted 1\n | put pending/1 {held} | put tickets 1:2\n | put bounce/] {warned} | put bounce/L {other} | put digest/bounce/] {warned} | put digest/subscribers/L Tc@d\0 | put counts/digest 1\n
run check => 0 ok 1 3 1 0 0 0 1 1\n | same
";

// Each damaged file, the bytes that it gets, and what an item that reads it says of it.
const DAMAGED: &str = r"log \x01x => - 75 log
config x => - 75 config
key x => 30 75 key
subscribers/] x => 30 75 subscribers/]
subscribers/L x => 30 75 subscribers/L
digest/subscribers/] x => 30 75 digest/subscribers/]
digest/subscribers/L x => 30 75 digest/subscribers/L
allow/subscribers/] x => 30 75 allow/subscribers/]
deny/subscribers/] x => 30 75 deny/subscribers/]
mod/subscribers/] x => 30 75 mod/subscribers/]
mod/subscribers/d x => 30 75 mod/subscribers/d
counts/list x => 30 75 counts/list
counts/digest x => 30 75 counts/digest
counts/allow x => 30 75 counts/allow
counts/deny x => 30 75 counts/deny
counts/mod x => 30 75 counts/mod
archive/0/01 x => 30 75 archive/0/index
archive/0/index x => 30 75 archive/0/index
archive/1/index x => 30 75 archive/1/index
num x => 30 75 num
dig x => 30 75 dig
pending/1 x => 30 75 pending/1
tickets x => 30 75 tickets
bounce/] x => 30 75 bounce/]
bounce/L x => 30 75 bounce/L
digest/bounce/] x => 30 75 digest/bounce/]
queue/1 x => 30 75 queue/1
ids x => 30 75 ids
done/0 x => 30 75 done/0
done/1 x => 30 75 done/1
archive/threads/231 x => 30 75 archive/threads/231
archive/threads/161 x => 30 75 archive/threads/161
floor x => 30 75 floor
";

// The items: which of these files an item reads, and in the next line its answer and what it changes on the sound list.
const ITEMS: &str = r"reads log config floor done/0 subscribers/] counts/list
input A2:30,10:1000000200,4:list,3:a@5, | run spool => 0 30 0 subscribed\n | gets subscribers/] layout 2\nTa@5\01000000200\0Ta@b\01000000000\0 | gets counts/list 4\n | gets done/0 {before}\x04{1..8:\0}{after}
reads log config floor done/0 subscribers/] counts/list bounce/]
input R2:30,10:1000000200,4:list,3:a@b, | run spool => 0 30 0 unsubscribed\n | loses subscribers/] | gets counts/list 2\n | loses bounce/] | gets done/0 {before}\x06{1..8:\0}{after}
reads log config floor done/0 ids tickets num archive/0/index archive/threads/231 subscribers/] subscribers/L
input D2:30,10:1000000200,3:a@b,11:list@ex.org,{message} | run spool => 0 30 0 posted 2\n | gets num 2\n | gets archive/0/02 {sent} | gets archive/0/index {line}{again} | gets archive/threads/231 5:hello,3:1,2, | gets queue/2 14:list-return-2-,{copies} | gets ids 1:3\n | gets done/0 {before}\x01{1..7:\0}\x02{after}
reads log config floor done/0 ids tickets key
input D2:30,10:1000000200,3:g@h,21:list-subscribe@ex.org,{message} | run spool => 0 30 0 asked\n | gets queue/2 {mailed}323:{asked},3:g@h, | gets ids 1:3\n | gets done/0 {before}\x08{1..8:\0}{after}
reads log config floor done/0 ids tickets num archive/0/index archive/0/01
input D2:30,10:1000000200,3:g@h,17:list-get.1@ex.org,{message} | run spool => 0 30 0 archive\n | gets queue/2 {mailed}524:{shown},3:g@h, | gets ids 1:3\n | gets done/0 {before}\x09{1..8:\0}{after}
reads log config floor done/0 ids tickets num archive/0/index archive/0/01 archive/threads/231
input D2:30,10:1000000200,3:g@h,20:list-thread.1@ex.org,{message} | run spool => 0 30 0 archive\n | gets queue/2 {mailed}524:{shown},3:g@h, | gets ids 1:3\n | gets done/0 {before}\x09{1..8:\0}{after}
reads log config floor done/0 ids tickets num subscribers/] bounce/]
input D2:30,10:1000000200,0:,24:list-return-1-a=b@ex.org,{message} | run spool => 0 30 0 bounce\n | gets bounce/] {bounced} | gets done/0 {before}\x0D{1..8:\0}{after}
reads log config floor done/0 ids tickets num archive/0/index dig pending/1 bounce/] bounce/L digest/bounce/]
input T2:30,10:1000000200, | run spool => 0 30 0 timed 0\n | gets done/0 {before}\x03{1..8:\0}{after}
reads log config floor done/0 ids
input S2:30,10:1000000200,1:1, | run spool => 0 30 0 dequeued\n | loses queue/1 | gets ids 2:2\n | gets done/0 {before}\x12{1..8:\0}{after}
reads log config floor done/0 key
input K2:30,10:1000000200,64:{1..64:f}, | run spool => 0 30 0 rekeyed\n | gets key {1..32:\xFF}\x00\x01\x02\x03\x04\x05\x06\x07\x08\x09\x0A\x0B\x0C\x0D\x0E\x0F\x10\x11\x12\x13\x14\x15\x16\x17\x18\x19\x1A\x1B\x1C\x1D\x1E\x1F\0\0\0\0\x3B\x9A\xCA\xC8 | gets done/0 {before}\x20{1..8:\0}{after}
reads log config floor done/0
input F2:30,10:1000000200,2:20, | run spool => 0 30 0 floored 20\n | gets floor 20\n | gets done/0 {1..180:\0}{twentieth}{1..81:\0}\x22{1..7:\0}\x14{after}
";

// Whether a path is one of these.
fn is_among(path: &str, paths: &str) -> bool {
    for one in paths.split(' ') {
        if one == path {
            return true;
        }
    }
    false
}

// The table of an item: on the sound list, and on one list for each damaged file.
fn table_of(alloc: Global, reads: &str, row: &str) -> Result<String, Fail> {
    let mut table = format!(in alloc; "{LIST}{row} | same\n")?;
    let (input, _) = row.split_once(" | ").unwrap_or((row, ""));
    for line in DAMAGED.lines() {
        let (put, said) = line.split_once(" => ").unwrap_or((line, ""));
        let (path, _) = put.split_once(' ').unwrap_or((put, ""));
        let line = if is_among(path, reads) {
            format!(in alloc; "put {put} | {input} | run spool => 75 {said}\\n | same\n")?
        } else {
            format!(in alloc; "put {put} | {row} | same\n")?
        };
        table.push_str(line.as_str())?;
    }
    Ok(table)
}

// Tries an item on the sound list, and on one list for each damaged file.
fn hold_item(alloc: Global, reads: &str, row: &str) -> Result<(), Fail> {
    let (name, _) = row.split_once(" => ").unwrap_or((row, ""));
    let table = table_of(alloc, reads, row)?;
    hold::<Whole>(alloc, name, table.as_str())
}

#[test]
fn a_damaged_file_harms_only_what_reads_it(rt: HostRuntime) -> Result<(), Fail> {
    let alloc = rt.alloc();
    for item in ITEMS.split("reads ") {
        if let Some((reads, row)) = item.split_once('\n') {
            hold_item(alloc, reads, row.strip_suffix('\n').unwrap_or(row))?;
        }
    }
    Ok(())
}
