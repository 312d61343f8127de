// Stores over sites in memory: what a crash leaves of commits, and calls that fail.
use crate::disk::Disk;
use ml_journal::{CommitError, OpenError};
use std::test::Fail;
use trials_lists::same;
use trials_scripts::hold;

// An opening makes two calls. A commit writes its record, syncs, writes its gate and syncs; a gate that is written and not synced counts
// when it is read again. Contents of 64 KiB, of a byte less and of a byte more: the part of a record that is gathered has less room, so each goes
// to the log by itself, between a write of what comes before it and one of what comes after it. A gate is open if it has a byte that opens it.
const TABLE: &str = r"
let posts show=9.1,9.2,9.3
let one commit=9.1=one
let two commit=9.2=two
let three commit=9.3=three
# Commits lie in the log until the store is closed.
put log \0 | calls 14 | room 0 | input open\n{one}\n{two}\n{three}\n{posts}\nleft=99=old | run store => 0 done\ndone\ndone\ndone\none|two|three|\n\x0115:W1:9,1:1,3:one,,\x0115:W1:9,1:2,3:two,,\x0117:W1:9,1:3,5:three,,\0|-|-|-|0\n
# A closed store leaves files and one closed gate.
put log \0 | calls 22 | room 0 | input open\n{one}\n{two}\n{three}\nclose\nleft=99=old | run store => 0 done\ndone\ndone\ndone\ndone\n\0|one|two|three|3\n
# A crash leaves the first commits whole.
turns 0 4 | put log \0 | calls 22 | room 0 | input open\n{one}\n{two}\n{three}\nclose\ncrash={turn}=old\nopen\n{posts} | run store => 0 done\ndone\ndone\ndone\ndone\n\ndone\n-|-|-|\n | calls 22 | room 0 | input open\n{one}\n{two}\n{three}\nclose\ncrash={turn}=new\nopen\n{posts} | run store => 0 done\ndone\ndone\ndone\ndone\n\ndone\n-|-|-|\n | calls 22 | room 0 | input open\n{one}\n{two}\n{three}\nclose\ncrash={turn}=0\nopen\n{posts} | run store => 0 done\ndone\ndone\ndone\ndone\n\ndone\n-|-|-|\n | calls 22 | room 0 | input open\n{one}\n{two}\n{three}\nclose\ncrash={turn}=1\nopen\n{posts} | run store => 0 done\ndone\ndone\ndone\ndone\n\ndone\n-|-|-|\n | calls 22 | room 0 | input open\n{one}\n{two}\n{three}\nclose\ncrash={turn}=7\nopen\n{posts} | run store => 0 done\ndone\ndone\ndone\ndone\n\ndone\n-|-|-|\n
put log \0 | calls 22 | room 0 | input open\n{one}\n{two}\n{three}\nclose\ncrash=5=old\nopen\n{posts} | run store => 0 done\ndone\ndone\ndone\ndone\n\ndone\n-|-|-|\n | calls 22 | room 0 | input open\n{one}\n{two}\n{three}\nclose\ncrash=5=0\nopen\n{posts} | run store => 0 done\ndone\ndone\ndone\ndone\n\ndone\n-|-|-|\n | calls 22 | room 0 | input open\n{one}\n{two}\n{three}\nclose\ncrash=5=7\nopen\n{posts} | run store => 0 done\ndone\ndone\ndone\ndone\n\ndone\n-|-|-|\n
put log \0 | calls 22 | room 0 | input open\n{one}\n{two}\n{three}\nclose\ncrash=5=new\nopen\n{posts} | run store => 0 done\ndone\ndone\ndone\ndone\n\ndone\none|-|-|\n | calls 22 | room 0 | input open\n{one}\n{two}\n{three}\nclose\ncrash=5=1\nopen\n{posts} | run store => 0 done\ndone\ndone\ndone\ndone\n\ndone\none|-|-|\n
turns 6 8 | put log \0 | calls 22 | room 0 | input open\n{one}\n{two}\n{three}\nclose\ncrash={turn}=old\nopen\n{posts} | run store => 0 done\ndone\ndone\ndone\ndone\n\ndone\none|-|-|\n | calls 22 | room 0 | input open\n{one}\n{two}\n{three}\nclose\ncrash={turn}=new\nopen\n{posts} | run store => 0 done\ndone\ndone\ndone\ndone\n\ndone\none|-|-|\n | calls 22 | room 0 | input open\n{one}\n{two}\n{three}\nclose\ncrash={turn}=0\nopen\n{posts} | run store => 0 done\ndone\ndone\ndone\ndone\n\ndone\none|-|-|\n | calls 22 | room 0 | input open\n{one}\n{two}\n{three}\nclose\ncrash={turn}=1\nopen\n{posts} | run store => 0 done\ndone\ndone\ndone\ndone\n\ndone\none|-|-|\n | calls 22 | room 0 | input open\n{one}\n{two}\n{three}\nclose\ncrash={turn}=7\nopen\n{posts} | run store => 0 done\ndone\ndone\ndone\ndone\n\ndone\none|-|-|\n
put log \0 | calls 22 | room 0 | input open\n{one}\n{two}\n{three}\nclose\ncrash=9=old\nopen\n{posts} | run store => 0 done\ndone\ndone\ndone\ndone\n\ndone\none|-|-|\n | calls 22 | room 0 | input open\n{one}\n{two}\n{three}\nclose\ncrash=9=0\nopen\n{posts} | run store => 0 done\ndone\ndone\ndone\ndone\n\ndone\none|-|-|\n | calls 22 | room 0 | input open\n{one}\n{two}\n{three}\nclose\ncrash=9=7\nopen\n{posts} | run store => 0 done\ndone\ndone\ndone\ndone\n\ndone\none|-|-|\n
put log \0 | calls 22 | room 0 | input open\n{one}\n{two}\n{three}\nclose\ncrash=9=new\nopen\n{posts} | run store => 0 done\ndone\ndone\ndone\ndone\n\ndone\none|two|-|\n | calls 22 | room 0 | input open\n{one}\n{two}\n{three}\nclose\ncrash=9=1\nopen\n{posts} | run store => 0 done\ndone\ndone\ndone\ndone\n\ndone\none|two|-|\n
turns 10 12 | put log \0 | calls 22 | room 0 | input open\n{one}\n{two}\n{three}\nclose\ncrash={turn}=old\nopen\n{posts} | run store => 0 done\ndone\ndone\ndone\ndone\n\ndone\none|two|-|\n | calls 22 | room 0 | input open\n{one}\n{two}\n{three}\nclose\ncrash={turn}=new\nopen\n{posts} | run store => 0 done\ndone\ndone\ndone\ndone\n\ndone\none|two|-|\n | calls 22 | room 0 | input open\n{one}\n{two}\n{three}\nclose\ncrash={turn}=0\nopen\n{posts} | run store => 0 done\ndone\ndone\ndone\ndone\n\ndone\none|two|-|\n | calls 22 | room 0 | input open\n{one}\n{two}\n{three}\nclose\ncrash={turn}=1\nopen\n{posts} | run store => 0 done\ndone\ndone\ndone\ndone\n\ndone\none|two|-|\n | calls 22 | room 0 | input open\n{one}\n{two}\n{three}\nclose\ncrash={turn}=7\nopen\n{posts} | run store => 0 done\ndone\ndone\ndone\ndone\n\ndone\none|two|-|\n
put log \0 | calls 22 | room 0 | input open\n{one}\n{two}\n{three}\nclose\ncrash=13=old\nopen\n{posts} | run store => 0 done\ndone\ndone\ndone\ndone\n\ndone\none|two|-|\n | calls 22 | room 0 | input open\n{one}\n{two}\n{three}\nclose\ncrash=13=0\nopen\n{posts} | run store => 0 done\ndone\ndone\ndone\ndone\n\ndone\none|two|-|\n | calls 22 | room 0 | input open\n{one}\n{two}\n{three}\nclose\ncrash=13=7\nopen\n{posts} | run store => 0 done\ndone\ndone\ndone\ndone\n\ndone\none|two|-|\n
put log \0 | calls 22 | room 0 | input open\n{one}\n{two}\n{three}\nclose\ncrash=13=new\nopen\n{posts} | run store => 0 done\ndone\ndone\ndone\ndone\n\ndone\none|two|three|\n | calls 22 | room 0 | input open\n{one}\n{two}\n{three}\nclose\ncrash=13=1\nopen\n{posts} | run store => 0 done\ndone\ndone\ndone\ndone\n\ndone\none|two|three|\n
turns 14 22 | put log \0 | calls 22 | room 0 | input open\n{one}\n{two}\n{three}\nclose\ncrash={turn}=old\nopen\n{posts} | run store => 0 done\ndone\ndone\ndone\ndone\n\ndone\none|two|three|\n | calls 22 | room 0 | input open\n{one}\n{two}\n{three}\nclose\ncrash={turn}=new\nopen\n{posts} | run store => 0 done\ndone\ndone\ndone\ndone\n\ndone\none|two|three|\n | calls 22 | room 0 | input open\n{one}\n{two}\n{three}\nclose\ncrash={turn}=0\nopen\n{posts} | run store => 0 done\ndone\ndone\ndone\ndone\n\ndone\none|two|three|\n | calls 22 | room 0 | input open\n{one}\n{two}\n{three}\nclose\ncrash={turn}=1\nopen\n{posts} | run store => 0 done\ndone\ndone\ndone\ndone\n\ndone\none|two|three|\n | calls 22 | room 0 | input open\n{one}\n{two}\n{three}\nclose\ncrash={turn}=7\nopen\n{posts} | run store => 0 done\ndone\ndone\ndone\ndone\n\ndone\none|two|three|\n
# After a failed call the site is opened again.
turns 1 2 | put log \0 | calls 60 | room 0 | fail | input open\nopen\n{posts} | run store => 0 the disk failed\ndone\n-|-|-|\n
turns 3 5 | put log \0 | calls 60 | room 0 | fail | input open\n{one}\nopen\n{posts} | run store => 0 done\nthe disk failed\ndone\n-|-|-|\n
put log \0 | calls 60 | room 0 | fail 6 | input open\n{one}\nopen\n{posts} | run store => 0 done\nthe disk failed\ndone\none|-|-|\n
turns 7 9 | put log \0 | calls 60 | room 0 | fail | input open\n{one}\n{two}\nopen\n{posts} | run store => 0 done\ndone\nthe disk failed\ndone\none|-|-|\n
put log \0 | calls 60 | room 0 | fail 10 | input open\n{one}\n{two}\nopen\n{posts} | run store => 0 done\ndone\nthe disk failed\ndone\none|two|-|\n
turns 11 13 | put log \0 | calls 60 | room 0 | fail | input open\n{one}\n{two}\n{three}\nopen\n{posts} | run store => 0 done\ndone\ndone\nthe disk failed\ndone\none|two|-|\n
put log \0 | calls 60 | room 0 | fail 14 | input open\n{one}\n{two}\n{three}\nopen\n{posts} | run store => 0 done\ndone\ndone\nthe disk failed\ndone\none|two|three|\n
turns 15 22 | put log \0 | calls 60 | room 0 | fail | input open\n{one}\n{two}\n{three}\nclose\nopen\n{posts} | run store => 0 done\ndone\ndone\ndone\nthe disk failed\ndone\none|two|three|\n
# A long record is laid down at once.
put log \0 | calls 16 | room 0 | input open\ncommit=9.1={1..9000000:7}\nread_log\nread=9.1 | run store => 0 done\ndone\n\0\n{1..9000000:7}\n
# What is given goes on to the site, and a closing without commits makes no call.
put log \0 | calls 6 | room 9 | fail 4 | input open\ngive=ab\ngive=cd\ngive=e\nclose\noutput | run store => 0 done\ndone\nfailed\ndone\ndone\nabe\n
# An empty txn makes no call.
put log \0 | calls 2 | room 0 | input open\ncommit\nclose | run store => 0 done\ndone\ndone\n
# A record is written.
put log \0 | calls 20 | room 0 | input open\ncommit=3.29=Ta@b\0=21.0=-\nread_log | run store => 0 done\ndone\n\x0128:W1:3,2:29,5:Ta@b\0,X2:21,1:0,,\0\n
# A txn that is lent is committed as one that is given.
put log \0 | calls 7 | room 0 | input open\nlend=3.29=Ta@b\0=21.0=-\nread_log | run store => 0 done\ndone\n\x0128:W1:3,2:29,5:Ta@b\0,X2:21,1:0,,\0\n
# An empty txn that is lent makes no call.
put log \0 | calls 2 | room 0 | input open\nlend\nclose | run store => 0 done\ndone\ndone\n
# A record of 64 KiB is one write.
put log \0 | calls 7 | room 0 | input open\ncommit=9.1={1..65512:7}\nread_log | run store => 0 done\ndone\n\x0165528:W1:9,1:1,65512:{1..65512:7},,\0\n
# A longer record is more writes.
put log \0 | calls 9 | room 0 | input open\ncommit=9.1={1..65513:7}\nread_log | run store => 0 done\ndone\n\x0165529:W1:9,1:1,65513:{1..65513:7},,\0\n
# A content of a byte less than 64 KiB is a write of its own.
put log \0 | calls 9 | room 0 | input open\ncommit=9.1={1..65535:7}\nread_log | run store => 0 done\ndone\n\x0165551:W1:9,1:1,65535:{1..65535:7},,\0\n
# A content of 64 KiB is a write of its own.
put log \0 | calls 9 | room 0 | input open\ncommit=9.1={1..65536:7}\nread_log | run store => 0 done\ndone\n\x0165552:W1:9,1:1,65536:{1..65536:7},,\0\n
# A content of a byte more than 64 KiB is a write of its own.
put log \0 | calls 9 | room 0 | input open\ncommit=9.1={1..65537:8}\nread_log | run store => 0 done\ndone\n\x0165553:W1:9,1:1,65537:{1..65537:8},,\0\n
# Two long contents are five writes.
put log \0 | calls 11 | room 0 | input open\ncommit=9.1={1..65536:7}=9.2={1..65537:8}\nread_log | run store => 0 done\ndone\n\x01131105:W1:9,1:1,65536:{1..65536:7},W1:9,1:2,65537:{1..65537:8},,\0\n
# A failed write of a long content leaves the old directory.
turns 3 7 | put log \0 | calls 60 | room 0 | fail | input open\ncommit=9.1={1..65536:7}\nopen\n{posts} | run store => 0 done\nthe disk failed\ndone\n-|-|-|\n
put log \0 | calls 60 | room 0 | fail 8 | input open\ncommit=9.1={1..65536:7}\nopen\nread=9.1 | run store => 0 done\nthe disk failed\ndone\n{1..65536:7}\n
# A failed write of two long contents leaves the old directory.
turns 3 9 | put log \0 | calls 60 | room 0 | fail | input open\ncommit=9.1={1..65536:7}=9.2={1..65537:8}\nopen\n{posts} | run store => 0 done\nthe disk failed\ndone\n-|-|-|\n
put log \0 | calls 60 | room 0 | fail 10 | input open\ncommit=9.1={1..65536:7}=9.2={1..65537:8}\nopen\nread=9.1\nread=9.2 | run store => 0 done\nthe disk failed\ndone\n{1..65536:7}\n{1..65537:8}\n
# A crash leaves two long contents whole or not at all.
turns 3 8 | put log \0 | calls 10 | room 0 | input open\ncommit=9.1={1..65536:7}=9.2={1..65537:8}\ncrash={turn}=new\nopen\n{posts} | run store => 0 done\ndone\n\ndone\n-|-|-|\n | calls 10 | room 0 | input open\ncommit=9.1={1..65536:7}=9.2={1..65537:8}\ncrash={turn}=1\nopen\n{posts} | run store => 0 done\ndone\n\ndone\n-|-|-|\n
put log \0 | calls 10 | room 0 | input open\ncommit=9.1={1..65536:7}=9.2={1..65537:8}\ncrash=9=old\nopen\n{posts} | run store => 0 done\ndone\n\ndone\n-|-|-|\n | calls 10 | room 0 | input open\ncommit=9.1={1..65536:7}=9.2={1..65537:8}\ncrash=9=0\nopen\n{posts} | run store => 0 done\ndone\n\ndone\n-|-|-|\n | calls 10 | room 0 | input open\ncommit=9.1={1..65536:7}=9.2={1..65537:8}\ncrash=9=7\nopen\n{posts} | run store => 0 done\ndone\n\ndone\n-|-|-|\n
put log \0 | calls 10 | room 0 | input open\ncommit=9.1={1..65536:7}=9.2={1..65537:8}\ncrash=9=new\nopen\nread=9.1\nread=9.2 | run store => 0 done\ndone\n\ndone\n{1..65536:7}\n{1..65537:8}\n | calls 10 | room 0 | input open\ncommit=9.1={1..65536:7}=9.2={1..65537:8}\ncrash=9=1\nopen\nread=9.1\nread=9.2 | run store => 0 done\ndone\n\ndone\n{1..65536:7}\n{1..65537:8}\n
put log \0 | calls 10 | room 0 | input open\ncommit=9.1={1..65536:7}=9.2={1..65537:8}\ncrash=10=old\nopen\nread=9.1\nread=9.2 | run store => 0 done\ndone\n\ndone\n{1..65536:7}\n{1..65537:8}\n | calls 10 | room 0 | input open\ncommit=9.1={1..65536:7}=9.2={1..65537:8}\ncrash=10=new\nopen\nread=9.1\nread=9.2 | run store => 0 done\ndone\n\ndone\n{1..65536:7}\n{1..65537:8}\n | calls 10 | room 0 | input open\ncommit=9.1={1..65536:7}=9.2={1..65537:8}\ncrash=10=0\nopen\nread=9.1\nread=9.2 | run store => 0 done\ndone\n\ndone\n{1..65536:7}\n{1..65537:8}\n | calls 10 | room 0 | input open\ncommit=9.1={1..65536:7}=9.2={1..65537:8}\ncrash=10=1\nopen\nread=9.1\nread=9.2 | run store => 0 done\ndone\n\ndone\n{1..65536:7}\n{1..65537:8}\n | calls 10 | room 0 | input open\ncommit=9.1={1..65536:7}=9.2={1..65537:8}\ncrash=10=7\nopen\nread=9.1\nread=9.2 | run store => 0 done\ndone\n\ndone\n{1..65536:7}\n{1..65537:8}\n
";

#[test]
fn stores_answer_so(rt: HostRuntime) -> Result<(), Fail> {
    hold::<Disk>(rt.alloc(), "stores", TABLE)
}

#[test]
fn errors_are_told_in_words(rt: HostRuntime) -> Result<(), Fail> {
    let alloc = rt.alloc();
    let (damaged, fault) = (OpenError::Damaged, OpenError::Fault);
    let came = format!(in alloc; "{damaged}; {fault}; {}", CommitError::Memory)?;
    same(
        alloc,
        "errors",
        0,
        came.as_bytes(),
        b"the log is damaged; the disk failed; out of memory",
    )
}
