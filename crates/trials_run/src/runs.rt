// Runs over a list, and the files that they leave.
use crate::program::Calls;
use std::test::Fail;
use trials_scripts::hold;

// Steps over a list, beginning with nothing. `rekeyed` are the new key, the former one, and the moment of the change, which is 0x3b9acb2c,
// and `rekeyed_twice` the same after the second change, whose moment is 0x3baa0d6d.
const RUNS: &str = r"
let rekeyed {1..32:\xFF}\0\x01\x02\x03\x04\x05\x06\x07\x08\x09\n\x0B\x0C\x0D\x0E\x0F\x10\x11\x12\x13\x14\x15\x16\x17\x18\x19\x1A\x1B\x1C\x1D\x1E\x1F\0\0\0\0;\x9A\xCB,
let rekeyed_twice {1..32:\0}{1..32:\xFF}\0\0\0\0;\xAA\x0Dm
let config flags BDFGHJKLMpRSTU\nlocal list\nhost ex.org\nowner o@own.org\nprefix \nmax 1048576\n
let four A1:1,10:1000000000,4:list,3:a@b,A1:2,10:1000000000,4:list,3:c@d,A1:3,10:1000000000,4:list,3:e@f,A1:4,10:1000000000,4:list,3:a@5,
# A new list.
run make => 0 made list@ex.org\n | has config {config} | has key \0\x01\x02\x03\x04\x05\x06\x07\x08\x09\n\x0B\x0C\x0D\x0E\x0F\x10\x11\x12\x13\x14\x15\x16\x17\x18\x19\x1A\x1B\x1C\x1D\x1E\x1F | has counts/digest 0\n | has counts/allow 0\n | has counts/deny 0\n | has counts/mod 0\n | has num 0\n | has dig 0:0\n | has tickets 1:1\n | has ids 1:1\n | has counts/list 0\n | files 11 | has log \0
# A list that is there.
run make => 0 made list@ex.org\n | run make => 100 - 100 there\n
# A list with a damaged configuration is there.
run make => 0 made list@ex.org\n | put config x | run make => 100 - 100 there\n
# No list.
input A1:7,10:1000000000,4:list,3:a@b, | run spool => 75 - 75 nolist\n0 answered
# A member is stored once.
run make => 0 made list@ex.org\n | input A1:7,10:1000000000,4:list,3:a@b, | run spool => 0 7 0 subscribed\n1 answered | has subscribers/] layout 2\nTa@b\01000000000\0 | has counts/list 1\n | has log \0 | input A1:8,10:1000000001,4:list,3:A@B, | run spool => 0 8 0 already\n1 answered | has subscribers/] layout 2\nTa@b\01000000000\0 | has counts/list 1\n | has log \0
# Each set has members of its own.
run make => 0 made list@ex.org\n | input A1:1,10:1000000000,4:list,3:a@l,A1:2,10:1000000000,6:digest,3:a@d,A1:3,10:1000000000,5:allow,3:a@a,A1:4,10:1000000000,4:deny,3:a@n,A1:5,10:1000000000,3:mod,3:a@m,R1:6,10:1000000000,5:allow,3:A@A, | run spool => 0 1 0 subscribed\n2 0 subscribed\n3 0 subscribed\n4 0 subscribed\n5 0 subscribed\n6 0 unsubscribed\n6 answered | has counts/list 1\n | has counts/digest 1\n | has counts/allow 0\n | has counts/deny 1\n | has counts/mod 1\n | has log \0
# A bucket without its end.
run make => 0 made list@ex.org\n | put subscribers/] Ta@b | input A1:7,10:1000000000,4:list,3:a@b, | run spool => 75 7 75 subscribers/]\n0 answered
# An empty bucket.
run make => 0 made list@ex.org\n | put subscribers/]  | input A1:7,10:1000000000,4:list,3:a@b, | run spool => 75 7 75 subscribers/]\n0 answered
# A count above the most.
run make => 0 made list@ex.org\n | put counts/list 100001\n | input A1:7,10:1000000000,4:list,3:a@b, | run spool => 75 7 75 counts/list\n0 answered
# A damaged configuration.
run make => 0 made list@ex.org\n | put config flags\n | input A1:7,10:1000000000,4:list,3:a@b, | run spool => 75 - 75 config\n0 answered
# A floor of 1.
run make => 0 made list@ex.org\n | put floor 1\n | input A1:7,10:1000000000,4:list,3:a@b, | run spool => 75 7 75 floor\n0 answered
# A bucket of the set allow.
run make => 0 made list@ex.org\n | put allow/subscribers/] a@b\0 | input R1:7,10:1000000000,5:allow,3:a@b, | run spool => 75 7 75 allow/subscribers/]\n0 answered
# Kept replies of 4,607 bytes.
run make => 0 made list@ex.org\n | put done/0 {0..4606:\0} | input A1:5,10:1000000000,4:list,3:a@b, | run spool => 75 5 75 done/0\n0 answered
# Kept replies of 4,608 bytes.
run make => 0 made list@ex.org\n | put done/0 {0..4607:\0} | input A1:5,10:1000000000,4:list,3:a@b, | run spool => 0 5 0 subscribed\n1 answered
# A key is replaced after its time.
run make => 0 made list@ex.org\n | input K2:33,10:1000000300,64:{1..64:f}, | run spool => 0 33 0 rekeyed\n1 answered | has key {rekeyed} | has log \0 | input K2:35,10:1001000300,64:{1..64:0}, | run spool => 100 35 100 toosoon\n1 answered | has key {rekeyed} | has log \0 | input K2:36,10:1001000301,64:{1..64:0}, | run spool => 0 36 0 rekeyed\n1 answered | has key {rekeyed_twice} | has log \0
# Numbers below the floor are refused.
run make => 0 made list@ex.org\n | input A1:7,10:1000000000,4:list,3:a@b, | run spool => 0 7 0 subscribed\n1 answered | input A1:8,10:1000000001,4:list,3:A@B, | run spool => 0 8 0 already\n1 answered | input F2:90,10:1000000500,2:50, | run spool => 0 90 0 floored 50\n1 answered | input A1:7,10:1000000000,4:list,3:a@b, | run spool => 100 7 100 stale\n1 answered | input F2:90,10:1000000500,2:50, | run spool => 0 90 0 floored 50\n1 answered | input F2:91,10:1000000501,2:20, | run spool => 0 91 0 floored 50\n1 answered | input F2:92,10:1000000502,3:100, | run spool => 100 92 100 badfloor\n1 answered | input F1:0,10:1000000503,6:600000, | run spool => 100 0 100 badfloor\n1 answered | has subscribers/] layout 2\nTa@b\01000000000\0 | has counts/list 1\n | has floor 50\n | has log \0
# Floors hold within a batch.
run make => 0 made list@ex.org\n | input A1:7,10:1000000000,4:list,3:a@b,A1:8,10:1000000001,4:list,3:A@B,F2:90,10:1000000500,2:50,A1:7,10:1000000000,4:list,3:a@b,F2:90,10:1000000500,2:50,F2:91,10:1000000501,2:20,F2:92,10:1000000502,3:100,F1:0,10:1000000503,6:600000, | run spool => 100 7 0 subscribed\n8 0 already\n90 0 floored 50\n7 100 stale\n90 0 floored 50\n91 0 floored 50\n92 100 badfloor\n0 100 badfloor\n8 answered | has subscribers/] layout 2\nTa@b\01000000000\0 | has counts/list 1\n | has floor 50\n | has log \0
# A bucket without moments is written with them, and a repeat changes only its kept reply.
run make => 0 made list@ex.org\n | put subscribers/] Ta@b\0 | put counts/list 1\n | input A2:70,10:1000000400,4:list,3:a@5, | run spool => 0 70 0 subscribed\n1 answered | has config {config} | has key \0\x01\x02\x03\x04\x05\x06\x07\x08\x09\n\x0B\x0C\x0D\x0E\x0F\x10\x11\x12\x13\x14\x15\x16\x17\x18\x19\x1A\x1B\x1C\x1D\x1E\x1F | has counts/digest 0\n | has counts/allow 0\n | has counts/deny 0\n | has counts/mod 0\n | has num 0\n | has dig 0:0\n | has tickets 1:1\n | has ids 1:1\n | has subscribers/] layout 2\nTa@5\01000000400\0Ta@b\00\0 | has counts/list 2\n | files 13 | has log \0 | input A2:71,10:1000000500,4:list,3:A@5, | run spool => 0 71 0 already\n1 answered | has config {config} | has key \0\x01\x02\x03\x04\x05\x06\x07\x08\x09\n\x0B\x0C\x0D\x0E\x0F\x10\x11\x12\x13\x14\x15\x16\x17\x18\x19\x1A\x1B\x1C\x1D\x1E\x1F | has counts/digest 0\n | has counts/allow 0\n | has counts/deny 0\n | has counts/mod 0\n | has num 0\n | has dig 0:0\n | has tickets 1:1\n | has ids 1:1\n | has subscribers/] layout 2\nTa@5\01000000400\0Ta@b\00\0 | has counts/list 2\n | files 13
# A number counts once in a batch.
run make => 0 made list@ex.org\n | input {10..24:A2:%,10:1000000000,4:list,4:b@%,}A2:12,10:1000000000,4:list,4:b@99, | run spool => 0 {10..24:% 0 subscribed\n}12 0 subscribed\n16 answered | has counts/list 15\n
# 15 items.
run make => 0 made list@ex.org\n | input {10..24:A2:%,10:1000000000,4:list,4:b@%,} | run spool => 0 {10..24:% 0 subscribed\n}15 answered | has counts/list 15\n
# 16 items.
run make => 0 made list@ex.org\n | input {10..25:A2:%,10:1000000000,4:list,4:b@%,} | run spool => 0 {10..25:% 0 subscribed\n}16 answered | has counts/list 16\n
# 17 items.
run make => 0 made list@ex.org\n | input {10..26:A2:%,10:1000000000,4:list,4:b@%,} | run spool => 0 {10..26:% 0 subscribed\n}17 answered | has counts/list 17\n
# 33 items.
run make => 0 made list@ex.org\n | input {10..42:A2:%,10:1000000000,4:list,4:b@%,} | run spool => 0 {10..42:% 0 subscribed\n}33 answered | has counts/list 33\n
# A set takes 100,000 members and nobody more, until one leaves.
run make => 0 made list@ex.org\n | run members 99840 => 0 | input {199840..199999:A1:0,10:1000000000,4:list,8:%@b,} | run spool => 0 {0..159:0 0 subscribed\n}160 answered | input A1:0,10:1000000000,4:list,3:a@b,A1:0,10:1000000000,4:list,8:100007@B,R1:0,10:1000000000,4:list,8:100008@B,A1:0,10:1000000000,4:list,3:a@b,A1:0,10:1000000000,4:list,3:c@d, | run spool => 100 0 100 full\n0 0 already\n0 0 unsubscribed\n0 0 subscribed\n0 100 full\n5 answered | has counts/list 100000\n
# Items before a damaged file are answered.
run make => 0 made list@ex.org\n | put subscribers/W T | input {four} | run spool => 75 1 0 subscribed\n2 0 subscribed\n3 75 subscribers/W\n2 answered | has subscribers/] layout 2\nTa@b\01000000000\0 | has subscribers/L layout 2\nTc@d\01000000000\0 | has subscribers/W T | has counts/list 2\n | has log \0
";

// Limits for the length of the longest log that a run of these many neighbours leaves at any instant. A file of kept replies has 4,608 bytes, and
// sixteen buckets of one member each have fewer than 100 with their names, and each file is put once.
const LOGS: &str = r"
run make => 0 made list@ex.org\n | input {10..25:A2:%,10:1000000000,4:list,4:b@%,} | run longest 4608 6208 => 0 between
run make => 0 made list@ex.org\n | input {10..26:A2:%,10:1000000000,4:list,4:b@%,} | run longest 9216 12416 => 0 between
";

#[test]
fn runs_end_and_leave_so(rt: HostRuntime) -> Result<(), Fail> {
    hold::<Calls>(rt.alloc(), "runs", RUNS)
}

#[test]
fn a_batch_puts_each_file_once(rt: HostRuntime) -> Result<(), Fail> {
    hold::<Calls>(rt.alloc(), "logs", LOGS)
}
