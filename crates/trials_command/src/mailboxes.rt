// Commands that give posts as a mailbox, and commands that make a stream of a mailbox.
use crate::program::Whole;
use std::test::Fail;
use trials_scripts::hold;

// A list of two posts; the second has lines like the first one of a mail.
const OUT: &str = r"
let disk 111 - 111 disk\n
let num 75 - 75 num\n
let index 75 - 75 archive/0/index\n
let fields List-Post: <mailto:list@ex.org>\nList-Help: <mailto:list-help@ex.org>\nList-Unsubscribe: <mailto:list-unsubscribe@ex.org>\nList-Subscribe: <mailto:list-subscribe@ex.org>\n
let front Mailing-List: contact list-help@ex.org; run by ezmlm\nPrecedence: bulk\n{fields}Delivered-To: mailing list list@ex.org\n
let hello From: a@b\nTo: list@ex.org\nSubject: hello\n\nhi\n
let two From: c@d\nTo: list@ex.org\nSubject: two\n\n
let posts D2:20,10:1000000100,3:a@b,11:list@ex.org,45:{hello},D2:21,10:1000000101,3:c@d,11:list@ex.org,65:{two}From x\n>From x\n>>>From x\n,
let first From a@b Sun Sep  9 01:48:20 2001\n{front}{hello}\n
let second From c@d Sun Sep  9 01:48:21 2001\n{front}{two}>From x\n>>From x\n>>>>From x\n\n
list run make --key 000102030405060708090a0b0c0d0e0f101112131415161718191a1b1c1d1e1f list ex.org o@own.org => 0 made list@ex.org\n | input {posts} | run spool => 0 20 0 posted 1\n21 0 posted 2\n | at never | input hello\n
run mbox 1 1 => 0 {first} | same | unread 6
run mbox 2 2 => 0 {second} | same
run mbox 1 2 => 0 {first}{second} | same
run mbox 1 99999999 => 0 {first}{second} | same
run mbox 2 99999999 => 0 {second} | same
# Ranges without posts.
run mbox 3 99999999 => 0 | same
run mbox 5 4 => 0 | same
run mbox 2 1 => 0 | same
run mbox 99999999 1 => 0 | same
# The store is opened by the calls 1 and 2, and the configuration is read by 3. Then come the number of posts, the index once, and the posts. The last
# call gives the text.
turns 1 7 | fail | run mbox 1 2 => {disk} | same | has log \0
fail 8 | run mbox 1 2 => 73 | same
fail 9 | run mbox 1 2 => 0 {first}{second} | same
turns 1 4 | fail | run mbox 5 4 => {disk} | same
room 355 | run mbox 1 1 => 73
room 356 | run mbox 1 1 => 0 {first}
# Damaged files.
put num x | run mbox 1 1 => {num} | same
put num x | run mbox 5 4 => {num} | same
put num 3\n | run mbox 1 3 => {num} | same
put num 3\n | run mbox 1 2 => 0 {first}{second} | same
put num 1\n | run mbox 1 2 => 0 {first} | same
drop archive/0/index | run mbox 1 1 => {num} || {index} | same
put archive/0/index x | run mbox 1 1 => {index} | same
put archive/0/index x | run mbox 3 9 => 0 | same
drop archive/0/02 | run mbox 1 2 => {index} | same
drop archive/0/02 | run mbox 1 1 => 0 {first} | same
put archive/0/01 hi\n | run mbox 1 1 => {index} | same
put config  | run mbox 1 1 => 75 - 75 config\n | same
drop config | run mbox 1 1 => 75 - 75 nolist\n | same
# Neither the list nor a clock is there.
list at never | input hello\n
run mbox 1 1 => 75 - 75 nolist\n | unread 6
run mbox => 64 - 64 usage\n
run mbox 1 => 64 - 64 usage\n
run mbox 1 1 1 => 64 - 64 usage\n
run mbox 0 1 => 65 - 65 words\n
run mbox 1 0 => 65 - 65 words\n
run mbox 1 100000000 => 65 - 65 words\n
run mbox 01 1 => 65 - 65 words\n
run mbox 1 '' => 65 - 65 words\n
fail 1 | run mbox 1 1 => {disk}
";

#[test]
fn posts_go_out_as_a_mailbox(rt: HostRuntime) -> Result<(), Fail> {
    hold::<Whole>(rt.alloc(), "mailboxes out", OUT)
}

// A mailbox of one post, 356 bytes, and its delivery, whose message has 229. Of several faults the one that is met first is reported.
const IN: &str = r"
let disk 111 - 111 disk\n
let clock 69 - 69 clock\n
let input 74 - 74 input\n
let bad 65 - 65 bad 0\n
let long 65 - 65 long\n
let words 65 - 65 words\n
let fields List-Post: <mailto:list@ex.org>\nList-Help: <mailto:list-help@ex.org>\nList-Unsubscribe: <mailto:list-unsubscribe@ex.org>\nList-Subscribe: <mailto:list-subscribe@ex.org>\n
let hello From: a@b\nTo: list@ex.org\nSubject: hello\n\nhi\n
let post Mailing-List: contact list-help@ex.org; run by ezmlm\nPrecedence: bulk\n{fields}Delivered-To: mailing list list@ex.org\n{hello}
let box From a@b Sun Sep  9 01:48:20 2001\n{post}\n
let stream D3:900,10:1000000500,3:a@b,11:list@ex.org,229:Precedence: bulk\n{fields}{hello},
list run make --key 000102030405060708090a0b0c0d0e0f101112131415161718191a1b1c1d1e1f list ex.org o@own.org => 0 made list@ex.org\n | at 1000000500 | input {box}
run import 900 => 0 {stream} | unread 0 | same
# The stream posts it, as it was, and counts once.
input {stream} | run spool => 0 900 0 posted 1\n | run show 1 => 0 {post}
then input {stream} | run spool => 0 900 0 posted 1\n | run show 2 => 100 - 100 absent\n
then run mbox 1 1 => 0 From a@b Sun Sep  9 01:55:00 2001\n{post}\n
input {box}{box} | run import 999900000000 => 0 D12:999900000000,10:1000000500,3:a@b,11:list@ex.org,229:Precedence: bulk\n{fields}{hello},D12:999900000001,10:1000000500,3:a@b,11:list@ex.org,229:Precedence: bulk\n{fields}{hello},
input From x\nS: t\n\n>From x\n>>From x\n\n | run import 1 => 0 D1:1,10:1000000500,1:x,11:list@ex.org,21:S: t\n\nFrom x\n>From x\n,
input From \n\nFrom  y\n | run import 1 => 0 D1:1,10:1000000500,0:,11:list@ex.org,1:\n,D1:2,10:1000000500,0:,11:list@ex.org,1:\n,
# A mailbox without mails gives nothing.
input  | run import 900 => 0 | same
input \n\n\n | run import 900 => 0 | same
# The input comes in one read, and its end in another.
at never | run import 900 => {clock} | unread 356 | same
read 1 | run import 900 => {input} | unread 356 | same
read 2 | run import 900 => {input} | unread 0 | same
read 3 | run import 900 => 0 {stream} | same
input hello\n | run import 900 => {bad} | same
input \x0D\x0D\n{box} | run import 900 => {bad} | same
input \x0D\n\n\x0D\n{box} | run import 900 => 0 {stream} | same
input \x0D\n\n\x0D\n | run import 900 => 0 | same
# The store is opened by the calls 1 and 2, the configuration is read by 3, and 4 gives the text or the line.
turns 1 3 | fail | run import 900 => {disk} | same | has log \0
fail 4 | run import 900 => 73 | same
fail 5 | run import 900 => 0 {stream} | same
fail 1 | input hello\n | run import 900 => 73 | same
# A message that is one byte too long, after one that isn't.
input {box}From a@b\n\n{1..33554432:x} | run import 900 => {long} | same
# No file is read but the configuration.
put num x | run import 900 => 0 {stream} | same
put config  | run import 900 => 75 - 75 config\n | same
put config  | input hello\n | run import 900 => {bad} | same
drop config | run import 900 => 75 - 75 nolist\n | same
# Neither the list nor a clock is there.
list at never | input {box}
run import 900 => {clock} | unread 356
run import 0 => {words} | unread 356
run import 01 => {words}
run import 999900000001 => {words}
run import '' => {words}
run import => 64 - 64 usage\n
run import 1 1 => 64 - 64 usage\n
at 1000000500 | read 1 | run import 900 => {input}
at 1000000500 | input hello\n | run import 900 => {bad}
at 1000000500 | run import 900 => 75 - 75 nolist\n
fail 1 | run import 900 => 73
at 1000000500 | fail 1 | run import 900 => {disk}
";

#[test]
fn a_mailbox_comes_in_as_a_stream(rt: HostRuntime) -> Result<(), Fail> {
    hold::<Whole>(rt.alloc(), "mailboxes in", IN)
}
