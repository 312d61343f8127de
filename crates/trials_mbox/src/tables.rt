// The rows: calls, and what each of them answers, written by hand.
use crate::program::Mailboxes;
use ml_mbox::{law_mails, law_mbox, law_quotes};
use ml_mbox_questions::{law_import, law_importing};
use std::test::Fail;
use trials_scripts::hold;

// Texts, and the mails that are read from them.
const READING: &str = r"
# Nothing, and only empty lines.
run read => 0
input \n | run read => 0
input \n\n\n | run read => 0
input \x0D\n\n\x0D\n | run read => 0
input \n\x0D | run read => 0
# No mailbox.
input hello\n | run read => 0 none
input \nhello\n | run read => 0 none
input From | run read => 0 none
input from a@b\n | run read => 0 none
input \x20From a@b\n | run read => 0 none
input >From a@b\n | run read => 0 none
input \x0DFrom a@b\n | run read => 0 none
input \x0D\x0D\nFrom a@b\n | run read => 0 none
input \x0D\n \x0D\nFrom a@b\n | run read => 0 none
# Empty lines at the front.
input \n\nFrom a@b x\nhi\n\n | run read => 0 3:a@b,3:hi\n,
input \x0D\nFrom a@b\n | run read => 0 3:a@b,0:,
input \x0D\n\n\x0D\nFrom a@b x\x0D\nhi\x0D\n | run read => 0 3:a@b,4:hi\x0D\n,
# First lines.
input From\x20 | run read => 0 0:,0:,
input From \n | run read => 0 0:,0:,
input From  x\nhi\n | run read => 0 0:,3:hi\n,
input From a@b | run read => 0 3:a@b,0:,
input From a@b\nhi\n | run read => 0 3:a@b,3:hi\n,
input From a@b x From y\nhi\n | run read => 0 3:a@b,3:hi\n,
input From a@b   x  y  \nhi\n | run read => 0 3:a@b,3:hi\n,
input From a@b\x0D\nhi\x0D\n\x0D\n | run read => 0 4:a@b\x0D,6:hi\x0D\n\x0D\n,
input From a\0b x\n\0\n | run read => 0 3:a\0b,2:\0\n,
# One empty line is taken off at the end, and no other.
input From a x\n\n | run read => 0 1:a,0:,
input From a x\n\n\n | run read => 0 1:a,1:\n,
input From a x\nhi | run read => 0 1:a,2:hi,
input From a x\nhi\n\n\n | run read => 0 1:a,4:hi\n\n,
input From a x\nhi\n \n | run read => 0 1:a,5:hi\n \n,
# More than one mail.
input From a x\nFrom b y\n | run read => 0 1:a,0:,1:b,0:,
input From a x\nhi\nFrom b y\nho\n | run read => 0 1:a,3:hi\n,1:b,3:ho\n,
input From a x\nhi\n\nFrom b y\nho\n\n | run read => 0 1:a,3:hi\n,1:b,3:ho\n,
input From a x\nhi\n\n\nFrom b y\n\n | run read => 0 1:a,4:hi\n\n,1:b,0:,
input From a x\nhi\nFromb y\nFrom | run read => 0 1:a,15:hi\nFromb y\nFrom,
input From a x\nhi\n From b y\n | run read => 0 1:a,13:hi\n From b y\n,
# One `>` is taken off.
input From a x\n>From x\n>>From x\n | run read => 0 1:a,15:From x\n>From x\n,
input From a x\n>>>From\x20 | run read => 0 1:a,7:>>From ,
input From a x\n> From x\n>Fromx\n>\n>>\n | run read => 0 1:a,21:> From x\n>Fromx\n>\n>>\n,
input From a x\nS: t\n>From y\n\nz >From y\n | run read => 0 1:a,23:S: t\nFrom y\n\nz >From y\n,
input From a x\n>From x\x0D\n | run read => 0 1:a,8:From x\x0D\n,
# A sender of more than 1,000 bytes is left out.
input From {1..999:s} x\nhi\n | run read => 0 999:{1..999:s},3:hi\n,
input From {1..1000:s} x\nhi\n | run read => 0 1000:{1..1000:s},3:hi\n,
input From {1..1001:s} x\nhi\n | run read => 0 0:,3:hi\n,
input From {1..5000:s} x\nhi\n | run read => 0 0:,3:hi\n,
# Mails come one at a time.
run senders => 0
input hello | run senders => 0 no
input \nFrom a x\n\nFrom b\nhi\nFrom c | run senders => 0 abc
input From  x\nFrom b | run senders => 0 b
";

// Mails written into mailboxes, and mails as deliveries.
const WRITING: &str = r"
# Dates, as C's asctime has them.
at 0 | run date => 0 Thu Jan  1 00:00:00 1970
at 951782400 | run date => 0 Tue Feb 29 00:00:00 2000
at 1000000100 | run date => 0 Sun Sep  9 01:48:20 2001
at 1700000000 | run date => 0 Tue Nov 14 22:13:20 2023
at 4107542400 | run date => 0 Mon Mar  1 00:00:00 2100
# After its first line a mail has its message, whose lines are quoted.
let line From a@b Sun Sep  9 01:48:20 2001\n
list at 1000000100
run written => 0 {line}\n\n
input \n | run written => 0 {line}\n\n
input hi | run written => 0 {line}hi\n\n
input hi\n | run written => 0 {line}hi\n\n
input From x\n>From x\n | run written => 0 {line}>From x\n>>From x\n\n
input S: t\nFrom x\n\nFrom x | run written => 0 {line}S: t\n>From x\n\n>From x\n\n
input \x20From x\nFromx\nfrom x\n>\n>>>From \n | run written => 0 {line}\x20From x\nFromx\nfrom x\n>\n>>>>From \n\n
input hi\x0D\nFrom x\x0D\n\x0D\n | run written => 0 {line}hi\x0D\n>From x\x0D\n\x0D\n\n
input \n\n\n | run written => 0 {line}\n\n\n\n
let fields Precedence: bulk\nList-Post: <mailto:list@ex.org>\nList-Help: <mailto:list-help@ex.org>\nList-Unsubscribe: <mailto:list-unsubscribe@ex.org>\nList-Subscribe: <mailto:list-subscribe@ex.org>\n
let message From: a@b\nTo: list@ex.org\nSubject: hello\n\nhi\n
let post Mailing-List: contact list-help@ex.org; run by ezmlm\n{fields}Delivered-To: mailing list list@ex.org\n{message}
let delivered {fields}{message}
let to 3:a@b,11:list@ex.org,
# A mail is delivered without what the list puts in.
input {post} | run delivery => 0 {to}229:{delivered},
run delivery => 0 {to}1:\n,
input hi\n | run delivery => 0 {to}4:\nhi\n,
input S: t\nDELIVERED-TO: x\n y\nmailing-list:z | run delivery => 0 {to}6:S: t\n\n,
input S: t\nX: Mailing-List: y | run delivery => 0 {to}25:S: t\nX: Mailing-List: y\n\n,
input S: t\n\nMailing-List: y\n | run delivery => 0 {to}22:S: t\n\nMailing-List: y\n,
input \x20S: t\nMailing-List: y\n | run delivery => 0 {to}23:\n S: t\nMailing-List: y\n,
# A post goes out and comes in again.
input {post} | run mailbox => 0 {line}{post}\n | input {line}{post}\n | run deliveries => 0 {to}229:{delivered},
";

// What words name.
const WORDS: &str = r"
# The first and the last post that two words name.
run posts 1 1 => 0 1 1
run posts 5 4 => 0 5 4
run posts 1 99999999 => 0 1 99999999
run posts 99999999 1 => 0 99999999 1
run posts 0 1 => 0 none
run posts 1 0 => 0 none
run posts 1 100000000 => 0 none
run posts 100000000 1 => 0 none
run posts 01 1 => 0 none
run posts 1 '' => 0 none
run posts 1 1\x20 => 0 none
run posts -1 1 => 0 none
# Whether a word is the number of the first item of an import.
run first 1 => 0 true
run first 900 => 0 true
run first 999900000000 => 0 true
run first 999900000001 => 0 false
run first 0 => 0 false
run first 0900 => 0 false
run first '' => 0 false
run first 9x => 0 false
";

// Posts of an archive as a mailbox.
const ARCHIVES: &str = r"
let line From a@b Sun Sep  9 01:48:20 2001\n
let fields Precedence: bulk\nList-Post: <mailto:list@ex.org>\nList-Help: <mailto:list-help@ex.org>\nList-Unsubscribe: <mailto:list-unsubscribe@ex.org>\nList-Subscribe: <mailto:list-subscribe@ex.org>\n
let message From: a@b\nTo: list@ex.org\nSubject: hello\n\nhi\n
let post Mailing-List: contact list-help@ex.org; run by ezmlm\n{fields}Delivered-To: mailing list list@ex.org\n{message}
let mailbox {line}{post}\n
let x From a@b Thu Jan  1 00:00:00 1970\nx\n\n
let y From a@b Thu Jan  1 00:00:00 1970\ny\n\n
let z From a@b Thu Jan  1 00:00:00 1970\nz\n\n
let first From a@b Thu Jan  1 00:00:00 1970\n>From q\nS: t\n\n>From x\n>>From x\nxFrom\n\n
let second From c@d Tue Nov 14 22:13:20 2023\n\n\n
let third From e@f Fri Dec 31 23:59:59 9999\nS: s\n\n>>>>From \n\n
# One post.
list put num 1\n | put archive/0/index 10:1000000100,3:a@b,3:321,5:hello,\n | put archive/0/01 {post}
run out 1 1 => 0 {mailbox}
run out 1 99999999 => 0 {mailbox}
run out 0 last => 0 {mailbox}
run out 2 99999999 => 0
run out 5 4 => 0
run out 1 0 => 0
# None.
list put num 0\n
run out 1 99999999 => 0
# A post with lines like the first of a mail, one without a byte, and one without an LF at its end.
list put num 3\n | put archive/0/index 1:0,3:a@b,2:33,0:,\n10:1700000000,3:c@d,1:0,0:,\n12:253402300799,3:e@f,2:14,1:s,\n | put archive/0/01 From q\nS: t\n\nFrom x\n>From x\nxFrom | put archive/0/02  | put archive/0/03 S: s\n\n>>>From\x20
run out 1 1 => 0 {first}
run out 2 2 => 0 {second}
run out 1 3 => 0 {first}{second}{third}
run out 1 4 => 0 {first}{second}{third}
run out 4 4 => 0
run out last last => 0
# Each read is made once: the number, the index, and the posts that are asked for.
fail 6 | run out 1 3 => 0 {first}{second}{third}
fail 5 | run out 1 3 => 0 a read failed
fail 3 | run out 1 3 => 0 a read failed
fail 2 | run out 1 3 => 0 a read failed
fail 1 | run out 1 3 => 0 a read failed
fail 2 | run out 3 1 => 0
fail 2 | run out 4 9 => 0
# Damaged files, and some that aren't read.
put num 3 | run out 1 1 => 0 damaged 11 0
put num 3 | run out 5 4 => 0 damaged 11 0
put num 4\n | run out 1 3 => 0 {first}{second}{third}
put num 4\n | run out 1 4 => 0 damaged 11 0
put num 2\n | run out 3 4 => 0
put archive/0/index x | run out 2 2 => 0 damaged 10 0
put archive/0/index x | run out 4 9 => 0
drop archive/0/index | run out 1 1 => 0 damaged 11 0
drop archive/0/02 | run out 1 1 => 0 {first}
drop archive/0/02 | run out 1 3 => 0 damaged 10 0
put archive/0/02 x | run out 2 2 => 0 damaged 10 0
# The last post of a group and the first two of the next. The other posts aren't there.
list put num 101\n | put archive/0/index {1..99:1:0,3:a@b,1:1,0:,\n} | put archive/1/index {100..101:1:0,3:a@b,1:1,0:,\n} | put archive/0/99 x | put archive/1/00 y | put archive/1/01 z
fail 4 | run out 99 99 => 0 {x}
fail 5 | run out 100 101 => 0 {y}{z}
fail 7 | run out 99 200 => 0 {x}{y}{z}
fail 6 | run out 99 200 => 0 a read failed
fail 4 | run out 99 200 => 0 a read failed
# Damaged files, and some that aren't read.
put archive/1/index x | run out 99 99 => 0 {x}
put archive/1/index x | run out 99 100 => 0 damaged 10 1
put archive/1/01  | run out 100 101 => 0 damaged 10 1
# No files.
list at 1000000000
run out 1 1 => 0 damaged 11 0
";

// Mailboxes as streams from number 900 on: by the call on a text, and by an import, which reads no file.
const STREAMS: &str = r"
let line From a@b Sun Sep  9 01:48:20 2001\n
let fields Precedence: bulk\nList-Post: <mailto:list@ex.org>\nList-Help: <mailto:list-help@ex.org>\nList-Unsubscribe: <mailto:list-unsubscribe@ex.org>\nList-Subscribe: <mailto:list-subscribe@ex.org>\n
let message From: a@b\nTo: list@ex.org\nSubject: hello\n\nhi\n
let post Mailing-List: contact list-help@ex.org; run by ezmlm\n{fields}Delivered-To: mailing list list@ex.org\n{message}
let delivered {fields}{message}
let to 3:a@b,11:list@ex.org,
let mailbox {line}{post}\n
list at 1000000500
run stream => 0
input hello\n | run stream => 0 none
input From a@b Sun Sep  9 01:48:20 2001\nMailing-List: x\nDelivered-To: y\nS: t\n\n>From z\n\n | run stream => 0 D3:900,10:1000000500,3:a@b,11:list@ex.org,13:S: t\n\nFrom z\n,
input From \n | run stream => 0 D3:900,10:1000000500,0:,11:list@ex.org,1:\n,
input \nFrom a@b\nFrom c x\nhi | run stream => 0 D3:900,10:1000000500,3:a@b,11:list@ex.org,1:\n,D3:901,10:1000000500,1:c,11:list@ex.org,3:\nhi,
# Imports.
fail 1 | input {mailbox} | run import => 0 D3:900,10:1000000500,{to}229:{delivered},
fail 1 | run import => 0
fail 1 | input \n | run import => 0
fail 1 | input \n\n\n | run import => 0
fail 1 | input hello\n | run import => 0 bad 0
fail 1 | input \nhello\n | run import => 0 bad 0
fail 1 | input \x0D\x0D\nFrom a@b\n | run import => 0 bad 0
fail 1 | input \x0D\n\nFrom a@b x\nS: t\n\nhi\n | run import => 0 D3:900,10:1000000500,3:a@b,11:list@ex.org,9:S: t\n\nhi\n,
fail 1 | input From a@b x\nFrom  y\nS: t\n\nhi\n\n | run import => 0 D3:900,10:1000000500,3:a@b,11:list@ex.org,1:\n,D3:901,10:1000000500,0:,11:list@ex.org,9:S: t\n\nhi\n,
fail 1 | input \n\nFrom a b\nS: t\n\n>From x\n>>>From x\n | run import => 0 D3:900,10:1000000500,1:a,11:list@ex.org,22:S: t\n\nFrom x\n>>From x\n,
";

#[test]
fn rows_are_answered(rt: HostRuntime) -> Result<(), Fail> {
    let alloc = rt.alloc();
    hold::<Mailboxes>(alloc, "reading", READING)?;
    hold::<Mailboxes>(alloc, "writing", WRITING)?;
    hold::<Mailboxes>(alloc, "words", WORDS)?;
    hold::<Mailboxes>(alloc, "archives", ARCHIVES)?;
    hold::<Mailboxes>(alloc, "streams", STREAMS)
}

#[test]
fn the_laws_can_be_called() {
    law_mbox();
    law_mails();
    law_quotes();
    law_import();
    law_importing();
}
