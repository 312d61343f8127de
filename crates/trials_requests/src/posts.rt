// Messages that come to the list's own address.
pub(crate) const TABLE: &str = r#"
# Members of the set list.
let a-b Ta@b\0
let c-d Tc@d\0
let e-f Te@f\0
let unsubscribe To: list@ex.org\nSubject: unsubscribe\n\n
let marked-once To: list@ex.org\nSubject: Re: [LIST] hello\n\n
# A message of 45 bytes, and what the list sends of it: 321 bytes. The first 276 of them stand in front of every message.
let m From: a@b\nTo: list@ex.org\nSubject: hello\n\nhi\n
let nul-first a\0b: x\n{m}
let marked From: a@b\nTo: list@ex.org\nSubject: [list] hello\n\nhi\n
let from-a-list Mailing-List: x\n{unsubscribe}
let left-out Return-Receipt-To: a\nContent-Length: 1\nprecedence: x\nList-Post: b\nList-Help: c\nList-Unsubscribe: d\nList-Subscribe: e\nTo: list@ex.org\nList-Id: f\nSubject: x
let usual-sent Received: from x\n\x09by y\nDKIM-Signature: v=1;\n b=abc\nFrom: "A B" <a@b>\nTo: "The list" <list@ex.org>\nSubject: some\n words\nMIME-Version: 1.0\nContent-Type: multipart/alternative; boundary="x"\n\n--x\n\npart\n--x--\n
let usual Return-Path: <a@b>\n{usual-sent}
let front Mailing-List: contact list-help@ex.org; run by ezmlm\nPrecedence: bulk\nList-Post: <mailto:list@ex.org>\nList-Help: <mailto:list-help@ex.org>\nList-Unsubscribe: <mailto:list-unsubscribe@ex.org>\nList-Subscribe: <mailto:list-subscribe@ex.org>\nDelivered-To: mailing list list@ex.org\n
let sent {front}{m}
# Its entry, to nobody and to three members.
let to-nobody 14:list-return-1-,6:ex.org,1:v,321:{sent},
let mailed {to-nobody}3:a@b,3:c@d,3:e@f,
# A post goes to the archive and to the members.
list run new => 0 | at 1000000100 | input {m}
put subscribers/] {a-b} | put subscribers/L {c-d} | put subscribers/W {e-f} | run post a@b => 0 1 1 | gets archive/0/01 {sent} | gets archive/0/index 10:1000000100,3:a@b,3:321,5:hello,\n | gets archive/threads/231 5:hello,1:1, | gets num 1\n | gets queue/1 {mailed} | gets ids 1:2\n | same
# Posts are numbered in order.
run post A@B => 0 1 1 | has archive/0/01 {sent}
then input {m} | run post A@B => 0 1 2 | has archive/0/02 {sent}
then input {m} | run post A@B => 0 1 3 | has archive/0/03 {sent} | has queue/1 {to-nobody} | has num 3\n | has archive/threads/231 5:hello,5:1,2,3,
# Each of ten thousand members gets a post.
members 10000 | run post a@b => 0 1 1 | has queue/1 {to-nobody}{0..9:7:u000%@h,}{10..99:7:u00%@h,}{100..999:7:u0%@h,}{1000..9999:7:u%@h,}
# The last number is given once.
put num 99999998\n | put archive/999999/index {1..99:10:1000000000,3:a@b,1:1,1:x,\n} | run post a@b => 0 1 99999999 | has num 99999999\n | has archive/999999/99 {sent} | has ids 1:2\n
then input {m} | run post a@b => 0 20 0 | same
# Posts that are refused.
put subscribers/] {a-b} | run post '' => 0 22 0 | same
put subscribers/] {a-b} | run post a@b '' 44 => 0 21 0 | same
put subscribers/] {a-b} | run post g@h u => 0 28 0 | same
put deny/subscribers/N Tg@h\0 | run post G@H k => 0 24 0 | same
list run new => 0 | put subscribers/] {a-b} | at 1000000100 | input {m}
input {from-a-list} | run post '' => 0 22 0 | same
input {from-a-list} | run post a@b => 0 23 0 | same
input {unsubscribe} | run post a@b => 0 26 0 | same
input Subject: x | run post a@b => 0 27 0 | same
input {nul-first} | run post a@b => 0 25 0 | same
input | run post a@b => 0 25 0 | same
list run new => 0 | at 1000000100 | input {m}
put num 99999999\n | run post a@b => 0 20 0 | same
# What is sent of a message.
run post a@b => 0 1 1 | has archive/0/01 {sent}
input From: a@b\x0D\nTo: list@ex.org\x0D\nSubject: hello\x0D\n\x0D\nhi\x0D\n | run post a@b => 0 1 1 | has archive/0/01 {front}From: a@b\x0D\nTo: list@ex.org\x0D\nSubject: hello\x0D\n\nhi\x0D\n
input {usual} | run post a@b t => 0 1 1 | has archive/0/01 {front}{usual-sent}
run post a@b t => 0 1 1 | has archive/0/01 {sent}---------------------------------------------------------------------\nTo unsubscribe, mail to list-unsubscribe@ex.org\nFor help, mail to list-help@ex.org\n
run post a@b f => 0 1 1 | has archive/0/01 {front}{marked}
input {marked-once} | run post a@b f => 0 1 1 | has archive/0/01 {front}{marked-once}
input {left-out} | run post a@b => 0 1 1 | has archive/0/01 {front}To: list@ex.org\nList-Id: f\nSubject: x\n\n
# All of ten thousand fields are kept.
input {1..10000:X: y\n}{m} | run post a@b => 0 1 1 | has archive/0/01 {front}{1..10000:X: y\n}{m}
# Damaged lists.
put subscribers/] {a-b} | put num 07\n | run post a@b => 0 damaged 11 0 | same
put subscribers/] {a-b} | put ids 1:0\n | run post a@b => 0 damaged 18 0 | same
put subscribers/] {a-b} | put archive/0/index x | run post a@b => 0 damaged 10 0 | same
put subscribers/] {a-b} | put archive/threads/231 x | run post a@b => 0 damaged 20 231 | same
put subscribers/] {a-b} | put subscribers/L Tc@d | run post a@b => 0 damaged 3 12 | same
# The number of posts, an index, a file of threads, 53 files of the set, and the next id.
turns 1 57 | put subscribers/] {a-b} | fail | run post a@b => 0 a read failed | same
put subscribers/] {a-b} | fail 58 | run post a@b => 0 1 1
"#;
