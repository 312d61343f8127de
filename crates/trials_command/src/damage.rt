// A damaged file of every kind, and the answer to an item of every letter. If the item reads the file, it is named under the item's number and
// the list stays as it was; otherwise the item is done.
use crate::program::Whole;
use std::test::Fail;
use trials_scripts::hold;

const TABLE: &str = r"
let key 000102030405060708090a0b0c0d0e0f101112131415161718191a1b1c1d1e1f
let made 0 made list@ex.org\n
let three A1:1,10:1000000000,4:list,3:a@b,A1:2,10:1000000000,4:list,3:c@d,A1:3,10:1000000000,4:list,3:e@f,
let added 1 0 subscribed\n2 0 subscribed\n3 0 subscribed\n
let message 45:From: a@b\nTo: list@ex.org\nSubject: hello\n\nhi\n,
let post D2:20,10:1000000100,3:a@b,11:list@ex.org,{message}
# An item of each letter.
let add A2:30,10:1000000200,4:list,3:a@5,
let remove R2:30,10:1000000200,4:list,3:a@b,
let deliver D2:30,10:1000000200,3:a@b,11:list@ex.org,{message}
let ask D2:30,10:1000000200,3:g@h,21:list-subscribe@ex.org,{message}
let get D2:30,10:1000000200,3:g@h,17:list-get.1@ex.org,{message}
let thread D2:30,10:1000000200,3:g@h,20:list-thread.1@ex.org,{message}
let bounce D2:30,10:1000000200,0:,24:list-return-1-a=b@ex.org,{message}
let timed T2:30,10:1000000200,
let sent S2:30,10:1000000200,1:1,
let rekey K2:30,10:1000000200,64:{key},
let floor F2:30,10:1000000200,2:20,
list run make -d --key {key} list ex.org o@own.org => {made} | input {three}{post} | run spool => 0 {added}20 0 posted 1\n
# The answer to each of them if nothing is damaged.
input {add} | run spool => 0 30 0 subscribed\n
input {remove} | run spool => 0 30 0 unsubscribed\n
input {deliver} | run spool => 0 30 0 posted 2\n
input {ask} | run spool => 0 30 0 asked\n
input {get} | run spool => 0 30 0 archive\n
input {thread} | run spool => 0 30 0 archive\n
input {bounce} | run spool => 0 30 0 bounce\n
input {timed} | run spool => 0 30 0 timed 0\n
input {sent} | run spool => 0 30 0 dequeued\n
input {rekey} | run spool => 0 30 0 rekeyed\n
input {floor} | run spool => 0 30 0 floored 20\n
# The log and the configuration are read before any item, and the floor and the kept replies before what it does.
put log \x01a | input {add} | run spool => 75 - 75 log\n | same
put config x | input {add} | run spool => 75 - 75 config\n | same
put floor 1\n | input {add} | run spool => 75 30 75 floor\n | same
put floor 1\n | input {remove} | run spool => 75 30 75 floor\n | same
put floor 1\n | input {deliver} | run spool => 75 30 75 floor\n | same
put floor 1\n | input {timed} | run spool => 75 30 75 floor\n | same
put floor 1\n | input {sent} | run spool => 75 30 75 floor\n | same
put floor 1\n | input {rekey} | run spool => 75 30 75 floor\n | same
put floor 1\n | input {floor} | run spool => 75 30 75 floor\n | same
cut done/0 | input {add} | run spool => 75 30 75 done/0\n | same
cut done/0 | input {remove} | run spool => 75 30 75 done/0\n | same
cut done/0 | input {deliver} | run spool => 75 30 75 done/0\n | same
cut done/0 | input {timed} | run spool => 75 30 75 done/0\n | same
cut done/0 | input {sent} | run spool => 75 30 75 done/0\n | same
cut done/0 | input {rekey} | run spool => 75 30 75 done/0\n | same
cut done/0 | input {floor} | run spool => 75 30 75 done/0\n | same
cut done/0 | input A1:0,10:1000000200,4:list,3:a@5, | run spool => 0 0 0 subscribed\n
cut done/0 | input D1:5,10:1000000200,3:a@b,11:list@ex.org,{message} | run spool => 75 5 75 done/0\n | same
# The key.
cut key | input {rekey} | run spool => 75 30 75 key\n | same
cut key | input {ask} | run spool => 75 30 75 key\n | same
cut key | input {add} | run spool => 0 30 0 subscribed\n
cut key | input {remove} | run spool => 0 30 0 unsubscribed\n
cut key | input {deliver} | run spool => 0 30 0 posted 2\n
cut key | input {sent} | run spool => 0 30 0 dequeued\n
cut key | input {floor} | run spool => 0 30 0 floored 20\n
# Sets.
put subscribers/] Ta@b | input {add} | run spool => 75 30 75 subscribers/]\n | same
put subscribers/] Ta@b | input {remove} | run spool => 75 30 75 subscribers/]\n | same
put subscribers/] Ta@b | input {deliver} | run spool => 75 30 75 subscribers/]\n | same
put subscribers/] Ta@b | input {sent} | run spool => 0 30 0 dequeued\n
put subscribers/] Ta@b | input {rekey} | run spool => 0 30 0 rekeyed\n
put subscribers/] Ta@b | input {floor} | run spool => 0 30 0 floored 20\n
put subscribers/L Tc@d | input {add} | run spool => 0 30 0 subscribed\n
put subscribers/L Tc@d | input {deliver} | run spool => 75 30 75 subscribers/L\n | same
put digest/subscribers/] Ta@b | input A2:30,10:1000000200,6:digest,3:a@5, | run spool => 75 30 75 digest/subscribers/]\n | same
put allow/subscribers/] Ta@b | input A2:30,10:1000000200,5:allow,3:a@5, | run spool => 75 30 75 allow/subscribers/]\n | same
put deny/subscribers/] Ta@b | input A2:30,10:1000000200,4:deny,3:a@5, | run spool => 75 30 75 deny/subscribers/]\n | same
put mod/subscribers/] Ta@b | input R2:30,10:1000000200,3:mod,3:a@5, | run spool => 75 30 75 mod/subscribers/]\n | same
put counts/list 3 | input {add} | run spool => 75 30 75 counts/list\n | same
put counts/list 3 | input {remove} | run spool => 75 30 75 counts/list\n | same
put counts/list 3 | input {sent} | run spool => 0 30 0 dequeued\n
drop counts/list | input {add} | run spool => 75 30 75 counts/list\n | same
# The archive.
put num 1 | input {deliver} | run spool => 75 30 75 num\n | same
put num 1 | input {get} | run spool => 75 30 75 num\n | same
put num 1 | input {timed} | run spool => 75 30 75 num\n | same
put num 1 | input {add} | run spool => 0 30 0 subscribed\n
put num 1 | input {sent} | run spool => 0 30 0 dequeued\n
cut archive/0/index | input {deliver} | run spool => 75 30 75 archive/0/index\n | same
cut archive/0/index | input {get} | run spool => 75 30 75 archive/0/index\n | same
cut archive/0/01 | input {get} | run spool => 75 30 75 archive/0/index\n | same
cut archive/threads/231 | input {deliver} | run spool => 75 30 75 archive/threads/231\n | same
cut archive/threads/231 | input {thread} | run spool => 75 30 75 archive/threads/231\n | same
cut archive/threads/231 | input {get} | run spool => 0 30 0 archive\n
# The mark of the digests, which a list without digests doesn't read.
put dig 0:0 | input {timed} | run spool => 75 30 75 dig\n | same
put dig 0:0 | input {deliver} | run spool => 0 30 0 posted 2\n
# Tickets and ids, held posts and entries.
put tickets 1:1 | input {deliver} | run spool => 75 30 75 tickets\n | same
put tickets 1:1 | input {timed} | run spool => 75 30 75 tickets\n | same
put tickets 1:1 | input {sent} | run spool => 0 30 0 dequeued\n
put ids 1:2 | input {deliver} | run spool => 75 30 75 ids\n | same
put ids 1:2 | input {timed} | run spool => 75 30 75 ids\n | same
put ids 1:2 | input {sent} | run spool => 75 30 75 ids\n | same
put ids 1:2 | input {add} | run spool => 0 30 0 subscribed\n
put tickets 1:2\n | put pending/1 x | input {timed} | run spool => 75 30 75 pending/1\n | same
put tickets 1:2\n | put pending/1 x | input {deliver} | run spool => 0 30 0 posted 2\n
# Ledgers.
put bounce/] x | input {remove} | run spool => 75 30 75 bounce/]\n | same
put bounce/] x | input {bounce} | run spool => 75 30 75 bounce/]\n | same
put bounce/] x | input {timed} | run spool => 75 30 75 bounce/]\n | same
put bounce/] x | input {add} | run spool => 0 30 0 subscribed\n
put digest/subscribers/] Ta@b\0 | put counts/digest 1\n | put digest/bounce/] x | input R2:30,10:1000000200,6:digest,3:a@b, | run spool => 75 30 75 digest/bounce/]\n | same
put digest/bounce/] x | input {timed} | run spool => 75 30 75 digest/bounce/]\n | same
# Who may post.
list run make -k --key {key} list ex.org o@own.org => {made} | put deny/subscribers/] Ta@b
input {deliver} | run spool => 75 30 75 deny/subscribers/]\n | same
list run make -u --key {key} list ex.org o@own.org => {made} | put allow/subscribers/] Ta@b
input {deliver} | run spool => 75 30 75 allow/subscribers/]\n | same
list run make -m --key {key} list ex.org o@own.org => {made} | put mod/subscribers/] Ta@b
input {deliver} | run spool => 75 30 75 mod/subscribers/]\n | same
# Who may read the archive: only members are looked up, and only with the option g.
let own D2:30,10:1000000200,3:a@b,17:list-get.1@ex.org,{message}
list run make --key {key} list ex.org o@own.org => {made} | input {three}{post} | run spool => 0 {added}20 0 posted 1\n
put subscribers/] Ta@b | input {own} | run spool => 0 30 0 archive\n
list run make -g --key {key} list ex.org o@own.org => {made} | input {three}{post} | run spool => 0 {added}20 0 posted 1\n
input {own} | run spool => 0 30 0 archive\n
input {get} | run spool => 0 30 100 private\n
put subscribers/] Ta@b | input {own} | run spool => 75 30 75 subscribers/]\n | same
# A digest that is due goes to its whole set, and a list without digests looks at none of their files.
let due T2:30,10:1000172900,
list run make -d --key {key} list ex.org o@own.org => {made} | input {three}{post} | run spool => 0 {added}20 0 posted 1\n
input {due} | run spool => 0 30 0 timed 1\n
put digest/subscribers/] Ta@b | input {due} | run spool => 75 30 75 digest/subscribers/]\n | same
put digest/subscribers/L Ta@b | input {due} | run spool => 75 30 75 digest/subscribers/L\n | same
put digest/subscribers/] Ta@b | input {timed} | run spool => 0 30 0 timed 0\n
list run make --key {key} list ex.org o@own.org => {made} | input {three}{post} | run spool => 0 {added}20 0 posted 1\n
put dig 0:0 | input {timed} | run spool => 0 30 0 timed 0\n
put digest/subscribers/] Ta@b | put dig 0:0 | input {due} | run spool => 0 30 0 timed 0\n
# A post that waits for the moderators looks at none of the archive, and one that doesn't at neither the key nor the moderators.
list run make -m --key {key} list ex.org o@own.org => {made}
input {deliver} | run spool => 0 30 0 held 1\n
put num x | input {deliver} | run spool => 0 30 0 held 1\n
put archive/0/index x | put archive/threads/231 x | input {deliver} | run spool => 0 30 0 held 1\n
cut key | input {deliver} | run spool => 75 30 75 key\n | same
put mod/subscribers/L x | input {deliver} | run spool => 75 30 75 mod/subscribers/L\n | same
list run make --key {key} list ex.org o@own.org => {made}
cut key | put mod/subscribers/L x | input {deliver} | run spool => 0 30 0 posted 1\n
# A moderator's answer looks at the held post, then at the key, and only with the right cookie at what follows.
let right fnidiagkjnjiioefided
let wrong fnidiagkjnjiioefidee
let accept D2:30,10:1000000200,3:m@o,41:list-accept-1.{right}@ex.org,{message}
let reject D2:30,10:1000000200,3:m@o,41:list-reject-1.{right}@ex.org,{message}
let forged D2:30,10:1000000200,3:m@o,41:list-accept-1.{wrong}@ex.org,{message}
let gone D2:30,10:1000000200,3:m@o,41:list-accept-2.{right}@ex.org,{message}
list run make -m --key {key} list ex.org o@own.org => {made} | input {post} | run spool => 0 20 0 held 1\n
input {accept} | run spool => 0 30 0 posted 1\n
input {reject} | run spool => 0 30 0 rejected\n
input {forged} | run spool => 0 30 100 badcookie\n
input {gone} | run spool => 0 30 100 gone\n
put pending/1 x | input {forged} | run spool => 75 30 75 pending/1\n | same
put pending/1 x | input {gone} | run spool => 0 30 100 gone\n
cut key | input {forged} | run spool => 75 30 75 key\n | same
cut key | input {gone} | run spool => 0 30 100 gone\n
put num x | input {accept} | run spool => 75 30 75 num\n | same
put num x | input {reject} | run spool => 0 30 0 rejected\n
put num x | input {forged} | run spool => 0 30 100 badcookie\n
put subscribers/] x | input {accept} | run spool => 75 30 75 subscribers/]\n | same
put subscribers/] x | input {forged} | run spool => 0 30 100 badcookie\n
# What only conflicts with posts that aren't asked for is no damage to what is: their number, indexes, threads, and what is in no digest.
let some D2:30,10:1000000200,3:g@h,19:list-get.5_7@ex.org,{message}
let past D2:30,10:1000000200,3:g@h,23:list-get.115_125@ex.org,{message}
let index D2:30,10:1000000200,3:g@h,19:list-index.5@ex.org,{message}
let fifth D2:30,10:1000000200,3:g@h,20:list-thread.5@ex.org,{message}
list run make -d --key {key} list ex.org o@own.org => {made} | input {three} | run spool => 0 {added} | input {1..120:D1:0,10:1000000100,3:a@b,11:list@ex.org,45:From: a@b\nTo: list@ex.org\nSubject: hello\n\nhi\n,} | run spool => 0 {1..120:0 0 posted %\n}
put num 200\n | input {some} | run spool => 0 30 0 archive\n
put num 200\n | input {past} | run spool => 75 30 75 num\n | same
put num 200\n | input {bounce} | run spool => 0 30 0 bounce\n
put num 200\n | input {index} | run spool => 0 30 0 archive\n
put num 200\n | input {fifth} | run spool => 0 30 0 archive\n
put num 200\n | input {deliver} | run spool => 75 30 75 num\n | same
cut archive/0/09 | input {some} | run spool => 0 30 0 archive\n
cut archive/0/06 | input {some} | run spool => 75 30 75 archive/0/index\n | same
cut archive/0/06 | input {index} | run spool => 0 30 0 archive\n
put archive/1/index x | input {some} | run spool => 0 30 0 archive\n
put archive/1/index x | input {index} | run spool => 0 30 0 archive\n
put archive/1/index x | input {past} | run spool => 75 30 75 archive/1/index\n | same
put archive/0/index x | input {deliver} | run spool => 0 30 0 posted 121\n
put archive/1/index x | input {deliver} | run spool => 75 30 75 archive/1/index\n | same
put archive/threads/0 x | input {deliver} | run spool => 0 30 0 posted 121\n
put archive/threads/0 x | input {fifth} | run spool => 0 30 0 archive\n
put dig 110:1\n | put archive/0/index x | input {timed} | run spool => 0 30 0 timed 0\n
put dig 90:1\n | put archive/0/index x | input {timed} | run spool => 75 30 75 archive/0/index\n | same
# The answers to items before it stand.
list run make --key {key} list ex.org o@own.org => {made} | put subscribers/L Tc@d
input {three} | run spool => 75 1 0 subscribed\n2 75 subscribers/L\n | has counts/list 1\n
";

#[test]
fn an_item_names_the_damaged_file(rt: HostRuntime) -> Result<(), Fail> {
    hold::<Whole>(rt.alloc(), "items on damaged lists", TABLE)
}
