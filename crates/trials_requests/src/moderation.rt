// Posts that wait for the moderators, and what the moderators answer.
pub(crate) const TABLE: &str = r"
# The cookie of ticket 1, held at 1,000,000,000, under the key of the bytes 0 to 31.
let c dlchffgkeobljkocbhcg
# The cookie of the same post under the key of 32 `f`.
let under-new nlogecmakajephaoiloe
let other dlchffgkeobljkocbhcf
# What the entry of each mail begins with.
let mail 12:list-return-,6:ex.org,1:p,
# The bytes 0 to 31.
let bytes \0\x01\x02\x03\x04\x05\x06\x07\x08\x09\n\x0B\x0C\x0D\x0E\x0F\x10\x11\x12\x13\x14\x15\x16\x17\x18\x19\x1A\x1B\x1C\x1D\x1E\x1F
let m From: a@b\nTo: list@ex.org\nSubject: hello\n\nhi\n
let waiting 10:1000000000,3:a@b,45:{m},
# A key of 32 `f`, and the bytes 0 to 31 as the former one, which was changed at the post's moment, and a second earlier.
let changed ffffffffffffffffffffffffffffffff{bytes}\0\0\0\0;\x9A\xCA\0
let earlier ffffffffffffffffffffffffffffffff{bytes}\0\0\0\0;\x9A\xC9\xFF
# What each mail begins with.
let head Mailing-List: contact list-help@ex.org; run by ezmlm\nPrecedence: bulk\nFrom: list-help@ex.org\nTo:\x20
# What is sent of each post begins with this.
let sends Mailing-List: contact list-help@ex.org; run by ezmlm\nPrecedence: bulk\nList-Post: <mailto:list@ex.org>\nList-Help: <mailto:list-help@ex.org>\nList-Unsubscribe: <mailto:list-unsubscribe@ex.org>\nList-Subscribe: <mailto:list-subscribe@ex.org>\nDelivered-To: mailing list list@ex.org\n
let given-back {mail}259:{head}a@b\nDate: Sun, 09 Sep 2001 01:55:00 -0000\nSubject: post rejected\n\nThe moderators of list@ex.org rejected this post.\n\n{m},3:a@b,
let mailed 14:list-return-1-,6:ex.org,1:v,321:{sends}{m},3:a@b,
let asked {mail}377:{head}list-owner@ex.org\nReply-To: list-accept-1.{c}@ex.org\nDate: Sun, 09 Sep 2001 01:46:40 -0000\nSubject: moderate post 1\n\nAccept: list-accept-1.{c}@ex.org\nReject: list-reject-1.{c}@ex.org\n\n{m},3:m@o,
# An accepted post is posted once.
list run new => 0 | put subscribers/] Ta@b\0 | put mod/subscribers/d Tm@o\0 | input {m}
run post a@B m => 0 2 1 | gets pending/1 {waiting} | gets tickets 1:2\n | gets queue/1 {asked} | gets ids 1:2\n | same
then at 253402300799 | run answer 1 {c} accept m => 0 1 1 | lacks pending/1 | has queue/2 {mailed} | has num 1\n | has ids 1:3\n
then run answer 1 {c} accept m => 0 17 0 | same
then run answer 1 {c} reject m => 0 17 0 | same
# A rejected post goes back to its sender.
run post a@B m => 0 2 1 | gets pending/1 {waiting} | gets tickets 1:2\n | gets queue/1 {asked} | gets ids 1:2\n | same
then at 1000000500 | run answer 1 {c} reject m => 0 16 0 | lacks pending/1 | has queue/2 {given-back} | has num 0\n
# A full archive keeps the post waiting.
run post a@B m => 0 2 1 | gets pending/1 {waiting} | gets tickets 1:2\n | gets queue/1 {asked} | gets ids 1:2\n | same
then put num 99999999\n | at 1000000500 | run answer 1 {c} accept m => 0 20 0 | same
# The former key counts up to its change.
run post a@B m => 0 2 1 | gets pending/1 {waiting} | gets tickets 1:2\n | gets queue/1 {asked} | gets ids 1:2\n | same
then put key {changed} | at 1002000000 | run answer 1 {c} accept m => 0 1 1
run post a@B m => 0 2 1 | gets pending/1 {waiting} | gets tickets 1:2\n | gets queue/1 {asked} | gets ids 1:2\n | same
then put key {earlier} | at 1002000000 | run answer 1 {c} accept m => 0 30 0 | same
then run answer 1 {under-new} accept m => 0 1 1
# Other letters change nothing.
run post a@B m => 0 2 1 | gets pending/1 {waiting} | gets tickets 1:2\n | gets queue/1 {asked} | gets ids 1:2\n | same
then at 1000000500 | run answer 1 {other} accept m => 0 30 0 | same
then run answer 1 {other} reject m => 0 30 0 | same
";
