// Every kind of file of a list removed, emptied, cut by a byte, a byte longer, and replaced by its neighbour's: what `check` says.
use crate::program::Whole;
use std::test::Fail;
use trials_scripts::hold;

// The list that is changed: its sets have 3, 1, 2, 1 and 1 members; two of its three posts have the same key, and the first two the same size;
// two posts are held, and two entries queued, with gaps.
const KINDS: &str = r"
let ok 0 ok 3 3 1 2 1 1 2 2\n
let hold 10:1000000000,3:g@h,2:hi,
let entry 14:list-return-1-,6:ex.org,1:v,3:hi\n,3:a@b,
let noted 28:3:a@b,10:1000010000,1:n,1:1,,
let warned 28:3:c@d,1:0,11:w1001010000,0:,,
list run make --key 000102030405060708090a0b0c0d0e0f101112131415161718191a1b1c1d1e1f list ex.org o@own.org => 0 made list@ex.org\n | put subscribers/] Ta@b\0 | put subscribers/L layout 2\nTc@d\01000000000\0 | put subscribers/W Te@f\0 | put counts/list 3\n | put digest/subscribers/] Ta@b\0 | put counts/digest 1\n | put allow/subscribers/] Ta@b\0 | put allow/subscribers/L Tc@d\0 | put counts/allow 2\n | put deny/subscribers/W Te@f\0 | put counts/deny 1\n | put mod/subscribers/d Tm@o\0 | put counts/mod 1\n | put archive/0/01 one\n | put archive/0/02 two\n | put archive/0/03 three\n | put archive/0/index 10:1000000001,3:a@b,1:4,5:hello,\n10:1000000002,3:a@b,1:4,5:other,\n10:1000000003,3:c@d,1:6,5:hello,\n | put num 3\n | put dig 2:1\n | put pending/2 {hold} | put pending/3 {hold} | put tickets 2:4\n | put bounce/] {noted} | put bounce/L {warned} | put digest/bounce/] {noted} | put digest/bounce/L {warned} | put queue/2 {entry} | put queue/5 {entry} | put ids 1:7\n | put archive/threads/231 5:hello,3:1,3, | put archive/threads/161 5:other,1:2, | put floor 9\n | put done/0 {1..4608:\0}
run check => {ok} | same
# The log.
put log  | run check => {ok} | has log \0
put log \0x | run check => {ok} | has log \0
take log key | run check => {ok} | has log \0
# The configuration.
drop config | run check => 75 - 75 nolist\n | same
put config  | run check => 75 - 75 config\n | same
cut config | run check => 75 - 75 config\n | same
grow config x | run check => 75 - 75 config\n | same
take config key | run check => 75 - 75 config\n | same
# The key.
drop key | run check => 75 - 75 key\n | same
put key  | run check => 75 - 75 key\n | same
cut key | run check => 75 - 75 key\n | same
grow key x | run check => 75 - 75 key\n | same
take key config | run check => 75 - 75 key\n | same
# The sets.
drop subscribers/] | run check => 75 - 75 counts/list\n | same
put subscribers/]  | run check => 75 - 75 subscribers/]\n | same
cut subscribers/] | run check => 75 - 75 subscribers/]\n | same
grow subscribers/] x | run check => 75 - 75 subscribers/]\n | same
take subscribers/] subscribers/L | run check => 75 - 75 subscribers/]\n | same
drop subscribers/L | run check => 75 - 75 counts/list\n | same
cut subscribers/L | run check => 75 - 75 subscribers/L\n | same
grow subscribers/L x | run check => 75 - 75 subscribers/L\n | same
drop digest/subscribers/] | run check => 75 - 75 counts/digest\n | same
put digest/subscribers/]  | run check => 75 - 75 digest/subscribers/]\n | same
cut digest/subscribers/] | run check => 75 - 75 digest/subscribers/]\n | same
grow digest/subscribers/] x | run check => 75 - 75 digest/subscribers/]\n | same
take digest/subscribers/] subscribers/L | run check => 75 - 75 digest/subscribers/]\n | same
drop allow/subscribers/] | run check => 75 - 75 counts/allow\n | same
put allow/subscribers/]  | run check => 75 - 75 allow/subscribers/]\n | same
cut allow/subscribers/] | run check => 75 - 75 allow/subscribers/]\n | same
grow allow/subscribers/] x | run check => 75 - 75 allow/subscribers/]\n | same
take allow/subscribers/] allow/subscribers/L | run check => 75 - 75 allow/subscribers/]\n | same
drop deny/subscribers/W | run check => 75 - 75 counts/deny\n | same
put deny/subscribers/W  | run check => 75 - 75 deny/subscribers/W\n | same
cut deny/subscribers/W | run check => 75 - 75 deny/subscribers/W\n | same
grow deny/subscribers/W x | run check => 75 - 75 deny/subscribers/W\n | same
take deny/subscribers/W subscribers/L | run check => 75 - 75 deny/subscribers/W\n | same
drop mod/subscribers/d | run check => 75 - 75 counts/mod\n | same
put mod/subscribers/d  | run check => 75 - 75 mod/subscribers/d\n | same
cut mod/subscribers/d | run check => 75 - 75 mod/subscribers/d\n | same
grow mod/subscribers/d x | run check => 75 - 75 mod/subscribers/d\n | same
take mod/subscribers/d subscribers/W | run check => 75 - 75 mod/subscribers/d\n | same
# The counts.
drop counts/list | run check => 75 - 75 counts/list\n | same
put counts/list  | run check => 75 - 75 counts/list\n | same
cut counts/list | run check => 75 - 75 counts/list\n | same
grow counts/list x | run check => 75 - 75 counts/list\n | same
take counts/list counts/digest | run check => 75 - 75 counts/list\n | same
drop counts/digest | run check => 75 - 75 counts/digest\n | same
take counts/digest counts/allow | run check => 75 - 75 counts/digest\n | same
drop counts/allow | run check => 75 - 75 counts/allow\n | same
take counts/allow counts/deny | run check => 75 - 75 counts/allow\n | same
drop counts/deny | run check => 75 - 75 counts/deny\n | same
take counts/deny counts/allow | run check => 75 - 75 counts/deny\n | same
drop counts/mod | run check => 75 - 75 counts/mod\n | same
take counts/mod counts/deny | run check => {ok} | same
";

#[test]
fn a_file_of_each_set_counts(rt: HostRuntime) -> Result<(), Fail> {
    hold::<Whole>(rt.alloc(), "files of sets", KINDS)
}

// The same list.
const REST: &str = r"
let ok 0 ok 3 3 1 2 1 1 2 2\n
let hold 10:1000000000,3:g@h,2:hi,
let entry 14:list-return-1-,6:ex.org,1:v,3:hi\n,3:a@b,
let noted 28:3:a@b,10:1000010000,1:n,1:1,,
let warned 28:3:c@d,1:0,11:w1001010000,0:,,
list run make --key 000102030405060708090a0b0c0d0e0f101112131415161718191a1b1c1d1e1f list ex.org o@own.org => 0 made list@ex.org\n | put subscribers/] Ta@b\0 | put subscribers/L layout 2\nTc@d\01000000000\0 | put subscribers/W Te@f\0 | put counts/list 3\n | put digest/subscribers/] Ta@b\0 | put counts/digest 1\n | put allow/subscribers/] Ta@b\0 | put allow/subscribers/L Tc@d\0 | put counts/allow 2\n | put deny/subscribers/W Te@f\0 | put counts/deny 1\n | put mod/subscribers/d Tm@o\0 | put counts/mod 1\n | put archive/0/01 one\n | put archive/0/02 two\n | put archive/0/03 three\n | put archive/0/index 10:1000000001,3:a@b,1:4,5:hello,\n10:1000000002,3:a@b,1:4,5:other,\n10:1000000003,3:c@d,1:6,5:hello,\n | put num 3\n | put dig 2:1\n | put pending/2 {hold} | put pending/3 {hold} | put tickets 2:4\n | put bounce/] {noted} | put bounce/L {warned} | put digest/bounce/] {noted} | put digest/bounce/L {warned} | put queue/2 {entry} | put queue/5 {entry} | put ids 1:7\n | put archive/threads/231 5:hello,3:1,3, | put archive/threads/161 5:other,1:2, | put floor 9\n | put done/0 {1..4608:\0}
# A post's bytes leave no other trace than how many they are.
drop archive/0/01 | run check => 75 - 75 archive/0/index\n | same
put archive/0/01  | run check => 75 - 75 archive/0/index\n | same
cut archive/0/01 | run check => 75 - 75 archive/0/index\n | same
grow archive/0/01 x | run check => 75 - 75 archive/0/index\n | same
take archive/0/01 archive/0/02 | run check => {ok} | same
take archive/0/02 archive/0/03 | run check => 75 - 75 archive/0/index\n | same
drop archive/0/03 | run check => 75 - 75 archive/0/index\n | same
# The index.
drop archive/0/index | run check => 75 - 75 num\n | same
put archive/0/index  | run check => 75 - 75 num\n | same
cut archive/0/index | run check => 75 - 75 archive/0/index\n | same
grow archive/0/index x | run check => 75 - 75 archive/0/index\n | same
take archive/0/index archive/threads/231 | run check => 75 - 75 archive/0/index\n | same
# The number of posts, and the mark.
drop num | run check => 75 - 75 num\n | same
put num  | run check => 75 - 75 num\n | same
cut num | run check => 75 - 75 num\n | same
grow num x | run check => 75 - 75 num\n | same
take num dig | run check => 75 - 75 num\n | same
drop dig | run check => 75 - 75 dig\n | same
put dig  | run check => 75 - 75 dig\n | same
cut dig | run check => 75 - 75 dig\n | same
grow dig x | run check => 75 - 75 dig\n | same
take dig num | run check => 75 - 75 dig\n | same
# Held posts. If one is gone, nothing counts it.
drop pending/2 | run check => 0 ok 3 3 1 2 1 1 1 2\n | same
put pending/2  | run check => 75 - 75 pending/2\n | same
cut pending/2 | run check => 75 - 75 pending/2\n | same
grow pending/2 x | run check => 75 - 75 pending/2\n | same
take pending/2 pending/3 | run check => {ok} | same
drop tickets | run check => 75 - 75 tickets\n | same
put tickets  | run check => 75 - 75 tickets\n | same
cut tickets | run check => 75 - 75 tickets\n | same
grow tickets x | run check => 75 - 75 tickets\n | same
take tickets ids | run check => {ok} | same
# Ledgers. An empty file has nobody in it, as an absent one.
drop bounce/] | run check => {ok} | same
put bounce/]  | run check => {ok} | same
cut bounce/] | run check => 75 - 75 bounce/]\n | same
grow bounce/] x | run check => 75 - 75 bounce/]\n | same
take bounce/] bounce/L | run check => 75 - 75 bounce/]\n | same
drop digest/bounce/] | run check => {ok} | same
put digest/bounce/]  | run check => {ok} | same
cut digest/bounce/] | run check => 75 - 75 digest/bounce/]\n | same
grow digest/bounce/] x | run check => 75 - 75 digest/bounce/]\n | same
take digest/bounce/] digest/bounce/L | run check => 75 - 75 digest/bounce/]\n | same
# The queue.
drop queue/2 | run check => 0 ok 3 3 1 2 1 1 2 1\n | same
put queue/2  | run check => 75 - 75 queue/2\n | same
cut queue/2 | run check => 75 - 75 queue/2\n | same
grow queue/2 x | run check => 75 - 75 queue/2\n | same
take queue/2 queue/5 | run check => {ok} | same
drop ids | run check => 75 - 75 ids\n | same
put ids  | run check => 75 - 75 ids\n | same
cut ids | run check => 75 - 75 ids\n | same
grow ids x | run check => 75 - 75 ids\n | same
# Of the entries 2 and 5 only the first is below 4.
take ids tickets | run check => 0 ok 3 3 1 2 1 1 2 1\n | same
# Kept replies are not read.
drop done/0 | run check => {ok} | same
put done/0  | run check => {ok} | same
cut done/0 | run check => {ok} | same
grow done/0 x | run check => {ok} | same
take done/0 key | run check => {ok} | same
# Threads.
drop archive/threads/231 | run check => 75 - 75 archive/threads/231\n | same
put archive/threads/231  | run check => 75 - 75 archive/threads/231\n | same
cut archive/threads/231 | run check => 75 - 75 archive/threads/231\n | same
grow archive/threads/231 x | run check => 75 - 75 archive/threads/231\n | same
take archive/threads/231 archive/threads/161 | run check => 75 - 75 archive/threads/231\n | same
take archive/threads/161 archive/threads/231 | run check => 75 - 75 archive/threads/161\n | same
# The floor.
drop floor | run check => {ok} | same
put floor  | run check => 75 - 75 floor\n | same
cut floor | run check => 75 - 75 floor\n | same
grow floor x | run check => 75 - 75 floor\n | same
take floor num | run check => {ok} | same
";

#[test]
fn a_file_of_each_part_counts(rt: HostRuntime) -> Result<(), Fail> {
    hold::<Whole>(rt.alloc(), "files of parts", REST)
}
