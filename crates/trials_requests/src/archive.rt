// Mail that asks for the archive: the answers, and to whom the archive is open.
pub(crate) const TABLE: &str = r"
let m From: g@h\n\nhi\n
let none No such posts.\n
# What the entry of each mail begins with.
let mail 12:list-return-,6:ex.org,1:p,
let three --- post 3 of list@ex.org ---\nSubject: \n\n
let date \nDate: Sun, 09 Sep 2001 01:46:40 -0000\nSubject:\x20
let one-and-two --- post 1 of list@ex.org ---\nSubject: hello\n\nhi\n\n\n--- post 2 of list@ex.org ---\nSubject: x\n\nyo\n\n
# What each mail begins with.
let head Mailing-List: contact list-help@ex.org; run by ezmlm\nPrecedence: bulk\nFrom: list-help@ex.org\nTo:\x20
let entries 1: Sun, 09 Sep 2001 01:46:40 -0000; g@h\n\x09hello\n2: Sun, 09 Sep 2001 01:48:20 -0000; a@b\n\x09Re: hello\n3: Sun, 09 Sep 2001 01:46:39 -0000; c@d\n\x09other\n
# Three posts: two of one thread, the second without an LF at its end, and one of another.
list run new => 0 | put num 3\n | put archive/0/index 10:1000000000,3:g@h,2:20,5:hello,\n10:1000000100,3:a@b,2:14,9:Re: hello,\n9:999999999,3:c@d,2:10,5:other,\n | put archive/0/01 Subject: hello\n\nhi\n\n | put archive/0/02 Subject: x\n\nyo | put archive/0/03 Subject: \n | put archive/threads/231 5:hello,3:1,2, | input {m}
run mail g@h list-get.1_2@ex.org => 0 9 0 | gets queue/1 {mail}269:{head}g@h{date}archive of list@ex.org\n\n{one-and-two},3:g@h, | gets ids 1:2\n | same
run mail g@h list-GET.3@ex.org => 0 9 0 | gets queue/1 {mail}213:{head}g@h{date}archive of list@ex.org\n\n{three},3:g@h, | gets ids 1:2\n | same
run mail g@h list-get.3_99999999@ex.org => 0 9 0 | gets queue/1 {mail}213:{head}g@h{date}archive of list@ex.org\n\n{three},3:g@h, | gets ids 1:2\n | same
run mail g@h list-get.4@ex.org => 0 9 0 | gets queue/1 {mail}187:{head}g@h{date}archive of list@ex.org\n\n{none},3:g@h, | gets ids 1:2\n | same
run mail g@h list-get.3_2@ex.org => 0 9 0 | gets queue/1 {mail}187:{head}g@h{date}archive of list@ex.org\n\n{none},3:g@h, | gets ids 1:2\n | same
run mail g@h list-thread.1@ex.org => 0 9 0 | gets queue/1 {mail}269:{head}g@h{date}archive of list@ex.org\n\n{one-and-two},3:g@h, | gets ids 1:2\n | same
run mail g@h list-thread.2@ex.org => 0 9 0 | gets queue/1 {mail}269:{head}g@h{date}archive of list@ex.org\n\n{one-and-two},3:g@h, | gets ids 1:2\n | same
run mail g@h list-thread.4@ex.org => 0 9 0 | gets queue/1 {mail}187:{head}g@h{date}archive of list@ex.org\n\n{none},3:g@h, | gets ids 1:2\n | same
run mail g@h list-index.1@ex.org => 0 9 0 | gets queue/1 {mail}317:{head}g@h{date}archive of list@ex.org\n\n{entries},3:g@h, | gets ids 1:2\n | same
run mail g@h list-index.99@ex.org => 0 9 0 | gets queue/1 {mail}317:{head}g@h{date}archive of list@ex.org\n\n{entries},3:g@h, | gets ids 1:2\n | same
run mail g@h list-index.100@ex.org => 0 9 0 | gets queue/1 {mail}187:{head}g@h{date}archive of list@ex.org\n\n{none},3:g@h, | gets ids 1:2\n | same
run mail g@h list-index.199@ex.org => 0 9 0 | gets queue/1 {mail}187:{head}g@h{date}archive of list@ex.org\n\n{none},3:g@h, | gets ids 1:2\n | same
run mail g@h list-index.99999999@ex.org => 0 9 0 | gets queue/1 {mail}187:{head}g@h{date}archive of list@ex.org\n\n{none},3:g@h, | gets ids 1:2\n | same
# The archive is open to whom it says.
list run new => 0 | input {m}
put allow/subscribers/N Tg@h\0 | run mail g@h list-get.1@ex.org => 0 9 0
then input {m} | run mail g@h list-index.1@ex.org => 0 9 0
then input {m} | run mail g@h list-thread.1@ex.org => 0 9 0
put allow/subscribers/N Tg@h\0 | run mail g@h list-get.1@ex.org b => 0 31 0 | same
put allow/subscribers/N Tg@h\0 | run mail g@h list-index.1@ex.org b => 0 31 0 | same
put allow/subscribers/N Tg@h\0 | run mail g@h list-thread.1@ex.org b => 0 31 0 | same
put allow/subscribers/N Tg@h\0 | run mail g@h list-get.1@ex.org P => 0 31 0 | same
put allow/subscribers/N Tg@h\0 | run mail g@h list-index.1@ex.org P => 0 31 0 | same
put allow/subscribers/N Tg@h\0 | run mail g@h list-thread.1@ex.org P => 0 31 0 | same
put allow/subscribers/N Tg@h\0 | run mail g@h list-get.1@ex.org g => 0 31 0 | same
put allow/subscribers/N Tg@h\0 | run mail g@h list-index.1@ex.org g => 0 31 0 | same
put allow/subscribers/N Tg@h\0 | run mail g@h list-thread.1@ex.org g => 0 31 0 | same
put subscribers/N Tg@h\0 | run mail g@h list-get.1@ex.org g => 0 9 0
then input {m} | run mail g@h list-index.1@ex.org g => 0 9 0
then input {m} | run mail g@h list-thread.1@ex.org g => 0 9 0
put digest/subscribers/N Tg@h\0 | run mail g@h list-get.1@ex.org g => 0 9 0
then input {m} | run mail g@h list-index.1@ex.org g => 0 9 0
then input {m} | run mail g@h list-thread.1@ex.org g => 0 9 0
put subscribers/N Tg@h\0 | run mail g@h list-get.1@ex.org b => 0 31 0 | same
put subscribers/N Tg@h\0 | run mail g@h list-index.1@ex.org b => 0 31 0 | same
put subscribers/N Tg@h\0 | run mail g@h list-thread.1@ex.org b => 0 31 0 | same
put digest/subscribers/N Tg@h\0 | run mail g@h list-get.1@ex.org P => 0 31 0 | same
put digest/subscribers/N Tg@h\0 | run mail g@h list-index.1@ex.org P => 0 31 0 | same
put digest/subscribers/N Tg@h\0 | run mail g@h list-thread.1@ex.org P => 0 31 0 | same
put subscribers/N Tg@h\0 | run mail g@h list-get.1@ex.org gb => 0 31 0 | same
put subscribers/N Tg@h\0 | run mail g@h list-index.1@ex.org gb => 0 31 0 | same
put subscribers/N Tg@h\0 | run mail g@h list-thread.1@ex.org gb => 0 31 0 | same
put subscribers/N Tg@h\0 | run mail g@h list-get.1@ex.org gP => 0 31 0 | same
put subscribers/N Tg@h\0 | run mail g@h list-index.1@ex.org gP => 0 31 0 | same
put subscribers/N Tg@h\0 | run mail g@h list-thread.1@ex.org gP => 0 31 0 | same
put mod/subscribers/N Tg@h\0 | run mail g@h list-get.1@ex.org b => 0 9 0
then input {m} | run mail g@h list-index.1@ex.org b => 0 9 0
then input {m} | run mail g@h list-thread.1@ex.org b => 0 9 0
put mod/subscribers/N Tg@h\0 | run mail g@h list-get.1@ex.org P => 0 9 0
then input {m} | run mail g@h list-index.1@ex.org P => 0 9 0
then input {m} | run mail g@h list-thread.1@ex.org P => 0 9 0
put mod/subscribers/N Tg@h\0 | run mail g@h list-get.1@ex.org g => 0 9 0
then input {m} | run mail g@h list-index.1@ex.org g => 0 9 0
then input {m} | run mail g@h list-thread.1@ex.org g => 0 9 0
put mod/subscribers/N Tg@h\0 | run mail g@h list-get.1@ex.org gbP => 0 9 0
then input {m} | run mail g@h list-index.1@ex.org gbP => 0 9 0
then input {m} | run mail g@h list-thread.1@ex.org gbP => 0 9 0
# A damaged file is named if it is read, and each read may fail.
put num 03\n | put archive/0/index x | run mail g@h list-get.1@ex.org => 0 damaged 11 0 | same
put num 03\n | put archive/0/index x | run mail g@h list-index.1@ex.org => 0 damaged 10 0 | same
put num 03\n | put archive/0/index x | run mail g@h list-index.1@ex.org b => 0 31 0 | same
list run new => 0 | put num 3\n | put archive/0/index 10:1000000000,3:g@h,2:20,5:hello,\n10:1000000100,3:a@b,2:14,9:Re: hello,\n9:999999999,3:c@d,2:10,5:other,\n | put archive/0/01 Subject: hello\n\nhi\n\n | put archive/0/02 Subject: x\n\nyo | put archive/0/03 Subject: \n | put archive/threads/231 5:hello,3:1,2, | input {m}
turns 1 7 | fail | run mail g@h list-get.1@ex.org => 0 a read failed | same
fail 8 | run mail g@h list-get.1@ex.org => 0 9 0
";

pub(crate) const CUTS: &str = r"
let m From: g@h\n\nhi\n
# What the entry of each mail begins with.
let mail 12:list-return-,6:ex.org,1:p,
let date \nDate: Sun, 09 Sep 2001 01:46:40 -0000\nSubject:\x20
# What each mail begins with.
let head Mailing-List: contact list-help@ex.org; run by ezmlm\nPrecedence: bulk\nFrom: list-help@ex.org\nTo:\x20
let each --- post % of list@ex.org ---\n{1..41943:x}\n\n
# An answer has 4,194,304 bytes of posts, or one post.
list run new => 0 | input {m}
put num 2\n | put archive/0/index 1:0,3:g@h,7:4194303,1:x,\n1:0,3:g@h,1:1,1:x,\n | put archive/0/01 {1..4194303:x} | put archive/0/02 x | run mail g@h list-get.1_2@ex.org => 0 9 0 | gets queue/1 {mail}4194540:{head}g@h{date}archive of list@ex.org\n\n--- post 1 of list@ex.org ---\n{1..4194303:x}\n\n--- post 2 of list@ex.org ---\nx\n\n,3:g@h, | gets ids 1:2\n | same
put num 2\n | put archive/0/index 1:0,3:g@h,7:4194303,1:x,\n1:0,3:g@h,1:2,1:x,\n | put archive/0/01 {1..4194303:x} | put archive/0/02 xx | run mail g@h list-get.1_2@ex.org => 0 9 0 | gets queue/1 {mail}4194507:{head}g@h{date}archive of list@ex.org\n\n--- post 1 of list@ex.org ---\n{1..4194303:x}\n\n,3:g@h, | gets ids 1:2\n | same
put num 2\n | put archive/0/index 1:0,3:g@h,7:4194305,1:x,\n1:0,3:g@h,1:1,1:x,\n | put archive/0/01 {1..4194305:x} | put archive/0/02 x | run mail g@h list-get.1_2@ex.org => 0 9 0 | gets queue/1 {mail}4194509:{head}g@h{date}archive of list@ex.org\n\n--- post 1 of list@ex.org ---\n{1..4194305:x}\n\n,3:g@h, | gets ids 1:2\n | same
# An answer has a hundred posts.
put num 100\n | each 1 99 archive/0 x | put archive/1/00 x | put archive/0/index {1..99:1:0,3:g@h,1:1,1:x,\n} | put archive/1/index 1:0,3:g@h,1:1,1:x,\n | run mail g@h list-get.1_101@ex.org => 0 9 0 | gets queue/1 {mail}3564:{head}g@h{date}archive of list@ex.org\n\n{1..100:--- post % of list@ex.org ---\nx\n\n},3:g@h, | gets ids 1:2\n | same
put num 101\n | each 1 100 archive/0 x | put archive/1/01 x | put archive/0/index {1..99:1:0,3:g@h,1:1,1:x,\n} | put archive/1/index 1:0,3:g@h,1:1,1:x,\n1:0,3:g@h,1:1,1:x,\n | run mail g@h list-get.1_101@ex.org => 0 9 0 | gets queue/1 {mail}3564:{head}g@h{date}archive of list@ex.org\n\n{1..100:--- post % of list@ex.org ---\nx\n\n},3:g@h, | gets ids 1:2\n | same
put num 100\n | each 1 99 archive/0 {1..41943:x} | put archive/1/00 {1..41947:x} | put archive/0/index {1..99:1:0,3:g@h,5:41943,1:x,\n} | put archive/1/index 1:0,3:g@h,5:41947,1:x,\n | run mail g@h list-get.1_101@ex.org => 0 9 0 | gets queue/1 {mail}4197768:{head}g@h{date}archive of list@ex.org\n\n{1..99 each}--- post 100 of list@ex.org ---\n{1..41947:x}\n\n,3:g@h, | gets ids 1:2\n | same
put num 100\n | each 1 99 archive/0 {1..41943:x} | put archive/1/00 {1..41948:x} | put archive/0/index {1..99:1:0,3:g@h,5:41943,1:x,\n} | put archive/1/index 1:0,3:g@h,5:41948,1:x,\n | run mail g@h list-get.1_101@ex.org => 0 9 0 | gets queue/1 {mail}4155787:{head}g@h{date}archive of list@ex.org\n\n{1..98 each}--- post 99 of list@ex.org ---\n{1..41943:x}\n\n,3:g@h, | gets ids 1:2\n | same
";
