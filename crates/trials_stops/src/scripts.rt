// Scripts: items, each with its answer, and the words that make the list for them.

// Items, each with its answer on a new list after the items before it: the first thirty of an exercise, and a floor under their numbers.
pub(crate) const EXERCISE: &str = r"
A1:1,10:1000001000,4:list,10:u37@ex.com, => 1 0 subscribed
A1:2,10:1000002000,4:list,10:u74@ex.com, => 2 0 subscribed
A1:3,10:1000003000,4:list,10:u14@ex.com, => 3 0 subscribed
D1:4,10:1000004000,0:,31:list-return-1-u51=ex.com@ex.org,1:\n, => 4 0 ignored
A1:5,10:1000005000,6:digest,10:u88@ex.com, => 5 0 subscribed
R1:6,10:1000006000,4:list,10:u28@ex.com, => 6 0 absent
D1:7,10:1000007000,10:u65@ex.com,11:list@ex.org,58:From: u65@ex.com\nTo: list@ex.org\nSubject: topic 0\n\npost 7\n, => 7 0 posted 1
D1:8,10:1000008000,9:u5@ex.com,21:list-subscribe@ex.org,57:From: u5@ex.com\nTo: list@ex.org\nSubject: topic 1\n\npost 8\n, => 8 0 asked
S1:9,10:1000009000,1:1, => 9 0 dequeued
T2:10,10:1000010000, => 10 0 timed 0
A2:11,10:1000011000,4:list,10:u19@ex.com, => 11 0 subscribed
A2:12,10:1000012000,4:list,10:u56@ex.com, => 12 0 subscribed
A2:13,10:1000013000,4:list,10:u93@ex.com, => 13 0 subscribed
D2:14,10:1000014000,0:,31:list-return-1-u33=ex.com@ex.org,1:\n, => 14 0 ignored
A2:15,10:1000015000,6:digest,10:u70@ex.com, => 15 0 subscribed
R2:16,10:1000016000,4:list,10:u10@ex.com, => 16 0 absent
D2:17,10:1000017000,10:u47@ex.com,11:list@ex.org,59:From: u47@ex.com\nTo: list@ex.org\nSubject: topic 3\n\npost 17\n, => 17 0 posted 2
D2:18,10:1000018000,10:u84@ex.com,21:list-subscribe@ex.org,59:From: u84@ex.com\nTo: list@ex.org\nSubject: topic 4\n\npost 18\n, => 18 0 asked
S2:19,10:1000019000,1:2, => 19 0 dequeued
T2:20,10:1000020000, => 20 0 timed 0
A2:21,10:1000021000,4:list,9:u1@ex.com, => 21 0 subscribed
A2:22,10:1000022000,4:list,10:u38@ex.com, => 22 0 subscribed
A2:23,10:1000023000,4:list,10:u75@ex.com, => 23 0 subscribed
D2:24,10:1000024000,0:,31:list-return-2-u15=ex.com@ex.org,1:\n, => 24 0 ignored
A2:25,10:1000025000,6:digest,10:u52@ex.com, => 25 0 subscribed
R2:26,10:1000026000,4:list,10:u89@ex.com, => 26 0 absent
D2:27,10:1000027000,10:u29@ex.com,11:list@ex.org,59:From: u29@ex.com\nTo: list@ex.org\nSubject: topic 6\n\npost 27\n, => 27 0 posted 3
D2:28,10:1000028000,10:u66@ex.com,21:list-subscribe@ex.org,59:From: u66@ex.com\nTo: list@ex.org\nSubject: topic 0\n\npost 28\n, => 28 0 asked
S2:29,10:1000029000,1:3, => 29 0 dequeued
T2:30,10:1000030000, => 30 0 timed 0
F2:31,10:1000000500,2:20, => 31 0 floored 20
";

// Other sets, keys, addresses in one file, and some of the numbers again with other acts.
pub(crate) const SETTINGS: &str = r"
A1:1,10:1000000001,4:list,3:a@b, => 1 0 subscribed
A1:2,10:1000000002,3:mod,3:m@o, => 2 0 subscribed
A1:3,10:1000000003,4:list,3:A@B, => 3 0 already
A1:4,10:1000000004,4:deny,3:x@y, => 4 0 subscribed
A1:5,10:1000000005,5:allow,3:e@f, => 5 0 subscribed
K1:6,10:1000000006,64:1f1f1f1f1f1f1f1f1f1f1f1f1f1f1f1f1f1f1f1f1f1f1f1f1f1f1f1f1f1f1f1f, => 6 0 rekeyed
K1:7,10:1000000007,64:2e2e2e2e2e2e2e2e2e2e2e2e2e2e2e2e2e2e2e2e2e2e2e2e2e2e2e2e2e2e2e2e, => 7 100 toosoon
A1:8,10:1000000008,4:list,3:a@5, => 8 0 subscribed
R1:9,10:1000000009,4:list,3:A@B, => 9 0 unsubscribed
A2:10,10:1000000010,4:list,3:a@b, => 10 0 subscribed
R2:11,10:1000000011,3:mod,3:m@o, => 11 0 unsubscribed
R2:12,10:1000000012,4:deny,3:x@y, => 12 0 unsubscribed
R2:13,10:1000000013,5:allow,3:q@r, => 13 0 absent
R2:14,10:1000000014,4:list,3:a@5, => 14 0 unsubscribed
A1:3,10:1000000043,4:list,3:s@t, => 3 0 already
R1:7,10:1000000052,4:list,3:c@d, => 7 100 toosoon
A2:11,10:1000000061,3:mod,3:m@o, => 11 0 unsubscribed
K2:14,10:1000000070,64:2e2e2e2e2e2e2e2e2e2e2e2e2e2e2e2e2e2e2e2e2e2e2e2e2e2e2e2e2e2e2e2e, => 14 0 unsubscribed
";

// On a moderated list: a post is held and accepted, somebody joins by mail, and the archive is asked. Some items come again under their numbers,
// with other acts. The cookies were made by hand from their grammar, under the key.
pub(crate) const REQUESTS: &str = r"
A1:1,10:1000000001,3:mod,3:m@o, => 1 0 subscribed
A1:2,10:1000000002,4:list,3:a@b, => 2 0 subscribed
D1:3,10:1000000003,3:a@b,11:list@ex.org,45:From: a@b\nTo: list@ex.org\nSubject: hello\n\nhi\n, => 3 0 held 1
D1:4,10:1000000004,3:m@o,41:list-accept-1.cjclnlicifckhechdfbd@ex.org,1:\n, => 4 0 posted 1
D1:5,10:1000000005,3:m@o,41:list-accept-1.cjclnlicifckhechdfbd@ex.org,1:\n, => 5 100 gone
D1:6,10:1000000006,3:g@h,21:list-subscribe@ex.org,1:\n, => 6 0 asked
D1:7,10:1000000007,3:g@h,50:list-sc.1000000006.ambdjognicecmifockjn-g=h@ex.org,1:\n, => 7 0 subscribed
D1:8,10:1000000008,3:g@h,50:list-sc.1000000006.ambdjognicecmifockjn-g=h@ex.org,1:\n, => 8 0 already
D1:9,10:1000000009,3:g@h,16:list-help@ex.org,1:\n, => 9 0 help
D2:10,10:1000000010,3:g@h,17:list-owner@ex.org,1:\n, => 10 0 owner
D1:3,10:1000000011,3:c@d,16:list-help@ex.org,1:\n, => 3 0 held 1
D1:4,10:1000000012,3:m@o,41:list-accept-1.cjclnlicifckhechdfbd@ex.org,1:\n, => 4 0 posted 1
D1:7,10:1000000013,3:g@h,50:list-sc.1000000006.ambdjognicecmifockjn-g=h@ex.org,1:\n, => 7 0 subscribed
D1:9,10:1000000014,3:g@h,21:list-subscribe@ex.org,1:\n, => 9 0 help
D2:11,10:1000000015,3:g@h,17:list-get.1@ex.org,1:\n, => 11 0 archive
D2:12,10:1000000016,3:g@h,19:list-index.1@ex.org,1:\n, => 12 0 archive
D2:13,10:1000000017,3:g@h,20:list-thread.1@ex.org,1:\n, => 13 0 archive
D2:14,10:1000000018,3:a@b,23:list-unsubscribe@ex.org,1:\n, => 14 0 asked
D1:5,10:1000000019,3:m@o,41:list-accept-1.cjclnlicifckhechdfbd@ex.org,1:\n, => 5 100 gone
D2:11,10:1000000020,3:g@h,17:list-get.1@ex.org,1:\n, => 11 0 archive
";

// A post goes out and bounces, somebody leaves by mail, entries leave the queue, and a timed run warns those whom the post didn't reach.
pub(crate) const BOUNCES: &str = r"
A1:1,10:1000000001,4:list,3:a@b, => 1 0 subscribed
A1:2,10:1000000002,4:list,3:c@d, => 2 0 subscribed
D1:3,10:1000000003,3:a@b,11:list@ex.org,45:From: a@b\nTo: list@ex.org\nSubject: hello\n\nhi\n, => 3 0 posted 1
D1:4,10:1000000004,3:c@d,23:list-unsubscribe@ex.org,1:\n, => 4 0 asked
D1:5,10:1000000005,3:c@d,50:list-uc.1000000004.aelpnjlkibonhacaafnf-c=d@ex.org,1:\n, => 5 0 unsubscribed
D1:6,10:1000000006,0:,24:list-return-1-a=b@ex.org,1:\n, => 6 0 bounce
D1:7,10:1000000007,0:,24:list-return-1-c=d@ex.org,1:\n, => 7 0 ignored
D1:8,10:1000000008,0:,24:list-return-1-a=b@ex.org,1:\n, => 8 0 ignored
S1:9,10:1000000009,1:1, => 9 0 dequeued
S2:10,10:1000000010,2:99, => 10 100 noentry
D2:11,10:1000000011,0:,11:list@ex.org,45:From: a@b\nTo: list@ex.org\nSubject: hello\n\nhi\n, => 11 100 nosender
A2:12,10:1000000012,4:list,3:e@f, => 12 0 subscribed
D1:3,10:1000000013,3:c@d,11:list@ex.org,45:From: a@b\nTo: list@ex.org\nSubject: hello\n\nhi\n, => 3 0 posted 1
D1:6,10:1000000014,0:,24:list-return-1-a=b@ex.org,1:\n, => 6 0 bounce
S1:9,10:1000000015,1:2, => 9 0 dequeued
R2:13,10:1000000016,4:list,3:e@f, => 13 0 unsubscribed
T2:14,10:1001000006, => 14 0 timed 1
D2:15,10:1001000007,0:,59:list-return-warn-1001000006.cbanjmmjlcfdoeobepkf-a=b@ex.org,1:\n, => 15 0 bounce
T2:14,10:1001000008, => 14 0 timed 1
S2:10,10:1001000009,1:2, => 10 100 noentry
";

// The words that make the list.
pub(crate) const MAKE: &str =
    "make --key 000102030405060708090a0b0c0d0e0f101112131415161718191a1b1c1d1e1f list ex.org o@own.org";

pub(crate) const MAKE_MODERATED: &str =
    "make -m --key 000102030405060708090a0b0c0d0e0f101112131415161718191a1b1c1d1e1f list ex.org o@own.org";
