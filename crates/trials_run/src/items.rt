// How items are answered over the files of a list, which files they leave, and how many reads they take.
use crate::program::Calls;
use std::test::Fail;
use trials_scripts::hold;

// The files of a new list that items read are its configuration, its key, and the counts of its five sets. The kept replies of `bad` are partly
// outside the grammar: from the number 2 on a number without a code, the codes 37 and 35, and a number where none belongs; and then one reply of
// a post. `two_keys` are the keys after two changes: the one that is in force, the one before, and when that was replaced, at 1,001,000,301.
const TABLE: &str = r"
let bad {1..26:\0}\x01%\0\0\0\0\0\0\0\0#\0\0\0\0\0\0\0\0\x04\x01\0\0\0\0\0\0\0\x01\0\0\0\0\0\0\0\x09{0..4544:\0}
let two_keys {1..32:\xFE}{1..32:\xFF}\0\0\0\0;\xAA\x0Dm
list put config flags BDFGHJKLMpRSTU\nlocal list\nhost ex.org\nowner o@own.org\nprefix \nmax 1048576\n | put key \0\x01\x02\x03\x04\x05\x06\x07\x08\x09\n\x0B\x0C\x0D\x0E\x0F\x10\x11\x12\x13\x14\x15\x16\x17\x18\x19\x1A\x1B\x1C\x1D\x1E\x1F | put counts/list 0\n | put counts/digest 0\n | put counts/allow 0\n | put counts/deny 0\n | put counts/mod 0\n
# Each number is answered once.
input A1:7,10:1000000000,4:list,3:a@b,A1:8,10:1000000001,4:list,3:A@B,A1:7,10:1000000000,4:list,3:a@b,A1:8,10:1000000001,4:list,3:A@B,A1:7,10:1000000002,4:list,3:c@d,R1:0,10:1000000003,4:list,3:c@d,R1:9,10:1000000004,4:list,3:A@b,A1:7,10:1000000000,4:list,3:a@b,R1:0,10:1000000005,4:list,3:a@b,A1:9,10:1000000006,4:list,3:a@b, | run apply => 0 4 0\n5 0\n4 0\n5 0\n4 0\n7 0\n6 0\n4 0\n7 0\n6 0\n | lacks subscribers/] | has counts/list 0\n
# A member is added once.
input A1:7,10:1000000000,4:list,3:a@b,A1:8,10:1000000001,4:list,3:A@B, | run apply => 0 4 0\n5 0\n | has subscribers/] layout 2\nTa@b\01000000000\0 | has counts/list 1\n
# A member is added to a bucket without moments, once.
put subscribers/] Ta@b\0 | put counts/list 1\n | input A2:70,10:1000000400,4:list,3:a@5, | run apply => 0 4 0\n | has subscribers/] layout 2\nTa@5\01000000400\0Ta@b\00\0 | has counts/list 2\n | input A2:71,10:1000000500,4:list,3:A@5, | run apply => 0 5 0\n | has subscribers/] layout 2\nTa@5\01000000400\0Ta@b\00\0 | has counts/list 2\n
# A set is full.
put counts/list 100000\n | input A1:1,10:1000000000,4:list,3:a@b, | run apply => 0 20 0\n | has counts/list 100000\n
# An empty ledger: leaving.
put subscribers/] layout 2\nTa@b\01000000000\0 | put counts/list 1\n | put bounce/]  | input R1:9,10:1000000000,4:list,3:A@B, | run apply => 0 6 0\n | lacks subscribers/] | has counts/list 0\n | has bounce/] 
# An empty ledger: leaving another set.
put subscribers/] layout 2\nTa@b\01000000000\0 | put counts/list 1\n | put bounce/]  | input R1:9,10:1000000000,6:digest,3:a@b, | run apply => 0 7 0\n | has subscribers/] layout 2\nTa@b\01000000000\0 | has counts/list 1\n | has bounce/] 
# The ledger of somebody who leaves: leaving.
put subscribers/] layout 2\nTa@b\01000000000\0 | put counts/list 1\n | put bounce/] 28:3:a@b,10:1000000000,1:n,1:1,, | input R1:9,10:1000000000,4:list,3:A@B, | run apply => 0 6 0\n | lacks subscribers/] | has counts/list 0\n | lacks bounce/]
# The ledger of somebody who leaves: leaving another set.
put subscribers/] layout 2\nTa@b\01000000000\0 | put counts/list 1\n | put bounce/] 28:3:a@b,10:1000000000,1:n,1:1,, | input R1:9,10:1000000000,6:digest,3:a@b, | run apply => 0 7 0\n | has subscribers/] layout 2\nTa@b\01000000000\0 | has counts/list 1\n | has bounce/] 28:3:a@b,10:1000000000,1:n,1:1,,
# The ledger of another: leaving.
put subscribers/] layout 2\nTa@b\01000000000\0 | put counts/list 1\n | put bounce/] 28:3:a@5,10:1000000000,1:n,1:1,, | input R1:9,10:1000000000,4:list,3:A@B, | run apply => 0 6 0\n | lacks subscribers/] | has counts/list 0\n | has bounce/] 28:3:a@5,10:1000000000,1:n,1:1,,
# The ledger of another: leaving another set.
put subscribers/] layout 2\nTa@b\01000000000\0 | put counts/list 1\n | put bounce/] 28:3:a@5,10:1000000000,1:n,1:1,, | input R1:9,10:1000000000,6:digest,3:a@b, | run apply => 0 7 0\n | has subscribers/] layout 2\nTa@b\01000000000\0 | has counts/list 1\n | has bounce/] 28:3:a@5,10:1000000000,1:n,1:1,,
# A ledger of two: leaving.
put subscribers/] layout 2\nTa@b\01000000000\0 | put counts/list 1\n | put bounce/] 28:3:a@5,10:1000000000,1:n,1:1,,28:3:a@b,10:1000000000,1:n,1:1,, | input R1:9,10:1000000000,4:list,3:A@B, | run apply => 0 6 0\n | lacks subscribers/] | has counts/list 0\n | has bounce/] 28:3:a@5,10:1000000000,1:n,1:1,,
# A ledger of two: leaving another set.
put subscribers/] layout 2\nTa@b\01000000000\0 | put counts/list 1\n | put bounce/] 28:3:a@5,10:1000000000,1:n,1:1,,28:3:a@b,10:1000000000,1:n,1:1,, | input R1:9,10:1000000000,6:digest,3:a@b, | run apply => 0 7 0\n | has subscribers/] layout 2\nTa@b\01000000000\0 | has counts/list 1\n | has bounce/] 28:3:a@5,10:1000000000,1:n,1:1,,28:3:a@b,10:1000000000,1:n,1:1,,
# Floors, after items of the numbers 7 and 8.
input A1:7,10:1000000000,4:list,3:a@b,A1:8,10:1000000001,4:list,3:A@B,F2:90,10:1000000500,2:50,A1:7,10:1000000000,4:list,3:a@b,F2:90,10:1000000500,2:50,F2:91,10:1000000501,2:20,F2:92,10:1000000502,3:100,F1:0,10:1000000503,6:600000,F2:92,10:1000000504,2:60,A2:49,10:1000000505,4:list,3:a@b,A2:50,10:1000000506,4:list,3:a@b, | run apply => 0 4 0\n5 0\n34 50\n35 0\n34 50\n34 50\n36 0\n36 0\n36 0\n35 0\n5 0\n | has floor 50\n | run floor => 0 50 | run kept 7 8 49 50 90 91 92 93 => 0 \0\0\0\0\0\0\0\0\0\0\0\0\0\0\0\0\0\0\0\0\0\0\0\0\0\0\0\x05\0\0\0\0\0\0\0\0\x22\0\0\0\0\0\0\02\x22\0\0\0\0\0\0\02$\0\0\0\0\0\0\0\0\0\0\0\0\0\0\0\0\0
# The ends of the files of kept replies.
input R3:511,10:1000000000,4:list,3:c@d,R3:512,10:1000000000,4:list,3:c@d,R4:1023,10:1000000000,4:list,3:c@d,R4:1024,10:1000000000,4:list,3:c@d,R12:999999999999,10:1000000000,4:list,3:c@d, | run apply => 0 7 0\n7 0\n7 0\n7 0\n7 0\n | run kept 511 512 1023 1024 999999999999 => 0 \x07\0\0\0\0\0\0\0\0\x07\0\0\0\0\0\0\0\0\x07\0\0\0\0\0\0\0\0\x07\0\0\0\0\0\0\0\0\x07\0\0\0\0\0\0\0\0 | input A12:999999999999,10:1000000000,4:list,3:a@b, | run apply => 0 7 0\n
# A floor within the second file of kept replies.
input R3:511,10:1000000000,4:list,3:c@d,R3:512,10:1000000000,4:list,3:c@d,R4:1023,10:1000000000,4:list,3:c@d,R4:1024,10:1000000000,4:list,3:c@d,R12:999999999999,10:1000000000,4:list,3:c@d,F1:0,10:1000000000,4:1023, | run apply => 0 7 0\n7 0\n7 0\n7 0\n7 0\n34 1023\n | lacks done/0 | run kept 512 1023 1024 => 0 \0\0\0\0\0\0\0\0\0\x07\0\0\0\0\0\0\0\0\x07\0\0\0\0\0\0\0\0
# A floor after the second file.
input R3:511,10:1000000000,4:list,3:c@d,R3:512,10:1000000000,4:list,3:c@d,R4:1023,10:1000000000,4:list,3:c@d,R4:1024,10:1000000000,4:list,3:c@d,R12:999999999999,10:1000000000,4:list,3:c@d,F1:0,10:1000000000,4:1024, | run apply => 0 7 0\n7 0\n7 0\n7 0\n7 0\n34 1024\n | lacks done/0 | lacks done/1 | run kept 1024 => 0 \x07\0\0\0\0\0\0\0\0
# A floor within the third file.
input R3:511,10:1000000000,4:list,3:c@d,R3:512,10:1000000000,4:list,3:c@d,R4:1023,10:1000000000,4:list,3:c@d,R4:1024,10:1000000000,4:list,3:c@d,R12:999999999999,10:1000000000,4:list,3:c@d,F1:0,10:1000000000,4:1025, | run apply => 0 7 0\n7 0\n7 0\n7 0\n7 0\n34 1025\n | lacks done/0 | lacks done/1 | lacks done/2 | run kept 999999999999 => 0 \x07\0\0\0\0\0\0\0\0
# Keys are changed after their time.
input K2:33,10:1000000300,64:{1..64:f},K2:35,10:1001000300,64:fefefefefefefefefefefefefefefefefefefefefefefefefefefefefefefefe,K2:36,10:1001000301,64:fefefefefefefefefefefefefefefefefefefefefefefefefefefefefefefefe,K2:35,10:1009000000,64:fdfdfdfdfdfdfdfdfdfdfdfdfdfdfdfdfdfdfdfdfdfdfdfdfdfdfdfdfdfdfdfd, | run apply => 0 32 0\n33 0\n32 0\n33 0\n | has key {two_keys}
# A number's own kept reply is looked at: 2.
put done/0 {bad} | input A1:2,10:1000000000,4:list,3:a@b, | run apply => 0 damaged 19 0\n
# A number's own kept reply is looked at: 3.
put done/0 {bad} | input A1:3,10:1000000000,4:list,3:a@b, | run apply => 0 damaged 19 0\n
# A number's own kept reply is looked at: 4.
put done/0 {bad} | input A1:4,10:1000000000,4:list,3:a@b, | run apply => 0 damaged 19 0\n
# A number's own kept reply is looked at: 5.
put done/0 {bad} | input A1:5,10:1000000000,4:list,3:a@b, | run apply => 0 damaged 19 0\n
# A number's own kept reply is looked at: 6.
put done/0 {bad} | input A1:6,10:1000000000,4:list,3:a@b, | run apply => 0 1 9\n
# A number's own kept reply is looked at: 7.
put done/0 {bad} | input A1:7,10:1000000000,4:list,3:a@b, | run apply => 0 4 0\n
# Kept replies of 0 bytes: a member.
put done/0  | input A1:7,10:1000000000,4:list,3:a@b, | run apply => 0 damaged 19 0\n
# Kept replies of 0 bytes: a floor.
put done/0  | input F1:0,10:1000000000,1:9, | run apply => 0 damaged 19 0\n
# Kept replies of 4607 bytes: a member.
put done/0 {0..4606:\0} | input A1:7,10:1000000000,4:list,3:a@b, | run apply => 0 damaged 19 0\n
# Kept replies of 4607 bytes: a floor.
put done/0 {0..4606:\0} | input F1:0,10:1000000000,1:9, | run apply => 0 damaged 19 0\n
# Kept replies of 4608 bytes: a member.
put done/0 {0..4607:\0} | input A1:7,10:1000000000,4:list,3:a@b, | run apply => 0 4 0\n
# Kept replies of 4608 bytes: a floor.
put done/0 {0..4607:\0} | input F1:0,10:1000000000,1:9, | run apply => 0 34 9\n
# Kept replies of 4609 bytes: a member.
put done/0 {0..4608:\0} | input A1:7,10:1000000000,4:list,3:a@b, | run apply => 0 damaged 19 0\n
# Kept replies of 4609 bytes: a floor.
put done/0 {0..4608:\0} | input F1:0,10:1000000000,1:9, | run apply => 0 damaged 19 0\n
# A floor's file.
put floor 2\n | run floor => 0 2
put floor 999999999999\n | run floor => 0 999999999999
put floor  | run floor => 0 damaged 21 0
put floor 1\n | run floor => 0 damaged 21 0
put floor 02\n | run floor => 0 damaged 21 0
put floor 2 | run floor => 0 damaged 21 0
put floor 2\n\n | run floor => 0 damaged 21 0
put floor 1000000000000\n | run floor => 0 damaged 21 0
# A floor's file isn't read.
fail 1 | run floor => 0 a read failed | run floor => 0 1
# A damaged file.
put subscribers/] layout 2\nTa@b\01000000000\0 | put floor 1\n | input A1:7,10:1000000000,4:list,3:a@b, | run apply => 0 damaged 21 0\n
put subscribers/] layout 2\nTa@b\01000000000\0 | put floor 1\n | input A1:0,10:1000000000,4:list,3:a@b, | run apply => 0 5 0\n
put subscribers/]  | put floor 2\n | input A1:7,10:1000000000,4:list,3:a@b, | run apply => 0 damaged 3 29\n
put subscribers/] layout 2\nTa@b\01000000000\0 | put counts/list 1 | input R1:7,10:1000000000,4:list,3:a@b, | run apply => 0 damaged 8 0\n
put subscribers/]  | put key  | input K1:7,10:1000000000,64:0101010101010101010101010101010101010101010101010101010101010101, | run apply => 0 damaged 2 0\n
put counts/list 1\n | put bounce/] 1 | input R1:7,10:1000000000,4:list,3:a@b, | run apply => 0 7 0\n
put counts/list 1\n | put subscribers/] T | input F1:7,10:1000000000,1:5, | run apply => 0 34 5\n
put subscribers/] layout 2\nTa@b\01000000000\0 | put counts/list 1\n | put bounce/] 1 | input R1:7,10:1000000000,4:list,3:a@b, | run apply => 0 damaged 15 29\n
# A read fails.
turns 1 4 | put subscribers/] layout 2\nTa@b\01000000000\0 | put counts/list 1\n | put floor 5\n | input A1:7,10:1000000000,4:list,3:c@d, | fail | run apply => 0 a read failed\n
# All reads are made.
put subscribers/] layout 2\nTa@b\01000000000\0 | put counts/list 1\n | put floor 5\n | input A1:7,10:1000000000,4:list,3:c@d, | fail 5 | run apply => 0 4 0\n
# A read fails.
turns 1 3 | put subscribers/] layout 2\nTa@b\01000000000\0 | put counts/list 1\n | put floor 5\n | input A1:7,10:1000000000,4:list,3:a@b, | fail | run apply => 0 a read failed\n
# All reads are made.
put subscribers/] layout 2\nTa@b\01000000000\0 | put counts/list 1\n | put floor 5\n | input A1:7,10:1000000000,4:list,3:a@b, | fail 4 | run apply => 0 5 0\n
# A read fails.
turns 1 2 | put subscribers/] layout 2\nTa@b\01000000000\0 | put counts/list 1\n | put floor 5\n | input A1:0,10:1000000000,4:list,3:c@d, | fail | run apply => 0 a read failed\n
# All reads are made.
put subscribers/] layout 2\nTa@b\01000000000\0 | put counts/list 1\n | put floor 5\n | input A1:0,10:1000000000,4:list,3:c@d, | fail 3 | run apply => 0 4 0\n
# A read fails.
turns 1 5 | put subscribers/] layout 2\nTa@b\01000000000\0 | put counts/list 1\n | put floor 5\n | input R1:7,10:1000000000,4:list,3:a@b, | fail | run apply => 0 a read failed\n
# All reads are made.
put subscribers/] layout 2\nTa@b\01000000000\0 | put counts/list 1\n | put floor 5\n | input R1:7,10:1000000000,4:list,3:a@b, | fail 6 | run apply => 0 6 0\n
# A read fails.
turns 1 3 | put subscribers/] layout 2\nTa@b\01000000000\0 | put counts/list 1\n | put floor 5\n | input R1:7,10:1000000000,5:allow,3:a@b, | fail | run apply => 0 a read failed\n
# All reads are made.
put subscribers/] layout 2\nTa@b\01000000000\0 | put counts/list 1\n | put floor 5\n | input R1:7,10:1000000000,5:allow,3:a@b, | fail 4 | run apply => 0 7 0\n
# A read fails.
turns 1 3 | put subscribers/] layout 2\nTa@b\01000000000\0 | put counts/list 1\n | put floor 5\n | input K1:7,10:1000000000,64:0101010101010101010101010101010101010101010101010101010101010101, | fail | run apply => 0 a read failed\n
# All reads are made.
put subscribers/] layout 2\nTa@b\01000000000\0 | put counts/list 1\n | put floor 5\n | input K1:7,10:1000000000,64:0101010101010101010101010101010101010101010101010101010101010101, | fail 4 | run apply => 0 32 0\n
# A read fails.
put subscribers/] layout 2\nTa@b\01000000000\0 | put counts/list 1\n | put floor 5\n | input A1:4,10:1000000000,4:list,3:a@b, | fail 1 | run apply => 0 a read failed\n
# All reads are made.
put subscribers/] layout 2\nTa@b\01000000000\0 | put counts/list 1\n | put floor 5\n | input A1:4,10:1000000000,4:list,3:a@b, | fail 2 | run apply => 0 35 0\n
# A read fails.
turns 1 2 | put subscribers/] layout 2\nTa@b\01000000000\0 | put counts/list 1\n | put floor 5\n | input F1:0,10:1000000000,1:7, | fail | run apply => 0 a read failed\n
# All reads are made.
put subscribers/] layout 2\nTa@b\01000000000\0 | put counts/list 1\n | put floor 5\n | input F1:0,10:1000000000,1:7, | fail 3 | run apply => 0 34 7\n
# A read fails.
turns 1 2 | put subscribers/] layout 2\nTa@b\01000000000\0 | put counts/list 1\n | put floor 5\n | input F1:7,10:1000000000,1:7, | fail | run apply => 0 a read failed\n
# All reads are made.
put subscribers/] layout 2\nTa@b\01000000000\0 | put counts/list 1\n | put floor 5\n | input F1:7,10:1000000000,1:7, | fail 3 | run apply => 0 34 7\n
# A read fails.
turns 1 2 | put subscribers/] layout 2\nTa@b\01000000000\0 | put counts/list 1\n | put floor 5\n | input F1:7,10:1000000000,1:8, | fail | run apply => 0 a read failed\n
# All reads are made.
put subscribers/] layout 2\nTa@b\01000000000\0 | put counts/list 1\n | put floor 5\n | input F1:7,10:1000000000,1:8, | fail 3 | run apply => 0 36 0\n
# A read fails.
turns 1 3 | put subscribers/] layout 2\nTa@b\01000000000\0 | put counts/list 1\n | put floor 5\n | input F3:600,10:1000000000,1:7, | fail | run apply => 0 a read failed\n
# All reads are made.
put subscribers/] layout 2\nTa@b\01000000000\0 | put counts/list 1\n | put floor 5\n | input F3:600,10:1000000000,1:7, | fail 4 | run apply => 0 34 7\n
# A list is there.
run load => 0 list
# A damaged configuration.
put config flags | run load => 0 damaged 1 0
# A configuration isn't read.
fail 1 | run load => 0 a read failed
list drop log
# A floor removes 1,000 files at most.
each 0 1000 done {0..4598:\0}\x07\0\0\0\0\0\0\0\0 | input F1:0,10:1000000000,6:512002,F1:0,10:1000000000,6:512001,F1:0,10:1000000000,7:1024002, | run apply => 0 36 0\n34 512001\n36 0\n | run blocks 1001 => 0 1 | run kept 512000 512511 => 0 \0\0\0\0\0\0\0\0\0\x07\0\0\0\0\0\0\0\0 | run floor => 0 512001
# No list is there.
run load => 0 none
";

#[test]
fn items_are_answered_and_leave_so(rt: HostRuntime) -> Result<(), Fail> {
    hold::<Calls>(rt.alloc(), "items", TABLE)
}
