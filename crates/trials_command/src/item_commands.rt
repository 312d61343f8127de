// Commands that give one item, each over what the one before it left, and members with their moments.
use crate::program::Whole;
use std::test::Fail;
use trials_scripts::hold;

const TABLE: &str = r"
let key 000102030405060708090a0b0c0d0e0f101112131415161718191a1b1c1d1e1f
list run make --key {key} list ex.org o@own.org => 0 made list@ex.org\n | input A
# Members come and go. The input isn't read.
at 1000000000 | run sub 7 list a@b => 0 7 0 subscribed\n | unread 1 | has log \0 | has subscribers/] layout 2\nTa@b\01000000000\0 | has counts/list 1\n
then at 1000000001 | run sub 8 list A@B => 0 8 0 already\n
# A number is answered once, whatever comes under it.
then at 1000000002 | run unsub 7 list a@b => 0 7 0 subscribed\n
then at 1000000003 | run unsub 9 list A@b => 0 9 0 unsubscribed\n
then at 1000000004 | run unsub 10 list a@b => 0 10 0 absent\n
then at 1000000005 | run sub 0 mod m@o => 0 0 0 subscribed\n
then at 1000000006 | run sub 0 mod m@O => 0 0 0 already\n
# A key is replaced after its time.
at 1000000300 | run rekey 33 {1..64:F} => 0 33 0 rekeyed\n | unread 1
then at 1001000300 | run rekey 35 {key} => 100 35 100 toosoon\n
then at 1001000301 | run rekey 36 {key} => 0 36 0 rekeyed\n
# Numbers below the floor are refused.
at 1000000500 | run floor 90 50 => 0 90 0 floored 50\n | unread 1
then at 1000000501 | run sub 7 list a@b => 100 7 100 stale\n
then at 1000000502 | run floor 91 20 => 0 91 0 floored 50\n
then at 1000000503 | run floor 92 100 => 100 92 100 badfloor\n
then at 1000000504 | run floor 0 600000 => 100 0 100 badfloor\n
# Members of a bucket of the first layout have the moment 0.
put subscribers/] Ta@b\0 | put counts/list 1\n | at 0 | run list -t list => 0 0 a@b\n | unread 1
then at 1000000400 | run sub 70 list a@5 => 0 70 0 subscribed\n
then at 0 | run list -t list => 0 1000000400 a@5\n0 a@b\n
then at 1000000500 | run sub 71 list A@5 => 0 71 0 already\n
then at 0 | run list list => 0 a@5\na@b\n
then at 1000000600 | run unsub 72 list a@b => 0 72 0 unsubscribed\n
then at 0 | run list -t list => 0 1000000400 a@5\n
then run list mod => 0
put subscribers/] Ta@b | put counts/list 1\n | run list list => 75 - 75 subscribers/]\n | same
list at 1000000000
run sub 7 list a@b => 75 - 75 nolist\n
";

#[test]
fn one_item_is_answered(rt: HostRuntime) -> Result<(), Fail> {
    hold::<Whole>(rt.alloc(), "single items", TABLE)
}
