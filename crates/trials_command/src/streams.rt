// How streams are answered, with limits and over inputs that fail, and the making of a list.
use crate::program::Whole;
use std::test::Fail;
use trials_scripts::hold;

const TABLE: &str = r"
let key 000102030405060708090a0b0c0d0e0f101112131415161718191a1b1c1d1e1f
let made 0 made list@ex.org\n
# Items of 32 bytes, whose elements begin at 0, 1, 5, 19 and 26.
let a A1:7,10:1000000000,4:list,3:a@b,
let twice {a}A1:8,10:1000000001,4:list,3:A@B,
let added 7 0 subscribed\n
list run make --key {key} list ex.org o@own.org => {made}
input  | run spool => 0
input {a} | run spool => 0 {added}
input {twice} | run spool => 0 {added}8 0 already\n
input {twice}A1:9,10:1000000002,4:list,3:a@ | run spool => 65 {added}8 0 already\n- 65 short 90\n
input Q | run spool => 65 - 65 bad 0\n
input {a}Q1:8,10:1000000001, | run spool => 65 {added}- 65 bad 32\n
# A number of its own is answered once.
let again {a}R1:8,10:1000000001,4:list,3:a@b,A1:7,10:1000000002,4:list,3:a@b,R1:9,10:1000000003,4:list,3:a@b,
input {again} | run spool => 0 {added}8 0 unsubscribed\n{added}9 0 absent\n
# A floor, and repeats below it in the same group.
let floor {a}F1:0,10:1000000001,1:8,A1:7,10:1000000002,4:list,3:a@b,A1:8,10:1000000003,4:list,3:c@d,
input {floor} | run spool => 0 {added}0 0 floored 8\n7 100 stale\n8 0 subscribed\n
# Limits.
input {twice} | run spool -m 2 => 0 {added}8 0 already\n
input {twice} | run spool -m 1 => 72 {added}- 72 more\n
input {a} | run spool -m 1000000 => 0 {added}
input {a} | run spool -m 0 => 65 - 65 words\n
input {a} | run spool -m 1000001 => 65 - 65 words\n
# Reads that fail. An item takes 18: the bytes of letter, lengths, colons and commas one by one, and each content at once.
input {twice} | read 1 | run spool => 74 - 74 input\n
input {twice} | read 18 | run spool => 74 - 74 input\n
input {twice} | read 19 | run spool => 74 {added}- 74 input\n
input {twice} | read 38 | run spool => 0 {added}8 0 already\n
# A list is made once.
run make --key {key} list ex.org o@own.org => 100 - 100 there\n | same
list at 1000000000
run make --key {key} list ex.org o@own.org => {made}
fail 1 | run make --key {key} list ex.org o@own.org => 111 - 111 disk\n
put config  | run make --key {key} list ex.org o@own.org => 100 - 100 there\n
";

#[test]
fn a_stream_is_answered(rt: HostRuntime) -> Result<(), Fail> {
    hold::<Whole>(rt.alloc(), "streams", TABLE)
}
