// Sets divided by the rules in the input, and the streams that move their parts.
use crate::program::Whole;
use std::test::Fail;
use trials_scripts::hold;

// The buckets of `a@b`, `c@d` and `e@f` are 29, 12 and 23. The rules have 21 bytes.
const PARTS: &str = r"
let key 000102030405060708090a0b0c0d0e0f101112131415161718191a1b1c1d1e1f
let rules b:0:52:one\n:0:20:two\n
let divided 0 one 1\na@b\ntwo 1\nc@d\n- 1\ne@f\n
let three A1:1,10:1000000000,4:list,3:a@b,A1:2,10:1000000000,4:list,3:c@d,A1:3,10:1000000000,4:list,3:e@f,
let absent 100 - 100 absent\n
list run make --key {key} list ex.org o@own.org => 0 made list@ex.org\n | input {three} | run spool => 0 1 0 subscribed\n2 0 subscribed\n3 0 subscribed\n | at 1000000600 | input {rules}
run split list => {divided} | unread 0 | same
run split -r 500 list two => 0 R3:500,10:1000000600,4:list,3:c@d, | unread 0 | same
run split -a 500 list two => 0 A3:500,10:1000000600,4:list,3:c@d, | same
run split -r 500 list - => 0 R3:500,10:1000000600,4:list,3:e@f,
run split -a 999999900000 list one => 0 A12:999999900000,10:1000000600,4:list,3:a@b,
input :0:28:x\n | run split -r 9 list x => 0 R1:9,10:1000000600,4:list,3:c@d,R2:10,10:1000000600,4:list,3:e@f,
at 0 | run split -a 1 list one => 0 A1:1,1:0,4:list,3:a@b,
at 253402300799 | run split -a 1 list one => 0 A1:1,12:253402300799,4:list,3:a@b,
# A part without members, a set without members, and no part.
run split mod => 0 one 0\ntwo 0\n- 0\n
run split -a 1 mod one => 0
input d:0:52:one\nd:0:52:two\n | run split -r 1 list two => 0
run split -a 1 list three => {absent} | same
run split -a 1 list a/b => {absent}
run split -a 1 list '' => {absent}
run split -a 1 list ONE => {absent}
# No rules, a domain that the host ends in without its dot, a host's own hosts, any case, and a name that comes again.
input  | run split list => 0 - 3\na@b\nc@d\ne@f\n
then run sub 4 list x@notex.org => 0 4 0 subscribed\n | run sub 5 list x@lists.ex.org => 0 5 0 subscribed\n | run sub 6 list X@EX.org => 0 6 0 subscribed\n | input ex.ORG:0:52:x\n | run split list => 0 x 2\nX@ex.org\nx@lists.ex.org\n- 4\na@b\nc@d\ne@f\nx@notex.org\n
input b:0:52:x\nd:0:52:y\nf:0:52:x\n | run split list => 0 x 2\na@b\ne@f\ny 1\nc@d\n- 0\n
input :29:29:x\n:12:12:y\n | run split list => 0 x 1\na@b\ny 1\nc@d\n- 1\ne@f\n
# Lines that are no rules.
input b:0:53:one\n | run split list => 65 - 65 bad 0\n | unread 0 | same
input b:0:52:one | run split list => 65 - 65 bad 0\n
input {rules}x\n | run split list => 65 - 65 bad 21\n
input {rules}x\n | run split -a 1 list nobody => 65 - 65 bad 21\n
# Too many bytes, even if the first line is bad: one more is read.
input {1..1048577:x} | run split list => 65 - 65 long\n | unread 0 | same
input {1..1048579:x} | run split -a 1 list nobody => 65 - 65 long\n | unread 2 | same
input {1..1048576:x} | run split list => 65 - 65 bad 0\n
# The two that print a stream ask the clock before everything except the words.
at never | run split list => {divided}
at never | run split -a 0 list two => 65 - 65 words\n | unread 21
at never | run split -a 1 list two => 69 - 69 clock\n | unread 21 | same
at never | input x | run split -r 1 list two => 69 - 69 clock\n | unread 1
at never | fail 1 | run split -r 1 list two => 73 | unread 21 | same
read 1 | run split list => 74 - 74 input\n | same
read 1 | run split -r 1 list two => 74 - 74 input\n | same
# Damaged files come after the rules, and a missing part after the files.
put config x | input x | run split list => 65 - 65 bad 0\n
put config x | run split list => 75 - 75 config\n | same
put subscribers/] Ta@b | run split list => 75 - 75 subscribers/]\n | same
put subscribers/] Ta@b | run split -a 1 list nobody => 75 - 75 subscribers/]\n | same
put subscribers/] Ta@b | run split mod => 0 one 0\ntwo 0\n- 0\n
put subscribers/^ Ta@b\0 | run split -r 1 list one => 75 - 75 subscribers/^\n | same
put log \x01a | run split -r 1 list one => 75 - 75 log\n | same
list at 1000000600 | input {rules}
run split list => 75 - 75 nolist\n | unread 0
run split -a 1 list two => 75 - 75 nolist\n
input x | run split -a 1 list two => 65 - 65 bad 0\n
read 1 | run split list => 74 - 74 input\n
fail 1 | run split list => 111 - 111 disk\n
";

#[test]
fn a_set_is_divided_by_the_input_s_rules(rt: HostRuntime) -> Result<(), Fail> {
    hold::<Whole>(rt.alloc(), "sets divided", PARTS)
}

// Every call fails in turn: the store is opened by two, the configuration is read by one and the set by 53, and the last gives the text.
const FAILING: &str = r"
let key 000102030405060708090a0b0c0d0e0f101112131415161718191a1b1c1d1e1f
let three A1:1,10:1000000000,4:list,3:a@b,A1:2,10:1000000000,4:list,3:c@d,A1:3,10:1000000000,4:list,3:e@f,
list run make --key {key} list ex.org o@own.org => 0 made list@ex.org\n | input {three} | run spool => 0 1 0 subscribed\n2 0 subscribed\n3 0 subscribed\n | at 1000000600 | input b:0:52:one\n:0:20:two\n
turns 1 56 | fail | run split list => 111 - 111 disk\n | same
fail 57 | run split list => 73 | same
fail 58 | run split list => 0 one 1\na@b\ntwo 1\nc@d\n- 1\ne@f\n | same
turns 1 56 | fail | run split -r 500 list two => 111 - 111 disk\n | same
turns 1 56 | fail | run split -a 500 list nobody => 111 - 111 disk\n | same
fail 57 | run split -r 500 list two => 73 | same
fail 57 | run split -a 500 list nobody => 73 | same
fail 58 | run split -r 500 list two => 0 R3:500,10:1000000600,4:list,3:c@d, | same
";

#[test]
fn a_division_tells_of_each_call_that_fails(rt: HostRuntime) -> Result<(), Fail> {
    hold::<Whole>(rt.alloc(), "failing calls of a division", FAILING)
}
