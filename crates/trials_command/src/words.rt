// Wrong command lines, and what is said of them, when there is neither a list nor a time.
use crate::program::Whole;
use std::test::Fail;
use trials_scripts::hold;

// The input has one item, which isn't read.
const COMMANDS: &str = r"
let key 000102030405060708090a0b0c0d0e0f101112131415161718191a1b1c1d1e1f
let usage 64 - 64 usage\n
let words 65 - 65 words\n
let nolist 75 - 75 nolist\n
list at never | input A1:7,10:1000000000,4:list,3:a@b,
run => {usage}
run spol => {usage} | unread 32
run Spool => {usage}
run spool x => {usage}
run spool -m 1 x => {usage}
run spool -m => {usage}
run spool -m x => {words} | unread 32
run spool => {nolist} | unread 32
fail 1 | run spol => 73
run make => {usage}
# A letter in both cases, and an owner that is one of the list's own addresses.
run make -m -M --key {key} list ex.org o@own.org => {usage}
run make --key {key} list ex.org list-owner@ex.org => {usage}
run sub => {usage}
run sub 7 list => {usage}
run unsub 7 list a@b x => {usage}
run rekey 7 => {usage}
run floor 7 => {usage}
run list => {usage}
run list -x list => {usage}
run list list => {nolist}
run deliver => {usage}
run deliver 20 a@b => {usage}
run deliver 20 a@b list@ex.org x => {usage} | unread 32
run timed => {usage}
run timed 7 x => {usage}
run sent 7 => {usage}
run queue x => {usage}
run out => {usage}
run out 1 2 => {usage}
run show => {usage}
run queue => {nolist} | unread 32
run out 0 => {nolist}
run show 999999999999999999 => {nolist}
fail 1 | run queue => 111 - 111 disk\n
run check x => {usage}
run check '' => {usage}
run check => {nolist} | unread 32
fail 1 | run check => 111 - 111 disk\n
";

#[test]
fn words_that_are_no_command_are_told_so(rt: HostRuntime) -> Result<(), Fail> {
    hold::<Whole>(rt.alloc(), "words", COMMANDS)
}

const VALUES: &str = r"
let key 000102030405060708090a0b0c0d0e0f101112131415161718191a1b1c1d1e1f
let words 65 - 65 words\n
let clock 69 - 69 clock\n
list at never | input A1:7,10:1000000000,4:list,3:a@b,
run sub 7 liste a@b => {words}
run sub 7 List a@b => {words}
run sub 07 list a@b => {words}
run sub '' list a@b => {words}
run sub 1000000000000 list a@b => {words}
run unsub 7 list ab => {words}
run rekey 7 00102030405060708090a0b0c0d0e0f101112131415161718191a1b1c1d1e1f => {words}
run rekey 7 0{key} => {words}
run rekey 7 g00102030405060708090a0b0c0d0e0f101112131415161718191a1b1c1d1e1f => {words}
run floor 1 0 => {words}
run floor 1 1000000000000 => {words}
run list nosuch => {words}
run list -t => {words}
run list -t nosuch => {words}
run deliver x a@b list@ex.org => {words} | unread 32
run timed 1000000000000 => {words}
run sent x 1 => {words}
run sent 8 0 => {words}
run sent 8 1000000000000001 => {words}
run out 01 => {words}
run out '' => {words}
run show -1 => {words}
run show 1000000000000000000 => {words}
# Right words, but no time. The list isn't looked at, and there is no line if the output fails.
run sub 7 list a@b => {clock}
run rekey 7 {key} => {clock}
fail 1 | run floor 7 1 => 73
run timed 999999999999 => {clock}
run sent 8 1000000000000000 => {clock}
run deliver 20 a@b list@ex.org => {clock} | unread 32
run deliver 0 '' '' => {clock}
fail 1 | run deliver 20 a@b list@ex.org => 73
";

#[test]
fn a_word_that_holds_no_value_of_its_row_is_told_so(rt: HostRuntime) -> Result<(), Fail> {
    hold::<Whole>(rt.alloc(), "values", VALUES)
}
