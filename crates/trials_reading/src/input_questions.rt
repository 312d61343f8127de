// A question that is made of an input: what is read before the list, in which order, and what is answered if one of these fails.
use crate::program::Reading;
use std::test::Fail;
use trials_scripts::hold;

const TABLE: &str = r"
let made 0 made list@ex.org\n
let disk 111 - 111 disk\n
let clock 69 - 69 clock\n
let input 74 - 74 input\n
let long 65 - 65 long\n
let absent 100 - 100 absent\n
let nolist 75 - 75 nolist\n
let post D2:20,10:1000000100,3:a@b,11:list@ex.org,45:From: a@b\nTo: list@ex.org\nSubject: hello\n\nhi\n,
let noted 0 noon 1000000500 1 lunch\n
# Of a list with one post.
list run make => {made} | input {post} | run spool => 0 20 0 posted 1\n | at 1000000500 | input lunch\n
run timed noon => {noted} | unread 0 | same
input  | run timed noon => 0 noon 1000000500 1\x20
run timed '' => 0  1000000500 1 lunch\n
# Without a clock the moment is 0, whatever the clock does.
at never | run note noon => 0 noon 0 1 lunch\n | unread 0
# A clock that fails leaves the input.
at never | run timed noon => {clock} | unread 6 | same
at never | input lunch\n{1..70000:\0} | run timed noon => {clock} | unread 70006
# The bytes of the input come in one read, and its end in another.
read 1 | run timed noon => {input} | unread 6
read 2 | run timed noon => {input} | unread 0
read 3 | run timed noon => {noted} | unread 0
# One byte more than 70,000 is read of a longer input, and of that it is told first.
input lunch\n{1..69995:\0} | run timed noon => {long} | unread 0
input lunch\n{1..70000:\0} | run timed noon => {long} | unread 5
input !{1..70000:\0} | run timed noon => {long} | unread 0
input !{1..69999:\0} | run timed noon => 65 - 65 bad 70000\n | unread 0
# What is asked for isn't there, and an answer is too long.
input - | run timed noon => {absent} | unread 0
input + | run timed noon => {long} | unread 0
# The store is opened by the calls 1 and 2, the configuration is read by 3 and the number of posts by 4, and 5 gives the text.
turns 1 4 | fail | run timed noon => {disk} | same | has num 1\n | has log \0
fail 5 | run timed noon => 73 | same | has num 1\n | has log \0
fail 6 | run timed noon => {noted} | same | has num 1\n | has log \0
turns 1 4 | fail | input - | run timed noon => {disk} | same
fail 5 | input - | run timed noon => 73 | same
fail 6 | input - | run timed noon => {absent} | same
# Damaged files.
put config  | input ! | run timed noon => 65 - 65 bad 1\n | same
put config  | put num x | run timed noon => 75 - 75 config\n | same
put num x | input - | run timed noon => 75 - 75 num\n | same
put num x | input + | run timed noon => 75 - 75 num\n | same
# Without a list: clock and input are told of before the disk, and what isn't there after it.
list at 1000000500 | input lunch\n
at never | run timed noon => {clock} | unread 6
read 1 | run timed noon => {input} | unread 6
input lunch\n{1..69995:\0} | run timed noon => {long}
input !?\n | run timed noon => 65 - 65 bad 3\n
# The first call gives the line.
fail 1 | input !?\n | run timed noon => 73
input - | run timed noon => {nolist}
input + | run timed noon => {nolist}
turns 1 3 | fail | run timed noon => {disk}
";

#[test]
fn an_input_is_read_before_the_list(rt: HostRuntime) -> Result<(), Fail> {
    hold::<Reading>(rt.alloc(), "notes", TABLE)
}
