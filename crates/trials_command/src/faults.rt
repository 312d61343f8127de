// Commands in which every call fails in turn, and which are then given again: they are done once.
use crate::program::Whole;
use std::test::Fail;
use trials_scripts::hold;

const TABLE: &str = r"
let key 000102030405060708090a0b0c0d0e0f101112131415161718191a1b1c1d1e1f
let made 0 made list@ex.org\n
let message From: a@b\nTo: list@ex.org\nSubject: hello\n\nhi\n
let disk 111 - 111 disk\n
let there 100 - 100 there\n
let added 0 7 0 subscribed\n
let posted 0 20 0 posted 1\n
let dequeued 0 21 0 dequeued\n
let timed 0 22 0 timed 0\n
list at 1000000000
fail 1 | run make --key {key} list ex.org o@own.org => {disk}
fail 60 | run make --key {key} list ex.org o@own.org => {made}
turns 1 59 | fail | may make --key {key} list ex.org o@own.org => {made} | run make --key {key} list ex.org o@own.org => {made} || {there} | run sub 7 list a@b => {added}
put config  | run make --key {key} list ex.org o@own.org => {there}
list run make --key {key} list ex.org o@own.org => {made}
fail 1 | run sub 7 list a@b => {disk} | has counts/list 0\n
fail 60 | run sub 7 list a@b => {added}
turns 1 59 | fail | may sub 7 list a@b => {added} | run sub 7 list a@b => {added} | has counts/list 1\n
list run make --key {key} list ex.org o@own.org => {made} | run sub 7 list a@b => {added} | input {message}
fail 120 | run deliver 20 a@b list@ex.org => {posted} | run queue => 0 1 1 321\n
turns 1 119 | fail | may deliver 20 a@b list@ex.org => {posted} | input {message} | run deliver 20 a@b list@ex.org => {posted} | run queue => 0 1 1 321\n
turns 1 119 | fail | may timed 22 => {timed} | run timed 22 => {timed} | run queue => 0
list run make --key {key} list ex.org o@own.org => {made} | run sub 7 list a@b => {added} | input {message} | run deliver 20 a@b list@ex.org => {posted}
turns 1 119 | fail | may sent 21 1 => {dequeued} | run sent 21 1 => {dequeued} | run queue => 0
";

#[test]
fn a_command_counts_once_whichever_call_fails(rt: HostRuntime) -> Result<(), Fail> {
    hold::<Whole>(rt.alloc(), "failing calls", TABLE)
}
