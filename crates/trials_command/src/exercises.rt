// Exercises, and what is found in the list after them.
use crate::program::Whole;
use std::test::Fail;
use trials_scripts::hold;

// The answers to the items 1 to 30 of a new list, and the sizes after more of them, were counted by hand from their table. The clock fails
// throughout: it isn't read.
const TABLE: &str = r"
let key 000102030405060708090a0b0c0d0e0f101112131415161718191a1b1c1d1e1f
let one 1 0 subscribed\n2 0 subscribed\n3 0 subscribed\n4 0 ignored\n5 0 subscribed\n6 0 absent\n
let ten {one}7 0 posted 1\n8 0 asked\n9 0 dequeued\n10 0 timed 0\n
let twenty {ten}11 0 subscribed\n12 0 subscribed\n13 0 subscribed\n14 0 ignored\n15 0 subscribed\n16 0 absent\n17 0 posted 2\n18 0 asked\n19 0 dequeued\n20 0 timed 0\n
let thirty {twenty}21 0 subscribed\n22 0 subscribed\n23 0 subscribed\n24 0 ignored\n25 0 subscribed\n26 0 absent\n27 0 posted 3\n28 0 asked\n29 0 dequeued\n30 0 timed 0\n
let lines {ten}exercised 10\nok 1 3 1 0 0 0 0 1\n
list at never | run make --key {key} list ex.org o@own.org => 0 made list@ex.org\n
run exercise 10 => 0 {lines}
then run exercise 10 => 0 {lines}
then run exercise 1 => 0 1 0 subscribed\nexercised 1\nok 1 3 1 0 0 0 0 1\n
then run exercise 30 => 0 {thirty}exercised 30\nok 3 9 3 0 0 0 0 3\n
then run exercise 10 => 0 {ten}exercised 10\nok 3 9 3 0 0 0 0 3\n
then run check => 0 ok 3 9 3 0 0 0 0 3\n
run exercise 1 => 0 1 0 subscribed\nexercised 1\nok 0 1 0 0 0 0 0 0\n
# Two copies of a list, and one of them again.
told first exercise 300
run exercise 300 => 0 {first}
then run exercise 300 => 0 {first}
like exercise 300 => 0 {thirty}*\n300 0 timed 0\nexercised 300\nok 30 78 30 0 0 0 0 30\n
# Items that are refused leave the status 0.
at 1000000000 | run floor 99 50 => 0 99 0 floored 50\n | at never | run exercise 10 => 0 {1..10:% 100 stale\n}exercised 10\nok 0 0 0 0 0 0 0 0\n
# The output has room only for the answers of the first group, or a call of the first items fails.
room 221 | run exercise 999999 => 73 {ten}11 0 subscribed\n12 0 subscribed\n13 0 subscribed\n14 0 ignored\n15 0 subscribed\n16 0 absent\n
turns 1 60 | fail | may exercise 999999 => 0 {thirty}
turns 61 120 | fail | may exercise 999999 => 0 {thirty}
# Files that aren't in their grammar: of an item, with its number, and of the list after the items.
put config x | run exercise 10 => 75 - 75 config\n | same
put log \x01a | run exercise 10 => 75 - 75 log\n | same
put counts/list x | run exercise 10 => 75 1 75 counts/list\n
put ids x | run exercise 10 => 75 1 0 subscribed\n2 0 subscribed\n3 0 subscribed\n4 75 ids\n
put bounce/] x | run exercise 10 => 75 {one}7 0 posted 1\n8 0 asked\n9 0 dequeued\n10 75 bounce/]\n
put allow/subscribers/] x | run exercise 10 => 75 {ten}exercised 10\n- 75 allow/subscribers/]\n
put allow/subscribers/] x | run exercise 9 => 75 {one}7 0 posted 1\n8 0 asked\n9 0 dequeued\nexercised 9\n- 75 allow/subscribers/]\n
put log \x07 | run exercise 10 => 0 {lines} | has log \0
# A local part of 60 bytes, and a host of 255.
let local 0123456789abcdefghijklmnopqrstuvwxyz0123456789abcdefghijklmn
let part 0123456789abcdefghijklmnopqrstuvwxyz0123456789abcdefghijklmnop
let host {part}.{part}.{part}.{part}.org
list at never | run make --key {key} {local} {host} o@own.org => 0 made {local}@{host}\n
run exercise 30 => 0 {thirty}exercised 30\nok 3 9 3 0 0 0 0 3\n
# Words, when there is no list.
let usage 64 - 64 usage\n
let words 65 - 65 words\n
let nolist 75 - 75 nolist\n
list at never
run exercise => {usage} | same
run exercise 10 x => {usage} | same
run exercise 10 '' => {usage} | same
fail 1 | run exercise 10 x => 73
run exercise 0 => {words} | same
run exercise 1000000 => {words} | same
run exercise 01 => {words} | same
run exercise x => {words} | same
run exercise -1 => {words} | same
run exercise '' => {words} | same
fail 1 | run exercise 0 => 73
run exercise 10 => {nolist}
run exercise 999999 => {nolist}
fail 1 | run exercise 10 => 111 - 111 disk\n
";

#[test]
fn an_exercise_answers_all_and_looks_the_list_over(rt: HostRuntime) -> Result<(), Fail> {
    hold::<Whole>(rt.alloc(), "exercises", TABLE)
}

// Many items, which come back as bounces and wait in the queue.
const LONG: &str = r"
list at never | run make --key 000102030405060708090a0b0c0d0e0f101112131415161718191a1b1c1d1e1f list ex.org o@own.org => 0 made list@ex.org\n
room 60000 | calls 400000 | like exercise 2000 => 0 1 0 subscribed\n*\n2000 0 timed 0\nexercised 2000\nok 200 87 97 0 0 0 0 200\n
";

#[test]
fn a_long_exercise_ends_with_a_whole_list(rt: HostRuntime) -> Result<(), Fail> {
    hold::<Whole>(rt.alloc(), "long exercises", LONG)
}

// Every call of the last reading fails in turn, on a new list. Before it 24 calls find the configuration, run the item, and close the store; the
// 25th gives the line of the items. The list is opened again by 2, and the configuration and the key are read by 2. Each set has 53 buckets and
// a count: 270. The archive is its number, 256 thread files, and the number again: 258. Then the mark, twice the tickets, 106 files of ledgers,
// twice the next id, and the floor: 112. The 265 buckets are read again for their sizes, and the last call gives the line.
const FAILING: &str = r"
let key 000102030405060708090a0b0c0d0e0f101112131415161718191a1b1c1d1e1f
let item 1 0 subscribed\n
let line ok 0 1 0 0 0 0 0 0\n
list at never | run make --key {key} list ex.org o@own.org => 0 made list@ex.org\n
fail 25 | run exercise 1 => 73 {item} | run check => 0 {line}
turns 26 934 | fail | run exercise 1 => 111 {item}exercised 1\n- 111 disk\n
fail 934 | run exercise 1 => 111 {item}exercised 1\n- 111 disk\n | run exercise 1 => 0 {item}exercised 1\n{line}
fail 935 | run exercise 1 => 73 {item}exercised 1\n | run check => 0 {line}
fail 936 | run exercise 1 => 0 {item}exercised 1\n{line}
";

#[test]
fn an_exercise_tells_of_each_call_that_fails_after_its_items(rt: HostRuntime) -> Result<(), Fail> {
    hold::<Whole>(rt.alloc(), "failing calls after an exercise", FAILING)
}
