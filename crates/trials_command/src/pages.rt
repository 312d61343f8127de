// Commands that give pages of an archive, or list its months and threads.
use crate::program::Whole;
use std::test::Fail;
use trials_scripts::hold;

// Four posts: the last second of a month, the first one of the next, an earlier moment after a later one, and a subject with every byte that
// HTML escapes, with a reference of its own, a tab, a CR, a NUL and bytes past ASCII that are no UTF-8.
const PAGES: &str = r#"
let key 000102030405060708090a0b0c0d0e0f101112131415161718191a1b1c1d1e1f
let hello D1:1,10:1001894399,3:a@b,11:list@ex.org,45:From: a@b\nTo: list@ex.org\nSubject: hello\n\nhi\n,
let again D1:2,10:1001894400,3:c@d,11:list@ex.org,49:From: a@b\nTo: list@ex.org\nSubject: Re: hello\n\nhi\n,
let early D1:3,1:0,3:a@b,11:list@ex.org,45:From: a@b\nTo: list@ex.org\nSubject: other\n\nhi\n,
let odd D1:4,12:253402300799,3:&@b,11:list@ex.org,62:From: a@b\nTo: list@ex.org\nSubject: <b>"&amp;"\x09x\x0Dy\0\xC3\xA4\xFF & <\n\nhi\n,
let head <!DOCTYPE html>\n<html><head><meta charset="utf-8"><title>list@ex.org
let body </title></head><body>\n<h1>list@ex.org
let rows </h1>\n<ul>\n
let foot </ul></body></html>\n
let first <li><a href="1">1</a> Sun, 30 Sep 2001 23:59:59 -0000, a@b: hello</li>\n
let second <li><a href="2">2</a> Mon, 01 Oct 2001 00:00:00 -0000, c@d: Re: hello</li>\n
let third <li><a href="3">3</a> Thu, 01 Jan 1970 00:00:00 -0000, a@b: other</li>\n
let fourth <li><a href="4">4</a> Fri, 31 Dec 9999 23:59:59 -0000, &amp;@b: &lt;b&gt;&quot;&amp;amp;&quot;\x09x\x0Dy\0\xC3\xA4\xFF &amp; &lt;</li>\n
let listed 0 month 1970-01 1\nmonth 2001-09 1\nmonth 2001-10 1\nmonth 9999-12 1\nthread 1 2\nthread 3 1\nthread 4 1\n
let absent 100 - 100 absent\n
list run make --key {key} list ex.org o@own.org => 0 made list@ex.org\n
run pages list => 0 | same
run pages month 2001-09 1 => {absent} | same
run pages thread 1 1 => {absent} | same
list run make --key {key} list ex.org o@own.org => 0 made list@ex.org\n | input {hello}{again}{early}{odd} | run spool => 0 1 0 posted 1\n2 0 posted 2\n3 0 posted 3\n4 0 posted 4\n | at never | input A
run pages list => {listed} | unread 1 | same
run pages month 2001-09 1 => 0 {head} 2001-09{body} 2001-09{rows}{first}{foot} | unread 1 | same
run pages month 2001-10 1 => 0 {head} 2001-10{body} 2001-10{rows}{second}{foot}
run pages month 1970-01 1 => 0 {head} 1970-01{body} 1970-01{rows}{third}{foot}
run pages month 9999-12 1 => 0 {head} 9999-12{body} 9999-12{rows}{fourth}{foot}
run pages thread 1 1 => 0 {head} thread 1{body} thread 1{rows}{first}{second}{foot} | unread 1 | same
run pages thread 3 1 => 0 {head} thread 3{body} thread 3{rows}{third}{foot}
run pages thread 4 1 => 0 {head} thread 4{body} thread 4{rows}{fourth}{foot}
# Pages that don't exist: a month between two with posts, one before all and one after, a thread by its second post, and the page after the last.
run pages month 2001-08 1 => {absent}
run pages month 1969-12 1 => {absent}
run pages month 0000-01 1 => {absent}
run pages month 2001-09 2 => {absent}
run pages month 2001-09 999999999999999999 => {absent}
run pages thread 2 1 => {absent}
run pages thread 0 1 => {absent}
run pages thread 5 1 => {absent}
run pages thread 999999999999999999 1 => {absent}
run pages thread 1 2 => {absent}
# No post is read, and a month's page reads no thread file, nor a thread's page those of other threads.
drop archive/0/01 | drop archive/0/02 | drop archive/0/03 | drop archive/0/04 | run pages list => {listed} | run pages month 2001-09 1 => 0 {head} 2001-09{body} 2001-09{rows}{first}{foot} | run pages thread 1 1 => 0 {head} thread 1{body} thread 1{rows}{first}{second}{foot}
put archive/threads/231 x | run pages list => 75 - 75 archive/threads/231\n | same | run pages thread 1 1 => 75 - 75 archive/threads/231\n | same | run pages month 2001-09 1 => 0 {head} 2001-09{body} 2001-09{rows}{first}{foot}
put archive/threads/000 x | run pages list => 75 - 75 archive/threads/000\n | same | run pages thread 1 1 => 0 {head} thread 1{body} thread 1{rows}{first}{second}{foot}
put archive/threads/231 5:hello,3:1,9, | run pages thread 1 1 => 75 - 75 archive/threads/231\n | same
put num x | run pages list => 75 - 75 num\n | same | run pages month 2001-09 1 => 75 - 75 num\n | same | run pages thread 1 1 => 75 - 75 num\n | same
put archive/0/index x | run pages list => 75 - 75 archive/0/index\n | same | run pages month 2001-09 1 => 75 - 75 archive/0/index\n | same | run pages thread 1 1 => 75 - 75 archive/0/index\n | same
put config x | run pages list => 75 - 75 config\n | same
put log \x01a | run pages month 2001-09 1 => 75 - 75 log\n | same
"#;

#[test]
fn pages_are_given(rt: HostRuntime) -> Result<(), Fail> {
    hold::<Whole>(rt.alloc(), "pages", PAGES)
}

// Every call fails in turn: the store is opened by two and the configuration read by one; then come the number of posts and the index, with the
// 256 thread files for the list, and for a thread's page its thread file; and the last call gives the text.
const FAILING: &str = r#"
let key 000102030405060708090a0b0c0d0e0f101112131415161718191a1b1c1d1e1f
let hello D1:1,10:1000000100,3:a@b,11:list@ex.org,45:From: a@b\nTo: list@ex.org\nSubject: hello\n\nhi\n,
list run make --key {key} list ex.org o@own.org => 0 made list@ex.org\n | input {hello} | run spool => 0 1 0 posted 1\n
turns 1 261 | fail | run pages list => 111 - 111 disk\n | same
fail 262 | run pages list => 73 | same
fail 263 | run pages list => 0 month 2001-09 1\nthread 1 1\n | same
turns 1 5 | fail | run pages month 2001-09 1 => 111 - 111 disk\n | same
fail 6 | run pages month 2001-09 1 => 73 | same
turns 1 5 | fail | run pages month 2001-08 1 => 111 - 111 disk\n | same
fail 6 | run pages month 2001-08 1 => 73 | same
turns 1 6 | fail | run pages thread 1 1 => 111 - 111 disk\n | same
fail 7 | run pages thread 1 1 => 73 | same
"#;

#[test]
fn pages_tell_of_each_call_that_fails(rt: HostRuntime) -> Result<(), Fail> {
    hold::<Whole>(rt.alloc(), "failing calls of pages", FAILING)
}

// Words, when there is neither a list nor a time.
const WORDS: &str = r"
let usage 64 - 64 usage\n
let words 65 - 65 words\n
let nolist 75 - 75 nolist\n
list at never | input A
run pages => {usage} | unread 1
run pages list x => {usage}
run pages foo => {usage}
run pages month 2001-09 => {usage}
run pages month 2001-09 1 x => {usage}
run pages thread 1 => {usage}
run pages thread 1 1 1 => {usage}
run pages foo 2001-09 1 => {usage}
run pages month 2001-9 1 => {words} | unread 1
run pages month 2001-00 1 => {words}
run pages month 2001-13 1 => {words}
run pages month 2001x09 1 => {words}
run pages month 2001-09- 1 => {words}
run pages month 200:-09 1 => {words}
run pages month '' 1 => {words}
run pages month 2001-09 0 => {words}
run pages month 2001-09 01 => {words}
run pages month 2001-09 1000000000000000000 => {words}
run pages thread 01 1 => {words}
run pages thread 1000000000000000000 1 => {words}
run pages thread 1 0 => {words}
run pages thread 1 01 => {words}
run pages thread 1 1000000000000000000 => {words}
run pages list => {nolist} | unread 1
run pages month 0000-01 1 => {nolist}
run pages thread 0 1 => {nolist}
fail 1 | run pages list => 111 - 111 disk\n
fail 1 | run pages foo => 73
run split => {usage} | unread 1
run split list mod => {usage}
run split x y => {usage}
run split -a 1 list => {usage}
run split -b 1 list two => {usage}
run split -a 1 list two x => {usage}
run split -a => {words} | unread 1
run split LIST => {words}
run split -a 0 list two => {words}
run split -a 01 list two => {words}
run split -r 999999900001 list two => {words}
run split -r 1000000000000000000 list two => {words}
run split -r 1 two list => {words}
run split -a x list two => {words}
fail 1 | run split -a x list two => 73
";

#[test]
fn words_of_pages_and_parts_are_looked_at_first(rt: HostRuntime) -> Result<(), Fail> {
    hold::<Whole>(rt.alloc(), "words of pages and parts", WORDS)
}
