// The rows: calls, and what each of them answers, written by hand.
use crate::forms::Forms;
use ml_plain::{
    law_chain, law_changes, law_digests, law_joined, law_leaving, law_new_list, law_once,
    law_parts, law_posts, law_states,
};
use std::test::Fail;
use trials_scripts::hold;

// Each code's word, its status and whether a number follows, from code 1 on.
const CODES: &str = r"
run code 1 => 0 posted 0 true
run code 2 => 0 held 0 true
run code 3 => 0 timed 0 true
run code 4 => 0 subscribed 0 false
run code 5 => 0 already 0 false
run code 6 => 0 unsubscribed 0 false
run code 7 => 0 absent 0 false
run code 8 => 0 asked 0 false
run code 9 => 0 archive 0 false
run code 10 => 0 help 0 false
run code 11 => 0 owner 0 false
run code 12 => 0 members 0 false
run code 13 => 0 bounce 0 false
run code 14 => 0 ignored 0 false
run code 15 => 0 dropped 0 false
run code 16 => 0 rejected 0 false
run code 17 => 0 gone 100 false
run code 18 => 0 dequeued 0 false
run code 19 => 0 noentry 100 false
run code 20 => 0 full 100 false
run code 21 => 0 toobig 100 false
run code 22 => 0 nosender 100 false
run code 23 => 0 looped 100 false
run code 24 => 0 denied 100 false
run code 25 => 0 nosubject 100 false
run code 26 => 0 command 100 false
run code 27 => 0 notaddressed 100 false
run code 28 => 0 usersonly 100 false
run code 29 => 0 notours 100 false
run code 30 => 0 badcookie 100 false
run code 31 => 0 private 100 false
run code 32 => 0 rekeyed 0 false
run code 33 => 0 toosoon 100 false
run code 34 => 0 floored 0 true
run code 35 => 0 stale 100 false
run code 36 => 0 badfloor 100 false
";

// What is true or false, and what is answered as a text.
const TEXTS: &str = r"
run own list@ex.org => 0 true
run own LIST@EX.ORG => 0 true
run own list-@ex.org => 0 true
run own List-subscribe-a=b.org@ex.org => 0 true
run own list-a@b@ex.org => 0 true
run own listing@ex.org => 0 false
run own lis@ex.org => 0 false
run own list@ex.org.au => 0 false
run own list => 0 false
run kept A@x.org => 0 true
run kept a@X.org => 0 false
run kept a => 0 false
run is_address a X.org => 0 true
run is_address a@b x => 0 false
run is_address a '' => 0 false
run is_address {1..399:a} x => 0 false
run same A+b@EX.Org a+B@ex.org => 0 true
run same A+b@EX.Org a@ex.org => 0 false
run moment 253402300799 => 0 true
run moment 253402300800 => 0 false
run post 1 => 0 true
run post 99999999 => 0 true
run post 0 => 0 false
run post 100000000 => 0 false
run drawn 1 => 0 true
run drawn 1000000000000000 => 0 true
run drawn 0 => 0 false
run drawn 1000000000000001 => 0 false
run path 0 0 => 0 log
run path 1 0 => 0 config
run path 2 0 => 0 key
run path 3 0 => 0 subscribers/@
run path 3 52 => 0 subscribers/t
run path 4 0 => 0 digest/subscribers/@
run path 4 52 => 0 digest/subscribers/t
run path 5 0 => 0 allow/subscribers/@
run path 5 52 => 0 allow/subscribers/t
run path 6 0 => 0 deny/subscribers/@
run path 6 52 => 0 deny/subscribers/t
run path 7 0 => 0 mod/subscribers/@
run path 7 52 => 0 mod/subscribers/t
run path 8 0 => 0 counts/list
run path 8 4 => 0 counts/mod
run path 9 1 => 0 archive/0/01
run path 9 99999999 => 0 archive/999999/99
run path 10 0 => 0 archive/0/index
run path 10 999999 => 0 archive/999999/index
run path 11 0 => 0 num
run path 12 0 => 0 dig
run path 13 1 => 0 pending/1
run path 13 1000000000000000 => 0 pending/1000000000000000
run path 14 0 => 0 tickets
run path 15 0 => 0 bounce/@
run path 15 52 => 0 bounce/t
run path 16 0 => 0 digest/bounce/@
run path 16 52 => 0 digest/bounce/t
run path 17 1 => 0 queue/1
run path 17 1000000000000000 => 0 queue/1000000000000000
run path 18 0 => 0 ids
run path 19 0 => 0 done/0
run path 19 1953124999 => 0 done/1953124999
run path 20 0 => 0 archive/threads/000
run path 20 42 => 0 archive/threads/042
run path 20 255 => 0 archive/threads/255
run path 21 0 => 0 floor
run check list-owner+x@sub_1.ex-2.org => 0 Ok(())
run check {1..401:a} => 0 Err(TooLong)
run check {1..400:a} => 0 Err(NoAt)
run check '' => 0 Err(NoAt)
run check @ex.org => 0 Err(EmptyPart)
run check a\x20b@ => 0 Err(EmptyPart)
run check a\x20b@ex.org => 0 Err(BadByte)
run check a@b@ex.org => 0 Err(BadByte)
run check a@ex+y.org => 0 Err(BadByte)
run check a@ex.\xC3\xA9 => 0 Err(BadByte)
run address A+b@EX.Org => 0 A+b@ex.org|A+b|ex.org|A+b@ex.org|
run addresses a@x.org b@X.org => 0 a@x.orgb@x.org
run grown ab c de => 0 abcde
run copied fg => 0 fg
run copied => 0 none
run numbers 7 last => 0 [7, 18446744073709551615]
run number 0 => 0 0
run number 9 => 0 9
run number 10 => 0 10
run number last => 0 18446744073709551615
run netstrings list '' => 0 W4:list,0:,
run span W4:list,0:, 1 => 0 Some(Span \x7B from: 3, to: 7, next: 8 \x7D)
run span W4:list,0:, 0 => 0 None
run netstring 4:list,3: => 0 list|3:|
run netstring 4:list => 0 none
run first a.b.c => 0 a|b.c|
run last a.b.c => 0 a.b|c|
run first abc => 0 none
run line a\nb => 0 a\n|b|
run line \n\n => 0 \n|\n|
run line ab => 0 ab||
run line '' => 0 none
run hash '' => 0 5381 5381
run hash a => 0 177604 177604
run hash ab => 0 5860902 5860902
run hash A => 0 177636 177604
run order a@x B@x => 0 Less true
run order A@x a@x => 0 Equal false
run order b@x A@x => 0 Greater false
run order a@x a@x.org => 0 Less true
run order a '' => 0 Greater false
run layered => 0 two - 7 ; two new 7 ; 1; two - 7\x20
run failing => 0 Ok(true); Err(Fault); Ok(false); 3
run in_place => 0 2; two new 7\x20
run errors => 0 no address: no `@`; out of memory; the file of kind 3 at 1 is damaged; the disk failed; out of memory
";

// Files, and keys.
const FILES: &str = r"
let hex 000102030405060708090a0b0c0d0e0f101112131415161718191a1b1c1d1e1f
let sevens [7, 7, 7, 7, 7, 7, 7, 7, 7, 7, 7, 7, 7, 7, 7, 7, 7, 7, 7, 7, 7, 7, 7, 7, 7, 7, 7, 7, 7, 7, 7, 7]
put config flags bDfGHJKLMpRSTU\nlocal list\nhost ex.org\nowner o@own.org\nprefix [list]\nmax 1048576\n | run load => 0 Flags \x7B b: true, d: false, f: true, g: false, h: false, j: false, k: false, l: false, m: false, p: true, r: false, s: false, t: false, u: false \x7D list ex.org o@own.org [list] 1048576\nflags bDfGHJKLMpRSTU\nlocal list\nhost ex.org\nowner o@own.org\nprefix [list]\nmax 1048576\n
run zeroed flags\x20bDfGHJKLMpRSTU\nlocal\x20list\nhost\x20ex.org\nowner\x20o@own.org\nprefix\x20[list]\nmax\x201048576\n => 0 none
run is_read flags\x20BDFGHJKLMpRSTU\nlocal\x20list\nhost\x20ex.org\nowner\x20o@own.org\nprefix\x20\nmax\x201048576\n => 0 true
run is_read flags\x20BDFGHJKLMpRSTU\nlocal\x20list\nhost\x20ex.org\nowner\x20o@own.org\nprefix\x20\nmax\x201048576 => 0 false
run is_read flags\x20BDFGHJKLMpRSTU\nlocal\x20list\nhost\x20ex.org\nowner\x20o@own.org\nmax\x201048576\n => 0 false
run is_read flags\x20BDFGHJKLMpRSTU\nlocal\x20list\nhost\x20ex.org\nowner\x20o@own.org\nprefix\x20\nmax\x201048576\nmax\x201048576\n => 0 false
run is_read local\x20list\nflags\x20BDFGHJKLMpRSTU\nhost\x20ex.org\nowner\x20o@own.org\nprefix\x20\nmax\x201048576\n => 0 false
run is_read flags\x20BDFGHJKLMpRSTU\nlocal\x20list\nhost\x20EX.org\nowner\x20o@own.org\nprefix\x20\nmax\x201048576\n => 0 false
run is_read flags\x20BDFGHJKLMpRSTU\nlocal\x20list\nhost\x20ex.org\nowner\x20o@OWN.org\nprefix\x20\nmax\x201048576\n => 0 false
run is_read flags\x20BDFGHJKLMpRSTU\nlocal\x20list\nhost\x20ex.org\nowner\x20list-x@ex.org\nprefix\x20\nmax\x201048576\n => 0 false
run is_read flags\x20BDfGHJKLMpRSTU\nlocal\x20list\nhost\x20ex.org\nowner\x20o@own.org\nprefix\x20\nmax\x201048576\n => 0 false
run is_read flags\x20BDFGHJKLMpRSTU\nlocal\x20list\nhost\x20ex.org\nowner\x20o@own.org\nprefix\x20\nmax\x2001\n => 0 false
run is_read flags\x20BDFGHJKLMpRSTU\nlocal\x20list\nhost\x20ex.org\nowner\x20o@own.org\nprefix\nmax\x201\n => 0 false
run is_read flags\x20BDFGHJKLMpRST\nlocal\x20list\nhost\x20ex.org\nowner\x20o@own.org\nprefix\x20\nmax\x201\n => 0 false
run is_read '' => 0 false
fail 3 4 | run absent => 0 none; Damaged(Name \x7B kind: 2, at: 0 \x7D); Fault; Fault;\x20
put key  | run key => 0 Damaged(Name \x7B kind: 2, at: 0 \x7D)
put key {1..31:\x07} | run key => 0 Damaged(Name \x7B kind: 2, at: 0 \x7D)
put key {1..32:\x07} | run key => 0 {sevens}
put key {1..33:\x07} | run key => 0 Damaged(Name \x7B kind: 2, at: 0 \x7D)
put key {1..64:\x07}\0\0\0:\xFF\xF4A | run key => 0 Damaged(Name \x7B kind: 2, at: 0 \x7D)
put key {1..64:\x07}\0\0\0:\xFF\xF4A\x80 | run key => 0 Damaged(Name \x7B kind: 2, at: 0 \x7D)
put key {1..64:\x07}\0\0\0:\xFF\xF4A\x80\x07 | run key => 0 Damaged(Name \x7B kind: 2, at: 0 \x7D)
put key {1..64:\x07}\0\0\0:\xFF\xF4A\x7F | run key => 0 {sevens} {sevens} 253402300799
run set_keys => 0 [2, 2, 2, 2, 2, 2, 2, 2, 2, 2, 2, 2, 2, 2, 2, 2, 2, 2, 2, 2, 2, 2, 2, 2, 2, 2, 2, 2, 2, 2, 2, 2] [1, 1, 1, 1, 1, 1, 1, 1, 1, 1, 1, 1, 1, 1, 1, 1, 1, 1, 1, 1, 1, 1, 1, 1, 1, 1, 1, 1, 1, 1, 1, 1] 1000000300
run files --key {hex} list ex.org o@own.org => 0 1 0 flags BDFGHJKLMpRSTU\nlocal list\nhost ex.org\nowner o@own.org\nprefix \nmax 1048576\n|2 0 \0\x01\x02\x03\x04\x05\x06\x07\x08\x09\n\x0B\x0C\x0D\x0E\x0F\x10\x11\x12\x13\x14\x15\x16\x17\x18\x19\x1A\x1B\x1C\x1D\x1E\x1F|8 0 0\n|8 1 0\n|8 2 0\n|8 3 0\n|8 4 0\n|11 0 0\n|12 0 0:0\n|14 0 1:1\n|18 0 1:1\n|
run config_errors => 0 not the words of `make`; out of memory
";

// Each letter in lower case, in upper case and in both, with the words of a plain list.
const LETTERS: &str = r"
let hex 000102030405060708090a0b0c0d0e0f101112131415161718191a1b1c1d1e1f
let plain flags BDFGHJKLMpRSTU\nlocal list\nhost ex.org\nowner o@own.org\nprefix \nmax 1048576\n
run make -b --key {hex} list ex.org o@own.org => 0 flags bDFGHJKLMpRSTU\nlocal list\nhost ex.org\nowner o@own.org\nprefix \nmax 1048576\n
run make -B --key {hex} list ex.org o@own.org => 0 {plain}
run make -b -B --key {hex} list ex.org o@own.org => 0 Usage
run make -d --key {hex} list ex.org o@own.org => 0 flags BdFGHJKLMpRSTU\nlocal list\nhost ex.org\nowner o@own.org\nprefix \nmax 1048576\n
run make -D --key {hex} list ex.org o@own.org => 0 {plain}
run make -d -D --key {hex} list ex.org o@own.org => 0 Usage
run make -f --key {hex} list ex.org o@own.org => 0 flags BDfGHJKLMpRSTU\nlocal list\nhost ex.org\nowner o@own.org\nprefix [list]\nmax 1048576\n
run make -F --key {hex} list ex.org o@own.org => 0 {plain}
run make -f -F --key {hex} list ex.org o@own.org => 0 Usage
run make -g --key {hex} list ex.org o@own.org => 0 flags BDFgHJKLMpRSTU\nlocal list\nhost ex.org\nowner o@own.org\nprefix \nmax 1048576\n
run make -G --key {hex} list ex.org o@own.org => 0 {plain}
run make -g -G --key {hex} list ex.org o@own.org => 0 Usage
run make -h --key {hex} list ex.org o@own.org => 0 flags BDFGhJKLMpRSTU\nlocal list\nhost ex.org\nowner o@own.org\nprefix \nmax 1048576\n
run make -H --key {hex} list ex.org o@own.org => 0 {plain}
run make -h -H --key {hex} list ex.org o@own.org => 0 Usage
run make -j --key {hex} list ex.org o@own.org => 0 flags BDFGHjKLMpRSTU\nlocal list\nhost ex.org\nowner o@own.org\nprefix \nmax 1048576\n
run make -J --key {hex} list ex.org o@own.org => 0 {plain}
run make -j -J --key {hex} list ex.org o@own.org => 0 Usage
run make -k --key {hex} list ex.org o@own.org => 0 flags BDFGHJkLMpRSTU\nlocal list\nhost ex.org\nowner o@own.org\nprefix \nmax 1048576\n
run make -K --key {hex} list ex.org o@own.org => 0 {plain}
run make -k -K --key {hex} list ex.org o@own.org => 0 Usage
run make -l --key {hex} list ex.org o@own.org => 0 flags BDFGHJKlMpRSTU\nlocal list\nhost ex.org\nowner o@own.org\nprefix \nmax 1048576\n
run make -L --key {hex} list ex.org o@own.org => 0 {plain}
run make -l -L --key {hex} list ex.org o@own.org => 0 Usage
run make -m --key {hex} list ex.org o@own.org => 0 flags BDFGHJKLmpRSTU\nlocal list\nhost ex.org\nowner o@own.org\nprefix \nmax 1048576\n
run make -M --key {hex} list ex.org o@own.org => 0 {plain}
run make -m -M --key {hex} list ex.org o@own.org => 0 Usage
run make -p --key {hex} list ex.org o@own.org => 0 {plain}
run make -P --key {hex} list ex.org o@own.org => 0 flags BDFGHJKLMPRSTU\nlocal list\nhost ex.org\nowner o@own.org\nprefix \nmax 1048576\n
run make -p -P --key {hex} list ex.org o@own.org => 0 Usage
run make -r --key {hex} list ex.org o@own.org => 0 flags BDFGHJKLMprSTU\nlocal list\nhost ex.org\nowner o@own.org\nprefix \nmax 1048576\n
run make -R --key {hex} list ex.org o@own.org => 0 {plain}
run make -r -R --key {hex} list ex.org o@own.org => 0 Usage
run make -s --key {hex} list ex.org o@own.org => 0 flags BDFGHJKLMpRsTU\nlocal list\nhost ex.org\nowner o@own.org\nprefix \nmax 1048576\n
run make -S --key {hex} list ex.org o@own.org => 0 {plain}
run make -s -S --key {hex} list ex.org o@own.org => 0 Usage
run make -t --key {hex} list ex.org o@own.org => 0 flags BDFGHJKLMpRStU\nlocal list\nhost ex.org\nowner o@own.org\nprefix \nmax 1048576\n
run make -T --key {hex} list ex.org o@own.org => 0 {plain}
run make -t -T --key {hex} list ex.org o@own.org => 0 Usage
run make -u --key {hex} list ex.org o@own.org => 0 flags BDFGHJKLMpRSTu\nlocal list\nhost ex.org\nowner o@own.org\nprefix \nmax 1048576\n
run make -U --key {hex} list ex.org o@own.org => 0 {plain}
run make -u -U --key {hex} list ex.org o@own.org => 0 Usage
";

// Other words.
const WORDS: &str = r"
let hex 000102030405060708090a0b0c0d0e0f101112131415161718191a1b1c1d1e1f
let plain flags BDFGHJKLMpRSTU\nlocal list\nhost ex.org\nowner o@own.org\nprefix \nmax 1048576\n
run make -fm --prefix=a\x20b list EX.org o@OWN.org --key {hex} => 0 flags BDfGHJKLmpRSTU\nlocal list\nhost ex.org\nowner o@own.org\nprefix a b\nmax 1048576\n
run make --key {hex} -f --max 7 -- -d ex.org o@own.org => 0 flags BDfGHJKLMpRSTU\nlocal -d\nhost ex.org\nowner o@own.org\nprefix [-d]\nmax 7\n
run make --prefix - --key {hex} list ex.org o@own.org => 0 flags BDFGHJKLMpRSTU\nlocal list\nhost ex.org\nowner o@own.org\nprefix -\nmax 1048576\n
run make --key=000102030405060708090A0B0C0D0E0F101112131415161718191A1B1C1D1E1F list ex.org o@own.org => 0 {plain}
run taken list ex.org o@own.org => 0 Usage
run taken --key {hex} list ex.org => 0 Usage
run taken --key {hex} list ex.org o@own.org more => 0 Usage
run taken -d -d --key {hex} list ex.org o@own.org => 0 Usage
run taken -mM --key {hex} list ex.org o@own.org => 0 Usage
run taken -a --key {hex} list ex.org o@own.org => 0 Usage
run taken --help --key {hex} list ex.org o@own.org => 0 Usage
run taken --pre x --key {hex} list ex.org o@own.org => 0 Usage
run taken --prefix -x --key {hex} list ex.org o@own.org => 0 Usage
run taken --prefix '' --key {hex} list ex.org o@own.org => 0 Usage
run taken --key {hex} --key {hex} list ex.org o@own.org => 0 Usage
run taken => 0 Usage
run taken --prefix ! --key {hex} list ex.org o@own.org => 0 taken
run taken --prefix a\x20\x20~ --key {hex} list ex.org o@own.org => 0 taken
run taken --prefix \x20a --key {hex} list ex.org o@own.org => 0 Usage
run taken --prefix a\x20 --key {hex} list ex.org o@own.org => 0 Usage
run taken --prefix a\x09b --key {hex} list ex.org o@own.org => 0 Usage
run taken --prefix \xC3\xA9 --key {hex} list ex.org o@own.org => 0 Usage
run taken --prefix {1..62:p} --key {hex} list ex.org o@own.org => 0 taken
run taken --prefix {1..63:p} --key {hex} list ex.org o@own.org => 0 Usage
run taken --max 0 --key {hex} list ex.org o@own.org => 0 Usage
run taken --max 1 --key {hex} list ex.org o@own.org => 0 taken
run taken --max 16777216 --key {hex} list ex.org o@own.org => 0 taken
run taken --max 16777217 --key {hex} list ex.org o@own.org => 0 Usage
run taken --max 01 --key {hex} list ex.org o@own.org => 0 Usage
run taken --max 1k --key {hex} list ex.org o@own.org => 0 Usage
run taken --key {1..64:f} list ex.org o@own.org => 0 taken
run taken --key {1..64:F} list ex.org o@own.org => 0 taken
run taken --key {1..64:g} list ex.org o@own.org => 0 Usage
run taken --key {1..63:0} list ex.org o@own.org => 0 Usage
run taken --key {1..65:0} list ex.org o@own.org => 0 Usage
run taken --key {1..66:0} list ex.org o@own.org => 0 Usage
run taken --key {hex} {1..60:l} ex.org o@own.org => 0 taken
run taken --key {hex} {1..61:l} ex.org o@own.org => 0 Usage
run taken --key {hex} list {1..255:h} o@own.org => 0 taken
run taken --key {hex} list {1..256:h} o@own.org => 0 Usage
run taken --key {hex} l@st ex.org o@own.org => 0 Usage
run taken --key {hex} list ex@org o@own.org => 0 Usage
run taken --key {hex} '' ex.org o@own.org => 0 Usage
run taken --key {hex} list ex.org own.org => 0 Usage
run taken --key {hex} list ex.org list-owner@ex.org => 0 Usage
run taken --key {hex} list ex.org LIST@EX.ORG => 0 Usage
run taken --key {hex} list ex.org lists@ex.org => 0 taken
";

#[test]
fn rows_are_answered(rt: HostRuntime) -> Result<(), Fail> {
    let alloc = rt.alloc();
    hold::<Forms>(alloc, "codes", CODES)?;
    hold::<Forms>(alloc, "texts", TEXTS)?;
    hold::<Forms>(alloc, "files", FILES)?;
    hold::<Forms>(alloc, "letters", LETTERS)?;
    hold::<Forms>(alloc, "words", WORDS)
}

#[test]
fn the_laws_can_be_called() {
    law_once();
    law_joined();
    law_posts();
    law_digests();
    law_leaving();
    law_chain();
    law_new_list();
    law_states();
    law_parts();
    law_changes();
}
