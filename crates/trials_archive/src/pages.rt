// Pages of archives whose index and thread files are written by hand. There are no posts, so no call reads one.
pub(crate) const TABLE: &str = r"
let hello <!DOCTYPE html>\n<html><head><meta charset=\x22utf-8\x22><title>list@ex.org 2001-09</title></head><body>\n<h1>list@ex.org 2001-09</h1>\n<ul>\n<li><a href=\x221\x22>1</a> Sun, 09 Sep 2001 01:48:20 -0000, a@b: hello</li>\n</ul></body></html>\n
let september <!DOCTYPE html>\n<html><head><meta charset=\x22utf-8\x22><title>list@ex.org 2001-09</title></head><body>\n<h1>list@ex.org 2001-09</h1>\n<ul>\n<li><a href=\x222\x22>2</a> Sun, 30 Sep 2001 23:59:59 -0000, a@b: Re: [l] A&lt;B &amp; &quot;c&quot;</li>\n<li><a href=\x225\x22>5</a> Sun, 30 Sep 2001 23:59:59 -0000, a@b: re: first</li>\n</ul></body></html>\n
let december <!DOCTYPE html>\n<html><head><meta charset=\x22utf-8\x22><title>list@ex.org 9999-12</title></head><body>\n<h1>list@ex.org 9999-12</h1>\n<ul>\n<li><a href=\x224\x22>4</a> Fri, 31 Dec 9999 23:59:59 -0000, a@b: last \xC3\xA4\x09&amp;amp;</li>\n</ul></body></html>\n
let thread <!DOCTYPE html>\n<html><head><meta charset=\x22utf-8\x22><title>list@ex.org thread 1</title></head><body>\n<h1>list@ex.org thread 1</h1>\n<ul>\n<li><a href=\x221\x22>1</a> Mon, 01 Oct 2001 00:00:00 -0000, a@b: a&lt;b &amp; &quot;c&quot;</li>\n<li><a href=\x222\x22>2</a> Sun, 30 Sep 2001 23:59:59 -0000, a@b: Re: [l] A&lt;B &amp; &quot;c&quot;</li>\n</ul></body></html>\n
let empty-key <!DOCTYPE html>\n<html><head><meta charset=\x22utf-8\x22><title>list@ex.org thread 6</title></head><body>\n<h1>list@ex.org thread 6</h1>\n<ul>\n<li><a href=\x226\x22>6</a> Tue, 29 Feb 2000 00:00:00 -0000, a@b: </li>\n</ul></body></html>\n
let month-head <!DOCTYPE html>\n<html><head><meta charset=\x22utf-8\x22><title>list@ex.org 2001-09</title></head><body>\n<h1>list@ex.org 2001-09</h1>\n<ul>\n
let thread-head <!DOCTYPE html>\n<html><head><meta charset=\x22utf-8\x22><title>list@ex.org thread 1</title></head><body>\n<h1>list@ex.org thread 1</h1>\n<ul>\n
let line <li><a href=\x22%\x22>%</a> Sun, 09 Sep 2001 01:48:20 -0000, a@b: hello</li>\n
let tail </ul></body></html>\n
list put num 0\n
# Pages of no post.
run listing => 0
list put num 1\n | put archive/0/index 10:1000000100,3:a@b,1:3,5:hello,\n | put archive/threads/231 5:hello,1:1,
# Pages of one post.
run listing => 0 month 2001-09 1\nthread 1 1\n
run month 2001 9 1 => 0 {hello}
# Out of order, at both ends of months, and in the first and the last month that there is.
list put num 7\n | put archive/0/index 10:1001894400,3:a@b,1:3,9:a<b & \x22c\x22,\n10:1001894399,3:a@b,1:3,17:Re: [l] A<B & \x22c\x22,\n1:0,3:a@b,1:3,5:first,\n12:253402300799,3:a@b,1:3,13:last \xC3\xA4\x09&amp;,\n10:1001894399,3:a@b,1:3,9:re: first,\n9:951782400,3:a@b,1:3,0:,\n10:1001894401,3:a@b,1:3,17:re: last \xC3\xA4 &amp;,\n | put archive/threads/255 9:a<b & \x22c\x22,3:1,2, | put archive/threads/159 5:first,3:3,5, | put archive/threads/137 13:last \xC3\xA4 &amp;,3:4,7, | put archive/threads/5 0:,1:6,
# The list of months and threads.
run listing => 0 month 1970-01 1\nmonth 2000-02 1\nmonth 2001-09 2\nmonth 2001-10 2\nmonth 9999-12 1\nthread 1 2\nthread 3 2\nthread 4 2\nthread 6 1\n
# Pages of months.
run month 2001 9 1 => 0 {september}
run month 9999 12 1 => 0 {december}
run month 2001 9 0 => 0 -
run month 2001 9 2 => 0 -
run month 2001 9 last => 0 -
run month 2001 8 1 => 0 -
run month 2001 0 1 => 0 -
run month 2001 13 1 => 0 -
run month 0 1 1 => 0 -
run month 1969 12 1 => 0 -
run month 65535 255 1 => 0 -
# Pages of threads.
run page 1 1 => 0 {thread}
run page 6 1 => 0 {empty-key}
run page 1 0 => 0 -
run page 1 2 => 0 -
run page 1 last => 0 -
run page 2 1 => 0 -
run page 0 1 => 0 -
run page 8 1 => 0 -
run page last 1 => 0 -
# In one month and one thread, whose numbers take 8,897 bytes.
list input 10:1000000100,3:a@b,1:3,5:hello,\n | run indexes 2001 => 0 | put num 2001\n | put archive/threads/231 5:hello,8897:1{2..2001:,%},
# A page ends at a thousand posts.
run listing => 0 month 2001-09 2001\nthread 1 2001\n
run month 2001 9 1 => 0 {month-head}{1..1000 line}{tail}
run month 2001 9 2 => 0 {month-head}{1001..2000 line}{tail}
run month 2001 9 3 => 0 {month-head}{2001..2001 line}{tail}
run month 2001 9 4 => 0 -
run page 1 1 => 0 {thread-head}{1..1000 line}{tail}
run page 1 2 => 0 {thread-head}{1001..2000 line}{tail}
run page 1 3 => 0 {thread-head}{2001..2001 line}{tail}
run page 1 4 => 0 -
list put num 1\n | put archive/0/index 10:1000000100,3:a@b,1:3,5:hello,\n | put archive/threads/231 5:hello,1:1,
# A page over a thread file with a post without an entry.
put archive/threads/231 5:hello,3:1,2, | run page 1 1 => 75 damaged 20 231
# Pages over an index outside its grammar.
put archive/0/index x | run months => 75 damaged 10 0
put archive/0/index x | run month 2001 9 1 => 75 damaged 10 0
";
