// Posts that are appended, the files that stand for them, and what is answered about them.
pub(crate) const TABLE: &str = r"
let hello Subject: hello\n\nhi\n
let answer Subject: Re: [list] Hello\n\nhi\n
let other Subject: other\n\nhi\n
# The first two of three posts make a thread.
list put num 0\n | input {hello}\0{answer}\0{other} | run append [list] 1 => 0 3\n
# Files of three posts.
has archive/0/01 {hello}
has archive/0/02 {answer}
has archive/0/03 {other}
lacks archive/0/04
has archive/0/index 10:1000000000,3:g@h,2:19,5:hello,\n10:1000000000,3:g@h,2:30,16:Re: [list] Hello,\n10:1000000000,3:g@h,2:19,5:other,\n
lacks archive/1/index
has num 3\n
has archive/threads/231 5:hello,3:1,2,
has archive/threads/161 5:other,1:3,
# Answers of three posts.
run thread [list] 0 => 0
run thread [list] 1 => 0 1\n2\n
run thread [list] 2 => 0 1\n2\n
run thread [list] 3 => 0 3\n
run thread [list] 4 => 0
run thread [list] 100000000 => 0
run post 0 => 0 -
run post 1 => 0 1000000000 g@h hello\nSubject: hello\n\nhi\n
run post 2 => 0 1000000000 g@h Re: [list] Hello\nSubject: Re: [list] Hello\n\nhi\n
run post 3 => 0 1000000000 g@h other\nSubject: other\n\nhi\n
run post 4 => 0 -
run post last => 0 -
run count => 0 3\n
run index 0 => 0 1 19 1000000000 g@h hello\n2 30 1000000000 g@h Re: [list] Hello\n3 19 1000000000 g@h other\n
# 201 posts, all of one thread.
list put num 0\n | input {hello} | run append [list] 201 => 0 201\n
# Groups of a hundred.
run index 0 => 0 {1..99:% 19 1000000000 g@h hello\n}
run index 1 => 0 {100..199:% 19 1000000000 g@h hello\n}
run index 2 => 0 {200..201:% 19 1000000000 g@h hello\n}
run index 3 => 0
run index 999999 => 0
run index last => 0
# Ranges and a thread of 201 posts.
run range 0 0 => 0
run range 0 1 => 0 1\n
run range 99 101 => 0 99\n100\n101\n
run range 1 201 => 0 {1..100:%\n}
run range 102 201 => 0 {102..201:%\n}
run range 103 last => 0 {103..201:%\n}
run range 200 300 => 0 200\n201\n
run range 201 201 => 0 201\n
run range 202 300 => 0
run range 7 6 => 0
run range last last => 0
run thread [list] 201 => 0 {1..100:%\n}
list input 10:1000000000,3:g@h,1:3,5:hello,\n | run indexes 10000 => 0 | put num 10000\n
# Ranges over two groups.
run range 4950 5100 => 0 {4950..5049:%\n}
run range 4950 5049 => 0 {4950..5049:%\n}
run range 9999 20000 => 0 9999\n10000\n
list at 1000000000
# No number after the last.
put num 99999999\n | at 0 | input {hello} | run append '' 1 => 0 full | has num 99999999\n
# The first of a late group.
put num 99999899\n | at 0 | input {hello} | run append '' 1 => 0 99999900\n | has num 99999900\n | has archive/999999/index 1:0,3:g@h,2:19,5:hello,\n
# The first post.
put num 0\n | at 0 | input {hello} | run append '' 1 => 0 1\n | has num 1\n | has archive/0/index 1:0,3:g@h,2:19,5:hello,\n
# A number above the index.
put num 98\n | at 0 | input {hello} | run append '' 1 => 75 damaged 11 0
";
