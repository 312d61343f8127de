// Audits: an archive of four posts with one file changed, archives of appended posts, at the ends of groups, and a long archive.
pub(crate) const TABLE: &str = r"
# Posts 1 and 2 have the key `hello`, post 3 `other` and post 4 `world`, whose file is that of `hello`.
list put archive/0/01 Subject: hello\n\nhi\n | put archive/0/02 Subject: Re: [list] Hello\n\nhi\n | put archive/0/03 Subject: other\n\nhi\n | put archive/0/04 Subject: world\n\nhi\n | put archive/0/index 10:1000000000,3:g@h,2:19,5:hello,\n10:1000000000,3:g@h,2:30,16:Re: [list] Hello,\n10:1000000000,3:g@h,2:19,5:other,\n10:1000000000,3:g@h,2:19,5:world,\n | put num 4\n | put archive/threads/231 5:hello,3:1,2,5:world,1:4, | put archive/threads/161 5:other,1:3,
# A file that nothing looks at, and files past the number of posts.
put dig 4:1\n | run audit [list] => 0 sound
put num 4\n | run audit [list] => 0 sound
put archive/0/05 a post past the number | run audit [list] => 0 sound
put archive/1/00 a post past the number | run audit [list] => 0 sound
put archive/1/index an index past the number | run audit [list] => 0 sound
put archive/threads/5  | run audit [list] => 0 sound
# A number that the index does not have.
drop num | run audit [list] => 75 damaged 11 0
put num  | run audit [list] => 75 damaged 11 0
put num 4 | run audit [list] => 75 damaged 11 0
put num 04\n | run audit [list] => 75 damaged 11 0
put num 4\n\n | run audit [list] => 75 damaged 11 0
put num x\n | run audit [list] => 75 damaged 11 0
put num 100000000\n | run audit [list] => 75 damaged 11 0
put num 3\n | run audit [list] => 75 damaged 11 0
put num 5\n | run audit [list] => 75 damaged 11 0
put num 100\n | run audit [list] => 75 damaged 11 0
drop archive/0/index | run audit [list] => 75 damaged 11 0
put archive/0/index  | run audit [list] => 75 damaged 11 0
put archive/0/index 10:1000000000,3:g@h,2:19,5:hello,\n10:1000000000,3:g@h,2:30,16:Re: [list] Hello,\n10:1000000000,3:g@h,2:19,5:other,\n | run audit [list] => 75 damaged 11 0
# An index that its posts do not have.
put archive/0/index x | run audit [list] => 75 damaged 10 0
put archive/0/index \n | run audit [list] => 75 damaged 10 0
put archive/0/index 10:1000000000,3:g@h,2:19,5:hello, | run audit [list] => 75 damaged 10 0
put archive/0/index 10:1000000000,3:g@h,2:19,5:hello,\n\n | run audit [list] => 75 damaged 10 0
put archive/0/index 10:1000000000,3:g@H,2:19,5:hello,\n | run audit [list] => 75 damaged 10 0
put archive/0/index 11:01000000000,3:g@h,2:19,5:hello,\n | run audit [list] => 75 damaged 10 0
put archive/0/index 10:1000000000,3:g@h,10:4294967296,5:hello,\n | run audit [list] => 75 damaged 10 0
put archive/0/index 10:1000000000,3:g@h,2:19,5:hello,\n10:1000000000,3:g@h,2:30,16:Re: [list] Hello,\n10:1000000000,3:g@h,2:20,5:other,\n10:1000000000,3:g@h,2:19,5:world,\n | run audit [list] => 75 damaged 10 0
drop archive/0/03 | run audit [list] => 75 damaged 10 0
put archive/0/03  | run audit [list] => 75 damaged 10 0
put archive/0/03 Subject: other\n\nhi | run audit [list] => 75 damaged 10 0
put archive/0/03 Subject: other\n\nhi\n\n | run audit [list] => 75 damaged 10 0
# A thread file that its posts do not have.
drop archive/threads/231 | run audit [list] => 75 damaged 20 231
put archive/threads/231  | run audit [list] => 75 damaged 20 231
put archive/threads/231 5:hello,3:1,2, | run audit [list] => 75 damaged 20 231
put archive/threads/231 5:hello,3:1,2,5:world,1:4,x | run audit [list] => 75 damaged 20 231
put archive/threads/231 5:hello,3:1,2,5:world,0:, | run audit [list] => 75 damaged 20 231
put archive/threads/231 5:hello,3:1,2,5:world,1:0, | run audit [list] => 75 damaged 20 231
put archive/threads/231 5:hello,3:2,1,5:world,1:4, | run audit [list] => 75 damaged 20 231
put archive/threads/231 5:hello,5:1,2,2,5:world,1:4, | run audit [list] => 75 damaged 20 231
put archive/threads/231 5:hello,5:1,2,9,5:world,1:4, | run audit [list] => 75 damaged 20 231
put archive/threads/231 5:hello,5:1,2,3,5:world,1:4, | run audit [list] => 75 damaged 20 231
put archive/threads/231 5:hello,1:1,5:world,1:4, | run audit [list] => 75 damaged 20 231
put archive/threads/231 5:hello,1:4,5:world,3:1,2, | run audit [list] => 75 damaged 20 231
put archive/threads/231 5:hello,1:1,5:world,3:2,4, | run audit [list] => 75 damaged 20 231
put archive/threads/231 5:world,1:4,5:hello,3:1,2, | run audit [list] => 75 damaged 20 231
put archive/threads/231 5:hello,3:1,2,5:hello,1:2,5:world,1:4, | run audit [list] => 75 damaged 20 231
put archive/threads/231 5:hello,3:1,2,5:other,1:3,5:world,1:4, | run audit [list] => 75 damaged 20 231
put archive/threads/231 5:hello,4:1,02,5:world,1:4, | run audit [list] => 75 damaged 20 231
# A thread file whose keys no post has.
put archive/threads/5 0:,1:1, | run audit [list] => 75 damaged 20 5
put archive/threads/5 5:hello,3:1,2, | run audit [list] => 75 damaged 20 5
# A thread file that is absent.
drop archive/threads/161 | run audit [list] => 75 damaged 20 161
# A thread file that is no thread file.
put archive/threads/255 x | run audit [list] => 75 damaged 20 255
# Another prefix, where post 2 has the key `[list] hello`.
run audit '' => 75 damaged 20 99
# Each read fails: of the number, an index, four posts, the index again and 256 thread files.
turns 1 263 | fail | run audit [list] => 111 a read failed
# There is no read after the last.
fail 264 | run audit [list] => 0 sound
# Appended posts, of two threads.
let first Subject: [LIST] other\n\nhi\n
let reply Subject: Re: hello\n\nhi\n
list put num 0\n
# No post, whatever the first index.
run audit [list] => 0 sound
put archive/0/index  | run audit [list] => 0 sound
put archive/0/index x | run audit [list] => 0 sound
list put num 0\n | input {first} | run append [list] 1 => 0 1\n
# One post.
run audit [list] => 0 sound
# One post without its index.
put archive/0/index  | run audit [list] => 75 damaged 11 0
# One post with another index.
put archive/0/index x | run audit [list] => 75 damaged 10 0
list put num 0\n | input {first}\0{reply}\0{reply} | run append [list] 33 => 0 99\n
# 99 posts, whatever the second index.
run audit [list] => 0 sound
put archive/1/index  | run audit [list] => 0 sound
put archive/1/index x | run audit [list] => 0 sound
# 99 posts without their index.
put archive/0/index  | run audit [list] => 75 damaged 11 0
list put num 0\n | input {first}\0{reply}\0{reply} | run append [list] 33 => 0 99\n | input {first} | run append [list] 1 => 0 100\n
# 100 posts.
run audit [list] => 0 sound
# 100 posts without the second index.
put archive/1/index  | run audit [list] => 75 damaged 11 0
# 100 posts with another second index.
put archive/1/index x | run audit [list] => 75 damaged 10 1
list put num 0\n | input {first}\0{reply}\0{reply} | run append [list] 33 => 0 99\n | input {first} | run append [list] 1 => 0 100\n | input {reply} | run append [list] 1 => 0 101\n
# 101 posts, whatever the third index.
run audit [list] => 0 sound
put archive/2/index  | run audit [list] => 0 sound
# 101 posts without the second index.
put archive/1/index  | run audit [list] => 75 damaged 11 0
# The first and the last post of a group are shorter.
put archive/0/01 Subject: hi\n | run audit [list] => 75 damaged 10 0
put archive/0/99 Subject: hi\n | run audit [list] => 75 damaged 10 0
# The posts of the next group are shorter.
put archive/1/00 Subject: hi\n | run audit [list] => 75 damaged 10 1
put archive/1/01 Subject: hi\n | run audit [list] => 75 damaged 10 1
list put num 0\n | input {first}\0{reply}\0{reply} | run append [list] 66 => 0 198\n | input {first} | run append [list] 1 => 0 199\n
# 199 posts, whatever the third index.
put archive/2/index  | run audit [list] => 0 sound
put archive/2/index x | run audit [list] => 0 sound
# 199 posts with another second index.
put archive/1/index x | run audit [list] => 75 damaged 10 1
list put num 0\n | input {first}\0{reply}\0{reply} | run append [list] 66 => 0 198\n | input {first} | run append [list] 1 => 0 199\n | input {reply} | run append [list] 1 => 0 200\n
# 200 posts without the third index.
put archive/2/index  | run audit [list] => 75 damaged 11 0
# 200 posts with another third index.
put archive/2/index x | run audit [list] => 75 damaged 10 2
";

// Posts 1 to 99 have the key `other`, and the later ones `hello`. The first 174 thread files are compared before the others.
pub(crate) const LONG: &str = r"
list input 10:1000000000,3:g@h,1:3,5:hello,\n | run indexes 6000 => 0 | each 1 6000 archive/0 hi\n | put num 6000\n | put archive/0/index {1..99:10:1000000000,3:g@h,1:3,5:other,\n} | put archive/threads/161 5:other,287:1{2..99:,%}, | put archive/threads/231 5:hello,28604:100{101..6000:,%},
# 6,000 posts, in two turns.
run audit [list] => 0 sound
# A thread file of the first turn.
drop archive/threads/161 | run audit [list] => 75 damaged 20 161
put archive/threads/161 5:other,1:1, | run audit [list] => 75 damaged 20 161
# A thread file of the second turn.
drop archive/threads/231 | run audit [list] => 75 damaged 20 231
# The last thread file of the first turn.
put archive/threads/173 0:,1:1, | run audit [list] => 75 damaged 20 173
# The first thread file of the second turn.
put archive/threads/174 5:other,1:1, | run audit [list] => 75 damaged 20 174
# The last post is shorter.
put archive/60/00 hi | run audit [list] => 75 damaged 10 60
";
