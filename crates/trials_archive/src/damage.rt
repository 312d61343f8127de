// Archives whose files were written by hand: files outside their grammar, files that disagree, failing reads, and cuts.
pub(crate) const TABLE: &str = r"
list put num 2\n | put archive/0/index 10:1000000000,3:g@h,1:3,5:hello,\n10:1000000000,3:g@h,1:3,9:Re: hello,\n | put archive/threads/231 5:hello,3:1,2, | put archive/0/01 hi\n | put archive/0/02 hi\n
# Texts that spell no number of posts.
drop num | run count => 75 damaged 11 0 | run post 1 => 75 damaged 11 0 | run range 1 2 => 75 damaged 11 0 | run thread '' 1 => 75 damaged 11 0
put num  | run count => 75 damaged 11 0 | run post 1 => 75 damaged 11 0 | run range 1 2 => 75 damaged 11 0 | run thread '' 1 => 75 damaged 11 0
put num 2 | run count => 75 damaged 11 0 | run post 1 => 75 damaged 11 0 | run range 1 2 => 75 damaged 11 0 | run thread '' 1 => 75 damaged 11 0
put num 02\n | run count => 75 damaged 11 0 | run post 1 => 75 damaged 11 0 | run range 1 2 => 75 damaged 11 0 | run thread '' 1 => 75 damaged 11 0
put num 100000000\n | run count => 75 damaged 11 0 | run post 1 => 75 damaged 11 0 | run range 1 2 => 75 damaged 11 0 | run thread '' 1 => 75 damaged 11 0
put num 2\n\n | run count => 75 damaged 11 0 | run post 1 => 75 damaged 11 0 | run range 1 2 => 75 damaged 11 0 | run thread '' 1 => 75 damaged 11 0
put num x\n | run count => 75 damaged 11 0 | run post 1 => 75 damaged 11 0 | run range 1 2 => 75 damaged 11 0 | run thread '' 1 => 75 damaged 11 0
# Texts that are no index of the first group.
put archive/0/index x | run index 0 => 75 damaged 10 0 | run post 1 => 75 damaged 10 0 | run range 1 2 => 75 damaged 10 0 | run thread '' 1 => 75 damaged 10 0
put archive/0/index \n | run index 0 => 75 damaged 10 0 | run post 1 => 75 damaged 10 0 | run range 1 2 => 75 damaged 10 0 | run thread '' 1 => 75 damaged 10 0
put archive/0/index 10:1000000000,3:g@h,1:3,5:hello, | run index 0 => 75 damaged 10 0 | run post 1 => 75 damaged 10 0 | run range 1 2 => 75 damaged 10 0 | run thread '' 1 => 75 damaged 10 0
put archive/0/index 10:1000000000,3:g@h,1:3,5:hello,\x0D\n | run index 0 => 75 damaged 10 0 | run post 1 => 75 damaged 10 0 | run range 1 2 => 75 damaged 10 0 | run thread '' 1 => 75 damaged 10 0
put archive/0/index 10:1000000000,3:g@h,1:3,5:hell,\n | run index 0 => 75 damaged 10 0 | run post 1 => 75 damaged 10 0 | run range 1 2 => 75 damaged 10 0 | run thread '' 1 => 75 damaged 10 0
put archive/0/index 10:1000000000,3:g@H,1:3,5:hello,\n | run index 0 => 75 damaged 10 0 | run post 1 => 75 damaged 10 0 | run range 1 2 => 75 damaged 10 0 | run thread '' 1 => 75 damaged 10 0
put archive/0/index 10:1000000000,2:gh,1:3,5:hello,\n | run index 0 => 75 damaged 10 0 | run post 1 => 75 damaged 10 0 | run range 1 2 => 75 damaged 10 0 | run thread '' 1 => 75 damaged 10 0
put archive/0/index 12:253402300800,3:g@h,1:3,5:hello,\n | run index 0 => 75 damaged 10 0 | run post 1 => 75 damaged 10 0 | run range 1 2 => 75 damaged 10 0 | run thread '' 1 => 75 damaged 10 0
put archive/0/index 2:01,3:g@h,1:3,5:hello,\n | run index 0 => 75 damaged 10 0 | run post 1 => 75 damaged 10 0 | run range 1 2 => 75 damaged 10 0 | run thread '' 1 => 75 damaged 10 0
put archive/0/index 10:1000000000,3:g@h,10:4294967296,5:hello,\n | run index 0 => 75 damaged 10 0 | run post 1 => 75 damaged 10 0 | run range 1 2 => 75 damaged 10 0 | run thread '' 1 => 75 damaged 10 0
put archive/0/index 10:1000000000,3:g@h,2:03,5:hello,\n | run index 0 => 75 damaged 10 0 | run post 1 => 75 damaged 10 0 | run range 1 2 => 75 damaged 10 0 | run thread '' 1 => 75 damaged 10 0
put archive/0/index 10:1000000000,3:g@h,1:3,5:hello,\nx | run index 0 => 75 damaged 10 0 | run post 1 => 75 damaged 10 0 | run range 1 2 => 75 damaged 10 0 | run thread '' 1 => 75 damaged 10 0
# Texts that are no thread file, or that lack post 1, or that have a post without an entry.
drop archive/threads/231 | run thread '' 1 => 75 damaged 20 231
put archive/threads/231 x | run thread '' 1 => 75 damaged 20 231
put archive/threads/231 5:hello,3:1,2,x | run thread '' 1 => 75 damaged 20 231
put archive/threads/231 5:hello, | run thread '' 1 => 75 damaged 20 231
put archive/threads/231 5:hello,0:, | run thread '' 1 => 75 damaged 20 231
put archive/threads/231 5:hello,3:1,1, | run thread '' 1 => 75 damaged 20 231
put archive/threads/231 5:hello,3:2,1, | run thread '' 1 => 75 damaged 20 231
put archive/threads/231 5:hello,3:0,1, | run thread '' 1 => 75 damaged 20 231
put archive/threads/231 5:hello,2:1,, | run thread '' 1 => 75 damaged 20 231
put archive/threads/231 5:hello,2:01, | run thread '' 1 => 75 damaged 20 231
put archive/threads/231 5:hello,11:1,100000000, | run thread '' 1 => 75 damaged 20 231
put archive/threads/231 5:other,3:1,2, | run thread '' 1 => 75 damaged 20 231
put archive/threads/231 5:hello,1:1,5:hello,1:2, | run thread '' 1 => 75 damaged 20 231
put archive/threads/231 5:hello,1:2, | run thread '' 1 => 75 damaged 20 231
put archive/threads/231 5:hello,5:1,2,3, | run thread '' 1 => 75 damaged 20 231
# A thread is what its file says.
put archive/threads/231 5:hello,1:1, | run thread '' 1 => 0 1\n
put archive/threads/231 5:hello,1:1, | run thread '' 2 => 75 damaged 20 231
# More posts than the index has.
put num 3\n | run post 3 => 75 damaged 11 0
put num 3\n | run range 2 3 => 75 damaged 11 0
put num 3\n | run thread '' 3 => 75 damaged 11 0
list put num 1\n | put archive/0/index 10:1000000000,3:g@h,1:4,5:hello,\n | put archive/threads/231 5:hello,1:1, | put archive/0/01 hi\n | put archive/0/02 hi\n
# A post of another size.
run post 1 => 75 damaged 10 0
list put num 2\n | put archive/0/index 10:1000000000,3:g@h,1:3,5:hello,\n10:1000000000,3:g@h,1:3,9:Re: hello,\n | put archive/threads/231 5:hello,3:1,2, | put archive/0/01 hi\n | put archive/0/02 hi\n
# A post over failing reads.
turns 1 3 | fail | run post 1 => 111 a read failed
# A thread over failing reads.
turns 1 3 | fail | run thread '' 1 => 111 a read failed
# A post appended over failing reads.
turns 1 3 | fail | at 0 | input Subject: hello\n\n | run append '' 1 => 111 a read failed | same
# One thread of four posts, whose sizes an index says.
list put num 4\n | put archive/threads/5 0:,7:1,2,3,4,
# One post that is too large, or that leaves no room.
put archive/0/index 1:0,3:g@h,7:4194305,0:,\n1:0,3:g@h,1:0,0:,\n1:0,3:g@h,1:0,0:,\n1:0,3:g@h,1:0,0:,\n | run range 1 4 => 0 1\n | run thread '' 4 => 0 1\n
put archive/0/index 1:0,3:g@h,10:4294967295,0:,\n1:0,3:g@h,1:0,0:,\n1:0,3:g@h,1:0,0:,\n1:0,3:g@h,1:0,0:,\n | run range 1 4 => 0 1\n | run thread '' 4 => 0 1\n
put archive/0/index 1:0,3:g@h,1:0,0:,\n1:0,3:g@h,7:4194305,0:,\n1:0,3:g@h,1:0,0:,\n1:0,3:g@h,1:0,0:,\n | run range 1 4 => 0 1\n | run thread '' 4 => 0 1\n
put archive/0/index 1:0,3:g@h,1:1,0:,\n1:0,3:g@h,7:4194304,0:,\n1:0,3:g@h,1:0,0:,\n1:0,3:g@h,1:0,0:,\n | run range 1 4 => 0 1\n | run thread '' 4 => 0 1\n
# Two posts have room.
put archive/0/index 1:0,3:g@h,7:4194303,0:,\n1:0,3:g@h,1:1,0:,\n1:0,3:g@h,1:1,0:,\n1:0,3:g@h,1:0,0:,\n | run range 1 4 => 0 1\n2\n
put archive/0/index 1:0,3:g@h,7:4194303,0:,\n1:0,3:g@h,1:1,0:,\n1:0,3:g@h,1:1,0:,\n1:0,3:g@h,1:0,0:,\n | run thread '' 4 => 0 1\n2\n
# Three posts have room.
put archive/0/index 1:0,3:g@h,7:4194304,0:,\n1:0,3:g@h,1:0,0:,\n1:0,3:g@h,1:0,0:,\n1:0,3:g@h,1:1,0:,\n | run range 1 4 => 0 1\n2\n3\n
put archive/0/index 1:0,3:g@h,7:4194304,0:,\n1:0,3:g@h,1:0,0:,\n1:0,3:g@h,1:0,0:,\n1:0,3:g@h,1:1,0:,\n | run thread '' 4 => 0 1\n2\n3\n
# Four posts have room.
put archive/0/index 1:0,3:g@h,1:1,0:,\n1:0,3:g@h,1:1,0:,\n1:0,3:g@h,1:1,0:,\n1:0,3:g@h,1:1,0:,\n | run range 1 4 => 0 1\n2\n3\n4\n | run thread '' 4 => 0 1\n2\n3\n4\n
put archive/0/index 1:0,3:g@h,7:2000000,0:,\n1:0,3:g@h,7:2194304,0:,\n1:0,3:g@h,1:0,0:,\n1:0,3:g@h,1:0,0:,\n | run range 1 4 => 0 1\n2\n3\n4\n | run thread '' 4 => 0 1\n2\n3\n4\n
";
