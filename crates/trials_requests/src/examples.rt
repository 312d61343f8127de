// Worked examples: a question and what may follow it, a member who is asked, the archive of three posts, and a thread. Mails and
// cookies were made with another program.
pub(crate) const TABLE: &str = r"
let m From: g@h\n\nhi\n
# What the entry of each mail begins with.
let mail 12:list-return-,6:ex.org,1:p,
# The bytes 0 to 31.
let bytes \0\x01\x02\x03\x04\x05\x06\x07\x08\x09\n\x0B\x0C\x0D\x0E\x0F\x10\x11\x12\x13\x14\x15\x16\x17\x18\x19\x1A\x1B\x1C\x1D\x1E\x1F
let message From: a@b\nTo: list@ex.org\nSubject: x\n\nhi\n
let date \nDate: Sun, 09 Sep 2001 01:46:40 -0000\nSubject:\x20
let confirmed list-sc.1000000200.gejckjgcpngcagofoonm-g=h@ex.org
# One letter of the cookie is changed.
let misspelled list-sc.1000000200.gejckjgcpngcagofoonp-g=h@ex.org
let of-a-list From: a@b\nTo: list@ex.org\nSubject: x\nMailing-List: y\n\nhi\n
# A key of 32 bytes 255 from 1,000,000,300 on, and the one before it.
let rekeyed \xFF\xFF\xFF\xFF\xFF\xFF\xFF\xFF\xFF\xFF\xFF\xFF\xFF\xFF\xFF\xFF\xFF\xFF\xFF\xFF\xFF\xFF\xFF\xFF\xFF\xFF\xFF\xFF\xFF\xFF\xFF\xFF{bytes}\0\0\0\0;\x9A\xCB,
# What each mail begins with.
let head Mailing-List: contact list-help@ex.org; run by ezmlm\nPrecedence: bulk\nFrom: list-help@ex.org\nTo:\x20
# What is sent of each post begins with this.
let sends Mailing-List: contact list-help@ex.org; run by ezmlm\nPrecedence: bulk\nList-Post: <mailto:list@ex.org>\nList-Help: <mailto:list-help@ex.org>\nList-Unsubscribe: <mailto:list-unsubscribe@ex.org>\nList-Subscribe: <mailto:list-subscribe@ex.org>\nDelivered-To: mailing list list@ex.org\n
# A post of 321 bytes.
let post {sends}From: a@b\nTo: list@ex.org\nSubject: hello\n\nhi\n
# The entry with the question that `g@h` gets.
let asked {mail}323:{head}g@h\nReply-To: {confirmed}\nDate: Sun, 09 Sep 2001 01:50:00 -0000\nSubject: confirm subscribe\n\nTo add g@h to list of list@ex.org, write to\n{confirmed}\n,3:g@h,
# The entry with the question whether `a@b`, who gets it, is to leave.
let leaving {mail}330:{head}a@b\nReply-To: list-uc.1000000000.kadenkneofgbjlhnomng-a=b@ex.org{date}confirm unsubscribe\n\nTo remove a@b from list of list@ex.org, write to\nlist-uc.1000000000.kadenkneofgbjlhnomng-a=b@ex.org\n,3:a@b,
# A question is answered as long as its cookie is good.
list run new => 0 | put counts/list 0\n | at 1000000200 | input {message}
run mail g@h list-subscribe@ex.org => 0 8 0 | gets queue/1 {asked} | gets ids 1:2\n | same
then at 1001000200 | input {message} | run mail g@h {confirmed} => 0 4 0 | has subscribers/N layout 2\nTg@h\01001000200\0
run mail g@h list-subscribe@ex.org => 0 8 0 | gets queue/1 {asked} | gets ids 1:2\n | same
then at 1001000201 | input {message} | run mail g@h {confirmed} => 0 30 0 | same
# The clock ran back.
then at 1000000199 | input {message} | run mail g@h {confirmed} => 0 30 0 | same
then at 1001000200 | input {message} | run mail g@h {misspelled} => 0 30 0 | same
then at 1000000300 | input {of-a-list} | run mail g@h list-subscribe@ex.org => 0 23 0 | same
# The former key counts up to its change.
run mail g@h list-subscribe@ex.org => 0 8 0 | gets queue/1 {asked} | gets ids 1:2\n | same
then put key {rekeyed} | at 1001000200 | input {message} | run mail g@h {confirmed} => 0 4 0 | has subscribers/N layout 2\nTg@h\01001000200\0
run mail g@h list-subscribe@ex.org => 0 8 0 | gets queue/1 {asked} | gets ids 1:2\n | same
then put key {rekeyed} | at 1000000400 | input {message} | run mail g@h list-sc.1000000300.hhogcnohgbahlpcnfffi-g=h@ex.org => 0 4 0 | has subscribers/N layout 2\nTg@h\01000000400\0
run mail g@h list-subscribe@ex.org => 0 8 0 | gets queue/1 {asked} | gets ids 1:2\n | same
then put key {rekeyed} | at 1000000400 | input {message} | run mail g@h list-sc.1000000301.dhcepojmalbdbahddbgn-g=h@ex.org => 0 30 0 | same
# A member is asked whether he leaves.
list run new => 0 | at 1000000200 | input {message}
put counts/list 1\n | put subscribers/] Ta@b\0 | at 1000000000 | run mail a@b LIST-Unsubscribe@EX.org => 0 8 0 | gets queue/1 {leaving} | gets ids 1:2\n | same
# An archive of one post three times.
list run new => 0 | put num 3\n | put archive/0/index 10:1000000100,3:a@b,3:321,5:hello,\n10:1000000000,3:g@h,3:321,5:hello,\n10:1000000000,3:g@h,3:321,5:hello,\n | put archive/0/01 {post} | put archive/0/02 {post} | put archive/0/03 {post} | put archive/threads/231 5:hello,5:1,2,3, | input {m}
run mail g@h list-index.1@ex.org f => 0 9 0 | gets queue/1 {mail}313:{head}g@h{date}archive of list@ex.org\n\n1: Sun, 09 Sep 2001 01:48:20 -0000; a@b\n\x09hello\n2: Sun, 09 Sep 2001 01:46:40 -0000; g@h\n\x09hello\n3: Sun, 09 Sep 2001 01:46:40 -0000; g@h\n\x09hello\n,3:g@h, | gets ids 1:2\n | same
run mail g@h list-get.1_2@ex.org f => 0 9 0 | gets queue/1 {mail}876:{head}g@h{date}archive of list@ex.org\n\n--- post 1 of list@ex.org ---\n{post}\n--- post 2 of list@ex.org ---\n{post}\n,3:g@h, | gets ids 1:2\n | same
# A thread is what its file says, and a post that the file lacks makes it damaged.
list run new => 0 | put num 3\n | put archive/0/index 10:1000000000,3:g@h,2:19,5:hello,\n10:1000000000,3:g@h,2:30,16:Re: [list] Hello,\n10:1000000000,3:g@h,2:19,5:other,\n | put archive/0/01 Subject: hello\n\nhi\n | put archive/0/02 Subject: Re: [list] Hello\n\nhi\n | put archive/0/03 Subject: other\n\nhi\n | put archive/threads/161 5:other,1:3, | input {m}
put archive/threads/231 5:hello,3:1,2, | run mail g@h list-thread.2@ex.org f => 0 9 0 | gets queue/1 {mail}283:{head}g@h{date}archive of list@ex.org\n\n--- post 1 of list@ex.org ---\nSubject: hello\n\nhi\n\n--- post 2 of list@ex.org ---\nSubject: Re: [list] Hello\n\nhi\n\n,3:g@h, | gets ids 1:2\n | same
put archive/threads/231 5:hello,1:1, | run mail g@h list-thread.1@ex.org f => 0 9 0 | gets queue/1 {mail}222:{head}g@h{date}archive of list@ex.org\n\n--- post 1 of list@ex.org ---\nSubject: hello\n\nhi\n\n,3:g@h, | gets ids 1:2\n | same
put archive/threads/231 5:hello,1:1, | run mail g@h list-thread.2@ex.org f => 0 damaged 20 231 | same
";
