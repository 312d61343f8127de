// Mail that confirms joining or leaving.
pub(crate) const TABLE: &str = r"
# What the entry of each mail begins with.
let mail 12:list-return-,6:ex.org,1:p,
# The bytes 0 to 31.
let bytes \0\x01\x02\x03\x04\x05\x06\x07\x08\x09\n\x0B\x0C\x0D\x0E\x0F\x10\x11\x12\x13\x14\x15\x16\x17\x18\x19\x1A\x1B\x1C\x1D\x1E\x1F
let date \nDate: Sun, 09 Sep 2001 01:50:00 -0000\nSubject:\x20
let later-date \nDate: Thu, 20 Sep 2001 15:36:40 -0000\nSubject:\x20
# The list's key is a former one, changed at the cookies' moment, and a second earlier.
let rekeyed 99999999999999999999999999999999{bytes}\0\0\0\0;\x9A\xCA\xC8
let earlier 99999999999999999999999999999999{bytes}\0\0\0\0;\x9A\xCA\xC7
# What each mail begins with.
let head Mailing-List: contact list-help@ex.org; run by ezmlm\nPrecedence: bulk\nFrom: list-help@ex.org\nTo:\x20
# `g@h` has joined.
let welcome {mail}195:{head}g@h{date}welcome\n\ng@h was added to list of list@ex.org.\n,3:g@h,
# `G@h` has joined.
let welcome-upper {mail}195:{head}G@h{date}welcome\n\nG@h was added to list of list@ex.org.\n,3:G@h,
# `A@b` has left.
let goodbye {mail}199:{head}A@b{date}goodbye\n\nA@b was removed from list of list@ex.org.\n,3:A@b,
# The moderators are asked to confirm that `g@h` joins.
let asked-moderators {mail}337:{head}list-owner@ex.org\nReply-To: list-tc.1000000200.obpncccggeoacmogfpkd-g=h@ex.org{date}confirm subscribe\n\nTo add g@h to list of list@ex.org, write to\nlist-tc.1000000200.obpncccggeoacmogfpkd-g=h@ex.org\n,3:m@o,
# As long as a cookie is good.
list run new => 0 | put counts/list 1\n | put counts/digest 0\n | put counts/allow 0\n | put subscribers/] TA@b\0 | put mod/subscribers/d Tm@o\0 | at 1000000200 | input \nhi\n
run mail x@y list-sc.1000000200.gejckjgcpngcagofoonm-g=h@ex.org P 1000 => 0 4 0 | gets queue/1 {welcome} | gets ids 1:2\n | gets subscribers/N layout 2\nTg@h\01000000200\0 | gets counts/list 2\n | same
run mail g@h list-sc.1000000200.gejckjgcpngcagofoonm-G=H@ex.org P 1000 => 0 4 0 | gets queue/1 {welcome-upper} | gets ids 1:2\n | gets subscribers/N layout 2\nTG@h\01000000200\0 | gets counts/list 2\n | same
at 1001000200 | run mail g@h list-sc.1000000200.gejckjgcpngcagofoonm-g=h@ex.org P 1000 => 0 4 0 | gets queue/1 {mail}195:{head}g@h{later-date}welcome\n\ng@h was added to list of list@ex.org.\n,3:g@h, | gets ids 1:2\n | gets subscribers/N layout 2\nTg@h\01001000200\0 | gets counts/list 2\n | same
at 1001000201 | run mail g@h list-sc.1000000200.gejckjgcpngcagofoonm-g=h@ex.org P 1000 => 0 30 0 | same
at 1000000199 | run mail g@h list-sc.1000000200.gejckjgcpngcagofoonm-g=h@ex.org P 1000 => 0 30 0 | same
# A letter, the set, the word, the address or the moment is changed.
run mail g@h list-sc.1000000200.hejckjgcpngcagofoonm-g=h@ex.org P 1000 => 0 30 0 | same
run mail g@h list-digest-sc.1000000200.gejckjgcpngcagofoonm-g=h@ex.org P 1000 => 0 30 0 | same
run mail g@h list-tc.1000000200.gejckjgcpngcagofoonm-g=h@ex.org P 1000 => 0 30 0 | same
run mail g@h list-sc.1000000200.gejckjgcpngcagofoonm-c=d@ex.org P 1000 => 0 30 0 | same
run mail g@h list-sc.1000000199.gejckjgcpngcagofoonm-g=h@ex.org P 1000 => 0 30 0 | same
# Under a former key, as long as it was in force.
put key {rekeyed} | run mail g@h list-sc.1000000200.gejckjgcpngcagofoonm-g=h@ex.org P 1000 => 0 4 0 | gets queue/1 {welcome} | gets ids 1:2\n | gets subscribers/N layout 2\nTg@h\01000000200\0 | gets counts/list 2\n | same
put key {earlier} | run mail g@h list-sc.1000000200.gejckjgcpngcagofoonm-g=h@ex.org P 1000 => 0 30 0 | same
# Somebody who is a member already, or isn't one.
run mail g@h list-sc.1000000200.iklmpbaancokijchkeoe-a=b@ex.org Ps 1000 => 0 5 0 | same
run mail m@o list-tc.1000000200.fkbhmgbbbnhkjeccdocm-a=b@ex.org P 1000 => 0 5 0 | same
run mail g@h list-uc.1000000200.ailnmacikclfbfkikbic-g=h@ex.org P 1000 => 0 7 0 | same
# Moderated subscriptions.
run mail g@h list-sc.1000000200.gejckjgcpngcagofoonm-g=h@ex.org Ps 1000 => 0 8 0 | gets queue/1 {asked-moderators} | gets ids 1:2\n | same
run mail g@h list-tc.1000000200.obpncccggeoacmogfpkd-g=h@ex.org Ps 1000 => 0 4 0 | gets queue/1 {welcome} | gets ids 1:2\n | gets subscribers/N layout 2\nTg@h\01000000200\0 | gets counts/list 2\n | same
# A moderator's confirmation counts, whatever the options are by now.
run mail g@h list-tc.1000000200.obpncccggeoacmogfpkd-g=h@ex.org P 1000 => 0 4 0 | gets queue/1 {welcome} | gets ids 1:2\n | gets subscribers/N layout 2\nTg@h\01000000200\0 | gets counts/list 2\n | same
run mail m@o list-allow-tc.1000000200.iandhegkbllegagjfoli-c=d@ex.org P 1000 => 0 4 0 | gets queue/1 {mail}196:{head}c@d{date}welcome\n\nc@d was added to allow of list@ex.org.\n,3:c@d, | gets ids 1:2\n | gets allow/subscribers/L layout 2\nTc@d\01000000200\0 | gets counts/allow 1\n | same
put counts/list 100000\n | run mail g@h list-sc.1000000200.gejckjgcpngcagofoonm-g=h@ex.org P 1000 => 0 20 0 | same
# Leaving.
run mail x@y list-uc.1000000200.jgphlibgpcgbahbolpci-a=B@ex.org P 1000 => 0 6 0 | gets queue/1 {goodbye} | gets ids 1:2\n | loses subscribers/] | gets counts/list 0\n | same
put bounce/] 28:3:a@b,10:1000000000,1:n,1:1,, | run mail x@y list-uc.1000000200.jgphlibgpcgbahbolpci-a=b@ex.org P 1000 => 0 6 0 | gets queue/1 {goodbye} | gets ids 1:2\n | loses subscribers/] | gets counts/list 0\n | loses bounce/] | same
";
