// Every mail in full. The texts were made by hand from their grammar.
pub(crate) const TABLE: &str = r"
# What the entry of each mail begins with.
let mail 12:list-return-,6:ex.org,1:p,
let date \nDate: Sun, 09 Sep 2001 01:50:00 -0000\nSubject:\x20
# What each mail begins with.
let head Mailing-List: contact list-help@ex.org; run by ezmlm\nPrecedence: bulk\nFrom: list-help@ex.org\nTo:\x20
list run new => 0 | put counts/list 1\n | put counts/digest 0\n | put counts/allow 0\n | put subscribers/] TA@b\0 | put mod/subscribers/d Tm@o\0 | at 1000000200 | input \nhi\n
run mail g@h list-subscribe@ex.org '' 1000 => 0 8 0 | gets queue/1 {mail}323:{head}g@h\nReply-To: list-sc.1000000200.gejckjgcpngcagofoonm-g=h@ex.org{date}confirm subscribe\n\nTo add g@h to list of list@ex.org, write to\nlist-sc.1000000200.gejckjgcpngcagofoonm-g=h@ex.org\n,3:g@h, | gets ids 1:2\n | same
run mail m@o list-allow-subscribe-c=d@ex.org r 1000 => 0 8 0 | gets queue/1 {mail}336:{head}m@o\nReply-To: list-allow-tc.1000000200.iandhegkbllegagjfoli-c=d@ex.org{date}confirm subscribe\n\nTo add c@d to allow of list@ex.org, write to\nlist-allow-tc.1000000200.iandhegkbllegagjfoli-c=d@ex.org\n,3:m@o, | gets ids 1:2\n | same
# Two moderators are asked, and none.
put mod/subscribers/i Tl@o\0 | run mail g@h list-subscribe@ex.org hs 1000 => 0 8 0 | gets queue/1 {mail}337:{head}list-owner@ex.org\nReply-To: list-tc.1000000200.obpncccggeoacmogfpkd-g=h@ex.org{date}confirm subscribe\n\nTo add g@h to list of list@ex.org, write to\nlist-tc.1000000200.obpncccggeoacmogfpkd-g=h@ex.org\n,3:l@o,3:m@o, | gets ids 1:2\n | same
drop mod/subscribers/d | run mail g@h list-subscribe@ex.org hs 1000 => 0 8 0 | gets queue/1 {mail}337:{head}list-owner@ex.org\nReply-To: list-tc.1000000200.obpncccggeoacmogfpkd-g=h@ex.org{date}confirm subscribe\n\nTo add g@h to list of list@ex.org, write to\nlist-tc.1000000200.obpncccggeoacmogfpkd-g=h@ex.org\n, | gets ids 1:2\n | same
run mail g@h list-unsubscribe-a=b@ex.org '' 1000 => 0 8 0 | gets queue/1 {mail}330:{head}A@b\nReply-To: list-uc.1000000200.jgphlibgpcgbahbolpci-A=b@ex.org{date}confirm unsubscribe\n\nTo remove A@b from list of list@ex.org, write to\nlist-uc.1000000200.jgphlibgpcgbahbolpci-A=b@ex.org\n,3:A@b, | gets ids 1:2\n | same
run mail g@h list-subscribe@ex.org h 1000 => 0 4 0 | gets subscribers/N layout 2\nTg@h\01000000200\0 | gets counts/list 2\n | gets queue/1 {mail}195:{head}g@h{date}welcome\n\ng@h was added to list of list@ex.org.\n,3:g@h, | gets ids 1:2\n | same
run mail a@b list-unsubscribe@ex.org jP 1000 => 0 6 0 | loses subscribers/] | gets counts/list 0\n | gets queue/1 {mail}199:{head}A@b{date}goodbye\n\nA@b was removed from list of list@ex.org.\n,3:A@b, | gets ids 1:2\n | same
run mail g@h list-subscribe-a=b@ex.org '' 1000 => 0 5 0 | gets queue/1 {mail}207:{head}g@h{date}already subscribed\n\nA@b is in list of list@ex.org already.\n,3:g@h, | gets ids 1:2\n | same
run mail g@h list-unsubscribe@ex.org '' 1000 => 0 7 0 | gets queue/1 {mail}199:{head}g@h{date}not subscribed\n\ng@h is not in list of list@ex.org.\n,3:g@h, | gets ids 1:2\n | same
";
