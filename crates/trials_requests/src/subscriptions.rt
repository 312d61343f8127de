// Joining a set and leaving it, by mail: every case of the rules. Expected mails and cookies were made by hand from their grammar.
pub(crate) const TABLE: &str = r"
# What the entry of each mail begins with.
let mail 12:list-return-,6:ex.org,1:p,
let date \nDate: Sun, 09 Sep 2001 01:50:00 -0000\nSubject:\x20
# What each mail begins with.
let head Mailing-List: contact list-help@ex.org; run by ezmlm\nPrecedence: bulk\nFrom: list-help@ex.org\nTo:\x20
# `g@h` has joined.
let welcome {mail}195:{head}g@h{date}welcome\n\ng@h was added to list of list@ex.org.\n,3:g@h,
# `G@h` has joined.
let welcome-upper {mail}195:{head}G@h{date}welcome\n\nG@h was added to list of list@ex.org.\n,3:G@h,
# `A@b` has left.
let goodbye {mail}199:{head}A@b{date}goodbye\n\nA@b was removed from list of list@ex.org.\n,3:A@b,
# `g@h` is asked to confirm that he joins.
let asked-g-h {mail}323:{head}g@h\nReply-To: list-sc.1000000200.gejckjgcpngcagofoonm-g=h@ex.org{date}confirm subscribe\n\nTo add g@h to list of list@ex.org, write to\nlist-sc.1000000200.gejckjgcpngcagofoonm-g=h@ex.org\n,3:g@h,
# `c@d` is asked to confirm that he joins.
let asked-c-d {mail}323:{head}c@d\nReply-To: list-sc.1000000200.adidjcaaioofodlfgbfc-c=d@ex.org{date}confirm subscribe\n\nTo add c@d to list of list@ex.org, write to\nlist-sc.1000000200.adidjcaaioofodlfgbfc-c=d@ex.org\n,3:c@d,
# `A@b` is asked to confirm that he leaves.
let asked-a-b {mail}330:{head}A@b\nReply-To: list-uc.1000000200.jgphlibgpcgbahbolpci-A=b@ex.org{date}confirm unsubscribe\n\nTo remove A@b from list of list@ex.org, write to\nlist-uc.1000000200.jgphlibgpcgbahbolpci-A=b@ex.org\n,3:A@b,
# The moderators are asked to confirm that `g@h` joins.
let asked-moderators {mail}337:{head}list-owner@ex.org\nReply-To: list-tc.1000000200.obpncccggeoacmogfpkd-g=h@ex.org{date}confirm subscribe\n\nTo add g@h to list of list@ex.org, write to\nlist-tc.1000000200.obpncccggeoacmogfpkd-g=h@ex.org\n,3:m@o,
# Requests to join.
list run new => 0 | put counts/list 1\n | put counts/digest 0\n | put counts/allow 0\n | put subscribers/] TA@b\0 | put mod/subscribers/d Tm@o\0 | at 1000000200 | input \nhi\n
run mail g@h list-subscribe@ex.org '' 1000 => 0 8 0 | gets queue/1 {asked-g-h} | gets ids 1:2\n | same
# Only a moderator with the right may change who may post, or not.
run mail g@h list-allow-subscribe@ex.org r 1000 => 0 31 0 | same
run mail m@o list-allow-subscribe@ex.org '' 1000 => 0 31 0 | same
run mail g@h list-deny-subscribe@ex.org r 1000 => 0 31 0 | same
run mail m@o list-allow-subscribe-c=d@ex.org r 1000 => 0 8 0 | gets queue/1 {mail}336:{head}m@o\nReply-To: list-allow-tc.1000000200.iandhegkbllegagjfoli-c=d@ex.org{date}confirm subscribe\n\nTo add c@d to allow of list@ex.org, write to\nlist-allow-tc.1000000200.iandhegkbllegagjfoli-c=d@ex.org\n,3:m@o, | gets ids 1:2\n | same
run mail m@o list-deny-subscribe-c=d@ex.org r 1000 => 0 8 0 | gets queue/1 {mail}333:{head}m@o\nReply-To: list-deny-tc.1000000200.oocebgeojlbkfkpjmpik-c=d@ex.org{date}confirm subscribe\n\nTo add c@d to deny of list@ex.org, write to\nlist-deny-tc.1000000200.oocebgeojlbkfkpjmpik-c=d@ex.org\n,3:m@o, | gets ids 1:2\n | same
# A list that isn't public.
run mail g@h list-subscribe@ex.org P 1000 => 0 31 0 | same
run mail a@b list-subscribe-c=d@ex.org P 1000 => 0 31 0 | same
run mail m@o list-subscribe@ex.org P 1000 => 0 8 0 | gets queue/1 {mail}323:{head}m@o\nReply-To: list-sc.1000000200.aimmfebijbokaaebjakb-m=o@ex.org{date}confirm subscribe\n\nTo add m@o to list of list@ex.org, write to\nlist-sc.1000000200.aimmfebijbokaaebjakb-m=o@ex.org\n,3:m@o, | gets ids 1:2\n | same
# Members, in any case of letters, as the set spells them.
run mail g@h list-subscribe-a=B@ex.org '' 1000 => 0 5 0 | gets queue/1 {mail}207:{head}g@h{date}already subscribed\n\nA@b is in list of list@ex.org already.\n,3:g@h, | gets ids 1:2\n | same
run mail a@b list-subscribe@ex.org hs 1000 => 0 5 0 | gets queue/1 {mail}207:{head}a@b{date}already subscribed\n\nA@b is in list of list@ex.org already.\n,3:a@b, | gets ids 1:2\n | same
run mail m@o list-subscribe-a=b@ex.org r 1000 => 0 5 0 | gets queue/1 {mail}207:{head}m@o{date}already subscribed\n\nA@b is in list of list@ex.org already.\n,3:m@o, | gets ids 1:2\n | same
# A moderator with the right, and without it.
run mail m@o list-subscribe-c=d@ex.org r 1000 => 0 8 0 | gets queue/1 {mail}323:{head}m@o\nReply-To: list-tc.1000000200.mfdeoenpifehkkihkcgm-c=d@ex.org{date}confirm subscribe\n\nTo add c@d to list of list@ex.org, write to\nlist-tc.1000000200.mfdeoenpifehkkihkcgm-c=d@ex.org\n,3:m@o, | gets ids 1:2\n | same
run mail m@o list-subscribe-c=d@ex.org '' 1000 => 0 8 0 | gets queue/1 {asked-c-d} | gets ids 1:2\n | same
run mail m@o list-subscribe@ex.org hr 1000 => 0 8 0 | gets queue/1 {mail}323:{head}m@o\nReply-To: list-tc.1000000200.pkohbanabecldcgmponm-m=o@ex.org{date}confirm subscribe\n\nTo add m@o to list of list@ex.org, write to\nlist-tc.1000000200.pkohbanabecldcgmponm-m=o@ex.org\n,3:m@o, | gets ids 1:2\n | same
# Joining without having to confirm it.
run mail g@h list-subscribe@ex.org h 1000 => 0 4 0 | gets queue/1 {welcome} | gets ids 1:2\n | gets subscribers/N layout 2\nTg@h\01000000200\0 | gets counts/list 2\n | same
run mail g@h list-subscribe-G=H@ex.org h 1000 => 0 4 0 | gets queue/1 {welcome-upper} | gets ids 1:2\n | gets subscribers/N layout 2\nTG@h\01000000200\0 | gets counts/list 2\n | same
put counts/list 100000\n | run mail g@h list-subscribe@ex.org h 1000 => 0 20 0 | same
run mail g@h list-subscribe@ex.org hs 1000 => 0 8 0 | gets queue/1 {asked-moderators} | gets ids 1:2\n | same
run mail g@h list-subscribe@ex.org s 1000 => 0 8 0 | gets queue/1 {asked-g-h} | gets ids 1:2\n | same
run mail g@h list-subscribe-c=d@ex.org h 1000 => 0 8 0 | gets queue/1 {asked-c-d} | gets ids 1:2\n | same
run mail g@h list-subscribe-C=D@ex.org '' 1000 => 0 8 0 | gets queue/1 {mail}323:{head}C@d\nReply-To: list-sc.1000000200.adidjcaaioofodlfgbfc-C=d@ex.org{date}confirm subscribe\n\nTo add C@d to list of list@ex.org, write to\nlist-sc.1000000200.adidjcaaioofodlfgbfc-C=d@ex.org\n,3:C@d, | gets ids 1:2\n | same
run mail g@h list-digest-subscribe@ex.org '' 1000 => 0 8 0 | gets queue/1 {mail}339:{head}g@h\nReply-To: list-digest-sc.1000000200.cmfokaghanjdgpokfdnn-g=h@ex.org{date}confirm subscribe\n\nTo add g@h to digest of list@ex.org, write to\nlist-digest-sc.1000000200.cmfokaghanjdgpokfdnn-g=h@ex.org\n,3:g@h, | gets ids 1:2\n | same
# Requests to leave.
run mail g@h list-allow-unsubscribe@ex.org r 1000 => 0 31 0 | same
run mail m@o list-deny-unsubscribe@ex.org '' 1000 => 0 31 0 | same
# Somebody who is no member.
run mail g@h list-unsubscribe@ex.org P 1000 => 0 7 0 | gets queue/1 {mail}199:{head}g@h{date}not subscribed\n\ng@h is not in list of list@ex.org.\n,3:g@h, | gets ids 1:2\n | same
run mail m@o list-unsubscribe-C=D@ex.org Pr 1000 => 0 7 0 | gets queue/1 {mail}199:{head}m@o{date}not subscribed\n\nC@d is not in list of list@ex.org.\n,3:m@o, | gets ids 1:2\n | same
run mail m@o list-allow-unsubscribe-a=b@ex.org Pr 1000 => 0 7 0 | gets queue/1 {mail}200:{head}m@o{date}not subscribed\n\na@b is not in allow of list@ex.org.\n,3:m@o, | gets ids 1:2\n | same
run mail a@b list-digest-unsubscribe@ex.org jP 1000 => 0 7 0 | gets queue/1 {mail}201:{head}a@b{date}not subscribed\n\na@b is not in digest of list@ex.org.\n,3:a@b, | gets ids 1:2\n | same
# A moderator with the right, and without it.
run mail m@o list-unsubscribe-a=b@ex.org jPr 1000 => 0 8 0 | gets queue/1 {mail}330:{head}m@o\nReply-To: list-uc.1000000200.jgphlibgpcgbahbolpci-A=b@ex.org{date}confirm unsubscribe\n\nTo remove A@b from list of list@ex.org, write to\nlist-uc.1000000200.jgphlibgpcgbahbolpci-A=b@ex.org\n,3:m@o, | gets ids 1:2\n | same
run mail m@o list-unsubscribe-a=b@ex.org jP 1000 => 0 8 0 | gets queue/1 {asked-a-b} | gets ids 1:2\n | same
# Leaving without having to confirm it, also after bounces.
run mail a@b list-unsubscribe@ex.org jP 1000 => 0 6 0 | gets queue/1 {goodbye} | gets ids 1:2\n | loses subscribers/] | gets counts/list 0\n | same
put bounce/] 28:3:a@b,10:1000000000,1:n,1:1,, | run mail a@b list-unsubscribe-A=B@ex.org jP 1000 => 0 6 0 | gets queue/1 {goodbye} | gets ids 1:2\n | loses subscribers/] | gets counts/list 0\n | loses bounce/] | same
run mail a@b list-unsubscribe@ex.org P 1000 => 0 8 0 | gets queue/1 {asked-a-b} | gets ids 1:2\n | same
run mail g@h list-unsubscribe-a=b@ex.org jP 1000 => 0 8 0 | gets queue/1 {asked-a-b} | gets ids 1:2\n | same
# A request that reads a damaged file names it, and one that doesn't read it is answered.
put subscribers/N ? | run mail g@h list-subscribe@ex.org '' 1000 => 0 damaged 3 14 | same
put mod/subscribers/d ? | run mail g@h list-subscribe@ex.org '' 1000 => 0 8 0 | gets queue/1 {asked-g-h} | gets ids 1:2\n | same
put mod/subscribers/d ? | run mail m@o list-subscribe@ex.org r 1000 => 0 damaged 7 36 | same
put key ? | run mail g@h list-subscribe@ex.org '' 1000 => 0 damaged 2 0 | same
put key ? | run mail g@h list-subscribe@ex.org h 1000 => 0 4 0 | gets queue/1 {welcome} | gets ids 1:2\n | gets subscribers/N layout 2\nTg@h\01000000200\0 | gets counts/list 2\n | same
put ids ? | run mail g@h list-subscribe@ex.org '' 1000 => 0 damaged 18 0 | same
put counts/list ? | run mail g@h list-subscribe@ex.org h 1000 => 0 damaged 8 0 | same
put bounce/] ? | run mail a@b list-unsubscribe@ex.org j 1000 => 0 damaged 15 29 | same
# Each read fails.
turns 1 3 | fail | run mail g@h list-subscribe@ex.org '' 1000 => 0 a read failed | same
fail 4 | run mail g@h list-subscribe@ex.org '' 1000 => 0 8 0
";
