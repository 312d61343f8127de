// Rules for mail in their order: help, mail to the owner, and lists of a set's members.
pub(crate) const TABLE: &str = r"
let m From: g@h\n\nhi\n
let looped MAILING-list: x\n\n
# What the entry of each mail begins with.
let mail 12:list-return-,6:ex.org,1:p,
let date \nDate: Sun, 09 Sep 2001 01:46:40 -0000\nSubject:\x20
# An address that confirms something.
let signed list-sc.1000000000.gejckjgcpngcagofoonm-g=h@ex.org
# What each mail begins with.
let head Mailing-List: contact list-help@ex.org; run by ezmlm\nPrecedence: bulk\nFrom: list-help@ex.org\nTo:\x20
# The help text in a mail to `g@h`.
let helped {mail}341:{head}g@h{date}help\n\nMail to one of these addresses:\nlist-subscribe@ex.org\nlist-unsubscribe@ex.org\nlist-digest-subscribe@ex.org\nlist-get.1_10@ex.org\nlist-index.1@ex.org\nlist-thread.1@ex.org\nlist-owner@ex.org\n,3:g@h,
# Help.
list run new => 0 | input {m}
run mail g@h list-help@ex.org => 0 10 0 | gets queue/1 {helped} | gets ids 1:2\n | same
run mail g@h LIST-Help@EX.org => 0 10 0 | gets queue/1 {helped} | gets ids 1:2\n | same
run mail g@h list-get.007@ex.org => 0 10 0 | gets queue/1 {helped} | gets ids 1:2\n | same
run mail g@h list-get.0@ex.org => 0 10 0 | gets queue/1 {helped} | gets ids 1:2\n | same
run mail g@h list-@ex.org => 0 10 0 | gets queue/1 {helped} | gets ids 1:2\n | same
run mail g@h list-nothing@ex.org => 0 10 0 | gets queue/1 {helped} | gets ids 1:2\n | same
run mail g@h list-index.100000000@ex.org => 0 10 0 | gets queue/1 {helped} | gets ids 1:2\n | same
run mail g@h list-mod-subscribe@ex.org => 0 10 0 | gets queue/1 {helped} | gets ids 1:2\n | same
# Nobody and lists are told nothing.
list run new => 0 | input {looped}
input \nhi\n | run mail '' list-help@ex.org => 0 22 0 | same
input \nhi\n | run mail #@[] list-get.1@ex.org => 0 22 0 | same
run mail gh list-list@ex.org => 0 22 0 | same
input \nhi\n | run mail '' list-subscribe@ex.org => 0 22 0 | same
input \nhi\n | run mail #@[] list-unsubscribe@ex.org => 0 22 0 | same
input \nhi\n | run mail gh {signed} => 0 22 0 | same
run mail '' list-index.1@ex.org => 0 22 0 | same
input \nhi\n | run mail g@ list-thread.1@ex.org => 0 22 0 | same
input \nhi\n | run mail @h list-nothing@ex.org => 0 22 0 | same
run mail g@h list-help@ex.org => 0 23 0 | same
run mail g@h list-get.1@ex.org => 0 23 0 | same
run mail g@h list-unsubscribe@ex.org => 0 23 0 | same
run mail g@h {signed} => 0 23 0 | same
run mail g@h list-list@ex.org => 0 23 0 | same
run mail g@h list-index.1@ex.org => 0 23 0 | same
run mail g@h list-thread.1@ex.org => 0 23 0 | same
run mail g@h list-nothing@ex.org => 0 23 0 | same
run mail '' list-return-@ex.org => 0 14 0 | same
input \n | run mail g@h list-digest-return-@ex.org => 0 14 0 | same
# The owner gets what anybody sends, as it is.
list run new => 0 | input {m}
run mail g@h list-OWNER@ex.org bP => 0 11 0 | gets queue/1 {mail}14:{m},9:o@own.org, | gets ids 1:2\n | same
input {looped} | run mail '' list-OWNER@ex.org bP => 0 11 0 | gets queue/1 {mail}17:{looped},9:o@own.org, | gets ids 1:2\n | same
input | run mail x list-OWNER@ex.org bP => 0 11 0 | gets queue/1 {mail}0:,9:o@own.org, | gets ids 1:2\n | same
# Moderators are told who is in a set, if the list says so.
list run new => 0 | put mod/subscribers/N Tg@h\0 | input {m}
run mail g@h list-list@ex.org l => 0 12 0 | gets queue/1 {mail}165:{head}g@h{date}members of list\n\n,3:g@h, | gets ids 1:2\n | same
put subscribers/] Ta@b\0 | put subscribers/L layout 2\nTC@d\01000000000\0 | put subscribers/W Te@f\0 | run mail g@h list-list@ex.org l => 0 12 0 | gets queue/1 {mail}177:{head}g@h{date}members of list\n\na@b\nC@d\ne@f\n,3:g@h, | gets ids 1:2\n | same
put subscribers/] Ta@b\0 | put subscribers/L layout 2\nTC@d\01000000000\0 | put subscribers/W Te@f\0 | run mail g@h list-digest-LIST@ex.org l => 0 12 0 | gets queue/1 {mail}167:{head}g@h{date}members of digest\n\n,3:g@h, | gets ids 1:2\n | same
put subscribers/] Ta@b\0 | put subscribers/L layout 2\nTC@d\01000000000\0 | put subscribers/W Te@f\0 | run mail g@h list-list@ex.org => 0 31 0 | same
list run new => 0 | input {m}
put subscribers/] Ta@b\0 | put subscribers/L layout 2\nTC@d\01000000000\0 | put subscribers/W Te@f\0 | run mail g@h list-list@ex.org l => 0 31 0 | same
# Ten thousand are told in order.
list run new => 0 | put mod/subscribers/N Tg@h\0 | input {m}
members 10000 | run mail g@h list-list@ex.org l => 0 12 0 | gets queue/1 {mail}80165:{head}g@h{date}members of list\n\n{0..9:u000%@h\n}{10..99:u00%@h\n}{100..999:u0%@h\n}{1000..9999:u%@h\n},3:g@h, | gets ids 1:2\n | same
";
