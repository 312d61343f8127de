// Bounces: an address from its first bounce to the end, bounces that change nothing, and bounces of the digest. The letters of the cookies
// are made with the key of the bytes 0 to 31.
pub(crate) const TABLE: &str = r"
let m Mailing-List: x\n\n
let noted 28:3:a@b,10:1000010000,1:n,1:1,,
let warned 28:3:a@b,1:0,11:w1001010000,0:,,
let failed 28:3:a@b,1:0,11:f1001020000,0:,,
let probed 28:3:a@b,1:0,11:p1002020000,0:,,
# A member whose probe bounces leaves.
list run new => 0 | put subscribers/] Ta@b\0 | put counts/list 1\n | put num 1\n | at 1000010000 | input {m}
run mail '' list-return-1-a=b@ex.org => 0 13 0 | gets bounce/] {noted} | same
then at 1000010001 | input {m} | run mail '' list-return-1-a=b@ex.org => 0 14 0 | same
then at 1001009999 | run due => 0 nothing | same
then at 1001010000 | run due => 0 done | gets bounce/] {warned} | same
then at 1001015000 | input {m} | run mail '' list-return-probe-1002020000.jflpmhknppbmgpelkpgm-a=b@ex.org => 0 14 0 | same
then at 1001020000 | input {m} | run mail '' list-return-warn-1001010000.pnmnlkjjdpfdgdkbdlph-a=b@ex.org => 0 13 0 | gets bounce/] {failed} | same
then at 1001020001 | input {m} | run mail '' list-return-warn-1001010000.pnmnlkjjdpfdgdkbdlph-a=b@ex.org => 0 14 0 | same
then at 1002019999 | run due => 0 nothing | same
then at 1002020000 | run due => 0 done | gets bounce/] {probed} | same
then at 1002020500 | input {m} | run mail '' list-return-probe-1002020000.jflpmhknppbmgpelkpgm-a=b@ex.org => 0 15 0 | loses subscribers/] | gets counts/list 0\n | loses bounce/] | same
then at 1002020501 | input {m} | run mail '' list-return-probe-1002020000.jflpmhknppbmgpelkpgm-a=b@ex.org => 0 14 0 | same
# A bounce is noted whoever sends it: nobody, one that is no address, a stranger and the member himself.
run mail '' list-return-1-a=b@ex.org => 0 13 0 | gets bounce/] {noted} | same
run mail #@[] list-return-1-a=b@ex.org => 0 13 0 | gets bounce/] {noted} | same
run mail g@h list-return-1-a=b@ex.org => 0 13 0 | gets bounce/] {noted} | same
run mail a@b list-return-1-a=b@ex.org => 0 13 0 | gets bounce/] {noted} | same
# A probe whose stage has lapsed: its cookie is good, and nobody leaves.
put bounce/] {probed} | at 1003020000 | run due => 0 done | loses bounce/] | same
then input {m} | run mail '' list-return-probe-1002020000.jflpmhknppbmgpelkpgm-a=b@ex.org => 0 14 0 | same
# Bounces that change nothing, of the list with `a@b`, who was probed, and 7 posts.
list run new => 0 | put subscribers/] Ta@b\0 | put counts/list 1\n | put num 7\n | put bounce/] {probed} | put dig 0:0\n | at 1002020500 | input {m}
run mail '' list-return-8-a=b@ex.org => 0 14 0 | same
run mail '' list-return-99999999-a=b@ex.org => 0 14 0 | same
run mail '' list-return-7-c=d@ex.org => 0 14 0 | same
run mail '' list-digest-return-1-a=b@ex.org => 0 14 0 | same
run mail '' list-return-warn-1001010000.pnmnlkjjdpfdgdkbdlph-a=b@ex.org => 0 14 0 | same
run mail '' list-return-probe-1002020000.jflpmhknppbmgpelkpgn-a=b@ex.org => 0 14 0 | same
run mail '' list-return-probe-1002020001.jflpmhknppbmgpelkpgm-a=b@ex.org => 0 14 0 | same
run mail '' list-return-probe-1002020000.jflpmhknppbmgpelkpgm-c=d@ex.org => 0 14 0 | same
run mail '' list-digest-return-probe-1002020000.icnhfndpgjhaehjofjgf-a=b@ex.org => 0 14 0 | same
run mail '' list-return-warn-1002020000.jflpmhknppbmgpelkpgm-a=b@ex.org => 0 14 0 | same
run mail '' list-return-@ex.org => 0 14 0 | same
run mail '' list-digest-return-@ex.org => 0 14 0 | same
# The numbers of the digest are issues; two were sent.
list run new => 0 | put digest/subscribers/] Ta@b\0 | put counts/digest 1\n | put dig 40:2\n | put num 50\n | at 1000010000 | input {m}
run mail '' list-digest-return-1-a=b@ex.org => 0 13 0 | gets digest/bounce/] {noted} | same
run mail '' list-digest-return-2-A=B@ex.org => 0 13 0 | gets digest/bounce/] 28:3:a@b,10:1000010000,1:n,1:2,, | same
run mail '' list-digest-return-3-a=b@ex.org => 0 14 0 | same
run mail '' list-return-1-a=b@ex.org => 0 14 0 | same
";
