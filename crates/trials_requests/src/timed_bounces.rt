// Timed runs that follow up bounces.
pub(crate) const TABLE: &str = r"
# The ledger.
let noted 28:3:a@b,10:1000010000,1:n,1:1,,
let warned 28:3:a@b,1:0,11:w1001010000,0:,,
let failed 28:3:a@b,1:0,11:f1001020000,0:,,
let probed 28:3:a@b,1:0,11:p1002020000,0:,,
# The warning of 1,001,010,000 and the probe of 1,002,020,000, with cookies of the key of the bytes 0 to 31.
let warning 49:list-return-warn-1001010000.pnmnlkjjdpfdgdkbdlph-,6:ex.org,1:v,228:Mailing-List: contact list-help@ex.org; run by ezmlm\nPrecedence: bulk\nFrom: list-help@ex.org\nTo: a@b\nDate: Thu, 20 Sep 2001 18:20:00 -0000\nSubject: bounce warning\n\nMail to a@b from list of list@ex.org bounced. Missed numbers:\n1\n,3:a@b,
let probe 50:list-return-probe-1002020000.jflpmhknppbmgpelkpgm-,6:ex.org,1:v,255:Mailing-List: contact list-help@ex.org; run by ezmlm\nPrecedence: bulk\nFrom: list-help@ex.org\nTo: a@b\nDate: Tue, 02 Oct 2001 10:53:20 -0000\nSubject: bounce probe\n\nA warning to a@b bounced. If this mail bounces too, a@b is removed from list of list@ex.org.\n,3:a@b,
# A warning, a probe and their ends.
list run new => 0 | put dig 0:0\n | put subscribers/] Ta@b\0
put bounce/] {noted} | at 1001009999 | run timed => 0 3 0 | same
put bounce/] {noted} | at 1001010000 | run timed => 0 3 1 | gets bounce/] {warned} | gets queue/1 {warning} | gets ids 1:2\n | same
put bounce/] {warned} | at 1002009999 | run timed => 0 3 0 | same
put bounce/] {warned} | at 1002010000 | run timed => 0 3 0 | loses bounce/] | same
put bounce/] {failed} | at 1002019999 | run timed => 0 3 0 | same
put bounce/] {failed} | at 1002020000 | run timed => 0 3 1 | gets bounce/] {probed} | gets queue/1 {probe} | gets ids 1:2\n | same
put bounce/] {probed} | at 1003019999 | run timed => 0 3 0 | same
put bounce/] {probed} | at 1003020000 | run timed => 0 3 0 | loses bounce/] | same
# Another address is the only member of the bucket.
put subscribers/] Tet@b\0 | put bounce/] {noted} | at 1001010000 | run timed => 0 3 0 | loses bounce/] | same
put subscribers/] Tet@b\0 | put bounce/] {failed} | at 1002020000 | run timed => 0 3 0 | loses bounce/] | same
# A thousand entries are followed up at once: each of 1,002 members had post 1 bounce at 1,000,010,000.
list run new => 0 | put dig 0:0\n | run bounced => 0
at 1001010000 | run timed => 0 3 1000 | has ids 1:1001\n | run timed => 0 3 2 | has ids 1:1003\n | run timed => 0 3 0 | same
";
