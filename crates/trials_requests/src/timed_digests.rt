// Timed runs that make issues of the digest.
pub(crate) const TABLE: &str = r"
# A post of 321 bytes.
let post Mailing-List: contact list-help@ex.org; run by ezmlm\nPrecedence: bulk\nList-Post: <mailto:list@ex.org>\nList-Help: <mailto:list-help@ex.org>\nList-Unsubscribe: <mailto:list-unsubscribe@ex.org>\nList-Subscribe: <mailto:list-subscribe@ex.org>\nDelivered-To: mailing list list@ex.org\nFrom: a@b\nTo: list@ex.org\nSubject: hello\n\nhi\n
let front Mailing-List: contact list-help@ex.org; run by ezmlm\nPrecedence: bulk\nFrom: list-help@ex.org\nTo: list@ex.org\nDate: Sun, 09 Sep 2001 01:50:00 -0000\nSubject: list Digest Issue 1\n\nlist Digest Issue 1, posts 1 to 100\n\nTopics:\n
let rule \n----------------------------------------------------------------------\n\n
let message From: a@b\nTo: list@ex.org\nSubject: hello\n\nhi\n\n------------------------------\n\n
let end End of list Digest Issue 1\n**************************\n
let second 21:list-digest-return-2-,6:ex.org,1:v,440:Mailing-List: contact list-help@ex.org; run by ezmlm\nPrecedence: bulk\nFrom: list-help@ex.org\nTo: list@ex.org\nDate: Tue, 11 Sep 2001 01:48:21 -0000\nSubject: list Digest Issue 2\n\nlist Digest Issue 2, posts 101 to 101\n\nTopics:\n101: hello\n\n----------------------------------------------------------------------\n\nFrom: a@b\nTo: list@ex.org\nSubject: hello\n\nhi\n\n------------------------------\n\nEnd of list Digest Issue 2\n**************************\n,3:a@b,
# `a@b` in the digest set, and 101 posts, each a second after the one before. A hundred posts are an issue, and a later one waits.
list run new => 0 | put dig 0:0\n | put num 101\n | put digest/subscribers/] Ta@b\0 | each 1 101 archive/0 {post} | put archive/0/index {1000000001..1000000099:10:%,3:a@b,3:321,5:hello,\n} | put archive/1/index {1000000100..1000000101:10:%,3:a@b,3:321,5:hello,\n}
at 1000000200 | run timed d => 0 3 1 | gets dig 100:1\n | gets queue/1 21:list-digest-return-1-,6:ex.org,1:v,9141:{front}{1..100:%: hello\n}{rule}{1..100 message}{end},3:a@b, | gets ids 1:2\n | same | run timed d => 0 3 0 | same | at 1000172900 | run timed d => 0 3 0 | same | at 1000172901 | run timed d => 0 3 1 | gets dig 101:2\n | gets queue/2 {second} | gets ids 1:3\n | same
# A list without digests makes none.
at 1000172901 | run timed => 0 3 0 | same
";
