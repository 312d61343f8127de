// Commands that take in mail, and commands that give mail out.
use crate::program::Whole;
use std::test::Fail;
use trials_scripts::hold;

const TABLE: &str = r"
let message From: a@b\nTo: list@ex.org\nSubject: hello\n\nhi\n
let head Mailing-List: contact list-help@ex.org; run by ezmlm\nPrecedence: bulk\nList-Post: <mailto:list@ex.org>\nList-Help: <mailto:list-help@ex.org>\n
let post {head}List-Unsubscribe: <mailto:list-unsubscribe@ex.org>\nList-Subscribe: <mailto:list-subscribe@ex.org>\nDelivered-To: mailing list list@ex.org\n{message}
let first 32:Flist-return-1-a=b@ex.org\0Ta@b\0\0,
let second 32:Flist-return-1-c=d@ex.org\0Tc@d\0\0,
let third 32:Flist-return-1-e=f@ex.org\0Te@f\0\0,
let posted 0 20 0 posted 1\n
let absent 100 - 100 absent\n
list run make --key 000102030405060708090a0b0c0d0e0f101112131415161718191a1b1c1d1e1f list ex.org o@own.org => 0 made list@ex.org\n
# A post comes in, is read from the queue and reported sent.
run sub 7 list a@b => 0 7 0 subscribed\n
then run sent 8 1 => 100 8 100 noentry\n
then run sub 9 list c@d => 0 9 0 subscribed\n
then run sub 10 list e@f => 0 10 0 subscribed\n
then at 0 | input {message} | run queue => 0 | unread 45
then at 1000000100 | input {message} | run deliver 20 a@b list@ex.org => {posted} | unread 0
# A number is answered once, whatever comes under it.
then at 1000000101 | run deliver 20 a@b list@ex.org => {posted}
then at 0 | run queue => 0 1 3 321\n
then run out 1 => 0 321:{post},{first}{second}{third}
then run out 2 => {absent}
then run out 0 => {absent}
then run show 1 => 0 {post}
then run show 2 => {absent}
then run show 0 => {absent}
then at 1000000102 | run deliver 0 g@h list-help@ex.org => 0 0 0 help\n
then at 1000000103 | input {message} | run sent 21 1 => 0 21 0 dequeued\n | unread 45
then at 1000000104 | run sent 22 1 => 100 22 100 noentry\n
then at 0 | run out 1 => {absent}
then at 1000000105 | run timed 23 => 0 23 0 timed 0\n
# Any bytes are a sender or a recipient.
input {message} | run deliver 1 '' list@ex.org => 100 1 100 nosender\n
then input {message} | run deliver 2 a\nb@c list@ex.org => 100 2 100 nosender\n
then input {message} | run deliver 3 \xC3\xA9@c list@ex.org => 100 3 100 nosender\n
then input {message} | run deliver 4 a@b '' => 100 4 100 notours\n
then input {message} | run deliver 5 a@b \xC3\xA9\n => 100 5 100 notours\n
# An envelope has a limit.
input {message} | run deliver 1 {1..1000:a} list@ex.org => 100 1 100 nosender\n
input {message} | run deliver 1 {1..1001:a} list@ex.org => 65 - 65 words\n
input {message} | run deliver 1 a@b {1..1000:a} => 100 1 100 notours\n
input {message} | run deliver 1 a@b {1..1001:a} => 65 - 65 words\n
# An input that fails. The message comes in one read, and its end in another.
input {message} | read 1 | run deliver 20 a@b list@ex.org => 74 - 74 input\n
input {message} | read 2 | run deliver 20 a@b list@ex.org => 74 - 74 input\n
input {message} | read 3 | run deliver 20 a@b list@ex.org => {posted}
# A message has a limit.
input {1..33554433:\0} | run deliver 20 a@b list@ex.org => 65 - 65 long\n | same
";

#[test]
fn mail_comes_in_and_goes_out(rt: HostRuntime) -> Result<(), Fail> {
    hold::<Whole>(rt.alloc(), "mail", TABLE)
}
