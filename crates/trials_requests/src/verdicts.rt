// Verdicts on posts.
pub(crate) const TABLE: &str = r#"
# A message of 45 bytes.
let m From: a@b\nTo: list@ex.org\nSubject: hello\n\nhi\n
let looped Mailing-List: x\nTo: list@ex.org\nSubject: unsubscribe\n\n
# Each row of the rules alone, and what is next to it.
list run new => 0 | input {m}
put subscribers/] Ta@b\0 | run verdict a@b '' 1000 => 0 Posted | same
put subscribers/] Ta@b\0 | run verdict a@b '' 45 => 0 Posted | same
put subscribers/] Ta@b\0 | run verdict a@b '' 44 => 0 TooBig | same
list run new => 0 | put subscribers/] Ta@b\0 | input {m}
run verdict '' '' 1000 => 0 BounceSender | same
run verdict #@[] '' 1000 => 0 BounceSender | same
run verdict ab '' 1000 => 0 BounceSender | same
input mailing-LIST: x\nTo: list@ex.org\nSubject: hello\n\n | run verdict a@b '' 1000 => 0 Looped | same
list run new => 0 | input {m}
put deny/subscribers/] Ta@b\0 | run verdict a@b k 1000 => 0 Denied | same
put deny/subscribers/] Ta@b\0 | run verdict A@B k 1000 => 0 Denied | same
put deny/subscribers/] Ta@b\0 | run verdict a@b '' 1000 => 0 Posted | same
put subscribers/] Ta@b\0 | run verdict a@b k 1000 => 0 Posted | same
put subscribers/] Ta@b\0 | input To: list@ex.org\n\nhi\n | run verdict a@b '' 1000 => 0 NoSubject | same
put subscribers/] Ta@b\0 | input Subject: \x09\nTo: list@ex.org\n\n | run verdict a@b '' 1000 => 0 NoSubject | same
put subscribers/] Ta@b\0 | run verdict c@d u 1000 => 0 UsersOnly | same
put subscribers/] Ta@b\0 | run verdict c@d '' 1000 => 0 Posted | same
put subscribers/] Ta@b\0 | run verdict A@b u 1000 => 0 Posted | same
put digest/subscribers/] Ta@b\0 | run verdict a@b u 1000 => 0 Posted | same
put allow/subscribers/] Ta@b\0 | run verdict a@b u 1000 => 0 Posted | same
put mod/subscribers/] Ta@b\0 | run verdict a@b u 1000 => 0 Posted | same
put deny/subscribers/] Ta@b\0 | run verdict a@b u 1000 => 0 UsersOnly | same
put subscribers/] Ta@b\0 | run verdict a@b m 1000 => 0 Held | same
put num 99999999\n | run verdict a@b '' 1000 => 0 Full | same
# Two rows of the rules hold: the first one counts.
put subscribers/] Ta@b\0 | run verdict '' '' 44 => 0 TooBig | same
put subscribers/] Ta@b\0 | input {looped} | run verdict '' '' 1000 => 0 BounceSender | same
put deny/subscribers/] Ta@b\0 | input {looped} | run verdict a@b k 1000 => 0 Looped | same
put deny/subscribers/] Ta@b\0 | input To: list@ex.org\n\n | run verdict a@b k 1000 => 0 Denied | same
put subscribers/] Ta@b\0 | input To: x@y\n\n | run verdict a@b '' 1000 => 0 NoSubject | same
put subscribers/] Ta@b\0 | input To: x@y\nSubject: help\n\n | run verdict a@b '' 1000 => 0 CommandSubject | same
put subscribers/] Ta@b\0 | input To: x@y\nSubject: hello\n\n | run verdict c@d u 1000 => 0 NotAddressed | same
put subscribers/] Ta@b\0 | run verdict c@d um 1000 => 0 UsersOnly | same
put num 99999999\n | run verdict a@b m 1000 => 0 Held | same
# Subjects, and whether they are commands.
list run new => 0 | put subscribers/] Ta@b\0 | input {m}
input To: list@ex.org\nSubject: subscribe\n\n | run verdict a@b '' 1000 => 0 CommandSubject | same
input To: list@ex.org\nSubject: UnSubscribe\n\n | run verdict a@b '' 1000 => 0 CommandSubject | same
input To: list@ex.org\nSubject:\n help \n\n | run verdict a@b '' 1000 => 0 CommandSubject | same
input To: list@ex.org\nSubject: remove\n\n | run verdict a@b '' 1000 => 0 CommandSubject | same
input To: list@ex.org\nSubject: signoff\n\n | run verdict a@b '' 1000 => 0 CommandSubject | same
input To: list@ex.org\nSubject: subscribe me\n\n | run verdict a@b '' 1000 => 0 Posted | same
input To: list@ex.org\nSubject: re: help\n\n | run verdict a@b '' 1000 => 0 Posted | same
input To: list@ex.org\nSubject: x\nSubject: help\n\n | run verdict a@b '' 1000 => 0 Posted | same
# Fields that name recipients, and whether they name the list.
input Subject: x\nTo: list@ex.org | run verdict a@b '' 1000 => 0 Posted | same
input Subject: x\ntO: <LIST@Ex.Org>\n\n | run verdict a@b '' 1000 => 0 Posted | same
input Subject: x\nTo: a@b, list@ex.org, c@d\n\n | run verdict a@b '' 1000 => 0 Posted | same
input Subject: x\nTo: a@b,\n\x09list@ex.org\n\n | run verdict a@b '' 1000 => 0 Posted | same
input Subject: x\nTo: a@b\nCc: c@d\ncc: "L" <list@ex.org>\n\n | run verdict a@b '' 1000 => 0 Posted | same
input Subject: x\nTo: mylist@ex.org list@ex.org\n\n | run verdict a@b '' 1000 => 0 Posted | same
input Subject: x\n\nTo: list@ex.org\n | run verdict a@b '' 1000 => 0 NotAddressed | same
input Subject: x\nBcc: list@ex.org\n\n | run verdict a@b '' 1000 => 0 NotAddressed | same
input Subject: x\nTo: mylist@ex.org\n\n | run verdict a@b '' 1000 => 0 NotAddressed | same
input Subject: x\nTo: my+list@ex.org\n\n | run verdict a@b '' 1000 => 0 NotAddressed | same
input Subject: x\nTo: a=list@ex.org\n\n | run verdict a@b '' 1000 => 0 NotAddressed | same
input Subject: x\nTo: list@ex.orgs\n\n | run verdict a@b '' 1000 => 0 NotAddressed | same
input Subject: x\nTo: list@ex.org.uk\n\n | run verdict a@b '' 1000 => 0 NotAddressed | same
input Subject: x\nTo: list@ex.org_\n\n | run verdict a@b '' 1000 => 0 Posted | same
# A damaged file is named if it is read.
list run new => 0 | input {m}
put deny/subscribers/] Ta@b | run verdict a@b k 1000 => 0 damaged 6 29 | same
put allow/subscribers/] Ta@b | run verdict a@b u 1000 => 0 damaged 5 29 | same
put num 07\n | run verdict a@b '' 1000 => 0 damaged 11 0 | same
put deny/subscribers/] Ta@b | run verdict a@b '' 1000 => 0 Posted | same
put num 07\n | run verdict a@b m 1000 => 0 Held | same
# A verdict that reads six files.
turns 1 6 | put mod/subscribers/] Ta@b\0 | fail | run verdict a@b ku 1000 => 0 a read failed | same
put mod/subscribers/] Ta@b\0 | fail 7 | run verdict a@b ku 1000 => 0 Posted
"#;
