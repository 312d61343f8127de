// The rows: calls, and what each of them answers, written by hand.
use crate::program::Divisions;
use ml_split::{law_rules, law_split};
use ml_split_questions::law_moves;
use std::test::Fail;
use trials_scripts::hold;

// Rules in every form that is accepted or refused, and the first rule that takes an address.
const RULES: &str = r"
# How many rules a text spells, or the place of the first line that is no rule.
run rules => 0 0
input b:0:52:one\n | run rules => 0 1
input b:0:52:one\n:0:20:two\n | run rules => 0 2
input b:0:53:one\n | run rules => 0 bad 0
input b:0:52:one | run rules => 0 bad 0
input b:0:52:one\n\n | run rules => 0 bad 11
input b:0:52:one\nb:0:53:one\nb:1:0:one\n | run rules => 0 bad 11
input b:0:52:one\nb | run rules => 0 bad 11
input b:0:52:one\n:0:0:x\nx\n | run rules => 0 bad 18
input \n | run rules => 0 bad 0
input b\n | run rules => 0 bad 0
input b:0\n | run rules => 0 bad 0
input b:0:52\n | run rules => 0 bad 0
input b:0:52:\n | run rules => 0 bad 0
input b:0:52:one:\n | run rules => 0 bad 0
input b:0:52:one:two\n | run rules => 0 bad 0
input b:10:5:x\n | run rules => 0 bad 0
input b:5:5:x\n | run rules => 0 1
input b:00:5:x\n | run rules => 0 bad 0
input b:0:05:x\n | run rules => 0 bad 0
input b::5:x\n | run rules => 0 bad 0
input b:0::x\n | run rules => 0 bad 0
input b: 0:5:x\n | run rules => 0 bad 0
input b:+0:5:x\n | run rules => 0 bad 0
input b:52:52:x\n | run rules => 0 1
input b:0:99999999999999999999:x\n | run rules => 0 bad 0
input b:0:52:-\n | run rules => 0 bad 0
input b:0:52:--\n | run rules => 0 1
input b:0:52:a/b\n | run rules => 0 bad 0
input b:0:52:a b\n | run rules => 0 bad 0
input b:0:52:A-z_0.9\n | run rules => 0 1
input b:0:52:one\x0D\n | run rules => 0 bad 0
input a@b:0:52:one\n | run rules => 0 bad 0
input B.Ex-1_2.org:0:52:one\n | run rules => 0 1
input .b:0:52:one\n | run rules => 0 1
input b\xC3\xA9:0:52:one\n | run rules => 0 bad 0
input #:0:52:one\n | run rules => 0 bad 0
input b:0\n:52:one\n | run rules => 0 bad 0
input b:0:52:123456789012345678901234567890123456789012345678901234567890\n | run rules => 0 1
input b:0:52:1234567890123456789012345678901234567890123456789012345678901\n | run rules => 0 bad 0
input :0:52:x\n:0:52:x\n | run rules => 0 2
# The first rule that takes an address.
list input b:0:52:one\n:0:20:two\nb:0:52:one\n
run assign a@b => 0 0
run assign c@d => 0 1
run assign e@f => 0 none
# No rules.
input  | run assign a@b => 0 none
";

// Whole divisions, what joining their parts gives, and the acts and streams that move them.
const PARTS: &str = r"
# The buckets of `a@b`, `c@d` and `e@f` are 29, 12 and 23.
input b:0:52:one\n:0:20:two\n | run split a@b,c@d,e@f => 0 one 1\na@b\ntwo 1\nc@d\n- 1\ne@f\n=a@b c@d e@f\x20
run split a@b,c@d,e@f => 0 - 3\na@b\nc@d\ne@f\n=a@b c@d e@f\x20
run split '' => 0 - 0\n=
input :0:52:all\n | run split a@b,c@d,e@f => 0 all 3\na@b\nc@d\ne@f\n- 0\n=a@b c@d e@f\x20
input :12:29:x\n | run split a@b,c@d,e@f => 0 x 3\na@b\nc@d\ne@f\n- 0\n=a@b c@d e@f\x20
input :13:28:x\n | run split a@b,c@d,e@f => 0 x 1\ne@f\n- 2\na@b\nc@d\n=a@b c@d e@f\x20
input :0:22:x\n:24:52:y\n | run split a@b,c@d,e@f => 0 x 1\nc@d\ny 1\na@b\n- 1\ne@f\n=a@b c@d e@f\x20
input b:0:52:x\nd:0:52:y\nf:0:52:x\n | run split a@b,c@d,e@f => 0 x 2\na@b\ne@f\ny 1\nc@d\n- 0\n=a@b c@d e@f\x20
input z:0:52:none\nd:0:52:y\n | run split a@b,c@d,e@f => 0 none 0\ny 1\nc@d\n- 2\na@b\ne@f\n=a@b c@d e@f\x20
input :0:52:x\n:0:52:y\n | run split a@b,c@d,e@f => 0 x 3\na@b\nc@d\ne@f\ny 0\n- 0\n=a@b c@d e@f\x20
input :0:52:x\n:0:52:X\n | run split A@b => 0 x 1\nA@b\nX 0\n- 0\n=A@b\x20
input EX.org:0:52:x\n | run split a@ex.org,b@lists.ex.org,c@notex.org,d@ex.org.net,e@org => 0 x 2\na@ex.org\nb@lists.ex.org\n- 3\nc@notex.org\nd@ex.org.net\ne@org\n=a@ex.org b@lists.ex.org c@notex.org d@ex.org.net e@org\x20
input org:0:52:x\n | run split a@ex.org,b@lists.ex.org,c@notex.org,d@ex.org.net,e@org => 0 x 4\na@ex.org\nb@lists.ex.org\nc@notex.org\ne@org\n- 1\nd@ex.org.net\n=a@ex.org b@lists.ex.org c@notex.org d@ex.org.net e@org\x20
input .ex.org:0:52:x\nlists.ex.org.:0:52:y\n | run split a@ex.org,b@lists.ex.org,c@notex.org,d@ex.org.net,e@org => 0 x 0\ny 0\n- 5\na@ex.org\nb@lists.ex.org\nc@notex.org\nd@ex.org.net\ne@org\n=a@ex.org b@lists.ex.org c@notex.org d@ex.org.net e@org\x20
input :29:29:x\n | run split A@b => 0 x 1\nA@b\n- 0\n=A@b\x20
# Parts that no rules made: equal keys stand in the order of the parts.
run join c@d,A@b b@b,a@b => 0 A@b a@b b@b c@d\x20
# How many acts move a part, and their stream.
list input b:0:52:one\n:0:20:two\n
run move two list out a@b,c@d,e@f => 0 1 R3:500,10:1000000600,4:list,3:c@d,
run move one mod in a@b,c@d,e@f => 0 1 A3:500,10:1000000600,3:mod,3:a@b,
run move - digest in a@b,c@d,e@f => 0 1 A3:500,10:1000000600,6:digest,3:e@f,
run move none list in a@b,c@d,e@f => 0 -
run move One list in a@b,c@d,e@f => 0 -
run move '' list in a@b,c@d,e@f => 0 -
input :0:28:x\n | run move x deny in a@b,c@d,e@f => 0 2 A3:500,10:1000000600,4:deny,3:c@d,A3:501,10:1000000600,4:deny,3:e@f,
# One act for every member.
input :0:52:x\n | run move x allow in a@b,c@d,e@f => 0 3 A3:500,10:1000000600,5:allow,3:a@b,A3:501,10:1000000600,5:allow,3:c@d,A3:502,10:1000000600,5:allow,3:e@f,
";

// The set list, divided over its files.
const FILES: &str = r"
list put subscribers/] Ta@b\0 | put subscribers/L Tc@d\0 | put subscribers/W Te@f\0 | input b:0:52:one\n:0:20:two\nz:0:52:none\n
run division => 0 one 1\na@b\ntwo 1\nc@d\nnone 0\n- 1\ne@f\n
# A bucket has an address of another one.
put subscribers/^ Ta@b\0 | run division => 0 damaged 3 30
# All 53 buckets are read.
fail 53 | run division => 0 a read failed
# A part is moved.
run moving two out => 0 R3:500,10:1000000600,4:list,3:c@d,
run moving - in => 0 A3:500,10:1000000600,4:list,3:e@f,
run moving none in => 0
run moving three in => 0 -
";

#[test]
fn rows_are_answered(rt: HostRuntime) -> Result<(), Fail> {
    let alloc = rt.alloc();
    hold::<Divisions>(alloc, "rules", RULES)?;
    hold::<Divisions>(alloc, "parts", PARTS)?;
    hold::<Divisions>(alloc, "files", FILES)
}

#[test]
fn the_laws_can_be_called() {
    law_rules();
    law_split();
    law_moves();
}
