// Subjects and their keys, and texts in HTML, written by hand.
pub(crate) const TABLE: &str = r"
# Keys of subjects, the same again.
input hello | run key '' => 0 hello
input Re: [list] Hello | run key [list] => 0 hello
input Re: Re[2]: FWD: [list] x | run key [list] => 0 x
input [List] [list]re:x | run key [LIST] => 0 x
input [list] x | run key '' => 0 [list] x
input Re: Fw: Fwd: Aw: [list]\x20 | run key [list] => 0
run key [list] => 0
input re:re: | run key '' => 0
input Re : x | run key '' => 0 re : x
input Re[]: x | run key '' => 0 re[]: x
input Re[2] x | run key '' => 0 re[2] x
input Re[2]x: x | run key '' => 0 re[2]x: x
input Re[10]:x | run key '' => 0 x
input Re[ | run key '' => 0 re[
input \x20\x09\x0D\nhello \x09 world\n\x20 | run key '' => 0 hello world
input hello Re: world | run key '' => 0 hello re: world
input a [list] b | run key [list] => 0 a [list] b
input A  b c | run key a\x20\x20b => 0 a b c
input A  b c | run key a\x20b => 0 c
input RE: FW:FWD:  AW:\x09x  y | run key '' => 0 x y
input reply | run key '' => 0 reply
input re: re: x | run key re: => 0 x
input \x80\xFF A | run key '' => 0 \x80\xFF a
input xxxy | run key x => 0 y
# The first subject, unfolded and cut.
input subject: \n\nbody\n | run subject => 0
input subject: {1..999:x}\n\nbody\n | run subject => 0 {1..999:x}
input subject: {1..1000:x}\n\nbody\n | run subject => 0 {1..1000:x}
input subject: {1..1001:x}\n\nbody\n | run subject => 0 {1..1000:x}
input subject: {1..1500:x}\n\nbody\n | run subject => 0 {1..1000:x}
input From: a@b\n\nSubject: x\n | run subject => 0
input SUBJECT: a\n  b\nSubject: c\n\n | run subject => 0 a  b
# Texts in HTML.
run escape => 0
input hello | run escape => 0 hello
input a<b & \x22c\x22 | run escape => 0 a&lt;b &amp; &quot;c&quot;
input &amp; | run escape => 0 &amp;amp;
input &&<>\x22' | run escape => 0 &amp;&amp;&lt;&gt;&quot;'
input <script>alert(1)</script> | run escape => 0 &lt;script&gt;alert(1)&lt;/script&gt;
input \xC3\xA4\x09\x0D\n\0\xFF | run escape => 0 \xC3\xA4\x09\x0D\n\0\xFF
input a&lt | run escape => 0 a&amp;lt
";
