// Every call of a site, a source and a clock in memory, as it is done and as it fails.
use crate::disk::Disk;
use std::test::Fail;
use trials_scripts::hold;

const TABLE: &str = r"
# The log is written and cut.
put log log | put key key | calls 6 | room 0 | input write_log=new log\nread_log\nwrite_log=old\nread_log\ncut_log\nread_log | run site => 0 done\nnew log\ndone\nold log\ndone\n\n
put log log | put key key | input write_log=new log\nread_log\nwrite_log=old\nread_log\ncut_log\nread_log | run unfailing => 0 done\nnew log\ndone\nold log\ndone\n\n
# Files are written and removed.
put log log | put key key | calls 11 | room 4 | input read=2.0\nread=3.1\nwrite=3.1=a@b\nwrite=2.0=another key\nread=3.1\nread=2.0\nremove=2.0\nread=3.1\nread=2.0\nsync\ngive=done | run site => 0 key\n-\ndone\ndone\na@b\nanother key\ndone\na@b\n-\ndone\ndone\n
put log log | put key key | input read=2.0\nread=3.1\nwrite=3.1=a@b\nwrite=2.0=another key\nread=3.1\nread=2.0\nremove=2.0\nread=3.1\nread=2.0\nsync\ngive=done | run unfailing => 0 key\n-\ndone\ndone\na@b\nanother key\ndone\na@b\n-\ndone\ndone\n
# Named calls fail, and what was there before is still there.
put log log | put key key | calls 12 | room 0 | fail 1 3 5 7 8 9 11 | input read=2.0\nread=2.0\nwrite=2.0=new\nread=2.0\nremove=2.0\nread=2.0\nwrite_log=new\ncut_log\nread_log\nread_log\nsync\nsync | run site => 0 failed\nkey\nfailed\nkey\nfailed\nkey\nfailed\nfailed\nfailed\nlog\nfailed\ndone\n
# A failed give puts nothing out: its number is named, or there is no room for its bytes or for the call.
put log log | put key key | calls 5 | room 4 | fail 2 | input give=ab\ngive=c\ngive=cde\ngive=cd\nsync\ngive=\noutput | run site => 0 done\nfailed\nfailed\ndone\ndone\nfailed\nabcd\n
# No call succeeds after the last one.
put log log | put key key | calls 12 | room 4 | input stop_after=3\ngive=ab\nsync\nsync\nsync\ngive=cd\nstop_after=6\ngive=cd\nsync\noutput | run site => 0 done\ndone\ndone\ndone\nfailed\nfailed\ndone\ndone\nfailed\nabcd\n
# Reading the log fails where its number is named.
put log log | put key key | calls 3 | room 3 | fail 2 | input sync\nread_log\ncrash=2=33\nread_log | run site => 0 done\nfailed\nlog|key|-\nlog\n
# Writing the log fails where its number is named.
put log log | put key key | calls 3 | room 3 | fail 2 | input sync\nwrite_log=new\ncrash=2=33\nwrite_log=new | run site => 0 done\nfailed\n!!!|key|-\ndone\n
# Cutting the log fails where its number is named.
put log log | put key key | calls 3 | room 3 | fail 2 | input sync\ncut_log\ncrash=2=33\ncut_log | run site => 0 done\nfailed\n!!!|key|-\ndone\n
# Reading a file fails where its number is named.
put log log | put key key | calls 3 | room 3 | fail 2 | input sync\nread=2.0\ncrash=2=33\nread=2.0 | run site => 0 done\nfailed\nlog|key|-\nkey\n
# Writing a file fails where its number is named.
put log log | put key key | calls 3 | room 3 | fail 2 | input sync\nwrite=2.0=new\ncrash=2=33\nwrite=2.0=new | run site => 0 done\nfailed\nlog|!!!|-\ndone\n
# Removing a file fails where its number is named.
put log log | put key key | calls 3 | room 3 | fail 2 | input sync\nremove=2.0\ncrash=2=33\nremove=2.0 | run site => 0 done\nfailed\nlog|!!!|-\ndone\n
# A sync fails where its number is named.
put log log | put key key | calls 3 | room 3 | fail 2 | input sync\nsync\ncrash=2=33\nsync | run site => 0 done\nfailed\nlog|key|-\ndone\n
# A give fails where its number is named.
put log log | put key key | calls 3 | room 3 | fail 2 | input sync\ngive=out\ncrash=2=33\ngive=out | run site => 0 done\nfailed\nlog|key|-\ndone\n
# Reading the log fails after the last call.
put log log | put key key | calls 3 | room 3 | input stop_after=1\nsync\nread_log\ncrash=2=33\nstop_after=3\nread_log | run site => 0 done\ndone\nfailed\nlog|key|-\ndone\nlog\n
# Writing the log fails after the last call.
put log log | put key key | calls 3 | room 3 | input stop_after=1\nsync\nwrite_log=new\ncrash=2=33\nstop_after=3\nwrite_log=new | run site => 0 done\ndone\nfailed\n!!!|key|-\ndone\ndone\n
# Cutting the log fails after the last call.
put log log | put key key | calls 3 | room 3 | input stop_after=1\nsync\ncut_log\ncrash=2=33\nstop_after=3\ncut_log | run site => 0 done\ndone\nfailed\n!!!|key|-\ndone\ndone\n
# Reading a file fails after the last call.
put log log | put key key | calls 3 | room 3 | input stop_after=1\nsync\nread=2.0\ncrash=2=33\nstop_after=3\nread=2.0 | run site => 0 done\ndone\nfailed\nlog|key|-\ndone\nkey\n
# Writing a file fails after the last call.
put log log | put key key | calls 3 | room 3 | input stop_after=1\nsync\nwrite=2.0=new\ncrash=2=33\nstop_after=3\nwrite=2.0=new | run site => 0 done\ndone\nfailed\nlog|!!!|-\ndone\ndone\n
# Removing a file fails after the last call.
put log log | put key key | calls 3 | room 3 | input stop_after=1\nsync\nremove=2.0\ncrash=2=33\nstop_after=3\nremove=2.0 | run site => 0 done\ndone\nfailed\nlog|!!!|-\ndone\ndone\n
# A sync fails after the last call.
put log log | put key key | calls 3 | room 3 | input stop_after=1\nsync\nsync\ncrash=2=33\nstop_after=3\nsync | run site => 0 done\ndone\nfailed\nlog|key|-\ndone\ndone\n
# A give fails after the last call.
put log log | put key key | calls 3 | room 3 | input stop_after=1\nsync\ngive=out\ncrash=2=33\nstop_after=3\ngive=out | run site => 0 done\ndone\nfailed\nlog|key|-\ndone\ndone\n
# Reading the log fails without room and leaves nothing pending.
put log log | put key key | calls 1 | room 3 | input sync\nread_log\ncrash=2=33\noutput | run site => 0 done\nfailed\nlog|key|-\n\n
# Writing the log fails without room and leaves nothing pending.
put log log | put key key | calls 1 | room 3 | input sync\nwrite_log=new\ncrash=2=33\noutput | run site => 0 done\nfailed\nlog|key|-\n\n
# Cutting the log fails without room and leaves nothing pending.
put log log | put key key | calls 1 | room 3 | input sync\ncut_log\ncrash=2=33\noutput | run site => 0 done\nfailed\nlog|key|-\n\n
# Reading a file fails without room and leaves nothing pending.
put log log | put key key | calls 1 | room 3 | input sync\nread=2.0\ncrash=2=33\noutput | run site => 0 done\nfailed\nlog|key|-\n\n
# Writing a file fails without room and leaves nothing pending.
put log log | put key key | calls 1 | room 3 | input sync\nwrite=2.0=new\ncrash=2=33\noutput | run site => 0 done\nfailed\nlog|key|-\n\n
# Removing a file fails without room and leaves nothing pending.
put log log | put key key | calls 1 | room 3 | input sync\nremove=2.0\ncrash=2=33\noutput | run site => 0 done\nfailed\nlog|key|-\n\n
# A sync fails without room and leaves nothing pending.
put log log | put key key | calls 1 | room 3 | input sync\nsync\ncrash=2=33\noutput | run site => 0 done\nfailed\nlog|key|-\n\n
# A give fails without room and leaves nothing pending.
put log log | put key key | calls 1 | room 3 | input sync\ngive=out\ncrash=2=33\noutput | run site => 0 done\nfailed\nlog|key|-\n\n
# A crash leaves old, new or torn bytes.
put log abcdef | put key key | calls 17 | room 0 | fail 6 17 | input write_at=2=XY\nwrite_at=5=123\nwrite=3.1=one\nsync\nremove=3.1\nwrite=3.1=three\nsync\ncut_to=3\nwrite_at=3=45\nremove=2.0\ngive=out\nwrite_at=1=zz\ncrash=0=old\ncrash=1=old\ncrash=0=new\ncrash=1=new\ncrash=0=33\ncrash=1=33\ncrash=2=old\ncrash=3=old\ncrash=2=new\ncrash=3=new\ncrash=2=33\ncrash=3=33\ncrash=4=old\ncrash=4=new\ncrash=4=33\ncrash=5=old\ncrash=6=old\ncrash=5=new\ncrash=6=new\ncrash=5=33\ncrash=6=33\ncrash=7=old\ncrash=7=new\ncrash=7=33\ncrash=8=old\ncrash=8=new\ncrash=8=33\ncrash=9=old\ncrash=10=old\ncrash=9=new\ncrash=10=new\ncrash=9=33\ncrash=10=33\ncrash=11=old\ncrash=12=old\ncrash=11=new\ncrash=12=new\ncrash=11=33\ncrash=12=33\ncrash=13=old\ncrash=13=new\ncrash=13=33\ncrash=14=old\ncrash=15=old\ncrash=16=old\ncrash=14=new\ncrash=15=new\ncrash=16=new\ncrash=14=33\ncrash=15=33\ncrash=16=33\ncrash=17=old\ncrash=18=old\ncrash=17=new\ncrash=18=new\ncrash=17=33\ncrash=18=33 | run site => 0 done\ndone\ndone\nfailed\ndone\ndone\ndone\ndone\ndone\ndone\nfailed\nfailed\nabcdef|key|-\nabcdef|key|-\nabcdef|key|-\nabcdef|key|-\nabcdef|key|-\nabcdef|key|-\nabcdef|key|-\nabcdef|key|-\nabXYef|key|-\nabXYef|key|-\nab!!ef|key|-\nab!!ef|key|-\nabcdef|key|-\nabXYe123|key|-\nab!!e!!!|key|-\nabcdef|key|-\nabcdef|key|-\nabXYe123|key|one\nabXYe123|key|one\nab!!e!!!|key|!!!\nab!!e!!!|key|!!!\nabcdef|key|-\nabXYe123|key|-\nab!!e!!!|key|-\nabcdef|key|-\nabXYe123|key|three\nab!!e!!!|key|!!!!!\nabXYe123|key|three\nabXYe123|key|three\nabXYe123|key|three\nabXYe123|key|three\nabXYe123|key|three\nabXYe123|key|three\nabXYe123|key|three\nabXYe123|key|three\nabX|key|three\nabX|key|three\nabX|key|three\nabX|key|three\nabXYe123|key|three\nabX45|key|three\nabX!!|key|three\nabXYe123|key|three\nabXYe123|key|three\nabXYe123|key|three\nabX45|-|three\nabX45|-|three\nabX45|-|three\nabX!!|-|three\nabX!!|-|three\nabX!!|-|three\nabXYe123|key|three\nabXYe123|key|three\nabX45|-|three\nabX45|-|three\na!!!!|-|three\na!!!!|-|three\n
# A source whose second read fails, and a clock whose second and third readings fail.
input abcde | read 2 | run source => 0 2 ab\nfailed ab\n2 cd\n1 ed\n0 ed\n
run clock 253402300799 2 3 => 0 253402300799\nfailed\nfailed\n253402300799\n
";

#[test]
fn calls_are_answered_so(rt: HostRuntime) -> Result<(), Fail> {
    hold::<Disk>(rt.alloc(), "calls of sites", TABLE)
}
