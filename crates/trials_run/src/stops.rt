// Runs that are stopped by the end of their stream, by a call that fails, or by a crash.
use crate::program::Calls;
use std::test::Fail;
use trials_scripts::hold;

// An item of every letter, cut after a number of bytes, and the answers. They end before 32, 64, 87 and 175. The elements of the items begin at
// 0, 1, 5, 19 and 26; at 32, 33, 37, 51 and 58; at 64, 65, 69 and 83; at 87, 88, 93 and 107. There is no byte after the 175.
const CUTS: &str = r"
let each A1:7,10:1000000000,4:list,3:a@b,R1:8,10:1000000001,4:list,3:A@B,F1:9,10:1000000002,1:5,K2:10,10:1000000003,64:{1..64:f},
list run make => 0 made list@ex.org\n
turns 0 0 | input {each} | run cut {turn} => 0 0 answered
turns 1 4 | input {each} | run cut {turn} => 65 - 65 short 1\n0 answered
turns 5 18 | input {each} | run cut {turn} => 65 - 65 short 5\n0 answered
turns 19 25 | input {each} | run cut {turn} => 65 - 65 short 19\n0 answered
turns 26 31 | input {each} | run cut {turn} => 65 - 65 short 26\n0 answered
turns 32 32 | input {each} | run cut {turn} => 0 7 0 subscribed\n1 answered
turns 33 36 | input {each} | run cut {turn} => 65 7 0 subscribed\n- 65 short 33\n1 answered
turns 37 50 | input {each} | run cut {turn} => 65 7 0 subscribed\n- 65 short 37\n1 answered
turns 51 57 | input {each} | run cut {turn} => 65 7 0 subscribed\n- 65 short 51\n1 answered
turns 58 63 | input {each} | run cut {turn} => 65 7 0 subscribed\n- 65 short 58\n1 answered
turns 64 64 | input {each} | run cut {turn} => 0 7 0 subscribed\n8 0 unsubscribed\n2 answered
turns 65 68 | input {each} | run cut {turn} => 65 7 0 subscribed\n8 0 unsubscribed\n- 65 short 65\n2 answered
turns 69 82 | input {each} | run cut {turn} => 65 7 0 subscribed\n8 0 unsubscribed\n- 65 short 69\n2 answered
turns 83 86 | input {each} | run cut {turn} => 65 7 0 subscribed\n8 0 unsubscribed\n- 65 short 83\n2 answered
turns 87 87 | input {each} | run cut {turn} => 0 7 0 subscribed\n8 0 unsubscribed\n9 0 floored 5\n3 answered
turns 88 92 | input {each} | run cut {turn} => 65 7 0 subscribed\n8 0 unsubscribed\n9 0 floored 5\n- 65 short 88\n3 answered
turns 93 106 | input {each} | run cut {turn} => 65 7 0 subscribed\n8 0 unsubscribed\n9 0 floored 5\n- 65 short 93\n3 answered
turns 107 174 | input {each} | run cut {turn} => 65 7 0 subscribed\n8 0 unsubscribed\n9 0 floored 5\n- 65 short 107\n3 answered
turns 175 176 | input {each} | run cut {turn} => 0 7 0 subscribed\n8 0 unsubscribed\n9 0 floored 5\n10 0 rekeyed\n4 answered
";

// The calls of a run of one item over a new list: the store is opened by 1 and 2, and the configuration is read by 3. The item takes
// the reads 4 to 7. The record is written and synced by 8 and 9, its gate by 10 and 11, and 12 gives the answer. The store is closed
// by three files and a sync, the gate and a sync, the cut and a sync.
//
// A batch of two items is read for four times and then twice, since it has the counts and the kept replies by then. One of four is read
// for four times, twice, twice and once; the record and its gate are then settled by four calls, and 17 gives the answers.
const STOPS: &str = r"
let four A1:1,10:1000000000,4:list,3:a@b,A1:2,10:1000000000,4:list,3:c@d,A1:3,10:1000000000,4:list,3:e@f,A1:4,10:1000000000,4:list,3:a@5,
let two A1:7,10:1000000000,4:list,3:a@b,A1:8,10:1000000001,4:list,3:c@d,
let one A1:7,10:1000000000,4:list,3:a@b,
let five A1:5,10:1000000000,4:list,3:a@b,
list run make => 0 made list@ex.org\n
# A torn gate is open.
stop 10 | fill new | input {one} | run spool => 0 7 0 subscribed\n1 answered | run gate => 0 \x01 | input {one} | run spool => 0 7 0 subscribed\n1 answered | has subscribers/] layout 2\nTa@b\01000000000\0 | has counts/list 1\n | has log \0
# A torn gate is closed.
stop 10 | input {one} | run spool => 0 7 0 subscribed\n1 answered | run gate => 0 \0 | input {one} | run spool => 0 7 0 subscribed\n1 answered | has subscribers/] layout 2\nTa@b\01000000000\0 | has counts/list 1\n | has log \0
# A torn gate is neither.
stop 10 | fill 7 | input {one} | run spool => 0 7 0 subscribed\n1 answered | run gate => 0 \x07 | input {one} | run spool => 0 7 0 subscribed\n1 answered | has subscribers/] layout 2\nTa@b\01000000000\0 | has counts/list 1\n | has log \0
# A crash after any call is made good.
turns 0 20 | stop | input {one} | run spool => 0 7 0 subscribed\n1 answered | input {one} | run spool => 0 7 0 subscribed\n1 answered | has subscribers/] layout 2\nTa@b\01000000000\0 | has counts/list 1\n | has log \0
turns 0 20 | stop | fill new | input {one} | run spool => 0 7 0 subscribed\n1 answered | input {one} | run spool => 0 7 0 subscribed\n1 answered | has subscribers/] layout 2\nTa@b\01000000000\0 | has counts/list 1\n | has log \0
turns 0 20 | stop | fill 1 | input {one} | run spool => 0 7 0 subscribed\n1 answered | input {one} | run spool => 0 7 0 subscribed\n1 answered | has subscribers/] layout 2\nTa@b\01000000000\0 | has counts/list 1\n | has log \0
turns 0 20 | stop | fill 7 | input {one} | run spool => 0 7 0 subscribed\n1 answered | input {one} | run spool => 0 7 0 subscribed\n1 answered | has subscribers/] layout 2\nTa@b\01000000000\0 | has counts/list 1\n | has log \0
# An item is deferred if the sync of its gate fails, and counted once.
fail 11 | input {five} | run spool => 111 5 111 disk\n0 answered | input {five} | run spool => 0 5 0 subscribed\n1 answered | has subscribers/] layout 2\nTa@b\01000000000\0 | has counts/list 1\n | has log \0
fail 11 | fill new | input {five} | run spool => 111 5 111 disk\n0 answered | input {five} | run spool => 0 5 0 subscribed\n1 answered | has subscribers/] layout 2\nTa@b\01000000000\0 | has counts/list 1\n | has log \0
# Two items: the opening fails.
turns 1 3 | fail | input {two} | run spool => 111 - 111 disk\n0 answered | input {two} | run spool => 0 7 0 subscribed\n8 0 subscribed\n2 answered | has counts/list 2\n
turns 1 3 | fail | fill new | input {two} | run spool => 111 - 111 disk\n0 answered | input {two} | run spool => 0 7 0 subscribed\n8 0 subscribed\n2 answered | has counts/list 2\n
# Two items: a read of the first fails.
turns 4 7 | fail | input {two} | run spool => 111 7 111 disk\n0 answered | input {two} | run spool => 0 7 0 subscribed\n8 0 subscribed\n2 answered | has counts/list 2\n
turns 4 7 | fail | fill new | input {two} | run spool => 111 7 111 disk\n0 answered | input {two} | run spool => 0 7 0 subscribed\n8 0 subscribed\n2 answered | has counts/list 2\n
# Two items: a read of the second fails.
turns 8 9 | fail | input {two} | run spool => 111 7 0 subscribed\n8 111 disk\n1 answered | input {two} | run spool => 0 7 0 subscribed\n8 0 subscribed\n2 answered | has counts/list 2\n
turns 8 9 | fail | fill new | input {two} | run spool => 111 7 0 subscribed\n8 111 disk\n1 answered | input {two} | run spool => 0 7 0 subscribed\n8 0 subscribed\n2 answered | has counts/list 2\n
# Two items: the commit fails.
turns 10 13 | fail | input {two} | run spool => 111 7 111 disk\n0 answered | input {two} | run spool => 0 7 0 subscribed\n8 0 subscribed\n2 answered | has counts/list 2\n
turns 10 13 | fail | fill new | input {two} | run spool => 111 7 111 disk\n0 answered | input {two} | run spool => 0 7 0 subscribed\n8 0 subscribed\n2 answered | has counts/list 2\n
# Two items: the output fails.
fail 14 | input {two} | run spool => 73 0 answered | input {two} | run spool => 0 7 0 subscribed\n8 0 subscribed\n2 answered | has counts/list 2\n
fail 14 | fill new | input {two} | run spool => 73 0 answered | input {two} | run spool => 0 7 0 subscribed\n8 0 subscribed\n2 answered | has counts/list 2\n
# Two items: the closing fails.
turns 15 23 | fail | input {two} | run spool => 111 7 0 subscribed\n8 0 subscribed\n- 111 disk\n2 answered | input {two} | run spool => 0 7 0 subscribed\n8 0 subscribed\n2 answered | has counts/list 2\n
turns 15 23 | fail | fill new | input {two} | run spool => 111 7 0 subscribed\n8 0 subscribed\n- 111 disk\n2 answered | input {two} | run spool => 0 7 0 subscribed\n8 0 subscribed\n2 answered | has counts/list 2\n
# Two items: there are no more calls.
fail 24 | input {two} | run spool => 0 7 0 subscribed\n8 0 subscribed\n2 answered | input {two} | run spool => 0 7 0 subscribed\n8 0 subscribed\n2 answered | has counts/list 2\n
fail 24 | fill new | input {two} | run spool => 0 7 0 subscribed\n8 0 subscribed\n2 answered | input {two} | run spool => 0 7 0 subscribed\n8 0 subscribed\n2 answered | has counts/list 2\n
# A batch is deferred as a whole.
fail 16 | input {four} | run spool => 111 1 111 disk\n0 answered | input {four} | run spool => 0 1 0 subscribed\n2 0 subscribed\n3 0 subscribed\n4 0 subscribed\n4 answered | has subscribers/] layout 2\nTa@5\01000000000\0Ta@b\01000000000\0 | has subscribers/L layout 2\nTc@d\01000000000\0 | has subscribers/W layout 2\nTe@f\01000000000\0 | has counts/list 4\n | has log \0
fail 16 | fill new | input {four} | run spool => 111 1 111 disk\n0 answered | input {four} | run spool => 0 1 0 subscribed\n2 0 subscribed\n3 0 subscribed\n4 0 subscribed\n4 answered | has subscribers/] layout 2\nTa@5\01000000000\0Ta@b\01000000000\0 | has subscribers/L layout 2\nTc@d\01000000000\0 | has subscribers/W layout 2\nTe@f\01000000000\0 | has counts/list 4\n | has log \0
# A batch whose answers are not given stays.
fail 17 | input {four} | run spool => 73 0 answered | input  | run spool => 0 0 answered | has subscribers/] layout 2\nTa@5\01000000000\0Ta@b\01000000000\0 | has subscribers/L layout 2\nTc@d\01000000000\0 | has subscribers/W layout 2\nTe@f\01000000000\0 | has counts/list 4\n | has log \0
# A batch is answered.
input {four} | run spool => 0 1 0 subscribed\n2 0 subscribed\n3 0 subscribed\n4 0 subscribed\n4 answered
";

#[test]
fn a_run_that_is_stopped_is_made_good(rt: HostRuntime) -> Result<(), Fail> {
    hold::<Calls>(rt.alloc(), "stops", STOPS)
}

#[test]
fn a_stream_that_is_cut_ends_in_a_short_element(rt: HostRuntime) -> Result<(), Fail> {
    hold::<Calls>(rt.alloc(), "cuts", CUTS)
}
