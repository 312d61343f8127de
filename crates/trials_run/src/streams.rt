// How streams are answered over a new list, also up to their limit.
use crate::program::Calls;
use std::test::Fail;
use trials_scripts::hold;

// Runs of at most this many items, or of at most a million.
const TABLE: &str = r"
list run make => 0 made list@ex.org\n
# Whole streams.
input  | run spool => 0 0 answered
input A1:7,10:1000000000,4:list,3:a@b, | run spool => 0 7 0 subscribed\n1 answered
input A1:7,10:1000000000,4:list,3:a@b,A1:8,10:1000000001,4:list,3:A@B,A1:9,10:1000000002,4:list,3:a@ | run spool => 65 7 0 subscribed\n8 0 already\n- 65 short 90\n2 answered
input Q | run spool => 65 - 65 bad 0\n0 answered
input Q1:8,10:1000000001, | run spool => 65 - 65 bad 0\n0 answered
input A1:7,10:1000000000,4:list,3:a@b,Q1:8,10:1000000001,1:1, | run spool => 65 7 0 subscribed\n- 65 bad 32\n1 answered
input A1:7,10:1000000000,4:list,3:a@b,F1:0,10:1000000001,1:8,A1:7,10:1000000002,4:list,3:a@b,A1:8,10:1000000003,4:list,3:c@d, | run spool => 0 7 0 subscribed\n0 0 floored 8\n7 100 stale\n8 0 subscribed\n4 answered
# A limit of 0.
input  | run spool 0 => 0 0 answered
input A1:7,10:1000000000,4:list,3:a@b, | run spool 0 => 72 - 72 more\n0 answered
# A limit of 1.
input A1:7,10:1000000000,4:list,3:a@b, | run spool 1 => 0 7 0 subscribed\n1 answered
input A1:7,10:1000000000,4:list,3:a@b,Q | run spool 1 => 72 7 0 subscribed\n- 72 more\n1 answered
# A limit of 2.
input A1:7,10:1000000000,4:list,3:a@b,A1:8,10:1000000001,4:list,3:A@B,A1:9,10:1000000002,4:list,3:a@ | run spool 2 => 72 7 0 subscribed\n8 0 already\n- 72 more\n2 answered
input A1:7,10:1000000000,4:list,3:a@b,A1:8,10:1000000001,4:list,3:A@B,A1:9,10:1000000002,4:list,3:c@d, | run spool 2 => 72 7 0 subscribed\n8 0 already\n- 72 more\n2 answered
# A limit of 3.
input A1:7,10:1000000000,4:list,3:a@b,A1:8,10:1000000001,4:list,3:A@B,A1:9,10:1000000002,4:list,3:a@ | run spool 3 => 65 7 0 subscribed\n8 0 already\n- 65 short 90\n2 answered
# Letters and numbers.
input A12:999999999999,10:1000000000,4:list,3:a@b, | run spool => 0 999999999999 0 subscribed\n1 answered
input A1:0,10:1000000000,4:list,3:a@b, | run spool => 0 0 0 subscribed\n1 answered
input R1:7,10:1000000000,4:list,3:a@b, | run spool => 0 7 0 absent\n1 answered
input R12:999999999999,10:1000000000,4:list,3:a@b, | run spool => 0 999999999999 0 absent\n1 answered
input A13:10:1000000000,4:list,3:a@b, | run spool => 65 - 65 bad 1\n0 answered
input R1310:1000000000,4:list,3:a@b, | run spool => 65 - 65 bad 1\n0 answered
input A2:07,10:1000000000,4:list,3:a@b, | run spool => 65 - 65 bad 1\n0 answered
input A1:x,10:1000000000,4:list,3:a@b, | run spool => 65 - 65 bad 1\n0 answered
input A0:,10:1000000000,4:list,3:a@b, | run spool => 65 - 65 bad 1\n0 answered
input A:7,10:1000000000,4:list,3:a@b, | run spool => 65 - 65 bad 1\n0 answered
input A01:7,10:1000000000,4:list,3:a@b, | run spool => 65 - 65 bad 1\n0 answered
input A1.7,10:1000000000,4:list,3:a@b, | run spool => 65 - 65 bad 1\n0 answered
input A1:7;10:1000000000,4:list,3:a@b, | run spool => 65 - 65 bad 1\n0 answered
input a1:7,10:1000000000,4:list,3:a@b, | run spool => 65 - 65 bad 0\n0 answered
input \01:7,10:1000000000,4:list,3:a@b, | run spool => 65 - 65 bad 0\n0 answered
# Moments.
input A1:7,12:253402300799,4:list,3:a@b, | run spool => 0 7 0 subscribed\n1 answered
input A1:7,1:0,4:list,3:a@b, | run spool => 0 7 0 subscribed\n1 answered
input A1:7,12:253402300800,4:list,3:a@b, | run spool => 65 - 65 bad 5\n0 answered
input A1:7,2:00,4:list,3:a@b, | run spool => 65 - 65 bad 5\n0 answered
input A1:7,13 | run spool => 65 - 65 bad 5\n0 answered
input A1:7,0:, | run spool => 65 - 65 bad 5\n0 answered
input A1:7,10:100000000, | run spool => 65 - 65 bad 5\n0 answered
# Sets and addresses that are added.
input A1:7,10:1000000000,6:digest,3:a@b, | run spool => 0 7 0 subscribed\n1 answered
input A1:7,10:1000000000,3:mod,3:a@b, | run spool => 0 7 0 subscribed\n1 answered
input A1:7,10:1000000000,4:List,3:a@b, | run spool => 65 - 65 bad 19\n0 answered
input A1:7,10:1000000000,5:liste,3:a@b, | run spool => 65 - 65 bad 19\n0 answered
input A1:7,10:1000000000,0:,3:a@b, | run spool => 65 - 65 bad 19\n0 answered
input A1:7,10:1000000000,7 | run spool => 65 - 65 bad 19\n0 answered
input A1:7,10:1000000000,6:diges | run spool => 65 - 65 short 19\n0 answered
input A1:7,10:1000000000,4:list,401 | run spool => 65 - 65 bad 26\n0 answered
input A1:7,10:1000000000,4:list,400 | run spool => 65 - 65 short 26\n0 answered
input A1:7,10:1000000000,4:list,3:abc | run spool => 65 - 65 bad 26\n0 answered
input A1:7,10:1000000000,4:list,3:ab | run spool => 65 - 65 short 26\n0 answered
input A1:7,10:1000000000,4:list,2:@b | run spool => 65 - 65 bad 26\n0 answered
input A1:7,10:1000000000,4:list,2:a@ | run spool => 65 - 65 bad 26\n0 answered
input A1:7,10:1000000000,4:list,3:a@; | run spool => 65 - 65 bad 26\n0 answered
input A1:7,10:1000000000,4:list,03 | run spool => 65 - 65 bad 26\n0 answered
input A1:7,10:1000000000,4:list,00 | run spool => 65 - 65 bad 26\n0 answered
input A1:7,10:1000000000,4:list,0 | run spool => 65 - 65 short 26\n0 answered
input A1:7,10:1000000000,4:list,0: | run spool => 65 - 65 bad 26\n0 answered
input A1:7,10:1000000000,4:list,3:a@b | run spool => 65 - 65 short 26\n0 answered
input A1:7,10:1000000000,4:list,3:a@b; | run spool => 65 - 65 bad 26\n0 answered
input A1:7,10:1000000000,4:list,400:{0..397:x}@b, | run spool => 0 7 0 subscribed\n1 answered
input A1:7,10:1000000000,4:list,401:{0..397:x}@bc, | run spool => 65 - 65 bad 26\n0 answered
# Sets and addresses that are removed.
input R1:7,10:1000000000,6:digest,3:a@b, | run spool => 0 7 0 absent\n1 answered
input R1:7,10:1000000000,3:mod,3:a@b, | run spool => 0 7 0 absent\n1 answered
input R1:7,10:1000000000,4:List,3:a@b, | run spool => 65 - 65 bad 19\n0 answered
input R1:7,10:1000000000,5:liste,3:a@b, | run spool => 65 - 65 bad 19\n0 answered
input R1:7,10:1000000000,0:,3:a@b, | run spool => 65 - 65 bad 19\n0 answered
input R1:7,10:1000000000,7 | run spool => 65 - 65 bad 19\n0 answered
input R1:7,10:1000000000,6:diges | run spool => 65 - 65 short 19\n0 answered
input R1:7,10:1000000000,4:list,401 | run spool => 65 - 65 bad 26\n0 answered
input R1:7,10:1000000000,4:list,400 | run spool => 65 - 65 short 26\n0 answered
input R1:7,10:1000000000,4:list,3:abc | run spool => 65 - 65 bad 26\n0 answered
input R1:7,10:1000000000,4:list,3:ab | run spool => 65 - 65 short 26\n0 answered
input R1:7,10:1000000000,4:list,2:@b | run spool => 65 - 65 bad 26\n0 answered
input R1:7,10:1000000000,4:list,2:a@ | run spool => 65 - 65 bad 26\n0 answered
input R1:7,10:1000000000,4:list,3:a@; | run spool => 65 - 65 bad 26\n0 answered
input R1:7,10:1000000000,4:list,03 | run spool => 65 - 65 bad 26\n0 answered
input R1:7,10:1000000000,4:list,00 | run spool => 65 - 65 bad 26\n0 answered
input R1:7,10:1000000000,4:list,0 | run spool => 65 - 65 short 26\n0 answered
input R1:7,10:1000000000,4:list,0: | run spool => 65 - 65 bad 26\n0 answered
input R1:7,10:1000000000,4:list,3:a@b | run spool => 65 - 65 short 26\n0 answered
input R1:7,10:1000000000,4:list,3:a@b; | run spool => 65 - 65 bad 26\n0 answered
input R1:7,10:1000000000,4:list,400:{0..397:x}@b, | run spool => 0 7 0 absent\n1 answered
input R1:7,10:1000000000,4:list,401:{0..397:x}@bc, | run spool => 65 - 65 bad 26\n0 answered
# Floors.
input F1:0,10:1000000000,1:1, | run spool => 0 0 0 floored 1\n1 answered
input F1:0,10:1000000000,6:512001, | run spool => 0 0 0 floored 512001\n1 answered
input F1:0,10:1000000000,6:512002, | run spool => 100 0 100 badfloor\n1 answered
input F1:0,10:1000000000,12:999999999999, | run spool => 100 0 100 badfloor\n1 answered
input F1:0,10:1000000000,1:0, | run spool => 65 - 65 bad 19\n0 answered
input F1:0,10:1000000000,0:, | run spool => 65 - 65 bad 19\n0 answered
input F1:0,10:1000000000,2:05, | run spool => 65 - 65 bad 19\n0 answered
input F1:0,10:1000000000,2:5x, | run spool => 65 - 65 bad 19\n0 answered
input F1:0,10:1000000000,13 | run spool => 65 - 65 bad 19\n0 answered
input F1:0,10:1000000000,1:5; | run spool => 65 - 65 bad 19\n0 answered
input F1:0,10:1000000000,1:5 | run spool => 65 - 65 short 19\n0 answered
input F1:0,10:1000000000,1: | run spool => 65 - 65 short 19\n0 answered
# Keys of 64 digits.
input K1:7,10:1000000000,64:012345678901234567890123456789012345678901234567890123456789abaf, | run spool => 0 7 0 rekeyed\n1 answered
input K1:7,10:1000000000,64:012345678901234567890123456789012345678901234567890123456789abaF, | run spool => 65 - 65 bad 19\n0 answered
input K1:7,10:1000000000,64:012345678901234567890123456789012345678901234567890123456789abag, | run spool => 65 - 65 bad 19\n0 answered
input K1:7,10:1000000000,64:012345678901234567890123456789012345678901234567890123456789aba`, | run spool => 65 - 65 bad 19\n0 answered
input K1:7,10:1000000000,64:012345678901234567890123456789012345678901234567890123456789aba/, | run spool => 65 - 65 bad 19\n0 answered
input K1:7,10:1000000000,64:012345678901234567890123456789012345678901234567890123456789aba:, | run spool => 65 - 65 bad 19\n0 answered
input K1:7,10:1000000000,64:012345678901234567890123456789012345678901234567890123456789abaf; | run spool => 65 - 65 bad 19\n0 answered
input K1:7,10:1000000000,64:012345678901234567890123456789012345678901234567890123456789abaf | run spool => 65 - 65 short 19\n0 answered
# Keys of other lengths.
input K1:7,10:1000000000,63:012345678901234567890123456789012345678901234567890123456789aba, | run spool => 65 - 65 bad 19\n0 answered
input K1:7,10:1000000000,62:012345678901234567890123456789012345678901234567890123456789ab, | run spool => 65 - 65 bad 19\n0 answered
input K1:7,10:1000000000,65:012345678901234567890123456789012345678901234567890123456789ababc, | run spool => 65 - 65 bad 19\n0 answered
";

#[test]
fn streams_are_answered(rt: HostRuntime) -> Result<(), Fail> {
    hold::<Calls>(rt.alloc(), "streams", TABLE)
}
