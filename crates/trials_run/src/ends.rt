// Where a stream is bad or cut short, as its items are read.
use crate::program::Calls;
use std::test::Fail;
use trials_scripts::hold;

// Streams, each with the number of its whole items and what comes after them. A sender and a recipient have at most 1,000 bytes.
const ENDS: &str = r"
# Letters, numbers and moments.
input T1:7,10:1000000000,T1:8,1:0, | run ends => 0 2 end
input T12:999999999999,12:253402300799, | run ends => 0 1 end
input T1:7,10:1000000000,1:1, | run ends => 0 1 bad 19
input B1:7, | run ends => 0 0 bad 0
input E1:7, | run ends => 0 0 bad 0
input Q1:7, | run ends => 0 0 bad 0
input U1:7, | run ends => 0 0 bad 0
input d1:7, | run ends => 0 0 bad 0
input s1:7, | run ends => 0 0 bad 0
input t1:7, | run ends => 0 0 bad 0
input \01:7, | run ends => 0 0 bad 0
input T | run ends => 0 0 short 1
input T1:7 | run ends => 0 0 short 1
input T1:7, | run ends => 0 0 short 5
input S13 | run ends => 0 0 bad 1
input D2:07, | run ends => 0 0 bad 1
input D1:7,12:253402300800, | run ends => 0 0 bad 5
input T1:7,1:0 | run ends => 0 0 short 5
input T1:7,1:0; | run ends => 0 0 bad 5
# The parts of a delivery.
input D1:7,10:1000000000,0:,0:,0:, | run ends => 0 1 end
input D1:7,10:1000000000,1:\0,1:\xFF,2::,, | run ends => 0 1 end
input D1:7,10:1000000000, | run ends => 0 0 short 19
input D1:7,10:1000000000,:a, | run ends => 0 0 bad 19
input D1:7,10:1000000000,03:a@b, | run ends => 0 0 bad 19
input D1:7,10:1000000000,00 | run ends => 0 0 bad 19
input D1:7,10:1000000000,x | run ends => 0 0 bad 19
input D1:7,10:1000000000,3; | run ends => 0 0 bad 19
input D1:7,10:1000000000,3:a@b; | run ends => 0 0 bad 19
input D1:7,10:1000000000,1000 | run ends => 0 0 short 19
input D1:7,10:1000000000,1001 | run ends => 0 0 bad 19
input D1:7,10:1000000000,123456789 | run ends => 0 0 bad 19
input D1:7,10:1000000000,3:a@b, | run ends => 0 0 short 25
input D1:7,10:1000000000,3:a@b,: | run ends => 0 0 bad 25
input D1:7,10:1000000000,3:a@b,00 | run ends => 0 0 bad 25
input D1:7,10:1000000000,3:a@b,1000 | run ends => 0 0 short 25
input D1:7,10:1000000000,3:a@b,1001 | run ends => 0 0 bad 25
input D1:7,10:1000000000,3:a@b,1:x | run ends => 0 0 short 25
input D1:7,10:1000000000,3:a@b,1:xx | run ends => 0 0 bad 25
input D1:7,10:1000000000,0:,0:, | run ends => 0 0 short 25
input D1:7,10:1000000000,0:,0:,: | run ends => 0 0 bad 25
input D1:7,10:1000000000,0:,0:,01 | run ends => 0 0 bad 25
input D1:7,10:1000000000,0:,0:,33554432: | run ends => 0 0 short 25
input D1:7,10:1000000000,0:,0:,33554433 | run ends => 0 0 bad 25
input D1:7,10:1000000000,0:,0:,100000000 | run ends => 0 0 bad 25
input D1:7,10:1000000000,0:,0:,1:x; | run ends => 0 0 bad 25
input D1:7,10:1000000000,0:,0:,1:x, | run ends => 0 1 end
input D1:7,10:1000000000,0:,0:,1:x,x | run ends => 0 1 bad 29
input D1:7,10:1000000000,1000:{0..999:x},0:,0:, | run ends => 0 1 end
input D1:7,10:1000000000,1001:{0..1000:x},0:,0:, | run ends => 0 0 bad 19
input D1:7,10:1000000000,0:,1000:{0..999:x},0:, | run ends => 0 1 end
input D1:7,10:1000000000,0:,1001:{0..1000:x},0:, | run ends => 0 0 bad 22
input D1:7,10:1000000000,0:,0:,1001:{0..1000:x}, | run ends => 0 1 end
# Ids.
input S1:7,10:1000000000,1:1, | run ends => 0 1 end
input S1:7,10:1000000000,16:1000000000000000, | run ends => 0 1 end
input S1:7,10:1000000000,16:1000000000000001, | run ends => 0 0 bad 19
input S1:7,10:1000000000,16:9999999999999999, | run ends => 0 0 bad 19
input S1:7,10:1000000000,17 | run ends => 0 0 bad 19
input S1:7,10:1000000000,1:0, | run ends => 0 0 bad 19
input S1:7,10:1000000000,2:01, | run ends => 0 0 bad 19
input S1:7,10:1000000000,01:1, | run ends => 0 0 bad 19
input S1:7,10:1000000000,0:, | run ends => 0 0 bad 19
input S1:7,10:1000000000,:1, | run ends => 0 0 bad 19
input S1:7,10:1000000000,1:x, | run ends => 0 0 bad 19
input S1:7,10:1000000000,1:1; | run ends => 0 0 bad 19
input S1:7,10:1000000000,1:1 | run ends => 0 0 short 19
input S1:7,10:1000000000,16 | run ends => 0 0 short 19
input S1:7,10:1000000000, | run ends => 0 0 short 19
";

// A delivery of 42 bytes, cut after every number of bytes. Its elements begin at 0, 1, 5, 19, 25 and 34.
const CUTS: &str = r"
let delivery D1:7,10:1000000000,3:a@b,6:l@list,5:hello,
turns 0 0 | input {delivery} | run ends {turn} => 0 0 end
turns 1 4 | input {delivery} | run ends {turn} => 0 0 short 1
turns 5 18 | input {delivery} | run ends {turn} => 0 0 short 5
turns 19 24 | input {delivery} | run ends {turn} => 0 0 short 19
turns 25 33 | input {delivery} | run ends {turn} => 0 0 short 25
turns 34 41 | input {delivery} | run ends {turn} => 0 0 short 34
turns 42 43 | input {delivery} | run ends {turn} => 0 1 end
";

#[test]
fn streams_end_so(rt: HostRuntime) -> Result<(), Fail> {
    hold::<Calls>(rt.alloc(), "ends", ENDS)
}

#[test]
fn a_delivery_that_is_cut_ends_in_a_short_element(rt: HostRuntime) -> Result<(), Fail> {
    hold::<Calls>(rt.alloc(), "cuts of a delivery", CUTS)
}
