// Logs written by hand: what a store that is opened over each of them shows, and what it leaves of the log.
use crate::disk::Disk;
use crate::store_steps::on_stores;
use ml_base::{Bytes, push_netstring};
use ml_site::{Image, MemSite};
use std::alloc::{AllocError, Global};
use std::collections::BTreeMap;
use std::test::Fail;
use trials_lists::same;
use trials_scripts::hold;

// What a store shows of a bucket that held `b` and of a floor that held `f`. It leaves one closed gate.
const FOUND: &str = r"
let opened open\nshow=3.29,21.0\nread_log
list put subscribers/] b | put floor f
# Nothing, a last gate of any kind, and what stands after a closed gate.
put log  | calls 20 | input {opened} | run store => 0 done\nb|f|\n\0\n
put log \x01 | calls 20 | input {opened} | run store => 0 done\nb|f|\n\0\n
put log \0ab | calls 20 | input {opened} | run store => 0 done\nb|f|\n\0\n
put log \x0718:W1:3,2:29,5:Ta@b\0,,\0 | calls 20 | input {opened} | run store => 0 done\nb|f|\n\0\n
# A record after a gate that is open, closed, or torn.
put log \x0118:W1:3,2:29,5:Ta@b\0,,\0 | calls 20 | input {opened} | run store => 0 done\nTa@b\0|f|\n\0\n
put log \018:W1:3,2:29,5:Ta@b\0,,\0 | calls 20 | input {opened} | run store => 0 done\nb|f|\n\0\n
# A closed record with an open one after it.
put log \010:X1:3,2:29,,\x0110:X1:3,2:29,,\0 | calls 20 | input {opened} | run store => 0 done\nb|f|\n\0\n
# The log ends after its record.
put log \x0118:W1:3,2:29,5:Ta@b\0,, | calls 20 | input {opened} | run store => 0 done\nTa@b\0|f|\n\0\n
put log \x0118:W1:3,2:29,5:Ta@b\0,,\x01 | calls 20 | input {opened} | run store => 0 done\nTa@b\0|f|\n\0\n
# Two records, the later put of a file wins; a removal is one too.
put log \x0113:W1:3,2:29,0:,,\x0110:X1:3,2:29,,\0 | calls 20 | input {opened} | run store => 0 done\n-|f|\n\0\n
put log \x0110:X1:3,2:29,,\x0113:W1:3,2:29,0:,,\0 | calls 20 | input {opened} | run store => 0 done\n|f|\n\0\n
put log \x0110:X1:3,2:29,,\014:W2:21,1:0,1:9,,\0 | calls 20 | input {opened} | run store => 0 done\n-|f|\n\0\n
put log \x0127:X1:3,2:29,W2:21,1:0,4:500\n,,\0 | calls 20 | input {opened} | run store => 0 done\n-|500\n|\n\0\n
# A record of no puts.
put log \x010:,\0 | calls 20 | input {opened} | run store => 0 done\nb|f|\n\0\n
put log \x010:,\x0110:X1:3,2:29,,\0 | calls 20 | input {opened} | run store => 0 done\n-|f|\n\0\n
# Logs with an open gate that has no record after it. They stay as they are.
put log \x01a | calls 20 | input {opened} | run store => 0 the log is damaged\nno store\n\x01a\n
put log \x01\x01 | calls 20 | input {opened} | run store => 0 the log is damaged\nno store\n\x01\x01\n
put log \x0110:X1:3,2:29,,\x0110:X1:3,2:2 | calls 20 | input {opened} | run store => 0 the log is damaged\nno store\n\x0110:X1:3,2:29,,\x0110:X1:3,2:2\n
put log \x01010:X1:3,2:29,,\0 | calls 20 | input {opened} | run store => 0 the log is damaged\nno store\n\x01010:X1:3,2:29,,\0\n
put log \x0110:Y1:3,2:29,,\0 | calls 20 | input {opened} | run store => 0 the log is damaged\nno store\n\x0110:Y1:3,2:29,,\0\n
put log \x0111:X1:3,2:29,a,\0 | calls 20 | input {opened} | run store => 0 the log is damaged\nno store\n\x0111:X1:3,2:29,a,\0\n
put log \x0111:X1:3,3:029,,\0 | calls 20 | input {opened} | run store => 0 the log is damaged\nno store\n\x0111:X1:3,3:029,,\0\n
put log \x0110:W1:3,2:29,,\0 | calls 20 | input {opened} | run store => 0 the log is damaged\nno store\n\x0110:W1:3,2:29,,\0\n
put log \x0118:W1:3,2:29,6:Ta@b\0,,\0 | calls 20 | input {opened} | run store => 0 the log is damaged\nno store\n\x0118:W1:3,2:29,6:Ta@b\0,,\0\n
put log \x0110:X1:3,2:29;,\0 | calls 20 | input {opened} | run store => 0 the log is damaged\nno store\n\x0110:X1:3,2:29;,\0\n
# Each byte alone.
turns 0 255 | calls 22 | input byte={turn}\nsync\n{opened} | run store => 0 done\ndone\ndone\nb|f|\n\0\n
";

#[test]
fn a_store_is_opened_over_each_log(rt: HostRuntime) -> Result<(), Fail> {
    hold::<Disk>(rt.alloc(), "logs", FOUND)
}

// Whether a log is read that removes a file: at the place before the first of its kind, if there is one, at the first, at the last, and at
// the one after it.
const KINDS: &str = r"
put log \x019:X1:1,1:0,, | calls 20 | room 0 | input open | run store => 0 done\n | put log \x019:X1:1,1:0,, | calls 20 | room 0 | input open | run store => 0 done\n | put log \x019:X1:1,1:1,, | calls 20 | room 0 | input open | run store => 0 the log is damaged\n
put log \x019:X1:2,1:0,, | calls 20 | room 0 | input open | run store => 0 done\n | put log \x019:X1:2,1:0,, | calls 20 | room 0 | input open | run store => 0 done\n | put log \x019:X1:2,1:1,, | calls 20 | room 0 | input open | run store => 0 the log is damaged\n
put log \x019:X1:3,1:0,, | calls 20 | room 0 | input open | run store => 0 done\n | put log \x0110:X1:3,2:52,, | calls 20 | room 0 | input open | run store => 0 done\n | put log \x0110:X1:3,2:53,, | calls 20 | room 0 | input open | run store => 0 the log is damaged\n
put log \x019:X1:4,1:0,, | calls 20 | room 0 | input open | run store => 0 done\n | put log \x0110:X1:4,2:52,, | calls 20 | room 0 | input open | run store => 0 done\n | put log \x0110:X1:4,2:53,, | calls 20 | room 0 | input open | run store => 0 the log is damaged\n
put log \x019:X1:5,1:0,, | calls 20 | room 0 | input open | run store => 0 done\n | put log \x0110:X1:5,2:52,, | calls 20 | room 0 | input open | run store => 0 done\n | put log \x0110:X1:5,2:53,, | calls 20 | room 0 | input open | run store => 0 the log is damaged\n
put log \x019:X1:6,1:0,, | calls 20 | room 0 | input open | run store => 0 done\n | put log \x0110:X1:6,2:52,, | calls 20 | room 0 | input open | run store => 0 done\n | put log \x0110:X1:6,2:53,, | calls 20 | room 0 | input open | run store => 0 the log is damaged\n
put log \x019:X1:7,1:0,, | calls 20 | room 0 | input open | run store => 0 done\n | put log \x0110:X1:7,2:52,, | calls 20 | room 0 | input open | run store => 0 done\n | put log \x0110:X1:7,2:53,, | calls 20 | room 0 | input open | run store => 0 the log is damaged\n
put log \x019:X1:8,1:0,, | calls 20 | room 0 | input open | run store => 0 done\n | put log \x019:X1:8,1:4,, | calls 20 | room 0 | input open | run store => 0 done\n | put log \x019:X1:8,1:5,, | calls 20 | room 0 | input open | run store => 0 the log is damaged\n
put log \x019:X1:9,1:0,, | calls 20 | room 0 | input open | run store => 0 the log is damaged\n | put log \x019:X1:9,1:1,, | calls 20 | room 0 | input open | run store => 0 done\n | put log \x0116:X1:9,8:99999999,, | calls 20 | room 0 | input open | run store => 0 done\n | put log \x0117:X1:9,9:100000000,, | calls 20 | room 0 | input open | run store => 0 the log is damaged\n
put log \x0110:X2:10,1:0,, | calls 20 | room 0 | input open | run store => 0 done\n | put log \x0115:X2:10,6:999999,, | calls 20 | room 0 | input open | run store => 0 done\n | put log \x0116:X2:10,7:1000000,, | calls 20 | room 0 | input open | run store => 0 the log is damaged\n
put log \x0110:X2:11,1:0,, | calls 20 | room 0 | input open | run store => 0 done\n | put log \x0110:X2:11,1:0,, | calls 20 | room 0 | input open | run store => 0 done\n | put log \x0110:X2:11,1:1,, | calls 20 | room 0 | input open | run store => 0 the log is damaged\n
put log \x0110:X2:12,1:0,, | calls 20 | room 0 | input open | run store => 0 done\n | put log \x0110:X2:12,1:0,, | calls 20 | room 0 | input open | run store => 0 done\n | put log \x0110:X2:12,1:1,, | calls 20 | room 0 | input open | run store => 0 the log is damaged\n
put log \x0110:X2:13,1:0,, | calls 20 | room 0 | input open | run store => 0 the log is damaged\n | put log \x0110:X2:13,1:1,, | calls 20 | room 0 | input open | run store => 0 done\n | put log \x0126:X2:13,16:1000000000000000,, | calls 20 | room 0 | input open | run store => 0 done\n | put log \x0126:X2:13,16:1000000000000001,, | calls 20 | room 0 | input open | run store => 0 the log is damaged\n
put log \x0110:X2:14,1:0,, | calls 20 | room 0 | input open | run store => 0 done\n | put log \x0110:X2:14,1:0,, | calls 20 | room 0 | input open | run store => 0 done\n | put log \x0110:X2:14,1:1,, | calls 20 | room 0 | input open | run store => 0 the log is damaged\n
put log \x0110:X2:15,1:0,, | calls 20 | room 0 | input open | run store => 0 done\n | put log \x0111:X2:15,2:52,, | calls 20 | room 0 | input open | run store => 0 done\n | put log \x0111:X2:15,2:53,, | calls 20 | room 0 | input open | run store => 0 the log is damaged\n
put log \x0110:X2:16,1:0,, | calls 20 | room 0 | input open | run store => 0 done\n | put log \x0111:X2:16,2:52,, | calls 20 | room 0 | input open | run store => 0 done\n | put log \x0111:X2:16,2:53,, | calls 20 | room 0 | input open | run store => 0 the log is damaged\n
put log \x0110:X2:17,1:0,, | calls 20 | room 0 | input open | run store => 0 the log is damaged\n | put log \x0110:X2:17,1:1,, | calls 20 | room 0 | input open | run store => 0 done\n | put log \x0126:X2:17,16:1000000000000000,, | calls 20 | room 0 | input open | run store => 0 done\n | put log \x0126:X2:17,16:1000000000000001,, | calls 20 | room 0 | input open | run store => 0 the log is damaged\n
put log \x0110:X2:18,1:0,, | calls 20 | room 0 | input open | run store => 0 done\n | put log \x0110:X2:18,1:0,, | calls 20 | room 0 | input open | run store => 0 done\n | put log \x0110:X2:18,1:1,, | calls 20 | room 0 | input open | run store => 0 the log is damaged\n
put log \x0110:X2:19,1:0,, | calls 20 | room 0 | input open | run store => 0 done\n | put log \x0120:X2:19,10:1953124999,, | calls 20 | room 0 | input open | run store => 0 done\n | put log \x0120:X2:19,10:1953125000,, | calls 20 | room 0 | input open | run store => 0 the log is damaged\n
put log \x0110:X2:20,1:0,, | calls 20 | room 0 | input open | run store => 0 done\n | put log \x0112:X2:20,3:255,, | calls 20 | room 0 | input open | run store => 0 done\n | put log \x0112:X2:20,3:256,, | calls 20 | room 0 | input open | run store => 0 the log is damaged\n
put log \x0110:X2:21,1:0,, | calls 20 | room 0 | input open | run store => 0 done\n | put log \x0110:X2:21,1:0,, | calls 20 | room 0 | input open | run store => 0 done\n | put log \x0110:X2:21,1:1,, | calls 20 | room 0 | input open | run store => 0 the log is damaged\n
put log \x019:X1:0,1:0,, | calls 20 | room 0 | input open | run store => 0 the log is damaged\n | put log \x019:X1:0,1:0,, | calls 20 | room 0 | input open | run store => 0 the log is damaged\n | put log \x019:X1:0,1:1,, | calls 20 | room 0 | input open | run store => 0 the log is damaged\n
put log \x0110:X2:22,1:0,, | calls 20 | room 0 | input open | run store => 0 the log is damaged\n | put log \x0110:X2:22,1:0,, | calls 20 | room 0 | input open | run store => 0 the log is damaged\n | put log \x0110:X2:22,1:1,, | calls 20 | room 0 | input open | run store => 0 the log is damaged\n
put log \x0111:X3:256,1:0,, | calls 20 | room 0 | input open | run store => 0 the log is damaged\n | put log \x0111:X3:256,1:0,, | calls 20 | room 0 | input open | run store => 0 the log is damaged\n | put log \x0111:X3:256,1:1,, | calls 20 | room 0 | input open | run store => 0 the log is damaged\n
put log \x0111:X3:259,1:0,, | calls 20 | room 0 | input open | run store => 0 the log is damaged\n | put log \x0111:X3:259,1:0,, | calls 20 | room 0 | input open | run store => 0 the log is damaged\n | put log \x0111:X3:259,1:1,, | calls 20 | room 0 | input open | run store => 0 the log is damaged\n
";

#[test]
fn each_kind_has_its_places(rt: HostRuntime) -> Result<(), Fail> {
    hold::<Disk>(rt.alloc(), "kinds", KINDS)
}

// A put of one byte to one of 250 files.
fn put_of(alloc: Global, number: u64) -> Result<Bytes, AllocError> {
    let mut at = Bytes::new(alloc);
    at.push_number(number % 250)?;
    let mut put = Bytes::from_slice(alloc, b"W2:20,")?;
    push_netstring(&mut put, at.as_slice())?;
    push_netstring(&mut put, &[(number % 199) as u8])?;
    Ok(put)
}

// Adds an open record of one put to a log.
fn push_record(log: &mut Bytes, put: &[u8]) -> Result<(), AllocError> {
    log.push(1)?;
    push_netstring(log, put)
}

// A log of a thousand open records.
fn long_log(alloc: Global) -> Result<Bytes, AllocError> {
    let mut log = Bytes::new(alloc);
    for number in 0..1_000u64 {
        let put = put_of(alloc, number)?;
        push_record(&mut log, put.as_slice())?;
    }
    Ok(log)
}

// Adds the steps that show the first of 250 files, the second, and so on.
fn push_steps(steps: &mut Bytes) -> Result<(), AllocError> {
    steps.extend(b"open\nshow=20.0")?;
    for at in 1..250u64 {
        steps.extend(b",20.")?;
        steps.push_number(at)?;
    }
    Ok(())
}

// Adds what is shown then: the last record of a file counts, so these are the numbers 750 to 999.
fn push_wanted(wanted: &mut Bytes) -> Result<(), AllocError> {
    wanted.extend(b"done\n")?;
    for at in 0..250u64 {
        wanted.push(((at + 750) % 199) as u8)?;
        wanted.push(b'|')?;
    }
    wanted.push(b'\n')
}

// Adds what a store that is opened over a log answers to steps.
fn push_shown(alloc: Global, log: Bytes, steps: &[u8], out: &mut Bytes) -> Result<(), Fail> {
    let files = BTreeMap::new(alloc);
    let site = MemSite::new(alloc, Image { log, files }, 1_000, 0)?;
    on_stores(alloc, site, steps, out)
}

#[test]
fn a_thousand_records_are_read(rt: HostRuntime) -> Result<(), Fail> {
    let alloc = rt.alloc();
    let log = long_log(alloc)?;
    let (mut steps, mut came, mut wanted) = (
        Bytes::new(alloc),
        Bytes::new(alloc),
        Bytes::new(alloc),
    );
    push_steps(&mut steps)?;
    push_wanted(&mut wanted)?;
    push_shown(alloc, log, steps.as_slice(), &mut came)?;
    same(
        alloc,
        "a thousand records",
        0,
        came.as_slice(),
        wanted.as_slice(),
    )
}
