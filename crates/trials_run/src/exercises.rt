// The bytes of the items of an exercise.
use ml_base::Bytes;
use ml_generated::{Generated, law_generated};
use ml_site::Source;
use std::alloc::Global;
use std::test::Fail;

#[test]
fn the_law_can_be_called() {
    law_generated();
}

// A local part of 60 bytes, and a host of 255.
const LOCAL: &[u8] = b"0123456789abcdefghijklmnopqrstuvwxyz0123456789abcdefghijklmn";

const HOST: &[u8] = b"0123456789abcdefghijklmnopqrstuvwxyz0123456789abcdefghijklmnop.\
0123456789abcdefghijklmnopqrstuvwxyz0123456789abcdefghijklmnop.\
0123456789abcdefghijklmnopqrstuvwxyz0123456789abcdefghijklmnop.\
0123456789abcdefghijklmnopqrstuvwxyz0123456789abcdefghijklmnop.org";

// A list, how many items there are and how many bytes they have, and some of these bytes from a place on.
struct Row {
    local: &'static [u8],
    host: &'static [u8],
    count: u64,
    size: usize,
    at: usize,
    bytes: &'static [u8],
}

const ROWS: [Row; 4] = [
    Row {
        local: b"list",
        host: b"ex.org",
        count: 10,
        size: 533,
        at: 0,
        bytes: b"A1:1,10:1000001000,4:list,10:u37@ex.com,\
A1:2,10:1000002000,4:list,10:u74@ex.com,\
A1:3,10:1000003000,4:list,10:u14@ex.com,\
D1:4,10:1000004000,0:,31:list-return-1-u51=ex.com@ex.org,1:\n,\
A1:5,10:1000005000,6:digest,10:u88@ex.com,\
R1:6,10:1000006000,4:list,10:u28@ex.com,\
D1:7,10:1000007000,10:u65@ex.com,11:list@ex.org,58:From: u65@ex.com\nTo: list@ex.org\nSubject: topic 0\n\npost 7\n,\
D1:8,10:1000008000,9:u5@ex.com,21:list-subscribe@ex.org,57:From: u5@ex.com\nTo: list@ex.org\nSubject: topic 1\n\npost 8\n,\
S1:9,10:1000009000,1:1,\
T2:10,10:1000010000,",
    },
    Row {
        local: b"list",
        host: b"ex.org",
        count: 1234,
        size: 69158,
        at: 68586,
        bytes: b"A4:1225,10:1001225000,6:digest,10:u26@ex.com,\
R4:1226,10:1001226000,4:list,10:u63@ex.com,\
D4:1227,10:1001227000,9:u3@ex.com,11:list@ex.org,60:From: u3@ex.com\nTo: list@ex.org\nSubject: topic 2\n\npost 1227\n,\
D4:1228,10:1001228000,10:u40@ex.com,21:list-subscribe@ex.org,61:From: u40@ex.com\nTo: list@ex.org\nSubject: topic 3\n\npost 1228\n,\
S4:1229,10:1001229000,3:123,\
T4:1230,10:1001230000,\
A4:1231,10:1001231000,4:list,10:u54@ex.com,\
A4:1232,10:1001232000,4:list,10:u91@ex.com,\
A4:1233,10:1001233000,4:list,10:u31@ex.com,\
D4:1234,10:1001234000,0:,33:list-return-123-u68=ex.com@ex.org,1:\n,",
    },
    Row {
        local: LOCAL,
        host: HOST,
        count: 8,
        size: 2020,
        at: 1291,
        bytes: b"D1:8,10:1000008000,9:u5@ex.com,326:0123456789abcdefghijklmnopqrstuvwxyz0123456789abcdefghijklmn-subscribe@",
    },
    Row {
        local: LOCAL,
        host: HOST,
        count: 8,
        size: 2020,
        at: 1988,
        bytes: b"p.org\nSubject: topic 1\n\npost 8\n,",
    },
];

// All bytes of a source, read in pieces of this size.
fn read_all(alloc: Global, source: &mut Generated, piece: usize) -> Result<Bytes, Fail> {
    let mut out = Bytes::new(alloc);
    let mut buffer = [0u8; 64];
    for _ in 0..100_000 {
        let count = match source.read(&mut buffer[..piece.min(64)]) {
            Ok(count) => count,
            Err(_) => return Err("a read failed".into()),
        };
        if count == 0 {
            return Ok(out);
        }
        out.extend(&buffer[..count])?;
    }
    Err("the source doesn't end".into())
}

fn holds(alloc: Global, row: &Row, piece: usize) -> Result<bool, Fail> {
    if row.local.len() > 60 || row.host.len() > 255 || row.count > 999_999 {
        return Err("no such source".into());
    }
    let mut source = Generated::new(row.local, row.host, row.count);
    let bytes = read_all(alloc, &mut source, piece)?;
    let there = match bytes.as_slice().get(row.at..) {
        Some(rest) => rest.starts_with(row.bytes),
        None => false,
    };
    Ok(bytes.len() == row.size && there)
}

#[test]
fn items_are_those_of_the_table(rt: HostRuntime) -> Result<(), Fail> {
    for (number, row) in ROWS.iter().enumerate() {
        for piece in [1, 7, 64] {
            assert!(rt;
                holds(rt.alloc(), row, piece)?,
                "row {number}, in pieces of {piece}"
            );
        }
    }
    Ok(())
}
