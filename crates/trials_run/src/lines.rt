// The lines that answer items and end runs.
use ml_base::{Bytes, Name};
use ml_ending::{Why, stop_line};
use ml_plain::Reply;
use ml_run::answer_line;
use std::alloc::{AllocError, Global};
use std::test::Fail;
use trials_lists::same;

#[derive(Clone, Copy)]
enum Line {
    // The answers to the items of these numbers: a post was taken, with its own number; the set is full; a member left.
    Posted(u64, u64),
    Full(u64),
    Unsubscribed(u64),
    // A run ends, with the number of an item or without, a status and the reason.
    Stop(Option<u64>, u8, Why),
}

const LINES: [(Line, &[u8]); 18] = [
    (Line::Posted(12, 1), b"12 0 posted 1\n"),
    (Line::Full(999_999_999_999), b"999999999999 100 full\n"),
    (
        Line::Unsubscribed(u64::MAX),
        b"18446744073709551615 0 unsubscribed\n",
    ),
    (Line::Stop(None, 64, Why::Usage), b"- 64 usage\n"),
    (Line::Stop(None, 65, Why::Bad(0)), b"- 65 bad 0\n"),
    (Line::Stop(None, 65, Why::Short(69)), b"- 65 short 69\n"),
    (Line::Stop(None, 65, Why::Words), b"- 65 words\n"),
    (Line::Stop(None, 65, Why::Long), b"- 65 long\n"),
    (Line::Stop(None, 69, Why::Clock), b"- 69 clock\n"),
    (Line::Stop(Some(7), 71, Why::Memory), b"7 71 memory\n"),
    (Line::Stop(None, 72, Why::More), b"- 72 more\n"),
    (Line::Stop(None, 74, Why::Input), b"- 74 input\n"),
    (Line::Stop(None, 75, Why::NoList), b"- 75 nolist\n"),
    (Line::Stop(Some(0), 75, Why::At(Name::LOG)), b"0 75 log\n"),
    (
        Line::Stop(Some(u64::MAX), 75, Why::At(Name { kind: 4, at: 52 })),
        b"18446744073709551615 75 digest/subscribers/t\n",
    ),
    (Line::Stop(None, 100, Why::There), b"- 100 there\n"),
    (Line::Stop(None, 100, Why::Absent), b"- 100 absent\n"),
    (Line::Stop(Some(12), 111, Why::Disk), b"12 111 disk\n"),
];

// Writes a line that ends a run, or nothing if it names a file outside the table.
fn put_stop(number: Option<u64>, status: u8, why: Why, out: &mut [u8; 64]) -> usize {
    match why {
        Why::At(name) if !name.is_in_table() => 0,
        _ => stop_line(number, status, why, out),
    }
}

fn spelled(alloc: Global, line: Line) -> Result<Bytes, AllocError> {
    let mut out = [0u8; 64];
    let code = match line {
        Line::Posted(..) => Reply::POSTED,
        Line::Full(_) => Reply::FULL,
        _ => Reply::UNSUBSCRIBED,
    };
    let len = match line {
        Line::Posted(item, number) => answer_line(item, Reply { code, number }, &mut out),
        Line::Full(item) | Line::Unsubscribed(item) => {
            answer_line(item, Reply { code, number: 0 }, &mut out)
        }
        Line::Stop(number, status, why) => put_stop(number, status, why, &mut out),
    };
    Bytes::from_slice(alloc, out.get(..len).unwrap_or(&out))
}

#[test]
fn lines_are_spelled_so(rt: HostRuntime) -> Result<(), Fail> {
    for (row, (line, wanted)) in LINES.iter().enumerate() {
        let came = spelled(rt.alloc(), *line)?;
        same(rt.alloc(), "lines", row, came.as_slice(), wanted)?;
    }
    Ok(())
}
