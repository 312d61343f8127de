// The standard input, as a source that counts its faults.
ghost use Rattle.std.specs.Prelude.{◌≡◌, ◌≤◌, None, IfOk, length};
ghost use Rattle.ml_real.specs.Untold.{untold};

use ml_site::{Failed, Source};
use std::io;
use std::io::{ErrorKind, Read};

const ROOM: usize = 65_536;

/// The standard input. Small reads go through a buffer of 64 KiB.
#[derive(Drop)]
pub struct StdSource<'a> {
    input: Input<'a>,
    faults: u64,
}

impl<'a> StdSource<'a> {
    /// A source that has read nothing yet. It takes no memory.
    pub fn new(rt: &'a HostRuntime) -> Self
        ensures { result.faults ≡ 0 }
    {
        StdSource {
            input: Input {
                rt,
                buffer: [0; ROOM],
                at: 0,
                end: 0,
            },
            faults: 0,
        }
    }
}

impl<'a> Source for StdSource<'a> {
    ghost left = { λ _. None };

    ghost faults = { λ s. s.faults };

    fn read(&mut self, buf: &mut [u8]) -> Result<usize, Failed> {
        match self.input.read(buf) {
            Ok(count) => Ok(count),
            Err(_) => {
                self.faults = self.faults.saturating_add(1);
                Err(Failed)
            }
        }
    }

    ghost room = { λ s bytes told. untold bytes told };
}

// The standard input with the bytes that were read ahead, from `at` to `end`. It counts no faults.
#[derive(Drop)]
struct Input<'a> {
    rt: &'a HostRuntime,
    buffer: [u8; ROOM],
    at: usize,
    end: usize,
    ghost ordered: { at ≤ end },
    ghost within: { end ≤ 65536 },
}

impl<'a> Input<'a> {
    // A buffer at least as large as ours is filled directly, so that long contents aren't copied twice.
    fn read(&mut self, buf: &mut [u8]) -> io::Result<usize>
        ensures { IfOk result (λ count. count ≤ length buf.old) }
    {
        if self.at == self.end {
            if buf.len() >= ROOM {
                return read_some(self.rt, buf);
            }
            self.at = 0;
            self.end = 0;
            self.end = read_some(self.rt, &mut self.buffer)?;
        }
        let ahead = &self.buffer[self.at..self.end];
        let count = ahead.len().min(buf.len());
        buf[..count].copy_from_slice(&ahead[..count]);
        self.at += count;
        Ok(count)
    }
}

// Reads what there is, as much as fits: nothing at the end. A read that a signal interrupts is made again.
fn read_some(rt: &HostRuntime, buf: &mut [u8]) -> io::Result<usize>
    ensures { IfOk result (λ count. count ≤ length buf.old) }
{
    for _ in 0..u64::MAX {
        match rt.stdin().read(buf) {
            Err(error) if error.kind() == ErrorKind::Interrupted => {}
            answer => return answer,
        }
    }
    Err(ErrorKind::Interrupted.into())
}
