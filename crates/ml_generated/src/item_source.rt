// The source that gives the items of an exercise.
ghost use Rattle.std.specs.Prelude.{◌≡◌, ◌≤◌, ◌<◌, ◌+◌, ◌^◌, Some, IsOk, length};
ghost use Rattle.ml_stream.specs.Writing.{stream_text};
ghost use Rattle.ml_site.specs.Source.{left-room};
ghost use Rattle.ml_generated.specs.Items.{generated, left_of};

use crate::buffer::Buffer;
use crate::items::item;
use ml_site::{Failed, Source};

/// The bytes of the items of an exercise, item after item. It holds one of them at a time, takes no memory, and no read fails.
///
/// Item `i` has the number `i` and the moment `1_000_000_000 + 1000 * i`, in seconds since 1970. The last digit of `i` decides what it does:
/// it adds a member (1, 2, 3), delivers a bounce (4), adds a member of the digest (5), removes a member (6), delivers a post (7), delivers a
/// request to join (8), reports an entry of the queue as sent (9), or is a timed run (0).
#[derive(Drop)]
pub struct Generated {
    local: Buffer,
    host: Buffer,
    // The number of the item after the one that is held, and how many items there are from it on.
    next: u64,
    ahead: u64,
    // The item that is held, and how many of its bytes are taken.
    item: Buffer,
    at: usize,
    ghost local_fits: { length local ≤ 60 },
    ghost host_fits: { length host ≤ 255 },
    ghost few: { next + ahead ≤ 1_000_000 },
    ghost within: { at ≤ length item },
    ghost short: { length item ≤ 1024 },
    ghost room: { length (left_of local host item at next ahead) < 2 ^ 64 },
}

impl Generated {
    ghost use Rattle.ml_generated.specs.Generated.{generated_left};

    /// The items 1 to `n` for a list with this local part and host, of which it keeps copies. The local part has at most 60 bytes, the host
    /// at most 255, and `n` is at most 999,999.
    pub fn new(local: &[u8], host: &[u8], n: u64) -> Generated
        requires local { length local.now ≤ 60 }
        requires host { length host.now ≤ 255 }
        requires count { n ≤ 999_999 }
        ensures { generated_left result ≡ stream_text (generated local.now host.now n) }
    {
        let mut own_local = Buffer::new();
        own_local.put(local);
        let mut own_host = Buffer::new();
        own_host.put(host);
        Generated {
            local: own_local,
            host: own_host,
            next: 1,
            ahead: n,
            item: Buffer::new(),
            at: 0,
        }
    }

    // Holds the next item if the one that is held is taken whole.
    fn turn(&mut self)
        ensures left { generated_left self.new ≡ generated_left self.old }
        ensures end { self.new.at ≡ length self.new.item → self.new.ahead ≡ 0 }
    {
        if self.at == self.item.len() && 0 < self.ahead {
            self.item = item(self.local.as_slice(), self.host.as_slice(), self.next);
            self.at = 0;
            self.next += 1;
            self.ahead -= 1;
        }
    }
}

impl Source for Generated {
    ghost use Rattle.ml_generated.specs.Generated.{generated_left};

    ghost left = { λ s. Some (generated_left s) };

    ghost faults = { λ _. 0 };

    fn read(&mut self, buf: &mut [u8]) -> Result<usize, Failed> {
        self.turn();
        let left = &self.item.as_slice()[self.at..];
        let count = left.len().min(buf.len());
        buf[..count].copy_from_slice(&left[..count]);
        self.at += count;
        Ok(count)
    }

    ghost room = { λ s bytes is. left-room 0 (generated_left s) bytes s.room is };
}
