// A source and a clock in memory, for tests, whose calls fail when they are told to.
ghost use Rattle.std.specs.Prelude.{◌≡◌, ◌<◌, ◌≤◌, ◌^◌, ◌↔◌, min, length, drop, Some, IfOk, IsErr, OnErr, Contains};
ghost use Rattle.ml_base.specs.Faults.{HasCause, next_call};
ghost use Rattle.ml_site.specs.Source.{Takes, left-room};

use crate::{Clock, Failed, Source};
use ml_base::{Bytes, FaultPlan, Numbers};

/// A source of bytes in memory. Every read gives as many of them as fit.
#[derive(Drop)]
pub struct MemSource {
    bytes: Bytes,
    at: usize,
    plan: FaultPlan,
    faults: u64,
    ghost within: { at ≤ length bytes },
    ghost room: { length bytes < 2 ^ 64 },
}

impl MemSource {
    ghost use Rattle.ml_site.specs.Streams.{mem_left, source_faults, source_failing, source_made};

    /// A source of these bytes. `fail` names the reads, counted from 1, that are to fail. It takes no memory.
    pub fn new(bytes: Bytes, fail: Numbers) -> MemSource
        ensures left { mem_left result ≡ bytes }
        ensures faults { source_faults result ≡ 0 }
        ensures failing { source_failing result ≡ fail }
        ensures made { source_made result ≡ 0 }
    {
        // Their number fits in 64 bits.
        let _len = bytes.len();
        MemSource {
            bytes,
            at: 0,
            plan: FaultPlan::new(fail),
            faults: 0,
        }
    }
}

impl Source for MemSource {
    ghost use Rattle.ml_site.specs.Streams.{mem_left, source_faults, source_failing, source_made};

    ghost left = { λ s. Some (drop s.at s.bytes) };

    ghost faults = { λ s. s.faults };

    /// It fails exactly if the number of this read is named.
    fn read(&mut self, buf: &mut [u8]) -> Result<usize, Failed>
        ensures bound { IfOk result (λ count. count ≤ length buf.old) }
        ensures taken { IfOk result (λ count. Takes (mem_left self.old) (Some (mem_left self.new)) buf.new count) }
        ensures refused { OnErr result (mem_left self.new ≡ mem_left self.old) }
        ensures count { IfOk result (λ count. count ≡ min (length (mem_left self.old)) (length buf.old)) }
        ensures cause { HasCause (source_faults self.old) (source_faults self.new) result }
        ensures named { IsErr result ↔ Contains (source_failing self.old) (source_made self.new) }
        ensures made { source_made self.new ≡ next_call (source_made self.old) }
        ensures failing { source_failing self.new ≡ source_failing self.old }
    {
        if self.plan.fails() {
            self.faults = self.faults.saturating_add(1);
            return Err(Failed);
        }
        let left = &self.bytes.as_slice()[self.at..];
        let count = left.len().min(buf.len());
        buf[..count].copy_from_slice(&left[..count]);
        self.at += count;
        Ok(count)
    }

    ghost room = { λ s bytes is. left-room s.at s.bytes bytes s.room is };
}

/// A clock that always shows the same moment.
#[derive(Drop)]
pub struct MemClock {
    moment: u64,
    plan: FaultPlan,
    faults: u64,
    ghost range: { moment < 253402300800 },
}

impl MemClock {
    ghost use Rattle.ml_site.specs.Streams.{mem_shows, clock_faults, clock_failing, clock_made};

    /// A clock that shows `now`, in seconds since 1970-01-01 00:00 UTC. `fail` names the calls, counted from 1,
    /// that are to fail. It takes no memory.
    pub fn new(now: u64, fail: Numbers) -> MemClock
        requires { now < 253402300800 }
        ensures shows { mem_shows result ≡ now }
        ensures faults { clock_faults result ≡ 0 }
        ensures failing { clock_failing result ≡ fail }
        ensures made { clock_made result ≡ 0 }
    {
        MemClock {
            moment: now,
            plan: FaultPlan::new(fail),
            faults: 0,
        }
    }
}

impl Clock for MemClock {
    ghost use Rattle.ml_site.specs.Streams.{mem_shows, clock_faults, clock_failing, clock_made};

    ghost shows = { λ s. Some s.moment };

    ghost faults = { λ s. s.faults };

    /// It fails exactly if the number of this call is named.
    fn now(&mut self) -> Result<u64, Failed>
        ensures range { IfOk result (λ moment. moment < 253402300800) }
        ensures shown { IfOk result (λ moment. moment ≡ mem_shows self.old) }
        ensures cause { HasCause (clock_faults self.old) (clock_faults self.new) result }
        ensures named { IsErr result ↔ Contains (clock_failing self.old) (clock_made self.new) }
        ensures made { clock_made self.new ≡ next_call (clock_made self.old) }
        ensures failing { clock_failing self.new ≡ clock_failing self.old }
        ensures shows { mem_shows self.new ≡ mem_shows self.old }
    {
        if self.plan.fails() {
            self.faults = self.faults.saturating_add(1);
            return Err(Failed);
        }
        Ok(self.moment)
    }
}
