// Where bytes come from, and what tells the time: the traits `Source` and `Clock`.
ghost use Rattle.std.specs.Prelude.{◌≡◌, ◌<◌, ◌≤◌, ◌^◌, List, ℕ, Option, Some, None, IfOk, IfSome, OnErr, length};
ghost use Rattle.ml_base.specs.Faults.{HasCause};
ghost use Rattle.ml_site.specs.Source.{Takes};

use crate::Failed;

/// Where bytes come from, like standard input.
pub trait Source {
    /// The bytes left to read, or None if it doesn't say.
    ghost left: { Self → Option (List ℕ) };

    /// How often a read has failed.
    ghost faults: { Self → ℕ };

    /// Reads bytes to the beginning of the buffer, and answers how many: at most the buffer's length.
    /// 0 for a buffer that isn't empty means the end, and comes exactly if no byte is left.
    /// `Failed` comes only if the count of faults rose, and then no byte was taken.
    fn read(&mut self, buf: &mut [u8]) -> Result<usize, Failed>
        ensures bound { IfOk result (λ count. count ≤ length buf.old) }
        ensures taken { IfSome (left self.old) (λ left_before.
            IfOk result (λ count. Takes left_before (left self.new) buf.new count)) }
        ensures refused { OnErr result (left self.new ≡ left self.old) }
        ensures untold { left self.old ≡ None → left self.new ≡ None }
        ensures cause { HasCause (faults self.old) (faults self.new) result };

    /// Their number is below 2^64.
    ghost room: { (source : Self) (bytes : List ℕ) → left source ≡ Some bytes → length bytes < 2 ^ 64 };
}

/// A clock.
pub trait Clock {
    /// The time that it shows, or None if it doesn't say.
    ghost shows: { Self → Option ℕ };

    /// How often it has failed.
    ghost faults: { Self → ℕ };

    /// The time, in seconds since 1970-01-01 00:00 UTC. It is below 253,402,300,800, where the year 10000 begins.
    /// `Failed` comes only if the count of faults rose.
    fn now(&mut self) -> Result<u64, Failed>
        ensures range { IfOk result (λ moment. moment < 253402300800) }
        ensures shown { IfSome (shows self.old) (λ shown. IfOk result (λ moment. moment ≡ shown)) }
        ensures cause { HasCause (faults self.old) (faults self.new) result };
}
