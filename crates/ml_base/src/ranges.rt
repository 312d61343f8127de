// The ranges of numbers that files, streams and requests share.
ghost use Rattle.std.specs.Prelude.{◌≡◌, ◌↔◌, IsTrue};
ghost use Rattle.ml_base.specs.Ranges.{IsMoment};
ghost use Rattle.ml_base.specs.Ranges as ranges;

/// The last moment that can be written and read, in seconds since 1970: the last second of the year 9999.
pub const LAST_MOMENT: u64 = 253_402_300_799;

/// The largest number of a post or of a digest. The first has number 1.
pub const LAST_POST_NUMBER: u64 = 99_999_999;

/// The largest number that is drawn for a held post or a queue entry. The first is 1.
pub const LAST_DRAWN: u64 = 1_000_000_000_000_000;

/// The largest number of an item: twelve digits. An item without a number has 0.
pub const LAST_ITEM: u64 = 999_999_999_999;

/// The longest sender or recipient of an item, in bytes.
pub const LONGEST_PATH: u32 = 1000;

/// The longest message of an item, in bytes: 32 MiB, which an answer and its log hold in memory at once.
pub const LONGEST_MESSAGE: u32 = 33_554_432;

/// The longest size of a post that an index can give, in bytes. No message is as long, even with what a list adds to it.
pub const LONGEST_POST: u64 = 4_294_967_295;

/// The largest number that is read from decimal digits: it has eighteen of them, and fits any machine's word.
pub const LARGEST_READ: u64 = 999_999_999_999_999_999;

/// Whether a number is a moment that can be written and read: seconds since 1970, before the year 10000.
pub fn is_moment(n: u64) -> bool
    ensures test { result ≡ ranges.is_moment n }
    ensures moment { IsTrue result ↔ IsMoment n }
{
    n <= LAST_MOMENT
}

/// Whether a number may be a post's or a digest's: 1 to 99,999,999.
pub fn is_post_number(n: u64) -> bool
    ensures { result ≡ ranges.is_post_number n }
{
    1 <= n && n <= LAST_POST_NUMBER
}

/// Whether a number may be drawn for a held post or a queue entry: 1 to 10^15.
pub fn is_drawn(n: u64) -> bool
    ensures { result ≡ ranges.is_drawn n }
{
    1 <= n && n <= LAST_DRAWN
}
