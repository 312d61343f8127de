// Numbers in decimal digits: how they are read and written. Each has one spelling.
ghost use Rattle.std.specs.Prelude.{◌≡◌, ◌-◌, ◌^◌, ◌≤◌, ◌<◌, take, drop};
ghost use Rattle.std.specs.Fmt.{decimal};
ghost use Rattle.ml_base.specs.Numbers.{number_of};
ghost use Rattle.ml_base.specs.Numbers as numbers;

use crate::LARGEST_READ;

/// `now - then` in seconds, or 0 if `then` is later.
pub fn age(now: u64, then: u64) -> u64
    ensures { result ≡ now - then }
{
    now.saturating_sub(then)
}

/// Whether a byte is a digit that continues a number with `count` digits so far and the value `n`, and keeps it within a limit.
/// No digit follows a leading zero.
pub fn is_next_digit(limit: u64, count: usize, n: u64, byte: u8) -> bool
    requires limit { limit < 10 ^ 18 }
    requires n { n ≤ limit }
    ensures { result ≡ numbers.is_next_digit limit count n byte }
{
    byte.is_ascii_digit() && !(count == 1 && n == 0) && 10 * n + (byte - b'0') as u64 <= limit
}

/// The number that a text spells in decimal without a leading zero, up to the limit, or None if it spells none.
pub fn number_within(limit: u64, text: &[u8]) -> Option<u64>
    requires { limit < 10 ^ 18 }
    ensures { result ≡ numbers.number_within limit text.now }
{
    let mut n: u64 = 0;
    for (i, byte) in text.iter().enumerate() {
        if !is_next_digit(limit, i, n, *byte) {
            return None;
        }
        n = 10 * n + (*byte - b'0') as u64;
    }
    if text.is_empty() { None } else { Some(n) }
}

/// The number that a text spells, as `0` or as 1 to 18 digits without a leading zero, or None for any other text.
pub fn read_number(text: &[u8]) -> Option<u64>
    ensures { result ≡ number_of text.now }
{
    number_within(LARGEST_READ, text)
}

/// Writes the digits of a number at the beginning of `out`, and answers how many they are.
pub fn write_number(n: u64, out: &mut [u8; 20]) -> usize
    ensures fits { result ≤ 20 }
    ensures text { take result out.new ≡ decimal n }
    ensures rest { drop result out.new ≡ drop result out.old }
{
    let mut rest = n;
    let mut at: usize = 20;
    let mut digits = [0u8; 20];
    while rest >= 10 {
        at -= 1;
        digits[at] = b'0' + (rest % 10) as u8;
        rest /= 10;
    }
    at -= 1;
    digits[at] = b'0' + rest as u8;
    out[..20 - at].copy_from_slice(&digits[at..]);
    20 - at
}
