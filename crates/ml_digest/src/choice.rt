// Decides when a digest is due, and which posts it has.
ghost use Rattle.std.specs.Prelude.{◌≡◌, ◌==◌, ◌≤◌, ◌<◌, ◌-◌, not, ◌&&◌, ◌||◌, nat_le, length, sum, IfSome, EachIndex, slice_index};
ghost use Rattle.ml_digest.specs.Due as words;
ghost use Rattle.ml_digest.specs.Due.{IsNextRange};

use crate::{Mark, Range};
use ml_base::{age, cut_len};

// A digest is due for so many posts, or so many bytes, or a post that is so many seconds old.
const POSTS: usize = 30;

const BYTES: u64 = 65_536;

const SECONDS: u64 = 172_800;

// The most posts and bytes of posts in a digest.
/// The posts of the digest that is due, or None if none is. `sizes` are the bytes of the first 100 posts after the
/// mark, or of all if there are fewer, `oldest` is the moment of the first of them, and `now` the current one, both in
/// seconds since 1970.
///
/// A digest is due if there are 30 posts, or they have 65,536 bytes together, or the first is 172,800 seconds old. It
/// has as many of them as have at most 4,194,304 bytes together, but always the first one. It takes no memory.
pub fn due(mark: &Mark, sizes: &[u64], oldest: u64, now: u64) -> Option<Range>
    requires count { length sizes.now ≤ 100 }
    requires each { EachIndex sizes.now (λ k. slice_index sizes.now k < 4_294_967_296) }
    requires last { mark.now.last ≤ 99_999_999 }
    ensures value { result ≡ words.due mark.now.last sizes.now oldest now }
    ensures range { IfSome result (IsNextRange mark.now.last sizes.now) }
{
    if !is_due(sizes, oldest, now) {
        return None;
    }
    Some(Range {
        first: mark.last + 1,
        last: mark.last + cut_len(sizes) as u64,
    })
}

// Whether a digest is due.
fn is_due(sizes: &[u64], oldest: u64, now: u64) -> bool
    requires count { length sizes.now ≤ 100 }
    requires each { EachIndex sizes.now (λ k. slice_index sizes.now k < 4_294_967_296) }
    ensures { result ≡ (not (length sizes.now == 0) && (nat_le 30 (length sizes.now) || nat_le 65_536 (sum sizes.now) || nat_le 172_800 (now - oldest))) }
{
    !sizes.is_empty()
        && (sizes.len() >= POSTS || total(sizes) >= BYTES || age(now, oldest) >= SECONDS)
}

// The bytes of all posts together.
fn total(sizes: &[u64]) -> u64
    requires count { length sizes.now ≤ 100 }
    requires each { EachIndex sizes.now (λ k. slice_index sizes.now k < 4_294_967_296) }
    ensures { result ≡ sum sizes.now }
{
    let mut total = 0;
    for size in sizes {
        total += *size;
    }
    total
}
