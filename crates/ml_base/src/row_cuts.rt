// How many posts one answer or digest has, by their sizes.
ghost use Rattle.std.specs.Prelude.{◌≡◌, ◌≤◌, length};
ghost use Rattle.ml_base.specs.Cuts.{within, one_or_within};

/// The most posts that one answer or digest has.
pub const MAX_POSTS: usize = 100;

// The most bytes that they have together, if there is more than one.
const MAX_BYTES: u64 = 4_194_304;

/// How many of the first posts of a row one answer or digest has. `sizes` are their sizes in bytes. It has at most 100
/// posts, of at most 4,194,304 bytes together, but always the first one.
pub fn cut_len(sizes: &[u64]) -> usize
    ensures value { result ≡ length (one_or_within (λ size. size) 100 4_194_304 sizes.now) }
    ensures few { result ≤ 100 }
    ensures long { result ≤ length sizes.now }
{
    let [first, more @ ..] = sizes else {
        return 0;
    };
    if *first > MAX_BYTES {
        return 1;
    }
    1 + within_len(MAX_POSTS - 1, MAX_BYTES - *first, more)
}

// How many of a row of sizes are at most `count` and fit into `room` together.
fn within_len(count: usize, room: u64, sizes: &[u64]) -> usize
    ensures value { result ≡ length (within (λ size. size) count room sizes.now) }
    ensures few { result ≤ count }
    ensures long { result ≤ length sizes.now }
{
    let mut room = room;
    let mut left = count;
    let mut taken = 0;
    let mut rest = sizes;
    while let [size, more @ ..] = rest {
        if left == 0 || *size > room {
            return taken;
        }
        left -= 1;
        room -= *size;
        taken += 1;
        rest = more;
    }
    taken
}
