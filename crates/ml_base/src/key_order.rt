// The order in which addresses are sorted: by their keys.
ghost use Rattle.std.specs.Prelude.{◌≡◌};
ghost use Rattle.ml_base.specs.Address.{key};
ghost use Rattle.ml_base.specs.Sorted.{byte_cmp};
ghost use Rattle.ml_base.specs.Keys as keys;

use std::cmp::Ordering;

/// How the keys of two addresses compare: byte by byte in lower case, the first difference decides, and a shorter key
/// comes before one that goes on. It takes no memory.
pub fn compare_keys(a: &[u8], b: &[u8]) -> Ordering
    ensures { result ≡ byte_cmp (key a.now) (key b.now) }
{
    let mut left = a;
    let mut right = b;
    while let [x, more @ ..] = left {
        let [y, rest @ ..] = right else {
            return Ordering::Greater;
        };
        let order = x.to_ascii_lowercase().cmp(&y.to_ascii_lowercase());
        if order != Ordering::Equal {
            return order;
        }
        left = more;
        right = rest;
    }
    if right.is_empty() {
        Ordering::Equal
    } else {
        Ordering::Less
    }
}

/// Whether the key of one address is below that of another.
pub fn is_below(a: &[u8], b: &[u8]) -> bool
    ensures { result ≡ keys.is_below a.now b.now }
{
    compare_keys(a, b) == Ordering::Less
}
