// The numbers of posts: whether they rise, and how many posts there are.
ghost use Rattle.std.specs.Prelude.{◌≡◌, IfOk, true};
ghost use Rattle.std.specs.Ordering.{nat_cmp};
ghost use Rattle.ml_base.specs.Sorted.{is_sorted};
ghost use Rattle.ml_keyed.specs.Records as records;
ghost use Rattle.ml_filing.specs.Archive.{number_text};
ghost use Rattle.ml_filing.specs.Reading.{count_in};

use ml_base::{Bytes, LAST_POST_NUMBER, number_within, split_first};
use std::alloc::{AllocError, Global};

// Whether a number is below the first of some others.
fn is_below_first(number: u64, numbers: &[u64]) -> bool
    ensures { result ≡ records.is_below_first nat_cmp (λ m. m) number numbers.now }
{
    match numbers {
        [] => true,
        [first, ..] => number < *first,
    }
}

// Whether numbers are in ascending order.
pub(crate) fn are_rising(numbers: &[u64]) -> bool
    ensures { result ≡ is_sorted nat_cmp (λ m. m) numbers.now }
{
    let mut rest = numbers;
    while let [first, more @ ..] = rest {
        if !is_below_first(*first, more) {
            return false;
        }
        rest = more;
    }
    true
}

// The number of posts that a text spells, on a line of its own.
pub(crate) fn count_of(text: &[u8]) -> Option<u64>
    ensures { result ≡ count_in text.now }
{
    let (digits, rest) = split_first(b'\n', text)?;
    if rest.is_empty() {
        number_within(LAST_POST_NUMBER, digits)
    } else {
        None
    }
}

// The text that spells a number of posts.
pub(crate) fn count_text(alloc: Global, count: u64) -> Result<Bytes, AllocError>
    ensures { IfOk result (λ text. text ≡ number_text count) }
{
    let mut out = Bytes::new(alloc);
    out.push_number(count)?;
    out.push(b'\n')?;
    Ok(out)
}
