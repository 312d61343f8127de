// Lists of missed numbers: whether they have a number, or one twice.
ghost use Rattle.std.specs.Prelude.{◌≡◌, ◌==◌};
ghost use Rattle.std.specs.List.{list_any};
ghost use Rattle.ml_bounce.specs.Files as files;

// Whether a number is among others.
pub(crate) fn has_number(numbers: &[u64], number: u64) -> bool
    ensures { result ≡ list_any (λ n. n == number) numbers.now }
{
    numbers.iter().any(|n| *n == number)
}

// Whether no number occurs twice.
pub(crate) fn are_distinct(numbers: &[u64]) -> bool
    ensures { result ≡ files.are_distinct numbers.now }
{
    let mut rest = numbers;
    while let [number, more @ ..] = rest {
        if has_number(more, *number) {
            return false;
        }
        rest = more;
    }
    true
}
