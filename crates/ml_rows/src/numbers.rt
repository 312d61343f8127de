// Numbers joined by commas: how they are read and written.
ghost use Rattle.std.specs.Prelude.{◌≡◌, ◌++◌, IfOk, OnOk};
ghost use Rattle.ml_rows.specs.Values.{comma_text, comma_numbers};

use ml_base::{Bytes, LAST_POST_NUMBER, Numbers, number_within, split_first};
use std::alloc::{AllocError, Global};

/// The numbers of posts, 0 to 99,999,999, that a text spells in decimal with commas between them, or None for other texts.
/// An empty text spells none.
pub fn numbers_of(alloc: Global, text: &[u8]) -> Result<Option<Numbers>, AllocError>
    ensures { IfOk result (λ r. r ≡ comma_numbers 99_999_999 text.now) }
{
    let mut out = Numbers::new(alloc);
    if text.is_empty() {
        return Ok(Some(out));
    }
    let mut rest = text;
    while let Some((digits, more)) = split_first(b',', rest) {
        let Some(number) = number_within(LAST_POST_NUMBER, digits) else {
            return Ok(None);
        };
        out.push(number)?;
        rest = more;
    }
    let Some(number) = number_within(LAST_POST_NUMBER, rest) else {
        return Ok(None);
    };
    out.push(number)?;
    Ok(Some(out))
}

/// Adds numbers in decimal, with commas between them.
pub fn push_numbers(out: &mut Bytes, numbers: &[u64]) -> Result<(), AllocError>
    ensures { OnOk result (out.new ≡ out.old ++ comma_text numbers.now) }
{
    let [first, more @ ..] = numbers else {
        return Ok(());
    };
    out.push_number(*first)?;
    let mut rest = more;
    while let [number, more @ ..] = rest {
        out.push(b',')?;
        out.push_number(*number)?;
        rest = more;
    }
    Ok(())
}
