// Cuts a digest at one of its lines; each line ends in an LF.
ghost use Rattle.std.specs.Prelude.{◌≡◌, ◌+◌, ◌<◌, false, length, IfSome, IfNone};
ghost use Rattle.ml_base.specs.Splits.{has_byte};
ghost use Rattle.ml_digest.specs.Reading.{IsCut, HasNoCut};

use ml_base::split_first;

// The lines before the first line that is `wanted`, and what comes after it; or None if there is no such line, or the
// line `barred` comes before it.
pub(crate) fn split_at_line<'a>(
    text: &'a [u8],
    wanted: &[u8],
    barred: &[u8],
) -> Option<(&'a [u8], &'a [u8])>
    requires { has_byte 10 wanted.now ≡ false }
    ensures some { IfSome result (λ p. IsCut wanted.now barred.now text.now p.0.now p.1.now) }
    ensures none { IfNone result (HasNoCut wanted.now barred.now text.now) }
    ensures shorter { IfSome result (λ p. length p.0.now + length p.1.now < length text.now) }
{
    let mut rest = text;
    while let Some((line, more)) = split_first(b'\n', rest) {
        if line == wanted {
            return Some((&text[..text.len() - rest.len()], more));
        }
        if line == barred {
            return None;
        }
        rest = more;
    }
    None
}
