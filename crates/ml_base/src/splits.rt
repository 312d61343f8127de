// How a text is split: at a byte, or into lines.
ghost use Rattle.std.specs.Prelude.{◌≡◌, ◌+◌, ◌<◌, [], ◌∷◌, length, IfSome, MatchOption};
ghost use Rattle.std.specs.Option.{option_map};
ghost use Rattle.ml_base.specs.Bytes as bytes;
ghost use Rattle.ml_base.specs.Splits.{lines};
ghost use Rattle.ml_base.specs.Splits as splits;

use bstr::ByteSlice;
use memchr::{memchr, memrchr};

/// The parts before and after the first place of a byte, or None if it isn't there.
pub fn split_first(byte: u8, text: &[u8]) -> Option<(&[u8], &[u8])>
    ensures value { option_map (λ p. (p.0.now, p.1.now)) result ≡ splits.split_first byte text.now }
    ensures lengths { IfSome result (λ p. length p.0.now + length p.1.now + 1 ≡ length text.now) }
{
    match memchr(byte, text) {
        None => None,
        Some(at) => Some((&text[..at], &text[at + 1..])),
    }
}

/// The parts before and after the last place of a byte, or None if it isn't there.
pub fn split_last(byte: u8, text: &[u8]) -> Option<(&[u8], &[u8])>
    ensures value { option_map (λ p. (p.0.now, p.1.now)) result ≡ bytes.split_last byte text.now }
    ensures lengths { IfSome result (λ p. length p.0.now + length p.1.now + 1 ≡ length text.now) }
{
    match memrchr(byte, text) {
        None => None,
        Some(at) => Some((&text[..at], &text[at + 1..])),
    }
}

/// The first line of a text, with its LF if it has one, and what follows it; or None for an empty text.
pub fn split_line(text: &[u8]) -> Option<(&[u8], &[u8])>
    ensures value { MatchOption result (text.now ≡ []) (λ p. lines text.now ≡ p.0.now ∷ lines p.1.now) }
    ensures lengths { IfSome result (λ p. (0 < length p.0.now) × (length p.0.now + length p.1.now ≡ length text.now)) }
{
    match text.lines_with_terminator().next() {
        None => None,
        Some(line) => Some(text.split_at(line.len())),
    }
}
