// Netstrings, which are read and written in the form of Bernstein's note: `len:bytes,`.
ghost use Rattle.std.specs.Prelude.{◌≡◌, ◌≤◌, ◌<◌, ◌+◌, ◌++◌, take, drop, length, slice_range, IfSome, OnOk, OnErr};
ghost use Rattle.std.specs.Fmt.{decimal};
ghost use Rattle.std.specs.Option.{option_map};
ghost use Rattle.ml_base.specs.Netstrings.{netstring_at, length_from, ns};

use crate::{Bytes, LARGEST_READ, is_next_digit, write_number};
use std::alloc::AllocError;

/// Where a netstring stands in a byte string: its content from `from` up to `to`, and what follows its comma from `next` on.
#[derive(Clone, Copy, Debug, PartialEq, Eq)]
pub struct Span {
    pub from: usize,
    pub to: usize,
    pub next: usize,
}

/// The netstring that begins at a place, or None if none begins there. It takes no memory.
pub fn read_netstring(bytes: &[u8], at: usize) -> Option<Span>
    ensures value { option_map (λ s. (slice_range bytes.now s.from s.to, drop s.next bytes.now)) result ≡ netstring_at (drop at bytes.now) }
    ensures places { IfSome result (λ s. (at < s.from) × (s.from ≤ s.to) × (s.to + 1 ≡ s.next) × (s.next ≤ length bytes.now)) }
{
    if at > bytes.len() {
        return None;
    }
    let (size, head) = read_length(&bytes[at..])?;
    let from = at + head;
    if size >= (bytes.len() - from) as u64 {
        return None;
    }
    let to = from + size as usize;
    if bytes[to] != b',' {
        return None;
    }
    Some(Span {
        from,
        to,
        next: to + 1,
    })
}

/// The content of the netstring that a text begins with, and the bytes after it, or None if the text begins with none.
/// It takes no memory.
pub fn split_netstring(text: &[u8]) -> Option<(&[u8], &[u8])>
    ensures value { option_map (λ p. (p.0.now, p.1.now)) result ≡ netstring_at text.now }
    ensures shorter { IfSome result (λ p. length p.1.now < length text.now) }
{
    let span = read_netstring(text, 0)?;
    Some((&text[span.from..span.to], &text[span.next..]))
}

// The length that bytes begin with, and the place after its colon.
fn read_length(bytes: &[u8]) -> Option<(u64, usize)>
    ensures value { option_map (λ r. (r.0, drop r.1 bytes.now)) result ≡ length_from 999_999_999_999_999_999 0 0 bytes.now }
    ensures place { IfSome result (λ r. (0 < r.1) × (r.1 ≤ length bytes.now)) }
{
    let mut n: u64 = 0;
    for (i, byte) in bytes.iter().enumerate() {
        if *byte == b':' {
            return if i == 0 { None } else { Some((n, i + 1)) };
        }
        if !is_next_digit(LARGEST_READ, i, n, *byte) {
            return None;
        }
        n = 10 * n + (*byte - b'0') as u64;
    }
    None
}

/// Adds the netstring of a content at the end. An error changes nothing.
pub fn push_netstring(out: &mut Bytes, content: &[u8]) -> Result<(), AllocError>
    ensures ok { OnOk result (out.new ≡ out.old ++ ns content.now) }
    ensures err { OnErr result (out.new ≡ out.old) }
{
    let used = out.len();
    if add_netstring(out, content).is_err() {
        out.truncate(used);
        return Err(AllocError);
    }
    Ok(())
}

/// Adds the netstring of a number's decimal digits at the end. An error changes nothing.
pub fn push_number_netstring(out: &mut Bytes, number: u64) -> Result<(), AllocError>
    ensures ok { OnOk result (out.new ≡ out.old ++ ns (decimal number)) }
    ensures err { OnErr result (out.new ≡ out.old) }
{
    let mut digits = [0u8; 20];
    let len = write_number(number, &mut digits);
    push_netstring(out, &digits[..len])
}

// Adds the netstring of a content at the end. An error leaves a part of it there.
fn add_netstring(out: &mut Bytes, content: &[u8]) -> Result<(), AllocError>
    ensures ok { OnOk result (out.new ≡ out.old ++ ns content.now) }
    ensures front { take (length out.old) out.new ≡ out.old }
{
    let mut digits = [0u8; 20];
    let len = write_number(content.len() as u64, &mut digits);
    out.extend(&digits[..len])?;
    out.push(b':')?;
    out.extend(content)?;
    out.push(b',')
}
