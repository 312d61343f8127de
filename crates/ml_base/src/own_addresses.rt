// Which addresses belong to the list itself: LOCAL@HOST and LOCAL-anything@HOST.
ghost use Rattle.std.specs.Prelude.{◌≡◌};
ghost use Rattle.std.specs.Str.{str_eq_ignore_ascii_case};
ghost use Rattle.ml_base.specs.Own as own;

use crate::split_last;

/// Whether a recipient is the list's own: LOCAL@HOST, or LOCAL, `-` and any rest before `@HOST`, in any case of ASCII
/// letters. The recipient is split at its last `@`. It takes no memory.
pub fn is_own(local: &[u8], host: &[u8], recipient: &[u8]) -> bool
    ensures { result ≡ own.is_own local.now host.now recipient.now }
{
    match split_last(b'@', recipient) {
        None => false,
        Some((before, after)) => is_alike(host, after) && is_own_local(local, before),
    }
}

// Whether a part before the `@` is LOCAL, or LOCAL and `-` and any rest.
fn is_own_local(local: &[u8], before: &[u8]) -> bool
    ensures { result ≡ own.is_own_local local.now before.now }
{
    if before.len() < local.len() {
        return false;
    }
    let (front, rest) = before.split_at(local.len());
    is_alike(local, front) && is_own_rest(rest)
}

// Whether what follows LOCAL is nothing, or `-` and any rest.
fn is_own_rest(rest: &[u8]) -> bool
    ensures { result ≡ own.is_own_rest rest.now }
{
    match rest.first() {
        None => true,
        Some(byte) => *byte == b'-',
    }
}

// Whether two texts are the same if the case of ASCII letters is ignored.
fn is_alike(a: &[u8], b: &[u8]) -> bool
    ensures { result ≡ str_eq_ignore_ascii_case a.now b.now }
{
    a.eq_ignore_ascii_case(b)
}
