// Envelope senders that name their recipients (Bernstein's VERP): written for a copy, and read from a bounce.
ghost use Rattle.std.specs.Prelude.{◌≡◌, ◌++◌, IfOk, OnOk};
ghost use Rattle.ml_address.specs.Paths as spec;

use crate::Path;
use crate::request_reader::who_of;
use ml_base::{Address, Bytes};
use std::alloc::{AllocError, Global};

/// The envelope sender of a copy to this recipient: `base`, then the recipient with `=` for its `@` if `each` is set,
/// then `@` and `host` (Bernstein's note on VERP). The only error is lack of memory.
pub fn verp(alloc: Global, path: &Path, to: &Address) -> Result<Bytes, AllocError>
    ensures { IfOk result (λ sender. sender ≡ spec.verp path.now to.now) }
{
    let mut sender = Bytes::with_capacity(alloc, sender_len(path, to))?;
    sender.extend(path.base.as_slice())?;
    if path.each {
        add_with_equals(&mut sender, to)?;
    }
    sender.push(b'@')?;
    sender.extend(path.host.as_slice())?;
    Ok(sender)
}

// The most bytes that the envelope sender of a copy can have.
fn sender_len(path: &Path, to: &Address) -> usize {
    path.base
        .len()
        .saturating_add(to.bytes().len())
        .saturating_add(path.host.len())
        .saturating_add(1)
}

// Adds an address with `=` for its `@`.
fn add_with_equals(out: &mut Bytes, address: &Address) -> Result<(), AllocError>
    ensures { OnOk result (out.new ≡ out.old ++ spec.with_equals address.now) }
{
    out.extend(address.local())?;
    out.push(b'=')?;
    out.extend(address.host())
}

/// The place of the last `=`, or None if the text with `@` for that `=` is no address. It takes no memory.
pub fn unverp(text: &[u8]) -> Option<usize>
    ensures { result ≡ spec.unverp text.now }
{
    let who = who_of(text)?;
    Some(who.local.len())
}
