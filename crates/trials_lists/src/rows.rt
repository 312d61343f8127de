// What is answered, as text, and the message when a row fails.
use ml_base::{Bytes, PartError};
use std::alloc::{AllocError, Global};
use std::test::Fail;

/// The text of a reply: its code and its number, as `1 7`.
pub fn reply_text(alloc: Global, code: u8, number: u64) -> Result<Bytes, AllocError> {
    let text = format!(in alloc; "{code} {number}")?;
    Bytes::from_slice(alloc, text.as_bytes())
}

/// The text of an error: `damaged`, the kind and the place of a file; or that a read failed, or that there was no memory.
pub fn error_text(alloc: Global, error: PartError) -> Result<Bytes, AllocError> {
    match error {
        PartError::Damaged(name) => {
            let text = format!(in alloc; "damaged {} {}", name.kind, name.at)?;
            Bytes::from_slice(alloc, text.as_bytes())
        }
        PartError::Fault => Bytes::from_slice(alloc, b"a read failed"),
        PartError::Memory => Bytes::from_slice(alloc, b"no memory"),
    }
}

// How many bytes two texts have in common at their beginning.
fn common(one: &[u8], other: &[u8]) -> usize {
    for (at, (a, b)) in one.iter().zip(other).enumerate() {
        if a != b {
            return at;
        }
    }
    one.len().min(other.len())
}

// At most 100 bytes of a text, from a place on.
fn shown(alloc: Global, text: &[u8], from: usize) -> Result<String, AllocError> {
    let rest = text.get(from..).unwrap_or(&[]);
    String::from_utf8_lossy(alloc, &rest[..rest.len().min(100)])
}

/// Fails if what came isn't what was wanted, and says which row of which table it was, the place of the first byte that differs, and up
/// to 100 bytes of both from 20 bytes before that on.
pub fn same(
    alloc: Global,
    table: &str,
    row: usize,
    came: &[u8],
    wanted: &[u8],
) -> Result<(), Fail> {
    if came == wanted {
        return Ok(());
    }
    let at = common(came, wanted);
    let from = at.saturating_sub(20);
    let came = shown(alloc, came, from)?;
    let wanted = shown(alloc, wanted, from)?;
    Err(Fail::new(format_args!(
        "{table}, row {row}, byte {at}: came \"{came}\", wanted \"{wanted}\""
    )))
}
