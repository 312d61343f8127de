// Adds what calls answer to a text. These functions own nothing, so if something in them fails, nothing is left to be dropped.
use ml_base::Bytes;
use std::alloc::{AllocError, Global};
use std::fmt::Debug;

/// Adds a value as its `Debug` prints it.
pub(crate) fn push_debug<T: Debug>(
    alloc: Global,
    out: &mut Bytes,
    value: &T,
) -> Result<(), AllocError> {
    let text = format!(in alloc; "{value:?}")?;
    out.extend(text.as_bytes())
}

/// Adds `true` or `false`.
pub(crate) fn push_bool(out: &mut Bytes, is_so: bool) -> Result<(), AllocError> {
    if is_so {
        out.extend(b"true")
    } else {
        out.extend(b"false")
    }
}

/// Adds texts, each with a `|` after it.
pub(crate) fn push_texts(out: &mut Bytes, texts: &[&[u8]]) -> Result<(), AllocError> {
    for text in texts {
        out.extend(text)?;
        out.push(b'|')?;
    }
    Ok(())
}

/// Adds two texts, each with a `|` after it, or `none`.
pub(crate) fn push_pair(out: &mut Bytes, found: Option<(&[u8], &[u8])>) -> Result<(), AllocError> {
    match found {
        Some((first, second)) => push_texts(out, &[first, second]),
        None => out.extend(b"none"),
    }
}
