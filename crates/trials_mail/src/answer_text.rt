// Adds what calls answer to a text. These functions own little, so if something in them fails, little is left to be dropped.
use ml_base::Bytes;
use std::alloc::{AllocError, Global};
use std::fmt::Debug;

/// Adds a value as its `Debug` prints it.
pub(crate) fn push_debug<T: Debug>(
    alloc: Global,
    out: &mut Bytes,
    value: &T,
) -> Result<(), AllocError> {
    let text = format!(in alloc; "{value:?}")?;
    out.extend(text.as_bytes())
}

/// Adds a word, and a value.
pub(crate) fn push_one<T: Debug>(
    alloc: Global,
    out: &mut Bytes,
    word: &[u8],
    value: &T,
) -> Result<(), AllocError> {
    out.extend(word)?;
    out.push(b' ')?;
    push_debug(alloc, out, value)
}

/// Adds a word, and two values.
pub(crate) fn push_two<T: Debug, U: Debug>(
    alloc: Global,
    out: &mut Bytes,
    word: &[u8],
    first: &T,
    second: &U,
) -> Result<(), AllocError> {
    push_one(alloc, out, word, first)?;
    push_one(alloc, out, b"", second)
}

/// Adds `true` or `false`.
pub(crate) fn push_bool(out: &mut Bytes, is_so: bool) -> Result<(), AllocError> {
    if is_so {
        out.extend(b"true")
    } else {
        out.extend(b"false")
    }
}
