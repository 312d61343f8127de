// The files that calls go over, and the texts of what they answer.
use crate::table_call::NoAnswer;
use ml_base::{Bytes, Files, Layer, Name, Put, Txn};
use std::alloc::{AllocError, Global};
use trials_scripts::OnSite;

/// The files of a site in memory, under the puts of the calls so far.
pub(crate) type Parts = Layer<OnSite>;

/// Lays another text over a file.
pub(crate) fn lay_text(
    alloc: Global,
    parts: &mut Parts,
    name: Name,
    text: Bytes,
) -> Result<(), AllocError> {
    let mut txn = Txn::new(alloc);
    txn.push(Put {
        name,
        bytes: Some(text),
    })?;
    parts.lay(txn)
}

/// The bytes of a file, or `-` if it is absent.
pub(crate) fn file(alloc: Global, parts: &mut Parts, name: Name) -> Result<Bytes, NoAnswer> {
    if !name.is_in_table() || name.kind == 0 {
        return Err(NoAnswer::NoCall);
    }
    match parts.get(alloc, name) {
        Ok(Some(found)) => Ok(found),
        Ok(None) => word(alloc, b"-"),
        Err(error) => Err(NoAnswer::Part(error.into())),
    }
}

/// A text as it is.
pub(crate) fn word(alloc: Global, word: &[u8]) -> Result<Bytes, NoAnswer> {
    Ok(Bytes::from_slice(alloc, word)?)
}

/// Adds the digits of a number, and a byte after them.
pub(crate) fn push_number(out: &mut Bytes, number: u64, after: u8) -> Result<(), AllocError> {
    out.push_number(number)?;
    out.push(after)
}

/// A number on a line of its own, and then every put on a line, with its file's kind and place. The puts are laid.
pub(crate) fn drawn(
    alloc: Global,
    parts: &mut Parts,
    number: u64,
    txn: Txn,
) -> Result<Bytes, NoAnswer> {
    let mut out = Bytes::new(alloc);
    push_number(&mut out, number, b'\n')?;
    for put in txn.as_slice() {
        push_put(&mut out, put)?;
    }
    parts.lay(txn)?;
    Ok(out)
}

fn push_put(out: &mut Bytes, put: &Put) -> Result<(), AllocError> {
    push_number(out, u64::from(put.name.kind), b'/')?;
    push_number(out, put.name.at, b' ')?;
    match &put.bytes {
        Some(bytes) => out.extend(bytes.as_slice())?,
        None => out.push(b'-')?,
    }
    out.push(b'\n')
}

/// A line for every number.
pub(crate) fn lines(alloc: Global, numbers: &[u64]) -> Result<Bytes, NoAnswer> {
    let mut out = Bytes::new(alloc);
    for number in numbers {
        push_number(&mut out, *number, b'\n')?;
    }
    Ok(out)
}
