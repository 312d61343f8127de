// Members of sets.
use crate::{Texts, add};
use ml_base::{Bytes, Name, Set, hash_lower};
use std::alloc::{AllocError, Global};

/// The address of a number below 10,000: `u` and its four digits, at `h`.
pub fn numbered(alloc: Global, number: u64) -> Result<Bytes, AllocError> {
    let mut address = Bytes::from_slice(alloc, b"u")?;
    for unit in [1000, 100, 10, 1u64] {
        address.push(b"0123456789"[(number / unit % 10) as usize])?;
    }
    address.extend(b"@h")?;
    Ok(address)
}

/// Adds the record of a member to its bucket, after those that are there. The count stays as it is.
pub fn add_member(
    alloc: Global,
    texts: &mut Texts,
    set: Set,
    who: &[u8],
) -> Result<(), AllocError> {
    let bucket = Name {
        kind: set.kind(),
        at: hash_lower(who) as u64 % 53,
    };
    let mut record = Bytes::from_slice(alloc, b"T")?;
    record.extend(who)?;
    record.push(0)?;
    add(alloc, texts, bucket, record.as_slice())
}

/// Adds the addresses of all numbers below this one to a set.
pub fn add_members(alloc: Global, texts: &mut Texts, set: Set, end: u64) -> Result<(), AllocError> {
    for number in 0..end {
        add_member(alloc, texts, set, numbered(alloc, number)?.as_slice())?;
    }
    Ok(())
}
