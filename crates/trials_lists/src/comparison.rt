// Compares the files that a call left with those that it should leave.
use crate::{Made, Texts, make, same, text_of};
use ml_base::Bytes;
use std::alloc::{AllocError, Global};
use std::collections::BTreeMap;
use std::test::Fail;

/// What a call should leave.
#[derive(Clone, Copy)]
pub enum Left<'a> {
    /// These files, and all others as they were.
    Only(&'a [Made<'a>]),
    /// These files, whatever the others are.
    Among(&'a [Made<'a>]),
}

/// The same files.
pub fn copy(alloc: Global, texts: &Texts) -> Result<Texts, AllocError> {
    let mut copy = BTreeMap::new(alloc);
    for (name, text) in texts.iter() {
        copy.insert(*name, Bytes::from_slice(alloc, text.as_slice())?)?;
    }
    Ok(copy)
}

// Fails if one of the wanted files is missing or has another text.
fn each_came(
    alloc: Global,
    table: &str,
    row: usize,
    came: &Texts,
    wanted: &Texts,
) -> Result<(), Fail> {
    for (name, text) in wanted.iter() {
        let found = text_of(came, *name);
        if found != text.as_slice() {
            let table = format!(in alloc; "{table}, file {} {}", name.kind, name.at)?;
            return same(alloc, table.as_str(), row, found, text.as_slice());
        }
    }
    Ok(())
}

// Fails if a file is there that isn't wanted, or has another text.
fn none_else(
    alloc: Global,
    table: &str,
    row: usize,
    came: &Texts,
    wanted: &Texts,
) -> Result<(), Fail> {
    for (name, text) in came.iter() {
        let wish = text_of(wanted, *name);
        if wish != text.as_slice() {
            let table = format!(in alloc; "{table}, file {} {}", name.kind, name.at)?;
            return same(alloc, table.as_str(), row, text.as_slice(), wish);
        }
    }
    Ok(())
}

/// Fails if a row, given the files before it, didn't leave what it should.
pub fn check_left(
    alloc: Global,
    table: &str,
    row: usize,
    before: &Texts,
    came: &Texts,
    left: &Left<'_>,
) -> Result<(), Fail> {
    match left {
        Left::Only(made) => {
            let mut wanted = copy(alloc, before)?;
            make(alloc, &mut wanted, made)?;
            each_came(alloc, table, row, came, &wanted)?;
            none_else(alloc, table, row, came, &wanted)
        }
        Left::Among(made) => {
            let mut wanted = BTreeMap::new(alloc);
            make(alloc, &mut wanted, made)?;
            each_came(alloc, table, row, came, &wanted)
        }
    }
}
