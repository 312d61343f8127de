// The files of a list, as texts under their names.
use ml_base::{Bytes, MapFiles, Name, Numbers, Txn};
use std::alloc::{AllocError, Global};
use std::collections::BTreeMap;

/// A file of a table: its kind, its place among the files of that kind, and its text.
pub type File<'a> = (u8, u64, &'a [u8]);

/// The files of a list by their names.
pub type Texts = BTreeMap<Name, Bytes>;

/// The text of a file that is absent.
pub const ABSENT: &[u8] = b"-";

/// The key of the bytes 0 to 31.
pub const KEY: [u8; 32] = [
    0, 1, 2, 3, 4, 5, 6, 7, 8, 9, 10, 11, 12, 13, 14, 15, 16, 17, 18, 19, 20, 21, 22, 23, 24, 25,
    26, 27, 28, 29, 30, 31,
];

/// The files of a table. If two rows have one name the later one counts, and a file whose text is `-` is absent.
pub fn texts(alloc: Global, files: &[File<'_>]) -> Result<Texts, AllocError> {
    let mut texts = BTreeMap::new(alloc);
    set(alloc, &mut texts, files)?;
    Ok(texts)
}

/// Puts the files of a table in place of others.
pub fn set(alloc: Global, texts: &mut Texts, files: &[File<'_>]) -> Result<(), AllocError> {
    for (kind, at, text) in files {
        let name = Name {
            kind: *kind,
            at: *at,
        };
        if *text == ABSENT {
            let _ = texts.remove(&name);
        } else {
            texts.insert(name, Bytes::from_slice(alloc, text)?)?;
        }
    }
    Ok(())
}

/// Adds bytes at the end of a file, which is made if it is absent.
pub fn add(alloc: Global, texts: &mut Texts, name: Name, bytes: &[u8]) -> Result<(), AllocError> {
    let mut text = match texts.remove(&name) {
        Some(text) => text,
        None => Bytes::new(alloc),
    };
    text.extend(bytes)?;
    texts.insert(name, text)?;
    Ok(())
}

/// Lays puts over files.
pub fn lay(alloc: Global, texts: &mut Texts, puts: &Txn) -> Result<(), AllocError> {
    for put in puts.as_slice() {
        match &put.bytes {
            Some(bytes) => {
                texts.insert(put.name, Bytes::from_slice(alloc, bytes.as_slice())?)?;
            }
            None => {
                let _ = texts.remove(&put.name);
            }
        }
    }
    Ok(())
}

/// The text of a file, or `-` if it is absent.
pub fn text_of(texts: &Texts, name: Name) -> &[u8] {
    match texts.get(&name) {
        Some(text) => text.as_slice(),
        None => ABSENT,
    }
}

/// These files in memory, without those whose text is `-`. Their reads with these numbers, counted from 1, fail.
pub fn memory(alloc: Global, texts: &Texts, failing: &[u64]) -> Result<MapFiles, AllocError> {
    let mut files = BTreeMap::new(alloc);
    for (name, text) in texts.iter() {
        if text.as_slice() != ABSENT {
            files.insert(*name, Bytes::from_slice(alloc, text.as_slice())?)?;
        }
    }
    let fail = Numbers::from_vec(Vec::from_slice(alloc, failing)?);
    Ok(MapFiles::new(files, fail))
}
