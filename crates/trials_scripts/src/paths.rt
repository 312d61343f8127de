// Finds the name of a file from its path.
use ml_base::{Name, Set, read_number, split_last};
use std::test::Fail;

/// The name of the file with this path.
pub(crate) fn name_of(path: &str) -> Result<Name, Fail> {
    let name = match split_last(b'/', path.as_bytes()) {
        Some((folder, leaf)) => in_folder(folder, leaf),
        None => single(path),
    };
    match name {
        Some(name) => Ok(name),
        None => Err(Fail::new(format_args!("no path: {path}"))),
    }
}

fn single(path: &str) -> Option<Name> {
    let kinds = [
        ("log", 0),
        ("config", 1),
        ("key", 2),
        ("num", 11),
        ("dig", 12),
        ("tickets", 14),
        ("ids", 18),
        ("floor", 21),
    ];
    for (word, kind) in kinds {
        if path == word {
            return Some(Name { kind, at: 0 });
        }
    }
    None
}

fn in_folder(folder: &[u8], leaf: &[u8]) -> Option<Name> {
    let kinds: [(&[u8], u8); 12] = [
        (b"subscribers", 3),
        (b"digest/subscribers", 4),
        (b"allow/subscribers", 5),
        (b"deny/subscribers", 6),
        (b"mod/subscribers", 7),
        (b"counts", 8),
        (b"pending", 13),
        (b"bounce", 15),
        (b"digest/bounce", 16),
        (b"queue", 17),
        (b"done", 19),
        (b"archive/threads", 20),
    ];
    for (word, kind) in kinds {
        if folder == word {
            return Some(Name {
                kind,
                at: place(kind, leaf)?,
            });
        }
    }
    archived(folder, leaf)
}

// The place of a file among those of its kind.
fn place(kind: u8, leaf: &[u8]) -> Option<u64> {
    match kind {
        8 => Some(Set::of_word(leaf)?.kind() as u64).and_then(|kind| kind.checked_sub(3)),
        3..=7 | 15 | 16 => (*leaf.first()? as u64).checked_sub(64),
        20 => leading(leaf),
        _ => read_number(leaf),
    }
}

// The number of these digits, which may begin with zeros.
fn leading(digits: &[u8]) -> Option<u64> {
    let mut rest = digits;
    for _ in 0..2 {
        match rest {
            [b'0', more @ ..] if !more.is_empty() => rest = more,
            _ => (),
        }
    }
    read_number(rest)
}

// The name of a post, or of the index of a group.
fn archived(folder: &[u8], leaf: &[u8]) -> Option<Name> {
    let group = read_number(folder.strip_prefix(b"archive/".as_slice())?)?;
    if leaf == b"index".as_slice() {
        return Some(Name {
            kind: 10,
            at: group,
        });
    }
    let at = group.checked_mul(100)?.checked_add(leading(leaf)?)?;
    Some(Name { kind: 9, at })
}
