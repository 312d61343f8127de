// Makes files by rules: texts many times, numbered files, buckets, and the queue's entries.
use crate::{Texts, add, text_of};
use ml_base::{Bytes, Name, hash_lower, push_netstring, write_number};
use std::alloc::{AllocError, Global};

const QUEUE: u8 = 17;

/// What files are made. A `%` in a text stands for a number.
#[derive(Clone, Copy)]
pub enum Made<'a> {
    /// The file of a kind and a place has this text. If the text is `-` it is absent.
    Text(u8, u64, &'a [u8]),
    /// A file gets this text at its end, this many times.
    Times(u8, u64, u64, &'a [u8]),
    /// A file gets texts at its end, each this many times, once for every number from the first to the second.
    Count(u8, u64, (u64, u64), &'a [(u64, &'a [u8])]),
    /// The file at every place from the first to the second has these texts, each this many times.
    Each(u8, (u64, u64), &'a [(u64, &'a [u8])]),
    /// For every number from the first to the second, a text at the end of the bucket of an address: the address, and the text.
    Buckets(u8, (u64, u64), &'a [u8], &'a [u8]),
    /// The queue's entry with this id is a mail, whose text ends with what the file had.
    Mail(u64, Mail<'a>),
    /// The queue's entry with this id has what the file had as its body: the base of its path, its way, and its recipients.
    Entry(u64, &'a [u8], &'a [u8], &'a [&'a [u8]]),
}

/// A mail that the list `list@ex.org` writes: to whom, the address that answers go to unless it is empty, its date and subject, what its text
/// begins with, and its recipients.
#[derive(Clone, Copy)]
pub struct Mail<'a> {
    pub to: &'a [u8],
    pub reply: &'a [u8],
    pub date: &'a [u8],
    pub subject: &'a [u8],
    pub text: &'a [u8],
    pub who: &'a [&'a [u8]],
}

// A text with the number in it.
fn with_number(alloc: Global, text: &[u8], number: u64) -> Result<Bytes, AllocError> {
    let mut digits = [0; 20];
    let len = write_number(number, &mut digits);
    let mut out = Bytes::new(alloc);
    for (at, piece) in text.split(|byte| *byte == b'%').enumerate() {
        if at > 0 {
            out.extend(&digits[..len])?;
        }
        out.extend(piece)?;
    }
    Ok(out)
}

fn repeated(alloc: Global, times: u64, text: &[u8]) -> Result<Bytes, AllocError> {
    let mut out = Bytes::new(alloc);
    for _ in 0..times {
        out.extend(text)?;
    }
    Ok(out)
}

// Adds texts with the number in them, each this many times.
fn add_pieces(
    alloc: Global,
    out: &mut Bytes,
    pieces: &[(u64, &[u8])],
    number: u64,
) -> Result<(), AllocError> {
    for (times, text) in pieces {
        let text = with_number(alloc, text, number)?;
        out.extend(repeated(alloc, *times, text.as_slice())?.as_slice())?;
    }
    Ok(())
}

fn counted(alloc: Global, range: (u64, u64), pieces: &[(u64, &[u8])]) -> Result<Bytes, AllocError> {
    let mut out = Bytes::new(alloc);
    for number in range.0..=range.1 {
        add_pieces(alloc, &mut out, pieces, number)?;
    }
    Ok(out)
}

fn put(alloc: Global, texts: &mut Texts, name: Name, text: &[u8]) -> Result<(), AllocError> {
    texts.insert(name, Bytes::from_slice(alloc, text)?)?;
    Ok(())
}

fn each(
    alloc: Global,
    texts: &mut Texts,
    kind: u8,
    range: (u64, u64),
    pieces: &[(u64, &[u8])],
) -> Result<(), AllocError> {
    for at in range.0..=range.1 {
        let mut text = Bytes::new(alloc);
        add_pieces(alloc, &mut text, pieces, at)?;
        texts.insert(Name { kind, at }, text)?;
    }
    Ok(())
}

fn buckets(
    alloc: Global,
    texts: &mut Texts,
    kind: u8,
    range: (u64, u64),
    address: &[u8],
    text: &[u8],
) -> Result<(), AllocError> {
    for number in range.0..=range.1 {
        let address = with_number(alloc, address, number)?;
        let text = with_number(alloc, text, number)?;
        let at = hash_lower(address.as_slice()) as u64 % 53;
        add(alloc, texts, Name { kind, at }, text.as_slice())?;
    }
    Ok(())
}

// The fields of a mail, and its text.
fn body(alloc: Global, mail: &Mail<'_>, rest: &[u8]) -> Result<Bytes, AllocError> {
    let reply: &[u8] = if mail.reply.is_empty() {
        b""
    } else {
        b"\nReply-To: "
    };
    let pieces: [&[u8]; 11] = [
        b"Mailing-List: contact list-help@ex.org; run by ezmlm\nPrecedence: bulk\nFrom: list-help@ex.org\nTo: ",
        mail.to,
        reply,
        mail.reply,
        b"\nDate: ",
        mail.date,
        b"\nSubject: ",
        mail.subject,
        b"\n\n",
        mail.text,
        rest,
    ];
    let mut out = Bytes::new(alloc);
    for piece in pieces {
        out.extend(piece)?;
    }
    Ok(out)
}

fn entry(
    alloc: Global,
    base: &[u8],
    way: &[u8],
    body: &[u8],
    who: &[&[u8]],
) -> Result<Bytes, AllocError> {
    let mut out = Bytes::new(alloc);
    for part in [base, b"ex.org", way, body] {
        push_netstring(&mut out, part)?;
    }
    for part in who {
        push_netstring(&mut out, part)?;
    }
    Ok(out)
}

// The text that the file of an entry had before, or nothing.
fn begun(texts: &Texts, name: Name) -> &[u8] {
    if texts.contains_key(&name) {
        text_of(texts, name)
    } else {
        b""
    }
}

fn mailed(alloc: Global, texts: &mut Texts, id: u64, mail: &Mail<'_>) -> Result<(), AllocError> {
    let name = Name {
        kind: QUEUE,
        at: id,
    };
    let body = body(alloc, mail, begun(texts, name))?;
    let entry = entry(alloc, b"list-return-", b"p", body.as_slice(), mail.who)?;
    texts.insert(name, entry)?;
    Ok(())
}

fn queued(
    alloc: Global,
    texts: &mut Texts,
    id: u64,
    base: &[u8],
    way: &[u8],
    who: &[&[u8]],
) -> Result<(), AllocError> {
    let name = Name {
        kind: QUEUE,
        at: id,
    };
    let entry = entry(alloc, base, way, begun(texts, name), who)?;
    texts.insert(name, entry)?;
    Ok(())
}

fn make_one(alloc: Global, texts: &mut Texts, made: &Made<'_>) -> Result<(), AllocError> {
    match made {
        Made::Text(kind, at, text) => put(
            alloc,
            texts,
            Name {
                kind: *kind,
                at: *at,
            },
            text,
        ),
        Made::Times(kind, at, times, text) => {
            let text = repeated(alloc, *times, text)?;
            add(
                alloc,
                texts,
                Name {
                    kind: *kind,
                    at: *at,
                },
                text.as_slice(),
            )
        }
        Made::Count(kind, at, range, pieces) => {
            let text = counted(alloc, *range, pieces)?;
            add(
                alloc,
                texts,
                Name {
                    kind: *kind,
                    at: *at,
                },
                text.as_slice(),
            )
        }
        Made::Each(kind, range, pieces) => each(alloc, texts, *kind, *range, pieces),
        Made::Buckets(kind, range, address, text) => {
            buckets(alloc, texts, *kind, *range, address, text)
        }
        Made::Mail(id, mail) => mailed(alloc, texts, *id, mail),
        Made::Entry(id, base, way, who) => queued(alloc, texts, *id, base, way, who),
    }
}

/// Makes these files, one after another.
pub fn make(alloc: Global, texts: &mut Texts, made: &[Made<'_>]) -> Result<(), AllocError> {
    for one in made {
        make_one(alloc, texts, one)?;
    }
    Ok(())
}
