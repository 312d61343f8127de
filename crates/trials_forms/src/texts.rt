// Codes, names, numbers, netstrings, addresses and byte strings: each call that takes memory once.
use crate::answer_text::{push_bool, push_debug, push_pair, push_texts};
use crate::layers::{failing, in_place, layered};
use ml_base::{
    Address, AddressError, AddressFault, AddressList, Bytes, FilesError, Name, Numbers, PartError,
    compare_keys, copied, hash, hash_lower, is_below, is_canonical, is_drawn, is_moment, is_own,
    is_post_number, make_address, path, push_netstring, read_netstring, read_number, split_first,
    split_last, split_line, split_netstring, write_number,
};
use ml_plain::{has_number, status, word as word_of};
use std::alloc::{AllocError, Global};
use std::test::Fail;

// The word at a place. If there are fewer it is empty.
fn word(words: &[String], at: usize) -> &[u8] {
    match words.get(at) {
        Some(word) => word.as_bytes(),
        None => &[],
    }
}

// The number of these digits, or the last one of all.
fn number_of(text: &[u8]) -> u64 {
    if text == b"last".as_slice() {
        u64::MAX
    } else {
        read_number(text).unwrap_or(0)
    }
}

fn are_same(alloc: Global, first: &[u8], second: &[u8]) -> Result<bool, Fail> {
    let first = Address::parse(alloc, first)?;
    let second = Address::parse(alloc, second)?;
    Ok(first.same(&second))
}

// Calls that answer true or false: whether a recipient is one of the addresses of the list List@ex.Org, a text is a canonical address, a
// local part and a host make an address, two addresses are the same, and a number is a moment, one of a post, or one that is drawn.
fn is_so(alloc: Global, verb: &str, first: &[u8], second: &[u8]) -> Result<bool, Fail> {
    if verb == "own" {
        Ok(is_own(b"List", b"ex.Org", first))
    } else if verb == "kept" {
        Ok(is_canonical(first))
    } else if verb == "is_address" {
        Ok(make_address(first, second))
    } else if verb == "same" {
        are_same(alloc, first, second)
    } else if verb == "moment" {
        Ok(is_moment(number_of(first)))
    } else if verb == "post" {
        Ok(is_post_number(number_of(first)))
    } else if verb == "drawn" {
        Ok(is_drawn(number_of(first)))
    } else {
        Err(Fail::new(format_args!("no call: {verb}")))
    }
}

// Adds what a call answers.
pub(crate) fn told(
    alloc: Global,
    verb: &str,
    words: &[String],
    out: &mut Bytes,
) -> Result<(), Fail> {
    let (first, second) = (word(words, 0), word(words, 1));
    if verb == "code" {
        code(out, number_of(first))
    } else if verb == "path" {
        Ok(path_text(out, number_of(first), number_of(second))?)
    } else if verb == "check" {
        Ok(push_debug(alloc, out, &Address::check(first))?)
    } else if verb == "address" {
        address(alloc, first, out)
    } else if verb == "addresses" {
        addresses(alloc, words, out)
    } else if verb == "grown" {
        Ok(grown(alloc, first, second, word(words, 2), out)?)
    } else if verb == "copied" {
        Ok(copy(alloc, words.first(), out)?)
    } else if verb == "numbers" {
        Ok(numbers(alloc, words, out)?)
    } else if verb == "number" {
        Ok(number(out, number_of(first))?)
    } else if verb == "netstrings" {
        Ok(netstrings(alloc, words, out)?)
    } else {
        told_of_bytes(alloc, verb, first, second, out)
    }
}

// Adds what a call on one or two byte strings answers, or one without arguments.
fn told_of_bytes(
    alloc: Global,
    verb: &str,
    first: &[u8],
    second: &[u8],
    out: &mut Bytes,
) -> Result<(), Fail> {
    if verb == "span" {
        let from = number_of(second) as usize;
        Ok(push_debug(alloc, out, &read_netstring(first, from))?)
    } else if verb == "netstring" {
        Ok(push_pair(out, split_netstring(first))?)
    } else if verb == "first" {
        Ok(push_pair(out, split_first(b'.', first))?)
    } else if verb == "last" {
        Ok(push_pair(out, split_last(b'.', first))?)
    } else if verb == "line" {
        Ok(push_pair(out, split_line(first))?)
    } else if verb == "hash" {
        Ok(hashes(out, first)?)
    } else if verb == "order" {
        Ok(order(alloc, first, second, out)?)
    } else if verb == "layered" {
        layered(alloc, out)
    } else if verb == "failing" {
        Ok(failing(alloc, out)?)
    } else if verb == "in_place" {
        in_place(alloc, out)
    } else if verb == "errors" {
        Ok(errors(alloc, out)?)
    } else {
        Ok(push_bool(out, is_so(alloc, verb, first, second)?)?)
    }
}

fn hashes(out: &mut Bytes, text: &[u8]) -> Result<(), AllocError> {
    out.push_number(hash(text) as u64)?;
    out.push(b' ')?;
    out.push_number(hash_lower(text) as u64)
}

fn order(alloc: Global, first: &[u8], second: &[u8], out: &mut Bytes) -> Result<(), AllocError> {
    push_debug(alloc, out, &compare_keys(first, second))?;
    out.push(b' ')?;
    push_bool(out, is_below(first, second))
}

// Adds a code's word, its status, and whether a number follows.
fn code(out: &mut Bytes, code: u64) -> Result<(), Fail> {
    if code < 1 || code > 36 {
        return Err(Fail::new("no code"));
    }
    let code = code as u8;
    out.extend(word_of(code))?;
    out.push(b' ')?;
    out.push_number(status(code) as u64)?;
    out.push(b' ')?;
    Ok(push_bool(out, has_number(code))?)
}

fn path_text(out: &mut Bytes, kind: u64, at: u64) -> Result<(), AllocError> {
    let kind = kind.min(255) as u8;
    let name = Name { kind, at };
    let mut text = [0; 48];
    if !name.is_in_table() {
        return out.extend(b"no file");
    }
    let len = path(name, &mut text);
    out.extend(&text[..len])
}

// Adds an address, its local part, its host, and its copy.
fn address(alloc: Global, text: &[u8], out: &mut Bytes) -> Result<(), Fail> {
    let found = Address::parse(alloc, text)?;
    Ok(push_address(alloc, out, &found)?)
}

fn push_address(alloc: Global, out: &mut Bytes, found: &Address) -> Result<(), AllocError> {
    let copy = found.copy(alloc)?;
    push_texts(
        out,
        &[found.bytes(), found.local(), found.host(), copy.bytes()],
    )
}

// Adds the addresses of a list, one after another.
fn addresses(alloc: Global, words: &[String], out: &mut Bytes) -> Result<(), Fail> {
    let mut list = AddressList::new(alloc);
    for word in words {
        list.push(Address::parse(alloc, word.as_bytes())?)?;
    }
    for address in list.as_slice() {
        out.extend(address.bytes())?;
    }
    Ok(())
}

// Lets a byte string grow by a byte and by a text.
fn grow(bytes: &mut Bytes, byte: &[u8], rest: &[u8]) -> Result<(), AllocError> {
    bytes.push(byte.first().copied().unwrap_or(0))?;
    bytes.reserve(rest.len())?;
    bytes.extend(rest)
}

// Adds a byte string that begins with a text, and grows by a byte and by a text.
fn grown(
    alloc: Global,
    first: &[u8],
    byte: &[u8],
    rest: &[u8],
    out: &mut Bytes,
) -> Result<(), AllocError> {
    let mut bytes = Bytes::from_slice(alloc, first)?;
    grow(&mut bytes, byte, rest)?;
    out.extend(bytes.as_slice())
}

// Adds the copy of a byte string, or of none.
fn push_copy(alloc: Global, from: Option<&Bytes>, out: &mut Bytes) -> Result<(), AllocError> {
    match copied(alloc, from)? {
        Some(bytes) => out.extend(bytes.as_slice()),
        None => out.extend(b"none"),
    }
}

fn copy(alloc: Global, text: Option<&String>, out: &mut Bytes) -> Result<(), AllocError> {
    let Some(text) = text else {
        return push_copy(alloc, None, out);
    };
    let mut room = Bytes::with_capacity(alloc, 3)?;
    room.extend(text.as_bytes())?;
    push_copy(alloc, Some(&room), out)
}

fn numbers(alloc: Global, words: &[String], out: &mut Bytes) -> Result<(), AllocError> {
    let mut numbers = Numbers::new(alloc);
    for word in words {
        numbers.push(number_of(word.as_bytes()))?;
    }
    push_debug(alloc, out, &numbers.as_slice())
}

fn number(out: &mut Bytes, n: u64) -> Result<(), AllocError> {
    let mut digits = [0; 20];
    let len = write_number(n, &mut digits);
    out.extend(&digits[..len])
}

// Adds netstrings after a `W`.
fn netstrings(alloc: Global, words: &[String], out: &mut Bytes) -> Result<(), AllocError> {
    let mut text = Bytes::from_slice(alloc, b"W")?;
    for word in words {
        push_netstring(&mut text, word.as_bytes())?;
    }
    out.extend(text.as_slice())
}

// Adds the words of errors.
fn errors(alloc: Global, out: &mut Bytes) -> Result<(), AllocError> {
    let address = AddressError::Fault(AddressFault::NoAt);
    let part = PartError::Damaged(Name { kind: 3, at: 1 });
    let (full, read) = (AddressError::Memory, FilesError::Memory);
    let text = format!(in alloc; "{address}; {full}; {part}; {}; {read}", PartError::Fault)?;
    out.extend(text.as_bytes())
}
