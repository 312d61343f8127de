// The bytes for which texts of tables stand.
ghost use Rattle.std.specs.Prelude.{◌≤◌};

use ml_base::{Bytes, read_number, write_number};
use std::alloc::Global;
use std::test::Fail;

// Texts that have names.
pub(crate) type Named = Vec<(String, Bytes)>;

/// The number that a text is.
pub(crate) fn number_of(text: &str) -> Result<u64, Fail> {
    match read_number(text.as_bytes()) {
        Some(number) => Ok(number),
        None => Err(Fail::new(format_args!("no number: {text}"))),
    }
}

/// The bytes of a text: `\n` is an LF, `\0` a NUL and `\x` with two hexadecimal digits any byte.
pub fn spelled(alloc: Global, text: &str) -> Result<Bytes, Fail> {
    let mut out = Bytes::new(alloc);
    add_plain(&mut out, text)?;
    Ok(out)
}

/// The bytes of a text in which also `{NAME}` is the text of this name, and `{A..B:TEXT}` is TEXT once for every number from A to B, with
/// its digits for each `%`. `{A..B NAME}` does the same with the text of this name.
pub(crate) fn spelled_with(alloc: Global, named: &Named, text: &str) -> Result<Bytes, Fail> {
    let mut out = Bytes::new(alloc);
    for (at, piece) in text.split('{').enumerate() {
        if at == 0 {
            add_plain(&mut out, piece)?;
        } else {
            add_braced(alloc, named, &mut out, piece)?;
        }
    }
    Ok(out)
}

/// Keeps a text under a name.
pub(crate) fn push_named(
    alloc: Global,
    named: &mut Named,
    name: &str,
    text: Bytes,
) -> Result<(), Fail> {
    named.push((String::from_str(alloc, name)?, text))?;
    Ok(())
}

/// Keeps a text under its name: `NAME TEXT`.
pub(crate) fn keep(alloc: Global, named: &mut Named, text: &str) -> Result<(), Fail> {
    let (name, text) = text.split_once(' ').unwrap_or((text, ""));
    let text = spelled_with(alloc, named, text)?;
    push_named(alloc, named, name, text)
}

// Adds what the braces at the beginning of a text stand for, and then what comes after them.
fn add_braced(alloc: Global, named: &Named, out: &mut Bytes, text: &str) -> Result<(), Fail> {
    let Some((inner, after)) = text.split_once('}') else {
        return Err(Fail::new(format_args!("no brace closes: {text}")));
    };
    if let Some((range, each)) = inner.split_once(':') {
        let mut text = Bytes::new(alloc);
        add_plain(&mut text, each)?;
        add_times(alloc, out, range, text.as_slice())?;
    } else if let Some((range, name)) = inner.split_once(' ') {
        add_times(alloc, out, range, named_text(named, name)?)?;
    } else {
        out.extend(named_text(named, inner)?)?;
    }
    add_plain(out, after)
}

fn named_text<'a>(named: &'a Named, wanted: &str) -> Result<&'a [u8], Fail> {
    for (name, text) in named.iter() {
        if name.as_str() == wanted {
            return Ok(text.as_slice());
        }
    }
    Err(Fail::new(format_args!("no text has this name: {wanted}")))
}

fn add_times(alloc: Global, out: &mut Bytes, range: &str, text: &[u8]) -> Result<(), Fail> {
    let Some((first, last)) = range.split_once("..") else {
        return Err(Fail::new(format_args!("no range: {range}")));
    };
    let (first, last) = (number_of(first)?, number_of(last)?);
    if let [byte] = text {
        let count = last.saturating_sub(first).saturating_add(1);
        out.extend(&vec![in alloc; *byte; count as usize]?)?;
        return Ok(());
    }
    for number in first..=last {
        add_numbered(out, text, number)?;
    }
    Ok(())
}

// Adds a text, with the digits of a number for each `%`.
fn add_numbered(out: &mut Bytes, text: &[u8], number: u64) -> Result<(), Fail> {
    let mut digits = [0; 20];
    let len = write_number(number, &mut digits);
    for (at, piece) in text.split(|byte| *byte == b'%').enumerate() {
        if at > 0 {
            out.extend(&digits[..len])?;
        }
        out.extend(piece)?;
    }
    Ok(())
}

fn add_plain(out: &mut Bytes, text: &str) -> Result<(), Fail> {
    for (at, piece) in text.as_bytes().split(|byte| *byte == b'\\').enumerate() {
        if at == 0 {
            out.extend(piece)?;
        } else {
            add_escaped(out, piece)?;
        }
    }
    Ok(())
}

// Adds what the letter after a backslash stands for, and then what comes after that.
fn add_escaped(out: &mut Bytes, text: &[u8]) -> Result<(), Fail> {
    let (byte, rest) = match text {
        [b'n', rest @ ..] => (b'\n', rest),
        [b'0', rest @ ..] => (0, rest),
        [b'x', high, low, rest @ ..] => (16 * digit(*high) + digit(*low), rest),
        _ => return Err(Fail::new("a backslash that stands for nothing")),
    };
    out.push(byte)?;
    out.extend(rest)?;
    Ok(())
}

// The value of a hexadecimal digit in upper case.
fn digit(byte: u8) -> u8
    ensures { result ≤ 15 }
{
    match byte {
        b'0'..=b'9' => byte - b'0',
        b'A'..=b'F' => byte - b'A' + 10,
        _ => 0,
    }
}
