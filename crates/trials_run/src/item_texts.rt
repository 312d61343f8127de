// Items, as they are read from a source that may fail, and as they are written.
ghost use Rattle.std.specs.Prelude.{◌≡◌, None};
ghost use Rattle.ml_stream.specs.Items.{error_of};

use crate::program::Calls;
use ml_base::{Bytes, Numbers};
use ml_plain::{Act, Item};
use ml_site::{MemSource, Source};
use ml_stream::{Items, StreamError, push_item, write_item};
use std::alloc::{AllocError, Global};
use std::test::Fail;
use trials_scripts::{hold, read_whole};

// An error is answered again, and nothing more is read. A failed look ahead takes nothing. Then an item of every letter, and a delivery whose
// sender, recipient and message each have every byte once.
const TABLE: &str = r"
let every D1:7,10:1000000000,{0..2:256:\0\x01\x02\x03\x04\x05\x06\x07\x08\x09\n\x0B\x0C\x0D\x0E\x0F\x10\x11\x12\x13\x14\x15\x16\x17\x18\x19\x1A\x1B\x1C\x1D\x1E\x1F !\x22#$%&'()*+,-./0123456789:;<=>?@ABCDEFGHIJKLMNOPQRSTUVWXYZ[\x5C]^_`abcdefghijklmnopqrstuvwxyz\x7B|\x7D~\x7F\x80\x81\x82\x83\x84\x85\x86\x87\x88\x89\x8A\x8B\x8C\x8D\x8E\x8F\x90\x91\x92\x93\x94\x95\x96\x97\x98\x99\x9A\x9B\x9C\x9D\x9E\x9F\xA0\xA1\xA2\xA3\xA4\xA5\xA6\xA7\xA8\xA9\xAA\xAB\xAC\xAD\xAE\xAF\xB0\xB1\xB2\xB3\xB4\xB5\xB6\xB7\xB8\xB9\xBA\xBB\xBC\xBD\xBE\xBF\xC0\xC1\xC2\xC3\xC4\xC5\xC6\xC7\xC8\xC9\xCA\xCB\xCC\xCD\xCE\xCF\xD0\xD1\xD2\xD3\xD4\xD5\xD6\xD7\xD8\xD9\xDA\xDB\xDC\xDD\xDE\xDF\xE0\xE1\xE2\xE3\xE4\xE5\xE6\xE7\xE8\xE9\xEA\xEB\xEC\xED\xEE\xEF\xF0\xF1\xF2\xF3\xF4\xF5\xF6\xF7\xF8\xF9\xFA\xFB\xFC\xFD\xFE\xFF,}
input A1:7,10:1000000000,4:list,3:a@b,A1:8,1:0,5:allow,3:C@D, | run read more next more next more next next => 0 more\n7 1000000000 add list a@b: A1:7,10:1000000000,4:list,3:a@b,\nmore\n8 0 add allow C@d: A1:8,1:0,5:allow,3:C@d,\nend\nend\nend\n
input A1:7, | read 3 5 | run read next next read read => 0 fault\nfault\n2 :7\nfailed\n
input A1:0,1:1,3:mod,3:a@b, | read 1 | run read more more more next more => 0 failed\nmore\nmore\n0 1 add mod a@b: A1:0,1:1,3:mod,3:a@b,\nend\n
input A1:7,10:1000000000,4:list,3:a@b, | run read next next => 0 7 1000000000 add list a@b: A1:7,10:1000000000,4:list,3:a@b,\nend\n
input D1:7,10:1000000000,3:a@b,6:l@list,5:hello, | run read next next => 0 7 1000000000 deliver a@b l@list hello: D1:7,10:1000000000,3:a@b,6:l@list,5:hello,\nend\n
input F1:9,10:1000000002,1:5, | run read next next => 0 9 1000000002 floor 5: F1:9,10:1000000002,1:5,\nend\n
input K2:10,10:1000000003,64:{1..64:f}, | run read next next => 0 10 1000000003 rekey: K2:10,10:1000000003,64:{1..64:f},\nend\n
input R12:999999999999,12:253402300799,6:digest,3:A@b, | run read next next => 0 999999999999 253402300799 remove digest A@b: R12:999999999999,12:253402300799,6:digest,3:A@b,\nend\n
input S1:0,1:0,16:1000000000000000, | run read next next => 0 0 0 sent 1000000000000000: S1:0,1:0,16:1000000000000000,\nend\n
input T2:12,10:1000000004, | run read next next => 0 12 1000000004 timed: T2:12,10:1000000004,\nend\n
input {every} | run read written next => 0 {every}\nend\n
";

// A reader that has met no error.
#[derive(Drop)]
struct Sound {
    items: Items,
    ghost sound: { error_of items ≡ None },
}

#[derive(Drop)]
enum Reader {
    Sound(Sound),
    Failed(Items),
}

// Adds three words with a space between them.
fn push_words(
    out: &mut Bytes,
    first: &[u8],
    second: &[u8],
    third: &[u8],
) -> Result<(), AllocError> {
    out.extend(first)?;
    out.push(b' ')?;
    out.extend(second)?;
    out.push(b' ')?;
    out.extend(third)
}

// Adds the act of an item, except a key's bytes.
fn push_act(alloc: Global, out: &mut Bytes, act: &Act) -> Result<(), AllocError> {
    match act {
        Act::Deliver {
            sender,
            recipient,
            message,
        } => {
            push_words(out, b"deliver", sender.as_slice(), recipient.as_slice())?;
            out.push(b' ')?;
            out.extend(message.as_slice())
        }
        Act::Timed => out.extend(b"timed"),
        Act::Add { set, who } => push_words(out, b"add", set.word(), who.bytes()),
        Act::Remove { set, who } => push_words(out, b"remove", set.word(), who.bytes()),
        Act::Sent { id } => out.extend(format!(in alloc; "sent {id}")?.as_bytes()),
        Act::Rekey { .. } => out.extend(b"rekey"),
        Act::Floor { at } => out.extend(format!(in alloc; "floor {at}")?.as_bytes()),
    }
}

// Adds an item: for `next` its parts, and its bytes as they are added to a text; otherwise only its bytes, as they are written.
fn push_found(alloc: Global, out: &mut Bytes, ask: &str, item: &Item) -> Result<(), AllocError> {
    if ask != "next" {
        return out.extend(write_item(alloc, item)?.as_slice());
    }
    let front = format!(in alloc; "{} {} ", item.number, item.moment)?;
    out.extend(front.as_bytes())?;
    push_act(alloc, out, &item.act)?;
    out.extend(b": ")?;
    push_item(out, item)
}

// The words for an error.
fn error_words(alloc: Global, error: StreamError) -> Result<String, AllocError> {
    match error {
        StreamError::Bad { at } => format!(in alloc; "bad {at}"),
        StreamError::Short { at } => format!(in alloc; "short {at}"),
        StreamError::Fault => format!(in alloc; "fault"),
        StreamError::Memory => format!(in alloc; "memory"),
    }
}

// The reader after the next item is asked for.
fn next(
    alloc: Global,
    reader: Reader,
    ask: &str,
    input: &mut MemSource,
    out: &mut Bytes,
) -> Result<Reader, AllocError> {
    let mut items = match reader {
        Reader::Sound(Sound { items }) => items,
        Reader::Failed(items) => items,
    };
    match items.next(alloc, input) {
        Ok(None) => out.extend(b"end")?,
        Ok(Some(item)) => push_found(alloc, out, ask, &item)?,
        Err(error) => {
            out.extend(error_words(alloc, error)?.as_bytes())?;
            return Ok(Reader::Failed(items));
        }
    }
    Ok(Reader::Sound(Sound { items }))
}

// The reader after it is asked whether there is more. One that has met an error isn't asked.
fn more(reader: Reader, input: &mut MemSource, out: &mut Bytes) -> Result<Reader, AllocError> {
    match reader {
        Reader::Sound(Sound { mut items }) => {
            match items.more(input) {
                Ok(true) => out.extend(b"more")?,
                Ok(false) => out.extend(b"end")?,
                Err(_) => out.extend(b"failed")?,
            }
            Ok(Reader::Sound(Sound { items }))
        }
        Reader::Failed(items) => Ok(Reader::Failed(items)),
    }
}

// Adds what a source gives for a buffer of two bytes.
fn push_read(alloc: Global, input: &mut MemSource, out: &mut Bytes) -> Result<(), AllocError> {
    let mut buf = [0u8; 2];
    match input.read(&mut buf) {
        Ok(count) => {
            out.extend(format!(in alloc; "{count} ")?.as_bytes())?;
            out.extend(&buf)
        }
        Err(_) => out.extend(b"failed"),
    }
}

// The reader after it is asked one of the questions below.
fn asked(
    alloc: Global,
    reader: Reader,
    ask: &str,
    input: &mut MemSource,
    out: &mut Bytes,
) -> Result<Reader, AllocError> {
    if ask == "more" {
        more(reader, input, out)
    } else if ask == "read" {
        push_read(alloc, input, out)?;
        Ok(reader)
    } else {
        next(alloc, reader, ask, input, out)
    }
}

// The answers, a line each, to these questions: `more`, whether there is another byte; `next`, the next item with its number, its moment, its
// act and its bytes as they are written; `written`, these bytes alone; and `read`, two bytes of the source itself, with how many it gives.
pub(crate) fn answers(
    alloc: Global,
    asks: &[String],
    input: &mut MemSource,
) -> Result<Bytes, AllocError> {
    let mut reader = Reader::Sound(Sound {
        items: Items::new(),
    });
    let mut out = Bytes::new(alloc);
    for ask in asks {
        reader = asked(alloc, reader, ask.as_str(), input, &mut out)?;
        out.push(b'\n')?;
    }
    Ok(out)
}

// How many items a stream has, cut to this many bytes if a number is given, and what comes after them. No stream here has more than ten.
pub(crate) fn ending(
    alloc: Global,
    size: Option<u64>,
    input: &mut MemSource,
) -> Result<Bytes, Fail> {
    let mut stream = read_whole(alloc, input)?;
    stream.truncate(size.unwrap_or(u64::MAX) as usize);
    let mut input = MemSource::new(stream, Numbers::new(alloc));
    let mut items = Items::new();
    for count in 0..10 {
        let end = match items.next(alloc, &mut input) {
            Ok(Some(_)) => continue,
            Ok(None) => String::from_str(alloc, "end")?,
            Err(error) => error_words(alloc, error)?,
        };
        let text = format!(in alloc; "{count} {end}")?;
        return Ok(Bytes::from_slice(alloc, text.as_bytes())?);
    }
    Err(Fail::new("more than ten"))
}

#[test]
fn items_are_read_and_written(rt: HostRuntime) -> Result<(), Fail> {
    hold::<Calls>(rt.alloc(), "readings", TABLE)
}
