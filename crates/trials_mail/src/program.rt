// The calls of the tables, as words: `address`, `header` or `reply`, and what each of these modules takes after it. If the last word
// is `size`, only the size of the answer is given.
use crate::{address, header, reply};
use ml_base::Bytes;
use ml_site::{Clock, Fill, Image, MemClock, MemSite, MemSource};
use std::alloc::Global;
use std::test::Fail;
use trials_scripts::{Program, ended_with, read_whole};

pub(crate) struct Calls;

/// The word at a place. If there are fewer it is empty.
pub(crate) fn word(words: &[String], at: usize) -> &[u8] {
    match words.get(at) {
        Some(word) => word.as_bytes(),
        None => &[],
    }
}

// Adds what a call answers about the input.
fn answered(
    alloc: Global,
    words: &[String],
    input: &[u8],
    clock: &mut MemClock,
    out: &mut Bytes,
) -> Result<(), Fail> {
    let [part, verb, words @ ..] = words else {
        return Err(Fail::new("no call"));
    };
    let (part, verb) = (part.as_str(), verb.as_str());
    if part == "address" {
        address::told(alloc, verb, words, input, out)
    } else if part == "header" {
        header::told(alloc, verb, words, input, out)
    } else {
        reply::told(alloc, verb, words, input, clock.now()?, out)
    }
}

// How a call ends with this answer: with its size, if the last word asks for that.
fn finished(
    alloc: Global,
    words: &[String],
    image: Image,
    text: &[u8],
) -> Result<(u8, MemSite), Fail> {
    let last = word(words, words.len().saturating_sub(1));
    if last == b"size".as_slice() {
        let mut size = Bytes::new(alloc);
        size.push_number(text.len() as u64)?;
        return ended_with(alloc, 0, image, size.as_slice());
    }
    ended_with(alloc, 0, image, text)
}

impl Program for Calls {
    fn ended(
        alloc: Global,
        words: &[String],
        input: &mut MemSource,
        site: MemSite,
        clock: &mut MemClock,
    ) -> Result<(u8, MemSite), Fail> {
        let input = read_whole(alloc, input)?;
        let mut out = Bytes::new(alloc);
        answered(alloc, words, input.as_slice(), clock, &mut out)?;
        finished(
            alloc,
            words,
            site.crash(alloc, 0, Fill::Old)?,
            out.as_slice(),
        )
    }
}
