// The calls of the parts, as words: `held`, `queue`, `ledgers` or `digests`, and what the module of each takes after it; or `sets steps`,
// with the steps in the input. `made entries` makes a thousand entries of a ledger.
use crate::parts::Parts;
use crate::table_call::{Asked, NoAnswer};
use crate::{digests, held_texts, ledgers, queue, sets};
use ml_base::{Bytes, Layer, PartError, Txn};
use ml_site::{Clock, Fill, Image, MemClock, MemSite, MemSource};
use std::alloc::{AllocError, Global};
use std::test::Fail;
use trials_lists::{Made, copy, error_text, lay, make};
use trials_scripts::{OnSite, Program, ended_with, read_whole};

pub(crate) struct Calls;

// Entries of `1001@b` to `2000@b`, who missed post 1 at the moment 5.
const DUE: &[Made] = &[Made::Buckets(15, (1001, 2000), b"%@b", b"21:6:%@b,1:5,1:n,1:1,,")];

// What a call of a part answers.
fn answer(
    alloc: Global,
    parts: &mut Parts,
    part: &str,
    asked: &Asked<'_>,
) -> Result<Bytes, NoAnswer> {
    if part == "held" {
        held_texts::answer(alloc, parts, asked)
    } else if part == "queue" {
        queue::answer(alloc, parts, asked)
    } else if part == "ledgers" {
        ledgers::answer(alloc, parts, asked)
    } else if part == "digests" {
        digests::answer(alloc, parts, asked)
    } else {
        Err(NoAnswer::NoCall)
    }
}

/// The status of an answer with its text, or of an error with its own.
pub(crate) fn told(alloc: Global, answer: Result<Bytes, NoAnswer>) -> Result<(u8, Bytes), Fail> {
    match answer {
        Ok(text) => Ok((0, text)),
        Err(NoAnswer::NoCall) => Err(Fail::new("no call")),
        Err(NoAnswer::Part(PartError::Memory)) => Err(Fail::new("no memory")),
        Err(NoAnswer::Part(PartError::Fault)) => Ok((111, error_text(alloc, PartError::Fault)?)),
        Err(NoAnswer::Part(error)) => Ok((75, error_text(alloc, error)?)),
    }
}

// The moment that the clock shows, and the whole input.
fn met(alloc: Global, input: &mut MemSource, clock: &mut MemClock) -> Result<(u64, Bytes), Fail> {
    let moment = clock.now()?;
    Ok((moment, read_whole(alloc, input)?))
}

// How `made` ends over these files.
fn made(alloc: Global, image: Image) -> Result<(u8, MemSite), Fail> {
    let mut image = image;
    make(alloc, &mut image.files, DUE)?;
    ended_with(alloc, 0, image, b"")
}

// The files of a site that has this image, under no puts.
fn parts_of(alloc: Global, site: MemSite, image: &Image) -> Result<Parts, AllocError> {
    let files = copy(alloc, &image.files)?;
    Ok(Layer::new(OnSite { site, files }, Txn::new(alloc)))
}

// The image with the puts laid over its files.
fn laid(alloc: Global, parts: Parts, image: Image) -> Result<Image, AllocError> {
    let (_, puts) = parts.parts();
    let mut image = image;
    lay(alloc, &mut image.files, &puts)?;
    Ok(image)
}

// How the steps on the sets end. They leave the files as they were.
fn stepped(
    alloc: Global,
    site: MemSite,
    image: Image,
    steps: &[u8],
) -> Result<(u8, MemSite), Fail> {
    let parts = parts_of(alloc, site, &image)?;
    let (status, text) = told(alloc, sets::answer(alloc, parts, steps))?;
    ended_with(alloc, status, image, text.as_slice())
}

// How a call of any other part ends.
fn called(
    alloc: Global,
    site: MemSite,
    image: Image,
    part: &str,
    asked: &Asked<'_>,
) -> Result<(u8, MemSite), Fail> {
    let mut parts = parts_of(alloc, site, &image)?;
    let (status, text) = told(alloc, answer(alloc, &mut parts, part, asked))?;
    let image = laid(alloc, parts, image)?;
    ended_with(alloc, status, image, text.as_slice())
}

impl Program for Calls {
    fn ended(
        alloc: Global,
        words: &[String],
        input: &mut MemSource,
        site: MemSite,
        clock: &mut MemClock,
    ) -> Result<(u8, MemSite), Fail> {
        let [part, verb, words @ ..] = words else {
            return Err(Fail::new("no call"));
        };
        let (part, verb) = (part.as_str(), verb.as_str());
        let image = site.crash(alloc, u64::MAX, Fill::New)?;
        if part == "made" {
            return made(alloc, image);
        }
        let (moment, input) = met(alloc, input, clock)?;
        if part == "sets" {
            return stepped(alloc, site, image, input.as_slice());
        }
        let asked = Asked {
            verb,
            words,
            moment,
            input,
        };
        called(alloc, site, image, part, &asked)
    }
}
