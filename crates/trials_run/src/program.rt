// The calls of the tables, as words. Of runs, with the input as the stream: `make`, `spool LIMIT`, `cut BYTES`, `longest LEAST MOST`,
// `members COUNT` and `gate`. Of items: `apply`, `floor`, `load`, `kept NUMBER ..` and `blocks COUNT`. Of streams: `read ASK ..` and
// `ends BYTES`.
use crate::site_runs::{cut, gate, longest, made, spool, with_members};
use crate::{item_effects, item_texts};
use ml_base::{Bytes, read_number};
use ml_site::{Fill, MemClock, MemSite, MemSource};
use std::alloc::Global;
use std::test::Fail;
use trials_scripts::{Program, ended_with};

pub(crate) struct Calls;

// What a call answers about a site, or about its input alone.
fn text_of(
    alloc: Global,
    site: &MemSite,
    verb: &str,
    words: &[String],
    number: Option<u64>,
    input: &mut MemSource,
) -> Result<Bytes, Fail> {
    if verb == "longest" {
        Ok(longest(alloc, site, words, input)?)
    } else if verb == "gate" {
        Ok(gate(alloc, site)?)
    } else if verb == "read" {
        Ok(item_texts::answers(alloc, words, input)?)
    } else {
        item_texts::ending(alloc, number, input)
    }
}

// How such a call ends. It leaves the files as they are.
fn told(
    alloc: Global,
    site: MemSite,
    verb: &str,
    words: &[String],
    number: Option<u64>,
    input: &mut MemSource,
) -> Result<(u8, MemSite), Fail> {
    let text = text_of(alloc, &site, verb, words, number, input)?;
    let image = site.crash(alloc, 0, Fill::Old)?;
    ended_with(alloc, 0, image, text.as_slice())
}

fn is_told(verb: &str) -> bool {
    verb == "longest" || verb == "gate" || verb == "read" || verb == "ends"
}

// The first of these words as a number, if it is one.
fn first_number(words: &[String]) -> Option<u64> {
    read_number(words.first()?.as_bytes())
}

impl Program for Calls {
    fn ended(
        alloc: Global,
        words: &[String],
        input: &mut MemSource,
        site: MemSite,
        _clock: &mut MemClock,
    ) -> Result<(u8, MemSite), Fail> {
        let [verb, words @ ..] = words else {
            return Err(Fail::new("no call"));
        };
        let number = first_number(words);
        let verb = verb.as_str();
        if verb == "make" {
            made(alloc, site)
        } else if verb == "spool" {
            spool(alloc, site, number.unwrap_or(1_000_000), input)
        } else if verb == "cut" {
            cut(alloc, site, number.unwrap_or(0), input)
        } else if verb == "members" {
            with_members(alloc, site, number.unwrap_or(0))
        } else if is_told(verb) {
            told(alloc, site, verb, words, number, input)
        } else {
            item_effects::ended(alloc, site, verb, words, input)
        }
    }
}
