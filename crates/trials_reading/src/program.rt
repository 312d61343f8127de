// The calls of the tables, as words: the queries `members [-t] SET`, `queue`, `out ID` and `show N`; and `note NAME` and `timed NAME`, the question
// that reads an input, without and with the clock. `make` makes a list, and `spool` gives it the items in the input.
use crate::noted_question::Noted;
use ml_base::{Bytes, Set, read_number};
use ml_input::ask;
use ml_reading::{Query, read_list};
use ml_run::{make, run};
use ml_site::{MemClock, MemSite, MemSource};
use std::alloc::Global;
use std::test::Fail;
use trials_lists::{KEY, config};
use trials_scripts::Program;

pub(crate) struct Reading;

fn members(set: &str, moments: bool) -> Option<Query> {
    let set = Set::of_word(set.as_bytes())?;
    Some(Query::Members { set, moments })
}

// The number of a word, or the last one of all.
fn number(word: &str) -> Option<u64> {
    if word == "last" {
        Some(u64::MAX)
    } else {
        read_number(word.as_bytes())
    }
}

// The query of these words.
fn query(verb: &str, word: &str, more: &str) -> Option<Query> {
    if verb == "members" && word == "-t" {
        members(more, true)
    } else if verb == "members" {
        members(word, false)
    } else if verb == "queue" {
        Some(Query::Queue)
    } else if verb == "out" {
        Some(Query::Entry { id: number(word)? })
    } else if verb == "show" {
        Some(Query::Post { n: number(word)? })
    } else {
        None
    }
}

fn made(alloc: Global, site: MemSite) -> Result<(u8, MemSite), Fail> {
    let config = config(alloc, b"", b"", 1_048_576)?;
    Ok(make(alloc, &config, &KEY, site))
}

fn spool(alloc: Global, input: &mut MemSource, site: MemSite) -> (u8, MemSite) {
    let (ending, site) = run(alloc, 1_000_000, input, site);
    (ending.status, site)
}

fn word(words: &[String], at: usize) -> &str {
    match words.get(at) {
        Some(word) => word.as_str(),
        None => "",
    }
}

impl Program for Reading {
    fn ended(
        alloc: Global,
        words: &[String],
        input: &mut MemSource,
        site: MemSite,
        clock: &mut MemClock,
    ) -> Result<(u8, MemSite), Fail> {
        let (verb, name) = (word(words, 0), word(words, 1));
        if verb == "make" {
            return made(alloc, site);
        }
        if verb == "spool" {
            return Ok(spool(alloc, input, site));
        }
        let text = Bytes::from_slice(alloc, name.as_bytes())?;
        if verb == "note" {
            Ok(ask::<Noted<false>, MemSource, MemSite, MemClock>(alloc, text, input, site, clock))
        } else if verb == "timed" {
            Ok(ask::<Noted<true>, MemSource, MemSite, MemClock>(alloc, text, input, site, clock))
        } else if let Some(query) = query(verb, name, word(words, 2)) {
            Ok(read_list(alloc, &query, site))
        } else {
            Err(Fail::new("no question"))
        }
    }
}
