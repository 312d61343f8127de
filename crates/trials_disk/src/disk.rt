// The calls of the tables, as words: `site`, `unfailing` and `store` with steps in the input, one a line, `source` and `clock`.
use crate::site_steps::{on_mem_site, on_unfailing};
use crate::store_steps::on_stores;
use ml_base::{Bytes, Numbers, read_number};
use ml_site::{Clock, Fill, MemClock, MemSite, MemSource, Source, Unfailing};
use std::alloc::{AllocError, Global};
use std::test::Fail;
use trials_scripts::{Program, ended_with, read_whole};

pub(crate) struct Disk;

// Adds what five reads of two bytes answer, a line each: how many bytes came, and what the two bytes are then.
fn pairs(source: &mut MemSource, out: &mut Bytes) -> Result<(), AllocError> {
    let mut buf = [0u8; 2];
    for _ in 0..5 {
        match source.read(&mut buf) {
            Ok(count) => out.push_number(count as u64)?,
            Err(_) => out.extend(b"failed")?,
        }
        out.push(b' ')?;
        out.extend(&buf)?;
        out.push(b'\n')?;
    }
    Ok(())
}

// Adds what four readings of a clock answer, a line each.
fn moments(clock: &mut MemClock, out: &mut Bytes) -> Result<(), AllocError> {
    for _ in 0..4 {
        match clock.now() {
            Ok(moment) => out.push_number(moment)?,
            Err(_) => out.extend(b"failed")?,
        }
        out.push(b'\n')?;
    }
    Ok(())
}

// A clock that shows the first of these numbers. Its readings with the other numbers fail.
fn clock_of(alloc: Global, words: &[String]) -> Result<MemClock, AllocError> {
    let mut numbers = Numbers::new(alloc);
    for word in words {
        numbers.push(read_number(word.as_bytes()).unwrap_or(0))?;
    }
    let moment = numbers.as_slice().first().copied().unwrap_or(0);
    Ok(MemClock::new(moment.min(253_402_300_799), numbers))
}

// Adds what steps answer.
fn stepped(
    alloc: Global,
    verb: &str,
    site: MemSite,
    steps: &[u8],
    out: &mut Bytes,
) -> Result<(), Fail> {
    let mut site = site;
    if verb == "site" {
        Ok(on_mem_site(alloc, &mut site, steps, out)?)
    } else if verb == "unfailing" {
        let image = site.crash(alloc, 0, Fill::Old)?;
        Ok(on_unfailing(alloc, &mut Unfailing::new(image), steps, out)?)
    } else if verb == "store" {
        on_stores(alloc, site, steps, out)
    } else {
        Err(Fail::new("no call"))
    }
}

// Adds what a call answers.
fn answered(
    alloc: Global,
    words: &[String],
    input: &mut MemSource,
    site: MemSite,
    out: &mut Bytes,
) -> Result<(), Fail> {
    let [verb, words @ ..] = words else {
        return Err(Fail::new("no call"));
    };
    let verb = verb.as_str();
    if verb == "source" {
        Ok(pairs(input, out)?)
    } else if verb == "clock" {
        Ok(moments(&mut clock_of(alloc, words)?, out)?)
    } else {
        let steps = read_whole(alloc, input)?;
        stepped(alloc, verb, site, steps.as_slice(), out)
    }
}

impl Program for Disk {
    fn ended(
        alloc: Global,
        words: &[String],
        input: &mut MemSource,
        site: MemSite,
        _clock: &mut MemClock,
    ) -> Result<(u8, MemSite), Fail> {
        let image = site.crash(alloc, 0, Fill::Old)?;
        let mut out = Bytes::new(alloc);
        answered(alloc, words, input, site, &mut out)?;
        ended_with(alloc, 0, image, out.as_slice())
    }
}
