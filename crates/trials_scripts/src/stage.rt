// A list in memory, and running one command over it.
use crate::texts::{Named, spelled_with};
use ml_base::{Bytes, Numbers};
use ml_site::{Fill, Image, MemClock, MemSite, MemSource, Site, Source};
use std::alloc::{AllocError, Global};
use std::collections::BTreeMap;
use std::test::Fail;
use trials_lists::copy;

/// What is tried: a program of words, an input, a disk with its output, and a clock.
pub trait Program {
    /// Runs the program, and answers its status and the site.
    fn ended(
        alloc: Global,
        words: &[String],
        input: &mut MemSource,
        site: MemSite,
        clock: &mut MemClock,
    ) -> Result<(u8, MemSite), Fail>;
}

// What the next command meets: the moment that the clock shows, if any, the input, the reads of it that fail, the calls that fail, the
// room for calls and for its output, the call after which it is stopped, and what is left then in place of what no sync has settled.
#[derive(Drop)]
pub(crate) struct Next {
    pub(crate) moment: Option<u64>,
    pub(crate) input: Bytes,
    pub(crate) reads: Numbers,
    pub(crate) failing: Numbers,
    pub(crate) calls: usize,
    pub(crate) room: usize,
    pub(crate) stop: u64,
    pub(crate) fill: Fill,
}

/// A list as it is at a step, the list as it was before the last command, how many bytes that command left of its input, and what the next one
/// meets.
#[derive(Drop)]
pub(crate) struct Stage {
    pub(crate) image: Image,
    pub(crate) before: Image,
    pub(crate) unread: usize,
    pub(crate) next: Next,
}

// The room for calls, and for output.
const CALLS: usize = 60_000;

const ROOM: usize = 10_000;

fn plain(alloc: Global, moment: Option<u64>, input: Bytes) -> Next {
    Next {
        moment,
        input,
        reads: Numbers::new(alloc),
        failing: Numbers::new(alloc),
        calls: CALLS,
        room: ROOM,
        stop: u64::MAX,
        fill: Fill::Old,
    }
}

fn nothing(alloc: Global) -> Image {
    Image {
        log: Bytes::new(alloc),
        files: BTreeMap::new(alloc),
    }
}

/// No log and no files, at 1,000,000,000.
pub(crate) fn empty(alloc: Global) -> Stage {
    Stage {
        image: nothing(alloc),
        before: nothing(alloc),
        unread: 0,
        next: plain(alloc, Some(1_000_000_000), Bytes::new(alloc)),
    }
}

fn copied(alloc: Global, image: &Image) -> Result<Image, AllocError> {
    Ok(Image {
        log: Bytes::from_slice(alloc, image.log.as_slice())?,
        files: copy(alloc, &image.files)?,
    })
}

/// The same list, with the same moment and input for the next command.
pub(crate) fn beginning(alloc: Global, stage: &Stage) -> Result<Stage, AllocError> {
    let image = copied(alloc, &stage.image)?;
    let input = Bytes::from_slice(alloc, stage.next.input.as_slice())?;
    Ok(Stage {
        image,
        before: nothing(alloc),
        unread: 0,
        next: plain(alloc, stage.next.moment, input),
    })
}

// A word as it is spelled. An empty one is spelled `''`.
fn word_of(alloc: Global, named: &Named, word: &str) -> Result<String, Fail> {
    if word == "''" {
        return Ok(String::new(alloc));
    }
    let word = spelled_with(alloc, named, word)?;
    Ok(String::from_utf8(word.into_vec())?)
}

// The words of a command, with single spaces between them.
fn words_of(alloc: Global, named: &Named, text: &str) -> Result<Vec<String>, Fail> {
    let mut words = Vec::new(alloc);
    for word in text.split(' ') {
        if !word.is_empty() {
            words.push(word_of(alloc, named, word)?)?;
        }
    }
    Ok(words)
}

fn source(alloc: Global, next: &Next) -> Result<MemSource, AllocError> {
    let bytes = Bytes::from_slice(alloc, next.input.as_slice())?;
    let reads = Numbers::from_vec(Vec::from_slice(alloc, next.reads.as_slice())?);
    Ok(MemSource::new(bytes, reads))
}

// A clock that shows this moment, or fails.
fn clock(alloc: Global, moment: Option<u64>) -> Result<MemClock, AllocError> {
    let Some(moment) = moment else {
        let first = Numbers::from_vec(Vec::from_slice(alloc, &[1u64])?);
        return Ok(MemClock::new(0, first));
    };
    Ok(MemClock::new(moment.min(253_402_300_799), Numbers::new(alloc)))
}

// How many bytes are left of an input. A read that is to fail may still come.
fn unread(input: &mut MemSource) -> usize {
    let mut buffer = [0; 4096];
    let mut count = 0usize;
    for _ in 0..10_000 {
        match input.read(&mut buffer) {
            Ok(0) => return count,
            Ok(more) => count = count.saturating_add(more),
            Err(_) => (),
        }
    }
    count
}

/// The whole of an input.
pub fn read_whole(alloc: Global, input: &mut MemSource) -> Result<Bytes, Fail> {
    let mut bytes = Bytes::new(alloc);
    let mut buffer = [0; 4096];
    for _ in 0..u64::MAX {
        match input.read(&mut buffer)? {
            0 => break,
            count => bytes.extend(&buffer[..count])?,
        }
    }
    Ok(bytes)
}

/// How a command ends that leaves this image: its status, and a site that has put this text out.
pub fn ended_with(
    alloc: Global,
    status: u8,
    image: Image,
    text: &[u8],
) -> Result<(u8, MemSite), Fail> {
    let mut site = MemSite::new(alloc, image, 1, text.len())?;
    site.give(text)?;
    Ok((status, site))
}

// A site with these files, whose calls fail as the next command should meet them.
fn site(alloc: Global, image: &Image, next: &Next) -> Result<MemSite, Fail> {
    let image = copied(alloc, image)?;
    let mut site = MemSite::new(alloc, image, next.calls, next.room)?;
    site.fail(alloc, next.failing.as_slice())?;
    Ok(site)
}

// How the program ends when it is run with these words on a site: its status, the site, and how many bytes are left of its input.
fn ended<P: Program>(
    alloc: Global,
    words: &[String],
    site: MemSite,
    next: &Next,
) -> Result<(u8, MemSite, usize), Fail> {
    let mut input = source(alloc, next)?;
    let mut clock = clock(alloc, next.moment)?;
    let (status, site) = P::ended(alloc, words, &mut input, site, &mut clock)?;
    Ok((status, site, unread(&mut input)))
}

// Takes what a command left on its site as the list.
fn take_left(alloc: Global, stage: &mut Stage, site: &MemSite) -> Result<(), Fail> {
    stage.before = copied(alloc, &stage.image)?;
    stage.image = site.crash(alloc, stage.next.stop, stage.next.fill)?;
    stage.next = plain(alloc, stage.next.moment, Bytes::new(alloc));
    Ok(())
}

/// Runs the program with these words, and answers its status and what it put out.
pub(crate) fn run<P: Program>(
    alloc: Global,
    named: &Named,
    stage: &mut Stage,
    words: &str,
) -> Result<(u8, Bytes), Fail> {
    let words = words_of(alloc, named, words)?;
    let site = site(alloc, &stage.image, &stage.next)?;
    let (status, site, unread) = ended::<P>(alloc, &words, site, &stage.next)?;
    let output = Bytes::from_slice(alloc, site.output())?;
    stage.unread = unread;
    take_left(alloc, stage, &site)?;
    Ok((status, output))
}
