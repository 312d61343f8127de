// The calls of the tables, as words over the files of an archive. Of posts: `count`, `post NUMBER`, `index GROUP`, `range FIRST LAST`, `thread
// PREFIX NUMBER`, `append PREFIX TIMES` and `audit PREFIX`. Of pages: `months`, `listing`, `month YEAR MONTH PAGE` and `page FIRST PAGE`, a page
// of the thread that begins with post FIRST. Of the input: `key PREFIX`, `subject` and `escape`. And `indexes COUNT`, which makes the indexes
// of COUNT posts, whose entries are all the input. The number `last` is the greatest that there is.
use crate::{audits, damage, pages, posts, subjects};
use ml_archive::audit;
use ml_base::{Address, Bytes, Layer, Name, PartError, Txn, is_moment, read_number};
use ml_config::read_config;
use ml_filing::{Appended, append, count, index, post, range, subject, subject_key, thread};
use ml_header::Message;
use ml_pages::{escape, list_text, month_page, months, thread_page, threads};
use ml_site::{Clock, Fill, Image, MemClock, MemSite, MemSource};
use std::alloc::{AllocError, Global};
use std::test::Fail;
use trials_lists::{Texts, error_text, lay};
use trials_scripts::{OnSite, Program, ended_with, hold, read_whole};

pub(crate) struct Calls;

type Archive = Layer<OnSite>;

// What a call answers, or None if there is no such call.
type Answer = Result<Option<Bytes>, PartError>;

// The word at a place. If there are fewer it is empty.
fn word(words: &[String], at: usize) -> &[u8] {
    match words.get(at) {
        Some(word) => word.as_bytes(),
        None => &[],
    }
}

fn number(words: &[String], at: usize) -> u64 {
    let text = word(words, at);
    if text == b"last".as_slice() {
        u64::MAX
    } else {
        read_number(text).unwrap_or(0)
    }
}

// A line for every number.
fn lines(alloc: Global, numbers: &[u64]) -> Answer {
    let mut out = Bytes::new(alloc);
    for number in numbers {
        out.push_number(*number)?;
        out.push(b'\n')?;
    }
    Ok(Some(out))
}

// A line of a post's moment, sender and subject, and then its bytes; `-` if it isn't there.
fn posted(alloc: Global, archive: &mut Archive, number: u64) -> Answer {
    let Some(post) = post(alloc, archive, number)? else {
        return Ok(Some(Bytes::from_slice(alloc, b"-")?));
    };
    let mut out = Bytes::new(alloc);
    out.push_number(post.moment)?;
    for part in [post.sender.bytes(), post.subject.as_slice()] {
        out.push(b' ')?;
        out.extend(part)?;
    }
    out.push(b'\n')?;
    out.extend(post.bytes.as_slice())?;
    Ok(Some(out))
}

// A line for every entry of a group: its number, size, moment, sender and subject.
fn indexed(alloc: Global, archive: &mut Archive, group: u64) -> Answer {
    let mut out = Bytes::new(alloc);
    for entry in index(alloc, archive, group)?.as_slice() {
        let numbers = format!(in alloc; "{} {} {} ", entry.number, entry.size, entry.moment)?;
        out.extend(numbers.as_bytes())?;
        out.extend(entry.sender.bytes())?;
        out.push(b' ')?;
        out.extend(entry.subject.as_slice())?;
        out.push(b'\n')?;
    }
    Ok(Some(out))
}

// Appends posts of `g@h`: the texts of the input, with a NUL between two, TIMES times over. The answer is the last number, or `full`.
fn appended(
    alloc: Global,
    archive: &mut Archive,
    prefix: &[u8],
    times: u64,
    moment: u64,
    input: &[u8],
) -> Answer {
    let Ok(sender) = Address::parse(alloc, b"g@H") else {
        return Ok(None);
    };
    let mut last = 0;
    for _ in 0..times {
        for message in input.split(|byte| *byte == 0) {
            if !is_moment(moment) || message.len() >= 4_294_967_296 {
                return Ok(None);
            }
            match append(alloc, archive, prefix, &sender, moment, message)? {
                Appended::Full => return Ok(Some(Bytes::from_slice(alloc, b"full")?)),
                Appended::At(number, txn) => {
                    archive.lay(txn)?;
                    last = number;
                }
            }
        }
    }
    lines(alloc, &[last])
}

const CONFIG: &[u8] =
    b"flags BDFGHJKLMpRSTU\nlocal list\nhost ex.org\nowner o@own.org\nprefix [l]\nmax 1048576\n";

// The list of months, that of months and threads, or a page; `-` if there is no such page.
fn paged(alloc: Global, archive: &mut Archive, verb: &str, words: &[String]) -> Answer {
    let Some(config) = read_config(alloc, CONFIG)? else {
        return Ok(None);
    };
    let (first, second) = (number(words, 0), number(words, 1));
    let page = if verb == "months" {
        let months = months(alloc, archive)?;
        Some(list_text(alloc, months.as_slice(), &[])?)
    } else if verb == "listing" {
        let months = months(alloc, archive)?;
        let threads = threads(alloc, archive, b"[l]")?;
        Some(list_text(alloc, months.as_slice(), threads.as_slice())?)
    } else if verb == "month" {
        let (year, month) = (first.min(65_535) as u16, second.min(255) as u8);
        month_page(alloc, archive, &config, year, month, number(words, 2))?
    } else if verb == "page" {
        thread_page(alloc, archive, &config, first, second)?
    } else {
        return Ok(None);
    };
    match page {
        Some(page) => Ok(Some(page)),
        None => Ok(Some(Bytes::from_slice(alloc, b"-")?)),
    }
}

// Of a text: its key with a prefix, and then the key of that key if it is a different one; the subject of a message; or its HTML.
fn of_text(
    alloc: Global,
    verb: &str,
    prefix: &[u8],
    text: &[u8],
) -> Result<Option<Bytes>, AllocError> {
    if verb == "key" {
        let mut key = subject_key(alloc, prefix, text)?;
        let again = subject_key(alloc, prefix, key.as_slice())?;
        if again.as_slice() != key.as_slice() {
            key.extend(again.as_slice())?;
        }
        Ok(Some(key))
    } else if verb == "subject" {
        Ok(Some(subject(alloc, &Message::scan(text))?))
    } else if verb == "escape" {
        Ok(Some(escape(alloc, text)?))
    } else {
        Ok(None)
    }
}

fn answer(
    alloc: Global,
    archive: &mut Archive,
    verb: &str,
    words: &[String],
    moment: u64,
    input: &[u8],
) -> Answer {
    let (prefix, first, second) = (word(words, 0), number(words, 0), number(words, 1));
    if verb == "count" {
        lines(alloc, &[count(alloc, archive)?])
    } else if verb == "post" {
        posted(alloc, archive, first)
    } else if verb == "index" {
        indexed(alloc, archive, first)
    } else if verb == "range" {
        lines(alloc, range(alloc, archive, first, second)?.as_slice())
    } else if verb == "thread" {
        lines(alloc, thread(alloc, archive, prefix, second)?.as_slice())
    } else if verb == "append" {
        appended(alloc, archive, prefix, second, moment, input)
    } else if verb == "audit" {
        audit(alloc, archive, prefix)?;
        Ok(Some(Bytes::from_slice(alloc, b"sound")?))
    } else if verb == "key" || verb == "subject" || verb == "escape" {
        Ok(of_text(alloc, verb, prefix, input)?)
    } else {
        paged(alloc, archive, verb, words)
    }
}

fn put_indexes(
    alloc: Global,
    files: &mut Texts,
    count: u64,
    entry: &[u8],
) -> Result<(), AllocError> {
    for at in 0..=count / 100 {
        let first = (100 * at).max(1);
        let end = (100 * at).saturating_add(100).min(count.saturating_add(1));
        let mut text = Bytes::new(alloc);
        for _ in first..end {
            text.extend(entry)?;
        }
        files.insert(Name { kind: 10, at }, text)?;
    }
    Ok(())
}

impl Program for Calls {
    fn ended(
        alloc: Global,
        words: &[String],
        input: &mut MemSource,
        site: MemSite,
        clock: &mut MemClock,
    ) -> Result<(u8, MemSite), Fail> {
        let [verb, words @ ..] = words else {
            return Err(Fail::new("no call"));
        };
        let (verb, input) = (verb.as_str(), read_whole(alloc, input)?);
        let mut image = site.crash(alloc, 0, Fill::Old)?;
        if verb == "indexes" {
            put_indexes(alloc, &mut image.files, number(words, 0), input.as_slice())?;
            return ended_with(alloc, 0, image, b"");
        }
        let Image { log, files } = image;
        let mut archive = Layer::new(OnSite { site, files }, Txn::new(alloc));
        let moment = clock.now()?;
        let answer = answer(alloc, &mut archive, verb, words, moment, input.as_slice());
        let (status, text) = match answer {
            Ok(Some(text)) => (0, text),
            Ok(None) => return Err(Fail::new(format_args!("no call: {verb}"))),
            Err(PartError::Memory) => return Err(Fail::new("no memory")),
            Err(PartError::Fault) => (111, error_text(alloc, PartError::Fault)?),
            Err(error) => (75, error_text(alloc, error)?),
        };
        let (place, puts) = archive.parts();
        let mut files = place.files;
        lay(alloc, &mut files, &puts)?;
        ended_with(alloc, status, Image { log, files }, text.as_slice())
    }
}

#[test]
fn rows_are_answered(rt: HostRuntime) -> Result<(), Fail> {
    let alloc = rt.alloc();
    hold::<Calls>(alloc, "subjects", subjects::TABLE)?;
    hold::<Calls>(alloc, "posts", posts::TABLE)?;
    hold::<Calls>(alloc, "damaged archives", damage::TABLE)?;
    hold::<Calls>(alloc, "audits", audits::TABLE)?;
    hold::<Calls>(alloc, "pages", pages::TABLE)
}

#[test]
fn a_long_archive_is_audited(rt: HostRuntime) -> Result<(), Fail> {
    hold::<Calls>(rt.alloc(), "audits of a long archive", audits::LONG)
}
