// The calls of the tables, as words. `new` makes a list. The calls are `verdict SENDER`, `post SENDER`, `mail SENDER RECIPIENT`, `due`,
// `answer TICKET LETTERS` with `accept` or `reject`, and `timed`. Letters of options may follow a call, and the most bytes of a post. `bounced`
// gives the list 1,002 members, and mail to each of them has bounced.
ghost use Rattle.std.specs.Prelude.{IfOk};
ghost use Rattle.ml_config.specs.Configuration.{IsConfig};

use crate::calls::{Told, answered, found, mailed, posted, served, timed_run};
use crate::{
    archive, bounces, confirmations, examples, mails, moderation, posts, returned_posts, rules,
    subscriptions, timed_bounces, timed_digests, timed_runs, verdicts,
};
use ml_base::{Bytes, read_number};
use ml_config::Config;
use ml_site::{Clock, Fill, Image, MemClock, MemSite, MemSource};
use std::alloc::Global;
use std::test::Fail;
use trials_lists::{KEY, Made, config, lay, make};
use trials_scripts::{OnSite, Program, ended_with, hold, read_whole};

pub(crate) struct Requests;

// The most bytes of a post, if no word gives it.
const MAX: u64 = 1_048_576;

// A closed gate.
const LOG: &[u8] = b"\0";

// The keys, the number of posts, and the counters of tickets and of ids.
const NEW: &[Made] = &[
    Made::Text(2, 0, &KEY),
    Made::Text(11, 0, b"0\n"),
    Made::Text(14, 0, b"1:1\n"),
    Made::Text(18, 0, b"1:1\n"),
];

// The members, and in the ledgers post 1, which bounced at 1,000,010,000.
const BOUNCED: &[Made] = &[
    Made::Buckets(3, (10_000, 11_001), b"u%@h", b"Tu%@h\x00"),
    Made::Buckets(
        15,
        (10_000, 11_001),
        b"u%@h",
        b"33:8:u%@h,10:1000010000,1:n,1:1,,",
    ),
];

fn word(words: &[String], at: usize) -> &str {
    match words.get(at) {
        Some(word) => word.as_str(),
        None => "",
    }
}

// The configuration of these letters of options and this number of bytes. Subjects are marked with `[list]` if they are marked.
fn configured(alloc: Global, letters: &str, max: &str) -> Result<Config, Fail>
    ensures { IfOk result IsConfig }
{
    let letters = letters.as_bytes();
    let prefix: &[u8] = if letters.contains(&b'f') {
        b"[list]"
    } else {
        b""
    };
    let max = read_number(max.as_bytes()).unwrap_or(MAX);
    config(alloc, letters, prefix, max)
}

// What a call on a list answers at a moment, with the input as the message.
fn called(
    alloc: Global,
    words: &[String],
    files: &mut OnSite,
    now: u64,
    message: &[u8],
) -> Result<Told, Fail> {
    let (verb, who) = (word(words, 0), word(words, 1));
    if verb == "verdict" {
        let config = configured(alloc, word(words, 2), word(words, 3))?;
        found(alloc, files, &config, who.as_bytes(), message)
    } else if verb == "post" {
        let config = configured(alloc, word(words, 2), word(words, 3))?;
        posted(alloc, files, &config, now, who.as_bytes(), message)
    } else if verb == "answer" {
        let config = configured(alloc, word(words, 4), word(words, 5))?;
        answered(
            alloc,
            files,
            &config,
            now,
            who,
            word(words, 2),
            word(words, 3),
        )
    } else if verb == "mail" {
        let config = configured(alloc, word(words, 3), word(words, 4))?;
        let recipient = word(words, 2).as_bytes();
        mailed(
            alloc,
            files,
            &config,
            now,
            who.as_bytes(),
            recipient,
            message,
        )
    } else if verb == "due" {
        served(alloc, files, now)
    } else {
        Err(Fail::new("no call"))
    }
}

// Whether the first word makes a list, which is then in the image.
fn made(alloc: Global, words: &[String], image: &mut Image) -> Result<bool, Fail> {
    let verb = word(words, 0);
    if verb == "new" {
        image.log = Bytes::from_slice(alloc, LOG)?;
        make(alloc, &mut image.files, NEW)?;
    } else if verb == "bounced" {
        make(alloc, &mut image.files, BOUNCED)?;
    }
    Ok(verb == "new" || verb == "bounced")
}

// The files after a call, and its answer.
fn called_on(
    alloc: Global,
    words: &[String],
    files: OnSite,
    now: u64,
    message: &[u8],
) -> Result<(OnSite, Told), Fail> {
    if word(words, 0) == "timed" {
        let config = configured(alloc, word(words, 1), "")?;
        return timed_run(alloc, files, &config, now);
    }
    let mut files = files;
    let told = called(alloc, words, &mut files, now, message)?;
    Ok((files, told))
}

// How a call ends over this image, with its puts laid over the files.
fn ended_by(
    alloc: Global,
    words: &[String],
    site: MemSite,
    image: Image,
    now: u64,
    message: &[u8],
) -> Result<(u8, MemSite), Fail> {
    let Image { log, files } = image;
    let (files, (puts, text)) = called_on(alloc, words, OnSite { site, files }, now, message)?;
    let OnSite { mut files, .. } = files;
    lay(alloc, &mut files, &puts)?;
    ended_with(alloc, 0, Image { log, files }, text.as_slice())
}

impl Program for Requests {
    fn ended(
        alloc: Global,
        words: &[String],
        input: &mut MemSource,
        site: MemSite,
        clock: &mut MemClock,
    ) -> Result<(u8, MemSite), Fail> {
        let mut image = site.crash(alloc, 0, Fill::Old)?;
        if made(alloc, words, &mut image)? {
            return ended_with(alloc, 0, image, b"");
        }
        let message = read_whole(alloc, input)?;
        let now = clock.now()?;
        ended_by(alloc, words, site, image, now, message.as_slice())
    }
}

#[test]
fn posts_and_answers(rt: HostRuntime) -> Result<(), Fail> {
    let alloc = rt.alloc();
    hold::<Requests>(alloc, "verdicts", verdicts::TABLE)?;
    hold::<Requests>(alloc, "posts", posts::TABLE)?;
    hold::<Requests>(alloc, "moderated", moderation::TABLE)
}

#[test]
fn mail_to_other_addresses(rt: HostRuntime) -> Result<(), Fail> {
    let alloc = rt.alloc();
    hold::<Requests>(alloc, "rules", rules::TABLE)?;
    hold::<Requests>(alloc, "joining", subscriptions::TABLE)?;
    hold::<Requests>(alloc, "confirming", confirmations::TABLE)?;
    hold::<Requests>(alloc, "mails", mails::TABLE)?;
    hold::<Requests>(alloc, "worked", examples::TABLE)?;
    hold::<Requests>(alloc, "bounces", bounces::TABLE)?;
    hold::<Requests>(alloc, "archive", archive::TABLE)
}

#[test]
fn answers_are_cut(rt: HostRuntime) -> Result<(), Fail> {
    hold::<Requests>(rt.alloc(), "cut answers", archive::CUTS)
}

#[test]
fn due_things_are_done(rt: HostRuntime) -> Result<(), Fail> {
    let alloc = rt.alloc();
    hold::<Requests>(alloc, "held posts", returned_posts::TABLE)?;
    hold::<Requests>(alloc, "bounces of timed runs", timed_bounces::TABLE)?;
    hold::<Requests>(alloc, "digests", timed_digests::TABLE)?;
    hold::<Requests>(alloc, "timed runs", timed_runs::TABLE)
}
