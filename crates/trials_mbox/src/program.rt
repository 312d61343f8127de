// The calls of the tables, as words, with a text in the input and a moment on the clock. Over the files, `out FIRST LAST` asks the list for these
// posts as a mailbox, and `import` for the text as a stream from number 900 on. `mails` has the calls without files.
ghost use Rattle.std.specs.Prelude.{◌<◌};

use crate::mails;
use ml_base::{Bytes, PartError, read_number};
use ml_input::{FromInput, InputError};
use ml_mbox_questions::{Importing, MboxQuery, import_words};
use ml_reading::{Answer, Question};
use ml_site::{Clock, Fill, MemClock, MemSite, MemSource};
use std::alloc::{AllocError, Global};
use std::test::Fail;
use trials_lists::{config, copy, error_text};
use trials_scripts::{OnSite, Program, ended_with, read_whole};

pub(crate) struct Mailboxes;

// The number of a word, or the last one of all.
fn number(word: &[u8]) -> u64 {
    if word == b"last".as_slice() {
        u64::MAX
    } else {
        read_number(word).unwrap_or(0)
    }
}

// The text of an answer.
fn told(alloc: Global, answer: Result<Answer, PartError>) -> Result<Bytes, AllocError> {
    match answer {
        Ok(Answer::Text(text)) => Ok(text),
        Ok(Answer::Absent) => Bytes::from_slice(alloc, b"absent"),
        Ok(Answer::Long) => Bytes::from_slice(alloc, b"long"),
        Err(error) => error_text(alloc, error),
    }
}

// The answer of an import, or the place at which its input is bad.
fn imported(alloc: Global, moment: u64, text: Bytes, files: &mut OnSite) -> Result<Bytes, Fail>
    requires { moment < 253_402_300_800 }
{
    let words = import_words(b"900").ok_or("no number")?;
    if text.len() > 1_000_000 {
        return Err(Fail::new("too long"));
    }
    let question = match Importing::from_input(alloc, words, moment, text) {
        Ok(question) => question,
        Err(InputError::Bad { at }) => {
            let text = format!(in alloc; "bad {at}")?;
            return Ok(Bytes::from_slice(alloc, text.as_bytes())?);
        }
        Err(e) => return Err(e)?,
    };
    let config = config(alloc, b"", b"", 1_048_576)?;
    Ok(told(alloc, question.answer(alloc, &config, files))?)
}

// The posts of an archive as a mailbox.
fn posts(alloc: Global, first: &[u8], last: &[u8], files: &mut OnSite) -> Result<Bytes, Fail> {
    let query = MboxQuery {
        first: number(first),
        last: number(last),
    };
    let config = config(alloc, b"", b"", 1_048_576)?;
    Ok(told(alloc, query.answer(alloc, &config, files))?)
}

// The word at a place. If there are fewer it is empty.
fn word(words: &[String], at: usize) -> &[u8] {
    match words.get(at) {
        Some(word) => word.as_bytes(),
        None => &[],
    }
}

impl Program for Mailboxes {
    fn ended(
        alloc: Global,
        words: &[String],
        input: &mut MemSource,
        site: MemSite,
        clock: &mut MemClock,
    ) -> Result<(u8, MemSite), Fail> {
        let (verb, first, last) = (word(words, 0), word(words, 1), word(words, 2));
        let input = read_whole(alloc, input)?;
        let moment = clock.now()?;
        let image = site.crash(alloc, 0, Fill::Old)?;
        let files = copy(alloc, &image.files)?;
        let mut files = OnSite { site, files };
        let text = if verb == b"out".as_slice() {
            posts(alloc, first, last, &mut files)?
        } else if verb == b"import".as_slice() {
            imported(alloc, moment, input, &mut files)?
        } else {
            mails::told(alloc, verb, first, last, input.as_slice(), moment)?
        };
        ended_with(alloc, 0, image, text.as_slice())
    }
}
