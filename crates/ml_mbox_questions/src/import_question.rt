// The stream of a mailbox as a question of a list.
ghost use Rattle.std.specs.Prelude.{◌≡◌, ◌≤◌, true, IfOk};
ghost use Rattle.ml_mbox_questions.specs.Questions.{import_first, importing_meaning, importing_of, mailbox_in};
ghost use Rattle.ml_mbox_questions.specs.Imports.{import_answer, mails_of};

use crate::error::ImportError;
use crate::stream::import_text;
use ml_base::{Bytes, Files, PartError};
use ml_config::Config;
use ml_input::{FromInput, InputError};
use ml_mbox::Mails;
use ml_reading::{Answer, Question};
use std::alloc::{AllocError, Global};
use std::marker::Model;

/// The most bytes that a mailbox may have that is imported.
pub const MOST_MAILBOX: u32 = 268_435_456;

/// The highest number that the first item of an import may have: it leaves room after it for the mails of any mailbox.
pub const LAST_IMPORT_START: u64 = 999_900_000_000;

/// What words say of an import: the number of its first item, from 1 to `LAST_IMPORT_START`.
#[derive(Drop)]
pub struct ImportWords {
    first: u64,
}

impl Model for ImportWords {
    ghost use Rattle.std.specs.Prelude.{ℕ};
    ghost use Rattle.ml_mbox_questions.specs.Numbers.{IsFirst};

    ghost Value = { ℕ };

    ghost view = { λ w. w.first };

    ghost invariant = { λ w. IsFirst w.first };
}

impl ImportWords {
    /// An import whose items are numbered from `first` on, or None if `first` is 0 or above `LAST_IMPORT_START`.
    pub fn new(first: u64) -> Option<ImportWords>
        ensures { result ≡ import_first first }
    {
        if 1 <= first && first <= LAST_IMPORT_START {
            Some(ImportWords { first })
        } else {
            None
        }
    }
}

// A text that is a mailbox.
#[derive(Drop)]
struct Mailbox {
    text: Bytes,
}

impl Model for Mailbox {
    ghost use Rattle.std.specs.Prelude.{◌≡◌, true, is_some};
    ghost use Rattle.ml_base.specs.Bytes.{Text};
    ghost use Rattle.ml_mbox.specs.Reading.{read};

    ghost Value = { Text };

    ghost view = { λ m. m.text };

    ghost invariant = { λ m. is_some (read m.text) ≡ true };
}

impl Mailbox {
    // A text as a mailbox, or None if it is none. It takes no memory, and looks only at the front of the text.
    fn new(text: Bytes) -> Option<Mailbox>
        ensures { result ≡ mailbox_in text }
    {
        if Mails::open(text.as_slice()).is_some() {
            Some(Mailbox { text })
        } else {
            None
        }
    }
}

/// The stream of posts that a mailbox makes: each mail one delivery to the list, all of one moment.
#[derive(Drop)]
pub struct Importing {
    words: ImportWords,
    moment: u64,
    text: Mailbox,
}

impl Question for Importing {
    ghost meaning = { λ it. importing_meaning it.words it.moment it.text };

    fn answer<F: Files>(
        &self,
        alloc: Global,
        config: &Config,
        _files: &mut F,
    ) -> Result<Answer, PartError> {
        let words = &self.words;
        let answer = answer_of(alloc, config, words.first, self.moment, &self.text)?;
        Ok(answer)
    }
}

// The stream of the mails of a mailbox, or `Long`.
fn answer_of(
    alloc: Global,
    config: &Config,
    first: u64,
    moment: u64,
    mailbox: &Mailbox,
) -> Result<Answer, AllocError>
    requires { first ≤ 999_900_000_000 }
    ensures { IfOk result (λ answer. answer ≡ import_answer config.now first moment (mails_of mailbox.now)) }
{
    let text = mailbox.text.as_slice();
    let Some(mails) = Mails::open(text) else {
        unreachable!()
    };
    match import_text(alloc, config, first, moment, mails) {
        Ok(stream) => Ok(Answer::Text(stream)),
        Err(ImportError::Long) => Ok(Answer::Long),
        Err(ImportError::Memory) => Err(AllocError),
    }
}

impl FromInput for Importing {
    type Words = ImportWords;

    const LIMIT: u32 = MOST_MAILBOX;

    const TIMED: bool = true;

    ghost LIMIT = { 268_435_456 };

    ghost TIMED = { true };

    ghost made = { importing_of };

    fn from_input(
        _alloc: Global,
        words: ImportWords,
        moment: u64,
        input: Bytes,
    ) -> Result<Self, InputError> {
        match Mailbox::new(input) {
            Some(text) => Ok(Importing {
                words,
                moment,
                text,
            }),
            None => Err(InputError::Bad { at: 0 }),
        }
    }
}
