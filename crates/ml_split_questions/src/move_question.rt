// The stream that moves a part as a question of a list.
ghost use Rattle.std.specs.Prelude.{◌≡◌, ◌≤◌, true};
ghost use Rattle.ml_split_questions.specs.Questions.{move_words, moving_meaning, moving_of};
ghost use Rattle.ml_reading.specs.Queries.{text_or_absent};
ghost use Rattle.ml_split.specs.Reading.{rules_in};

use crate::answers::moving;
use crate::division_question::{MOST_RULES, rules_of};
use ml_base::{Bytes, Files, PartError, Set};
use ml_config::Config;
use ml_input::{FromInput, InputError};
use ml_reading::{Answer, Question};
use ml_split::Rules;
use std::alloc::Global;
use std::marker::Model;

/// The highest number that the first item of a stream may have: it leaves room for 100,000 items after it.
pub const LAST_MOVE_START: u64 = 999_999_900_000;

/// What words say of the stream that moves a part: into a set or out of it, from which number on, the set, and the name of the part.
#[derive(Drop)]
pub struct MoveWords {
    into: bool,
    first: u64,
    set: Set,
    name: Bytes,
}

impl Model for MoveWords {
    ghost use Rattle.std.specs.Prelude.{◌≤◌};
    ghost use Rattle.ml_split_questions.specs.Moves.{PlainMove};

    ghost Value = { PlainMove };

    ghost view = { λ w. record { into = w.into; first = w.first; set = w.set; name = w.name } };

    ghost invariant = { λ w. w.first ≤ 999_999_900_000 };
}

impl MoveWords {
    /// The stream that moves the part of a name, numbered from `first` on, or None if `first` is 0 or above `LAST_MOVE_START`.
    pub fn new(into: bool, first: u64, set: Set, name: Bytes) -> Option<MoveWords>
        ensures { result ≡ move_words into first set name }
    {
        if 1 <= first && first <= LAST_MOVE_START {
            Some(MoveWords {
                into,
                first,
                set,
                name,
            })
        } else {
            None
        }
    }
}

/// The stream that moves a part of a set, by rules.
#[derive(Drop)]
pub struct Moving {
    words: MoveWords,
    rules: Rules,
    moment: u64,
}

impl Question for Moving {
    ghost meaning = { λ it. moving_meaning it.words it.rules it.moment };

    fn answer<F: Files>(
        &self,
        alloc: Global,
        _config: &Config,
        files: &mut F,
    ) -> Result<Answer, PartError> {
        let words = &self.words;
        let stream = moving(
            alloc,
            files,
            words.set,
            &self.rules,
            words.name.as_slice(),
            words.into,
            words.first,
            self.moment,
        )?;
        Ok(one(stream))
    }
}

// A stream, which may be absent.
fn one(found: Option<Bytes>) -> Answer
    ensures { result ≡ text_or_absent found }
{
    match found {
        Some(text) => Answer::Text(text),
        None => Answer::Absent,
    }
}

impl FromInput for Moving {
    type Words = MoveWords;

    const LIMIT: u32 = MOST_RULES;

    const TIMED: bool = true;

    ghost LIMIT = { 1_048_576 };

    ghost TIMED = { true };

    ghost made = { λ words moment text. moving_of words moment (rules_in text) };

    fn from_input(
        alloc: Global,
        words: MoveWords,
        moment: u64,
        input: Bytes,
    ) -> Result<Self, InputError> {
        let rules = rules_of(alloc, &input)?;
        Ok(Moving {
            words,
            rules,
            moment,
        })
    }
}
