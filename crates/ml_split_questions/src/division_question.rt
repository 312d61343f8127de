// The division of a set as a question of a list.
ghost use Rattle.std.specs.Prelude.{false};
ghost use Rattle.ml_split_questions.specs.Questions.{division_meaning, division_of};
ghost use Rattle.ml_input.specs.Asking.{IsMade};
ghost use Rattle.ml_split.specs.Reading.{rules_in};

use crate::answers::division;
use ml_base::{Bytes, Files, PartError, Set};
use ml_config::Config;
use ml_input::{FromInput, InputError};
use ml_reading::{Answer, Question};
use ml_split::{Rules, RulesError, read_rules};
use std::alloc::Global;

/// The most bytes that rules may have.
pub const MOST_RULES: u32 = 1_048_576;

/// The parts into which rules divide a set, and their members.
#[derive(Drop)]
pub struct Division {
    pub set: Set,
    pub rules: Rules,
}

impl Question for Division {
    ghost meaning = { λ it. division_meaning it.set it.rules };

    fn answer<F: Files>(
        &self,
        alloc: Global,
        _config: &Config,
        files: &mut F,
    ) -> Result<Answer, PartError> {
        let text = division(alloc, files, self.set, &self.rules)?;
        Ok(Answer::Text(text))
    }
}

impl FromInput for Division {
    type Words = Set;

    const LIMIT: u32 = MOST_RULES;

    const TIMED: bool = false;

    ghost LIMIT = { 1_048_576 };

    ghost TIMED = { false };

    ghost made = { λ set moment text. division_of set (rules_in text) };

    fn from_input(
        alloc: Global,
        words: Set,
        _moment: u64,
        input: Bytes,
    ) -> Result<Self, InputError> {
        let rules = rules_of(alloc, &input)?;
        Ok(Division { set: words, rules })
    }
}

// The rules of an input, or the place of the first line that is no rule.
pub(crate) fn rules_of(alloc: Global, input: &Bytes) -> Result<Rules, InputError>
    ensures { IsMade (rules_in input.now) result }
{
    match read_rules(alloc, input.as_slice()) {
        Ok(rules) => Ok(rules),
        Err(RulesError::Bad { at }) => Err(InputError::Bad { at }),
        Err(RulesError::Memory) => Err(InputError::Memory),
    }
}
