// A question that is made of all that a command may read: a name, the clock's moment and an input. Its answer has the number of posts.
ghost use Rattle.std.specs.Prelude.{◌≡◌, IfOk, OnOk, ◌++◌, ◌∷◌, Ok, true, false};
ghost use Rattle.std.specs.Fmt.{decimal};
ghost use Rattle.trials_reading.specs.Notes.{made_of, note, note_meaning, note_text};

use ml_base::{Bytes, Files, PartError, write_number};
use ml_config::Config;
use ml_filing::count;
use ml_input::{FromInput, InputError};
use ml_reading::{Answer, Question};
use std::alloc::{AllocError, Global};

// What is noted. The clock is read if `CLOCK` is true.
#[derive(Drop)]
pub(crate) struct Noted<const CLOCK: bool> {
    name: Bytes,
    moment: u64,
    input: Bytes,
}

impl<const CLOCK: bool> Question for Noted<CLOCK> {
    ghost meaning = { λ it. note_meaning it.name it.moment it.input };

    fn answer<F: Files>(
        &self,
        alloc: Global,
        _config: &Config,
        files: &mut F,
    ) -> Result<Answer, PartError> {
        let posts = count(alloc, files)?;
        Ok(told_of(alloc, &self.name, self.moment, &self.input, posts)?)
    }
}

// The answer for this number of posts.
fn told_of(
    alloc: Global,
    name: &Bytes,
    moment: u64,
    input: &Bytes,
    posts: u64,
) -> Result<Answer, AllocError>
    ensures { IfOk result (λ answer. answer ≡ note name.now moment input.now posts) }
{
    match input.as_slice() {
        [b'-', ..] => Ok(Answer::Absent),
        [b'+', ..] => Ok(Answer::Long),
        _ => Ok(Answer::Text(text(alloc, name, moment, input, posts)?)),
    }
}

// The text of a note.
fn text(
    alloc: Global,
    name: &Bytes,
    moment: u64,
    input: &Bytes,
    posts: u64,
) -> Result<Bytes, AllocError>
    ensures { IfOk result (λ text. text ≡ note_text name.now moment input.now posts) }
{
    let mut out = Bytes::from_slice(alloc, name.as_slice())?;
    add_number(&mut out, moment)?;
    add_number(&mut out, posts)?;
    out.push(b' ')?;
    out.extend(input.as_slice())?;
    Ok(out)
}

// Adds a space and the digits of a number.
fn add_number(out: &mut Bytes, number: u64) -> Result<(), AllocError>
    ensures { OnOk result (out.new ≡ out.old ++ (32 ∷ decimal number)) }
{
    let mut digits = [0; 20];
    let len = write_number(number, &mut digits);
    out.push(b' ')?;
    out.extend(&digits[..len])
}

impl<const CLOCK: bool> FromInput for Noted<CLOCK> {
    type Words = Bytes;

    const LIMIT: u32 = 70_000;

    const TIMED: bool = CLOCK;

    ghost LIMIT = { 70_000 };

    ghost TIMED = { CLOCK };

    ghost made = { λ words moment input. made_of (λ text. record { name = words; moment = moment; input = text }) input };

    fn from_input(
        _alloc: Global,
        words: Bytes,
        moment: u64,
        input: Bytes,
    ) -> Result<Self, InputError> {
        if input.as_slice().first() == Some(&b'!') {
            return Err(InputError::Bad {
                at: input.len() as u64,
            });
        }
        Ok(Noted {
            name: words,
            moment,
            input,
        })
    }
}
