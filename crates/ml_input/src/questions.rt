// Questions that are made of an input.
ghost use Rattle.std.specs.Prelude.{◌≡◌, ◌≤◌, ℕ, Bool, Result, Ok, Err, IfOk, IfErr, length};
ghost use Rattle.ml_base.specs.Bytes.{Text};
ghost use Rattle.ml_base.specs.Ranges.{IsMoment};
ghost use Rattle.ml_ending.specs.Lines.{HasPath};
ghost use Rattle.ml_input.specs.Asking.{Asks, AsksAt, HasNoQuestion, InputQuestion, IsMade, IsQuestion, ReadsClock};

use crate::error::InputError;
use crate::input::read_input;
use ml_base::Bytes;
use ml_ending::{Why, stop};
use ml_reading::{Question, read_list};
use ml_site::{Clock, Site, Source};
use std::alloc::Global;

/// A question that is made of words, of the whole input, and of the clock's moment if it wants one.
///
/// `ask` does all that a command with such a question does: it reads the clock and the input first, and only then the list.
pub trait FromInput: Question + Drop {
    /// What the words of its command say.
    type Words: Drop;

    /// The most bytes of its input.
    const LIMIT: u32;

    /// Whether the clock is read.
    const TIMED: bool;

    ghost LIMIT: { ℕ };

    ghost TIMED: { Bool };

    /// Which question it is by the words, a moment and an input, or at which place the input is bad.
    ghost made: { Self.Words → ℕ → Text → Result Self ℕ };

    /// The question of these words, of a moment, in seconds since 1970, and of the whole input. The moment is 0 if no clock is read.
    fn from_input(
        alloc: Global,
        words: Self::Words,
        moment: u64,
        input: Bytes,
    ) -> Result<Self, InputError>
        requires moment { IsMoment moment }
        requires fits { length input ≤ LIMIT }
        ensures value { IsMade (made words moment input) result };
}

/// Asks the question of these words: reads the clock if it is wanted, then the input, and then the list.
///
/// If nothing is asked, a stop line says why: 69 if the clock can't be read, 74 if the input can't, 65 `long` if it has more bytes than it may
/// have, 65 `bad` with a place if it isn't as it must be, and 71. Then no call on the disk is made. Otherwise it ends as `read_list` does.
pub fn ask<Q: FromInput, I: Source, S: Site, K: Clock>(
    alloc: Global,
    words: Q::Words,
    input: &mut I,
    site: S,
    clock: &mut K,
) -> (u8, S)
    ensures does { Asks ⟦<I as Source>⟧ ⟦<S as Site>⟧ ⟦<K as Clock>⟧ (record { Question = Q; timed = Q.TIMED; limit = Q.LIMIT; made = Q.made words; meaning = Q.Question.meaning }) input.old input.new site result.1 clock.old clock.new result.0 }
    ensures clock { ReadsClock ⟦<K as Clock>⟧ Q.TIMED clock.old clock.new }
{
    if !Q::TIMED {
        return ask_at::<Q, I, S>(alloc, words, 0, input, site);
    }
    match clock.now() {
        Ok(moment) => ask_at::<Q, I, S>(alloc, words, moment, input, site),
        Err(_) => stop(site, Why::Clock),
    }
}

// Asks the question of the input at this moment.
fn ask_at<Q: FromInput, I: Source, S: Site>(
    alloc: Global,
    words: Q::Words,
    moment: u64,
    input: &mut I,
    site: S,
) -> (u8, S)
    requires { IsMoment moment }
    ensures { AsksAt ⟦<I as Source>⟧ ⟦<S as Site>⟧ (record { Question = Q; timed = Q.TIMED; limit = Q.LIMIT; made = Q.made words; meaning = Q.Question.meaning }) moment input.old input.new site result.1 result.0 }
{
    match question_of::<Q, I>(alloc, words, moment, input) {
        Ok(question) => read_list(alloc, &question, site),
        Err(why) => stop(site, why),
    }
}

// The question of the input at this moment, or why there is none.
fn question_of<Q: FromInput, I: Source>(
    alloc: Global,
    words: Q::Words,
    moment: u64,
    input: &mut I,
) -> Result<Q, Why>
    requires { IsMoment moment }
    ensures made { IfOk result (IsQuestion ⟦<I as Source>⟧ Q.LIMIT (Q.made words moment) input.old input.new) }
    ensures none { IfErr result (HasNoQuestion ⟦<I as Source>⟧ Q.LIMIT (Q.made words moment) input.old input.new) }
    ensures path { IfErr result HasPath }
{
    let text = read_input(alloc, Q::LIMIT, input)?;
    match Q::from_input(alloc, words, moment, text) {
        Ok(question) => Ok(question),
        Err(InputError::Bad { at }) => Err(Why::Bad(at)),
        Err(InputError::Memory) => Err(Why::Memory),
    }
}
