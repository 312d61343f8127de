// Reads and writes thread files: the numbers of posts under each subject key.
ghost use Rattle.std.specs.Prelude.{◌≡◌, ◌<◌, ◌%◌, ℕ, IsTrue, [], ◌∷◌, ◌++◌, length, Some, None, IfOk, IfSome, IfNone};
ghost use Rattle.std.specs.List.{flat_map, list_all};
ghost use Rattle.ml_base.specs.Ranges as ranges;
ghost use Rattle.ml_rows.specs.Rows.{netstrings_at};
ghost use Rattle.ml_filing.specs.Appending.{with_number};
ghost use Rattle.ml_filing.specs.Reading.{thread_of_fields, thread_at};
ghost use Rattle.ml_filing.specs.Reading as spec;
ghost use Rattle.ml_filing.specs.Threads.{thread_text, thread_place, numbers_under};

use crate::Thread;
use crate::numbers::are_rising;
use ml_base::{Bytes, Numbers, hash, is_post_number, push_netstring, split_netstring};
use ml_keyed::{Keyed, find, text_with};
use ml_rows::{numbers_of, push_numbers};
use std::alloc::{AllocError, Global};
use std::cmp::Ordering;

/// The number of the thread file that has a key: 0 to 255. It takes no memory.
pub fn thread_place_of(key: &[u8]) -> u8
    ensures { result ≡ thread_place key.now }
{
    (hash(key) % 256) as u8
}

// Whether all numbers are ones that posts can have.
fn are_post_numbers(numbers: &[u64]) -> bool
    ensures { result ≡ list_all ranges.is_post_number numbers.now }
{
    numbers.iter().all(|number| is_post_number(*number))
}

// Whether a thread may be in the file with this number.
fn fits(n: u8, key: &[u8], numbers: &[u64]) -> bool
    ensures { result ≡ spec.fits n (record { key = key.now; numbers = numbers.now }) }
{
    thread_place_of(key) == n
        && !numbers.is_empty()
        && are_post_numbers(numbers)
        && are_rising(numbers)
}

// The thread that two texts spell, if it belongs to the file with this number.
fn thread_of(alloc: Global, n: u8, key: &[u8], text: &[u8]) -> Result<Option<Thread>, AllocError>
    ensures { IfOk result (λ r. r ≡ thread_of_fields n (key.now ∷ text.now ∷ [])) }
{
    let Some(numbers) = numbers_of(alloc, text)? else {
        return Ok(None);
    };
    if !fits(n, key, numbers.as_slice()) {
        return Ok(None);
    }
    let key = Bytes::from_slice(alloc, key)?;
    Ok(Some(Thread { key, numbers }))
}

// The two texts whose netstrings a text begins with, and what comes after them.
fn texts_of(text: &[u8]) -> Option<(&[u8], &[u8], &[u8])>
    ensures some { IfSome result (λ t. netstrings_at 2 text.now ≡ Some (t.0.now ∷ t.1.now ∷ [], t.2.now)) }
    ensures none { IfNone result (netstrings_at 2 text.now ≡ None) }
    ensures shorter { IfSome result (λ t. length t.2.now < length text.now) }
{
    let (key, after) = split_netstring(text)?;
    let (numbers, rest) = split_netstring(after)?;
    Some((key, numbers, rest))
}

impl<'a> Keyed<'a> for Thread {
    type File = u8;

    ghost key_of = { λ t. t.key };

    ghost asked = { λ k. k };

    ghost spelling = { thread_text };

    ghost record_at = { thread_at };

    fn compare(&self, other: &Thread) -> Ordering {
        self.key.as_slice().cmp(other.key.as_slice())
    }

    fn has_key(&self, text: &[u8]) -> bool {
        text == self.key.as_slice()
    }

    fn push(&self, alloc: Global, out: &mut Bytes) -> Result<(), AllocError> {
        let mut numbers = Bytes::new(alloc);
        push_numbers(&mut numbers, self.numbers.as_slice())?;
        push_netstring(out, self.key.as_slice())?;
        push_netstring(out, numbers.as_slice())
    }

    fn read(
        alloc: Global,
        n: u8,
        text: &'a [u8],
    ) -> Result<Option<(Thread, &'a [u8])>, AllocError> {
        let Some((key, numbers, rest)) = texts_of(text) else {
            return Ok(None);
        };
        match thread_of(alloc, n, key, numbers)? {
            Some(thread) => Ok(Some((thread, rest))),
            None => Ok(None),
        }
    }
}

// The numbers under a key.
pub(crate) fn numbers_for<'a>(threads: &'a [Thread], key: &[u8]) -> &'a [u64]
    ensures { result.now ≡ numbers_under key.now threads.now }
{
    match find(threads, key) {
        Some(thread) => thread.numbers.as_slice(),
        None => &[],
    }
}

// The thread of a key with one more number.
fn longer(alloc: Global, threads: &[Thread], key: &[u8], number: u64) -> Result<Thread, AllocError>
    ensures { IfOk result (λ thread. thread ≡ record { key = key.now; numbers = numbers_under key.now threads.now ++ number ∷ [] }) }
{
    let mut numbers = Vec::from_slice(alloc, numbers_for(threads, key))?;
    numbers.push(number)?;
    Ok(Thread {
        key: Bytes::from_slice(alloc, key)?,
        numbers: Numbers::from_vec(numbers),
    })
}

// The text of threads with one more number under a key, after those that are there.
pub(crate) fn text_with_number(
    alloc: Global,
    threads: &[Thread],
    key: &[u8],
    number: u64,
) -> Result<Bytes, AllocError>
    ensures { IfOk result (λ text. text ≡ flat_map thread_text (with_number key.now number threads.now)) }
{
    let thread = longer(alloc, threads, key, number)?;
    text_with(alloc, threads, &thread)
}
