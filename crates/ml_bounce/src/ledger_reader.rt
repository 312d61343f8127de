// Reads an entry of a ledger's file.
ghost use Rattle.std.specs.Prelude.{◌≡◌, ◌<◌, true, false, ℕ, IsTrue, List, [], ◌∷◌, Option, Some, None, IfOk, IfSome, IfNone};
ghost use Rattle.std.specs.Char.{is_ascii_uppercase};
ghost use Rattle.std.specs.List.{list_any};
ghost use Rattle.ml_base.specs.Address.{IsAddress};
ghost use Rattle.ml_rows.specs.Rows.{netstrings_at};
ghost use Rattle.ml_bounce.specs.Ledger.{is_blank_at};
ghost use Rattle.ml_bounce.specs.Reading.{stage_of, key_in, entry_of_content};
ghost use Rattle.ml_bounce.specs.Reading as spec;

use crate::numbers::are_distinct;
use crate::{LedgerEntry, Stage};
use ml_base::{Address, LAST_MOMENT, is_canonical, number_within, split_netstring};
use ml_keyed::bucket_of;
use ml_rows::numbers_of;
use std::alloc::{AllocError, Global};

pub(crate) const MAX_MISSED: usize = 100;

// The stage that a text spells.
fn read_stage(text: &[u8]) -> Option<Stage>
    ensures { result ≡ stage_of text.now }
{
    let [letter, rest @ ..] = text else {
        return None;
    };
    if *letter == b'n' {
        return if rest.is_empty() {
            Some(Stage::Unwarned)
        } else {
            None
        };
    }
    if *letter == b'w' {
        return Some(Stage::Warned(number_within(LAST_MOMENT, rest)?));
    }
    if *letter == b'f' {
        return Some(Stage::WarnFailed(number_within(LAST_MOMENT, rest)?));
    }
    if *letter == b'p' {
        return Some(Stage::Probed(number_within(LAST_MOMENT, rest)?));
    }
    None
}

// Whether a text has a capital letter.
fn has_capital(text: &[u8]) -> bool
    ensures { result ≡ list_any is_ascii_uppercase text.now }
{
    text.iter().any(|byte| byte.is_ascii_uppercase())
}

// Whether a text is an address in lower case.
fn is_key(text: &[u8]) -> bool
    ensures address { IsTrue result → IsAddress text.now }
    ensures key { IsTrue result → key_in text.now ≡ Some text.now }
    ensures none { result ≡ false → key_in text.now ≡ None }
{
    is_canonical(text) && !has_capital(text)
}

// The four texts of an entry.
#[derive(Clone, Copy)]
struct Texts<'a> {
    key: &'a [u8],
    first: &'a [u8],
    stage: &'a [u8],
    missed: &'a [u8],
}

// The four texts whose netstrings make up a text.
fn texts_of(text: &[u8]) -> Option<Texts<'_>>
    ensures some { IfSome result (λ t. netstrings_at 4 text.now ≡ Some (t.key.now ∷ t.first.now ∷ t.stage.now ∷ t.missed.now ∷ [], [])) }
    ensures none { IfNone result ((n : ℕ) → entry_of_content n text.now ≡ None) }
{
    let (key, after) = split_netstring(text)?;
    let (first, later) = split_netstring(after)?;
    let (stage, last) = split_netstring(later)?;
    let (missed, end) = split_netstring(last)?;
    if !end.is_empty() {
        return None;
    }
    Some(Texts {
        key,
        first,
        stage,
        missed,
    })
}

// Whether an entry has nothing to remember.
pub(crate) fn is_blank(stage: Stage, missed: &[u64]) -> bool
    ensures { result ≡ is_blank_at stage missed.now }
{
    match stage {
        Stage::Unwarned => missed.is_empty(),
        Stage::Warned(_) => false,
        Stage::WarnFailed(_) => false,
        Stage::Probed(_) => false,
    }
}

// Whether the values of an entry fit each other, and its key belongs to the file with this number.
fn fits(n: u8, key: &[u8], first: u64, stage: Stage, missed: &[u64]) -> bool
    ensures { result ≡ spec.fits n (record { key = key.now; first = first; stage = stage; missed = missed.now }) }
{
    missed.len() <= MAX_MISSED
        && are_distinct(missed)
        && (!missed.is_empty() || first == 0)
        && !is_blank(stage, missed)
        && bucket_of(key) == n
}

// The entry that a text spells, if it belongs to the file with this number.
pub(crate) fn entry_of(alloc: Global, n: u8, text: &[u8]) -> Result<Option<LedgerEntry>, AllocError>
    ensures { IfOk result (λ r. r ≡ entry_of_content n text.now) }
{
    let Some(texts) = texts_of(text) else {
        return Ok(None);
    };
    if !is_key(texts.key) {
        return Ok(None);
    }
    let Some(first) = number_within(LAST_MOMENT, texts.first) else {
        return Ok(None);
    };
    let Some(stage) = read_stage(texts.stage) else {
        return Ok(None);
    };
    let Some(missed) = numbers_of(alloc, texts.missed)? else {
        return Ok(None);
    };
    if !fits(n, texts.key, first, stage, missed.as_slice()) {
        return Ok(None);
    }
    let key = Address::from_canonical(alloc, texts.key)?;
    Ok(Some(LedgerEntry {
        key,
        first,
        stage,
        missed,
    }))
}
