// Reads an index: the entries of the posts of a group.
ghost use Rattle.std.specs.Prelude.{◌≡◌, ◌<◌, ◌≤◌, ◌+◌, ◌*◌, ◌/◌, max, true, false, ℕ, IsTrue, [], ◌∷◌, ◌++◌, length, Some, None, IfOk, IfSome, IfNone, OnOk, find, ◌==◌};
ghost use Rattle.std.specs.Option.{option_map, option_copied};
ghost use Rattle.std.specs.Fmt.{decimal};
ghost use Rattle.ml_base.specs.Address.{IsAddress};
ghost use Rattle.ml_base.specs.Netstrings.{ns};
ghost use Rattle.ml_rows.specs.Rows.{netstrings_at};
ghost use Rattle.ml_rows.specs.Values.{address_in};
ghost use Rattle.ml_filing.specs.Archive.{entry_text};
ghost use Rattle.ml_filing.specs.Reading.{entry_of_fields, entry_in_place, index_in};
ghost use Rattle.ml_filing.specs.Reading as spec;
ghost use Rattle.ml_filing.specs.Threads as threads;

use crate::{Entries, Entry};
use ml_base::{
    Address, Bytes, LAST_MOMENT, LONGEST_POST, is_canonical, number_within, push_netstring,
    push_number_netstring, split_netstring,
};
use std::alloc::{AllocError, Global};

// Whether a text is an address, spelled as it is kept.
fn is_sender(text: &[u8]) -> bool
    ensures address { IsTrue result → IsAddress text.now }
    ensures some { IsTrue result → address_in text.now ≡ Some text.now }
    ensures none { result ≡ false → address_in text.now ≡ None }
{
    is_canonical(text)
}

// The four texts of an entry, and what comes after them.
#[derive(Clone, Copy)]
struct Texts<'a> {
    moment: &'a [u8],
    sender: &'a [u8],
    size: &'a [u8],
    subject: &'a [u8],
    rest: &'a [u8],
}

// The four texts whose netstrings a text begins with, and what comes after them.
fn texts_of(text: &[u8]) -> Option<Texts<'_>>
    ensures some { IfSome result (λ t. netstrings_at 4 text.now ≡ Some (t.moment.now ∷ t.sender.now ∷ t.size.now ∷ t.subject.now ∷ [], t.rest.now)) }
    ensures none { IfNone result (netstrings_at 4 text.now ≡ None) }
    ensures shorter { IfSome result (λ t. length t.rest.now < length text.now) }
{
    let (moment, after) = split_netstring(text)?;
    let (sender, later) = split_netstring(after)?;
    let (size, last) = split_netstring(later)?;
    let (subject, rest) = split_netstring(last)?;
    Some(Texts {
        moment,
        sender,
        size,
        subject,
        rest,
    })
}

// What comes after an LF at the beginning of a text.
fn after_lf(text: &[u8]) -> Option<&[u8]>
    ensures value { option_map (λ t. t.now) result ≡ spec.after_lf text.now }
    ensures shorter { IfSome result (λ t. length t.now < length text.now) }
{
    match text {
        [b'\n', rest @ ..] => Some(rest),
        _ => None,
    }
}

// The entry of a number that four texts spell.
fn entry_of(alloc: Global, number: u64, texts: Texts<'_>) -> Result<Option<Entry>, AllocError>
    ensures { IfOk result (λ r. r ≡ entry_of_fields number (texts.entry.moment.now ∷ texts.entry.sender.now ∷ texts.entry.size.now ∷ texts.entry.subject.now ∷ [])) }
{
    if !is_sender(texts.sender) {
        return Ok(None);
    }
    let Some(moment) = number_within(LAST_MOMENT, texts.moment) else {
        return Ok(None);
    };
    let Some(size) = number_within(LONGEST_POST, texts.size) else {
        return Ok(None);
    };
    let sender = Address::from_canonical(alloc, texts.sender)?;
    let subject = Bytes::from_slice(alloc, texts.subject)?;
    Ok(Some(Entry {
        number,
        moment,
        sender,
        size,
        subject,
    }))
}

// The entry of a number at the beginning of a text, in the index of a group, and what comes after it.
fn entry_at<'a>(
    alloc: Global,
    group: u64,
    number: u64,
    text: &'a [u8],
) -> Result<Option<(Entry, &'a [u8])>, AllocError>
    ensures value { IfOk result (λ r. option_map (λ p. (p.0, p.1.now)) r ≡ entry_in_place group number text.now) }
    ensures shorter { IfOk result (λ r. IfSome r (λ p. length p.1.now < length text.now)) }
    ensures here { IfOk result (λ r. IfSome r (λ _. number / 100 ≡ group)) }
{
    if number / 100 != group {
        return Ok(None);
    }
    let Some(texts) = texts_of(text) else {
        return Ok(None);
    };
    let Some(rest) = after_lf(texts.rest) else {
        return Ok(None);
    };
    match entry_of(alloc, number, texts)? {
        Some(entry) => Ok(Some((entry, rest))),
        None => Ok(None),
    }
}

// The first number of a group.
pub(crate) fn first_number(group: u64) -> u64
    requires { group < 1_000_000 }
    ensures { result ≡ max 1 (100 * group) }
{
    (100 * group).max(1)
}

// The entries of the index of a group, or None if the text is no such index.
pub(crate) fn index_of(
    alloc: Global,
    group: u64,
    text: &[u8],
) -> Result<Option<Entries>, AllocError>
    requires { group < 1_000_000 }
    ensures { IfOk result (λ r. r ≡ index_in group text.now) }
{
    let mut out = Entries::new(alloc);
    let mut rest = text;
    let mut number = first_number(group);
    while !rest.is_empty() {
        let Some((entry, more)) = entry_at(alloc, group, number, rest)? else {
            return Ok(None);
        };
        out.push(entry)?;
        rest = more;
        number += 1;
    }
    Ok(Some(out))
}

// The entry of a post among those of its group.
pub(crate) fn entry_for(entries: &[Entry], number: u64) -> Option<&Entry>
    ensures { option_copied result ≡ threads.entry_at number entries.now }
{
    entries.iter().find(|entry| entry.number == number)
}

// Adds what the index says of a post.
pub(crate) fn push_entry(
    out: &mut Bytes,
    moment: u64,
    sender: &[u8],
    size: u64,
    subject: &[u8],
) -> Result<(), AllocError>
    ensures { OnOk result (out.new ≡ out.old ++ ns (decimal moment) ++ ns sender.now ++ ns (decimal size) ++ ns subject.now ++ 10 ∷ []) }
{
    push_number_netstring(out, moment)?;
    push_netstring(out, sender)?;
    push_number_netstring(out, size)?;
    push_netstring(out, subject)?;
    out.push(b'\n')
}
