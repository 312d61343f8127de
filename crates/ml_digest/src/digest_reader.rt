// Takes a digest apart into its messages.
ghost use Rattle.std.specs.Prelude.{◌≡◌, ◌+◌, ◌<◌, ℕ, true, codes, List, length, Some, IfSome, IfNone, IfOk};
ghost use Rattle.ml_base.specs.Bytes.{Text};
ghost use Rattle.ml_header.specs.Lines.{begins_with};
ghost use Rattle.ml_digest.specs.Burst.{IsDigest};
ghost use Rattle.ml_digest.specs.Reading.{IsHeader, IsTitle, IsPreface, HasEmptyEnd, IsEntry, AreEntries};

use crate::digest_phrases::add_end;
use crate::lines::split_at_line;
use crate::messages::MESSAGE_RULE;
use crate::{Burst, BytesList};
use ml_base::{Bytes, read_number, split_first, split_last};
use std::alloc::{AllocError, Global};

// The line of 70 hyphens that comes after the preface.
const PREAMBLE_RULE: &[u8] =
    b"----------------------------------------------------------------------";

/// Takes a digest apart (RFC 1153): its number and its messages, in order, or None if the text is no digest. The only
/// error is lack of memory.
pub fn read_digest(alloc: Global, text: &[u8]) -> Result<Option<Burst>, AllocError>
    ensures some { IfOk result (λ burst. IfSome burst (λ b. IsDigest text.now b.issue b.messages)) }
    ensures none { IfOk result (λ burst. IfNone burst ((issue : ℕ) (messages : List Text) → ¬ IsDigest text.now issue messages)) }
    ensures read { (issue : ℕ) (messages : List Text) → IsDigest text.now issue messages → IfOk result (λ burst. burst ≡ Some (record { issue = issue; messages = messages })) }
{
    let Some((subject, rest)) = split_header(text) else {
        return Ok(None);
    };
    let Some(title) = title_of(subject) else {
        return Ok(None);
    };
    let Some(rest) = split_preface(rest) else {
        return Ok(None);
    };
    let mut end = Bytes::new(alloc);
    add_end(&mut end, title.name, title.issue)?;
    match read_messages(alloc, rest, end.as_slice())? {
        Some(messages) => Ok(Some(Burst {
            issue: title.issue,
            messages,
        })),
        None => Ok(None),
    }
}

// The name and the number of a digest.
#[derive(Clone, Copy)]
struct Title<'a> {
    name: &'a [u8],
    issue: u64,
}

// The last line of the header, and what comes after the empty line that ends it; or None if no empty line comes.
fn split_header(text: &[u8]) -> Option<(&[u8], &[u8])>
    ensures some { IfSome result (λ p. IsHeader text.now p.0.now p.1.now) }
    ensures none { IfNone result ((last rest : Text) → ¬ IsHeader text.now last rest) }
{
    let mut last = &text[..0];
    let mut rest = text;
    while let Some((line, more)) = split_first(b'\n', rest) {
        if line.is_empty() {
            return Some((last, more));
        }
        last = line;
        rest = more;
    }
    None
}

// The name and number that the line `Subject: NAME Digest Issue I` spells, or None if the line is no such title.
fn title_of(line: &[u8]) -> Option<Title<'_>>
    ensures some { IfSome result (λ t. IsTitle line.now t.name.now t.issue) }
    ensures none { IfNone result ((name : Text) (issue : ℕ) → ¬ IsTitle line.now name issue) }
{
    let title = line.strip_prefix(b"Subject: ")?;
    let (front, digits) = split_last(b' ', title)?;
    let name = front.strip_suffix(b" Digest Issue")?;
    let issue = read_number(digits)?;
    if name.is_empty() {
        return None;
    }
    if issue == 0 {
        return None;
    }
    Some(Title { name, issue })
}

// What comes after the preface, its rule and an empty line.
fn split_preface(text: &[u8]) -> Option<&[u8]>
    ensures some { IfSome result (λ rest. IsPreface text.now rest.now) }
    ensures none { IfNone result ((rest : Text) → ¬ IsPreface text.now rest) }
{
    let (_, rest) = split_at_line(text, PREAMBLE_RULE, PREAMBLE_RULE)?;
    rest.strip_prefix(b"\n")
}

// The message at the beginning of a text, and what comes after the rule that follows it.
fn split_message(text: &[u8]) -> Option<(&[u8], &[u8])>
    ensures some { IfSome result (λ p. IsEntry text.now p.0.now p.1.now) }
    ensures none { IfNone result ((message rest : Text) → ¬ IsEntry text.now message rest) }
    ensures shorter { IfSome result (λ p. length p.1.now < length text.now) }
{
    let (fields, after) = split_at_line(text, b"", MESSAGE_RULE)?;
    let (body, rest) = split_at_line(after, MESSAGE_RULE, MESSAGE_RULE)?;
    let body = without_empty_line(body)?;
    let rest = rest.strip_prefix(b"\n")?;
    let message = &text[..fields.len() + 1 + body.len()];
    if message.starts_with(b"End of ") {
        return None;
    }
    Some((message, rest))
}

// Lines without the last one, if that is empty; or None if it isn't.
fn without_empty_line(lines: &[u8]) -> Option<&[u8]>
    ensures some { IfSome result (λ front. HasEmptyEnd lines.now front.now) }
    ensures none { IfNone result ((front : Text) → ¬ HasEmptyEnd lines.now front) }
{
    let front = lines.strip_suffix(b"\n")?;
    if front.is_empty() || front.ends_with(b"\n") {
        Some(front)
    } else {
        None
    }
}

// Messages, each with the rule after it, until the text that is left is `end`.
fn read_messages(alloc: Global, text: &[u8], end: &[u8]) -> Result<Option<BytesList>, AllocError>
    requires { begins_with (codes "End of ") end.now ≡ true }
    ensures some { IfOk result (λ found. IfSome found (λ messages. AreEntries text.now end.now messages)) }
    ensures none { IfOk result (λ found. IfNone found ((messages : List Text) → ¬ AreEntries text.now end.now messages)) }
{
    let mut messages = BytesList::new(alloc);
    let mut rest = text;
    while rest != end {
        let Some((message, more)) = split_message(rest) else {
            return Ok(None);
        };
        messages.push(Bytes::from_slice(alloc, message)?)?;
        rest = more;
    }
    if messages.as_slice().is_empty() {
        return Ok(None);
    }
    Ok(Some(messages))
}
