// Reads and writes the text of an entry.
ghost use Rattle.std.specs.Prelude.{◌≡◌, ◌≢◌, ◌≤◌, ◌^◌, ◌↔◌, Bool, true, IsTrue, IfOk, IfSome, IfNone, length};
ghost use Rattle.ml_base.specs.Address.{key};
ghost use Rattle.ml_base.specs.Sorted.{byte_cmp, is_sorted};
ghost use Rattle.ml_queue.specs.Queue.{each_letter, out_text, IsOut};
ghost use Rattle.ml_queue.specs.Reading.{IsFront, IsRead, Parts, told};

use crate::Out;
use crate::recipients::{push_recipients, recipients_of};
use ml_address::Path;
use ml_base::{Bytes, LARGEST_READ, push_netstring, split_netstring};
use ml_drawn::Thing;
use std::alloc::{AllocError, Global};

// The most bytes that a netstring has besides its content: a length of eighteen digits, a colon and a comma.
const AROUND: usize = 20;

// The most bytes that the netstring of an address has besides it: its length has at most three digits.
const AROUND_ADDRESS: usize = 5;

// The bytes of the netstring of one letter.
const LETTER: usize = 4;

// What comes before the recipients in an entry's text, and the row of their netstrings.
#[derive(Clone, Copy)]
pub(crate) struct Front<'a> {
    pub base: &'a [u8],
    pub host: &'a [u8],
    pub each: bool,
    pub body: &'a [u8],
    pub row: &'a [u8],
}

// Whether the envelope sender of each copy names the recipient: `v` says that it does, and `p` that it doesn't.
fn read_letter(text: &[u8]) -> Option<bool>
    ensures some { IfSome result (λ each. text.now ≡ each_letter each) }
    ensures none { IfNone result ((each : Bool) → text.now ≢ each_letter each) }
{
    if text == b"v".as_slice() {
        return Some(true);
    }
    if text == b"p".as_slice() {
        return Some(false);
    }
    None
}

// What an entry's text begins with, or None if the text begins with no such parts. It takes no memory.
fn front_of(text: &[u8]) -> Option<Front<'_>>
    ensures some { IfSome result (λ front. IsFront text.now (told front)) }
    ensures none { IfNone result ((p : Parts) → ¬ IsFront text.now p) }
{
    let (base, after) = split_netstring(text)?;
    let (host, later) = split_netstring(after)?;
    let (letter, last) = split_netstring(later)?;
    let each = read_letter(letter)?;
    let (body, row) = split_netstring(last)?;
    Some(Front {
        base,
        host,
        each,
        body,
        row,
    })
}

// The entry that a text spells, or None if it spells none.
pub(crate) fn read_out(alloc: Global, text: &[u8]) -> Result<Option<Out>, AllocError>
    ensures { IfOk result (IsRead text.now) }
{
    let Some(front) = front_of(text) else {
        return Ok(None);
    };
    let Some(to) = recipients_of(alloc, front.row)? else {
        return Ok(None);
    };
    let base = Bytes::from_slice(alloc, front.base)?;
    let host = Bytes::from_slice(alloc, front.host)?;
    let path = Path {
        base,
        host,
        each: front.each,
    };
    let body = Bytes::from_slice(alloc, front.body)?;
    Ok(Some(Out { path, body, to }))
}

// Whether a text is too long for a netstring. No memory holds so many bytes.
fn is_long(text: &Bytes) -> bool
    ensures { IsTrue result ↔ (10 ^ 18 ≤ length text.now) }
{
    text.len() as u64 > LARGEST_READ
}

// The letter of a path.
fn letter(each: bool) -> &'static [u8]
    ensures { result.now ≡ each_letter each }
{
    if each { b"v" } else { b"p" }
}

// The most bytes that the text of an entry has.
fn room_of(out: &Out) -> usize {
    let path = out.path.base.len().saturating_add(out.path.host.len());
    let mut room = path
        .saturating_add(out.body.len())
        .saturating_add(3 * AROUND + LETTER);
    for who in out.to.as_slice() {
        room = room
            .saturating_add(who.bytes().len())
            .saturating_add(AROUND_ADDRESS);
    }
    room
}

// The text of an entry, written into a buffer that never grows. If a part is too long for a netstring, the error is lack
// of memory.
pub(crate) fn write_out(alloc: Global, out: &Out) -> Result<Bytes, AllocError>
    requires { is_sorted byte_cmp key out.now.to ≡ true }
    ensures is { IfOk result (λ _. IsOut out.now) }
    ensures text { IfOk result (λ bytes. bytes ≡ out_text out.now) }
{
    if is_long(&out.path.base) {
        return Err(AllocError);
    }
    if is_long(&out.path.host) {
        return Err(AllocError);
    }
    if is_long(&out.body) {
        return Err(AllocError);
    }
    let mut text = Bytes::with_capacity(alloc, room_of(out))?;
    push_netstring(&mut text, out.path.base.as_slice())?;
    push_netstring(&mut text, out.path.host.as_slice())?;
    push_netstring(&mut text, letter(out.path.each))?;
    push_netstring(&mut text, out.body.as_slice())?;
    push_recipients(&mut text, &out.to)?;
    Ok(text)
}

impl Thing for Out {
    ghost is_thing = { IsOut };

    ghost spelling = { out_text };

    fn is_spelled(alloc: Global, text: &[u8]) -> Result<bool, AllocError> {
        Ok(read_out(alloc, text)?.is_some())
    }
}
