// Reads the mails of a mailbox.
ghost use Rattle.std.specs.Prelude.{◌≡◌, ◌≤◌, ◌<◌, ◌+◌, ◌*◌, ◌||◌, true, [], ◌∷◌, length, IfOk, IfSome, OnErr, MatchOption};
ghost use Rattle.ml_base.specs.Bytes.{is_empty};
ghost use Rattle.ml_base.specs.Splits.{lines};
ghost use Rattle.ml_mbox.specs.Quoting as words;
ghost use Rattle.ml_mbox.specs.Reading.{read, boxed, ends_line, sender_of, without_empty_end, without_empty_front};
ghost use Rattle.ml_mbox.specs.Steps.{IsCutAtMail};

use crate::quotes::{begins_mail, push_unquoted};
use crate::{BoxList, Boxed};
use memchr::{memchr2, memmem};
use ml_base::{Bytes, split_line};
use std::alloc::{AllocError, Global};
use std::marker::Model;

/// The mails of a mailbox, in order, or None exactly if, after empty lines, the text isn't empty and doesn't begin with `From `.
/// A line is empty if it holds nothing or only a CR. It is read leniently: every line that begins with `From ` begins a mail,
/// whatever comes before it, and only the sender is read from that line. Every message is copied once. The only error is lack
/// of memory.
pub fn read_mbox(alloc: Global, text: &[u8]) -> Result<Option<BoxList>, AllocError>
    ensures { IfOk result (λ found. found ≡ read text.now) }
{
    let Some(mut left) = Mails::open(text) else {
        return Ok(None);
    };
    let mut mails = BoxList::new(alloc);
    while let Some(mail) = left.next(alloc)? {
        mails.push(mail)?;
    }
    Ok(Some(mails))
}

/// The mails of a mailbox, one at a time. In contracts its value is the mails that are left.
#[derive(Drop)]
pub struct Mails<'a> {
    rest: &'a [u8],
}

impl<'a> Model for Mails<'a> {
    ghost use Rattle.std.specs.Prelude.{List};
    ghost use Rattle.ml_mbox.specs.declared.mails.Boxed.{Boxed};

    ghost Value = { List Boxed };

    ghost use Rattle.ml_mbox.specs.Reading.{mails_in};

    ghost view = { λ m. mails_in m.rest.now };

    ghost use Rattle.ml_mbox.specs.Steps.{NoneLoose};

    ghost invariant = { λ m. NoneLoose m.rest.now };
}

impl<'a> Mails<'a> {
    /// The mails of a text, or None if it isn't a mailbox, as for `read_mbox`. It takes no memory, and looks only at the
    /// beginning of the text. Every mail but the last takes at least six bytes.
    pub fn open(text: &'a [u8]) -> Option<Mails<'a>>
        ensures value { result ≡ read text.now }
        ensures few { IfSome result (λ mails. 6 * length mails ≤ length text.now + 1) }
    {
        let rest = without_empty_front(text);
        if is_box(rest) {
            Some(Mails { rest })
        } else {
            None
        }
    }

    /// The next mail, or None at the end. Its message is copied once. The only error is lack of memory; the mail is then still there.
    pub fn next(&mut self, alloc: Global) -> Result<Option<Boxed>, AllocError>
        ensures ok { IfOk result (λ found. MatchOption found ((self.old ≡ []) × (self.new ≡ [])) (λ mail. self.old ≡ mail ∷ self.new)) }
        ensures err { OnErr result (self.new ≡ self.old) }
    {
        let Some((line, after)) = split_line(self.rest) else {
            return Ok(None);
        };
        let (rows, more) = split_at_mail(after);
        let mail = boxed(alloc, line, rows)?;
        self.rest = more;
        Ok(Some(mail))
    }
}

// Whether a text is empty or begins with the first line of a mail.
fn is_box(text: &[u8]) -> bool
    ensures { result ≡ (is_empty text.now || words.begins_mail text.now) }
{
    text.is_empty() || begins_mail(text)
}

// A text without the empty lines at its beginning.
fn without_empty_front(text: &[u8]) -> &[u8]
    ensures { result.now ≡ without_empty_front text.now }
{
    let mut rest = text;
    while let Some(more) = inside_empty_line(rest) {
        rest = more;
    }
    rest
}

// What follows the first byte of a text that begins with an empty line, which holds nothing or only a CR.
fn inside_empty_line(text: &[u8]) -> Option<&[u8]>
    ensures { MatchOption result (without_empty_front text.now ≡ text.now)
        (λ more. (without_empty_front text.now ≡ without_empty_front more.now) × (length more.now < length text.now)) }
{
    let [byte, rest @ ..] = text else {
        return None;
    };
    if *byte == b'\n' || (*byte == b'\r' && ends_line(rest)) {
        Some(rest)
    } else {
        None
    }
}

// Whether a line ends here.
fn ends_line(text: &[u8]) -> bool
    ensures { result ≡ ends_line text.now }
{
    match text {
        [] => true,
        [byte, ..] => *byte == b'\n',
    }
}

// The lines before the first that begins a mail, and that line with all after it.
fn split_at_mail(text: &[u8]) -> (&[u8], &[u8])
    ensures { IsCutAtMail text.now result.0.now result.1.now }
{
    if begins_mail(text) {
        return text.split_at(0);
    }
    match memmem::find(text, b"\nFrom ") {
        None => text.split_at(text.len()),
        Some(at) => text.split_at(at + 1),
    }
}

// The mail with this first line and these lines after it.
fn boxed(alloc: Global, line: &[u8], rows: &[u8]) -> Result<Boxed, AllocError>
    requires { words.begins_mail line.now ≡ true }
    ensures { IfOk result (λ mail. mail ≡ boxed line.now (lines rows.now)) }
{
    let sender = Bytes::from_slice(alloc, sender_of(line))?;
    let text = without_empty_end(rows);
    let mut message = Bytes::with_capacity(alloc, text.len())?;
    push_unquoted(&mut message, text)?;
    Ok(Boxed { sender, message })
}

// The sender on the first line of a mail: what follows `From ` up to a space, an LF or the end, or nothing if that is more
// than 1,000 bytes.
fn sender_of(line: &[u8]) -> &[u8]
    requires { 5 ≤ length line.now }
    ensures { result.now ≡ sender_of line.now }
{
    let rest = &line[5..];
    let end = memchr2(b' ', b'\n', rest).unwrap_or(rest.len());
    if end > 1000 { &rest[..0] } else { &rest[..end] }
}

// Lines without the last one, if that is empty.
fn without_empty_end(rows: &[u8]) -> &[u8]
    ensures { lines result.now ≡ without_empty_end (lines rows.now) }
{
    match rows.strip_suffix(b"\n") {
        Some(front) if front.is_empty() || front.ends_with(b"\n") => front,
        _ => rows,
    }
}
