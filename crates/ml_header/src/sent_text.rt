// How the text that a list sends is made of a message.
ghost use Rattle.std.specs.Prelude.{◌≡◌, ◌++◌, ◌<◌, IfOk, OnOk, length, codes, is_some};
ghost use Rattle.std.specs.Option.{option_map};
ghost use Rattle.ml_base.specs.Bytes.{lower};
ghost use Rattle.ml_base.specs.Texts.{with_line_end, with_last_line_end};
ghost use Rattle.ml_header.specs.Unfolding as values;
ghost use Rattle.ml_header.specs.Rewriting as words;
ghost use Rattle.ml_header.specs.Rewriting.{names_of};
ghost use Rattle.ml_header.specs.Places.{text_of};
ghost use Rattle.ml_header.specs.Steps as steps;
ghost use Rattle.ml_header.specs.Steps.{IsWhole, AreWhole, onto_value, value_in, with_due, with_first, with_trailer, sent_fields, kept_text};

use crate::lines::begins_blank;
use crate::unfolded_values::unfolded_value;
use crate::{Field, Fields, Message};
use memchr::memmem;
use ml_base::{Bytes, split_first};
use std::alloc::{AllocError, Global};

// Two spaces round a prefix, and three LFs: of the last field, after the header, and before a trailer.
const ENDS: usize = 5;

// The values that decide whether a trailer is due: those of the first content type and of the first encoding, in the
// fields that were read so far.
#[derive(Clone, Copy)]
struct Met<'a> {
    kind: Option<&'a [u8]>,
    encoding: Option<&'a [u8]>,
}

impl<'a> Met<'a> {
    // The values after one more field.
    fn with(self, field: &Field<'a>) -> Met<'a>
        ensures kind { option_map (λ v. v.now) result.kind ≡ onto_value (codes "content-type") (option_map (λ v. v.now) self.entry.kind) (text_of field.now) }
        ensures encoding { option_map (λ v. v.now) result.encoding ≡ onto_value (codes "content-transfer-encoding") (option_map (λ v. v.now) self.entry.encoding) (text_of field.now) }
    {
        Met {
            kind: first_value(self.kind, b"content-type", field),
            encoding: first_value(self.encoding, b"content-transfer-encoding", field),
        }
    }
}

// The value that was found, or that of a field with this name.
fn first_value<'a>(found: Option<&'a [u8]>, name: &[u8], field: &Field<'a>) -> Option<&'a [u8]>
    ensures { option_map (λ v. v.now) result ≡ onto_value name.now (option_map (λ v. v.now) found.entry) (text_of field.now) }
{
    match found {
        Some(value) => Some(value),
        None if field.is_named(name) => Some(field.value),
        None => None,
    }
}

// A value in one line and in lower case.
fn lower_value(alloc: Global, value: &[u8]) -> Result<Bytes, AllocError>
    ensures { IfOk result (λ text. text ≡ lower (values.unfolded_value value.now)) }
{
    let line = unfolded_value(alloc, value)?;
    let lower = line.as_slice().to_ascii_lowercase(alloc)?;
    Ok(Bytes::from_vec(lower))
}

// Whether a text has another at some place.
fn has_part(part: &[u8], text: &[u8]) -> bool
    ensures { result ≡ words.has_part part.now text.now }
{
    memmem::find(text, part).is_some()
}

// The prefix, unless a subject's value already has it somewhere, in any case of letters.
fn due_prefix<'p>(
    alloc: Global,
    prefix: &'p [u8],
    value: &[u8],
) -> Result<Option<&'p [u8]>, AllocError>
    ensures { IfOk result (λ due. option_map (λ p. p.now) due ≡ steps.due_prefix prefix.now value.now) }
{
    let subject = lower_value(alloc, value)?;
    let wanted = prefix.to_ascii_lowercase(alloc)?;
    if has_part(wanted.as_slice(), subject.as_slice()) {
        Ok(None)
    } else {
        Ok(Some(prefix))
    }
}

// Whether there is no content type, or one that begins with `text/plain`.
fn is_plain_text(alloc: Global, kind: Option<&[u8]>) -> Result<bool, AllocError>
    ensures { IfOk result (λ is. is ≡ steps.is_plain_kind (option_map (λ v. v.now) kind.entry)) }
{
    match kind {
        None => Ok(true),
        Some(value) => {
            let value = lower_value(alloc, value)?;
            Ok(value.as_slice().starts_with(b"text/plain"))
        }
    }
}

// Whether the body is spelled in base64.
fn is_base64(alloc: Global, encoding: Option<&[u8]>) -> Result<bool, AllocError>
    ensures { IfOk result (λ is. is ≡ steps.is_base64_encoding (option_map (λ v. v.now) encoding.entry)) }
{
    match encoding {
        None => Ok(false),
        Some(value) => {
            let value = lower_value(alloc, value)?;
            Ok(value.as_slice() == b"base64".as_slice())
        }
    }
}

// The trailer, if the body is plain text.
fn due_trailer<'t>(
    alloc: Global,
    met: &Met<'_>,
    trailer: Option<&'t [u8]>,
) -> Result<Option<&'t [u8]>, AllocError>
    ensures { IfOk result (λ due. option_map (λ t. t.now) due ≡ steps.due_trailer (option_map (λ t. t.now) trailer.entry) (option_map (λ v. v.now) met.now.kind) (option_map (λ v. v.now) met.now.encoding)) }
{
    match trailer {
        None => Ok(None),
        Some(trailer) => {
            let plain = is_plain_text(alloc, met.kind)?;
            let base64 = is_base64(alloc, met.encoding)?;
            if plain && !base64 {
                Ok(Some(trailer))
            } else {
                Ok(None)
            }
        }
    }
}

// Whether a field has one of the names of a row, in which each is ended by an LF, in any case of letters.
fn is_among(names: &[u8], field: &Field<'_>) -> bool
    ensures { result ≡ words.is_among (names_of names.now) (text_of field.now) }
{
    let mut rest = names;
    while let Some((name, more)) = split_first(b'\n', rest) {
        if field.is_named(name) {
            return true;
        }
        rest = more;
    }
    false
}

// Adds an LF if the text doesn't end in one.
fn end_line(text: &mut Bytes) -> Result<(), AllocError>
    ensures { OnOk result (text.new ≡ with_line_end text.old) }
{
    if text.as_slice().ends_with(b"\n") {
        Ok(())
    } else {
        text.push(b'\n')
    }
}

// Adds a field's lines, with a prefix after its colon if there is one, and an LF at its end.
fn push_field(text: &mut Bytes, field: &Field<'_>, prefix: Option<&[u8]>) -> Result<(), AllocError>
    requires { IsWhole (text_of field.now) }
    ensures { OnOk result (text.new ≡ text.old ++ with_line_end (with_due (option_map (λ p. p.now) prefix.entry) (text_of field.now)).lines) }
{
    push_lines(text, field, prefix)?;
    end_line(text)?;
    Ok(())
}

// Adds a field's lines, with a prefix after its colon if there is one.
fn push_lines(text: &mut Bytes, field: &Field<'_>, prefix: Option<&[u8]>) -> Result<(), AllocError>
    ensures { OnOk result (text.new ≡ text.old ++ (with_due (option_map (λ p. p.now) prefix.entry) (text_of field.now)).lines) }
{
    match prefix {
        None => text.extend(field.lines),
        Some(prefix) => push_prefixed(text, field, prefix),
    }
}

// Adds a field's lines, with a prefix after its colon.
fn push_prefixed(text: &mut Bytes, field: &Field<'_>, prefix: &[u8]) -> Result<(), AllocError>
    ensures { OnOk result (text.new ≡ text.old ++ (words.with_prefix prefix.now (text_of field.now)).lines) }
{
    text.extend(field.name)?;
    text.extend(b": ")?;
    text.extend(prefix)?;
    push_spaced(text, field.value)?;
    Ok(())
}

// Adds a value, after a space if it doesn't begin with a space or a tab.
fn push_spaced(text: &mut Bytes, value: &[u8]) -> Result<(), AllocError>
    ensures { OnOk result (text.new ≡ text.old ++ words.spaced value.now) }
{
    if !begins_blank(value) {
        text.push(b' ')?;
    }
    text.extend(value)?;
    Ok(())
}

// The prefix that goes into a field, and the one that is left for the fields after it.
fn split_due<'p>(
    alloc: Global,
    field: &Field<'_>,
    prefix: Option<&'p [u8]>,
) -> Result<(Option<&'p [u8]>, Option<&'p [u8]>), AllocError>
    ensures here { IfOk result (λ r. option_map (λ p. p.now) r.0 ≡ steps.here (option_map (λ p. p.now) prefix.entry) (text_of field.now)) }
    ensures later { IfOk result (λ r. option_map (λ p. p.now) r.1 ≡ steps.later (option_map (λ p. p.now) prefix.entry) (text_of field.now)) }
{
    match prefix {
        None => Ok((None, None)),
        Some(prefix) => {
            if field.is_named(b"subject") {
                let due = due_prefix(alloc, prefix, field.value)?;
                Ok((due, None))
            } else {
                Ok((None, Some(prefix)))
            }
        }
    }
}

// Adds a field unless it is left out.
fn push_kept(
    text: &mut Bytes,
    field: &Field<'_>,
    remove: &[u8],
    prefix: Option<&[u8]>,
) -> Result<(), AllocError>
    requires { IsWhole (text_of field.now) }
    ensures { OnOk result (text.new ≡ text.old ++ kept_text remove.now (option_map (λ p. p.now) prefix.entry) (text_of field.now)) }
{
    if is_among(remove, field) {
        Ok(())
    } else {
        push_field(text, field, prefix)
    }
}

// Adds the fields except for those that are left out, with a prefix in the first subject if it is due. It goes over the
// fields once, and answers the values that it met.
fn push_fields<'a>(
    alloc: Global,
    text: &mut Bytes,
    mut fields: Fields<'a>,
    remove: &[u8],
    prefix: Option<&[u8]>,
) -> Result<Met<'a>, AllocError>
    requires { AreWhole fields }
    ensures text { OnOk result (text.new ≡ text.old ++ sent_fields remove.now (with_first (option_map (λ p. p.now) prefix.entry) fields.entry)) }
    ensures kind { IfOk result (λ met. option_map (λ v. v.now) met.kind ≡ value_in (codes "content-type") fields.entry) }
    ensures encoding { IfOk result (λ met. option_map (λ v. v.now) met.encoding ≡ value_in (codes "content-transfer-encoding") fields.entry) }
{
    let mut due = prefix;
    let mut met = Met {
        kind: None,
        encoding: None,
    };
    while let Some(field) = fields.next() {
        let (here, later) = split_due(alloc, &field, due)?;
        push_kept(text, &field, remove, here)?;
        due = later;
        met = met.with(&field);
    }
    Ok(met)
}

// Adds a body, and an LF if it has bytes and doesn't end in one.
fn push_ended(text: &mut Bytes, body: &[u8]) -> Result<(), AllocError>
    ensures { OnOk result (text.new ≡ text.old ++ with_last_line_end body.now) }
{
    if body.is_empty() {
        return Ok(());
    }
    text.extend(body)?;
    end_line(text)?;
    Ok(())
}

// Adds a body, with a trailer on a line of its own if there is one.
fn push_body(text: &mut Bytes, body: &[u8], trailer: Option<&[u8]>) -> Result<(), AllocError>
    ensures { OnOk result (text.new ≡ text.old ++ with_trailer (option_map (λ t. t.now) trailer.entry) body.now) }
{
    match trailer {
        None => text.extend(body),
        Some(trailer) => {
            push_ended(text, body)?;
            text.extend(trailer)
        }
    }
}

// The most bytes that the text of a message can have.
fn room(message: &[u8], add: &[u8], prefix: Option<&[u8]>, trailer: Option<&[u8]>) -> usize {
    let more = prefix.map_or(0, |prefix| prefix.len());
    let last = trailer.map_or(0, |trailer| trailer.len());
    message
        .len()
        .saturating_add(add.len())
        .saturating_add(more)
        .saturating_add(last)
        .saturating_add(ENDS)
}

// The text that is sent of a message.
pub(crate) fn rewritten(
    alloc: Global,
    message: &Message<'_>,
    remove: &[u8],
    add: &[u8],
    prefix: Option<&[u8]>,
    trailer: Option<&[u8]>,
) -> Result<Bytes, AllocError>
    ensures { IfOk result (λ text. text ≡ words.rewritten message.now remove.now add.now (option_map (λ p. p.now) prefix.entry) (option_map (λ t. t.now) trailer.entry)) }
{
    let room = room(message.bytes(), add, prefix, trailer);
    let mut text = Bytes::with_capacity(alloc, room)?;
    text.extend(add)?;
    let met = push_fields(alloc, &mut text, message.fields(), remove, prefix)?;
    text.push(b'\n')?;
    let trailer = due_trailer(alloc, &met, trailer)?;
    push_body(&mut text, message.body(), trailer)?;
    Ok(text)
}
