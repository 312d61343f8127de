// Messages: their fields, bodies, unfolded values, and what is sent of them.
use crate::answer_text::push_bool;
use crate::program::word;
use ml_base::Bytes;
use ml_header::Message;
use std::alloc::{AllocError, Global};
use std::test::Fail;

// What the list list@ex.org puts before its messages: 276 bytes.
const ADDED: &[u8] = b"Mailing-List: contact list-help@ex.org; run by ezmlm
Precedence: bulk
List-Post: <mailto:list@ex.org>
List-Help: <mailto:list-help@ex.org>
List-Unsubscribe: <mailto:list-unsubscribe@ex.org>
List-Subscribe: <mailto:list-subscribe@ex.org>
Delivered-To: mailing list list@ex.org
";

// The fields that the list leaves out.
const LEFT_OUT: &[u8] = b"return-path
return-receipt-to
content-length
precedence
list-post
list-help
list-unsubscribe
list-subscribe
";

// Adds what a call answers about the message in the input: `fields` the name, value and lines of each field in brackets, and the body; `whole`
// the message itself; `field NAME` the value of the first field of a name; `subject` the unfolded subject; `long` how many fields there are, and
// whether it is sent as it is. And what is sent of it: `sent` what the list list@ex.org sends of a post, `sent_trailed` the same with a trailer,
// `without NAMES` without these fields, `prefixed PREFIX` with this prefix, and `trailed` with a trailer.
pub(crate) fn told(
    alloc: Global,
    verb: &str,
    words: &[String],
    input: &[u8],
    out: &mut Bytes,
) -> Result<(), Fail> {
    let message = Message::scan(input);
    let first = word(words, 0);
    if verb == "fields" {
        Ok(push_fields(out, &message)?)
    } else if verb == "whole" {
        Ok(out.extend(message.bytes())?)
    } else if verb == "field" {
        Ok(push_field(out, &message, first)?)
    } else if verb == "subject" {
        Ok(push_subject(alloc, out, &message)?)
    } else if verb == "long" {
        Ok(push_kept(alloc, out, &message)?)
    } else {
        Ok(push_sent(alloc, out, verb, &message, first)?)
    }
}

// Adds what is sent of a message, or that there is no such call.
fn push_sent(
    alloc: Global,
    out: &mut Bytes,
    verb: &str,
    message: &Message<'_>,
    first: &[u8],
) -> Result<(), AllocError> {
    let text = sent(alloc, verb, message, first)?;
    out.extend(text.as_slice())
}

fn sent(
    alloc: Global,
    verb: &str,
    message: &Message<'_>,
    first: &[u8],
) -> Result<Bytes, AllocError> {
    let trailer: Option<&[u8]> = Some(b"--\n");
    if verb == "sent" {
        message.rewritten(alloc, LEFT_OUT, ADDED, None, None)
    } else if verb == "sent_trailed" {
        message.rewritten(alloc, LEFT_OUT, ADDED, None, trailer)
    } else if verb == "without" {
        message.rewritten(alloc, first, b"", None, None)
    } else if verb == "prefixed" {
        message.rewritten(alloc, b"", b"", Some(first), None)
    } else if verb == "trailed" {
        message.rewritten(alloc, b"", b"", None, trailer)
    } else {
        Bytes::from_slice(alloc, b"no call")
    }
}

fn push_subject(alloc: Global, out: &mut Bytes, message: &Message<'_>) -> Result<(), AllocError> {
    match message.unfolded(alloc, b"Subject")? {
        Some(value) => out.extend(value.as_slice()),
        None => out.extend(b"none"),
    }
}

fn push_fields(out: &mut Bytes, message: &Message<'_>) -> Result<(), AllocError> {
    for field in message.fields() {
        out.push(b'[')?;
        out.extend(field.name)?;
        out.push(b'|')?;
        out.extend(field.value)?;
        out.push(b'|')?;
        out.extend(field.lines)?;
        out.push(b']')?;
    }
    out.push(b'(')?;
    out.extend(message.body())?;
    out.push(b')')
}

fn push_field(out: &mut Bytes, message: &Message<'_>, name: &[u8]) -> Result<(), AllocError> {
    match message.field(name) {
        Some(field) => out.extend(field.value),
        None => out.extend(b"none"),
    }
}

fn is_kept(alloc: Global, message: &Message<'_>) -> Result<bool, AllocError> {
    let sent = message.rewritten(alloc, b"y\n", b"", Some(b"hell"), None)?;
    Ok(sent.as_slice() == message.bytes())
}

fn push_kept(alloc: Global, out: &mut Bytes, message: &Message<'_>) -> Result<(), AllocError> {
    let mut count: u64 = 0;
    for _ in message.fields() {
        count = count.saturating_add(1);
    }
    out.push_number(count)?;
    out.push(b' ')?;
    push_bool(out, is_kept(alloc, message)?)
}
