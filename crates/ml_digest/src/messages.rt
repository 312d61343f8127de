// Writes a post as a digest has it: some of its fields, and its body.
ghost use Rattle.std.specs.Prelude.{◌≡◌, ◌++◌, ◌||◌, OnOk};
ghost use Rattle.std.specs.List.{flat_map};
ghost use Rattle.std.specs.Str.{bytes_eq};
ghost use Rattle.ml_base.specs.Splits.{lines};
ghost use Rattle.ml_base.specs.Texts.{lf};
ghost use Rattle.ml_header.specs.Steps.{AreWhole};
ghost use Rattle.ml_digest.specs.Digest.{message_rule, quoted_line, kept_fields, message_text};
ghost use Rattle.ml_digest.specs.Steps.{named_text};

use crate::digest_phrases::end_text_line;
use ml_base::{Bytes, split_line};
use ml_header::{Fields, Message};
use std::alloc::AllocError;

// The line of 30 hyphens that comes after every message.
pub(crate) const MESSAGE_RULE: &[u8] = b"------------------------------";

// The message that a digest has of a post: its kept fields, an empty line, and its body.
pub(crate) fn add_message(out: &mut Bytes, post: &[u8]) -> Result<(), AllocError>
    ensures { OnOk result (out.new ≡ out.old ++ message_text post.now) }
{
    let message = Message::scan(post);
    add_kept_fields(out, &message)?;
    out.push(b'\n')?;
    add_body(out, message.body())?;
    end_text_line(out)?;
    Ok(())
}

// The fields that a digest keeps (RFC 1153), in their order.
fn add_kept_fields(out: &mut Bytes, message: &Message<'_>) -> Result<(), AllocError>
    ensures { OnOk result (out.new ≡ out.old ++ kept_fields message.now) }
{
    add_named(out, message.fields(), b"date")?;
    add_named(out, message.fields(), b"from")?;
    add_named(out, message.fields(), b"to")?;
    add_named(out, message.fields(), b"cc")?;
    add_named(out, message.fields(), b"subject")?;
    add_named(out, message.fields(), b"message-id")?;
    add_named(out, message.fields(), b"keywords")?;
    add_named(out, message.fields(), b"summary")?;
    Ok(())
}

// The fields with a name, in any case of letters, with all their lines.
fn add_named(out: &mut Bytes, mut fields: Fields<'_>, name: &[u8]) -> Result<(), AllocError>
    requires { AreWhole fields }
    ensures { OnOk result (out.new ≡ out.old ++ named_text name.now fields.entry) }
{
    while let Some(field) = fields.next() {
        if field.name.eq_ignore_ascii_case(name) {
            out.extend(field.lines)?;
            end_text_line(out)?;
        }
    }
    Ok(())
}

// The lines of a body, with a space for the first hyphen of a line of exactly 30.
fn add_body(out: &mut Bytes, body: &[u8]) -> Result<(), AllocError>
    ensures { OnOk result (out.new ≡ out.old ++ flat_map quoted_line (lines body.now)) }
{
    let mut rest = body;
    while let Some((line, more)) = split_line(rest) {
        add_quoted(out, line)?;
        rest = more;
    }
    Ok(())
}

// A line, with a space for its first byte if it is the rule after messages.
fn add_quoted(out: &mut Bytes, line: &[u8]) -> Result<(), AllocError>
    ensures { OnOk result (out.new ≡ out.old ++ quoted_line line.now) }
{
    if is_message_rule(line) {
        out.push(b' ')?;
        out.extend(&line[1..])
    } else {
        out.extend(line)
    }
}

// Whether a line, with or without an LF, is exactly 30 hyphens.
fn is_message_rule(line: &[u8]) -> bool
    ensures { result ≡ (bytes_eq line.now message_rule || bytes_eq line.now (message_rule ++ lf)) }
{
    line == MESSAGE_RULE || line == b"------------------------------\n".as_slice()
}
