// Whether a message is addressed to the list.
ghost use Rattle.std.specs.Prelude.{◌≡◌, ◌≤◌, ◌<◌, ◌+◌, ◌&&◌, length, slice_get, IfOk, None};
ghost use Rattle.ml_base.specs.Bytes.{lower};
ghost use Rattle.ml_base.specs.Texts.{post_address};
ghost use Rattle.ml_header.specs.Places.{text_of};
ghost use Rattle.ml_plain.specs.Verdicts as spec;
ghost use Rattle.ml_post.specs.Recipients.{recipients};
ghost use Rattle.ml_post.specs.Places as places;

use memchr::memmem;
use ml_base::Bytes;
use ml_config::Config;
use ml_header::{Field, Message};
use std::alloc::{AllocError, Global};

// Whether a To or Cc field names the list.
pub(crate) fn is_addressed(
    alloc: Global,
    config: &Config,
    message: &Message<'_>,
) -> Result<bool, AllocError>
    ensures { IfOk result (λ is. is ≡ spec.is_addressed config.now message.now) }
{
    let address = lower_address(alloc, config)?;
    let mut fields = message.fields();
    while let Some(field) = fields.next() {
        if is_recipient(&field) && has_lowered(alloc, address.as_slice(), field.value)? {
            return Ok(true);
        }
    }
    Ok(false)
}

// LOCAL@HOST in lower case.
fn lower_address(alloc: Global, config: &Config) -> Result<Bytes, AllocError>
    ensures { IfOk result (λ address. address ≡ lower (post_address config.now.local config.now.host)) }
{
    let mut address = Bytes::from_slice(alloc, config.local.as_slice())?;
    address.push(b'@')?;
    address.extend(config.host.as_slice())?;
    let lowered = address.as_slice().to_ascii_lowercase(alloc)?;
    Ok(Bytes::from_vec(lowered))
}

// Whether a field is named To or Cc.
fn is_recipient(field: &Field<'_>) -> bool
    ensures { result ≡ recipients (text_of field.now) }
{
    field.name.eq_ignore_ascii_case(b"to") || field.name.eq_ignore_ascii_case(b"cc")
}

// Whether a value, put in lower case, has an address, given in lower case, at some place where neither byte beside it continues it.
fn has_lowered(alloc: Global, address: &[u8], value: &[u8]) -> Result<bool, AllocError>
    requires { 0 < length address.now }
    ensures { IfOk result (λ has. has ≡ spec.has_address address.now None (lower value.now)) }
{
    let text = value.to_ascii_lowercase(alloc)?;
    Ok(has_address(address, &text))
}

// Whether a text has an address at some place where neither byte beside it continues it.
fn has_address(address: &[u8], text: &[u8]) -> bool
    requires { 0 < length address.now }
    ensures { result ≡ spec.has_address address.now None text.now }
{
    let mut before: Option<u8> = None;
    let mut rest = text;
    while let Some(at) = memmem::find(rest, address) {
        if stands_alone(address, before, rest, at) {
            return true;
        }
        let found = &rest[at..];
        before = Some(found[0]);
        rest = &found[1..];
    }
    false
}

// Whether neither byte beside an address at a place of a text continues it. `before` is the byte in front of the text.
fn stands_alone(address: &[u8], before: Option<u8>, text: &[u8], at: usize) -> bool
    requires { at + length address.now ≤ length text.now }
    ensures { result ≡ (spec.is_free spec.goes_on_left (places.byte_before before text.now at) && spec.is_free spec.goes_on_right (slice_get text.now (at + length address.now))) }
{
    is_free_left(byte_before(before, text, at))
        && is_free_right(text.get(at + address.len()).copied())
}

// The byte before a place of a text. `before` is the byte in front of the text.
fn byte_before(before: Option<u8>, text: &[u8], at: usize) -> Option<u8>
    requires { at ≤ length text.now }
    ensures { result ≡ places.byte_before before text.now at }
{
    if at == 0 { before } else { Some(text[at - 1]) }
}

// Whether an address may begin after a byte, or after none.
fn is_free_left(before: Option<u8>) -> bool
    ensures { result ≡ spec.is_free spec.goes_on_left before }
{
    match before {
        None => true,
        Some(byte) => !(goes_on_right(byte) || byte == b'_' || byte == b'+' || byte == b'='),
    }
}

// Whether a byte continues an address on its right.
fn goes_on_right(byte: u8) -> bool
    ensures { result ≡ spec.goes_on_right byte }
{
    byte.is_ascii_alphanumeric() || byte == b'-' || byte == b'.'
}

// Whether an address may end before a byte, or at the end.
fn is_free_right(next: Option<u8>) -> bool
    ensures { result ≡ spec.is_free spec.goes_on_right next }
{
    match next {
        None => true,
        Some(byte) => !goes_on_right(byte),
    }
}
