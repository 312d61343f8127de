// How the file of the configuration is read.
ghost use Rattle.std.specs.Prelude.{◌≡◌, ◌≤◌, ◌&&◌, Bool, IfOk, IfSome, Some};
ghost use Rattle.std.specs.Str.{bytes_eq};
ghost use Rattle.ml_config.specs.Configuration.{IsConfig};
ghost use Rattle.std.specs.Option.{option_map};
ghost use Rattle.ml_config.specs.ConfigFile.{Spells, flags_text};
ghost use Rattle.ml_config.specs.ConfigFile as spec;
ghost use Rattle.ml_config.specs.Reading.{lines_of, texts_of, value_at};
ghost use Rattle.ml_config.specs.declared.configuration.Config.{Config};
ghost use Rattle.ml_config.specs.declared.configuration.Flags.{Flags};

use crate::value_ranges::checked;
use crate::{Config, Flags};
use ml_base::{Bytes, read_number, split_first};
use std::alloc::{AllocError, Global};

// The values of the six lines, as they are spelled.
#[derive(Clone, Copy)]
struct Lines<'a> {
    flags: &'a [u8],
    local: &'a [u8],
    host: &'a [u8],
    owner: &'a [u8],
    prefix: &'a [u8],
    max: &'a [u8],
}

// The value of the line that a text begins with, if the line has this name, and the text after its LF.
#[tactic(auto, unfolding(crate::specs::Reading::value_at))]
fn value_of<'a>(name: &[u8], text: &'a [u8]) -> Option<(&'a [u8], &'a [u8])>
    ensures { option_map (λ p. (p.0.now, p.1.now)) result ≡ value_at name.now text.entry.now }
{
    split_first(b'\n', text.strip_prefix(name)?)
}

// The values of six lines, or None if the text isn't six such lines.
#[tactic(auto, unfolding(crate::specs::Reading::lines_of))]
fn values_of(text: &[u8]) -> Option<Lines<'_>>
    ensures { option_map texts_of result ≡ lines_of text.now }
{
    let (flags, rest) = value_of(b"flags ", text)?;
    let (local, rest) = value_of(b"local ", rest)?;
    let (host, rest) = value_of(b"host ", rest)?;
    let (owner, rest) = value_of(b"owner ", rest)?;
    let (prefix, rest) = value_of(b"prefix ", rest)?;
    let (max, rest) = value_of(b"max ", rest)?;
    if !rest.is_empty() {
        return None;
    }
    Some(Lines {
        flags,
        local,
        host,
        owner,
        prefix,
        max,
    })
}

// Whether an option is set, by its letter, or None if the byte isn't that letter.
fn read_letter(lower: u8, byte: u8) -> Option<bool>
    requires { 97 ≤ lower }
    ensures read { (set : Bool) → byte ≡ spec.letter lower set → result ≡ Some set }
    ensures spelled { IfSome result (λ set. byte ≡ spec.letter lower set) }
{
    if byte == lower {
        Some(true)
    } else if byte == lower - 32 {
        Some(false)
    } else {
        None
    }
}

// The options that fourteen letters spell, or None for any other text.
fn read_flags(text: &[u8]) -> Option<Flags>
    ensures read { (flags : Flags) → text.now ≡ flags_text flags → result ≡ Some flags }
    ensures spelled { IfSome result (λ flags. text.now ≡ flags_text flags) }
{
    let [b, d, f, g, h, j, k, l, m, p, r, s, t, u] = text else {
        return None;
    };
    Some(Flags {
        b: read_letter(b'b', *b)?,
        d: read_letter(b'd', *d)?,
        f: read_letter(b'f', *f)?,
        g: read_letter(b'g', *g)?,
        h: read_letter(b'h', *h)?,
        j: read_letter(b'j', *j)?,
        k: read_letter(b'k', *k)?,
        l: read_letter(b'l', *l)?,
        m: read_letter(b'm', *m)?,
        p: read_letter(b'p', *p)?,
        r: read_letter(b'r', *r)?,
        s: read_letter(b's', *s)?,
        t: read_letter(b't', *t)?,
        u: read_letter(b'u', *u)?,
    })
}

// The configuration of values that are spelled as it is written, or None if they aren't.
fn config_of_lines(alloc: Global, lines: &Lines) -> Result<Option<Config>, AllocError>
    ensures read { (c : Config) → IsConfig c → texts_of lines.now ≡ spec.values_of c → IfOk result (λ found. found ≡ Some c) }
    ensures spelled { IfOk result (λ found. IfSome found (λ c. IsConfig c × (texts_of lines.now ≡ spec.values_of c))) }
{
    let Some(flags) = read_flags(lines.flags) else {
        return Ok(None);
    };
    let Some(max) = read_number(lines.max) else {
        return Ok(None);
    };
    let prefix = Bytes::from_slice(alloc, lines.prefix)?;
    let made = checked(
        alloc,
        flags,
        lines.local,
        lines.host,
        lines.owner,
        prefix,
        max,
    )?;
    let Some(config) = made else {
        return Ok(None);
    };
    if !is_canonical(&config, lines) {
        return Ok(None);
    }
    Ok(Some(config))
}

// Whether the hosts are spelled as a configuration keeps them.
fn is_canonical(config: &Config, lines: &Lines) -> bool
    ensures { result ≡ (bytes_eq config.now.host lines.now.host.now && bytes_eq config.now.owner lines.now.owner.now) }
{
    config.host.as_slice() == lines.host && config.owner.bytes() == lines.owner
}

/// The configuration that the bytes of its file spell, or None if they spell none. Every configuration whose values
/// are in their ranges has one spelling, the one that `write_config` writes.
pub fn read_config(alloc: Global, bytes: &[u8]) -> Result<Option<Config>, AllocError>
    ensures read { (c : Config) → Spells bytes.now c → IfOk result (λ found. found ≡ Some c) }
    ensures spelled { IfOk result (λ found. IfSome found (Spells bytes.now)) }
{
    match values_of(bytes) {
        Some(lines) => config_of_lines(alloc, &lines),
        None => Ok(None),
    }
}
