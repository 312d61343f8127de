// How the file of the configuration is written.
ghost use Rattle.std.specs.Prelude.{◌≡◌, ◌≤◌, ◌++◌, IfOk, OnOk};
ghost use Rattle.ml_config.specs.ConfigFile.{config_text, line};
ghost use Rattle.ml_config.specs.ConfigFile as spec;

use crate::{Config, Flags};
use ml_base::{Bytes, write_number};
use std::alloc::{AllocError, Global};

// The letter of an option: in lower case if it is set, and in upper case if it is clear.
fn letter(lower: u8, set: bool) -> u8
    requires { 97 ≤ lower }
    ensures { result ≡ spec.letter lower set }
{
    if set { lower } else { lower - 32 }
}

// The letters of all options.
pub(crate) fn flags_text(flags: Flags) -> [u8; 14]
    ensures { result ≡ spec.flags_text flags }
{
    [
        letter(b'b', flags.b),
        letter(b'd', flags.d),
        letter(b'f', flags.f),
        letter(b'g', flags.g),
        letter(b'h', flags.h),
        letter(b'j', flags.j),
        letter(b'k', flags.k),
        letter(b'l', flags.l),
        letter(b'm', flags.m),
        letter(b'p', flags.p),
        letter(b'r', flags.r),
        letter(b's', flags.s),
        letter(b't', flags.t),
        letter(b'u', flags.u),
    ]
}

// Adds a name with its space, a value and an LF at the end.
fn add_line(out: &mut Bytes, name: &[u8], value: &[u8]) -> Result<(), AllocError>
    ensures { OnOk result (out.new ≡ out.old ++ line name.now value.now) }
{
    out.extend(name)?;
    out.extend(value)?;
    out.push(b'\n')
}

/// The bytes of a configuration's file: a line for each of its six values.
pub fn write_config(alloc: Global, config: &Config) -> Result<Bytes, AllocError>
    ensures { IfOk result (λ bytes. bytes ≡ config_text config.now) }
{
    let mut digits = [0u8; 20];
    let len = write_number(config.max, &mut digits);
    let mut out = Bytes::new(alloc);
    add_line(&mut out, b"flags ", &flags_text(config.flags))?;
    add_line(&mut out, b"local ", config.local.as_slice())?;
    add_line(&mut out, b"host ", config.host.as_slice())?;
    add_line(&mut out, b"owner ", config.owner.bytes())?;
    add_line(&mut out, b"prefix ", config.prefix.as_slice())?;
    add_line(&mut out, b"max ", &digits[..len])?;
    Ok(out)
}
