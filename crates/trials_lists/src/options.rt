// Makes configurations from a few words.
ghost use Rattle.std.specs.Prelude.{IfOk};
ghost use Rattle.ml_config.specs.Configuration.{IsConfig};

use ml_base::{Bytes, write_number};
use ml_config::{Config, read_config};
use std::alloc::{AllocError, Global};
use std::test::Fail;

// An option is set if its letter is among these; `p` is set unless `P` is among them.
fn option(letters: &[u8], lower: u8, upper: u8) -> u8 {
    if letters.contains(&lower) || (lower == b'p' && !letters.contains(&b'P')) {
        lower
    } else {
        upper
    }
}

// The text of the configuration.
fn spelled(alloc: Global, letters: &[u8], prefix: &[u8], max: u64) -> Result<Bytes, AllocError> {
    let mut text = Bytes::from_slice(alloc, b"flags ")?;
    for (lower, upper) in b"bdfghjklmprstu".iter().zip(b"BDFGHJKLMPRSTU") {
        text.push(option(letters, *lower, *upper))?;
    }
    text.extend(b"\nlocal list\nhost ex.org\nowner o@own.org\nprefix ")?;
    text.extend(prefix)?;
    text.extend(b"\nmax ")?;
    let mut digits = [0; 20];
    let len = write_number(max, &mut digits);
    text.extend(&digits[..len])?;
    text.push(b'\n')?;
    Ok(text)
}

/// The configuration of the list `list@ex.org`, which `o@own.org` owns: the letters of the options that are set, the prefix of subjects,
/// and the most bytes of a post. The option `p` is set unless there is a `P`.
pub fn config(alloc: Global, letters: &[u8], prefix: &[u8], max: u64) -> Result<Config, Fail>
    ensures { IfOk result IsConfig }
{
    let text = spelled(alloc, letters, prefix, max)?;
    match read_config(alloc, text.as_slice())? {
        Some(config) => Ok(config),
        None => Err(Fail::new("no configuration")),
    }
}
