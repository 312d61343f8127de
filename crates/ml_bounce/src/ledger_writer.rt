// Writes an entry of a ledger's file.
ghost use Rattle.std.specs.Prelude.{◌≡◌, ◌++◌, ◌∷◌, IfOk, OnOk};
ghost use Rattle.std.specs.Fmt.{decimal};
ghost use Rattle.ml_rows.specs.Values.{comma_text};
ghost use Rattle.ml_bounce.specs.Files.{stage_text, content_text};

use crate::{LedgerEntry, Stage};
use ml_base::{Bytes, push_netstring, write_number};
use ml_rows::push_numbers;
use std::alloc::{AllocError, Global};

// Adds a letter and a moment.
fn push_moment(out: &mut Bytes, letter: u8, moment: u64) -> Result<(), AllocError>
    ensures { OnOk result (out.new ≡ out.old ++ letter ∷ decimal moment) }
{
    out.push(letter)?;
    out.push_number(moment)
}

// The text of a stage.
fn write_stage(alloc: Global, stage: Stage) -> Result<Bytes, AllocError>
    ensures { IfOk result (λ bytes. bytes ≡ stage_text stage) }
{
    let mut out = Bytes::new(alloc);
    match stage {
        Stage::Unwarned => out.push(b'n')?,
        Stage::Warned(t) => push_moment(&mut out, b'w', t)?,
        Stage::WarnFailed(t) => push_moment(&mut out, b'f', t)?,
        Stage::Probed(t) => push_moment(&mut out, b'p', t)?,
    }
    Ok(out)
}

// The four netstrings of an entry.
pub(crate) fn write_content(alloc: Global, entry: &LedgerEntry) -> Result<Bytes, AllocError>
    ensures { IfOk result (λ bytes. bytes ≡ content_text entry.now) }
{
    let mut digits = [0u8; 20];
    let len = write_number(entry.first, &mut digits);
    let stage = write_stage(alloc, entry.stage)?;
    let mut missed = Bytes::new(alloc);
    push_numbers(&mut missed, entry.missed.as_slice())?;
    let mut out = Bytes::new(alloc);
    push_netstring(&mut out, entry.key.bytes())?;
    push_netstring(&mut out, &digits[..len])?;
    push_netstring(&mut out, stage.as_slice())?;
    push_netstring(&mut out, missed.as_slice())?;
    Ok(out)
}
