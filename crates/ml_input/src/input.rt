// Reading the whole input.
ghost use Rattle.std.specs.Prelude.{◌≡◌, ◌≤◌, ◌<◌, ◌^◌, ◌+◌, IfOk, IfErr, IfSome, OnErr, length};
ghost use Rattle.ml_input.specs.Input.{Continues, HasNoInput, IsInput, IsPieceFault};

use ml_base::Bytes;
use ml_ending::Why;
use ml_site::Source;
use std::alloc::Global;

// The most bytes that are read at once.
const PIECE: usize = 65_536;

/// The whole input, which has at most `limit` bytes, or why there is none: `Long` if one byte more than that was read, `Input` or `Memory`.
pub fn read_input<I: Source>(alloc: Global, limit: u32, input: &mut I) -> Result<Bytes, Why>
    ensures whole { IfOk result (IsInput ⟦<I as Source>⟧ limit input.old input.new) }
    ensures none { IfErr result (HasNoInput ⟦<I as Source>⟧ limit input.old input.new) }
{
    let most = limit as usize;
    let mut bytes = Vec::new(alloc);
    while bytes.len() <= most {
        if read_piece(most, input, &mut bytes)? == 0 {
            return Ok(Bytes::from_vec(bytes));
        }
    }
    Err(Why::Long)
}

// Reads a piece of the input, adds it to bytes that aren't too many, and answers how many bytes the piece has: none only at the end.
fn read_piece<I: Source>(most: usize, input: &mut I, bytes: &mut Vec<u8>) -> Result<usize, Why>
    requires room { most < 2 ^ 32 }
    requires fits { length bytes.old.items ≤ most }
    ensures grown { IfOk result (λ count. length bytes.new.items ≡ length bytes.old.items + count) }
    ensures bound { IfOk result (λ count. length bytes.new.items ≤ most + 1) }
    ensures taken { IfSome (I.left input.old) (λ left. IfOk result (λ count. Continues left (I.left input.new) bytes.old.items bytes.new.items count)) }
    ensures refused { OnErr result (I.left input.new ≡ I.left input.old) }
    ensures cause { IfErr result (IsPieceFault ⟦<I as Source>⟧ input.old input.new) }
    ensures later { I.faults input.old ≤ I.faults input.new }
{
    let len = bytes.len();
    let end = (len + PIECE).min(most + 1);
    if bytes.resize(end, 0).is_err() {
        return Err(Why::Memory);
    }
    match input.read(&mut bytes[len..]) {
        Ok(count) => {
            bytes.truncate(len + count);
            Ok(count)
        }
        Err(_) => Err(Why::Input),
    }
}
