// Reads a stream one item at a time.
ghost use Rattle.std.specs.Prelude.{◌≡◌, ◌↔◌, ◌<◌, ◌≤◌, ◌^◌, ℕ, List, Option, Some, None, Ok, true, not, IsTrue, IsSome, IfSome, IfOk, OnOk, OnErr, IfErr, IsErrOf, length};
ghost use Rattle.ml_base.specs.Faults.{Rose, HasCause};
ghost use Rattle.ml_base.specs.Bytes.{Text, is_empty};
ghost use Rattle.ml_plain.specs.Items.{IsItem};
ghost use Rattle.ml_stream.specs.Stream.{item_at};
ghost use Rattle.ml_stream.specs.Items.{HasLeft, NextRead, place_of, ahead_of, error_of};
ghost use Rattle.ml_stream.specs.Reading.{EndsEarly, IsNoItem};
ghost use Rattle.ml_stream.specs.declared.stream_error.StreamError.{StreamError as TheError};

use crate::StreamError;
use crate::reader::Reader;
use ml_plain::Item;
use ml_site::{Failed, Source};
use std::alloc::Global;

/// A reader of items: the place in the stream, at most one byte that was read ahead, and the error if there was one.
#[derive(Drop)]
pub struct Items {
    reader: Reader,
    failed: Option<StreamError>,
}

impl Items {
    /// A reader at the beginning of a stream. It takes no memory.
    pub fn new() -> Items
        ensures left { (bs : Text) → length bs < 2 ^ 64 → HasLeft result (Some bs) bs }
        ensures place { place_of result ≡ 0 }
        ensures ahead { ahead_of result ≡ None }
        ensures sound { error_of result ≡ None }
    {
        Items {
            reader: Reader {
                place: 0,
                ahead: None,
            },
            failed: None,
        }
    }

    /// The next item, which is in its ranges, or None at the end of the stream. It takes no byte after the item from the
    /// source, and memory for each of its parts as large as the part's length says, up to 32 MiB for a message.
    /// After an error it answers that error again and reads no more. `Bad` and `Short` come only if the stream is bad or
    /// short there, and `Fault` only if the source's count of faults rose. `Memory` may come at any time. After `Fault` and
    /// `Memory` no whole item was taken.
    pub fn next<I: Source>(
        &mut self,
        alloc: Global,
        input: &mut I,
    ) -> Result<Option<Item>, StreamError>
        ensures read { error_of self.old ≡ None → (bs : Text) → HasLeft self.old (I.left input.old) bs →
            NextRead result self.new (I.left input.new) (item_at (place_of self.old) bs) }
        ensures stops { error_of self.old ≡ None → (bs : Text) → HasLeft self.old (I.left input.old) bs →
            IfErr result (λ e. EndsEarly e (I.left input.new) bs (IsNoItem (place_of self.old))) }
        ensures again { (e : TheError) → error_of self.old ≡ Some e → IsErrOf result e }
        ensures no_more { (e : TheError) → error_of self.old ≡ Some e → input.new ≡ input.old }
        ensures ahead { OnOk result (ahead_of self.new ≡ None) }
        ensures sound { OnOk result (error_of self.new ≡ None) }
        ensures limits { IfOk result (λ found. IfSome found IsItem) }
        ensures failed { IfErr result (λ e. error_of self.new ≡ Some e) }
        ensures later { I.faults input.old ≤ I.faults input.new }
        ensures cause { error_of self.old ≡ None → IsErrOf result StreamError.Fault → Rose (I.faults input.old) (I.faults input.new) }
    {
        if let Some(error) = self.failed {
            return Err(error);
        }
        let found = self.reader.item(alloc, input);
        if let Err(error) = &found {
            self.failed = Some(*error);
        }
        found
    }

    /// Whether another byte is there. It takes at most one byte from the source, the first of the next item, and none if
    /// it has taken that already. `Failed` comes only if the source's count of faults rose; no byte was taken then, and it
    /// may be asked again.
    pub fn more<I: Source>(&mut self, input: &mut I) -> Result<bool, Failed>
        requires { error_of self.old ≡ None }
        ensures more { (bs : Text) → HasLeft self.old (I.left input.old) bs → IfOk result (λ more. more ≡ not (is_empty bs)) }
        ensures left { (bs : Text) → HasLeft self.old (I.left input.old) bs → HasLeft self.new (I.left input.new) bs }
        ensures ahead { IfOk result (λ more. IsTrue more ↔ IsSome (ahead_of self.new)) }
        ensures refused { OnErr result (ahead_of self.new ≡ None) }
        ensures known { IsSome (ahead_of self.old) → result ≡ Ok true }
        ensures no_read { IsSome (ahead_of self.old) → input.new ≡ input.old }
        ensures place { place_of self.new ≡ place_of self.old }
        ensures sound { error_of self.new ≡ None }
        ensures cause { HasCause (I.faults input.old) (I.faults input.new) result }
    {
        if self.reader.ahead.is_some() {
            return Ok(true);
        }
        let mut one = [0u8; 1];
        if input.read(&mut one)? == 0 {
            return Ok(false);
        }
        self.reader.ahead = Some(one[0]);
        Ok(true)
    }
}
