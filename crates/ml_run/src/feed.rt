// What gives a run its items: a stream, or one item in hand.
ghost use Rattle.std.specs.Prelude.{◌≡◌, ◌<◌, ◌≤◌, ◌^◌, ℕ, Option, Some, None, not, IfSome, IfOk, OnOk, OnErr, IfErr, IsErrOf, length};
ghost use Rattle.std.specs.Borrow.{GName};
ghost use Rattle.ml_base.specs.Bytes.{Text, is_empty};
ghost use Rattle.ml_base.specs.Faults.{Rose, HasCause};
ghost use Rattle.ml_plain.specs.Items.{IsItem};
ghost use Rattle.ml_plain.specs.declared.Item.{Item as TheItem};
ghost use Rattle.ml_plain.specs.declared.Act.TheVariants.{Timed};
ghost use Rattle.ml_run.specs.Feeds.{IsFresh, IsHeld, bytes_held, reader_held};
ghost use Rattle.ml_run.specs.Held.{held_room};
ghost use Rattle.ml_stream.specs.Items.{HasLeft, NextRead, place_of, ahead_of, error_of};
ghost use Rattle.ml_stream.specs.Reading.{EndsEarly, IsNoItem};
ghost use Rattle.ml_stream.specs.Stream.{item_at};
ghost use Rattle.ml_stream.specs.declared.items.Items.{Items as TheItems};

use ml_plain::Item;
use ml_site::{Failed, Source};
use ml_stream::{Items, StreamError};
use std::alloc::Global;
use std::marker::{Brand, PhantomData};

// What gives the items of a run, one at a time.
pub(crate) trait Feed {
    // The reader of the stream whose items these are.
    ghost reader: { Self → TheItems };

    // The bytes left of that stream, or None if it doesn't say.
    ghost left: { Self → Option Text };

    // How often it has failed.
    ghost faults: { Self → ℕ };

    // It may be asked for an item.
    ghost sound: { Self → Type 0 };

    // The reference that it reads through, if there is one.
    ghost through: { Self → Option GName };

    // The next item, which is in its ranges, or None at the end. No byte after the item is taken.
    fn next(&mut self, alloc: Global) -> Result<Option<Item>, StreamError>
        requires { sound self.old }
        ensures read { (bs : Text) → HasLeft (reader self.old) (left self.old) bs →
            NextRead result (reader self.new) (left self.new) (item_at (place_of (reader self.old)) bs) }
        ensures stops { (bs : Text) → HasLeft (reader self.old) (left self.old) bs →
            IfErr result (λ e. EndsEarly e (left self.new) bs (IsNoItem (place_of (reader self.old)))) }
        ensures ahead { OnOk result (ahead_of (reader self.new) ≡ None) }
        ensures sound { OnOk result (sound self.new) }
        ensures limits { IfOk result (λ found. IfSome found IsItem) }
        ensures through { through self.new ≡ through self.old }
        ensures later { faults self.old ≤ faults self.new }
        ensures cause { IsErrOf result StreamError.Fault → Rose (faults self.old) (faults self.new) };

    // Whether anything comes after the items that were given.
    fn more(&mut self) -> Result<bool, Failed>
        requires { sound self.old }
        ensures more { (bs : Text) → HasLeft (reader self.old) (left self.old) bs → IfOk result (λ more. more ≡ not (is_empty bs)) }
        ensures left { (bs : Text) → HasLeft (reader self.old) (left self.old) bs → HasLeft (reader self.new) (left self.new) bs }
        ensures refused { OnErr result (ahead_of (reader self.new) ≡ None) }
        ensures place { place_of (reader self.new) ≡ place_of (reader self.old) }
        ensures sound { sound self.new }
        ensures through { through self.new ≡ through self.old }
        ensures cause { HasCause (faults self.old) (faults self.new) result };

    // Fewer bytes are left than a place can count.
    ghost room: { (feed : Self) (bytes : Text) → sound feed → left feed ≡ Some bytes → length bytes < 2 ^ 64 };
}

// The items of a stream.
#[derive(Drop)]
pub(crate) struct StreamFeed<'a, I: Source> {
    pub input: &'a mut I,
    pub items: Items,
}

impl<'a, I: Source> StreamFeed<'a, I> {
    // The items of what a source has left. It takes no memory.
    pub fn new(input: &'a mut I) -> StreamFeed<'a, I>
        ensures same { result.input.ghost_name ≡ input.entry.ghost_name }
        ensures input { result.input.now ≡ input.old }
        ensures fresh { IsFresh result.items }
        ensures sound { error_of result.items ≡ None }
    {
        StreamFeed {
            input,
            items: Items::new(),
        }
    }
}

impl<I: Source> Feed for StreamFeed<'_, I> {
    ghost reader = { λ f. f.items };

    ghost left = { λ f. I.left f.input.now };

    ghost faults = { λ f. I.faults f.input.now };

    ghost sound = { λ f. error_of f.items ≡ None };

    ghost through = { λ f. Some f.input.ghost_name };

    fn next(&mut self, alloc: Global) -> Result<Option<Item>, StreamError> {
        self.items.next(alloc, self.input)
    }

    fn more(&mut self) -> Result<bool, Failed> {
        self.items.more(self.input)
    }

    ghost room = { λ f bytes sound is. I.room f.input.now bytes is };
}

// The item that a feed has in hand. Proofs still call it so when it has been handed over.
pub(crate) trait InHand {
    ghost item: { TheItem };
}

impl InHand for Brand {
    ghost item = { record { number = 0; moment = 0; act = Timed } };
}

// One item in hand, which is handed over as it is: its bytes are never spelled.
#[derive(Drop)]
pub(crate) struct ItemFeed<K: InHand> {
    pub item: Option<Item>,
    pub of: PhantomData<K>,
}

impl<K: InHand> Feed for ItemFeed<K> {
    ghost reader = { λ f. reader_held K.item f.item };

    ghost left = { λ f. Some (bytes_held K.item f.item) };

    ghost faults = { λ _. 0 };

    ghost sound = { λ f. IsHeld K.item f.item };

    ghost through = { λ _. None };

    fn next(&mut self, alloc: Global) -> Result<Option<Item>, StreamError> {
        Ok(self.item.take())
    }

    fn more(&mut self) -> Result<bool, Failed> {
        Ok(self.item.is_some())
    }

    ghost room = { λ f bytes held is. held_room K.item f.item bytes held is };
}
