// What holds of every stream.
ghost use Rattle.std.specs.Prelude.{◌≡◌, ℕ, List, ◌+◌, ◌++◌, Some, length};
ghost use Rattle.std.specs.List.{AllByRecursion};
ghost use Rattle.ml_base.specs.Bytes.{Text};
ghost use Rattle.ml_base.specs.Ranges.{IsMoment};
ghost use Rattle.ml_plain.specs.declared.Act.{Act as TheAct};
ghost use Rattle.ml_plain.specs.declared.Item.{Item as TheItem};
ghost use Rattle.ml_stream.specs.Stream.{StreamEnd, IsStream, End, item_at, got};
ghost use Rattle.ml_plain.specs.Items.{IsItem, AreNumbers, numbered};
ghost use Rattle.ml_stream.specs.Writing.{IsTyped, IsGood, spelled_item, stream_text};

/// Any bytes are a stream of some items with some end, and of no others.
pub fn law_streams()
    ensures some { (place : ℕ) (bytes : Text) → (items : List TheItem) × (ending : StreamEnd) × IsStream place bytes items ending }
    ensures one { (place : ℕ) (bytes : Text) (items others : List TheItem) (ending other : StreamEnd) →
        IsStream place bytes items ending → IsStream place bytes others other → (items ≡ others) × (ending ≡ other) }
{}

/// What is written of an item is read again as that item, whatever follows it.
pub fn law_items()
    ensures { (place : ℕ) (item : TheItem) (rest : Text) → IsItem item → IsTyped item.act →
        item_at place (spelled_item item ++ rest) ≡ got (Some item) (place + length (spelled_item item)) rest }
{}

/// Reading an item depends on its own bytes alone, whatever follows them.
pub fn law_fronts()
    ensures { (place next : ℕ) (bytes rest : Text) (item : TheItem) → item_at place bytes ≡ got (Some item) next rest →
        (front : Text) × (bytes ≡ front ++ rest) × ((more : Text) → item_at place (front ++ more) ≡ got (Some item) next more) }
{}

/// Acts, written as items of one moment with consecutive numbers, are a stream of exactly these items, and then it ends.
pub fn law_numbered()
    ensures { (place first now : ℕ) (acts : List TheAct) → IsMoment now → AreNumbers first (length acts) → AllByRecursion IsGood acts →
        IsStream place (stream_text (numbered first now acts)) (numbered first now acts) End }
{}
