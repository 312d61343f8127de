// Laws of every stream that moves a part.
ghost use Rattle.std.specs.Prelude.{◌≡◌, ℕ, Bool, length};
ghost use Rattle.std.specs.List.{AllByRecursion};
ghost use Rattle.ml_base.specs.Address.{IsAddress};
ghost use Rattle.ml_base.specs.Ranges.{IsMoment};
ghost use Rattle.ml_base.specs.declared.names.Set.{Set as TheSet};
ghost use Rattle.ml_plain.specs.Items.{AreNumbers, numbered};
ghost use Rattle.ml_split.specs.Moves.{moves};
ghost use Rattle.ml_split.specs.declared.parts.Part.{Part as ThePart};
ghost use Rattle.ml_stream.specs.Stream.{IsStream, End};
ghost use Rattle.ml_stream.specs.Writing.{stream_text};

/// What is written of the moves of a part is a stream of exactly these items, numbered from the first number on, and then it ends.
pub fn law_moves()
    ensures { (first now : ℕ) (part : ThePart) (set : TheSet) (into : Bool) → IsMoment now → AreNumbers first (length part.members) → AllByRecursion IsAddress part.members →
        IsStream 0 (stream_text (numbered first now (moves part set into))) (numbered first now (moves part set into)) End }
{}
