// What holds of every exercise.
ghost use Rattle.std.specs.Prelude.{◌≤◌, ℕ, length};
ghost use Rattle.ml_base.specs.Bytes.{Text};
ghost use Rattle.ml_stream.specs.Stream.{IsStream, End};
ghost use Rattle.ml_stream.specs.Writing.{stream_text};
ghost use Rattle.ml_generated.specs.Items.{generated};

/// The bytes of an exercise are, by the grammar of streams, exactly its items, and then end.
pub fn law_generated()
    ensures { (local host : Text) (n : ℕ) → length local ≤ 60 → length host ≤ 255 → n ≤ 999_999 →
        IsStream 0 (stream_text (generated local host n)) (generated local host n) End }
{}
