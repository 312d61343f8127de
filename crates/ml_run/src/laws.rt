// A law of every row of runs.
ghost use Rattle.std.specs.Prelude.{List};
ghost use Rattle.ml_plain.specs.OnceLaws.{Joined};
ghost use Rattle.ml_plain.specs.Plain.{Plain};
ghost use Rattle.ml_plain.specs.Runs.{Run};

/// Whatever numbers come in the runs, and however often: let the first run begin on the list `p` that was just made, and every later one on the
/// state that the one before it left, which has done some first items of its own. Then the last state is the one after those items joined. Each
/// numbered item counts once, or never if it is first met below the floor. A repeat is answered as the first one was, or `stale` below the
/// floor.
pub fn law_joined()
    ensures { (p : Plain) (runs : List Run) → Joined p runs }
{
    ml_plain::law_joined();
}
