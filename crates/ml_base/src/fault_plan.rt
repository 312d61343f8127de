// Which calls of an object in memory are to fail: tests use it to make a disk or a source fail.
ghost use Rattle.std.specs.Prelude.{◌≡◌, ◌≤◌, ◌↔◌, IsTrue, Contains};
ghost use Rattle.ml_base.specs.Faults.{next_call};

use crate::Numbers;

/// The calls, counted from 1, that are to fail, and how many were made.
#[derive(Drop)]
pub struct FaultPlan {
    pub made: u64,
    pub failing: Numbers,
}

impl FaultPlan {
    /// These calls are to fail, and none was made so far. It takes no memory.
    pub fn new(failing: Numbers) -> FaultPlan
        ensures made { result.made ≡ 0 }
        ensures failing { result.failing ≡ failing }
    {
        FaultPlan { made: 0, failing }
    }

    /// Counts a call, and answers whether it is to fail.
    pub fn fails(&mut self) -> bool
        ensures later { self.old.made ≤ self.new.made }
        ensures made { self.new.made ≡ next_call self.old.made }
        ensures failing { self.new.failing ≡ self.old.failing }
        ensures named { IsTrue result ↔ Contains self.old.failing self.new.made }
    {
        self.made = self.made.saturating_add(1);
        self.failing.as_slice().contains(&self.made)
    }
}
