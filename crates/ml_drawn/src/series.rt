// The two series of numbers that a list draws, and the names of their files.
ghost use Rattle.std.specs.Prelude.{◌≡◌};
ghost use Rattle.ml_drawn.specs.Names.{thing_name, counter_name};

use ml_base::Name;

/// A series of numbers that a list draws, every number at most once.
#[derive(Clone, Copy, Debug, PartialEq, Eq)]
pub enum Series {
    /// The tickets of held posts.
    Tickets,
    /// The ids of queue entries.
    Ids,
}

impl Series {
    /// The file of a number's thing.
    pub fn name(self, n: u64) -> Name
        ensures { result ≡ thing_name self n }
    {
        match self {
            Series::Tickets => Name::held(n),
            Series::Ids => Name::entry(n),
        }
    }

    /// The file of the counter.
    pub fn counter(self) -> Name
        ensures { result ≡ counter_name self }
    {
        match self {
            Series::Tickets => Name::TICKETS,
            Series::Ids => Name::IDS,
        }
    }
}
