// A member of a set, as the list keeps him.
use ml_base::{Address, Row};

/// A member of a set.
#[derive(Drop)]
pub struct Member {
    /// The address as it was first added, with its host in lower case.
    pub who: Address,
    /// When it was added, in seconds since 1970; 0 if a file of layout 1 has it.
    pub since: u64,
}

/// Members, one after another.
pub type MemberList = Row<Member>;
