// The queries: what can be asked of a list.
use ml_base::Set;

/// What is asked of a list.
#[derive(Clone, Copy, Debug, PartialEq, Eq)]
pub enum Query {
    /// The addresses of a set's members, one a line in ascending order of key. If `moments` is true, the moment at which each was added,
    /// in seconds since 1970, and a space come before it.
    Members { set: Set, moments: bool },
    /// The entries of the outgoing queue, one a line in ascending order of id: the id, the number of recipients and the number of
    /// the mail's bytes, with single spaces.
    Queue,
    /// One entry of the outgoing queue: the netstring of its mail, and after it that of every recipient's envelope, as qmail-queue
    /// takes it: `F`, the envelope sender, NUL, `T`, the address, NUL and NUL.
    Entry { id: u64 },
    /// The bytes of post n.
    Post { n: u64 },
}
