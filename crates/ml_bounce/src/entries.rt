// An entry of a ledger: what is known of one address whose mail bounced.
use ml_base::{Address, Numbers};

/// How far the course of an address has come. Moments are seconds since 1970.
#[derive(Clone, Copy, Debug, PartialEq, Eq)]
pub enum Stage {
    /// Nothing was done, or what was done has lapsed.
    Unwarned,
    /// It was warned at this moment.
    Warned(u64),
    /// The warning bounced at this moment.
    WarnFailed(u64),
    /// A probe was sent to it at this moment.
    Probed(u64),
}

/// What a ledger knows of an address.
#[derive(Drop)]
pub struct LedgerEntry {
    /// The address in lower case.
    pub key: Address,
    /// When the first of the missed numbers bounced, in seconds since 1970, or 0 if nothing is missed.
    pub first: u64,
    /// What was done about it so far.
    pub stage: Stage,
    /// The numbers of the posts, or of the digests, that it missed, in the order in which they bounced: at most 100,
    /// none twice.
    pub missed: Numbers,
}
