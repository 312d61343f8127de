// The configuration of a list, as a value: its options, its address, its owner and its limits.
use ml_base::{Address, Bytes};

/// The options of a list, each named by its letter in `make`.
#[derive(Clone, Copy, Debug, PartialEq, Eq)]
pub struct Flags {
    /// The archive is for moderators only.
    pub b: bool,
    /// There are digests.
    pub d: bool,
    /// Subjects are marked with the prefix.
    pub f: bool,
    /// The archive is for subscribers only.
    pub g: bool,
    /// Whoever subscribes himself needn't confirm it.
    pub h: bool,
    /// Whoever unsubscribes himself needn't confirm it.
    pub j: bool,
    /// Whoever is in the deny set may not post.
    pub k: bool,
    /// Moderators may list the subscribers.
    pub l: bool,
    /// Posts are moderated.
    pub m: bool,
    /// The list is public: all may subscribe and read the archive.
    pub p: bool,
    /// Moderators may administer the list by mail.
    pub r: bool,
    /// Subscriptions are moderated.
    pub s: bool,
    /// Posts get a trailer.
    pub t: bool,
    /// Only those who are known to the list may post.
    pub u: bool,
}

/// The configuration of a list.
#[derive(Drop)]
pub struct Config {
    pub flags: Flags,
    /// The part of the list's address before the `@`, of at most 60 bytes.
    pub local: Bytes,
    /// The part after the `@`, in lower case, of at most 255 bytes.
    pub host: Bytes,
    /// The owner's address. It isn't one of the list's own.
    pub owner: Address,
    /// What marks subjects: 1 to 62 bytes 33 to 126 or inner spaces, or nothing if subjects aren't marked.
    pub prefix: Bytes,
    /// The most bytes that a post may have: 1 to 16,777,216.
    pub max: u64,
}
