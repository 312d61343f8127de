// Names of files as a kind and a place, with a constant or a function for each kind, and the five sets of addresses.
ghost use Rattle.std.specs.Prelude.{◌≡◌, ◌<◌, ◌≤◌, IsTrue, length};
ghost use Rattle.ml_base.specs.Kinds as kinds;
ghost use Rattle.ml_base.specs.Name.{is_file, set_kind, set_word, set_of};
ghost use Rattle.ml_base.specs.Name as spec;

/// A set of addresses that a list keeps.
#[derive(Clone, Copy, Debug, PartialEq, Eq)]
pub enum Set {
    /// The addresses that get every post.
    List,
    /// The addresses that get the digests.
    Digest,
    /// The addresses that may post without being on the list.
    Allow,
    /// The addresses that may not post.
    Deny,
    /// The addresses that moderate.
    Moderators,
}

impl Set {
    /// The word of the set, in the stream, in commands and in paths: `list`, `digest`, `allow`, `deny` or `mod`.
    pub fn word(self) -> &'static [u8]
        ensures text { result.now ≡ set_word self }
        ensures len { length result.now ≤ 6 }
    {
        match self {
            Set::List => b"list",
            Set::Digest => b"digest",
            Set::Allow => b"allow",
            Set::Deny => b"deny",
            Set::Moderators => b"mod",
        }
    }

    /// The set of a word, or None if it is no set's word. Only words in lower case match.
    pub fn of_word(word: &[u8]) -> Option<Set>
        ensures { result ≡ set_of word.now }
    {
        if word == b"list".as_slice() {
            Some(Set::List)
        } else if word == b"digest".as_slice() {
            Some(Set::Digest)
        } else if word == b"allow".as_slice() {
            Some(Set::Allow)
        } else if word == b"deny".as_slice() {
            Some(Set::Deny)
        } else if word == b"mod".as_slice() {
            Some(Set::Moderators)
        } else {
            None
        }
    }

    /// The kind of the files that hold the set.
    pub fn kind(self) -> u8
        ensures { result ≡ set_kind self }
    {
        match self {
            Set::List => 3,
            Set::Digest => 4,
            Set::Allow => 5,
            Set::Deny => 6,
            Set::Moderators => 7,
        }
    }
}

/// The name of one file of a list: its kind, and its place among the files of that kind.
#[derive(Clone, Copy, Debug, PartialEq, Eq, PartialOrd, Ord)]
pub struct Name {
    pub kind: u8,
    pub at: u64,
}

/// The table of files. In this crate only this file and `paths.rt` have the numbers of kinds.
impl Name {
    /// The log.
    pub const LOG: Name = Name { kind: 0, at: 0 };

    /// The configuration.
    pub const CONFIG: Name = Name { kind: 1, at: 0 };

    /// The key, and the one before it.
    pub const KEY: Name = Name { kind: 2, at: 0 };

    /// The number of posts.
    pub const NUMBER: Name = Name { kind: 11, at: 0 };

    /// How far the digests have come.
    pub const MARK: Name = Name { kind: 12, at: 0 };

    /// The counter of the tickets of held posts.
    pub const TICKETS: Name = Name { kind: 14, at: 0 };

    /// The counter of the ids of queue entries.
    pub const IDS: Name = Name { kind: 18, at: 0 };

    /// The floor under kept replies.
    pub const FLOOR: Name = Name { kind: 21, at: 0 };

    /// The kind of the buckets of the set digest.
    pub const DIGEST: u8 = 4;

    /// The kind of posts.
    pub const POST: u8 = 9;

    /// The kind of the indexes of posts.
    pub const INDEX: u8 = 10;

    /// The kind of held posts.
    pub const HELD: u8 = 13;

    /// The kind of the buckets of the bounces of digests.
    pub const DIGEST_BOUNCES: u8 = 16;

    /// The kind of queue entries.
    pub const ENTRY: u8 = 17;

    /// The kind of the files of threads.
    pub const THREADS: u8 = 20;

    /// One of the 53 buckets of a set.
    pub fn bucket(set: Set, n: u8) -> Name
        ensures name { result ≡ kinds.bucket_name set n }
        ensures file { n < 53 → IsTrue (is_file result) }
    {
        Name {
            kind: set.kind(),
            at: n as u64,
        }
    }

    /// How many members a set has.
    pub fn count(set: Set) -> Name
        ensures name { result ≡ kinds.count_name set }
        ensures file { IsTrue (is_file result) }
    {
        Name {
            kind: 8,
            at: (set.kind() - 3) as u64,
        }
    }

    /// A post, by its number.
    pub fn post(number: u64) -> Name
        ensures name { result ≡ kinds.post_name number }
        ensures file { 1 ≤ number → number ≤ 99_999_999 → IsTrue (is_file result) }
    {
        Name {
            kind: 9,
            at: number,
        }
    }

    /// The index of a group of 100 posts.
    pub fn index(group: u64) -> Name
        ensures name { result ≡ kinds.index_name group }
        ensures file { group < 1_000_000 → IsTrue (is_file result) }
    {
        Name {
            kind: 10,
            at: group,
        }
    }

    /// A held post, by its ticket.
    pub fn held(ticket: u64) -> Name
        ensures { result ≡ kinds.held_name ticket }
    {
        Name {
            kind: 13,
            at: ticket,
        }
    }

    /// One of the 53 buckets of the list's bounces.
    pub fn bounces(n: u8) -> Name
        ensures name { result ≡ kinds.bounces_name n }
        ensures file { n < 53 → IsTrue (is_file result) }
    {
        Name {
            kind: 15,
            at: n as u64,
        }
    }

    /// One of the 53 buckets of the bounces of digests.
    pub fn digest_bounces(n: u8) -> Name
        ensures name { result ≡ kinds.digest_bounces_name n }
        ensures file { n < 53 → IsTrue (is_file result) }
    {
        Name {
            kind: 16,
            at: n as u64,
        }
    }

    /// A queue entry, by its id.
    pub fn entry(id: u64) -> Name
        ensures { result ≡ kinds.entry_name id }
    {
        Name { kind: 17, at: id }
    }

    /// The kept replies of a block of 512 numbers.
    pub fn replies(block: u64) -> Name
        ensures name { result ≡ kinds.replies_name block }
        ensures file { block ≤ 1_953_124_999 → IsTrue (is_file result) }
    {
        Name {
            kind: 19,
            at: block,
        }
    }

    /// One of the 256 files of threads.
    pub fn threads(n: u8) -> Name
        ensures name { result ≡ kinds.thread_name n }
        ensures file { IsTrue (is_file result) }
    {
        Name {
            kind: 20,
            at: n as u64,
        }
    }

    /// The name of a kind and a place, if it is one of the table of files other than the log's.
    pub fn file(kind: u64, at: u64) -> Option<Name>
        ensures { result ≡ spec.file_named kind at }
    {
        if kind == 0 || kind > 21 {
            return None;
        }
        let name = Name {
            kind: kind as u8,
            at,
        };
        if name.is_in_table() { Some(name) } else { None }
    }

    /// Whether the table of files has this name: kinds 0 to 21, each with its places.
    pub fn is_in_table(self) -> bool
        ensures { result ≡ spec.is_in_table self }
    {
        self.kind <= 21 && first_place(self.kind) <= self.at && self.at <= last_place(self.kind)
    }
}

pub(crate) fn is_bucket_kind(kind: u8) -> bool
    ensures { result ≡ spec.is_bucket_kind kind }
{
    (3 <= kind && kind <= 7) || (15 <= kind && kind <= 16)
}

fn first_place(kind: u8) -> u64
    ensures { result ≡ spec.first_place kind }
{
    if kind == 9 || kind == 13 || kind == 17 {
        1
    } else {
        0
    }
}

fn last_place(kind: u8) -> u64
    ensures { result ≡ spec.last_place kind }
{
    if is_bucket_kind(kind) {
        52
    } else if kind == 8 {
        4
    } else if kind == 9 {
        99_999_999
    } else if kind == 10 {
        999_999
    } else if kind == 13 || kind == 17 {
        1_000_000_000_000_000
    } else if kind == 19 {
        1_953_124_999
    } else if kind == 20 {
        255
    } else {
        0
    }
}
