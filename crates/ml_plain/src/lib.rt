//! The list as a plain value, without files: what an item does to it, and how the item is answered. The definitions of this crate say what
//! the program means, and its laws are theorems about them.
#![tactic(auto)]

ghost use Rattle.std.specs.Prelude.{◌≡◌};
ghost use Rattle.ml_plain.specs.Answers as answers;

mod codes;
mod laws;

pub use codes::{has_number, status, word};
pub use laws::{
    law_chain, law_changes, law_digests, law_joined, law_kept_files, law_leaving, law_mails,
    law_new_list, law_once, law_parts, law_posts, law_states,
};
use ml_base::{Address, Bytes, Row, Set};

/// One thing that is asked of a list.
#[derive(Drop)]
pub struct Item {
    /// The item's number, which its answer repeats.
    pub number: u64,
    /// When it is asked, in seconds since 1970.
    pub moment: u64,
    pub act: Act,
}

/// What is asked.
#[derive(Drop)]
pub enum Act {
    /// To take a message from its envelope sender to one of the list's own addresses.
    Deliver {
        sender: Bytes,
        recipient: Bytes,
        message: Bytes,
    },
    /// To do what is due at this time.
    Timed,
    /// To add an address to a set.
    Add {
        set: Set,
        who: Address,
    },
    /// To remove an address from a set.
    Remove {
        set: Set,
        who: Address,
    },
    /// To take out of the queue an entry that was sent.
    Sent {
        id: u64,
    },
    /// To replace the key.
    Rekey {
        key: [u8; 32],
    },
    /// To forget the replies to items of lower numbers, and to refuse such items from now on.
    Floor {
        at: u64,
    },
}

/// Several acts, in order: those of a stream whose items all have one moment.
pub type ActList = Row<Act>;

/// The answer to an item: a code, and a number if the code has one (`has_number`), otherwise 0.
#[derive(Clone, Copy, Debug, PartialEq, Eq)]
pub struct Reply {
    pub code: u8,
    pub number: u64,
}

impl Reply {
    /// A post was taken; its number follows.
    pub const POSTED: u8 = 1;

    /// A post waits for the moderators; its ticket follows.
    pub const HELD: u8 = 2;

    /// A timed run was made; the number of queue entries that it made follows.
    pub const TIMED: u8 = 3;

    /// The address was added.
    pub const SUBSCRIBED: u8 = 4;

    /// The address was in the set before.
    pub const ALREADY: u8 = 5;

    /// The address was removed.
    pub const UNSUBSCRIBED: u8 = 6;

    /// The address wasn't in the set.
    pub const ABSENT: u8 = 7;

    /// A request for confirmation was sent.
    pub const ASKED: u8 = 8;

    /// A part of the archive was sent.
    pub const ARCHIVE: u8 = 9;

    /// The help text was sent.
    pub const HELP: u8 = 10;

    /// The message was sent to the owner.
    pub const OWNER: u8 = 11;

    /// The members of a set were sent to a moderator.
    pub const MEMBERS: u8 = 12;

    /// A bounce was noted.
    pub const BOUNCE: u8 = 13;

    /// A bounce was taken that changes nothing.
    pub const IGNORED: u8 = 14;

    /// A probe's bounce dropped the address: it left the set.
    pub const DROPPED: u8 = 15;

    /// A held post was rejected, and went back to its sender.
    pub const REJECTED: u8 = 16;

    /// No post is held under the ticket.
    pub const GONE: u8 = 17;

    /// A queue entry was removed.
    pub const DEQUEUED: u8 = 18;

    /// The queue entry isn't there.
    pub const NOENTRY: u8 = 19;

    /// There is no room: the set has 100,000 addresses, the archive has 99,999,999 posts, or the ids of queue entries or the tickets of
    /// held posts are worn out.
    pub const FULL: u8 = 20;

    /// The message is longer than the list allows.
    pub const TOOBIG: u8 = 21;

    /// The message has no sender that is an address.
    pub const NOSENDER: u8 = 22;

    /// The message has been through a list already: it has a `Mailing-List` field.
    pub const LOOPED: u8 = 23;

    /// The sender is in the set deny.
    pub const DENIED: u8 = 24;

    /// The message has no subject.
    pub const NOSUBJECT: u8 = 25;

    /// The subject looks like a command, as `subscribe` does.
    pub const COMMAND: u8 = 26;

    /// The message doesn't name the list as a recipient.
    pub const NOTADDRESSED: u8 = 27;

    /// The sender of the post is in none of the sets list, digest, allow and mod.
    pub const USERSONLY: u8 = 28;

    /// The recipient isn't an address of this list.
    pub const NOTOURS: u8 = 29;

    /// The cookie is wrong or too old.
    pub const BADCOOKIE: u8 = 30;

    /// The list doesn't grant the request to this sender.
    pub const PRIVATE: u8 = 31;

    /// The key was changed.
    pub const REKEYED: u8 = 32;

    /// The last change of the key is too recent.
    pub const TOOSOON: u8 = 33;

    /// The floor was raised, or was as high already; it follows.
    pub const FLOORED: u8 = 34;

    /// The item's number is below the floor.
    pub const STALE: u8 = 35;

    /// The floor can't be raised so far.
    pub const BADFLOOR: u8 = 36;

    /// The reply of a code that has no number.
    pub fn plain(code: u8) -> Self
        ensures { result ≡ answers.plain code }
    {
        Reply { code, number: 0 }
    }

    /// A post was taken, under this number.
    pub fn posted(number: u64) -> Self
        ensures { result ≡ answers.posted number }
    {
        Reply {
            code: Reply::POSTED,
            number,
        }
    }

    /// A post waits for the moderators, under this ticket.
    pub fn held(ticket: u64) -> Self
        ensures { result ≡ answers.held ticket }
    {
        Reply {
            code: Reply::HELD,
            number: ticket,
        }
    }

    /// A timed run was made, which made so many queue entries.
    pub fn timed(entries: u64) -> Self
        ensures { result ≡ answers.timed entries }
    {
        Reply {
            code: Reply::TIMED,
            number: entries,
        }
    }

    /// The floor is this: it was raised, or was as high already.
    pub fn floored(floor: u64) -> Self
        ensures { result ≡ answers.floored floor }
    {
        Reply {
            code: Reply::FLOORED,
            number: floor,
        }
    }
}
