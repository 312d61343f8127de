// The verdicts on a post.

/// The verdict on a post: the first of these that holds.
#[derive(Clone, Copy, Debug, PartialEq, Eq)]
pub enum Verdict {
    /// The message is longer than the list allows.
    TooBig,
    /// The envelope sender is no address, such as the empty one and `#@[]`.
    BounceSender,
    /// The message has a Mailing-List field.
    Looped,
    /// The list has a deny list, and the sender is on it.
    Denied,
    /// The message has no subject.
    NoSubject,
    /// The subject is one of the commands `subscribe`, `unsubscribe`, `help`, `remove` and `signoff`, in any case of letters.
    CommandSubject,
    /// No To or Cc field names the list.
    NotAddressed,
    /// Only users may post, and the sender is in none of the sets list, digest, allow and mod.
    UsersOnly,
    /// Posts wait for the moderators.
    Held,
    /// The archive has 99,999,999 posts.
    Full,
    /// None of these.
    Posted,
}
