// The codes of replies: the word and the exit status of each, and whether a number follows the word in the line that answers an item.
ghost use Rattle.std.specs.Prelude.{◌≡◌, ◌≤◌, length, IsTrue};
ghost use Rattle.ml_plain.specs.Replies.{is_code, is_numbered, is_status, status_of, word_of};

use crate::Reply;

/// The exit status that a reply's code stands for: 0 if what was asked is done, 100 if it is refused for good.
pub fn status(code: u8) -> u8
    requires { IsTrue (is_code code) }
    ensures value { result ≡ status_of code }
    ensures either { IsTrue (is_status result) }
{
    match code {
        Reply::GONE
        | Reply::NOENTRY
        | Reply::FULL
        | Reply::TOOBIG
        | Reply::NOSENDER
        | Reply::LOOPED
        | Reply::DENIED
        | Reply::NOSUBJECT
        | Reply::COMMAND
        | Reply::NOTADDRESSED
        | Reply::USERSONLY
        | Reply::NOTOURS
        | Reply::BADCOOKIE
        | Reply::PRIVATE
        | Reply::TOOSOON
        | Reply::STALE
        | Reply::BADFLOOR => 100,
        _ => 0,
    }
}

/// The word of a reply's code, of lower-case letters.
pub fn word(code: u8) -> &'static [u8]
    requires { IsTrue (is_code code) }
    ensures text { result.now ≡ word_of code }
    ensures len { length result.now ≤ 12 }
{
    match code {
        Reply::POSTED => b"posted",
        Reply::HELD => b"held",
        Reply::TIMED => b"timed",
        Reply::SUBSCRIBED => b"subscribed",
        Reply::ALREADY => b"already",
        Reply::UNSUBSCRIBED => b"unsubscribed",
        Reply::ABSENT => b"absent",
        Reply::ASKED => b"asked",
        Reply::ARCHIVE => b"archive",
        Reply::HELP => b"help",
        Reply::OWNER => b"owner",
        Reply::MEMBERS => b"members",
        Reply::BOUNCE => b"bounce",
        Reply::IGNORED => b"ignored",
        Reply::DROPPED => b"dropped",
        Reply::REJECTED => b"rejected",
        Reply::GONE => b"gone",
        Reply::DEQUEUED => b"dequeued",
        Reply::NOENTRY => b"noentry",
        Reply::FULL => b"full",
        Reply::TOOBIG => b"toobig",
        Reply::NOSENDER => b"nosender",
        Reply::LOOPED => b"looped",
        Reply::DENIED => b"denied",
        Reply::NOSUBJECT => b"nosubject",
        Reply::COMMAND => b"command",
        Reply::NOTADDRESSED => b"notaddressed",
        Reply::USERSONLY => b"usersonly",
        Reply::NOTOURS => b"notours",
        Reply::BADCOOKIE => b"badcookie",
        Reply::PRIVATE => b"private",
        Reply::REKEYED => b"rekeyed",
        Reply::TOOSOON => b"toosoon",
        Reply::FLOORED => b"floored",
        Reply::STALE => b"stale",
        _ => b"badfloor",
    }
}

/// Whether a reply's number is written after the word of its code.
pub fn has_number(code: u8) -> bool
    requires { IsTrue (is_code code) }
    ensures { result ≡ is_numbered code }
{
    matches!(
        code,
        Reply::POSTED | Reply::HELD | Reply::TIMED | Reply::FLOORED
    )
}
