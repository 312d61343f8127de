// Writes one item of an exercise.
ghost use Rattle.std.specs.Prelude.{◌≡◌, ◌≤◌, ◌+◌, [], ◌∷◌, ◌++◌, length};
ghost use Rattle.ml_base.specs.Netstrings.{ns};
ghost use Rattle.ml_stream.specs.Writing.{letter as letter_of, spelled_act, spelled_item};
ghost use Rattle.ml_generated.specs.Items as spec;
ghost use Rattle.ml_generated.specs.Texts as texts;

use crate::buffer::Buffer;
use crate::texts::{address, bounce_address, message, put_list};

/// What an item does.
#[derive(Clone, Copy)]
pub(crate) enum Kind {
    /// It adds a member.
    Join,
    /// It delivers a bounce of a post.
    Bounce,
    /// It adds a member of the digest.
    Follow,
    /// It removes a member.
    Leave,
    /// It delivers a post.
    Post,
    /// It delivers a request to join.
    Request,
    /// It reports an entry of the queue as sent.
    Sent,
    /// It is a timed run.
    Timed,
}

fn kind_of(digit: u64) -> Kind
    ensures { result ≡ spec.kind_of digit }
{
    match digit {
        0 => Kind::Timed,
        4 => Kind::Bounce,
        5 => Kind::Follow,
        6 => Kind::Leave,
        7 => Kind::Post,
        8 => Kind::Request,
        9 => Kind::Sent,
        _ => Kind::Join,
    }
}

/// The bytes of the item with this number, 1 to 999,999, for a list with this local part and host.
pub(crate) fn item(local: &[u8], host: &[u8], i: u64) -> Buffer
    requires local { length local.now ≤ 60 }
    requires host { length host.now ≤ 255 }
    requires number { i ≤ 999_999 }
    ensures text { result ≡ spelled_item (spec.item local.now host.now i) }
    ensures some { 1 ≤ length result }
{
    let kind = kind_of(i % 10);
    let mut out = Buffer::new();
    out.put(&[letter(kind)]);
    out.put_number_netstring(i);
    out.put_number_netstring(1_000_000_000 + 1000 * i);
    put_act(&mut out, kind, local, host, i);
    out
}

fn letter(kind: Kind) -> u8
    ensures { result ≡ letter_of (spec.act_of kind [] [] 0) }
{
    match kind {
        Kind::Join | Kind::Follow => b'A',
        Kind::Bounce | Kind::Post | Kind::Request => b'D',
        Kind::Leave => b'R',
        Kind::Sent => b'S',
        Kind::Timed => b'T',
    }
}

// Adds the elements of an act at the end.
fn put_act(out: &mut Buffer, kind: Kind, local: &[u8], host: &[u8], i: u64)
    requires room { length out.old ≤ 100 }
    requires local { length local.now ≤ 60 }
    requires host { length host.now ≤ 255 }
    requires number { i ≤ 999_999 }
    ensures text { out.new ≡ out.old ++ spelled_act (spec.act_of kind local.now host.now i) }
    ensures grown { length out.old ≤ length out.new }
{
    match kind {
        Kind::Join | Kind::Leave => put_member(out, b"list", i),
        Kind::Follow => put_member(out, b"digest", i),
        Kind::Bounce => {
            out.put_netstring(b"");
            out.put_netstring(bounce_address(local, host, i).as_slice());
            out.put_netstring(b"\n");
        }
        Kind::Post => put_post(out, b"", local, host, i),
        Kind::Request => put_post(out, b"-subscribe", local, host, i),
        Kind::Sent => out.put_number_netstring((i + 1) / 10),
        Kind::Timed => {}
    }
}

// Adds a set's word and the address of an item's person at the end.
fn put_member(out: &mut Buffer, set: &[u8], i: u64)
    requires room { length out.old ≤ 100 }
    requires set { length set.now ≤ 6 }
    requires number { i ≤ 999_999 }
    ensures text { out.new ≡ out.old ++ ns set.now ++ ns (texts.address i) }
    ensures grown { length out.old ≤ length out.new }
{
    out.put_netstring(set);
    out.put_netstring(address(i).as_slice());
}

// Adds a sender, a recipient and a message at the end: a message of an item's person to the list, sent to the list's address with
// these words after its local part.
fn put_post(out: &mut Buffer, words: &[u8], local: &[u8], host: &[u8], i: u64)
    requires room { length out.old ≤ 100 }
    requires words { length words.now ≤ 10 }
    requires local { length local.now ≤ 60 }
    requires host { length host.now ≤ 255 }
    requires number { i ≤ 999_999 }
    ensures text { out.new ≡ out.old ++ ns (texts.address i) ++ ns (local.now ++ words.now ++ 64 ∷ host.now) ++ ns (texts.message local.now host.now i) }
    ensures grown { length out.old ≤ length out.new }
{
    let mut recipient = Buffer::new();
    put_list(&mut recipient, local, words, host);
    out.put_netstring(address(i).as_slice());
    out.put_netstring(recipient.as_slice());
    out.put_netstring(message(local, host, i).as_slice());
}
