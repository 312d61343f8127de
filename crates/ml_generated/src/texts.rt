// Writes the texts in the items of an exercise.
ghost use Rattle.std.specs.Prelude.{◌≡◌, ◌≤◌, ◌+◌, ◌∷◌, ◌++◌, length};
ghost use Rattle.std.specs.Fmt.{decimal};
ghost use Rattle.ml_generated.specs.Texts as spec;

use crate::buffer::Buffer;

/// Adds an address of the list at the end, with these words after its local part.
pub(crate) fn put_list(out: &mut Buffer, local: &[u8], words: &[u8], host: &[u8])
    requires { length out.old + length local.now + length words.now + length host.now + 1 ≤ 1024 }
    ensures text { out.new ≡ out.old ++ local.now ++ words.now ++ 64 ∷ host.now }
    ensures size { length out.new ≡ length out.old + length local.now + length words.now + length host.now + 1 }
{
    out.put(local);
    out.put(words);
    out.put(b"@");
    out.put(host);
}

/// The address of an item's person.
pub(crate) fn address(i: u64) -> Buffer
    requires number { i ≤ 999_999 }
    ensures text { result ≡ spec.address i }
    ensures size { length result ≤ 28 }
{
    let mut out = Buffer::new();
    out.put(b"u");
    out.put_number(person(i));
    out.put(b"@ex.com");
    out
}

// The person that an item is about, by number.
fn person(i: u64) -> u64
    requires { i ≤ 999_999 }
    ensures { result ≡ spec.person i }
{
    37 * i % 97
}

/// The envelope sender with which the list sent a post to an item's person.
pub(crate) fn bounce_address(local: &[u8], host: &[u8], i: u64) -> Buffer
    requires local { length local.now ≤ 60 }
    requires host { length host.now ≤ 255 }
    requires number { i ≤ 999_999 }
    ensures text { result ≡ spec.bounce_address local.now host.now i }
    ensures size { length result ≤ 373 }
{
    let mut out = Buffer::new();
    out.put(local);
    out.put(b"-return-");
    out.put_number((i / 10).max(1));
    out.put(b"-u");
    out.put_number(person(i));
    out.put(b"=ex.com@");
    out.put(host);
    out
}

/// A message of an item's person to the list.
pub(crate) fn message(local: &[u8], host: &[u8], i: u64) -> Buffer
    requires local { length local.now ≤ 60 }
    requires host { length host.now ≤ 255 }
    requires number { i ≤ 999_999 }
    ensures text { result ≡ spec.message local.now host.now i }
    ensures size { length result ≤ 419 }
{
    let mut own = Buffer::new();
    put_list(&mut own, local, b"", host);
    let mut out = Buffer::new();
    put_line(&mut out, b"From: ", address(i).as_slice());
    put_line(&mut out, b"To: ", own.as_slice());
    put_line(&mut out, b"Subject: topic ", digits(i % 7).as_slice());
    put_line(&mut out, b"", b"");
    put_line(&mut out, b"post ", digits(i).as_slice());
    out
}

// Adds a line of two pieces at the end.
fn put_line(out: &mut Buffer, first: &[u8], second: &[u8])
    requires { length out.old + length first.now + length second.now + 1 ≤ 1024 }
    ensures text { out.new ≡ out.old ++ spec.line (first.now ++ second.now) }
    ensures size { length out.new ≡ length out.old + length first.now + length second.now + 1 }
{
    out.put(first);
    out.put(second);
    out.put(b"\n");
}

// The digits of a number.
fn digits(number: u64) -> Buffer
    ensures text { result ≡ decimal number }
    ensures size { length result ≤ 20 }
{
    let mut out = Buffer::new();
    out.put_number(number);
    out
}
