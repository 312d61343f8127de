// Writes items as a stream spells them.
ghost use Rattle.std.specs.Prelude.{◌≡◌, ◌++◌, take, length, IfOk, OnOk, OnErr};
ghost use Rattle.hex.specs.Hex.{encode_lower};
ghost use Rattle.ml_base.specs.Netstrings.{ns};
ghost use Rattle.ml_stream.specs.Writing.{spelled_act, spelled_item};
ghost use Rattle.ml_stream.specs.Writing as spec;

use hex::encode_to_slice;
use ml_base::{Bytes, push_netstring, push_number_netstring};
use ml_plain::{Act, Item};
use std::alloc::{AllocError, Global};

// The most bytes that a delivery has in a stream besides its sender, its recipient and its message: a letter, two numbers, and
// three lengths, each of at most 20 digits.
const BESIDE_TEXTS: usize = 115;

/// The bytes that stand for an item in a stream. They are read again as that item if it is in its ranges: a number of at
/// most 12 digits, a moment in seconds since 1970 that is before the year 10000, a sender and a recipient of at most 1,000
/// bytes each, a message of at most 33,554,432, an id of 1 to 10^15, and a floor of 1 to 999,999,999,999.
pub fn write_item(alloc: Global, item: &Item) -> Result<Bytes, AllocError>
    ensures { IfOk result (λ bytes. bytes ≡ spelled_item item.now) }
{
    let mut out = Bytes::new(alloc);
    push_item(&mut out, item)?;
    Ok(out)
}

/// Adds the bytes that stand for an item at the end of a text, as `write_item` gives them. An error changes nothing.
pub fn push_item(text: &mut Bytes, item: &Item) -> Result<(), AllocError>
    ensures ok { OnOk result (text.new ≡ text.old ++ spelled_item item.now) }
    ensures err { OnErr result (text.new ≡ text.old) }
{
    let used = text.len();
    if add_item(text, item).is_err() {
        text.truncate(used);
        return Err(AllocError);
    }
    Ok(())
}

// Adds an item at the end. An error leaves a part of it there.
fn add_item(text: &mut Bytes, item: &Item) -> Result<(), AllocError>
    ensures ok { OnOk result (text.new ≡ text.old ++ spelled_item item.now) }
    ensures front { take (length text.old) text.new ≡ text.old }
{
    text.reserve(room(&item.act))?;
    text.push(letter(&item.act))?;
    push_number_netstring(text, item.number)?;
    push_number_netstring(text, item.moment)?;
    push_act(text, &item.act)
}

// The room that an item takes in a stream; for a delivery the most that it can take.
fn room(act: &Act) -> usize {
    match act {
        Act::Deliver {
            sender,
            recipient,
            message,
        } => message
            .len()
            .saturating_add(sender.len())
            .saturating_add(recipient.len())
            .saturating_add(BESIDE_TEXTS),
        _ => BESIDE_TEXTS,
    }
}

fn letter(act: &Act) -> u8
    ensures { result ≡ spec.letter act.now }
{
    match act {
        Act::Deliver { .. } => b'D',
        Act::Timed => b'T',
        Act::Add { .. } => b'A',
        Act::Remove { .. } => b'R',
        Act::Sent { .. } => b'S',
        Act::Rekey { .. } => b'K',
        Act::Floor { .. } => b'F',
    }
}

// Adds the elements of an act at the end. An error leaves a part of them there.
fn push_act(out: &mut Bytes, act: &Act) -> Result<(), AllocError>
    ensures ok { OnOk result (out.new ≡ out.old ++ spelled_act act.now) }
    ensures front { take (length out.old) out.new ≡ out.old }
{
    match act {
        Act::Deliver {
            sender,
            recipient,
            message,
        } => {
            push_netstring(out, sender.as_slice())?;
            push_netstring(out, recipient.as_slice())?;
            push_netstring(out, message.as_slice())
        }
        Act::Timed => Ok(()),
        Act::Add { set, who } | Act::Remove { set, who } => {
            push_netstring(out, set.word())?;
            push_netstring(out, who.bytes())
        }
        Act::Sent { id } => push_number_netstring(out, *id),
        Act::Rekey { key } => push_key(out, key),
        Act::Floor { at } => push_number_netstring(out, *at),
    }
}

// Adds the netstring of a key's 64 digits at the end. An error changes nothing.
fn push_key(out: &mut Bytes, key: &[u8; 32]) -> Result<(), AllocError>
    ensures ok { OnOk result (out.new ≡ out.old ++ ns (encode_lower key.now)) }
    ensures err { OnErr result (out.new ≡ out.old) }
{
    let mut digits = [0u8; 64];
    match encode_to_slice(key.as_slice(), &mut digits) {
        Ok(()) => push_netstring(out, &digits),
        Err(_) => unreachable!(),
    }
}
