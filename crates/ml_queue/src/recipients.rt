// Reads and writes the recipients of an entry.
ghost use Rattle.std.specs.Prelude.{◌≡◌, ◌++◌, IfOk, OnOk};
ghost use Rattle.std.specs.List.{AllByRecursion};
ghost use Rattle.ml_base.specs.Address.{IsAddress};
ghost use Rattle.ml_base.specs.Splits.{ns_row};
ghost use Rattle.ml_queue.specs.Reading.{AreRecipients};

use ml_base::{
    Address, AddressList, Bytes, is_below, is_canonical, push_netstring, split_netstring,
};
use std::alloc::{AllocError, Global};

// The recipients that a text spells, or None if it doesn't spell addresses in ascending order of key.
pub(crate) fn recipients_of(alloc: Global, text: &[u8]) -> Result<Option<AddressList>, AllocError>
    ensures { IfOk result (AreRecipients text.now) }
{
    let mut out = AddressList::new(alloc);
    let mut last: &[u8] = b"";
    let mut rest = text;
    while !rest.is_empty() {
        let Some((who, more)) = split_netstring(rest) else {
            return Ok(None);
        };
        if !is_canonical(who) {
            return Ok(None);
        }
        if !is_below(last, who) {
            return Ok(None);
        }
        out.push(Address::from_canonical(alloc, who)?)?;
        last = who;
        rest = more;
    }
    Ok(Some(out))
}

// Adds the netstrings of recipients.
pub(crate) fn push_recipients(out: &mut Bytes, to: &AddressList) -> Result<(), AllocError>
    ensures text { OnOk result (out.new ≡ out.old ++ ns_row to.now) }
    ensures each { OnOk result (AllByRecursion IsAddress to.now) }
{
    let mut rest = to.as_slice();
    while let [who, more @ ..] = rest {
        push_netstring(out, who.bytes())?;
        rest = more;
    }
    Ok(())
}
