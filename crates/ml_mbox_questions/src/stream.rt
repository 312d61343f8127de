// Makes a stream of the mails of a mailbox.
ghost use Rattle.std.specs.Prelude.{◌≡◌, ◌+◌, ◌<◌, ◌^◌, ◌++◌, true, false, length, All, Any, IfOk, OnOk, IsErrOf};
ghost use Rattle.ml_plain.specs.Items.{numbered};
ghost use Rattle.ml_stream.specs.Writing.{spelled_item, stream_text};
ghost use Rattle.ml_mbox.specs.Importing.{act_of, acts_of};
ghost use Rattle.ml_mbox_questions.specs.Import.{Fits, IsLong};
ghost use Rattle.ml_mbox_questions.specs.Import as spec;

use crate::ImportError;
use ml_base::{Bytes, LONGEST_MESSAGE};
use ml_config::Config;
use ml_mbox::{Boxed, Mails, to_act};
use ml_plain::{Act, Item};
use ml_stream::push_item;
use std::alloc::Global;

/// The stream of the mails, each one delivery to the list at this moment, numbered from `first` on. `Long` comes only if
/// a message still has more than 33,554,432 bytes after the fields are taken off. Besides the text and the stream it holds
/// one mail at a time.
pub fn import_text(
    alloc: Global,
    config: &Config,
    first: u64,
    moment: u64,
    mut mails: Mails<'_>,
) -> Result<Bytes, ImportError>
    requires { first + length mails < 2 ^ 64 }
    ensures text { IfOk result (λ text. text ≡ stream_text (numbered first moment (acts_of config.now mails.entry))) }
    ensures fits { OnOk result (All (Fits config.now) mails.entry) }
    ensures long { IsErrOf result ImportError.Long → Any (IsLong config.now) mails.entry }
{
    let mut out = Bytes::new(alloc);
    let mut number = first;
    while let Some(mail) = mails.next(alloc)? {
        push_post(alloc, &mut out, config, number, moment, mail)?;
        number += 1;
    }
    Ok(out)
}

// Adds the item of one mail.
fn push_post(
    alloc: Global,
    out: &mut Bytes,
    config: &Config,
    number: u64,
    moment: u64,
    mail: Boxed,
) -> Result<(), ImportError>
    ensures text { OnOk result (out.new ≡ out.old ++ spelled_item (record { number = number; moment = moment; act = act_of config.now mail })) }
    ensures fits { OnOk result (Fits config.now mail) }
    ensures long { IsErrOf result ImportError.Long → IsLong config.now mail }
{
    let act = delivery(alloc, config, mail)?;
    let item = Item {
        number,
        moment,
        act,
    };
    push_item(out, &item)?;
    Ok(())
}

// The delivery of a mail. The mail's own text is gone by the time that the delivery's is written.
fn delivery(alloc: Global, config: &Config, mail: Boxed) -> Result<Act, ImportError>
    ensures value { IfOk result (λ act. act ≡ act_of config.now mail) }
    ensures fits { OnOk result (Fits config.now mail) }
    ensures long { IsErrOf result ImportError.Long → IsLong config.now mail }
{
    let act = to_act(alloc, config, &mail)?;
    if is_long(&act) {
        return Err(ImportError::Long);
    }
    Ok(act)
}

// Whether a delivery's message is longer than a stream allows.
fn is_long(act: &Act) -> bool
    ensures { result ≡ spec.is_long act.now }
{
    match act {
        Act::Deliver { message, .. } => message.len() > LONGEST_MESSAGE as usize,
        _ => false,
    }
}
