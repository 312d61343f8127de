// Writes mails into a mailbox.
ghost use Rattle.std.specs.Prelude.{◌≡◌, ◌++◌, take, length, All, IfOk, OnOk, OnErr};
ghost use Rattle.ml_base.specs.Ranges.{IsMoment};
ghost use Rattle.ml_mbox.specs.Mbox.{first_line, line_end, mail_text, mbox_text};

use crate::dates::asctime;
use crate::quotes::add_quoted;
use crate::{MailList, Mailed};
use ml_base::Bytes;
use std::alloc::{AllocError, Global};

/// The mails as a mailbox in the form mboxrd, in order. Each has the line `From SENDER DATE` before it, and an empty line
/// after it; in its message, every line of zero or more `>` and then `From ` gets one `>` more, and an LF is added if it
/// doesn't end in one. They are read again as `law_mbox` says. The only error is lack of memory.
pub fn write_mbox(alloc: Global, mails: &MailList) -> Result<Bytes, AllocError>
    requires { All (λ m. IsMoment m.moment) mails.now }
    ensures { IfOk result (λ text. text ≡ mbox_text mails.now) }
{
    let mut out = Bytes::with_capacity(alloc, room(mails))?;
    for mail in mails.as_slice() {
        push_mail(
            &mut out,
            mail.sender.as_slice(),
            mail.moment,
            mail.message.as_slice(),
        )?;
    }
    Ok(out)
}

// The bytes that mails take if no line is quoted.
fn room(mails: &MailList) -> usize {
    let mut size: usize = 0;
    for mail in mails.as_slice() {
        size = size
            .saturating_add(mail.sender.len())
            .saturating_add(mail.message.len())
            .saturating_add(33);
    }
    size
}

/// Adds a mail at the end of a mailbox, as `write_mbox` writes it. An error changes nothing.
pub fn push_mail(
    out: &mut Bytes,
    sender: &[u8],
    moment: u64,
    message: &[u8],
) -> Result<(), AllocError>
    requires { IsMoment moment }
    ensures ok { OnOk result (out.new ≡ out.old ++ mail_text (record { sender = sender.now; moment = moment; message = message.now })) }
    ensures err { OnErr result (out.new ≡ out.old) }
{
    let used = out.len();
    if add_mail(out, sender, moment, message).is_err() {
        out.truncate(used);
        return Err(AllocError);
    }
    Ok(())
}

// Adds a mail at the end. An error leaves a part of it there.
fn add_mail(out: &mut Bytes, sender: &[u8], moment: u64, message: &[u8]) -> Result<(), AllocError>
    requires { IsMoment moment }
    ensures ok { OnOk result (out.new ≡ out.old ++ mail_text (record { sender = sender.now; moment = moment; message = message.now })) }
    ensures front { take (length out.old) out.new ≡ out.old }
{
    add_first_line(out, sender, moment)?;
    add_quoted(out, message)?;
    push_line_end(out, message)?;
    out.push(b'\n')
}

// Adds the line `From SENDER DATE`. An error leaves a part of it there.
fn add_first_line(out: &mut Bytes, sender: &[u8], moment: u64) -> Result<(), AllocError>
    requires { IsMoment moment }
    ensures ok { OnOk result (out.new ≡ out.old ++ first_line sender.now moment) }
    ensures front { take (length out.old) out.new ≡ out.old }
{
    out.extend(b"From ")?;
    out.extend(sender)?;
    out.push(b' ')?;
    out.extend(&asctime(moment))?;
    out.push(b'\n')
}

// Adds an LF if a message doesn't end in one. An error changes nothing.
fn push_line_end(out: &mut Bytes, message: &[u8]) -> Result<(), AllocError>
    ensures ok { OnOk result (out.new ≡ out.old ++ line_end message.now) }
    ensures err { OnErr result (out.new ≡ out.old) }
{
    if message.ends_with(b"\n") {
        Ok(())
    } else {
        out.push(b'\n')
    }
}
