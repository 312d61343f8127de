// Calls on a list in memory, and the text of what they answer.
ghost use Rattle.ml_config.specs.Configuration.{IsConfig};

use ml_address::read_request;
use ml_base::{Bytes, PartError, Set, Txn, is_moment, read_number};
use ml_bounce::{act, due};
use ml_config::Config;
use ml_header::Message;
use ml_manage::{is_managed, manage};
use ml_plain::Reply;
use ml_post::{answer, post, verdict};
use ml_timed::timed;
use std::alloc::Global;
use std::test::Fail;
use trials_lists::{error_text, reply_text};
use trials_scripts::OnSite;

const MAX_MESSAGE: usize = 33_554_432;

/// The puts, and the text of the answer.
pub(crate) type Told = (Txn, Bytes);

fn told(alloc: Global, answer: Result<(Txn, Reply), PartError>) -> Result<Told, Fail> {
    match answer {
        Ok((puts, reply)) => Ok((puts, reply_text(alloc, reply.code, reply.number)?)),
        Err(error) => Ok((Txn::new(alloc), error_text(alloc, error)?)),
    }
}

/// Gives what is found of a sender's message.
pub(crate) fn found(
    alloc: Global,
    files: &mut OnSite,
    config: &Config,
    sender: &[u8],
    message: &[u8],
) -> Result<Told, Fail>
    requires { IsConfig config.now }
{
    let text = match verdict(alloc, files, config, sender, &Message::scan(message)) {
        Ok(verdict) => {
            let word = format!(in alloc; "{verdict:?}")?;
            Bytes::from_slice(alloc, word.as_bytes())?
        }
        Err(error) => error_text(alloc, error)?,
    };
    Ok((Txn::new(alloc), text))
}

/// A sender's message comes to the list's own address.
pub(crate) fn posted(
    alloc: Global,
    files: &mut OnSite,
    config: &Config,
    now: u64,
    sender: &[u8],
    message: &[u8],
) -> Result<Told, Fail>
    requires { IsConfig config.now }
{
    if !is_moment(now) || message.len() > MAX_MESSAGE {
        return Err(Fail::new("no moment, or no message"));
    }
    told(alloc, post(alloc, files, config, now, sender, message))
}

/// A moderator answers with the letters for a ticket, and accepts or rejects it.
pub(crate) fn answered(
    alloc: Global,
    files: &mut OnSite,
    config: &Config,
    now: u64,
    ticket: &str,
    letters: &str,
    says: &str,
) -> Result<Told, Fail>
    requires { IsConfig config.now }
{
    let read = (
        read_number(ticket.as_bytes()),
        letters.as_bytes().split_first_chunk::<20>(),
    );
    let (Some(ticket), Some((letters, []))) = read else {
        return Err(Fail::new("no ticket, or no letters"));
    };
    let accepts = says == "accept";
    if !is_moment(now) || (!accepts && says != "reject") {
        return Err(Fail::new("no moment, or no answer"));
    }
    told(
        alloc,
        answer(alloc, files, config, now, ticket, letters, accepts),
    )
}

/// A message comes from a sender to a recipient.
pub(crate) fn mailed(
    alloc: Global,
    files: &mut OnSite,
    config: &Config,
    now: u64,
    sender: &[u8],
    recipient: &[u8],
    message: &[u8],
) -> Result<Told, Fail>
    requires { IsConfig config.now }
{
    let read = read_request(config.local.as_slice(), config.host.as_slice(), recipient);
    let Some(request) = read else {
        return Err(Fail::new("no request"));
    };
    if !is_managed(&request) || !is_moment(now) || message.len() > MAX_MESSAGE {
        return Err(Fail::new("no request that is managed, no moment, or no message"));
    }
    told(
        alloc,
        manage(alloc, files, config, now, sender, &request, message),
    )
}

/// A timed run, which also answers the files.
pub(crate) fn timed_run(
    alloc: Global,
    files: OnSite,
    config: &Config,
    now: u64,
) -> Result<(OnSite, Told), Fail>
    requires { IsConfig config.now }
{
    if !is_moment(now) {
        return Err(Fail::new("no moment"));
    }
    let (files, answer) = timed(alloc, files, config, now);
    Ok((files, told(alloc, answer)?))
}

/// Does the first thing that is due for the bounces of the set list.
pub(crate) fn served(alloc: Global, files: &mut OnSite, now: u64) -> Result<Told, Fail> {
    if !is_moment(now) {
        return Err(Fail::new("no moment"));
    }
    let actions = due(alloc, files, Set::List, now, 1)?;
    match actions.as_slice() {
        [action, ..] => {
            let puts = act(alloc, files, Set::List, action, now)?;
            Ok((puts, Bytes::from_slice(alloc, b"done")?))
        }
        [] => Ok((Txn::new(alloc), Bytes::from_slice(alloc, b"nothing")?)),
    }
}
